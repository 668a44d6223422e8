//! `check --json` and `databases --json` that break off: each allocation fails in turn, each write
//! fails after each byte, and a flush fails.

use crate::stores::image_of;
use image_commands::check_region_from;
use palm_text::Counted;
use program_io::Status;
use program_io::command_line::Form;
use raw_region::Region;
use std::alloc::Global;
use std::io::{ErrorKind, Write};
use std::test::*;
use store_commands::cmd_databases;
use test_support::{Narrow, ORDER_FILE, RefusesOne, TINY_FILE, Unflushed, WhenFull, equal, holds};

/// A command that prints a document of an image.
#[derive(Clone, Copy, Debug)]
enum Command {
    Check,
    Databases,
}

static COMMANDS: [Command; 2] = [Command::Check, Command::Databases];

/// More allocations than a command makes.
const MANY: u32 = 200;

fn run_on<V: Write>(
    memory: &RefusesOne,
    command: Command,
    image: &[u8],
    out: &mut Counted<V>,
) -> Status {
    match command {
        Command::Check => match Region::copied_from(memory, image) {
            Ok(region) => check_region_from(memory, &region, Form::Json, out),
            Err(_) => Status::NoMemory,
        },
        Command::Databases => cmd_databases(memory, image, Form::Json, out),
    }
}

/// The document of an image, or for its first fault.
fn document_of(alloc: Global, command: Command, image: &[u8]) -> Vec<u8> {
    let mut out = Counted::new(Vec::new(alloc));
    run_on(&RefusesOne::behind(alloc, MANY), command, image, &mut out);
    out.into_inner()
}

/// Each allocation fails in turn, until none does: nothing is printed.
fn check_memory(alloc: Global, command: Command, image: &[u8], wanted: Status) -> Result<(), Fail> {
    for before in 0..MANY {
        let memory = RefusesOne::behind(alloc, before);
        let mut out = Counted::new(Vec::new(alloc));
        let status = run_on(&memory, command, image, &mut out);
        if !memory.has_refused() {
            return equal(before, status, wanted);
        }
        equal(before, status, Status::NoMemory)?;
        equal(before, out.into_inner().len(), 0)?;
    }
    Err(Fail::new("more allocations"))
}

#[test]
fn refused_memory_prints_no_document(rt: HostRuntime) -> Result<(), Fail> {
    let image = image_of(rt.alloc(), &[TINY_FILE, ORDER_FILE])?;
    for command in &COMMANDS {
        check_memory(rt.alloc(), *command, &image, Status::Done)?;
        check_memory(rt.alloc(), *command, b"no image", Status::Refused)?;
    }
    Ok(())
}

/// A writer with this much room gets a prefix of the document, and no call after the first failure.
fn check_cut(
    alloc: Global,
    command: Command,
    image: &[u8],
    room: usize,
    way: WhenFull,
) -> Result<(), Fail> {
    let mut out = Counted::new(Narrow::new(alloc, room, 5, way));
    let status = run_on(&RefusesOne::behind(alloc, MANY), command, image, &mut out);
    equal(room, status, Status::WriteFault)?;
    let narrow = out.into_inner();
    holds(room, narrow.is_cut_at(room))?;
    holds(
        room,
        document_of(alloc, command, image).starts_with(&narrow.taken),
    )
}

/// Each prefix of the document of an image.
fn check_cuts(alloc: Global, command: Command, image: &[u8]) -> Result<(), Fail> {
    for room in 0..document_of(alloc, command, image).len() {
        check_cut(alloc, command, image, room, WhenFull::TakesNothing)?;
    }
    check_cut(
        alloc,
        command,
        image,
        20,
        WhenFull::Fails(ErrorKind::StorageFull),
    )
}

#[test]
fn a_full_writer_gets_a_prefix_of_a_document(rt: HostRuntime) -> Result<(), Fail> {
    let image = image_of(rt.alloc(), &[TINY_FILE, ORDER_FILE])?;
    for command in &COMMANDS {
        check_cuts(rt.alloc(), *command, &image)?;
        check_cuts(rt.alloc(), *command, b"no image")?;
    }
    Ok(())
}

/// All of the document is written, and then the flush fails.
fn check_unflushed(alloc: Global, command: Command, image: &[u8]) -> Result<(), Fail> {
    let mut out = Counted::new(Unflushed(Vec::new(alloc)));
    let status = run_on(&RefusesOne::behind(alloc, MANY), command, image, &mut out);
    equal("status", status, Status::WriteFault)?;
    holds(
        "all of it",
        out.into_inner().0 == document_of(alloc, command, image),
    )
}

#[test]
fn a_flush_after_a_document_fails(rt: HostRuntime) -> Result<(), Fail> {
    let image = image_of(rt.alloc(), &[TINY_FILE, ORDER_FILE])?;
    for command in &COMMANDS {
        check_unflushed(rt.alloc(), *command, &image)?;
        check_unflushed(rt.alloc(), *command, b"no image")?;
    }
    Ok(())
}
