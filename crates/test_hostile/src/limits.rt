//! Images and scripts at their limits: no "out of memory" is invented for them.

ghost use Rattle.std.specs.Prelude.{[], ◌≡◌, IfOk, None};

use heap_model::{Bytes, Call, FileCall, MemoryCall, Name, Reply};
use image_commands::cmd_check;
use palm_script::{do_call, run_calls};
use palm_store::{Store, StoreSummary};
use palm_text::Counted;
use palmheap_program::cmd_run;
use pdb_files::{export, import};
use program_io::{MOST_INPUT, Status};
use std::alloc::{AllocError, Global};
use std::test::*;
use test_beside::{blank_image, store_of};
use test_support::{EMPTY_FILE, bytes_of, changed_words, equal, holds};

/// The most bytes of an image.
const MOST_HOSTILE: u32 = 16_777_208;

/// The status of a run without files, the image that it writes, and what it prints.
#[derive(Drop)]
struct Ran {
    status: Status,
    image: Vec<u8>,
    said: Vec<u8>,
}

fn run_on(alloc: Global, image: &[u8], script: &str) -> Ran {
    let mut image_out = Counted::new(Vec::new(alloc));
    let mut out = Counted::new(Vec::new(alloc));
    let mut files = Vec::new(alloc);
    let script = script.as_bytes();
    let status = cmd_run(
        alloc,
        image,
        script,
        &[],
        &mut image_out,
        &mut files,
        &mut out,
    );
    Ran {
        status,
        image: image_out.into_inner(),
        said: out.into_inner(),
    }
}

/// Whether a run prints this, and leaves the image as it was.
fn only_says(alloc: Global, image: &[u8], script: &str, said: &[u8]) -> bool {
    let ran = run_on(alloc, image, script);
    ran.status == Status::Done && ran.said.as_slice() == said && ran.image.as_slice() == image
}

fn check_empty_script(alloc: Global, slots: u16) -> Result<(), Fail> {
    let image = blank_image(alloc, MOST_HOSTILE, slots)?;
    let is_kept = only_says(alloc, &image, "", b"");
    holds(format_args!("{slots} slots"), is_kept)
}

#[test]
fn an_empty_script_runs_on_the_largest_image(rt: HostRuntime) -> Result<(), Fail> {
    check_empty_script(rt.alloc(), 1)?;
    check_empty_script(rt.alloc(), 65_535)
}

/// What `check` says of an image of the most bytes and slots whose last slot is that of a chunk
/// with an owner and no byte.
fn said_of_owned(alloc: Global, owner: u32) -> Result<(Status, String), Fail> {
    let words = [
        (262_152, 262_168),
        (262_160, 8),
        (262_164, owner % 16 * 0x100_0000 + 0xFF_FFFC),
        (262_168, 0x8000_0000 | MOST_HOSTILE - 262_168),
    ];
    let image = changed_words(alloc, MOST_HOSTILE, 65_535, &words)?;
    let mut out = Counted::new(Vec::new(alloc));
    let status = cmd_check(alloc, image.as_slice(), &mut out);
    Ok((status, String::from_utf8(out.into_inner())?))
}

/// Owners of a chunk in the last slot, and what `check` says of it.
static OWNERS: [(u32, Status, &str); 4] = [
    (
        1,
        Status::Done,
        "ok size 16777208 slots 65535 movable 1 fixed 0 free 16515040\ndatabases 0\n",
    ),
    (0, Status::Refused, "bad StrayChunk 262152\n"),
    (15, Status::Refused, "bad StrayChunk 262152\n"),
    (
        14,
        Status::Done,
        "ok size 16777208 slots 65535 movable 1 fixed 0 free 16515040\ndatabases 0\n",
    ),
];

fn check_owner(alloc: Global, owner: u32, status: Status, text: &str) -> Result<(), Fail> {
    let (found, said) = said_of_owned(alloc, owner)?;
    holds(
        format_args!("owner {owner}: {said}"),
        found == status && said.as_str() == text,
    )
}

#[test]
fn a_stray_chunk_in_the_last_slot_is_found(rt: HostRuntime) -> Result<(), Fail> {
    for (owner, status, text) in &OWNERS {
        check_owner(rt.alloc(), *owner, *status, text)?;
    }
    Ok(())
}

/// How many bytes the largest chunk has.
const LARGEST: u32 = 16_777_176;

/// A read of all of its bytes.
const READ: Call = Call::Memory(MemoryCall::Read {
    name: Name(16),
    at: 0,
    count: LARGEST,
});

/// A store with the largest chunk alone.
fn with_largest(alloc: Global) -> Result<Store, Fail>
    ensures { IfOk result (λ made. made.lents ≡ []) }
{
    let mut store = store_of(alloc, &blank_image(alloc, MOST_HOSTILE, 1)?)?;
    let made = store.handle_new(LARGEST, 1);
    equal("the chunk", made, Ok(Name(16)))?;
    Ok(store)
}

#[test]
fn the_largest_chunk_is_read(rt: HostRuntime) -> Result<(), Fail> {
    let mut store = with_largest(rt.alloc())?;
    let length = length_of(&do_call(rt.alloc(), &mut store, &READ));
    equal("bytes", length, Some(16_777_176))
}

/// The same in a list.
#[test]
fn the_largest_chunk_is_read_in_a_list(rt: HostRuntime) -> Result<(), Fail> {
    let mut store = with_largest(rt.alloc())?;
    let replies = run_calls(rt.alloc(), &mut store, &[READ])?;
    let length = replies.first().and_then(length_of);
    holds("bytes", replies.len() == 1 && length == Some(16_777_176))
}

/// How many bytes were read.
fn length_of(reply: &Reply) -> Option<usize> {
    match reply {
        Reply::Data(bytes) => Some(bytes.as_slice().len()),
        _ => None,
    }
}

/// A list of 100,000 calls is run, and each has a reply.
#[test]
fn a_hundred_thousand_calls_are_done(rt: HostRuntime) -> Result<(), Fail> {
    let mut store = store_of(rt.alloc(), &blank_image(rt.alloc(), 128, 4)?)?;
    let mut calls: Vec<Call> = Vec::with_capacity(rt.alloc(), 100_000)?;
    for _ in 0..100_000 {
        calls.push(Call::Memory(MemoryCall::FreeBytes))?;
    }
    let replies = run_calls(rt.alloc(), &mut store, &calls)?;
    let is_right = replies.iter().all(|reply| *reply == Reply::Number(96));
    holds("replies", replies.len() == 100_000 && is_right)
}

/// A file with one record, which has the given number of bytes.
fn file_of_one(alloc: Global, size: usize) -> Result<Vec<u8>, Fail> {
    let mut file = bytes_of(alloc, EMPTY_FILE)?;
    file.truncate(76);
    file.extend_from_slice(&[0, 1, 0, 0, 0, 88, 0, 0, 0, 1, 0, 0])?;
    file.resize(88usize.saturating_add(size), 7)?;
    Ok(file)
}

/// A file of 10 MB is imported, and exported as it was.
#[test]
fn ten_million_bytes_are_imported(rt: HostRuntime) -> Result<(), Fail> {
    let file = file_of_one(rt.alloc(), 10_000_000)?;
    let mut store = store_of(rt.alloc(), &blank_image(rt.alloc(), MOST_HOSTILE, 16)?)?;
    let db = import(rt.alloc(), &mut store, &file)?;
    let mut out = Counted::new(Vec::new(rt.alloc()));
    equal("bytes", export(&store, db, &mut out).ok(), Some(10_000_088))?;
    holds("file", out.into_inner().as_slice() == file.as_slice())
}

/// A file of 100 KB. A `Vec` that grows while it is written needs more room at 64 KB.
fn hundred_kilobytes(alloc: Global) -> Result<Vec<u8>, Fail> {
    file_of_one(alloc, 100_000)
}

/// Whether a reply has these bytes.
fn has_bytes(reply: &Reply, bytes: &[u8]) -> bool {
    match reply {
        Reply::Data(data) => data.as_slice() == bytes,
        _ => false,
    }
}

/// It is exported by a call, without "out of memory".
#[test]
fn a_hundred_kilobytes_are_exported_by_a_call(rt: HostRuntime) -> Result<(), Fail> {
    let file = hundred_kilobytes(rt.alloc())?;
    let mut store = store_of(rt.alloc(), &blank_image(rt.alloc(), 200_000, 16)?)?;
    let db = import(rt.alloc(), &mut store, &file)?;
    let reply = do_call(rt.alloc(), &mut store, &Call::File(FileCall::Export(db)));
    holds("file", has_bytes(&reply, &file))
}

/// The same in a script.
#[test]
fn a_hundred_kilobytes_are_exported_by_a_script(rt: HostRuntime) -> Result<(), Fail> {
    let image = blank_image(rt.alloc(), 200_000, 16)?;
    let inputs = [Bytes::of(hundred_kilobytes(rt.alloc())?)];
    let mut image_out = Counted::new(Vec::new(rt.alloc()));
    let mut out = Counted::new(Vec::new(rt.alloc()));
    let mut files = Vec::new(rt.alloc());
    let status = cmd_run(
        rt.alloc(),
        &image,
        b"import d 1\nexport d\n",
        &inputs,
        &mut image_out,
        &mut files,
        &mut out,
    );
    equal("status", status, Status::Done)?;
    holds(
        "replies",
        out.into_inner().as_slice() == b"ok\nok 100088\n".as_slice(),
    )?;
    holds("file", files.as_slice() == inputs.as_slice())
}

/// A script as long as an input file may be: lines of 4,096 bytes that are passed over, and one
/// after them.
fn longest(alloc: Global) -> Result<String, AllocError> {
    let lines = long_line(alloc)?.as_str().repeat(alloc, 4_095)?;
    let empty_lines = "\n".repeat(alloc, 4_086)?;
    format!(in alloc; "{lines}{empty_lines}freebytes\n")
}

fn long_line(alloc: Global) -> Result<String, AllocError> {
    let filling = "x".repeat(alloc, 4_094)?;
    format!(in alloc; "#{filling}\n")
}

#[test]
fn the_longest_script_runs(rt: HostRuntime) -> Result<(), Fail> {
    let script = longest(rt.alloc())?;
    equal("bytes", script.len(), MOST_INPUT)?;
    let image = blank_image(rt.alloc(), 128, 4)?;
    let is_run = only_says(rt.alloc(), &image, script.as_str(), b"ok 96\n");
    holds("the line behind them", is_run)
}

/// The given number of lines that bind as many labels of databases, and then two that use the first
/// and the last.
fn labels(alloc: Global, count: u32) -> Result<String, AllocError> {
    let mut script = String::from_str(alloc, "create d0 \"A\" \"DATA\" \"Test\" 0 5\n")?;
    for number in 1..count {
        writeln!(script, "nth d{number} 0")?;
    }
    writeln!(script, "reccount d0\nreccount d{}", count.saturating_sub(1))?;
    Ok(script)
}

/// Each line has a reply, and the last two give the number of records.
fn are_answered(ran: &Ran) -> bool {
    let lines = ran.said.iter().filter(|byte| **byte == b'\n').count();
    ran.status == Status::Done && ran.said.ends_with(b"\nok\nok 0\nok 0\n") && lines == 1027
}

#[test]
fn a_script_has_1025_labels_of_databases(rt: HostRuntime) -> Result<(), Fail> {
    let image = blank_image(rt.alloc(), 1024, 16)?;
    let script = labels(rt.alloc(), 1025)?;
    let ran = run_on(rt.alloc(), &image, script.as_str());
    holds("1,027 replies", are_answered(&ran))
}

/// An image of one slot, and of fixed chunks without a byte.
fn fixed_chunks(alloc: Global, size: u32) -> Result<Vec<u8>, Fail> {
    let mut bytes = Vec::from_slice(alloc, b"PHI1")?;
    bytes.extend_from_slice(&size.to_be_bytes())?;
    bytes.extend_from_slice(&[0, 1, 0, 0, 0, 0, 0, 0, 0, 0, 0, 0, 0, 0, 0, 0])?;
    for _ in 0..size.saturating_sub(24) / 8 {
        bytes.extend_from_slice(&[0, 0, 0, 8, 0xF1, 0, 0, 0])?;
    }
    Ok(bytes)
}

#[test]
fn an_image_has_nothing_but_fixed_chunks(rt: HostRuntime) -> Result<(), Fail> {
    let store = store_of(rt.alloc(), &fixed_chunks(rt.alloc(), MOST_HOSTILE)?)?;
    let StoreSummary { heap, databases } = store.summary();
    let is_right = heap.fixed == (MOST_HOSTILE - 24) / 8 && heap.free == 0 && heap.movable == 0;
    holds(
        "fixed, free, movable, databases",
        is_right && databases == 0,
    )
}
