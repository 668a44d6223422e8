//! Commands that break off: each allocation fails in turn, and each write fails after
//! each byte.

use crate::samples::{MIXED_FILE, changed, documented, listed, rewritten};
use canonical_file::SalvagedIds;
use file_commands::{
    NewBlock, WantedBlock, cmd_canonical_from, cmd_changes_from, cmd_get_from, cmd_list_from,
    cmd_put_from, cmd_salvage_from,
};
use file_listing::TextRows;
use json_documents::JsonRows;
use palm_text::Counted;
use program_io::Status;
use std::alloc::Global;
use std::io::ErrorKind;
use std::test::*;
use test_support::{
    Narrow, ORDER_FILE, RefusesOne, TINY_FILE, Unflushed, WhenFull, bytes_of, equal, holds,
};

/// The most bytes that a file may have.
const MOST_BROKEN: usize = 16_777_216;

/// The data of the second record, which is first in the file.
const NEW_BLOCK: NewBlock<'static> = NewBlock {
    wanted: WantedBlock::Entry(1),
    bytes: b"abcd",
};

#[test]
fn refused_memory_prints_nothing(rt: HostRuntime) -> Result<(), Fail> {
    let file = bytes_of(rt.alloc(), MIXED_FILE)?;
    if file.len() > MOST_BROKEN {
        return Ok(());
    }
    for granted in 0..100 {
        let memory = RefusesOne::behind(rt.alloc(), granted);
        let mut out = Counted::new(Vec::new(rt.alloc()));
        let status = cmd_list_from(
            &memory,
            &TextRows { path: None },
            &file.as_slice(),
            &mut out,
        );
        if !memory.has_refused() {
            holds(granted, granted > 3)?;
            return equal(granted, status, Status::Done);
        }
        equal(granted, status, Status::NoMemory)?;
        equal(granted, out.into_inner().len(), 0)?;
    }
    Err("too many growths")?
}

#[test]
fn refused_memory_prints_no_document(rt: HostRuntime) -> Result<(), Fail> {
    let file = bytes_of(rt.alloc(), MIXED_FILE)?;
    if file.len() > MOST_BROKEN {
        return Ok(());
    }
    for granted in 0..100 {
        let memory = RefusesOne::behind(rt.alloc(), granted);
        let mut out = Counted::new(Vec::new(rt.alloc()));
        let status = cmd_list_from(
            &memory,
            &JsonRows { path: None },
            &file.as_slice(),
            &mut out,
        );
        if !memory.has_refused() {
            holds(granted, granted > 3)?;
            return equal(granted, status, Status::Done);
        }
        equal(granted, status, Status::NoMemory)?;
        equal(granted, out.into_inner().len(), 0)?;
    }
    Err("too many growths")?
}

/// A file for which there is not enough memory leaves no heading.
#[test]
fn refused_memory_prints_no_changes(rt: HostRuntime) -> Result<(), Fail> {
    let file = bytes_of(rt.alloc(), MIXED_FILE)?;
    if file.len() > MOST_BROKEN {
        return Ok(());
    }
    for granted in 0..100 {
        let memory = RefusesOne::behind(rt.alloc(), granted);
        let mut out = Counted::new(Vec::new(rt.alloc()));
        let status = cmd_changes_from(&memory, Some("a.pdb"), &file.as_slice(), &mut out);
        if !memory.has_refused() {
            holds(granted, granted > 3)?;
            return equal(granted, status, Status::Done);
        }
        equal(granted, status, Status::NoMemory)?;
        equal(granted, out.into_inner().len(), 0)?;
    }
    Err("too many growths")?
}

#[test]
fn refused_memory_writes_nothing(rt: HostRuntime) -> Result<(), Fail> {
    let file = bytes_of(rt.alloc(), MIXED_FILE)?;
    if file.len() > MOST_BROKEN {
        return Ok(());
    }
    for granted in 0..100 {
        let memory = RefusesOne::behind(rt.alloc(), granted);
        let mut file_out = Counted::new(Vec::new(rt.alloc()));
        let mut out = Counted::new(Vec::new(rt.alloc()));
        let status = cmd_canonical_from(&memory, &file, &mut file_out, &mut out);
        if !memory.has_refused() {
            return equal(granted, status, Status::Done);
        }
        equal(granted, status, Status::NoMemory)?;
        equal(granted, file_out.into_inner().len(), 0)?;
        equal(granted, out.into_inner().len(), 0)?;
    }
    Err("too many growths")?
}

#[test]
fn refused_memory_salvages_nothing(rt: HostRuntime) -> Result<(), Fail> {
    for ids in [SalvagedIds::Distinct, SalvagedIds::Exact] {
        check_salvage_grants(rt.alloc(), ids)?;
    }
    Ok(())
}

fn check_salvage_grants(alloc: Global, ids: SalvagedIds) -> Result<(), Fail> {
    let file = changed(alloc, ORDER_FILE, 86, &[0, 0, 0, 0x65])?;
    if file.len() > MOST_BROKEN {
        return Ok(());
    }
    for granted in 0..100 {
        let memory = RefusesOne::behind(alloc, granted);
        let mut file_out = Counted::new(Vec::new(alloc));
        let mut out = Counted::new(Vec::new(alloc));
        let status = cmd_salvage_from(&memory, &file, ids, &mut file_out, &mut out);
        if !memory.has_refused() {
            holds(granted, granted > 3)?;
            return equal(granted, status, Status::Done);
        }
        equal(granted, status, Status::NoMemory)?;
        equal(granted, file_out.into_inner().len(), 0)?;
        equal(granted, out.into_inner().len(), 0)?;
    }
    Err("too many growths")?
}

#[test]
fn refused_memory_gets_nothing(rt: HostRuntime) -> Result<(), Fail> {
    let file = bytes_of(rt.alloc(), MIXED_FILE)?;
    if file.len() > MOST_BROKEN {
        return Ok(());
    }
    for granted in 0..100 {
        let memory = RefusesOne::behind(rt.alloc(), granted);
        let mut block_out = Counted::new(Vec::new(rt.alloc()));
        let mut out = Counted::new(Vec::new(rt.alloc()));
        let wanted = WantedBlock::Entry(1);
        let status = cmd_get_from(&memory, &file, wanted, &mut block_out, &mut out);
        if !memory.has_refused() {
            return equal(granted, status, Status::Done);
        }
        equal(granted, status, Status::NoMemory)?;
        equal(granted, block_out.into_inner().len(), 0)?;
        equal(granted, out.into_inner().len(), 0)?;
    }
    Err("too many growths")?
}

#[test]
fn refused_memory_puts_nothing(rt: HostRuntime) -> Result<(), Fail> {
    let file = bytes_of(rt.alloc(), MIXED_FILE)?;
    if file.len() > MOST_BROKEN {
        return Ok(());
    }
    for granted in 0..100 {
        let memory = RefusesOne::behind(rt.alloc(), granted);
        let mut file_out = Counted::new(Vec::new(rt.alloc()));
        let mut out = Counted::new(Vec::new(rt.alloc()));
        let status = cmd_put_from(&memory, &file, NEW_BLOCK, &mut file_out, &mut out);
        if !memory.has_refused() {
            return equal(granted, status, Status::Done);
        }
        equal(granted, status, Status::NoMemory)?;
        equal(granted, file_out.into_inner().len(), 0)?;
        equal(granted, out.into_inner().len(), 0)?;
    }
    Err("too many growths")?
}

/// A new file is cut after each byte, and nothing is printed then. The line after a whole file is
/// cut too.
#[test]
fn a_full_writer_gets_a_prefix_of_a_new_file(rt: HostRuntime) -> Result<(), Fail> {
    let file = bytes_of(rt.alloc(), MIXED_FILE)?;
    if file.len() > MOST_BROKEN {
        return Ok(());
    }
    for room in 0..101 {
        let mut file_out = Counted::new(Narrow::new(rt.alloc(), room, 7, WhenFull::TakesNothing));
        let mut out = Counted::new(Vec::new(rt.alloc()));
        let status = cmd_put_from(&rt.alloc(), &file, NEW_BLOCK, &mut file_out, &mut out);
        equal(room, status, Status::WriteFault)?;
        holds(room, file_out.into_inner().is_cut_at(room))?;
        equal(room, out.into_inner().len(), 0)?;
    }
    Ok(())
}

/// A block, and the line for one that the file doesn't have, are cut like a listing. Nothing goes
/// to the other writer.
#[test]
fn a_full_writer_gets_a_prefix_of_a_block(rt: HostRuntime) -> Result<(), Fail> {
    let file = bytes_of(rt.alloc(), TINY_FILE)?;
    if file.len() > MOST_BROKEN {
        return Ok(());
    }
    for room in 0..3 {
        let mut block_out = Counted::new(Narrow::new(rt.alloc(), room, 2, WhenFull::TakesNothing));
        let mut out = Counted::new(Vec::new(rt.alloc()));
        let wanted = WantedBlock::Entry(0);
        let status = cmd_get_from(&rt.alloc(), &file, wanted, &mut block_out, &mut out);
        equal(room, status, Status::WriteFault)?;
        holds(room, block_out.into_inner().is_cut_at(room))?;
        equal(room, out.into_inner().len(), 0)?;
    }
    for room in 0..27 {
        let mut block_out = Counted::new(Vec::new(rt.alloc()));
        let mut out = Counted::new(Narrow::new(rt.alloc(), room, 5, WhenFull::TakesNothing));
        let wanted = WantedBlock::Entry(2);
        let status = cmd_get_from(&rt.alloc(), &file, wanted, &mut block_out, &mut out);
        equal(room, status, Status::WriteFault)?;
        holds(room, out.into_inner().is_cut_at(room))?;
        equal(room, block_out.into_inner().len(), 0)?;
    }
    Ok(())
}

/// Each prefix of a listing is all that is printed if the writer has no more room.
#[test]
fn a_full_writer_gets_a_prefix(rt: HostRuntime) -> Result<(), Fail> {
    let file = bytes_of(rt.alloc(), TINY_FILE)?;
    let (_, text) = listed(rt.alloc(), &file)?;
    if file.len() > MOST_BROKEN {
        return Ok(());
    }
    for room in 0..text.len() {
        let narrow = Narrow::new(rt.alloc(), room, 3, WhenFull::Fails(ErrorKind::StorageFull));
        let mut out = Counted::new(narrow);
        let status = cmd_list_from(
            &rt.alloc(),
            &TextRows { path: None },
            &file.as_slice(),
            &mut out,
        );
        equal(room, status, Status::WriteFault)?;
        let narrow = out.into_inner();
        holds(room, narrow.is_cut_at(room))?;
        holds(room, text.starts_with(&narrow.taken))?;
    }
    Ok(())
}

/// Canonical forms are cut in the same way at a few bytes, as each takes sets of all IDs. Nothing
/// is printed. The first file stays the same, and is written at once. The second one is written in
/// parts, and its last cut is in a block.
#[test]
fn a_full_writer_gets_a_prefix_of_a_form(rt: HostRuntime) -> Result<(), Fail> {
    check_form_cuts(rt.alloc(), &bytes_of(rt.alloc(), TINY_FILE)?)?;
    check_form_cuts(rt.alloc(), &bytes_of(rt.alloc(), ORDER_FILE)?)
}

fn check_form_cuts(alloc: Global, file: &[u8]) -> Result<(), Fail> {
    let (_, form, _) = rewritten(alloc, file)?;
    if file.len() > MOST_BROKEN {
        return Ok(());
    }
    for room in (0..form.len()).step_by(35) {
        let mut file_out = Counted::new(Narrow::new(alloc, room, 5, WhenFull::TakesNothing));
        let mut out = Counted::new(Vec::new(alloc));
        let status = cmd_canonical_from(&alloc, file, &mut file_out, &mut out);
        equal(room, status, Status::WriteFault)?;
        let narrow = file_out.into_inner();
        holds(room, narrow.is_cut_at(room))?;
        holds(room, form.starts_with(&narrow.taken))?;
        equal(room, out.into_inner().len(), 0)?;
    }
    Ok(())
}

/// A salvaged file is cut in the same way, and so are its lines, after the whole file.
#[test]
fn a_full_writer_gets_a_prefix_of_a_salvage(rt: HostRuntime) -> Result<(), Fail> {
    let file = changed(rt.alloc(), ORDER_FILE, 86, &[0, 0, 0, 0x65])?;
    if file.len() > MOST_BROKEN {
        return Ok(());
    }
    for room in (0..100).step_by(33) {
        let mut file_out = Counted::new(Narrow::new(rt.alloc(), room, 5, WhenFull::TakesNothing));
        let mut out = Counted::new(Vec::new(rt.alloc()));
        let ids = SalvagedIds::Exact;
        let status = cmd_salvage_from(&rt.alloc(), &file, ids, &mut file_out, &mut out);
        equal(room, status, Status::WriteFault)?;
        holds(room, file_out.into_inner().is_cut_at(room))?;
        equal(room, out.into_inner().len(), 0)?;
    }
    for room in 0..54 {
        let mut file_out = Counted::new(Vec::new(rt.alloc()));
        let mut out = Counted::new(Narrow::new(rt.alloc(), room, 5, WhenFull::TakesNothing));
        let ids = SalvagedIds::Exact;
        let status = cmd_salvage_from(&rt.alloc(), &file, ids, &mut file_out, &mut out);
        equal(room, status, Status::WriteFault)?;
        holds(room, out.into_inner().is_cut_at(room))?;
        equal(room, file_out.into_inner().len(), 100)?;
    }
    Ok(())
}

/// A file that stays the same is not copied: the allocations are its sorted offsets, the places of
/// its blocks, a set of IDs, and the IDs.
#[test]
fn a_canonical_file_takes_little_memory(rt: HostRuntime) -> Result<(), Fail> {
    let file = bytes_of(rt.alloc(), TINY_FILE)?;
    if file.len() > MOST_BROKEN {
        return Ok(());
    }
    let memory = RefusesOne::behind(rt.alloc(), 4);
    let mut file_out = Counted::new(Vec::new(rt.alloc()));
    let mut out = Counted::new(Vec::new(rt.alloc()));
    let status = cmd_canonical_from(&memory, &file, &mut file_out, &mut out);
    equal("status", status, Status::Done)?;
    holds("grants", !memory.has_refused())
}

/// The lines for a fault are cut in the same way.
#[test]
fn a_full_writer_gets_a_prefix_of_a_fault(rt: HostRuntime) -> Result<(), Fail> {
    let file = changed(rt.alloc(), ORDER_FILE, 86, &[0, 0, 0, 0x65])?;
    if file.len() > MOST_BROKEN {
        return Ok(());
    }
    for room in 0..22 {
        let mut out = Counted::new(Narrow::new(rt.alloc(), room, 5, WhenFull::TakesNothing));
        let status = cmd_list_from(
            &rt.alloc(),
            &TextRows { path: None },
            &file.as_slice(),
            &mut out,
        );
        equal(room, status, Status::WriteFault)?;
        holds(room, out.into_inner().is_cut_at(room))?;
    }
    Ok(())
}

/// Documents of a file and of a damaged one are cut in the same way.
#[test]
fn a_full_writer_gets_a_prefix_of_a_document(rt: HostRuntime) -> Result<(), Fail> {
    check_document_cuts(rt.alloc(), &bytes_of(rt.alloc(), TINY_FILE)?)?;
    check_document_cuts(
        rt.alloc(),
        &changed(rt.alloc(), ORDER_FILE, 86, &[0, 0, 0, 0x65])?,
    )
}

fn check_document_cuts(alloc: Global, file: &[u8]) -> Result<(), Fail> {
    let (_, text) = documented(alloc, file)?;
    if file.len() > MOST_BROKEN {
        return Ok(());
    }
    for room in 0..text.len() {
        let mut out = Counted::new(Narrow::new(alloc, room, 5, WhenFull::TakesNothing));
        let status = cmd_list_from(&alloc, &JsonRows { path: None }, &file, &mut out);
        equal(room, status, Status::WriteFault)?;
        let narrow = out.into_inner();
        holds(room, narrow.is_cut_at(room))?;
        holds(room, text.starts_with(&narrow.taken))?;
    }
    Ok(())
}

/// A flush that fails is a write fault of each command, after all that comes before it.
#[test]
fn flushes_that_fail(rt: HostRuntime) -> Result<(), Fail> {
    let file = bytes_of(rt.alloc(), MIXED_FILE)?;
    if file.len() > MOST_BROKEN {
        return Ok(());
    }
    let mut out = Counted::new(Unflushed(Vec::new(rt.alloc())));
    let status = cmd_list_from(
        &rt.alloc(),
        &TextRows { path: None },
        &file.as_slice(),
        &mut out,
    );
    equal("list", status, Status::WriteFault)?;
    let mut out = Counted::new(Unflushed(Vec::new(rt.alloc())));
    let status = cmd_list_from(
        &rt.alloc(),
        &JsonRows { path: None },
        &file.as_slice(),
        &mut out,
    );
    equal("list --json", status, Status::WriteFault)?;
    let mut block_out = Counted::new(Unflushed(Vec::new(rt.alloc())));
    let mut out = Counted::new(Vec::new(rt.alloc()));
    let wanted = WantedBlock::Entry(1);
    let status = cmd_get_from(&rt.alloc(), &file, wanted, &mut block_out, &mut out);
    equal("get", status, Status::WriteFault)?;
    equal("get", out.into_inner().len(), 0)?;
    let mut file_out = Counted::new(Unflushed(Vec::new(rt.alloc())));
    let mut out = Counted::new(Vec::new(rt.alloc()));
    let status = cmd_canonical_from(&rt.alloc(), &file, &mut file_out, &mut out);
    equal("canonical", status, Status::WriteFault)?;
    equal("canonical", out.into_inner().len(), 0)?;
    let mut file_out = Counted::new(Unflushed(Vec::new(rt.alloc())));
    let mut out = Counted::new(Vec::new(rt.alloc()));
    let ids = SalvagedIds::Exact;
    let status = cmd_salvage_from(&rt.alloc(), &file, ids, &mut file_out, &mut out);
    equal("salvage", status, Status::WriteFault)?;
    equal("salvage", out.into_inner().len(), 0)
}
