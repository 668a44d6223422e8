//! Folders that are packed, where each allocation fails in turn, and each write fails after some
//! bytes.

use crate::exact::folder_in;
use crate::samples::{MIXED_FILE, rewritten};
use file_commands::cmd_pack_from;
use file_parts::{FolderForm, read_folder};
use heap_model::Bytes;
use palm_text::Counted;
use program_io::Status;
use std::alloc::Global;
use std::test::*;
use test_support::{Narrow, ORDER_FILE, RefusesOne, WhenFull, bytes_of, equal, holds};

/// Files whose folders are packed, and the forms of the folders.
static PACKED: [(&str, FolderForm); 4] = [
    (MIXED_FILE, FolderForm::Canonical),
    (MIXED_FILE, FolderForm::Exact),
    (ORDER_FILE, FolderForm::Canonical),
    (ORDER_FILE, FolderForm::Exact),
];

/// Packs a folder with an allocation that fails, after `granted` others. Returns whether none was
/// left to fail.
fn packs_after(alloc: Global, text: &[u8], parts: &[Bytes], granted: u32) -> Result<bool, Fail> {
    let Ok(listed) = read_folder(&alloc, text) else {
        return Err("a faulty text")?;
    };
    if parts.len() != listed.part_count() {
        return Err("other parts")?;
    }
    let memory = RefusesOne::behind(alloc, granted);
    let mut file_out = Counted::new(Vec::new(alloc));
    let mut out = Counted::new(Vec::new(alloc));
    let status = cmd_pack_from(&memory, &listed, parts, &mut file_out, &mut out);
    if !memory.has_refused() {
        equal(granted, status, Status::Done)?;
        return Ok(true);
    }
    equal(granted, status, Status::NoMemory)?;
    equal(granted, file_out.into_inner().len(), 0)?;
    equal(granted, out.into_inner().len(), 0)?;
    Ok(false)
}

/// Packs a folder with each of its allocations failing.
fn check_pack_grants(alloc: Global, listing: &str, form: FolderForm) -> Result<(), Fail> {
    let Some(folder) = folder_in(alloc, form, &bytes_of(alloc, listing)?)? else {
        return Err("a file with a fault")?;
    };
    for granted in 0..100 {
        if packs_after(alloc, &folder.text, &folder.parts, granted)? {
            return holds(granted, granted > 3);
        }
    }
    Err("too many growths")?
}

#[test]
fn refused_memory_packs_nothing(rt: HostRuntime) -> Result<(), Fail> {
    for (listing, form) in &PACKED {
        check_pack_grants(rt.alloc(), listing, *form)?;
    }
    Ok(())
}

/// Packs a folder to a writer that takes `room` bytes of the file.
fn check_pack_cut(
    alloc: Global,
    text: &[u8],
    parts: &[Bytes],
    whole: &[u8],
    room: usize,
) -> Result<(), Fail> {
    let Ok(listed) = read_folder(&alloc, text) else {
        return Err("a faulty text")?;
    };
    if parts.len() != listed.part_count() {
        return Err("other parts")?;
    }
    let mut file_out = Counted::new(Narrow::new(alloc, room, 5, WhenFull::TakesNothing));
    let mut out = Counted::new(Vec::new(alloc));
    let status = cmd_pack_from(&alloc, &listed, parts, &mut file_out, &mut out);
    equal(room, status, Status::WriteFault)?;
    let narrow = file_out.into_inner();
    holds(room, narrow.is_cut_at(room))?;
    holds(room, whole.starts_with(&narrow.taken))?;
    equal(room, out.into_inner().len(), 0)
}

/// Packs the folder of a file to writers that take some bytes of the file. They are few, as each
/// canonical folder takes sets of all IDs.
fn check_pack_cuts(alloc: Global, listing: &str, form: FolderForm) -> Result<(), Fail> {
    let file = bytes_of(alloc, listing)?;
    let Some(folder) = folder_in(alloc, form, &file)? else {
        return Err("a file with a fault")?;
    };
    let whole = match form {
        FolderForm::Canonical => rewritten(alloc, &file)?.1,
        FolderForm::Exact => file,
    };
    for room in (0..whole.len()).step_by(35) {
        check_pack_cut(alloc, &folder.text, &folder.parts, &whole, room)?;
    }
    Ok(())
}

#[test]
fn a_full_writer_gets_a_prefix_of_a_packed_file(rt: HostRuntime) -> Result<(), Fail> {
    for (listing, form) in &PACKED {
        check_pack_cuts(rt.alloc(), listing, *form)?;
    }
    Ok(())
}
