//! Files that are salvaged.

use crate::samples::{CAFE_FILE, MEMO_FILE, MIXED_FILE, MOST_SAMPLE, changed, listed, rewritten};
use canonical_file::SalvagedIds;
use file_commands::cmd_salvage_from;
use palm_text::Counted;
use program_io::Status;
use std::alloc::Global;
use std::str;
use std::test::*;
use test_support::{
    EMPTY_FILE, EMPTY_WRITTEN, ORDER_FILE, ORDER_WRITTEN, TINY_FILE, bytes_of, equal, holds,
};

/// What `salvage` writes and prints, and its status.
fn salvaged(
    alloc: Global,
    file: &[u8],
    ids: SalvagedIds,
) -> Result<(Status, Vec<u8>, Vec<u8>), Fail> {
    if file.len() > MOST_SAMPLE {
        return Err("a file that is too long")?;
    }
    let mut file_out = Counted::new(Vec::new(alloc));
    let mut out = Counted::new(Vec::new(alloc));
    let status = cmd_salvage_from(&alloc, file, ids, &mut file_out, &mut out);
    Ok((status, file_out.into_inner(), out.into_inner()))
}

/// A file, bytes that are written over it from an offset on, the salvaged file, and the lines.
type Case = (
    &'static str,
    usize,
    &'static [u8],
    &'static str,
    &'static str,
);

/// The worked file without its second record.
const WITHOUT_SECOND: &str = "4f72646572 00*27 0000 0000 00*24 44415441 54657374 00000001 \
    00000000 0002 00000060 00 000001 00000060 00 000005 0000 43434343";

/// The worked file without a record.
const WITHOUT_RECORDS: &str =
    "4f72646572 00*27 0000 0000 00*24 44415441 54657374 00000000 00000000 0000 0000";

/// The worked file with another name.
const RECOVERED: &str = "5265636f7665726564 00*23 0000 0000 00*24 44415441 54657374 00000002 \
    00000000 0003 00000068 00 000001 00000068 03 000005 0000006c 00 000002 0000 42424242 43434343";

static CASES: [Case; 12] = [
    // no fault: the canonical form, and no line
    (ORDER_FILE, 0, b"O", ORDER_WRITTEN, "ok 112\n"),
    (TINY_FILE, 0, b"T", TINY_FILE, "ok 106\n"),
    (CAFE_FILE, 0, b"C", CAFE_FILE, "ok 80\n"),
    (EMPTY_FILE, 0, b"E", EMPTY_WRITTEN, "ok 80\n"),
    // an entry with an offset one before the end of the entries, and one beyond the end of the file
    (
        ORDER_FILE,
        86,
        &[0, 0, 0, 0x65],
        WITHOUT_SECOND,
        "ok 100\nentry 1 offset 101 within the entries: dropped\n",
    ),
    (
        ORDER_FILE,
        86,
        &[0, 0, 0, 0x71],
        WITHOUT_SECOND,
        "ok 100\nentry 1 offset 113 beyond the end: dropped\n",
    ),
    // an entry with the offset 0 that isn't deleted
    (
        ORDER_FILE,
        86,
        &[0, 0, 0, 0],
        WITHOUT_SECOND,
        "ok 100\nentry 1 offset 0 within the entries: dropped\n",
    ),
    // the file ends before its entries
    (
        ORDER_FILE,
        76,
        &[0, 5],
        WITHOUT_RECORDS,
        "ok 80\nentries 5: the file ends in entry 4\n\
            entry 0 offset 108 within the entries: dropped\n\
            entry 1 offset 104 within the entries: dropped\n\
            entry 2 offset 108 within the entries: dropped\n\
            entry 3 offset 16962 beyond the end: dropped\n",
    ),
    // info blocks, a further list, and the name
    (
        ORDER_FILE,
        52,
        &[0, 0, 0, 12, 0, 0, 0, 0x71],
        ORDER_WRITTEN,
        "ok 112\napp offset 12 within the entries: dropped\n\
            sort offset 113 beyond the end: dropped\n",
    ),
    (
        ORDER_FILE,
        72,
        &[0x80, 0, 0, 0],
        ORDER_WRITTEN,
        "ok 112\nchained list: ignored\n",
    ),
    (
        ORDER_FILE,
        0,
        &[0],
        RECOVERED,
        "ok 112\nname empty: Recovered\n",
    ),
    // a deleted record without data stays
    (
        ORDER_FILE,
        86,
        &[0, 0, 0, 0, 0x83],
        "4f72646572 00*27 0000 0000 00*24 44415441 54657374 00000002 00000000 0003 \
            00000068 00 000001 00000000 83 000005 00000068 00 000002 0000 43434343",
        "ok 108\n",
    ),
];

#[test]
fn sound_parts_are_kept(rt: HostRuntime) -> Result<(), Fail> {
    for (listing, at, bytes, wanted, lines) in &CASES {
        let file = changed(rt.alloc(), listing, *at, bytes)?;
        let (status, written, text) = salvaged(rt.alloc(), &file, SalvagedIds::Distinct)?;
        equal(lines, status, Status::Done)?;
        equal(lines, written, bytes_of(rt.alloc(), wanted)?)?;
        equal(lines, str::from_utf8(&text)?, *lines)?;
    }
    Ok(())
}

/// With exact IDs the records keep 0 and IDs that occur twice, and the seed stays.
#[test]
fn exact_ids_are_kept(rt: HostRuntime) -> Result<(), Fail> {
    let wanted = "4f72646572 00*27 0000 0000 00*24 44415441 54657374 00000000 00000000 0003 \
        00000068 00 000000 00000068 03 000005 0000006c 00 000005 0000 42424242 43434343";
    let file = bytes_of(rt.alloc(), ORDER_FILE)?;
    let (status, written, text) = salvaged(rt.alloc(), &file, SalvagedIds::Exact)?;
    equal("status", status, Status::Done)?;
    equal("file", written, bytes_of(rt.alloc(), wanted)?)?;
    equal("text", text.as_slice(), b"ok 112\n")
}

/// The first `size` bytes of a file.
fn front(file: &[u8], size: usize) -> Result<&[u8], Fail> {
    if size > file.len() {
        return Err("a front that is too long")?;
    }
    Ok(&file[..size])
}

/// A file of 77 bytes is refused, and one of 78 or 79 is not.
#[test]
fn files_without_a_header_are_refused(rt: HostRuntime) -> Result<(), Fail> {
    let file = bytes_of(rt.alloc(), EMPTY_WRITTEN)?;
    let short = front(&file, 77)?;
    let (status, written, text) = salvaged(rt.alloc(), short, SalvagedIds::Distinct)?;
    equal("status", status, Status::Refused)?;
    equal("file", written.len(), 0)?;
    equal("text", text.as_slice(), b"bad Truncated\nat 77\n")?;
    for size in [78, 79] {
        let cut = front(&file, size)?;
        let (status, written, text) = salvaged(rt.alloc(), cut, SalvagedIds::Distinct)?;
        equal(size, status, Status::Done)?;
        equal(size, written, bytes_of(rt.alloc(), EMPTY_WRITTEN)?)?;
        equal(size, text.as_slice(), b"ok 80\n")?;
    }
    Ok(())
}

/// Each prefix of a file, and each file with another byte, is salvaged as a file without fault. If
/// it has no fault, that is its canonical form, and there is no line.
#[test]
fn salvaged_files_have_no_fault(rt: HostRuntime) -> Result<(), Fail> {
    for listing in [MEMO_FILE, MIXED_FILE, TINY_FILE] {
        let file = bytes_of(rt.alloc(), listing)?;
        for size in (78..file.len() + 1).step_by(3) {
            check_salvaged(rt.alloc(), front(&file, size)?)?;
        }
        for at in (0..file.len()).step_by(5) {
            check_salvaged(rt.alloc(), &changed(rt.alloc(), listing, at, &[0xFF])?)?;
        }
    }
    Ok(())
}

fn check_salvaged(alloc: Global, file: &[u8]) -> Result<(), Fail> {
    let (status, written, text) = salvaged(alloc, file, SalvagedIds::Distinct)?;
    equal(file.len(), status, Status::Done)?;
    let (status, listing) = listed(alloc, &written)?;
    equal(file.len(), status, Status::Done)?;
    holds(file.len(), listing.ends_with(b"canonical\n"))?;
    let (status, form, _) = rewritten(alloc, file)?;
    if status == Status::Done {
        let line = format!(in alloc; "ok {}\n", form.len())?;
        equal(file.len(), str::from_utf8(&text)?, line.as_str())?;
        equal(file.len(), written, form)?;
    }
    Ok(())
}
