//! What changes in a file when it is rewritten.

use crate::samples::{MEMO_FILE, MIXED_FILE, changed, listed, rewritten};
use program_io::Status;
use std::str;
use std::test::*;
use test_support::{ORDER_FILE, TINY_FILE, bytes_of, equal, holds};

/// Files, in which some bytes stand from an offset on instead, and the last line of their listings.
static CHANGES: [(&str, usize, &[u8], &str); 15] = [
    // the attributes of the record: busy, and each other bit
    (MEMO_FILE, 82, &[0x21], "changes busy"),
    (MEMO_FILE, 82, &[0xDF], "canonical"),
    // the two bytes after the entries, and data that begins sooner or later
    (MEMO_FILE, 86, &[1], "changes filler"),
    (MEMO_FILE, 87, &[0xFF], "changes filler"),
    (MEMO_FILE, 81, &[86], "changes filler"),
    (MEMO_FILE, 81, &[89], "changes filler"),
    // the ID of the record
    (MEMO_FILE, 83, &[0, 0, 0], "changes ids"),
    (MEMO_FILE, 83, &[0xFF, 0xFF, 0xFF], "canonical"),
    // the name after its first zero, and the last byte of its field
    (MEMO_FILE, 7, b"x", "changes name"),
    (
        MEMO_FILE,
        0,
        b"0123456789012345678901234567890\0",
        "canonical",
    ),
    (
        MEMO_FILE,
        0,
        b"01234567890123456789012345678901",
        "changes name",
    ),
    // the offset of the second resource: that of the first, and the end
    (TINY_FILE, 97, &[100], "canonical"),
    (TINY_FILE, 97, &[106], "canonical"),
    // two resources against the order of the list, without and with bytes before the first of them
    (
        TINY_FILE,
        84,
        b"\0\0\0\x67tSTR\x03\xE9\0\0\0\x64",
        "changes order",
    ),
    (TINY_FILE, 87, &[104], "changes filler order"),
];

#[test]
fn each_change_has_its_word(rt: HostRuntime) -> Result<(), Fail> {
    for (file, at, bytes, line) in &CHANGES {
        let file = changed(rt.alloc(), file, *at, bytes)?;
        let (status, text) = listed(rt.alloc(), &file)?;
        equal(format_args!("{at} {line}"), status, Status::Done)?;
        let text = str::from_utf8(&text)?;
        equal(
            format_args!("{at} {line}"),
            text.lines().last(),
            Some(*line),
        )?;
    }
    Ok(())
}

/// All words of one file, in their order.
#[test]
fn words_come_in_one_order(rt: HostRuntime) -> Result<(), Fail> {
    let mut file = bytes_of(rt.alloc(), MIXED_FILE)?;
    if file.len() < 96 {
        return Err("a file that is too short")?;
    }
    file[31] = 1;
    file[95] = 1;
    let (status, _, text) = rewritten(rt.alloc(), &file)?;
    equal("all", status, Status::Done)?;
    equal(
        "all",
        str::from_utf8(&text)?,
        "ok 101\nchanges busy filler ids name order\n",
    )
}

/// Whatever byte is set in a file, it is listed as canonical exactly if it is rewritten as it is.
#[test]
fn canonical_files_stay(rt: HostRuntime) -> Result<(), Fail> {
    for listing in [TINY_FILE, MEMO_FILE, ORDER_FILE] {
        let file = bytes_of(rt.alloc(), listing)?;
        for at in 0..file.len() {
            let file = changed(rt.alloc(), listing, at, &[0x21])?;
            let (_, written, text) = rewritten(rt.alloc(), &file)?;
            let (_, lines) = listed(rt.alloc(), &file)?;
            let stays = written.as_slice() == file.as_slice();
            holds(at, stays == lines.ends_with(b"canonical\n"))?;
            holds(at, stays == text.ends_with(b"canonical\n"))?;
        }
    }
    Ok(())
}
