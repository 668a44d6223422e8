//! Files with a block replaced by `put`, and blocks that are not replaced.

use crate::samples::{MEMO_FILE, MIXED_FILE, changed};
use file_commands::{NewBlock, cmd_put_from, wanted_block};
use palm_text::Counted;
use program_io::Status;
use std::alloc::Global;
use std::str;
use std::test::*;
use test_support::{ORDER_FILE, TINY_FILE, bytes_of, equal};

/// The most bytes that a file may have.
const MOST_PUT: usize = 16_777_216;

/// What `put` writes and prints, and its status.
#[derive(Drop)]
struct Written {
    status: Status,
    file: Vec<u8>,
    lines: Vec<u8>,
}

fn put(alloc: Global, file: &[u8], word: &str, bytes: &[u8]) -> Result<Written, Fail> {
    if file.len() > MOST_PUT {
        return Err("a file that is too long")?;
    }
    let Some(wanted) = wanted_block(word.as_bytes(), None) else {
        return Err("a word without a block")?;
    };
    let mut new = Counted::new(Vec::new(alloc));
    let mut lines = Counted::new(Vec::new(alloc));
    let block = NewBlock { wanted, bytes };
    let status = cmd_put_from(&alloc, file, block, &mut new, &mut lines);
    Ok(Written {
        status,
        file: new.into_inner(),
        lines: lines.into_inner(),
    })
}

/// Files, the word for a block, its new bytes, the new file, and the line with its size.
static PUTS: [(&str, &str, &[u8], &str, &str); 9] = [
    (
        MEMO_FILE,
        "0",
        b"hi",
        "4d656d6f4442 00*26 0000 0000 e72ea9db 00*20 44415441 6d656d6f 00000000 00000000 0001 \
            00000058 01 000001 0000 6869",
        "ok 90\n",
    ),
    // the blocks in their order: that of entry 1, the empty one of entry 0, that of entry 2
    (ORDER_FILE, "1", b"BBBB", ORDER_FILE, "ok 112\n"),
    (
        ORDER_FILE,
        "0",
        b"Z",
        "4f72646572 00*27 0000 0000 00*24 44415441 54657374 00000000 00000000 0003 \
            0000006c 00 000000 00000068 03 000005 0000006d 20 000005 0000 42424242 5a 43434343",
        "ok 113\n",
    ),
    (
        ORDER_FILE,
        "1",
        b"B",
        "4f72646572 00*27 0000 0000 00*24 44415441 54657374 00000000 00000000 0003 \
            00000069 00 000000 00000068 03 000005 00000069 20 000005 0000 42 43434343",
        "ok 109\n",
    ),
    (
        ORDER_FILE,
        "2",
        b"",
        "4f72646572 00*27 0000 0000 00*24 44415441 54657374 00000000 00000000 0003 \
            0000006c 00 000000 00000068 03 000005 0000006c 20 000005 0000 42424242",
        "ok 108\n",
    ),
    // AppInfo is last in the file, and SortInfo before it
    (
        MIXED_FILE,
        "app",
        b"xy",
        "2251220a 00*28 8042 0102 ffffffff 00015180 7c25b080 00000007 \
            00000065 00000063 61001f62 7e7e7e7e 01020304 00000000 0002 \
            00000000 8f ffffff 00000060 20 000000 0000 4142 43 4449 7879",
        "ok 103\n",
    ),
    (
        MIXED_FILE,
        "sort",
        b"D",
        "2251220a 00*28 8042 0102 ffffffff 00015180 7c25b080 00000007 \
            00000064 00000063 61001f62 7e7e7e7e 01020304 00000000 0002 \
            00000000 8f ffffff 00000060 20 000000 0000 4142 43 44",
        "ok 100\n",
    ),
    (
        MIXED_FILE,
        "1",
        b"ABCD",
        "2251220a 00*28 8042 0102 ffffffff 00015180 7c25b080 00000007 \
            00000066 00000064 61001f62 7e7e7e7e 01020304 00000000 0002 \
            00000000 8f ffffff 00000060 20 000000 0000 4142 43 44 4449",
        "ok 102\n",
    ),
    (
        TINY_FILE,
        "0",
        b"",
        "54696e79 00*28 0001 0001 00*24 6170706c 54657374 00000000 00000000 0002 \
            74535452 03e8 00000064 74535452 03e9 00000064 0000 596f00",
        "ok 103\n",
    ),
];

#[test]
fn blocks_are_replaced(rt: HostRuntime) -> Result<(), Fail> {
    for (listing, word, bytes, wanted, line) in &PUTS {
        let put = put(rt.alloc(), &bytes_of(rt.alloc(), listing)?, word, *bytes)?;
        equal(wanted, put.status, Status::Done)?;
        equal(wanted, put.file, bytes_of(rt.alloc(), wanted)?)?;
        equal(wanted, str::from_utf8(&put.lines)?, *line)?;
    }
    Ok(())
}

/// Files, the word for a block, its new bytes, and the line that says why it isn't replaced.
static NOT_PUT: [(&str, &str, &[u8], &str); 6] = [
    (MEMO_FILE, "1", b"hi", "refused 14 IndexOutOfRange\n"),
    (MEMO_FILE, "app", b"", "refused 24 NoInfoBlock\n"),
    (MIXED_FILE, "0", b"hi", "refused 15 RecordDeleted\n"),
    // the next block is that of entry 0, of SortInfo, of AppInfo
    (ORDER_FILE, "1", b"", "bad EmptyPart\n"),
    (MIXED_FILE, "1", b"", "bad EmptyPart\n"),
    (MIXED_FILE, "sort", b"", "bad EmptyPart\n"),
];

#[test]
fn blocks_that_are_not_replaced(rt: HostRuntime) -> Result<(), Fail> {
    for (listing, word, bytes, line) in &NOT_PUT {
        let put = put(rt.alloc(), &bytes_of(rt.alloc(), listing)?, word, *bytes)?;
        equal(line, put.status, Status::Refused)?;
        equal(line, put.file.len(), 0)?;
        equal(line, str::from_utf8(&put.lines)?, *line)?;
    }
    Ok(())
}

/// A file with a fault is refused as by `list`.
#[test]
fn a_fault_comes_first(rt: HostRuntime) -> Result<(), Fail> {
    let file = changed(rt.alloc(), ORDER_FILE, 86, &[0, 0, 0, 0x65])?;
    let put = put(rt.alloc(), &file, "9", b"hi")?;
    equal("fault", put.status, Status::Refused)?;
    equal("fault", put.file.len(), 0)?;
    equal(
        "fault",
        str::from_utf8(&put.lines)?,
        "bad BadOffset 1\nat 86\n",
    )
}
