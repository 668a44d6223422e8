//! Blocks that `get` writes, and files that don't have them.

use crate::samples::{MEMO_FILE, MIXED_FILE, changed};
use file_commands::{cmd_get_from, wanted_block};
use palm_text::Counted;
use program_io::Status;
use std::alloc::Global;
use std::str;
use std::test::*;
use test_support::{EMPTY_FILE, ORDER_FILE, TINY_FILE, bytes_of, equal, holds};

/// The most bytes that a file may have.
const MOST_GOT: usize = 16_777_216;

/// What `get` writes and prints, and its status.
#[derive(Drop)]
struct Written {
    status: Status,
    block: Vec<u8>,
    lines: Vec<u8>,
}

fn got(alloc: Global, file: &[u8], word: &str, id: Option<&str>) -> Result<Written, Fail> {
    if file.len() > MOST_GOT {
        return Err("a file that is too long")?;
    }
    let id = match id {
        Some(id) => Some(id.as_bytes()),
        None => None,
    };
    let Some(wanted) = wanted_block(word.as_bytes(), id) else {
        return Err("words without a block")?;
    };
    let mut block = Counted::new(Vec::new(alloc));
    let mut lines = Counted::new(Vec::new(alloc));
    let status = cmd_get_from(&alloc, file, wanted, &mut block, &mut lines);
    Ok(Written {
        status,
        block: block.into_inner(),
        lines: lines.into_inner(),
    })
}

/// Files, the words for a block, and its bytes.
static BLOCKS: [(&str, &str, Option<&str>, &[u8]); 14] = [
    (MEMO_FILE, "0", None, b"hello wor"),
    (MEMO_FILE, "0x0", None, b"hello wor"),
    // blocks in another order than that of the list
    (MIXED_FILE, "app", None, b""),
    (MIXED_FILE, "sort", None, b"DI"),
    (MIXED_FILE, "1", None, b"ABC"),
    // two records at one offset: the last has the bytes
    (ORDER_FILE, "0", None, b""),
    (ORDER_FILE, "1", None, b"BBBB"),
    (ORDER_FILE, "2", None, b"CCCC"),
    (TINY_FILE, "0", None, b"Hi\0"),
    (TINY_FILE, "tSTR", Some("1000"), b"Hi\0"),
    (TINY_FILE, "tSTR", Some("1001"), b"Yo\0"),
    (TINY_FILE, "\"tSTR\"", Some("0x3e9"), b"Yo\0"),
    (TINY_FILE, "x:74535452", Some("1001"), b"Yo\0"),
    (TINY_FILE, "0000000001", None, b"Yo\0"),
];

#[test]
fn blocks_are_written(rt: HostRuntime) -> Result<(), Fail> {
    for (listing, word, id, bytes) in &BLOCKS {
        let got = got(rt.alloc(), &bytes_of(rt.alloc(), listing)?, word, *id)?;
        equal(word, got.status, Status::Done)?;
        equal(word, got.block.as_slice(), *bytes)?;
        equal(word, got.lines.len(), 0)?;
    }
    Ok(())
}

/// Files, the words for a block that they don't have, and the line for that.
static LACKED: [(&str, &str, Option<&str>, &str); 10] = [
    (MEMO_FILE, "1", None, "refused 14 IndexOutOfRange\n"),
    (
        MEMO_FILE,
        "4294967295",
        None,
        "refused 14 IndexOutOfRange\n",
    ),
    (EMPTY_FILE, "0", None, "refused 14 IndexOutOfRange\n"),
    (MIXED_FILE, "0", None, "refused 15 RecordDeleted\n"),
    (MEMO_FILE, "app", None, "refused 24 NoInfoBlock\n"),
    (MEMO_FILE, "sort", None, "refused 24 NoInfoBlock\n"),
    (
        MEMO_FILE,
        "DATA",
        Some("1"),
        "refused 12 NotResourceDatabase\n",
    ),
    (
        TINY_FILE,
        "tSTR",
        Some("1002"),
        "refused 23 ResourceNotFound\n",
    ),
    (
        TINY_FILE,
        "tstr",
        Some("1000"),
        "refused 23 ResourceNotFound\n",
    ),
    (TINY_FILE, "2", None, "refused 14 IndexOutOfRange\n"),
];

#[test]
fn lacked_blocks_are_refused(rt: HostRuntime) -> Result<(), Fail> {
    for (listing, word, id, line) in &LACKED {
        let got = got(rt.alloc(), &bytes_of(rt.alloc(), listing)?, word, *id)?;
        equal(word, got.status, Status::Refused)?;
        equal(word, got.block.len(), 0)?;
        equal(word, str::from_utf8(&got.lines)?, *line)?;
    }
    Ok(())
}

/// A deleted record that has data is written.
#[test]
fn an_archived_record_is_written(rt: HostRuntime) -> Result<(), Fail> {
    let file = changed(rt.alloc(), MEMO_FILE, 82, &[0x81])?;
    let got = got(rt.alloc(), &file, "0", None)?;
    equal("archived", got.status, Status::Done)?;
    equal("archived", got.block.as_slice(), b"hello wor".as_slice())
}

/// Of two resources with one type and id the first is written.
#[test]
fn the_first_resource_is_written(rt: HostRuntime) -> Result<(), Fail> {
    let file = changed(rt.alloc(), TINY_FILE, 92, &[0x03, 0xe8])?;
    let got = got(rt.alloc(), &file, "tSTR", Some("1000"))?;
    equal("first", got.status, Status::Done)?;
    equal("first", got.block.as_slice(), b"Hi\0".as_slice())
}

/// A file with a fault is refused as by `list`, whatever is asked for.
#[test]
fn a_fault_comes_before_a_lacked_block(rt: HostRuntime) -> Result<(), Fail> {
    let file = changed(rt.alloc(), ORDER_FILE, 86, &[0, 0, 0, 0x65])?;
    for word in ["0", "9", "app"] {
        let got = got(rt.alloc(), &file, word, None)?;
        equal(word, got.status, Status::Refused)?;
        equal(word, got.block.len(), 0)?;
        equal(
            word,
            str::from_utf8(&got.lines)?,
            "bad BadOffset 1\nat 86\n",
        )?;
    }
    Ok(())
}

/// Words that ask for no block.
static NO_BLOCKS: [(&str, Option<&str>); 12] = [
    ("", None),
    ("App", None),
    ("-1", None),
    ("4294967296", None),
    ("00000000000", None),
    ("tSTR", None),
    ("tST", Some("1000")),
    ("tSTRS", Some("1000")),
    ("x:745354", Some("1000")),
    ("\"tST\"", Some("1000")),
    ("tSTR", Some("65536")),
    ("tSTR", Some("")),
];

#[test]
fn words_without_a_block(rt: HostRuntime) -> Result<(), Fail> {
    let _ = rt;
    for (word, id) in &NO_BLOCKS {
        let id = match id {
            Some(id) => Some(id.as_bytes()),
            None => None,
        };
        holds(word, wanted_block(word.as_bytes(), id).is_none())?;
    }
    Ok(())
}
