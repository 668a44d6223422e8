//! Documents of files, and of damaged ones.

use crate::samples::{MEMO_FILE, MIXED_FILE, changed, documented};
use palm_text::Counted;
use program_io::Status;
use std::alloc::Global;
use std::str;
use std::test::*;
use test_support::{EMPTY_FILE, EMPTY_WRITTEN, ORDER_FILE, TINY_FILE, bytes_of, equal, holds};
use unicode_text::{JsonPiece, put_json, put_text};

const EMPTY_DOCUMENT: &str = "\
    {\"size\":78,\"name\":\"Empty\",\"name_hex\":\"456d707479\",\"attributes\":0,\"version\":0,\
    \"created\":0,\"created_utc\":null,\"created_since\":null,\
    \"modified\":0,\"modified_utc\":null,\"modified_since\":null,\"backup\":0,\
    \"backup_utc\":null,\"backup_since\":null,\"number\":0,\
    \"type\":\"DATA\",\"type_hex\":\"44415441\",\
    \"creator\":\"Test\",\"creator_hex\":\"54657374\",\"seed\":0,\"app\":null,\"sort\":null,\
    \"kind\":\"records\",\"entries\":[],\"needs\":{\"size\":128,\"slots\":2},\
    \"changes\":[\"filler\"]}\n";

const EMPTY_WRITTEN_DOCUMENT: &str = "\
    {\"size\":80,\"name\":\"Empty\",\"name_hex\":\"456d707479\",\"attributes\":0,\"version\":0,\
    \"created\":0,\"created_utc\":null,\"created_since\":null,\
    \"modified\":0,\"modified_utc\":null,\"modified_since\":null,\"backup\":0,\
    \"backup_utc\":null,\"backup_since\":null,\"number\":0,\
    \"type\":\"DATA\",\"type_hex\":\"44415441\",\
    \"creator\":\"Test\",\"creator_hex\":\"54657374\",\"seed\":0,\"app\":null,\"sort\":null,\
    \"kind\":\"records\",\"entries\":[],\"needs\":{\"size\":128,\"slots\":2},\"changes\":[]}\n";

const ORDER_DOCUMENT: &str = "\
    {\"size\":112,\"name\":\"Order\",\"name_hex\":\"4f72646572\",\"attributes\":0,\"version\":0,\
    \"created\":0,\"created_utc\":null,\"created_since\":null,\
    \"modified\":0,\"modified_utc\":null,\"modified_since\":null,\"backup\":0,\
    \"backup_utc\":null,\"backup_since\":null,\"number\":0,\
    \"type\":\"DATA\",\"type_hex\":\"44415441\",\
    \"creator\":\"Test\",\"creator_hex\":\"54657374\",\"seed\":0,\"app\":null,\"sort\":null,\
    \"kind\":\"records\",\"entries\":[{\"index\":0,\"attributes\":0,\"id\":0,\"offset\":108,\
    \"length\":0},{\"index\":1,\"attributes\":3,\"id\":5,\"offset\":104,\"length\":4},\
    {\"index\":2,\"attributes\":32,\"id\":5,\"offset\":108,\"length\":4}],\
    \"needs\":{\"size\":208,\"slots\":5},\"changes\":[\"busy\",\"ids\",\"order\"]}\n";

const TINY_DOCUMENT: &str = "\
    {\"size\":106,\"name\":\"Tiny\",\"name_hex\":\"54696e79\",\"attributes\":1,\"version\":1,\
    \"created\":0,\"created_utc\":null,\"created_since\":null,\
    \"modified\":0,\"modified_utc\":null,\"modified_since\":null,\"backup\":0,\
    \"backup_utc\":null,\"backup_since\":null,\"number\":0,\
    \"type\":\"appl\",\"type_hex\":\"6170706c\",\
    \"creator\":\"Test\",\"creator_hex\":\"54657374\",\"seed\":0,\"app\":null,\"sort\":null,\
    \"kind\":\"resources\",\"entries\":[{\"index\":0,\"type\":\"tSTR\",\
    \"type_hex\":\"74535452\",\"id\":1000,\"offset\":100,\"length\":3},{\"index\":1,\
    \"type\":\"tSTR\",\"type_hex\":\"74535452\",\"id\":1001,\"offset\":103,\"length\":3}],\
    \"needs\":{\"size\":192,\"slots\":4},\"changes\":[]}\n";

const MEMO_DOCUMENT: &str = "\
    {\"size\":97,\"name\":\"MemoDB\",\"name_hex\":\"4d656d6f4442\",\"attributes\":0,\
    \"version\":0,\
    \"created\":3878595035,\"created_utc\":\"2026-11-27 03:30:35\",\"created_since\":1904,\
    \"modified\":0,\
    \"modified_utc\":null,\"modified_since\":null,\
    \"backup\":0,\"backup_utc\":null,\"backup_since\":null,\"number\":0,\"type\":\"DATA\",\
    \"type_hex\":\"44415441\",\"creator\":\"memo\",\"creator_hex\":\"6d656d6f\",\"seed\":0,\
    \"app\":null,\"sort\":null,\"kind\":\"records\",\"entries\":[{\"index\":0,\"attributes\":1,\
    \"id\":1,\"offset\":88,\"length\":9}],\"needs\":{\"size\":168,\"slots\":3},\"changes\":[]}\n";

const MIXED_DOCUMENT: &str = "\
    {\"size\":101,\"name\":\"\\u0022Q\\u0022\\u000a\",\"name_hex\":\"2251220a\",\
    \"attributes\":32834,\"version\":258,\"created\":4294967295,\
    \"created_utc\":\"2040-02-06 06:28:15\",\"created_since\":1904,\"modified\":86400,\
    \"modified_utc\":\"1970-01-02 00:00:00\",\"modified_since\":1970,\"backup\":2082844800,\
    \"backup_utc\":\"2036-01-02 00:00:00\",\"backup_since\":1970,\"number\":7,\
    \"type\":\"a\\u0000\\u001fb\",\
    \"type_hex\":\"61001f62\",\"creator\":\"~~~~\",\"creator_hex\":\"7e7e7e7e\",\
    \"seed\":16909060,\"app\":{\"offset\":101,\"length\":0},\"sort\":{\"offset\":99,\
    \"length\":2},\"kind\":\"records\",\"entries\":[{\"index\":0,\"attributes\":143,\
    \"id\":16777215,\"offset\":null,\"length\":null},{\"index\":1,\"attributes\":32,\"id\":0,\
    \"offset\":96,\"length\":3}],\"needs\":{\"size\":200,\"slots\":5},\"changes\":[\"busy\",\
    \"ids\",\"order\"]}\n";

/// Files and their documents, as python3 writes them from the bytes.
static DOCUMENTS: [(&str, &str); 6] = [
    (EMPTY_FILE, EMPTY_DOCUMENT),
    (EMPTY_WRITTEN, EMPTY_WRITTEN_DOCUMENT),
    (ORDER_FILE, ORDER_DOCUMENT),
    (TINY_FILE, TINY_DOCUMENT),
    (MEMO_FILE, MEMO_DOCUMENT),
    (MIXED_FILE, MIXED_DOCUMENT),
];

/// Whether `list --json` prints this document of a file, with this status.
fn check_document(alloc: Global, file: &[u8], status: Status, document: &str) -> Result<(), Fail> {
    let (found, text) = documented(alloc, file)?;
    equal(format_args!("{file:?}"), found, status)?;
    equal(format_args!("{file:?}"), str::from_utf8(&text)?, document)
}

#[test]
fn files_have_their_documents(rt: HostRuntime) -> Result<(), Fail> {
    for (file, document) in &DOCUMENTS {
        let file = bytes_of(rt.alloc(), file)?;
        check_document(rt.alloc(), &file, Status::Done, document)?;
    }
    Ok(())
}

/// Files, where some bytes stand from an offset on instead, and the documents for them then.
static DAMAGED: [(&str, usize, &[u8], &str); 6] = [
    (
        EMPTY_FILE,
        76,
        &[0, 1],
        "\"Truncated\",\"numbers\":[],\"at\":78",
    ),
    (
        EMPTY_FILE,
        72,
        &[0, 0, 0, 1],
        "\"ChainedList\",\"numbers\":[],\"at\":72",
    ),
    (EMPTY_FILE, 0, &[0], "\"EmptyName\",\"numbers\":[],\"at\":0"),
    (
        EMPTY_FILE,
        52,
        &[0, 0, 0, 77],
        "\"BadInfo\",\"block\":\"app\",\"numbers\":[],\"at\":52",
    ),
    (
        EMPTY_FILE,
        56,
        &[0, 0, 0, 79],
        "\"BadInfo\",\"block\":\"sort\",\"numbers\":[],\"at\":56",
    ),
    (
        ORDER_FILE,
        86,
        &[0, 0, 0, 0x65],
        "\"BadOffset\",\"numbers\":[1],\"at\":86",
    ),
];

#[test]
fn damaged_files_have_a_document(rt: HostRuntime) -> Result<(), Fail> {
    for (file, at, bytes, facts) in &DAMAGED {
        let file = changed(rt.alloc(), file, *at, bytes)?;
        let document = format!(in rt.alloc(); "{{\"fault\":{facts}}}\n")?;
        check_document(rt.alloc(), &file, Status::Refused, &document)?;
    }
    Ok(())
}

/// The characters of the bytes 0x80 to 0x9F, as python3 decodes them from Windows-1252. Where it
/// has none, the code is the byte.
const CHARACTERS: &str = "\
    \\u20ac\\u0081\\u201a\\u0192\\u201e\\u2026\\u2020\\u2021\\u02c6\\u2030\\u0160\\u2039\
    \\u0152\\u008d\\u017d\\u008f\\u0090\\u2018\\u2019\\u201c\\u201d\\u2022\\u2013\\u2014\
    \\u02dc\\u2122\\u0161\\u203a\\u0153\\u009d\\u017e\\u0178";

/// The string of some bytes.
fn string_of(alloc: Global, bytes: &[u8]) -> Result<Vec<u8>, Fail> {
    let mut out = Counted::new(Vec::new(alloc));
    put_json(&mut out, &[JsonPiece::String(bytes)])?;
    Ok(out.into_inner())
}

#[test]
fn bytes_outside_ascii_are_escaped(rt: HostRuntime) -> Result<(), Fail> {
    let mut bytes = Vec::new(rt.alloc());
    for byte in 0x80..0xA0 {
        bytes.push(byte)?;
    }
    let text = string_of(rt.alloc(), &bytes)?;
    let wanted = format!(in rt.alloc(); "\"{CHARACTERS}\"")?;
    equal("0x80 to 0x9F", str::from_utf8(&text)?, wanted.as_str())?;
    let text = string_of(rt.alloc(), b"A \"\\/~\x7F\x00\x1F\xA0\xE9\xFF")?;
    equal(
        "others",
        str::from_utf8(&text)?,
        "\"A \\u0022\\u005c/~\\u007f\\u0000\\u001f\\u00a0\\u00e9\\u00ff\"",
    )
}

/// The same, as `list` and `databases` print them. Where python3 has none, it is U+FFFD.
const SHOWN: &str = "€\u{FFFD}‚ƒ„…†‡ˆ‰Š‹Œ\u{FFFD}Ž\u{FFFD}\u{FFFD}‘’“”•–—˜™š›œ\u{FFFD}žŸ";

/// The characters of a name, or nothing if it is spelled in quotes.
fn text_of(alloc: Global, name: &[u8]) -> Result<Vec<u8>, Fail> {
    let mut out = Counted::new(Vec::new(alloc));
    put_text(&mut out, b"<", name, b">")?;
    Ok(out.into_inner())
}

/// Names, and what `put_text` writes of them.
static TEXTS: [(&[u8], &str); 6] = [
    (b"", ""),
    (b" A\\~", ""),
    (b"\"", "<\">"),
    (
        b"\x1B[2J\x7F\x00\n",
        "<\u{FFFD}[2J\u{FFFD}\u{FFFD}\u{FFFD}>",
    ),
    (b"\xA0\xA1\xBF\xC0", "<\u{A0}¡¿À>"),
    (b"\xDF\xE9\xFF", "<ßéÿ>"),
];

#[test]
fn names_are_written_in_utf_8(rt: HostRuntime) -> Result<(), Fail> {
    let mut bytes = Vec::new(rt.alloc());
    for byte in 0x80..0xA0 {
        bytes.push(byte)?;
    }
    let text = text_of(rt.alloc(), &bytes)?;
    let wanted = format!(in rt.alloc(); "<{SHOWN}>")?;
    equal("0x80 to 0x9F", str::from_utf8(&text)?, wanted.as_str())?;
    for (name, wanted) in &TEXTS {
        let text = text_of(rt.alloc(), name)?;
        equal(format_args!("{name:?}"), str::from_utf8(&text)?, *wanted)?;
    }
    Ok(())
}

#[test]
fn each_document_is_one_line_of_ascii(rt: HostRuntime) -> Result<(), Fail> {
    for (file, _) in &DOCUMENTS {
        let file = bytes_of(rt.alloc(), file)?;
        let (_, text) = documented(rt.alloc(), &file)?;
        let text = str::from_utf8(&text)?;
        holds(
            "one line",
            text.lines().count() == 1 && text.ends_with('\n'),
        )?;
        holds("ASCII", text.is_ascii())?;
    }
    Ok(())
}
