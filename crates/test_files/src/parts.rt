//! Files that are taken apart, and put together.

use crate::samples::{MEMO_FILE, MIXED_FILE, packed_of, rewritten};
use canonical_file::MOST_BYTES;
use file_parts::{put_database, read_folder, read_listed, unpack};
use heap_model::Bytes;
use palm_text::Counted;
use program_io::Status;
use rand::{RngExt, SeedableRng};
use rand_pcg::Pcg32;
use std::alloc::Global;
use std::str;
use std::test::*;
use test_support::{EMPTY_FILE, ORDER_FILE, TINY_FILE, bytes_of, equal, holds};

/// The text of a file, and its parts by their ranks: no bytes where there is none.
#[derive(Drop, Debug, PartialEq, Eq)]
struct Folder {
    text: Vec<u8>,
    parts: Vec<Bytes>,
}

/// Takes a file apart; none where it has a fault.
fn folder_of(alloc: Global, file: &[u8]) -> Result<Option<Folder>, Fail> {
    if file.len() > MOST_BYTES {
        return Err("a file that is too long")?;
    }
    let Ok(unpacked) = unpack(&alloc, file) else {
        return Ok(None);
    };
    let mut text = Counted::new(Vec::new(alloc));
    let _ = put_database(&mut text, &unpacked);
    let mut parts = Vec::new(alloc);
    for rank in 0..unpacked.rank_count() {
        let bytes = match unpacked.part(rank) {
            Some(part) => Vec::from_slice(alloc, part.bytes)?,
            None => Vec::new(alloc),
        };
        parts.push(Bytes::of(bytes))?;
    }
    Ok(Some(Folder {
        text: text.into_inner(),
        parts,
    }))
}

/// Puts a text and parts together: the file, or the fault of the text or of the file as text.
fn file_of(alloc: Global, text: &[u8], parts: &[Bytes]) -> Result<Result<Vec<u8>, String>, Fail> {
    let listed = match read_folder(&alloc, text) {
        Ok(listed) => listed,
        Err(fault) => return Ok(Err(format!(in alloc; "line {} {}", fault.line, fault.fault)?)),
    };
    if parts.len() != listed.part_count() {
        return Ok(Err(format!(in alloc; "{} parts", listed.part_count())?));
    }
    packed_of(alloc, &listed, parts)
}

const MEMO_TEXT: &str = "\
name \"MemoDB\"
attributes 0000
version 0
created 3878595035
modified 0
backup 0
number 0
type \"DATA\"
creator \"memo\"
seed 00000000
app none
sort none
record 01 1 00000
";

const MIXED_TEXT: &str = "\
name x:2251220a
attributes 8042
version 258
created 4294967295
modified 86400
backup 2082844800
number 7
type x:61001f62
creator \"~~~~\"
seed 01020305
app app
sort sort
record 8f 16777215 none
record 00 131845 00001
";

const TINY_TEXT: &str = "\
name \"Tiny\"
attributes 0001
version 1
created 0
modified 0
backup 0
number 0
type \"appl\"
creator \"Test\"
seed 00000000
app none
sort none
resource \"tSTR\" 1000 00000
resource \"tSTR\" 1001 00001
";

/// Files, and their texts.
static TEXTS: [(&str, &str); 3] = [
    (MEMO_FILE, MEMO_TEXT),
    (MIXED_FILE, MIXED_TEXT),
    (TINY_FILE, TINY_TEXT),
];

#[test]
fn files_have_their_texts(rt: HostRuntime) -> Result<(), Fail> {
    for (file, text) in &TEXTS {
        let Some(folder) = folder_of(rt.alloc(), &bytes_of(rt.alloc(), file)?)? else {
            return Err("a file with a fault")?;
        };
        equal(file, str::from_utf8(&folder.text)?, *text)?;
    }
    Ok(())
}

/// Each block is the part of its rank.
#[test]
fn blocks_are_parts(rt: HostRuntime) -> Result<(), Fail> {
    let file = bytes_of(rt.alloc(), MIXED_FILE)?;
    let Some(folder) = folder_of(rt.alloc(), &file)? else {
        return Err("a file with a fault")?;
    };
    let wanted: [&[u8]; 4] = [b"", b"DI", b"", b"ABC"];
    equal("count", folder.parts.len(), wanted.len())?;
    for (part, bytes) in folder.parts.iter().zip(wanted) {
        equal("part", part.as_slice(), bytes)?;
    }
    Ok(())
}

/// Lines of a text, what stands there instead, and what is said of that.
static FAULTS: [(&str, &str, &str); 26] = [
    (
        "name \"MemoDB\"",
        "nome \"MemoDB\"",
        "line 1 UnknownCommand",
    ),
    ("name \"MemoDB\"", "name \"MemoDB", "line 1 BadWord 2"),
    ("name \"MemoDB\"", "name MemoDB", "line 1 BadWord 2"),
    ("name \"MemoDB\"", "name \"\"", "line 1 BadWord 2"),
    ("name \"MemoDB\"", "name x:4100", "line 1 BadWord 2"),
    (
        "name \"MemoDB\"",
        "name \"12345678901234567890123456789012\"",
        "line 1 BadWord 2",
    ),
    ("attributes 0000", "attributes", "line 2 WrongCount"),
    ("attributes 0000", "attributes 10000", "line 2 BadWord 2"),
    ("version 0", "version 65536", "line 3 BadWord 2"),
    (
        "created 3878595035",
        "created 3878595035 2026",
        "line 4 WrongCount",
    ),
    (
        "created 3878595035",
        "created 4294967296",
        "line 4 BadWord 2",
    ),
    ("type \"DATA\"", "type \"DATAS\"", "line 8 BadWord 2"),
    ("seed 00000000", "seed 000000000", "line 10 BadWord 2"),
    ("app none", "app ../app", "line 11 BadWord 2"),
    ("app none", "app database", "line 11 BadWord 2"),
    ("sort none\n", "", "line 12 UnknownCommand"),
    ("record 01", "resource 01", "line 13 UnknownCommand"),
    ("record 01", "record 100", "line 13 BadWord 2"),
    ("record 01 1 ", "record 01 16777216 ", "line 13 BadWord 3"),
    ("record 01 1 00000", "record 01 1", "line 13 WrongCount"),
    (
        "record 01 1 00000",
        "record 01 1 00000 x",
        "line 13 WrongCount",
    ),
    ("record 01 1 00000", "record 01 1 none", "line 13 BadWord 4"),
    ("record 01 1 00000", "record 01 1 a/b", "line 13 BadWord 4"),
    ("record 01 1 00000", "record 01 1 ..", "line 13 BadWord 4"),
    (
        "record 01 1 00000",
        "record 01 1 \"a\"",
        "line 13 BadWord 4",
    ),
    (
        "record 01 1 00000\n",
        "\n#\n record 01 1 -a",
        "line 15 BadWord 4",
    ),
];

#[test]
fn faulty_lines_are_told(rt: HostRuntime) -> Result<(), Fail> {
    for (line, other, fault) in &FAULTS {
        let text = MEMO_TEXT.replace(rt.alloc(), *line, *other)?;
        let parts = [Bytes::of(Vec::new(rt.alloc()))];
        match file_of(rt.alloc(), text.as_bytes(), &parts)? {
            Ok(_) => return Err("a file")?,
            Err(found) => equal(other, found.as_str(), *fault)?,
        }
    }
    Ok(())
}

/// A text that ends too early lacks its next line.
#[test]
fn lines_that_are_missing(rt: HostRuntime) -> Result<(), Fail> {
    for (text, fault) in [
        ("", "line 1 WrongCount"),
        ("# nothing\n", "line 2 WrongCount"),
        ("name \"A\"\nattributes 0", "line 3 WrongCount"),
    ] {
        match file_of(rt.alloc(), text.as_bytes(), &[])? {
            Ok(_) => return Err("a file")?,
            Err(found) => equal(text, found.as_str(), fault)?,
        }
    }
    Ok(())
}

/// What is put together of the parts of a file is its canonical form; and taken apart again it has
/// the same text and parts.
fn check_round(alloc: Global, file: &[u8]) -> Result<bool, Fail> {
    let Some(folder) = folder_of(alloc, file)? else {
        return Ok(false);
    };
    let (status, canonical, _) = rewritten(alloc, file)?;
    equal("status", status, Status::Done)?;
    let packed = match file_of(alloc, &folder.text, &folder.parts)? {
        Ok(packed) => packed,
        Err(fault) => return Err(Fail::new(fault.as_str())),
    };
    equal("file", packed.as_slice(), canonical.as_slice())?;
    let again = folder_of(alloc, &packed)?;
    holds("folder", again == Some(folder))?;
    Ok(true)
}

/// How many damaged files there are.
const DAMAGED: u32 = 10_000;

/// A file with one to three bytes changed, most often in its header and its entries.
fn damaged(alloc: Global, random: &mut Pcg32, file: &[u8]) -> Result<Vec<u8>, Fail> {
    let mut bytes = Vec::from_slice(alloc, file)?;
    let count = random.random_range(1u32..4);
    for _ in 0..count {
        let at = random.random_range(0..bytes.len().max(1));
        if let Some(byte) = bytes.get_mut(at) {
            *byte = random.random_range(0u8..=255);
        }
    }
    Ok(bytes)
}

#[test]
fn damaged_files_go_round(rt: HostRuntime) -> Result<(), Fail> {
    let mut random = Pcg32::seed_from_u64(54);
    let mut good = 0u32;
    for number in 0..DAMAGED {
        let listing = match number % 5 {
            0 => EMPTY_FILE,
            1 => TINY_FILE,
            2 => MEMO_FILE,
            3 => MIXED_FILE,
            _ => ORDER_FILE,
        };
        let file = damaged(rt.alloc(), &mut random, &bytes_of(rt.alloc(), listing)?)?;
        if check_round(rt.alloc(), &file)? {
            good = good.saturating_add(1);
        }
    }
    holds("enough files", good > 5_000 && good < DAMAGED)
}

/// A record with the ID 0 gets a free one, a second one with an ID too, and a busy one isn't busy.
#[test]
fn ids_are_given(rt: HostRuntime) -> Result<(), Fail> {
    let lines = "record 21 1 00000\nrecord 00 0 00001\nrecord c0 1 none\nrecord 80 0 a.b-c_\n";
    let text = MEMO_TEXT.replace(rt.alloc(), "record 01 1 00000\n", lines)?;
    let mut parts = Vec::new(rt.alloc());
    for bytes in [b"".as_slice(), b"", b"one", b"two", b"", b"four"] {
        parts.push(Bytes::of(Vec::from_slice(rt.alloc(), bytes)?))?;
    }
    let file = match file_of(rt.alloc(), text.as_bytes(), &parts)? {
        Ok(file) => file,
        Err(fault) => return Err(Fail::new(fault.as_str())),
    };
    let Some(folder) = folder_of(rt.alloc(), &file)? else {
        return Err("a file with a fault")?;
    };
    let found = str::from_utf8(&folder.text)?;
    holds("seed", found.contains("seed 00000004\n"))?;
    holds(
        "entries",
        found.ends_with(
            "record 01 1 00000\nrecord 00 2 00001\nrecord c0 3 none\nrecord 80 4 00003\n",
        ),
    )
}

/// A part that makes a file of more than 16 MiB.
#[test]
fn a_large_file(rt: HostRuntime) -> Result<(), Fail> {
    let mut parts = Vec::new(rt.alloc());
    parts.push(Bytes::of(Vec::new(rt.alloc())))?;
    parts.push(Bytes::of(Vec::new(rt.alloc())))?;
    parts.push(Bytes::of(vec![in rt.alloc(); 7u8; 17_000_000]?))?;
    let file = match file_of(rt.alloc(), MEMO_TEXT.as_bytes(), &parts)? {
        Ok(file) => file,
        Err(fault) => return Err(Fail::new(fault.as_str())),
    };
    equal("bytes", file.len(), 17_000_088)?;
    let Some(folder) = folder_of(rt.alloc(), &file)? else {
        return Err("a file with a fault")?;
    };
    holds("parts", folder.parts == parts)
}

/// One line more than there may be entries is a faulty line.
#[test]
fn too_many_entries(rt: HostRuntime) -> Result<(), Fail> {
    let mut text = String::from_str(rt.alloc(), MEMO_TEXT)?;
    for _ in 0..65_534 {
        text.push_str("record 80 0 none\n")?;
    }
    holds("as many", read_listed(&rt.alloc(), text.as_bytes()).is_ok())?;
    text.push_str("record 80 0 none\n")?;
    match file_of(rt.alloc(), text.as_bytes(), &[])? {
        Ok(_) => Err("a file")?,
        Err(fault) => equal("one more", fault.as_str(), "line 65548 BadWord 1"),
    }
}
