//! Exact folders: files that are taken apart as they stand, and put together again.

use crate::samples::{MEMO_FILE, MIXED_FILE, MOST_SAMPLE, changed, packed_of};
use file_parts::{FolderForm, TakenApart, read_folder, take_apart};
use heap_model::Bytes;
use palm_text::Counted;
use rand::{RngExt, SeedableRng};
use rand_pcg::Pcg32;
use std::alloc::Global;
use std::str;
use std::test::*;
use test_support::{EMPTY_FILE, ORDER_FILE, TINY_FILE, bytes_of, equal, holds};

/// The text of a folder, and its parts by their numbers: no bytes where there is none.
#[derive(Drop)]
pub(crate) struct TakenFolder {
    pub(crate) text: Vec<u8>,
    pub(crate) parts: Vec<Bytes>,
}

/// Takes a file apart. Returns `None` if it has a fault.
pub(crate) fn folder_in(
    alloc: Global,
    form: FolderForm,
    file: &[u8],
) -> Result<Option<TakenFolder>, Fail> {
    if file.len() > MOST_SAMPLE {
        return Err("a file that is too long")?;
    }
    let Ok(unpacked) = take_apart(&alloc, form, file) else {
        return Ok(None);
    };
    let mut text = Counted::new(Vec::new(alloc));
    let _ = unpacked.put_text(&mut text);
    Ok(Some(TakenFolder {
        text: text.into_inner(),
        parts: parts_of(alloc, &unpacked)?,
    }))
}

/// Takes a file apart as it stands. Returns `None` if it has a fault.
fn exact_folder_of(alloc: Global, file: &[u8]) -> Result<Option<TakenFolder>, Fail> {
    folder_in(alloc, FolderForm::Exact, file)
}

/// Returns the parts of a file by their numbers: no bytes where there is none.
fn parts_of(alloc: Global, unpacked: &TakenApart<'_>) -> Result<Vec<Bytes>, Fail> {
    let mut parts = Vec::new(alloc);
    for number in 0..unpacked.part_count() {
        let bytes = match unpacked.part(number) {
            Some(part) => Vec::from_slice(alloc, part.bytes)?,
            None => Vec::new(alloc),
        };
        parts.push(Bytes::of(bytes))?;
    }
    Ok(parts)
}

/// Puts a text and parts together: the file, or the fault of the text as text.
fn exact_file_of(
    alloc: Global,
    text: &[u8],
    parts: &[Bytes],
) -> Result<Result<Vec<u8>, String>, Fail> {
    let listed = match read_folder(&alloc, text) {
        Ok(listed) => listed,
        Err(fault) => return Ok(Err(format!(in alloc; "line {} {}", fault.line, fault.fault)?)),
    };
    if parts.len() != listed.part_count() {
        return Ok(Err(format!(in alloc; "{} parts", listed.part_count())?));
    }
    packed_of(alloc, &listed, parts)
}

/// Files, and the first and the last lines of their texts.
static EXACT_FILES: [(&str, &str, &str); 14] = [
    (
        MEMO_FILE,
        "exact\nfiller filler\nname \"MemoDB\"\n",
        "sort none\nrecord 01 1 00000\n",
    ),
    (
        MIXED_FILE,
        "exact\nfiller filler\norder 1\norder sort\norder app\nname x:2251220a\n",
        "app app\nsort sort\nrecord 8f 16777215 none\nrecord 20 0 00001\n",
    ),
    (
        TINY_FILE,
        "exact\nfiller filler\nname \"Tiny\"\n",
        "resource \"tSTR\" 1000 00000\nresource \"tSTR\" 1001 00001\n",
    ),
    // Busy, with IDs that are 0 and repeated, and blocks against the order of the list.
    (
        ORDER_FILE,
        "exact\nfiller filler\norder 1\norder 0\norder 2\nname \"Order\"\n",
        "record 00 0 00000\nrecord 03 5 00001\nrecord 20 5 00002\n",
    ),
    (
        EMPTY_FILE,
        "exact\nfiller none\nname \"Empty\"\n",
        "sort none\n",
    ),
    // No entries, and bytes up to the end.
    (
        "456d707479 00*27 0000 0000 00*24 44415441 54657374 00000000 00000000 0000 0102030405",
        "exact\nfiller filler\nname \"Empty\"\n",
        "app none\nsort none\n",
    ),
    // Fillers of 0, 1, 2 and 3 bytes.
    (
        "41 00*31 0000 0000 00*24 44415441 54657374 00000000 00000000 0001 00000056 20 000000 48",
        "exact\nfiller none\nname \"A\"\n",
        "record 20 0 00000\n",
    ),
    (
        "41 00*31 0000 0000 00*24 44415441 54657374 00000000 00000000 0001 00000057 00 000001 ff 48",
        "exact\nfiller filler\nname \"A\"\n",
        "record 00 1 00000\n",
    ),
    (
        "41 00*31 0000 0000 00*24 44415441 54657374 00000000 00000000 0001 00000058 00 000001 ffff 48",
        "exact\nfiller filler\nname \"A\"\n",
        "record 00 1 00000\n",
    ),
    (
        "41 00*31 0000 0000 00*24 44415441 54657374 00000000 00000000 0001 00000059 00 000001 000000 48",
        "exact\nfiller filler\nname \"A\"\n",
        "record 00 1 00000\n",
    ),
    // Two blocks without bytes at one offset, at the end of the file.
    (
        "41 00*31 0000 0000 00*24 44415441 54657374 00000000 00000000 0002 \
         0000005e 00 000001 0000005e 00 000001",
        "exact\nfiller none\nname \"A\"\n",
        "record 00 1 00000\nrecord 00 1 00001\n",
    ),
    // AppInfo without bytes at the offset of SortInfo, after the data of a record.
    (
        "41 00*31 0000 0000 00*16 00000057 00000057 44415441 54657374 00000000 00000000 0001 \
         00000056 00 000001 48 49",
        "exact\nfiller none\norder 0\norder app\norder sort\nname \"A\"\n",
        "app app\nsort sort\nrecord 00 1 00000\n",
    ),
    // A name of 31 bytes, and a byte after it.
    (
        "41414141414141414141414141414141414141414141414141414141414141 42 \
         0000 0000 00*24 44415441 54657374 00000000 00000000 0000",
        "exact\nnamefield 42\nfiller none\nname \"AAAAAAAAAAAAAAAAAAAAAAAAAAAAAAA\"\n",
        "app none\nsort none\n",
    ),
    // Resources in reversed order.
    (
        "41 00*31 0001 0000 00*24 6170706c 54657374 00000000 00000000 0002 \
         636f6465 0001 00000063 636f6465 0000 00000062 48 49",
        "exact\nfiller none\norder 1\norder 0\nname \"A\"\n",
        "resource \"code\" 1 00000\nresource \"code\" 0 00001\n",
    ),
];

#[test]
fn exact_texts_have_their_lines(rt: HostRuntime) -> Result<(), Fail> {
    for (listing, first, last) in &EXACT_FILES {
        let file = bytes_of(rt.alloc(), listing)?;
        let Some(folder) = exact_folder_of(rt.alloc(), &file)? else {
            return Err("a file with a fault")?;
        };
        let text = str::from_utf8(&folder.text)?;
        holds(text, text.starts_with(*first) && text.ends_with(*last))?;
        holds(listing, check_exact(rt.alloc(), &file)?)?;
    }
    Ok(())
}

/// Bytes after a name are kept.
#[test]
fn bytes_after_a_name_are_kept(rt: HostRuntime) -> Result<(), Fail> {
    let named = changed(rt.alloc(), MEMO_FILE, 7, &[0x41])?;
    let Some(folder) = exact_folder_of(rt.alloc(), &named)? else {
        return Err("a file with a fault")?;
    };
    let text = str::from_utf8(&folder.text)?;
    holds(
        "name field",
        text.contains("namefield 0041000000000000000000000000000000000000000000000000\n"),
    )?;
    holds("file", check_exact(rt.alloc(), &named)?)
}

/// Checks that the parts of a file are put together to the file.
fn check_exact(alloc: Global, file: &[u8]) -> Result<bool, Fail> {
    let Some(folder) = exact_folder_of(alloc, file)? else {
        return Ok(false);
    };
    match exact_file_of(alloc, &folder.text, &folder.parts)? {
        Ok(packed) => equal("file", packed.as_slice(), file)?,
        Err(fault) => return Err(Fail::new(fault.as_str())),
    }
    Ok(true)
}

/// The number of damaged files.
const DAMAGED_EXACT: u32 = 5_000;

#[test]
fn damaged_files_come_back_exactly(rt: HostRuntime) -> Result<(), Fail> {
    let mut random = Pcg32::seed_from_u64(55);
    let mut good = 0u32;
    for number in 0..DAMAGED_EXACT {
        let listing = match number % 5 {
            0 => EMPTY_FILE,
            1 => TINY_FILE,
            2 => MEMO_FILE,
            3 => MIXED_FILE,
            _ => ORDER_FILE,
        };
        let mut file = bytes_of(rt.alloc(), listing)?;
        let at = random.random_range(0..file.len().max(1));
        if let Some(byte) = file.get_mut(at) {
            *byte = random.random_range(0u8..=255);
        }
        if check_exact(rt.alloc(), &file)? {
            good = good.saturating_add(1);
        }
    }
    holds("enough files", good > 2_500 && good < DAMAGED_EXACT)
}

/// Changes of the text of `MEMO_FILE`: a part of it, the text in its place, and the fault.
static EXACT_FAULTS: [(&str, &str, &str); 17] = [
    ("exact\n", "exact 1\n", "line 1 WrongCount"),
    ("filler filler\n", "", "line 2 UnknownCommand"),
    ("filler filler\n", "filler\n", "line 2 WrongCount"),
    ("filler filler\n", "filler ../a\n", "line 2 BadWord 2"),
    ("filler", "namefield 00\nfiller", "line 2 BadWord 2"),
    ("filler", "namefield 0g\nfiller", "line 2 BadWord 2"),
    (
        "filler",
        "namefield 4100000000000000000000000000000000000000000000000000\nfiller",
        "line 2 BadWord 2",
    ),
    ("name ", "order\nname ", "line 3 WrongCount"),
    ("name ", "order 0 0\nname ", "line 3 WrongCount"),
    ("name ", "order x\nname ", "line 3 BadWord 2"),
    ("name ", "order 65536\nname ", "line 3 BadWord 2"),
    ("name ", "order 1\nname ", "line 3 BadWord 2"),
    ("name ", "order app\nname ", "line 3 BadWord 2"),
    ("name ", "order 0\norder 0\nname ", "line 4 BadWord 2"),
    ("name ", "order 9\nnome ", "line 4 UnknownCommand"),
    ("version 0", "version x", "line 5 BadWord 2"),
    ("exact\n", "", "line 1 UnknownCommand"),
];

#[test]
fn faulty_exact_lines_are_told(rt: HostRuntime) -> Result<(), Fail> {
    let Some(folder) = exact_folder_of(rt.alloc(), &bytes_of(rt.alloc(), MEMO_FILE)?)? else {
        return Err("a file with a fault")?;
    };
    for (line, other, fault) in &EXACT_FAULTS {
        let text = str::from_utf8(&folder.text)?.replacen(rt.alloc(), *line, *other, 1)?;
        match exact_file_of(rt.alloc(), text.as_bytes(), &folder.parts)? {
            Ok(_) => return Err("a file")?,
            Err(found) => equal(other, found.as_str(), *fault)?,
        }
    }
    Ok(())
}

/// A block without bytes can't come directly before one of a lower rank.
#[test]
fn an_empty_block_before_a_lower_rank_is_faulty(rt: HostRuntime) -> Result<(), Fail> {
    let Some(folder) = exact_folder_of(rt.alloc(), &bytes_of(rt.alloc(), ORDER_FILE)?)? else {
        return Err("a file with a fault")?;
    };
    let mut parts = folder.parts;
    if let Some(part) = parts.get_mut(3) {
        *part = Bytes::of(Vec::new(rt.alloc()));
    }
    match exact_file_of(rt.alloc(), &folder.text, &parts)? {
        Ok(_) => Err("a file")?,
        Err(fault) => equal("empty", fault.as_str(), "line 3 BadWord 2"),
    }
}
