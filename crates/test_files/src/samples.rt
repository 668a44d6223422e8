//! Files, and what is printed of them.

ghost use Rattle.file_parts.specs.Either.{HasFolderParts};

use file_commands::{cmd_canonical_from, cmd_list_from};
use file_listing::{TextRows, damage_of};
use file_parts::{ListedFolder, PackFault, PackedFile};
use heap_model::Bytes;
use json_documents::JsonRows;
use palm_text::Counted;
use pdb_format::check_file;
use program_io::Status;
use std::alloc::Global;
use std::test::*;
use test_support::{bytes_of, equal, holds};

/// A file of one record, with a creation date, as it is written.
pub(crate) const MEMO_FILE: &str = "4d656d6f4442 00*26 0000 0000 e72ea9db 00*20 44415441 6d656d6f \
    00000000 00000000 0001 00000058 01 000001 0000 68656c6c6f20776f 72";

/// A file of two records, a deleted one without data and a busy one, with both info blocks after
/// the data and bytes between. Its name has quotes, and each date is another.
pub(crate) const MIXED_FILE: &str = "2251220a 00*28 8042 0102 ffffffff 00015180 7c25b080 00000007 \
    00000065 00000063 61001f62 7e7e7e7e 01020304 00000000 0002 \
    00000000 8f ffffff 00000060 20 000000 0000 4142 43 4449";

/// A file without entries, as it is written. Its name is `Café` in Windows-1252.
pub(crate) const CAFE_FILE: &str =
    "436166e9 00*28 0000 0000 00*24 44415441 54657374 00000000 00000000 0000 0000";

/// A file of four records, and an AppInfo block with the names of categories. The second record is
/// deleted, and the category of the third has no name.
pub(crate) const NAMED_FILE: &str = "4e616d6564 00*27 0000 0000 00*16 00000070 00000000 44415441 \
    54657374 00000000 00000000 0004 00000184 41 000001 00000185 81 000002 00000186 03 000003 \
    00000187 0f 000004 0000 0000 556e66696c6564 00*9 427573696e657373 00*8 4772fc6e 00ff7f 00*9 \
    00*16 4120226222 00*11 303132333435363738396162636465 00 00*144 4c617374 00*12 \
    000102030405060708090a0b0c0d0e0f 0f00 41424344";

/// The most bytes that a file may have.
pub(crate) const MOST_SAMPLE: usize = 16_777_216;

/// What `list` prints of a file, and its status.
pub(crate) fn listed(alloc: Global, file: &[u8]) -> Result<(Status, Vec<u8>), Fail> {
    if file.len() > MOST_SAMPLE {
        return Err("a file that is too long")?;
    }
    let mut out = Counted::new(Vec::new(alloc));
    let status = cmd_list_from(&alloc, &TextRows { path: None }, &file, &mut out);
    Ok((status, out.into_inner()))
}

/// The damage of a file with a fault, as a text.
pub(crate) fn damaged(alloc: Global, file: &[u8]) -> Result<String, Fail> {
    if file.len() > MOST_SAMPLE {
        return Err("a file that is too long")?;
    }
    match check_file(file) {
        Ok(()) => Err("a file without fault")?,
        Err(fault) => Ok(format!(in alloc; "{}", damage_of(&file, fault))?),
    }
}

/// What `list --json` prints of a file, and its status.
pub(crate) fn documented(alloc: Global, file: &[u8]) -> Result<(Status, Vec<u8>), Fail> {
    if file.len() > MOST_SAMPLE {
        return Err("a file that is too long")?;
    }
    let mut out = Counted::new(Vec::new(alloc));
    let status = cmd_list_from(&alloc, &JsonRows { path: None }, &file, &mut out);
    Ok((status, out.into_inner()))
}

/// What `canonical` writes and prints, and its status.
pub(crate) fn rewritten(alloc: Global, file: &[u8]) -> Result<(Status, Vec<u8>, Vec<u8>), Fail> {
    if file.len() > MOST_SAMPLE {
        return Err("a file that is too long")?;
    }
    let mut file_out = Counted::new(Vec::new(alloc));
    let mut out = Counted::new(Vec::new(alloc));
    let status = cmd_canonical_from(&alloc, file, &mut file_out, &mut out);
    Ok((status, file_out.into_inner(), out.into_inner()))
}

/// Puts the parts of a folder together: the file, or its fault as text.
pub(crate) fn packed_of(
    alloc: Global,
    listed: &ListedFolder<'_>,
    parts: &[Bytes],
) -> Result<Result<Vec<u8>, String>, Fail>
    requires { HasFolderParts listed.now parts.now }
{
    match listed.pack(&alloc, parts) {
        Ok(packed) => Ok(Ok(packed_bytes(alloc, &packed)?)),
        Err(PackFault::OutOfMemory) => Err("out of memory")?,
        Err(fault) => Ok(Err(format!(in alloc; "{fault}")?)),
    }
}

/// The bytes of a file that was put together. Its size is their number.
fn packed_bytes(alloc: Global, packed: &PackedFile<'_>) -> Result<Vec<u8>, Fail> {
    let mut out = Counted::new(Vec::new(alloc));
    holds("written", packed.put(&mut out).is_ok())?;
    let bytes = out.into_inner();
    equal("size", packed.size(), bytes.len())?;
    Ok(bytes)
}

/// The bytes of a listing in hex, with other bytes from an offset on.
pub(crate) fn changed(
    alloc: Global,
    listing: &str,
    at: usize,
    bytes: &[u8],
) -> Result<Vec<u8>, Fail> {
    let mut file = bytes_of(alloc, listing)?;
    if at > file.len() || bytes.len() > file.len() - at {
        return Err("a change beyond the end")?;
    }
    file[at..at + bytes.len()].copy_from_slice(bytes);
    Ok(file)
}
