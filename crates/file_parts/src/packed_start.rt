//! The first bytes of a file that is put together in canonical form.

ghost use Rattle.std.specs.Prelude.{◌≡◌, ◌≤◌, ◌+◌, ◌++◌, All, List, ℕ, IfOk, IfErr, OnOk, length, take};
ghost use Rattle.heap_model.specs.Bytes.{AreBytes, u32_at};
ghost use Rattle.heap_model.specs.DatabaseFields.{app_info_at, header_size};
ghost use Rattle.heap_model.specs.Files.{file_of};
ghost use Rattle.pdb_format.specs.FileStarts.{most_app, most_start};
ghost use Rattle.pdb_format.specs.FileTexts.{blocks_text};
ghost use Rattle.canonical_file.specs.Canonical.{IsCanonical};
ghost use Rattle.file_parts.specs.Packing.{HasPartsOf, IsHeadOf, database_of_parts};
ghost use Rattle.file_parts.specs.PackedStarts.{StartsFile};

use crate::listed::Listed;
use crate::packing::{FileHead, PackFault, append, part_bytes};
use allowance::Allowance;
use canonical_file::canonical_head;
use db_format::app_info;
use heap_model::Bytes;
use pdb_format::{FileBytes, MOST_APP, MOST_START, PdbFile, app_of};
use std::marker::Model;

/// The first bytes of the file of a database with these parts, and the size of the file. Contracts
/// see the whole file.
#[derive(Drop)]
struct PackedStart<'a> {
    listed: &'a Listed<'a>,
    parts: &'a [Bytes],
    start: &'a [u8],
    size: usize,
}

impl<'a> Model for PackedStart<'a> {
    ghost use Rattle.std.specs.Prelude.{ℕ, List};
    ghost use Rattle.heap_model.specs.Files.{file_of};
    ghost use Rattle.file_parts.specs.Packing.{database_of_parts};
    ghost use Rattle.file_parts.specs.PackedStarts.{StartsFile};

    ghost Value = { List ℕ };

    ghost view = { λ file. file_of (database_of_parts file.listed.now file.parts.now) };

    ghost invariant = { λ file. StartsFile
        (file_of (database_of_parts file.listed.now file.parts.now)) file.start.now file.size };
}

impl FileBytes for PackedStart<'_> {
    ghost bytes = { λ file. file };

    fn size(&self) -> usize {
        self.size
    }

    fn start(&self) -> &[u8] {
        self.start
    }

    fn app(&self) -> &[u8] {
        app_of(self.start)
    }
}

/// Returns how many first bytes of a file are put together: the header, the entries and the two
/// bytes after them are among these, and the first bytes of AppInfo.
fn start_size(head: &[u8]) -> usize
    requires { header_size ≤ length head.now }
    ensures start { most_start ≤ result }
    ensures app { u32_at head.now app_info_at + most_app ≤ result }
{
    MOST_START.max(app_info(head) as usize + MOST_APP)
}

/// Appends bytes, up to `most` bytes in all.
fn append_within<A: Allowance>(
    memory: &A,
    most: usize,
    more: &[u8],
    bytes: &mut Vec<u8>,
) -> Result<(), PackFault>
    requires { length bytes.old.items ≤ most }
    ensures items { OnOk result (bytes.new.items ≡ take most (bytes.old.items ++ more.now)) }
    ensures memory { IfErr result (λ fault. fault ≡ PackFault.OutOfMemory) }
    ensures short { IfErr result (λ _. A.is_short memory.now) }
{
    let left = most - bytes.len();
    append(memory, bytes, &more[..more.len().min(left)])
}

/// Appends the blocks, up to `most` bytes in all.
fn append_blocks_within<A: Allowance>(
    memory: &A,
    listed: &Listed<'_>,
    parts: &[Bytes],
    most: usize,
    bytes: &mut Vec<u8>,
) -> Result<(), PackFault>
    requires parts { HasPartsOf listed.now parts.now }
    requires most { length bytes.old.items ≤ most }
    ensures items { OnOk result (bytes.new.items
        ≡ take most (bytes.old.items ++ blocks_text (database_of_parts listed.now parts.now))) }
    ensures memory { IfErr result (λ fault. fault ≡ PackFault.OutOfMemory) }
    ensures short { IfErr result (λ _. A.is_short memory.now) }
{
    for rank in 0..parts.len() {
        append_within(
            memory,
            most,
            part_bytes(listed.part(rank), parts, rank),
            bytes,
        )?;
    }
    Ok(())
}

/// Proves that the numbers in a slice are bytes.
fn know_numbers(bytes: &[u8])
    ensures { AreBytes bytes.now }
{
    let _bytes = bytes;
}

/// Proves that the numbers in each part are bytes.
fn know_parts(parts: &[Bytes])
    ensures { All AreBytes parts.now }
{
    for part in parts {
        know_numbers(part.as_slice());
    }
}

/// Returns the first bytes of a file, by the bytes before its blocks.
fn start_of<A: Allowance>(
    memory: &A,
    listed: &Listed<'_>,
    parts: &[Bytes],
    head: FileHead,
) -> Result<Vec<u8>, PackFault>
    requires { IsHeadOf listed.now parts.now head }
    ensures starts { IfOk result (λ start. StartsFile
        (file_of (database_of_parts listed.now parts.now)) start.items head.size) }
    ensures memory { IfErr result (λ fault. fault ≡ PackFault.OutOfMemory) }
    ensures short { IfErr result (λ _. A.is_short memory.now) }
{
    know_parts(parts);
    know_numbers(&head.bytes);
    let mut bytes = head.bytes;
    let most = start_size(&bytes);
    append_blocks_within(memory, listed, parts, most, &mut bytes)?;
    Ok(bytes)
}

/// Returns the bytes before the blocks in the canonical form of a file, by the bytes before the
/// blocks of the file.
pub(crate) fn canonical_head_of<A: Allowance>(
    memory: &A,
    listed: &Listed<'_>,
    parts: &[Bytes],
    head: FileHead,
) -> Result<Vec<u8>, PackFault>
    requires { IsHeadOf listed.now parts.now head }
    ensures canonical { IfOk result (λ bytes.
        IsCanonical (file_of (database_of_parts listed.now parts.now))
        (bytes.items ++ blocks_text (database_of_parts listed.now parts.now))) }
    ensures memory { IfErr result (λ fault. fault ≡ PackFault.OutOfMemory) }
    ensures short { IfErr result (λ _. A.is_short memory.now) }
{
    let size = head.size;
    let start = start_of(memory, listed, parts, head)?;
    let file = PackedStart {
        listed,
        parts,
        start: start.as_slice(),
        size,
    };
    let Ok(file) = PdbFile::of_bytes(memory, file) else {
        return Err(PackFault::OutOfMemory);
    };
    match canonical_head(memory, &file) {
        Ok(bytes) => Ok(bytes),
        Err(_) => Err(PackFault::OutOfMemory),
    }
}
