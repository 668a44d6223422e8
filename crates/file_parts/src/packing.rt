//! Files that are put together in canonical form.

ghost use Rattle.std.specs.Prelude.{◌≡◌, ◌<◌, ◌≤◌, ◌+◌, ◌++◌, ℕ, List, All, length, Err, IfOk, OnOk, IfErr, is_ok};
ghost use Rattle.heap_model.specs.Database.{entry_with};
ghost use Rattle.heap_model.specs.Files as files;
ghost use Rattle.heap_model.specs.Files.{block_bytes, file_of, first_block, idle_entry};
ghost use Rattle.db_format.specs.EitherEntry.{HasFittingId, entry_of};
ghost use Rattle.pdb_format.specs.Writable.{file_size};
ghost use Rattle.pdb_format.specs.FileTexts.{blocks_text, data_text, entries_text, header_text};
ghost use Rattle.palm_text.specs.Counted.{Writes};
ghost use Rattle.canonical_file.specs.Canonical.{most_bytes};
ghost use Rattle.file_parts.specs.Laws.{IsCanonicallyPacked};
ghost use Rattle.file_parts.specs.Listed.{IsListed, entry_listed};
ghost use Rattle.file_parts.specs.Packing.{AreBlockPlaces, HasPartsOf, IsRefusedFor, filled, database_of_parts, packed_entries, part_at};

use crate::entries::ListedEntry;
use crate::listed::Listed;
use crate::packed_start::canonical_head_of;
use crate::part_file::PartFile;
use allowance::Allowance;
use canonical_file::MOST_BYTES;
use db_format::{DATABASE_HEADER_SIZE, DbAttrs, DbEntry, INFO_BLOCKS};
use heap_model::Bytes;
use palm_text::{Counted, WriteFault, put_all};
use pdb_format::{FILLER, first_place_after, idle_entry_at};
use script_lines::LineFault;
use std::io::Write;
use thiserror::Error;

/// The reason why no file was put together.
#[derive(Clone, Copy, Debug, PartialEq, Eq, Error)]
pub enum PackFault {
    /// The file would have more than `MOST_BYTES` bytes.
    #[error("TooLarge")]
    TooLarge,
    /// A line of the text of an exact folder is at fault.
    #[error("line {} {}", .0.line, .0.fault)]
    BadLine(LineFault),
    /// An allocation failed.
    #[error("OutOfMemory")]
    OutOfMemory,
}

/// The bytes of a file before its blocks, and the size of the file in bytes.
#[derive(Drop)]
pub(crate) struct FileHead {
    pub(crate) bytes: Vec<u8>,
    pub(crate) size: usize,
}

/// The offsets at which the blocks begin: AppInfo, SortInfo, and the data of the entries.
#[derive(Clone, Copy)]
pub(crate) struct Places {
    pub(crate) app: u32,
    pub(crate) sort: u32,
    pub(crate) entries: u32,
}

/// Returns the bytes of a part, and none if there is no part.
fn bytes_of<'a>(part: &Option<PartFile<'_>>, bytes: &'a Bytes) -> &'a [u8]
    ensures { result.now ≡ block_bytes (filled bytes.now part.now) }
{
    match part {
        Some(_) => bytes.as_slice(),
        None => &[],
    }
}

/// Returns the bytes of the part of a rank, and none if there is no part.
pub(crate) fn part_bytes<'a>(
    part: &Option<PartFile<'_>>,
    parts: &'a [Bytes],
    rank: usize,
) -> &'a [u8]
    requires { rank < length parts.now }
    ensures { result.now ≡ block_bytes (filled (part_at parts.now rank) part.now) }
{
    bytes_of(part, &parts[rank])
}

/// Returns the offset `at` of a part, and 0 if there is no part.
fn offset_of(at: u32, part: &Option<PartFile<'_>>) -> u32
    ensures { (bytes : List ℕ) → result ≡ files.block_offset at (filled bytes part.now) }
{
    match part {
        Some(_) => at,
        None => 0,
    }
}

/// Returns the end of a block that begins at an offset.
pub(crate) fn end_of(at: u32, block: &[u8]) -> Result<u32, PackFault>
    requires { at ≤ most_bytes }
    ensures is { IfOk result (λ end. end ≡ at + length block.now) }
    ensures most { IfOk result (λ end. end ≤ most_bytes) }
    ensures large { IfErr result (IsRefusedFor (at + length block.now)) }
    ensures takes_no_memory { IfErr result (λ fault. fault ≡ PackFault.TooLarge) }
{
    if block.len() > MOST_BYTES - at as usize {
        return Err(PackFault::TooLarge);
    }
    Ok(at + block.len() as u32)
}

/// Returns the offset of the first block.
fn first_place(listed: &Listed<'_>) -> u32
    requires { IsListed listed.now }
    ensures is { (parts : List (List ℕ)) → result ≡ first_block (database_of_parts listed.now parts) }
    ensures most { result ≤ most_bytes }
{
    let count = listed.entries.as_slice().len() as u16;
    first_place_after(DbAttrs(listed.header.attributes).has_resources(), count)
}

/// Returns the offsets at which the blocks of the file begin.
fn find_places(listed: &Listed<'_>, parts: &[Bytes]) -> Result<Places, PackFault>
    requires { HasPartsOf listed.now parts.now }
    ensures are { IfOk result (AreBlockPlaces (database_of_parts listed.now parts.now)) }
    ensures large { IfErr result (IsRefusedFor (file_size (database_of_parts listed.now parts.now))) }
    ensures takes_no_memory { IfErr result (λ fault. fault ≡ PackFault.TooLarge) }
{
    let app = first_place(listed);
    match end_of(app, part_bytes(&listed.infos.app, parts, 0)) {
        Ok(sort) => find_entries(listed, parts, app, sort),
        Err(fault) => Err(fault),
    }
}

/// Returns the offsets at which the blocks of the file begin. Two of them are known.
fn find_entries(
    listed: &Listed<'_>,
    parts: &[Bytes],
    app: u32,
    sort: u32,
) -> Result<Places, PackFault>
    requires parts { HasPartsOf listed.now parts.now }
    requires app { app ≡ first_block (database_of_parts listed.now parts.now) }
    requires sort { sort ≡ app + files.block_size (database_of_parts listed.now parts.now).app_info }
    requires most { sort ≤ most_bytes }
    ensures are { IfOk result (AreBlockPlaces (database_of_parts listed.now parts.now)) }
    ensures large { IfErr result (IsRefusedFor (file_size (database_of_parts listed.now parts.now))) }
    ensures takes_no_memory { IfErr result (λ fault. fault ≡ PackFault.TooLarge) }
{
    match end_of(sort, part_bytes(&listed.infos.sort, parts, 1)) {
        Ok(entries) => Ok(Places { app, sort, entries }),
        Err(fault) => Err(fault),
    }
}

/// Returns the bytes of the header of the file.
fn header_bytes(listed: &Listed<'_>, places: Places) -> [u8; DATABASE_HEADER_SIZE]
    requires { IsListed listed.now }
    ensures { (parts : List (List ℕ)) → AreBlockPlaces (database_of_parts listed.now parts) places
        → result ≡ header_text (database_of_parts listed.now parts) }
{
    let mut header = listed.header;
    header.app_info = offset_of(places.app, &listed.infos.app);
    header.sort_info = offset_of(places.sort, &listed.infos.sort);
    header.entry_count = listed.entries.as_slice().len() as u16;
    header.to_bytes()
}

/// Returns an entry as it is written to the file: no record is busy, and its data begins at an
/// offset.
fn placed(listed: &ListedEntry<'_>, at: u32) -> DbEntry
    requires { HasFittingId listed.now.entry }
    ensures is { (bytes : List ℕ) → entry_of result
        ≡ entry_with (files.block_offset at) (idle_entry (entry_with (filled bytes) (entry_listed listed.now))) }
    ensures id { HasFittingId result }
{
    idle_entry_at(listed.entry, offset_of(at, &listed.part))
}

/// Appends bytes.
pub(crate) fn append<A: Allowance>(
    memory: &A,
    bytes: &mut Vec<u8>,
    more: &[u8],
) -> Result<(), PackFault>
    ensures items { OnOk result (bytes.new.items ≡ bytes.old.items ++ more.now) }
    ensures memory { IfErr result (λ fault. fault ≡ PackFault.OutOfMemory) }
    ensures short { IfErr result (λ _. A.is_short memory.now) }
{
    match allowance::extend(memory, bytes, more) {
        Ok(()) => Ok(()),
        Err(_) => Err(PackFault::OutOfMemory),
    }
}

/// Appends the entries, and returns the offset at which their data ends. It begins at the offset
/// `first`.
fn append_entries<A: Allowance>(
    memory: &A,
    entries: &[ListedEntry<'_>],
    parts: &[Bytes],
    first: u32,
    bytes: &mut Vec<u8>,
) -> Result<u32, PackFault>
    requires good { All (λ entry. HasFittingId entry.entry) entries.now }
    requires count { length parts.now ≡ 2 + length entries.now }
    requires first { first ≤ most_bytes }
    ensures items { OnOk result (bytes.new.items
        ≡ bytes.old.items ++ entries_text first (packed_entries entries.now parts.now)) }
    ensures end { IfOk result (λ end.
        end ≡ first + length (data_text (packed_entries entries.now parts.now))) }
    ensures most { IfOk result (λ end. end ≤ most_bytes) }
    ensures large { IfErr result
        (IsRefusedFor (first + length (data_text (packed_entries entries.now parts.now)))) }
    ensures short { result ≡ Err PackFault.OutOfMemory → A.is_short memory.now }
{
    let mut at = first;
    for index in 0..entries.len() {
        let entry = &entries[index];
        append(memory, bytes, placed(entry, at).to_bytes().as_slice())?;
        at = match end_of(at, part_bytes(&entry.part, parts, INFO_BLOCKS + index)) {
            Ok(end) => end,
            Err(fault) => return Err(fault),
        };
    }
    Ok(at)
}

/// Returns the bytes before the blocks in the file of the database with these parts, and the size of
/// the file.
fn file_head<A: Allowance>(
    memory: &A,
    listed: &Listed<'_>,
    parts: &[Bytes],
) -> Result<FileHead, PackFault>
    requires { HasPartsOf listed.now parts.now }
    ensures file { IfOk result (λ head. file_of (database_of_parts listed.now parts.now)
        ≡ head.bytes.items ++ blocks_text (database_of_parts listed.now parts.now)) }
    ensures size { IfOk result (λ head. head.size ≡ file_size (database_of_parts listed.now parts.now)) }
    ensures most { OnOk result (file_size (database_of_parts listed.now parts.now) ≤ most_bytes) }
    ensures large { IfErr result (IsRefusedFor (file_size (database_of_parts listed.now parts.now))) }
    ensures short { result ≡ Err PackFault.OutOfMemory → A.is_short memory.now }
{
    let places = find_places(listed, parts)?;
    let mut bytes = Vec::new(memory.allocator());
    append(memory, &mut bytes, &header_bytes(listed, places))?;
    let end = append_entries(
        memory,
        listed.entries.as_slice(),
        parts,
        places.entries,
        &mut bytes,
    )?;
    append(memory, &mut bytes, &FILLER)?;
    Ok(FileHead {
        bytes,
        size: end as usize,
    })
}

/// Puts the parts of a listed database together, by their ranks. Returns the bytes before the blocks
/// in the canonical form of the database's file, and the size of the canonical form. A part is
/// ignored if the list has no name for its rank.
///
/// The file itself is not put together: the IDs of the records are given by its first bytes.
///
/// # Errors
///
/// - `TooLarge`: if the file would have more than `MOST_BYTES` bytes.
/// - `OutOfMemory`: if an allocation failed.
pub(crate) fn pack_head<A: Allowance>(
    memory: &A,
    listed: &Listed<'_>,
    parts: &[Bytes],
) -> Result<FileHead, PackFault>
    requires { HasPartsOf listed.now parts.now }
    ensures packed { IfOk result (λ head. IsCanonicallyPacked (database_of_parts listed.now parts.now)
        (head.bytes.items ++ blocks_text (database_of_parts listed.now parts.now))) }
    ensures size { IfOk result (λ head. head.size ≡ length
        (head.bytes.items ++ blocks_text (database_of_parts listed.now parts.now))) }
    ensures fits { OnOk result (file_size (database_of_parts listed.now parts.now) ≤ most_bytes) }
    ensures large { IfErr result (IsRefusedFor (file_size (database_of_parts listed.now parts.now))) }
    ensures short { result ≡ Err PackFault.OutOfMemory → A.is_short memory.now }
{
    let head = file_head(memory, listed, parts)?;
    let blocks = head.size - head.bytes.len();
    let bytes = canonical_head_of(memory, listed, parts, head)?;
    Ok(FileHead {
        size: bytes.len() + blocks,
        bytes,
    })
}

/// Writes the blocks. It doesn't flush `out`, and allocates nothing. After a write fails, it writes
/// nothing more.
///
/// # Errors
///
/// - `WriteFault`: if a write failed, or took 0 bytes.
pub(crate) fn put_blocks<W: Write>(
    listed: &Listed<'_>,
    parts: &[Bytes],
    out: &mut Counted<W>,
) -> Result<(), WriteFault>
    requires { HasPartsOf listed.now parts.now }
    ensures { Writes W.contents out.old out.new
        (blocks_text (database_of_parts listed.now parts.now)) (is_ok result) }
{
    for rank in 0..parts.len() {
        match put_all(out, part_bytes(listed.part(rank), parts, rank)) {
            Ok(()) => {}
            Err(fault) => return Err(fault),
        }
    }
    Ok(())
}
