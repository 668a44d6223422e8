//! Files of exact folders.

ghost use Rattle.std.specs.Prelude.{◌≡◌, ◌≤◌, ◌<◌, ◌+◌, ◌++◌, ℕ, List, false, Err, IfOk, IfErr, OnOk, is_ok, length, replicate, slice_index};
ghost use Rattle.std.specs.List.{flat_map};
ghost use Rattle.heap_model.specs.Database as databases;
ghost use Rattle.heap_model.specs.Database.{data_in, entry_bytes, entry_with, has_resources, header_bytes};
ghost use Rattle.heap_model.specs.Files.{block_bytes};
ghost use Rattle.db_format.specs.EitherEntry.{entry_of, HasFittingId};
ghost use Rattle.palm_text.specs.Counted.{Writes};
ghost use Rattle.canonical_file.specs.Canonical.{most_bytes};
ghost use Rattle.file_parts.specs.Exact as files;
ghost use Rattle.file_parts.specs.Exact.{exact_block, exact_blocks, exact_bytes, exact_placed, exact_size, exact_start, exact_tail};
ghost use Rattle.file_parts.specs.Listed.{IsListed, database_listed};
ghost use Rattle.file_parts.specs.Packing.{IsRefusedFor};
ghost use Rattle.file_parts.specs.ExactTexts.{after_name_of};
ghost use Rattle.file_parts.specs.ExactListed.{AreOffsets, HasExactParts, IsExactPackFault, IsExactlyPacked, IsListedExact, IsMisplacedLine, exact_listed, exact_packed};
ghost use Rattle.file_parts.specs.ExactWriting.{AreExactPlaces};

use crate::exact_listed::ListedExact;
use crate::exact_writing::Places;
use crate::listed::Listed;
use crate::packing::{FileHead, PackFault, append, end_of, part_bytes};
use allowance::{Allowance, filled};
use db_format::{DATABASE_HEADER_SIZE, DbAttrs, DbEntry, INFO_BLOCKS, NAME_SIZE, entry_offset};
use heap_model::Bytes;
use palm_text::{Counted, WriteFault, put_all};
use script_lines::{LineFault, ScriptFault};
use std::io::Write;

/// Puts the parts of an exact folder together, by their ranks and with the filler last, and returns
/// the file. A part is ignored if the text has no name for it.
///
/// # Errors
///
/// - `TooLarge`: if the file would have more than `MOST_BYTES` bytes.
/// - `BadLine`: if a line `order` puts a block without bytes directly before one of a lower rank.
/// - `OutOfMemory`: if an allocation failed.
pub fn pack_exact<A: Allowance>(
    memory: &A,
    exact: &ListedExact<'_>,
    parts: &[Bytes],
) -> Result<Vec<u8>, PackFault>
    requires { HasExactParts exact.now parts.now }
    ensures packed { IfOk result (λ bytes. IsExactlyPacked exact.now parts.now bytes.items) }
    ensures fits { OnOk result (exact_size (exact_packed exact.now parts.now) ≤ most_bytes) }
    ensures why { IfErr result (IsExactPackFault exact.now parts.now) }
    ensures short { result ≡ Err PackFault.OutOfMemory → A.is_short memory.now }
{
    match exact_head(memory, exact, parts) {
        Ok(head) => with_tail(memory, exact, parts, head.bytes),
        Err(fault) => Err(fault),
    }
}

/// Returns the file that begins with these bytes.
fn with_tail<A: Allowance>(
    memory: &A,
    exact: &ListedExact<'_>,
    parts: &[Bytes],
    head: Vec<u8>,
) -> Result<Vec<u8>, PackFault>
    requires { HasExactParts exact.now parts.now }
    ensures file { IfOk result (λ bytes.
        bytes.items ≡ head.items ++ exact_tail (exact_packed exact.now parts.now)) }
    ensures memory { IfErr result (λ fault. fault ≡ PackFault.OutOfMemory) }
    ensures short { IfErr result (λ _. A.is_short memory.now) }
{
    let mut bytes = head;
    append(memory, &mut bytes, filler_of(exact, parts))?;
    append_blocks(memory, exact, parts, &mut bytes)?;
    Ok(bytes)
}

/// Lays the file of an exact folder out. Returns its bytes before the filler, and its size.
///
/// # Errors
///
/// The same as those of `pack_exact`.
pub(crate) fn exact_head<A: Allowance>(
    memory: &A,
    exact: &ListedExact<'_>,
    parts: &[Bytes],
) -> Result<FileHead, PackFault>
    requires { HasExactParts exact.now parts.now }
    ensures packed { IfOk result (λ head. IsExactlyPacked exact.now parts.now
        (head.bytes.items ++ exact_tail (exact_packed exact.now parts.now))) }
    ensures size { IfOk result (λ head. head.size
        ≡ length (head.bytes.items ++ exact_tail (exact_packed exact.now parts.now))) }
    ensures fits { OnOk result (exact_size (exact_packed exact.now parts.now) ≤ most_bytes) }
    ensures why { IfErr result (IsExactPackFault exact.now parts.now) }
    ensures short { result ≡ Err PackFault.OutOfMemory → A.is_short memory.now }
{
    match check_order(exact, parts) {
        Ok(()) => head_placed(memory, exact, parts),
        Err(fault) => Err(fault),
    }
}

/// The same as `exact_head`, whether or not a block is misplaced.
fn head_placed<A: Allowance>(
    memory: &A,
    exact: &ListedExact<'_>,
    parts: &[Bytes],
) -> Result<FileHead, PackFault>
    requires { HasExactParts exact.now parts.now }
    ensures head { IfOk result (λ head. head.bytes.items ++ exact_tail (exact_packed exact.now parts.now)
        ≡ exact_bytes (exact_packed exact.now parts.now)) }
    ensures size { IfOk result (λ head. head.size ≡ exact_size (exact_packed exact.now parts.now)) }
    ensures fits { OnOk result (exact_size (exact_packed exact.now parts.now) ≤ most_bytes) }
    ensures large { IfErr result (IsRefusedFor (exact_size (exact_packed exact.now parts.now))) }
    ensures short { result ≡ Err PackFault.OutOfMemory → A.is_short memory.now }
{
    match place_blocks(memory, exact, parts) {
        Ok(places) => head_by(memory, exact, places),
        Err(fault) => Err(fault),
    }
}

/// Returns the head of the file with these offsets and this size.
fn head_by<A: Allowance>(
    memory: &A,
    exact: &ListedExact<'_>,
    places: Places,
) -> Result<FileHead, PackFault>
    requires good { IsListedExact exact.now }
    requires count { length places.offsets.items
        ≡ length (data_in (database_listed exact.now.listed)) }
    ensures head { (parts : List (List ℕ))
        → AreOffsets (exact_packed exact.now parts) places.offsets.items
        → IfOk result (λ head. head.bytes.items ++ exact_tail (exact_packed exact.now parts)
        ≡ exact_bytes (exact_packed exact.now parts)) }
    ensures size { IfOk result (λ head. head.size ≡ places.size) }
    ensures memory { IfErr result (λ fault. fault ≡ PackFault.OutOfMemory) }
    ensures short { IfErr result (λ _. A.is_short memory.now) }
{
    let mut bytes = Vec::new(memory.allocator());
    let offsets = places.offsets.as_slice();
    append_name(memory, exact, &mut bytes)?;
    append(memory, &mut bytes, &header_at(exact, offsets)[NAME_SIZE..])?;
    append_entries(memory, exact, offsets, &mut bytes)?;
    Ok(FileHead {
        bytes,
        size: places.size as usize,
    })
}

/// Writes the filler and the blocks. It doesn't flush `out`, and allocates nothing. After a write
/// fails, it writes nothing more.
///
/// # Errors
///
/// - `WriteFault`: if a write failed, or took 0 bytes.
#[tactic(auto, using(palm_text::proofs::Parts::then, palm_text::proofs::Parts::stops))]
pub(crate) fn put_tail<W: Write>(
    exact: &ListedExact<'_>,
    parts: &[Bytes],
    out: &mut Counted<W>,
) -> Result<(), WriteFault>
    requires { HasExactParts exact.now parts.now }
    ensures { Writes W.contents out.old out.new
        (exact_tail (exact_packed exact.now parts.now)) (is_ok result) }
{
    put_all(out, filler_of(exact, parts))?;
    put_blocks(exact, parts, out)
}

/// Writes the blocks in their order.
fn put_blocks<W: Write>(
    exact: &ListedExact<'_>,
    parts: &[Bytes],
    out: &mut Counted<W>,
) -> Result<(), WriteFault>
    requires { HasExactParts exact.now parts.now }
    ensures { Writes W.contents out.old out.new
        (exact_blocks (exact_packed exact.now parts.now)) (is_ok result) }
{
    for rank in exact.ranks.as_slice() {
        match put_all(out, block_of(exact, parts, *rank)) {
            Ok(()) => {}
            Err(fault) => return Err(fault),
        }
    }
    Ok(())
}

/// Returns the bytes of the filler.
fn filler_of<'a>(exact: &ListedExact<'_>, parts: &'a [Bytes]) -> &'a [u8]
    requires { HasExactParts exact.now parts.now }
    ensures { result.now ≡ (exact_packed exact.now parts.now).filler }
{
    part_bytes(&exact.lines.filler, parts, exact.listed.rank_count())
}

/// Returns the bytes of the block of a rank.
fn block_of<'a>(exact: &ListedExact<'_>, parts: &'a [Bytes], rank: u32) -> &'a [u8]
    requires parts { HasExactParts exact.now parts.now }
    requires inside { rank + 1 < length parts.now }
    ensures { result.now ≡ block_bytes (exact_block (exact_packed exact.now parts.now) rank) }
{
    part_bytes(exact.listed.part(rank as usize), parts, rank as usize)
}

/// Returns whether the block at an index of the order has no bytes, and the block after it has a
/// lower rank.
fn is_misplaced(exact: &ListedExact<'_>, parts: &[Bytes], index: usize) -> bool
    requires parts { HasExactParts exact.now parts.now }
    requires inside { index < length exact.now.ranks.items }
    ensures { result ≡ files.is_misplaced (exact_packed exact.now parts.now) index }
{
    let ranks = exact.ranks.as_slice();
    index + 1 < ranks.len()
        && ranks[index + 1] < ranks[index]
        && block_of(exact, parts, ranks[index]).is_empty()
}

/// Checks the blocks of the lines `order`.
fn check_order(exact: &ListedExact<'_>, parts: &[Bytes]) -> Result<(), PackFault>
    requires { HasExactParts exact.now parts.now }
    ensures ok { OnOk result ((index : ℕ) → index < length exact.now.lines.order.items
        → files.is_misplaced (exact_packed exact.now parts.now) index ≡ false) }
    ensures err { IfErr result (IsMisplacedLine exact.now parts.now) }
{
    let lines = exact.lines.order.as_slice();
    for index in 0..lines.len() {
        if is_misplaced(exact, parts, index) {
            return Err(PackFault::BadLine(LineFault {
                line: lines[index].line,
                fault: ScriptFault::BadWord(2),
            }));
        }
    }
    Ok(())
}

/// Returns the offset at which the entries end.
fn entries_end(listed: &Listed<'_>) -> u32
    requires { IsListed listed.now }
    ensures is { result ≡ databases.entry_offset (has_resources listed.now.header.attributes)
        (length (database_listed listed.now).entries) }
    ensures most { result ≤ most_bytes }
{
    let resources = DbAttrs(listed.header.attributes).has_resources();
    entry_offset(resources, listed.entries.as_slice().len() as u16) as u32
}

/// Returns the offset of the first block.
fn first_offset(exact: &ListedExact<'_>, parts: &[Bytes]) -> Result<u32, PackFault>
    requires { HasExactParts exact.now parts.now }
    ensures is { IfOk result (λ at. at ≡ exact_start (exact_packed exact.now parts.now)) }
    ensures most { IfOk result (λ at. at ≤ most_bytes) }
    ensures large { IfErr result (IsRefusedFor (exact_size (exact_packed exact.now parts.now))) }
    ensures takes_no_memory { IfErr result (λ fault. fault ≡ PackFault.TooLarge) }
{
    match end_of(entries_end(&exact.listed), filler_of(exact, parts)) {
        Ok(at) => Ok(at),
        Err(fault) => Err(fault),
    }
}

/// Returns the rank at an index of the order.
fn rank_at(exact: &ListedExact<'_>, index: usize) -> u32
    requires good { IsListedExact exact.now }
    requires inside { index < length exact.now.ranks.items }
    ensures is { result ≡ slice_index exact.now.ranks.items index }
    ensures there { result < length (data_in (database_listed exact.now.listed)) }
{
    let ranks = exact.ranks.as_slice();
    ranks[index]
}

/// Writes the offset of each block to the place of its rank, and returns the size of the file. At
/// first all of the offsets are 0.
fn place_ranks(
    exact: &ListedExact<'_>,
    parts: &[Bytes],
    first: u32,
    offsets: &mut [u32],
) -> Result<u32, PackFault>
    requires parts { HasExactParts exact.now parts.now }
    requires first { first ≡ exact_start (exact_packed exact.now parts.now) }
    requires most { first ≤ most_bytes }
    requires none { offsets.old ≡ replicate (length (data_in (database_listed exact.now.listed))) 0 }
    ensures are { OnOk result (AreOffsets (exact_packed exact.now parts.now) offsets.new) }
    ensures size { IfOk result (λ size. size ≡ exact_size (exact_packed exact.now parts.now)) }
    ensures fits { IfOk result (λ size. size ≤ most_bytes) }
    ensures large { IfErr result (IsRefusedFor (exact_size (exact_packed exact.now parts.now))) }
    ensures takes_no_memory { IfErr result (λ fault. fault ≡ PackFault.TooLarge) }
{
    let mut at = first;
    let ranks = exact.ranks.as_slice();
    for index in 0..ranks.len() {
        let rank = rank_at(exact, index);
        offsets[rank as usize] = at;
        at = match end_of(at, block_of(exact, parts, rank)) {
            Ok(end) => end,
            Err(fault) => return Err(fault),
        };
    }
    Ok(at)
}

/// Returns the offset of each rank, 0 if there is no block, and the size of the file.
fn place_blocks<A: Allowance>(
    memory: &A,
    exact: &ListedExact<'_>,
    parts: &[Bytes],
) -> Result<Places, PackFault>
    requires { HasExactParts exact.now parts.now }
    ensures are { IfOk result (AreExactPlaces (exact_packed exact.now parts.now)) }
    ensures large { IfErr result (IsRefusedFor (exact_size (exact_packed exact.now parts.now))) }
    ensures short { result ≡ Err PackFault.OutOfMemory → A.is_short memory.now }
{
    let Ok(mut offsets) = filled(memory, 0u32, exact.listed.rank_count()) else {
        return Err(PackFault::OutOfMemory);
    };
    let first = match first_offset(exact, parts) {
        Ok(first) => first,
        Err(fault) => return Err(fault),
    };
    match place_ranks(exact, parts, first, &mut offsets) {
        Ok(size) => Ok(Places { offsets, size }),
        Err(fault) => Err(fault),
    }
}

/// Appends the name and the bytes after it.
fn append_name<A: Allowance>(
    memory: &A,
    exact: &ListedExact<'_>,
    bytes: &mut Vec<u8>,
) -> Result<(), PackFault>
    requires { IsListedExact exact.now }
    ensures items { OnOk result (bytes.new.items ≡ bytes.old.items ++ (exact.now.listed.header.name
        ++ after_name_of exact.now.listed.header.name (exact_listed exact.now).after_name)) }
    ensures memory { IfErr result (λ fault. fault ≡ PackFault.OutOfMemory) }
    ensures short { IfErr result (λ _. A.is_short memory.now) }
{
    let name = &exact.listed.header.name;
    append(memory, bytes, name.name())?;
    let mut buffer = [0; NAME_SIZE];
    match &exact.lines.after_name {
        Some(after) => append(memory, bytes, after.bytes.decoded(&mut buffer)),
        None => append(memory, bytes, &buffer[name.name().len()..]),
    }
}

/// Returns the bytes of the header with these offsets.
fn header_at(exact: &ListedExact<'_>, offsets: &[u32]) -> [u8; DATABASE_HEADER_SIZE]
    requires good { IsListedExact exact.now }
    requires count { length offsets.now ≡ length (data_in (database_listed exact.now.listed)) }
    ensures { (parts : List (List ℕ)) → AreOffsets (exact_packed exact.now parts) offsets.now
        → result ≡ header_bytes (exact_placed (exact_packed exact.now parts)) }
{
    let mut header = exact.listed.header;
    header.app_info = offsets[0];
    header.sort_info = offsets[1];
    header.entry_count = exact.listed.entries.as_slice().len() as u16;
    header.to_bytes()
}

/// Returns an entry with its data at an offset.
pub(crate) fn entry_at(entry: DbEntry, at: u32) -> DbEntry
    requires { HasFittingId entry }
    ensures is { entry_of result ≡ entry_with (λ _. at) (entry_of entry) }
    ensures id { HasFittingId result }
{
    match entry {
        DbEntry::Record(mut record) => {
            record.slot = at;
            DbEntry::Record(record)
        }
        DbEntry::Resource(mut resource) => {
            resource.slot = at;
            DbEntry::Resource(resource)
        }
    }
}

/// Appends the entries with these offsets.
fn append_entries<A: Allowance>(
    memory: &A,
    exact: &ListedExact<'_>,
    offsets: &[u32],
    bytes: &mut Vec<u8>,
) -> Result<(), PackFault>
    requires good { IsListedExact exact.now }
    requires count { length offsets.now ≡ length (data_in (database_listed exact.now.listed)) }
    ensures items { (parts : List (List ℕ)) → AreOffsets (exact_packed exact.now parts) offsets.now
        → OnOk result (bytes.new.items ≡ bytes.old.items
        ++ flat_map entry_bytes (exact_placed (exact_packed exact.now parts)).entries) }
    ensures memory { IfErr result (λ fault. fault ≡ PackFault.OutOfMemory) }
    ensures short { IfErr result (λ _. A.is_short memory.now) }
{
    let entries = exact.listed.entries.as_slice();
    for index in 0..entries.len() {
        let entry = entry_at(entries[index].entry, offsets[INFO_BLOCKS + index]);
        append(memory, bytes, entry.to_bytes().as_slice())?;
    }
    Ok(())
}

/// Appends the blocks in their order.
fn append_blocks<A: Allowance>(
    memory: &A,
    exact: &ListedExact<'_>,
    parts: &[Bytes],
    bytes: &mut Vec<u8>,
) -> Result<(), PackFault>
    requires { HasExactParts exact.now parts.now }
    ensures items { OnOk result (bytes.new.items
        ≡ bytes.old.items ++ exact_blocks (exact_packed exact.now parts.now)) }
    ensures memory { IfErr result (λ fault. fault ≡ PackFault.OutOfMemory) }
    ensures short { IfErr result (λ _. A.is_short memory.now) }
{
    for rank in exact.ranks.as_slice() {
        append(memory, bytes, block_of(exact, parts, *rank))?;
    }
    Ok(())
}
