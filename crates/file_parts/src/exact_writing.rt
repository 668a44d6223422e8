//! Exact files that are written: the offsets of their blocks, and their bytes.

ghost use Rattle.std.specs.Prelude.{◌≡◌, ◌≤◌, ◌<◌, ◌+◌, ◌++◌, Err, IfOk, IfErr, OnOk, is_ok, length, replicate, slice_index};
ghost use Rattle.std.specs.List.{flat_map};
ghost use Rattle.heap_model.specs.Database.{IsDatabaseName, data_in, entry_bytes, header_bytes};
ghost use Rattle.heap_model.specs.Files.{block_bytes};
ghost use Rattle.palm_text.specs.Counted.{Writes};
ghost use Rattle.canonical_file.specs.Canonical.{most_bytes};
ghost use Rattle.db_format.specs.EitherEntry.{HasFittingId, entry_of};
ghost use Rattle.db_format.specs.Headers.{header_values};
ghost use Rattle.file_parts.specs.Exact.{ExactFile, exact_block, exact_blocks, exact_bytes, exact_placed, exact_size, exact_start};
ghost use Rattle.file_parts.specs.ExactListed.{AreOffsets};
ghost use Rattle.file_parts.specs.ExactWriting.{AreExactPlaces, HasValuesAt, IsOrdered, IsPlaceFault};

use crate::exact_packing::entry_at;
use crate::packing::end_of;
use allowance::{Allowance, filled};
use db_format::{DATABASE_HEADER_SIZE, DbEntry, DbHeader, INFO_BLOCKS, NAME_SIZE};
use palm_text::{Counted, WriteFault, put_all};
use std::io::Write;
use thiserror::Error;

/// The reason why a file was not laid out.
#[derive(Clone, Copy, Debug, PartialEq, Eq, Error)]
pub enum PlaceFault {
    /// The file would have more than `MOST_BYTES` bytes.
    #[error("TooLarge")]
    TooLarge,
    /// An allocation failed.
    #[error("OutOfMemory")]
    OutOfMemory,
}

/// The offsets of the blocks by their ranks, and the size of the file.
#[derive(Drop)]
pub(crate) struct Places {
    pub(crate) offsets: Vec<u32>,
    pub(crate) size: u32,
}

/// A file that can be written: its values, its filler, its blocks and their order.
pub(crate) trait ExactSource {
    /// The file.
    ghost exact: { Self → ExactFile };

    /// The facts that the calls need.
    ghost is_good: { Self → Type 0 };

    /// Returns the ranks of the blocks in their order.
    fn ranks(&self) -> &[u32]
        requires { is_good self.now }
        ensures are { result.now ≡ (exact self.now).order }
        ensures ordered { IsOrdered (exact self.now) };

    /// Returns the number of ranks.
    fn rank_count(&self) -> usize
        requires { is_good self.now }
        ensures { result ≡ length (data_in (exact self.now).database) };

    /// Returns the bytes of the block of a rank, and none if there is no block.
    fn block(&self, rank: usize) -> &[u8]
        requires good { is_good self.now }
        requires inside { rank < length (data_in (exact self.now).database) }
        ensures { result.now ≡ block_bytes (exact_block (exact self.now) rank) };

    /// Returns the offset of the first block.
    fn first_offset(&self) -> u32
        requires { is_good self.now }
        ensures is { result ≡ exact_start (exact self.now) }
        ensures most { result ≤ most_bytes };

    /// Returns the name and the bytes after it.
    fn name_field(&self) -> [u8; NAME_SIZE]
        requires { is_good self.now }
        ensures { result ≡ (exact self.now).database.header.name ++ (exact self.now).after_name };

    /// Returns the header. Its offsets may be any.
    fn header(&self) -> DbHeader
        requires { is_good self.now }
        ensures values { header_values result ≡ (exact self.now).database.header }
        ensures entry_count { result.entry_count ≡ length (exact self.now).database.entries }
        ensures name { IsDatabaseName (exact self.now).database.header.name };

    /// Returns the entry at an index. The offset of its data may be any.
    fn entry(&self, index: u16) -> DbEntry
        requires good { is_good self.now }
        requires inside { index < length (exact self.now).database.entries }
        ensures is { HasValuesAt (exact self.now) index (entry_of result) }
        ensures id { HasFittingId result };

    /// Returns the filler.
    fn filler(&self) -> &[u8]
        requires { is_good self.now }
        ensures { result.now ≡ (exact self.now).filler };
}

/// Returns the rank at an index of the order.
pub(crate) fn rank_at<S: ExactSource>(source: &S, index: usize) -> usize
    requires good { S.is_good source.now }
    requires inside { index < length (S.exact source.now).order }
    ensures is { result ≡ slice_index (S.exact source.now).order index }
    ensures there { result < length (data_in (S.exact source.now).database) }
{
    let ranks = source.ranks();
    ranks[index] as usize
}

/// Writes the offset of each block to the place of its rank, and returns the size of the file. At
/// first all of the offsets are 0.
fn place_ranks<S: ExactSource>(
    source: &S,
    first: u32,
    offsets: &mut [u32],
) -> Result<u32, PlaceFault>
    requires good { S.is_good source.now }
    requires first { first ≡ exact_start (S.exact source.now) }
    requires most { first ≤ most_bytes }
    requires none { offsets.old ≡ replicate (length (data_in (S.exact source.now).database)) 0 }
    ensures are { OnOk result (AreOffsets (S.exact source.now) offsets.new) }
    ensures size { IfOk result (λ size. size ≡ exact_size (S.exact source.now)) }
    ensures fits { IfOk result (λ size. size ≤ most_bytes) }
    ensures large { IfErr result (IsPlaceFault (exact_size (S.exact source.now))) }
    ensures takes_no_memory { IfErr result (λ fault. fault ≡ PlaceFault.TooLarge) }
{
    let mut at = first;
    let ranks = source.ranks();
    for index in 0..ranks.len() {
        let rank = rank_at(source, index);
        offsets[rank] = at;
        at = match end_of(at, source.block(rank)) {
            Ok(end) => end,
            Err(_) => return Err(PlaceFault::TooLarge),
        };
    }
    Ok(at)
}

/// Returns the offset of each rank, 0 if there is no block, and the size of the file.
pub(crate) fn place_blocks<A: Allowance, S: ExactSource>(
    memory: &A,
    source: &S,
) -> Result<Places, PlaceFault>
    requires { S.is_good source.now }
    ensures are { IfOk result (AreExactPlaces (S.exact source.now)) }
    ensures large { IfErr result (IsPlaceFault (exact_size (S.exact source.now))) }
    ensures short { result ≡ Err PlaceFault.OutOfMemory → A.is_short memory.now }
{
    let Ok(mut offsets) = filled(memory, 0u32, source.rank_count()) else {
        return Err(PlaceFault::OutOfMemory);
    };
    match place_ranks(source, source.first_offset(), &mut offsets) {
        Ok(size) => Ok(Places { offsets, size }),
        Err(fault) => Err(fault),
    }
}

/// Writes a file with blocks at these offsets. It doesn't flush `out`, and allocates nothing. After
/// a write fails, it writes nothing more.
///
/// # Errors
///
/// - `WriteFault`: if a write failed, or took 0 bytes.
pub(crate) fn put_exact<S: ExactSource, W: Write>(
    out: &mut Counted<W>,
    source: &S,
    offsets: &[u32],
) -> Result<(), WriteFault>
    requires good { S.is_good source.now }
    requires are { AreOffsets (S.exact source.now) offsets.now }
    ensures { Writes W.contents out.old out.new (exact_bytes (S.exact source.now)) (is_ok result) }
{
    put_all(out, &source.name_field())?;
    put_all(out, &header_at(source, offsets)[NAME_SIZE..])?;
    put_entries(out, source, offsets)?;
    put_tail(out, source)
}

/// Returns the bytes of the header with these offsets.
fn header_at<S: ExactSource>(source: &S, offsets: &[u32]) -> [u8; DATABASE_HEADER_SIZE]
    requires good { S.is_good source.now }
    requires are { AreOffsets (S.exact source.now) offsets.now }
    ensures is { result ≡ header_bytes (exact_placed (S.exact source.now)) }
    ensures name { IsDatabaseName (S.exact source.now).database.header.name }
{
    let mut header = source.header();
    header.app_info = offsets[0];
    header.sort_info = offsets[1];
    header.to_bytes()
}

/// Writes the entries.
fn put_entries<S: ExactSource, W: Write>(
    out: &mut Counted<W>,
    source: &S,
    offsets: &[u32],
) -> Result<(), WriteFault>
    requires good { S.is_good source.now }
    requires are { AreOffsets (S.exact source.now) offsets.now }
    ensures { Writes W.contents out.old out.new
        (flat_map entry_bytes (exact_placed (S.exact source.now)).entries) (is_ok result) }
{
    for index in 0..source.header().entry_count {
        let entry = entry_at(source.entry(index), offsets[INFO_BLOCKS + index as usize]);
        match put_all(out, entry.to_bytes().as_slice()) {
            Ok(()) => {}
            Err(fault) => return Err(fault),
        }
    }
    Ok(())
}

/// Writes the filler and the blocks.
#[tactic(auto, using(palm_text::proofs::Parts::then, palm_text::proofs::Parts::stops))]
fn put_tail<S: ExactSource, W: Write>(out: &mut Counted<W>, source: &S) -> Result<(), WriteFault>
    requires { S.is_good source.now }
    ensures { Writes W.contents out.old out.new
        ((S.exact source.now).filler ++ exact_blocks (S.exact source.now)) (is_ok result) }
{
    put_all(out, source.filler())?;
    put_blocks(out, source)
}

/// Writes the blocks in their order.
fn put_blocks<S: ExactSource, W: Write>(out: &mut Counted<W>, source: &S) -> Result<(), WriteFault>
    requires { S.is_good source.now }
    ensures { Writes W.contents out.old out.new (exact_blocks (S.exact source.now)) (is_ok result) }
{
    let ranks = source.ranks();
    for index in 0..ranks.len() {
        let rank = rank_at(source, index);
        match put_all(out, source.block(rank)) {
            Ok(()) => {}
            Err(fault) => return Err(fault),
        }
    }
    Ok(())
}
