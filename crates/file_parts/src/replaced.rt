//! Files with one of their blocks replaced.

ghost use Rattle.std.specs.Prelude.{◌≡◌, ◌≤◌, ◌<◌, ℕ, Err, IfOk, IfErr, false, true, is_ok, length, take};
ghost use Rattle.heap_model.specs.DatabaseFields.{name_size};
ghost use Rattle.heap_model.specs.Files.{block_bytes, blocks_in};
ghost use Rattle.palm_text.specs.Counted.{Writes};
ghost use Rattle.file_parts.specs.Exact as files;
ghost use Rattle.file_parts.specs.ExactUnpacking.{IsUnpackedExact};
ghost use Rattle.file_parts.specs.Replacing.{IsReplaced, IsReplaceFault, IsReplacing, Replaces, block_in, bytes_replaced, exact_replacing, has_block_of_rank, size_fault};

use crate::exact_unpacked::UnpackedExact;
use crate::exact_writing::{ExactSource, PlaceFault, Places, place_blocks, put_exact, rank_at};
use allowance::Allowance;
use db_format::{DbEntry, DbHeader, NAME_SIZE};
use palm_text::{Counted, WriteFault};
use pdb_format::PdbFile;
use std::io::Write;
use thiserror::Error;

/// The reason why a block was not replaced.
#[derive(Clone, Copy, Debug, PartialEq, Eq, Error)]
pub enum ReplaceFault {
    /// The file would have more than `MOST_BYTES` bytes.
    #[error("TooLarge")]
    TooLarge,
    /// The block would have no bytes, and the block after it has a lower rank.
    #[error("EmptyPart")]
    EmptyPart,
    /// An allocation failed.
    #[error("OutOfMemory")]
    OutOfMemory,
}

/// A file, a rank, and the bytes that the block of the rank gets.
#[derive(Drop)]
pub(crate) struct Replacing<'a> {
    pub(crate) unpacked: UnpackedExact<'a>,
    pub(crate) at: usize,
    pub(crate) part: &'a [u8],
}

/// A file with a block replaced, ready to be written.
#[derive(Drop)]
pub struct Replaced<'a> {
    replacing: Replacing<'a>,
    places: Places,
}

impl ExactSource for Replacing<'_> {
    ghost exact = { exact_replacing };

    ghost is_good = { IsReplacing };

    fn ranks(&self) -> &[u32] {
        self.unpacked.ranks.as_slice()
    }

    fn rank_count(&self) -> usize {
        self.unpacked.file.rank_count()
    }

    fn block(&self, rank: usize) -> &[u8] {
        if rank == self.at {
            return self.part;
        }
        old_block(&self.unpacked.file, rank)
    }

    fn first_offset(&self) -> u32 {
        let file = &self.unpacked.file;
        (file.entries_end() + file.filler().len()) as u32
    }

    fn name_field(&self) -> [u8; NAME_SIZE] {
        copied_name(self.unpacked.file.bytes())
    }

    fn header(&self) -> DbHeader {
        self.unpacked.file.header()
    }

    fn entry(&self, index: u16) -> DbEntry {
        self.unpacked.file.entry(index)
    }

    fn filler(&self) -> &[u8] {
        self.unpacked.file.filler()
    }
}

/// Replaces the block of a rank by the bytes of a part. All else stays as it is, but offsets move.
/// It allocates the offsets of the blocks.
///
/// # Errors
///
/// - `TooLarge`: if the file would have more than `MOST_BYTES` bytes.
/// - `EmptyPart`: if the part has no bytes, and the block after it has a lower rank. Both would have
///   one offset, and the block of the lower rank would be read as the empty one.
/// - `OutOfMemory`: if an allocation failed.
pub fn replace_block<'a, A: Allowance>(
    memory: &A,
    unpacked: UnpackedExact<'a>,
    at: usize,
    part: &'a [u8],
) -> Result<Replaced<'a>, ReplaceFault>
    requires good { IsUnpackedExact unpacked }
    requires there { has_block_of_rank unpacked.file at ≡ true }
    ensures done { IfOk result IsReplaced }
    ensures replaces { IfOk result (λ replaced.
        Replaces unpacked.entry.file at part.now (bytes_replaced replaced)) }
    ensures why { IfErr result (IsReplaceFault unpacked.entry.file at part.now) }
    ensures short { result ≡ Err ReplaceFault.OutOfMemory → A.is_short memory.now }
{
    unpacked.file.know_file();
    let replacing = Replacing { unpacked, at, part };
    ready(memory, replacing)
}

/// Lays a file with a block replaced out.
fn ready<'a, A: Allowance>(
    memory: &A,
    replacing: Replacing<'a>,
) -> Result<Replaced<'a>, ReplaceFault>
    requires { IsReplacing replacing }
    ensures done { IfOk result IsReplaced }
    ensures same { IfOk result (λ replaced. replaced.replacing ≡ replacing.entry) }
    ensures why { IfErr result (IsReplaceFault replacing.entry.unpacked.file replacing.entry.at
        replacing.entry.part.now) }
    ensures short { result ≡ Err ReplaceFault.OutOfMemory → A.is_short memory.now }
{
    if !is_in_order(&replacing) {
        return Err(ReplaceFault::EmptyPart);
    }
    match place_blocks(memory, &replacing) {
        Ok(places) => Ok(Replaced { replacing, places }),
        Err(fault) => Err(replace_fault(fault)),
    }
}

/// Returns the reason why no block is replaced, if the file isn't laid out.
fn replace_fault(fault: PlaceFault) -> ReplaceFault
    ensures { result ≡ size_fault fault }
{
    match fault {
        PlaceFault::TooLarge => ReplaceFault::TooLarge,
        PlaceFault::OutOfMemory => ReplaceFault::OutOfMemory,
    }
}

/// Returns a copy of the field of the name.
fn copied_name(file: &[u8]) -> [u8; NAME_SIZE]
    requires { name_size ≤ length file.now }
    ensures { result ≡ take name_size file.now }
{
    let mut field = [0; NAME_SIZE];
    field.copy_from_slice(&file[..NAME_SIZE]);
    field
}

/// Returns the bytes of the block of a rank in a file, and none if the file doesn't have the block.
pub(crate) fn old_block<'a>(file: &PdbFile<'a>, rank: usize) -> &'a [u8]
    requires { rank < length (blocks_in file.now) }
    ensures { result.now ≡ block_bytes (block_in file.now rank) }
{
    match file.block(rank) {
        Some(block) => file.bytes_of(block),
        None => &[],
    }
}

/// Returns whether the block at an index of the order has no bytes, and the block after it has a
/// lower rank.
fn is_misplaced(replacing: &Replacing<'_>, index: usize) -> bool
    requires good { IsReplacing replacing.now }
    requires inside { index < length replacing.now.unpacked.ranks.items }
    ensures { result ≡ files.is_misplaced (exact_replacing replacing.now) index }
{
    let ranks = replacing.unpacked.ranks.as_slice();
    index + 1 < ranks.len()
        && rank_at(replacing, index + 1) < rank_at(replacing, index)
        && replacing.block(rank_at(replacing, index)).is_empty()
}

/// Returns whether no block is misplaced.
fn is_in_order(replacing: &Replacing<'_>) -> bool
    requires { IsReplacing replacing.now }
    ensures yes { result ≡ true → (index : ℕ)
        → files.is_misplaced (exact_replacing replacing.now) index ≡ false }
    ensures no { result ≡ false → (index : ℕ)
        × (files.is_misplaced (exact_replacing replacing.now) index ≡ true) }
{
    let ranks = replacing.unpacked.ranks.as_slice();
    for index in 0..ranks.len() {
        if is_misplaced(replacing, index) {
            return false;
        }
    }
    true
}

impl<'a> Replaced<'a> {
    /// Returns the size of the file in bytes.
    pub fn size(&self) -> usize
        requires { IsReplaced self.now }
        ensures { result ≡ length (bytes_replaced self.now) }
    {
        self.places.size as usize
    }

    /// Writes the file. It doesn't flush `out`, and allocates nothing. After a write fails, it
    /// writes nothing more.
    ///
    /// # Errors
    ///
    /// - `WriteFault`: if a write failed, or took 0 bytes.
    pub fn put<W: Write>(&self, out: &mut Counted<W>) -> Result<(), WriteFault>
        requires { IsReplaced self.now }
        ensures { Writes W.contents out.old out.new (bytes_replaced self.now) (is_ok result) }
    {
        put_exact(out, &self.replacing, self.places.offsets.as_slice())
    }
}
