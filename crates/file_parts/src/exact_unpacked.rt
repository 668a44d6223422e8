//! Files that are taken apart as they stand.

ghost use Rattle.std.specs.Prelude.{◌≡◌, ◌≤◌, ◌<◌, ◌+◌, None, Err, IfOk, IfErr, OnErr, MatchOption, length};
ghost use Rattle.heap_model.specs.Files.{blocks_in, offsets_in};
ghost use Rattle.canonical_file.specs.Canonical.{most_bytes};
ghost use Rattle.file_parts.specs.Unpacking.{IsUnpackFault};
ghost use Rattle.file_parts.specs.Exact.{IsExactly, IsOrderOf};
ghost use Rattle.file_parts.specs.ExactLaws.{PacksBackExactly};
ghost use Rattle.file_parts.specs.ExactUnpacking.{IsExactPart, IsUnpackedExact, block_order, block_starts, exact_of, exact_part_at};

use crate::unpacked::{Part, PartName, UnpackFault, open_file, part_of};
use allowance::{Allowance, push};
use pdb_format::PdbFile;
use std::alloc::AllocError;

/// A file, with the ranks of its blocks in their order.
#[derive(Drop)]
pub struct UnpackedExact<'a> {
    pub(crate) file: PdbFile<'a>,
    pub(crate) ranks: Vec<u32>,
}

/// The offset and the rank of a block.
#[derive(Clone, Copy)]
pub(crate) struct BlockStart {
    pub(crate) at: u32,
    pub(crate) rank: u32,
}

impl BlockStart {
    /// Returns the number by which blocks are sorted: by their offset, and at one offset by rank.
    fn order(self) -> u64
        ensures { result ≡ block_order self }
    {
        self.at as u64 * (1 << 32) + self.rank as u64
    }
}

/// Takes a file apart as it stands. It allocates the places of the blocks and their ranks.
///
/// # Errors
///
/// - `BadFile`: if the file has a fault. It contains the first one.
/// - `OutOfMemory`: if an allocation failed.
pub fn unpack_exact<'a, A: Allowance>(
    memory: &A,
    file: &'a [u8],
) -> Result<UnpackedExact<'a>, UnpackFault>
    requires { length file.now ≤ most_bytes }
    ensures same { IfOk result (λ unpacked. unpacked.file ≡ file.now) }
    ensures done { IfOk result IsUnpackedExact }
    ensures exactly { IfOk result (λ unpacked. IsExactly unpacked.file (exact_of unpacked)) }
    ensures packs { IfOk result (λ unpacked. PacksBackExactly unpacked.file (exact_of unpacked)) }
    ensures why { IfErr result (IsUnpackFault file.now) }
    ensures short { result ≡ Err UnpackFault.OutOfMemory → A.is_short memory.now }
{
    let file = match open_file(memory, file) {
        Ok(file) => file,
        Err(fault) => return Err(fault),
    };
    file.know_file();
    match ranks_in(memory, &file) {
        Ok(ranks) => Ok(UnpackedExact { file, ranks }),
        Err(_) => Err(UnpackFault::OutOfMemory),
    }
}

/// Returns the starts of the blocks that a file has, by rank.
fn starts_in<A: Allowance>(memory: &A, file: &PdbFile<'_>) -> Result<Vec<BlockStart>, AllocError>
    requires { length file.now ≤ most_bytes }
    ensures starts { IfOk result (λ starts. starts.items ≡ block_starts (offsets_in file.now)) }
    ensures short { OnErr result (A.is_short memory.now) }
{
    let mut starts = Vec::new(memory.allocator());
    for rank in 0..file.rank_count() {
        let at = file.offset(rank);
        if at != 0 {
            let start = BlockStart {
                at: at as u32,
                rank: rank as u32,
            };
            push(memory, &mut starts, start)?;
        }
    }
    Ok(starts)
}

/// Returns the ranks of the blocks that a file has, ordered by their offsets, and at one offset by
/// rank.
fn ranks_in<A: Allowance>(memory: &A, file: &PdbFile<'_>) -> Result<Vec<u32>, AllocError>
    requires { length file.now ≤ most_bytes }
    ensures order { IfOk result (λ ranks. IsOrderOf (offsets_in file.now) ranks.items) }
    ensures short { OnErr result (A.is_short memory.now) }
{
    let mut starts = starts_in(memory, file)?;
    starts.sort_unstable_by_key(|start| start.order());
    let mut ranks = Vec::new(memory.allocator());
    for start in starts.as_slice() {
        push(memory, &mut ranks, start.rank)?;
    }
    Ok(ranks)
}

impl<'a> UnpackedExact<'a> {
    /// Returns the file.
    pub fn file(&self) -> &PdbFile<'a>
        ensures { result.now ≡ self.now.file }
    {
        &self.file
    }

    /// Returns the number of parts that may be there: one for each rank, and that of the filler.
    pub fn part_count(&self) -> usize
        ensures is { result ≡ length (blocks_in self.now.file) + 1 }
        ensures most { result ≤ 65538 }
    {
        self.file.rank_count() + 1
    }

    /// Returns the part of a rank, or the part of the filler for the number after the last rank, if
    /// there is one.
    pub fn part(&self, rank: usize) -> Option<Part<'a>>
        requires { rank < length (blocks_in self.now.file) + 1 }
        ensures { MatchOption result (exact_part_at self.now.file rank ≡ None)
            (IsExactPart self.now.file rank) }
    {
        if rank < self.file.rank_count() {
            return part_of(&self.file, rank);
        }
        let bytes = self.file.filler();
        if bytes.is_empty() {
            return None;
        }
        Some(Part {
            name: PartName::Filler,
            bytes,
        })
    }
}
