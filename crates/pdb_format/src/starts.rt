//! The offsets at which the blocks of a file begin, sorted.

ghost use Rattle.std.specs.Prelude.{◌≡◌, ◌<◌, ◌≤◌, ◌+◌, length, slice_index, IfOk, OnErr};
ghost use Rattle.std.specs.List.Sorted.{IsPermutation, IsNonDecreasingBy};
ghost use Rattle.heap_model.specs.Files.{offsets_in, HasNoFault};
ghost use Rattle.pdb_format.specs.Starts.{starts_in, order};

use crate::file_bytes::FileBytes;
use crate::heads::{app_info, entry_count, entry_slot, sort_info};
use allowance::{Allowance, push};
use db_format::INFO_BLOCKS;
use std::alloc::AllocError;

/// The offset at which a block begins in a file, and the rank of the block. The rank is 0 for the
/// AppInfo block, 1 for the SortInfo block, and `INFO_BLOCKS` more than its index for the data of
/// an entry.
#[derive(Clone, Copy)]
pub(crate) struct Start {
    pub(crate) at: u32,
    pub(crate) rank: u32,
}

impl Start {
    /// Returns the number by which blocks are sorted in a file: by their offset, and at the same
    /// offset by their rank.
    fn order(self) -> u64
        ensures { result ≡ order self }
    {
        self.at as u64 * (1 << 32) + self.rank as u64
    }
}

/// Returns the number of blocks that a file may have: its info blocks, and one for each entry.
///
/// The rank of a block is 0 for the AppInfo block and 1 for the SortInfo block. The data of entry I
/// has rank I + 2.
pub(crate) fn rank_count<B: FileBytes>(file: &B) -> u32
    requires { HasNoFault (B.bytes file.now) }
    ensures is { result ≡ length (offsets_in (B.bytes file.now)) }
    ensures most { result ≤ 65537 }
{
    entry_count(file) as u32 + INFO_BLOCKS as u32
}

/// Returns the offset of the block of a rank, in bytes from the file's start. It is 0 if the file
/// doesn't have the block.
pub(crate) fn offset_of<B: FileBytes>(file: &B, rank: u32) -> u32
    requires good { HasNoFault (B.bytes file.now) }
    requires inside { rank < length (offsets_in (B.bytes file.now)) }
    requires few { rank ≤ 65536 }
    ensures { result ≡ slice_index (offsets_in (B.bytes file.now)) rank }
{
    match rank {
        0 => app_info(file),
        1 => sort_info(file),
        _ => entry_slot(file, (rank - INFO_BLOCKS as u32) as u16),
    }
}

/// Returns the starts of the blocks that the file has, by rank.
fn starts_of<A: Allowance, B: FileBytes>(memory: &A, file: &B) -> Result<Vec<Start>, AllocError>
    requires { HasNoFault (B.bytes file.now) }
    ensures starts { IfOk result (λ starts. starts.items ≡ starts_in (offsets_in (B.bytes file.now))) }
    ensures short { OnErr result (A.is_short memory.now) }
{
    let mut starts = Vec::new(memory.allocator());
    for rank in 0..rank_count(file) {
        let at = offset_of(file, rank);
        if at != 0 {
            push(memory, &mut starts, Start { at, rank })?;
        }
    }
    Ok(starts)
}

/// Returns the starts of the blocks that the file has, in the order of the blocks in the file.
pub(crate) fn sorted_starts<A: Allowance, B: FileBytes>(
    memory: &A,
    file: &B,
) -> Result<Vec<Start>, AllocError>
    requires { HasNoFault (B.bytes file.now) }
    ensures all { IfOk result (λ starts.
        IsPermutation (starts_in (offsets_in (B.bytes file.now))) starts.items) }
    ensures rising { IfOk result (λ starts. IsNonDecreasingBy order starts.items) }
    ensures short { OnErr result (A.is_short memory.now) }
{
    let mut starts = starts_of(memory, file)?;
    starts.sort_unstable_by_key(|start| start.order());
    Ok(starts)
}
