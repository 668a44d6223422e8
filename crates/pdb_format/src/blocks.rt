//! The blocks of a file.

ghost use Rattle.std.specs.Prelude.{◌≡◌, ◌<◌, ◌≤◌, ◌+◌, length, map, None, IfOk, OnErr, All};
ghost use Rattle.std.specs.List.Sorted.{IsPermutation, IsNonDecreasingBy};
ghost use Rattle.heap_model.specs.Files.{offsets_in, blocks_in, entries_end, HasNoFault};
ghost use Rattle.pdb_format.specs.Starts.{starts_in, order, begins};
ghost use Rattle.std.specs.List.{sum_by};
ghost use Rattle.pdb_format.specs.Blocks.{bytes_at, places_in, IsBlockWithin, length_within};
ghost use Rattle.pdb_format.specs.Opened.{HasPlaces};

use crate::file_bytes::FileBytes;
use crate::starts::{Start, rank_count, sorted_starts};
use allowance::{Allowance, filled};
use std::alloc::AllocError;

/// The place of a block in a file: from its offset up to where the next block begins, in bytes from
/// the file's start.
#[derive(Clone, Copy, Debug, PartialEq, Eq)]
pub struct Block {
    pub start: usize,
    pub end: usize,
}

/// Returns where the block at an index of the sorted starts ends. It ends where the next block
/// begins, or at the end of the file.
fn end_of(starts: &[Start], index: usize, last: usize) -> usize
    requires { index < length starts.now }
    ensures { result ≡ begins last starts.now (index + 1) }
{
    if index + 1 < starts.len() {
        starts[index + 1].at as usize
    } else {
        last
    }
}

/// Writes the place of each block at its rank.
fn put_blocks<B: FileBytes>(file: &B, starts: &[Start], blocks: &mut [Option<Block>])
    requires good { HasNoFault (B.bytes file.now) }
    requires all { IsPermutation (starts_in (offsets_in (B.bytes file.now))) starts.now }
    requires rising { IsNonDecreasingBy order starts.now }
    requires room { length blocks.old ≡ length (offsets_in (B.bytes file.now)) }
    requires few { length (offsets_in (B.bytes file.now)) ≤ 65537 }
    requires empty { All (λ block. block ≡ None) blocks.old }
    ensures places { blocks.new ≡ places_in (B.bytes file.now) }
    ensures are { map (bytes_at (B.bytes file.now)) blocks.new ≡ blocks_in (B.bytes file.now) }
    ensures inside { All (IsBlockWithin (length (B.bytes file.now))) blocks.new }
    ensures total { entries_end (B.bytes file.now) + sum_by length_within blocks.new ≤ length (B.bytes file.now) }
{
    for index in 0..starts.len() {
        let start = starts[index];
        blocks[start.rank as usize] = Some(Block {
            start: start.at as usize,
            end: end_of(starts, index, file.size()),
        });
    }
}

/// Finds the places of the blocks of a file without fault, by rank: the AppInfo block, the SortInfo
/// block, and the data of the entries in order. It sorts the offsets once.
///
/// # Errors
///
/// - `AllocError`: if `memory` refused a grant, or an allocation failed.
pub(crate) fn find_blocks<A: Allowance, B: FileBytes>(
    memory: &A,
    file: &B,
) -> Result<Vec<Option<Block>>, AllocError>
    requires { HasNoFault (B.bytes file.now) }
    ensures places { IfOk result (λ blocks. HasPlaces (B.bytes file.now) blocks.items) }
    ensures short { OnErr result (A.is_short memory.now) }
{
    let starts = sorted_starts(memory, file)?;
    let mut blocks = filled(memory, None, rank_count(file) as usize)?;
    put_blocks(file, &starts, &mut blocks);
    Ok(blocks)
}
