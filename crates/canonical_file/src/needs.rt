//! The needs of the database of one file.

ghost use Rattle.std.specs.Prelude.{◌≤◌, ◌+◌, ◌^◌};
ghost use Rattle.canonical_file.specs.Needs.{AreNeeds};

use crate::block_needs::{chunk_need, needs_of_block};
use pdb_format::{FileBytes, PdbFile};

/// The part of a heap that databases take, without the directory.
#[derive(Clone, Copy, Debug, PartialEq, Eq)]
pub struct Needs {
    /// The bytes of their chunks, with the chunks' headers and rounding.
    pub bytes: u64,
    /// Their slots, one for each chunk.
    pub slots: u64,
}

/// Returns the needs of the database of a file.
pub fn needs_of<B: FileBytes>(file: &PdbFile<'_, B>) -> Needs
    ensures are { AreNeeds file.now result }
    ensures short { result.bytes ≤ 2 ^ 63 + 2 ^ 62 }
    ensures few { result.slots ≤ 2 ^ 17 }
{
    let blocks = file.blocks();
    let mut bytes = chunk_need(file.entries_end() as u64);
    let mut slots = 1;
    for rank in 0..file.rank_count() {
        let needs = needs_of_block(blocks[rank]);
        bytes += needs.bytes;
        slots += needs.slots;
    }
    Needs { bytes, slots }
}
