//! The needs of one block.

ghost use Rattle.std.specs.Prelude.{◌≡◌, ◌≤◌, ◌^◌};
ghost use Rattle.heap_model.specs.Chunk.{need};
ghost use Rattle.pdb_format.specs.Blocks.{IsBlockWithin};
ghost use Rattle.canonical_file.specs.BlockNeeds.{block_need, block_slots};

use crate::needs::Needs;
use chunk_format::HEADER_SIZE;
use pdb_format::Block;

/// Returns the bytes that a chunk of this size takes, with its header and the rounding.
pub(crate) fn chunk_need(size: u64) -> u64
    requires { size ≤ 2 ^ 63 }
    ensures { result ≡ need size }
{
    HEADER_SIZE as u64 + 8 * ((size + 7) / 8)
}

/// Returns the needs of a block: none if there is no block.
pub(crate) fn needs_of_block(block: Option<Block>) -> Needs
    requires { IsBlockWithin (2 ^ 63) block }
    ensures bytes { result.bytes ≡ block_need block }
    ensures slots { result.slots ≡ block_slots block }
{
    match block {
        Some(block) => Needs {
            bytes: chunk_need((block.end - block.start) as u64),
            slots: 1,
        },
        None => Needs { bytes: 0, slots: 0 },
    }
}
