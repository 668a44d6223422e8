//! The chunks of an image, written further on in a new one.
#![tactic(auto, using(laws_heap::proofs::Lending::all_within, laws_heap::proofs::Lending::all_misses))]

ghost use Rattle.std.specs.Prelude.{[], ◌≡◌, ◌≤◌, ◌<◌, ◌+◌, ◌^◌, length};
ghost use Rattle.heap_model.specs.Chunk.{HasChunk};
ghost use Rattle.heap_model.specs.Heap.{HeapAccepted};
ghost use Rattle.heap_model.specs.Slots.{area_start as model_start};
ghost use Rattle.heap_model.specs.Migration.{StandFurther, lowered_word};
ghost use Rattle.heap_migration.specs.Writing.{WroteChunks, WroteChunk, is_movable_header};

use chunk_format::{ABOVE_24_BITS, Header, SECOND_WORD_AT, area_start};
use raw_region::Region;

/// Writes all chunks `by` bytes further on. Their hOffsets lead to the slots at the slots' new
/// offsets.
pub(crate) fn write_chunks(image: &Region, grown: &mut Region, by: u32)
    requires accepted { HeapAccepted image.now.bytes }
    requires few { by ≤ 8 }
    requires len { length grown.old.bytes ≡ length image.now.bytes + by }
    requires whole { (image.now.lents ≡ []) × (grown.old.lents ≡ []) }
    ensures wrote { WroteChunks image.now.bytes grown.old.bytes grown.new.bytes by }
    ensures whole { grown.new.lents ≡ [] }
{
    let start = area_start(image) as usize;
    grown.write(start + by as usize, image.slice(start, image.len() - start));
    lower_offsets(image, grown, by);
}

/// Lowers the hOffset of each movable chunk by half of the chunk's rise.
fn lower_offsets(image: &Region, grown: &mut Region, by: u32)
    requires accepted { HeapAccepted image.now.bytes }
    requires few { by ≤ 8 }
    requires len { length grown.old.bytes ≡ length image.now.bytes + by }
    requires copied { StandFurther image.now.bytes grown.old.bytes by
        (model_start image.now.bytes) (length image.now.bytes) }
    requires whole { (image.now.lents ≡ []) × (grown.old.lents ≡ []) }
    ensures wrote { WroteChunks image.now.bytes grown.old.bytes grown.new.bytes by }
    ensures whole { grown.new.lents ≡ [] }
{
    let end = image.len() as u32;
    let mut at = area_start(image);
    while at < end {
        at += lower_offset(image, grown, at, by);
    }
}

/// Lowers the hOffset of the chunk at `at` in the image, if it is movable. Returns the chunk's
/// size.
fn lower_offset(image: &Region, grown: &mut Region, at: u32, by: u32) -> u32
    requires chunk { HasChunk image.now.bytes at }
    requires small { length image.now.bytes < 2 ^ 24 }
    requires few { by ≤ 8 }
    requires len { length grown.old.bytes ≡ length image.now.bytes + by }
    requires copied { StandFurther image.now.bytes grown.old.bytes by at (length image.now.bytes) }
    requires whole { (image.now.lents ≡ []) × (grown.old.lents ≡ []) }
    ensures wrote { WroteChunk image.now.bytes grown.old.bytes grown.new.bytes by at result }
    ensures whole { grown.new.lents ≡ [] }
{
    let (header, size) = Header::at_with_size(image, at);
    if !is_movable(header) {
        return size;
    }
    let second = at as usize + SECOND_WORD_AT;
    let word = lowered(image.get_u32(second), by);
    grown.put_u32(second + by as usize, word);
    size
}

/// Returns whether a header is that of a movable chunk, locked or not.
fn is_movable(header: Header) -> bool
    ensures { result ≡ is_movable_header header }
{
    matches!(header, Header::Movable { .. })
}

/// Returns the second word of a header with an hOffset that is less by half of `by`.
fn lowered(word: u32, by: u32) -> u32
    requires { by ≤ 8 }
    ensures { result ≡ lowered_word by word }
{
    let h_offset = word % ABOVE_24_BITS;
    word - h_offset + (h_offset + ABOVE_24_BITS - by / 2) % ABOVE_24_BITS
}
