//! The bytes before the chunks: the frame, the slots and the word `next`.
#![tactic(auto, using(laws_heap::proofs::Lending::all_within, laws_heap::proofs::Lending::all_misses))]

ghost use Rattle.std.specs.Prelude.{[], ◌≡◌, ◌≤◌, ◌<◌, ◌+◌, ◌^◌, length, replicate, false};
ghost use Rattle.heap_model.specs.Heap.{HeapAccepted};
ghost use Rattle.heap_model.specs.Slots.{is_chained};
ghost use Rattle.heap_migration.specs.Growth.{growth as model_growth};
ghost use Rattle.heap_migration.specs.Writing.{raised_place, HasHead, WroteFrame, RaisedSlots};

use chunk_format::{CHAINED_MAGIC, FRAME_SIZE, MAGIC_AT, SIZE_AT, SLOT_SIZE, head_end};
use raw_region::Region;

/// Returns the number of bytes by which an image with `slots` slots grows, for the word `next` and
/// its padding.
pub(crate) fn growth(slots: u16) -> u32
    ensures is { result ≡ model_growth slots }
    ensures few { result ≤ 8 }
{
    if slots % 2 == 0 { 8 } else { 0 }
}

/// Writes the bytes before the chunks into zeros. The chunks begin `by` bytes further on.
pub(crate) fn write_head(image: &Region, grown: &mut Region, by: u32)
    requires accepted { HeapAccepted image.now.bytes }
    requires one_table { is_chained image.now.bytes ≡ false }
    requires few { by ≤ 8 }
    requires zeros { grown.old.bytes ≡ replicate (length image.now.bytes + by) 0 }
    requires whole { (image.now.lents ≡ []) × (grown.old.lents ≡ []) }
    ensures wrote { HasHead image.now.bytes grown.new.bytes by }
    ensures whole { grown.new.lents ≡ [] }
{
    write_frame(image, grown);
    raise_slots(image, grown, by);
}

/// Writes the frame: the new magic, the size of the new image, and all other bytes as they were.
fn write_frame(image: &Region, grown: &mut Region)
    requires old_frame { 16 ≤ length image.now.bytes }
    requires new_frame { 16 ≤ length grown.old.bytes }
    requires small { length grown.old.bytes < 2 ^ 32 }
    requires whole { (image.now.lents ≡ []) × (grown.old.lents ≡ []) }
    ensures wrote { WroteFrame image.now.bytes grown.old.bytes grown.new.bytes }
    ensures whole { grown.new.lents ≡ [] }
{
    grown.write(0, image.slice(0, FRAME_SIZE as usize));
    grown.put_u32(MAGIC_AT, CHAINED_MAGIC);
    grown.put_u32(SIZE_AT, grown.len() as u32);
}

/// Writes the slots. Each slot in use holds a place that is `by` bytes further on.
fn raise_slots(image: &Region, grown: &mut Region, by: u32)
    requires accepted { HeapAccepted image.now.bytes }
    requires one_table { is_chained image.now.bytes ≡ false }
    requires few { by ≤ 8 }
    requires len { length grown.old.bytes ≡ length image.now.bytes + by }
    requires whole { (image.now.lents ≡ []) × (grown.old.lents ≡ []) }
    ensures wrote { RaisedSlots image.now.bytes grown.old.bytes grown.new.bytes by }
    ensures whole { grown.new.lents ≡ [] }
{
    let end = head_end(image);
    let mut slot = FRAME_SIZE;
    while slot < end {
        let place = image.get_u32(slot as usize);
        grown.put_u32(slot as usize, raise(place, by));
        slot += SLOT_SIZE;
    }
}

/// Returns the new word of a slot. An empty slot stays empty.
#[inline]
fn raise(place: u32, by: u32) -> u32
    requires { place + by < 2 ^ 32 }
    ensures { result ≡ raised_place by place }
{
    if place == 0 { 0 } else { place + by }
}
