//! The owners of slots' chunks, noted after the heap is known to be accepted.
#![tactic(auto, using(laws_heap::proofs::Lending::all_misses, laws_heap::proofs::Lending::all_within, laws_heap::proofs::LentBodies::none_lends))]

ghost use Rattle.std.specs.Prelude.{[], ◌≡◌, ◌<◌, ℕ, length, None};
ghost use Rattle.heap_model.specs.Slots.{IsSlot};
ghost use Rattle.heap_model.specs.Heap.{HeapAccepted};
ghost use Rattle.heap_check.specs.Owners.{marked_word, NoneMarked, HasOwners, IsRoomFor, NotesOwner};

use chunk_format::{FRAME_SIZE, Header, SLOT_SIZE, area_start};
use raw_region::Region;

/// Marks the slot that a chunk names, if it is a movable one, with the owner of the chunk.
#[inline]
fn note_owner(header: Header, owners: &mut [u8])
    requires room { IsRoomFor header (length owners.old) }
    ensures noted { NotesOwner header owners.old owners.new }
    ensures len { length owners.new ≡ length owners.old }
{
    if let Header::Movable { owner, slot, .. } = header {
        owners[((slot - FRAME_SIZE) / SLOT_SIZE) as usize] = owner;
    }
}

/// Marks each slot of an accepted heap with the owner of its chunk, in one walk over the chunks. It
/// is for a caller that allocates the marks only after the heap is known to be accepted.
pub fn note_owners(region: &Region, owners: &mut [u8])
    requires whole { region.now.lents ≡ [] }
    requires accepted { HeapAccepted region.now.bytes }
    requires room { (number : ℕ) → IsSlot region.now.bytes (marked_word number)
        → number < length owners.old }
    requires clear { NoneMarked owners.old }
    ensures noted { HasOwners region.now.bytes owners.new }
    ensures len { length owners.new ≡ length owners.old }
{
    let mut at = area_start(region);
    while (at as usize) < region.len() {
        let (header, size) = Header::at_with_size(region, at);
        note_owner(header, owners);
        at += size;
    }
}
