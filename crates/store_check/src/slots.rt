//! The words of the directory: the slots of the headers.
#![tactic(auto, using(laws_heap::proofs::Lending::all_within, laws_heap::proofs::Lending::all_misses))]

ghost use Rattle.std.specs.Prelude.{◌≡◌, ◌<◌, ◌⊎◌, ◌↔◌, ℕ, List, [], ◌∷◌, length, IsTrue, IfSome, IfNone, None};
ghost use Rattle.heap_model.specs.Chunk.{managers_owner};
ghost use Rattle.heap_model.specs.Heap.{HeapAccepted, directory_of};
ghost use Rattle.heap_model.specs.Lists.{times};
ghost use Rattle.heap_model.specs.Store.{owner_under, directory_bytes};
ghost use Rattle.heap_check.specs.Faults.{FirstBrought};
ghost use Rattle.heap_check.specs.Owners.{HasOwners};
ghost use Rattle.store_check.specs.Listing.{IsGoodDirectory};
ghost use Rattle.store_check.specs.Faults.{directory_faults, NoneBrought};
ghost use Rattle.store_check.specs.Naming.{managers_slots, AreEnoughMarks, AreMarks};

use crate::fault::StoreFault;
use crate::lookup::directory_in;
use crate::marks::{is_marked, mark};
use crate::owners::is_managers;
use crate::words::{listed_count, word_at};
use chunk_format::SLOT_SIZE;
use db_format::MOST_DATABASES;
use raw_region::Region;

/// Returns whether a slot has no chunk of the manager's, or is marked.
fn is_other_or_marked(slot: u32, owners: &[u8], marks: &[u8]) -> bool
    ensures { (image xs : List ℕ) → HeapAccepted image → HasOwners image owners.now
        → AreEnoughMarks image (length marks.now) → AreMarks xs marks.now
        → (IsTrue result ↔ ((owner_under image slot ≡ managers_owner → ⊥)
        ⊎ (0 < times slot xs))) }
{
    !is_managers(slot, owners) || is_marked(slot, marks)
}

/// Returns the first bad word of the directory, whose own slot is marked. If there is none, all
/// slots that it lists are marked too.
pub(crate) fn find_bad_slot(region: &Region, owners: &[u8], marks: &mut [u8]) -> Option<StoreFault>
    requires whole { region.now.lents ≡ [] }
    requires accepted { HeapAccepted region.now.bytes }
    requires owners { HasOwners region.now.bytes owners.now }
    requires room { AreEnoughMarks region.now.bytes (length marks.old) }
    requires marks { AreMarks (directory_of region.now.bytes ∷ []) marks.old }
    ensures some { IfSome result (FirstBrought (directory_faults region.now.bytes)) }
    ensures none { IfNone result (NoneBrought (directory_faults region.now.bytes)) }
    ensures listing { IfNone result
        (IsGoodDirectory region.now.bytes (directory_bytes region.now.bytes)) }
    ensures marked { IfNone result (AreMarks (managers_slots region.now.bytes) marks.new) }
{
    let directory = directory_in(region);
    for index in 0..directory.len().div_ceil(SLOT_SIZE as usize) {
        if index >= listed_count(directory) || index >= MOST_DATABASES as usize {
            return Some(StoreFault::BadDirectorySlot(index as u32));
        }
        let slot = word_at(directory, index);
        if is_other_or_marked(slot, owners, marks) {
            return Some(StoreFault::BadDirectorySlot(index as u32));
        }
        mark(slot, marks);
    }
    None
}
