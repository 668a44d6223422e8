//! The directory word.
#![tactic(auto, using(laws_heap::proofs::Lending::all_misses, laws_heap::proofs::Lending::part_within))]

ghost use Rattle.std.specs.Prelude.{[], ◌≡◌, ◌<◌, ◌^◌, ◌↔◌, length, IsTrue, None};
ghost use Rattle.heap_model.specs.Slots.{HasTable};
ghost use Rattle.heap_model.specs.Heap.{HasDirectory};
ghost use Rattle.heap_model.specs.Reading.{chunks_of};
ghost use Rattle.master_table.specs.Table.{IsOneTable};
ghost use Rattle.heap_check.specs.Survey.{IsPaired, IsManagersBody};

use chunk_format::{HEADER_SIZE, Header, MANAGERS_OWNER, directory};
use master_table::OneTable;
use raw_region::Region;

/// Returns whether the directory word is 0, or the offset of a slot whose chunk is the manager's.
pub(crate) fn has_directory(region: &Region, table: OneTable) -> bool
    requires small { length region.now.bytes < 2 ^ 24 }
    requires whole { region.now.lents ≡ [] }
    requires has_table { HasTable region.now }
    requires table { IsOneTable region.now.bytes table }
    requires paired { IsPaired region.now.bytes }
    ensures { IsTrue result ↔ HasDirectory region.now.bytes (chunks_of region.now.bytes) }
{
    let slot = directory(region);
    if slot == 0 {
        return true;
    }
    match table.number(slot) {
        Some(_) => is_managers(region, region.get_u32(slot as usize)),
        None => false,
    }
}

/// Returns whether a chunk has its body at this place, and is a movable one of the manager's.
fn is_managers(region: &Region, place: u32) -> bool
    requires small { length region.now.bytes < 2 ^ 24 }
    requires whole { region.now.lents ≡ [] }
    ensures { IsTrue result ↔ IsManagersBody region.now.bytes place }
{
    if place < HEADER_SIZE {
        return false;
    }
    match Header::read(region, place - HEADER_SIZE) {
        Some(Header::Movable { owner, .. }) => owner == MANAGERS_OWNER,
        _ => false,
    }
}
