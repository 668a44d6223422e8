//! Changes the lock count or the owner of a live chunk.
#![tactic(auto, using(laws_heap::proofs::LentBodies::frame_within, laws_heap::proofs::LentBodies::table_within))]

ghost use Rattle.std.specs.Prelude.{◌≡◌, ◌<◌, ◌-◌, ◌⊎◌};
ghost use Rattle.heap_model.specs.Chunk.{fixed_lock};
ghost use Rattle.heap_model.specs.Lending.{LendsOther, HoldsHeap};
ghost use Rattle.heap_model.specs.Layout.{Alters, with_lock, with_owner, WritesPlain};
ghost use Rattle.heap_place.specs.Found.{IsOne, CanGoTo, header_offset};
ghost use Rattle.heap_place.specs.Lists.{Any, KeepsFree};

use crate::found::Found;
use chunk_format::{HEADER_SIZE, put_lock, put_owner};
use raw_region::Region;

/// Gives a movable chunk another lock count.
pub fn relock_at(region: &mut Region, found: Found, lock: u8)
    requires heap { HoldsHeap region.old }
    requires found { IsOne region.old.bytes found }
    requires movable { found.lock < fixed_lock }
    requires lock { lock < fixed_lock }
    requires owned { (lock ≡ 0) ⊎ (0 < found.owner) }
    requires stays { (0 < lock) ⊎ LendsOther region.old found.place.0 }
    ensures made { Alters region.old.bytes region.new.bytes (header_offset found) (with_lock lock) }
    ensures keeps { KeepsFree Any region.old.bytes region.new.bytes }
    ensures plain { WritesPlain region.old.bytes region.new.bytes }
    ensures rest { region.new ≡ record region.old { bytes = region.new.bytes } }
    ensures heap { HoldsHeap region.new }
{
    put_lock(region, found.place.0 - HEADER_SIZE, lock);
}

/// Gives a live chunk to another owner.
#[inline(always)]
pub fn reown_at(region: &mut Region, found: Found, owner: u8)
    requires heap { HoldsHeap region.old }
    requires found { IsOne region.old.bytes found }
    requires owner { CanGoTo region.old.bytes found owner }
    ensures made { Alters region.old.bytes region.new.bytes (header_offset found) (with_owner owner) }
    ensures keeps { KeepsFree Any region.old.bytes region.new.bytes }
    ensures plain { WritesPlain region.old.bytes region.new.bytes }
    ensures rest { region.new ≡ record region.old { bytes = region.new.bytes } }
    ensures heap { HoldsHeap region.new }
{
    put_owner(region, found.place.0 - HEADER_SIZE, owner);
}
