//! Takes a free chunk out of its list, wherever it is in the list.
#![tactic(auto, using(laws_heap::proofs::LentBodies::frame_within, laws_heap::proofs::LentBodies::table_within))]

ghost use Rattle.std.specs.Prelude.{◌≡◌, ◌≢◌, ◌<◌, ◌+◌, length, slice_index, IfSome};
ghost use Rattle.heap_model.specs.Lending.{HoldsHeap};
ghost use Rattle.heap_place.specs.Lists.{class_count, IsFreeOf, IsFreeChunk, HasLists, AreLists, ButAt, SameChunks};
ghost use Rattle.heap_place.specs.Splices.{LeadsTo};

use crate::lists::{LINK_AT, Lists, class_of};
use raw_region::Region;

/// Takes a free chunk out of its list. If the chunk is not among the first `probes` of its list,
/// all lists are dropped.
#[inline(always)]
pub fn take_out(region: &mut Region, lists: &mut Lists, at: u32, size: u32, probes: usize)
    requires heap { HoldsHeap region.old }
    requires free { IsFreeChunk region.old.bytes at size }
    requires lists { HasLists region.old.bytes lists.old }
    ensures same { SameChunks region.old.bytes region.new.bytes }
    ensures lists { AreLists (ButAt at) region.new.bytes lists.new }
    ensures rest { region.new ≡ record region.old { bytes = region.new.bytes } }
    ensures heap { HoldsHeap region.new }
{
    let class = class_of(size);
    if lists.head(class) == at {
        lists.set_head(class, region.get_u32(at as usize + LINK_AT));
        return;
    }
    match find_before(region, lists, class, at, probes) {
        Some(before) => link_past(region, lists, class, before, at),
        None => lists.drop_all(),
    }
}

/// Returns the chunk of a list before the one at `at`, which isn't its first. Returns 0 if the list
/// ends without that one, and None if it isn't reached within `probes` steps.
#[inline(never)]
fn find_before(region: &Region, lists: &Lists, class: usize, at: u32, probes: usize) -> Option<u32>
    requires heap { HoldsHeap region.now }
    requires lists { HasLists region.now.bytes lists.now }
    requires class { class < class_count }
    requires other { slice_index lists.now class ≢ at }
    ensures { IfSome result (λ before. LeadsTo region.now.bytes lists.now class before at) }
{
    let mut here = lists.head(class);
    for _ in 0..probes {
        if here == 0 {
            return Some(0);
        }
        let next = region.get_u32(here as usize + LINK_AT);
        if next == at {
            return Some(here);
        }
        here = next;
    }
    None
}

/// Links the chunk before the one at `at` to the one after it. If `before` is 0, the chunk is in no
/// list, and nothing is written.
fn link_past(region: &mut Region, lists: &Lists, class: usize, before: u32, at: u32)
    requires heap { HoldsHeap region.old }
    requires lists { HasLists region.old.bytes lists.now }
    requires class { class < class_count }
    requires leads { LeadsTo region.old.bytes lists.now class before at }
    requires free { IsFreeOf region.old.bytes class at }
    ensures same { SameChunks region.old.bytes region.new.bytes }
    ensures lists { AreLists (ButAt at) region.new.bytes lists.now }
    ensures rest { region.new ≡ record region.old { bytes = region.new.bytes } }
    ensures heap { HoldsHeap region.new }
{
    if before != 0 {
        let next = region.get_u32(at as usize + LINK_AT);
        region.put_u32(before as usize + LINK_AT, next);
    }
}
