//! Opens room after a chunk.
#![tactic(auto, using(laws_heap::proofs::LentBodies::frame_within, laws_heap::proofs::LentBodies::table_within))]

ghost use Rattle.std.specs.Prelude.{◌≡◌, ◌≤◌, ◌+◌, ◌-◌, ◌*◌};
ghost use Rattle.heap_model.specs.Placing.{SameFrame};
ghost use Rattle.heap_model.specs.Layout.{WritesPlain};
ghost use Rattle.heap_model.specs.Packing.{OpensBehind};
ghost use Rattle.heap_model.specs.Lending.{HoldsHeap};
ghost use Rattle.heap_place.specs.Found.{header_offset};
ghost use Rattle.heap_compact.specs.Stretches.{IsFoundAmong, OpensExactly};
ghost use Rattle.heap_place.specs.Lists.{HasLists};

use crate::lift::lift;
use crate::pack::pack;
use crate::stretch::Stretch;
use chunk_format::{HEADER_SIZE, size_of_body};
use heap_place::Found;
use heap_place::lists::{Lists, push_alone};
use master_table::word_of;
use raw_region::Region;

/// Opens room after a movable chunk without locks, which was found in this stretch. The free chunks
/// of the stretch become one, directly after the chunk. The stretch is packed, and the chunks after
/// this one are slid once more. Then only that free chunk is in a list.
pub(crate) fn open_in(region: &mut Region, lists: &mut Lists, stretch: Stretch, found: Found)
    requires heap { HoldsHeap region.old }
    requires among { IsFoundAmong region.old.bytes found stretch }
    ensures lists { HasLists region.new.bytes lists.new }
    ensures opened { OpensBehind region.old.bytes region.new.bytes (header_offset found) }
    ensures exact { OpensExactly region.old.bytes region.new.bytes (header_offset found) }
    ensures frame { SameFrame region.old.bytes region.new.bytes }
    ensures plain { WritesPlain region.old.bytes region.new.bytes }
    ensures out { region.new.lents ≡ region.old.lents }
    ensures few { region.new.slid ≤ region.old.slid + 2 * (stretch.end - stretch.start) }
    ensures heap { HoldsHeap region.new }
{
    let room = pack(region, lists, stretch.start, stretch.end).room;
    if room > 0 {
        let place = word_of(region, found.name.0);
        let behind = place - HEADER_SIZE + size_of_body(found.length);
        lift(region, behind, stretch.end - room, room);
        push_alone(region, lists, behind, room);
    }
}
