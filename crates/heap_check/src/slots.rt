//! The test that each slot in use has its chunk.

ghost use Rattle.std.specs.Prelude.{◌≡◌, ◌≤◌, ◌<◌, ◌↔◌, length, map, false, IsTrue, IfSome, IfNone};
ghost use Rattle.heap_model.specs.Slots.{HasTable, is_chained, StandsBehind, slots_total};
ghost use Rattle.master_table.specs.Table.{IsOneTable};
ghost use Rattle.heap_check.specs.Survey.{IsMarked, AllMarked, IsFirstUnmarked};

use crate::marks::Mark;
use master_table::OneTable;
use raw_region::Region;

/// Returns whether the slot with this number is marked, if it is in use. The number counts the
/// slots before it.
#[inline]
fn is_marked<M: Mark>(region: &Region, slot: u32, number: u32, marks: &[M]) -> bool
    requires has_table { HasTable region.now }
    requires plain { is_chained region.now.bytes ≡ false }
    requires stands { StandsBehind region.now.bytes slot number }
    requires room { number < length marks.now }
    ensures { IsTrue result ↔ IsMarked region.now.bytes (map M.says marks.now) slot }
{
    region.get_u32(slot as usize) == 0 || marks[number as usize].is_set()
}

/// Returns the offset of the first slot that is in use and not marked.
pub(crate) fn find_unmarked<M: Mark>(region: &Region, table: OneTable, marks: &[M]) -> Option<u32>
    requires has_table { HasTable region.now }
    requires table { IsOneTable region.now.bytes table }
    requires room { slots_total region.now.bytes ≤ length marks.now }
    ensures none { IfNone result (AllMarked region.now.bytes (map M.says marks.now)) }
    ensures some { IfSome result (IsFirstUnmarked region.now.bytes (map M.says marks.now)) }
{
    for number in 0..table.count() {
        let slot = table.slot(number);
        if !is_marked(region, slot, number, marks) {
            return Some(slot);
        }
    }
    None
}
