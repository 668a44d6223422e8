//! Finds room for a chunk: in the lists, or else by a walk over the chunks.

ghost use Rattle.std.specs.Prelude.{◌≤◌, ◌<◌, IfSome, IfNone};
ghost use Rattle.heap_model.specs.Chunk.{need};
ghost use Rattle.heap_model.specs.Reading.{chunks_of};
ghost use Rattle.heap_model.specs.Space.{NoRun};
ghost use Rattle.heap_model.specs.Layout.{IsSpot};
ghost use Rattle.heap_model.specs.Lending.{HoldsHeap};
ghost use Rattle.heap_place.specs.Lists.{HasLists};

use crate::lists::{ABOVE_SIZES, Lists, find_listed};
use crate::room::{Room, find_room};
use chunk_format::{HEADER_SIZE, chunk_size};
use raw_region::Region;

/// Returns neighbouring free chunks that have `size` bytes. It looks at the first chunk of each
/// list. If none of them is large enough, it walks the chunks.
pub fn find_spot(region: &Region, lists: &Lists, size: u32) -> Option<Room>
    requires heap { HoldsHeap region.now }
    requires lists { HasLists region.now.bytes lists.now }
    requires some_size { 0 < size }
    ensures room { IfSome result (λ room. IsSpot region.now.bytes room.at room.size) }
    ensures enough { IfSome result (λ room. size ≤ room.size) }
    ensures none { IfNone result (NoRun (chunks_of region.now.bytes) size) }
{
    if size >= HEADER_SIZE && size < ABOVE_SIZES {
        if let Some(room) = find_listed(region, lists, size) {
            return Some(room);
        }
    }
    find_room(region, size)
}

/// The same for a chunk whose body has `count` bytes.
pub fn spot_for_body(region: &Region, lists: &Lists, count: u32) -> Option<Room>
    requires heap { HoldsHeap region.now }
    requires lists { HasLists region.now.bytes lists.now }
    ensures room { IfSome result (λ room. IsSpot region.now.bytes room.at room.size) }
    ensures enough { IfSome result (λ room. need count ≤ room.size) }
    ensures none { IfNone result (NoRun (chunks_of region.now.bytes) (need count)) }
{
    match chunk_size(count) {
        Some(size) => find_spot(region, lists, size),
        None => None,
    }
}
