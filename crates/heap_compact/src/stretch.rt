//! Finds stretches: longest runs of neighbouring chunks without one that stays.
#![tactic(auto, using(laws_heap::proofs::LentBodies::frame_within, laws_heap::proofs::LentBodies::table_within))]

ghost use Rattle.std.specs.Prelude.{◌≡◌, ◌↔◌, ◌<◌, ◌+◌, ◌-◌, length, IsTrue, IfSome, IfNone};
ghost use Rattle.heap_model.specs.Slots.{area_start};
ghost use Rattle.heap_model.specs.Space.{Short, rooms, greatest};
ghost use Rattle.heap_model.specs.Lending.{HoldsHeap};
ghost use Rattle.heap_place.specs.Found.{IsOne};
ghost use Rattle.heap_compact.specs.Stretches.{IsStretch, IsFoundAmong, HasRoom, HasRoomOf};

use crate::pack::stays;
use chunk_format::{HEADER_SIZE, Header, area_start};
use heap_place::Found;
use heap_place::walks::size_if_free;
use raw_region::Region;

/// The start and the end of a stretch, in bytes from the image's start.
#[derive(Clone, Copy)]
pub struct Stretch {
    pub start: u32,
    pub end: u32,
}

/// Returns whether all chunks belong to a stretch.
pub(crate) fn is_whole(region: &Region, stretch: Stretch) -> bool
    requires heap { HoldsHeap region.now }
    ensures { IsTrue result
        ↔ (stretch.start ≡ area_start region.now.bytes) × (stretch.end ≡ length region.now.bytes) }
{
    stretch.start == area_start(region) && stretch.end as usize == region.len()
}

/// Returns the stretch of a movable chunk without locks that was found.
pub(crate) fn stretch_around(region: &Region, found: Found) -> Stretch
    requires heap { HoldsHeap region.now }
    requires found { IsOne region.now.bytes found }
    requires unlocked { found.lock ≡ 0 }
    ensures around { IsFoundAmong region.now.bytes found result }
    ensures stretch { IsStretch region.now.bytes result }
{
    let at = found.place.0 - HEADER_SIZE;
    let end = region.len() as u32;
    let mut here = area_start(region);
    let mut start = here;
    while here < end {
        let (header, size) = Header::at_with_size(region, here);
        if stays(header) {
            if here > at {
                return Stretch { start, end: here };
            }
            start = here + size;
        }
        here += size;
    }
    Stretch { start, end: here }
}

/// Returns the first stretch whose room has `size` bytes. None if every stretch has less.
pub(crate) fn stretch_with_room(region: &Region, size: u32) -> Option<Stretch>
    requires heap { HoldsHeap region.now }
    requires some_size { 0 < size }
    ensures stretch { IfSome result (IsStretch region.now.bytes) }
    ensures room { IfSome result (HasRoom region.now.bytes size) }
    ensures none { IfNone result (Short region.now.bytes size) }
{
    let end = region.len() as u32;
    let mut here = area_start(region);
    let mut start = here;
    let mut room = 0;
    while here < end {
        let (header, taken) = Header::at_with_size(region, here);
        if stays(header) {
            if room >= size {
                return Some(Stretch { start, end: here });
            }
            start = here + taken;
            room = 0;
        } else {
            room += size_if_free(header);
        }
        here += taken;
    }
    if room >= size {
        return Some(Stretch { start, end: here });
    }
    None
}

/// Returns the sum of the sizes of a stretch's free chunks, in bytes.
pub(crate) fn room_of_stretch(region: &Region, stretch: Stretch) -> u32
    requires heap { HoldsHeap region.now }
    requires stretch { IsStretch region.now.bytes stretch }
    ensures { HasRoomOf region.now.bytes stretch result }
{
    let mut at = stretch.start;
    let mut room = 0;
    while at < stretch.end {
        let (header, size) = Header::at_with_size(region, at);
        room += size_if_free(header);
        at += size;
    }
    room
}

/// Returns the greatest room that a stretch has, in bytes, or 0 if there is no stretch.
pub(crate) fn largest_room(region: &Region) -> u32
    requires heap { HoldsHeap region.now }
    ensures { result ≡ greatest (rooms region.now.bytes) }
{
    let end = region.len() as u32;
    let mut at = area_start(region);
    let mut largest: u32 = 0;
    let mut room = 0;
    while at < end {
        let (header, size) = Header::at_with_size(region, at);
        if stays(header) {
            largest = largest.max(room);
            room = 0;
        } else {
            room += size_if_free(header);
        }
        at += size;
    }
    largest.max(room)
}
