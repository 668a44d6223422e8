//! Packs chunks: those of a stretch go to its start, and its room is after them. The lists of free
//! chunks are dropped. Each room is put into its list when no chunk after it can move into it any
//! more.
#![tactic(auto, using(laws_heap::proofs::LentBodies::frame_within, laws_heap::proofs::LentBodies::table_within))]

ghost use Rattle.std.specs.Prelude.{◌≡◌, ◌↔◌, ◌+◌, ◌-◌, IsTrue};
ghost use Rattle.heap_model.specs.Reading.{chunks_of};
ghost use Rattle.heap_model.specs.Space.{moved_bytes};
ghost use Rattle.heap_model.specs.Placing.{SameFrame};
ghost use Rattle.heap_model.specs.Layout.{Becomes, WritesPlain};
ghost use Rattle.heap_model.specs.Packing.{packed};
ghost use Rattle.heap_model.specs.Lending.{HoldsHeap};
ghost use Rattle.heap_compact.specs.Stretches.{IsStretch, PacksStretch, RoomAtEnd, SlidesStretch};
ghost use Rattle.heap_compact.specs.Packs.{IsRun, Packs, MovesInRun, LeavesLastRoom, IsBehindRoom, PacksOne, IsDroppable, MovesDown, HeaderStays, slot_by};
ghost use Rattle.heap_place.specs.Lists.{AreLists, HasLists, KeepsFree};
ghost use Rattle.heap_place.specs.Gathers.{Before};

use crate::stretch::Stretch;
use chunk_format::{HEADER_SIZE, Header, area_start, put_slot};
use heap_model::{Name, Place};
use heap_place::lists::{Lists, push_room};
use raw_region::Region;

/// The outcome of packing chunks, in bytes.
#[derive(Clone, Copy)]
pub(crate) struct Outcome {
    /// The number of bytes that were slid.
    pub(crate) slid: u32,
    /// The room after the chunks of the last stretch.
    pub(crate) room: u32,
}

/// Packs the chunks of each stretch, and returns the number of bytes that it slid. Afterwards each
/// free chunk is in its list.
pub(crate) fn compact(region: &mut Region, lists: &mut Lists) -> u32
    requires heap { HoldsHeap region.old }
    ensures lists { HasLists region.new.bytes lists.new }
    ensures packed { Becomes region.old.bytes region.new.bytes
        (packed (chunks_of region.old.bytes)) }
    ensures exact { chunks_of region.new.bytes ≡ packed (chunks_of region.old.bytes) }
    ensures moved { result ≡ moved_bytes region.old.bytes region.new.bytes }
    ensures plain { WritesPlain region.old.bytes region.new.bytes }
    ensures out { region.new.lents ≡ region.old.lents }
    ensures slid { region.new.slid ≡ region.old.slid + result }
    ensures heap { HoldsHeap region.new }
{
    let start = area_start(region);
    let end = region.len() as u32;
    pack(region, lists, start, end).slid
}

/// Packs the chunks of one stretch, and returns the size of the room after them. Afterwards only
/// that room is in a list.
pub(crate) fn pack_stretch(region: &mut Region, lists: &mut Lists, stretch: Stretch) -> u32
    requires heap { HoldsHeap region.old }
    requires stretch { IsStretch region.old.bytes stretch }
    ensures lists { HasLists region.new.bytes lists.new }
    ensures packed { PacksStretch region.old.bytes region.new.bytes stretch }
    ensures room { RoomAtEnd region.old.bytes region.new.bytes stretch result }
    ensures frame { SameFrame region.old.bytes region.new.bytes }
    ensures plain { WritesPlain region.old.bytes region.new.bytes }
    ensures out { region.new.lents ≡ region.old.lents }
    ensures slid { SlidesStretch region.old.bytes stretch region.old.slid region.new.slid }
    ensures heap { HoldsHeap region.new }
{
    pack(region, lists, stretch.start, stretch.end).room
}

/// Packs the chunks from `start` up to `end`, in one walk and by one slide for each chunk that
/// moves. Afterwards the lists contain the free chunks that are left of them, and no others.
pub(crate) fn pack(region: &mut Region, lists: &mut Lists, start: u32, end: u32) -> Outcome
    requires heap { HoldsHeap region.old }
    requires run { IsRun region.old.bytes start end }
    ensures lists { HasLists region.new.bytes lists.new }
    ensures packed { Packs region.old.bytes region.new.bytes start end }
    ensures moved { MovesInRun region.old.bytes start end result.slid }
    ensures room { LeavesLastRoom region.old.bytes start end result.room }
    ensures out { region.new.lents ≡ region.old.lents }
    ensures slid { region.new.slid ≡ region.old.slid + result.slid }
    ensures heap { HoldsHeap region.new }
{
    lists.empty();
    let mut at = start;
    let mut slid = 0;
    let mut room = 0;
    while at < end {
        let step = pack_one(region, lists, at, room);
        at += step.size;
        slid += step.slid;
        room = step.room;
    }
    push_room(region, lists, at, room);
    Outcome { slid, room }
}

/// The outcome of packing one chunk, in bytes.
#[derive(Clone, Copy)]
struct Step {
    size: u32,
    slid: u32,
    /// The room after the packed chunks.
    room: u32,
}

/// Packs the chunk at `at`. Before it are `room` free bytes, in one chunk, or in none if `room` is
/// 0. Room before a chunk that stays is put into its list.
fn pack_one(region: &mut Region, lists: &mut Lists, at: u32, room: u32) -> Step
    requires heap { HoldsHeap region.old }
    requires behind { IsBehindRoom region.old.bytes at room }
    requires lists { AreLists (Before (at - room)) region.old.bytes lists.old }
    ensures lists { AreLists (Before (at + result.size - result.room)) region.new.bytes lists.new }
    ensures packed { PacksOne region.old.bytes region.new.bytes at room
        result.size result.slid result.room }
    ensures out { region.new.lents ≡ region.old.lents }
    ensures slid { region.new.slid ≡ region.old.slid + result.slid }
    ensures heap { HoldsHeap region.new }
{
    let (header, size) = Header::at_with_size(region, at);
    if let Header::Free { .. } = header {
        let joined = room + size;
        Header::Free { size: joined }.write(region, at - room);
        return Step {
            size,
            slid: 0,
            room: joined,
        };
    }
    if stays(header) || room == 0 {
        push_room(region, lists, at, room);
        return Step {
            size,
            slid: 0,
            room: 0,
        };
    }
    let slot = slot_of(header).unwrap();
    drop_one(region, slot, at, size, room);
    Step {
        size,
        slid: size,
        room,
    }
}

/// Returns whether the chunk of a header stays at its place.
#[inline]
pub(crate) fn stays(header: Header) -> bool
    ensures { IsTrue result ↔ HeaderStays header }
{
    match header {
        Header::Free { .. } => false,
        Header::Movable { lock, .. } => lock > 0,
        Header::Fixed { .. } => true,
    }
}

/// Moves the movable chunk at `at`, which has no locks, down over the free chunk before it, whose
/// size is `room`. The chunk has `size` bytes and names `slot`. Its header moves with it, so only
/// the second word is written anew.
fn drop_one(region: &mut Region, slot: u32, at: u32, size: u32, room: u32)
    requires heap { HoldsHeap region.old }
    requires drops { IsDroppable region.old.bytes at room size slot }
    ensures dropped { MovesDown region.old.bytes region.new.bytes at room size slot }
    ensures keeps { KeepsFree (Before (at - room)) region.old.bytes region.new.bytes }
    ensures out { region.new.lents ≡ region.old.lents }
    ensures slid { region.new.slid ≡ region.old.slid + size }
    ensures heap { HoldsHeap region.new }
{
    let to = at - room;
    region.slide_down(at as usize, to as usize, size as usize);
    put_slot(region, to, slot);
    Header::Free { size: room }.write(region, to + size);
    master_table::set(region, Name(slot), Place(to + HEADER_SIZE));
}

/// Returns the slot that a header names, if it is a movable chunk's.
#[inline]
fn slot_of(header: Header) -> Option<u32>
    ensures { result ≡ slot_by header }
{
    match header {
        Header::Movable { slot, .. } => Some(slot),
        Header::Free { .. } | Header::Fixed { .. } => None,
    }
}
