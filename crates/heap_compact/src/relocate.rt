//! Moves a movable chunk to room elsewhere.
#![tactic(auto, using(laws_heap::proofs::LentBodies::frame_within, laws_heap::proofs::LentBodies::table_within))]

ghost use Rattle.std.specs.Prelude.{◌≡◌, ◌≢◌, ◌≤◌, ◌<◌, ◌+◌, ◌-◌, min, replicate};
ghost use Rattle.std.specs.Bool.{OnTrue, OnFalse};
ghost use Rattle.heap_model.specs.Bytes.{u32_at};
ghost use Rattle.heap_model.specs.Chunk.{fixed, fixed_lock, data_owner, need};
ghost use Rattle.heap_model.specs.Slots.{IsSlot};
ghost use Rattle.heap_model.specs.Lending.{LendsOther, HoldsHeap};
ghost use Rattle.heap_model.specs.Heap.{directory_of};
ghost use Rattle.heap_model.specs.Reading.{chunks_of};
ghost use Rattle.heap_model.specs.Space.{NoRun};
ghost use Rattle.heap_model.specs.Placing.{SameFrame};
ghost use Rattle.heap_model.specs.Layout.{Alters, Claims, IsSpot, WritesPlain};
ghost use Rattle.heap_place.specs.Found.{IsOne, header_offset};
ghost use Rattle.heap_place.specs.Relocation.{stand_in, KeepsFound, Copies, with_name, RelocatesFound, RelocatesToRun};
ghost use Rattle.heap_place.specs.Lists.{Any, KeepsFree, HasLists};

use chunk_format::{FIXED_LOCK, HEADER_SIZE, Header, size_of_body};
use heap_model::{Name, Place};
use heap_place::claim::claim_fixed_at;
use heap_place::directory::{directory_name, name_directory};
use heap_place::lists::{Lists, take};
use heap_place::release::release_listed;
use heap_place::search::spot_for_body;
use heap_place::{Found, Room};
use raw_region::Region;

/// The owner of a stand-in. Any owner that a fixed chunk may have would do.
const STAND_IN_OWNER: u8 = 1;

/// Moves a movable chunk without locks to the start of neighbouring free chunks that have the room.
/// It has `count` bytes there: its first ones, or all of them and zeros after them. Returns whether
/// there is a run of free chunks with the room.
#[inline(always)]
pub(crate) fn relocate(region: &mut Region, lists: &mut Lists, found: Found, count: u32) -> bool
    requires heap { HoldsHeap region.old }
    requires found { IsOne region.old.bytes found }
    requires unlocked { found.lock ≡ 0 }
    requires lists { HasLists region.old.bytes lists.old }
    ensures lists { HasLists region.new.bytes lists.new }
    ensures moved { OnTrue result (RelocatesToRun region.old.bytes region.new.bytes found count) }
    ensures no_run { OnFalse result (NoRun (chunks_of region.old.bytes) (need count)) }
    ensures refused { OnFalse result (region.new ≡ region.old) }
    ensures frame { SameFrame region.old.bytes region.new.bytes }
    ensures plain { WritesPlain region.old.bytes region.new.bytes }
    ensures out { region.new.lents ≡ region.old.lents }
    ensures slid { OnTrue result (region.new.slid ≡ region.old.slid + min found.length count) }
    ensures heap { HoldsHeap region.new }
{
    match spot_for_body(region, lists, count) {
        Some(room) => {
            relocate_to(region, lists, found, room, count);
            lists.forget_packing();
            true
        }
        None => false,
    }
}

/// Moves a movable chunk without locks to the start of room. The chunk may be the directory.
#[inline(always)]
fn relocate_to(region: &mut Region, lists: &mut Lists, found: Found, room: Room, count: u32)
    requires heap { HoldsHeap region.old }
    requires found { IsOne region.old.bytes found }
    requires unlocked { found.lock ≡ 0 }
    requires room { IsSpot region.old.bytes room.at room.size }
    requires enough { need count ≤ room.size }
    requires lists { HasLists region.old.bytes lists.old }
    ensures lists { HasLists region.new.bytes lists.new }
    ensures moved { RelocatesFound region.old.bytes region.new.bytes found room.at room.size count }
    ensures frame { SameFrame region.old.bytes region.new.bytes }
    ensures plain { WritesPlain region.old.bytes region.new.bytes }
    ensures out { region.new.lents ≡ region.old.lents }
    ensures slid { region.new.slid ≡ region.old.slid + min found.length count }
    ensures heap { HoldsHeap region.new }
{
    if directory_name(region) == found.name {
        relocate_directory(region, lists, found, room, count);
    } else {
        relocate_other(region, lists, found, room, count);
    }
}

/// Moves the directory. While it moves, the image has no directory, so that each step leaves an
/// accepted heap.
#[inline(never)]
fn relocate_directory(region: &mut Region, lists: &mut Lists, found: Found, room: Room, count: u32)
    requires heap { HoldsHeap region.old }
    requires found { IsOne region.old.bytes found }
    requires unlocked { found.lock ≡ 0 }
    requires directory { found.name.0 ≡ directory_of region.old.bytes }
    requires room { IsSpot region.old.bytes room.at room.size }
    requires enough { need count ≤ room.size }
    requires lists { HasLists region.old.bytes lists.old }
    ensures lists { HasLists region.new.bytes lists.new }
    ensures moved { RelocatesFound region.old.bytes region.new.bytes found room.at room.size count }
    ensures frame { SameFrame region.old.bytes region.new.bytes }
    ensures plain { WritesPlain region.old.bytes region.new.bytes }
    ensures out { region.new.lents ≡ region.old.lents }
    ensures slid { region.new.slid ≡ region.old.slid + min found.length count }
    ensures heap { HoldsHeap region.new }
{
    name_directory(region, Name(0));
    relocate_other(region, lists, found, room, count);
    name_directory(region, found.name);
}

/// Moves a chunk that isn't the directory. A fixed chunk stands in for it at the new place until
/// the old chunk is free, so that each step leaves an accepted heap.
#[inline(always)]
fn relocate_other(region: &mut Region, lists: &mut Lists, found: Found, room: Room, count: u32)
    requires heap { HoldsHeap region.old }
    requires found { IsOne region.old.bytes found }
    requires unlocked { found.lock ≡ 0 }
    requires no_directory { found.name.0 ≢ directory_of region.old.bytes }
    requires room { IsSpot region.old.bytes room.at room.size }
    requires enough { need count ≤ room.size }
    requires lists { HasLists region.old.bytes lists.old }
    ensures lists { HasLists region.new.bytes lists.new }
    ensures moved { RelocatesFound region.old.bytes region.new.bytes found room.at room.size count }
    ensures frame { SameFrame region.old.bytes region.new.bytes }
    ensures plain { WritesPlain region.old.bytes region.new.bytes }
    ensures out { region.new.lents ≡ region.old.lents }
    ensures slid { region.new.slid ≡ region.old.slid + min found.length count }
    ensures heap { HoldsHeap region.new }
{
    let there = stand_in_at(region, lists, room, count);
    copy_bytes(region, found, there);
    release_listed(region, lists, found);
    take_name(region, there, found.name, found.owner);
}

/// Makes the start of room a fixed chunk of `count` zeros.
fn stand_in_at(region: &mut Region, lists: &mut Lists, room: Room, count: u32) -> Found
    requires heap { HoldsHeap region.old }
    requires room { IsSpot region.old.bytes room.at room.size }
    requires enough { need count ≤ room.size }
    requires lists { HasLists region.old.bytes lists.old }
    ensures lists { HasLists region.new.bytes lists.new }
    ensures made { Claims region.old.bytes region.new.bytes room.at room.size
        (fixed (replicate count 0) STAND_IN_OWNER) }
    ensures is { result ≡ stand_in room.at count }
    ensures found { IsOne region.new.bytes result }
    ensures others { KeepsFound region.old.bytes region.new.bytes }
    ensures plain { WritesPlain region.old.bytes region.new.bytes }
    ensures rest { region.new ≡ record region.old { bytes = region.new.bytes } }
    ensures heap { HoldsHeap region.new }
{
    take(region, lists, room, size_of_body(count));
    claim_fixed_at(region, room.at, count, STAND_IN_OWNER);
    let body = room.at + HEADER_SIZE;
    Found {
        name: Name(body),
        place: Place(body),
        length: count,
        lock: FIXED_LOCK,
        owner: STAND_IN_OWNER,
    }
}

/// Copies the first bytes of one chunk over those of another, as many as both have.
fn copy_bytes(region: &mut Region, from: Found, to: Found)
    requires heap { HoldsHeap region.old }
    requires from { IsOne region.old.bytes from }
    requires to { IsOne region.old.bytes to }
    requires other_from { LendsOther region.old from.place.0 }
    requires other_to { LendsOther region.old to.place.0 }
    requires apart { from.name.0 ≢ to.name.0 }
    ensures copied { Copies region.old.bytes region.new.bytes from to }
    ensures from { IsOne region.new.bytes from }
    ensures to { IsOne region.new.bytes to }
    ensures keeps { KeepsFree Any region.old.bytes region.new.bytes }
    ensures plain { WritesPlain region.old.bytes region.new.bytes }
    ensures out { region.new.lents ≡ region.old.lents }
    ensures slid { region.new.slid ≡ region.old.slid + min from.length to.length }
    ensures heap { HoldsHeap region.new }
{
    let count = from.length.min(to.length);
    region.slide(from.place.0 as usize, to.place.0 as usize, count as usize);
}

/// Makes a fixed chunk a movable one without locks, which the empty slot names.
fn take_name(region: &mut Region, there: Found, slot: Name, owner: u8)
    requires heap { HoldsHeap region.old }
    requires found { IsOne region.old.bytes there }
    requires other { LendsOther region.old there.place.0 }
    requires fixed { there.lock ≡ fixed_lock }
    requires slot { IsSlot region.old.bytes slot.0 }
    requires empty { u32_at region.old.bytes slot.0 ≡ 0 }
    requires owner { owner ≤ data_owner }
    ensures made { Alters region.old.bytes region.new.bytes (header_offset there)
        (with_name owner slot.0) }
    ensures keeps { KeepsFree Any region.old.bytes region.new.bytes }
    ensures plain { WritesPlain region.old.bytes region.new.bytes }
    ensures rest { region.new ≡ record region.old { bytes = region.new.bytes } }
    ensures heap { HoldsHeap region.new }
{
    let header = Header::Movable {
        length: there.length,
        lock: 0,
        owner,
        slot: slot.0,
    };
    header.write(region, there.place.0 - HEADER_SIZE);
    master_table::set(region, slot, there.place);
}
