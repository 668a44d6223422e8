//! Gives a live chunk another length.
#![tactic(auto, using(laws_heap::proofs::LentBodies::frame_within, laws_heap::proofs::LentBodies::table_within))]

ghost use Rattle.std.specs.Prelude.{◌≡◌, ◌≤◌, ◌<◌, ◌+◌, ◌-◌, ◌^◌, length};
ghost use Rattle.std.specs.Bool.{OnTrue, OnFalse};
ghost use Rattle.heap_model.specs.Chunk.{need};
ghost use Rattle.heap_model.specs.Lending.{LendsOther, HoldsHeap};
ghost use Rattle.heap_model.specs.Layout.{WritesPlain};
ghost use Rattle.heap_model.specs.Resizing.{GrowsInPlace};
ghost use Rattle.heap_place.specs.Found.{IsOne, header_offset};
ghost use Rattle.heap_place.specs.Lists.{HasLists, Outside, IsFreeChunk, KeepsFree};
ghost use Rattle.heap_place.specs.Resizes.{sized_header, RunBehind, Resizes, TellsWhetherInPlace};

use chunk_format::{FIXED_LOCK, HEADER_SIZE, Header, chunk_size, size_of_body};
use heap_place::claim::write_rest;
use heap_place::lists::{Lists, push, unlink_run};
use heap_place::release::free_run;
use heap_place::{Found, Room};
use raw_region::Region;

/// Gives a live chunk `count` bytes in place, from its own bytes and `behind` bytes of free chunks
/// directly after it. Bytes that it gains are zero, and the rest is free. Returns the size of that
/// free rest.
#[inline(always)]
fn resize_at(region: &mut Region, found: Found, count: u32, behind: u32) -> u32
    requires heap { HoldsHeap region.old }
    requires behind { RunBehind region.old.bytes found behind }
    requires other { LendsOther region.old found.place.0 }
    requires fits { need count ≤ need found.length + behind }
    ensures resized { Resizes region.old.bytes region.new.bytes found count behind }
    ensures left { result ≡ need found.length + behind - need count }
    ensures chunk { 0 < result → IsFreeChunk region.new.bytes (header_offset found + need count) result }
    ensures keeps { KeepsFree (Outside (header_offset found) (need found.length + behind))
        region.old.bytes region.new.bytes }
    ensures plain { WritesPlain region.old.bytes region.new.bytes }
    ensures rest { region.new ≡ record region.old { bytes = region.new.bytes } }
    ensures heap { HoldsHeap region.new }
{
    let at = found.place.0 - HEADER_SIZE;
    let size = size_of_body(count);
    let left = size_of_body(found.length) + behind - size;
    let gained = count.saturating_sub(found.length);
    let end = found.place.0 as usize + found.length as usize;
    region.fill(end, gained as usize, 0);
    write_rest(region, at + size, left);
    header_with(found, count).write(region, at);
    left
}

/// The same for free chunks that are in lists. Those that are taken leave their lists, and the rest
/// is put into its own.
#[inline(always)]
pub(crate) fn resize_listed(
    region: &mut Region,
    lists: &mut Lists,
    found: Found,
    count: u32,
    behind: u32,
)
    requires heap { HoldsHeap region.old }
    requires behind { RunBehind region.old.bytes found behind }
    requires other { LendsOther region.old found.place.0 }
    requires fits { need count ≤ need found.length + behind }
    requires lists { HasLists region.old.bytes lists.old }
    ensures resized { Resizes region.old.bytes region.new.bytes found count behind }
    ensures lists { HasLists region.new.bytes lists.new }
    ensures plain { WritesPlain region.old.bytes region.new.bytes }
    ensures rest { region.new ≡ record region.old { bytes = region.new.bytes } }
    ensures heap { HoldsHeap region.new }
{
    let at = found.place.0 - HEADER_SIZE;
    let end = at + size_of_body(found.length);
    unlink_run(
        region,
        lists,
        Room {
            at: end,
            size: behind,
        },
    );
    let left = resize_at(region, found, count, behind);
    if left > 0 {
        push(region, lists, at + size_of_body(count), left);
    }
}

/// Returns the header of a chunk that was found, with another length.
#[inline(always)]
fn header_with(found: Found, count: u32) -> Header
    ensures { result ≡ sized_header found count }
{
    if found.lock == FIXED_LOCK {
        return Header::Fixed {
            length: count,
            owner: found.owner,
        };
    }
    Header::Movable {
        length: count,
        lock: found.lock,
        owner: found.owner,
        slot: found.name.0,
    }
}

/// Gives a live chunk `count` bytes in place, if its own and those of the free chunks directly
/// after it suffice. Returns whether they do.
#[inline(always)]
pub(crate) fn grow_in_place_at(
    region: &mut Region,
    lists: &mut Lists,
    found: Found,
    count: u32,
) -> bool
    requires heap { HoldsHeap region.old }
    requires found { IsOne region.old.bytes found }
    requires other { LendsOther region.old found.place.0 }
    requires lists { HasLists region.old.bytes lists.old }
    ensures lists { HasLists region.new.bytes lists.new }
    ensures grown { OnTrue result
        (GrowsInPlace region.old.bytes region.new.bytes (header_offset found) count) }
    ensures refused { OnFalse result (region.new ≡ region.old) }
    ensures tells { TellsWhetherInPlace region.old.bytes found (need count) result }
    ensures plain { WritesPlain region.old.bytes region.new.bytes }
    ensures rest { region.new ≡ record region.old { bytes = region.new.bytes } }
    ensures heap { HoldsHeap region.new }
{
    let own = size_of_body(found.length);
    let behind = free_run(region, found.place.0 - HEADER_SIZE + own);
    match chunk_size(count) {
        Some(size) if size <= own + behind => {
            resize_listed(region, lists, found, count, behind);
            true
        }
        _ => false,
    }
}
