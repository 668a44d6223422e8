//! Finds live chunks by their names and by their places.
#![tactic(auto, using(laws_heap::proofs::LentBodies::frame_within, laws_heap::proofs::LentBodies::table_within))]

ghost use Rattle.std.specs.Prelude.{◌≡◌, ◌≢◌, IsSome, IfSome, IfNone, Some, None};
ghost use Rattle.heap_model.specs.Chunk.{fixed_lock};
ghost use Rattle.heap_model.specs.Meaning.{LiveChunk};
ghost use Rattle.heap_model.specs.Reading.{held};
ghost use Rattle.master_table.specs.Known.{KnowsTables};
ghost use Rattle.master_table.specs.Table.{HoldsNothing, HoldsPlace};
ghost use Rattle.heap_model.specs.Lending.{HoldsHeap};
ghost use Rattle.heap_place.specs.Found.{IsFound, IsOne, IsFixed, NothingAt, NoSlotHolds};
ghost use Rattle.raw_region.specs.Marks.{BeginsAt, IsNextLent, NoneBeginsAbove};

use crate::found::{Found, as_fixed, as_movable};
use crate::walks::{find_fixed, may_read_header};
use chunk_format::{HEADER_SIZE, Header, live_fields};
use heap_model::{Name, Place};
use master_table::{KnownTables, resolve_by_call, resolve_known, resolve_near, word_of};
use raw_region::Region;

/// Returns the chunk that has a name. If a slot has the name, it calls `in_slot`; for any other
/// name it walks the chunks.
pub fn find_named(region: &Region, tables: &KnownTables, name: Name) -> Option<Found>
    requires heap { HoldsHeap region.now }
    requires knows { KnowsTables region.now.bytes tables.now }
    ensures found { IfSome result (IsFound region.now.bytes name.0) }
    ensures none { IfNone result (held region.now.bytes name.0 ≡ None) }
{
    match in_slot(region, tables, name) {
        Some(found) => Some(found),
        None => find_fixed(region, name),
    }
}

/// Returns the chunk of a name that is a slot's. For a slot of the first table or of a remembered
/// one, the cost does not depend on the heap's size. For any other name it may walk the chain of
/// tables.
#[inline(always)]
pub fn in_slot(region: &Region, tables: &KnownTables, name: Name) -> Option<Found>
    requires heap { HoldsHeap region.now }
    requires knows { KnowsTables region.now.bytes tables.now }
    ensures found { IfSome result (IsFound region.now.bytes name.0) }
    ensures none { IfNone result (HoldsNothing region.now.bytes name.0) }
{
    match resolve_known(region, tables, name) {
        Some(place) => Some(held_by(region, name, place)),
        None => None,
    }
}

/// Returns the same as `in_slot`. Only the look-up in the first table is in line.
#[inline(always)]
pub fn in_slot_by_call(region: &Region, tables: &KnownTables, name: Name) -> Option<Found>
    requires heap { HoldsHeap region.now }
    requires knows { KnowsTables region.now.bytes tables.now }
    ensures found { IfSome result (IsFound region.now.bytes name.0) }
    ensures none { IfNone result (HoldsNothing region.now.bytes name.0) }
{
    match resolve_by_call(region, tables, name) {
        Some(place) => Some(held_by(region, name, place)),
        None => None,
    }
}

/// Returns the chunk of a name that is a slot's, if the slot is in the first table, or in one that
/// is in the entry of its block. None also if the slot is elsewhere. It calls no function.
#[inline(always)]
pub fn in_near_slot(region: &Region, tables: &KnownTables, name: Name) -> Option<Found>
    requires heap { HoldsHeap region.now }
    requires knows { KnowsTables region.now.bytes tables.now }
    ensures found { IfSome result (IsFound region.now.bytes name.0) }
{
    match resolve_near(region, tables, name) {
        Some(place) => Some(held_by(region, name, place)),
        None => None,
    }
}

/// Returns the chunk of a name that has one. If no slot has the name, the chunk is fixed, and the
/// name is the place of its body.
#[inline(always)]
pub fn chunk_named(region: &Region, tables: &KnownTables, name: Name) -> Found
    requires heap { HoldsHeap region.now }
    requires knows { KnowsTables region.now.bytes tables.now }
    requires there { IsSome (held region.now.bytes name.0) }
    ensures { IsFound region.now.bytes name.0 result }
{
    match in_slot_by_call(region, tables, name) {
        Some(found) => found,
        None => fixed_at(region, name),
    }
}

/// Returns the chunk of a name that has a movable one. It tests neither that the name is a slot's
/// nor the kind of the chunk.
#[inline(always)]
pub fn movable_named(region: &Region, name: Name) -> Found
    requires heap { HoldsHeap region.now }
    requires there { IsSome (held region.now.bytes name.0) }
    requires movable { (live : LiveChunk) → held region.now.bytes name.0 ≡ Some live
        → live.lock ≢ fixed_lock }
    ensures { IsFound region.now.bytes name.0 result }
{
    held_by(region, name, Place(word_of(region, name.0)))
}

/// Returns the chunk whose place a slot contains. It is movable and names the slot, so its header
/// isn't tested.
#[inline(always)]
fn held_by(region: &Region, slot: Name, place: Place) -> Found
    requires heap { HoldsHeap region.now }
    requires holds { HoldsPlace region.now.bytes slot.0 place.0 }
    ensures { IsFound region.now.bytes slot.0 result }
{
    let fields = live_fields(region, place.0 - HEADER_SIZE);
    Found {
        name: slot,
        place,
        length: fields.length,
        lock: fields.lock,
        owner: fields.owner,
    }
}

/// Returns the fixed chunk of a name.
#[inline(always)]
fn fixed_at(region: &Region, name: Name) -> Found
    requires heap { HoldsHeap region.now }
    requires fixed { IsFixed region.now.bytes name.0 }
    ensures { IsFound region.now.bytes name.0 result }
{
    let header = Header::at(region, name.0 - HEADER_SIZE);
    as_fixed(header, Place(name.0), name).unwrap()
}

/// Returns the live chunk whose body is at a place. If the body is lent, the marks of lent parts say
/// so. Else the 8 bytes before the place may look like a movable chunk's header. They count only if
/// the slot that they name contains the place. A fixed chunk is looked for among all chunks.
pub fn find_placed(region: &Region, tables: &KnownTables, place: Place) -> Option<Found>
    requires heap { HoldsHeap region.now }
    requires knows { KnowsTables region.now.bytes tables.now }
    ensures found { IfSome result (IsOne region.now.bytes) }
    ensures there { IfSome result (λ found. found.place.0 ≡ place.0) }
    ensures none { IfNone result (NothingAt region.now.bytes place.0) }
{
    if region.lends_from(place.0) {
        return Some(lent_chunk(region, place));
    }
    match in_slot_at(region, tables, place) {
        Some(found) => Some(found),
        None => find_fixed(region, Name(place.0)),
    }
}

/// Returns the movable chunk whose body is at a place, if there is one.
fn in_slot_at(region: &Region, tables: &KnownTables, place: Place) -> Option<Found>
    requires heap { HoldsHeap region.now }
    requires knows { KnowsTables region.now.bytes tables.now }
    ensures found { IfSome result (IsOne region.now.bytes) }
    ensures there { IfSome result (λ found. found.place.0 ≡ place.0) }
    ensures none { IfNone result (NoSlotHolds region.now.bytes place.0) }
{
    if place.0 < HEADER_SIZE {
        return None;
    }
    if !may_read_header(region, place.0 - HEADER_SIZE) {
        return None;
    }
    let header = match Header::read(region, place.0 - HEADER_SIZE) {
        Some(header) => header,
        None => return None,
    };
    let found = match as_movable(header, place) {
        Some(found) => found,
        None => return None,
    };
    match resolve_known(region, tables, found.name) {
        Some(held) if held.0 == place.0 => Some(found),
        _ => None,
    }
}

/// Returns the chunk whose body is lent from a place on. Only its header is read.
fn lent_chunk(region: &Region, place: Place) -> Found
    requires heap { HoldsHeap region.now }
    requires begins { BeginsAt place.0 region.now.lents }
    ensures found { IsOne region.now.bytes result }
    ensures there { result.place.0 ≡ place.0 }
{
    let header = Header::at(region, place.0 - HEADER_SIZE);
    match as_movable(header, place) {
        Some(found) => found,
        None => fixed_at(region, Name(place.0)),
    }
}

/// Returns the chunk with the least place above `after` whose body is lent, if there is one. It
/// walks over the marks of lent parts, and looks at no other chunk.
pub fn lent_above(region: &Region, after: Place) -> Option<Found>
    requires heap { HoldsHeap region.now }
    ensures found { IfSome result (IsOne region.now.bytes) }
    ensures next { IfSome result (λ found. IsNextLent region.now.lents after.0 found.place.0) }
    ensures none { IfNone result (NoneBeginsAbove after.0 region.now.lents) }
{
    match region.next_lent(after.0) {
        Some(place) => Some(lent_chunk(region, Place(place))),
        None => None,
    }
}
