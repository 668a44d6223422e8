//! The places that slots hold.
#![tactic(auto, using(crate::proofs::LentLaws::frame_of, crate::proofs::LentLaws::table_of, laws_heap::proofs::LentBodies::table_within))]

ghost use Rattle.std.specs.Prelude.{◌≡◌, ◌<◌, ◌≤◌, ◌↔◌, ◌+◌, ℕ, length, max, MatchOption, IfSome, IfNone, None};
ghost use Rattle.heap_model.specs.Bytes.{u32_at, u32_bytes, overwritten};
ghost use Rattle.heap_model.specs.Memory.{IsWithin};
ghost use Rattle.heap_model.specs.Lending.{LendsBodies};
ghost use Rattle.heap_model.specs.Slots.{IsSlot, HasTable, StandsBehind, slot_count as model_count, slots_total as model_total};
ghost use Rattle.heap_model.specs.Heap.{HeapAccepted};
ghost use Rattle.heap_model.specs.Space.{free_slots};
ghost use Rattle.std.specs.Bool.{OnTrue};
ghost use Rattle.master_table.specs.Known.{KnowsTables};
ghost use Rattle.master_table.specs.Table.{HoldsPlace, HoldsNothing, IsTiled, IsStart, IsRow, row_start, row_end, IsEmptyAt, IsUsedAt, IsFirstEmpty, UsedBefore, empty_before};

use crate::known::KnownTables;
use crate::slots::{Row, TableStart, find_number, last_row};
use chunk_format::{FRAME_SIZE, SLOT_SIZE, slot_count};
use heap_model::{Name, Place};
use raw_region::Region;

/// Each place in an image is below this.
const ABOVE_PLACES: u32 = 0x0100_0000;

/// An empty slot, how many slots come before it, and its table.
#[derive(Clone, Copy, Debug, PartialEq, Eq)]
pub struct EmptySlot {
    pub name: Name,
    pub before: u32,
    pub table: TableStart,
}

/// Returns the word of a slot: a place, or 0 if the slot is empty.
#[inline]
pub fn word_of(region: &Region, slot: u32) -> u32
    requires table { HasTable region.now }
    requires slot { IsSlot region.now.bytes slot }
    ensures { result ≡ u32_at region.now.bytes slot }
{
    region.get_u32(slot as usize)
}

/// Returns how many slots come before the one of a name. None if the name is no slot.
#[inline(always)]
pub fn slots_before(region: &Region, name: Name) -> Option<u32>
    requires tiled { IsTiled region.now.bytes }
    requires lent { LendsBodies region.now }
    ensures some { IfSome result (StandsBehind region.now.bytes name.0) }
    ensures none { IfNone result (IsSlot region.now.bytes name.0 → ⊥) }
{
    find_number(region, name.0)
}

/// Returns a lower bound for how many slots come before the one of a name. For a slot of the first
/// table the bound is exact. It neither walks along the chain nor tests whether the name is a slot.
#[inline(always)]
pub fn least_number(region: &Region, name: Name) -> u32
    requires tiled { IsTiled region.now.bytes }
    requires lent { LendsBodies region.now }
    ensures least { (number : ℕ) → StandsBehind region.now.bytes name.0 number → result ≤ number }
    ensures exact { (number : ℕ) → StandsBehind region.now.bytes name.0 number
        → number < model_count region.now.bytes → result ≡ number }
{
    let number = name.0.saturating_sub(FRAME_SIZE) / SLOT_SIZE;
    number.min(slot_count(region) as u32)
}

/// Returns the place that a slot holds. None if the name is no slot, or an empty one.
#[inline(always)]
pub fn resolve(region: &Region, name: Name) -> Option<Place>
    requires tiled { IsTiled region.now.bytes }
    requires lent { LendsBodies region.now }
    ensures { MatchOption result (HoldsNothing region.now.bytes name.0)
        (λ place. HoldsPlace region.now.bytes name.0 place.0) }
{
    match slots_before(region, name) {
        Some(_) => place_in(region, name),
        None => None,
    }
}

/// Returns the place that a slot of the first table holds. None also if the slot is elsewhere.
#[inline(always)]
fn resolve_first(region: &Region, name: Name) -> Option<Place>
    requires tiled { IsTiled region.now.bytes }
    requires lent { LendsBodies region.now }
    ensures { IfSome result (λ place. HoldsPlace region.now.bytes name.0 place.0) }
{
    match Row::of(region).number(region, name.0) {
        Some(_) => place_in(region, name),
        None => None,
    }
}

/// Returns the place that a slot holds, if the slot is in the first table, or in one that is in the
/// entry of its block. None also if the slot is elsewhere. It calls no function, so a caller that
/// ends with a call for all else saves no registers.
#[inline(always)]
pub fn resolve_near(region: &Region, known: &KnownTables, name: Name) -> Option<Place>
    requires accepted { HeapAccepted region.now.bytes }
    requires lent { LendsBodies region.now }
    requires knows { KnowsTables region.now.bytes known.now }
    ensures { IfSome result (λ place. HoldsPlace region.now.bytes name.0 place.0) }
{
    if let Some(place) = resolve_first(region, name) {
        return Some(place);
    }
    if known.has_slot(name.0) {
        return place_in(region, name);
    }
    None
}

/// Returns the same as `resolve` for a heap whose further tables are remembered. It walks along the
/// chain only if it finds the slot neither in the first table nor in a remembered one. It doesn't
/// walk either if the word before the name is greater than any place.
#[inline(always)]
pub fn resolve_known(region: &Region, known: &KnownTables, name: Name) -> Option<Place>
    requires accepted { HeapAccepted region.now.bytes }
    requires lent { LendsBodies region.now }
    requires knows { KnowsTables region.now.bytes known.now }
    ensures { MatchOption result (HoldsNothing region.now.bytes name.0)
        (λ place. HoldsPlace region.now.bytes name.0 place.0) }
{
    match resolve_near(region, known, name) {
        Some(place) => Some(place),
        None => resolve_further(region, known, name),
    }
}

/// Returns the same as `resolve_known`. Only the look-up in the first table is in line, so that it
/// is small enough to be in line in a loop. What it calls returns a place and no chunk: a chunk
/// would go through memory.
#[inline(always)]
pub fn resolve_by_call(region: &Region, known: &KnownTables, name: Name) -> Option<Place>
    requires accepted { HeapAccepted region.now.bytes }
    requires lent { LendsBodies region.now }
    requires knows { KnowsTables region.now.bytes known.now }
    ensures { MatchOption result (HoldsNothing region.now.bytes name.0)
        (λ place. HoldsPlace region.now.bytes name.0 place.0) }
{
    match resolve_first(region, name) {
        Some(place) => Some(place),
        None => resolve_elsewhere(region, known, name),
    }
}

/// Returns the same as `resolve_known`, by a call.
#[inline(never)]
fn resolve_elsewhere(region: &Region, known: &KnownTables, name: Name) -> Option<Place>
    requires accepted { HeapAccepted region.now.bytes }
    requires lent { LendsBodies region.now }
    requires knows { KnowsTables region.now.bytes known.now }
    ensures { MatchOption result (HoldsNothing region.now.bytes name.0)
        (λ place. HoldsPlace region.now.bytes name.0 place.0) }
{
    resolve_known(region, known, name)
}

/// Returns the same for a name whose place isn't found near. It is never inlined, so that its
/// callers have only the code for what is near.
#[cold]
#[inline(never)]
fn resolve_further(region: &Region, known: &KnownTables, name: Name) -> Option<Place>
    requires accepted { HeapAccepted region.now.bytes }
    requires lent { LendsBodies region.now }
    requires knows { KnowsTables region.now.bytes known.now }
    ensures { MatchOption result (HoldsNothing region.now.bytes name.0)
        (λ place. HoldsPlace region.now.bytes name.0 place.0) }
{
    if follows_no_place(region, name.0) {
        return None;
    }
    if known.has_slot_further_on(name.0) {
        return place_in(region, name);
    }
    resolve(region, name)
}

/// Returns whether the word before an offset is greater than any place, as it is before the body of
/// a fixed chunk. The word before a slot is that of another slot, the directory word or a word
/// `next`. It doesn't read a word that isn't within the region. If something is lent, it reads no
/// word, and returns whether a lent body begins at the offset.
#[inline]
fn follows_no_place(region: &Region, at: u32) -> bool
    requires accepted { HeapAccepted region.now.bytes }
    requires lent { LendsBodies region.now }
    ensures { OnTrue result (IsSlot region.now.bytes at → ⊥) }
{
    if at < SLOT_SIZE || at as usize > region.len() {
        return false;
    }
    if !region.is_whole() {
        return region.lends_from(at);
    }
    region.get_u32((at - SLOT_SIZE) as usize) >= ABOVE_PLACES
}

/// Returns the place that a slot holds, if it isn't empty.
#[inline]
fn place_in(region: &Region, slot: Name) -> Option<Place>
    requires table { HasTable region.now }
    requires slot { IsSlot region.now.bytes slot.0 }
    ensures { MatchOption result (HoldsNothing region.now.bytes slot.0)
        (λ place. HoldsPlace region.now.bytes slot.0 place.0) }
{
    match word_of(region, slot.0) {
        0 => None,
        place => Some(Place(place)),
    }
}

/// The slot of a row with an index in its table, if it is empty.
#[inline]
fn empty_slot(region: &Region, row: Row, index: u32) -> Option<EmptySlot>
    requires tiled { IsTiled region.now.bytes }
    requires lent { LendsBodies region.now }
    requires row { IsRow region.now.bytes row }
    requires below { row_start row + index < row_end row }
    ensures some { IfSome result (IsEmptyAt region.now.bytes (row_start row + index)) }
    ensures table { IfSome result (λ slot. IsStart region.now.bytes slot.table) }
    ensures none { IfNone result (IsUsedAt region.now.bytes (row_start row + index)) }
{
    if row.word(region, index) != 0 {
        return None;
    }
    let number = row.start() + index;
    Some(EmptySlot {
        name: Name(row.slot(region, number)),
        before: number,
        table: row.table(),
    })
}

/// The first empty slot of a row from a number on. The slots before that one are in use.
fn empty_in_row(region: &Region, row: Row, from: u32) -> Option<EmptySlot>
    requires tiled { IsTiled region.now.bytes }
    requires lent { LendsBodies region.now }
    requires row { IsRow region.now.bytes row }
    requires start { row_start row ≤ from }
    requires used { UsedBefore region.now.bytes from }
    ensures some { IfSome result (λ slot. IsFirstEmpty region.now.bytes slot.name.0 slot.before) }
    ensures none { IfNone result (UsedBefore region.now.bytes (max from (row_end row))) }
    ensures table { IfSome result (λ slot. IsStart region.now.bytes slot.table) }
{
    let first = from - row.start();
    for index in first..row.count() {
        if let Some(slot) = empty_slot(region, row, index) {
            return Some(slot);
        }
    }
    None
}

/// Returns the first empty slot. The caller must prove that the first `from` slots are in use, and
/// the search skips these slots. It begins with the table `start`, unless more than `from` slots
/// come before that table's own.
pub fn first_empty_slot(region: &Region, start: TableStart, from: u32) -> Option<EmptySlot>
    requires tiled { IsTiled region.now.bytes }
    requires lent { LendsBodies region.now }
    requires start { IsStart region.now.bytes start }
    requires used { UsedBefore region.now.bytes from }
    ensures some { IfSome result (λ slot. IsFirstEmpty region.now.bytes slot.name.0 slot.before) }
    ensures none { (result ≡ None) ↔ (free_slots region.now.bytes ≡ 0) }
    ensures table { IfSome result (λ slot. IsStart region.now.bytes slot.table) }
{
    let mut row = row_from(region, start, from);
    let mut at = from;
    while !row.is_last() {
        if let Some(slot) = empty_in_row(region, row, at) {
            return Some(slot);
        }
        row = row.behind(region);
        at = at.max(row.start());
    }
    empty_in_row(region, row, at)
}

/// The slots of a table that is known, or those of the first table if more than `from` slots come
/// before them.
fn row_from(region: &Region, start: TableStart, from: u32) -> Row
    requires tiled { IsTiled region.now.bytes }
    requires lent { LendsBodies region.now }
    requires start { IsStart region.now.bytes start }
    ensures row { IsRow region.now.bytes result }
    ensures start { row_start result ≤ from }
{
    let row = Row::at(region, start);
    if row.start() <= from {
        row
    } else {
        Row::of(region)
    }
}

/// Returns how many slots there are.
pub fn slots_total(region: &Region) -> u32
    requires tiled { IsTiled region.now.bytes }
    requires lent { LendsBodies region.now }
    ensures { result ≡ model_total region.now.bytes }
{
    slots_from(region, TableStart::first())
}

/// Returns how many slots there are. It walks from a table of the chain on.
pub(crate) fn slots_from(region: &Region, start: TableStart) -> u32
    requires tiled { IsTiled region.now.bytes }
    requires lent { LendsBodies region.now }
    requires start { IsStart region.now.bytes start }
    ensures { result ≡ model_total region.now.bytes }
{
    last_row(region, start).end()
}

/// Returns how many slots are empty.
pub fn slots_free(region: &Region) -> u32
    requires tiled { IsTiled region.now.bytes }
    requires lent { LendsBodies region.now }
    ensures { result ≡ free_slots region.now.bytes }
{
    let mut row = Row::of(region);
    let mut count = count_empty(region, row, 0);
    while !row.is_last() {
        row = row.behind(region);
        count = count_empty(region, row, count);
    }
    count
}

/// Returns how many slots are empty up to the last one of a row. `before` of them come before its
/// first.
fn count_empty(region: &Region, row: Row, before: u32) -> u32
    requires tiled { IsTiled region.now.bytes }
    requires lent { LendsBodies region.now }
    requires row { IsRow region.now.bytes row }
    requires before { before ≡ empty_before region.now.bytes (row_start row) }
    ensures { result ≡ empty_before region.now.bytes (row_end row) }
{
    let mut count = before;
    for index in 0..row.count() {
        if empty_slot(region, row, index).is_some() {
            count += 1;
        }
    }
    count
}

/// Writes a place into a slot.
#[inline(always)]
pub fn set(region: &mut Region, slot: Name, place: Place)
    requires within { IsWithin region.old slot.0 4 }
    requires slot { IsSlot region.old.bytes slot.0 }
    ensures after { region.new ≡ record region.old
        { bytes = overwritten region.old.bytes slot.0 (u32_bytes place.0) } }
    ensures len { length region.new.bytes ≡ length region.old.bytes }
{
    region.put_u32(slot.0 as usize, place.0);
}

/// Empties a slot.
#[inline(always)]
pub fn clear(region: &mut Region, slot: Name)
    requires within { IsWithin region.old slot.0 4 }
    requires slot { IsSlot region.old.bytes slot.0 }
    ensures after { region.new ≡ record region.old
        { bytes = overwritten region.old.bytes slot.0 (u32_bytes 0) } }
    ensures len { length region.new.bytes ≡ length region.old.bytes }
{
    region.put_u32(slot.0 as usize, 0);
}
