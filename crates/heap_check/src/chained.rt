//! The check of an image with a chain of tables, after a right head.
//!
//! It takes no memory. Its time is proportional to the chunks and the slots: up to three walks over
//! the chunks and three along the chain. It marks words of the image, in one set for all walks:
//!
//! 1. It marks the bodies of the manager's fixed chunks. Each table along the chain takes its own
//!    mark away. So a table that isn't there, or comes twice, is found.
//! 2. It marks the slots in use. Each movable chunk takes away the mark of the slot that holds its
//!    place.
#![tactic(auto, using(laws_heap::proofs::Lending::all_misses, laws_heap::proofs::Lending::all_within, laws_heap::proofs::LentBodies::none_lends))]

ghost use Rattle.std.specs.Prelude.{[], ◌≡◌, ◌≢◌, ◌⊎◌, ◌+◌, ◌*◌, ◌/◌, ◌%◌, ◌<◌, ◌≤◌, ◌^◌, ◌↔◌, ℕ, true, length, IsTrue, IfSome, IfNone, IfOk, IfErr, OnOk, None};
ghost use Rattle.heap_model.specs.Bytes.{u32_at};
ghost use Rattle.heap_model.specs.Chunk.{SpelledAll};
ghost use Rattle.heap_model.specs.Placed.{EveryOne, FirstOne};
ghost use Rattle.heap_model.specs.Slots.{is_chained, HasTable, IsSlot, slots_of, area_start as model_start, further_tables};
ghost use Rattle.heap_model.specs.Heap.{IsHead, Tiles, IsKnownIfFixed, HasDirectory, HeapAccepted};
ghost use Rattle.heap_model.specs.Pairing.{HoldsBody, NamesItsSlot};
ghost use Rattle.heap_model.specs.Reading.{chunks_of};
ghost use Rattle.bit_sets.specs.Sets.{IsInSet, HasNone};
ghost use Rattle.heap_check.specs.Faults.{IsBadChunk, IsBadTable, IsFirstHeapFault};
ghost use Rattle.heap_check.specs.Summary.{Summarizes};
ghost use Rattle.heap_check.specs.Survey.{IsFirstWithout, BodyBy};
ghost use Rattle.master_table.specs.Table.{IsRow, row_start, row_end};
ghost use Rattle.heap_check.specs.Chained.{MarksBefore, HeldBefore, HoldsMarked, TakesMarks, ManagersBodyBy, IsUnmarkedBy, NamesMarkedBy, ManagersBy, TakesTable, IsNoTable, AddsInUse, Takes, Marks, IsManagersAt, FoundBodies, Followed, IsInUse, IsLeft};

use crate::fault::HeapFault;
use crate::summary::Summary;
use crate::survey::note;
use bit_sets::{add, has, remove};
use chunk_format::{
    DATA_OWNER, HEADER_SIZE, Header, MANAGERS_OWNER, NEXT_SIZE, SLOT_SIZE, area_start, directory,
    first_next, live_fields, slot_count,
};
use master_table::Row;
use raw_region::Region;

/// The counts of the first walk, and the offset of the first fixed chunk with owner 15.
#[derive(Clone, Copy)]
pub(crate) struct Bodies {
    movable: u32,
    fixed: u32,
    free: u32,
    managers: u32,
    bad_owner: Option<u32>,
}

/// The number of further tables, and the number of slots with those of the first table.
#[derive(Clone, Copy)]
pub(crate) struct Chain {
    tables: u32,
    slots: u32,
}

/// The results of the walk over the movable chunks.
#[derive(Clone, Copy)]
pub(crate) struct Names {
    without_slot: Option<u32>,
    directory: bool,
}

impl Bodies {
    ghost use Rattle.std.specs.Prelude.{[], None};
    ghost use Rattle.heap_check.specs.Survey.{movable_by, fixed_by, free_by, noted};
    ghost use Rattle.heap_check.specs.Chained.{managers_by, may_be_by, ManagersBodyBy, MarksWords};

    /// Returns the counts of no chunks.
    fn new() -> Bodies
        ensures movable { result.movable ≡ 0 }
        ensures fixed { result.fixed ≡ 0 }
        ensures free { result.free ≡ 0 }
        ensures managers { result.managers ≡ 0 }
        ensures bad_owner { result.bad_owner ≡ None }
    {
        Bodies {
            movable: 0,
            fixed: 0,
            free: 0,
            managers: 0,
            bad_owner: None,
        }
    }

    /// Adds the chunk at `at`, and marks its body if it is a fixed one of the manager's.
    #[inline]
    fn add(&mut self, at: u32, header: Header, marks: &mut [u8])
        requires small { at + 8 < 2 ^ 24 }
        requires whole { at % 8 ≡ 0 }
        requires counts { self.old.movable + self.old.fixed + self.old.free + free_by header
            < 2 ^ 25 }
        requires few { self.old.managers ≤ self.old.fixed }
        requires room { 524288 ≤ length marks.old }
        ensures movable { self.new.movable ≡ self.old.movable + movable_by header }
        ensures fixed { self.new.fixed ≡ self.old.fixed + fixed_by header }
        ensures free { self.new.free ≡ self.old.free + free_by header }
        ensures managers { self.new.managers ≡ self.old.managers + managers_by header }
        ensures bad_owner { self.new.bad_owner ≡ noted self.old.bad_owner at (may_be_by header) }
        ensures marked { MarksWords (λ place. ManagersBodyBy place at header) marks.old marks.new }
        ensures len { length marks.new ≡ length marks.old }
    {
        match header {
            Header::Free { size } => self.free += size,
            Header::Movable { .. } => self.movable += 1,
            Header::Fixed { owner, .. } => {
                self.fixed += 1;
                self.bad_owner = note(self.bad_owner, at, owner < DATA_OWNER);
                if owner == MANAGERS_OWNER {
                    self.managers += 1;
                    add(marks, (at + HEADER_SIZE) / SLOT_SIZE);
                }
            }
        }
    }
}

/// Takes a number out of the set, and returns whether it was there.
#[inline]
fn take(set: &mut [u8], number: u32) -> bool
    requires { number / 8 < length set.old }
    ensures was { IsTrue result ↔ IsInSet set.old number }
    ensures taken { IsTrue result → Takes number set.old set.new }
    ensures not_taken { (IsTrue result → ⊥) → set.new ≡ set.old }
    ensures len { length set.new ≡ length set.old }
{
    let there = has(set, number);
    if there {
        remove(set, number);
    }
    there
}

/// Counts the chunks, and marks the bodies of the manager's fixed ones. The error is the offset of
/// the first chunk that is not well-formed.
fn find_bodies(region: &Region, marks: &mut [u8]) -> Result<Bodies, u32>
    requires whole { region.now.lents ≡ [] }
    requires head { IsHead region.now.bytes }
    requires room { 524288 ≤ length marks.old }
    requires clear { HasNone marks.old }
    ensures found { IfOk result (FoundBodies region.now.bytes) }
    ensures marked { OnOk result (Marks marks.new (IsManagersAt region.now.bytes)) }
    ensures stuck { IfErr result (IsBadChunk region.now.bytes) }
    ensures len { length marks.new ≡ length marks.old }
{
    let mut found = Bodies::new();
    let mut at = area_start(region);
    while at as usize + HEADER_SIZE as usize <= region.len() {
        let Some((header, size)) = Header::read_with_size(region, at) else {
            return Err(at);
        };
        found.add(at, header, marks);
        at += size;
    }
    if (at as usize) < region.len() {
        return Err(at);
    }
    Ok(found)
}

/// Returns how many slots the table has whose body is at a place, if the body is marked and has a
/// table's shape. Then it takes the mark away.
fn take_table(region: &Region, place: u32, marks: &mut [u8]) -> Option<u32>
    requires whole { region.now.lents ≡ [] }
    requires small { length region.now.bytes < 2 ^ 24 }
    requires spelled { SpelledAll region.now.bytes (model_start region.now.bytes)
        (chunks_of region.now.bytes) (length region.now.bytes) }
    requires room { 524288 ≤ length marks.old }
    requires bodies { (word : ℕ) → IsInSet marks.old word → IsManagersAt region.now.bytes (4 * word) }
    ensures some { IfSome result (TakesTable region.now.bytes place marks.old marks.new) }
    ensures none { IfNone result (IsNoTable region.now.bytes place marks.old) }
    ensures len { length marks.new ≡ length marks.old }
{
    if place % HEADER_SIZE != 0
        || place as usize >= region.len()
        || !has(marks, place / SLOT_SIZE)
    {
        return None;
    }
    let length = live_fields(region, place - HEADER_SIZE).length;
    if length % SLOT_SIZE != 0 || length < NEXT_SIZE + SLOT_SIZE {
        return None;
    }
    take(marks, place / SLOT_SIZE);
    Some((length - NEXT_SIZE) / SLOT_SIZE)
}

/// Walks along the chain, and takes the mark of each table away. The error is the number of tables
/// before a word `next` that leads to no table, or to one again.
fn follow(region: &Region, marks: &mut [u8], bodies: Bodies) -> Result<Chain, u32>
    requires whole { region.now.lents ≡ [] }
    requires head { IsHead region.now.bytes }
    requires chained { is_chained region.now.bytes ≡ true }
    requires room { 524288 ≤ length marks.old }
    requires found { FoundBodies region.now.bytes bodies }
    requires marked { Marks marks.old (IsManagersAt region.now.bytes) }
    ensures followed { IfOk result (λ chain. Followed region.now.bytes chain marks.new) }
    ensures bad { IfErr result (IsBadTable region.now.bytes) }
    ensures len { length marks.new ≡ length marks.old }
{
    let mut chain = Chain {
        tables: 0,
        slots: slot_count(region) as u32,
    };
    let mut next = first_next(region);
    while next != 0 {
        let Some(count) = take_table(region, next, marks) else {
            return Err(chain.tables);
        };
        chain.tables += 1;
        chain.slots += count;
        next = region.get_u32(next as usize);
    }
    Ok(chain)
}

/// Returns whether the chunk at `at`, if it is fixed, is a caller's, or one of the manager's whose
/// body isn't marked. The body isn't marked afterwards.
#[inline]
fn take_unknown(at: u32, header: Header, marks: &mut [u8]) -> bool
    requires small { at + 8 < 2 ^ 24 }
    requires whole { at % 8 ≡ 0 }
    requires room { 524288 ≤ length marks.old }
    ensures known { IsTrue result ↔ IsUnmarkedBy marks.old at header }
    ensures taken { TakesMarks (λ place. ManagersBodyBy place at header) marks.old marks.new }
    ensures len { length marks.new ≡ length marks.old }
{
    match header {
        Header::Fixed { owner, .. } => {
            if owner == MANAGERS_OWNER {
                !take(marks, (at + HEADER_SIZE) / SLOT_SIZE)
            } else {
                owner < DATA_OWNER
            }
        }
        _ => true,
    }
}

/// Returns the first fixed chunk that has owner 15, or owner 0 and a mark. No body is marked
/// afterwards.
fn find_stray(region: &Region, marks: &mut [u8], bodies: Bodies, chain: Chain) -> Option<u32>
    requires whole { region.now.lents ≡ [] }
    requires tiles { Tiles region.now.bytes (chunks_of region.now.bytes) }
    requires room { 524288 ≤ length marks.old }
    requires found { FoundBodies region.now.bytes bodies }
    requires followed { Followed region.now.bytes chain marks.old }
    ensures first { IsFirstWithout (IsKnownIfFixed (further_tables region.now.bytes)) (model_start region.now.bytes)
        (chunks_of region.now.bytes) result }
    ensures clear { HasNone marks.new }
    ensures len { length marks.new ≡ length marks.old }
{
    if chain.tables == bodies.managers {
        return bodies.bad_owner;
    }
    let mut first = None;
    let mut at = area_start(region);
    while (at as usize) < region.len() {
        let (header, size) = Header::at_with_size(region, at);
        first = note(first, at, take_unknown(at, header, marks));
        at += size;
    }
    first
}

/// Marks a slot if it is in use.
#[inline]
fn mark_slot(region: &Region, slot: u32, marks: &mut [u8])
    requires has_table { HasTable region.now }
    requires slot { IsSlot region.now.bytes slot }
    requires room { slot / 32 < length marks.old }
    ensures added { AddsInUse region.now.bytes slot marks.old marks.new }
    ensures len { length marks.new ≡ length marks.old }
{
    if region.get_u32(slot as usize) != 0 {
        add(marks, slot / SLOT_SIZE);
    }
}

/// Marks the slots of a row that are in use.
fn mark_row(region: &Region, row: Row, marks: &mut [u8])
    requires whole { region.now.lents ≡ [] }
    requires tiles { Tiles region.now.bytes (chunks_of region.now.bytes) }
    requires row { IsRow region.now.bytes row }
    requires room { 524288 ≤ length marks.old }
    requires marked { MarksBefore region.now.bytes (row_start row) marks.old }
    ensures marked { MarksBefore region.now.bytes (row_end row) marks.new }
    ensures len { length marks.new ≡ length marks.old }
{
    let end = row.end();
    for number in row.start()..end {
        mark_slot(region, row.slot(region, number), marks);
    }
}

/// Marks all slots that are in use.
fn mark_slots(region: &Region, marks: &mut [u8])
    requires whole { region.now.lents ≡ [] }
    requires tiles { Tiles region.now.bytes (chunks_of region.now.bytes) }
    requires room { 524288 ≤ length marks.old }
    requires clear { HasNone marks.old }
    ensures marked { Marks marks.new (IsInUse region.now.bytes) }
    ensures len { length marks.new ≡ length marks.old }
{
    let mut row = Row::of(region);
    while !row.is_last() {
        mark_row(region, row, marks);
        row = row.behind(region);
    }
    mark_row(region, row, marks);
}

/// Returns whether the slot at this offset is marked and holds this place. If so, it takes the mark
/// away.
fn take_slot(region: &Region, marks: &mut [u8], slot: u32, place: u32) -> bool
    requires whole { region.now.lents ≡ [] }
    requires tiles { Tiles region.now.bytes (chunks_of region.now.bytes) }
    requires room { 524288 ≤ length marks.old }
    requires slots { (word : ℕ) → IsInSet marks.old word → IsSlot region.now.bytes (4 * word) }
    ensures held { IsTrue result ↔ HoldsMarked region.now.bytes slot place marks.old }
    ensures taken { IsTrue result → Takes (slot / 4) marks.old marks.new }
    ensures not_taken { (IsTrue result → ⊥) → marks.new ≡ marks.old }
    ensures len { length marks.new ≡ length marks.old }
{
    if slot % SLOT_SIZE != 0 || slot as usize >= region.len() || !has(marks, slot / SLOT_SIZE) {
        return false;
    }
    if region.get_u32(slot as usize) != place {
        return false;
    }
    take(marks, slot / SLOT_SIZE)
}

/// Returns whether the chunk at `at`, if it is movable, names a marked slot that holds its place.
/// If so, it takes the mark away.
#[inline]
fn take_named(region: &Region, at: u32, header: Header, marks: &mut [u8]) -> bool
    requires whole { region.now.lents ≡ [] }
    requires tiles { Tiles region.now.bytes (chunks_of region.now.bytes) }
    requires small { at + 8 < 2 ^ 24 }
    requires room { 524288 ≤ length marks.old }
    requires slots { (word : ℕ) → IsInSet marks.old word → IsSlot region.now.bytes (4 * word) }
    ensures named { IsTrue result ↔ NamesMarkedBy region.now.bytes marks.old at header }
    ensures taken { TakesMarks (λ slot. BodyBy slot (u32_at region.now.bytes slot) at header)
        marks.old marks.new }
    ensures len { length marks.new ≡ length marks.old }
{
    match header {
        Header::Movable { slot, .. } => take_slot(region, marks, slot, at + HEADER_SIZE),
        _ => true,
    }
}

/// Returns whether the directory was found before, or is this chunk: a movable one of the manager's
/// that names the directory word.
#[inline]
fn is_directory(found: bool, header: Header, word: u32) -> bool
    ensures { IsTrue result ↔ (IsTrue found ⊎ ManagersBy word header) }
{
    match header {
        Header::Movable { owner, slot, .. } => { found || owner == MANAGERS_OWNER && slot == word }
        _ => found,
    }
}

/// Takes the mark away from each slot that holds the place of a movable chunk that names it.
fn match_names(region: &Region, marks: &mut [u8]) -> Names
    requires whole { region.now.lents ≡ [] }
    requires tiles { Tiles region.now.bytes (chunks_of region.now.bytes) }
    requires room { 524288 ≤ length marks.old }
    requires marked { Marks marks.old (IsInUse region.now.bytes) }
    ensures without { IsFirstWithout (NamesItsSlot region.now.bytes) (model_start region.now.bytes)
        (chunks_of region.now.bytes) result.without_slot }
    ensures directory { IsTrue result.directory ↔ HasDirectory region.now.bytes (chunks_of region.now.bytes) }
    ensures left { Marks marks.new (IsLeft region.now.bytes) }
    ensures len { length marks.new ≡ length marks.old }
{
    let word = directory(region);
    let mut names = Names {
        without_slot: None,
        directory: word == 0,
    };
    let mut at = area_start(region);
    while (at as usize) < region.len() {
        let (header, size) = Header::at_with_size(region, at);
        let named = take_named(region, at, header, marks);
        names.without_slot = note(names.without_slot, at, named);
        names.directory = is_directory(names.directory, header, word);
        at += size;
    }
    names
}

/// Returns the first slot of a row that is marked.
fn first_marked(region: &Region, row: Row, marks: &[u8]) -> Option<u32>
    requires whole { region.now.lents ≡ [] }
    requires tiles { Tiles region.now.bytes (chunks_of region.now.bytes) }
    requires row { IsRow region.now.bytes row }
    requires room { 524288 ≤ length marks.now }
    requires left { Marks marks.now (IsLeft region.now.bytes) }
    requires earlier { HeldBefore region.now.bytes (row_start row) }
    ensures none { IfNone result (HeldBefore region.now.bytes (row_end row)) }
    ensures some { IfSome result
        (FirstOne (HoldsBody region.now.bytes (chunks_of region.now.bytes)) (slots_of region.now.bytes)) }
{
    let end = row.end();
    for number in row.start()..end {
        let slot = row.slot(region, number);
        if has(marks, slot / SLOT_SIZE) {
            return Some(slot);
        }
    }
    None
}

/// Returns the first slot that is marked.
fn find_left(region: &Region, marks: &[u8]) -> Option<u32>
    requires whole { region.now.lents ≡ [] }
    requires tiles { Tiles region.now.bytes (chunks_of region.now.bytes) }
    requires room { 524288 ≤ length marks.now }
    requires left { Marks marks.now (IsLeft region.now.bytes) }
    ensures none { IfNone result
        (EveryOne (HoldsBody region.now.bytes (chunks_of region.now.bytes)) (slots_of region.now.bytes)) }
    ensures some { IfSome result
        (FirstOne (HoldsBody region.now.bytes (chunks_of region.now.bytes)) (slots_of region.now.bytes)) }
{
    let mut row = Row::of(region);
    while !row.is_last() {
        if let Some(slot) = first_marked(region, row, marks) {
            return Some(slot);
        }
        row = row.behind(region);
    }
    first_marked(region, row, marks)
}

/// Checks the chunks, the tables and the slots after a right head. It is never inlined: next to its
/// code the walk over an image without a chain has too few registers.
#[inline(never)]
pub(crate) fn check_chained(region: &Region, marks: &mut [u8]) -> Result<Summary, HeapFault>
    requires whole { region.now.lents ≡ [] }
    requires head { IsHead region.now.bytes }
    requires chained { is_chained region.now.bytes ≡ true }
    requires room { 524288 ≤ length marks.old }
    requires clear { HasNone marks.old }
    ensures accepted { OnOk result (HeapAccepted region.now.bytes) }
    ensures summary { IfOk result (Summarizes region.now.bytes) }
    ensures fault { IfErr result (IsFirstHeapFault region.now.bytes) }
{
    let bodies = match find_bodies(region, marks) {
        Ok(bodies) => bodies,
        Err(at) => return Err(HeapFault::BadChunk(at)),
    };
    let chain = match follow(region, marks, bodies) {
        Ok(chain) => chain,
        Err(number) => return Err(HeapFault::BadTable(number)),
    };
    let stray = find_stray(region, marks, bodies, chain);
    mark_slots(region, marks);
    let names = match_names(region, marks);
    if let Some(slot) = find_left(region, marks) {
        return Err(HeapFault::SlotMismatch(slot));
    }
    if let Some(at) = names.without_slot {
        return Err(HeapFault::ChunkWithoutSlot(at));
    }
    if let Some(at) = stray {
        return Err(HeapFault::BadFixedOwner(at));
    }
    if !names.directory {
        return Err(HeapFault::BadDirectory);
    }
    Ok(Summary {
        size: region.len() as u32,
        slots: chain.slots,
        movable: bodies.movable,
        fixed: bodies.fixed,
        free: bodies.free,
    })
}
