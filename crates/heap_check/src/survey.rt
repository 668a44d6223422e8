//! The one walk over the chunks.
#![tactic(auto, using(laws_heap::proofs::Lending::all_misses, laws_heap::proofs::Lending::all_within, laws_heap::proofs::Lending::part_within))]

ghost use Rattle.std.specs.Prelude.{[], ◌≡◌, ◌≢◌, ◌≤◌, ◌<◌, ◌+◌, ◌^◌, false, length, map, IfSome, IfNone, OnSome, IfOk, IfErr, OnOk, None};
ghost use Rattle.heap_model.specs.Bytes.{u32_at};
ghost use Rattle.heap_model.specs.Slots.{HasTable, IsSlot, StandsBehind, slots_total, area_start as model_start};
ghost use Rattle.heap_check.specs.Faults.{IsBadChunk};
ghost use Rattle.master_table.specs.Table.{IsOneTable};
ghost use Rattle.heap_check.specs.Owners.{NoneMarked};
ghost use Rattle.heap_check.specs.Survey.{noted, holds_place, AddsMark, IsHolder, AreNoted, KeepsBeyond, IsSurvey};

use crate::marks::Mark;
use chunk_format::{DATA_OWNER, HEADER_SIZE, Header, MANAGERS_OWNER, area_start};
use master_table::OneTable;
use raw_region::Region;

/// The results of a walk so far: the number of chunks of each kind, the free bytes, and the offsets
/// of the first chunks with each fault that is tested later.
#[derive(Clone, Copy)]
pub(crate) struct Survey {
    pub(crate) movable: u32,
    pub(crate) fixed: u32,
    pub(crate) free: u32,
    pub(crate) without_slot: Option<u32>,
    pub(crate) bad_owner: Option<u32>,
}

/// Returns the first offset that failed a test, after the test of the chunk at `at`.
#[inline]
pub(crate) fn note(first: Option<u32>, at: u32, right: bool) -> Option<u32>
    ensures { result ≡ noted first at right }
{
    if right { first } else { note_wrong(first, at) }
}

/// Returns the same if the test failed. It is a function of its own so that the walk, which seldom
/// calls it, keeps no register for it.
#[cold]
#[inline(never)]
fn note_wrong(first: Option<u32>, at: u32) -> Option<u32>
    ensures { result ≡ noted first at false }
{
    match first {
        Some(_) => first,
        None => Some(at),
    }
}

/// Returns the number of the slot at this offset, if one is there and holds the place of the chunk
/// at `at`.
#[inline]
fn holder_of(region: &Region, table: OneTable, slot: u32, at: u32) -> Option<u32>
    requires has_table { HasTable region.now }
    requires table { IsOneTable region.now.bytes table }
    requires small { at < 2 ^ 24 }
    ensures below { IfSome result (λ number. number < slots_total region.now.bytes) }
    ensures number { IfSome result (StandsBehind region.now.bytes slot) }
    ensures holds { OnSome result (u32_at region.now.bytes slot ≡ at + HEADER_SIZE) }
    ensures none { IfNone result (IsSlot region.now.bytes slot
        → u32_at region.now.bytes slot ≢ at + HEADER_SIZE) }
{
    let number = table.number(slot)?;
    if region.get_u32(slot as usize) != at + HEADER_SIZE {
        return None;
    }
    Some(number)
}

/// Gives this mark to the slot at an offset, if one is there and holds the place of the chunk at
/// `at`. Returns whether it did.
#[inline]
fn mark_holder<M: Mark>(
    region: &Region,
    table: OneTable,
    slot: u32,
    at: u32,
    mark: M,
    marks: &mut [M],
) -> bool
    requires has_table { HasTable region.now }
    requires table { IsOneTable region.now.bytes table }
    requires small { at < 2 ^ 24 }
    requires room { slots_total region.now.bytes ≤ length marks.old }
    ensures holds { result ≡ holds_place region.now.bytes slot at }
    ensures marked { AddsMark region.now.bytes
        (IsHolder region.now.bytes slot at) (M.says mark)
        (map M.says marks.old) (map M.says marks.new) }
{
    match holder_of(region, table, slot, at) {
        Some(number) => {
            marks[number as usize] = mark;
            true
        }
        None => false,
    }
}

impl Survey {
    ghost use Rattle.heap_check.specs.Survey.{movable_by, fixed_by, free_by, names_by, callers_by, MarksBody, Surveys};
    ghost use Rattle.std.specs.Prelude.{[], None};

    /// Returns the survey of no chunks.
    fn new() -> Survey
        ensures movable { result.movable ≡ 0 }
        ensures fixed { result.fixed ≡ 0 }
        ensures free { result.free ≡ 0 }
        ensures without_slot { result.without_slot ≡ None }
        ensures bad_owner { result.bad_owner ≡ None }
    {
        Survey {
            movable: 0,
            fixed: 0,
            free: 0,
            without_slot: None,
            bad_owner: None,
        }
    }

    /// Adds the chunk at `at`, and marks the slot that holds its place.
    #[inline]
    fn add<M: Mark>(
        &mut self,
        region: &Region,
        at: u32,
        header: Header,
        table: OneTable,
        marks: &mut [M],
    )
        requires has_table { HasTable region.now }
        requires table { IsOneTable region.now.bytes table }
        requires small { at < 2 ^ 24 }
        requires counts { self.old.movable + self.old.fixed + self.old.free + free_by header
            < 2 ^ 25 }
        requires room { slots_total region.now.bytes ≤ length marks.old }
        ensures movable { self.new.movable ≡ self.old.movable + movable_by header }
        ensures fixed { self.new.fixed ≡ self.old.fixed + fixed_by header }
        ensures free { self.new.free ≡ self.old.free + free_by header }
        ensures without_slot { self.new.without_slot
            ≡ noted self.old.without_slot at (names_by region.now.bytes at header) }
        ensures bad_owner { self.new.bad_owner ≡ noted self.old.bad_owner at (callers_by header) }
        ensures marked { MarksBody M.notes region.now.bytes at header
            (map M.says marks.old) (map M.says marks.new) }
    {
        match header {
            Header::Free { size } => self.free += size,
            Header::Movable { owner, slot, .. } => {
                self.movable += 1;
                let holds = mark_holder(region, table, slot, at, M::of(owner), marks);
                self.without_slot = note(self.without_slot, at, holds);
            }
            Header::Fixed { owner, .. } => {
                self.fixed += 1;
                self.bad_owner = note(
                    self.bad_owner,
                    at,
                    MANAGERS_OWNER < owner && owner < DATA_OWNER,
                );
            }
        }
    }
}

/// Walks over the chunks of an image with this table, and marks each slot that holds the place of a
/// chunk which names it.
///
/// # Errors
/// The offset of the first chunk that is not well-formed, or of a rest at the end that is shorter
/// than a header.
pub(crate) fn survey_chunks<M: Mark>(
    region: &Region,
    table: OneTable,
    marks: &mut [M],
) -> Result<Survey, u32>
    requires small { length region.now.bytes < 2 ^ 24 }
    requires whole { region.now.lents ≡ [] }
    requires has_table { HasTable region.now }
    requires table { IsOneTable region.now.bytes table }
    requires inside { model_start region.now.bytes ≤ length region.now.bytes }
    requires room { slots_total region.now.bytes ≤ length marks.old }
    requires clear { NoneMarked (map M.says marks.old) }
    ensures surveyed { IfOk result (λ survey. IsSurvey region.now.bytes survey (map M.says marks.new)) }
    ensures noted { OnOk result (AreNoted M.notes region.now.bytes (map M.says marks.new)) }
    ensures beyond { KeepsBeyond region.now.bytes (map M.says marks.old) (map M.says marks.new) }
    ensures len { length marks.new ≡ length marks.old }
    ensures stuck { IfErr result (IsBadChunk region.now.bytes) }
{
    let mut survey = Survey::new();
    let mut at = area_start(region);
    while at as usize + HEADER_SIZE as usize <= region.len() {
        let Some((header, size)) = Header::read_with_size(region, at) else {
            return Err(at);
        };
        survey.add(region, at, header, table, marks);
        at += size;
    }
    if (at as usize) < region.len() {
        return Err(at);
    }
    Ok(survey)
}
