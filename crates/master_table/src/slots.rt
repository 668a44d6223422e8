//! Slots in rows: those of the first table, and those of each further one along the chain.
#![tactic(auto, using(crate::proofs::LentLaws::frame_of, crate::proofs::LentLaws::head_of))]

ghost use Rattle.std.specs.Prelude.{◌≡◌, ◌≢◌, ◌<◌, ◌≤◌, ◌==◌, ◌+◌, ◌^◌, ℕ, List, IfSome, IfNone, true, false};
ghost use Rattle.heap_model.specs.Bytes.{u32_at};
ghost use Rattle.heap_model.specs.Frame.{HasFrame};
ghost use Rattle.heap_model.specs.Lending.{LendsBodies};
ghost use Rattle.heap_model.specs.Slots.{IsSlot, StandsBehind, StandsIn, slots_in_row, is_chained};
ghost use Rattle.master_table.specs.Table.{IsTiled, IsStart, IsLastStart, IsRow, next_word};

use crate::distances::{distance, words};
use chunk_format::{
    FRAME_SIZE, HEADER_SIZE, NEXT_SIZE, SLOT_SIZE, first_next, head_end, live_fields, slot_count,
};
use raw_region::Region;

/// The start of a table: its place, or 0 for the first table, and how many slots come before its
/// own. A start stays valid as long as the image has the same tables, or more.
#[derive(Clone, Copy, Debug, PartialEq, Eq)]
pub struct TableStart {
    place: u32,
    before: u32,
}

impl TableStart {
    /// Returns the start of the first table.
    pub fn first() -> TableStart
        ensures { (image : List ℕ) → IsStart image result }
    {
        TableStart {
            place: 0,
            before: 0,
        }
    }

    /// Returns the offset of the word `next` of the table, in an image that has a chain.
    pub(crate) fn next_word(self, region: &Region) -> u32
        requires tiled { IsTiled region.now.bytes }
        requires chained { is_chained region.now.bytes ≡ true }
        requires lent { LendsBodies region.now }
        ensures { result ≡ next_word region.now.bytes self.place }
    {
        if self.place == 0 {
            head_end(region) - NEXT_SIZE
        } else {
            self.place
        }
    }
}

/// The slots of one table: its place, or 0 for the first table, the offset of its first slot, and
/// how many slots it has. Also how many slots come before them in the list, and the word `next`
/// that leads to the next table, or 0.
#[derive(Clone, Copy)]
pub struct Row {
    place: u32,
    first: u32,
    count: u32,
    before: u32,
    next: u32,
}

impl Row {
    ghost use Rattle.master_table.specs.Table.{row_start, row_end, Behind};

    /// Returns the slots of the first table.
    #[inline]
    pub fn of(region: &Region) -> Row
        requires tiled { IsTiled region.now.bytes }
        requires lent { LendsBodies region.now }
        ensures row { IsRow region.now.bytes result }
        ensures start { row_start result ≡ 0 }
    {
        Row {
            place: 0,
            first: FRAME_SIZE,
            count: slot_count(region) as u32,
            before: 0,
            next: first_next(region),
        }
    }

    /// Returns the slots of a table of the image.
    #[inline]
    pub(crate) fn at(region: &Region, start: TableStart) -> Row
        requires tiled { IsTiled region.now.bytes }
        requires lent { LendsBodies region.now }
        requires start { IsStart region.now.bytes start }
        ensures row { IsRow region.now.bytes result }
        ensures start { row_start result ≡ start.before }
    {
        if start.place == 0 {
            return Row::of(region);
        }
        let fields = live_fields(region, start.place - HEADER_SIZE);
        Row {
            place: start.place,
            first: start.place + NEXT_SIZE,
            count: (fields.length - NEXT_SIZE) / SLOT_SIZE,
            before: start.before,
            next: region.get_u32(start.place as usize),
        }
    }

    /// Returns the start of their table.
    #[inline]
    pub(crate) fn table(self) -> TableStart
        ensures start { (image : List ℕ) → IsRow image self → IsStart image result }
        ensures last { (image : List ℕ) → IsRow image self → self.next ≡ 0
            → IsLastStart image result }
    {
        TableStart {
            place: self.place,
            before: self.before,
        }
    }

    /// Returns how many slots come before these in the list.
    #[inline]
    pub fn start(self) -> u32
        ensures { result ≡ row_start self }
    {
        self.before
    }

    /// Returns how many slots the list has up to the last of these.
    #[inline]
    pub fn end(self) -> u32
        requires { row_end self < 2 ^ 32 }
        ensures { result ≡ row_end self }
    {
        self.before + self.count
    }

    /// Returns how many slots the table has.
    #[inline]
    pub(crate) fn count(self) -> u32
        ensures { row_start self + result ≡ row_end self }
    {
        self.count
    }

    /// Returns the word of the slot with an index in the table: a place, or 0 if it is empty. It
    /// computes the offset as a `usize` throughout, so that a loop over the index needs no second
    /// counter.
    #[inline]
    pub(crate) fn word(self, region: &Region, index: u32) -> u32
        requires tiled { IsTiled region.now.bytes }
        requires lent { LendsBodies region.now }
        requires row { IsRow region.now.bytes self }
        requires below { row_start self + index < row_end self }
        ensures { (slot : ℕ) → StandsBehind region.now.bytes slot (row_start self + index)
            → result ≡ u32_at region.now.bytes slot }
    {
        region.get_u32(self.first as usize + SLOT_SIZE as usize * index as usize)
    }

    /// Returns whether their table is the last of the chain.
    #[inline]
    pub fn is_last(self) -> bool
        ensures { result ≡ (self.next == 0) }
    {
        self.next == 0
    }

    /// Returns the slots of the next table.
    #[inline]
    pub fn behind(self, region: &Region) -> Row
        requires tiled { IsTiled region.now.bytes }
        requires lent { LendsBodies region.now }
        requires row { IsRow region.now.bytes self }
        requires more { self.next ≢ 0 }
        ensures { Behind region.now.bytes self result }
    {
        let fields = live_fields(region, self.next - HEADER_SIZE);
        Row {
            place: self.next,
            first: self.next + NEXT_SIZE,
            count: (fields.length - NEXT_SIZE) / SLOT_SIZE,
            before: self.before + self.count,
            next: region.get_u32(self.next as usize),
        }
    }

    /// Returns the offset of the slot with a number. The number counts the slots before it in the
    /// list.
    #[inline]
    pub fn slot(self, region: &Region, number: u32) -> u32
        requires tiled { IsTiled region.now.bytes }
        requires row { IsRow region.now.bytes self }
        requires from { row_start self ≤ number }
        requires below { number < row_end self }
        ensures { StandsBehind region.now.bytes result number }
    {
        self.first + SLOT_SIZE * (number - self.before)
    }

    /// Returns how many slots come before the one at an offset in the list, if it is one of these.
    /// One comparison tests all.
    #[inline]
    pub fn number(self, region: &Region, slot: u32) -> Option<u32>
        requires tiled { IsTiled region.now.bytes }
        requires row { IsRow region.now.bytes self }
        ensures some { IfSome result (StandsBehind region.now.bytes slot) }
        ensures none { IfNone result (StandsIn (slots_in_row self.first self.count) slot → ⊥) }
    {
        let index = words(distance(self.first, slot));
        if index >= self.count {
            return None;
        }
        Some(self.before + index)
    }
}

/// Returns the slots of the last table of the chain. It walks from a table of the chain on.
pub(crate) fn last_row(region: &Region, start: TableStart) -> Row
    requires tiled { IsTiled region.now.bytes }
    requires lent { LendsBodies region.now }
    requires start { IsStart region.now.bytes start }
    ensures row { IsRow region.now.bytes result }
    ensures last { result.next ≡ 0 }
{
    let mut row = Row::at(region, start);
    while !row.is_last() {
        row = row.behind(region);
    }
    row
}

/// Returns how many slots come before the one at an offset in the list, if a slot is there. It
/// walks along the tables up to the one that has the slot.
pub(crate) fn find_number(region: &Region, slot: u32) -> Option<u32>
    requires tiled { IsTiled region.now.bytes }
    requires lent { LendsBodies region.now }
    ensures some { IfSome result (StandsBehind region.now.bytes slot) }
    ensures none { IfNone result (IsSlot region.now.bytes slot → ⊥) }
{
    let mut row = Row::of(region);
    while !row.is_last() {
        if let Some(number) = row.number(region, slot) {
            return Some(number);
        }
        row = row.behind(region);
    }
    row.number(region, slot)
}

/// The slots of an image that has no chain of tables, read once for a caller that asks often.
#[derive(Clone, Copy)]
pub struct OneTable {
    count: u16,
}

impl OneTable {
    ghost use Rattle.master_table.specs.Table.{IsOneTable, count_of};

    /// Reads the table of an image.
    #[inline]
    pub fn of(region: &Region) -> OneTable
        requires frame { HasFrame region.now }
        requires plain { is_chained region.now.bytes ≡ false }
        ensures { IsOneTable region.now.bytes result }
    {
        OneTable {
            count: slot_count(region),
        }
    }

    /// Returns how many slots there are.
    #[inline]
    pub fn count(self) -> u32
        ensures { result ≡ count_of self }
    {
        self.count as u32
    }

    /// Returns the offset of the slot with a number. The number counts the slots before it.
    #[inline]
    pub fn slot(self, number: u32) -> u32
        requires { number < count_of self }
        ensures { (image : List ℕ) → IsOneTable image self → StandsBehind image result number }
    {
        FRAME_SIZE + SLOT_SIZE * number
    }

    /// Returns how many slots come before the one at an offset, if a slot is there.
    #[inline]
    pub fn number(self, slot: u32) -> Option<u32>
        ensures below { IfSome result (λ number. number < count_of self) }
        ensures some { IfSome result
            (λ number. (image : List ℕ) → IsOneTable image self → StandsBehind image slot number) }
        ensures none { IfNone result
            ((image : List ℕ) → IsOneTable image self → IsSlot image slot → ⊥) }
    {
        if slot < FRAME_SIZE || slot >= FRAME_SIZE + SLOT_SIZE * self.count() {
            return None;
        }
        if slot % SLOT_SIZE != 0 {
            return None;
        }
        Some((slot - FRAME_SIZE) / SLOT_SIZE)
    }
}
