//! Further tables that are remembered, so that a slot of theirs, and the end of the chain, are found
//! without a walk along it.
#![tactic(auto, using(crate::proofs::LentLaws::frame_of, crate::proofs::LentLaws::head_of))]

ghost use Rattle.std.specs.Prelude.{◌≡◌, ◌<◌, ◌+◌, ◌%◌, ◌^◌, ℕ, List, IfSome};
ghost use Rattle.std.specs.Bool.{OnTrue};
ghost use Rattle.heap_model.specs.Lending.{LendsBodies};
ghost use Rattle.heap_model.specs.Slots.{IsSlot, further_tables, slots_total as model_total};
ghost use Rattle.heap_model.specs.Heap.{IsTablePlace};
ghost use Rattle.master_table.specs.Table.{IsTiled, IsStart, IsLastStart};
ghost use Rattle.master_table.specs.Known.{KnowsTables, KnowsNone, RemembersPlace, IsWordOf, entry_of_block};

use crate::distances::{distance, words};
use crate::slots::{TableStart, last_row};
use crate::table::slots_from;
use chunk_format::{HEADER_SIZE, SLOT_SIZE, TABLE_LENGTH, first_next, live_fields};
use heap_model::Place;
use raw_region::Region;
use std::marker::Model;

/// The greatest number of tables that are remembered.
const REMEMBERED_TABLES: usize = 16_384;

/// An image is divided into blocks of this many bytes. The slots of a table of 15 lie in the block
/// in which its body begins, and in the next one.
const BLOCK_SIZE: u32 = TABLE_LENGTH;

/// A table may be in one of this many entries after that of its block, if all entries before are
/// taken.
const REACH: u32 = 7;

/// As many slots of each remembered table are found.
const SLOTS: u32 = TABLE_LENGTH / SLOT_SIZE - 1;

/// The places of further tables that have 15 slots or more. Each is in the entry of the block in
/// which its body begins, or in one of the next seven entries. An entry without a place is 0.
/// Also a table from which few steps along the chain lead to the last one.
#[derive(Drop)]
pub struct KnownTables {
    /// The last entry is of no block, and stays 0.
    places: [u32; REMEMBERED_TABLES + 1],
    /// The table that was the last of the chain when the last one was looked for.
    latest: TableStart,
}

impl Model for KnownTables {
    ghost use Rattle.master_table.specs.Known.{Remembered};

    ghost Value = { Remembered };

    ghost view = { λ known. record { places = known.places; latest = known.latest } };
}

impl KnownTables {
    /// Remembers no table.
    pub fn none() -> KnownTables
        ensures { (image : List ℕ) → KnowsTables image result }
    {
        KnownTables {
            places: no_places(),
            latest: TableStart::first(),
        }
    }

    /// Remembers the tables of a chain, in one walk along it, and the last one, in another. It
    /// leaves a table out of the entries if the table has fewer than 15 slots, or if others are in
    /// all entries that it may be in.
    pub fn of(region: &Region) -> KnownTables
        requires tiled { IsTiled region.now.bytes }
        requires lent { LendsBodies region.now }
        ensures { KnowsTables region.now.bytes result }
    {
        let mut known = KnownTables::none();
        let mut next = first_next(region);
        while next != 0 {
            known.add(region, next);
            next = region.get_u32(next as usize);
        }
        known.move_to_last(region);
        known
    }

    /// Returns how many slots there are. It walks only along the tables after the one that was the
    /// last when the last one was looked for.
    pub fn slots_total(&self, region: &Region) -> u32
        requires tiled { IsTiled region.now.bytes }
        requires lent { LendsBodies region.now }
        requires knows { KnowsTables region.now.bytes self.now }
        ensures { result ≡ model_total region.now.bytes }
    {
        slots_from(region, self.latest)
    }

    /// Looks for the last table and remembers its start, which it returns. It walks as
    /// `slots_total` does.
    pub fn move_to_last(&mut self, region: &Region) -> TableStart
        requires tiled { IsTiled region.now.bytes }
        requires lent { LendsBodies region.now }
        requires knows { KnowsTables region.now.bytes self.old }
        ensures knows { KnowsTables region.now.bytes self.new }
        ensures start { IsStart region.now.bytes result }
        ensures last { IsLastStart region.now.bytes result }
        ensures latest { self.new.latest ≡ result }
    {
        let last = last_row(region, self.latest).table();
        self.latest = last;
        last
    }

    /// Remembers a further table of an image if it has 15 slots or more.
    fn add(&mut self, region: &Region, place: u32)
        requires tiled { IsTiled region.now.bytes }
        requires lent { LendsBodies region.now }
        requires table { IsTablePlace (further_tables region.now.bytes) place }
        requires knows { KnowsTables region.now.bytes self.old }
        ensures { KnowsTables region.now.bytes self.new }
    {
        if live_fields(region, place - HEADER_SIZE).length >= TABLE_LENGTH {
            self.remember(Place(place));
        }
    }

    /// Remembers a table of 15 slots or more by its place, unless others are in all entries that it
    /// may be in.
    pub fn remember(&mut self, place: Place)
        ensures { RemembersPlace self.old self.new place.0 }
    {
        if let Some(entry) = self.free_entry(place.0 / BLOCK_SIZE) {
            self.places[entry] = place.0;
        }
    }

    /// The first empty entry in which a table of a block may be.
    fn free_entry(&self, block: u32) -> Option<usize>
        requires { block < 2 ^ 31 }
        ensures { IfSome result (λ entry. entry < 16384) }
    {
        for step in 0..=REACH {
            let entry = entry_of_block(block + step);
            if self.places[entry] == 0 {
                return Some(entry);
            }
        }
        None
    }

    /// Returns whether one of the first 15 slots of a table is at an offset, for a table in the
    /// entry of its block. The table's body begins in the same block as the slot, or in the block
    /// before. It doesn't find a table that begins in the same block if the entry of this is the
    /// first.
    #[inline]
    pub(crate) fn has_slot(&self, slot: u32) -> bool
        ensures { OnTrue result
            ((image : List ℕ) → KnowsTables image self.now → IsSlot image slot) }
    {
        if slot < BLOCK_SIZE {
            return false;
        }
        let before = entry_of_block(slot / BLOCK_SIZE - 1);
        let word = slot - SLOT_SIZE;
        let here = distance(self.places[before + 1], word);
        let least = here.min(distance(self.places[before], word));
        words(least) < SLOTS
    }

    /// Returns whether one of the first 15 slots of a remembered table is at an offset, in
    /// whichever entry the table is.
    pub(crate) fn has_slot_further_on(&self, slot: u32) -> bool
        ensures { OnTrue result
            ((image : List ℕ) → KnowsTables image self.now → IsSlot image slot) }
    {
        let before = slot / BLOCK_SIZE + (REMEMBERED_TABLES as u32 - 1);
        for step in 0..=REACH + 1 {
            if is_word_of(self.places[entry_of_block(before + step)], slot) {
                return true;
            }
        }
        false
    }
}

/// Entries without a place.
#[inline]
#[tactic(none)]
fn no_places() -> [u32; REMEMBERED_TABLES + 1]
    ensures { KnowsNone result }
{
    [0; REMEMBERED_TABLES + 1]
}

/// The entry of a block.
#[inline]
fn entry_of_block(block: u32) -> usize
    ensures is { result ≡ entry_of_block block }
    ensures below { result < REMEMBERED_TABLES }
{
    block as usize % REMEMBERED_TABLES
}

/// Returns whether the word at an offset is one of the 15 after the first word of a body. The place
/// 0 is that of no body.
#[inline]
fn is_word_of(place: u32, slot: u32) -> bool
    ensures { OnTrue result (IsWordOf place slot) }
{
    place != 0 && place < slot && slot - place < BLOCK_SIZE && (slot - place) % SLOT_SIZE == 0
}
