//! The number of the database that names a slot, for all slots.
#![tactic(auto, using(laws_heap::proofs::Lending::all_within, laws_heap::proofs::Lending::all_misses))]

ghost use Rattle.std.specs.Prelude.{◌≡◌, ◌<◌, ◌≤◌, ◌*◌, [], ◌∷◌, length, IfOk, OnErr};
ghost use Rattle.heap_model.specs.Database.{data_in, database_in};
ghost use Rattle.heap_model.specs.Heap.{HeapAccepted};
ghost use Rattle.heap_model.specs.Slots.{slot_size};
ghost use Rattle.heap_model.specs.Store.{Accepted};
ghost use Rattle.db_format.specs.Headers.{AreWholeBytes};
ghost use Rattle.store_check.specs.Naming.{AreEnoughMarks};
ghost use Rattle.heap_map.specs.Numbers.{database_number, HasNumbers, NotesSlots};

use crate::reading::{directory_in, header_in};
use allowance::{Allowance, filled};
use chunk_format::{SLOT_SIZE, is_chained, slot_count};
use db_format::{DbEntry, app_info, entry_count, sort_info};
use heap_check::{mark_number, marks_needed};
use raw_region::Region;
use std::alloc::AllocError;

/// Gives a slot a number. A word that can't be a slot gets none.
#[inline]
fn note(slot: u32, number: u16, table: &mut [u16])
    ensures { NotesSlots (slot ∷ []) number table.old table.new }
{
    if let Some(word) = mark_number(slot) {
        if (word as usize) < table.len() {
            table[word as usize] = number;
        }
    }
}

/// Gives each slot that a database names a number.
fn note_database(header: &[u8], number: u16, table: &mut [u16])
    requires { AreWholeBytes header.now }
    ensures { NotesSlots (data_in (database_in header.now)) number table.old table.new }
{
    note(app_info(header), number, table);
    note(sort_info(header), number, table);
    for index in 0..entry_count(header) {
        note(DbEntry::read(header, index).slot(), number, table);
    }
}

/// Gives each slot the number of the database that names it.
fn note_databases(region: &Region, table: &mut [u16])
    requires whole { region.now.lents ≡ [] }
    requires accepted { Accepted region.now.bytes }
    requires clear { HasNumbers (λ slot. 0) table.old }
    ensures { HasNumbers (database_number region.now.bytes) table.new }
{
    let directory = directory_in(region);
    let count = directory.len() / SLOT_SIZE as usize;
    for db in 0..count {
        let header = header_in(region, directory, db);
        note_database(header, db as u16 + 1, table);
    }
}

/// Returns how many words of an image can be slots: those of an only table, and with a chain of
/// tables all words.
fn word_count(region: &Region) -> usize
    requires whole { region.now.lents ≡ [] }
    requires accepted { HeapAccepted region.now.bytes }
    ensures room { AreEnoughMarks region.now.bytes result }
    ensures most { slot_size * result ≤ length region.now.bytes }
{
    if is_chained(region) {
        marks_needed(region)
    } else {
        slot_count(region) as usize
    }
}

/// Returns the number of the database that names it, or 0, for each word of an image that can be a
/// slot.
pub fn database_numbers<A: Allowance>(memory: &A, region: &Region) -> Result<Vec<u16>, AllocError>
    requires whole { region.now.lents ≡ [] }
    requires accepted { Accepted region.now.bytes }
    ensures numbers { IfOk result (λ table. HasNumbers (database_number region.now.bytes) table.items) }
    ensures room { IfOk result (λ table. AreEnoughMarks region.now.bytes (length table.items)) }
    ensures short { OnErr result (A.is_short memory.now) }
{
    let mut table = filled(memory, 0u16, word_count(region))?;
    note_databases(region, &mut table);
    Ok(table)
}
