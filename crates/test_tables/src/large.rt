//! The largest images: with as many tables as there can be, and with one table of as many slots.
#![tactic(auto, using(laws_heap::proofs::Lending::all_within))]

ghost use Rattle.std.specs.Prelude.{[], ◌≡◌, IfOk};

use crate::chains::counted;
use crate::images::{TABLE, image, put_word, put_words};
use heap_check::{HeapFault, check_heap};
use raw_region::Region;
use std::alloc::Global;
use std::test::*;
use store_check::check_store;
use test_support::equal;

/// The most bytes of an image.
const MOST_WITH_TABLES: u32 = 16_777_208;

/// How many chunks of 16 bytes the largest image has after the head.
const TABLES: u32 = 1_048_574;

/// How many an image has whose faults are looked for.
const SOME_TABLES: u32 = 100_000;

/// The place of the table of a number, from 0.
fn place_of(number: u32) -> u32 {
    number.saturating_mul(16).saturating_add(32)
}

/// An image full of the given number of tables of one slot. Each leads to the one before it, so
/// that the chain begins at the last.
fn many_tables(alloc: Global, count: u32) -> Result<Region, Fail>
    ensures { IfOk result (λ region. region.lents ≡ []) }
{
    let last = place_of(count.saturating_sub(1));
    let mut region = image(alloc, last.saturating_add(8), &[(20, last)])?;
    for number in 0..count {
        let at = place_of(number);
        let next = if number == 0 {
            0
        } else {
            at.saturating_sub(16)
        };
        put_word(&mut region, at.saturating_sub(8), 16)?;
        put_word(&mut region, at.saturating_sub(4), TABLE)?;
        put_word(&mut region, at, next)?;
    }
    Ok(region)
}

#[test]
fn the_largest_image_is_full_of_tables(rt: HostRuntime) -> Result<(), Fail> {
    let region = many_tables(rt.alloc(), TABLES)?;
    let right = [MOST_WITH_TABLES, TABLES + 1, 0, TABLES, 0];
    equal("tables", counted(check_heap(&region)), Ok(right))
}

#[test]
fn a_long_chain_has_faults(rt: HostRuntime) -> Result<(), Fail> {
    let mut region = many_tables(rt.alloc(), SOME_TABLES)?;
    // the last table leads to the first of them
    put_word(&mut region, 32, place_of(SOME_TABLES - 1))?;
    let fault = HeapFault::BadTable(SOME_TABLES);
    equal("a loop", counted(check_heap(&region)), Err(fault))?;
    // the one before it leads to nothing
    put_words(&mut region, &[(32, 0), (48, 0)])?;
    let fault = HeapFault::BadFixedOwner(24);
    equal("a stray table", counted(check_heap(&region)), Err(fault))
}

/// How many slots a table has that takes the whole image, but for a chunk of no bytes after it.
const LARGE_TABLE_SLOTS: u32 = 4_194_291;

/// The place of that chunk.
const LAST: u32 = MOST_WITH_TABLES;

/// An image with a table of as many slots as there can be, whose last one holds the place of a
/// chunk of no bytes.
fn many_slots(alloc: Global) -> Result<Region, Fail>
    ensures { IfOk result (λ region. region.lents ≡ []) }
{
    let size = MOST_WITH_TABLES - 8 - 24;
    let slot = 32 + 4 * LARGE_TABLE_SLOTS;
    let words = [
        (20, 32),
        (24, size),
        (28, TABLE),
        (slot, LAST),
        (MOST_WITH_TABLES - 8, 8),
        (MOST_WITH_TABLES - 4, 0x01FF_FFFE),
    ];
    image(alloc, MOST_WITH_TABLES, &words)
}

#[test]
fn a_table_has_millions_of_slots(rt: HostRuntime) -> Result<(), Fail> {
    let mut region = many_slots(rt.alloc())?;
    let right = [MOST_WITH_TABLES, LARGE_TABLE_SLOTS + 1, 1, 1, 0];
    equal("slots", counted(check_heap(&region)), Ok(right))?;
    match check_store(&rt.alloc(), &region) {
        Ok(summary) => equal("databases", summary.databases, 0)?,
        Err(fault) => return Err(fault)?,
    }
    put_word(&mut region, 32 + 4 * LARGE_TABLE_SLOTS, 0)?;
    let fault = HeapFault::ChunkWithoutSlot(MOST_WITH_TABLES - 8);
    equal("an empty slot", counted(check_heap(&region)), Err(fault))
}
