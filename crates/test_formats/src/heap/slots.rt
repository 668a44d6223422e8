//! Slots of an only table.
#![tactic(auto, using(laws_heap::proofs::Lending::all_within, laws_heap::proofs::LentBodies::none_lends))]

ghost use Rattle.std.specs.Prelude.{[], ◌≡◌, None};
ghost use Rattle.heap_model.specs.Heap.{HeapAccepted};

use crate::heap::frames::frame_of;
use crate::heap::heaps::image;
use chunk_format::is_chained;
use heap_check::check_heap;
use heap_model::{Name, Place};
use master_table::{
    EmptySlot, OneTable, TableStart, clear, first_empty_slot, resolve, set, slots_before,
};
use raw_region::Region;
use std::alloc::Global;
use std::test::*;
use test_support::equal;

/// An offset, how many slots there are, and the number of the slot that stands there.
static SLOTS: [(u32, u16, Option<u32>); 10] = [
    (16, 4, Some(0)),
    (28, 4, Some(3)),
    (262_152, 65_535, Some(65_534)),
    // before the table, after it, between two slots, and where there are none
    (0, 4, None),
    (12, 4, None),
    (32, 4, None),
    (u32::MAX, 65_535, None),
    (17, 4, None),
    (18, 4, None),
    (16, 0, None),
];

#[test]
fn slots_stand_behind_16_bytes(rt: HostRuntime) -> Result<(), Fail> {
    for (slot, slots, number) in &SLOTS {
        check_slot(rt.alloc(), *slot, *slots, *number)?;
    }
    Ok(())
}

fn check_slot(alloc: Global, slot: u32, slots: u16, number: Option<u32>) -> Result<(), Fail> {
    let region = frame_of(alloc, slots)?;
    if is_chained(&region) {
        return Err("a chain")?;
    }
    let table = OneTable::of(&region);
    let found = (table.count(), table.number(slot), slot_of(table, number));
    equal(
        format_args!("slot {slot} of {slots}"),
        found,
        (u32::from(slots), number, number.and(Some(slot))),
    )
}

/// The slot of a number, if the table has more slots than that.
fn slot_of(table: OneTable, number: Option<u32>) -> Option<u32> {
    let number = number?;
    if number >= table.count() {
        return None;
    }
    Some(table.slot(number))
}

/// The words of a heap whose slots 16 and 28 are in use, by chunks of no bytes at 32 and 40.
static FIRST_AND_LAST: [(usize, u32); 7] = [
    (16, 40),
    (28, 48),
    (32, 8),
    (36, 0x01FF_FFF8),
    (40, 8),
    (44, 0x01FF_FFFA),
    (48, 0x8000_0050),
];

/// The same of slots 16 and 20.
static FIRST_TWO: [(usize, u32); 7] = [
    (16, 40),
    (20, 48),
    (32, 8),
    (36, 0x01FF_FFF8),
    (40, 8),
    (44, 0x01FF_FFF6),
    (48, 0x8000_0050),
];

/// And of all slots.
static ALL_FOUR: [(usize, u32); 13] = [
    (16, 40),
    (20, 48),
    (24, 56),
    (28, 64),
    (32, 8),
    (36, 0x01FF_FFF8),
    (40, 8),
    (44, 0x01FF_FFF6),
    (48, 8),
    (52, 0x01FF_FFF4),
    (56, 8),
    (60, 0x01FF_FFF2),
    (64, 0x8000_0040),
];

/// A name, the number of its slot, and the place that it resolves to.
static PLACES: [(u32, Option<u32>, Option<Place>); 11] = [
    (16, Some(0), Some(Place(40))),
    (28, Some(3), Some(Place(48))),
    // empty, outside the table, between two slots, and a place
    (20, Some(1), None),
    (24, Some(2), None),
    (0, None, None),
    (12, None, None),
    (32, None, None),
    (0xFFFF_FFFF, None, None),
    (17, None, None),
    (26, None, None),
    (40, None, None),
];

#[test]
fn a_slot_resolves_to_its_place(rt: HostRuntime) -> Result<(), Fail> {
    let region = image(rt.alloc(), &FIRST_AND_LAST)?;
    for (name, number, place) in &PLACES {
        let found = look_up(&region, Name(*name))?;
        equal(format_args!("name {name}"), found, (*number, *place))?;
    }
    Ok(())
}

/// The number of a slot, and the place that it holds.
fn look_up(region: &Region, name: Name) -> Result<(Option<u32>, Option<Place>), Fail>
    requires { region.now.lents ≡ [] }
{
    match check_heap(region) {
        Ok(_) => Ok((slots_before(region, name), resolve(region, name))),
        Err(_) => Err("no heap")?,
    }
}

#[test]
fn the_first_empty_slot_is_found(rt: HostRuntime) -> Result<(), Fail> {
    check_first(rt.alloc(), &[], Some((16, 0)))?;
    check_first(rt.alloc(), &FIRST_AND_LAST, Some((20, 1)))?;
    check_first(rt.alloc(), &FIRST_TWO, Some((24, 2)))?;
    check_first(rt.alloc(), &ALL_FOUR, None)
}

/// The words of a heap, and its first empty slot with how many stand before it.
fn check_first(
    alloc: Global,
    words: &[(usize, u32)],
    first: Option<(u32, u32)>,
) -> Result<(), Fail> {
    let found = match first_empty(&image(alloc, words)?)? {
        Some(slot) => Some((slot.name.0, slot.before)),
        None => None,
    };
    equal("first", found, first)
}

/// The first empty slot of a heap. A search that begins at it finds it again.
fn first_empty(region: &Region) -> Result<Option<EmptySlot>, Fail>
    requires { region.now.lents ≡ [] }
{
    match check_heap(region) {
        Ok(_) => {
            let first = first_empty_slot(region, TableStart::first(), 0);
            if let Some(slot) = first {
                equal(
                    "again",
                    first_empty_slot(region, slot.table, slot.before),
                    first,
                )?;
            }
            Ok(first)
        }
        Err(_) => Err("no heap")?,
    }
}

/// Puts a place into a slot of a heap, or empties it.
fn put(region: &mut Region, slot: Name, place: Option<Place>) -> Result<(), Fail>
    requires { region.old.lents ≡ [] }
    ensures { region.new.lents ≡ [] }
{
    match check_heap(region) {
        Ok(_) => put_in(region, slot, place),
        Err(_) => Err("no heap")?,
    }
}

fn put_in(region: &mut Region, slot: Name, place: Option<Place>) -> Result<(), Fail>
    requires accepted { HeapAccepted region.old.bytes }
    requires whole { region.old.lents ≡ [] }
    ensures { region.new.lents ≡ [] }
{
    match slots_before(region, slot) {
        Some(_) => {
            match place {
                Some(place) => set(region, slot, place),
                None => clear(region, slot),
            }
            Ok(())
        }
        None => Err("no slot")?,
    }
}

#[test]
fn a_slot_is_set(rt: HostRuntime) -> Result<(), Fail> {
    let mut region = image(rt.alloc(), &FIRST_TWO)?;
    put(&mut region, Name(24), Some(Place(0x0001_0238)))?;
    let words = b"PHI1\0\0\0\x80\0\x04\0\0\0\0\0\0\0\0\0\x28\0\0\0\x30\0\x01\x02\x38\0\0\0\0";
    equal("bytes", region.as_slice().starts_with(words), true)
}

#[test]
fn a_slot_is_emptied(rt: HostRuntime) -> Result<(), Fail> {
    let mut region = image(rt.alloc(), &ALL_FOUR)?;
    put(&mut region, Name(24), None)?;
    let words = b"PHI1\0\0\0\x80\0\x04\0\0\0\0\0\0\0\0\0\x28\0\0\0\x30\0\0\0\0\0\0\0\x40";
    equal("bytes", region.as_slice().starts_with(words), true)
}
