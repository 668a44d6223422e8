//! Tables that are made while calls go on.

ghost use Rattle.std.specs.Prelude.{[], ◌≡◌, IfOk};

use crate::images::image;
use chunk_format::blank;
use heap_model::{Name, Place, Refusal};
use mem_manager::Heap;
use raw_region::Region;
use std::alloc::Global;
use std::test::*;
use test_support::equal;

/// The heap of a blank image with a chain of tables and one slot, by its size and the first word of
/// its chunk, which begins at 24.
fn heap(alloc: Global, size: u32, chunk: u32) -> Result<Heap, Fail>
    ensures { IfOk result (λ heap. heap.lents ≡ []) }
{
    adopted(image(alloc, size, &[(24, chunk)])?)
}

/// The heap of a region.
fn adopted(region: Region) -> Result<Heap, Fail>
    requires { region.lents ≡ [] }
    ensures { IfOk result (λ heap. heap.lents ≡ []) }
{
    match Heap::adopt(region) {
        Ok(heap) => Ok(heap),
        Err(_) => Err("no heap")?,
    }
}

/// The region of a heap.
fn region_of(heap: Heap) -> Result<Region, Fail>
    requires { heap.lents ≡ [] }
    ensures { IfOk result (λ region. region.lents ≡ []) }
{
    match heap.into_region() {
        Ok(region) => Ok(region),
        Err(_) => Err("a body is lent")?,
    }
}

/// What a heap counts, and the image after it, checked anew.
fn counts(heap: Heap) -> Result<[u32; 5], Fail>
    requires { heap.lents ≡ [] }
{
    let heap = adopted(region_of(heap)?)?;
    let s = heap.summary();
    Ok([s.size, s.slots, s.movable, s.fixed, s.free])
}

#[test]
fn a_table_comes_where_all_slots_are_in_use(rt: HostRuntime) -> Result<(), Fail> {
    let mut heap = heap(rt.alloc(), 128, 0x8000_0068)?;
    assert!(rt; heap.handle_new(0, 1) == Ok(Name(16)));
    assert!(rt; heap.handle_new(0, 1) == Err(Refusal::NotEnoughSpace));
    assert!(rt; heap.more_slots() == Ok(()));
    let second = heap.handle_new(0, 1);
    assert!(rt; second.is_ok());
    assert_eq!(rt; heap.free_bytes(), 16);
    assert!(rt; heap.more_slots() == Err(Refusal::NotEnoughSpace));
    assert_eq!(rt; counts(heap)?, [128, 16, 2, 1, 16]);
    Ok(())
}

#[test]
fn no_table_comes_where_no_stretch_has_the_room(rt: HostRuntime) -> Result<(), Fail> {
    let mut heap = heap(rt.alloc(), 128, 0x8000_0068)?;
    assert!(rt; heap.handle_new(28, 1).is_ok());
    assert!(rt; heap.more_slots() == Err(Refusal::NotEnoughSpace));
    assert_eq!(rt; heap.free_bytes(), 64);
    Ok(())
}

#[test]
fn no_table_comes_to_an_image_of_the_first_layout(rt: HostRuntime) -> Result<(), Fail> {
    let mut heap = adopted(blank(rt.alloc(), 256, 4)?)?;
    assert!(rt; heap.more_slots() == Err(Refusal::NotEnoughSpace));
    assert_eq!(rt; heap.free_bytes(), 224);
    Ok(())
}

/// Three tables, one after the other: each slot of them is given, one of the last is freed and
/// given again, and so is that of the first. Then all chunks of one owner go.
#[test]
fn slots_of_each_table_are_given(rt: HostRuntime) -> Result<(), Fail> {
    let mut heap = heap(rt.alloc(), 2048, 0x8000_07E8)?;
    let mut names = [Name(0); 46];
    for k in 0..46usize {
        if k == 1 || k == 16 || k == 31 {
            assert!(rt; heap.handle_new(8, 1) == Err(Refusal::NotEnoughSpace));
            assert!(rt; heap.more_slots() == Ok(()));
        }
        names[k] = heap.handle_new(8, if k % 2 == 0 { 1 } else { 2 })?;
    }
    for name in &names {
        assert!(rt; heap.size(*name) == Ok(8));
        assert!(rt; heap.lock(*name).is_ok());
        assert!(rt; heap.unlock(*name) == Ok(0));
    }
    assert!(rt; heap.free(names[40]) == Ok(()));
    assert!(rt; heap.handle_new(8, 1) == Ok(names[40]));
    assert!(rt; heap.free(names[0]) == Ok(()));
    assert!(rt; heap.size(names[0]) == Err(Refusal::InvalidHandle));
    assert!(rt; heap.handle_new(8, 1) == Ok(names[0]));
    assert!(rt; heap.free_by_owner(2) == Ok(23));
    assert_eq!(rt; counts(heap)?, [2048, 46, 23, 3, 1440]);
    Ok(())
}

/// Whether each chunk of a heap is found under its name, and freed.
fn check_names(heap: &mut Heap, names: &[Name]) -> Result<(), Fail>
    ensures { heap.new.lents ≡ heap.old.lents }
{
    for name in names {
        equal(format_args!("size of {}", name.0), heap.size(*name), Ok(8))?;
    }
    for name in names {
        equal(format_args!("free {}", name.0), heap.free(*name), Ok(()))?;
    }
    Ok(())
}

/// The distance of the tables in bytes. At this distance all tables belong to the same entry of those
/// that are remembered.
const DISTANCE: u32 = 1_048_576;

/// Makes nine tables whose bodies are `DISTANCE` bytes apart, with a chunk between two.
fn add_far_tables(heap: &mut Heap) -> Result<(), Fail>
    ensures { heap.new.lents ≡ heap.old.lents }
{
    for _ in 0..8 {
        equal("table", heap.more_slots(), Ok(()))?;
        heap.handle_new(DISTANCE - 80, 1)?;
    }
    equal("the ninth table", heap.more_slots(), Ok(()))
}

/// A table is remembered in the entry of its block, or in one of the next seven. So eight of these
/// nine tables are remembered. The slots of all are found, also once the image is adopted anew.
#[test]
fn slots_are_found_that_no_one_remembers(rt: HostRuntime) -> Result<(), Fail> {
    let mut heap = heap(rt.alloc(), 9_000_000, 0x8000_0000 + 8_999_976)?;
    add_far_tables(&mut heap)?;
    let mut names = [Name(0); 128];
    for k in 0..128usize {
        names[k] = heap.handle_new(8, 1)?;
    }
    assert!(rt; names[7] == Name(36 + 4 * 14));
    assert!(rt; names[8] == Name(36 + DISTANCE));
    assert!(rt; names[127] == Name(36 + 8 * DISTANCE + 4 * 14));
    let region = region_of(heap)?;
    let mut again = adopted(Region::from_bytes(rt.alloc(), region.as_slice())?)?;
    check_names(&mut again, &names)?;
    assert_eq!(rt; counts(again)?, [9_000_000, 136, 8, 9, 611_296]);
    Ok(())
}

/// Every call refuses a name that no chunk of a caller has.
fn check_no_name(heap: &mut Heap, name: Name) -> Result<(), Fail>
    ensures { heap.new.lents ≡ heap.old.lents }
{
    let wrong = Refusal::InvalidHandle;
    let answers = [
        heap.free(name).err(),
        heap.lock(name).err(),
        heap.unlock(name).err(),
        heap.size(name).err(),
        heap.owner(name).err(),
        heap.locks(name).err(),
        heap.read(name, 0, 0).err(),
        heap.write(name, 0, b"").err(),
        heap.set(name, 0, 0, 1).err(),
        heap.str_copy(name, 0, b"").err(),
        heap.resize(name, 100).err(),
        heap.resize(name, 0).err(),
        heap.set_owner(name, 2).err(),
    ];
    for (number, answer) in answers.iter().enumerate() {
        equal(
            format_args!("call {number} on {}", name.0),
            *answer,
            Some(wrong),
        )?;
    }
    Ok(())
}

/// A table has no name: every call refuses its place, its header, its word next and its slots,
/// which are empty, and so it does the words of the head. No owner's call counts it.
#[test]
fn a_table_has_no_name(rt: HostRuntime) -> Result<(), Fail> {
    let mut heap = heap(rt.alloc(), 256, 0x8000_00E8)?;
    equal("table", heap.more_slots(), Ok(()))?;
    let wrong = Refusal::InvalidHandle;
    for name in 0..112u32 {
        check_no_name(&mut heap, Name(name))?;
        equal(
            format_args!("place {name}"),
            heap.recover(Place(name)).err(),
            Some(wrong),
        )?;
    }
    equal(
        "the manager's",
        heap.free_by_owner(0),
        Err(Refusal::InvalidOwner),
    )?;
    for owner in 1..15u8 {
        equal(
            format_args!("owner {owner}"),
            heap.free_by_owner(owner),
            Ok(0),
        )?;
    }
    equal("counts", counts(heap)?, [256, 16, 0, 1, 160])
}

/// The words of a table of one slot, its header with them.
static SPELLED: [u8; 16] = [0, 0, 0, 16, 0xF0, 0, 0, 0, 0, 0, 0, 0, 0, 0, 0, 0];

/// Bytes of callers that spell a table make none: neither in a movable chunk nor in a fixed one.
#[test]
fn bytes_that_spell_a_table_are_none(rt: HostRuntime) -> Result<(), Fail> {
    let mut heap = heap(rt.alloc(), 128, 0x8000_0068)?;
    let movable = heap.handle_new(24, 1)?;
    let fixed = heap.ptr_new(24, 1)?;
    equal("locked", heap.lock(movable).is_ok(), true)?;
    equal("movable", heap.write(movable, 0, &SPELLED), Ok(()))?;
    equal("fixed", heap.write(fixed, 0, &SPELLED), Ok(()))?;
    for name in 0..128u32 {
        if name != movable.0 && name != fixed.0 {
            check_no_name(&mut heap, Name(name))?;
        }
    }
    equal("freed", heap.free(fixed), Ok(()))?;
    // what is left of it in the free chunk
    for name in 56..128u32 {
        check_no_name(&mut heap, Name(name))?;
    }
    equal("counts", counts(heap)?, [128, 1, 1, 0, 72])
}
