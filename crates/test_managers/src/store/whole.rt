//! Databases that are made whole, and found again as they were asked for.

ghost use Rattle.std.specs.Prelude.{[], ◌≡◌, length, take, IfOk, None};
ghost use Rattle.heap_model.specs.DatabaseFields.{name_size};

use crate::store::images::with_databases;
use heap_model::{Db, DbInfo, DbName, Entry, Name, RecordInfo, Refusal, ResourceInfo, Which};
use palm_store::{Access, BlockSizes, EntryInfo, EntryKind, Store, count_entries, find_entry};
use std::alloc::Global;
use std::test::*;
use test_beside::{blank_image, store_of};
use test_support::{equal, holds};

/// What the header of a database of two entries says.
fn info_of_two(name: &[u8], attributes: u16) -> DbInfo
    ensures name { result.name ≡ take name_size name.now }
    ensures attributes { result.attributes ≡ attributes }
    ensures entry_count { result.entry_count ≡ 2 }
{
    DbInfo {
        name: DbName::of(name),
        attributes,
        version: 2,
        creation_date: 3,
        modification_date: 4,
        backup_date: 5,
        modification_number: 6,
        kind: 7,
        creator: 8,
        seed: 9,
        entry_count: 2,
    }
}

/// Makes a database with an AppInfo block of 3 bytes and two records, one of which is deleted and
/// has no data.
fn make_records(store: &mut Store, names: &mut [Name]) -> Result<Db, Refusal>
    requires { length names.old ≡ 4 }
    ensures len { length names.new ≡ 4 }
    ensures lent { store.new.lents ≡ store.old.lents }
{
    let blocks = BlockSizes {
        app_info: Some(3),
        sort_info: None,
    };
    let first = EntryInfo::Record {
        attributes: 0x41,
        id: 12,
    };
    let deleted = EntryInfo::Record {
        attributes: 0x80,
        id: 11,
    };
    let entries = [(first, Some(10)), (deleted, None)];
    store.create_whole(&info_of_two(b"W", 0x0008), blocks, &entries, names)
}

/// Makes a database with a SortInfo block without a byte and two resources of one type and ID.
fn make_resources(store: &mut Store, names: &mut [Name]) -> Result<Db, Refusal>
    requires { length names.old ≡ 4 }
    ensures len { length names.new ≡ 4 }
    ensures lent { store.new.lents ≡ store.old.lents }
{
    let blocks = BlockSizes {
        app_info: None,
        sort_info: Some(0),
    };
    let resource = EntryInfo::Resource {
        kind: 0x7453_5452,
        id: 1000,
    };
    let entries = [(resource, Some(0)), (resource, Some(5))];
    store.create_whole(&info_of_two(b"W", 0x0001), blocks, &entries, names)
}

/// A blank store of 400 bytes with 20 slots.
fn small_store(alloc: Global) -> Result<Store, Fail>
    ensures { IfOk result (λ made. made.lents ≡ []) }
{
    store_of(alloc, &blank_image(alloc, 400, 20)?)
}

/// The body of a chunk is the given number of zeros.
fn check_zeros(store: &Store, name: Name, count: u32) -> Result<(), Fail> {
    let head = (store.size(name)?, store.owner(name)?, store.locks(name)?);
    equal("size, owner, locks", head, (count, 15, 0))?;
    let are_zeros = store.read(name, 0, count)?.iter().all(|byte| *byte == 0);
    holds("its bytes", are_zeros)
}

/// What its header says, and one of its info blocks.
fn check_header(
    store: &Store,
    db: Db,
    attributes: u16,
    which: Which,
    block: Name,
) -> Result<(), Fail> {
    let info = store.database_info(db)?;
    equal("its header", info, info_of_two(b"W", attributes))?;
    equal("its block", store.info_block(db, which), Ok(block))
}

/// The entry of an index, in a database of its kind.
fn check_entry(store: &Store, db: Db, index: u32, entry: Entry) -> Result<(), Fail> {
    let kind = match entry {
        Entry::Record(_) => EntryKind::Records,
        Entry::Resource(_) => EntryKind::Resources,
    };
    let found = find_entry(store, db, index, kind, Access::Read)?.item;
    equal(format_args!("entry {index}"), found, entry)
}

/// The records that were made, the data of the first under this name.
fn check_two_records(store: &Store, db: Db, data: Name) -> Result<(), Fail> {
    let first = RecordInfo {
        attributes: 0x41,
        id: 12,
        data: Some(data),
    };
    let second = RecordInfo {
        attributes: 0x80,
        id: 11,
        data: None,
    };
    check_entry(store, db, 0, Entry::Record(first))?;
    check_entry(store, db, 1, Entry::Record(second))?;
    let count = count_entries(store, db, EntryKind::Records, Access::Read);
    equal("two records", count, Ok(2))?;
    check_zeros(store, data, 10)
}

/// The database that was made, with the names that it got.
fn check_records(store: &Store, db: Db, names: [Name; 4]) -> Result<(), Fail> {
    check_header(store, db, 0x0008, Which::App, names[0])?;
    check_zeros(store, names[0], 3)?;
    let none = store.info_block(db, Which::Sort);
    equal("no block", none, Err(Refusal::NoInfoBlock))?;
    equal("no names", [names[1], names[3]], [Name(0); 2])?;
    check_two_records(store, db, names[2])
}

#[test]
fn records_are_made_with_their_header(rt: HostRuntime) -> Result<(), Fail> {
    let mut store = small_store(rt.alloc())?;
    let mut names = [Name(1); 4];
    let db = make_records(&mut store, &mut names)?;
    check_records(&store, db, names)
}

/// The resource of an index has its data under this name, and that is the given number of zeros.
fn check_resource(store: &Store, db: Db, index: u32, data: Name, size: u32) -> Result<(), Fail> {
    let resource = ResourceInfo {
        kind: 0x7453_5452,
        id: 1000,
        data,
    };
    check_entry(store, db, index, Entry::Resource(resource))?;
    check_zeros(store, data, size)
}

/// The database that was made, with the names that it got.
fn check_resources(store: &Store, db: Db, names: [Name; 4]) -> Result<(), Fail> {
    check_header(store, db, 0x0001, Which::Sort, names[1])?;
    check_zeros(store, names[1], 0)?;
    check_resource(store, db, 0, names[2], 0)?;
    check_resource(store, db, 1, names[3], 5)
}

#[test]
fn resources_come_behind_another_database(rt: HostRuntime) -> Result<(), Fail> {
    let mut store = small_store(rt.alloc())?;
    let other = store.create(&DbName::of(b"V"), 0, 0, false, 0)?;
    let mut names = [Name(1); 4];
    let db = make_resources(&mut store, &mut names)?;
    let listed = [store.nth(0), store.nth(1)];
    equal("the databases", listed, [Ok(other), Ok(db)])?;
    check_resources(&store, db, names)
}

/// A name is taken, whatever room there is.
#[test]
fn a_name_is_taken_once(rt: HostRuntime) -> Result<(), Fail> {
    let mut store = small_store(rt.alloc())?;
    let mut names = [Name(0); 4];
    make_records(&mut store, &mut names)?;
    let again = make_resources(&mut store, &mut names);
    equal("again", again, Err(Refusal::AlreadyExists))
}

#[test]
fn whole_databases_are_at_most_1024(rt: HostRuntime) -> Result<(), Fail> {
    let mut store = with_databases(rt.alloc(), 1_024)?;
    let mut names = [Name(0); 4];
    let made = make_records(&mut store, &mut names);
    equal("another", made, Err(Refusal::TooManyEntries))
}

/// In an empty store of this size and number of slots the records are made, or nothing is left
/// of them. Whether there was no room for them.
fn is_taken_back(alloc: Global, size: u32, slots: u16) -> Result<bool, Fail> {
    let mut store = store_of(alloc, &blank_image(alloc, size, slots)?)?;
    let before = (store.free_bytes(), store.summary());
    let mut names = [Name(0); 4];
    if let Err(refusal) = make_records(&mut store, &mut names) {
        let left = (store.free_bytes(), store.summary());
        equal(
            "no room",
            (refusal, left),
            (Refusal::NotEnoughSpace, before),
        )?;
        return Ok(true);
    }
    Ok(false)
}

/// Regions that grow by eight bytes: of 208 on there is room.
#[test]
fn what_finds_no_room_is_taken_back(rt: HostRuntime) -> Result<(), Fail> {
    for eighth in 10..40u32 {
        let size = eighth * 8;
        let is_taken_back = is_taken_back(rt.alloc(), size, 8)?;
        equal(size, is_taken_back, size < 208)?;
    }
    Ok(())
}

/// It takes four slots: of the header, the AppInfo block, a record's data and the directory.
#[test]
fn what_finds_no_slot_is_taken_back(rt: HostRuntime) -> Result<(), Fail> {
    for slots in 1..8u16 {
        let is_taken_back = is_taken_back(rt.alloc(), 400, slots)?;
        equal(slots, is_taken_back, slots < 4)?;
    }
    Ok(())
}
