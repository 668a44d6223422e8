//! Databases that are read from files, entry by entry and byte by byte.

ghost use Rattle.std.specs.Prelude.{[], ◌≡◌};

use crate::files::stores::blank_store;
use heap_model::{Db, DbInfo, DbName, FileFault, Name, RecordInfo, Refusal, ResourceInfo, Which};
use palm_store::Store;
use pdb_files::import;
use record_db::{new_record, num_records, record_info};
use resource_db::{find_resource, find_type, num_resources, remove_resource, resource_info};
use std::alloc::Global;
use std::test::*;
use test_support::{EMPTY_FILE, ORDER_FILE, TINY_FILE, bytes_of, equal};

/// A file of two records, whose seed is the last but one.
const LAST_SEED_IMPORTED: &str =
    "496473 00*29 0000 0000 00*24 44415441 54657374 07fffffe 00000000 0002 \
    00000060 00 ffffff 00000060 00 000001 0000";

/// A file of two records with both info blocks, which stand against their order, and none of which
/// is empty.
const BACKWARD_IMPORTED: &str = "4261636b 00*28 \
    0000 0000 00*16 00000064 00000062 44415441 54657374 00000000 00000000 0002 \
    00000060 00 000001 0000005e 00 000002 01 02 03 04 05 06 07";

/// A file of five records with both info blocks. No zero ends its name. Bytes before the first
/// block belong to none, three blocks begin at one offset, a deleted record has no data, another's
/// begins where the file ends, and three records have one ID.
const ODD_IMPORTED: &str = "4141414141414141414141414141414141414141414141414141414141414141 \
    fff8 0102 00000001 00000002 00000003 00000004 0000007c 0000007c 44415441 54657374 b0ffffff 00000000 0005 \
    0000007c 33 000007 00000078 00 000007 00000000 e0 000007 00000082 a0 000000 0000007a 40 000009 \
    0909 01 02 03 04 05 06 07 08 09 0a";

/// What a record says, its data as a listing.
type Read = (u8, u32, Option<&'static str>);

/// Files, and the records that are read from them.
static RECORDS_READ: [(&str, &[Read]); 4] = [
    (EMPTY_FILE, &[]),
    (
        ORDER_FILE,
        &[
            (0x00, 1, Some("")),
            (0x03, 5, Some("42424242")),
            (0x00, 2, Some("43434343")),
        ],
    ),
    (
        BACKWARD_IMPORTED,
        &[(0x00, 1, Some("03 04")), (0x00, 2, Some("01 02"))],
    ),
    (
        ODD_IMPORTED,
        &[
            (0x13, 7, Some("05 06 07 08 09 0a")),
            (0x00, 1, Some("01 02")),
            (0xC0, 2, None),
            (0x80, 3, Some("")),
            (0x40, 9, Some("03 04")),
        ],
    ),
];

/// The reply to reading a listed file.
fn import_listed(
    alloc: Global,
    store: &mut Store,
    listing: &str,
) -> Result<Result<Db, Refusal>, Fail>
    ensures { store.new.lents ≡ store.old.lents }
{
    Ok(import(alloc, store, &bytes_of(alloc, listing)?))
}

/// A listed file is read, or its reading is refused.
fn check_import(
    alloc: Global,
    store: &mut Store,
    listing: &str,
    refusal: Option<Refusal>,
) -> Result<(), Fail>
    ensures { store.new.lents ≡ store.old.lents }
{
    let answer = import_listed(alloc, store, listing)?;
    equal(listing, answer.err(), refusal)
}

/// A listed file is read, and the records of its database are these.
fn check_read(alloc: Global, store: &mut Store, row: (&str, &[Read])) -> Result<(), Fail>
    ensures { store.new.lents ≡ store.old.lents }
{
    let (listing, records) = row;
    let db = import_listed(alloc, store, listing)??;
    check_records(alloc, store, db, records)
}

/// The records of a database are these.
fn check_records(alloc: Global, store: &Store, db: Db, records: &[Read]) -> Result<(), Fail> {
    equal("records", num_records(store, db)? as usize, records.len())?;
    let mut index = 0u32;
    for record in records {
        check_record(alloc, store, db, index, *record)?;
        index = index.saturating_add(1);
    }
    Ok(())
}

fn check_record(
    alloc: Global,
    store: &Store,
    db: Db,
    index: u32,
    (attributes, id, listing): Read,
) -> Result<(), Fail> {
    let info = record_info(store, db, index)?;
    equal(
        format_args!("record {index}"),
        (info.attributes, info.id),
        (attributes, id),
    )?;
    match (info.data, listing) {
        (Some(name), Some(listing)) => check_data(alloc, store, name, listing),
        (None, None) => Ok(()),
        _ => Err("data of a record that is there or not")?,
    }
}

/// The data of a record has these bytes and no lock.
fn check_data(alloc: Global, store: &Store, name: Name, listing: &str) -> Result<(), Fail> {
    check_bytes(alloc, store, name, listing)?;
    let found = (store.owner(name)?, store.locks(name)?);
    equal("owner, locks", found, (15, 0))
}

/// A chunk has these bytes.
fn check_bytes(alloc: Global, store: &Store, name: Name, listing: &str) -> Result<(), Fail> {
    let bytes = bytes_of(alloc, listing)?;
    equal(
        format_args!("{name:?}"),
        store.read(name, 0, store.size(name)?)?,
        bytes.as_slice(),
    )
}

/// A listed file is read, and info blocks of its database have these bytes.
fn check_blocks(alloc: Global, store: &mut Store, row: (&str, &[(Which, &str)])) -> Result<(), Fail>
    ensures { store.new.lents ≡ store.old.lents }
{
    let (listing, blocks) = row;
    let db = import_listed(alloc, store, listing)??;
    for (which, bytes) in blocks {
        check_bytes(alloc, store, store.info_block(db, *which)?, bytes)?;
    }
    Ok(())
}

#[test]
fn records_are_read(rt: HostRuntime) -> Result<(), Fail> {
    let mut store = blank_store(rt.alloc(), 2048, 64)?;
    for row in &RECORDS_READ {
        check_read(rt.alloc(), &mut store, *row)?;
    }
    equal("databases", store.count(), 4)
}

/// A file of no records whose AppInfo block begins where it ends.
const EMPTY_BLOCK_IMPORTED: &str = "456d707479 00*27 0000 0000 00*16 0000004E 00000000 \
    44415441 54657374 00000000 00000000 0000";

/// Files, and their info blocks.
static BLOCKS_READ: [(&str, &[(Which, &str)]); 3] = [
    (
        BACKWARD_IMPORTED,
        &[(Which::App, "07"), (Which::Sort, "05 06")],
    ),
    (ODD_IMPORTED, &[(Which::App, ""), (Which::Sort, "")]),
    (EMPTY_BLOCK_IMPORTED, &[(Which::App, "")]),
];

#[test]
fn info_blocks_are_read(rt: HostRuntime) -> Result<(), Fail> {
    let mut store = blank_store(rt.alloc(), 1024, 32)?;
    for row in &BLOCKS_READ {
        check_blocks(rt.alloc(), &mut store, *row)?;
    }
    Ok(())
}

/// What the header of `ODD_IMPORTED` says.
fn odd_header() -> DbInfo {
    DbInfo {
        name: DbName::of(&[0x41; 31]),
        attributes: 0xFFF8,
        version: 0x0102,
        creation_date: 1,
        modification_date: 2,
        backup_date: 3,
        modification_number: 4,
        kind: 0x4441_5441,
        creator: 0x5465_7374,
        seed: 0xB000_0003,
        entry_count: 5,
    }
}

#[test]
fn headers_are_read(rt: HostRuntime) -> Result<(), Fail> {
    let mut store = blank_store(rt.alloc(), 1024, 32)?;
    let db = import_listed(rt.alloc(), &mut store, ODD_IMPORTED)??;
    equal("its header", store.database_info(db)?, odd_header())
}

const TWO_NAMES: &str =
    "4142 00 4343434343434343434343434343434343434343434343434343434343 0000 0000 00*24 44415441 54657374 00000000 00000000 0000";

#[test]
fn bytes_behind_a_name_are_passed_over(rt: HostRuntime) -> Result<(), Fail> {
    let mut store = blank_store(rt.alloc(), 256, 8)?;
    let db = import_listed(rt.alloc(), &mut store, TWO_NAMES)??;
    let name = DbName::of(b"AB");
    let found = (store.database_info(db)?.name, store.find(&name));
    equal("name, database", found, (name, Ok(db)))
}

#[test]
fn the_seed_goes_on(rt: HostRuntime) -> Result<(), Fail> {
    let mut store = blank_store(rt.alloc(), 1024, 16)?;
    let db = import_listed(rt.alloc(), &mut store, LAST_SEED_IMPORTED)??;
    check_new(&mut store, db)?;
    let info = store.database_info(db)?;
    equal(
        "modification number, seed, entries",
        (info.modification_number, info.seed, info.entry_count),
        (1, 0x0700_0002, 3),
    )
}

/// A record that is made comes after the two that were read, and has the first ID that is free
/// after the seed.
fn check_new(store: &mut Store, db: Db) -> Result<(), Fail>
    ensures { store.new.lents ≡ store.old.lents }
{
    let (index, name) = new_record(store, db, 65_535, 0)?;
    let made = RecordInfo {
        attributes: 0x60,
        id: 2,
        data: Some(name),
    };
    equal("made", (index, record_info(store, db, 2)?), (2, made))
}

#[test]
fn resources_are_read(rt: HostRuntime) -> Result<(), Fail> {
    let mut store = blank_store(rt.alloc(), 1024, 16)?;
    let db = import_listed(rt.alloc(), &mut store, TINY_FILE)??;
    check_found(&store, db)?;
    remove_resource(&mut store, db, 0)?;
    check_second(&store, db)
}

/// There are two resources, and they are found.
fn check_found(store: &Store, db: Db) -> Result<(), Fail> {
    let count = num_resources(store, db);
    let by_id = find_resource(store, db, 0x7453_5452, 1001);
    equal("count, by ID", (count, by_id), (Ok(2), Ok(1)))?;
    let first = find_type(store, db, 0x7453_5452, 0);
    let third = find_type(store, db, 0x7453_5452, 2);
    equal(
        "by type",
        (first, third),
        (Ok(0), Err(Refusal::ResourceNotFound)),
    )
}

/// The second of them is the first now.
fn check_second(store: &Store, db: Db) -> Result<(), Fail> {
    let ResourceInfo { kind, id, data } = resource_info(store, db, 0)?;
    equal("type, ID", (kind, id), (0x7453_5452, 1001))?;
    let bytes = store.read(data, 0, store.size(data)?)?;
    equal("data", bytes, b"Yo\0".as_slice())
}

/// Files with faults.
static BAD_FILES: [(&str, FileFault); 7] = [
    ("", FileFault::Truncated),
    ("456d707479 00*72", FileFault::Truncated),
    ("00*78", FileFault::EmptyName),
    (
        "54696e79 00*28 0001 0001 00*24 6170706c 54657374 00000000 00000000 0002 \
         74535452 03e8 00000000 74535452 03e9 00000067 0000 486900 596f00",
        FileFault::BadOffset(0),
    ),
    // an AppInfo block before all that can be one, a SortInfo block after the end, and both where
    // the list goes on
    (
        "456d707479 00*27 0000 0000 00*16 00000010 00000000 44415441 54657374 00000000 00000000 0000",
        FileFault::BadInfo(Which::App),
    ),
    (
        "456d707479 00*27 0000 0000 00*16 00000000 0000004F 44415441 54657374 00000000 00000000 0000",
        FileFault::BadInfo(Which::Sort),
    ),
    (
        "456d707479 00*27 0000 0000 00*16 00000010 0000004F 44415441 54657374 00000000 00000001 0000",
        FileFault::ChainedList,
    ),
];

#[test]
fn files_with_a_fault_are_refused(rt: HostRuntime) -> Result<(), Fail> {
    let mut store = blank_store(rt.alloc(), 1024, 16)?;
    for (listing, fault) in &BAD_FILES {
        let refusal = Refusal::BadFile(*fault);
        check_import(rt.alloc(), &mut store, listing, Some(refusal))?;
    }
    equal("databases", store.count(), 0)
}

#[test]
fn a_name_is_taken_once(rt: HostRuntime) -> Result<(), Fail> {
    let mut store = blank_store(rt.alloc(), 1024, 16)?;
    for refusal in [None, Some(Refusal::AlreadyExists)] {
        check_import(rt.alloc(), &mut store, EMPTY_FILE, refusal)?;
    }
    equal("databases", store.count(), 1)
}

/// In a store of this size and number of slots there is no room, and nothing is left of what was
/// begun.
fn check_short(alloc: Global, size: u32, slots: u16) -> Result<(), Fail> {
    let mut store = blank_store(alloc, size, slots)?;
    let free = store.free_bytes();
    let no_room = Some(Refusal::NotEnoughSpace);
    check_import(alloc, &mut store, ORDER_FILE, no_room)?;
    let left = (store.count(), store.free_bytes());
    equal(format_args!("{size} {slots}"), left, (0, free))?;
    take_four_slots(&mut store)
}

fn take_four_slots(store: &mut Store) -> Result<(), Fail>
    ensures { store.new.lents ≡ store.old.lents }
{
    for _ in 0..4 {
        store.handle_new(0, 1)?;
    }
    Ok(())
}

/// Sizes and counts of slots that are too small.
static SHORT: [(u32, u16); 3] = [(128, 4), (256, 4), (240, 16)];

#[test]
fn nothing_is_left_where_room_is_short(rt: HostRuntime) -> Result<(), Fail> {
    for (size, slots) in &SHORT {
        check_short(rt.alloc(), *size, *slots)?;
    }
    Ok(())
}
