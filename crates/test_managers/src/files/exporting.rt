//! Files of databases that were made by calls, byte for byte.

ghost use Rattle.std.specs.Prelude.{[], ◌≡◌};

use crate::files::stores::blank_store;
use heap_model::{Db, DbName, Name, Refusal, Which};
use palm_store::Store;
use palm_text::Counted;
use pdb_files::{ExportFault, export, exported};
use record_db::{archive, delete, get, new_record, release};
use resource_db::new_resource;
use std::alloc::Global;
use std::io::ErrorKind;
use std::test::*;
use test_support::{Narrow, RefusesOne, WhenFull, bytes_of, equal};

/// The file of `make_records`. Its blocks stand at 0x70, 0x73, 0x75 and 0x7a.
const RECORDS_EXPORTED: &str = "4e6f746573 00*27 \
    0000 0000 c0000001 c0000001 00000000 00000008 00000070 00000073 44415441 54657374 00000004 00000000 0004 \
    00000075 40 000001 0000007a c0 000002 00000000 c0 000003 0000007e 40 000004 0000 \
    616263 0102 6669727374 6b657074";

/// The file of `make_resources`.
const RESOURCES_EXPORTED: &str = "50 00*31 \
    0001 0000 00000005 00000005 00000000 00000002 00000000 00000000 6170706c 54657374 00000000 00000000 0002 \
    636f6465 0001 00000064 74535452 03e8 00000067 0000 \
    72756e";

/// Writes bytes over a chunk while it is locked.
fn fill(store: &mut Store, name: Name, bytes: &[u8]) -> Result<(), Refusal>
    ensures { store.new.lents ≡ store.old.lents }
{
    store.lock(name)?;
    store.write(name, 0, bytes)?;
    store.unlock(name)?;
    Ok(())
}

/// Makes an info block of a database.
fn make_block(store: &mut Store, db: Db, which: Which, bytes: &[u8]) -> Result<(), Refusal>
    ensures { store.new.lents ≡ store.old.lents }
{
    let name = store.handle_new(bytes.len().min(9) as u32, 1)?;
    fill(store, name, bytes)?;
    store.set_info_block(db, which, name)
}

/// Makes a record after the others.
fn make_record(store: &mut Store, db: Db, bytes: &[u8]) -> Result<(), Refusal>
    ensures { store.new.lents ≡ store.old.lents }
{
    let (_, name) = new_record(store, db, 9, bytes.len().min(9) as u32)?;
    fill(store, name, bytes)
}

/// Makes a database with both info blocks and four records: of the first a caller holds the data,
/// the second is archived and still in use, the third has no data any more, and the last has no
/// byte.
fn make_records(store: &mut Store) -> Result<Db, Refusal>
    ensures { store.new.lents ≡ store.old.lents }
{
    let db = store.create(
        &DbName::of(b"Notes"),
        0x4441_5441,
        0x5465_7374,
        false,
        0xC000_0001,
    )?;
    make_four(store, db)?;
    change_four(store, db)?;
    make_block(store, db, Which::Sort, &[1, 2])?;
    make_block(store, db, Which::App, b"abc")?;
    Ok(db)
}

fn make_four(store: &mut Store, db: Db) -> Result<(), Refusal>
    ensures { store.new.lents ≡ store.old.lents }
{
    make_record(store, db, b"first")?;
    make_record(store, db, b"kept")?;
    make_record(store, db, b"gone")?;
    make_record(store, db, b"")
}

fn change_four(store: &mut Store, db: Db) -> Result<(), Refusal>
    ensures { store.new.lents ≡ store.old.lents }
{
    archive(store, db, 1)?;
    delete(store, db, 2)?;
    release(store, db, 0, false)?;
    get(store, db, 0)?;
    Ok(())
}

/// Makes a database with two resources, the second of which has no byte.
fn make_resources(store: &mut Store) -> Result<Db, Refusal>
    ensures { store.new.lents ≡ store.old.lents }
{
    let db = store.create(&DbName::of(b"P"), 0x6170_706C, 0x5465_7374, true, 5)?;
    let (_, code) = new_resource(store, db, 0x636F_6465, 1, 3)?;
    fill(store, code, b"run")?;
    new_resource(store, db, 0x7453_5452, 1000, 0)?;
    Ok(db)
}

/// The reply of an export to a writer with room for the given number of bytes, and the bytes that
/// it took.
fn export_cut(
    alloc: Global,
    store: &Store,
    db: Db,
    room: usize,
) -> (Result<u32, ExportFault>, Vec<u8>) {
    let full = WhenFull::Fails(ErrorKind::StorageFull);
    let mut out = Counted::new(Narrow::new(alloc, room, 3, full));
    let answer = export(store, db, &mut out);
    let Narrow { taken, .. } = out.into_inner();
    (answer, taken)
}

/// The outcome of an export to a writer with room for the given number of bytes: the reply, and the
/// bytes that it took.
fn check_cut(alloc: Global, store: &Store, db: Db, file: &[u8], room: usize) -> Result<(), Fail> {
    let (answer, taken) = export_cut(alloc, store, db, room);
    let wanted = if room < file.len() {
        Err(ExportFault::Write)
    } else {
        Ok(file.len().min(9_999) as u32)
    };
    let front = file.get(..room).unwrap_or(file);
    equal(
        format_args!("{room}"),
        (answer, taken.as_slice()),
        (wanted, front),
    )
}

/// A database has this file, and a writer that breaks off has a prefix of it.
fn check_file(alloc: Global, store: &Store, db: Db, listing: &str) -> Result<(), Fail> {
    let file = bytes_of(alloc, listing)?;
    let whole = exported(&alloc, store, db)?;
    equal(listing, whole.as_slice(), file.as_slice())?;
    for room in 0..=file.len() {
        check_cut(alloc, store, db, &file, room)?;
    }
    Ok(())
}

#[test]
fn records_have_their_file(rt: HostRuntime) -> Result<(), Fail> {
    let mut store = blank_store(rt.alloc(), 1024, 32)?;
    let db = make_records(&mut store)?;
    check_file(rt.alloc(), &store, db, RECORDS_EXPORTED)
}

#[test]
fn resources_have_their_file(rt: HostRuntime) -> Result<(), Fail> {
    let mut store = blank_store(rt.alloc(), 1024, 32)?;
    make_records(&mut store)?;
    let db = make_resources(&mut store)?;
    check_file(rt.alloc(), &store, db, RESOURCES_EXPORTED)
}

/// No database has this number.
fn check_no_file(alloc: Global, store: &Store, number: u32) -> Result<(), Fail> {
    let (answer, taken) = export_cut(alloc, store, Db(number), 99);
    let none = Err(ExportFault::NoSuchDatabase);
    equal(
        format_args!("{number}"),
        (answer, taken.as_slice()),
        (none, b"".as_slice()),
    )?;
    let refused = exported(&alloc, store, Db(number)).err();
    equal(
        format_args!("{number}"),
        refused,
        Some(Refusal::NoSuchDatabase),
    )
}

/// A number of no database has no file, also where a chunk has it.
#[test]
fn no_database_has_no_file(rt: HostRuntime) -> Result<(), Fail> {
    let mut store = blank_store(rt.alloc(), 1024, 32)?;
    let Name(chunk) = store.handle_new(200, 1)?;
    for number in &[0, chunk, 9_999] {
        check_no_file(rt.alloc(), &store, *number)?;
    }
    Ok(())
}

/// The same of a file for which no memory is granted.
fn check_refused_without(
    alloc: Global,
    store: &Store,
    db: Db,
    refusal: Refusal,
) -> Result<(), Fail> {
    let memory = RefusesOne::behind(alloc, 0);
    let refused = exported(&memory, store, db).err();
    equal(format_args!("{db:?}"), refused, Some(refusal))
}

#[test]
fn a_file_takes_memory(rt: HostRuntime) -> Result<(), Fail> {
    let mut store = blank_store(rt.alloc(), 1024, 32)?;
    let db = make_resources(&mut store)?;
    let none = Refusal::NoSuchDatabase;
    check_refused_without(rt.alloc(), &store, Db(0), none)?;
    check_refused_without(rt.alloc(), &store, db, Refusal::OutOfMemory)
}
