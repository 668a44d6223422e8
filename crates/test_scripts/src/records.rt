//! Records: the lines that make, use, change, move and delete them.

ghost use Rattle.std.specs.Prelude.{[], ◌≡◌};

use crate::calls::{check_calls, creation, listed_store};
use crate::commands::check_image;
use crate::runs::{check_lines, check_runs};
use heap_model::{Call, DatabaseCall, Db, FileCall, Name, RecordCall, ResourceCall, Which};
use palm_store::Store;
use program_io::Status;
use std::alloc::{AllocError, Global};
use std::test::Fail;
use test_support::{ONE_DATABASE, WIDE, bytes_of};

/// A blank image of 168 bytes with 8 slots.
pub(crate) const NARROW: &str = "50484931 000000A8 0008 0000 00000000 00*32 80000078 00*116";

#[test]
fn lines_print_their_replies(rt: HostRuntime) -> Result<(), Fail> {
    check_runs(rt.alloc(), &RUNS)
}

/// Images, and the lines that are run on them, each with its reply.
static RUNS: [(&str, &str); 11] = [
    // a record is busy from its making on, until it is released
    (
        WIDE,
        "create d \"Notes\" \"DATA\" \"Test\" 0 5 = ok
        recnew d 0 6 r = ok 0
        recget d 0 h = refused 16 RecordBusy
        recrelease d 0 0 = ok
        recget d 0 h = ok
        recinfo d 0 = ok 60 1 data
        recresize d 0 9 = ok
        size h = ok 9
        lock h = ok 1
        recdelete d 0 = refused 3 ChunkLocked
        recremove d 0 = refused 3 ChunkLocked
        dbdelete d = refused 3 ChunkLocked
        unlock h = ok 0
        recdelete d 0 = ok
        recinfo d 0 = ok e0 1 none",
    ),
    // an index beyond the end is the end; records move in front of others
    (
        WIDE,
        "create d \"Notes\" \"DATA\" \"Test\" 0 5 = ok
        recnew d 9 0 r = ok 0
        recnew d 9 0 r = ok 1
        recnew d 9 0 r = ok 2
        recnew d 9 0 r = ok 3
        recinfo d 0 = ok 60 1 data
        recinfo d 1 = ok 60 2 data
        recinfo d 2 = ok 60 3 data
        recinfo d 3 = ok 60 4 data
        recmove d 0 3 = ok
        recinfo d 0 = ok 60 2 data
        recinfo d 1 = ok 60 3 data
        recinfo d 2 = ok 60 1 data
        recinfo d 3 = ok 60 4 data
        recmove d 3 0 = ok
        recinfo d 0 = ok 60 4 data
        recinfo d 1 = ok 60 2 data
        recinfo d 2 = ok 60 3 data
        recinfo d 3 = ok 60 1 data
        recmove d 0 4 = ok
        recinfo d 0 = ok 60 2 data
        recinfo d 1 = ok 60 3 data
        recinfo d 2 = ok 60 1 data
        recinfo d 3 = ok 60 4 data
        recmove d 0 5 = refused 14 IndexOutOfRange
        recmove d 4 0 = refused 14 IndexOutOfRange",
    ),
    // deleted, archived and removed
    (
        WIDE,
        "create d \"Notes\" \"DATA\" \"Test\" 0 5 = ok
        recnew d 0 6 a = ok 0
        recnew d 1 6 b = ok 1
        recnew d 2 6 c = ok 2
        recnew d 3 6 e = ok 3
        recdelete d 0 = ok
        recarchive d 1 = ok
        recremove d 2 = ok
        reccount d = ok 3
        recinfo d 0 = ok e0 1 none
        recinfo d 1 = ok e0 2 data
        recinfo d 2 = ok 60 4 data
        recquery d 0 x = refused 15 RecordDeleted
        recget d 0 x = refused 15 RecordDeleted
        recdelete d 0 = refused 15 RecordDeleted
        recarchive d 1 = refused 15 RecordDeleted
        recresize d 1 7 = refused 15 RecordDeleted
        size x = refused 1 InvalidHandle
        size a = refused 1 InvalidHandle
        size b = ok 6
        size c = refused 1 InvalidHandle
        size e = ok 6
        recrelease d 0 0 = ok
        recinfo d 0 = ok c0 1 none
        recremove d 0 = ok
        reccount d = ok 2
        recinfo d 0 = ok e0 2 data",
    ),
    // no room for the data and for the entry: all is left as it was
    (
        NARROW,
        "create d \"Notes\" \"DATA\" \"Test\" 0 5 = ok
        freebytes = ok 16
        recnew d 0 8 r = refused 8 NotEnoughSpace
        freebytes = ok 16
        reccount d = ok 0
        recinfo d 0 = refused 14 IndexOutOfRange
        size r = refused 1 InvalidHandle
        new a 8 1 = ok",
    ),
    // records are nobody's but the database's
    (
        WIDE,
        "new a 8 3 = ok
        lock a = ok 1
        ptrnew p 8 3 = ok
        new b 8 4 = ok
        create d \"Notes\" \"DATA\" \"Test\" 0 5 = ok
        recnew d 0 8 r = ok 0
        freeowner 3 = ok 2
        size a = refused 1 InvalidHandle
        size p = refused 1 InvalidHandle
        size b = ok 8
        size r = ok 8
        owner r = ok 15
        free r = refused 2 OwnedByDatabase
        setowner r 1 = refused 2 OwnedByDatabase
        resize r 9 = refused 2 OwnedByDatabase",
    ),
    // databases that may only be read, and such as hold resources
    (
        WIDE,
        "create d \"Notes\" \"DATA\" \"Test\" 0 5 = ok
        dbset d \"Notes\" 2 0 5 5 0 \"DATA\" \"Test\" = ok
        recnew d 0 0 r = refused 13 ReadOnly
        create p \"Prog\" \"appl\" \"Test\" 1 0 = ok
        recnew p 0 0 r = refused 11 NotRecordDatabase
        recdelete p 0 = refused 11 NotRecordDatabase
        recarchive p 0 = refused 11 NotRecordDatabase
        recremove p 0 = refused 11 NotRecordDatabase
        recmove p 0 0 = refused 11 NotRecordDatabase
        recget p 0 r = refused 11 NotRecordDatabase
        recquery p 0 r = refused 11 NotRecordDatabase
        recrelease p 0 0 = refused 11 NotRecordDatabase
        recinfo p 0 = refused 11 NotRecordDatabase
        recresize p 0 0 = refused 11 NotRecordDatabase
        reccount p = refused 11 NotRecordDatabase
        dbdelete d = ok
        nth x 0 = ok
        dbcount = ok 1
        nth x 1 = refused 10 NoSuchDatabase
        reccount d = refused 10 NoSuchDatabase
        recnew d 0 0 r = refused 10 NoSuchDatabase
        recget e 0 r = refused 10 NoSuchDatabase
        size r = refused 1 InvalidHandle",
    ),
    // what may be done with a database that may only be read
    (
        WIDE,
        "create d \"Notes\" \"DATA\" \"Test\" 0 5 = ok
        recnew d 0 4 r = ok 0
        dbset d \"Notes\" 2 0 5 5 0 \"DATA\" \"Test\" = ok
        recdelete d 0 = refused 13 ReadOnly
        recarchive d 9 = refused 13 ReadOnly
        recremove d 0 = refused 13 ReadOnly
        recmove d 0 9 = refused 13 ReadOnly
        recresize d 0 5 = refused 13 ReadOnly
        recrelease d 0 1 = ok
        recget d 0 h = ok
        recquery d 0 q = ok
        recinfo d 0 = ok 60 1 data
        reccount d = ok 1
        dbinfo d = ok \"Notes\" 0002 0 5 5 0 2 \"DATA\" \"Test\" 00000001 1",
    ),
    // calls that change records are counted, but for use and release
    (
        WIDE,
        "create d \"Notes\" \"DATA\" \"Test\" 0 5 = ok
        recnew d 0 4 r = ok 0
        recnew d 1 4 s = ok 1
        recmove d 0 2 = ok
        recresize d 0 8 = ok
        recrelease d 0 0 = ok
        recget d 0 s = ok
        recquery d 0 s = ok
        recarchive d 1 = ok
        recremove d 0 = ok
        recinfo d 0 = ok e0 1 data
        recnew d 0 0 s = ok 0
        recdelete d 0 = ok
        dbinfo d = ok \"Notes\" 0000 0 5 5 0 8 \"DATA\" \"Test\" 00000003 2",
    ),
    // the records that an image has; a refused line binds nothing
    (
        ONE_DATABASE,
        "find d \"R\" = ok
        reccount d = ok 2
        recquery d 1 b = ok
        recinfo d 1 = ok 00 2 data
        recget d 0 a = ok
        read a 0 2 = ok 4141
        recinfo d 0 = ok 20 1 data
        recget d 0 b = refused 16 RecordBusy
        read b 0 2 = ok 4242
        recrelease d 0 0 = ok
        recinfo d 0 = ok 00 1 data
        recget d 0 a = ok
        recrelease d 0 1 = ok
        recinfo d 0 = ok 40 1 data
        recquery d 2 a = refused 14 IndexOutOfRange
        recget d 2 a = refused 14 IndexOutOfRange
        recrelease d 2 0 = refused 14 IndexOutOfRange
        recdelete d 2 = refused 14 IndexOutOfRange
        recarchive d 2 = refused 14 IndexOutOfRange
        recremove d 2 = refused 14 IndexOutOfRange
        recresize d 2 0 = refused 14 IndexOutOfRange
        read a 0 2 = ok 4141
        recmove d 0 2 = ok
        recquery d 0 c = ok
        read c 0 2 = ok 4242
        recremove d 0 = ok
        size b = refused 1 InvalidHandle
        reccount d = ok 1
        recinfo d 0 = ok 40 1 data",
    ),
    // the first bytes stay, and zeros come behind them
    (
        WIDE,
        "create d \"Notes\" \"DATA\" \"Test\" 0 5 = ok
        recnew d 0 2 r = ok 0
        read r 0 2 = ok 0000
        lock r = ok 1
        write r 0 4142 = ok
        recresize d 0 900 = refused 3 ChunkLocked
        unlock r = ok 0
        recresize d 0 900 = refused 8 NotEnoughSpace
        read r 0 2 = ok 4142
        recresize d 0 20 = ok
        read r 0 20 = ok 4142000000000000000000000000000000000000
        recresize d 0 1 = ok
        read r 0 1 = ok 41
        read r 0 2 = refused 9 OutOfBounds
        recresize d 0 0 = ok
        size r = ok 0",
    ),
    // labels of chunks and of databases are apart
    (
        WIDE,
        "create d \"Notes\" \"DATA\" \"Test\" 0 5 = ok
        recnew d 0 3 d = ok 0
        size d = ok 3
        reccount d = ok 1",
    ),
];

/// The database that is made first.
const NOTES_OF_RECORDS: Db = Db(16);

/// Calls on its records, and one on those of no database.
const RECORD_CALLS: [Call; 14] = [
    Call::Record(RecordCall::New {
        db: NOTES_OF_RECORDS,
        at: 9,
        size: 4,
    }),
    Call::Record(RecordCall::New {
        db: NOTES_OF_RECORDS,
        at: 0,
        size: 5,
    }),
    Call::Record(RecordCall::Count(NOTES_OF_RECORDS)),
    Call::Record(RecordCall::Get(NOTES_OF_RECORDS, 0)),
    Call::Record(RecordCall::Release {
        db: NOTES_OF_RECORDS,
        index: 0,
        dirty: true,
    }),
    Call::Record(RecordCall::Query(NOTES_OF_RECORDS, 0)),
    Call::Record(RecordCall::Move {
        db: NOTES_OF_RECORDS,
        from: 0,
        to: 2,
    }),
    Call::Record(RecordCall::Info(NOTES_OF_RECORDS, 0)),
    Call::Record(RecordCall::Resize {
        db: NOTES_OF_RECORDS,
        index: 0,
        size: 6,
    }),
    Call::Record(RecordCall::Archive(NOTES_OF_RECORDS, 0)),
    Call::Record(RecordCall::Delete(NOTES_OF_RECORDS, 1)),
    Call::Record(RecordCall::Info(NOTES_OF_RECORDS, 1)),
    Call::Record(RecordCall::Remove(NOTES_OF_RECORDS, 0)),
    Call::Record(RecordCall::Info(Db(20), 0)),
];

/// The calls in their order, and what each is answered.
#[test]
fn calls_on_records_are_answered(rt: HostRuntime) -> Result<(), Fail> {
    let mut store = listed_store(rt.alloc(), WIDE)?;
    let first = [creation("Notes", false)];
    let said =
        "Database(Db(16)); Made { index: 0, name: Name(24) }; Made { index: 0, name: Name(28) }; Number(2); \
        Refused(RecordBusy); Done; Named(Name(28)); Done; \
        Record(RecordInfo { attributes: 96, id: 1, data: Some(Name(24)) }); Done; Done; Done; \
        Record(RecordInfo { attributes: 192, id: 2, data: None }); Done; Refused(NoSuchDatabase); ";
    check_calls(rt.alloc(), &mut store, &[&first, &RECORD_CALLS], said)
}

/// Calls of each kind on the database of a number.
fn calls_on(db: Db) -> [Call; 9] {
    let (which, name) = (Which::App, Name(24));
    [
        Call::Database(DatabaseCall::Info(db)),
        Call::Database(DatabaseCall::Delete(db)),
        Call::Database(DatabaseCall::SetInfoBlock { db, which, name }),
        Call::Record(RecordCall::Count(db)),
        Call::Record(RecordCall::New { db, at: 0, size: 0 }),
        Call::Record(RecordCall::Attach { db, at: 0, name }),
        Call::Record(RecordCall::Remove(db, 0)),
        Call::Resource(ResourceCall::Count(db)),
        Call::File(FileCall::Export(db)),
    ]
}

/// A chunk is no database: calls of each kind say so.
fn check_no_database(alloc: Global, store: &mut Store, number: u32) -> Result<(), Fail>
    ensures { store.new.lents ≡ store.old.lents }
{
    let said = "Refused(NoSuchDatabase); ".repeat(alloc, 9)?;
    check_calls(alloc, store, &[&calls_on(Db(number))], said.as_str())
}

/// The directory, the data of a record and a caller's chunk are no databases.
#[test]
fn a_chunk_is_no_database(rt: HostRuntime) -> Result<(), Fail> {
    let mut store = listed_store(rt.alloc(), ONE_DATABASE)?;
    let Name(chunk) = store.handle_new(0, 1)?;
    check_no_database(rt.alloc(), &mut store, 16)?;
    check_no_database(rt.alloc(), &mut store, 24)?;
    check_no_database(rt.alloc(), &mut store, chunk)
}

/// The front of an image of 524,544 bytes with 4 slots, whose one database has 65,535 records: up
/// to its entries.
const CROWDED_FRONT: &str = "50484931 00080100 0004 0000 00000010 00000028 00000038 00*8 \
    04000010 00FFFFF8 00000014 00*4 02080050 00FFFFF2 \
    52 00*31 0000 0000 00*24 44415441 54657374 0000FFFF 00000000 FFFF";

/// Adds 65,535 entries of records that are deleted and have no data, with the IDs from 1 on.
fn add_entries(bytes: &mut Vec<u8>) -> Result<(), AllocError> {
    for id in 1..=u16::MAX {
        bytes.extend_from_slice(&[0, 0, 0, 0, 0x80, 0])?;
        bytes.extend_from_slice(&id.to_be_bytes())?;
    }
    Ok(())
}

/// The image: its records are deleted, have no data and the IDs from 1 on. 128 bytes are free.
fn crowded(alloc: Global) -> Result<Vec<u8>, Fail> {
    let mut bytes = bytes_of(alloc, CROWDED_FRONT)?;
    add_entries(&mut bytes)?;
    let behind = bytes_of(alloc, "00*2 80000080 00*124")?;
    bytes.extend_from_slice(&behind)?;
    Ok(bytes)
}

/// Lines on it, each with its reply. Deleted records are of no category, have no data to hand over,
/// and stay deleted whatever attributes are given; and the last two slots are for info blocks.
const ON_CROWDED: &str = "find d \"R\" = ok
    recnew d 0 0 r = refused 17 TooManyEntries
    new a 8 1 = ok
    recattach d 0 a = refused 17 TooManyEntries
    reccount d = ok 65535
    recinfo d 65534 = ok 80 65535 none
    recinfo d 65535 = refused 14 IndexOutOfRange
    recdetach d 65534 0 x = refused 15 RecordDeleted
    recdetach d 65535 0 x = refused 14 IndexOutOfRange
    recreplace d 65534 a 0 x = refused 15 RecordDeleted
    recreplace d 65535 a 0 x = refused 14 IndexOutOfRange
    catcount d 0 = ok 0
    catcount d 255 = ok 0
    catnext d 0 255 = refused 14 IndexOutOfRange
    catpos d 65534 255 = ok 0
    catpos d 65535 0 = refused 14 IndexOutOfRange
    catmove d 7 0 1 = ok
    catdelete d 0 = ok
    recinfo d 65534 = ok 80 65535 none
    recset d 65534 0x6f 0 = ok
    recinfo d 65534 = ok cf 65535 none
    recset d 65534 0 65534 = refused 19 DuplicateId
    recset d 65534 0x05 65536 = ok
    recset d 65535 0 1 = refused 14 IndexOutOfRange
    recinfo d 65534 = ok 85 65536 none
    catcount d 5 = ok 0
    recfind d 65535 = refused 20 UniqueIdNotFound
    recfind d 65536 = ok 65534
    dbinfo d = ok \"R\" 0000 0 0 0 0 4 \"DATA\" \"Test\" 0000ffff 65535
    info d app x = refused 24 NoInfoBlock
    infotake d sort 0 x = refused 24 NoInfoBlock
    new b 9 2 = ok
    new c 0 1 = refused 8 NotEnoughSpace
    infoset d app a = ok
    infoset d app b = refused 21 AlreadyExists
    infoset d sort a = refused 2 OwnedByDatabase
    infoset d sort b = ok
    info d sort x = ok
    size x = ok 9
    infotake d app 15 x = refused 7 InvalidOwner
    infotake d app 14 x = ok
    size x = ok 8
    owner a = ok 14
    info d app x = refused 24 NoInfoBlock
    dbinfo d = ok \"R\" 0000 0 0 0 0 7 \"DATA\" \"Test\" 0000ffff 65535
    reccount d = ok 65535";

/// A database has 65,535 records, and no other is made.
#[test]
fn a_database_has_65535_records_at_most(rt: HostRuntime) -> Result<(), Fail> {
    let image = crowded(rt.alloc())?;
    let said = "ok size 524544 slots 4 movable 2 fixed 0 free 128\ndatabases 1\n";
    check_image(rt.alloc(), "the image", &image, (Status::Done, said))?;
    check_lines(rt.alloc(), &image, ON_CROWDED, &[], &[])
}
