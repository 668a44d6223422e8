//! Databases: images with them that are checked, and the lines that make, ask for, change and
//! delete them.

use crate::calls::{check_calls, creation, listed_store};
use crate::commands::{check_faults, check_on};
use crate::runs::{check_runs, run_on};
use heap_model::{Call, DatabaseCall, Db, DbName};
use program_io::Status;
use std::alloc::{AllocError, Global};
use std::test::Fail;
use test_support::{BLANK, ONE_DATABASE, TWO_DATABASES, WIDE, bytes_of, equal, holds};

/// Free chunks of 88 and 16 bytes, and between them one that is locked.
const TWO_ROOMS: &str = "50484931 00000090 0004 0000 00000000 00000080 00*12 80000058 00*84 \
    00000008 11FFFFCC 80000010 00*12";

/// What is changed in an image with a database, and what `check` says of it.
static FAULTS: [(&str, &str); 12] = [
    ("59: 10", "bad BadDirectorySlot 0\n"),
    ("149: 03", "bad BadHeader 0\n"),
    ("147: 01", "bad BadHeader 0\n"),
    ("127: 14", "bad BadHeader 0\n"),
    ("158: 00000014", "bad BadEntry 0 1\n"),
    ("158: 00000000", "bad BadEntry 0 1\n"),
    ("158: 00000018", "bad SharedChunk 24\n"),
    ("158: 0000000080", "bad StrayChunk 28\n"),
    ("15: 00", "bad StrayChunk 16\n"),
    ("163: 000001", "bad BadId 0 1\n"),
    ("163: 000000", "bad BadId 0 1\n"),
    ("72: 00", "bad BadName 0\n"),
];

/// The same, in the second of two databases.
static IN_THE_SECOND: [(&str, &str); 3] = [
    ("251: 000000", "bad BadId 1 0\n"),
    ("168: 00", "bad BadName 1\n"),
    ("168: 41", "bad SameName 1\n"),
];

#[test]
fn check_names_what_is_wrong_with_databases(rt: HostRuntime) -> Result<(), Fail> {
    check_faults(rt.alloc(), ONE_DATABASE, &FAULTS)?;
    check_faults(rt.alloc(), TWO_DATABASES, &IN_THE_SECOND)
}

#[test]
fn lines_print_their_replies(rt: HostRuntime) -> Result<(), Fail> {
    check_runs(rt.alloc(), &RUNS)
}

/// Images, and the lines that are run on them, each with its reply.
static RUNS: [(&str, &str); 8] = [
    // a database that an image has is found and deleted
    (
        ONE_DATABASE,
        "find d \"R\" = ok
        dbinfo d = ok \"R\" 0000 0 0 0 0 0 \"DATA\" \"Test\" 00000002 2
        find e \"r\" = refused 10 NoSuchDatabase
        find e \"RR\" = refused 10 NoSuchDatabase
        dbdelete d = ok
        dbcount = ok 0
        dbinfo d = refused 10 NoSuchDatabase
        dbdelete d = refused 10 NoSuchDatabase
        freebytes = ok 152",
    ),
    // data that is locked keeps its database, and all of it
    (
        ONE_DATABASE,
        "bind a 24 = ok
        bind b 28 = ok
        bind h 20 = refused 1 InvalidHandle
        bind h 16 = refused 1 InvalidHandle
        nth d 0 = ok
        lock b = ok 1
        dbdelete d = refused 3 ChunkLocked
        freebytes = ok 8
        size a = ok 8
        read a 0 2 = ok 4141
        free a = refused 2 OwnedByDatabase
        setowner a 1 = refused 2 OwnedByDatabase
        resize a 4 = refused 2 OwnedByDatabase
        unlock b = ok 0
        dbdelete d = ok
        size a = refused 1 InvalidHandle",
    ),
    // a header and a directory take 88 and 16 bytes
    (
        BLANK,
        "create d \"Notes\" \"DATA\" \"Test\" 0 5 = refused 8 NotEnoughSpace
        freebytes = ok 96
        dbcount = ok 0
        dbinfo d = refused 10 NoSuchDatabase
        new a 88 1 = ok",
    ),
    // a room each is enough
    (
        TWO_ROOMS,
        "create d \"Notes\" \"DATA\" \"Test\" 0 5 = ok
        freebytes = ok 0
        dbcount = ok 1",
    ),
    // names are valid, and each is one database's
    (
        WIDE,
        "create d \"Notes\" \"DATA\" \"Test\" 0 5 = ok
        create e \"Notes\" \"DATA\" \"Test\" 0 0 = refused 21 AlreadyExists
        create e \"\" \"DATA\" \"Test\" 0 0 = refused 22 InvalidName
        create e x:4100 \"DATA\" \"Test\" 0 0 = refused 22 InvalidName
        create e \"12345678901234567890123456789012\" \"DATA\" \"Test\" 0 0 = refused 22 InvalidName
        create f \"1234567890123456789012345678901\" \"DATA\" \"Test\" 0 0 = ok
        create g \"123456789012345678901234567890\" \"DATA\" \"Test\" 0 0 = ok
        find h \"1234567890123456789012345678901\" = ok
        dbset g \"1234567890123456789012345678901\" 0 0 0 0 0 \"DATA\" \"Test\" = refused 21 AlreadyExists
        dbset g \"\" 0 0 0 0 0 \"DATA\" \"Test\" = refused 22 InvalidName
        dbset e \"\" 0 0 0 0 0 \"DATA\" \"Test\" = refused 10 NoSuchDatabase
        dbinfo e = refused 10 NoSuchDatabase
        find e \"None\" = refused 10 NoSuchDatabase
        dbcount = ok 3",
    ),
    // what a header says
    (
        WIDE,
        "create d x:0a \"DATA\" \"Test\" 0 0 = ok
        dbinfo d = ok x:0a 0000 0 0 0 0 0 \"DATA\" \"Test\" 00000000 0
        create p \"Prog\" \"appl\" x:00000001 1 7 = ok
        dbinfo p = ok \"Prog\" 0001 0 7 7 0 0 \"appl\" x:00000001 00000000 0
        dbset p \"Prog\" 0xFFFE 9 1 2 4294967295 \"data\" \"Memo\" = ok
        dbinfo p = ok \"Prog\" ffff 9 1 2 4294967295 1 \"data\" \"Memo\" 00000000 0
        dbset d \"Other\" 3 0 5 5 0 \"DATA\" \"Test\" = ok
        dbset d \"Other\" 3 0 5 5 0 \"DATA\" \"Test\" = ok
        dbinfo d = ok \"Other\" 0002 0 5 5 0 2 \"DATA\" \"Test\" 00000000 0
        find d x:0a = refused 10 NoSuchDatabase
        find e \"Other\" = ok
        dbinfo e = ok \"Other\" 0002 0 5 5 0 2 \"DATA\" \"Test\" 00000000 0",
    ),
    // databases stand in the order in which they were made
    (
        WIDE,
        "create a \"A\" \"DATA\" \"Test\" 0 1 = ok
        create b \"B\" \"DATA\" \"Test\" 0 2 = ok
        create c \"C\" \"DATA\" \"Test\" 0 3 = ok
        dbdelete b = ok
        nth x 0 = ok
        dbinfo x = ok \"A\" 0000 0 1 1 0 0 \"DATA\" \"Test\" 00000000 0
        nth x 1 = ok
        dbinfo x = ok \"C\" 0000 0 3 3 0 0 \"DATA\" \"Test\" 00000000 0
        nth x 2 = refused 10 NoSuchDatabase
        dbinfo x = ok \"C\" 0000 0 3 3 0 0 \"DATA\" \"Test\" 00000000 0
        dbdelete a = ok
        dbdelete c = ok
        dbcount = ok 0
        freebytes = ok 936
        create d \"D\" \"DATA\" \"Test\" 0 4 = ok
        nth x 0 = ok
        dbinfo x = ok \"D\" 0000 0 4 4 0 0 \"DATA\" \"Test\" 00000000 0",
    ),
    // the memory manager's calls beside databases
    (
        WIDE,
        "create d \"Notes\" \"DATA\" \"Test\" 0 5 = ok
        new a 10 1 = ok
        create e \"Other\" \"DATA\" \"Test\" 0 6 = ok
        free a = ok
        compact = ok
        freeowner 15 = refused 7 InvalidOwner
        freeowner 1 = ok 0
        find x \"Other\" = ok
        dbinfo x = ok \"Other\" 0000 0 6 6 0 0 \"DATA\" \"Test\" 00000000 0
        dbcount = ok 2",
    ),
];

/// The database that the first call makes.
const NOTES: Db = Db(16);

/// Calls on it, of which the last deletes it.
const DATABASE_CALLS: [Call; 5] = [
    Call::Database(DatabaseCall::Nth(0)),
    Call::Database(DatabaseCall::Count),
    Call::Database(DatabaseCall::Info(NOTES)),
    Call::Database(DatabaseCall::Delete(Db(20))),
    Call::Database(DatabaseCall::Delete(NOTES)),
];

fn search(name: &str) -> Call {
    Call::Database(DatabaseCall::Find(DbName::of(name.as_bytes())))
}

/// The calls in their order, and what each is answered.
#[test]
fn calls_on_databases_are_answered(rt: HostRuntime) -> Result<(), Fail> {
    let mut store = listed_store(rt.alloc(), WIDE)?;
    let front = [creation("Notes", false), search("Notes")];
    let behind = [search("Notes")];
    let said =
        "Database(Db(16)); Database(Db(16)); Database(Db(16)); Number(1); Info(DbInfo { name: DbName { \
        bytes: [78, 111, 116, 101, 115, 0, 0, 0, 0, 0, 0, 0, 0, 0, 0, 0, 0, 0, 0, 0, 0, 0, 0, 0, 0, 0, 0, 0, 0, 0, 0, \
        0], length: 5 }, attributes: 0, version: 0, creation_date: 3, modification_date: 3, backup_date: 0, \
        modification_number: 0, kind: 1, creator: 2, seed: 0, entry_count: 0 }); Refused(NoSuchDatabase); Done; \
        Refused(NoSuchDatabase); ";
    check_calls(
        rt.alloc(),
        &mut store,
        &[&front, &DATABASE_CALLS, &behind],
        said,
    )?;
    equal("databases", store.summary().databases, 0)
}

/// Returns a script that makes `count` databases.
fn creations(alloc: Global, count: u32) -> Result<String, AllocError> {
    let mut script = String::new(alloc);
    for number in 0..count {
        writeln!(script, "create d \"{number}\" \"DATA\" \"Test\" 0 0")?;
    }
    Ok(script)
}

/// Whether `check` counts 1,024 databases in an image.
fn has_1024(alloc: Global, image: &[u8]) -> bool {
    let (status, out) = check_on(alloc, image, Vec::new(alloc));
    status == Status::Done && out.ends_with(b"databases 1024\n")
}

/// 1,024 databases are made, and no other.
#[test]
fn a_store_has_1024_databases_at_most(rt: HostRuntime) -> Result<(), Fail> {
    let blank = bytes_of(rt.alloc(), ROOMY)?;
    let script = creations(rt.alloc(), 1_025)?;
    let ran = run_on(rt.alloc(), &blank, script.as_str(), &[]);
    let is_told = ran.out.ends_with(b"ok\nrefused 17 TooManyEntries\n");
    equal("bytes", ran.out.len(), 1_024 * 3 + 26)?;
    holds("the replies", is_told && has_1024(rt.alloc(), &ran.image))
}

/// A blank image of 200,000 bytes with 1,100 slots.
const ROOMY: &str = "50484931 00030D40 044C 0000 00000000 00*4400 8002FC00 \
    00*65000 00*65000 00*65000 00*580";
