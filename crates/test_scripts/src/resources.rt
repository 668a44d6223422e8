//! Resources: the lines that make, ask for, change and remove them, and those that give and take
//! their data.

use crate::calls::{check_calls, creation, listed_store};
use crate::records::NARROW;
use crate::runs::check_runs;
use heap_model::{Call, Db, Name, ResourceCall};
use std::test::Fail;
use test_support::WIDE;

#[test]
fn lines_print_their_replies(rt: HostRuntime) -> Result<(), Fail> {
    check_runs(rt.alloc(), &RUNS)
}

/// Images, and the lines that are run on them, each with its reply.
static RUNS: [(&str, &str); 11] = [
    // made, asked for, changed, resized, locked, detached and attached
    (
        WIDE,
        "create p \"Prog\" \"appl\" \"Test\" 1 0 = ok
        resnew p \"code\" 0 4 a = ok 0
        resnew p \"code\" 1 0 b = ok 1
        restype p \"code\" 1 = ok 1
        resset p 0 \"code\" 2 = ok
        resfind p \"code\" 2 = ok 0
        resresize p 0 12 = ok
        resinfo p 0 x = ok \"code\" 2
        size x = ok 12
        lock x = ok 1
        resremove p 0 = refused 3 ChunkLocked
        resdetach p 0 2 y = ok
        rescount p = ok 1
        resattach p \"data\" 7 y = ok 1
        dbinfo p = ok \"Prog\" 0001 0 0 0 0 6 \"appl\" \"Test\" 00000000 2",
    ),
    // a program: its code, and its texts by their IDs
    (
        WIDE,
        "create prog \"Hello\" \"appl\" \"helo\" 1 0 = ok
        resnew prog \"code\" 0 8 jump = ok 0
        resnew prog \"code\" 1 24 main = ok 1
        resnew prog \"tSTR\" 1000 6 text = ok 2
        lock text = ok 1
        strcopy text 0 \"Hello\" = ok
        unlock text = ok 0
        rescount prog = ok 3
        resfind prog \"tSTR\" 1000 = ok 2
        resinfo prog 2 found = ok \"tSTR\" 1000
        read found 0 6 = ok 48656c6c6f00
        resfind prog \"tSTR\" 1001 = refused 23 ResourceNotFound
        restype prog \"code\" 1 = ok 1
        restype prog \"code\" 2 = refused 23 ResourceNotFound
        resresize prog 2 12 = ok
        resset prog 2 \"tSTR\" 1001 = ok
        resfind prog \"tSTR\" 1001 = ok 2
        resremove prog 0 = ok
        resdetach prog 0 1 main = ok
        size main = ok 24
        resattach prog \"code\" 1 main = ok 1
        resinfo prog 1 again = ok \"code\" 1
        recinfo prog 0 = refused 11 NotRecordDatabase",
    ),
    // a database of records has no resources
    (
        WIDE,
        "create d \"Notes\" \"DATA\" \"Test\" 0 5 = ok
        create e \"Notes\" \"DATA\" \"Test\" 0 0 = refused 21 AlreadyExists
        create e \"\" \"DATA\" \"Test\" 0 0 = refused 22 InvalidName
        new a 4 1 = ok
        infoset d app a = ok
        infoset d app a = refused 21 AlreadyExists
        infoset d sort a = refused 2 OwnedByDatabase
        free a = refused 2 OwnedByDatabase
        infotake d sort 1 h = refused 24 NoInfoBlock
        infotake d app 0 h = refused 7 InvalidOwner
        infotake d app 2 h = ok
        owner a = ok 2
        rescount d = refused 12 NotResourceDatabase
        dbinfo e = refused 10 NoSuchDatabase
        find e \"None\" = refused 10 NoSuchDatabase",
    ),
    // the first of equals is found; of a type they are counted from 0, and others in between are
    // passed over
    (
        WIDE,
        "create p \"Prog\" \"appl\" \"Test\" 1 0 = ok
        restype p \"code\" 0 = refused 23 ResourceNotFound
        resfind p \"code\" 0 = refused 23 ResourceNotFound
        resnew p \"tSTR\" 1 1 a = ok 0
        resnew p \"code\" 1 2 b = ok 1
        resnew p \"tSTR\" 1 3 c = ok 2
        resnew p \"code\" 0 4 d = ok 3
        resnew p \"tSTR\" 65535 5 e = ok 4
        resfind p \"tSTR\" 1 = ok 0
        resfind p \"code\" 1 = ok 1
        resfind p \"code\" 0 = ok 3
        resfind p \"tSTR\" 0xFFFF = ok 4
        resfind p \"tSTR\" 0 = refused 23 ResourceNotFound
        resfind p \"tSTr\" 1 = refused 23 ResourceNotFound
        restype p \"tSTR\" 0 = ok 0
        restype p \"tSTR\" 1 = ok 2
        restype p \"tSTR\" 2 = ok 4
        restype p \"tSTR\" 3 = refused 23 ResourceNotFound
        restype p \"tSTR\" 4294967295 = refused 23 ResourceNotFound
        restype p \"code\" 1 = ok 3
        restype p \"codf\" 0 = refused 23 ResourceNotFound
        resremove p 0 = ok
        resfind p \"tSTR\" 1 = ok 1
        restype p \"tSTR\" 0 = ok 1
        size a = refused 1 InvalidHandle
        size c = ok 3
        rescount p = ok 4",
    ),
    // a type that can't be printed is in hex; it and the ID are changed, and the data stays
    (
        WIDE,
        "create p \"Prog\" \"appl\" \"Test\" 1 0 = ok
        resnew p x:00000001 65535 3 a = ok 0
        lock a = ok 1
        write a 0 010203 = ok
        resinfo p 0 x = ok x:00000001 65535
        resset p 0 x:22222222 0 = ok
        resinfo p 0 x = ok x:22222222 0
        resset p 0 \"a ~b\" 1 = ok
        resinfo p 0 y = ok \"a ~b\" 1
        read y 0 3 = ok 010203
        locks y = ok 1
        owner y = ok 15
        free y = refused 2 OwnedByDatabase
        resize y 4 = refused 2 OwnedByDatabase
        setowner y 1 = refused 2 OwnedByDatabase
        dbdelete p = refused 3 ChunkLocked
        dbinfo p = ok \"Prog\" 0001 0 0 0 0 3 \"appl\" \"Test\" 00000000 1",
    ),
    // data that is detached keeps its bytes and its locks, and so does a chunk that is attached
    (
        WIDE,
        "create p \"Prog\" \"appl\" \"Test\" 1 0 = ok
        new a 2 3 = ok
        lock a = ok 1
        lock a = ok 2
        write a 0 4142 = ok
        resattach p \"code\" 9 a = ok 0
        owner a = ok 15
        locks a = ok 2
        resnew p \"code\" 9 0 b = ok 1
        resfind p \"code\" 9 = ok 0
        resdetach p 0 0 h = refused 7 InvalidOwner
        resdetach p 0 15 h = refused 7 InvalidOwner
        resdetach p 2 0 h = refused 14 IndexOutOfRange
        size h = refused 1 InvalidHandle
        resdetach p 0 14 h = ok
        owner h = ok 14
        locks h = ok 2
        read h 0 2 = ok 4142
        rescount p = ok 1
        resinfo p 0 x = ok \"code\" 9
        size x = ok 0
        resinfo p 1 x = refused 14 IndexOutOfRange
        size x = ok 0
        resattach p \"data\" 0 h = ok 1
        resinfo p 1 x = ok \"data\" 0
        read x 0 2 = ok 4142
        dbinfo p = ok \"Prog\" 0001 0 0 0 0 4 \"appl\" \"Test\" 00000000 2",
    ),
    // what can't be attached
    (
        WIDE,
        "create p \"Prog\" \"appl\" \"Test\" 1 0 = ok
        resnew p \"code\" 0 4 a = ok 0
        ptrnew f 4 1 = ok
        resattach p \"code\" 1 a = refused 2 OwnedByDatabase
        resattach p \"code\" 1 f = refused 6 ChunkFixed
        resattach p \"code\" 1 x = refused 1 InvalidHandle
        bind x 16 = refused 1 InvalidHandle
        rescount p = ok 1
        dbinfo p = ok \"Prog\" 0001 0 0 0 0 1 \"appl\" \"Test\" 00000000 1",
    ),
    // bytes at the end of the data go, or zeros come; a locked one takes less where it stands, and
    // no more
    (
        WIDE,
        "create p \"Prog\" \"appl\" \"Test\" 1 0 = ok
        resnew p \"code\" 0 4 a = ok 0
        resnew p \"code\" 1 4 b = ok 1
        lock a = ok 1
        write a 0 01020304 = ok
        resresize p 0 2 = ok
        resresize p 0 6 = ok
        read a 0 6 = ok 010200000000
        resresize p 0 16 = refused 3 ChunkLocked
        resresize p 0 4294967295 = refused 3 ChunkLocked
        unlock a = ok 0
        resresize p 0 4294967295 = refused 8 NotEnoughSpace
        resresize p 0 16 = ok
        read a 0 16 = ok 01020000000000000000000000000000
        resresize p 2 0 = refused 14 IndexOutOfRange
        resset p 2 \"code\" 0 = refused 14 IndexOutOfRange
        resremove p 2 = refused 14 IndexOutOfRange
        resinfo p 4294967295 x = refused 14 IndexOutOfRange
        size b = ok 4",
    ),
    // no room for one entry more: all is left as it was
    (
        NARROW,
        "create p \"Prog\" \"appl\" \"Test\" 1 0 = ok
        new a 8 1 = ok
        freebytes = ok 0
        resnew p \"code\" 0 0 b = refused 8 NotEnoughSpace
        resattach p \"code\" 0 a = refused 8 NotEnoughSpace
        owner a = ok 1
        rescount p = ok 0
        dbinfo p = ok \"Prog\" 0001 0 0 0 0 0 \"appl\" \"Test\" 00000000 0
        free a = ok
        new a 0 1 = ok
        resattach p \"code\" 0 a = ok 0
        resnew p \"code\" 0 0 b = refused 8 NotEnoughSpace
        resremove p 0 = ok
        resnew p \"code\" 0 9 b = refused 8 NotEnoughSpace
        freebytes = ok 16
        rescount p = ok 0
        resnew p \"code\" 0 0 b = ok 0
        freebytes = ok 0",
    ),
    // databases that may only be read
    (
        WIDE,
        "create p \"Prog\" \"appl\" \"Test\" 1 0 = ok
        resnew p \"code\" 0 4 a = ok 0
        dbset p \"Prog\" 2 0 0 0 0 \"appl\" \"Test\" = ok
        resnew p \"code\" 0 4294967295 b = refused 13 ReadOnly
        resattach p \"code\" 0 x = refused 13 ReadOnly
        resdetach p 9 0 b = refused 13 ReadOnly
        resremove p 9 = refused 13 ReadOnly
        resresize p 9 0 = refused 13 ReadOnly
        resset p 9 \"code\" 0 = refused 13 ReadOnly
        resinfo p 0 b = ok \"code\" 0
        size b = ok 4
        resinfo p 1 b = refused 14 IndexOutOfRange
        resfind p \"code\" 0 = ok 0
        restype p \"code\" 1 = refused 23 ResourceNotFound
        rescount p = ok 1",
    ),
    // such as hold records, also where they may only be read, and none
    (
        WIDE,
        "create d \"Notes\" \"DATA\" \"Test\" 0 5 = ok
        recnew d 0 4 r = ok 0
        dbset d \"Notes\" 2 0 5 5 0 \"DATA\" \"Test\" = ok
        resnew d \"code\" 0 4294967295 b = refused 12 NotResourceDatabase
        resattach d \"code\" 0 x = refused 12 NotResourceDatabase
        resdetach d 9 0 b = refused 12 NotResourceDatabase
        resremove d 9 = refused 12 NotResourceDatabase
        resresize d 9 0 = refused 12 NotResourceDatabase
        resset d 9 \"code\" 0 = refused 12 NotResourceDatabase
        resinfo d 0 b = refused 12 NotResourceDatabase
        resfind d \"code\" 0 = refused 12 NotResourceDatabase
        restype d \"code\" 0 = refused 12 NotResourceDatabase
        rescount d = refused 12 NotResourceDatabase
        resnew x \"code\" 0 4294967295 b = refused 10 NoSuchDatabase
        resattach x \"code\" 0 x = refused 10 NoSuchDatabase
        resdetach x 9 0 b = refused 10 NoSuchDatabase
        resremove x 9 = refused 10 NoSuchDatabase
        resresize x 9 0 = refused 10 NoSuchDatabase
        resset x 9 \"code\" 0 = refused 10 NoSuchDatabase
        resinfo x 0 b = refused 10 NoSuchDatabase
        resfind x \"code\" 0 = refused 10 NoSuchDatabase
        restype x \"code\" 0 = refused 10 NoSuchDatabase
        rescount x = refused 10 NoSuchDatabase",
    ),
];

/// The type `code`.
const CODE: u32 = 0x636F_6465;

/// The database that is made first.
const PROGRAM: Db = Db(16);

/// Calls on its resources.
const RESOURCE_CALLS: [Call; 12] = [
    Call::Resource(ResourceCall::New {
        db: PROGRAM,
        kind: CODE,
        id: 7,
        size: 4,
    }),
    Call::Resource(ResourceCall::New {
        db: PROGRAM,
        kind: CODE,
        id: 8,
        size: 5,
    }),
    Call::Resource(ResourceCall::Count(PROGRAM)),
    Call::Resource(ResourceCall::Find {
        db: PROGRAM,
        kind: CODE,
        id: 8,
    }),
    Call::Resource(ResourceCall::FindType {
        db: PROGRAM,
        kind: CODE,
        nth: 1,
    }),
    Call::Resource(ResourceCall::SetInfo {
        db: PROGRAM,
        index: 0,
        kind: 1,
        id: 9,
    }),
    Call::Resource(ResourceCall::Info(PROGRAM, 0)),
    Call::Resource(ResourceCall::Resize {
        db: PROGRAM,
        index: 0,
        size: 6,
    }),
    Call::Resource(ResourceCall::Detach {
        db: PROGRAM,
        index: 0,
        owner: 1,
    }),
    Call::Resource(ResourceCall::Attach {
        db: PROGRAM,
        kind: CODE,
        id: 7,
        name: Name(24),
    }),
    Call::Resource(ResourceCall::Remove(PROGRAM, 1)),
    Call::Resource(ResourceCall::Info(PROGRAM, 1)),
];

/// The calls in their order, and what each is answered.
#[test]
fn calls_on_resources_are_answered(rt: HostRuntime) -> Result<(), Fail> {
    let mut store = listed_store(rt.alloc(), WIDE)?;
    let first = [creation("Prog", true)];
    let said =
        "Database(Db(16)); Made { index: 0, name: Name(24) }; Made { index: 1, name: Name(28) }; Number(2); \
        Number(1); Number(1); Done; Resource(ResourceInfo { kind: 1, id: 9, data: Name(24) }); Done; \
        Named(Name(24)); Number(1); Done; Refused(IndexOutOfRange); ";
    check_calls(rt.alloc(), &mut store, &[&first, &RESOURCE_CALLS], said)
}
