//! Chunks of callers that become the data of records or info blocks, and those that databases hand
//! back.

use crate::records::NARROW;
use crate::runs::check_runs;
use std::test::Fail;
use test_support::WIDE;

#[test]
fn lines_print_their_replies(rt: HostRuntime) -> Result<(), Fail> {
    check_runs(rt.alloc(), &RUNS)
}

/// Images, and the lines that are run on them, each with its reply.
static RUNS: [(&str, &str); 10] = [
    // a caller's chunk becomes a record, and a database's doesn't
    (
        WIDE,
        "new a 8 3 = ok
        lock a = ok 1
        ptrnew p 8 3 = ok
        new b 8 4 = ok
        create d \"Notes\" \"DATA\" \"Test\" 0 5 = ok
        recnew d 0 8 r = ok 0
        freeowner 3 = ok 2
        size a = refused 1 InvalidHandle
        size p = refused 1 InvalidHandle
        size b = ok 8
        size r = ok 8
        freeowner 15 = refused 7 InvalidOwner
        recattach d 0 r = refused 2 OwnedByDatabase
        recattach d 0 b = ok 0
        recinfo d 0 = ok 40 2 data
        recinfo d 1 = ok 60 1 data
        owner b = ok 15
        free b = refused 2 OwnedByDatabase
        recattach d 0 a = refused 1 InvalidHandle
        recattach d 0 b = refused 2 OwnedByDatabase
        recattach d 0 x = refused 1 InvalidHandle
        recquery d 0 q = ok
        size q = ok 8
        dbinfo d = ok \"Notes\" 0000 0 5 5 0 2 \"DATA\" \"Test\" 00000002 2",
    ),
    // an index beyond the end is the end
    (
        WIDE,
        "create d \"Notes\" \"DATA\" \"Test\" 0 5 = ok
        new a 1 1 = ok
        new b 2 1 = ok
        new c 3 1 = ok
        recattach d 4294967295 a = ok 0
        recattach d 9 b = ok 1
        recattach d 1 c = ok 1
        recquery d 1 q = ok
        size q = ok 3
        recquery d 2 q = ok
        size q = ok 2
        recinfo d 1 = ok 40 3 data
        reccount d = ok 3",
    ),
    // the data of a record is replaced, and handed to a caller
    (
        WIDE,
        "create d \"Notes\" \"DATA\" \"Test\" 0 5 = ok
        recnew d 0 6 r = ok 0
        new a 4 1 = ok
        recreplace d 1 a 2 o = refused 14 IndexOutOfRange
        recreplace d 0 a 2 o = ok
        owner o = ok 2
        size o = ok 6
        owner a = ok 15
        recinfo d 0 = ok 60 1 data
        recquery d 0 q = ok
        size q = ok 4
        ptrnew p 4 1 = ok
        recattach d 0 p = refused 6 ChunkFixed
        recreplace d 0 p 0 x = refused 6 ChunkFixed
        recreplace d 0 a 0 x = refused 2 OwnedByDatabase
        recreplace d 0 x 0 x = refused 1 InvalidHandle
        recreplace d 0 o 0 x = refused 7 InvalidOwner
        recreplace d 0 o 15 x = refused 7 InvalidOwner
        size x = refused 1 InvalidHandle
        size o = ok 6
        dbinfo d = ok \"Notes\" 0000 0 5 5 0 2 \"DATA\" \"Test\" 00000001 1
        recset d 0 0x13 9 = ok
        recrelease d 0 0 = ok
        recreplace d 0 o 14 o = ok
        recinfo d 0 = ok 53 9 data
        size o = ok 4
        recarchive d 0 = ok
        recreplace d 0 x 0 x = refused 15 RecordDeleted
        recreplace d 1 x 0 x = refused 14 IndexOutOfRange",
    ),
    // an info block is set once, asked for and taken
    (
        WIDE,
        "create d \"Notes\" \"DATA\" \"Test\" 0 5 = ok
        new a 4 1 = ok
        infoset d app a = ok
        infoset d app a = refused 21 AlreadyExists
        infoset d app x = refused 21 AlreadyExists
        infoset d sort a = refused 2 OwnedByDatabase
        infoset d sort x = refused 1 InvalidHandle
        free a = refused 2 OwnedByDatabase
        owner a = ok 15
        infotake d sort 1 h = refused 24 NoInfoBlock
        infotake d sort 0 h = refused 24 NoInfoBlock
        infotake d app 0 h = refused 7 InvalidOwner
        infotake d app 15 h = refused 7 InvalidOwner
        info d sort h = refused 24 NoInfoBlock
        size h = refused 1 InvalidHandle
        info d app x = ok
        size x = ok 4
        infotake d app 2 h = ok
        owner a = ok 2
        owner h = ok 2
        info d app x = refused 24 NoInfoBlock
        owner x = ok 2
        dbinfo d = ok \"Notes\" 0000 0 5 5 0 2 \"DATA\" \"Test\" 00000000 0
        ptrnew p 4 1 = ok
        infoset d app p = refused 6 ChunkFixed
        new b 3 1 = ok
        infoset d sort b = ok
        infoset d app h = ok
        info d sort x = ok
        size x = ok 3
        info d app x = ok
        size x = ok 4
        dbdelete d = ok
        size a = refused 1 InvalidHandle
        size b = refused 1 InvalidHandle
        info d app x = refused 10 NoSuchDatabase
        freeowner 1 = ok 1
        freebytes = ok 936",
    ),
    // a chunk that is given keeps its locks and its bytes, and so does one that is handed back
    (
        WIDE,
        "create d \"Notes\" \"DATA\" \"Test\" 0 5 = ok
        new a 4 1 = ok
        lock a = ok 1
        lock a = ok 2
        write a 0 4142 = ok
        recattach d 9 a = ok 0
        locks a = ok 2
        read a 0 4 = ok 41420000
        recdelete d 0 = refused 3 ChunkLocked
        dbdelete d = refused 3 ChunkLocked
        new b 4 1 = ok
        lock b = ok 1
        recreplace d 0 b 1 o = ok
        locks o = ok 2
        locks b = ok 1
        read o 0 4 = ok 41420000
        dbdelete d = refused 3 ChunkLocked
        unlock b = ok 0
        new c 4 1 = ok
        lock c = ok 1
        infoset d sort c = ok
        locks c = ok 1
        dbdelete d = refused 3 ChunkLocked
        infotake d sort 1 x = ok
        locks x = ok 1
        dbdelete d = ok
        size b = refused 1 InvalidHandle
        size a = ok 4
        size c = ok 4",
    ),
    // no room for one entry more: all is left as it was
    (
        NARROW,
        "create d \"Notes\" \"DATA\" \"Test\" 0 5 = ok
        new a 8 1 = ok
        freebytes = ok 0
        recattach d 0 a = refused 8 NotEnoughSpace
        owner a = ok 1
        reccount d = ok 0
        dbinfo d = ok \"Notes\" 0000 0 5 5 0 0 \"DATA\" \"Test\" 00000000 0
        infoset d app a = ok
        infotake d app 1 a = ok
        free a = ok
        new a 0 1 = ok
        recattach d 0 a = ok 0",
    ),
    // databases that may only be read
    (
        WIDE,
        "create d \"Notes\" \"DATA\" \"Test\" 0 5 = ok
        recnew d 0 4 r = ok 0
        new a 4 1 = ok
        infoset d app a = ok
        dbset d \"Notes\" 2 0 5 5 0 \"DATA\" \"Test\" = ok
        recattach d 9 x = refused 13 ReadOnly
        recreplace d 9 x 0 h = refused 13 ReadOnly
        infoset d app x = refused 13 ReadOnly
        infotake d sort 0 h = refused 13 ReadOnly
        info d app h = ok
        size h = ok 4
        info d sort h = refused 24 NoInfoBlock",
    ),
    // databases of resources have info blocks, and no records; and none
    (
        WIDE,
        "create p \"Prog\" \"appl\" \"Test\" 1 0 = ok
        recattach p 0 x = refused 11 NotRecordDatabase
        recreplace p 0 x 0 h = refused 11 NotRecordDatabase
        dbset p \"Prog\" 2 0 0 0 0 \"appl\" \"Test\" = ok
        recattach p 0 x = refused 11 NotRecordDatabase
        recreplace p 0 x 0 h = refused 11 NotRecordDatabase
        dbset p \"Prog\" 0 0 0 0 0 \"appl\" \"Test\" = ok
        new b 4 1 = ok
        infoset p app b = ok
        info p app h = ok
        infotake p app 3 h = ok
        owner b = ok 3
        recattach e 0 x = refused 10 NoSuchDatabase
        recreplace e 0 x 0 h = refused 10 NoSuchDatabase
        infoset e app x = refused 10 NoSuchDatabase
        infotake e app 0 h = refused 10 NoSuchDatabase
        info e app h = refused 10 NoSuchDatabase",
    ),
    // an owner is one of 1 to 14: of a greater number no bit is dropped
    (
        WIDE,
        "new x 4 16 = refused 7 InvalidOwner
        new x 4 17 = refused 7 InvalidOwner
        new x 4 255 = refused 7 InvalidOwner
        ptrnew x 4 16 = refused 7 InvalidOwner
        ptrnew x 4 17 = refused 7 InvalidOwner
        ptrnew x 4 255 = refused 7 InvalidOwner
        new a 4 1 = ok
        setowner x 17 = refused 1 InvalidHandle
        setowner a 16 = refused 7 InvalidOwner
        setowner a 17 = refused 7 InvalidOwner
        setowner a 255 = refused 7 InvalidOwner
        freeowner 16 = refused 7 InvalidOwner
        freeowner 17 = refused 7 InvalidOwner
        freeowner 255 = refused 7 InvalidOwner
        owner a = ok 1
        create d \"Notes\" \"DATA\" \"Test\" 0 5 = ok
        recnew d 0 6 r = ok 0
        setowner r 17 = refused 2 OwnedByDatabase
        recdetach d 1 17 x = refused 14 IndexOutOfRange
        recdetach d 0 16 x = refused 7 InvalidOwner
        recdetach d 0 17 x = refused 7 InvalidOwner
        recdetach d 0 255 x = refused 7 InvalidOwner
        recreplace d 0 r 17 x = refused 2 OwnedByDatabase
        recreplace d 0 a 16 x = refused 7 InvalidOwner
        recreplace d 0 a 17 x = refused 7 InvalidOwner
        recreplace d 0 a 255 x = refused 7 InvalidOwner
        infotake d app 17 x = refused 24 NoInfoBlock
        infoset d app a = ok
        infotake d app 16 x = refused 7 InvalidOwner
        infotake d app 17 x = refused 7 InvalidOwner
        infotake d app 255 x = refused 7 InvalidOwner
        create p \"Prog\" \"appl\" \"Test\" 1 0 = ok
        resnew p \"code\" 0 4 c = ok 0
        resdetach p 1 17 x = refused 14 IndexOutOfRange
        resdetach p 0 16 x = refused 7 InvalidOwner
        resdetach p 0 17 x = refused 7 InvalidOwner
        resdetach p 0 255 x = refused 7 InvalidOwner
        size x = refused 1 InvalidHandle
        owner c = ok 15
        dbinfo d = ok \"Notes\" 0000 0 5 5 0 2 \"DATA\" \"Test\" 00000001 1",
    ),
    // what one database has isn't given to another, nor to itself
    (
        WIDE,
        "create d \"Notes\" \"DATA\" \"Test\" 0 5 = ok
        recnew d 0 6 r = ok 0
        new a 4 1 = ok
        infoset d app a = ok
        create e \"Other\" \"DATA\" \"Test\" 0 5 = ok
        recnew e 0 2 s = ok 0
        recattach e 0 r = refused 2 OwnedByDatabase
        recattach e 0 a = refused 2 OwnedByDatabase
        recreplace e 0 r 1 x = refused 2 OwnedByDatabase
        recreplace e 0 a 1 x = refused 2 OwnedByDatabase
        recreplace e 0 s 1 x = refused 2 OwnedByDatabase
        infoset e app r = refused 2 OwnedByDatabase
        infoset e sort a = refused 2 OwnedByDatabase
        create p \"Prog\" \"appl\" \"Test\" 1 0 = ok
        resnew p \"code\" 0 4 c = ok 0
        resattach p \"code\" 1 r = refused 2 OwnedByDatabase
        resattach p \"code\" 1 c = refused 2 OwnedByDatabase
        recattach e 0 c = refused 2 OwnedByDatabase
        reccount e = ok 1
        rescount p = ok 1
        dbdelete e = ok
        dbdelete p = ok
        size r = ok 6
        size a = ok 4
        size s = refused 1 InvalidHandle
        size c = refused 1 InvalidHandle",
    ),
];
