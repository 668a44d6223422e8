//! Records of categories, with their IDs and attributes: the lines that ask for them and change
//! them, and those that take data out of a database.

use crate::runs::check_runs;
use std::test::Fail;
use test_support::WIDE;

#[test]
fn lines_print_their_replies(rt: HostRuntime) -> Result<(), Fail> {
    check_runs(rt.alloc(), &RUNS)
}

/// Images, and the lines that are run on them, each with its reply.
static RUNS: [(&str, &str); 9] = [
    // deleted, archived, removed and detached
    (
        WIDE,
        "create d \"Notes\" \"DATA\" \"Test\" 0 5 = ok
        recnew d 9 6 r = ok 0
        recnew d 9 6 r = ok 1
        recnew d 9 6 r = ok 2
        recnew d 9 6 r = ok 3
        recdelete d 0 = ok
        recarchive d 1 = ok
        recremove d 2 = ok
        recdetach d 2 3 h = ok
        reccount d = ok 2
        recinfo d 0 = ok e0 1 none
        recinfo d 1 = ok e0 2 data
        recquery d 0 x = refused 15 RecordDeleted
        recdelete d 0 = refused 15 RecordDeleted
        catcount d 255 = ok 0
        size h = ok 6
        owner h = ok 3",
    ),
    // IDs, attributes and categories of two records
    (
        WIDE,
        "create d \"Notes\" \"DATA\" \"Test\" 0 5 = ok
        recnew d 0 4 r = ok 0
        recrelease d 0 0 = ok
        recset d 0 0xF3 9 = ok
        recinfo d 0 = ok 53 9 data
        recnew d 0 0 s = ok 0
        recset d 0 0 9 = refused 19 DuplicateId
        recfind d 2 = ok 0
        recfind d 1 = refused 20 UniqueIdNotFound
        catcount d 3 = ok 1
        catcount d 16 = refused 18 InvalidCategory
        catnext d 0 3 = ok 1
        catpos d 1 255 = ok 1
        recget d 0 h = refused 16 RecordBusy
        catmove d 5 3 1 = ok
        recinfo d 1 = ok 55 9 data
        catdelete d 5 = ok
        recinfo d 1 = ok d5 9 none
        dbinfo d = ok \"Notes\" 0000 0 5 5 0 5 \"DATA\" \"Test\" 00000002 2",
    ),
    // a category is moved: records are made dirty only where that is asked, and others are left
    // alone
    (
        WIDE,
        "create d \"Notes\" \"DATA\" \"Test\" 0 5 = ok
        recnew d 9 1 r = ok 0
        recnew d 9 1 s = ok 1
        recrelease d 0 0 = ok
        recrelease d 1 0 = ok
        recset d 0 0x11 0 = ok
        recset d 1 0x02 0 = ok
        catmove d 3 1 0 = ok
        recinfo d 0 = ok 13 1 data
        catmove d 15 3 1 = ok
        recinfo d 0 = ok 5f 1 data
        recinfo d 1 = ok 02 2 data
        catmove d 2 2 1 = ok
        recinfo d 1 = ok 42 2 data
        catmove d 0 9 1 = ok
        recinfo d 0 = ok 5f 1 data
        dbinfo d = ok \"Notes\" 0000 0 5 5 0 8 \"DATA\" \"Test\" 00000002 2",
    ),
    // deleted records are found by their IDs and counted, and are of no category
    (
        WIDE,
        "create d \"Notes\" \"DATA\" \"Test\" 0 5 = ok
        recnew d 9 1 r = ok 0
        recnew d 9 1 s = ok 1
        recnew d 9 1 t = ok 2
        recdelete d 0 = ok
        recarchive d 1 = ok
        recfind d 1 = ok 0
        recfind d 2 = ok 1
        reccount d = ok 3
        catcount d 0 = ok 1
        catcount d 255 = ok 1
        catnext d 0 0 = ok 2
        catnext d 0 255 = ok 2
        catnext d 2 0 = ok 2
        catnext d 3 0 = refused 14 IndexOutOfRange
        catnext d 0 1 = refused 14 IndexOutOfRange
        catpos d 2 0 = ok 0
        catpos d 2 255 = ok 0
        catpos d 3 0 = refused 14 IndexOutOfRange
        catmove d 7 0 1 = ok
        recinfo d 0 = ok e0 1 none
        recinfo d 1 = ok e0 2 data
        recinfo d 2 = ok 67 3 data
        catdelete d 0 = ok
        size s = ok 1
        recset d 0 0x47 5 = ok
        recinfo d 0 = ok e7 5 none",
    ),
    // the number of a category comes before the index; only lines that count take all categories
    (
        WIDE,
        "create d \"Notes\" \"DATA\" \"Test\" 0 5 = ok
        catcount d 255 = ok 0
        catcount d 15 = ok 0
        catnext d 9 16 = refused 18 InvalidCategory
        catnext d 9 254 = refused 18 InvalidCategory
        catnext d 9 255 = refused 14 IndexOutOfRange
        catpos d 0 16 = refused 18 InvalidCategory
        catpos d 0 255 = refused 14 IndexOutOfRange
        catmove d 255 0 1 = refused 18 InvalidCategory
        catmove d 0 255 1 = refused 18 InvalidCategory
        catmove d 16 0 1 = refused 18 InvalidCategory
        catmove d 0 16 1 = refused 18 InvalidCategory
        catdelete d 255 = refused 18 InvalidCategory
        catdelete d 16 = refused 18 InvalidCategory
        dbinfo d = ok \"Notes\" 0000 0 5 5 0 0 \"DATA\" \"Test\" 00000000 0
        catmove d 15 0 1 = ok
        catdelete d 15 = ok
        dbinfo d = ok \"Notes\" 0000 0 5 5 0 2 \"DATA\" \"Test\" 00000000 0",
    ),
    // where the data of one record is locked, none of the category is deleted
    (
        WIDE,
        "create d \"Notes\" \"DATA\" \"Test\" 0 5 = ok
        recnew d 9 1 r = ok 0
        recnew d 9 2 s = ok 1
        recnew d 9 3 t = ok 2
        lock s = ok 1
        catdelete d 0 = refused 3 ChunkLocked
        size r = ok 1
        size t = ok 3
        recinfo d 0 = ok 60 1 data
        recset d 1 1 0 = ok
        catdelete d 0 = ok
        size r = refused 1 InvalidHandle
        size s = ok 2
        size t = refused 1 InvalidHandle
        recinfo d 0 = ok e0 1 none
        recinfo d 1 = ok 21 2 data
        recinfo d 2 = ok e0 3 none
        dbinfo d = ok \"Notes\" 0000 0 5 5 0 5 \"DATA\" \"Test\" 00000003 3",
    ),
    // an ID has 24 bits: more are dropped where it is set, and found nowhere
    (
        WIDE,
        "create d \"Notes\" \"DATA\" \"Test\" 0 5 = ok
        recnew d 9 1 r = ok 0
        recnew d 9 1 s = ok 1
        recset d 0 0x40 0x01000002 = refused 19 DuplicateId
        recset d 0 0x40 0xFF000007 = ok
        recinfo d 0 = ok 60 7 data
        recfind d 7 = ok 0
        recfind d 0x01000007 = refused 20 UniqueIdNotFound
        recfind d 0xFF000007 = refused 20 UniqueIdNotFound
        recfind d 0 = refused 20 UniqueIdNotFound
        recset d 0 0x9F 0x01000000 = ok
        recinfo d 0 = ok 3f 7 data
        recset d 0 0 7 = ok
        recset d 1 0xFF 0xFFFFFF = ok
        recfind d 0xFFFFFF = ok 1
        recset d 2 0 7 = refused 14 IndexOutOfRange",
    ),
    // data that is detached keeps its bytes and its locks
    (
        WIDE,
        "create d \"Notes\" \"DATA\" \"Test\" 0 5 = ok
        recnew d 9 2 r = ok 0
        recnew d 9 1 s = ok 1
        lock r = ok 1
        write r 0 4142 = ok
        recdetach d 0 0 h = refused 7 InvalidOwner
        recdetach d 0 15 h = refused 7 InvalidOwner
        recdetach d 2 15 h = refused 14 IndexOutOfRange
        size h = refused 1 InvalidHandle
        recdetach d 0 14 h = ok
        locks h = ok 1
        owner h = ok 14
        read h 0 2 = ok 4142
        reccount d = ok 1
        recinfo d 0 = ok 60 2 data
        recarchive d 0 = ok
        recdetach d 0 0 h = refused 15 RecordDeleted
        unlock h = ok 0
        free r = ok
        dbdelete d = ok",
    ),
    // databases that may only be read, such as hold resources, and none
    (
        WIDE,
        "create d \"Notes\" \"DATA\" \"Test\" 0 5 = ok
        recnew d 0 4 r = ok 0
        dbset d \"Notes\" 2 0 5 5 0 \"DATA\" \"Test\" = ok
        recdetach d 9 0 h = refused 13 ReadOnly
        recset d 9 0 0 = refused 13 ReadOnly
        catmove d 16 16 0 = refused 13 ReadOnly
        catdelete d 16 = refused 13 ReadOnly
        recfind d 1 = ok 0
        catcount d 0 = ok 1
        catnext d 0 0 = ok 0
        catpos d 0 0 = ok 0
        create p \"Prog\" \"appl\" \"Test\" 1 0 = ok
        recdetach p 0 0 h = refused 11 NotRecordDatabase
        recset p 0 0 0 = refused 11 NotRecordDatabase
        recfind p 1 = refused 11 NotRecordDatabase
        catcount p 16 = refused 11 NotRecordDatabase
        catnext p 0 16 = refused 11 NotRecordDatabase
        catpos p 0 16 = refused 11 NotRecordDatabase
        catmove p 16 16 0 = refused 11 NotRecordDatabase
        catdelete p 16 = refused 11 NotRecordDatabase
        recdetach x 0 0 h = refused 10 NoSuchDatabase
        recset x 0 0 0 = refused 10 NoSuchDatabase
        recfind x 1 = refused 10 NoSuchDatabase
        catcount x 16 = refused 10 NoSuchDatabase
        catnext x 0 16 = refused 10 NoSuchDatabase
        catpos x 0 16 = refused 10 NoSuchDatabase
        catmove x 16 16 0 = refused 10 NoSuchDatabase
        catdelete x 16 = refused 10 NoSuchDatabase",
    ),
];
