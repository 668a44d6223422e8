//! Files that scripts import and export.

use crate::calls::listed_store;
use crate::runs::check_lines;
use heap_model::{Bytes, Call, FileCall, Reply};
use palm_script::do_call;
use std::alloc::Global;
use std::test::Fail;
use test_support::{
    BLANK, EMPTY_FILE, EMPTY_WRITTEN, ORDER_FILE, ORDER_WRITTEN, TINY_FILE, WIDE, bytes_of, equal,
};

/// A file of records with the greatest and the least ID, whose seed is just below the greatest.
const WRAPPED_IDS_FILE: &str =
    "496473 00*29 0000 0000 00*24 44415441 54657374 07fffffe 00000000 0002 \
    00000060 00 ffffff 00000060 00 000001 0000";

/// The file of two resources without the first, as it is written.
const TINY_REWRITTEN: &str =
    "54696e79 00*28 0001 0001 00*12 00000001 00*8 6170706c 54657374 00000000 \
    00000000 0001 74535452 03e9 0000005a 0000 596f00";

/// A file with both info blocks and three records, one deleted with data and one without, whose
/// blocks stand in another order, with bytes between that are no block's.
const TURNED: &str = "5475726e 00*28 0000 0000 00*16 0000006f 0000006d 44415441 54657374 00000000 \
    00000000 0003 0000006a 01 000007 00000000 80 000009 00000067 82 000008 \
    aa 313233 343536 3738 39";

/// The same, as it is written.
const TURNED_WRITTEN: &str = "5475726e 00*28 0000 0000 00*16 00000068 00000069 44415441 54657374 \
    00000000 00000000 0003 0000006b 01 000007 00000000 80 000009 0000006e 82 000008 \
    0000 39 3738 343536 313233";

/// A script that is run on an image, with its input files, and what comes of it.
struct Case {
    image: &'static str,
    inputs: &'static [&'static str],
    /// The lines, each with its reply behind ` = `.
    lines: &'static str,
    files: &'static [&'static str],
}

static CASES: [Case; 9] = [
    // an empty database is written with two bytes of filler, and a name is there once
    Case {
        image: WIDE,
        inputs: &[EMPTY_FILE],
        lines: "import d 1 = ok
            export d = ok 80
            import d 1 = refused 21 AlreadyExists
            dbinfo d = ok \"Empty\" 0000 0 0 0 0 0 \"DATA\" \"Test\" 00000000 0
            import d 9 = refused 25 BadFile Truncated
            import d 0 = refused 25 BadFile Truncated
            export e = refused 10 NoSuchDatabase
            dbcount = ok 1",
        files: &[EMPTY_WRITTEN],
    },
    // an ID is used once, blocks that share an offset are empty but for the last, no record is busy
    Case {
        image: WIDE,
        inputs: &[EMPTY_FILE, ORDER_FILE],
        lines: "import d 2 = ok
            recinfo d 0 = ok 00 1 data
            recinfo d 1 = ok 03 5 data
            recinfo d 2 = ok 00 2 data
            recquery d 0 a = ok
            recquery d 1 b = ok
            recquery d 2 c = ok
            size a = ok 0
            read b 0 4 = ok 42424242
            read c 0 4 = ok 43434343
            export d = ok 112
            dbdelete d = ok
            freebytes = ok 936",
        files: &[ORDER_WRITTEN],
    },
    // IDs wrap from the greatest to the least that is free
    Case {
        image: WIDE,
        inputs: &[WRAPPED_IDS_FILE],
        lines: "import d 1 = ok
            recnew d 65535 0 r = ok 2
            recinfo d 2 = ok 60 2 data
            dbinfo d = ok \"Ids\" 0000 0 0 0 0 1 \"DATA\" \"Test\" 07000002 3",
        files: &[],
    },
    // resources
    Case {
        image: WIDE,
        inputs: &[TINY_FILE],
        lines: "import d 1 = ok
            rescount d = ok 2
            resfind d \"tSTR\" 1001 = ok 1
            restype d \"tSTR\" 0 = ok 0
            restype d \"tSTR\" 2 = refused 23 ResourceNotFound
            resremove d 0 = ok
            export d = ok 93",
        files: &[TINY_REWRITTEN],
    },
    // blocks against the order of the list, deleted records with and without data, and info blocks
    Case {
        image: WIDE,
        inputs: &[TURNED],
        lines: "import d 1 = ok
            info d app a = ok
            read a 0 1 = ok 39
            info d sort s = ok
            read s 0 2 = ok 3738
            recinfo d 0 = ok 01 7 data
            recinfo d 1 = ok 80 9 none
            recinfo d 2 = ok 82 8 data
            recquery d 0 r = ok
            read r 0 3 = ok 343536
            export d = ok 113
            export d = ok 113",
        files: &[TURNED_WRITTEN, TURNED_WRITTEN],
    },
    // files of several databases, in the order of their lines
    Case {
        image: WIDE,
        inputs: &[EMPTY_FILE, TINY_FILE],
        lines: "import d 1 = ok
            import e 2 = ok
            nth x 1 = ok
            resremove x 0 = ok
            export x = ok 93
            export d = ok 80
            dbcount = ok 2",
        files: &[TINY_REWRITTEN, EMPTY_WRITTEN],
    },
    // what doesn't fit leaves nothing
    Case {
        image: BLANK,
        inputs: &[ORDER_FILE],
        lines: "import d 1 = refused 8 NotEnoughSpace
            freebytes = ok 96
            dbcount = ok 0
            dbinfo d = refused 10 NoSuchDatabase",
        files: &[],
    },
    // a refused import leaves its label
    Case {
        image: WIDE,
        inputs: &[EMPTY_FILE],
        lines: "create d \"D\" \"DATA\" \"Test\" 0 5 = ok
            import d 2 = refused 25 BadFile Truncated
            dbinfo d = ok \"D\" 0000 0 5 5 0 0 \"DATA\" \"Test\" 00000000 0
            import d 1 = ok
            dbinfo d = ok \"Empty\" 0000 0 0 0 0 0 \"DATA\" \"Test\" 00000000 0",
        files: &[],
    },
    // what is wrong with a file is said; and an info block of no bytes has an offset in what is
    // written
    Case {
        image: WIDE,
        inputs: &[
            "456d707479 00*27 0000 0000 00*16 00000010 00000000 44415441 54657374 00000000 00000000 0000",
            "456d707479 00*27 0000 0000 00*16 00000000 0000004f 44415441 54657374 00000000 00000000 0000",
            "456d707479 00*27 0000 0000 00*24 44415441 54657374 00000000 00000001 0000",
            "006d707479 00*27 0000 0000 00*24 44415441 54657374 00000000 00000000 0000",
            "456d707479 00*27 0000 0000 00*24 44415441 54657374 00000000 00000000 0001",
            "54696e79 00*28 0001 0001 00*24 6170706c 54657374 00000000 00000000 0002 \
                74535452 03e8 00000000 74535452 03e9 00000067 0000 486900 596f00",
            "54696e79 00*28 0001 0001 00*24 6170706c 54657374 00000000 00000000 0002 \
                74535452 03e8 00000064 74535452 03e9 0000006b 0000 486900 596f00",
            "456d707479 00*27 0000 0000 00*16 0000004e 00000000 44415441 54657374 00000000 00000000 0000",
            "456d707479 00*27 0000 0000 00*24 44415441 54657374 00000000 00000000 00",
        ],
        lines: "import d 1 = refused 25 BadFile BadInfo app
            import d 2 = refused 25 BadFile BadInfo sort
            import d 3 = refused 25 BadFile ChainedList
            import d 4 = refused 25 BadFile EmptyName
            import d 5 = refused 25 BadFile Truncated
            import d 6 = refused 25 BadFile BadOffset 0
            import d 7 = refused 25 BadFile BadOffset 1
            import d 9 = refused 25 BadFile Truncated
            import d 8 = ok
            info d app a = ok
            size a = ok 0
            export d = ok 80",
        files: &[
            "456d707479 00*27 0000 0000 00*16 00000050 00000000 44415441 54657374 00000000 00000000 0000 0000",
        ],
    },
];

/// The bytes of a listing, as calls have them.
fn file_of(alloc: Global, listing: &str) -> Result<Bytes, Fail> {
    Ok(Bytes::of(bytes_of(alloc, listing)?))
}

fn files_of(alloc: Global, listings: &[&str]) -> Result<Vec<Bytes>, Fail> {
    let mut files = Vec::new(alloc);
    for listing in listings {
        files.push(file_of(alloc, listing)?)?;
    }
    Ok(files)
}

fn check_case(alloc: Global, case: &Case) -> Result<(), Fail> {
    let image = bytes_of(alloc, case.image)?;
    let inputs = files_of(alloc, case.inputs)?;
    let files = files_of(alloc, case.files)?;
    check_lines(alloc, &image, case.lines, &inputs, &files)
}

#[test]
fn files_come_and_go(rt: HostRuntime) -> Result<(), Fail> {
    for case in &CASES {
        check_case(rt.alloc(), case)?;
    }
    Ok(())
}

/// The file that is written of a database that is read from a file, as a reply.
fn carried(alloc: Global, file: Bytes) -> Result<Reply, Fail> {
    let mut store = listed_store(alloc, WIDE)?;
    let import = Call::File(FileCall::Import(file));
    match do_call(alloc, &mut store, &import) {
        Reply::Database(db) => Ok(do_call(alloc, &mut store, &Call::File(FileCall::Export(db)))),
        _ => Err("not read")?,
    }
}

fn check_carried(alloc: Global, read: &str, written: &str) -> Result<(), Fail> {
    let reply = carried(alloc, file_of(alloc, read)?)?;
    equal(read, reply, Reply::Data(file_of(alloc, written)?))
}

/// Files, and what is written of them.
static CARRIED: [(&str, &str); 4] = [
    (EMPTY_FILE, EMPTY_WRITTEN),
    (ORDER_FILE, ORDER_WRITTEN),
    (TINY_FILE, TINY_FILE),
    (TURNED, TURNED_WRITTEN),
];

/// A file is read by one call, and written by another: each byte of it.
#[test]
fn a_file_comes_and_goes_by_calls(rt: HostRuntime) -> Result<(), Fail> {
    for (read, written) in &CARRIED {
        check_carried(rt.alloc(), read, written)?;
    }
    Ok(())
}
