//! Files of databases that are read and written, by hand.

use crate::store::steps::{Example, Step, check_all};
use heap_model::Db;
use std::test::*;
use test_support::{BLANK, EMPTY_FILE, EMPTY_WRITTEN, ORDER_FILE, ORDER_WRITTEN, TINY_FILE, WIDE};

/// A file of two records without a byte, whose seed is the last ID but one, and one of which has
/// the last ID.
const LAST_SEED_FILE: &str =
    "496473 00*29 0000 0000 00*24 44415441 54657374 07fffffe 00000000 0002 \
    00000060 00 ffffff 00000060 00 000001 0000";

/// What is written of `TINY_FILE` when its first resource is gone.
const TINY_WRITTEN: &str =
    "54696e79 00*28 0001 0001 00*12 00000001 00*8 6170706c 54657374 00000000 00000000 0001 \
    74535452 03e9 0000005a 0000 596f00";

/// A file of two records with both info blocks, which stand against their order, and none of which
/// is empty.
const BACKWARD_FILE: &str =
    "4261636b 00*28 0000 0000 00*16 00000064 00000062 44415441 54657374 00000000 00000000 0002 \
    00000060 00 000001 0000005e 00 000002 01020304050607";

/// What is written of it.
const BACKWARD_FILE_WRITTEN: &str =
    "4261636b 00*28 0000 0000 00*16 00000060 00000061 44415441 54657374 00000000 00000000 0002 \
    00000063 00 000001 00000065 00 000002 0000 07 0506 0304 0102";

/// A file of five records with both info blocks. Bytes before the first block belong to none, three
/// blocks begin at one offset, a deleted record has no data, another's begins where the file ends,
/// and an ID stands three times.
const ODD_FILE: &str = "4141414141414141414141414141414141414141414141414141414141414141 \
    0008 0000 00*16 0000007c 0000007c 44415441 54657374 b0ffffff 00000000 0005 \
    0000007c 33 000007 00000078 00 000007 00000000 e0 000007 00000082 a0 000000 0000007a 40 000000 \
    0909 0102030405060708090a";

/// The first database of a store is read.
const IS_FIRST: &str = "Database(Db(16))";

/// What is written of one has the two zeros too.
const READ_ONCE: [Step; 3] = [
    Step::Reads(EMPTY_FILE, IS_FIRST),
    Step::Writes(Db(16), EMPTY_WRITTEN),
    Step::Reads(EMPTY_FILE, "refused AlreadyExists"),
];

const RECORDS: [Step; 5] = [
    Step::Reads(ORDER_FILE, IS_FIRST),
    Step::Writes(Db(16), ORDER_WRITTEN),
    Step::Reads(BACKWARD_FILE, "Database(Db(36))"),
    Step::Writes(Db(36), BACKWARD_FILE_WRITTEN),
    Step::Writes(Db(16), ORDER_WRITTEN),
];

/// The last ID is taken, and the first after it.
const NEXT_ID: [Step; 3] = [
    Step::Reads(LAST_SEED_FILE, IS_FIRST),
    Step::Does("new_record 16 65535 0 = Made { index: 2, name: Name(32) }"),
    Step::Does(
        "record_info 16 2 = Record(RecordInfo { attributes: 96, id: 2, data: Some(Name(32)) })",
    ),
];

const RESOURCES: [Step; 4] = [
    Step::Reads(TINY_FILE, IS_FIRST),
    Step::Does("find_resource 16 tSTR 1001 = 1"),
    Step::Does("remove_resource 16 0 = done"),
    Step::Writes(Db(16), TINY_WRITTEN),
];

/// The block begins where the file ends.
const EMPTY_BLOCK: [Step; 4] = [
    Step::Reads(
        "456d707479 00*27 0000 0000 00*16 0000004e 00*4 44415441 54657374 00*8 0000",
        IS_FIRST,
    ),
    Step::Does("app_info 16 = named 20"),
    Step::Does("size 20 = 0"),
    Step::Writes(
        Db(16),
        "456d707479 00*27 0000 0000 00*16 00000050 00*4 44415441 54657374 00*8 0000 0000",
    ),
];

/// What stands in the file at the offset 0 isn't the data of a deleted record.
const NO_DATA: [Step; 2] = [
    Step::Reads(ODD_FILE, IS_FIRST),
    Step::Does("record_info 16 2 = Record(RecordInfo { attributes: 192, id: 2, data: None })"),
];

/// Files that have no database, and why.
const FAULTS: [Step; 7] = [
    Step::Reads("", "refused BadFile(Truncated)"),
    Step::Reads("61 00*76", "refused BadFile(Truncated)"),
    Step::Reads("61 00*71 00000001 0000", "refused BadFile(ChainedList)"),
    Step::Reads("00*78", "refused BadFile(EmptyName)"),
    Step::Reads("61 00*51 00000010 00*22", "refused BadFile(BadInfo(App))"),
    Step::Reads("61 00*55 0000004F 00*18", "refused BadFile(BadInfo(Sort))"),
    Step::Reads("61 00*75 0001 00*8", "refused BadFile(BadOffset(0))"),
];

/// All parts of it that were made are given back.
const GIVEN_BACK: [Step; 2] = [
    Step::Reads(ORDER_FILE, "refused NotEnoughSpace"),
    Step::Does("free_bytes = 96"),
];

/// No database has the number of a chunk.
const CHUNK_WRITTEN: [Step; 2] = [
    Step::Does("handle_new 78 1 = named 16"),
    Step::Does("export 16 = refused NoSuchDatabase"),
];

static EXAMPLES: [Example; 9] = [
    ("a database without entries is read once", WIDE, &READ_ONCE),
    ("records are read in their order", WIDE, &RECORDS),
    (
        "a record gets an ID behind those of the file",
        WIDE,
        &NEXT_ID,
    ),
    ("resources are read and written", WIDE, &RESOURCES),
    ("an info block may be empty", WIDE, &EMPTY_BLOCK),
    ("a deleted record may have no data", WIDE, &NO_DATA),
    ("files without a database are refused", WIDE, &FAULTS),
    (
        "a database that finds no room is given back",
        BLANK,
        &GIVEN_BACK,
    ),
    ("a chunk is not written as a file", WIDE, &CHUNK_WRITTEN),
];

#[test]
fn files_are_read_and_written(rt: HostRuntime) -> Result<(), Fail> {
    check_all(&rt, &EXAMPLES)
}
