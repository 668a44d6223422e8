//! Calls with the replies that they must have, by hand: what lists seldom meet.

use crate::store::steps::{Example, Step, check_all};
use heap_model::Name;
use std::test::*;
use test_beside::MIXED;
use test_support::TWO_DATABASES;

/// The first database is deleted once one of its info blocks isn't locked, and the other once an
/// info block and the data of two records aren't.
const DELETED_DATABASES: [Step; 10] = [
    Step::Does("lock 56 = at 552 locks 1"),
    Step::Does("delete 24 = refused ChunkLocked"),
    Step::Unlocks(Name(56), 1),
    Step::Does("delete 24 = done"),
    Step::Unlocks(Name(28), 2),
    Step::Unlocks(Name(64), 14),
    Step::Does("lock 20 = at 336 locks 1"),
    Step::Does("delete 36 = refused ChunkLocked"),
    Step::Unlocks(Name(20), 1),
    Step::Does("delete 36 = done"),
];

/// The header of a database has room, and after it the longer directory has none.
const NOT_LISTED: [Step; 3] = [
    Step::Creates("C", "refused NotEnoughSpace"),
    Step::Does("free_bytes = 88"),
    Step::Does("count = 2"),
];

/// All records come into one category, which is deleted. The data of the first has two locks: while
/// it has them nothing is deleted.
const CATEGORY_DELETED: [Step; 7] = [
    Step::Does("move_category 36 0 3 = done"),
    Step::Does("move_category 36 0 5 = done"),
    Step::Does("delete_category 36 0 = refused ChunkLocked"),
    Step::Does("num_in_category 36 255 = 3"),
    Step::Unlocks(Name(28), 2),
    Step::Does("delete_category 36 0 = done"),
    Step::Does("num_in_category 36 255 = 0"),
];

static EXAMPLES: [Example; 3] = [
    (
        "locked info blocks keep a database",
        MIXED,
        &DELETED_DATABASES,
    ),
    (
        "a header that is not listed is given back",
        TWO_DATABASES,
        &NOT_LISTED,
    ),
    (
        "a locked record keeps its category",
        MIXED,
        &CATEGORY_DELETED,
    ),
];

#[test]
fn examples_are_done(rt: HostRuntime) -> Result<(), Fail> {
    check_all(&rt, &EXAMPLES)
}
