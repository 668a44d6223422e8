//! IDs of new records on one store, which knows of some that are free.

use crate::store::steps::{Step, check_on_one};
use heap_model::Db;
use std::test::*;
use test_beside::blank_image;

/// A record gets the next ID but one, and then the last ID is taken.
const SET: [Step; 12] = [
    Step::Creates("A", "Database(Db(16))"),
    Step::Numbers(Db(16), 1),
    Step::Numbers(Db(16), 2),
    Step::Numbers(Db(16), 3),
    Step::Does("set_record_info 16 0 0 5 = done"),
    Step::Numbers(Db(16), 4),
    Step::Does("set_record_info 16 0 0 16777215 = done"),
    Step::Numbers(Db(16), 6),
    Step::Does("set_record_info 16 0 0 7 = done"),
    Step::Numbers(Db(16), 8),
    Step::Does("set_record_info 16 0 0 1 = refused DuplicateId"),
    Step::Numbers(Db(16), 9),
];

/// The second database is `B`. The first is deleted, and another gets its number: what is known of
/// a database is nothing to that.
const GIVEN_AGAIN: [Step; 13] = [
    Step::Creates("A", "Database(Db(16))"),
    Step::Creates("B", "Database(Db(24))"),
    Step::Numbers(Db(16), 1),
    Step::Numbers(Db(16), 2),
    Step::Numbers(Db(16), 3),
    Step::Numbers(Db(24), 1),
    Step::Numbers(Db(16), 4),
    Step::Does("delete 16 = done"),
    Step::Creates("C", "Database(Db(16))"),
    Step::Numbers(Db(16), 1),
    Step::Numbers(Db(16), 2),
    Step::Numbers(Db(16), 3),
    Step::Numbers(Db(24), 2),
];

static LISTS: [(&str, &[Step]); 2] = [
    ("IDs that are set are not given", &SET),
    ("a number is given again", &GIVEN_AGAIN),
];

#[test]
fn new_records_get_ids(rt: HostRuntime) -> Result<(), Fail> {
    for (about, steps) in &LISTS {
        let image = blank_image(rt.alloc(), 4_000, 40)?;
        check_on_one(rt.alloc(), about, image, steps)?;
    }
    Ok(())
}
