//! As many databases as there may be, as many records, and as many resources as there are slots
//! for.

ghost use Rattle.std.specs.Prelude.{[], ◌≡◌};

use crate::notation::{check_reply, sides_of};
use crate::store::calls::call_of;
use crate::store::images::{crowded_program, full_database, with_databases};
use crate::store::steps::{Step, check_anew};
use palm_store::Store;
use std::alloc::Global;
use std::test::*;
use test_beside::{do_call, image_of, store_of};

/// The last of 1,024 databases is made, and no other; then the first goes, and another gets its
/// number.
static LAST_DATABASES: [Step; 9] = [
    Step::Creates("1024", "Database(Db(4112))"),
    Step::Creates("1025", "refused TooManyEntries"),
    Step::Does("nth 1023 = Database(Db(4112))"),
    Step::Does("nth 0 = Database(Db(16))"),
    Step::Does("delete 16 = done"),
    Step::Creates("1025", "Database(Db(16))"),
    Step::Creates("1", "refused TooManyEntries"),
    Step::Reads("61 00*77", "refused TooManyEntries"),
    Step::Reads("32 00*77", "refused AlreadyExists"),
];

/// Of 1,024 databases one has to go before another is made.
#[test]
fn databases_are_at_most_1024(rt: HostRuntime) -> Result<(), Fail> {
    let store = with_databases(rt.alloc(), 1_023)?;
    check_anew(
        rt.alloc(),
        "databases",
        image_of(rt.alloc(), &store)?,
        &LAST_DATABASES,
    )
}

/// One record has to go before another is made.
const LAST_RECORDS: [Step; 4] = [
    Step::Does("new_record 20 0 0 = refused TooManyEntries"),
    Step::Does("remove 20 65534 = done"),
    Step::Does("new_record 20 0 0 = Made { index: 0, name: Name(24) }"),
    Step::Does("new_record 20 0 0 = refused TooManyEntries"),
];

/// The same where a caller's chunk is to become the data.
const CHUNK_LEFT: [Step; 4] = [
    Step::Does("remove 20 65534 = done"),
    Step::Does("handle_new 0 1 = named 24"),
    Step::Does("new_record 20 0 0 = Made { index: 0, name: Name(28) }"),
    Step::Does("attach 20 0 24 = refused TooManyEntries"),
];

/// An ID is searched for up to the last record. That one's ID has its index, and is taken.
const LAST_FOUND: [Step; 2] = [
    Step::Does("find_by_id 20 65535 = 65534"),
    Step::Does("set_record_info 20 0 0 65535 = refused DuplicateId"),
];

/// Each on a database of 65,535 records.
static FULL: [&[Step]; 3] = [&LAST_RECORDS, &CHUNK_LEFT, &LAST_FOUND];

#[test]
fn records_are_at_most_65535(rt: HostRuntime) -> Result<(), Fail> {
    for steps in &FULL {
        check_anew(rt.alloc(), "records", full_database(rt.alloc())?, steps)?;
    }
    Ok(())
}

/// Calls on a database of 65,532 resources where one slot is left, each with its reply. The
/// directory, the header and the data of each resource take a slot, of which a heap has 65,535: so
/// there are 65,533 resources at most.
const CROWDED: &str = "find_resource 20 code 65531 = 65531
    new_resource 20 code 65532 0 = Made { index: 65532, name: Name(262152) }
    new_resource 20 code 65533 0 = refused NotEnoughSpace
    num_resources 20 = 65533
    find_type 20 code 65532 = 65532
    find_type 20 code 65533 = refused ResourceNotFound
    remove_resource 20 0 = done
    find_resource 20 code 65532 = 65531
    resource_info 20 65532 = refused IndexOutOfRange";

/// The calls in their order. What they leave is a store.
#[test]
fn every_slot_is_a_resource(rt: HostRuntime) -> Result<(), Fail> {
    let mut store = store_of(rt.alloc(), &crowded_program(rt.alloc())?)?;
    for line in CROWDED.lines() {
        check_alone(rt.alloc(), &mut store, line.trim())?;
    }
    match store.into_region() {
        Ok(region) => store_of(rt.alloc(), region.as_slice())?,
        Err(_) => Err("a body is lent")?,
    };
    Ok(())
}

/// Does the call of a line on a store, with no model next to it.
fn check_alone(alloc: Global, store: &mut Store, line: &str) -> Result<(), Fail>
    ensures { store.new.lents ≡ store.old.lents }
{
    let (call, right) = sides_of(line)?;
    let reply = do_call(alloc, store, &call_of(alloc, call)?);
    check_reply(alloc, line, &reply, right)
}
