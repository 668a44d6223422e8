//! Each fault, the order of faults, and what is accepted.

use crate::store::found::text_of;
use std::alloc::Global;
use std::test::*;
use store_check::check_store;
use test_support::{ONE_DATABASE, equal, image};

fn check_case(alloc: Global, listing: &str, changes: &str, text: &str) -> Result<(), Fail> {
    let region = image(alloc, listing, changes)?;
    let found = text_of(alloc, check_store(&alloc, &region))?;
    equal(
        format_args!("{listing}, changed: {changes}"),
        found.as_str(),
        text,
    )
}

/// Each case has changes of the listing's image, and the text of what the checker finds then.
fn check_changed(alloc: Global, listing: &str, cases: &[(&str, &str)]) -> Result<(), Fail> {
    for (changes, text) in cases {
        check_case(alloc, listing, changes, text)?;
    }
    Ok(())
}

const CHANGED_OF_DATABASE: [(&str, &str); 31] = [
    ("", "movable 4 free 8 databases 1"),
    ("3: 33", "BadMagic"),
    ("175: BA", "SlotMismatch 24"),
    // the directory: its own slot, no slot, a slot in use by a chunk for data, and half a word
    ("59: 10", "BadDirectorySlot 0"),
    ("59: 15", "BadDirectorySlot 0"),
    ("59: 18", "BadDirectorySlot 0"),
    ("48: 06", "BadDirectorySlot 0"),
    // the header: as many entries as there are not, another list, and info words
    ("149: 03", "BadHeader 0"),
    ("105: 01", "BadHeader 0"),
    ("147: 01", "BadHeader 0"),
    ("127: 14", "BadHeader 0"),
    ("131: 02", "BadHeader 0"),
    // the entries: the slot of a header, none, and none of a record that is deleted
    ("158: 00000014", "BadEntry 0 1"),
    ("158: 00000000", "BadEntry 0 1"),
    ("150: 00000010, 158: 00000000", "BadEntry 0 0"),
    ("158: 00000018", "SharedChunk 24"),
    ("158: 0000000080", "StrayChunk 28"),
    // what two info blocks and two records name: the least slot
    ("127: 1C, 131: 18", "SharedChunk 24"),
    ("131: 1C", "SharedChunk 28"),
    ("15: 00", "StrayChunk 16"),
    ("15: 00, 48: 0400001000FFFFF0", "StrayChunk 16"),
    // IDs: an earlier one's, and 0
    ("163: 000001", "BadId 0 1"),
    ("163: 000000", "BadId 0 1"),
    ("155: 000000", "BadId 0 0"),
    // names: none, with a byte after it, and with no zero at the end
    ("72: 00", "BadName 0"),
    ("74: 01", "BadName 0"),
    ("103: 52", "BadName 0"),
    // a record that is deleted and has its data still, one without, and info blocks
    ("162: 80", "movable 4 free 8 databases 1"),
    ("127: 1C, 158: 0000000080", "movable 4 free 8 databases 1"),
    ("131: 1C, 158: 00000000C0", "movable 4 free 8 databases 1"),
    // the busy bit, other attributes, and IDs that don't ascend
    ("104: 0002, 154: 20FFFFFF", "movable 4 free 8 databases 1"),
];

/// One database with two resources.
const ONE_OF_RESOURCES: &str =
    "50484931 000000D8 0008 0000 00000010 00000038 00000048 000000B8 000000C8 00*16 \
    04000010 00FFFFF0 00000014 00*4 06000070 00FFFFEA \
    52 00*31 0001 0000 00*24 6170706C 54657374 00000000 00000000 0002 \
    74535452 0000 00000018 74535452 0000 0000001C 00*6 \
    00000010 0FFFFFB4 4141414141414141 00000010 0FFFFFAE 4242424242424242 80000008 00*4";

const CHANGED_OF_RESOURCES: [(&str, &str); 5] = [
    ("", "movable 4 free 8 databases 1"),
    ("105: 00", "BadHeader 0"),
    ("166: 00000000", "BadEntry 0 1"),
    ("156: 00000014", "BadEntry 0 0"),
    ("166: 00000018", "SharedChunk 24"),
];

/// Two databases with a record each.
const TWO_OF_RECORDS: &str =
    "50484931 00000130 0008 0000 00000010 00000038 00000048 000000A8 00000108 00000118 00*12 \
    00000010 00FFFFF0 00000014 00000018 02000060 00FFFFEA \
    41 00*31 0000 0000 00*24 44415441 54657374 00000001 00000000 0001 \
    0000001C 00 000001 00*2 02000060 00FFFFBC \
    42 00*31 0000 0000 00*24 44415441 54657374 00000001 00000000 0001 \
    00000020 00 000001 00*2 \
    00000010 0FFFFF8E 4141414141414141 00000010 0FFFFF88 4242424242424242 80000010 00*12";

const OF_TWO: [(&str, &str); 10] = [
    ("", "movable 5 free 16 databases 2"),
    // a slot that is listed twice, and half a word after a right one
    ("60: 00000014", "BadDirectorySlot 1"),
    ("48: 02", "BadDirectorySlot 1"),
    ("48: 04", "StrayChunk 24"),
    // one chunk with the data of both
    ("246: 0000001C", "SharedChunk 28"),
    ("168: 41", "SameName 1"),
    // each fault is looked for in both before the next is
    ("150: 00000014, 245: 02", "BadHeader 1"),
    ("155: 000000, 246: 00000014", "BadEntry 1 0"),
    ("72: 00, 251: 000000", "BadId 1 0"),
    ("72: 4200, 168: 00", "BadName 1"),
];

/// Images, and their cases.
static CASES: [(&str, &[(&str, &str)]); 3] = [
    (ONE_DATABASE, &CHANGED_OF_DATABASE),
    (ONE_OF_RESOURCES, &CHANGED_OF_RESOURCES),
    (TWO_OF_RECORDS, &OF_TWO),
];

#[test]
fn the_first_fault_is_answered(rt: HostRuntime) -> Result<(), Fail> {
    for (listing, cases) in &CASES {
        check_changed(rt.alloc(), listing, cases)?;
    }
    Ok(())
}
