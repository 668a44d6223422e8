//! The bytes that are left where chunks are placed, claimed and given back.

use crate::heap::heaps::{CheckedSpace, heap, image};
use crate::heap::steps::{Stage, Step, Told, Words, left_by};
use heap_model::{Name, Place};
use heap_place::Found;
use std::test::*;
use test_support::equal;

/// A free chunk whose first word has other bits, and whose second word has some.
const ONE_FREE: Words = &[(32, 0xFF00_0060), (36, 0x1234_5678)];

/// The other bits of a free chunk's first word may be any, and finding room changes nothing.
const ROOM_OF_ONE: &[Told] = &[
    (Step::RoomAt(8), Some(32)),
    (Step::RoomSize(8), Some(96)),
    (Step::RoomAt(96), Some(32)),
    (Step::RoomSize(96), Some(96)),
    (Step::RoomAt(104), None),
    (Step::RoomAt(0xFFFF_FFF8), None),
];

/// Free chunks of 24 bytes at 32, 80 and 104, and a live one of the first slot at 56.
const PARTED: Words = &[
    (16, 64),
    (32, 0x8000_0018),
    (56, 0x0000_0018),
    (60, 0x01FF_FFEC),
    (80, 0x8000_0018),
    (104, 0x8000_0018),
];

const ROOM_OF_PARTED: &[Told] = &[
    (Step::RoomAt(24), Some(32)),
    (Step::RoomSize(24), Some(24)),
    (Step::RoomAt(32), Some(80)),
    (Step::RoomSize(32), Some(48)),
    (Step::RoomAt(48), Some(80)),
    (Step::RoomSize(48), Some(48)),
    (Step::RoomAt(56), None),
    (Step::FreeBytes, Some(72)),
    (
        Step::Make {
            count: 32,
            owner: 1,
        },
        Some(20),
    ),
];

const CLAIMED_OF_PARTED: Words = &[
    (16, 64),
    (20, 88),
    (32, 0x8000_0018),
    (56, 0x0000_0018),
    (60, 0x01FF_FFEC),
    (80, 0x0000_0028),
    (84, 0x01FF_FFE2),
    (120, 0x8000_0008),
];

const ONES: u32 = 0xFFFF_FFFF;

const FREE_OF_ONES: Words = &[
    (36, ONES),
    (40, ONES),
    (44, ONES),
    (48, ONES),
    (52, ONES),
    (60, ONES),
];

/// What lay in the free chunk is gone from the body, and stays in the slack. What is left of it is
/// the only one in its list.
const MAKES_10: &[Told] = &[(
    Step::Make {
        count: 10,
        owner: 1,
    },
    Some(16),
)];

const CLAIMED_OF_ONES: Words = &[
    (16, 40),
    (32, 0x0600_0018),
    (36, 0x01FF_FFF8),
    (48, 0x0000_FFFF),
    (52, ONES),
    (56, 0x8000_0048),
];

/// Two chunks of 24 and 40 bytes, and 32 bytes after them.
const MAKES_TWO: &[Told] = &[
    (
        Step::Make {
            count: 16,
            owner: 1,
        },
        Some(16),
    ),
    (
        Step::Make {
            count: 32,
            owner: 2,
        },
        Some(20),
    ),
];

const TWO: Words = &[
    (16, 40),
    (20, 64),
    (32, 0x0000_0018),
    (36, 0x01FF_FFF8),
    (56, 0x0000_0028),
    (60, 0x02FF_FFEE),
    (96, 0x8000_0020),
];

const FROM_THE_BACK: &[Told] = &[
    (Step::GiveBack(20), Some(40)),
    (Step::GiveBack(16), Some(24)),
    (Step::GiveBack(16), None),
];

/// Each is a free chunk of its own. The second word of the back one is the offset of the free chunk
/// after it, which is of its class; that of the front one is 0, since it is the only one of its
/// class.
const LEFT_FROM_THE_BACK: Words = &[
    (32, 0x8000_0018),
    (56, 0x8000_0028),
    (60, 96),
    (96, 0x8000_0020),
];

/// The front chunk is given back first: after it stands a live chunk, and then a free one that
/// isn't joined with it. Room that one of the free chunks has is the first of a list, with a free
/// chunk before it or not; and they are one run for room that none of them has.
const FROM_THE_FRONT: &[Told] = &[
    (Step::GiveBack(16), Some(24)),
    (Step::GiveBack(20), Some(40)),
    (Step::RoomAt(24), Some(32)),
    (Step::RoomSize(24), Some(24)),
    (Step::RoomAt(32), Some(56)),
    (Step::RoomSize(32), Some(40)),
    (Step::RoomAt(48), Some(32)),
    (Step::RoomSize(48), Some(64)),
    (Step::RoomAt(72), Some(32)),
    (Step::RoomSize(72), Some(96)),
    (Step::RoomAt(104), None),
    (Step::FreeBytes, Some(96)),
];

/// A fixed chunk of 10 bytes with a movable one after it.
const MAKES_FIXED: &[Told] = &[
    (Step::MakeFixed(10), Some(40)),
    (
        Step::Make {
            count: 16,
            owner: 1,
        },
        Some(16),
    ),
];

const FIXED_PLACED: Words = &[
    (16, 64),
    (32, 0x0600_0018),
    (36, 0xFE00_0000),
    (56, 0x0000_0018),
    (60, 0x01FF_FFEC),
    (80, 0x8000_0030),
];

/// Then a free one stands after it, which it isn't joined with.
const GIVES_FIXED_BACK: &[Told] = &[
    (Step::GiveBack(40), Some(24)),
    (Step::MakeFixed(10), Some(40)),
    (Step::GiveBack(16), Some(24)),
    (Step::GiveBack(40), Some(24)),
];

/// Four chunks take the four slots. A slot that is emptied is the next chunk's.
const TAKES_SLOTS: &[Told] = &[
    (Step::Make { count: 8, owner: 1 }, Some(16)),
    (Step::Make { count: 8, owner: 2 }, Some(20)),
    (Step::Make { count: 8, owner: 3 }, Some(24)),
    (Step::Make { count: 8, owner: 4 }, Some(28)),
    (Step::Make { count: 8, owner: 1 }, None),
    (Step::GiveBack(24), Some(16)),
    (Step::Make { count: 0, owner: 1 }, Some(24)),
    (Step::AllBytes, Some(128)),
];

/// What examples are about, the words that they start from, and their stages.
static EXAMPLES: [(&str, Words, &[Stage]); 9] = [
    (
        "room is a free chunk",
        ONE_FREE,
        &[(ROOM_OF_ONE, Some(ONE_FREE))],
    ),
    (
        "a live chunk ends a run",
        PARTED,
        &[(ROOM_OF_PARTED, Some(CLAIMED_OF_PARTED))],
    ),
    (
        "a claimed chunk is zeros",
        FREE_OF_ONES,
        &[(MAKES_10, Some(CLAIMED_OF_ONES))],
    ),
    ("one behind the other", &[], &[(MAKES_TWO, Some(TWO))]),
    (
        "put in their lists",
        TWO,
        &[(FROM_THE_BACK, Some(LEFT_FROM_THE_BACK))],
    ),
    ("neighbours are one run", TWO, &[(FROM_THE_FRONT, None)]),
    ("a fixed chunk", &[], &[(MAKES_FIXED, Some(FIXED_PLACED))]),
    ("given back", FIXED_PLACED, &[(GIVES_FIXED_BACK, None)]),
    ("the first empty slot", &[], &[(TAKES_SLOTS, None)]),
];

#[test]
fn chunks_are_placed_and_given_back(rt: HostRuntime) -> Result<(), Fail> {
    for (about, before, stages) in &EXAMPLES {
        left_by(rt.alloc(), about, before, stages)?;
    }
    Ok(())
}

/// A space gives its region back as it was taken.
#[test]
fn a_region_comes_back(rt: HostRuntime) -> Result<(), Fail> {
    let before = image(rt.alloc(), &[(40, 7)])?;
    let region = heap(rt.alloc(), &[(40, 7)])?.into_region();
    equal("bytes", region.as_slice(), before.as_slice())
}

/// A heap of a database's kind: the directory, whose owner is 0, of the slot 16, and a chunk of
/// owner 15 of the slot 20, whose body reads as the header of a movable chunk of that slot.
const WITH_DIRECTORY: Words = &[
    (12, 16),
    (16, 40),
    (20, 56),
    (32, 0x0400_0010),
    (36, 0x00FF_FFF8),
    (40, 0x4142_4344),
    (48, 0x0000_0018),
    (52, 0x0FFF_FFF2),
    (56, 0x0000_0010),
    (60, 0x01FF_FFEE),
    (72, 0x8000_0038),
];

const DIRECTORY: Found = Found {
    name: Name(16),
    place: Place(40),
    length: 4,
    lock: 0,
    owner: 0,
};

const RECORD: Found = Found {
    name: Name(20),
    place: Place(56),
    length: 16,
    lock: 0,
    owner: 15,
};

/// A chunk by its name, or by its place.
#[derive(Clone, Copy)]
enum By {
    Name(u32),
    Place(u32),
}

static FOUND: [(By, Option<Found>); 11] = [
    (By::Name(16), Some(DIRECTORY)),
    (By::Name(20), Some(RECORD)),
    (By::Name(24), None),
    (By::Name(40), None),
    (By::Name(0), None),
    (By::Place(40), Some(DIRECTORY)),
    (By::Place(56), Some(RECORD)),
    (By::Place(64), None),
    (By::Place(80), None),
    (By::Place(4), None),
    (By::Place(0xFFFF_FFF8), None),
];

#[test]
fn chunks_of_every_owner_are_found(rt: HostRuntime) -> Result<(), Fail> {
    let space = heap(rt.alloc(), WITH_DIRECTORY)?;
    for (by, found) in &FOUND {
        check_found(&space, *by, *found)?;
    }
    Ok(())
}

fn check_found(space: &CheckedSpace, by: By, wanted: Option<Found>) -> Result<(), Fail> {
    match by {
        By::Name(name) => equal(name, space.find(Name(name)), wanted),
        By::Place(place) => equal(place, space.find_at(Place(place)), wanted),
    }
}

/// The same with 14 locks on the record.
const WITH_LOCKED: Words = &[
    (12, 16),
    (16, 40),
    (20, 56),
    (32, 0x0400_0010),
    (36, 0x00FF_FFF8),
    (40, 0x4142_4344),
    (48, 0x0000_0018),
    (52, 0xEFFF_FFF2),
    (56, 0x0000_0010),
    (60, 0x01FF_FFEE),
    (72, 0x8000_0038),
];

const LOCKS_RECORD: &[Told] = &[
    (Step::Relock(16, 1), None),
    (Step::Relock(20, 14), Some(14)),
];

const REFUSED_OR_NONE: &[Told] = &[
    (Step::GiveBack(16), None),
    (Step::GiveBackOwned(14), Some(0)),
];

const GIVES_RECORDS_BACK: &[Told] = &[
    (
        Step::Make {
            count: 8,
            owner: 15,
        },
        Some(24),
    ),
    (Step::Make { count: 8, owner: 0 }, Some(28)),
    (Step::GiveBackOwned(15), Some(2)),
    (Step::FreeBytes, Some(64)),
];

const WITH_RECORD: &[Stage] = &[
    (LOCKS_RECORD, Some(WITH_LOCKED)),
    (REFUSED_OR_NONE, Some(WITH_LOCKED)),
    (GIVES_RECORDS_BACK, None),
];

/// The directory word and the directory's chunk stay, whatever is done with the record.
#[test]
fn chunks_of_owner_15_change(rt: HostRuntime) -> Result<(), Fail> {
    let space = left_by(rt.alloc(), "with a directory", WITH_DIRECTORY, WITH_RECORD)?;
    check_found(&space, By::Name(16), Some(DIRECTORY))?;
    check_found(&space, By::Name(20), None)
}
