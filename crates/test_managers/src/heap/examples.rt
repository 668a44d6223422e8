//! Calls with the replies that they must have, each on a heap that is adopted for it.

use crate::heap::by_hand::{Example, check_all};
use crate::heap::images::{CHAINED, FIVE, ONE_SLOT};
use std::test::*;
use test_support::BLANK;

const MADE_AND_FREED: &str = "handle_new 10 1 = named 16
    free_bytes = 72
    size 16 = 10
    handle_new 65 1 = refused NotEnoughSpace
    handle_new 64 14 = named 20
    owner 20 = 14
    free_bytes = 0
    free 16 = done
    free 20 = done
    free_bytes = 96
    handle_new 88 1 = named 16
    free_bytes = 0";

/// A chunk that moves overlaps where it goes to; where nothing is free before it, none moves.
const COMPACTED: &str = "handle_new 0 1 = named 16
    handle_new 24 1 = named 20
    handle_new 8 1 = named 24
    largest_stretch = 40
    compact = 0
    free 16 = done
    lock 20 = at 48 locks 1
    write 20 0: 4142434445464748494a = done
    largest_stretch = 40
    compact = 0
    unlock 20 = 0
    largest_stretch = 48
    compact = 48
    largest_stretch = 48
    lock 20 = at 40 locks 1
    read 20 0 10 = x4142434445464748494a
    lock 24 = at 72 locks 1";

/// An earlier slot that was freed is found again.
const OUT_OF_SLOTS: &str = "handle_new 0 1 = named 16
    handle_new 0 1 = named 20
    handle_new 0 1 = named 24
    handle_new 0 1 = named 28
    free_bytes = 64
    handle_new 0 1 = refused NotEnoughSpace
    free 20 = done
    free 16 = done
    handle_new 0 1 = named 16
    handle_new 0 1 = named 20
    handle_new 0 1 = refused NotEnoughSpace";

const FREED: &str = "handle_new 0 2 = named 28
    free 28 = done
    size 28 = refused InvalidHandle
    free 28 = refused InvalidHandle
    free 72 = done
    locks 72 = refused InvalidHandle
    free 72 = refused InvalidHandle
    free_bytes = 48";

/// The manager's own chunk, an empty slot, an offset between slots, places that no name is, and
/// what lies outside.
const OTHER_NAMES: &str = "size 24 = refused InvalidHandle
    size 28 = refused InvalidHandle
    size 0 = refused InvalidHandle
    size 15 = refused InvalidHandle
    size 18 = refused InvalidHandle
    size 32 = refused InvalidHandle
    size 40 = refused InvalidHandle
    size 64 = refused InvalidHandle
    size 73 = refused InvalidHandle
    size 88 = refused InvalidHandle
    size 104 = refused InvalidHandle
    size 128 = refused InvalidHandle
    size 4294967292 = refused InvalidHandle
    size 4294967295 = refused InvalidHandle";

/// The manager's own chunk has no name for callers; a database's may be locked, read and written,
/// and keeps its owner.
const NOT_A_CALLERS: &str = "free 24 = refused InvalidHandle
    lock 24 = refused InvalidHandle
    unlock 24 = refused InvalidHandle
    locks 24 = refused InvalidHandle
    read 24 0 1 = refused InvalidHandle
    write 24 0: 41 = refused InvalidHandle
    set 24 0 1 1 = refused InvalidHandle
    str_copy 24 0 = refused InvalidHandle
    set_owner 24 1 = refused InvalidHandle
    recover 88 = refused InvalidHandle
    owner 16 = 15
    free 16 = refused OwnedByDatabase
    set_owner 16 0 = refused OwnedByDatabase
    lock 16 = at 40 locks 1
    free 16 = refused OwnedByDatabase
    write 16 0: 41 = done
    read 16 0 2 = x4100
    recover 40 = named 16
    free 20 = refused ChunkLocked
    set_owner 20 14 = done
    locks 20 = 2
    free_by_owner 14 = 1";

/// An owner that is none of a caller's comes before want of room.
const NEVER_GIVEN: &str = "handle_new 8 0 = refused InvalidOwner
    handle_new 8 15 = refused InvalidOwner
    handle_new 80 16 = refused InvalidOwner
    ptr_new 80 255 = refused InvalidOwner
    handle_new 25 1 = refused NotEnoughSpace
    handle_new 16777208 1 = refused NotEnoughSpace
    handle_new 4294967295 1 = refused NotEnoughSpace
    ptr_new 25 1 = refused NotEnoughSpace
    ptr_new 4294967295 1 = refused NotEnoughSpace
    ptr_new 24 1 = named 104
    free_by_owner 0 = refused InvalidOwner
    free_by_owner 15 = refused InvalidOwner
    free_by_owner 16 = refused InvalidOwner";

const NO_BYTES: &str = "handle_new 0 1 = named 16
    size 16 = 0
    read 16 0 0 = x
    read 16 1 0 = refused OutOfBounds
    write 16 0: 41 = refused ChunkNotLocked
    lock 16 = at 40 locks 1
    write 16 0: 41 = refused OutOfBounds
    write 16 0 = done
    set 16 0 0 7 = done
    str_copy 16 0 = refused OutOfBounds
    free_bytes = 88";

/// Ranges that end at the length and just after it, and sums that 32 bits can't hold.
const ENDS: &str = "handle_new 10 1 = named 16
    lock 16 = at 40 locks 1
    write 16 9: 41 = done
    write 16 9: 4142 = refused OutOfBounds
    read 16 0 10 = x00000000000000000041
    str_copy 16 8: 78 = done
    str_copy 16 9: 78 = refused OutOfBounds
    read 16 0 10 = x00000000000000007800
    str_copy 16 0: 6162006364 = done
    read 16 0 6 = x616200000000
    set 16 2 3 65 = done
    set 16 8 3 65 = refused OutOfBounds
    read 16 0 10 = x61624141410000007800
    read 16 10 0 = x
    read 16 11 0 = refused OutOfBounds
    read 16 10 1 = refused OutOfBounds
    read 16 0 11 = refused OutOfBounds
    read 16 4294967295 1 = refused OutOfBounds
    read 16 1 4294967295 = refused OutOfBounds
    set 16 4294967295 1 1 = refused OutOfBounds
    set 16 1 4294967295 1 = refused OutOfBounds
    set 16 4294967295 4294967295 1 = refused OutOfBounds";

const WITH_FIXED: &str = "handle_new 0 1 = named 16
    handle_new 0 1 = refused NotEnoughSpace
    ptr_new 0 1 = named 40
    lock 40 = refused ChunkFixed
    unlock 40 = refused ChunkFixed
    locks 40 = 15
    free_bytes = 88
    ptr_new 81 1 = refused NotEnoughSpace
    ptr_new 80 2 = named 48
    write 48 72: 3132333435363738 = done
    write 48 73: 3132333435363738 = refused OutOfBounds
    set_owner 48 9 = done
    owner 48 = 9
    read 48 72 8 = x3132333435363738
    free 48 = done
    free_bytes = 88";

/// Locked and fixed chunks go too. The slots of freed chunks are found again, the lowest first, and
/// the room after the first of them.
const OF_OWNERS: &str = "handle_new 8 5 = named 16
    lock 16 = at 40 locks 1
    handle_new 8 6 = named 20
    ptr_new 8 5 = named 72
    handle_new 8 5 = named 24
    handle_new 8 5 = named 28
    free_by_owner 5 = 4
    size 16 = refused InvalidHandle
    size 72 = refused InvalidHandle
    handle_new 40 1 = named 16
    handle_new 8 1 = named 24
    handle_new 8 1 = named 28
    handle_new 0 1 = refused NotEnoughSpace
    unlock 20 = refused ChunkNotLocked
    set_owner 20 15 = refused InvalidOwner
    set_owner 20 1 = done
    free_by_owner 1 = 4
    free_by_owner 1 = 0
    free_bytes = 96";

/// Bytes of a body that spell the header of a movable chunk that names the caller's slot, and of a
/// fixed chunk.
const PLACES: &str = "handle_new 32 1 = named 16
    lock 16 = at 40 locks 1
    write 16 0: 0000001001fffff4 = done
    write 16 16: 00000010f1000000 = done
    recover 40 = named 16
    recover 48 = refused InvalidHandle
    recover 64 = refused InvalidHandle
    locks 64 = refused InvalidHandle
    ptr_new 16 2 = named 80
    recover 80 = named 80
    recover 0 = refused InvalidHandle
    recover 7 = refused InvalidHandle
    recover 16 = refused InvalidHandle
    recover 39 = refused InvalidHandle
    recover 41 = refused InvalidHandle
    recover 104 = refused InvalidHandle
    recover 128 = refused InvalidHandle
    recover 4294967295 = refused InvalidHandle";

/// The table is made at 32, with its slots from 36 on.
const TABLES_ADDED: &str = "more_slots = done
    more_slots = refused NotEnoughSpace
    size 32 = refused InvalidHandle
    free 32 = refused InvalidHandle
    set_owner 32 1 = refused InvalidHandle
    recover 32 = refused InvalidHandle
    free_by_owner 0 = refused InvalidOwner
    free_bytes = 32
    handle_new 0 1 = named 16
    handle_new 0 1 = named 36
    lock 36 = at 112 locks 1
    free 16 = done
    handle_new 0 2 = named 16
    free_by_owner 1 = 1
    size 36 = refused InvalidHandle
    handle_new 0 1 = named 36
    handle_new 0 1 = named 40
    handle_new 0 1 = named 44
    handle_new 0 1 = refused NotEnoughSpace";

/// Free chunks that are neighbours have the room together.
const TABLE_OF_ALL: &str = "handle_new 24 1 = named 16
    ptr_new 0 1 = named 64
    free 64 = done
    free_bytes = 72
    lock 16 = at 32 locks 1
    more_slots = done
    free_bytes = 0
    more_slots = refused NotEnoughSpace
    read 16 0 1 = x00";

const ONE_TABLE: &str = "more_slots = refused NotEnoughSpace
    free_bytes = 96
    handle_new 0 1 = named 16";

/// Each is about what it is called.
static EXAMPLES: [Example; 15] = [
    ("chunks are made and freed", BLANK, MADE_AND_FREED),
    ("chunks are compacted", BLANK, COMPACTED),
    ("slots run out before bytes", BLANK, OUT_OF_SLOTS),
    ("a freed name names nothing", FIVE, FREED),
    ("other names are refused", FIVE, OTHER_NAMES),
    (
        "chunks of the manager and of databases",
        FIVE,
        NOT_A_CALLERS,
    ),
    ("what no heap gives", FIVE, NEVER_GIVEN),
    ("a body of no bytes", BLANK, NO_BYTES),
    ("bytes end at the length", BLANK, ENDS),
    ("a fixed chunk has no lock count", ONE_SLOT, WITH_FIXED),
    ("all chunks of an owner go", BLANK, OF_OWNERS),
    ("a place gives its name back", BLANK, PLACES),
    ("a table is made, and has no name", CHAINED, TABLES_ADDED),
    ("a table takes all that is free", CHAINED, TABLE_OF_ALL),
    ("one table stays alone", BLANK, ONE_TABLE),
];

#[test]
fn examples_are_done(rt: HostRuntime) -> Result<(), Fail> {
    check_all(&rt, &EXAMPLES, true)
}
