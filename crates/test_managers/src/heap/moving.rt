//! Calls that may move chunks, with the replies and the words that they must leave.

use crate::heap::beside::Beside;
use crate::heap::by_hand::{Example, check_all, check_on};
use crate::heap::images::{FIVE, OVERLAPPING};
use crate::heap::linked::word_at;
use std::alloc::Global;
use std::test::*;
use test_support::{THREE_CHUNKS, equal, image};

const ROOM_LEFT: &str = "free 16 = done
    free 24 = done
    compact = 32
    compact = 0";

/// The words that compaction leaves.
static PACKED: [(usize, u32); 4] = [
    (20, 40),
    (32, 0x0000_0020),
    (36, 0x01FF_FFFA),
    (64, 0x8000_0040),
];

#[test]
fn compaction_leaves_the_room_behind(rt: HostRuntime) -> Result<(), Fail> {
    let mut beside = Beside::new(rt.alloc(), image(rt.alloc(), THREE_CHUNKS, "")?)?;
    check_packed(rt.alloc(), &mut beside)
}

fn check_packed(alloc: Global, beside: &mut Beside) -> Result<(), Fail> {
    check_on(alloc, beside, ("packed", ROOM_LEFT), true)?;
    for (at, word) in &PACKED {
        equal(*at, word_at(beside.image(), *at), Some(*word))?;
    }
    Ok(())
}

/// The chunk of 88 bytes goes down by 8.
const OVERLAP_KEPT: &str = "compact = 88
    lock 16 = at 40 locks 1
    read 16 0 40 = x000102030405060708090a0b0c0d0e0f101112131415161718191a1b1c1d1e1f2021222324252627
    read 16 40 40 = x28292a2b2c2d2e2f303132333435363738393a3b3c3d3e3f404142434445464748494a4b4c4d4e4f";

/// Two free chunks of one stretch make room together; two of different stretches don't.
const ROOM_MADE: &str = "free 16 = done
    free 24 = done
    lock 20 = at 72 locks 1
    handle_new 48 1 = refused NotEnoughSpace
    ptr_new 48 1 = refused NotEnoughSpace
    unlock 20 = 0
    ptr_new 57 1 = refused NotEnoughSpace
    ptr_new 48 1 = named 72
    recover 40 = named 20
    free_bytes = 8
    free 72 = done
    handle_new 56 1 = named 16
    free_bytes = 0";

/// The order of refusals, and that a locked chunk grows in its place alone.
const LENGTHS: &str = "resize 24 8 = refused InvalidHandle
    resize 0 8 = refused InvalidHandle
    resize 16 4294967295 = refused OwnedByDatabase
    resize 72 4294967295 = refused ChunkFixed
    resize 20 9 = refused ChunkLocked
    resize 20 4294967295 = refused ChunkLocked
    unlock 20 = 1
    unlock 20 = 0
    resize 20 4294967295 = refused NotEnoughSpace
    resize 20 25 = refused NotEnoughSpace
    free_bytes = 32";

/// In its place, where a locked chunk stays too, and then in another stretch.
const ZEROS: &str = "write 20 0: 4142434445464748 = done
    resize 20 3 = done
    resize 20 8 = done
    read 20 0 8 = x4142430000000000
    resize 20 0 = done
    free_bytes = 40
    resize 20 8 = done
    read 20 0 8 = x0000000000000000
    write 20 0: 4142434445464748 = done
    recover 56 = named 20
    unlock 20 = 1
    unlock 20 = 0
    resize 20 24 = done
    recover 56 = refused InvalidHandle
    read 20 0 24 = x414243444546474800000000000000000000000000000000
    free_bytes = 16";

static EXAMPLES: [Example; 4] = [
    (
        "compaction keeps bytes that overlap",
        OVERLAPPING,
        OVERLAP_KEPT,
    ),
    (
        "a stretch is compacted for a new chunk",
        THREE_CHUNKS,
        ROOM_MADE,
    ),
    ("lengths that a chunk cannot have", FIVE, LENGTHS),
    ("bytes that come are zero", FIVE, ZEROS),
];

#[test]
fn chunks_are_moved(rt: HostRuntime) -> Result<(), Fail> {
    check_all(&rt, &EXAMPLES, true)
}
