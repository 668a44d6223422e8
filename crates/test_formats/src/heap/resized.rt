//! The bytes that a chunk leaves which gets another length, where it stands or elsewhere.

ghost use Rattle.std.specs.Prelude.{[], ◌≡◌, IfOk};

use crate::heap::heaps::{CheckedSpace, accepted};
use heap_model::Name;
use raw_region::Region;
use std::alloc::Global;
use std::test::*;
use test_support::{equal, image};

/// How a chunk gets another length.
#[derive(Clone, Copy)]
enum Way {
    /// Where it stands, with free bytes after it.
    Grow,
    /// Within what it takes.
    Shrink,
    /// In the first room that there is for it.
    Relocate,
}

/// A way, the name of a chunk, and how many bytes it gets.
type Resize = (Way, u32, u32);

/// Chunks as a listing, and what is changed in their image.
type Chunks = (&'static str, &'static str);

/// What stands in a listing before chunks, and after them.
type Frame = (&'static str, &'static str);

/// A resize of a chunk among some, whether it can be done, and what it leaves.
type Case = (Resize, Chunks, bool, Chunks);

/// The image of chunks in a frame.
fn heap_of(alloc: Global, frame: Frame, given: Chunks) -> Result<Region, Fail>
    ensures { IfOk result (λ region. region.lents ≡ []) }
{
    let (front, back) = frame;
    let (chunks, changes) = given;
    let listing = format!(in alloc; "{front} {chunks} {back}")?;
    image(alloc, listing.as_str(), changes)
}

/// Does a resize, and says whether it could be done. None where there is no such chunk.
fn resize(space: &mut CheckedSpace, (way, name, count): Resize) -> Option<bool> {
    match way {
        Way::Grow => space.grow_in_place(Name(name), count),
        Way::Shrink => space.shrink(Name(name), count),
        Way::Relocate => space.relocate(Name(name), count),
    }
}

/// Does a resize on a space, which must leave this image.
fn check_resize(
    space: &mut CheckedSpace,
    change: Resize,
    can: bool,
    left: &Region,
) -> Result<(), Fail>
    requires { left.now.lents ≡ [] }
{
    let (way, name, count) = change;
    let told = resize(space, (way, name, count));
    equal(
        format_args!("{name}, {count} bytes"),
        (told, space.bytes()),
        (Some(can), left.as_slice()),
    )
}

fn check_case(alloc: Global, frame: Frame, (change, before, can, after): Case) -> Result<(), Fail> {
    let mut space = accepted(heap_of(alloc, frame, before)?)?;
    check_resize(&mut space, change, can, &heap_of(alloc, frame, after)?)
}

fn check_cases(alloc: Global, frame: Frame, cases: &[Case]) -> Result<(), Fail> {
    for case in cases {
        check_case(alloc, frame, *case)?;
    }
    Ok(())
}

/// 128 bytes with 4 slots, in which chunks stand from 32 up to 80, the first of the slot 16. After
/// them are a live chunk, of the slot 20, and a free one.
const BEFORE_80: Frame = (
    "50484931 00000080 0004 0000 00000000 00000028 00000058 00*8",
    "00000010 02FFFFE2 4142434445464748 80000020 00*28",
);

/// A chunk of 10 bytes, with 6 of slack, and free ones of 8 and 16. The first word of the last has
/// other bits. Where no header stands, each byte is FF.
const SMALL_CHUNK: &str = "06000018 01FFFFF8 FFFFFFFFFFFFFFFF FFFFFFFFFFFFFFFF \
    80000008 FFFFFFFF FF000010 FFFFFFFF FFFFFFFFFFFFFFFF";

/// The same chunk with 24 bytes.
const GROWN: &str =
    "00000020 01FFFFF8 FFFFFFFFFFFFFFFF FFFF 00*14 80000010 00000000 FFFFFFFFFFFFFFFF";

/// The same chunk with 3 bytes, before the free ones, which are as they were.
const SHRUNK: &str = "05000010 01FFFFF8 FFFFFFFFFFFFFFFF 80000008 00000000 \
    80000008 FFFFFFFF FF000010 FFFFFFFF FFFFFFFFFFFFFFFF";

/// One chunk of 40 bytes.
const LARGE_CHUNK: &str = "00000030 01FFFFF8 FFFFFFFFFFFFFFFF FFFFFFFFFFFFFFFF FFFFFFFFFFFFFFFF \
    FFFFFFFFFFFFFFFF FFFFFFFFFFFFFFFF";

/// What is changed where the chunk has 14 locks, and where it is fixed.
const LOCKED_CHANGE: &str = "36: E1FFFFF8";

const FIXED_CHANGE: &str = "16: 00000000, 36: FE000000";

/// Resizes of the chunk where it stands.
static IN_PLACE: [Case; 22] = [
    // Bytes that it gains are zero, in its slack too, and what is left of the free chunks is one,
    // with a plain first word, the only one in its list. What else lay there stays.
    (
        (Way::Grow, 16, 0),
        (SMALL_CHUNK, ""),
        true,
        (
            "00000008 01FFFFF8 80000028 00000000 FFFFFFFFFFFFFFFF \
            80000008 FFFFFFFF FF000010 FFFFFFFF FFFFFFFFFFFFFFFF",
            "",
        ),
    ),
    (
        (Way::Grow, 16, 10),
        (SMALL_CHUNK, ""),
        true,
        (
            "06000018 01FFFFF8 FFFFFFFFFFFFFFFF FFFFFFFFFFFFFFFF \
            80000018 00000000 FF000010 FFFFFFFF FFFFFFFFFFFFFFFF",
            "",
        ),
    ),
    (
        (Way::Grow, 16, 16),
        (SMALL_CHUNK, ""),
        true,
        (
            "00000018 01FFFFF8 FFFFFFFFFFFFFFFF FFFF 00*6 \
            80000018 00000000 FF000010 FFFFFFFF FFFFFFFFFFFFFFFF",
            "",
        ),
    ),
    (
        (Way::Grow, 16, 17),
        (SMALL_CHUNK, ""),
        true,
        (
            "07000020 01FFFFF8 FFFFFFFFFFFFFFFF FFFF 00*7 000008 FFFFFFFF \
            80000010 00000000 FFFFFFFFFFFFFFFF",
            "",
        ),
    ),
    ((Way::Grow, 16, 24), (SMALL_CHUNK, ""), true, (GROWN, "")),
    (
        (Way::Grow, 16, 33),
        (SMALL_CHUNK, ""),
        true,
        (
            "07000030 01FFFFF8 FFFFFFFFFFFFFFFF FFFF 00*23 FFFFFFFFFFFFFF",
            "",
        ),
    ),
    (
        (Way::Grow, 16, 40),
        (SMALL_CHUNK, ""),
        true,
        ("00000030 01FFFFF8 FFFFFFFFFFFFFFFF FFFF 00*30", ""),
    ),
    // The live chunk at 80 ends what it may take: a refused growth changes nothing.
    (
        (Way::Grow, 16, 41),
        (SMALL_CHUNK, ""),
        false,
        (SMALL_CHUNK, ""),
    ),
    (
        (Way::Grow, 16, 0x00FF_FFF8),
        (SMALL_CHUNK, ""),
        false,
        (SMALL_CHUNK, ""),
    ),
    (
        (Way::Grow, 16, 0xFFFF_FFFF),
        (SMALL_CHUNK, ""),
        false,
        (SMALL_CHUNK, ""),
    ),
    // What it takes no more is a free chunk with a plain first word, the only one in its list; its
    // other bytes stay.
    (
        (Way::Shrink, 16, 0),
        (LARGE_CHUNK, ""),
        true,
        (
            "00000008 01FFFFF8 80000028 00000000 FFFFFFFFFFFFFFFF \
            FFFFFFFFFFFFFFFF FFFFFFFFFFFFFFFF FFFFFFFFFFFFFFFF",
            "",
        ),
    ),
    (
        (Way::Shrink, 16, 10),
        (LARGE_CHUNK, ""),
        true,
        (
            "06000018 01FFFFF8 FFFFFFFFFFFFFFFF FFFFFFFFFFFFFFFF \
            80000018 00000000 FFFFFFFFFFFFFFFF FFFFFFFFFFFFFFFF",
            "",
        ),
    ),
    (
        (Way::Shrink, 16, 32),
        (LARGE_CHUNK, ""),
        true,
        (
            "00000028 01FFFFF8 FFFFFFFFFFFFFFFF FFFFFFFFFFFFFFFF FFFFFFFFFFFFFFFF \
            FFFFFFFFFFFFFFFF 80000008 00000000",
            "",
        ),
    ),
    (
        (Way::Shrink, 16, 33),
        (LARGE_CHUNK, ""),
        true,
        (
            "07000030 01FFFFF8 FFFFFFFFFFFFFFFF FFFFFFFFFFFFFFFF FFFFFFFFFFFFFFFF \
            FFFFFFFFFFFFFFFF FFFFFFFFFFFFFFFF",
            "",
        ),
    ),
    (
        (Way::Shrink, 16, 40),
        (LARGE_CHUNK, ""),
        true,
        (LARGE_CHUNK, ""),
    ),
    // Within what it takes it gains bytes too, and they are zero. The free chunks after it stay
    // apart.
    (
        (Way::Shrink, 16, 14),
        (SMALL_CHUNK, ""),
        true,
        (SMALL_CHUNK, "32: 02000018, 50: 00000000"),
    ),
    (
        (Way::Shrink, 16, 16),
        (SMALL_CHUNK, ""),
        true,
        (SMALL_CHUNK, "32: 00000018, 50: 000000000000"),
    ),
    (
        (Way::Shrink, 16, 17),
        (SMALL_CHUNK, ""),
        false,
        (SMALL_CHUNK, ""),
    ),
    // One with 14 locks and a fixed one, which no slot names, keep their place, lock and owner.
    (
        (Way::Grow, 16, 24),
        (SMALL_CHUNK, LOCKED_CHANGE),
        true,
        (GROWN, LOCKED_CHANGE),
    ),
    (
        (Way::Shrink, 16, 3),
        (SMALL_CHUNK, LOCKED_CHANGE),
        true,
        (SHRUNK, LOCKED_CHANGE),
    ),
    (
        (Way::Grow, 40, 24),
        (SMALL_CHUNK, FIXED_CHANGE),
        true,
        (GROWN, FIXED_CHANGE),
    ),
    (
        (Way::Shrink, 40, 3),
        (SMALL_CHUNK, FIXED_CHANGE),
        true,
        (SHRUNK, FIXED_CHANGE),
    ),
];

#[test]
fn chunks_get_other_lengths_in_place(rt: HostRuntime) -> Result<(), Fail> {
    check_cases(rt.alloc(), BEFORE_80, &IN_PLACE)
}

/// No more than the chunks: these are whole images.
const NO_FRAME: Frame = ("", "");

/// After a head of 128 bytes with 4 slots: a chunk of 10 bytes, of the slot 16, one of 8 bytes and
/// a free one.
const IN_FRONT: &str = "50484931 00000080 0004 0000 00000000 00000028 00000040 00*8 \
    06000018 01FFFFF8 4142434445464748494A FFFFFFFFFFFF 00000010 02FFFFEE 6162636465666768 \
    80000038 00*52";

/// A free chunk, then the one of 8 bytes, the one of 10, and another free one.
const BEHIND: &str = "50484931 00000080 0004 0000 00000000 00000058 00000048 00*8 \
    80000020 FFFFFFFF FFFFFFFFFFFFFFFF FFFFFFFFFFFFFFFF FFFFFFFFFFFFFFFF \
    00000010 02FFFFEA 6162636465666768 06000018 01FFFFE0 4142434445464748494A FFFFFFFFFFFF \
    80000018 00*20";

/// What `IN_FRONT` is once its chunk has 12 bytes.
const TO_THE_BACK: &str = "50484931 00000080 0004 0000 00000000 00000050 00000040 00*8 \
            80000018 00000000 4142434445464748494A FFFFFFFFFFFF 00000010 02FFFFEE 6162636465666768 \
            04000018 01FFFFE4 4142434445464748494A 00*6 80000020 00*28";

/// Resizes of the chunk of the slot 16 that take it elsewhere.
static ELSEWHERE: [Case; 6] = [
    // It has its first bytes, and zeros after them; its slot holds the new place, and its old
    // header is that of a free chunk, the last of its list; a free one after it isn't joined.
    (
        (Way::Relocate, 16, 12),
        (IN_FRONT, ""),
        true,
        (TO_THE_BACK, ""),
    ),
    (
        (Way::Relocate, 16, 3),
        (IN_FRONT, ""),
        true,
        (
            "50484931 00000080 0004 0000 00000000 00000050 00000040 00*8 \
            80000018 00000000 4142434445464748494A FFFFFFFFFFFF 00000010 02FFFFEE 6162636465666768 \
            05000010 01FFFFE4 414243 00*5 80000028 00*36",
            "",
        ),
    ),
    (
        (Way::Relocate, 16, 24),
        (BEHIND, ""),
        true,
        (
            "50484931 00000080 0004 0000 00000000 00000028 00000048 00*8 \
            00000020 01FFFFF8 4142434445464748494A 00*14 \
            00000010 02FFFFEA 6162636465666768 80000018 00000000 4142434445464748494A FFFFFFFFFFFF \
            80000018 00*20",
            "",
        ),
    ),
    // So has the directory, which stays it.
    (
        (Way::Relocate, 16, 12),
        (IN_FRONT, "12: 00000010, 36: 00FFFFF8"),
        true,
        (TO_THE_BACK, "12: 00000010, 76: 00FFFFE4"),
    ),
    // One that has no room elsewhere stays, as does a locked one.
    (
        (Way::Relocate, 16, 49),
        (IN_FRONT, ""),
        false,
        (IN_FRONT, ""),
    ),
    (
        (Way::Relocate, 16, 12),
        (IN_FRONT, "36: 11FFFFF8"),
        false,
        (IN_FRONT, "36: 11FFFFF8"),
    ),
];

#[test]
fn chunks_go_to_room_elsewhere(rt: HostRuntime) -> Result<(), Fail> {
    check_cases(rt.alloc(), NO_FRAME, &ELSEWHERE)
}
