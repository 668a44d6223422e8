//! The commands: what they print and write, and a writer that fails.

use crate::runs::{BOTH_USED, CHAINED_ONE_SLOT, ONE_FURTHER, TWO_TABLES, check_told};
use image_commands::{cmd_check, cmd_new};
use palm_text::Counted;
use program_io::Status;
use std::alloc::Global;
use std::io::{ErrorKind, Write};
use std::test::Fail;
use test_support::{
    BLANK, Narrow, ONE_CHUNK, ONE_DATABASE, Unflushed, WhenFull, bytes_of, equal, holds, image,
};

/// What a command answered, and what its writers hold.
#[derive(Drop)]
struct Told<W, V> {
    status: Status,
    image: W,
    out: V,
}

/// `new` for an image of this size and slot count.
fn new_on<W: Write, V: Write>(
    alloc: Global,
    (size, slots): (u32, u16),
    image: W,
    out: V,
) -> Told<W, V> {
    let (mut image, mut out) = (Counted::new(image), Counted::new(out));
    let status = cmd_new(alloc, size, slots, &mut image, &mut out);
    Told {
        status,
        image: image.into_inner(),
        out: out.into_inner(),
    }
}

/// The status of `check`, and what its writer holds.
pub(crate) fn check_on<V: Write>(alloc: Global, image: &[u8], out: V) -> (Status, V) {
    let mut out = Counted::new(out);
    let status = cmd_check(alloc, image, &mut out);
    (status, out.into_inner())
}

/// The size and the slots of the blank image.
const SMALL: (u32, u16) = (128, 4);

/// `new` writes the blank image and prints `ok`, over writers of which a write takes few bytes.
fn check_blank(alloc: Global, image_step: usize, step: usize) -> Result<(), Fail> {
    let blank = bytes_of(alloc, BLANK)?;
    let image = Narrow::new(alloc, 128, image_step, WhenFull::TakesNothing);
    let out = Narrow::new(alloc, 3, step, WhenFull::TakesNothing);
    let told = new_on(alloc, SMALL, image, out);
    let is_written = told.image.taken.as_slice() == blank.as_slice();
    let is_said = told.out.taken.as_slice() == b"ok\n".as_slice();
    holds(
        format_args!("{image_step} {step}"),
        told.status == Status::Done && is_written && is_said,
    )
}

#[test]
fn new_writes_a_blank_image(rt: HostRuntime) -> Result<(), Fail> {
    check_blank(rt.alloc(), 128, 3)?;
    check_blank(rt.alloc(), 7, 1)
}

/// Sizes and slot counts, and what `new` says of them.
static NO_IMAGES: [((u32, u16), &str); 7] = [
    ((66, 4), "bad BadSize\n"),
    ((56, 4), "bad BadSize\n"),
    ((16_777_216, 4), "bad BadSize\n"),
    ((0, 0), "bad BadSize\n"),
    ((64, 13), "bad BadSlotCount\n"),
    ((64, 0), "bad BadSlotCount\n"),
    ((128, 65_535), "bad BadSlotCount\n"),
];

/// `new` refuses a size and a slot count with this line, and writes no image.
fn check_refused(alloc: Global, asked: (u32, u16), line: &str) -> Result<(), Fail> {
    let told = new_on(alloc, asked, Vec::new(alloc), Vec::new(alloc));
    let is_said = told.out.as_slice() == line.as_bytes();
    holds(
        format_args!("{asked:?}"),
        told.status == Status::BadWords && is_said && told.image.is_empty(),
    )
}

#[test]
fn new_refuses_what_is_no_image(rt: HostRuntime) -> Result<(), Fail> {
    for (asked, line) in &NO_IMAGES {
        check_refused(rt.alloc(), *asked, line)?;
    }
    Ok(())
}

/// What `check` comes to and prints of an image.
pub(crate) fn check_image(
    alloc: Global,
    spot: &str,
    image: &[u8],
    wanted: (Status, &str),
) -> Result<(), Fail> {
    let (status, out) = check_on(alloc, image, Vec::new(alloc));
    check_told(spot, (status, &out), wanted)
}

/// The same, of a listing in which this is changed.
fn check_changed(
    alloc: Global,
    listing: &str,
    changes: &str,
    wanted: (Status, &str),
) -> Result<(), Fail> {
    let region = image(alloc, listing, changes)?;
    check_image(alloc, changes, region.as_slice(), wanted)
}

/// The same, of a listing in which one thing after another is changed: each change, and its fault.
pub(crate) fn check_faults(
    alloc: Global,
    listing: &str,
    faults: &[(&str, &str)],
) -> Result<(), Fail> {
    for (changes, fault) in faults {
        check_changed(alloc, listing, changes, (Status::Refused, fault))?;
    }
    Ok(())
}

/// Listings, and what `check` comes to and prints.
static CHECKS: [(&str, (Status, &str)); 11] = [
    (
        BLANK,
        (
            Status::Done,
            "ok size 128 slots 4 movable 0 fixed 0 free 96\ndatabases 0\n",
        ),
    ),
    (
        ONE_CHUNK,
        (
            Status::Done,
            "ok size 128 slots 4 movable 1 fixed 0 free 72\ndatabases 0\n",
        ),
    ),
    (
        ONE_DATABASE,
        (
            Status::Done,
            "ok size 208 slots 8 movable 4 fixed 0 free 8\ndatabases 1\n",
        ),
    ),
    (
        CHAINED_ONE_SLOT,
        (
            Status::Done,
            "ok size 128 slots 1 movable 0 fixed 0 free 104\ndatabases 0\n",
        ),
    ),
    (
        TWO_TABLES,
        (
            Status::Done,
            "ok size 128 slots 16 movable 1 fixed 1 free 24\ndatabases 0\n",
        ),
    ),
    (
        ONE_FURTHER,
        (
            Status::Done,
            "ok size 128 slots 16 movable 0 fixed 1 free 32\ndatabases 0\n",
        ),
    ),
    (
        BOTH_USED,
        (
            Status::Done,
            "ok size 128 slots 16 movable 2 fixed 1 free 16\ndatabases 0\n",
        ),
    ),
    ("", (Status::Refused, "bad TooShort\n")),
    ("5048 49", (Status::Refused, "bad TooShort\n")),
    (
        "50484931 00000080 00*8",
        (Status::Refused, "bad TooShort\n"),
    ),
    // the blank image without its last byte
    (
        "50484931 00000080 0004 0000 00000000 00*16 80000060 00*91",
        (Status::Refused, "bad TooShort\n"),
    ),
];

/// What is changed in an image with a database, and what `check` says of it.
static FAULTS: [(&str, &str); 11] = [
    ("3: 33", "bad BadMagic\n"),
    ("7: D8", "bad TooShort\n"),
    ("7: C8", "bad BadSize\n"),
    ("9: 00", "bad BadSlotCount\n"),
    ("9: 09", "bad BadPadding\n"),
    ("10: 01", "bad BadReserved\n"),
    ("15: 18", "bad BadDirectory\n"),
    ("172: FF", "bad BadChunk 168\n"),
    ("175: BA", "bad SlotMismatch 24\n"),
    ("31: 00", "bad ChunkWithoutSlot 184\n"),
    ("27: 00, 172: FF000000", "bad BadFixedOwner 168\n"),
];

/// The same of an image with two tables, the second at 40.
static CHAIN_FAULTS: [(&str, &str); 4] = [
    ("23: 30", "bad BadTable 0\n"),
    ("20: 00000000", "bad BadFixedOwner 32\n"),
    ("43: 28", "bad BadTable 1\n"),
    ("47: 20", "bad SlotMismatch 44\n"),
];

#[test]
fn check_says_what_is_there(rt: HostRuntime) -> Result<(), Fail> {
    for (listing, wanted) in &CHECKS {
        check_changed(rt.alloc(), listing, "", *wanted)?;
    }
    Ok(())
}

#[test]
fn check_names_what_is_wrong(rt: HostRuntime) -> Result<(), Fail> {
    let too_long = ("32: 80000068", "bad BadChunk 32\n");
    check_faults(rt.alloc(), BLANK, &[too_long])?;
    check_faults(
        rt.alloc(),
        CHAINED_ONE_SLOT,
        &[("23: 20", "bad BadTable 0\n")],
    )?;
    check_faults(rt.alloc(), TWO_TABLES, &CHAIN_FAULTS)?;
    check_faults(rt.alloc(), ONE_DATABASE, &FAULTS)
}

/// After how many bytes a writer takes no more, and how it says so.
static CUTS: [(usize, WhenFull); 3] = [
    (0, WhenFull::TakesNothing),
    (1, WhenFull::Fails(ErrorKind::StorageFull)),
    (2, WhenFull::Fails(ErrorKind::Interrupted)),
];

/// Checks that `new` ends with a write fault after `room` bytes of its image, and prints nothing.
fn check_image_cut(alloc: Global, room: usize, way: WhenFull) -> Result<(), Fail> {
    let image = Narrow::new(alloc, room, 50, way);
    let told = new_on(alloc, SMALL, image, Vec::new(alloc));
    let is_cut = told.status == Status::WriteFault && told.image.is_cut_at(room);
    holds(
        format_args!("{room} {way:?}"),
        is_cut && told.out.is_empty(),
    )
}

#[test]
fn new_stops_where_the_image_is_not_taken(rt: HostRuntime) -> Result<(), Fail> {
    for (room, way) in &CUTS {
        check_image_cut(rt.alloc(), *room, *way)?;
    }
    check_image_cut(rt.alloc(), 127, WhenFull::TakesNothing)
}

/// Checks that `new` ends with a write fault after `room` printed bytes, and `written` bytes of an
/// image.
fn check_line_cut(
    alloc: Global,
    size: u32,
    written: usize,
    room: usize,
    way: WhenFull,
) -> Result<(), Fail> {
    let out = Narrow::new(alloc, room, 2, way);
    let told = new_on(alloc, (size, 4), Vec::new(alloc), out);
    let is_cut = told.status == Status::WriteFault && told.out.is_cut_at(room);
    holds(
        format_args!("{size} {room} {way:?}"),
        is_cut && told.image.len() == written,
    )
}

#[test]
fn new_stops_where_its_line_is_not_taken(rt: HostRuntime) -> Result<(), Fail> {
    for (room, way) in &CUTS {
        check_line_cut(rt.alloc(), 128, 128, *room, *way)?;
        check_line_cut(rt.alloc(), 66, 0, *room, *way)?;
    }
    Ok(())
}

#[test]
fn new_says_that_its_image_is_not_flushed(rt: HostRuntime) -> Result<(), Fail> {
    let alloc = rt.alloc();
    let told = new_on(alloc, SMALL, Unflushed(Vec::new(alloc)), Vec::new(alloc));
    let is_fault = told.status == Status::WriteFault;
    holds("the image", is_fault && told.out.is_empty())
}

#[test]
fn new_says_that_its_line_is_not_flushed(rt: HostRuntime) -> Result<(), Fail> {
    let alloc = rt.alloc();
    let told = new_on(alloc, SMALL, Vec::new(alloc), Unflushed(Vec::new(alloc)));
    equal("the line", told.status, Status::WriteFault)
}

/// Checks that `check` ends with a write fault after `room` printed bytes.
fn check_cut(alloc: Global, listing: &str, room: usize, way: WhenFull) -> Result<(), Fail> {
    let image = bytes_of(alloc, listing)?;
    let (status, out) = check_on(alloc, &image, Narrow::new(alloc, room, 3, way));
    holds(
        format_args!("{listing}: {room} {way:?}"),
        status == Status::WriteFault && out.is_cut_at(room),
    )
}

#[test]
fn check_stops_where_its_line_is_not_taken(rt: HostRuntime) -> Result<(), Fail> {
    for (room, way) in &CUTS {
        check_cut(rt.alloc(), BLANK, 4 * room, *way)?;
        check_cut(rt.alloc(), "", 4 * room, *way)?;
    }
    Ok(())
}

/// How many bytes `check` prints of a listing to a writer that can't be flushed.
fn check_unflushed(alloc: Global, listing: &str, printed: usize) -> Result<(), Fail> {
    let image = bytes_of(alloc, listing)?;
    let (status, out) = check_on(alloc, &image, Unflushed(Vec::new(alloc)));
    equal(
        listing,
        (status, out.0.len()),
        (Status::WriteFault, printed),
    )
}

#[test]
fn check_says_that_its_line_is_not_flushed(rt: HostRuntime) -> Result<(), Fail> {
    check_unflushed(rt.alloc(), BLANK, 58)?;
    check_unflushed(rt.alloc(), "", 13)
}
