//! The command `migrate`: the images that it writes, what it refuses, and writers that fail.

use crate::runs::{CHAINED_ONE_SLOT, TWO_TABLES, check_lines};
use chunk_format::blank;
use palm_text::Counted;
use program_io::Status;
use std::alloc::Global;
use std::io::{ErrorKind, Write};
use std::str;
use std::test::Fail;
use store_commands::cmd_migrate;
use test_support::{
    BLANK, Narrow, ONE_CHUNK, ONE_DATABASE, Unflushed, WhenFull, bytes_of, equal, holds, image,
};

/// What the command answered, and what its writers hold.
#[derive(Drop)]
struct Told<W, V> {
    status: Status,
    image: W,
    out: V,
}

fn migrate_to<W: Write, V: Write>(alloc: Global, image: &[u8], image_out: W, out: V) -> Told<W, V> {
    let (mut image_out, mut out) = (Counted::new(image_out), Counted::new(out));
    let status = cmd_migrate(alloc, image, &mut image_out, &mut out);
    Told {
        status,
        image: image_out.into_inner(),
        out: out.into_inner(),
    }
}

/// Migrates an image with writers that take all.
fn migrate_on(alloc: Global, image: &[u8]) -> Told<Vec<u8>, Vec<u8>> {
    migrate_to(alloc, image, Vec::new(alloc), Vec::new(alloc))
}

/// A locked chunk, a fixed one, a free one and a movable one, behind 4 slots. Slack and the free
/// chunk aren't zeros.
const EVERY_KIND: &str = "50484931 00000080 0004 0000 00000000 00000060 00000028 00*8 \
    06000018 32FFFFFA 0102030405060708090A F1F2F3F4F5F6 \
    03000010 F5000000 1112131415 E1E2E3 \
    FF000010 DEADBEEF C1C2C3C4C5C6C7C8 \
    00000028 07FFFFDC 00*28 21222324";

/// The same behind 3 slots: the word behind them is padding.
const ODD_SLOTS: &str = "50484931 00000080 0003 0000 00000000 00000060 00000028 00*8 \
    06000018 32FFFFFA 0102030405060708090A F1F2F3F4F5F6 \
    03000010 F5000000 1112131415 E1E2E3 \
    FF000010 DEADBEEF C1C2C3C4C5C6C7C8 \
    00000028 07FFFFDC 00*28 21222324";

/// Images, and what is written of them.
static WRITTEN: [(&str, &str); 7] = [
    (
        BLANK,
        "50484932 00000088 0004 0000 00000000 00*24 80000060 00*92",
    ),
    (
        "50484931 00000080 0001 0000 00000000 00*8 80000068 00*100",
        CHAINED_ONE_SLOT,
    ),
    (
        ONE_CHUNK,
        "50484932 00000088 0004 0000 00000000 00000030 00*20 06000018 01FFFFF4 00*16 80000048 00*68",
    ),
    (
        EVERY_KIND,
        "50484932 00000088 0004 0000 00000000 00000068 00000030 00*16 \
            06000018 32FFFFF6 0102030405060708090A F1F2F3F4F5F6 \
            03000010 F5000000 1112131415 E1E2E3 \
            FF000010 DEADBEEF C1C2C3C4C5C6C7C8 \
            00000028 07FFFFD8 00*28 21222324",
    ),
    (
        ODD_SLOTS,
        "50484932 00000080 0003 0000 00000000 00000060 00000028 00*8 \
            06000018 32FFFFFA 0102030405060708090A F1F2F3F4F5F6 \
            03000010 F5000000 1112131415 E1E2E3 \
            FF000010 DEADBEEF C1C2C3C4C5C6C7C8 \
            00000028 07FFFFDC 00*28 21222324",
    ),
    (CHAINED_ONE_SLOT, CHAINED_ONE_SLOT),
    (TWO_TABLES, TWO_TABLES),
];

fn check_written(alloc: Global, listing: &str, wanted: &str) -> Result<(), Fail> {
    let told = migrate_on(alloc, &bytes_of(alloc, listing)?);
    let wanted = bytes_of(alloc, wanted)?;
    let is_written = told.image.as_slice() == wanted.as_slice();
    let is_said = told.out.as_slice() == b"ok\n".as_slice();
    holds(
        listing,
        told.status == Status::Done && is_written && is_said,
    )
}

#[test]
fn an_image_gets_a_chain_of_tables(rt: HostRuntime) -> Result<(), Fail> {
    for (listing, wanted) in &WRITTEN {
        check_written(rt.alloc(), listing, wanted)?;
    }
    Ok(())
}

/// Lines on an image, and their replies, by what the image is migrated from.
static LINES: [(&str, &str); 3] = [
    (
        EVERY_KIND,
        "bind a 16 = ok
read a 28 4 = ok 21222324
bind b 20 = ok
locks b = ok 3
read b 0 10 = ok 0102030405060708090a
bind c 64 = refused 1 InvalidHandle
bind d 72 = ok
read d 0 5 = ok 1112131415
compact = ok
unlock b = ok 2
freebytes = ok 16",
    ),
    (
        ODD_SLOTS,
        "bind d 64 = ok
read d 0 5 = ok 1112131415
moreslots = refused 8 NotEnoughSpace",
    ),
    (
        ONE_DATABASE,
        "dbcount = ok 1
moreslots = refused 8 NotEnoughSpace
freebytes = ok 8",
    ),
];

#[test]
fn calls_go_on_in_the_new_image(rt: HostRuntime) -> Result<(), Fail> {
    for (listing, lines) in &LINES {
        let told = migrate_on(rt.alloc(), &bytes_of(rt.alloc(), listing)?);
        check_lines(rt.alloc(), &told.image, lines, &[], &[])?;
    }
    Ok(())
}

/// An image is refused with this line, and no image is written.
fn check_refused(alloc: Global, spot: &str, image: &[u8], line: &str) -> Result<(), Fail> {
    let told = migrate_on(alloc, image);
    let said = str::from_utf8(told.out.as_slice())?;
    equal(
        spot,
        (told.status, said, told.image.len()),
        (Status::Refused, line, 0),
    )
}

/// Listings, what is changed in them, and why they are refused.
static REFUSED: [(&str, &str, &str); 6] = [
    ("", "", "bad TooShort\n"),
    (BLANK, "3: 33", "bad BadMagic\n"),
    (BLANK, "32: 80000068", "bad BadChunk 32\n"),
    (CHAINED_ONE_SLOT, "20: 00000020", "bad BadTable 0\n"),
    (TWO_TABLES, "20: 00000000", "bad BadFixedOwner 32\n"),
    (ONE_DATABASE, "150: 0000001C", "bad SharedChunk 28\n"),
];

#[test]
fn what_is_no_store_is_refused(rt: HostRuntime) -> Result<(), Fail> {
    for (listing, changes, line) in &REFUSED {
        let region = image(rt.alloc(), listing, changes)?;
        check_refused(rt.alloc(), listing, region.as_slice(), line)?;
    }
    Ok(())
}

/// The size of a blank image, its slots, and how long the new image is: none where it is too large.
static LARGE: [(u32, u16, Option<usize>); 4] = [
    (16_777_208, 2, None),
    (16_777_208, 3, Some(16_777_208)),
    (16_777_200, 2, Some(16_777_208)),
    (16_777_208, 65_535, Some(16_777_208)),
];

fn check_large(
    alloc: Global,
    (size, slots): (u32, u16),
    wanted: Option<usize>,
) -> Result<(), Fail> {
    let region = blank(alloc, size, slots)?;
    let spot = "a large image";
    match wanted {
        None => check_refused(alloc, spot, region.as_slice(), "bad TooLarge\n"),
        Some(len) => {
            let told = migrate_on(alloc, region.as_slice());
            equal(spot, (told.status, told.image.len()), (Status::Done, len))
        }
    }
}

#[test]
fn an_image_may_be_too_large(rt: HostRuntime) -> Result<(), Fail> {
    for (size, slots, wanted) in &LARGE {
        check_large(rt.alloc(), (*size, *slots), *wanted)?;
    }
    Ok(())
}

/// After how many bytes a writer takes no more, and how it says so.
static CUTS: [(usize, WhenFull); 3] = [
    (0, WhenFull::TakesNothing),
    (1, WhenFull::Fails(ErrorKind::StorageFull)),
    (2, WhenFull::Fails(ErrorKind::Interrupted)),
];

/// Checks that the command ends with a write fault after `room` bytes of its image.
fn check_image_cut(alloc: Global, room: usize, way: WhenFull) -> Result<(), Fail> {
    let image = bytes_of(alloc, BLANK)?;
    let told = migrate_to(
        alloc,
        &image,
        Narrow::new(alloc, room, 50, way),
        Vec::new(alloc),
    );
    let is_cut = told.status == Status::WriteFault && told.image.is_cut_at(room);
    holds(
        format_args!("{room} {way:?}"),
        is_cut && told.out.is_empty(),
    )
}

/// Checks that the command ends with a write fault after `room` printed bytes, and `written` bytes
/// of an image.
fn check_line_cut(
    alloc: Global,
    listing: &str,
    written: usize,
    (room, way): (usize, WhenFull),
) -> Result<(), Fail> {
    let image = bytes_of(alloc, listing)?;
    let told = migrate_to(
        alloc,
        &image,
        Vec::new(alloc),
        Narrow::new(alloc, room, 2, way),
    );
    let is_cut = told.status == Status::WriteFault && told.out.is_cut_at(room);
    holds(
        format_args!("{room} {way:?}"),
        is_cut && told.image.len() == written,
    )
}

#[test]
fn migrate_stops_where_a_write_fails(rt: HostRuntime) -> Result<(), Fail> {
    for (room, way) in &CUTS {
        check_image_cut(rt.alloc(), *room, *way)?;
        check_line_cut(rt.alloc(), BLANK, 136, (*room, *way))?;
        check_line_cut(rt.alloc(), "", 0, (*room, *way))?;
    }
    check_image_cut(rt.alloc(), 135, WhenFull::TakesNothing)
}

#[test]
fn migrate_says_that_its_image_is_not_flushed(rt: HostRuntime) -> Result<(), Fail> {
    let alloc = rt.alloc();
    let image = bytes_of(alloc, BLANK)?;
    let told = migrate_to(alloc, &image, Unflushed(Vec::new(alloc)), Vec::new(alloc));
    let is_fault = told.status == Status::WriteFault;
    holds("the image", is_fault && told.out.is_empty())
}
