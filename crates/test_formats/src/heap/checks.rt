//! Each fault, the order of faults, and what is accepted.
#![tactic(auto, using(laws_heap::proofs::Lending::all_within))]

ghost use Rattle.std.specs.Prelude.{[], ◌≡◌, IfOk, ◌≤◌};

use crate::heap::found::found;
use chunk_format::blank;
use heap_check::{HeapFault, Summary, check_heap};
use raw_region::Region;
use std::alloc::{AllocError, Global};
use std::test::*;
use test_support::{BLANK, ONE_CHUNK, ONE_DATABASE, bytes_of, equal, image};

/// What the checker finds in a region has this text.
fn check_found(alloc: Global, spot: &str, region: &Region, text: &str) -> Result<(), Fail>
    requires { region.now.lents ≡ [] }
{
    let found = found(alloc, region)?;
    equal(spot, found.as_str(), text)
}

fn check_case(alloc: Global, listing: &str, changes: &str, text: &str) -> Result<(), Fail> {
    let region = image(alloc, listing, changes)?;
    let found = found(alloc, &region)?;
    equal(
        format_args!("{listing}, changed: {changes}"),
        found.as_str(),
        text,
    )
}

/// Each case has changes of the listing's image, and the text of what the checker finds then.
fn check_changed(alloc: Global, listing: &str, cases: &[(&str, &str)]) -> Result<(), Fail> {
    for (changes, text) in cases {
        check_case(alloc, listing, changes, text)?;
    }
    Ok(())
}

/// Changes of a database, and what the checker finds.
static COUNTED: [(&str, Result<Summary, HeapFault>); 2] = [
    (
        "",
        Ok(Summary {
            size: 208,
            slots: 8,
            movable: 4,
            fixed: 0,
            free: 8,
        }),
    ),
    ("175: BA", Err(HeapFault::SlotMismatch(24))),
];

#[test]
fn a_heap_has_its_counts(rt: HostRuntime) -> Result<(), Fail> {
    for (changes, wanted) in &COUNTED {
        let region = image(rt.alloc(), ONE_DATABASE, changes)?;
        equal(*changes, check_heap(&region), *wanted)?;
    }
    Ok(())
}

const OF_DATABASE: [(&str, &str); 14] = [
    ("", "size 208 slots 8 movable 4 fixed 0 free 8"),
    ("3: 33", "BadMagic"),
    ("7: D8", "TooShort"),
    ("7: C8", "BadSize"),
    ("9: 00", "BadSlotCount"),
    ("9: 09", "BadPadding"),
    ("10: 01", "BadReserved"),
    ("15: 18", "BadDirectory"),
    ("172: FF", "BadChunk 168"),
    ("175: BA", "SlotMismatch 24"),
    ("31: 00", "ChunkWithoutSlot 184"),
    ("27: 00, 172: FF000000", "BadFixedOwner 168"),
    // a directory word that is a slot of the manager's: the header's
    ("15: 14", "size 208 slots 8 movable 4 fixed 0 free 8"),
    // two chunks that name one slot: the one whose place it doesn't hold is without
    ("27: 00, 175: BA", "ChunkWithoutSlot 168"),
];

#[test]
fn every_shorter_prefix_is_too_short(rt: HostRuntime) -> Result<(), Fail> {
    let bytes = bytes_of(rt.alloc(), ONE_DATABASE)?;
    equal("bytes", bytes.len(), 208)?;
    for n in 0..bytes.len() {
        check_too_short(rt.alloc(), &bytes[..n])?;
    }
    Ok(())
}

fn check_too_short(alloc: Global, bytes: &[u8]) -> Result<(), Fail> {
    let region = Region::from_bytes(alloc, bytes)?;
    let fault = HeapFault::TooShort;
    equal(
        format_args!("{} bytes", bytes.len()),
        check_heap(&region),
        Err(fault),
    )
}

const ACCEPTED: &str = "size 128 slots 4 movable 1 fixed 0 free 72";

const OF_ONE_CHUNK: [(&str, &str); 18] = [
    ("", ACCEPTED),
    // slack of any bytes, and a free chunk whose other bits and second word are any
    ("50: FFFFFFFFFFFF", ACCEPTED),
    ("56: FF000048, 60: FFFFFFFF", ACCEPTED),
    // locked, and with the highest owner
    ("36: EF", ACCEPTED),
    // two slots on one chunk
    ("23: 28", "SlotMismatch 20"),
    // a slot that points inside the chunk, also where a header seems to stand there
    ("23: 30", "SlotMismatch 20"),
    ("23: 30, 40: 0000001001FFFFF6", "SlotMismatch 20"),
    // a slot that points at the free chunk, at no chunk, before the area, beyond the end
    ("23: 40", "SlotMismatch 20"),
    ("23: 24", "SlotMismatch 20"),
    ("23: 08", "SlotMismatch 20"),
    ("20: FFFFFFFF", "SlotMismatch 20"),
    // a chunk whose slot is empty, and one that names the directory word, which holds its place
    ("19: 00", "ChunkWithoutSlot 32"),
    ("15: 28, 19: 00, 39: F6", "ChunkWithoutSlot 32"),
    // one that names an offset between two slots, and one that names a word of its own body,
    // which holds its place
    ("19: 00, 39: F9", "ChunkWithoutSlot 32"),
    ("19: 00, 36: 01000004, 40: 00000028", "ChunkWithoutSlot 32"),
    // a directory word that is the slot of a chunk of owner 1, then of owner 0
    ("15: 10", "BadDirectory"),
    ("15: 10, 36: 00", ACCEPTED),
    ("15: 10, 36: 0F", "BadDirectory"),
];

const OF_BLANK: [(&str, &str); 15] = [
    ("", "size 128 slots 4 movable 0 fixed 0 free 96"),
    // an odd count of slots, with padding
    ("9: 03", "size 128 slots 3 movable 0 fixed 0 free 96"),
    // free neighbours that aren't joined
    (
        "32: 80000030, 80: 80000030",
        "size 128 slots 4 movable 0 fixed 0 free 96",
    ),
    ("32: 80000068", "BadChunk 32"),
    ("32: 80000058", "BadChunk 120"),
    // a fixed chunk of each owner that isn't a caller's, and of the callers at both ends
    ("32: 00000010F0000000, 48: 80000050", "BadFixedOwner 32"),
    ("32: 00000010FF000000, 48: 80000050", "BadFixedOwner 32"),
    (
        "32: 00000010F1000000, 48: 80000050",
        "size 128 slots 4 movable 0 fixed 1 free 80",
    ),
    (
        "32: 00000010FE000000, 48: 80000050",
        "size 128 slots 4 movable 0 fixed 1 free 80",
    ),
    // a slot that holds the place of a fixed chunk
    (
        "19: 28, 32: 00000010F1000000, 48: 80000050",
        "SlotMismatch 16",
    ),
    // a directory word that is an empty slot, and no slot
    ("15: 10", "BadDirectory"),
    ("15: 12", "BadDirectory"),
    ("15: 0C", "BadDirectory"),
    ("15: 20", "BadDirectory"),
    ("12: FFFFFFFF", "BadDirectory"),
];

/// Each image has two faults, neighbours in their order, or the same one twice.
const WITH_TWO_FAULTS: [(&str, &str); 14] = [
    ("0: 00, 7: 88", "BadMagic"),
    ("0: 00, 7: 78", "BadMagic"),
    ("7: 78, 9: 00", "BadSize"),
    ("9: 00, 11: 01", "BadSlotCount"),
    ("9: 03, 11: 01, 31: 01", "BadReserved"),
    ("9: 03, 31: 01, 32: 80000068", "BadPadding"),
    ("19: 28, 32: 80000068", "BadChunk 32"),
    ("32: 00000000, 40: 00000000", "BadChunk 32"),
    (
        "23: 28, 32: 0000001001FFFFF8, 48: 80000050",
        "SlotMismatch 20",
    ),
    ("19: 30, 27: 30", "SlotMismatch 16"),
    (
        "32: 00000008F0000000, 40: 0000000801FFFFF4, 48: 80000050",
        "ChunkWithoutSlot 40",
    ),
    (
        "32: 0000000801FFFFF8, 40: 0000000801FFFFF4, 48: 80000050",
        "ChunkWithoutSlot 32",
    ),
    (
        "15: 10, 32: 00000010F0000000, 48: 80000050",
        "BadFixedOwner 32",
    ),
    (
        "32: 00000008F1000000, 40: 00000008F0000000, 48: 00000008FF000000, 56: 80000048",
        "BadFixedOwner 40",
    ),
];

/// Images, and their cases.
static CASES: [(&str, &[(&str, &str)]); 4] = [
    (ONE_DATABASE, &OF_DATABASE),
    (ONE_CHUNK, &OF_ONE_CHUNK),
    (BLANK, &OF_BLANK),
    (BLANK, &WITH_TWO_FAULTS),
];

#[test]
fn the_first_fault_is_answered(rt: HostRuntime) -> Result<(), Fail> {
    for (listing, cases) in &CASES {
        check_changed(rt.alloc(), listing, cases)?;
    }
    Ok(())
}

/// Images whose lengths or slot counts stand at a limit, and what the checker finds.
static LENGTHS: [(&str, &str); 11] = [
    ("", "TooShort"),
    ("00*15", "TooShort"),
    ("00*16", "BadMagic"),
    ("50484931 00000010 00*7", "TooShort"),
    ("50484931 00000010 00*8", "BadSize"),
    (
        "50484931 00000038 0001 0000 00*12 80000020 00*28",
        "BadSize",
    ),
    (
        "50484931 00000044 0001 0000 00*12 8000002C 00*40",
        "BadSize",
    ),
    ("50484931 00000040 000B 0000 00*52", "BadSlotCount"),
    ("50484931 00000040 000D 0000 00*52", "BadSlotCount"),
    ("50484931 00000040 FFFF 0000 00*52", "BadSlotCount"),
    (
        "50484931 00000040 000A 0000 00*44 80000008 00*4",
        "size 64 slots 10 movable 0 fixed 0 free 8",
    ),
];

/// Images whose lengths or slot counts stand at a limit.
#[test]
fn lengths_have_their_limits(rt: HostRuntime) -> Result<(), Fail> {
    for (listing, text) in &LENGTHS {
        check_case(rt.alloc(), listing, "", text)?;
    }
    Ok(())
}

/// The greatest image is accepted, and one of the next length isn't.
#[test]
fn the_greatest_length_is_16_777_208(rt: HostRuntime) -> Result<(), Fail> {
    let region = blank(rt.alloc(), 16_777_208, 65_535)?;
    let text = "size 16777208 slots 65535 movable 0 fixed 0 free 16515048";
    check_found(rt.alloc(), "the greatest", &region, text)?;
    check_found(
        rt.alloc(),
        "a greater one",
        &with_one_slot(rt.alloc(), 16_777_216)?,
        "BadSize",
    )
}

/// Zeros, with the words of a blank image of one slot and 16,777,216 bytes.
fn with_one_slot(alloc: Global, size: u32) -> Result<Region, AllocError>
    requires { 28 ≤ size }
    ensures { IfOk result (λ region. region.lents ≡ []) }
{
    let mut region = Region::zeroed(alloc, size)?;
    region.write(0, b"PHI1\x01\0\0\0\0\x01\0\0");
    region.write(24, b"\x80\xFF\xFF\xE8");
    Ok(region)
}
