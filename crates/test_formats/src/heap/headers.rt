//! Sizes, headers and walks, by the format's own numbers.
#![tactic(auto, using(laws_heap::proofs::Lending::all_within, laws_heap::proofs::Lending::all_misses))]

ghost use Rattle.std.specs.Prelude.{[], ◌≡◌, ◌≤◌, ◌<◌, ◌^◌, length, IfOk, None};
ghost use Rattle.chunk_format.specs.Header.{IsWritableHeader, size_by};

use chunk_format::{Header, Walk, chunk_size, put_lock, put_owner};
use heap_model::Place;
use raw_region::Region;
use std::alloc::{AllocError, Global};
use std::test::*;
use test_support::equal;

/// The length of a body, and the size of its chunk.
const SIZES: [(u32, Option<u32>); 8] = [
    (0, Some(8)),
    (1, Some(16)),
    (8, Some(16)),
    (9, Some(24)),
    (10, Some(24)),
    (16_777_200, Some(16_777_208)),
    (16_777_201, None),
    (u32::MAX, None),
];

#[test]
fn sizes_are_rounded_up() -> Result<(), Fail> {
    for (length, size) in &SIZES {
        equal(
            format_args!("a body of {length} bytes"),
            chunk_size(*length),
            *size,
        )?;
    }
    Ok(())
}

/// The header at 24 of 64 bytes, where these words stand: as it is looked for, and where there is
/// one, as that of a chunk that is known to stand there.
fn header_by(alloc: Global, first: u32, second: u32) -> Result<Option<Header>, Fail> {
    let mut region = Region::zeroed(alloc, 64)?;
    region.put_u32(24, first);
    region.put_u32(28, second);
    match Header::read_with_size(&region, 24) {
        Some(both) if Header::at_with_size(&region, 24) == both => Ok(Some(Header::at(
            &region, 24,
        ))),
        Some(_) => Err("two headers of one chunk")?,
        None => Ok(None),
    }
}

/// The two words of a header, and the header that is read there.
static WORDS: [(u32, u32, Option<Header>); 19] = [
    (0x8000_0028, 0, Some(Header::Free { size: 40 })),
    (0xFF00_0008, 0xFFFF_FFFF, Some(Header::Free { size: 8 })),
    (
        0x0000_0010,
        0x01FF_FFFC,
        Some(Header::Movable {
            length: 8,
            lock: 0,
            owner: 1,
            slot: 16,
        }),
    ),
    (
        0x0600_0018,
        0xE100_0004,
        Some(Header::Movable {
            length: 10,
            lock: 14,
            owner: 1,
            slot: 32,
        }),
    ),
    (
        0x0000_0008,
        0x0000_0000,
        Some(Header::Movable {
            length: 0,
            lock: 0,
            owner: 0,
            slot: 24,
        }),
    ),
    (
        0x0700_0010,
        0xF100_0000,
        Some(Header::Fixed {
            length: 1,
            owner: 1,
        }),
    ),
    (
        0x0000_0028,
        0xFF00_0000,
        Some(Header::Fixed {
            length: 32,
            owner: 15,
        }),
    ),
    // a size below 8, not a multiple of 8, or beyond the end
    (0x8000_0000, 0, None),
    (0x8000_000C, 0, None),
    (0x8000_0030, 0, None),
    (0x0000_0030, 0xF100_0000, None),
    // each of the zero bits
    (0x1000_0010, 0xF100_0000, None),
    (0x2000_0010, 0xF100_0000, None),
    (0x4000_0010, 0xF100_0000, None),
    // a sizeAdj above 7, and one above the body
    (0x0800_0018, 0xF100_0000, None),
    (0x0100_0008, 0xF100_0000, None),
    // fixed with an hOffset, and locked with owner 0
    (0x0000_0010, 0xF100_0001, None),
    (0x0000_0010, 0x10FF_FFFC, None),
    (0x0000_0010, 0xE0FF_FFFC, None),
];

#[test]
fn headers_are_read(rt: HostRuntime) -> Result<(), Fail> {
    for (first, second, header) in &WORDS {
        check_header(rt.alloc(), *first, *second, *header)?;
    }
    Ok(())
}

fn check_header(
    alloc: Global,
    first: u32,
    second: u32,
    header: Option<Header>,
) -> Result<(), Fail> {
    let found = header_by(alloc, first, second)?;
    equal(format_args!("{first:08x} {second:08x}"), found, header)
}

#[test]
fn no_header_is_read_at_the_end(rt: HostRuntime) -> Result<(), Fail> {
    let mut region = Region::zeroed(rt.alloc(), 64)?;
    region.put_u32(60, 0x8000_0008);
    for at in &[60, 64, u32::MAX] {
        equal(format_args!("at {at}"), Header::read(&region, *at), None)?;
    }
    Ok(())
}

/// The two words at 24 among bytes 0xAA, once the header is written there, and the header that is
/// read back.
fn written(alloc: Global, header: Header) -> Result<([u32; 2], Option<Header>), Fail>
    requires writable { IsWritableHeader 24 header }
    requires inside { size_by header ≤ 40 }
{
    let mut region = Region::zeroed(alloc, 64)?;
    region.fill(0, 64, 0xAA);
    header.write(&mut region, 24);
    let words = [region.get_u32(24), region.get_u32(28)];
    Ok((words, Header::read(&region, 24)))
}

#[test]
fn a_free_header_leaves_its_second_word(rt: HostRuntime) -> Result<(), Fail> {
    let header = Header::Free { size: 40 };
    let found = written(rt.alloc(), header)?;
    equal("free", found, ([0x8000_0028, 0xAAAA_AAAA], Some(header)))
}

/// The first slot stands before the chunk, and the second one after it.
#[test]
fn a_movable_header_names_its_slot(rt: HostRuntime) -> Result<(), Fail> {
    let header = Header::Movable {
        length: 10,
        lock: 2,
        owner: 1,
        slot: 16,
    };
    let found = written(rt.alloc(), header)?;
    let words = [0x0600_0018, 0x21FF_FFFC];
    equal("slot 16", found, (words, Some(header)))?;
    let header = Header::Movable {
        length: 8,
        lock: 0,
        owner: 15,
        slot: 40,
    };
    let found = written(rt.alloc(), header)?;
    let words = [0x0000_0010, 0x0F00_0008];
    equal("slot 40", found, (words, Some(header)))
}

#[test]
fn a_fixed_header_has_lock_15(rt: HostRuntime) -> Result<(), Fail> {
    let header = Header::Fixed {
        length: 1,
        owner: 14,
    };
    let found = written(rt.alloc(), header)?;
    equal("fixed", found, ([0x0700_0010, 0xFE00_0000], Some(header)))
}

/// Each change leaves the first word, and all else of the second.
#[test]
fn the_second_word_is_written_alone(rt: HostRuntime) -> Result<(), Fail> {
    let mut region = Region::zeroed(rt.alloc(), 64)?;
    region.put_u32(24, 0x0600_0018);
    region.put_u32(28, 0x21FF_FFFC);
    put_lock(&mut region, 24, 14);
    let locked = region.get_u32(28);
    put_owner(&mut region, 24, 15);
    let owned = region.get_u32(28);
    put_lock(&mut region, 24, 0);
    put_owner(&mut region, 24, 0);
    let found = [locked, owned, region.get_u32(28), region.get_u32(24)];
    let wanted = [0xE1FF_FFFC, 0xEFFF_FFFC, 0x00FF_FFFC, 0x0600_0018];
    equal("words", found, wanted)
}

/// From 24 on: a free chunk, a movable one, a fixed one and a free one. Then the fixed one's
/// hOffset puts it out of shape.
#[test]
fn walks_over_chunks(rt: HostRuntime) -> Result<(), Fail> {
    check_walk(rt.alloc(), 0xF100_0000, &CHUNKS)?;
    check_walk(rt.alloc(), 0xF100_0001, &CHUNKS[..2])
}

static CHUNKS: [(Place, Header); 4] = [
    (Place(32), Header::Free { size: 8 }),
    (
        Place(40),
        Header::Movable {
            length: 10,
            lock: 0,
            owner: 1,
            slot: 16,
        },
    ),
    (
        Place(64),
        Header::Fixed {
            length: 8,
            owner: 1,
        },
    ),
    (Place(80), Header::Free { size: 16 }),
];

/// The chunks with this word as the fixed one's second.
fn chunks_with(alloc: Global, second: u32) -> Result<Region, AllocError>
    ensures len { IfOk result (λ region. length region.bytes ≡ 88) }
    ensures whole { IfOk result (λ region. region.lents ≡ []) }
{
    let mut region = Region::zeroed(alloc, 88)?;
    region.put_u32(24, 0x8000_0008);
    region.put_u32(32, 0x0600_0018);
    region.put_u32(36, 0x01FF_FFF8);
    region.put_u32(56, 0x0000_0010);
    region.put_u32(60, second);
    region.put_u32(72, 0x8000_0010);
    Ok(region)
}

fn check_walk(alloc: Global, second: u32, chunks: &[(Place, Header)]) -> Result<(), Fail> {
    let region = chunks_with(alloc, second)?;
    let walked = Walk::new(&region, 24).collect::<Vec<_>>(alloc)?;
    equal(format_args!("{second:08x}"), walked.as_slice(), chunks)
}
