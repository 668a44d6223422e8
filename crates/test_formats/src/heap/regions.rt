//! Numbers and bytes of a region, and parts that it lends.
#![tactic(auto, using(laws_heap::proofs::Lending::all_within))]

ghost use Rattle.std.specs.Prelude.{[], ◌≡◌};

use raw_region::Region;
use std::test::*;
use test_support::equal;

#[test]
fn copies_its_bytes(rt: HostRuntime) -> Result<(), Fail> {
    let region = Region::from_bytes(rt.alloc(), b"PHI1 heap")?;
    let found = (region.len(), region.slice(5, 4));
    equal("bytes", found, (9, b"heap".as_slice()))
}

#[test]
fn starts_as_zeros(rt: HostRuntime) -> Result<(), Fail> {
    for (size, bytes) in [(5, b"\0\0\0\0\0".as_slice()), (0, b"".as_slice())] {
        let region = Region::zeroed(rt.alloc(), size)?;
        equal(size, region.slice(0, region.len()), bytes)?;
    }
    Ok(())
}

#[test]
fn reads_numbers_at_any_offset(rt: HostRuntime) -> Result<(), Fail> {
    let region = Region::from_bytes(rt.alloc(), &[0xFF, 0x12, 0x34, 0x56, 0x78])?;
    let found = (region.get_u16(1), region.get_u32(1));
    equal("numbers", found, (0x1234, 0x1234_5678))
}

#[test]
fn writes_in_place(rt: HostRuntime) -> Result<(), Fail> {
    let mut region = Region::zeroed(rt.alloc(), 12)?;
    region.put_u32(0, 0x5048_4931);
    region.put_u16(5, 0x1234);
    region.write(8, b"abc");
    region.fill(9, 2, b'z');
    let wanted = b"PHI1\0\x12\x34\0azz\0".as_slice();
    equal("bytes", region.slice(0, 12), wanted)
}

/// Bytes; the number of them that slide, from where and to where; and what is there then.
static SLIDES: [(&[u8], (usize, usize, usize), &[u8]); 11] = [
    (b"abcdefgh", (2, 0, 4), b"cdefefgh"),
    (b"abcdefgh", (0, 2, 4), b"ababcdgh"),
    (b"abcdefgh", (1, 0, 7), b"bcdefghh"),
    (b"abcdefgh", (0, 1, 7), b"aabcdefg"),
    (b"abcdefgh", (4, 0, 4), b"efghefgh"),
    (b"abcdefgh", (0, 4, 4), b"abcdabcd"),
    (b"abcdefgh", (5, 8, 0), b"abcdefgh"),
    (b"abcdefgh", (0, 0, 8), b"abcdefgh"),
    // by one byte up and down
    (&[0, 1, 2, 3], (0, 1, 3), &[0, 0, 1, 2]),
    (&[0, 1, 2, 3], (1, 0, 3), &[1, 2, 3, 3]),
    (b"", (0, 0, 0), b""),
];

#[test]
fn slides_bytes_where_they_overlap(rt: HostRuntime) -> Result<(), Fail> {
    for (before, slide, after) in &SLIDES {
        let region = Region::from_bytes(rt.alloc(), before)?;
        check_slide(region, *slide, after)?;
    }
    Ok(())
}

/// Slides the given number of bytes from one offset to another.
fn check_slide(mut region: Region, slide: (usize, usize, usize), after: &[u8]) -> Result<(), Fail>
    requires { region.lents ≡ [] }
{
    let (from, to, n) = slide;
    let most = region.len();
    if from > most || to > most || n > most - from || n > most - to {
        return Err("bytes beyond the end")?;
    }
    region.slide(from, to, n);
    equal(
        format_args!("{n} bytes from {from} to {to}"),
        region.as_slice(),
        after,
    )
}

#[test]
fn lends_a_part(rt: HostRuntime) -> Result<(), Fail> {
    let mut region = Region::from_bytes(rt.alloc(), b"abcdefghijklmnop")?;
    let mut part = region.lend(8, 3);
    part.write(1, b"XY");
    let there = part.len() == 3 && part.slice(2, 1) == b"Y".as_slice();
    let told = (region.lends_at(8), region.lends_at(16), region.is_whole());
    region.slide(0, 12, 2);
    region.take_back(8, part);
    equal("part", (there, told), (true, (true, false, false)))?;
    equal(
        "whole",
        (region.lends_at(8), region.is_whole()),
        (false, true),
    )?;
    equal("bytes", region.as_slice(), b"abcdefghiXYlabop".as_slice())
}
