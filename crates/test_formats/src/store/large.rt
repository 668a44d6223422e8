//! Images as large as they come.
#![tactic(auto, using(laws_heap::proofs::Lending::all_within))]

ghost use Rattle.std.specs.Prelude.{[], ◌≡◌, IfOk};

use crate::store::found::text_of;
use raw_region::Region;
use std::alloc::Global;
use std::test::*;
use store_check::check_store;
use test_support::equal;

/// Writes a word, if it lies in the region.
fn put(region: &mut Region, at: u32, word: u32) -> Result<(), Fail>
    requires { region.old.lents ≡ [] }
    ensures { region.new.lents ≡ [] }
{
    let at = at as usize;
    if at > region.len() || region.len() - at < 4 {
        return Err("a word beyond the end")?;
    }
    region.put_u32(at, word);
    Ok(())
}

/// Writes words, one after the other.
fn put_all(region: &mut Region, at: u32, words: &[u32]) -> Result<(), Fail>
    requires { region.old.lents ≡ [] }
    ensures { region.new.lents ≡ [] }
{
    let mut next = at;
    for word in words {
        put(region, next, *word)?;
        next = next.saturating_add(4);
    }
    Ok(())
}

/// The second word of the chunk at `at`, whose slot is before it, after `number` others: the
/// owner in its place, and the distance to the slot.
fn second_word(owner: u32, number: u32, at: u32) -> u32 {
    let slot = number.wrapping_mul(4).wrapping_add(16);
    let distance = at.wrapping_sub(slot) / 2;
    owner | 0x0100_0000u32.wrapping_sub(distance) % 0x0100_0000
}

/// The most bytes that an image has.
const MOST_IMAGE: u32 = 16_777_208;

/// Where the records of such an image have their entries and their chunks.
const ENTRIES_AT: u32 = 262_262;

const CHUNKS: u32 = 786_528;

/// The frame, the directory and the header of an image of the most bytes and slots, with one
/// database that has a record for each slot but two. After the chunks of these a free one takes
/// what is left.
static HEADS: [(u32, &[u32]); 6] = [
    (0, &[0x5048_4931, MOST_IMAGE, 0xFFFF_0000, 16]),
    (16, &[262_168, 262_184]),
    (262_160, &[0x0400_0010, 0x00FE_0000, 20]),
    (262_176, &[0x0208_0040, 0x00FD_FFFA, 0x5200_0000]),
    (262_258, &[65_533]),
    (1_310_792, &[0x8000_0000 | MOST_IMAGE - 1_310_792]),
];

/// An image with these, and records without a byte.
fn many_records(alloc: Global) -> Result<Region, Fail>
    ensures { IfOk result (λ region. region.lents ≡ []) }
{
    let mut region = Region::zeroed(alloc, MOST_IMAGE)?;
    put_heads(&mut region)?;
    for index in 0..65_533 {
        put_record(&mut region, index)?;
    }
    Ok(region)
}

fn put_heads(region: &mut Region) -> Result<(), Fail>
    requires { region.old.lents ≡ [] }
    ensures { region.new.lents ≡ [] }
{
    for (at, words) in &HEADS {
        put_all(region, *at, words)?;
    }
    Ok(())
}

/// The record after `number` others: its entry, its slot and its chunk.
fn put_record(region: &mut Region, index: u32) -> Result<(), Fail>
    requires { region.old.lents ≡ [] }
    ensures { region.new.lents ≡ [] }
{
    let (slot, at) = (
        index.wrapping_mul(4).wrapping_add(24),
        index.wrapping_mul(8).wrapping_add(CHUNKS),
    );
    let entry = index.wrapping_mul(8).wrapping_add(ENTRIES_AT);
    put_all(region, entry, &[slot, index.wrapping_add(1)])?;
    put(region, slot, at.wrapping_add(8))?;
    let second = second_word(0x0F00_0000, index.wrapping_add(2), at);
    put_all(region, at, &[8, second])
}

/// Words that are changed, and what is found then. The last entry stands at 786,518.
static OF_MANY_RECORDS: [(&[(u32, u32)], &str); 4] = [
    (&[], "movable 65535 free 15466416 databases 1"),
    // the last record names the data of the first
    (&[(786_518, 24)], "SharedChunk 24"),
    // it is deleted and names none
    (&[(786_518, 0), (786_522, 0x8000_FFFD)], "StrayChunk 262152"),
    // it has the ID of the first
    (&[(786_522, 1)], "BadId 0 65532"),
];

/// What is found in an image in which words are changed.
fn check_found(alloc: Global, mut region: Region, row: (&[(u32, u32)], &str)) -> Result<(), Fail>
    requires { region.lents ≡ [] }
{
    let (changes, text) = row;
    change(&mut region, changes)?;
    let found = text_of(alloc, check_store(&alloc, &region))?;
    equal(format_args!("{changes:?}"), found.as_str(), text)
}

fn change(region: &mut Region, changes: &[(u32, u32)]) -> Result<(), Fail>
    requires { region.old.lents ≡ [] }
    ensures { region.new.lents ≡ [] }
{
    for (at, word) in changes {
        put(region, *at, *word)?;
    }
    Ok(())
}

#[test]
fn many_records_are_checked(rt: HostRuntime) -> Result<(), Fail> {
    for row in &OF_MANY_RECORDS {
        check_found(rt.alloc(), many_records(rt.alloc())?, *row)?;
    }
    Ok(())
}

/// An image of the given number of databases without records.
fn many_databases(alloc: Global, count: u16) -> Result<Region, Fail>
    ensures { IfOk result (λ region. region.lents ≡ []) }
{
    let length = 4 * count as u32;
    let room = (length + 7) / 8 * 8;
    let headers = 4_128 + room;
    let size = headers + 88 * count as u32;
    let mut region = Region::zeroed(alloc, size)?;
    put_all(&mut region, 0, &[0x5048_4931, size, 0x0402_0000, 16, 4_128])?;
    let first = (room - length) << 24 | (room + 8);
    put_all(&mut region, 4_120, &[first, second_word(0, 0, 4_120)])?;
    for index in 0..count {
        put_database(&mut region, headers, u32::from(index))?;
    }
    Ok(region)
}

/// The database after `number` others: its slot, its number in the directory, and its chunk with
/// its name.
fn put_database(region: &mut Region, headers: u32, index: u32) -> Result<(), Fail>
    requires { region.old.lents ≡ [] }
    ensures { region.new.lents ≡ [] }
{
    let (place, slot) = (
        index.wrapping_mul(4),
        index.wrapping_mul(4).wrapping_add(20),
    );
    let at = index.wrapping_mul(88).wrapping_add(headers);
    put(region, slot, at.wrapping_add(8))?;
    put(region, place.wrapping_add(4_128), slot)?;
    let second = second_word(0, index.wrapping_add(1), at);
    put_all(
        region,
        at,
        &[0x0200_0058, second, 0x4141_4141u32.wrapping_add(index)],
    )
}

/// How many databases there are, words that are changed, and what is found then. With 1,024 of them
/// the name of the last stands at 98,256.
static OF_MANY_DATABASES: [(u16, &[(u32, u32)], &str); 7] = [
    (1, &[], "movable 2 free 0 databases 1"),
    (1_000, &[], "movable 1001 free 0 databases 1000"),
    (1_001, &[], "movable 1002 free 0 databases 1001"),
    (1_024, &[], "movable 1025 free 0 databases 1024"),
    // the last has the name of the first, and that of the one before it
    (1_024, &[(98_256, 0x4141_4141)], "SameName 1023"),
    (1_024, &[(98_256, 0x4141_453F)], "SameName 1023"),
    (1_025, &[], "BadDirectorySlot 1024"),
];

#[test]
fn many_databases_are_checked(rt: HostRuntime) -> Result<(), Fail> {
    for row in &OF_MANY_DATABASES {
        check_databases(rt.alloc(), *row)?;
    }
    Ok(())
}

fn check_databases(
    alloc: Global,
    (count, changes, text): (u16, &[(u32, u32)], &str),
) -> Result<(), Fail> {
    check_found(alloc, many_databases(alloc, count)?, (changes, text))
}
