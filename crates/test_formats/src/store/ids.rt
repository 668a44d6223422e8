//! Fresh IDs of databases with some seeds and IDs.

use db_format::{entry_count, has_name, has_resources, is_whole};
use fresh_ids::{FreeIds, NO_IDS, free_ids};
use std::alloc::{AllocError, Global};
use std::test::*;
use test_support::equal;

/// The header of a database with this field of a seed, and the given number of entries.
pub(crate) fn header_of(attributes: u8, seed: u32, count: u16) -> [u8; 78] {
    let mut header = [0; 78];
    header[0] = b'A';
    header[33] = attributes;
    header[68..72].copy_from_slice(&seed.to_be_bytes());
    header[76..78].copy_from_slice(&count.to_be_bytes());
    header
}

/// The bytes of a database of records with this field of a seed, and these IDs.
pub(crate) fn database(alloc: Global, seed: u32, ids: &[u32]) -> Result<Vec<u8>, AllocError> {
    let count = (ids.len() % 65536) as u16;
    let mut bytes = Vec::from_slice(alloc, &header_of(0, seed, count))?;
    for id in ids {
        bytes.extend_from_slice(&u64::from(*id).to_be_bytes())?;
    }
    Ok(bytes)
}

/// Free IDs of a database, the fresh one first, if the bytes are one that a record can be put into,
/// and they are the same once they are known.
fn free_of(bytes: &[u8]) -> Option<FreeIds> {
    if !is_whole(bytes) || !has_name(bytes) {
        return None;
    }
    if has_resources(bytes) || entry_count(bytes) == 65535 {
        return None;
    }
    let free = free_ids(bytes, NO_IDS);
    if free_ids(bytes, free) != free {
        return None;
    }
    Some(free)
}

/// The fresh ID of such a database.
fn fresh_of(bytes: &[u8]) -> Option<u32> {
    match free_of(bytes) {
        Some(free) => Some(free.first),
        None => None,
    }
}

/// The given number of IDs after a seed, the last one first.
fn run_behind(alloc: Global, seed: u32, count: u32) -> Result<Vec<u32>, AllocError> {
    let mut ids = Vec::new(alloc);
    for steps in (0..count).rev() {
        ids.push(nth_behind(seed, steps))?;
    }
    Ok(ids)
}

/// The ID the given number of steps after a seed.
pub(crate) fn nth_behind(seed: u32, steps: u32) -> u32 {
    ((seed as u64 + steps as u64) % 0xFF_FFFF) as u32 + 1
}

/// The field of a seed, the IDs of a database, and the fresh one.
static FRESH: [(u32, &[u32], u32); 11] = [
    (0, &[], 1),
    (5, &[1, 2, 3, 4, 5], 6),
    (5, &[7, 6, 9], 8),
    (0x00FF_FFFE, &[1], 0x00FF_FFFF),
    (0x00FF_FFFE, &[1, 0x00FF_FFFF], 2),
    (0x00FF_FFFF, &[], 1),
    (0x00FF_FFFF, &[2, 1], 3),
    (0xAB00_0005, &[6], 7),
    (0xFFFF_FFFF, &[0x00FF_FFFF], 1),
    (0, &[0, 2], 1),
    (0x00FF_FFFD, &[0, 0x00FF_FFFE, 0x00FF_FFFF], 1),
];

fn check_fresh(alloc: Global, (seed, ids, fresh): (u32, &[u32], u32)) -> Result<(), Fail> {
    let bytes = database(alloc, seed, ids)?;
    equal(
        format_args!("{seed}: {ids:?}"),
        fresh_of(&bytes),
        Some(fresh),
    )
}

#[test]
fn the_first_that_no_record_has(rt: HostRuntime) -> Result<(), Fail> {
    for row in &FRESH {
        check_fresh(rt.alloc(), *row)?;
    }
    Ok(())
}

/// In a database with the given number of IDs after its seed, the fresh ID is the next one.
fn check_run(alloc: Global, seed: u32, count: u32) -> Result<(), Fail> {
    let bytes = database(alloc, seed, &run_behind(alloc, seed, count)?)?;
    equal(
        format_args!("{seed}: {count}"),
        fresh_of(&bytes),
        Some(nth_behind(seed, count)),
    )
}

/// How many IDs there are after a seed.
static COUNTS: [u32; 5] = [1023, 1024, 1025, 40_000, 65_534];

static SEEDS: [u32; 3] = [0, 0x00FF_8000, 0x00FF_FFFF];

fn check_runs(alloc: Global, seed: u32) -> Result<(), Fail> {
    for count in &COUNTS {
        check_run(alloc, seed, *count)?;
    }
    Ok(())
}

#[test]
fn runs_behind_the_seed_are_passed(rt: HostRuntime) -> Result<(), Fail> {
    for seed in &SEEDS {
        check_runs(rt.alloc(), *seed)?;
    }
    Ok(())
}

/// The field of a seed, the IDs of a database, and the first of those that are free and after the
/// last.
static FREE: [(u32, &[u32], u32, u32); 7] = [
    (0, &[], 1, 0x0100_0000),
    (5, &[1, 2, 9, 7], 6, 7),
    (5, &[5, 12, 9], 6, 9),
    (5, &[6, 7, 20], 8, 20),
    (5, &[6, 7], 8, 0x0100_0000),
    (0x00FF_FFFF, &[4], 1, 4),
    (0x00FF_FFFE, &[3], 0x00FF_FFFF, 0x0100_0000),
];

fn check_free(alloc: Global, (seed, ids, first, end): (u32, &[u32], u32, u32)) -> Result<(), Fail> {
    let bytes = database(alloc, seed, ids)?;
    equal(
        format_args!("{seed}: {ids:?}"),
        free_of(&bytes),
        Some(FreeIds { first, end }),
    )
}

#[test]
fn the_ids_behind_are_free_up_to_the_next_record(rt: HostRuntime) -> Result<(), Fail> {
    for row in &FREE {
        check_free(rt.alloc(), *row)?;
    }
    Ok(())
}

/// An ID that is taken, and the first that is free then.
static TAKEN: [(u32, u32); 5] = [(5, 6), (6, 7), (8, 9), (9, 10), (10, 6)];

#[test]
fn one_id_is_taken() -> Result<(), Fail> {
    let free = FreeIds { first: 6, end: 10 };
    for (id, first) in &TAKEN {
        let left = FreeIds {
            first: *first,
            end: 10,
        };
        equal(format_args!("{id}"), free.without(*id), left)?;
    }
    Ok(())
}
