//! The IDs that the records of files are given, with some seeds and IDs in the files.

use crate::store::ids::{database, header_of, nth_behind};
use file_ids::{GivenIds, give_ids};
use pdb_format::PdbFile;
use std::alloc::{AllocError, Global};
use std::test::*;
use test_support::{RefusesOne, equal};

/// The attribute of a record that is deleted, above its ID. Such a record needs no data.
const DELETED_ABOVE_ID: u32 = 0x8000_0000;

/// The bytes of a file of records with this field of a seed, and these IDs.
fn file_of(alloc: Global, seed: u32, ids: &[u32]) -> Result<Vec<u8>, AllocError> {
    let mut entries = Vec::new(alloc);
    for id in ids {
        entries.push(DELETED_ABOVE_ID | *id)?;
    }
    database(alloc, seed, &entries)
}

/// What is given to the records of a file without fault.
fn given_by(alloc: Global, file: &[u8]) -> Option<GivenIds> {
    match PdbFile::open(&alloc, file) {
        Ok(file) => give_ids(&alloc, &file).ok(),
        Err(_) => None,
    }
}

/// The field of a seed and the IDs of a file, and then the IDs that are given and the seed that is
/// left.
static GIVEN: [(u32, &[u32], &[u32], u32); 16] = [
    (7, &[], &[], 7),
    (0xFF00_0009, &[], &[], 9),
    (3, &[4, 1, 2], &[4, 1, 2], 3),
    (0, &[5, 5, 5], &[5, 1, 2], 2),
    (4, &[5, 5, 5], &[5, 6, 7], 7),
    (0, &[1, 1, 1, 1], &[1, 2, 3, 4], 4),
    (9, &[0, 0, 3], &[10, 11, 3], 11),
    (0, &[0, 0, 0], &[1, 2, 3], 3),
    // Those that are kept further on in the list are passed.
    (0, &[0, 1, 2], &[3, 1, 2], 3),
    (7, &[8, 8, 9, 9, 8], &[8, 10, 9, 11, 12], 12),
    (5, &[0, 8, 0, 6, 0], &[7, 8, 9, 6, 10], 10),
    // The upper 8 bits of the field are none of the seed.
    (0xAB00_0005, &[0, 6], &[7, 6], 7),
    // 1 is next to the greatest ID.
    (0x00FF_FFFF, &[0], &[1], 1),
    (0x00FF_FFFF, &[0, 1, 0], &[2, 1, 3], 3),
    (0x00FF_FFFE, &[0, 0, 2], &[0x00FF_FFFF, 1, 2], 1),
    (
        0xFFFF_FFFF,
        &[0x00FF_FFFF, 0x00FF_FFFF],
        &[0x00FF_FFFF, 1],
        1,
    ),
];

/// The records of a file are given these IDs, and leave this seed.
fn check_ids(alloc: Global, spot: u32, file: &[u8], ids: Vec<u32>, seed: u32) -> Result<(), Fail> {
    let given = given_by(alloc, file);
    equal(format_args!("{spot}"), given, Some(GivenIds { ids, seed }))
}

fn check_given(
    alloc: Global,
    (seed, ids, given, last): (u32, &[u32], &[u32], u32),
) -> Result<(), Fail> {
    let file = file_of(alloc, seed, ids)?;
    check_ids(alloc, seed, &file, Vec::from_slice(alloc, given)?, last)
}

#[test]
fn the_first_of_each_id_is_kept(rt: HostRuntime) -> Result<(), Fail> {
    for row in &GIVEN {
        check_given(rt.alloc(), *row)?;
    }
    Ok(())
}

/// The given number of IDs, all of them the same.
fn same_ids(alloc: Global, id: u32, count: usize) -> Result<Vec<u32>, AllocError> {
    let ids = vec![in alloc; id; count]?;
    Ok(ids)
}

/// The file of as many records as there may be, all with one ID.
fn largest_file(alloc: Global, seed: u32, id: u32) -> Result<Vec<u8>, AllocError> {
    file_of(alloc, seed, &same_ids(alloc, id, 65_535)?)
}

/// As many IDs, those after a seed.
fn all_behind(alloc: Global, seed: u32) -> Result<Vec<u32>, AllocError> {
    let mut ids = Vec::new(alloc);
    for steps in 0..65_535 {
        ids.push(nth_behind(seed, steps))?;
    }
    Ok(ids)
}

fn check_largest(alloc: Global, seed: u32, last: u32) -> Result<(), Fail> {
    let file = largest_file(alloc, seed, 0)?;
    check_ids(alloc, seed, &file, all_behind(alloc, seed)?, last)
}

/// The field of a seed, and the seed that is left.
static LARGEST: [(u32, u32); 3] = [(0, 65_535), (0x00FF_FF00, 65_280), (0x00FF_FFFF, 65_535)];

#[test]
fn as_many_records_as_there_may_be(rt: HostRuntime) -> Result<(), Fail> {
    for (seed, last) in &LARGEST {
        check_largest(rt.alloc(), *seed, *last)?;
    }
    Ok(())
}

/// As many IDs: this one, and then the others from 1 on.
fn all_others(alloc: Global, id: u32) -> Result<Vec<u32>, AllocError> {
    let mut ids = Vec::new(alloc);
    ids.push(id)?;
    for other in 1..65_536 {
        if other != id {
            ids.push(other)?;
        }
    }
    Ok(ids)
}

#[test]
fn one_of_as_many_keeps_the_id_of_all(rt: HostRuntime) -> Result<(), Fail> {
    let file = largest_file(rt.alloc(), 0, 1000)?;
    check_ids(rt.alloc(), 0, &file, all_others(rt.alloc(), 1000)?, 65_535)
}

/// The bytes of a file of two resources without bytes, with this field of a seed.
fn file_of_resources(alloc: Global, seed: u32) -> Result<Vec<u8>, AllocError> {
    let mut bytes = Vec::from_slice(alloc, &header_of(1, seed, 2))?;
    bytes.extend_from_slice(b"code\x00\x00\x00\x00\x00\x62code\x00\x01\x00\x00\x00\x62")?;
    Ok(bytes)
}

#[test]
fn resources_are_given_none(rt: HostRuntime) -> Result<(), Fail> {
    let file = file_of_resources(rt.alloc(), 0x0600_0005)?;
    check_ids(rt.alloc(), 0, &file, Vec::new(rt.alloc()), 5)
}

/// Whether IDs are given if this number of allocations is granted.
fn is_given(alloc: Global, file: &[u8], granted: u32) -> bool {
    let memory = RefusesOne::behind(alloc, granted);
    match PdbFile::open(&alloc, file) {
        Ok(file) => give_ids(&memory, &file).is_ok(),
        Err(_) => false,
    }
}

/// IDs are given if at least this number of allocations is granted.
fn check_needed(alloc: Global, file: &[u8], needed: u32) -> Result<(), Fail> {
    for granted in 0..3 {
        let is_given = is_given(alloc, file, granted);
        equal(granted, is_given, granted >= needed)?;
    }
    Ok(())
}

/// Those of records take two allocations, and resources none.
#[test]
fn refused_memory_is_told(rt: HostRuntime) -> Result<(), Fail> {
    check_needed(rt.alloc(), &file_of(rt.alloc(), 0, &[5, 0])?, 2)?;
    check_needed(rt.alloc(), &file_of_resources(rt.alloc(), 0)?, 0)
}
