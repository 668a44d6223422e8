//! Images that tests start from.

ghost use Rattle.std.specs.Prelude.{[], ◌≡◌, IfOk};

use heap_model::DbName;
use palm_store::Store;
use std::alloc::Global;
use std::test::*;
use test_beside::{blank_image, store_of};
use test_support::bytes_of as listed;

/// A database with the number 20 and 65,532 resources of the type `code`, whose IDs are their
/// indexes and whose data has no byte. One slot is left, and 32 bytes are free.
pub(crate) fn crowded_program(alloc: Global) -> Result<Vec<u8>, Fail> {
    let mut bytes = listed(
        alloc,
        "50484931 00160050 FFFF 0000 00000010 00040018 00040028",
    )?;
    for index in 0..65_532u32 {
        bytes.extend_from_slice(&(917_592 + 8 * index).to_be_bytes())?;
    }
    let header = "00*8 04000010 00FE0000 00000014 00*4 020A0030 00FDFFFA \
        50 00*31 0001 0000 00*24 6170706C 54657374 00*8 FFFC";
    bytes.extend_from_slice(listed(alloc, header)?.as_slice())?;
    for index in 0..65_532u16 {
        bytes.extend_from_slice(b"code")?;
        bytes.extend_from_slice(&index.to_be_bytes())?;
        bytes.extend_from_slice(&(24 + 4 * u32::from(index)).to_be_bytes())?;
    }
    bytes.extend_from_slice(&[0, 0])?;
    for index in 0..65_532u32 {
        bytes.extend_from_slice(&[0, 0, 0, 8])?;
        bytes.extend_from_slice(&(0x1000_0000 - 458_780 - 2 * index).to_be_bytes())?;
    }
    bytes.extend_from_slice(listed(alloc, "80000020 00*28")?.as_slice())?;
    Ok(bytes)
}

/// A database with the number 20 and as many records as it may have, all of them deleted and
/// without data, with the IDs from 1 on. Its seed is the last ID but one.
pub(crate) fn full_database(alloc: Global) -> Result<Vec<u8>, Fail> {
    let front = "50484931 00080100 0004 0000 00000010 00000028 00000038 00*8 \
        04000010 00FFFFF8 00000014 00*4 02080050 00FFFFF2 \
        52 00*31 0000 0000 00*24 44415441 54657374 0000FFFE 00000000 FFFF";
    let mut bytes = listed(alloc, front)?;
    for id in 1..=65_535u16 {
        bytes.extend_from_slice(&[0, 0, 0, 0, 0x80, 0])?;
        bytes.extend_from_slice(&id.to_be_bytes())?;
    }
    bytes.extend_from_slice(listed(alloc, "00*2 80000080 00*124")?.as_slice())?;
    Ok(bytes)
}

/// A store with the given number of databases, whose names are the numbers from 1 on.
pub(crate) fn with_databases(alloc: Global, count: u32) -> Result<Store, Fail>
    ensures { IfOk result (λ made. made.lents ≡ []) }
{
    let mut store = store_of(alloc, &blank_image(alloc, 200_000, 1_100)?)?;
    for number in 1..=count {
        let name = format!(in alloc; "{number}")?;
        store.create(&DbName::of(name.as_bytes()), 0, 0, false, 0)?;
    }
    Ok(store)
}
