//! Stores in images with a chain of tables, by the check of stores.

use crate::images::{TABLE, image, put_words};
use std::alloc::Global;
use std::test::*;
use store_check::{StoreFault, check_store};
use test_support::equal;

/// An image of 256 bytes with four slots, in the order of the chain: 16, then 52 and 56 of a table
/// at 48, then 36 of one at 32. The directory of slot 16 lists a database of two records, whose
/// header is under slot 56. The chunks of slots 52 and 36 are for data, and nothing names them yet:
/// the app info word is at 140, the sort info word at 144, the slot of the first record at 166,
/// that of the second at 174, and the attributes of the second at 178.
static WORDS: [(u32, u32); 31] = [
    (12, 16),
    (16, 72),
    (20, 48),
    (24, 16),
    (28, TABLE),
    (36, 200),
    (40, 0x0400_0018),
    (44, TABLE),
    (48, 32),
    (52, 192),
    (56, 88),
    (64, 0x0400_0010),
    (68, 0x00FF_FFE8),
    (72, 56),
    (80, 0x0200_0068),
    (84, 0x00FF_FFF4),
    (88, 0x4100_0000),
    (140, 0),
    (144, 0),
    (160, 0),
    (164, 0x0002_0000),
    (168, 0),
    (172, 0x0001_0000),
    (176, 0),
    (180, 0x0002_0000),
    (184, 8),
    (188, 0x0FFF_FFBE),
    (192, 8),
    (196, 0x0FFF_FFB2),
    (200, 0x8000_0038),
    (204, 0),
];

/// Words that are changed in that image, and what the check says: how many databases, or the first
/// fault.
static ROWS: [(&str, &[(u32, u32)], Result<u32, StoreFault>); 8] = [
    (
        "each chunk for data is named once",
        &[(140, 52), (168, 0x0024_0000), (176, 0x8000)],
        Ok(1),
    ),
    (
        "two chunks are named twice: the least slot by its offset",
        &[(140, 52), (144, 52), (168, 0x0024_0000), (176, 0x0024_0000)],
        Err(StoreFault::SharedChunk(36)),
    ),
    (
        "two chunks are named by nothing: the least slot by its offset",
        &[(168, 0x8000), (176, 0x8000)],
        Err(StoreFault::StrayChunk(36)),
    ),
    (
        "one chunk is named by nothing",
        &[(168, 0x0024_0000), (176, 0x8000)],
        Err(StoreFault::StrayChunk(52)),
    ),
    (
        "a record names a table",
        &[(168, 0x0020_0000)],
        Err(StoreFault::BadEntry(0, 0)),
    ),
    (
        "a record names a word in front of a slot",
        &[(168, 0x0030_0000)],
        Err(StoreFault::BadEntry(0, 0)),
    ),
    (
        "an info block is a table",
        &[(140, 32)],
        Err(StoreFault::BadHeader(0)),
    ),
    (
        "the directory lists a table",
        &[(72, 32)],
        Err(StoreFault::BadDirectorySlot(0)),
    ),
];

fn check_row(
    alloc: Global,
    name: &'static str,
    words: &[(u32, u32)],
    right: Result<u32, StoreFault>,
) -> Result<(), Fail> {
    let mut region = image(alloc, 256, &WORDS)?;
    put_words(&mut region, words)?;
    let found = match check_store(&alloc, &region) {
        Ok(summary) => Ok(summary.databases),
        Err(fault) => Err(fault),
    };
    equal(name, found, right)
}

#[test]
fn stores_with_chains_are_checked(rt: HostRuntime) -> Result<(), Fail> {
    for (name, words, right) in &ROWS {
        check_row(rt.alloc(), *name, *words, *right)?;
    }
    Ok(())
}
