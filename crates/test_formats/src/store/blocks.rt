//! Where the blocks of files of databases stand.

use pdb_format::{Block, PdbFile};
use std::alloc::Global;
use std::test::*;
use test_support::{ORDER_FILE, TINY_FILE, bytes_of, equal};

/// A file of two records with both info blocks, which stand against their order, and none of which
/// is empty.
pub(super) const BACKWARD: &str = "4261636b 00*28 \
    0000 0000 00*16 00000064 00000062 44415441 54657374 00000000 00000000 0002 \
    00000060 00 000001 0000005e 00 000002 01020304050607";

/// A file of five records with both info blocks. Bytes before the first block belong to none, three
/// blocks begin at one offset, a deleted record has no data, and another's begins where the file
/// ends.
const ODD: &str = "4141414141414141414141414141414141414141414141414141414141414141 \
    0008 0000 00*16 0000007c 0000007c 44415441 54657374 b0ffffff 00000000 0005 \
    0000007c 33 000007 00000078 00 000007 00000000 e0 000007 00000082 a0 000000 0000007a 40 000000 \
    0909 0102030405060708090a";

/// Files, and where their blocks stand: AppInfo, SortInfo, and the data of the entries.
static BLOCKS: [(&str, &[Option<Block>]); 4] = [
    (
        ORDER_FILE,
        &[
            None,
            None,
            Some(Block {
                start: 108,
                end: 108,
            }),
            Some(Block {
                start: 104,
                end: 108,
            }),
            Some(Block {
                start: 108,
                end: 112,
            }),
        ],
    ),
    (
        TINY_FILE,
        &[
            None,
            None,
            Some(Block {
                start: 100,
                end: 103,
            }),
            Some(Block {
                start: 103,
                end: 106,
            }),
        ],
    ),
    (
        BACKWARD,
        &[
            Some(Block {
                start: 100,
                end: 101,
            }),
            Some(Block {
                start: 98,
                end: 100,
            }),
            Some(Block { start: 96, end: 98 }),
            Some(Block { start: 94, end: 96 }),
        ],
    ),
    (
        ODD,
        &[
            Some(Block {
                start: 124,
                end: 124,
            }),
            Some(Block {
                start: 124,
                end: 124,
            }),
            Some(Block {
                start: 124,
                end: 130,
            }),
            Some(Block {
                start: 120,
                end: 122,
            }),
            None,
            Some(Block {
                start: 130,
                end: 130,
            }),
            Some(Block {
                start: 122,
                end: 124,
            }),
        ],
    ),
];

fn check_blocks(alloc: Global, (listing, blocks): (&str, &[Option<Block>])) -> Result<(), Fail> {
    let bytes = bytes_of(alloc, listing)?;
    let Ok(file) = PdbFile::open(&alloc, &bytes) else {
        return Err("a file with a fault")?;
    };
    equal(listing, file.blocks(), blocks)
}

#[test]
fn blocks_end_where_the_next_begins(rt: HostRuntime) -> Result<(), Fail> {
    for row in &BLOCKS {
        check_blocks(rt.alloc(), *row)?;
    }
    Ok(())
}
