//! Chains of tables that are right, and the first fault of those that aren't.

use crate::images::{TABLE, image, put_words};
use heap_check::{
    BITS_SIZE, HeapFault, MOST_MARKS, NO_OWNER, Summary, bits_needed, check_heap,
    check_heap_noting, mark_number, marks_needed, no_bits,
};
use raw_region::Region;
use std::test::*;
use test_support::equal;

/// The numbers of a summary.
pub(crate) fn counted(found: Result<Summary, HeapFault>) -> Result<[u32; 5], HeapFault> {
    match found {
        Ok(s) => Ok([s.size, s.slots, s.movable, s.fixed, s.free]),
        Err(fault) => Err(fault),
    }
}

/// Images of 128 bytes with these words, and what the check says of them.
static ROWS: [(&str, &[(u32, u32)], Result<[u32; 5], HeapFault>); 33] = [
    (
        "no further table",
        &[(24, 0x8000_0068)],
        Ok([128, 1, 0, 0, 104]),
    ),
    (
        "a table of 15, and a chunk of it",
        &[
            (20, 40),
            (16, 32),
            (24, 8),
            (28, 0x01FF_FFFC),
            (32, 72),
            (36, TABLE),
            (44, 112),
            (104, 8),
            (108, 0x01FF_FFE2),
            (112, 0x8000_0010),
        ],
        Ok([128, 16, 2, 1, 16]),
    ),
    (
        "next leads into a free chunk",
        &[(20, 32), (24, 0x8000_0068)],
        Err(HeapFault::BadTable(0)),
    ),
    (
        "next is odd",
        &[(20, 41), (24, 0x8000_0008), (32, 96), (36, TABLE)],
        Err(HeapFault::BadTable(0)),
    ),
    (
        "next is a header",
        &[(20, 32), (24, 0x8000_0008), (32, 96), (36, TABLE)],
        Err(HeapFault::BadTable(0)),
    ),
    (
        "next is far behind",
        &[(20, 0xFFFF_FFF8), (24, 0x8000_0008), (32, 96), (36, TABLE)],
        Err(HeapFault::BadTable(0)),
    ),
    (
        "a table leads to itself",
        &[(20, 40), (40, 40), (24, 0x8000_0008), (32, 96), (36, TABLE)],
        Err(HeapFault::BadTable(1)),
    ),
    (
        "a table leads to one in front of it in the chain",
        &[
            (20, 32),
            (24, 16),
            (28, TABLE),
            (32, 48),
            (40, 16),
            (44, TABLE),
            (48, 32),
            (56, 0x8000_0048),
        ],
        Err(HeapFault::BadTable(2)),
    ),
    (
        "a table without slots",
        &[(20, 32), (24, 0x0400_0010), (28, TABLE), (40, 0x8000_0058)],
        Err(HeapFault::BadTable(0)),
    ),
    (
        "a table with half a slot",
        &[(20, 32), (24, 0x0600_0018), (28, TABLE), (48, 0x8000_0050)],
        Err(HeapFault::BadTable(0)),
    ),
    (
        "a caller's chunk is no table",
        &[(20, 32), (24, 16), (28, 0xF100_0000), (40, 0x8000_0058)],
        Err(HeapFault::BadTable(0)),
    ),
    (
        "two tables against the order of offsets",
        &[
            (20, 48),
            (24, 16),
            (28, TABLE),
            (40, 16),
            (44, TABLE),
            (48, 32),
            (56, 0x8000_0048),
        ],
        Ok([128, 3, 0, 2, 72]),
    ),
    (
        "the first slot of the chain, not by its offset",
        &[
            (20, 48),
            (24, 16),
            (28, TABLE),
            (36, 200),
            (40, 16),
            (44, TABLE),
            (48, 32),
            (52, 200),
            (56, 0x8000_0048),
        ],
        Err(HeapFault::SlotMismatch(52)),
    ),
    (
        "a stray table",
        &[
            (20, 48),
            (24, 16),
            (28, TABLE),
            (40, 16),
            (44, TABLE),
            (56, 0x8000_0048),
        ],
        Err(HeapFault::BadFixedOwner(24)),
    ),
    (
        "a stray table before owner 15",
        &[
            (24, 16),
            (28, TABLE),
            (40, 16),
            (44, 0xFF00_0000),
            (56, 0x8000_0048),
        ],
        Err(HeapFault::BadFixedOwner(24)),
    ),
    (
        "owner 15 alone",
        &[
            (20, 32),
            (24, 16),
            (28, TABLE),
            (40, 16),
            (44, 0xFF00_0000),
            (56, 0x8000_0048),
        ],
        Err(HeapFault::BadFixedOwner(40)),
    ),
    (
        "a slot in use before a stray table",
        &[(24, 16), (28, TABLE), (16, 32), (40, 0x8000_0058)],
        Err(HeapFault::SlotMismatch(16)),
    ),
    (
        "a chunk that names a slot which is empty",
        &[
            (20, 32),
            (24, 16),
            (28, TABLE),
            (40, 8),
            (44, 0x01FF_FFFE),
            (48, 0x8000_0050),
        ],
        Err(HeapFault::ChunkWithoutSlot(40)),
    ),
    (
        "two chunks that name one slot",
        &[
            (20, 32),
            (24, 16),
            (28, TABLE),
            (36, 48),
            (40, 8),
            (44, 0x01FF_FFFE),
            (48, 8),
            (52, 0x01FF_FFFA),
            (56, 0x8000_0048),
        ],
        Err(HeapFault::ChunkWithoutSlot(48)),
    ),
    (
        "a directory of a further table",
        &[
            (12, 36),
            (20, 32),
            (24, 16),
            (28, TABLE),
            (36, 48),
            (40, 8),
            (44, 0x00FF_FFFE),
            (48, 0x8000_0050),
        ],
        Ok([128, 2, 1, 1, 80]),
    ),
    (
        "a directory of a caller's",
        &[
            (12, 36),
            (20, 32),
            (24, 16),
            (28, TABLE),
            (36, 48),
            (40, 8),
            (44, 0x01FF_FFFE),
            (48, 0x8000_0050),
        ],
        Err(HeapFault::BadDirectory),
    ),
    (
        "a chunk out of shape before a table",
        &[(20, 40), (24, 0x8000_0060)],
        Err(HeapFault::BadChunk(120)),
    ),
    (
        "next 0 and a full first table",
        &[(16, 32), (24, 8), (28, 0x01FF_FFFC), (32, 0x8000_0060)],
        Ok([128, 1, 1, 0, 96]),
    ),
    (
        "a table of one slot, in use",
        &[
            (20, 32),
            (24, 16),
            (28, TABLE),
            (36, 48),
            (40, 8),
            (44, 0x01FF_FFFE),
            (48, 0x8000_0050),
        ],
        Ok([128, 2, 1, 1, 80]),
    ),
    (
        "next is a caller's movable chunk",
        &[
            (16, 32),
            (20, 32),
            (24, 16),
            (28, 0x01FF_FFFC),
            (40, 0x8000_0058),
        ],
        Err(HeapFault::BadTable(0)),
    ),
    (
        "next is the directory",
        &[
            (12, 16),
            (16, 32),
            (20, 32),
            (24, 16),
            (28, 0x00FF_FFFC),
            (40, 0x8000_0058),
        ],
        Err(HeapFault::BadTable(0)),
    ),
    (
        "next leads into a body that spells a table",
        &[
            (16, 32),
            (20, 40),
            (24, 24),
            (28, 0x01FF_FFFC),
            (32, 16),
            (36, TABLE),
            (48, 0x8000_0050),
        ],
        Err(HeapFault::BadTable(0)),
    ),
    (
        "next leads into a free chunk that spells a table",
        &[(20, 40), (24, 0x8000_0068), (32, 16), (36, TABLE)],
        Err(HeapFault::BadTable(0)),
    ),
    (
        "next leads to a table in a table",
        &[
            (20, 48),
            (24, 40),
            (28, TABLE),
            (40, 16),
            (44, TABLE),
            (64, 0x8000_0040),
        ],
        Err(HeapFault::BadTable(0)),
    ),
    (
        "a table leads to one within itself",
        &[
            (20, 32),
            (24, 40),
            (28, TABLE),
            (32, 48),
            (40, 16),
            (44, TABLE),
            (64, 0x8000_0040),
        ],
        Err(HeapFault::BadTable(1)),
    ),
    (
        "a table leads to its own slot",
        &[(20, 32), (24, 16), (28, TABLE), (32, 36), (40, 0x8000_0058)],
        Err(HeapFault::BadTable(1)),
    ),
    (
        "a table of no bytes at the end",
        &[(20, 128), (24, 0x8000_0060), (120, 8), (124, TABLE)],
        Err(HeapFault::BadTable(0)),
    ),
    (
        "a table of 11 bytes",
        &[(20, 32), (24, 0x0500_0018), (28, TABLE), (48, 0x8000_0050)],
        Err(HeapFault::BadTable(0)),
    ),
];

#[test]
fn chains_are_checked(rt: HostRuntime) -> Result<(), Fail> {
    for (name, words, right) in &ROWS {
        let region = image(rt.alloc(), 128, *words)?;
        equal(*name, counted(check_heap(&region)), *right)?;
    }
    Ok(())
}

/// Three further tables of one slot, at 32, 48 and 64, whose chunks are followed by a free one.
static THREE: [(u32, u32); 7] = [
    (24, 16),
    (28, TABLE),
    (40, 16),
    (44, TABLE),
    (56, 16),
    (60, TABLE),
    (72, 0x8000_0038),
];

/// The words `next` along the chain: those of the first table and of the further ones at 32, 48 and
/// 64, and what the check says.
static CHAINS: [([u32; 4], Result<[u32; 5], HeapFault>); 11] = [
    ([32, 48, 64, 0], Ok([128, 4, 0, 3, 56])),
    ([64, 0, 32, 48], Ok([128, 4, 0, 3, 56])),
    ([48, 0, 64, 32], Ok([128, 4, 0, 3, 56])),
    // a chain that runs into itself
    ([48, 64, 64, 32], Err(HeapFault::BadTable(3))),
    ([48, 48, 64, 32], Err(HeapFault::BadTable(3))),
    ([48, 32, 64, 32], Err(HeapFault::BadTable(3))),
    ([48, 32, 48, 0], Err(HeapFault::BadTable(1))),
    ([48, 32, 32, 0], Err(HeapFault::BadTable(2))),
    // its last table leads to none
    ([32, 48, 64, 80], Err(HeapFault::BadTable(3))),
    // a table that the chain doesn't reach
    ([32, 64, 0, 0], Err(HeapFault::BadFixedOwner(40))),
    ([0, 48, 64, 32], Err(HeapFault::BadFixedOwner(24))),
];

#[test]
fn chains_of_three_further_tables_are_checked(rt: HostRuntime) -> Result<(), Fail> {
    for (next, right) in &CHAINS {
        let mut region = image(rt.alloc(), 128, &THREE)?;
        let [first, at_32, at_48, at_64] = *next;
        put_words(
            &mut region,
            &[(20, first), (32, at_32), (48, at_48), (64, at_64)],
        )?;
        equal(
            format_args!("{next:?}"),
            counted(check_heap(&region)),
            *right,
        )?;
    }
    Ok(())
}

/// The hOffset of a chunk at 40, and what it leads to in place of a slot in use. The only further
/// table has its place at 32 and its slot at 36.
static NAMED: [(u32, &str); 6] = [
    (0xFF_FFFF, "the middle of a slot"),
    (0xFF_FFFC, "the word next of a table"),
    (0xFF_FFFA, "a header"),
    (0xFF_FFF6, "the word next of the first table"),
    (0xFF_FFF4, "a slot that is empty"),
    (0, "the chunk itself"),
];

#[test]
fn a_chunk_names_a_slot_alone(rt: HostRuntime) -> Result<(), Fail> {
    for (distance, name) in &NAMED {
        let mut region = image(rt.alloc(), 128, &[(20, 32), (24, 16), (28, TABLE), (40, 8)])?;
        put_words(
            &mut region,
            &[(44, 0x0100_0000 | *distance), (48, 0x8000_0050)],
        )?;
        let found = counted(check_heap(&region));
        equal(*name, found, Err(HeapFault::ChunkWithoutSlot(40)))?;
    }
    Ok(())
}

/// A directory in the first table's slot, and a chunk of owner 1 in the first of a further table,
/// which stands at 40.
static OWNED: [(u32, u32); 11] = [
    (12, 16),
    (16, 32),
    (20, 40),
    (24, 8),
    (28, 0x00FF_FFFC),
    (32, 72),
    (36, TABLE),
    (44, 112),
    (104, 8),
    (108, 0x01FF_FFE2),
    (112, 0x8000_0010),
];

#[test]
fn owners_are_noted_by_the_words_of_slots(rt: HostRuntime) -> Result<(), Fail> {
    let region = image(rt.alloc(), 128, &OWNED)?;
    let mut bits = no_bits();
    let mut owners = [NO_OWNER; 32];
    if marks_needed(&region) != 32 {
        return Err("other marks")?;
    }
    assert_eq!(rt; bits_needed(&region), BITS_SIZE);
    assert_eq!(rt;
        counted(check_heap_noting(&region, &mut bits, &mut owners)),
        Ok([128, 16, 2, 1, 16])
    );
    for (number, owner) in owners.iter().enumerate() {
        let right = match number {
            0 => 0,
            7 => 1,
            _ => NO_OWNER,
        };
        equal(format_args!("the mark {number}"), *owner, right)?;
    }
    Ok(())
}

#[test]
fn marks_have_the_numbers_of_words(rt: HostRuntime) -> Result<(), Fail> {
    for (slot, number) in [
        (16, Some(0)),
        (20, Some(1)),
        (44, Some(7)),
        (12, None),
        (18, None),
        (0xFFFF_FFFC, Some(0x3FFF_FFFB)),
    ] {
        equal(
            format_args!("the word at {slot}"),
            mark_number(slot),
            number,
        )?;
    }
    let mut region = Region::zeroed(rt.alloc(), 12)?;
    put_words(&mut region, &[(0, 0x5048_4932)])?;
    assert_eq!(rt; marks_needed(&region), MOST_MARKS - 1);
    assert_eq!(rt; bits_needed(&region), 0);
    Ok(())
}
