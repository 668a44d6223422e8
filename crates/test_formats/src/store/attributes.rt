//! The attributes of records, as a set of bits.

use bitflags::Flags;
use db_format::RecordAttrs;
use std::test::*;
use test_support::equal;

/// Attributes by all of their bits.
fn of_bits(bits: u8) -> RecordAttrs {
    RecordAttrs::from_bits_retain(bits)
}

#[test]
fn attributes_have_their_bits() -> Result<(), Fail> {
    let found = [
        RecordAttrs::DELETE.bits(),
        RecordAttrs::DIRTY.bits(),
        RecordAttrs::BUSY.bits(),
        RecordAttrs::SECRET.bits(),
        RecordAttrs::CATEGORY.bits(),
        (RecordAttrs::DIRTY | RecordAttrs::BUSY).bits(),
        of_bits(0xF3).with_category(5).bits(),
        of_bits(0xD5).category(),
        u8::from(of_bits(0xD5).is_deleted()),
        u8::from(of_bits(0x75).is_deleted()),
    ];
    let wanted = [0x80, 0x40, 0x20, 0x10, 0x0F, 0x60, 0xF5, 5, 1, 0];
    equal("bits, a category, deleted or not", found, wanted)
}
