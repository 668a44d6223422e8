//! Headers and entries, read off files and written back.

use bitflags::Flags;
use db_format::{
    DbEntry, DbHeader, NameField, RecordAttrs, RecordEntry, ResourceEntry, entry_count, has_name,
    has_resources, is_name, is_whole, name_in,
};
use std::test::*;
use test_support::{bytes_of, equal};

/// A file of records without their data: each number of the header is another one.
const RECORDS_HEADER: &str = "4f7264657273 00*26 \
    0008 0102 b1000001 b2000002 b3000003 00000007 0000006a 0000006b 44415441 54657374 07000002 00000000 0002 \
    0000006c e3 000001 00000070 05 ffffff";

/// A file of resources without their data.
const RESOURCES_HEADER: &str = "54696e79 00*28 \
    0001 0001 00*24 6170706c 54657374 00000000 00000000 0002 \
    74535452 03e8 00000064 74535452 03e9 00000067";

/// The header of a file that has one.
fn header_of(file: &[u8]) -> Result<DbHeader, Fail> {
    if file.len() < 78 || !is_name(name_in(file)) {
        return Err("a file without a header")?;
    }
    Ok(DbHeader::read(file))
}

/// The numbers of a header, in their order.
fn numbers_of(header: &DbHeader) -> [u32; 12] {
    [
        header.attributes as u32,
        header.version as u32,
        header.creation_date,
        header.modification_date,
        header.backup_date,
        header.modification_number,
        header.app_info,
        header.sort_info,
        header.kind,
        header.creator,
        header.seed,
        header.entry_count as u32,
    ]
}

/// Those of the file of records.
static NUMBERS: [u32; 12] = [
    0x0008,
    0x0102,
    0xB100_0001,
    0xB200_0002,
    0xB300_0003,
    7,
    0x6A,
    0x6B,
    0x4441_5441,
    0x5465_7374,
    0x0700_0002,
    2,
];

#[test]
fn a_header_is_read(rt: HostRuntime) -> Result<(), Fail> {
    let header = header_of(&bytes_of(rt.alloc(), RECORDS_HEADER)?)?;
    let found = (header.name.name(), numbers_of(&header));
    equal("name, numbers", found, (b"Orders".as_slice(), NUMBERS))
}

/// The header of a file, as it was read, has the file's bytes.
fn check_written_back(listing: &str, file: &[u8]) -> Result<(), Fail> {
    let header = header_of(file)?.to_bytes();
    equal(listing, Some(header.as_slice()), file.get(..78))
}

#[test]
fn a_header_is_written_back(rt: HostRuntime) -> Result<(), Fail> {
    for listing in &[RECORDS_HEADER, RESOURCES_HEADER] {
        check_written_back(listing, &bytes_of(rt.alloc(), listing)?)?;
    }
    Ok(())
}

#[test]
fn records_are_read_and_written_back(rt: HostRuntime) -> Result<(), Fail> {
    check_records(&bytes_of(rt.alloc(), RECORDS_HEADER)?)
}

fn check_records(file: &[u8]) -> Result<(), Fail> {
    if file.len() != 94 || !is_whole(file) || has_resources(file) {
        return Err("not two records")?;
    }
    let last = RecordEntry {
        attributes: RecordAttrs::from_bits_retain(0x05),
        id: 0xFF_FFFF,
        slot: 0x70,
    };
    equal("the last", RecordEntry::read(file, 1), last)?;
    equal("its bytes", last.to_bytes().as_slice(), &file[86..])?;
    check_first(file, 0x6C, &file[78..86])
}

/// The first entry of a file has this slot, and is written back as these bytes.
fn check_first(file: &[u8], slot: u32, bytes: &[u8]) -> Result<(), Fail> {
    if !is_whole(file) || entry_count(file) != 2 {
        return Err("not two entries")?;
    }
    let first = DbEntry::read(file, 0);
    equal(
        "the first",
        (first.slot(), first.to_bytes().as_slice()),
        (slot, bytes),
    )
}

#[test]
fn resources_are_read_and_written_back(rt: HostRuntime) -> Result<(), Fail> {
    check_resources(&bytes_of(rt.alloc(), RESOURCES_HEADER)?)
}

fn check_resources(file: &[u8]) -> Result<(), Fail> {
    if file.len() != 98 || !is_whole(file) || !has_resources(file) {
        return Err("not two resources")?;
    }
    let last = ResourceEntry {
        kind: 0x7453_5452,
        id: 1001,
        slot: 0x67,
    };
    equal("the last", ResourceEntry::read(file, 1), last)?;
    equal("its bytes", last.to_bytes().as_slice(), &file[88..])?;
    check_first(file, 0x64, &file[78..88])
}

/// Names, and whether a database may have them.
static NAMES: [(&str, bool); 5] = [
    ("", false),
    ("N", true),
    ("A name of thirty-one bytes, 0123", false),
    ("A name of thirty-one bytes, 012", true),
    ("No\0tes", false),
];

#[test]
fn names_have_1_to_31_bytes() -> Result<(), Fail> {
    for (name, may) in &NAMES {
        equal(*name, NameField::of_name(name.as_bytes()).is_some(), *may)?;
    }
    Ok(())
}

/// Whether only zeros stand after the name in the file of records, where this is the last byte of
/// its field.
fn check_padding(file: &mut [u8], last: u8, is_right: bool) -> Result<(), Fail> {
    if file.len() != 94 {
        return Err("not two records")?;
    }
    file[31] = last;
    let found = (has_name(file), name_in(file));
    equal(last, found, (is_right, b"Orders".as_slice()))
}

#[test]
fn zeros_stand_behind_a_name(rt: HostRuntime) -> Result<(), Fail> {
    let mut file = bytes_of(rt.alloc(), RECORDS_HEADER)?;
    check_padding(&mut file, 0, true)?;
    check_padding(&mut file, 1, false)
}
