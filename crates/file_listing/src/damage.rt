//! The place of a fault, the number there, and the numbers that are allowed there.

ghost use Rattle.std.specs.Prelude.{◌≡◌, ◌≤◌, ◌+◌, length};
ghost use Rattle.heap_model.specs.Bytes.{u32_at};
ghost use Rattle.heap_model.specs.Database.{resources_in};
ghost use Rattle.heap_model.specs.Database as databases;
ghost use Rattle.heap_model.specs.DatabaseFields.{header_size};
ghost use Rattle.heap_model.specs.Files as files;
ghost use Rattle.heap_model.specs.Files.{IsFirstFault};
ghost use Rattle.pdb_format.specs.Opened.{most_file_bytes};
ghost use Rattle.file_listing.specs.Damage as words;

use byteorder::{BigEndian, ByteOrder};
use db_format::{
    DATABASE_HEADER_SIZE, NEXT_LIST_AT, RECORD_SIZE, RESOURCE_DATA_AT, RESOURCE_SIZE, info_block_at,
};
use heap_model::FileFault;
use pdb_format::{FileBytes, entries_end, has_resources};
use thiserror::Error;

/// The number that a file with a fault has, and the numbers that are allowed there.
#[derive(Clone, Copy, Debug, PartialEq, Eq, Error)]
pub enum Damage {
    /// The number of bytes, and the least number that the header, or the list of entries, needs.
    #[error("{found} bytes, and at least {least} are needed")]
    Short {
        found: usize,
        least: usize,
    },
    /// A number in place of 0.
    #[error("found {found}, and only 0 is allowed")]
    NotZero {
        found: u32,
    },
    /// The first byte of the name is 0.
    #[error("found 0, and 1 to 255 is allowed")]
    Zero,
    /// The offset of an info block.
    #[error("found {found}, and 0 or {least} to {most} is allowed")]
    InfoOutside {
        found: u32,
        least: usize,
        most: usize,
    },
    /// The offset of a record's data.
    #[error("found {found}, and {least} to {most} is allowed, or 0 if the record is deleted")]
    RecordOutside {
        found: u32,
        least: usize,
        most: usize,
    },
    /// The offset of a resource's data.
    #[error("found {found}, and {least} to {most} is allowed")]
    ResourceOutside {
        found: u32,
        least: usize,
        most: usize,
    },
}

/// Returns the offset of the field that has the first fault of a file. It is the size of the file
/// if the file is truncated.
pub fn fault_place<B: FileBytes>(file: &B, fault: FileFault) -> usize
    requires short { length (B.bytes file.now) ≤ most_file_bytes }
    requires first { IsFirstFault (B.bytes file.now) fault }
    ensures is { result ≡ words.fault_place (B.bytes file.now) fault }
    ensures most { result ≤ most_file_bytes }
{
    match fault {
        FileFault::Truncated => file.size(),
        FileFault::ChainedList => NEXT_LIST_AT,
        FileFault::EmptyName => 0,
        FileFault::BadInfo(which) => info_block_at(which),
        FileFault::BadOffset(index) => data_place(file, index),
    }
}

/// Returns the offset at which the entry at an index has the offset of its data.
fn data_place<B: FileBytes>(file: &B, index: u32) -> usize
    requires { header_size ≤ length (B.bytes file.now) }
    ensures { result ≡ databases.entry_offset (resources_in (B.bytes file.now)) index
        + words.data_field (resources_in (B.bytes file.now)) }
{
    if has_resources(file) {
        DATABASE_HEADER_SIZE + RESOURCE_SIZE * index as usize + RESOURCE_DATA_AT
    } else {
        DATABASE_HEADER_SIZE + RECORD_SIZE * index as usize
    }
}

/// Returns the number that a file has at the place of its first fault, and the numbers that are
/// allowed there.
pub fn damage_of<B: FileBytes>(file: &B, fault: FileFault) -> Damage
    requires short { length (B.bytes file.now) ≤ most_file_bytes }
    requires first { IsFirstFault (B.bytes file.now) fault }
    ensures { result ≡ words.damage_of (B.bytes file.now) fault }
{
    match fault {
        FileFault::Truncated => short_of(file),
        FileFault::ChainedList => Damage::NotZero {
            found: number_at(file, fault_place(file, fault)),
        },
        FileFault::EmptyName => Damage::Zero,
        FileFault::BadInfo(_) => Damage::InfoOutside {
            found: number_at(file, fault_place(file, fault)),
            least: entries_end(file),
            most: file.size(),
        },
        FileFault::BadOffset(_) => outside(file, number_at(file, fault_place(file, fault))),
    }
}

/// Returns the damage of a truncated file.
fn short_of<B: FileBytes>(file: &B) -> Damage
    ensures { result ≡ words.short_of (B.bytes file.now) }
{
    let least = if file.size() < DATABASE_HEADER_SIZE {
        DATABASE_HEADER_SIZE
    } else {
        entries_end(file)
    };
    Damage::Short {
        found: file.size(),
        least,
    }
}

/// Returns the damage of a file in which an entry has this offset.
fn outside<B: FileBytes>(file: &B, found: u32) -> Damage
    requires { header_size ≤ length (B.bytes file.now) }
    ensures { result ≡ words.outside (B.bytes file.now) found }
{
    let (least, most) = (entries_end(file), file.size());
    if has_resources(file) {
        Damage::ResourceOutside { found, least, most }
    } else {
        Damage::RecordOutside { found, least, most }
    }
}

/// Returns the number in the four bytes at an offset before the end of the entries.
#[tactic(auto, using(db_format::proofs::WordLaws::u32_at_part))]
fn number_at<B: FileBytes>(file: &B, at: usize) -> u32
    requires inside { at + 4 ≤ length (B.bytes file.now) }
    requires before { at + 4 ≤ files.entries_end (B.bytes file.now) }
    ensures { result ≡ u32_at (B.bytes file.now) at }
{
    let start = file.start();
    BigEndian::read_u32(&start[at..at + 4])
}
