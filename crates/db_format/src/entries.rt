//! The entries of records and of resources.

ghost use Rattle.std.specs.Prelude.{◌≡◌, ◌+◌, ◌≤◌, ◌<◌, ◌^◌, true, false, Some, length};
ghost use Rattle.heap_model.specs.Database.{resources_in, entry_in, entry_bytes, entry_data};
ghost use Rattle.heap_model.specs.Database as databases;
ghost use Rattle.heap_model.specs.Store.{unique_id};
ghost use Rattle.heap_model.specs.UniqueIds.{greatest_id};
ghost use Rattle.db_format.specs.Entries.{record_of, resource_of, WritesEntry};

use crate::fields::{
    RECORD_ATTRIBUTES_AT, RECORD_ID_AT, RECORD_SIZE, RESOURCE_DATA_AT, RESOURCE_ID_AT,
    RESOURCE_SIZE, entry_offset,
};
use crate::record_attributes::RecordAttrs;
use crate::words::{put_u8, put_u16, put_u24, put_u32, u16_in, u24_in, u32_in};
use bitflags::Flags;

/// The greatest unique ID; the least is 1.
pub const GREATEST_ID: u32 = 0xFF_FFFF;

/// The number of seeds. A seed is in the low 24 bits of its field, so the upper 8 bits count
/// multiples of this number.
pub const SEEDS: u32 = GREATEST_ID + 1;

/// The entry of a record (Palm OS File Format Specification, "PDB Format"). It has the slot of its
/// data, and a file has an offset instead.
#[derive(Clone, Copy, PartialEq, Eq, Debug)]
pub struct RecordEntry {
    pub attributes: RecordAttrs,
    /// The unique ID, in the low 24 bits.
    pub id: u32,
    /// The slot of the data's chunk, or 0.
    pub slot: u32,
}

/// The entry of a resource (Palm OS File Format Specification, "PRC Format"). It has the slot of
/// its data, and a file has an offset instead.
#[derive(Clone, Copy, PartialEq, Eq, Debug)]
pub struct ResourceEntry {
    /// The resource's type, its four bytes as a number.
    pub kind: u32,
    pub id: u16,
    /// The slot of the data's chunk.
    pub slot: u32,
}

impl RecordEntry {
    /// Reads the entry at an index from the bytes of a database of records.
    #[inline]
    pub fn read(body: &[u8], index: u16) -> RecordEntry
        requires inside { databases.entry_offset false (index + 1) ≤ length body.now }
        requires records { resources_in body.now ≡ false }
        ensures is { record_of result ≡ entry_in body.now index }
        ensures id { result.id ≤ greatest_id }
    {
        let at = entry_offset(false, index);
        RecordEntry {
            slot: u32_in(body, at),
            attributes: RecordAttrs::from_bits_retain(body[at + RECORD_ATTRIBUTES_AT]),
            id: u24_in(body, at + RECORD_ID_AT),
        }
    }

    /// Returns the bytes of the entry.
    #[inline(always)]
    pub fn to_bytes(self) -> [u8; 8]
        requires { self.id ≤ greatest_id }
        ensures is { result ≡ entry_bytes (record_of self) }
        ensures written { WritesEntry false (record_of self) result }
    {
        let mut bytes = [0; RECORD_SIZE];
        put_u32(&mut bytes, 0, self.slot);
        put_u8(&mut bytes, RECORD_ATTRIBUTES_AT, self.attributes.bits());
        put_u24(&mut bytes, RECORD_ID_AT, self.id);
        bytes
    }
}

impl ResourceEntry {
    /// Reads the entry at an index from the bytes of a database of resources.
    #[inline]
    pub fn read(body: &[u8], index: u16) -> ResourceEntry
        requires inside { databases.entry_offset true (index + 1) ≤ length body.now }
        requires resources { resources_in body.now ≡ true }
        ensures { resource_of result ≡ entry_in body.now index }
    {
        let at = entry_offset(true, index);
        ResourceEntry {
            kind: u32_in(body, at),
            id: u16_in(body, at + RESOURCE_ID_AT),
            slot: u32_in(body, at + RESOURCE_DATA_AT),
        }
    }

    /// Returns the bytes of the entry.
    #[inline(always)]
    pub fn to_bytes(self) -> [u8; 10]
        ensures is { result ≡ entry_bytes (resource_of self) }
        ensures written { WritesEntry true (resource_of self) result }
    {
        let mut bytes = [0; RESOURCE_SIZE];
        put_u32(&mut bytes, 0, self.kind);
        put_u16(&mut bytes, RESOURCE_ID_AT, self.id);
        put_u32(&mut bytes, RESOURCE_DATA_AT, self.slot);
        bytes
    }
}

/// Returns the unique ID in the entry of a record.
#[inline]
pub fn record_id(body: &[u8], index: u16) -> u32
    requires inside { databases.entry_offset false (index + 1) ≤ length body.now }
    requires records { resources_in body.now ≡ false }
    ensures is { Some result ≡ unique_id (entry_in body.now index) }
    ensures most { result ≤ greatest_id }
{
    u24_in(body, entry_offset(false, index) + RECORD_ID_AT)
}

/// Returns the slot in the entry at an index, of a resource or of a record.
#[inline]
pub fn entry_slot(body: &[u8], resources: bool, index: u16) -> u32
    requires inside { databases.entry_offset resources (index + 1) ≤ length body.now }
    requires kind { resources_in body.now ≡ resources }
    ensures { result ≡ entry_data (entry_in body.now index) }
{
    let at = entry_offset(resources, index);
    if resources {
        u32_in(body, at + RESOURCE_DATA_AT)
    } else {
        u32_in(body, at)
    }
}
