//! The entries of databases, as calls return them.

ghost use Rattle.std.specs.Prelude.{◌≡◌};
ghost use Rattle.heap_model.specs.EntrySteps.{record_told, resource_told};

use crate::names::Name;

/// The fields of a record's entry (Palm OS Programmer's API Reference, `DmRecordInfo`). The
/// attributes are those of the File Format Specification: 0x80 for a deleted record, 0x40 for a
/// dirty one, 0x20 for a busy one, 0x10 for a secret one, and the category in the low four bits.
#[derive(Clone, Copy, Debug, PartialEq, Eq)]
pub struct RecordInfo {
    pub attributes: u8,
    /// The unique ID, 1 to 0xFFFFFF.
    pub id: u32,
    /// The chunk of its data. A deleted record may have none.
    pub data: Option<Name>,
}

/// The fields of a resource's entry (Palm OS Programmer's API Reference, `DmResourceInfo`).
#[derive(Clone, Copy, Debug, PartialEq, Eq)]
pub struct ResourceInfo {
    /// The type, its four bytes as a number.
    pub kind: u32,
    pub id: u16,
    /// The chunk of its data.
    pub data: Name,
}

/// The fields of an entry.
#[derive(Clone, Copy, Debug, PartialEq, Eq)]
pub enum Entry {
    Record(RecordInfo),
    Resource(ResourceInfo),
}

impl Entry {
    /// Returns the fields of a record, if the entry is a record.
    pub fn as_record(self) -> Option<RecordInfo>
        ensures { result ≡ record_told self }
    {
        match self {
            Entry::Record(info) => Some(info),
            Entry::Resource(_) => None,
        }
    }

    /// Returns the fields of a resource, if the entry is a resource.
    pub fn as_resource(self) -> Option<ResourceInfo>
        ensures { result ≡ resource_told self }
    {
        match self {
            Entry::Record(_) => None,
            Entry::Resource(info) => Some(info),
        }
    }
}
