//! A database, as the body of its header's chunk spells it (docs/FORMAT.md).

use crate::accepted::Unaccepted;
use crate::image::{are_zeros, byte_at, u16_at, u32_at, up_to_zero};
use heap_model::{Db, Name};
use std::alloc::{AllocError, Global};

/// The bytes before the entries.
pub(crate) const HEADER_LENGTH: usize = 78;

/// The bit of a database's attributes that says that it has resources.
pub(crate) const OF_RESOURCES: u16 = 0x0001;

/// The bit of a record's attributes that says that it is deleted.
pub(crate) const DELETED: u8 = 0x80;

/// The greatest unique ID.
pub(crate) const GREATEST_ID: u32 = 0xFF_FFFF;

/// What the entry of a record takes, in bytes.
pub(crate) const RECORD_LENGTH: u32 = 8;

/// What the entry of a resource takes, in bytes.
pub(crate) const RESOURCE_LENGTH: u32 = 10;

/// The fields of a header, but the info blocks and the number of entries.
#[derive(Drop, PartialEq, Eq)]
pub struct Header {
    pub name: Vec<u8>,
    pub attributes: u16,
    pub version: u16,
    pub creation_date: u32,
    pub modification_date: u32,
    pub backup_date: u32,
    pub modification_number: u32,
    pub kind: u32,
    pub creator: u32,
    pub seed: u32,
}

/// A record, and the chunk of its data, which a deleted one may do without.
#[derive(Clone, Copy, PartialEq, Eq)]
pub struct Record {
    pub data: Option<Name>,
    pub attributes: u8,
    pub id: u32,
}

/// A resource, and the chunk of its data.
#[derive(Clone, Copy, PartialEq, Eq)]
pub struct Resource {
    pub kind: u32,
    pub id: u16,
    pub data: Name,
}

/// A database. Its number is the offset of the slot of its header. It has records or resources, by
/// its attributes, and none of the others.
#[derive(Drop, PartialEq, Eq)]
pub struct Database {
    pub db: Db,
    pub header: Header,
    pub app_info: Option<Name>,
    pub sort_info: Option<Name>,
    pub records: Vec<Record>,
    pub resources: Vec<Resource>,
}

impl Database {
    /// The database that a body spells. Which chunks there are is not looked at.
    pub(crate) fn decode(alloc: Global, db: Db, body: &[u8]) -> Result<Database, Unaccepted> {
        if body.len() < HEADER_LENGTH || u32_at(body, 72) != 0 {
            return Err(Unaccepted::Header(db));
        }
        let name = name_in(alloc, db, body.get(..32).unwrap_or(body))?;
        if body.len() != length_of(body) {
            return Err(Unaccepted::Header(db));
        }
        Ok(Database::of(alloc, db, name, body)?)
    }

    /// The database of a number and a name, of which all else is spelled by a header and its
    /// entries.
    pub(crate) fn of(
        alloc: Global,
        db: Db,
        name: Vec<u8>,
        bytes: &[u8],
    ) -> Result<Database, AllocError> {
        let count = u16_at(bytes, 76);
        let (records, resources) = if are_resources(u16_at(bytes, 32)) {
            (0, count)
        } else {
            (count, 0)
        };
        Ok(Database {
            db,
            header: Header::of(name, bytes),
            app_info: name_of(u32_at(bytes, 52)),
            sort_info: name_of(u32_at(bytes, 56)),
            records: records_in(alloc, records, bytes)?,
            resources: resources_in(alloc, resources, bytes)?,
        })
    }

    /// How many entries there are.
    pub fn entry_count(&self) -> usize {
        self.records.len().saturating_add(self.resources.len())
    }

    /// The names of all its chunks but its header: of its info blocks, and of the data of its
    /// entries.
    pub(crate) fn names(&self, alloc: Global) -> Result<Vec<Name>, AllocError> {
        let mut names = Vec::new(alloc);
        self.put_names(&mut names)?;
        Ok(names)
    }

    /// Adds these names to others.
    pub(crate) fn put_names(&self, names: &mut Vec<Name>) -> Result<(), AllocError> {
        put_name(names, self.app_info)?;
        put_name(names, self.sort_info)?;
        for record in &self.records {
            put_name(names, record.data)?;
        }
        for resource in &self.resources {
            names.push(resource.data)?;
        }
        Ok(())
    }
}

/// Adds a name, if there is one.
fn put_name(names: &mut Vec<Name>, name: Option<Name>) -> Result<(), AllocError> {
    if let Some(name) = name {
        names.push(name)?;
    }
    Ok(())
}

/// The name in a field of 32 bytes: 1 to 31 bytes, and zeros up to the end.
fn name_in(alloc: Global, db: Db, field: &[u8]) -> Result<Vec<u8>, Unaccepted> {
    let name = up_to_zero(field);
    let is_filled = match field.get(name.len()..) {
        Some(behind) => are_zeros(behind),
        None => false,
    };
    if !is_filled || !is_name(name) {
        return Err(Unaccepted::Name(db));
    }
    Ok(Vec::from_slice(alloc, name)?)
}

/// Whether a database may have this name.
pub(crate) fn is_name(name: &[u8]) -> bool {
    !name.is_empty() && name.len() <= 31 && !name.contains(&0)
}

impl Header {
    /// The header of a name, of which all else is spelled.
    fn of(name: Vec<u8>, bytes: &[u8]) -> Header {
        Header {
            name,
            attributes: u16_at(bytes, 32),
            version: u16_at(bytes, 34),
            creation_date: u32_at(bytes, 36),
            modification_date: u32_at(bytes, 40),
            backup_date: u32_at(bytes, 44),
            modification_number: u32_at(bytes, 48),
            kind: u32_at(bytes, 60),
            creator: u32_at(bytes, 64),
            seed: u32_at(bytes, 68),
        }
    }
}

/// Whether the entries of a database are resources, by its attributes.
pub(crate) fn are_resources(attributes: u16) -> bool {
    attributes & OF_RESOURCES != 0
}

/// The size of the given number of entries, by the attributes of their database.
pub(crate) fn entries_length(attributes: u16, count: usize) -> usize {
    let length = if are_resources(attributes) {
        RESOURCE_LENGTH
    } else {
        RECORD_LENGTH
    };
    count.saturating_mul(length as usize)
}

/// What a header takes with its entries, as it says.
pub(crate) fn length_of(bytes: &[u8]) -> usize {
    let count = usize::from(u16_at(bytes, 76));
    HEADER_LENGTH.saturating_add(entries_length(u16_at(bytes, 32), count))
}

/// The chunk that a word names, none where it is 0.
fn name_of(word: u32) -> Option<Name> {
    if word == 0 { None } else { Some(Name(word)) }
}

/// The first entries after a header, as records.
fn records_in(alloc: Global, count: u16, bytes: &[u8]) -> Result<Vec<Record>, AllocError> {
    let mut records = Vec::new(alloc);
    let mut at = HEADER_LENGTH;
    for _ in 0..count {
        let behind = at.saturating_add(4);
        records.push(Record {
            data: name_of(u32_at(bytes, at)),
            attributes: byte_at(bytes, behind),
            id: u32_at(bytes, behind) & GREATEST_ID,
        })?;
        at = at.saturating_add(8);
    }
    Ok(records)
}

/// The same as resources.
fn resources_in(alloc: Global, count: u16, bytes: &[u8]) -> Result<Vec<Resource>, AllocError> {
    let mut resources = Vec::new(alloc);
    let mut at = HEADER_LENGTH;
    for _ in 0..count {
        resources.push(Resource {
            kind: u32_at(bytes, at),
            id: u16_at(bytes, at.saturating_add(4)),
            data: Name(u32_at(bytes, at.saturating_add(6))),
        })?;
        at = at.saturating_add(10);
    }
    Ok(resources)
}
