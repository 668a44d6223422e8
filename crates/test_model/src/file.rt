//! Files of databases, PDB and PRC, taken apart and put together by their bytes (docs/FORMAT.md).
//!
//! The header and the entries of a file are read as those of a heap are, so the names of a database
//! that a file has are the offsets of its blocks.

use crate::database::{
    DELETED, Database, GREATEST_ID, HEADER_LENGTH, Header, Record, Resource, entries_length,
    length_of,
};
use crate::image::{u32_at, up_to_zero};
use crate::record_calls::{BUSY, fresh_id, has_id};
use heap_model::{Db, FileFault, Name, Refusal, Which};
use std::alloc::{AllocError, Global};
use std::slice::Iter;

/// The database of a file, with the IDs and the attributes that the file has. Refused where the
/// file has a fault.
pub(crate) fn database_in(alloc: Global, file: &[u8]) -> Result<Database, Refusal> {
    if file.len() < length_of(file) {
        return Err(Refusal::BadFile(FileFault::Truncated));
    }
    if u32_at(file, 72) != 0 {
        return Err(Refusal::BadFile(FileFault::ChainedList));
    }
    let name = up_to_zero(file.get(..31).unwrap_or(file));
    if name.is_empty() {
        return Err(Refusal::BadFile(FileFault::EmptyName));
    }
    let Ok(database) = database_of(alloc, name, file) else {
        return Err(Refusal::OutOfMemory);
    };
    let area = Area {
        from: length_of(file),
        to: file.len(),
    };
    match area.check(&database) {
        Ok(()) => Ok(database),
        Err(fault) => Err(Refusal::BadFile(fault)),
    }
}

/// The database of a name, of which all else is spelled by a file.
fn database_of(alloc: Global, name: &[u8], file: &[u8]) -> Result<Database, AllocError> {
    Database::of(alloc, Db(0), Vec::from_slice(alloc, name)?, file)
}

/// Where blocks may begin: from the end of the entries up to the end of the file.
#[derive(Clone, Copy)]
struct Area {
    from: usize,
    to: usize,
}

impl Area {
    fn has(self, start: Name) -> bool {
        let start = start.0 as usize;
        self.from <= start && start <= self.to
    }

    /// Whether there is no block, or it begins here.
    fn may_have(self, start: Option<Name>) -> bool {
        match start {
            Some(start) => self.has(start),
            None => true,
        }
    }

    /// Whether all blocks begin here, and there are none but of deleted records that have no data.
    fn check(self, database: &Database) -> Result<(), FileFault> {
        if !self.may_have(database.app_info) {
            return Err(FileFault::BadInfo(Which::App));
        }
        if !self.may_have(database.sort_info) {
            return Err(FileFault::BadInfo(Which::Sort));
        }
        match self.bad_entry(database) {
            None => Ok(()),
            Some(index) => Err(FileFault::BadOffset(u32::try_from(index).unwrap_or(u32::MAX))),
        }
    }

    /// The index of the first entry whose data doesn't begin here.
    fn bad_entry(self, database: &Database) -> Option<usize> {
        for (index, record) in database.records.iter().enumerate() {
            let may_lack = record.attributes & DELETED != 0;
            if !self.may_have(record.data) || record.data.is_none() && !may_lack {
                return Some(index);
            }
        }
        for (index, resource) in database.resources.iter().enumerate() {
            if !self.has(resource.data) {
                return Some(index);
            }
        }
        None
    }
}

/// The blocks of a file, which begin at these offsets, in their order: AppInfo, SortInfo and the
/// data of the entries. Each goes up to the next start, and is empty where a later one begins with
/// it.
pub(crate) fn blocks_in<'a>(
    alloc: Global,
    file: &'a [u8],
    starts: &[Name],
) -> Result<Vec<&'a [u8]>, AllocError> {
    let mut blocks = Vec::new(alloc);
    let mut later = starts;
    for start in starts {
        later = later.get(1..).unwrap_or(&[]);
        let end = if later.contains(start) {
            start.0 as usize
        } else {
            next_start(starts, *start, file.len())
        };
        let block = file.get(start.0 as usize..end).unwrap_or(&[]);
        blocks.push(block)?;
    }
    Ok(blocks)
}

/// The least start above one, or the end of the file.
fn next_start(starts: &[Name], start: Name, length: usize) -> usize {
    let mut next = length;
    for other in starts {
        if other.0 > start.0 {
            next = next.min(other.0 as usize);
        }
    }
    next
}

/// One of some names for another, where there is one; 0 after the last.
fn replaced(name: Option<Name>, names: &mut Iter<Name>) -> Option<Name> {
    match name {
        None => None,
        Some(_) => Some(*names.next().unwrap_or(&Name(0))),
    }
}

/// The word of a name, 0 for none.
fn word(name: Option<Name>) -> u32 {
    match name {
        Some(name) => name.0,
        None => 0,
    }
}

impl Database {
    /// Other names, in their order, stand for those that it has.
    pub(crate) fn rename(&mut self, names: &[Name]) {
        let mut names = names.iter();
        self.app_info = replaced(self.app_info, &mut names);
        self.sort_info = replaced(self.sort_info, &mut names);
        for record in &mut self.records {
            record.data = replaced(record.data, &mut names);
        }
        for resource in &mut self.resources {
            resource.data = *names.next().unwrap_or(&resource.data);
        }
    }

    /// No record is in use, and each has an ID of its own: the first that has one keeps it, and the
    /// others get those after the seed, which has the last of these then.
    pub(crate) fn settle(&mut self) {
        for index in 0..self.records.len() {
            self.clean(index);
        }
        for index in 0..self.records.len() {
            self.give_id(index);
        }
    }

    /// The record of an index isn't in use, and has no ID if one before it has the same.
    fn clean(&mut self, index: usize) {
        if index >= self.records.len() {
            return;
        }
        let (front, rest) = self.records.split_at_mut(index);
        if let Some(record) = rest.first_mut() {
            record.attributes &= !BUSY;
            if has_id(front, record.id) {
                record.id = 0;
            }
        }
    }

    /// The record of an index gets a fresh ID if it has none.
    fn give_id(&mut self, index: usize) {
        let seed = self.header.seed;
        let id = match self.records.get(index) {
            Some(record) if record.id == 0 => fresh_id(&self.records, seed & GREATEST_ID),
            _ => return,
        };
        if let Some(record) = self.records.get_mut(index) {
            record.id = id;
        }
        self.header.seed = seed & !GREATEST_ID | id;
    }

    /// What its header takes with the entries.
    pub(crate) fn header_length(&self) -> usize {
        HEADER_LENGTH.saturating_add(entries_length(self.header.attributes, self.entry_count()))
    }

    /// What stands before the blocks of its file: the header, the entries and two zeros.
    pub(crate) fn front_length(&self) -> usize {
        self.header_length().saturating_add(2)
    }

    /// Writes the header and the entries of its file, whose blocks begin at these offsets.
    pub(crate) fn put_front(&self, file: &mut [u8], starts: &[Name]) {
        let mut starts = starts.iter();
        let app_info = word(replaced(self.app_info, &mut starts));
        let sort_info = word(replaced(self.sort_info, &mut starts));
        self.header.put(file, app_info, sort_info);
        let count = u16::try_from(self.entry_count()).unwrap_or(u16::MAX);
        put_at(file, 76, &count.to_be_bytes());
        put_records(file, &self.records, &mut starts);
        put_resources(file, &self.resources, &mut starts);
    }
}

impl Header {
    /// Writes a header before the number of entries.
    fn put(&self, file: &mut [u8], app_info: u32, sort_info: u32) {
        put_at(file, 0, &self.name);
        let mut at = 32usize;
        for word in [
            u32::from(self.attributes) << 16 | u32::from(self.version),
            self.creation_date,
            self.modification_date,
            self.backup_date,
            self.modification_number,
            app_info,
            sort_info,
            self.kind,
            self.creator,
            self.seed,
            0,
        ] {
            put_at(file, at, &word.to_be_bytes());
            at = at.saturating_add(4);
        }
    }
}

/// Writes the entries of records, none of which is in use. Their data begins at these offsets.
fn put_records(file: &mut [u8], records: &[Record], starts: &mut Iter<Name>) {
    let mut at = HEADER_LENGTH;
    for record in records {
        let start = word(replaced(record.data, starts));
        let attributes = u32::from(record.attributes & !BUSY);
        put_at(file, at, &start.to_be_bytes());
        put_at(
            file,
            at.saturating_add(4),
            &(attributes << 24 | record.id).to_be_bytes(),
        );
        at = at.saturating_add(8);
    }
}

/// Writes the entries of resources, whose data begins at these offsets.
fn put_resources(file: &mut [u8], resources: &[Resource], starts: &mut Iter<Name>) {
    let mut at = HEADER_LENGTH;
    for resource in resources {
        let start = word(replaced(Some(resource.data), starts));
        put_at(file, at, &resource.kind.to_be_bytes());
        put_at(file, at.saturating_add(4), &resource.id.to_be_bytes());
        put_at(file, at.saturating_add(6), &start.to_be_bytes());
        at = at.saturating_add(10);
    }
}

/// Writes bytes from an offset on, as far as there is room for them.
fn put_at(file: &mut [u8], at: usize, bytes: &[u8]) {
    for (index, byte) in bytes.iter().enumerate() {
        if let Some(place) = file.get_mut(at.saturating_add(index)) {
            *place = *byte;
        }
    }
}
