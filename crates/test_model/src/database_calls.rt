//! The calls on databases, each by the words of docs/USING.md: its refusals in their order, what it
//! does and what it returns.

use crate::accepted::MOST_DATABASES;
use crate::database::{Database, Header, OF_RESOURCES, is_name};
use crate::image::Image;
use crate::memory_calls::number;
use crate::parts::{Part, check_parts, lacks_room};
use crate::store::{PlainStore, numbered};
use heap_model::{DatabaseCall, Db, DbInfo, DbName, Name, Refusal, Reply};
use std::alloc::{AllocError, Global};

impl PlainStore {
    /// Does a call on databases.
    pub(crate) fn database_call(
        &mut self,
        alloc: Global,
        call: &DatabaseCall,
        before: &Image,
        reply: &Reply,
    ) -> Result<Reply, Refusal> {
        match call {
            DatabaseCall::Create {
                name,
                kind,
                creator,
                resources,
                date,
            } => {
                let made = Database::new(alloc, name, *kind, *creator, *resources, *date);
                self.create(alloc, made, before, reply)
            }
            DatabaseCall::Delete(db) => self.delete(alloc, *db),
            DatabaseCall::Find(name) => self.find(name.as_slice()),
            DatabaseCall::Nth(index) => self.nth(*index),
            DatabaseCall::Count => Ok(number(self.databases.len())),
            DatabaseCall::Info(db) => self.info(*db),
            DatabaseCall::SetInfo(db, info) => self.set_info(alloc, *db, info),
            DatabaseCall::SetInfoBlock { db, which, name } => self.set_block(*db, *which, *name),
            DatabaseCall::TakeInfoBlock { db, which, owner } => {
                self.take_block(*db, *which, *owner)
            }
            DatabaseCall::InfoBlock(db, which) => self.ask_block(*db, *which),
        }
    }

    /// A database that was made comes after the others, unless there was no memory for it.
    fn create(
        &mut self,
        alloc: Global,
        made: Result<Database, AllocError>,
        before: &Image,
        reply: &Reply,
    ) -> Result<Reply, Refusal> {
        let Ok(mut database) = made else {
            return Err(Refusal::OutOfMemory);
        };
        database.db = self.number_for(alloc, &database, &[], before, reply)?;
        self.add(database)
    }

    /// The number of a database that is made, which is that of a free slot. There may be no room
    /// for its chunks, its header and then these blocks.
    pub(crate) fn number_for(
        &self,
        alloc: Global,
        database: &Database,
        blocks: &[&[u8]],
        before: &Image,
        reply: &Reply,
    ) -> Result<Db, Refusal> {
        self.check_name(&database.header.name, Db(0))?;
        if self.databases.len() >= MOST_DATABASES {
            return Err(Refusal::TooManyEntries);
        }
        let db = number_in(before, reply)?;
        if lacks_room(reply) {
            check_room(alloc, database.header_length(), blocks, before)?;
        }
        Ok(db)
    }

    /// Adds a database after the others.
    pub(crate) fn add(&mut self, database: Database) -> Result<Reply, Refusal> {
        let db = database.db;
        match self.databases.push(database) {
            Ok(()) => Ok(Reply::Database(db)),
            Err(_) => Err(Refusal::OutOfMemory),
        }
    }

    /// A database goes, with all the chunks that it names. None of them may be locked.
    fn delete(&mut self, alloc: Global, db: Db) -> Result<Reply, Refusal> {
        let Ok(named) = self.database(db)?.names(alloc) else {
            return Err(Refusal::OutOfMemory);
        };
        self.heap.free_all(&named)?;
        self.databases.retain(|database| database.db != db);
        Ok(Reply::Done)
    }

    fn find(&self, name: &[u8]) -> Result<Reply, Refusal> {
        match self.named(name) {
            Some(db) => Ok(Reply::Database(db)),
            None => Err(Refusal::NoSuchDatabase),
        }
    }

    fn info(&self, db: Db) -> Result<Reply, Refusal> {
        Ok(Reply::Info(self.database(db)?.info()))
    }

    fn nth(&self, index: u32) -> Result<Reply, Refusal> {
        match self.databases.get(index as usize) {
            Some(database) => Ok(Reply::Database(database.db)),
            None => Err(Refusal::NoSuchDatabase),
        }
    }

    /// All that a header says but the modification number, which rises, the seed, and whether the
    /// entries are resources.
    fn set_info(&mut self, alloc: Global, db: Db, info: &DbInfo) -> Result<Reply, Refusal> {
        self.database(db)?;
        let name = info.name.as_slice();
        self.check_name(name, db)?;
        let header = &mut numbered(&mut self.databases, db)?.header;
        let Ok(name) = Vec::from_slice(alloc, name) else {
            return Err(Refusal::OutOfMemory);
        };
        let kept = header.attributes & OF_RESOURCES;
        header.name = name;
        header.attributes = info.attributes & !OF_RESOURCES | kept;
        header.version = info.version;
        header.creation_date = info.creation_date;
        header.modification_date = info.modification_date;
        header.backup_date = info.backup_date;
        header.modification_number = header.modification_number.wrapping_add(1);
        header.kind = info.kind;
        header.creator = info.creator;
        Ok(Reply::Done)
    }

    /// Refuses what is no name, or is that of a database of another number.
    fn check_name(&self, name: &[u8], db: Db) -> Result<(), Refusal> {
        if !is_name(name) {
            return Err(Refusal::InvalidName);
        }
        match self.named(name) {
            Some(other) if other != db => Err(Refusal::AlreadyExists),
            _ => Ok(()),
        }
    }

    /// The number of the database of a name.
    fn named(&self, name: &[u8]) -> Option<Db> {
        for database in &self.databases {
            if database.header.name.as_slice() == name {
                return Some(database.db);
            }
        }
        None
    }
}

impl Database {
    /// A database that is made: it has no entries, and no number yet.
    fn new(
        alloc: Global,
        name: &DbName,
        kind: u32,
        creator: u32,
        resources: bool,
        date: u32,
    ) -> Result<Database, AllocError> {
        let header = Header {
            name: Vec::from_slice(alloc, name.as_slice())?,
            attributes: if resources { OF_RESOURCES } else { 0 },
            version: 0,
            creation_date: date,
            modification_date: date,
            backup_date: 0,
            modification_number: 0,
            kind,
            creator,
            seed: 0,
        };
        Ok(Database {
            db: Db(0),
            header,
            app_info: None,
            sort_info: None,
            records: Vec::new(alloc),
            resources: Vec::new(alloc),
        })
    }

    /// What its header says, and how many entries it has.
    fn info(&self) -> DbInfo {
        DbInfo {
            name: DbName::of(&self.header.name),
            attributes: self.header.attributes,
            version: self.header.version,
            creation_date: self.header.creation_date,
            modification_date: self.header.modification_date,
            backup_date: self.header.backup_date,
            modification_number: self.header.modification_number,
            kind: self.header.kind,
            creator: self.header.creator,
            seed: self.header.seed,
            entry_count: u16::try_from(self.entry_count()).unwrap_or(u16::MAX),
        }
    }
}

/// The number of a new database: that of a reply, if that is of a free slot, or else of the first
/// that is.
fn number_in(before: &Image, reply: &Reply) -> Result<Db, Refusal> {
    let Some(first) = before.first_free_slot() else {
        return Err(Refusal::NotEnoughSpace);
    };
    match reply {
        Reply::Database(db) if before.is_free_slot(Name(db.0)) => Ok(*db),
        _ => Ok(Db(first.0)),
    }
}

/// Refuses a new database that may find no slot or no room.
fn check_room(
    alloc: Global,
    header: usize,
    blocks: &[&[u8]],
    before: &Image,
) -> Result<(), Refusal> {
    let Ok(parts) = parts_of(alloc, header, blocks, before) else {
        return Err(Refusal::OutOfMemory);
    };
    // the directory takes a slot where it is made, and none where it grows
    let slots = match before.directory() {
        None => parts.len(),
        Some(_) => parts.len().saturating_sub(1),
    };
    if before.free_slots() < slots {
        return Err(Refusal::NotEnoughSpace);
    }
    check_parts(alloc, before, &parts)
}

/// What a new database takes: its header of the given number of bytes, its blocks, and the
/// directory, which is made with one slot or takes one more.
fn parts_of(
    alloc: Global,
    header: usize,
    blocks: &[&[u8]],
    before: &Image,
) -> Result<Vec<Part>, AllocError> {
    let mut parts = Vec::new(alloc);
    parts.push(Part::making(header))?;
    for block in blocks {
        parts.push(Part::making(block.len()))?;
    }
    parts.push(match before.directory() {
        None => Part::making(4),
        Some(directory) => Part::growth(before, directory, 4),
    })?;
    Ok(parts)
}
