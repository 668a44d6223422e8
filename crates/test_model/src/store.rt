//! The store: chunks by their names, and databases.

use crate::accepted::{Unaccepted, databases_of};
use crate::database::Database;
use crate::heap::PlainHeap;
use crate::image::Image;
use heap_model::{Call, Db, Name, Refusal, Reply};
use std::alloc::{AllocError, Global};

/// The chunks of callers and of databases, each under its name, and the databases in order. The
/// directory and the headers of databases are no chunks here.
#[derive(Drop)]
pub struct PlainStore {
    pub(crate) heap: PlainHeap,
    pub(crate) databases: Vec<Database>,
}

/// In what two stores differ.
#[derive(Clone, Copy, Debug, PartialEq, Eq)]
pub enum Difference {
    /// The chunk of this name.
    Chunk(Name),
    /// The database of this number, which stands at this index of one of them.
    Database(usize, Db),
}

impl PlainStore {
    /// The store that an image means. Refused where the image isn't accepted with its databases.
    pub fn of(alloc: Global, image: &Image) -> Result<PlainStore, Unaccepted> {
        let databases = databases_of(alloc, image)?;
        let heap = PlainHeap::owned_from(alloc, image, 1)?;
        Ok(PlainStore { heap, databases })
    }

    /// The databases, in order.
    pub fn databases(&self) -> &[Database] {
        &self.databases
    }

    /// The first difference from another store.
    pub fn difference(&self, other: &PlainStore) -> Option<Difference> {
        if let Some(name) = self.heap.other_chunk(&other.heap) {
            return Some(Difference::Chunk(name));
        }
        if let Some(name) = other.heap.other_chunk(&self.heap) {
            return Some(Difference::Chunk(name));
        }
        let longer = if self.databases.len() < other.databases.len() {
            &other.databases
        } else {
            &self.databases
        };
        for (index, database) in longer.iter().enumerate() {
            if self.databases.get(index) != other.databases.get(index) {
                return Some(Difference::Database(index, database.db));
            }
        }
        None
    }

    /// Does a call, and returns what the reply to it must be.
    ///
    /// What the store doesn't say stands in the images before and after the call, and in the reply,
    /// as with the calls of the memory manager. Where a call of several parts may run out of room,
    /// it is refused exactly if the reply says so.
    pub fn call(
        &mut self,
        alloc: Global,
        call: &Call,
        before: &Image,
        after: &Image,
        reply: &Reply,
    ) -> Reply {
        let answer = match call {
            Call::Memory(call) => Ok(self.heap.call(alloc, call, before, after, reply)),
            Call::Database(call) => self.database_call(alloc, call, before, reply),
            Call::Record(call) => self.record_call(alloc, call, before, reply),
            Call::Resource(call) => self.resource_call(alloc, call, before, reply),
            Call::File(call) => self.file_call(alloc, call, before, after, reply),
        };
        answer.unwrap_or_else(Reply::Refused)
    }

    /// Takes the bytes of a chunk out, as `PlainHeap` does.
    pub fn take_out(&mut self, name: Name) -> Result<(), Refusal> {
        self.heap.take_out(name)
    }

    /// Takes the bytes of a chunk out while others may be out, as `PlainHeap` does.
    pub fn take_out_also(&mut self, name: Name) -> Result<(), Refusal> {
        self.heap.take_out_also(name)
    }

    /// Puts the bytes of a chunk back with a text over the first of them, as `PlainHeap` does.
    pub fn put_back(&mut self, name: Name, text: &[u8]) {
        self.heap.put_back(name, text);
    }

    /// The names of the chunks whose bytes are out, the last taken out first.
    pub fn lent(&self) -> &[Name] {
        self.heap.lent()
    }

    /// The names of the chunks whose bytes are out, in the order of an image's chunks.
    pub fn loans(&self, alloc: Global, image: &Image) -> Result<Vec<Name>, AllocError> {
        self.heap.loans(alloc, image)
    }

    /// The database of a number.
    pub(crate) fn database(&self, db: Db) -> Result<&Database, Refusal> {
        for database in &self.databases {
            if database.db == db {
                return Ok(database);
            }
        }
        Err(Refusal::NoSuchDatabase)
    }
}

/// The database of a number among others, to change it.
pub(crate) fn numbered(databases: &mut [Database], db: Db) -> Result<&mut Database, Refusal> {
    for database in databases {
        if database.db == db {
            return Ok(database);
        }
    }
    Err(Refusal::NoSuchDatabase)
}
