//! The calls that take a caller's chunk into a database, as the data of a record or as an info
//! block, and those that ask for an info block or return it.

use crate::database::{Database, RECORD_LENGTH};
use crate::heap::PlainHeap;
use crate::image::{Image, LOCK_OF_FIXED};
use crate::memory_calls::{DATA_OWNER, check_owner};
use crate::record_calls::DIRTY;
use crate::store::{PlainStore, numbered};
use heap_model::{Db, Name, Refusal, Reply, Which};
use std::alloc::Global;

impl Database {
    /// A chunk becomes the data of a new record, at an index or at the end: dirty, and not in use.
    pub(crate) fn attach_record(
        &mut self,
        alloc: Global,
        heap: &mut PlainHeap,
        at: u32,
        name: Name,
        before: &Image,
        reply: &Reply,
    ) -> Result<Reply, Refusal> {
        self.check_writable()?;
        self.take_in(alloc, heap, RECORD_LENGTH, name, before, reply)?;
        Ok(Reply::Number(self.list_record(at, name, DIRTY)?))
    }

    /// A chunk becomes the data of a record, which is dirty then, and what was its data goes to a
    /// caller.
    pub(crate) fn replace_record(
        &mut self,
        heap: &mut PlainHeap,
        index: u32,
        name: Name,
        owner: u8,
    ) -> Result<Reply, Refusal> {
        let old = self.written_data(index)?;
        heap.check_given(name)?;
        check_owner(owner)?;
        heap.give(old, owner)?;
        heap.give(name, DATA_OWNER)?;
        let record = self.record_mut(index)?;
        record.data = Some(name);
        record.attributes |= DIRTY;
        self.count_change();
        Ok(Reply::Named(old))
    }

    fn block(&self, which: Which) -> Option<Name> {
        match which {
            Which::App => self.app_info,
            Which::Sort => self.sort_info,
        }
    }

    fn put_block(&mut self, which: Which, name: Option<Name>) {
        match which {
            Which::App => self.app_info = name,
            Which::Sort => self.sort_info = name,
        }
        self.count_change();
    }
}

impl PlainStore {
    /// A chunk becomes an info block that a database doesn't have.
    pub(crate) fn set_block(&mut self, db: Db, which: Which, name: Name) -> Result<Reply, Refusal> {
        let database = numbered(&mut self.databases, db)?;
        database.check_writable()?;
        if database.block(which).is_some() {
            return Err(Refusal::AlreadyExists);
        }
        self.heap.check_given(name)?;
        self.heap.give(name, DATA_OWNER)?;
        database.put_block(which, Some(name));
        Ok(Reply::Done)
    }

    /// An info block goes to a caller, and the database has it no longer.
    pub(crate) fn take_block(&mut self, db: Db, which: Which, owner: u8) -> Result<Reply, Refusal> {
        let database = numbered(&mut self.databases, db)?;
        database.check_writable()?;
        let Some(name) = database.block(which) else {
            return Err(Refusal::NoInfoBlock);
        };
        check_owner(owner)?;
        self.heap.give(name, owner)?;
        database.put_block(which, None);
        Ok(Reply::Named(name))
    }

    /// The name of an info block.
    pub(crate) fn ask_block(&self, db: Db, which: Which) -> Result<Reply, Refusal> {
        match self.database(db)?.block(which) {
            Some(name) => Ok(Reply::Named(name)),
            None => Err(Refusal::NoInfoBlock),
        }
    }
}

impl PlainHeap {
    /// Refuses a name of no chunk, of one that a database has, and of a fixed one.
    pub(crate) fn check_given(&self, name: Name) -> Result<(), Refusal> {
        match self.chunk(name)? {
            chunk if chunk.owner == DATA_OWNER => Err(Refusal::OwnedByDatabase),
            chunk if chunk.lock == LOCK_OF_FIXED => Err(Refusal::ChunkFixed),
            _ => Ok(()),
        }
    }
}
