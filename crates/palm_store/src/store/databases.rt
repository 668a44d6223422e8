//! Calls on the databases of a store.

ghost use Rattle.std.specs.Prelude.{◌≡◌, ◌≢◌, OnErr, IfErr};
ghost use Rattle.heap_model.specs.MemorySteps.{reply_of};
ghost use Rattle.heap_model.specs.declared.call.DatabaseCall.{DatabaseCall};
ghost use Rattle.heap_model.specs.declared.call.Reply.{Reply};
ghost use Rattle.palm_store.specs.Replies.{DoesDatabase, done_or_refused, database_or_refused};

use crate::databases::{empty_header, free_data, has_locked, list_new, unlist, with_info};
use crate::entries::NOTHING_KNOWN;
use crate::lookup::{
    DIRECTORY_WORD_SIZE, count_databases, directory_bytes, find_header, find_named, find_opened,
    has_other_name, header_in, index_of, info_in, listed_in,
};
use crate::store::Store;
use db_format::{DbHeader, MOST_DATABASES, NameField};
use heap_model::{Db, DbInfo, DbName, Name, Refusal};

impl Store {
    /// Makes a database without entries, after the others. `date` becomes the date of its creation
    /// and of its last modification.
    ///
    /// The order is that of the call's row in `database_row`. If the call is refused, nothing is
    /// left of the database.
    ///
    /// # Errors
    /// - `InvalidName`: if the name is not valid for a database.
    /// - `AlreadyExists`: if a database has the name.
    /// - `TooManyEntries`: if there are 1,024 databases.
    /// - `NotEnoughSpace`: if slots or room for its header and the directory can run out.
    pub fn create(
        &mut self,
        name: &DbName,
        kind: u32,
        creator: u32,
        resources: bool,
        date: u32,
    ) -> Result<Db, Refusal>
        ensures does { DoesDatabase self.old
            (DatabaseCall.Create name.now kind creator resources date)
            (database_or_refused result) self.new }
        ensures untouched { IfErr result (λ refusal.
            refusal ≢ Refusal.NotEnoughSpace → self.new ≡ self.old) }
    {
        // the store is looked at, so that its invariant is known
        let _ = &self.heap;
        let Some(field) = NameField::of_name(name.as_slice()) else {
            return Err(Refusal::InvalidName);
        };
        if has_other_name(&self.heap, Db(0), name.as_slice()) {
            return Err(Refusal::AlreadyExists);
        }
        if count_databases(&self.heap) >= MOST_DATABASES {
            return Err(Refusal::TooManyEntries);
        }
        let header = empty_header(field, kind, creator, resources, date);
        self.known = NOTHING_KNOWN;
        let slot = list_new(&mut self.heap)?;
        let chunk = self.heap.sys_find(slot);
        self.heap.sys_write(slot, chunk, 0, &header.to_bytes());
        Ok(Db(slot.0))
    }

    /// Deletes a database with its info blocks and the data of its entries: all of it or nothing.
    ///
    /// # Errors
    /// - `NoSuchDatabase`: if no database has the number.
    /// - `ChunkLocked`: if one of these chunks is locked.
    pub fn delete_database(&mut self, db: Db) -> Result<(), Refusal>
        ensures does { DoesDatabase self.old (DatabaseCall.Delete db)
            (done_or_refused result) self.new }
        ensures refused { OnErr result (self.new ≡ self.old) }
    {
        let opened = find_opened(&self.heap, db)?;
        if has_locked(&self.heap, opened) {
            return Err(Refusal::ChunkLocked);
        }
        let index = index_of(&self.heap, opened.db);
        free_data(&mut self.heap, opened);
        self.heap.sys_free(Name(opened.db.0), opened.chunk);
        unlist(&mut self.heap, index);
        self.known = NOTHING_KNOWN;
        Ok(())
    }

    /// Finds the database with a name.
    ///
    /// # Errors
    /// - `NoSuchDatabase`: if no database has the name.
    pub fn find(&self, name: &DbName) -> Result<Db, Refusal>
        ensures { DoesDatabase self.now (DatabaseCall.Find name.now)
            (database_or_refused result) self.now }
    {
        find_named(&self.heap, Db(0), name.as_slice()).ok_or(Refusal::NoSuchDatabase)
    }

    /// Finds the database at an index, counted from 0 in the order of the directory.
    ///
    /// # Errors
    /// - `NoSuchDatabase`: if no database has the index.
    pub fn nth(&self, index: u32) -> Result<Db, Refusal>
        ensures { DoesDatabase self.now (DatabaseCall.Nth index)
            (database_or_refused result) self.now }
    {
        let directory = directory_bytes(&self.heap);
        if index as usize >= directory.len() / DIRECTORY_WORD_SIZE {
            return Err(Refusal::NoSuchDatabase);
        }
        Ok(listed_in(directory, index as usize))
    }

    /// Returns the number of databases.
    pub fn count(&self) -> u32
        ensures { DoesDatabase self.now DatabaseCall.Count (Reply.Number result) self.now }
    {
        count_databases(&self.heap)
    }

    /// Returns the fields of a database's header, and its number of entries.
    ///
    /// # Errors
    /// - `NoSuchDatabase`: if no database has the number.
    pub fn database_info(&self, db: Db) -> Result<DbInfo, Refusal>
        ensures { DoesDatabase self.now (DatabaseCall.Info db)
            (reply_of (λ info. Reply.Info info) result) self.now }
    {
        Ok(info_in(find_header(&self.heap, db)?))
    }

    /// Sets the name, the version, the dates, the type, the creator and the attributes of a
    /// database. The attribute that says whether it has resources stays. The modification number
    /// rises.
    ///
    /// The order is that of the call's row in `database_row`.
    ///
    /// # Errors
    /// - `NoSuchDatabase`: if no database has the number.
    /// - `InvalidName`: if the name is not valid for a database.
    /// - `AlreadyExists`: if another database has the name.
    pub fn set_database_info(&mut self, db: Db, info: &DbInfo) -> Result<(), Refusal>
        ensures does { DoesDatabase self.old (DatabaseCall.SetInfo db info.now)
            (done_or_refused result) self.new }
        ensures refused { OnErr result (self.new ≡ self.old) }
    {
        let opened = find_opened(&self.heap, db)?;
        let header = header_in(&self.heap, opened);
        let Some(name) = NameField::of_name(info.name.as_slice()) else {
            return Err(Refusal::InvalidName);
        };
        if has_other_name(&self.heap, opened.db, info.name.as_slice()) {
            return Err(Refusal::AlreadyExists);
        }
        let header = with_info(DbHeader::read(header), name, info);
        self.heap
            .sys_write(Name(opened.db.0), opened.chunk, 0, &header.to_bytes());
        self.known = NOTHING_KNOWN;
        Ok(())
    }
}
