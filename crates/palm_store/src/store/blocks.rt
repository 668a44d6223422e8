//! Calls on the info blocks of databases (Palm OS Programmer's API Reference, "Data Manager").

ghost use Rattle.std.specs.Prelude.{◌≡◌, OnErr};
ghost use Rattle.heap_model.specs.declared.call.DatabaseCall.{DatabaseCall};
ghost use Rattle.palm_store.specs.Replies.{DoesDatabase, done_or_refused, name_or_refused};

use crate::databases::{block_in, find_writable_block, give_block, take_block};
use crate::entries::NOTHING_KNOWN;
use crate::lookup::find_header;
use crate::store::Store;
use heap_model::{Db, Name, Refusal, Which};
use mem_manager::check_owner;

impl Store {
    /// Makes a movable chunk of a caller's an info block of a database that doesn't have this
    /// block. The chunk becomes one for data, and keeps its locks.
    ///
    /// The order is that of the call's row in `database_row`.
    ///
    /// # Errors
    /// - `NoSuchDatabase`: if no database has the number.
    /// - `ReadOnly`: if the database is read-only.
    /// - `AlreadyExists`: if the database has the block.
    /// - `InvalidHandle`, `OwnedByDatabase`, `ChunkFixed`: if the database can't take the chunk, as
    ///   for `check_given`.
    pub fn set_info_block(&mut self, db: Db, which: Which, name: Name) -> Result<(), Refusal>
        ensures does { DoesDatabase self.old (DatabaseCall.SetInfoBlock db which name)
            (done_or_refused result) self.new }
        ensures refused { OnErr result (self.new ≡ self.old) }
    {
        let found = find_writable_block(&self.heap, db, which)?;
        if found.item.0 != 0 {
            return Err(Refusal::AlreadyExists);
        }
        self.check_given(name)?;
        give_block(&mut self.heap, found.opened, which, name);
        self.known = NOTHING_KNOWN;
        Ok(())
    }

    /// Takes an info block from a database, gives its chunk to an owner of 1 to 14, and returns its
    /// name. The chunk keeps its locks.
    ///
    /// The order is that of the call's row in `database_row`.
    ///
    /// # Errors
    /// - `NoSuchDatabase`: if no database has the number.
    /// - `ReadOnly`: if the database is read-only.
    /// - `NoInfoBlock`: if the database doesn't have the block.
    /// - `InvalidOwner`: if the owner isn't one of 1 to 14.
    pub fn take_info_block(&mut self, db: Db, which: Which, owner: u8) -> Result<Name, Refusal>
        ensures does { DoesDatabase self.old (DatabaseCall.TakeInfoBlock db which owner)
            (name_or_refused result) self.new }
        ensures refused { OnErr result (self.new ≡ self.old) }
    {
        let found = find_writable_block(&self.heap, db, which)?;
        if found.item.0 == 0 {
            return Err(Refusal::NoInfoBlock);
        }
        check_owner(owner)?;
        self.known = NOTHING_KNOWN;
        let name = found.item;
        take_block(&mut self.heap, found, which, owner);
        Ok(name)
    }

    /// Returns the name of an info block of a database.
    ///
    /// # Errors
    /// - `NoSuchDatabase`: if no database has the number.
    /// - `NoInfoBlock`: if the database doesn't have the block.
    pub fn info_block(&self, db: Db, which: Which) -> Result<Name, Refusal>
        ensures { DoesDatabase self.now (DatabaseCall.InfoBlock db which)
            (name_or_refused result) self.now }
    {
        let name = block_in(find_header(&self.heap, db)?, which);
        if name == 0 {
            return Err(Refusal::NoInfoBlock);
        }
        Ok(Name(name))
    }
}
