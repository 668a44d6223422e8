//! Calls on the entries of databases, for the crates of records and of resources. They return only
//! the refusals listed. The caller must prove everything else (see each `requires`).

ghost use Rattle.std.specs.Prelude.{◌≡◌, ◌≢◌, ◌<◌, ◌≤◌, None, length, false, IfSome, IfNone, IfOk, OnOk, OnErr, IfErr};
ghost use Rattle.heap_model.specs.Chunk.{need};
ghost use Rattle.heap_model.specs.Reading.{held};
ghost use Rattle.heap_model.specs.Space.{FitsInPlace, MovesNothing, MovesOneStretchAnd};
ghost use Rattle.heap_model.specs.Store.{Accepted, store_of};
ghost use Rattle.heap_model.specs.Refusals.{NoneHolds, FirstBrings};
ghost use Rattle.heap_model.specs.StoreWords.{with_number};
ghost use Rattle.heap_model.specs.EntrySteps.{entry_under, data_freed, raised, OfEntry, Tells, MakesNone};
ghost use Rattle.heap_model.specs.StoreSteps.{StoreAsBefore};
ghost use Rattle.palm_store.specs.Databases.{HasNumber, HasDatabase};
ghost use Rattle.palm_store.specs.Opened.{IsOpened};
ghost use Rattle.palm_store.specs.EntryInfos.{makes_resource, MayOwn, dropped_to};
ghost use Rattle.database_edits.specs.Kept.{OnlyWrites, OnlySlides};
ghost use Rattle.palm_store.specs.EntryCalls.{entries_of_image, resources_of_image, data_of_image, HasLockedData, IsEntryData, MayHave, MayBeGiven, checks_of_giving, checks_of_making, checks_of_attaching, checks_of_data_growth, raised_if, LeavesChanged, LeavesMade, LeavesAttached, entry_informed, entry_given, entry_moved_in, data_sized};

use crate::chunks::{check_taken, free_chunk_of};
use crate::entries::{
    EntryInfo, emptied, entry_with, new_entry, put_in, read_entry, take_in, told, with_slot,
};
use crate::lookup::{find_header, find_opened, header_in, opened_of};
use crate::store::Store;
use database_edits::{OpenDatabase, count_change, move_entry, remove_entry, write_entry};
use db_format::DatabaseView;
use heap_model::{Db, Entry, Name, Refusal};
use mem_manager::DATA_OWNER;

/// The greatest number of entries of a database.
const MOST_ENTRIES: u32 = 65535;

impl Store {
    /// Finds the database of a number, to be read.
    ///
    /// # Errors
    /// - `NoSuchDatabase`: if no database has the number.
    pub fn find_database<'a>(&'a self, db: Db) -> Result<DatabaseView<'a>, Refusal>
        ensures accepted { Accepted self.now.bytes }
        ensures is { IfOk result (λ view. HasDatabase self.now.bytes db.0 view) }
        ensures unknown { OnErr result (with_number (store_of self.now.bytes) db.0 ≡ None) }
        ensures refusal { IfErr result (λ refusal. refusal ≡ Refusal.NoSuchDatabase) }
    {
        let header = find_header(&self.heap, db)?;
        Ok(DatabaseView::of(header))
    }

    /// Finds the database of a number for the calls below. The result is valid until a call changes
    /// the store. After a change with the postcondition `opened` it stays valid.
    ///
    /// # Errors
    /// - `NoSuchDatabase`: if no database has the number.
    #[inline(always)]
    pub fn find_opened(&self, db: Db) -> Result<OpenDatabase, Refusal>
        ensures accepted { Accepted self.now.bytes }
        ensures known { OnOk result (HasNumber self.now.bytes db.0) }
        ensures opened { IfOk result (IsOpened self.now.bytes) }
        ensures db { IfOk result (λ opened. opened.db ≡ db) }
        ensures unknown { OnErr result (with_number (store_of self.now.bytes) db.0 ≡ None) }
        ensures refusal { IfErr result (λ refusal. refusal ≡ Refusal.NoSuchDatabase) }
    {
        find_opened(&self.heap, db)
    }

    /// Returns an existing database, as `find_opened` does.
    #[inline(always)]
    pub fn opened_of(&self, db: Db) -> OpenDatabase
        requires { HasNumber self.now.bytes db.0 }
        ensures opened { IsOpened self.now.bytes result }
        ensures db { result.db ≡ db }
    {
        opened_of(&self.heap, db)
    }

    /// Returns an open database, to be read.
    #[inline(always)]
    pub fn database_in<'a>(&'a self, opened: OpenDatabase) -> DatabaseView<'a>
        requires opened { IsOpened self.now.bytes opened }
        ensures accepted { Accepted self.now.bytes }
        ensures is { HasDatabase self.now.bytes opened.db.0 result }
    {
        DatabaseView::of(header_in(&self.heap, opened))
    }

    /// Returns the fields of an entry of an open database.
    #[inline(always)]
    pub fn entry_in(&self, opened: OpenDatabase, index: u32) -> Entry
        requires opened { IsOpened self.now.bytes opened }
        requires inside { index < length (entries_of_image self.now.bytes opened.db) }
        ensures { OfEntry (entry_under (store_of self.now.bytes) opened.db index) (Tells result) }
    {
        told(read_entry(&self.heap, opened, index))
    }

    /// Makes an entry at an index with `size` zeros for its data, and returns the name of the data.
    /// The database counts the call.
    ///
    /// If the call is refused, nothing is left of the entry.
    ///
    /// # Errors
    /// - `TooManyEntries`: if there are 65,535 entries.
    /// - `NotEnoughSpace`: if no slot is free, or if room for the data and for one entry more in
    ///   the header can run out.
    #[inline(always)]
    pub fn entry_new(
        &mut self,
        opened: OpenDatabase,
        at: u32,
        entry: EntryInfo<()>,
        size: u32,
    ) -> Result<Name, Refusal>
        requires opened { IsOpened self.old.bytes opened }
        requires inside { at ≤ length (entries_of_image self.old.bytes opened.db) }
        requires kind { makes_resource entry ≡ resources_of_image self.old.bytes opened.db }
        ensures made { IfOk result (λ name. LeavesMade self.old self.new opened.db at entry name.0 size) }
        ensures new_name { IfOk result (λ name. held self.old.bytes name.0 ≡ None) }
        ensures could { OnOk result (NoneHolds (checks_of_making self.old.bytes opened.db size)) }
        ensures why { IfErr result (FirstBrings (checks_of_making self.old.bytes opened.db size)) }
        ensures refused { OnErr result (LeavesChanged self.old self.new (λ store. store)) }
        ensures as_before { OnErr result (StoreAsBefore self.old self.new) }
        ensures untouched { IfErr result (λ refusal.
            refusal ≢ Refusal.NotEnoughSpace → self.new ≡ self.old) }
        ensures kept { OnlySlides self.old self.new }
    {
        // the store is looked at, so that its invariant is known
        let _ = &self.heap;
        if opened.entry_count >= MOST_ENTRIES {
            return Err(Refusal::TooManyEntries);
        }
        let (made, known) = new_entry(&self.heap, opened, entry, self.known);
        let name = put_in(&mut self.heap, opened, at, made, size)?;
        self.known = known;
        Ok(name)
    }

    /// Checks that a database can take a caller's chunk.
    ///
    /// # Errors
    /// - `InvalidHandle`: if the name is neither a caller's chunk nor data of a database.
    /// - `OwnedByDatabase`: if the chunk is one for data.
    /// - `ChunkFixed`: if the chunk is fixed.
    #[inline(always)]
    pub fn check_given(&self, name: Name) -> Result<(), Refusal>
        ensures may { OnOk result (MayBeGiven self.now.bytes name.0) }
        ensures could { OnOk result (NoneHolds (checks_of_giving self.now.bytes name.0)) }
        ensures why { IfErr result (FirstBrings (checks_of_giving self.now.bytes name.0)) }
    {
        check_taken(&self.heap, name)
    }

    /// Makes an entry at an index with a caller's movable chunk for its data. The chunk becomes one
    /// for data, and keeps its locks. The database counts the call.
    ///
    /// # Errors
    /// - `TooManyEntries`: if there are 65,535 entries.
    /// - `NotEnoughSpace`: if room for one entry more in the header can run out.
    #[inline(always)]
    pub fn entry_attach(
        &mut self,
        opened: OpenDatabase,
        at: u32,
        entry: EntryInfo<()>,
        name: Name,
    ) -> Result<(), Refusal>
        requires opened { IsOpened self.old.bytes opened }
        requires inside { at ≤ length (entries_of_image self.old.bytes opened.db) }
        requires kind { makes_resource entry ≡ resources_of_image self.old.bytes opened.db }
        requires given { MayBeGiven self.old.bytes name.0 }
        ensures attached { OnOk result (LeavesAttached self.old self.new opened.db at entry name.0) }
        ensures none_made { MakesNone self.old.bytes self.new.bytes }
        ensures could { OnOk result (NoneHolds (checks_of_attaching self.old.bytes opened.db)) }
        ensures why { IfErr result (FirstBrings (checks_of_attaching self.old.bytes opened.db)) }
        ensures refused { OnErr result (self.new ≡ self.old) }
        ensures kept { OnlySlides self.old self.new }
    {
        if opened.entry_count >= MOST_ENTRIES {
            return Err(Refusal::TooManyEntries);
        }
        let (made, known) = new_entry(&self.heap, opened, entry, self.known);
        take_in(&mut self.heap, opened, at, made, name)?;
        self.known = known;
        Ok(())
    }

    /// Gives the data of an entry, by its name, `size` bytes: its first ones, or all of them and
    /// zeros after them.
    ///
    /// # Errors
    /// - `Lent`: if the data is lent.
    /// - `ChunkLocked`: if the data is locked, has to grow, and doesn't fit at its place.
    /// - `NotEnoughSpace`: if the data has to grow, and there is no room.
    pub fn entry_resize(&mut self, name: Name, size: u32) -> Result<(), Refusal>
        requires own { IsEntryData self.old.bytes name.0 }
        ensures done { OnOk result
            (LeavesChanged self.old self.new (λ store. data_sized store name.0 size)) }
        ensures could { OnOk result (NoneHolds (checks_of_data_growth self.old name.0 size)) }
        ensures why { IfErr result (FirstBrings (checks_of_data_growth self.old name.0 size)) }
        ensures refused { OnErr result (self.new ≡ self.old) }
        ensures unmoved { FitsInPlace self.old.bytes name.0 (need size)
            → MovesNothing self.old.bytes self.new.bytes }
        ensures one_stretch { MovesOneStretchAnd self.old.bytes self.new.bytes name.0 }
        ensures kept { OnlySlides self.old self.new }
    {
        let found = self.heap.sys_find(name);
        self.heap.sys_resize(name, found, size)?;
        Ok(())
    }

    /// Sets the fields of an entry. Its data stays. The database counts the call if `counts` is
    /// true.
    #[inline(always)]
    pub fn entry_set(&mut self, opened: OpenDatabase, index: u32, info: EntryInfo, counts: bool)
        requires opened { IsOpened self.old.bytes opened }
        requires inside { index < length (entries_of_image self.old.bytes opened.db) }
        requires info { MayHave self.old.bytes opened.db index info }
        ensures set { LeavesChanged self.old self.new
            (λ store. raised_if counts (entry_informed store opened.db index info) opened.db) }
        ensures none_made { MakesNone self.old.bytes self.new.bytes }
        ensures kept { OnlyWrites self.old self.new }
    {
        let entry = entry_with(read_entry(&self.heap, opened, index), info);
        write_entry(&mut self.heap, opened, index as u16, entry, counts);
        self.known = self.known.without(info);
    }

    /// Makes a caller's movable chunk the data of an entry, and sets the entry's fields. The chunk
    /// becomes one for data. The chunk of the old data gets an owner. Both keep their locks. The
    /// database counts the call.
    #[inline(always)]
    pub fn entry_swap(
        &mut self,
        opened: OpenDatabase,
        index: u32,
        info: EntryInfo,
        name: Name,
        owner: u8,
    )
        requires opened { IsOpened self.old.bytes opened }
        requires inside { index < length (entries_of_image self.old.bytes opened.db) }
        requires info { MayHave self.old.bytes opened.db index info }
        requires there { 0 < data_of_image self.old.bytes opened.db index }
        requires given { MayBeGiven self.old.bytes name.0 }
        requires owner { MayOwn owner }
        ensures swapped { LeavesChanged self.old self.new
            (λ store. raised (entry_given store opened.db index info name.0 owner) opened.db) }
        ensures none_made { MakesNone self.old.bytes self.new.bytes }
        ensures kept { OnlyWrites self.old self.new }
    {
        let was = read_entry(&self.heap, opened, index);
        let entry = with_slot(entry_with(was, info), name);
        write_entry(&mut self.heap, opened, index as u16, entry, true);
        self.heap.sys_set_owner(Name(was.slot()), owner);
        self.heap.sys_set_owner(name, DATA_OWNER);
        self.known = self.known.without(info);
    }

    /// Moves the entry at `from` to before the one at `to`, or to the end. Both are counted before
    /// the move. The database counts the call.
    #[inline(always)]
    pub fn entry_move(&mut self, opened: OpenDatabase, from: u32, to: u32)
        requires opened { IsOpened self.old.bytes opened }
        requires from_inside { from < length (entries_of_image self.old.bytes opened.db) }
        requires to_inside { to ≤ length (entries_of_image self.old.bytes opened.db) }
        ensures moved { LeavesChanged self.old self.new
            (λ store. raised (entry_moved_in store opened.db from to) opened.db) }
        ensures none_made { MakesNone self.old.bytes self.new.bytes }
        ensures kept { OnlySlides self.old self.new }
    {
        move_entry(&mut self.heap, opened, from as u16, to as u16);
    }

    /// Frees the data of a record, if it has any. The record is deleted then, and keeps its ID and
    /// its other attributes. The database counts the call if `counts` is true.
    #[inline(always)]
    pub fn entry_free_data(&mut self, opened: OpenDatabase, index: u32, counts: bool)
        requires opened { IsOpened self.old.bytes opened }
        requires records { resources_of_image self.old.bytes opened.db ≡ false }
        requires inside { index < length (entries_of_image self.old.bytes opened.db) }
        requires unlocked { HasLockedData self.old.bytes opened.db index → ⊥ }
        ensures freed { LeavesChanged self.old self.new
            (λ store. raised_if counts (data_freed store opened.db index) opened.db) }
        ensures opened { IsOpened self.new.bytes opened }
        ensures none_made { MakesNone self.old.bytes self.new.bytes }
        ensures kept { OnlyWrites self.old self.new }
    {
        let entry = read_entry(&self.heap, opened, index);
        write_entry(&mut self.heap, opened, index as u16, emptied(entry), counts);
        free_chunk_of(&mut self.heap, Name(entry.slot()));
    }

    /// Drops an entry. Its data, if it has any, is freed or gets an owner. The database counts the
    /// call.
    #[inline(always)]
    pub fn entry_drop(&mut self, opened: OpenDatabase, index: u32, owner: Option<u8>)
        requires opened { IsOpened self.old.bytes opened }
        requires inside { index < length (entries_of_image self.old.bytes opened.db) }
        requires unlocked { IfNone owner (HasLockedData self.old.bytes opened.db index → ⊥) }
        requires owner { IfSome owner MayOwn }
        requires there { IfSome owner (λ owner. 0 < data_of_image self.old.bytes opened.db index) }
        ensures dropped { LeavesChanged self.old self.new
            (λ store. raised (dropped_to store opened.db index owner) opened.db) }
        ensures none_made { MakesNone self.old.bytes self.new.bytes }
        ensures kept { OnlySlides self.old self.new }
    {
        let slot = Name(read_entry(&self.heap, opened, index).slot());
        remove_entry(&mut self.heap, opened, index as u16);
        match owner {
            None => free_chunk_of(&mut self.heap, slot),
            Some(owner) => self.heap.sys_set_owner(slot, owner),
        }
    }

    /// Counts a change of a database: raises its modification number by 1, modulo 2^32.
    #[inline(always)]
    pub fn count_change(&mut self, opened: OpenDatabase)
        requires opened { IsOpened self.old.bytes opened }
        ensures counted { LeavesChanged self.old self.new (λ store. raised store opened.db) }
        ensures none_made { MakesNone self.old.bytes self.new.bytes }
        ensures unmoved { MovesNothing self.old.bytes self.new.bytes }
        ensures kept { OnlyWrites self.old self.new }
    {
        count_change(&mut self.heap, opened);
    }
}
