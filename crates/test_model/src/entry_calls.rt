//! What calls on records and on resources have in common: whether a database may be written, how
//! many entries it may have, and room for one more.

use crate::database::Database;
use crate::heap::PlainHeap;
use crate::image::Image;
use crate::memory_calls::DATA_OWNER;
use crate::parts::{Part, check_parts, lacks_room};
use heap_model::{Name, Refusal, Reply};
use std::alloc::Global;

/// The most entries of a database.
const MOST_ENTRIES: usize = 65_535;

/// The bit of a database's attributes that says that it may only be read.
const READ_ONLY: u16 = 0x0002;

impl Database {
    /// Refuses a database that may only be read.
    pub(crate) fn check_writable(&self) -> Result<(), Refusal> {
        if self.header.attributes & READ_ONLY != 0 {
            return Err(Refusal::ReadOnly);
        }
        Ok(())
    }

    /// Refuses one that has as many entries as it may have.
    fn check_count(&self) -> Result<(), Refusal> {
        if self.entry_count() >= MOST_ENTRIES {
            return Err(Refusal::TooManyEntries);
        }
        Ok(())
    }

    /// The name for the data of a new entry, which takes the given number of bytes of the header: a
    /// free slot. The data may find no room, or the header none for one entry more.
    pub(crate) fn name_for_data(
        &self,
        alloc: Global,
        entry: u32,
        size: u32,
        before: &Image,
        reply: &Reply,
    ) -> Result<Name, Refusal> {
        self.check_count()?;
        let Some(first) = before.first_free_slot() else {
            return Err(Refusal::NotEnoughSpace);
        };
        let parts = [
            Part::making(size as usize),
            Part::growth(before, Name(self.db.0), entry),
        ];
        if lacks_room(reply) {
            check_parts(alloc, before, &parts)?;
        }
        match reply {
            Reply::Made { name, .. } if before.is_free_slot(*name) => Ok(*name),
            _ => Ok(first),
        }
    }

    /// A caller's chunk becomes data of a database, for which the header has one entry more, of the
    /// given number of bytes. There may be no room for that.
    pub(crate) fn take_in(
        &self,
        alloc: Global,
        heap: &mut PlainHeap,
        entry: u32,
        name: Name,
        before: &Image,
        reply: &Reply,
    ) -> Result<(), Refusal> {
        heap.check_given(name)?;
        self.check_count()?;
        if lacks_room(reply) {
            check_parts(
                alloc,
                before,
                &[Part::growth(before, Name(self.db.0), entry)],
            )?;
        }
        heap.give(name, DATA_OWNER)
    }

    /// The entry of an index goes, a record or a resource.
    pub(crate) fn drop_entry(&mut self, index: u32) {
        if (index as usize) < self.records.len() {
            self.records.remove(index as usize);
        } else if (index as usize) < self.resources.len() {
            self.resources.remove(index as usize);
        }
        self.count_change();
    }

    /// The modification number rises.
    pub(crate) fn count_change(&mut self) {
        self.header.modification_number = self.header.modification_number.wrapping_add(1);
    }
}
