//! The call that makes a whole database, for a crate that reads one from a file.

ghost use Rattle.std.specs.Prelude.{◌≡◌, ◌≢◌, ◌+◌, length, IfOk, IfErr, OnOk, OnErr};
ghost use Rattle.heap_model.specs.Refusals.{NoneHolds, FirstBrings};
ghost use Rattle.heap_model.specs.StoreSteps.{StoreAsBefore};
ghost use Rattle.database_edits.specs.Kept.{OnlySlides};
ghost use Rattle.palm_store.specs.EntryCalls.{LeavesChanged};
ghost use Rattle.palm_store.specs.WholeDatabases.{numbers_in, CanBeWhole, MakesWhole, checks_of_whole};

use crate::databases::{BlockSizes, list_whole, write_whole};
use crate::entries::{EntryInfo, NOTHING_KNOWN};
use crate::lookup::{count_databases, has_other_name};
use crate::store::Store;
use db_format::{DbAttrs, MOST_DATABASES, entry_offset};
use heap_model::{Db, DbInfo, Name, Refusal};

impl Store {
    /// Makes a database with this header and these entries, after the others: all of it or nothing.
    /// Each entry comes with the size of its data. A record without data is a deleted one, and a
    /// resource has data.
    /// Its info blocks and the data of its entries are zeros. Their names are put into `names`, in
    /// that order; `Name(0)` means that there is none.
    ///
    /// If the call is refused, nothing is left of the database, and `names` has no meaning. The
    /// order is that of `checks_of_whole`.
    ///
    /// # Errors
    /// - `AlreadyExists`: if another database has the name.
    /// - `TooManyEntries`: if there are 1,024 databases.
    /// - `NotEnoughSpace`: if slots or room can run out. It is taken for the header, the info
    ///   blocks, the data and the directory, one after the other.
    pub fn create_whole(
        &mut self,
        info: &DbInfo,
        blocks: BlockSizes,
        entries: &[(EntryInfo, Option<u32>)],
        names: &mut [Name],
    ) -> Result<Db, Refusal>
        requires whole { CanBeWhole info.now entries.now }
        requires names { length names.old ≡ 2 + length entries.now }
        ensures made { IfOk result (λ db. MakesWhole self.old.bytes self.new.bytes db.0
            info.now blocks entries.now (numbers_in names.new)) }
        ensures names { length names.new ≡ length names.old }
        ensures could { OnOk result (NoneHolds
            (checks_of_whole self.old.bytes info.now blocks entries.now)) }
        ensures why { IfErr result (FirstBrings
            (checks_of_whole self.old.bytes info.now blocks entries.now)) }
        ensures refused { OnErr result (LeavesChanged self.old self.new (λ store. store)) }
        ensures as_before { OnErr result (StoreAsBefore self.old self.new) }
        ensures untouched { IfErr result (λ refusal.
            refusal ≢ Refusal.NotEnoughSpace → self.new ≡ self.old) }
        ensures kept { OnlySlides self.old self.new }
    {
        if has_other_name(&self.heap, Db(0), info.name.as_slice()) {
            return Err(Refusal::AlreadyExists);
        }
        if count_databases(&self.heap) >= MOST_DATABASES {
            return Err(Refusal::TooManyEntries);
        }
        self.known = NOTHING_KNOWN;
        let resources = DbAttrs(info.attributes).has_resources();
        let size = entry_offset(resources, info.entry_count) as u32;
        let slot = list_whole(&mut self.heap, size, blocks, entries, names)?;
        write_whole(&mut self.heap, slot, info, entries, names);
        Ok(Db(slot.0))
    }
}
