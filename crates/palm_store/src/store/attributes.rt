//! Changes of the attributes of all records of a database by one call.

ghost use Rattle.std.specs.Prelude.{◌≡◌, false, map};
ghost use Rattle.heap_model.specs.EntrySteps.{with_attributes, with_entries, MakesNone};
ghost use Rattle.palm_store.specs.AttributeChanges.{MayChange};
ghost use Rattle.database_edits.specs.Kept.{OnlyWrites};
ghost use Rattle.palm_store.specs.EntryCalls.{resources_of_image, LeavesChanged};
ghost use Rattle.palm_store.specs.Opened.{IsOpened};

use crate::store::Store;
use database_edits::{OpenDatabase, change_attributes};
use raw_region::ByteChange;

impl Store {
    /// Changes the attributes of each record of a database, in one pass. The database doesn't count
    /// the call.
    pub fn change_attributes<C: ByteChange>(&mut self, opened: OpenDatabase, change: C)
        requires opened { IsOpened self.old.bytes opened }
        requires records { resources_of_image self.old.bytes opened.db ≡ false }
        requires change { MayChange (C.made change) }
        ensures changed { LeavesChanged self.old self.new
            (λ store. with_entries store opened.db (map (with_attributes (C.made change)))) }
        ensures opened { IsOpened self.new.bytes opened }
        ensures none_made { MakesNone self.old.bytes self.new.bytes }
        ensures kept { OnlyWrites self.old self.new }
    {
        change_attributes(&mut self.heap, opened, change);
    }
}
