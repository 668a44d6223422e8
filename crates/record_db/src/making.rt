//! Calls that make records and resize their data.

ghost use Rattle.std.specs.Prelude.{◌≡◌, ◌≢◌, OnErr, IfErr};
ghost use Rattle.heap_model.specs.Chunk.{need};
ghost use Rattle.heap_model.specs.Space.{FitsInPlace, MovesNothing, MovesOneStretchAnd};
ghost use Rattle.heap_model.specs.MemorySteps.{reply_of};
ghost use Rattle.heap_model.specs.declared.call.RecordCall.{RecordCall};
ghost use Rattle.palm_store.specs.EntryCalls.{data_of_image};
ghost use Rattle.palm_store.specs.Replies.{made_reply, done_or_refused};
ghost use Rattle.record_db.specs.Checks.{DoesRecord};

use crate::attributes::of_new_record;
use crate::records::find_live;
use heap_model::{Db, Name, Refusal};
use palm_store::{Access, EntryInfo, EntryKind, Store, open_entries};

/// Makes a record of `size` zero bytes at an index, and returns the record's index and the name of
/// its data. If the index is above the count of records, the new record is the last. The record is
/// dirty and busy, of category 0, and gets a fresh ID.
///
/// # Errors
/// - `NoSuchDatabase`: if the store has no database of this number.
/// - `NotRecordDatabase`: if it is a resource database.
/// - `ReadOnly`: if the database may only be read.
/// - `TooManyEntries`: if the database has 65,535 records.
/// - `NotEnoughSpace`: if no slot is free, or the room for the data and one more entry can run out.
pub fn new_record(store: &mut Store, db: Db, at: u32, size: u32) -> Result<(u32, Name), Refusal>
    ensures does { DoesRecord store.old (RecordCall.New db at size)
        (reply_of made_reply result) store.new }
    ensures untouched { IfErr result (λ refusal.
        refusal ≢ Refusal.NotEnoughSpace → store.new ≡ store.old) }
{
    let opened = open_entries(store, db, EntryKind::Records, Access::Write)?;
    let index = at.min(opened.entry_count);
    let entry = EntryInfo::Record {
        attributes: of_new_record(),
        id: (),
    };
    let name = store.entry_new(opened, index, entry, size)?;
    Ok((index, name))
}

/// Resizes the data of a record to `size` bytes. It keeps its first bytes, and any new bytes are
/// zeros.
///
/// # Errors
/// If it fails, nothing has changed.
/// - `NoSuchDatabase`: if the store has no database of this number.
/// - `NotRecordDatabase`: if it is a resource database.
/// - `ReadOnly`: if the database may only be read.
/// - `IndexOutOfRange`: if the database has no record at the index.
/// - `RecordDeleted`: if the record is deleted.
/// - `Lent`: if the data is lent.
/// - `ChunkLocked`: if the data must grow, is locked, and doesn't fit in its place.
/// - `NotEnoughSpace`: if the data must grow, isn't locked, and there is no room for it.
pub fn resize_record(store: &mut Store, db: Db, index: u32, size: u32) -> Result<(), Refusal>
    ensures does { DoesRecord store.old (RecordCall.Resize db index size)
        (done_or_refused result) store.new }
    ensures unmoved { FitsInPlace store.old.bytes
        (data_of_image store.old.bytes db index) (need size)
        → MovesNothing store.old.bytes store.new.bytes }
    ensures one_stretch { MovesOneStretchAnd store.old.bytes store.new.bytes
        (data_of_image store.old.bytes db index) }
    ensures refused { OnErr result (store.new ≡ store.old) }
{
    let live = find_live(store, db, index, Access::Write)?;
    store.entry_resize(live.item.1, size)?;
    let opened = store.opened_of(db);
    store.count_change(opened);
    Ok(())
}
