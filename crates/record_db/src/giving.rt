//! Calls that make a caller's chunk the data of a record.

ghost use Rattle.std.specs.Prelude.{◌≡◌, OnErr};
ghost use Rattle.heap_model.specs.declared.call.RecordCall.{RecordCall};
ghost use Rattle.palm_store.specs.Replies.{name_or_refused, number_or_refused};
ghost use Rattle.record_db.specs.Checks.{DoesRecord};

use crate::attributes::{marked, of_attached_record};
use crate::records::find_live;
use db_format::RecordAttrs;
use heap_model::{Db, Name, Refusal};
use palm_store::{Access, EntryInfo, EntryKind, Store, check_owner, open_entries};

/// Makes a caller's chunk the data of a new record at an index, and returns the record's index. If
/// the index is above the count of records, the new record is the last. The chunk keeps its lock.
/// The record is dirty, of category 0, and gets a fresh ID.
///
/// # Errors
/// If it fails, nothing has changed.
/// - `NoSuchDatabase`: if the store has no database of this number.
/// - `NotRecordDatabase`: if it is a resource database.
/// - `ReadOnly`: if the database may only be read.
/// - `InvalidHandle`, `OwnedByDatabase`, `ChunkFixed`: if the chunk can't be given. The name stands
///   for no chunk, for the data of a database, or for a fixed chunk.
/// - `TooManyEntries`: if the database has 65,535 records.
/// - `NotEnoughSpace`: if the room for one more entry can run out.
pub fn attach(store: &mut Store, db: Db, at: u32, name: Name) -> Result<u32, Refusal>
    ensures does { DoesRecord store.old (RecordCall.Attach db at name)
        (number_or_refused result) store.new }
    ensures refused { OnErr result (store.new ≡ store.old) }
{
    let opened = open_entries(store, db, EntryKind::Records, Access::Write)?;
    store.check_given(name)?;
    let index = at.min(opened.entry_count);
    let entry = EntryInfo::Record {
        attributes: of_attached_record(),
        id: (),
    };
    store.entry_attach(opened, index, entry, name)?;
    Ok(index)
}

/// Makes a caller's chunk the data of a record, and returns the name of its old data. The old data
/// is given to an owner, 1 to 14. Both chunks keep their locks. The record keeps its ID, and is
/// dirty.
///
/// # Errors
/// - `NoSuchDatabase`: if the store has no database of this number.
/// - `NotRecordDatabase`: if it is a resource database.
/// - `ReadOnly`: if the database may only be read.
/// - `IndexOutOfRange`: if the database has no record at the index.
/// - `RecordDeleted`: if the record is deleted.
/// - `InvalidHandle`, `OwnedByDatabase`, `ChunkFixed`: if the chunk can't be given. The name stands
///   for no chunk, for the data of a database, or for a fixed chunk.
/// - `InvalidOwner`: if the owner is not 1 to 14.
#[tactic(auto, using(crate::proofs::SetAttributes::live_may_have))]
pub fn attach_replacing(
    store: &mut Store,
    db: Db,
    index: u32,
    name: Name,
    owner: u8,
) -> Result<Name, Refusal>
    ensures does { DoesRecord store.old (RecordCall.AttachReplacing db index name owner)
        (name_or_refused result) store.new }
    ensures refused { OnErr result (store.new ≡ store.old) }
{
    let live = find_live(store, db, index, Access::Write)?;
    store.check_given(name)?;
    check_owner(owner)?;
    let dirty = EntryInfo::Record {
        attributes: marked(live.item.0.attributes, RecordAttrs::DIRTY),
        id: live.item.0.id,
    };
    store.entry_swap(live.opened, index, dirty, name, owner);
    Ok(live.item.1)
}
