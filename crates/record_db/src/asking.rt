//! Queries of records.

ghost use Rattle.heap_model.specs.MemorySteps.{reply_of};
ghost use Rattle.heap_model.specs.declared.call.RecordCall.{RecordCall};
ghost use Rattle.heap_model.specs.declared.call.Reply.{Reply};
ghost use Rattle.palm_store.specs.Replies.{number_or_refused, name_or_refused};
ghost use Rattle.record_db.specs.Checks.{DoesRecord};

use crate::records::{find_live, find_record};
use crate::search::find_id;
use heap_model::{Db, Name, RecordInfo, Refusal};
use palm_store::{Access, EntryKind, Store, count_entries, open_database};

/// Returns how many records a database has. Deleted records count too.
///
/// # Errors
/// - `NoSuchDatabase`: if the store has no database of this number.
/// - `NotRecordDatabase`: if it is a resource database.
pub fn num_records(store: &Store, db: Db) -> Result<u32, Refusal>
    ensures { DoesRecord store.now (RecordCall.Count db) (number_or_refused result) store.now }
{
    count_entries(store, db, EntryKind::Records, Access::Read)
}

/// Returns the name of a record's data. The record isn't marked as busy, and may be busy already.
///
/// # Errors
/// - `NoSuchDatabase`: if the store has no database of this number.
/// - `NotRecordDatabase`: if it is a resource database.
/// - `IndexOutOfRange`: if the database has no record at the index.
/// - `RecordDeleted`: if the record is deleted.
pub fn query(store: &Store, db: Db, index: u32) -> Result<Name, Refusal>
    ensures { DoesRecord store.now (RecordCall.Query db index) (name_or_refused result) store.now }
{
    Ok(find_live(store, db, index, Access::Read)?.item.1)
}

/// Returns the attributes, the unique ID and the data name of a record. It may be deleted.
///
/// # Errors
/// - `NoSuchDatabase`: if the store has no database of this number.
/// - `NotRecordDatabase`: if it is a resource database.
/// - `IndexOutOfRange`: if the database has no record at the index.
#[inline]
pub fn record_info(store: &Store, db: Db, index: u32) -> Result<RecordInfo, Refusal>
    ensures { DoesRecord store.now (RecordCall.Info db index)
        (reply_of (λ info. Reply.Record info) result) store.now }
{
    Ok(find_record(store, db, index, Access::Read)?.item)
}

/// Returns the index of the record that has a unique ID. It may be deleted.
///
/// # Errors
/// - `NoSuchDatabase`: if the store has no database of this number.
/// - `NotRecordDatabase`: if it is a resource database.
/// - `UniqueIdNotFound`: if no record has the ID. An ID has 24 bits, so no record has a greater
///   one.
pub fn find_by_id(store: &Store, db: Db, id: u32) -> Result<u32, Refusal>
    ensures { DoesRecord store.now (RecordCall.FindById db id) (number_or_refused result) store.now }
{
    let records = open_database(store, db, EntryKind::Records, Access::Read)?;
    find_id(&records, id).ok_or(Refusal::UniqueIdNotFound)
}
