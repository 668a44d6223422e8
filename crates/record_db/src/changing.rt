//! Calls that change, move and remove records.

ghost use Rattle.std.specs.Prelude.{◌≡◌, ◌<◌, false, Some, length, bit_or, OnErr};
ghost use Rattle.heap_model.specs.Database.{a_record};
ghost use Rattle.heap_model.specs.Store.{Accepted, store_of};
ghost use Rattle.heap_model.specs.EntrySteps.{entry_under, entry_changed, with_attributes, MakesNone};
ghost use Rattle.heap_model.specs.RecordSteps.{id_set};
ghost use Rattle.heap_model.specs.declared.call.RecordCall.{RecordCall};
ghost use Rattle.palm_store.specs.Opened.{IsOpened};
ghost use Rattle.palm_store.specs.EntryCalls.{entries_of_image, resources_of_image, raised_if, LeavesChanged, OnlyWrites};
ghost use Rattle.palm_store.specs.Replies.{done_or_refused, name_or_refused};
ghost use Rattle.record_db.specs.Checks.{DoesRecord};

use crate::attributes::{is_busy, marked, released, with_given};
use crate::records::{find_live, find_record, has_id, has_locked};
use db_format::{GREATEST_ID, RecordAttrs};
use heap_model::{Db, Name, RecordInfo, Refusal};
use palm_store::{
    Access, EntryInfo, EntryKind, InDatabase, Store, check_owner, is_locked, open_entries,
};

/// Frees the data of a record. Its entry stays as that of a deleted record, with its ID.
///
/// # Errors
/// - `NoSuchDatabase`: if the store has no database of this number.
/// - `NotRecordDatabase`: if it is a resource database.
/// - `ReadOnly`: if the database may only be read.
/// - `IndexOutOfRange`: if the database has no record at the index.
/// - `RecordDeleted`: if the record is deleted.
/// - `ChunkLocked`: if the data is locked.
pub fn delete(store: &mut Store, db: Db, index: u32) -> Result<(), Refusal>
    ensures does { DoesRecord store.old (RecordCall.Delete db index) (done_or_refused result) store.new }
    ensures refused { OnErr result (store.new ≡ store.old) }
{
    let live = find_live(store, db, index, Access::Write)?;
    if is_locked(store, live.item.1) {
        return Err(Refusal::ChunkLocked);
    }
    store.entry_free_data(live.opened, index, true);
    Ok(())
}

/// Marks a record as deleted. Its data stays.
///
/// # Errors
/// - `NoSuchDatabase`: if the store has no database of this number.
/// - `NotRecordDatabase`: if it is a resource database.
/// - `ReadOnly`: if the database may only be read.
/// - `IndexOutOfRange`: if the database has no record at the index.
/// - `RecordDeleted`: if the record is deleted.
pub fn archive(store: &mut Store, db: Db, index: u32) -> Result<(), Refusal>
    ensures does { DoesRecord store.old (RecordCall.Archive db index)
        (done_or_refused result) store.new }
    ensures refused { OnErr result (store.new ≡ store.old) }
{
    let live = find_live(store, db, index, Access::Write)?;
    mark(store, index, live, RecordAttrs::DELETE, true);
    Ok(())
}

/// Removes a record, deleted or not, and frees its data, if it has any.
///
/// # Errors
/// - `NoSuchDatabase`: if the store has no database of this number.
/// - `NotRecordDatabase`: if it is a resource database.
/// - `ReadOnly`: if the database may only be read.
/// - `IndexOutOfRange`: if the database has no record at the index.
/// - `ChunkLocked`: if the data is locked.
pub fn remove(store: &mut Store, db: Db, index: u32) -> Result<(), Refusal>
    ensures does { DoesRecord store.old (RecordCall.Remove db index) (done_or_refused result) store.new }
    ensures refused { OnErr result (store.new ≡ store.old) }
{
    let found = find_record(store, db, index, Access::Write)?;
    if has_locked(store, found.item.data) {
        return Err(Refusal::ChunkLocked);
    }
    store.entry_drop(found.opened, index, None);
    Ok(())
}

/// Moves a record before the one at the index `to`, or after the last. `to` counts the records as
/// they are before the call.
///
/// # Errors
/// - `NoSuchDatabase`: if the store has no database of this number.
/// - `NotRecordDatabase`: if it is a resource database.
/// - `ReadOnly`: if the database may only be read.
/// - `IndexOutOfRange`: if the database has no record at `from`, or `to` is above the count of
///   records.
pub fn move_record(store: &mut Store, db: Db, from: u32, to: u32) -> Result<(), Refusal>
    ensures does { DoesRecord store.old (RecordCall.Move db from to) (done_or_refused result) store.new }
    ensures refused { OnErr result (store.new ≡ store.old) }
{
    let opened = open_entries(store, db, EntryKind::Records, Access::Write)?;
    if from >= opened.entry_count || to > opened.entry_count {
        return Err(Refusal::IndexOutOfRange);
    }
    store.entry_move(opened, from, to);
    Ok(())
}

/// Marks a record as busy and returns the name of its data. It is busy until it is released.
///
/// # Errors
/// - `NoSuchDatabase`: if the store has no database of this number.
/// - `NotRecordDatabase`: if it is a resource database.
/// - `IndexOutOfRange`: if the database has no record at the index.
/// - `RecordDeleted`: if the record is deleted.
/// - `RecordBusy`: if the record is busy already.
pub fn get(store: &mut Store, db: Db, index: u32) -> Result<Name, Refusal>
    ensures does { DoesRecord store.old (RecordCall.Get db index) (name_or_refused result) store.new }
    ensures refused { OnErr result (store.new ≡ store.old) }
{
    let live = find_live(store, db, index, Access::Read)?;
    if is_busy(live.item.0.attributes) {
        return Err(Refusal::RecordBusy);
    }
    mark(store, index, live, RecordAttrs::BUSY, false);
    Ok(live.item.1)
}

/// Ends the use of a record: it is no longer busy. It is dirty if `dirty` is true.
///
/// # Errors
/// - `NoSuchDatabase`: if the store has no database of this number.
/// - `NotRecordDatabase`: if it is a resource database.
/// - `IndexOutOfRange`: if the database has no record at the index.
pub fn release(store: &mut Store, db: Db, index: u32, dirty: bool) -> Result<(), Refusal>
    ensures does { DoesRecord store.old (RecordCall.Release db index dirty)
        (done_or_refused result) store.new }
    ensures refused { OnErr result (store.new ≡ store.old) }
{
    let found = find_record(store, db, index, Access::Read)?;
    let left = EntryInfo::Record {
        attributes: released(found.item.attributes, dirty),
        id: found.item.id,
    };
    store.entry_set(found.opened, index, left, false);
    Ok(())
}

/// Removes a record, gives its data to an owner, 1 to 14, and returns the name of the data. The
/// data keeps its lock.
///
/// # Errors
/// - `NoSuchDatabase`: if the store has no database of this number.
/// - `NotRecordDatabase`: if it is a resource database.
/// - `ReadOnly`: if the database may only be read.
/// - `IndexOutOfRange`: if the database has no record at the index.
/// - `RecordDeleted`: if the record is deleted.
/// - `InvalidOwner`: if the owner is not 1 to 14.
pub fn detach(store: &mut Store, db: Db, index: u32, owner: u8) -> Result<Name, Refusal>
    ensures does { DoesRecord store.old (RecordCall.Detach db index owner)
        (name_or_refused result) store.new }
    ensures refused { OnErr result (store.new ≡ store.old) }
{
    let live = find_live(store, db, index, Access::Write)?;
    check_owner(owner)?;
    store.entry_drop(live.opened, index, Some(owner));
    Ok(live.item.1)
}

/// Sets the attributes of a record, except the deleted and the busy bit, and its unique ID. The new
/// ID is the low 24 bits of `id`. If they are 0, the record keeps its ID.
///
/// # Errors
/// - `NoSuchDatabase`: if the store has no database of this number.
/// - `NotRecordDatabase`: if it is a resource database.
/// - `ReadOnly`: if the database may only be read.
/// - `IndexOutOfRange`: if the database has no record at the index.
/// - `DuplicateId`: if another record has the ID.
pub fn set_record_info(
    store: &mut Store,
    db: Db,
    index: u32,
    attributes: u8,
    id: u32,
) -> Result<(), Refusal>
    ensures does { DoesRecord store.old (RecordCall.SetInfo db index attributes id)
        (done_or_refused result) store.new }
    ensures refused { OnErr result (store.new ≡ store.old) }
{
    let found = find_record(store, db, index, Access::Write)?;
    let id = id_or(id, found.item.id);
    if id != found.item.id && has_id(store, found.opened, id) {
        return Err(Refusal::DuplicateId);
    }
    let given = EntryInfo::Record {
        attributes: with_given(found.item.attributes, attributes),
        id,
    };
    store.entry_set(found.opened, index, given, true);
    Ok(())
}

/// Sets bits of the attributes of a record that has data. The database counts the call if `counts`
/// is true.
#[inline(always)]
fn mark(
    store: &mut Store,
    index: u32,
    live: InDatabase<(RecordInfo, Name)>,
    bits: RecordAttrs,
    counts: bool,
)
    requires accepted { Accepted store.old.bytes }
    requires opened { IsOpened store.old.bytes live.opened }
    requires records { resources_of_image store.old.bytes live.opened.db ≡ false }
    requires inside { index < length (entries_of_image store.old.bytes live.opened.db) }
    requires is { entry_under (store_of store.old.bytes) live.opened.db index
        ≡ Some (a_record live.item.0.attributes live.item.0.id live.item.1.0) }
    requires some { 0 < live.item.1.0 }
    ensures marked { LeavesChanged store.old store.new
        (λ store. raised_if counts (entry_changed store live.opened.db index
        (with_attributes (λ attributes. bit_or attributes bits.0))) live.opened.db) }
    ensures none_made { MakesNone store.old.bytes store.new.bytes }
    ensures kept { OnlyWrites store.old store.new }
{
    let marked = EntryInfo::Record {
        attributes: marked(live.item.0.attributes, bits),
        id: live.item.0.id,
    };
    store.entry_set(live.opened, index, marked, counts);
}

/// Returns the unique ID in the low 24 bits of a number, or the record's own ID if they are 0.
fn id_or(number: u32, own: u32) -> u32
    ensures { result ≡ id_set number own }
{
    let id = number & GREATEST_ID;
    if id == 0 { own } else { id }
}
