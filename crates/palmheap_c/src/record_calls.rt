//! Calls on the records of a database (Palm OS Programmer's API Reference, "Data Manager"). Records
//! are counted from 0. The contract of each function is the step of the abstract store for its
//! call.

ghost use Rattle.std.specs.Prelude.{◌≡◌, ◌≢◌};
ghost use Rattle.heap_model.specs.declared.call.Call as calls;
ghost use Rattle.heap_model.specs.declared.call.RecordCall.{RecordCall};
ghost use Rattle.heap_model.specs.declared.call.Reply.{Reply};
ghost use Rattle.palmheap_c.specs.Calls.{DoesInC, as_name, as_db};
ghost use Rattle.palmheap_c.specs.Infos.{record_from_c};

use crate::calls::refused;
use crate::infos::{RecordInfo, of_record};
use crate::kept::Kept;
use heap_model::{Db, Name};
use record_db::{
    archive, attach, attach_replacing, delete, delete_category, detach, find_by_id, get,
    move_category, move_record, new_record, next_in_category, num_in_category, num_records,
    position_in_category, query, record_info, release, remove, resize_record, set_record_info,
};

/// Makes a record of `size` zeros at the index `at`, or at the end. Sets `index` to its index, and
/// `name` to the chunk of its data.
///
/// # Errors
/// The refusals 10, 11, 13, 17, 8, in this order.
#[unsafe(no_mangle)]
pub extern "C" fn palmheap_DmNewRecord(
    store: &mut Kept,
    db: u32,
    at: u32,
    size: u32,
    index: &mut u32,
    name: &mut u32,
) -> u32
    ensures does { DoesInC store.old.store (calls.Call.Record (RecordCall.New (as_db db) at size))
        (Reply.Made index.new (as_name name.new)) result store.new.store }
    ensures left_index { result ≢ 0 → index.new ≡ index.old }
    ensures left_name { result ≢ 0 → name.new ≡ name.old }
{
    match new_record(store.as_mut(), Db(db), at, size) {
        Ok((made, data)) => {
            *index = made;
            *name = data.0;
            0
        }
        Err(refusal) => refused(refusal),
    }
}

/// Deletes a record: frees its data, and keeps its entry.
///
/// # Errors
/// The refusals 10, 11, 13, 14, 15, 3, in this order.
#[unsafe(no_mangle)]
pub extern "C" fn palmheap_DmDeleteRecord(store: &mut Kept, db: u32, index: u32) -> u32
    ensures does { DoesInC store.old.store (calls.Call.Record (RecordCall.Delete (as_db db) index))
        Reply.Done result store.new.store }
{
    match delete(store.as_mut(), Db(db), index) {
        Ok(()) => 0,
        Err(refusal) => refused(refusal),
    }
}

/// Marks a record as deleted, and keeps its data.
///
/// # Errors
/// The refusals 10, 11, 13, 14, 15, in this order.
#[unsafe(no_mangle)]
pub extern "C" fn palmheap_DmArchiveRecord(store: &mut Kept, db: u32, index: u32) -> u32
    ensures does { DoesInC store.old.store (calls.Call.Record (RecordCall.Archive (as_db db) index))
        Reply.Done result store.new.store }
{
    match archive(store.as_mut(), Db(db), index) {
        Ok(()) => 0,
        Err(refusal) => refused(refusal),
    }
}

/// Removes a record, and frees its data if it has any.
///
/// # Errors
/// The refusals 10, 11, 13, 14, 3, in this order.
#[unsafe(no_mangle)]
pub extern "C" fn palmheap_DmRemoveRecord(store: &mut Kept, db: u32, index: u32) -> u32
    ensures does { DoesInC store.old.store (calls.Call.Record (RecordCall.Remove (as_db db) index))
        Reply.Done result store.new.store }
{
    match remove(store.as_mut(), Db(db), index) {
        Ok(()) => 0,
        Err(refusal) => refused(refusal),
    }
}

/// Moves a record before the record at the index `to`, or after the last one. Both indexes are
/// those before the call.
///
/// # Errors
/// The refusals 10, 11, 13, 14, in this order.
#[unsafe(no_mangle)]
pub extern "C" fn palmheap_DmMoveRecord(store: &mut Kept, db: u32, from: u32, to: u32) -> u32
    ensures does { DoesInC store.old.store (calls.Call.Record (RecordCall.Move (as_db db) from to))
        Reply.Done result store.new.store }
{
    match move_record(store.as_mut(), Db(db), from, to) {
        Ok(()) => 0,
        Err(refusal) => refused(refusal),
    }
}

/// Marks a record as busy, and sets `name` to the chunk of its data.
///
/// # Errors
/// The refusals 10, 11, 14, 15, 16, in this order.
#[unsafe(no_mangle)]
pub extern "C" fn palmheap_DmGetRecord(store: &mut Kept, db: u32, index: u32, name: &mut u32) -> u32
    ensures does { DoesInC store.old.store (calls.Call.Record (RecordCall.Get (as_db db) index))
        (Reply.Named (as_name name.new)) result store.new.store }
    ensures left { result ≢ 0 → name.new ≡ name.old }
{
    match get(store.as_mut(), Db(db), index) {
        Ok(answer) => {
            *name = answer.0;
            0
        }
        Err(refusal) => refused(refusal),
    }
}

/// Sets `name` to the chunk of a record's data.
///
/// # Errors
/// The refusals 10, 11, 14, 15, in this order.
#[unsafe(no_mangle)]
pub extern "C" fn palmheap_DmQueryRecord(
    store: &mut Kept,
    db: u32,
    index: u32,
    name: &mut u32,
) -> u32
    ensures does { DoesInC store.old.store (calls.Call.Record (RecordCall.Query (as_db db) index))
        (Reply.Named (as_name name.new)) result store.new.store }
    ensures left { result ≢ 0 → name.new ≡ name.old }
    ensures same { store.new.store ≡ store.old.store }
{
    match query(store.as_mut(), Db(db), index) {
        Ok(answer) => {
            *name = answer.0;
            0
        }
        Err(refusal) => refused(refusal),
    }
}

/// Marks a record as no longer busy, and as dirty if `dirty` is true.
///
/// # Errors
/// The refusals 10, 11, 14, in this order.
#[unsafe(no_mangle)]
pub extern "C" fn palmheap_DmReleaseRecord(
    store: &mut Kept,
    db: u32,
    index: u32,
    dirty: bool,
) -> u32
    ensures does { DoesInC store.old.store
        (calls.Call.Record (RecordCall.Release (as_db db) index dirty))
        Reply.Done result store.new.store }
{
    match release(store.as_mut(), Db(db), index, dirty) {
        Ok(()) => 0,
        Err(refusal) => refused(refusal),
    }
}

/// Reads the entry of a record.
///
/// # Errors
/// The refusals 10, 11, 14, in this order.
#[unsafe(no_mangle)]
pub extern "C" fn palmheap_DmRecordInfo(
    store: &mut Kept,
    db: u32,
    index: u32,
    info: &mut RecordInfo,
) -> u32
    ensures does { DoesInC store.old.store (calls.Call.Record (RecordCall.Info (as_db db) index))
        (Reply.Record (record_from_c info.new)) result store.new.store }
    ensures left { result ≢ 0 → info.new ≡ info.old }
    ensures same { store.new.store ≡ store.old.store }
{
    match record_info(store.as_mut(), Db(db), index) {
        Ok(answer) => {
            *info = of_record(answer);
            0
        }
        Err(refusal) => refused(refusal),
    }
}

/// Resizes the data of a record to `size` bytes.
///
/// # Errors
/// The refusals 10, 11, 13, 14, 15, 27, 3, 8, in this order.
#[unsafe(no_mangle)]
pub extern "C" fn palmheap_DmResizeRecord(store: &mut Kept, db: u32, index: u32, size: u32) -> u32
    ensures does { DoesInC store.old.store
        (calls.Call.Record (RecordCall.Resize (as_db db) index size))
        Reply.Done result store.new.store }
{
    match resize_record(store.as_mut(), Db(db), index, size) {
        Ok(()) => 0,
        Err(refusal) => refused(refusal),
    }
}

/// Sets `count` to the number of records.
///
/// # Errors
/// The refusals 10, 11, in this order.
#[unsafe(no_mangle)]
pub extern "C" fn palmheap_DmNumRecords(store: &mut Kept, db: u32, count: &mut u32) -> u32
    ensures does { DoesInC store.old.store (calls.Call.Record (RecordCall.Count (as_db db)))
        (Reply.Number count.new) result store.new.store }
    ensures left { result ≢ 0 → count.new ≡ count.old }
    ensures same { store.new.store ≡ store.old.store }
{
    match num_records(store.as_mut(), Db(db)) {
        Ok(answer) => {
            *count = answer;
            0
        }
        Err(refusal) => refused(refusal),
    }
}

/// Makes a movable chunk the data of a new record at the index `at`, or at the end. Sets `index` to
/// the index of the record.
///
/// # Errors
/// The refusals 10, 11, 13, 1, 2, 6, 17, 8, in this order.
#[unsafe(no_mangle)]
pub extern "C" fn palmheap_DmAttachRecord(
    store: &mut Kept,
    db: u32,
    at: u32,
    name: u32,
    index: &mut u32,
) -> u32
    ensures does { DoesInC store.old.store
        (calls.Call.Record (RecordCall.Attach (as_db db) at (as_name name)))
        (Reply.Number index.new) result store.new.store }
    ensures left { result ≢ 0 → index.new ≡ index.old }
{
    match attach(store.as_mut(), Db(db), at, Name(name)) {
        Ok(answer) => {
            *index = answer;
            0
        }
        Err(refusal) => refused(refusal),
    }
}

/// Makes a movable chunk the data of a record, and gives its old data to an owner. Sets `old` to
/// the name of the old data.
///
/// # Errors
/// The refusals 10, 11, 13, 14, 15, 1, 2, 6, 7, in this order.
#[unsafe(no_mangle)]
pub extern "C" fn palmheap_attach_replacing(
    store: &mut Kept,
    db: u32,
    index: u32,
    name: u32,
    owner: u8,
    old: &mut u32,
) -> u32
    ensures does { DoesInC store.old.store
        (calls.Call.Record (RecordCall.AttachReplacing (as_db db) index (as_name name) owner))
        (Reply.Named (as_name old.new)) result store.new.store }
    ensures left { result ≢ 0 → old.new ≡ old.old }
{
    match attach_replacing(store.as_mut(), Db(db), index, Name(name), owner) {
        Ok(answer) => {
            *old = answer.0;
            0
        }
        Err(refusal) => refused(refusal),
    }
}

/// Removes a record, and gives its data to an owner. Sets `name` to the name of the data.
///
/// # Errors
/// The refusals 10, 11, 13, 14, 15, 7, in this order.
#[unsafe(no_mangle)]
pub extern "C" fn palmheap_DmDetachRecord(
    store: &mut Kept,
    db: u32,
    index: u32,
    owner: u8,
    name: &mut u32,
) -> u32
    ensures does { DoesInC store.old.store
        (calls.Call.Record (RecordCall.Detach (as_db db) index owner))
        (Reply.Named (as_name name.new)) result store.new.store }
    ensures left { result ≢ 0 → name.new ≡ name.old }
{
    match detach(store.as_mut(), Db(db), index, owner) {
        Ok(answer) => {
            *name = answer.0;
            0
        }
        Err(refusal) => refused(refusal),
    }
}

/// Sets the attributes of a record, except the bits 0x80 and 0x20. Sets its ID too, if the low 24
/// bits of `id` are not 0.
///
/// # Errors
/// The refusals 10, 11, 13, 14, 19, in this order.
#[unsafe(no_mangle)]
pub extern "C" fn palmheap_DmSetRecordInfo(
    store: &mut Kept,
    db: u32,
    index: u32,
    attributes: u8,
    id: u32,
) -> u32
    ensures does { DoesInC store.old.store
        (calls.Call.Record (RecordCall.SetInfo (as_db db) index attributes id))
        Reply.Done result store.new.store }
{
    match set_record_info(store.as_mut(), Db(db), index, attributes, id) {
        Ok(()) => 0,
        Err(refusal) => refused(refusal),
    }
}

/// Sets `index` to the index of the record with this unique ID.
///
/// # Errors
/// The refusals 10, 11, 20, in this order.
#[unsafe(no_mangle)]
pub extern "C" fn palmheap_DmFindRecordByID(
    store: &mut Kept,
    db: u32,
    id: u32,
    index: &mut u32,
) -> u32
    ensures does { DoesInC store.old.store (calls.Call.Record (RecordCall.FindById (as_db db) id))
        (Reply.Number index.new) result store.new.store }
    ensures left { result ≢ 0 → index.new ≡ index.old }
    ensures same { store.new.store ≡ store.old.store }
{
    match find_by_id(store.as_mut(), Db(db), id) {
        Ok(answer) => {
            *index = answer;
            0
        }
        Err(refusal) => refused(refusal),
    }
}

/// Sets `count` to the number of records of a category, 0 to 15, or of all categories for 255.
///
/// # Errors
/// The refusals 10, 11, 18, in this order.
#[unsafe(no_mangle)]
pub extern "C" fn palmheap_DmNumRecordsInCategory(
    store: &mut Kept,
    db: u32,
    category: u8,
    count: &mut u32,
) -> u32
    ensures does { DoesInC store.old.store
        (calls.Call.Record (RecordCall.CountInCategory (as_db db) category))
        (Reply.Number count.new) result store.new.store }
    ensures left { result ≢ 0 → count.new ≡ count.old }
    ensures same { store.new.store ≡ store.old.store }
{
    match num_in_category(store.as_mut(), Db(db), category) {
        Ok(answer) => {
            *count = answer;
            0
        }
        Err(refusal) => refused(refusal),
    }
}

/// Sets `index` to the index of the first record of a category at the index `from` or after it.
///
/// # Errors
/// The refusals 10, 11, 18, 14, in this order.
#[unsafe(no_mangle)]
pub extern "C" fn palmheap_DmQueryNextInCategory(
    store: &mut Kept,
    db: u32,
    from: u32,
    category: u8,
    index: &mut u32,
) -> u32
    ensures does { DoesInC store.old.store
        (calls.Call.Record (RecordCall.NextInCategory (as_db db) from category))
        (Reply.Number index.new) result store.new.store }
    ensures left { result ≢ 0 → index.new ≡ index.old }
    ensures same { store.new.store ≡ store.old.store }
{
    match next_in_category(store.as_mut(), Db(db), from, category) {
        Ok(answer) => {
            *index = answer;
            0
        }
        Err(refusal) => refused(refusal),
    }
}

/// Sets `count` to the number of records of a category before an index.
///
/// # Errors
/// The refusals 10, 11, 18, 14, in this order.
#[unsafe(no_mangle)]
pub extern "C" fn palmheap_DmPositionInCategory(
    store: &mut Kept,
    db: u32,
    index: u32,
    category: u8,
    count: &mut u32,
) -> u32
    ensures does { DoesInC store.old.store
        (calls.Call.Record (RecordCall.PositionInCategory (as_db db) index category))
        (Reply.Number count.new) result store.new.store }
    ensures left { result ≢ 0 → count.new ≡ count.old }
    ensures same { store.new.store ≡ store.old.store }
{
    match position_in_category(store.as_mut(), Db(db), index, category) {
        Ok(answer) => {
            *count = answer;
            0
        }
        Err(refusal) => refused(refusal),
    }
}

/// Gives all records of the category `from` the category `to`. Marks them as dirty if `dirty` is
/// true.
///
/// # Errors
/// The refusals 10, 11, 13, 18, in this order.
#[unsafe(no_mangle)]
pub extern "C" fn palmheap_DmMoveCategory(
    store: &mut Kept,
    db: u32,
    to: u8,
    from: u8,
    dirty: bool,
) -> u32
    ensures does { DoesInC store.old.store
        (calls.Call.Record (RecordCall.MoveCategory (as_db db) to from dirty))
        Reply.Done result store.new.store }
{
    match move_category(store.as_mut(), Db(db), to, from, dirty) {
        Ok(()) => 0,
        Err(refusal) => refused(refusal),
    }
}

/// Deletes all records of a category.
///
/// # Errors
/// The refusals 10, 11, 13, 18, 3, in this order.
#[unsafe(no_mangle)]
pub extern "C" fn palmheap_DmDeleteCategory(store: &mut Kept, db: u32, category: u8) -> u32
    ensures does { DoesInC store.old.store
        (calls.Call.Record (RecordCall.DeleteCategory (as_db db) category))
        Reply.Done result store.new.store }
{
    match delete_category(store.as_mut(), Db(db), category) {
        Ok(()) => 0,
        Err(refusal) => refused(refusal),
    }
}
