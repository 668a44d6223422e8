//! Calls on the databases of an open store (Palm OS Programmer's API Reference, "Data Manager").
//! The contract of each function is the step of the abstract store for its call.

ghost use Rattle.std.specs.Prelude.{◌≡◌, ◌≢◌, take};
ghost use Rattle.heap_model.specs.Database.{name_field};
ghost use Rattle.heap_model.specs.declared.call.Call as calls;
ghost use Rattle.heap_model.specs.declared.call.DatabaseCall.{DatabaseCall};
ghost use Rattle.heap_model.specs.declared.call.Reply.{Reply};
ghost use Rattle.heap_model.specs.DatabaseFields.{name_size};
ghost use Rattle.palmheap_c.specs.Calls.{DoesInC, DoesAlways, as_name, as_db, which_of};
ghost use Rattle.palmheap_c.specs.Infos.{database_from_c};

use crate::calls::{refused, which_of};
use crate::infos::{DatabaseInfo, database_of, of_database};
use crate::kept::Kept;
use heap_model::{Db, DbName, Name};

/// Makes a database without entries, after all others. `kind` is its type, and `date` its creation
/// and modification date. Sets `db` to the database.
///
/// # Errors
/// The refusals 22, 21, 17, 8, in this order.
#[unsafe(no_mangle)]
pub extern "C" fn palmheap_DmCreateDatabase(
    store: &mut Kept,
    name: &[u8],
    kind: u32,
    creator: u32,
    resources: bool,
    date: u32,
    db: &mut u32,
) -> u32
    ensures does { DoesInC store.old.store
        (calls.Call.Database
        (DatabaseCall.Create (take name_size name.now) kind creator resources date))
        (Reply.Database (as_db db.new)) result store.new.store }
    ensures left { result ≢ 0 → db.new ≡ db.old }
{
    match store
        .as_mut()
        .create(&DbName::of(name), kind, creator, resources, date)
    {
        Ok(answer) => {
            *db = answer.0;
            0
        }
        Err(refusal) => refused(refusal),
    }
}

/// Deletes a database, its entries and its info blocks.
///
/// # Errors
/// The refusals 10, 3, in this order.
#[unsafe(no_mangle)]
pub extern "C" fn palmheap_DmDeleteDatabase(store: &mut Kept, db: u32) -> u32
    ensures does { DoesInC store.old.store (calls.Call.Database (DatabaseCall.Delete (as_db db)))
        Reply.Done result store.new.store }
{
    match store.as_mut().delete_database(Db(db)) {
        Ok(()) => 0,
        Err(refusal) => refused(refusal),
    }
}

/// Sets `db` to the database with this name.
///
/// # Errors
/// The refusal 10.
#[unsafe(no_mangle)]
pub extern "C" fn palmheap_DmFindDatabase(store: &mut Kept, name: &[u8], db: &mut u32) -> u32
    ensures does { DoesInC store.old.store
        (calls.Call.Database (DatabaseCall.Find (take name_size name.now)))
        (Reply.Database (as_db db.new)) result store.new.store }
    ensures left { result ≢ 0 → db.new ≡ db.old }
    ensures same { store.new.store ≡ store.old.store }
{
    match store.as_mut().find(&DbName::of(name)) {
        Ok(answer) => {
            *db = answer.0;
            0
        }
        Err(refusal) => refused(refusal),
    }
}

/// Sets `db` to the database at an index, counted from 0.
///
/// # Errors
/// The refusal 10.
#[unsafe(no_mangle)]
pub extern "C" fn palmheap_DmGetDatabase(store: &mut Kept, index: u32, db: &mut u32) -> u32
    ensures does { DoesInC store.old.store (calls.Call.Database (DatabaseCall.Nth index))
        (Reply.Database (as_db db.new)) result store.new.store }
    ensures left { result ≢ 0 → db.new ≡ db.old }
    ensures same { store.new.store ≡ store.old.store }
{
    match store.as_mut().nth(index) {
        Ok(answer) => {
            *db = answer.0;
            0
        }
        Err(refusal) => refused(refusal),
    }
}

/// Sets `count` to the number of databases.
#[unsafe(no_mangle)]
pub extern "C" fn palmheap_DmNumDatabases(store: &mut Kept, count: &mut u32) -> u32
    ensures does { DoesAlways store.old.store (calls.Call.Database DatabaseCall.Count)
        (Reply.Number count.new) store.new.store }
    ensures ok { result ≡ 0 }
    ensures same { store.new.store ≡ store.old.store }
{
    *count = store.as_mut().count();
    0
}

/// Reads the header of a database, and the number of its entries.
///
/// # Errors
/// The refusal 10.
#[unsafe(no_mangle)]
pub extern "C" fn palmheap_DmDatabaseInfo(store: &mut Kept, db: u32, info: &mut DatabaseInfo) -> u32
    ensures does { DoesInC store.old.store (calls.Call.Database (DatabaseCall.Info (as_db db)))
        (Reply.Info (database_from_c info.new)) result store.new.store }
    ensures field { result ≡ 0 → info.new.name ≡ name_field (take info.new.name_length info.new.name) }
    ensures left { result ≢ 0 → info.new ≡ info.old }
    ensures same { store.new.store ≡ store.old.store }
{
    match store.as_mut().database_info(Db(db)) {
        Ok(answer) => {
            *info = of_database(&answer);
            0
        }
        Err(refusal) => refused(refusal),
    }
}

/// Sets the name, attributes, version, dates, type and creator of a database. Ignores the other
/// fields of `info`, and the attribute for resources.
///
/// # Errors
/// The refusals 10, 22, 21, in this order.
#[unsafe(no_mangle)]
pub extern "C" fn palmheap_DmSetDatabaseInfo(store: &mut Kept, db: u32, info: &DatabaseInfo) -> u32
    ensures does { DoesInC store.old.store
        (calls.Call.Database (DatabaseCall.SetInfo (as_db db) (database_from_c info.now)))
        Reply.Done result store.new.store }
{
    match store.as_mut().set_database_info(Db(db), &database_of(info)) {
        Ok(()) => 0,
        Err(refusal) => refused(refusal),
    }
}

/// Makes a movable chunk the AppInfo block of a database, or its SortInfo block if `sort` is true.
/// The database may not have this block yet.
///
/// # Errors
/// The refusals 10, 13, 21, 1, 2, 6, in this order.
#[unsafe(no_mangle)]
pub extern "C" fn palmheap_set_info_block(store: &mut Kept, db: u32, sort: bool, name: u32) -> u32
    ensures does { DoesInC store.old.store
        (calls.Call.Database (DatabaseCall.SetInfoBlock (as_db db) (which_of sort) (as_name name)))
        Reply.Done result store.new.store }
{
    match store
        .as_mut()
        .set_info_block(Db(db), which_of(sort), Name(name))
    {
        Ok(()) => 0,
        Err(refusal) => refused(refusal),
    }
}

/// Gives an info block of a database to an owner, 1 to 14. The database no longer has the block.
/// Sets `name` to the block's name.
///
/// # Errors
/// The refusals 10, 13, 24, 7, in this order.
#[unsafe(no_mangle)]
pub extern "C" fn palmheap_take_info_block(
    store: &mut Kept,
    db: u32,
    sort: bool,
    owner: u8,
    name: &mut u32,
) -> u32
    ensures does { DoesInC store.old.store
        (calls.Call.Database (DatabaseCall.TakeInfoBlock (as_db db) (which_of sort) owner))
        (Reply.Named (as_name name.new)) result store.new.store }
    ensures left { result ≢ 0 → name.new ≡ name.old }
{
    match store
        .as_mut()
        .take_info_block(Db(db), which_of(sort), owner)
    {
        Ok(answer) => {
            *name = answer.0;
            0
        }
        Err(refusal) => refused(refusal),
    }
}

/// Sets `name` to the name of an info block of a database.
///
/// # Errors
/// The refusals 10, 24, in this order.
#[unsafe(no_mangle)]
pub extern "C" fn palmheap_info_block(store: &mut Kept, db: u32, sort: bool, name: &mut u32) -> u32
    ensures does { DoesInC store.old.store
        (calls.Call.Database (DatabaseCall.InfoBlock (as_db db) (which_of sort)))
        (Reply.Named (as_name name.new)) result store.new.store }
    ensures left { result ≢ 0 → name.new ≡ name.old }
    ensures same { store.new.store ≡ store.old.store }
{
    match store.as_mut().info_block(Db(db), which_of(sort)) {
        Ok(answer) => {
            *name = answer.0;
            0
        }
        Err(refusal) => refused(refusal),
    }
}
