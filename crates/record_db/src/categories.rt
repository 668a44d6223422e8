//! Categories of records: calls that count the records of one, move them to another, or delete
//! them.

ghost use Rattle.std.specs.Prelude.{◌≡◌, false, [], ◌∷◌, OnOk, OnErr, IfErr, IfSome, IfNone};
ghost use Rattle.heap_model.specs.Store.{Accepted, store_of};
ghost use Rattle.heap_model.specs.Refusals.{NoneHolds, FirstBrings};
ghost use Rattle.heap_model.specs.EntrySteps.{MakesNone};
ghost use Rattle.heap_model.specs.Categories.{IsOf};
ghost use Rattle.heap_model.specs.RecordSteps.{no_category, no_categories, HasLockedOf, category_deleted};
ghost use Rattle.heap_model.specs.declared.call.RecordCall.{RecordCall};
ghost use Rattle.palm_store.specs.Opened.{IsOpened};
ghost use Rattle.palm_store.specs.EntryCalls.{entries_of_image, resources_of_image, LeavesChanged, OnlyWrites};
ghost use Rattle.palm_store.specs.Replies.{done_or_refused, number_or_refused};
ghost use Rattle.palm_store.specs.Search.{IsFirst, NoneBehind};
ghost use Rattle.record_db.specs.Checks.{DoesRecord};

use crate::attributes::{ALL_CATEGORIES, Moving};
use crate::records::has_locked_of;
use crate::search::{count_of, first_of};
use db_format::CATEGORIES;
use heap_model::{Db, Refusal};
use palm_store::{Access, EntryKind, OpenDatabase, Store, open_database, open_entries};

/// Counts the records of a category, 0 to 15, or of any category if it is 0xFF. Deleted records
/// don't count.
///
/// # Errors
/// - `NoSuchDatabase`: if the store has no database of this number.
/// - `NotRecordDatabase`: if it is a resource database.
/// - `InvalidCategory`: if the category is neither 0 to 15 nor 0xFF.
pub fn num_in_category(store: &Store, db: Db, category: u8) -> Result<u32, Refusal>
    ensures { DoesRecord store.now (RecordCall.CountInCategory db category)
        (number_or_refused result) store.now }
{
    let records = open_database(store, db, EntryKind::Records, Access::Read)?;
    check_counted(category)?;
    Ok(count_of(&records, category, records.entry_count()))
}

/// Returns the index of the first record, from an index on, that is of a category, 0 to 15. The
/// number 0xFF means any category. Deleted records are skipped.
///
/// # Errors
/// - `NoSuchDatabase`: if the store has no database of this number.
/// - `NotRecordDatabase`: if it is a resource database.
/// - `InvalidCategory`: if the category is neither 0 to 15 nor 0xFF.
/// - `IndexOutOfRange`: if there is no record of the category from the index on.
pub fn next_in_category(store: &Store, db: Db, from: u32, category: u8) -> Result<u32, Refusal>
    ensures { DoesRecord store.now (RecordCall.NextInCategory db from category)
        (number_or_refused result) store.now }
{
    let records = open_database(store, db, EntryKind::Records, Access::Read)?;
    check_counted(category)?;
    first_of(&records, from, category).ok_or(Refusal::IndexOutOfRange)
}

/// Counts the records before an index that are of a category, 0 to 15, or of any category if it is
/// 0xFF. Deleted records don't count. The record at the index may be of any category, and deleted
/// too.
///
/// # Errors
/// - `NoSuchDatabase`: if the store has no database of this number.
/// - `NotRecordDatabase`: if it is a resource database.
/// - `InvalidCategory`: if the category is neither 0 to 15 nor 0xFF.
/// - `IndexOutOfRange`: if the database has no record at the index.
pub fn position_in_category(store: &Store, db: Db, index: u32, category: u8) -> Result<u32, Refusal>
    ensures { DoesRecord store.now (RecordCall.PositionInCategory db index category)
        (number_or_refused result) store.now }
{
    let records = open_database(store, db, EntryKind::Records, Access::Read)?;
    check_counted(category)?;
    if index >= records.entry_count() {
        return Err(Refusal::IndexOutOfRange);
    }
    Ok(count_of(&records, category, index))
}

/// Moves each record of the category `from` to the category `to`. The moved records are dirty if
/// `dirty` is true. Deleted records are skipped.
///
/// # Errors
/// - `NoSuchDatabase`: if the store has no database of this number.
/// - `NotRecordDatabase`: if it is a resource database.
/// - `ReadOnly`: if the database may only be read.
/// - `InvalidCategory`: if one of the two categories is not 0 to 15.
pub fn move_category(
    store: &mut Store,
    db: Db,
    to: u8,
    from: u8,
    dirty: bool,
) -> Result<(), Refusal>
    ensures does { DoesRecord store.old (RecordCall.MoveCategory db to from dirty)
        (done_or_refused result) store.new }
    ensures refused { OnErr result (store.new ≡ store.old) }
{
    let opened = open_entries(store, db, EntryKind::Records, Access::Write)?;
    check_category(to)?;
    check_category(from)?;
    store.change_attributes(opened, Moving { to, from, dirty });
    store.count_change(opened);
    Ok(())
}

/// Deletes each record of a category that isn't deleted: frees its data and keeps its entry.
///
/// # Errors
/// - `NoSuchDatabase`: if the store has no database of this number.
/// - `NotRecordDatabase`: if it is a resource database.
/// - `ReadOnly`: if the database may only be read.
/// - `InvalidCategory`: if the category is not 0 to 15.
/// - `ChunkLocked`: if the data of a record of the category is locked. Then no record was deleted.
pub fn delete_category(store: &mut Store, db: Db, category: u8) -> Result<(), Refusal>
    ensures does { DoesRecord store.old (RecordCall.DeleteCategory db category)
        (done_or_refused result) store.new }
    ensures refused { OnErr result (store.new ≡ store.old) }
{
    let opened = open_entries(store, db, EntryKind::Records, Access::Write)?;
    check_category(category)?;
    if has_locked_of(store, opened, category) {
        return Err(Refusal::ChunkLocked);
    }
    delete_all_of(store, opened, category);
    store.count_change(opened);
    Ok(())
}

/// Deletes each record of a category that isn't deleted. The caller must prove that none of them
/// has locked data.
fn delete_all_of(store: &mut Store, opened: OpenDatabase, category: u8)
    requires accepted { Accepted store.old.bytes }
    requires opened { IsOpened store.old.bytes opened }
    requires records { resources_of_image store.old.bytes opened.db ≡ false }
    requires unlocked { HasLockedOf (store_of store.old.bytes) opened.db category → ⊥ }
    ensures deleted { LeavesChanged store.old store.new
        (λ before. category_deleted before opened.db category) }
    ensures opened { IsOpened store.new.bytes opened }
    ensures none_made { MakesNone store.old.bytes store.new.bytes }
    ensures kept { OnlyWrites store.old store.new }
{
    let mut from = 0;
    while let Some(index) = next_of(store, opened, from, category) {
        store.entry_free_data(opened, index, false);
        from = index + 1;
    }
}

/// Returns the index of the first record of a database, from an index on, that is of a category.
#[inline]
fn next_of(store: &Store, opened: OpenDatabase, from: u32, category: u8) -> Option<u32>
    requires opened { IsOpened store.now.bytes opened }
    requires records { resources_of_image store.now.bytes opened.db ≡ false }
    ensures is { IfSome result
        (IsFirst (entries_of_image store.now.bytes opened.db) from (IsOf category)) }
    ensures none { IfNone result
        (NoneBehind (entries_of_image store.now.bytes opened.db) from (IsOf category)) }
{
    first_of(&store.database_in(opened), from, category)
}

/// Checks that a category is 0 to 15.
fn check_category(category: u8) -> Result<(), Refusal>
    ensures passes { OnOk result (NoneHolds (no_category category ∷ [])) }
    ensures refused { IfErr result (FirstBrings (no_category category ∷ [])) }
{
    if category >= CATEGORIES {
        return Err(Refusal::InvalidCategory);
    }
    Ok(())
}

/// Checks that a category is 0 to 15, or the number that means all categories.
fn check_counted(category: u8) -> Result<(), Refusal>
    ensures passes { OnOk result (NoneHolds (no_categories category ∷ [])) }
    ensures refused { IfErr result (FirstBrings (no_categories category ∷ [])) }
{
    if category >= CATEGORIES && category != ALL_CATEGORIES {
        return Err(Refusal::InvalidCategory);
    }
    Ok(())
}
