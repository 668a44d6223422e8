//! Records, by their indexes.

ghost use Rattle.std.specs.Prelude.{◌≡◌, ◌<◌, ◌↔◌, false, Some, IsTrue, IsSomeAnd, IfSome, OnOk, IfOk, IfErr};
ghost use Rattle.heap_model.specs.Database.{a_record};
ghost use Rattle.heap_model.specs.Store.{Accepted, store_of};
ghost use Rattle.heap_model.specs.Refusals.{NoneHolds, FirstBrings};
ghost use Rattle.heap_model.specs.EntrySteps.{entry_under, HasId};
ghost use Rattle.heap_model.specs.RecordSteps.{HasLockedOf};
ghost use Rattle.palm_store.specs.Opened.{IsOpened};
ghost use Rattle.palm_store.specs.EntryCalls.{entries_of_image, resources_of_image};
ghost use Rattle.palm_store.specs.Search.{SomeHas};
ghost use Rattle.palm_store.specs.Checks.{IsNamed, IsLockedChunk, IsFoundAt, finding_checks};
ghost use Rattle.record_db.specs.Checks.{IsRecordTold, living_checks};

use crate::attributes::{has_category, is_deleted};
use crate::search::find_id;
use heap_model::{Db, Name, RecordInfo, Refusal};
use palm_store::{Access, EntryKind, InDatabase, OpenDatabase, Store, find_entry, is_locked};

/// Finds the record at an index, deleted or not, in a database that allows this access.
#[inline(always)]
pub(crate) fn find_record(
    store: &Store,
    db: Db,
    index: u32,
    access: Access,
) -> Result<InDatabase<RecordInfo>, Refusal>
    ensures accepted { Accepted store.now.bytes }
    ensures found { IfOk result (λ found.
        IsFoundAt store.now.bytes db index EntryKind.Records found.opened) }
    ensures is { IfOk result (λ found. IsRecordTold store.now.bytes db index found.item) }
    ensures passes { OnOk result
        (NoneHolds (finding_checks store.now.bytes db index EntryKind.Records access)) }
    ensures refused { IfErr result
        (FirstBrings (finding_checks store.now.bytes db index EntryKind.Records access)) }
{
    let found = find_entry(store, db, index, EntryKind::Records, access)?;
    Ok(InDatabase {
        opened: found.opened,
        item: found.item.as_record().unwrap(),
    })
}

/// Finds the record at an index that is not deleted, and the name of its data, in a database that
/// allows this access.
#[inline(always)]
pub(crate) fn find_live(
    store: &Store,
    db: Db,
    index: u32,
    access: Access,
) -> Result<InDatabase<(RecordInfo, Name)>, Refusal>
    ensures accepted { Accepted store.now.bytes }
    ensures found { IfOk result (λ live.
        IsFoundAt store.now.bytes db index EntryKind.Records live.opened) }
    ensures is { IfOk result (λ live.
        entry_under (store_of store.now.bytes) db index
        ≡ Some (a_record live.item.0.attributes live.item.0.id live.item.1.0)) }
    ensures some { IfOk result (λ live. 0 < live.item.1.0) }
    ensures passes { OnOk result (NoneHolds (living_checks store.now.bytes db index access)) }
    ensures refused { IfErr result
        (FirstBrings (living_checks store.now.bytes db index access)) }
{
    let found = find_record(store, db, index, access)?;
    if is_deleted(found.item.attributes) {
        return Err(Refusal::RecordDeleted);
    }
    Ok(InDatabase {
        opened: found.opened,
        item: (found.item, found.item.data.unwrap()),
    })
}

/// Whether a record has data, and the data is locked.
pub(crate) fn has_locked(store: &Store, data: Option<Name>) -> bool
    requires { IfSome «data» (λ name. IsNamed store.now.bytes name.0) }
    ensures { IsTrue result ↔ IsSomeAnd «data» (λ name. IsLockedChunk store.now.bytes name.0) }
{
    match data {
        Some(name) => is_locked(store, name),
        None => false,
    }
}

/// Whether a record of a database has a unique ID.
pub(crate) fn has_id(store: &Store, opened: OpenDatabase, id: u32) -> bool
    requires opened { IsOpened store.now.bytes opened }
    requires records { resources_of_image store.now.bytes opened.db ≡ false }
    ensures { IsTrue result ↔ SomeHas (entries_of_image store.now.bytes opened.db) (HasId id) }
{
    find_id(&store.database_in(opened), id).is_some()
}

/// Whether a record that is of a category and not deleted has locked data.
pub(crate) fn has_locked_of(store: &Store, opened: OpenDatabase, category: u8) -> bool
    requires opened { IsOpened store.now.bytes opened }
    requires records { resources_of_image store.now.bytes opened.db ≡ false }
    ensures { IsTrue result ↔ HasLockedOf (store_of store.now.bytes) opened.db category }
{
    let records = store.database_in(opened);
    for index in 0..records.entry_count() {
        let record = records.record(index);
        if has_category(record.attributes, category) && is_locked(store, Name(record.slot)) {
            return true;
        }
    }
    false
}
