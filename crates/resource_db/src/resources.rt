//! Resources, by their indexes.

ghost use Rattle.std.specs.Prelude.{◌≡◌, ◌<◌, Some, OnOk, IfOk, IfErr};
ghost use Rattle.heap_model.specs.Database.{a_resource};
ghost use Rattle.heap_model.specs.Store.{Accepted, store_of};
ghost use Rattle.heap_model.specs.Refusals.{NoneHolds, FirstBrings};
ghost use Rattle.heap_model.specs.EntrySteps.{entry_under};
ghost use Rattle.palm_store.specs.Checks.{IsFoundAt, finding_checks};

use heap_model::{Db, Refusal, ResourceInfo};
use palm_store::{Access, EntryKind, InDatabase, Store, find_entry};

/// Finds the resource at an index, in a database that allows this access. It has data.
pub(crate) fn resource_at(
    store: &Store,
    db: Db,
    index: u32,
    access: Access,
) -> Result<InDatabase<ResourceInfo>, Refusal>
    ensures accepted { Accepted store.now.bytes }
    ensures found { IfOk result (λ found.
        IsFoundAt store.now.bytes db index EntryKind.Resources found.opened) }
    ensures is { IfOk result (λ found.
        entry_under (store_of store.now.bytes) db index
        ≡ Some (a_resource found.item.kind found.item.id found.item.«data».0)) }
    ensures some { IfOk result (λ found. 0 < found.item.«data».0) }
    ensures passes { OnOk result
        (NoneHolds (finding_checks store.now.bytes db index EntryKind.Resources access)) }
    ensures refused { IfErr result
        (FirstBrings (finding_checks store.now.bytes db index EntryKind.Resources access)) }
{
    let found = find_entry(store, db, index, EntryKind::Resources, access)?;
    Ok(InDatabase {
        opened: found.opened,
        item: found.item.as_resource().unwrap(),
    })
}
