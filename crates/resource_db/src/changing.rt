//! Calls that change and remove resources.

ghost use Rattle.std.specs.Prelude.{◌≡◌, OnErr};
ghost use Rattle.heap_model.specs.declared.call.ResourceCall.{ResourceCall};
ghost use Rattle.palm_store.specs.Replies.{done_or_refused, name_or_refused};
ghost use Rattle.resource_db.specs.Resources.{DoesResource};

use crate::resources::resource_at;
use heap_model::{Db, Name, Refusal};
use palm_store::{Access, EntryInfo, Store, check_owner, is_locked};

/// Removes a resource, gives its data to an owner, 1 to 14, and returns the name of the data. The
/// data keeps its lock.
///
/// # Errors
/// - `NoSuchDatabase`: if the store has no database of this number.
/// - `NotResourceDatabase`: if it is a record database.
/// - `ReadOnly`: if the database may only be read.
/// - `IndexOutOfRange`: if the database has no resource at the index.
/// - `InvalidOwner`: if the owner is not 1 to 14.
pub fn detach_resource(store: &mut Store, db: Db, index: u32, owner: u8) -> Result<Name, Refusal>
    ensures does { DoesResource store.old (ResourceCall.Detach db index owner)
        (name_or_refused result) store.new }
    ensures refused { OnErr result (store.new ≡ store.old) }
{
    let resource = resource_at(store, db, index, Access::Write)?;
    check_owner(owner)?;
    store.entry_drop(resource.opened, index, Some(owner));
    Ok(resource.item.data)
}

/// Removes a resource and frees its data.
///
/// # Errors
/// - `NoSuchDatabase`: if the store has no database of this number.
/// - `NotResourceDatabase`: if it is a record database.
/// - `ReadOnly`: if the database may only be read.
/// - `IndexOutOfRange`: if the database has no resource at the index.
/// - `ChunkLocked`: if the data is locked.
pub fn remove_resource(store: &mut Store, db: Db, index: u32) -> Result<(), Refusal>
    ensures does { DoesResource store.old (ResourceCall.Remove db index)
        (done_or_refused result) store.new }
    ensures refused { OnErr result (store.new ≡ store.old) }
{
    let resource = resource_at(store, db, index, Access::Write)?;
    if is_locked(store, resource.item.data) {
        return Err(Refusal::ChunkLocked);
    }
    store.entry_drop(resource.opened, index, None);
    Ok(())
}

/// Gives a resource another type and ID. Its data stays.
///
/// # Errors
/// - `NoSuchDatabase`: if the store has no database of this number.
/// - `NotResourceDatabase`: if it is a record database.
/// - `ReadOnly`: if the database may only be read.
/// - `IndexOutOfRange`: if the database has no resource at the index.
pub fn set_resource_info(
    store: &mut Store,
    db: Db,
    index: u32,
    kind: u32,
    id: u16,
) -> Result<(), Refusal>
    ensures does { DoesResource store.old (ResourceCall.SetInfo db index kind id)
        (done_or_refused result) store.new }
    ensures refused { OnErr result (store.new ≡ store.old) }
{
    let resource = resource_at(store, db, index, Access::Write)?;
    store.entry_set(
        resource.opened,
        index,
        EntryInfo::Resource { kind, id },
        true,
    );
    Ok(())
}
