//! Queries of resources.

ghost use Rattle.heap_model.specs.MemorySteps.{reply_of};
ghost use Rattle.heap_model.specs.declared.call.ResourceCall.{ResourceCall};
ghost use Rattle.heap_model.specs.declared.call.Reply.{Reply};
ghost use Rattle.palm_store.specs.Replies.{number_or_refused};
ghost use Rattle.resource_db.specs.Resources.{DoesResource};

use crate::resources::resource_at;
use crate::search::{first_with, nth_of_type};
use heap_model::{Db, Refusal, ResourceInfo};
use palm_store::{Access, EntryKind, Store, count_entries, open_database};

/// Returns how many resources a database has.
///
/// # Errors
/// - `NoSuchDatabase`: if the store has no database of this number.
/// - `NotResourceDatabase`: if it is a record database.
pub fn num_resources(store: &Store, db: Db) -> Result<u32, Refusal>
    ensures { DoesResource store.now (ResourceCall.Count db)
        (number_or_refused result) store.now }
{
    count_entries(store, db, EntryKind::Resources, Access::Read)
}

/// Returns the type and the ID of a resource, and the name of its data.
///
/// # Errors
/// - `NoSuchDatabase`: if the store has no database of this number.
/// - `NotResourceDatabase`: if it is a record database.
/// - `IndexOutOfRange`: if the database has no resource at the index.
pub fn resource_info(store: &Store, db: Db, index: u32) -> Result<ResourceInfo, Refusal>
    ensures { DoesResource store.now (ResourceCall.Info db index)
        (reply_of (λ info. Reply.Resource info) result) store.now }
{
    Ok(resource_at(store, db, index, Access::Read)?.item)
}

/// Returns the index of the first resource of a type and an ID.
///
/// # Errors
/// - `NoSuchDatabase`: if the store has no database of this number.
/// - `NotResourceDatabase`: if it is a record database.
/// - `ResourceNotFound`: if no resource has the type and the ID.
pub fn find_resource(store: &Store, db: Db, kind: u32, id: u16) -> Result<u32, Refusal>
    ensures { DoesResource store.now (ResourceCall.Find db kind id)
        (number_or_refused result) store.now }
{
    let resources = open_database(store, db, EntryKind::Resources, Access::Read)?;
    first_with(&resources, kind, id).ok_or(Refusal::ResourceNotFound)
}

/// Returns the index of a resource of a type: of the first if `nth` is 0, of the second if it is 1,
/// and so on.
///
/// # Errors
/// - `NoSuchDatabase`: if the store has no database of this number.
/// - `NotResourceDatabase`: if it is a record database.
/// - `ResourceNotFound`: if at most `nth` resources have the type.
pub fn find_type(store: &Store, db: Db, kind: u32, nth: u32) -> Result<u32, Refusal>
    ensures { DoesResource store.now (ResourceCall.FindType db kind nth)
        (number_or_refused result) store.now }
{
    let resources = open_database(store, db, EntryKind::Resources, Access::Read)?;
    nth_of_type(&resources, kind, nth).ok_or(Refusal::ResourceNotFound)
}
