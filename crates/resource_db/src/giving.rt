//! The call that makes a caller's chunk the data of a resource.

ghost use Rattle.std.specs.Prelude.{◌≡◌, OnErr};
ghost use Rattle.heap_model.specs.declared.call.ResourceCall.{ResourceCall};
ghost use Rattle.palm_store.specs.Replies.{number_or_refused};
ghost use Rattle.resource_db.specs.Resources.{DoesResource};

use heap_model::{Db, Name, Refusal};
use palm_store::{Access, EntryInfo, EntryKind, Store, open_entries};

/// Makes a caller's chunk the data of a new resource after all others, and returns the resource's
/// index. The chunk keeps its lock.
///
/// # Errors
/// If it fails, nothing has changed.
/// - `NoSuchDatabase`: if the store has no database of this number.
/// - `NotResourceDatabase`: if it is a record database.
/// - `ReadOnly`: if the database may only be read.
/// - `InvalidHandle`, `OwnedByDatabase`, `ChunkFixed`: if the chunk can't be given. The name stands
///   for no chunk, for the data of a database, or for a fixed chunk.
/// - `TooManyEntries`: if the database has 65,535 resources.
/// - `NotEnoughSpace`: if the room for one more entry can run out.
pub fn attach_resource(
    store: &mut Store,
    db: Db,
    kind: u32,
    id: u16,
    name: Name,
) -> Result<u32, Refusal>
    ensures does { DoesResource store.old (ResourceCall.Attach db kind id name)
        (number_or_refused result) store.new }
    ensures refused { OnErr result (store.new ≡ store.old) }
{
    let opened = open_entries(store, db, EntryKind::Resources, Access::Write)?;
    store.check_given(name)?;
    store.entry_attach(
        opened,
        opened.entry_count,
        EntryInfo::Resource { kind, id },
        name,
    )?;
    Ok(opened.entry_count)
}
