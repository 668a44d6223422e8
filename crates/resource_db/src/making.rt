//! Calls that make resources and resize their data.

ghost use Rattle.std.specs.Prelude.{◌≡◌, ◌≢◌, OnErr, IfErr};
ghost use Rattle.heap_model.specs.Chunk.{need};
ghost use Rattle.heap_model.specs.Space.{FitsInPlace, MovesNothing, MovesOneStretchAnd};
ghost use Rattle.heap_model.specs.MemorySteps.{reply_of};
ghost use Rattle.heap_model.specs.declared.call.ResourceCall.{ResourceCall};
ghost use Rattle.palm_store.specs.EntryCalls.{data_of_image};
ghost use Rattle.palm_store.specs.Replies.{made_reply, done_or_refused};
ghost use Rattle.resource_db.specs.Resources.{DoesResource};

use crate::resources::resource_at;
use heap_model::{Db, Name, Refusal};
use palm_store::{Access, EntryInfo, EntryKind, Store, open_entries};

/// Makes a resource of `size` zero bytes after all others, and returns the resource's index and the
/// name of its data.
///
/// # Errors
/// - `NoSuchDatabase`: if the store has no database of this number.
/// - `NotResourceDatabase`: if it is a record database.
/// - `ReadOnly`: if the database may only be read.
/// - `TooManyEntries`: if the database has 65,535 resources.
/// - `NotEnoughSpace`: if no slot is free, or the room for the data and one more entry can run out.
pub fn new_resource(
    store: &mut Store,
    db: Db,
    kind: u32,
    id: u16,
    size: u32,
) -> Result<(u32, Name), Refusal>
    ensures does { DoesResource store.old (ResourceCall.New db kind id size)
        (reply_of made_reply result) store.new }
    ensures untouched { IfErr result (λ refusal.
        refusal ≢ Refusal.NotEnoughSpace → store.new ≡ store.old) }
{
    let opened = open_entries(store, db, EntryKind::Resources, Access::Write)?;
    let name = store.entry_new(
        opened,
        opened.entry_count,
        EntryInfo::Resource { kind, id },
        size,
    )?;
    Ok((opened.entry_count, name))
}

/// Resizes the data of a resource to `size` bytes. It keeps its first bytes, and any new bytes are
/// zeros.
///
/// # Errors
/// If it fails, nothing has changed.
/// - `NoSuchDatabase`: if the store has no database of this number.
/// - `NotResourceDatabase`: if it is a record database.
/// - `ReadOnly`: if the database may only be read.
/// - `IndexOutOfRange`: if the database has no resource at the index.
/// - `Lent`: if the data is lent.
/// - `ChunkLocked`: if the data must grow, is locked, and doesn't fit in its place.
/// - `NotEnoughSpace`: if the data must grow, isn't locked, and there is no room for it.
pub fn resize_resource(store: &mut Store, db: Db, index: u32, size: u32) -> Result<(), Refusal>
    ensures does { DoesResource store.old (ResourceCall.Resize db index size)
        (done_or_refused result) store.new }
    ensures unmoved { FitsInPlace store.old.bytes
        (data_of_image store.old.bytes db index) (need size)
        → MovesNothing store.old.bytes store.new.bytes }
    ensures one_stretch { MovesOneStretchAnd store.old.bytes store.new.bytes
        (data_of_image store.old.bytes db index) }
    ensures refused { OnErr result (store.new ≡ store.old) }
{
    let resource = resource_at(store, db, index, Access::Write)?;
    store.entry_resize(resource.item.data, size)?;
    let opened = store.opened_of(db);
    store.count_change(opened);
    Ok(())
}
