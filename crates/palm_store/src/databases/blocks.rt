//! The info blocks of a database: chunks for data that its header names.

ghost use Rattle.std.specs.Prelude.{◌≡◌, ◌<◌, ◌≤◌, length, OnOk, IfOk, IfErr};
ghost use Rattle.heap_model.specs.DatabaseFields.{header_size};
ghost use Rattle.heap_model.specs.Database.{database_in};
ghost use Rattle.heap_model.specs.DatabaseSteps.{info_block, info_block_set, info_block_taken};
ghost use Rattle.heap_model.specs.Refusals.{NoneHolds, FirstBrings};
ghost use Rattle.heap_model.specs.EntrySteps.{raised, LeavesStore, MakesNone};
ghost use Rattle.heap_model.specs.Store.{Accepted, store_of};
ghost use Rattle.palm_store.specs.Databases.{HasNumber};
ghost use Rattle.database_edits.specs.Kept.{OnlyWrites};
ghost use Rattle.palm_store.specs.EntryCalls.{MayBeGiven};
ghost use Rattle.palm_store.specs.EntryInfos.{MayOwn};
ghost use Rattle.palm_store.specs.Opened.{IsOpened};
ghost use Rattle.palm_store.specs.InfoBlocks.{block_of_image, writing_checks};

use crate::entries::InDatabase;
use crate::lookup::{find_opened, header_in};
use database_edits::{OpenDatabase, write_block};
use db_format::{DbAttrs, app_info, attributes, sort_info};
use heap_model::{Db, Name, Refusal, Which};
use mem_manager::{DATA_OWNER, Heap};

/// Finds an info block of a database that may be written. The name is `Name(0)` if there is none.
///
/// # Errors
/// - `NoSuchDatabase`: if no database has the number.
/// - `ReadOnly`: if the database is read-only.
pub(crate) fn find_writable_block(
    heap: &Heap,
    db: Db,
    which: Which,
) -> Result<InDatabase<Name>, Refusal>
    requires accepted { Accepted heap.now.bytes }
    ensures known { OnOk result (HasNumber heap.now.bytes db.0) }
    ensures opened { IfOk result (λ found. IsOpened heap.now.bytes found.opened) }
    ensures db { IfOk result (λ found. found.opened.db ≡ db) }
    ensures is { IfOk result (λ found. found.item.0 ≡ block_of_image heap.now.bytes db which) }
    ensures passes { OnOk result (NoneHolds (writing_checks heap.now.bytes db)) }
    ensures refused { IfErr result (FirstBrings (writing_checks heap.now.bytes db)) }
{
    let opened = find_opened(heap, db)?;
    let header = header_in(heap, opened);
    if DbAttrs(attributes(header)).is_read_only() {
        return Err(Refusal::ReadOnly);
    }
    Ok(InDatabase {
        opened,
        item: Name(block_in(header, which)),
    })
}

/// Returns the slot of an info block in the bytes of a database, or 0.
pub(crate) fn block_in(body: &[u8], which: Which) -> u32
    requires { header_size ≤ length body.now }
    ensures { result ≡ info_block which (database_in body.now) }
{
    match which {
        Which::App => app_info(body),
        Which::Sort => sort_info(body),
    }
}

/// Makes a movable chunk of a caller's an info block of a database that doesn't have this block.
/// The chunk keeps its locks. The database counts the call.
pub(crate) fn give_block(heap: &mut Heap, opened: OpenDatabase, which: Which, name: Name)
    requires accepted { Accepted heap.old.bytes }
    requires opened { IsOpened heap.old.bytes opened }
    requires none { block_of_image heap.old.bytes opened.db which ≡ 0 }
    requires given { MayBeGiven heap.old.bytes name.0 }
    ensures given { LeavesStore heap.old.bytes heap.new.bytes
        (raised (info_block_set (store_of heap.old.bytes) opened.db which name.0) opened.db) }
    ensures none_made { MakesNone heap.old.bytes heap.new.bytes }
    ensures kept { OnlyWrites heap.old heap.new }
{
    write_block(heap, opened, which, name.0);
    heap.sys_set_owner(name, DATA_OWNER);
}

/// Takes an info block from a database, and gives its chunk to an owner. The chunk keeps its locks.
/// The database counts the call.
pub(crate) fn take_block(heap: &mut Heap, found: InDatabase<Name>, which: Which, owner: u8)
    requires accepted { Accepted heap.old.bytes }
    requires opened { IsOpened heap.old.bytes found.opened }
    requires is { found.item.0 ≡ block_of_image heap.old.bytes found.opened.db which }
    requires there { 0 < block_of_image heap.old.bytes found.opened.db which }
    requires owner { MayOwn owner }
    ensures taken { LeavesStore heap.old.bytes heap.new.bytes
        (raised (info_block_taken (store_of heap.old.bytes) found.opened.db which owner)
        found.opened.db) }
    ensures none_made { MakesNone heap.old.bytes heap.new.bytes }
    ensures kept { OnlyWrites heap.old heap.new }
{
    write_block(heap, found.opened, which, 0);
    heap.sys_set_owner(found.item, owner);
}
