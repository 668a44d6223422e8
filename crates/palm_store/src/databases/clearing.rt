//! The chunks that a database names: whether one is locked or lent, and all of them freed.

ghost use Rattle.std.specs.Prelude.{◌≡◌, ◌<◌, ◌↔◌, length, slice_index, IsTrue, Any};
ghost use Rattle.heap_model.specs.Lending.{IsLent};
ghost use Rattle.database_edits.specs.Kept.{OnlyWrites};
ghost use Rattle.heap_model.specs.Heap.{HeapAccepted};
ghost use Rattle.heap_model.specs.Reading.{held};
ghost use Rattle.heap_model.specs.Maps.{callers_map};
ghost use Rattle.heap_model.specs.Leaving.{Leaves};
ghost use Rattle.heap_model.specs.Database.{IsSpelled, database_in, data_in};
ghost use Rattle.heap_model.specs.MemorySteps.{Of, IsLocked};
ghost use Rattle.heap_model.specs.Store.{Accepted};
ghost use Rattle.heap_model.specs.StoreWords.{all_gone};
ghost use Rattle.mem_manager.specs.Lookup.{IsMovable, StandsAs};
ghost use Rattle.palm_store.specs.Databases.{named_under};
ghost use Rattle.palm_store.specs.Opened.{IsOpened};

use crate::chunks::free_chunk_of;
use crate::lookup::header_in;
use database_edits::OpenDatabase;
use db_format::{INFO_BLOCKS, app_info, entry_count, entry_slot, has_resources, sort_info};
use heap_model::Name;
use mem_manager::{FIXED_LOCK, Heap};

/// Returns the number of slots of a database: those of its info blocks, and one for each entry.
fn slot_count(body: &[u8]) -> u32
    requires { IsSpelled (database_in body.now) body.now }
    ensures { result ≡ length (data_in (database_in body.now)) }
{
    INFO_BLOCKS as u32 + entry_count(body) as u32
}

/// Returns the slot at an index among those of a database: that of its AppInfo block, that of its
/// SortInfo block, and then those of its entries. It is 0 if there is no chunk.
fn slot_at(body: &[u8], index: u32) -> Name
    requires spelled { IsSpelled (database_in body.now) body.now }
    requires inside { index < length (data_in (database_in body.now)) }
    ensures { result.0 ≡ slice_index (data_in (database_in body.now)) index }
{
    Name(match index {
        0 => app_info(body),
        1 => sort_info(body),
        _ => entry_slot(
            body,
            has_resources(body),
            (index - INFO_BLOCKS as u32) as u16,
        ),
    })
}

/// Returns whether a slot has a locked chunk.
fn is_locked(heap: &Heap, slot: Name) -> bool
    requires heap { HeapAccepted heap.now.bytes }
    requires movable { 0 < slot.0 → IsMovable heap.now.bytes slot.0 }
    ensures { IsTrue result ↔ Of (held heap.now.bytes slot.0) IsLocked }
{
    if slot.0 == 0 {
        return false;
    }
    let locks = heap.sys_locks(slot);
    0 < locks && locks < FIXED_LOCK
}

/// Returns whether a database names a locked chunk.
pub(crate) fn has_locked(heap: &Heap, opened: OpenDatabase) -> bool
    requires accepted { Accepted heap.now.bytes }
    requires opened { IsOpened heap.now.bytes opened }
    ensures { IsTrue result
        ↔ Any (λ name. Of (callers_map heap.now.bytes name) IsLocked)
        (named_under heap.now.bytes opened.db.0) }
{
    let body = header_in(heap, opened);
    for index in 0..slot_count(body) {
        if is_locked(heap, slot_at(body, index)) {
            return true;
        }
    }
    false
}

/// Returns whether a slot has a chunk whose body is lent.
fn is_lent(heap: &Heap, slot: Name) -> bool
    requires heap { HeapAccepted heap.now.bytes }
    requires movable { 0 < slot.0 → IsMovable heap.now.bytes slot.0 }
    ensures { IsTrue result ↔ IsLent heap.now slot.0 }
{
    if slot.0 == 0 {
        return false;
    }
    heap.sys_lends(slot)
}

/// Returns whether a database names a chunk whose body is lent.
pub(crate) fn has_lent(heap: &Heap, opened: OpenDatabase) -> bool
    requires accepted { Accepted heap.now.bytes }
    requires opened { IsOpened heap.now.bytes opened }
    ensures { IsTrue result ↔ Any (IsLent heap.now) (named_under heap.now.bytes opened.db.0) }
{
    if heap.is_whole() {
        return false;
    }
    let body = header_in(heap, opened);
    for index in 0..slot_count(body) {
        if is_lent(heap, slot_at(body, index)) {
            return true;
        }
    }
    false
}

/// Frees all chunks that a database names. None of them is locked. The database's own chunk stays
/// at its place, with its bytes.
pub(crate) fn free_data(heap: &mut Heap, opened: OpenDatabase)
    requires accepted { Accepted heap.old.bytes }
    requires opened { IsOpened heap.old.bytes opened }
    requires unlocked { Any (λ name. Of (callers_map heap.old.bytes name) IsLocked)
        (named_under heap.old.bytes opened.db.0) → ⊥ }
    ensures leaves { Leaves heap.old.bytes heap.new.bytes
        (all_gone (held heap.old.bytes) (named_under heap.old.bytes opened.db.0)) }
    ensures stands { StandsAs heap.new.bytes opened.db.0 opened.chunk }
    ensures kept { OnlyWrites heap.old heap.new }
{
    let count = slot_count(header_in(heap, opened));
    for index in 0..count {
        let slot = slot_at(heap.sys_body_found(Name(opened.db.0), opened.chunk), index);
        free_chunk_of(heap, slot);
    }
}
