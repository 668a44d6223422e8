//! A new database: its slot in the directory, and its header.

ghost use Rattle.std.specs.Prelude.{◌≡◌, ◌<◌, ◌≤◌, ◌+◌, ◌⊎◌, length, replicate, IfOk, IfErr, OnOk, OnErr, ◌*◌};
ghost use Rattle.database_edits.specs.Kept.{OnlySlides};
ghost use Rattle.heap_model.specs.Bytes.{u32_bytes};
ghost use Rattle.heap_model.specs.Chunk.{need};
ghost use Rattle.heap_model.specs.Heap.{HeapAccepted, directory_of};
ghost use Rattle.heap_model.specs.Reading.{held};
ghost use Rattle.heap_model.specs.Space.{ShortFor, free_slots, rooms};
ghost use Rattle.heap_model.specs.DatabaseFields.{header_size};
ghost use Rattle.heap_model.specs.Leaving.{Leaves};
ghost use Rattle.heap_model.specs.Rooms.{Stuck};
ghost use Rattle.heap_model.specs.Store.{Accepted, directory_bytes, listed_size, most_databases};
ghost use Rattle.heap_model.specs.DatabaseSteps.{empty_database, create_parts, create_slots};
ghost use Rattle.mem_manager.specs.Lookup.{HasNoRoomFor};
ghost use Rattle.db_format.specs.Headers.{IsHeaderOf};
ghost use Rattle.palm_store.specs.Directory.{ListsLast, ListsNew, HasNoRoomToList};

use crate::lookup::DIRECTORY_WORD_SIZE;
use bitflags::Flags;
use byteorder::{BigEndian, ByteOrder};
use db_format::{DATABASE_HEADER_SIZE, DbAttrs, DbHeader, NameField};
use heap_model::{Name, Refusal};
use mem_manager::{Heap, MANAGERS_OWNER};

/// Returns the bytes of a slot, as the directory has them.
fn slot_bytes(slot: Name) -> [u8; 4]
    ensures { result ≡ u32_bytes slot.0 }
{
    let mut bytes = [0; DIRECTORY_WORD_SIZE];
    BigEndian::write_u32(&mut bytes, slot.0);
    bytes
}

/// Makes the directory, with one slot.
///
/// # Errors
/// - `NotEnoughSpace`: if there is no room. Nothing has changed then.
fn begin_directory(heap: &mut Heap, slot: Name) -> Result<(), Refusal>
    requires heap { HeapAccepted heap.old.bytes }
    requires none { directory_of heap.old.bytes ≡ 0 }
    ensures lists { OnOk result (ListsLast heap.old.bytes heap.new.bytes slot.0) }
    ensures no_room { OnErr result (HasNoRoomFor heap.old.bytes DIRECTORY_WORD_SIZE) }
    ensures refusal { IfErr result (λ refusal. refusal ≡ Refusal.NotEnoughSpace) }
    ensures refused { OnErr result (heap.new ≡ heap.old) }
    ensures kept { OnlySlides heap.old heap.new }
{
    let directory = heap.sys_new(DIRECTORY_WORD_SIZE as u32, MANAGERS_OWNER)?;
    let chunk = heap.sys_find(directory);
    heap.sys_write(directory, chunk, 0, &slot_bytes(slot));
    heap.set_directory(directory);
    Ok(())
}

/// Lists a slot after those of the directory.
///
/// # Errors
/// - `NotEnoughSpace`: if there is no room. Nothing has changed then.
fn extend_directory(heap: &mut Heap, slot: Name) -> Result<(), Refusal>
    requires heap { HeapAccepted heap.old.bytes }
    requires some { 0 < directory_of heap.old.bytes }
    requires few { length (directory_bytes heap.old.bytes) ≤ listed_size * most_databases }
    ensures lists { OnOk result (ListsLast heap.old.bytes heap.new.bytes slot.0) }
    ensures no_room { OnErr result (ShortFor heap.old.bytes (directory_of heap.old.bytes)
        (need (length (directory_bytes heap.old.bytes) + DIRECTORY_WORD_SIZE))) }
    ensures refusal { IfErr result (λ refusal. refusal ≡ Refusal.NotEnoughSpace) }
    ensures refused { OnErr result (heap.new ≡ heap.old) }
    ensures kept { OnlySlides heap.old heap.new }
{
    let directory = heap.directory();
    let chunk = heap.sys_find(directory);
    let length = heap.sys_body_found(directory, chunk).len() as u32;
    heap.sys_resize(directory, chunk, length + DIRECTORY_WORD_SIZE as u32)?;
    let grown = heap.sys_find(directory);
    heap.sys_write(directory, grown, length, &slot_bytes(slot));
    Ok(())
}

/// Lists a slot last.
///
/// # Errors
/// - `NotEnoughSpace`: if there is no room. Nothing has changed then.
pub(crate) fn list_last(heap: &mut Heap, slot: Name) -> Result<(), Refusal>
    requires heap { HeapAccepted heap.old.bytes }
    requires few { length (directory_bytes heap.old.bytes) ≤ listed_size * most_databases }
    ensures lists { OnOk result (ListsLast heap.old.bytes heap.new.bytes slot.0) }
    ensures no_room { OnErr result (HasNoRoomToList heap.old.bytes) }
    ensures refusal { IfErr result (λ refusal. refusal ≡ Refusal.NotEnoughSpace) }
    ensures refused { OnErr result (heap.new ≡ heap.old) }
    ensures kept { OnlySlides heap.old heap.new }
{
    if heap.directory().0 == 0 {
        begin_directory(heap, slot)
    } else {
        extend_directory(heap, slot)
    }
}

/// Makes a chunk of zeros for a header, and lists its slot last.
///
/// # Errors
/// - `NotEnoughSpace`: if there is no room. The heap then has the same contents as before.
pub(crate) fn list_new(heap: &mut Heap) -> Result<Name, Refusal>
    requires accepted { Accepted heap.old.bytes }
    ensures lists { IfOk result (λ slot.
        ListsNew heap.old.bytes heap.new.bytes slot.0 (replicate header_size 0)) }
    ensures no_room { OnErr result ((free_slots heap.old.bytes < create_slots heap.old.bytes)
        ⊎ Stuck (rooms heap.old.bytes) (create_parts heap.old.bytes)) }
    ensures refusal { IfErr result (λ refusal. refusal ≡ Refusal.NotEnoughSpace) }
    ensures refused { OnErr result (Leaves heap.old.bytes heap.new.bytes (held heap.old.bytes)) }
    ensures kept { OnlySlides heap.old heap.new }
{
    let slot = heap.sys_new(DATABASE_HEADER_SIZE as u32, MANAGERS_OWNER)?;
    if let Err(refusal) = list_last(heap, slot) {
        let chunk = heap.sys_find(slot);
        heap.sys_free(slot, chunk);
        return Err(refusal);
    }
    Ok(slot)
}

/// Returns the header of a database without entries.
pub(crate) fn empty_header(
    name: NameField,
    kind: u32,
    creator: u32,
    resources: bool,
    date: u32,
) -> DbHeader
    ensures { IsHeaderOf (empty_database name kind creator resources date) result }
{
    let attributes = if resources {
        DbAttrs::RESOURCE
    } else {
        DbAttrs::empty()
    };
    DbHeader {
        name,
        attributes: attributes.bits(),
        version: 0,
        creation_date: date,
        modification_date: date,
        backup_date: 0,
        modification_number: 0,
        app_info: 0,
        sort_info: 0,
        kind,
        creator,
        seed: 0,
        entry_count: 0,
    }
}
