//! A whole new database: its chunks are made and its slot is listed, and then its header and
//! entries are written.

ghost use Rattle.std.specs.Prelude.{◌≡◌, ◌+◌, ◌≤◌, ◌++◌, [], ◌∷◌, ℕ, List, length, take, drop, replicate, IfOk, IfErr, OnOk, OnErr, All, ◌*◌};
ghost use Rattle.std.specs.List.{flat_map};
ghost use Rattle.database_edits.specs.Kept.{OnlyWrites, OnlySlides};
ghost use Rattle.heap_model.specs.Chunk.{managers_owner};
ghost use Rattle.heap_model.specs.Heap.{HeapAccepted};
ghost use Rattle.heap_model.specs.Reading.{held};
ghost use Rattle.heap_model.specs.DatabaseFields.{header_size};
ghost use Rattle.heap_model.specs.Database.{DatabaseFits, EntryFits, entry_bytes, has_resources, spelled};
ghost use Rattle.heap_model.specs.Database as databases;
ghost use Rattle.heap_model.specs.Store.{Accepted, bytes_under, owner_under, directory_bytes, listed_size, most_databases};
ghost use Rattle.heap_model.specs.EntrySteps.{most_entries};
ghost use Rattle.heap_model.specs.Leaving.{Leaves, rewritten};
ghost use Rattle.heap_model.specs.FileSteps.{makings, listing_part, listing_slots, whole_parts, whole_slots};
ghost use Rattle.mem_manager.specs.Lookup.{StandsAs};
ghost use Rattle.palm_store.specs.WholeDatabases.{data_sizes, numbers_in, RunsOut, MakesAndLists, ListsWhole, CanBeWhole, CanCome, entries_named, whole_database, whole_size};

use crate::databases::creating::list_last;
use crate::databases::gaining::{free_named, make_data};
use crate::databases::whole::{BlockSizes, named_entry, named_header};
use crate::entries::EntryInfo;
use bitflags::Flags;
use db_format::{DbAttrs, INFO_BLOCKS, NameField, entry_offset};
use heap_model::{DbInfo, Name, Refusal};
use mem_manager::{Found, Heap, MANAGERS_OWNER};

/// Makes a chunk of zeros for each info block and the data of each entry, and lists a slot last.
///
/// # Errors
/// - `NotEnoughSpace`: if there is no room. The heap then has the same contents as before.
fn make_data_and_list(
    heap: &mut Heap,
    slot: Name,
    blocks: BlockSizes,
    entries: &[(EntryInfo, Option<u32>)],
    names: &mut [Name],
) -> Result<(), Refusal>
    requires heap { HeapAccepted heap.old.bytes }
    requires few { length (directory_bytes heap.old.bytes) ≤ listed_size * most_databases }
    requires names { length names.old ≡ 2 + length entries.now }
    ensures lists { OnOk result (MakesAndLists heap.old.bytes heap.new.bytes slot.0
        (data_sizes blocks entries.now) (numbers_in names.new)) }
    ensures names { length names.new ≡ length names.old }
    ensures no_room { OnErr result (RunsOut heap.old.bytes
        (length (makings (data_sizes blocks entries.now)) + listing_slots heap.old.bytes)
        (makings (data_sizes blocks entries.now) ++ listing_part heap.old.bytes ∷ [])) }
    ensures refusal { IfErr result (λ refusal. refusal ≡ Refusal.NotEnoughSpace) }
    ensures refused { OnErr result (Leaves heap.old.bytes heap.new.bytes (held heap.old.bytes)) }
    ensures kept { OnlySlides heap.old heap.new }
{
    make_data(heap, blocks, entries, names)?;
    if let Err(refusal) = list_last(heap, slot) {
        free_named(heap, names);
        return Err(refusal);
    }
    Ok(())
}

/// Makes the chunks of a database, of zeros: that of its header, with `size` bytes, and those of
/// its data. It lists the header's slot last, and returns it.
///
/// # Errors
/// - `NotEnoughSpace`: if there is no room. The heap then has the same contents as before.
pub(crate) fn list_whole(
    heap: &mut Heap,
    size: u32,
    blocks: BlockSizes,
    entries: &[(EntryInfo, Option<u32>)],
    names: &mut [Name],
) -> Result<Name, Refusal>
    requires accepted { Accepted heap.old.bytes }
    requires names { length names.old ≡ 2 + length entries.now }
    ensures lists { IfOk result (λ slot. ListsWhole heap.old.bytes heap.new.bytes slot.0
        (replicate size 0) (data_sizes blocks entries.now) (numbers_in names.new)) }
    ensures names { length names.new ≡ length names.old }
    ensures no_room { OnErr result (RunsOut heap.old.bytes
        (whole_slots heap.old.bytes (data_sizes blocks entries.now))
        (whole_parts heap.old.bytes size (data_sizes blocks entries.now))) }
    ensures refusal { IfErr result (λ refusal. refusal ≡ Refusal.NotEnoughSpace) }
    ensures refused { OnErr result (Leaves heap.old.bytes heap.new.bytes (held heap.old.bytes)) }
    ensures kept { OnlySlides heap.old heap.new }
{
    let slot = heap.sys_new(size, MANAGERS_OWNER)?;
    if let Err(refusal) = make_data_and_list(heap, slot, blocks, entries, names) {
        let chunk = heap.sys_find(slot);
        heap.sys_free(slot, chunk);
        return Err(refusal);
    }
    Ok(slot)
}

/// Writes the given entries after the header, each with the name of its data. The chunk is one of
/// the manager's, and has room for exactly these entries.
fn write_entries(
    heap: &mut Heap,
    slot: Name,
    chunk: Found,
    resources: bool,
    entries: &[(EntryInfo, Option<u32>)],
    names: &[Name],
)
    requires stands { StandsAs heap.old.bytes slot.0 chunk }
    requires heap { HeapAccepted heap.old.bytes }
    requires owner { owner_under heap.old.bytes slot.0 ≡ managers_owner }
    requires body { length (bytes_under heap.old.bytes slot.0)
        ≡ databases.entry_offset resources (length entries.now) }
    requires entries { All (CanCome resources) entries.now }
    requires few { length entries.now ≤ most_entries }
    requires names { length names.now ≡ 2 + length entries.now }
    ensures written { Leaves heap.old.bytes heap.new.bytes (rewritten (held heap.old.bytes) slot.0
        (take header_size (bytes_under heap.old.bytes slot.0)
        ++ flat_map entry_bytes (entries_named entries.now (drop 2 (numbers_in names.now))))) }
    ensures fits { All (EntryFits resources)
        (entries_named entries.now (drop 2 (numbers_in names.now))) }
    ensures kept { OnlyWrites heap.old heap.new }
{
    for index in 0..entries.len() {
        let entry = named_entry(entries[index], names[index + INFO_BLOCKS], resources);
        let at = entry_offset(resources, index as u16) as u32;
        heap.sys_write(slot, chunk, at, entry.to_bytes().as_slice());
    }
}

/// Writes the given header and entries, with the names of the data. The chunk is one of the
/// manager's, and has room for exactly these.
pub(crate) fn write_whole(
    heap: &mut Heap,
    slot: Name,
    info: &DbInfo,
    entries: &[(EntryInfo, Option<u32>)],
    names: &[Name],
)
    requires heap { HeapAccepted heap.old.bytes }
    requires owner { owner_under heap.old.bytes slot.0 ≡ managers_owner }
    requires body { length (bytes_under heap.old.bytes slot.0) ≡ whole_size info.now entries.now }
    requires whole { CanBeWhole info.now entries.now }
    requires names { length names.now ≡ 2 + length entries.now }
    ensures written { Leaves heap.old.bytes heap.new.bytes (rewritten (held heap.old.bytes) slot.0
        (spelled (whole_database info.now entries.now (numbers_in names.now)))) }
    ensures fits { DatabaseFits (whole_database info.now entries.now (numbers_in names.now)) }
    ensures kept { OnlyWrites heap.old heap.new }
{
    let name = NameField::of_name(info.name.as_slice()).unwrap();
    let header = named_header(info, name, names[0], names[1]);
    let chunk = heap.sys_find(slot);
    heap.sys_write(slot, chunk, 0, &header.to_bytes());
    let resources = DbAttrs(info.attributes).has_resources();
    write_entries(heap, slot, chunk, resources, entries, names);
}
