//! Entries that are made.

ghost use Rattle.std.specs.Prelude.{◌≡◌, ◌⊎◌, ℕ, ◌<◌, ◌≤◌, [], ◌∷◌, length, IfOk, OnOk, OnErr, IfErr};
ghost use Rattle.heap_model.specs.Reading.{held};
ghost use Rattle.heap_model.specs.Space.{free_slots, rooms};
ghost use Rattle.heap_model.specs.Rooms.{making, Stuck};
ghost use Rattle.heap_model.specs.Database.{entry_with, EntryFits};
ghost use Rattle.heap_model.specs.Store.{Accepted, store_of};
ghost use Rattle.heap_model.specs.Leaving.{Leaves};
ghost use Rattle.heap_model.specs.EntrySteps.{entry_growth, most_entries, MakesNone};
ghost use Rattle.db_format.specs.EitherEntry.{entry_of, is_resource, HasFittingId};
ghost use Rattle.palm_store.specs.Opened.{IsOpened};
ghost use Rattle.palm_store.specs.EntryInfos.{makes_resource, IsMadeOf};
ghost use Rattle.database_edits.specs.Kept.{OnlySlides};
ghost use Rattle.palm_store.specs.EntryCalls.{entries_of_image, resources_of_image, MayBeGiven};
ghost use Rattle.palm_store.specs.NewEntries.{PutsIn, TakesIn};
ghost use Rattle.palm_store.specs.KnownIds.{StandFree, StandFreeBeside};

use crate::entries::infos::EntryInfo;
use crate::entries::known::KnownIds;
use crate::entries::shapes::with_slot;
use crate::lookup::header_in;
use bitflags::Flags;
use database_edits::{OpenDatabase, insert_entry};
use db_format::{DbEntry, RecordAttrs, RecordEntry, ResourceEntry};
use fresh_ids::free_ids;
use heap_model::{Name, Refusal};
use mem_manager::{DATA_OWNER, Heap};

/// Makes a chunk of zeros for data, and puts an entry with it in at an index. The database counts
/// the call.
///
/// # Errors
/// - `NotEnoughSpace`: if there is no room. The heap then has the same contents as before.
pub(crate) fn put_in(
    heap: &mut Heap,
    opened: OpenDatabase,
    at: u32,
    entry: DbEntry,
    size: u32,
) -> Result<Name, Refusal>
    requires accepted { Accepted heap.old.bytes }
    requires opened { IsOpened heap.old.bytes opened }
    requires inside { at ≤ length (entries_of_image heap.old.bytes opened.db) }
    requires few { length (entries_of_image heap.old.bytes opened.db) < most_entries }
    requires kind { is_resource entry ≡ resources_of_image heap.old.bytes opened.db }
    requires id { HasFittingId entry }
    ensures puts { IfOk result (λ name. PutsIn heap.old.bytes heap.new.bytes opened.db.0 at
        (entry_with (λ (none : ℕ). name.0) (entry_of entry)) name.0 size) }
    ensures name_fits { IfOk result (λ name. EntryFits (is_resource entry) (entry_of entry)
        → EntryFits (is_resource entry) (entry_with (λ (none : ℕ). name.0) (entry_of entry))) }
    ensures no_room { OnErr result ((free_slots heap.old.bytes < 1)
        ⊎ Stuck (rooms heap.old.bytes)
        (making size ∷ entry_growth heap.old.bytes (store_of heap.old.bytes) opened.db ∷ [])) }
    ensures refusal { IfErr result (λ refusal. refusal ≡ Refusal.NotEnoughSpace) }
    ensures refused { OnErr result (Leaves heap.old.bytes heap.new.bytes (held heap.old.bytes)) }
    ensures kept { OnlySlides heap.old heap.new }
{
    let name = heap.sys_new(size, DATA_OWNER)?;
    let still = OpenDatabase {
        chunk: heap.sys_find(Name(opened.db.0)),
        ..opened
    };
    if let Err(refusal) = insert_entry(heap, still, at as u16, with_slot(entry, name)) {
        let made = heap.sys_find(name);
        heap.sys_free(name, made);
        return Err(refusal);
    }
    Ok(name)
}

/// Puts an entry in at an index, with a caller's chunk for its data. The database counts the call.
///
/// # Errors
/// - `NotEnoughSpace`: if there is no room. Nothing has changed then.
#[inline(always)]
pub(crate) fn take_in(
    heap: &mut Heap,
    opened: OpenDatabase,
    at: u32,
    entry: DbEntry,
    name: Name,
) -> Result<(), Refusal>
    requires accepted { Accepted heap.old.bytes }
    requires opened { IsOpened heap.old.bytes opened }
    requires inside { at ≤ length (entries_of_image heap.old.bytes opened.db) }
    requires few { length (entries_of_image heap.old.bytes opened.db) < most_entries }
    requires kind { is_resource entry ≡ resources_of_image heap.old.bytes opened.db }
    requires id { HasFittingId entry }
    requires given { MayBeGiven heap.old.bytes name.0 }
    ensures takes { OnOk result (TakesIn heap.old.bytes heap.new.bytes opened.db.0 at
        (entry_with (λ (none : ℕ). name.0) (entry_of entry)) name.0) }
    ensures none_made { MakesNone heap.old.bytes heap.new.bytes }
    ensures name_fits { EntryFits (is_resource entry) (entry_of entry)
        → EntryFits (is_resource entry) (entry_with (λ (none : ℕ). name.0) (entry_of entry)) }
    ensures no_room { OnErr result (Stuck (rooms heap.old.bytes)
        (entry_growth heap.old.bytes (store_of heap.old.bytes) opened.db ∷ [])) }
    ensures refusal { IfErr result (λ refusal. refusal ≡ Refusal.NotEnoughSpace) }
    ensures refused { OnErr result (heap.new ≡ heap.old) }
    ensures kept { OnlySlides heap.old heap.new }
{
    insert_entry(heap, opened, at as u16, with_slot(entry, name))?;
    heap.sys_set_owner(name, DATA_OWNER);
    Ok(())
}

/// Returns the new entry, without data yet, and the IDs that are known to be free besides its own.
/// A record gets a fresh ID: the next one, if that is known to be free.
#[inline(always)]
pub(crate) fn new_entry(
    heap: &Heap,
    opened: OpenDatabase,
    entry: EntryInfo<()>,
    known: KnownIds,
) -> (DbEntry, KnownIds)
    requires accepted { Accepted heap.now.bytes }
    requires opened { IsOpened heap.now.bytes opened }
    requires kind { makes_resource entry ≡ resources_of_image heap.now.bytes opened.db }
    requires few { length (entries_of_image heap.now.bytes opened.db) < most_entries }
    requires known { StandFree (store_of heap.now.bytes) known }
    ensures is { IsMadeOf (store_of heap.now.bytes) opened.db entry 0 (entry_of result.0) }
    ensures kind { is_resource result.0 ≡ makes_resource entry }
    ensures id { HasFittingId result.0 }
    ensures fits { EntryFits (is_resource result.0) (entry_of result.0) }
    ensures known { StandFreeBeside (store_of heap.now.bytes) (entry_of result.0) result.1 }
{
    match entry {
        EntryInfo::Record { attributes, .. } => {
            let free = free_ids(header_in(heap, opened), known.of(opened.db));
            let record = RecordEntry {
                attributes: RecordAttrs::from_bits_retain(attributes),
                id: free.first,
                slot: 0,
            };
            let known = KnownIds {
                db: opened.db,
                ids: free.without(free.first),
            };
            (DbEntry::Record(record), known)
        }
        EntryInfo::Resource { kind, id } => {
            let resource = ResourceEntry { kind, id, slot: 0 };
            (DbEntry::Resource(resource), known)
        }
    }
}
