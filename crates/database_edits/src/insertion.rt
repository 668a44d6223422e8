//! Inserts an entry, as a counted call.

ghost use Rattle.std.specs.Prelude.{◌≡◌, ◌<◌, ◌≤◌, length, OnOk, OnErr, IfErr};
ghost use Rattle.heap_model.specs.Database.{DatabaseHeader};
ghost use Rattle.heap_model.specs.EntrySteps.{seeded_by, most_entries};
ghost use Rattle.heap_model.specs.UniqueIds.{greatest_id, with_seed};
ghost use Rattle.database_edits.specs.Kept.{OnlySlides};
ghost use Rattle.heap_model.specs.Leaving.{database_here};
ghost use Rattle.db_format.specs.EitherEntry.{entry_of, is_resource, HasFittingId};
ghost use Rattle.database_edits.specs.Edits.{Changes, HasKindHere, HasNoRoomForEntry, entry_inserted};
ghost use Rattle.database_edits.specs.Opened.{IsOpenHere};

use crate::bodies::{grow, put_entry, slide_entries};
use crate::headers::{heading_here, put_entry_count, put_modification_number, put_seed};
use crate::opened::OpenDatabase;
use db_format::{DbEntry, SEEDS, entry_offset};
use heap_model::{Name, Refusal};
use mem_manager::Heap;

/// Inserts an entry at an index; the entries from there on move up by one. The ID of a record
/// becomes the seed, and the modification number is raised. The chunk grows, and other chunks may
/// move for it.
///
/// # Errors
///
/// - `NotEnoughSpace`: if there is no room for one more entry. Nothing has changed then.
#[inline(always)]
pub fn insert_entry(
    heap: &mut Heap,
    opened: OpenDatabase,
    index: u16,
    entry: DbEntry,
) -> Result<(), Refusal>
    requires opened { IsOpenHere heap.old.bytes opened }
    requires inside { index ≤ length (database_here heap.old.bytes opened.db.0).entries }
    requires few { length (database_here heap.old.bytes opened.db.0).entries < most_entries }
    requires kind { HasKindHere heap.old.bytes opened.db.0 (is_resource entry) }
    requires id { HasFittingId entry }
    ensures inserted { OnOk result
        (Changes heap.old.bytes heap.new.bytes opened.db.0 (entry_inserted index (entry_of entry))) }
    ensures no_room { OnErr result (HasNoRoomForEntry heap.old.bytes opened.db.0 (is_resource entry)) }
    ensures refusal { IfErr result (λ refusal. refusal ≡ Refusal.NotEnoughSpace) }
    ensures refused { OnErr result (heap.new ≡ heap.old) }
    ensures kept { OnlySlides heap.old heap.new }
{
    let heading = heading_here(heap, opened);
    let count = opened.entry_count as u16;
    let resources = entry.is_resource();
    grow(heap, opened, entry_offset(resources, count + 1) as u32)?;
    let grown = OpenDatabase {
        chunk: heap.sys_find(Name(opened.db.0)),
        ..opened
    };
    slide_entries(heap, grown, index, count, index + 1, resources);
    put_entry(heap, grown, index, entry, resources);
    put_entry_count(heap, grown, count + 1);
    put_seed(heap, grown, seed_after(heading.seed, entry));
    put_modification_number(heap, grown, heading.modification_number.wrapping_add(1));
    Ok(())
}

/// Returns the field of the seed after an entry was inserted.
fn seed_after(field: u32, entry: DbEntry) -> u32
    requires { HasFittingId entry }
    ensures { (header : DatabaseHeader) → header.seed ≡ field
        → seeded_by (entry_of entry) header ≡ record header { seed = result } }
{
    match entry {
        DbEntry::Record(record) => seeded(field, record.id),
        DbEntry::Resource(_) => field,
    }
}

/// Returns the field of the seed with another seed. The bits above it are as they were.
fn seeded(field: u32, seed: u32) -> u32
    requires { seed ≤ greatest_id }
    ensures { result ≡ with_seed field seed }
{
    field / SEEDS * SEEDS + seed
}
