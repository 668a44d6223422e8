//! Reads and writes parts of the bytes of a database in place.

ghost use Rattle.std.specs.Prelude.{◌≡◌, ◌+◌, ◌-◌, ◌<◌, ◌≤◌, length, slice_range, OnOk, OnErr, IfErr};
ghost use Rattle.heap_model.specs.Bytes.{overwritten, sized_to};
ghost use Rattle.heap_model.specs.Chunk.{need};
ghost use Rattle.heap_model.specs.Space.{ShortFor};
ghost use Rattle.heap_model.specs.Database.{entry_bytes};
ghost use Rattle.heap_model.specs.Database as databases;
ghost use Rattle.database_edits.specs.Kept.{OnlyWrites, OnlySlides};
ghost use Rattle.heap_model.specs.Leaving.{database_here};
ghost use Rattle.heap_model.specs.Store.{bytes_under};
ghost use Rattle.db_format.specs.EitherEntry.{entry_of, is_resource, HasFittingId};
ghost use Rattle.db_format.specs.Entries.{WritesEntry};
ghost use Rattle.mem_manager.specs.Lookup.{StandsAs};
ghost use Rattle.database_edits.specs.Edits.{HasKindHere};
ghost use Rattle.database_edits.specs.Managers.{IsManagers, Rebodies};
ghost use Rattle.database_edits.specs.Opened.{IsOpenHere};

use crate::opened::OpenDatabase;
use db_format::{DbEntry, entry_offset};
use heap_model::{Name, Refusal};
use mem_manager::Heap;

/// Writes bytes over those of a database, starting at offset `at`. It is inlined, so that the few
/// bytes of a field or of an entry are written as one number.
#[inline(always)]
pub(crate) fn put_part(heap: &mut Heap, opened: OpenDatabase, at: u32, part: &[u8])
    requires stands { StandsAs heap.old.bytes opened.db.0 opened.chunk }
    requires managers { IsManagers heap.old.bytes opened.db.0 }
    requires inside { at + length part.now ≤ length (bytes_under heap.old.bytes opened.db.0) }
    ensures writes { Rebodies heap.old.bytes heap.new.bytes opened.db.0
        (overwritten (bytes_under heap.old.bytes opened.db.0) at part.now) }
    ensures stands { StandsAs heap.new.bytes opened.db.0 opened.chunk }
    ensures kept { OnlyWrites heap.old heap.new }
{
    heap.sys_write(Name(opened.db.0), opened.chunk, at, part);
}

/// Writes an entry at the place of index `index`, among resources or among records. The place may
/// be that of a new entry.
#[inline(always)]
pub(crate) fn put_entry(
    heap: &mut Heap,
    opened: OpenDatabase,
    index: u16,
    entry: DbEntry,
    resources: bool,
)
    requires stands { StandsAs heap.old.bytes opened.db.0 opened.chunk }
    requires managers { IsManagers heap.old.bytes opened.db.0 }
    requires inside { databases.entry_offset resources (index + 1)
        ≤ length (bytes_under heap.old.bytes opened.db.0) }
    requires kind { is_resource entry ≡ resources }
    requires id { HasFittingId entry }
    ensures entry { WritesEntry resources (entry_of entry) (entry_bytes (entry_of entry)) }
    ensures writes { Rebodies heap.old.bytes heap.new.bytes opened.db.0
        (overwritten (bytes_under heap.old.bytes opened.db.0)
        (databases.entry_offset resources index) (entry_bytes (entry_of entry))) }
    ensures len { length (bytes_under heap.new.bytes opened.db.0) ≡ length (bytes_under heap.old.bytes opened.db.0) }
    ensures stands { StandsAs heap.new.bytes opened.db.0 opened.chunk }
    ensures kept { OnlyWrites heap.old heap.new }
{
    let at = entry_offset(resources, index) as u32;
    match entry {
        DbEntry::Record(record) => put_part(heap, opened, at, &record.to_bytes()),
        DbEntry::Resource(resource) => put_part(heap, opened, at, &resource.to_bytes()),
    }
}

/// Copies the entries of the indices from `first` up to, but not including, `end` to the place of
/// index `to`. The place may be that of a new entry.
#[inline(always)]
pub(crate) fn slide_entries(
    heap: &mut Heap,
    opened: OpenDatabase,
    first: u16,
    end: u16,
    to: u16,
    resources: bool,
)
    requires stands { StandsAs heap.old.bytes opened.db.0 opened.chunk }
    requires managers { IsManagers heap.old.bytes opened.db.0 }
    requires order { first ≤ end }
    requires from_inside { databases.entry_offset resources end
        ≤ length (bytes_under heap.old.bytes opened.db.0) }
    requires to_inside { databases.entry_offset resources (to + (end - first))
        ≤ length (bytes_under heap.old.bytes opened.db.0) }
    ensures slides { Rebodies heap.old.bytes heap.new.bytes opened.db.0
        (overwritten (bytes_under heap.old.bytes opened.db.0) (databases.entry_offset resources to)
        (slice_range (bytes_under heap.old.bytes opened.db.0)
        (databases.entry_offset resources first) (databases.entry_offset resources end))) }
    ensures len { length (bytes_under heap.new.bytes opened.db.0) ≡ length (bytes_under heap.old.bytes opened.db.0) }
    ensures stands { StandsAs heap.new.bytes opened.db.0 opened.chunk }
    ensures kept { OnlySlides heap.old heap.new }
{
    if first >= end {
        return;
    }
    let from = entry_offset(resources, first) as u32;
    let count = entry_offset(resources, end) as u32 - from;
    heap.sys_slide(
        Name(opened.db.0),
        opened.chunk,
        from,
        entry_offset(resources, to) as u32,
        count,
    );
}

/// Grows the chunk of a database to `size` bytes: its own, and zeros after them.
///
/// # Errors
///
/// - `NotEnoughSpace`: if there is no room for the longer chunk. Nothing has changed then.
#[inline(always)]
pub(crate) fn grow(heap: &mut Heap, opened: OpenDatabase, size: u32) -> Result<(), Refusal>
    requires stands { StandsAs heap.old.bytes opened.db.0 opened.chunk }
    requires managers { IsManagers heap.old.bytes opened.db.0 }
    ensures grows { OnOk result (Rebodies heap.old.bytes heap.new.bytes opened.db.0
        (sized_to (bytes_under heap.old.bytes opened.db.0) size)) }
    ensures no_room { OnErr result (ShortFor heap.old.bytes opened.db.0 (need size)) }
    ensures refusal { IfErr result (λ refusal. refusal ≡ Refusal.NotEnoughSpace) }
    ensures refused { OnErr result (heap.new ≡ heap.old) }
    ensures kept { OnlySlides heap.old heap.new }
{
    heap.sys_resize(Name(opened.db.0), opened.chunk, size)
}

/// Shrinks the chunk of a database to its first `size` bytes.
#[inline(always)]
pub(crate) fn shrink(heap: &mut Heap, opened: OpenDatabase, size: u32)
    requires stands { StandsAs heap.old.bytes opened.db.0 opened.chunk }
    requires managers { IsManagers heap.old.bytes opened.db.0 }
    requires inside { size ≤ length (bytes_under heap.old.bytes opened.db.0) }
    ensures shrinks { Rebodies heap.old.bytes heap.new.bytes opened.db.0
        (sized_to (bytes_under heap.old.bytes opened.db.0) size) }
    ensures kept { OnlySlides heap.old heap.new }
{
    heap.sys_resize(Name(opened.db.0), opened.chunk, size)
        .unwrap();
}

/// Returns the entry of an index.
#[inline(always)]
pub(crate) fn entry_here(heap: &Heap, opened: OpenDatabase, index: u16) -> DbEntry
    requires opened { IsOpenHere heap.now.bytes opened }
    requires inside { index < length (database_here heap.now.bytes opened.db.0).entries }
    ensures is { entry_of result ≡ databases.entry_in (bytes_under heap.now.bytes opened.db.0) index }
    ensures kind { HasKindHere heap.now.bytes opened.db.0 (is_resource result) }
    ensures id { HasFittingId result }
{
    DbEntry::read(heap.sys_body_found(Name(opened.db.0), opened.chunk), index)
}
