//! Reads and writes the fields of a header that edits need, in place.

ghost use Rattle.heap_model.specs.Space.{MovesNothing};
ghost use Rattle.database_edits.specs.Kept.{OnlyWrites};
ghost use Rattle.heap_model.specs.Leaving.{database_here};
ghost use Rattle.db_format.specs.Headers.{HasModificationNumber, HasSeed, HasEntryCount, HasInfoBlock};
ghost use Rattle.database_edits.specs.Managers.{PutsHeader};
ghost use Rattle.database_edits.specs.Headings.{IsHeading};
ghost use Rattle.database_edits.specs.Opened.{IsOpenHere, HasHeaderRoom};

use crate::opened::OpenDatabase;
use db_format::{
    ENTRY_COUNT_AT, MODIFICATION_NUMBER_AT, SEED_AT, entry_count_bytes, has_resources,
    info_block_at, info_block_bytes, modification_number, modification_number_bytes, seed,
    seed_bytes,
};
use heap_model::{Name, Which};
use mem_manager::Heap;

/// The fields of a database's header that edits need.
#[derive(Clone, Copy)]
pub(crate) struct Heading {
    /// Whether the entries are resources; otherwise they are records.
    pub resources: bool,
    pub modification_number: u32,
    /// The field of the seed, including the bits above the seed.
    pub seed: u32,
}

/// Returns the heading of a database.
#[inline(always)]
pub(crate) fn heading_here(heap: &Heap, opened: OpenDatabase) -> Heading
    requires opened { IsOpenHere heap.now.bytes opened }
    ensures { IsHeading result (database_here heap.now.bytes opened.db.0) }
{
    let body = heap.sys_body_found(Name(opened.db.0), opened.chunk);
    Heading {
        resources: has_resources(body),
        modification_number: modification_number(body),
        seed: seed(body),
    }
}

/// Writes the modification number into a header.
#[inline(always)]
pub(crate) fn put_modification_number(heap: &mut Heap, opened: OpenDatabase, number: u32)
    requires header { HasHeaderRoom heap.old.bytes opened }
    ensures puts { PutsHeader heap.old.bytes heap.new.bytes opened.db.0 (HasModificationNumber number) }
    ensures unmoved { MovesNothing heap.old.bytes heap.new.bytes }
    ensures header { HasHeaderRoom heap.new.bytes opened }
    ensures kept { OnlyWrites heap.old heap.new }
{
    let bytes = modification_number_bytes(number);
    heap.sys_write(
        Name(opened.db.0),
        opened.chunk,
        MODIFICATION_NUMBER_AT as u32,
        &bytes,
    );
}

/// Writes the field of the seed into a header.
#[inline(always)]
pub(crate) fn put_seed(heap: &mut Heap, opened: OpenDatabase, seed: u32)
    requires header { HasHeaderRoom heap.old.bytes opened }
    ensures puts { PutsHeader heap.old.bytes heap.new.bytes opened.db.0 (HasSeed seed) }
    ensures header { HasHeaderRoom heap.new.bytes opened }
    ensures kept { OnlyWrites heap.old heap.new }
{
    let bytes = seed_bytes(seed);
    heap.sys_write(Name(opened.db.0), opened.chunk, SEED_AT as u32, &bytes);
}

/// Writes the number of entries into a header.
#[inline(always)]
pub(crate) fn put_entry_count(heap: &mut Heap, opened: OpenDatabase, count: u16)
    requires header { HasHeaderRoom heap.old.bytes opened }
    ensures puts { PutsHeader heap.old.bytes heap.new.bytes opened.db.0 (HasEntryCount count) }
    ensures header { HasHeaderRoom heap.new.bytes opened }
    ensures kept { OnlyWrites heap.old heap.new }
{
    let bytes = entry_count_bytes(count);
    heap.sys_write(
        Name(opened.db.0),
        opened.chunk,
        ENTRY_COUNT_AT as u32,
        &bytes,
    );
}

/// Writes the slot of an info block, or 0 for none, into a header.
pub(crate) fn put_info_block(heap: &mut Heap, opened: OpenDatabase, which: Which, slot: u32)
    requires header { HasHeaderRoom heap.old.bytes opened }
    ensures puts { PutsHeader heap.old.bytes heap.new.bytes opened.db.0 (HasInfoBlock which slot) }
    ensures header { HasHeaderRoom heap.new.bytes opened }
    ensures kept { OnlyWrites heap.old heap.new }
{
    let bytes = info_block_bytes(slot);
    heap.sys_write(
        Name(opened.db.0),
        opened.chunk,
        info_block_at(which) as u32,
        &bytes,
    );
}
