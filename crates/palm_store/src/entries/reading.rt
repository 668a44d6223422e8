//! Reading of entries.

ghost use Rattle.std.specs.Prelude.{◌≡◌, ◌<◌, Some, length, slice_get};
ghost use Rattle.heap_model.specs.Database.{has_resources, EntryFits};
ghost use Rattle.heap_model.specs.Store.{Accepted};
ghost use Rattle.heap_model.specs.Leaving.{database_here};
ghost use Rattle.db_format.specs.EitherEntry.{entry_of, is_resource, HasFittingId};
ghost use Rattle.palm_store.specs.EntryCalls.{entries_of_image};
ghost use Rattle.palm_store.specs.Opened.{IsOpened};

use crate::lookup::header_in;
use database_edits::OpenDatabase;
use db_format::DbEntry;
use mem_manager::Heap;

/// Returns the entry at an index, as the database has it.
#[inline(always)]
pub(crate) fn read_entry(heap: &Heap, opened: OpenDatabase, index: u32) -> DbEntry
    requires accepted { Accepted heap.now.bytes }
    requires opened { IsOpened heap.now.bytes opened }
    requires inside { index < length (entries_of_image heap.now.bytes opened.db) }
    ensures is { slice_get (database_here heap.now.bytes opened.db.0).entries index
        ≡ Some (entry_of result) }
    ensures kind { is_resource result
        ≡ has_resources (database_here heap.now.bytes opened.db.0).header.attributes }
    ensures id { HasFittingId result }
    ensures fits { EntryFits (is_resource result) (entry_of result) }
{
    DbEntry::read(header_in(heap, opened), index as u16)
}
