//! Writes an entry in place of another, or moves an entry, as calls that may be counted.

ghost use Rattle.std.specs.Prelude.{◌≡◌, ◌<◌, ◌≤◌, length};
ghost use Rattle.database_edits.specs.Kept.{OnlyWrites, OnlySlides};
ghost use Rattle.heap_model.specs.Leaving.{database_here};
ghost use Rattle.db_format.specs.EitherEntry.{entry_of, is_resource, HasFittingId};
ghost use Rattle.mem_manager.specs.Lookup.{StandsAs};
ghost use Rattle.database_edits.specs.Edits.{Changes, HasKindHere, entry_written, entry_moved};
ghost use Rattle.database_edits.specs.Opened.{IsOpenHere};

use crate::counting::{count_change, count_change_if};
use crate::opened::OpenDatabase;
use crate::{moving, writing};
use db_format::DbEntry;
use mem_manager::Heap;

/// Writes an entry in place of the one at an index. If `counts` is true, the modification number is
/// raised.
#[inline(always)]
pub fn write_entry(heap: &mut Heap, opened: OpenDatabase, index: u16, entry: DbEntry, counts: bool)
    requires opened { IsOpenHere heap.old.bytes opened }
    requires inside { index < length (database_here heap.old.bytes opened.db.0).entries }
    requires kind { HasKindHere heap.old.bytes opened.db.0 (is_resource entry) }
    requires id { HasFittingId entry }
    ensures written { Changes heap.old.bytes heap.new.bytes opened.db.0
        (entry_written counts index (entry_of entry)) }
    ensures stands { StandsAs heap.new.bytes opened.db.0 opened.chunk }
    ensures kept { OnlyWrites heap.old heap.new }
{
    count_change_if(heap, opened, counts);
    writing::write_entry(heap, opened, index, entry);
}

/// Moves the entry at index `from` before the one at index `to`, or after the last. `to` is an
/// index from before the move. The modification number is raised.
pub fn move_entry(heap: &mut Heap, opened: OpenDatabase, from: u16, to: u16)
    requires opened { IsOpenHere heap.old.bytes opened }
    requires from_inside { from < length (database_here heap.old.bytes opened.db.0).entries }
    requires to_inside { to ≤ length (database_here heap.old.bytes opened.db.0).entries }
    ensures moved { Changes heap.old.bytes heap.new.bytes opened.db.0 (entry_moved from to) }
    ensures kept { OnlySlides heap.old heap.new }
{
    count_change(heap, opened);
    moving::move_entry(heap, opened, from, to);
}
