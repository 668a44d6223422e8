//! Writes an entry in place of another.

ghost use Rattle.std.specs.Prelude.{◌≡◌, ◌<◌, length};
ghost use Rattle.database_edits.specs.Kept.{OnlyWrites};
ghost use Rattle.heap_model.specs.Leaving.{database_here};
ghost use Rattle.db_format.specs.EitherEntry.{entry_of, is_resource, HasFittingId};
ghost use Rattle.db_format.specs.Entries.{with_entry};
ghost use Rattle.mem_manager.specs.Lookup.{StandsAs};
ghost use Rattle.database_edits.specs.Edits.{Changes, HasKindHere};
ghost use Rattle.database_edits.specs.Opened.{IsOpenHere};

use crate::bodies::put_entry;
use crate::opened::OpenDatabase;
use db_format::DbEntry;
use mem_manager::Heap;

/// Writes an entry in place of the one at an index.
#[inline(always)]
pub fn write_entry(heap: &mut Heap, opened: OpenDatabase, index: u16, entry: DbEntry)
    requires opened { IsOpenHere heap.old.bytes opened }
    requires inside { index < length (database_here heap.old.bytes opened.db.0).entries }
    requires kind { HasKindHere heap.old.bytes opened.db.0 (is_resource entry) }
    requires id { HasFittingId entry }
    ensures respells { Changes heap.old.bytes heap.new.bytes opened.db.0
        (λ database. with_entry database index (entry_of entry)) }
    ensures stands { StandsAs heap.new.bytes opened.db.0 opened.chunk }
    ensures kept { OnlyWrites heap.old heap.new }
{
    put_entry(heap, opened, index, entry, entry.is_resource());
}
