//! Counts the changes of a database in its modification number.

ghost use Rattle.std.specs.Prelude.{◌≡◌};
ghost use Rattle.heap_model.specs.Space.{MovesNothing};
ghost use Rattle.database_edits.specs.Kept.{OnlyWrites};
ghost use Rattle.heap_model.specs.Leaving.{database_here};
ghost use Rattle.database_edits.specs.Edits.{Changes, counted, counted_if};
ghost use Rattle.database_edits.specs.Opened.{IsOpenHere};

use crate::headers::{heading_here, put_modification_number};
use crate::opened::OpenDatabase;
use mem_manager::Heap;

/// Counts a change of a database: raises its modification number by 1, modulo 2^32.
#[inline(always)]
pub fn count_change(heap: &mut Heap, opened: OpenDatabase)
    requires opened { IsOpenHere heap.old.bytes opened }
    ensures counted { Changes heap.old.bytes heap.new.bytes opened.db.0 counted }
    ensures opened { IsOpenHere heap.new.bytes opened }
    ensures now { database_here heap.new.bytes opened.db.0 ≡ counted (database_here heap.old.bytes opened.db.0) }
    ensures unmoved { MovesNothing heap.old.bytes heap.new.bytes }
    ensures kept { OnlyWrites heap.old heap.new }
{
    let heading = heading_here(heap, opened);
    put_modification_number(heap, opened, heading.modification_number.wrapping_add(1));
}

/// Counts a change if `counts` is true; otherwise leaves the heap as it is.
#[inline(always)]
pub(crate) fn count_change_if(heap: &mut Heap, opened: OpenDatabase, counts: bool)
    requires opened { IsOpenHere heap.old.bytes opened }
    ensures counted { Changes heap.old.bytes heap.new.bytes opened.db.0 (counted_if counts) }
    ensures opened { IsOpenHere heap.new.bytes opened }
    ensures now { database_here heap.new.bytes opened.db.0
        ≡ counted_if counts (database_here heap.old.bytes opened.db.0) }
    ensures kept { OnlyWrites heap.old heap.new }
{
    if counts {
        count_change(heap, opened);
    }
}
