//! Names the info blocks of a database in its header.

ghost use Rattle.std.specs.Prelude.{◌≡◌};
ghost use Rattle.heap_model.specs.Database.{DatabaseFits};
ghost use Rattle.database_edits.specs.Kept.{OnlyWrites};
ghost use Rattle.heap_model.specs.Leaving.{database_here};
ghost use Rattle.database_edits.specs.Edits.{Changes, with_block};
ghost use Rattle.database_edits.specs.Opened.{IsOpenHere};

use crate::headers::{heading_here, put_info_block, put_modification_number};
use crate::opened::OpenDatabase;
use heap_model::Which;
use mem_manager::Heap;

/// Writes the slot of an info block, or 0 for none, into the header of a database, and raises the
/// modification number. It doesn't look at what the slot contains.
pub fn write_block(heap: &mut Heap, opened: OpenDatabase, which: Which, slot: u32)
    requires opened { IsOpenHere heap.old.bytes opened }
    ensures written { Changes heap.old.bytes heap.new.bytes opened.db.0 (with_block which slot) }
    ensures fits { DatabaseFits (with_block which slot (database_here heap.old.bytes opened.db.0)) }
    ensures kept { OnlyWrites heap.old heap.new }
{
    let heading = heading_here(heap, opened);
    put_info_block(heap, opened, which, slot);
    put_modification_number(heap, opened, heading.modification_number.wrapping_add(1));
}
