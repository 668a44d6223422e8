//! Removes an entry, as a counted call.

ghost use Rattle.std.specs.Prelude.{◌≡◌, ◌<◌, length};
ghost use Rattle.database_edits.specs.Kept.{OnlySlides};
ghost use Rattle.heap_model.specs.Leaving.{database_here};
ghost use Rattle.database_edits.specs.Edits.{Changes, entry_removed};
ghost use Rattle.database_edits.specs.Opened.{IsOpenHere};

use crate::bodies::{shrink, slide_entries};
use crate::headers::{heading_here, put_entry_count, put_modification_number};
use crate::opened::OpenDatabase;
use db_format::entry_offset;
use mem_manager::Heap;

/// Removes the entry at an index; those after it move down by one. The modification number is
/// raised.
#[inline(always)]
pub fn remove_entry(heap: &mut Heap, opened: OpenDatabase, index: u16)
    requires opened { IsOpenHere heap.old.bytes opened }
    requires inside { index < length (database_here heap.old.bytes opened.db.0).entries }
    ensures removed { Changes heap.old.bytes heap.new.bytes opened.db.0 (entry_removed index) }
    ensures kept { OnlySlides heap.old heap.new }
{
    let heading = heading_here(heap, opened);
    let count = opened.entry_count as u16;
    let left = count - 1;
    slide_entries(heap, opened, index + 1, count, index, heading.resources);
    put_entry_count(heap, opened, left);
    put_modification_number(heap, opened, heading.modification_number.wrapping_add(1));
    shrink(heap, opened, entry_offset(heading.resources, left) as u32);
}
