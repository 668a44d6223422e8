//! Moves an entry within its database.

ghost use Rattle.std.specs.Prelude.{◌≡◌, ◌<◌, ◌≤◌, ◌+◌, length};
ghost use Rattle.database_edits.specs.Kept.{OnlySlides};
ghost use Rattle.heap_model.specs.Leaving.{database_here};
ghost use Rattle.database_edits.specs.Edits.{Changes, with_moved};
ghost use Rattle.database_edits.specs.Opened.{IsOpenHere};

use crate::bodies::{entry_here, put_entry, slide_entries};
use crate::opened::OpenDatabase;
use mem_manager::Heap;

/// Moves the entry at index `from` before the one at index `to`, or after the last. `to` is an
/// index from before the move.
pub fn move_entry(heap: &mut Heap, opened: OpenDatabase, from: u16, to: u16)
    requires opened { IsOpenHere heap.old.bytes opened }
    requires from_inside { from < length (database_here heap.old.bytes opened.db.0).entries }
    requires to_inside { to ≤ length (database_here heap.old.bytes opened.db.0).entries }
    ensures respells { Changes heap.old.bytes heap.new.bytes opened.db.0 (with_moved from to) }
    ensures kept { OnlySlides heap.old heap.new }
{
    if to < from {
        move_to_front(heap, opened, from, to);
    } else if from + 1 < to {
        move_to_back(heap, opened, from, to);
    }
}

/// Moves an entry towards the start, to index `to`. The entries from `to` up to it move up by one.
fn move_to_front(heap: &mut Heap, opened: OpenDatabase, from: u16, to: u16)
    requires opened { IsOpenHere heap.old.bytes opened }
    requires inside { from < length (database_here heap.old.bytes opened.db.0).entries }
    requires front { to < from }
    ensures respells { Changes heap.old.bytes heap.new.bytes opened.db.0 (with_moved from to) }
    ensures kept { OnlySlides heap.old heap.new }
{
    let entry = entry_here(heap, opened, from);
    let resources = entry.is_resource();
    slide_entries(heap, opened, to, from, to + 1, resources);
    put_entry(heap, opened, to, entry, resources);
}

/// Moves an entry towards the end, before the one at index `to`. The entries between them move down
/// by one.
fn move_to_back(heap: &mut Heap, opened: OpenDatabase, from: u16, to: u16)
    requires opened { IsOpenHere heap.old.bytes opened }
    requires inside { to ≤ length (database_here heap.old.bytes opened.db.0).entries }
    requires back { from + 1 < to }
    ensures respells { Changes heap.old.bytes heap.new.bytes opened.db.0 (with_moved from to) }
    ensures kept { OnlySlides heap.old heap.new }
{
    let entry = entry_here(heap, opened, from);
    let resources = entry.is_resource();
    slide_entries(heap, opened, from + 1, to, from, resources);
    put_entry(heap, opened, to - 1, entry, resources);
}
