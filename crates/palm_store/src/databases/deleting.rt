//! A deleted database: its slot in the directory.

ghost use Rattle.std.specs.Prelude.{◌≡◌, ◌<◌, ◌≤◌, ◌+◌, ◌*◌, length};
ghost use Rattle.database_edits.specs.Kept.{OnlySlides};
ghost use Rattle.heap_model.specs.Heap.{HeapAccepted, directory_of};
ghost use Rattle.heap_model.specs.Store.{directory_bytes, listed_size, most_databases};
ghost use Rattle.palm_store.specs.Directory.{Unlists};

use crate::lookup::DIRECTORY_WORD_SIZE;
use mem_manager::Heap;

/// Takes the slot at an index out of the directory. The slots after it move one place towards the
/// start.
pub(crate) fn unlist(heap: &mut Heap, index: u32)
    requires heap { HeapAccepted heap.old.bytes }
    requires some { 0 < directory_of heap.old.bytes }
    requires few { length (directory_bytes heap.old.bytes) ≤ listed_size * most_databases }
    requires inside { DIRECTORY_WORD_SIZE * index + DIRECTORY_WORD_SIZE ≤ length (directory_bytes heap.old.bytes) }
    ensures unlists { Unlists heap.old.bytes heap.new.bytes index }
    ensures kept { OnlySlides heap.old heap.new }
{
    let directory = heap.directory();
    let chunk = heap.sys_find(directory);
    let length = heap.sys_body_found(directory, chunk).len() as u32;
    let at = DIRECTORY_WORD_SIZE as u32 * index;
    let behind = at + DIRECTORY_WORD_SIZE as u32;
    heap.sys_slide(directory, chunk, behind, at, length - behind);
    heap.sys_resize(directory, chunk, length - DIRECTORY_WORD_SIZE as u32)
        .unwrap();
}
