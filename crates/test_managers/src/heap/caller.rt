//! A caller with a contract of its own, to copy: what follows from the steps of the calls that it
//! makes.

ghost use Rattle.std.specs.Prelude.{[], ◌≡◌, length};
ghost use Rattle.heap_model.specs.Heap.{HeapAccepted, directory_of};

use crate::heap::beside::adopt;
use heap_model::{Name, Refusal};
use mem_manager::Heap;
use std::test::*;
use test_support::{BLANK, equal, image};

/// Makes a movable chunk of owner 1 with a text of up to 31 bytes and a zero byte in it, and
/// returns its name. The heap stays accepted, whatever is refused.
fn new_note(heap: &mut Heap, text: &[u8]) -> Result<Name, Refusal>
    ensures accepted { HeapAccepted heap.new.bytes }
    ensures len { length heap.new.bytes ≡ length heap.old.bytes }
    ensures directory { directory_of heap.new.bytes ≡ directory_of heap.old.bytes }
    ensures lent { heap.new.lents ≡ heap.old.lents }
{
    let name = heap.handle_new(32, 1)?;
    heap.lock(name)?;
    let copied = heap.str_copy(name, 0, text);
    heap.unlock(name)?;
    copied?;
    Ok(name)
}

#[test]
fn a_note_is_made(rt: HostRuntime) -> Result<(), Fail> {
    let mut heap = adopt(image(rt.alloc(), BLANK, "")?)?;
    equal("its name", new_note(&mut heap, b"Hello"), Ok(Name(16)))?;
    equal("it", heap.read(Name(16), 0, 6), Ok(&b"Hello\0"[..]))?;
    equal(
        "a longer one",
        new_note(&mut heap, &[1; 32]),
        Err(Refusal::OutOfBounds),
    )
}
