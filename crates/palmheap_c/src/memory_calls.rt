//! Calls of the memory manager on an open store (Palm OS Programmer's API Reference, "Memory
//! Manager"). The contract of each function is the step of the abstract store for its call.

ghost use Rattle.std.specs.Prelude.{◌≡◌, ◌≢◌};
ghost use Rattle.heap_model.specs.declared.call.Call as calls;
ghost use Rattle.heap_model.specs.declared.call.MemoryCall.{MemoryCall};
ghost use Rattle.heap_model.specs.declared.call.Reply.{Reply};
ghost use Rattle.palmheap_c.specs.Calls.{DoesInC, DoesAlways, as_name, as_place};

use crate::calls::refused;
use crate::kept::Kept;
use heap_model::{Name, Place};

/// Makes a movable chunk of `size` zeros for an owner, 1 to 14. Sets `name` to its name.
///
/// # Errors
/// The refusals 7, 8, in this order.
#[unsafe(no_mangle)]
pub extern "C" fn palmheap_MemHandleNew(
    store: &mut Kept,
    size: u32,
    owner: u8,
    name: &mut u32,
) -> u32
    ensures does { DoesInC store.old.store (calls.Call.Memory (MemoryCall.HandleNew size owner))
        (Reply.Named (as_name name.new)) result store.new.store }
    ensures left { result ≢ 0 → name.new ≡ name.old }
{
    match store.as_mut().handle_new(size, owner) {
        Ok(answer) => {
            *name = answer.0;
            0
        }
        Err(refusal) => refused(refusal),
    }
}

/// Makes a fixed chunk of `size` zeros for an owner, 1 to 14. Sets `name` to its name.
///
/// # Errors
/// The refusals 7, 8, in this order.
#[unsafe(no_mangle)]
pub extern "C" fn palmheap_MemPtrNew(store: &mut Kept, size: u32, owner: u8, name: &mut u32) -> u32
    ensures does { DoesInC store.old.store (calls.Call.Memory (MemoryCall.PtrNew size owner))
        (Reply.Named (as_name name.new)) result store.new.store }
    ensures left { result ≢ 0 → name.new ≡ name.old }
{
    match store.as_mut().ptr_new(size, owner) {
        Ok(answer) => {
            *name = answer.0;
            0
        }
        Err(refusal) => refused(refusal),
    }
}

/// Frees a chunk that has no lock, or is fixed.
///
/// # Errors
/// The refusals 1, 2, 3, 27, in this order.
#[unsafe(no_mangle)]
pub extern "C" fn palmheap_MemChunkFree(store: &mut Kept, name: u32) -> u32
    ensures does { DoesInC store.old.store (calls.Call.Memory (MemoryCall.Free (as_name name)))
        Reply.Done result store.new.store }
{
    match store.as_mut().free(Name(name)) {
        Ok(()) => 0,
        Err(refusal) => refused(refusal),
    }
}

/// Adds a lock to a movable chunk. Sets `place` to the offset of its body in the image, and `count`
/// to the number of its locks.
///
/// # Errors
/// The refusals 1, 6, 5, in this order.
#[unsafe(no_mangle)]
pub extern "C" fn palmheap_MemHandleLock(
    store: &mut Kept,
    name: u32,
    place: &mut u32,
    count: &mut u8,
) -> u32
    ensures does { DoesInC store.old.store (calls.Call.Memory (MemoryCall.Lock (as_name name)))
        (Reply.Locked (as_place place.new) count.new) result store.new.store }
    ensures left_place { result ≢ 0 → place.new ≡ place.old }
    ensures left_count { result ≢ 0 → count.new ≡ count.old }
{
    match store.as_mut().lock(Name(name)) {
        Ok(answer) => {
            *place = answer.place.0;
            *count = answer.count;
            0
        }
        Err(refusal) => refused(refusal),
    }
}

/// Removes a lock from a movable chunk. Sets `count` to the number of locks left.
///
/// # Errors
/// The refusals 1, 6, 4, 27, in this order.
#[unsafe(no_mangle)]
pub extern "C" fn palmheap_MemHandleUnlock(store: &mut Kept, name: u32, count: &mut u8) -> u32
    ensures does { DoesInC store.old.store (calls.Call.Memory (MemoryCall.Unlock (as_name name)))
        (Reply.Number count.new) result store.new.store }
    ensures left { result ≢ 0 → count.new ≡ count.old }
{
    match store.as_mut().unlock(Name(name)) {
        Ok(answer) => {
            *count = answer;
            0
        }
        Err(refusal) => refused(refusal),
    }
}

/// Sets `size` to the size of a chunk in bytes.
///
/// # Errors
/// The refusal 1.
#[unsafe(no_mangle)]
pub extern "C" fn palmheap_MemHandleSize(store: &mut Kept, name: u32, size: &mut u32) -> u32
    ensures does { DoesInC store.old.store (calls.Call.Memory (MemoryCall.Size (as_name name)))
        (Reply.Number size.new) result store.new.store }
    ensures left { result ≢ 0 → size.new ≡ size.old }
    ensures same { store.new.store ≡ store.old.store }
{
    match store.as_mut().size(Name(name)) {
        Ok(answer) => {
            *size = answer;
            0
        }
        Err(refusal) => refused(refusal),
    }
}

/// Sets `owner` to the owner of a chunk, or to 15 if a database owns it.
///
/// # Errors
/// The refusal 1.
#[unsafe(no_mangle)]
pub extern "C" fn palmheap_MemHandleOwner(store: &mut Kept, name: u32, owner: &mut u8) -> u32
    ensures does { DoesInC store.old.store (calls.Call.Memory (MemoryCall.Owner (as_name name)))
        (Reply.Number owner.new) result store.new.store }
    ensures left { result ≢ 0 → owner.new ≡ owner.old }
    ensures same { store.new.store ≡ store.old.store }
{
    match store.as_mut().owner(Name(name)) {
        Ok(answer) => {
            *owner = answer;
            0
        }
        Err(refusal) => refused(refusal),
    }
}

/// Sets `count` to the number of locks of a chunk, or to 15 if it is fixed.
///
/// # Errors
/// The refusal 1.
#[unsafe(no_mangle)]
pub extern "C" fn palmheap_MemHandleLockCount(store: &mut Kept, name: u32, count: &mut u8) -> u32
    ensures does { DoesInC store.old.store (calls.Call.Memory (MemoryCall.Locks (as_name name)))
        (Reply.Number count.new) result store.new.store }
    ensures left { result ≢ 0 → count.new ≡ count.old }
    ensures same { store.new.store ≡ store.old.store }
{
    match store.as_mut().locks(Name(name)) {
        Ok(answer) => {
            *count = answer;
            0
        }
        Err(refusal) => refused(refusal),
    }
}

/// Overwrites bytes of a locked or fixed chunk, from the offset `at` in the chunk.
///
/// # Errors
/// The refusals 1, 4, 27, 9, in this order.
#[unsafe(no_mangle)]
pub extern "C" fn palmheap_DmWrite(store: &mut Kept, name: u32, at: u32, bytes: &[u8]) -> u32
    ensures does { DoesInC store.old.store
        (calls.Call.Memory (MemoryCall.Write (as_name name) at bytes.now))
        Reply.Done result store.new.store }
{
    match store.as_mut().write(Name(name), at, bytes) {
        Ok(()) => 0,
        Err(refusal) => refused(refusal),
    }
}

/// Sets `count` bytes of a locked or fixed chunk to `byte`, from the offset `at` in the chunk.
///
/// # Errors
/// The refusals 1, 4, 27, 9, in this order.
#[unsafe(no_mangle)]
pub extern "C" fn palmheap_DmSet(store: &mut Kept, name: u32, at: u32, count: u32, byte: u8) -> u32
    ensures does { DoesInC store.old.store
        (calls.Call.Memory (MemoryCall.Set (as_name name) at count byte))
        Reply.Done result store.new.store }
{
    match store.as_mut().set(Name(name), at, count, byte) {
        Ok(()) => 0,
        Err(refusal) => refused(refusal),
    }
}

/// Overwrites bytes of a locked or fixed chunk, from the offset `at` in the chunk, with the bytes
/// of `text` before its first zero byte, and then a zero byte.
///
/// # Errors
/// The refusals 1, 4, 27, 9, in this order.
#[unsafe(no_mangle)]
pub extern "C" fn palmheap_DmStrCopy(store: &mut Kept, name: u32, at: u32, text: &[u8]) -> u32
    ensures does { DoesInC store.old.store
        (calls.Call.Memory (MemoryCall.StrCopy (as_name name) at text.now))
        Reply.Done result store.new.store }
{
    match store.as_mut().str_copy(Name(name), at, text) {
        Ok(()) => 0,
        Err(refusal) => refused(refusal),
    }
}

/// Resizes a chunk to `size` bytes. It cuts bytes off at the end, or adds zeros there.
///
/// # Errors
/// The refusals 1, 2, 6, 27, 3, 8, in this order.
#[unsafe(no_mangle)]
pub extern "C" fn palmheap_MemHandleResize(store: &mut Kept, name: u32, size: u32) -> u32
    ensures does { DoesInC store.old.store (calls.Call.Memory (MemoryCall.Resize (as_name name) size))
        Reply.Done result store.new.store }
{
    match store.as_mut().resize(Name(name), size) {
        Ok(()) => 0,
        Err(refusal) => refused(refusal),
    }
}

/// Sets the owner of a chunk, 1 to 14.
///
/// # Errors
/// The refusals 1, 2, 7, in this order.
#[unsafe(no_mangle)]
pub extern "C" fn palmheap_MemHandleSetOwner(store: &mut Kept, name: u32, owner: u8) -> u32
    ensures does { DoesInC store.old.store (calls.Call.Memory (MemoryCall.SetOwner (as_name name) owner))
        Reply.Done result store.new.store }
{
    match store.as_mut().set_owner(Name(name), owner) {
        Ok(()) => 0,
        Err(refusal) => refused(refusal),
    }
}

/// Sets `name` to the name of the chunk whose body is at the offset `place` in the image.
///
/// # Errors
/// The refusal 1.
#[unsafe(no_mangle)]
pub extern "C" fn palmheap_MemPtrRecoverHandle(store: &mut Kept, place: u32, name: &mut u32) -> u32
    ensures does { DoesInC store.old.store (calls.Call.Memory (MemoryCall.Recover (as_place place)))
        (Reply.Named (as_name name.new)) result store.new.store }
    ensures left { result ≢ 0 → name.new ≡ name.old }
    ensures same { store.new.store ≡ store.old.store }
{
    match store.as_mut().recover(Place(place)) {
        Ok(answer) => {
            *name = answer.0;
            0
        }
        Err(refusal) => refused(refusal),
    }
}

/// Frees all chunks of an owner, 1 to 14, also locked and fixed ones. Sets `count` to their number.
///
/// # Errors
/// The refusals 7, 27, in this order.
#[unsafe(no_mangle)]
pub extern "C" fn palmheap_MemHeapFreeByOwnerID(store: &mut Kept, owner: u8, count: &mut u32) -> u32
    ensures does { DoesInC store.old.store (calls.Call.Memory (MemoryCall.FreeByOwner owner))
        (Reply.Number count.new) result store.new.store }
    ensures left { result ≢ 0 → count.new ≡ count.old }
{
    match store.as_mut().free_by_owner(owner) {
        Ok(answer) => {
            *count = answer;
            0
        }
        Err(refusal) => refused(refusal),
    }
}

/// Sets `count` to the sum of the sizes of all free chunks, in bytes.
#[unsafe(no_mangle)]
pub extern "C" fn palmheap_MemHeapFreeBytes(store: &mut Kept, count: &mut u32) -> u32
    ensures does { DoesAlways store.old.store (calls.Call.Memory MemoryCall.FreeBytes)
        (Reply.Number count.new) store.new.store }
    ensures ok { result ≡ 0 }
    ensures same { store.new.store ≡ store.old.store }
{
    *count = store.as_mut().free_bytes();
    0
}

/// Sets `count` to the greatest room of a stretch, in bytes, or to 0 if there is no stretch.
#[unsafe(no_mangle)]
pub extern "C" fn palmheap_largest_stretch(store: &mut Kept, count: &mut u32) -> u32
    ensures does { DoesAlways store.old.store (calls.Call.Memory MemoryCall.LargestStretch)
        (Reply.Number count.new) store.new.store }
    ensures ok { result ≡ 0 }
    ensures same { store.new.store ≡ store.old.store }
{
    *count = store.as_mut().largest_stretch();
    0
}

/// Joins the free bytes of each stretch into one chunk. Sets `count` to the number of bytes moved.
#[unsafe(no_mangle)]
pub extern "C" fn palmheap_MemHeapCompact(store: &mut Kept, count: &mut u32) -> u32
    ensures does { DoesAlways store.old.store (calls.Call.Memory MemoryCall.Compact)
        (Reply.Number count.new) store.new.store }
    ensures ok { result ≡ 0 }
{
    *count = store.as_mut().compact();
    0
}

/// Adds a master pointer table of 15 empty slots, if the image has a chain of tables.
///
/// # Errors
/// The refusal 8.
#[unsafe(no_mangle)]
pub extern "C" fn palmheap_more_slots(store: &mut Kept) -> u32
    ensures does { DoesInC store.old.store (calls.Call.Memory MemoryCall.MoreSlots)
        Reply.Done result store.new.store }
{
    match store.as_mut().more_slots() {
        Ok(()) => 0,
        Err(refusal) => refused(refusal),
    }
}
