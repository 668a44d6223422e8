//! Results that go to a buffer of the caller, and allocations that fail.

ghost use Rattle.std.specs.Prelude.{◌≡◌, ◌<◌, ◌≤◌, length};
ghost use Rattle.allowance.specs.Refusals.{GrowthRefused};
ghost use Rattle.palmheap_c.specs.Answers.{memory_answer};
ghost use Rattle.palmheap_c.specs.Buffers.{FillsBuffer, PutsBytes, PutsCoded};

use crate::answers::{Answer, NO_FAULT, NO_MEMORY, NO_ROOM};
use allowance::failed;
use heap_model::Refusal;
use palm_text::Counted;
use std::alloc::Global;

/// The result of a call whose buffer is too short.
pub(crate) const CALL_NO_ROOM: u32 = 100;

/// Copies bytes to the start of a buffer, if it has room for them. Sets `count` to their number in
/// both cases.
pub(crate) fn put_bytes(bytes: &[u8], buffer: &mut [u8], count: &mut usize) -> Answer
    ensures { PutsBytes bytes.now buffer.old buffer.new count.new result }
{
    *count = bytes.len();
    if buffer.len() < bytes.len() {
        return NO_ROOM;
    }
    put_front(bytes, buffer);
    NO_FAULT
}

/// Records that a write into a vector failed. A write into a vector fails only if an allocation
/// failed.
pub(crate) fn refused_write(alloc: Global, _out: &Counted<Vec<u8>>) -> Answer
    requires { 0 < _out.now.faults }
    ensures is { result ≡ memory_answer }
    ensures short { GrowthRefused }
{
    let _ = unsafe { failed(&alloc) };
    NO_MEMORY
}

/// The same as `put_bytes`, but returns 0, or `CALL_NO_ROOM` if the buffer is too short.
pub(crate) fn put_coded(bytes: &[u8], buffer: &mut [u8], count: &mut usize) -> u32
    ensures { PutsCoded bytes.now buffer.old buffer.new count.new result }
{
    if put_bytes(bytes, buffer, count) == NO_FAULT {
        0
    } else {
        CALL_NO_ROOM
    }
}

/// Records that a `Box` was not made. Making one fails only if its allocation failed.
pub(crate) fn refused_block(alloc: Global) -> Answer
    ensures is { result ≡ memory_answer }
    ensures short { GrowthRefused }
{
    let _ = unsafe { failed(&alloc) };
    NO_MEMORY
}

/// Records that an entry of a map was not made. Making one fails only if its allocation failed.
pub(crate) fn refused_entry(alloc: Global) -> Refusal
    ensures is { result ≡ Refusal.OutOfMemory }
    ensures short { GrowthRefused }
{
    let _ = unsafe { failed(&alloc) };
    Refusal::OutOfMemory
}

/// Copies bytes to the start of a buffer that has room for them.
pub(crate) fn put_front(bytes: &[u8], buffer: &mut [u8])
    requires { length bytes.now ≤ length buffer.old }
    ensures { FillsBuffer bytes.now buffer.old buffer.new }
{
    buffer[..bytes.len()].copy_from_slice(bytes);
}

/// The same as `put_front`, for numbers.
pub(crate) fn put_numbers(numbers: &[usize], buffer: &mut [usize])
    requires { length numbers.now ≤ length buffer.old }
    ensures { FillsBuffer numbers.now buffer.old buffer.new }
{
    buffer[..numbers.len()].copy_from_slice(numbers);
}
