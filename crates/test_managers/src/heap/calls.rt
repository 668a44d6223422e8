//! Calls done on a heap.

ghost use Rattle.std.specs.Prelude.{[], ◌≡◌};
ghost use Rattle.heap_model.specs.Lending.{KeepsLoan};

use heap_model::{Bytes, MemoryCall, Refusal, Reply};
use mem_manager::{Heap, Locked};
use std::alloc::Global;

/// Does a call on a heap.
pub(crate) fn do_call(alloc: Global, heap: &mut Heap, call: &MemoryCall) -> Reply
    ensures lent { heap.new.lents ≡ heap.old.lents }
    ensures loan { KeepsLoan heap.old heap.new }
{
    answer(alloc, heap, call).unwrap_or_else(Reply::Refused)
}

fn answer(alloc: Global, heap: &mut Heap, call: &MemoryCall) -> Result<Reply, Refusal>
    ensures lent { heap.new.lents ≡ heap.old.lents }
    ensures loan { KeepsLoan heap.old heap.new }
{
    match call {
        MemoryCall::HandleNew { size, owner } => heap.handle_new(*size, *owner).map(Reply::Named),
        MemoryCall::PtrNew { size, owner } => heap.ptr_new(*size, *owner).map(Reply::Named),
        MemoryCall::Free(name) => heap.free(*name).map(done),
        MemoryCall::Lock(name) => heap.lock(*name).map(locked),
        MemoryCall::Unlock(name) => heap.unlock(*name).map(byte),
        MemoryCall::Size(name) => heap.size(*name).map(Reply::Number),
        MemoryCall::Owner(name) => heap.owner(*name).map(byte),
        MemoryCall::Locks(name) => heap.locks(*name).map(byte),
        MemoryCall::Read { name, at, count } => data(alloc, heap.read(*name, *at, *count)?),
        MemoryCall::Write { name, at, bytes } => heap.write(*name, *at, bytes.as_slice()).map(done),
        MemoryCall::Set {
            name,
            at,
            count,
            byte,
        } => heap.set(*name, *at, *count, *byte).map(done),
        MemoryCall::StrCopy { name, at, text } => {
            heap.str_copy(*name, *at, text.as_slice()).map(done)
        }
        MemoryCall::Resize { name, size } => heap.resize(*name, *size).map(done),
        MemoryCall::SetOwner { name, owner } => heap.set_owner(*name, *owner).map(done),
        MemoryCall::Recover(place) => heap.recover(*place).map(Reply::Named),
        MemoryCall::FreeByOwner(owner) => heap.free_by_owner(*owner).map(Reply::Number),
        MemoryCall::FreeBytes => Ok(Reply::Number(heap.free_bytes())),
        MemoryCall::LargestStretch => Ok(Reply::Number(heap.largest_stretch())),
        MemoryCall::Compact => Ok(Reply::Number(heap.compact())),
        MemoryCall::MoreSlots => heap.more_slots().map(done),
    }
}

fn data(alloc: Global, bytes: &[u8]) -> Result<Reply, Refusal> {
    match Vec::from_slice(alloc, bytes) {
        Ok(copy) => Ok(Reply::Data(Bytes::of(copy))),
        Err(_) => Err(Refusal::OutOfMemory),
    }
}

fn done(_: ()) -> Reply {
    Reply::Done
}

fn byte(count: u8) -> Reply {
    Reply::Number(u32::from(count))
}

fn locked(Locked { place, count }: Locked) -> Reply {
    Reply::Locked { place, count }
}
