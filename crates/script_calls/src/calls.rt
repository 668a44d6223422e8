//! One call on chunks or on databases, and the outcome of a call.

ghost use Rattle.std.specs.Prelude.{◌≡◌, ◌≢◌, ◌≤◌, length};
ghost use Rattle.heap_model.specs.MemorySteps.{memory_call};
ghost use Rattle.heap_model.specs.DatabaseSteps.{database_call};
ghost use Rattle.heap_model.specs.StoreSteps.{DoesInStore};
ghost use Rattle.heap_model.specs.declared.call.Call as calls;
ghost use Rattle.heap_model.specs.declared.call.Reply.{Reply};
ghost use Rattle.heap_model.specs.declared.refusal.Refusal.{Refusal};
ghost use Rattle.script_lines.specs.LineCounts.{bytes_written};
ghost use Rattle.script_calls.specs.Lines.{Answers};
ghost use Rattle.script_calls.specs.Movement.{MovesInHeap};

use crate::bindings::{Given, GivenBytes};
use crate::calls::Outcome::{Reads, Replied};
use crate::replies::{database, done, info, locked, named, number, small_number};
use heap_model::{DatabaseCall, Db, MemoryCall, Name, Reply};
use palm_store::Store;

/// The outcome of a call. The bytes of a `read` aren't copied.
#[derive(Drop)]
pub enum Outcome {
    Replied(Reply),
    /// The call is a `read`, and is left to the caller, who reads the bytes from the store. It has
    /// the name, the offset and the number of bytes.
    Reads(Name, u32, u32),
}

/// Does a call on databases and returns its reply. It takes no memory.
pub fn do_database_call<C: Given<Name>, D: Given<Db>>(
    store: &mut Store,
    names: &[Name],
    databases: &[Db],
    call: &DatabaseCall<C, D>,
) -> Reply
    ensures does { DoesInStore store.old (calls.Call.Database
        (database_call (λ chunk. C.meant chunk names.now) (λ db. D.meant db databases.now)
        call.now)) result store.new }
    ensures takes_no_memory { result ≢ Reply.Refused Refusal.OutOfMemory }
{
    match call {
        DatabaseCall::Create {
            name,
            kind,
            creator,
            resources,
            date,
        } => database(store.create(name, *kind, *creator, *resources, *date)),
        DatabaseCall::Delete(db) => done(store.delete_database(db.among(databases))),
        DatabaseCall::Find(name) => database(store.find(name)),
        DatabaseCall::Nth(index) => database(store.nth(*index)),
        DatabaseCall::Count => Reply::Number(store.count()),
        DatabaseCall::Info(db) => info(store.database_info(db.among(databases))),
        DatabaseCall::SetInfo(db, given) => {
            done(store.set_database_info(db.among(databases), given))
        }
        DatabaseCall::SetInfoBlock { db, which, name } => {
            done(store.set_info_block(db.among(databases), *which, name.among(names)))
        }
        DatabaseCall::TakeInfoBlock { db, which, owner } => {
            named(store.take_info_block(db.among(databases), *which, *owner))
        }
        DatabaseCall::InfoBlock(db, which) => {
            named(store.info_block(db.among(databases), *which))
        }
    }
}

/// Does a call on chunks, if it isn't a `read`.
pub fn do_memory_call<C: Given<Name>, B: GivenBytes>(
    store: &mut Store,
    names: &[Name],
    buffer: &mut [u8],
    call: &MemoryCall<C, B>,
) -> Outcome
    requires { bytes_written B.room call.now ≤ length buffer.old }
    ensures answers { Answers store.old (calls.Call.Memory
        (memory_call (λ chunk. C.meant chunk names.now) B.spelled call.now)) result store.new }
    ensures moves { MovesInHeap store.old
        (memory_call (λ chunk. C.meant chunk names.now) B.spelled call.now) store.new }
{
    match call {
        MemoryCall::Read { name, at, count } => Reads(name.among(names), *at, *count),
        MemoryCall::HandleNew { size, owner } => Replied(named(store.handle_new(*size, *owner))),
        MemoryCall::PtrNew { size, owner } => Replied(named(store.ptr_new(*size, *owner))),
        MemoryCall::Free(name) => Replied(done(store.free(name.among(names)))),
        MemoryCall::Lock(name) => Replied(locked(store.lock(name.among(names)))),
        MemoryCall::Unlock(name) => Replied(small_number(store.unlock(name.among(names)))),
        MemoryCall::Size(name) => Replied(number(store.size(name.among(names)))),
        MemoryCall::Owner(name) => Replied(small_number(store.owner(name.among(names)))),
        MemoryCall::Locks(name) => Replied(small_number(store.locks(name.among(names)))),
        MemoryCall::Write { name, at, bytes } => {
            Replied(done(store.write(name.among(names), *at, bytes.decoded(buffer))))
        }
        MemoryCall::Set {
            name,
            at,
            count,
            byte,
        } => Replied(done(store.set(name.among(names), *at, *count, *byte))),
        MemoryCall::StrCopy { name, at, text } => {
            Replied(done(store.str_copy(name.among(names), *at, text.decoded(buffer))))
        }
        MemoryCall::Resize { name, size } => Replied(done(store.resize(name.among(names), *size))),
        MemoryCall::SetOwner { name, owner } => Replied(done(store.set_owner(
            name.among(names),
            *owner,
        ))),
        MemoryCall::Recover(place) => Replied(named(store.recover(*place))),
        MemoryCall::FreeByOwner(owner) => Replied(number(store.free_by_owner(*owner))),
        MemoryCall::FreeBytes => Replied(Reply::Number(store.free_bytes())),
        MemoryCall::LargestStretch => Replied(Reply::Number(store.largest_stretch())),
        MemoryCall::Compact => Replied(Reply::Number(store.compact())),
        MemoryCall::MoreSlots => Replied(done(store.more_slots())),
    }
}
