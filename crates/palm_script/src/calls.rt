//! One call of any manager.

ghost use Rattle.std.specs.Prelude.{◌≡◌, ◌≢◌, ◌≤◌, length};
ghost use Rattle.heap_model.specs.StoreSteps.{DoesInStore, call_by};
ghost use Rattle.heap_model.specs.declared.call.Call as calls;
ghost use Rattle.heap_model.specs.declared.call.MemoryCall.{MemoryCall};
ghost use Rattle.heap_model.specs.declared.call.Reply.{Reply};
ghost use Rattle.heap_model.specs.declared.refusal.Refusal.{Refusal};
ghost use Rattle.script_lines.specs.LineCounts.{bytes_given};
ghost use Rattle.script_calls.specs.Lines.{Answers, OnWant};
ghost use Rattle.allowance.specs.Refusals.{GrowthRefused};
ghost use Rattle.script_calls.specs.Movement.{Moves};

use crate::files::do_file_call;
use crate::records::do_record_call;
use crate::resources::do_resource_call;
use allowance::{Allowance, copied};
use heap_model::{Bytes, Call, Db, Name, Refusal, Reply};
use palm_store::Store;
use script_calls::Outcome::{Reads, Replied};
use script_calls::{Given, GivenBytes, Outcome, do_database_call, do_memory_call};
use std::alloc::Global;

/// Does one call and returns its reply. Only `read`, `import` and `export` take memory. If the
/// allocation fails, the call is refused with `OutOfMemory`.
pub fn do_call(alloc: Global, store: &mut Store, call: &Call) -> Reply
    ensures does { DoesInStore store.old call.now result store.new }
    ensures no_memory { result ≡ Reply.Refused Refusal.OutOfMemory → GrowthRefused }
    ensures moves { Moves store.old call.now store.new }
{
    do_call_from(&alloc, store, call)
}

/// The same as `do_call`, with a grant of `memory` for each allocation. The reply is `OutOfMemory`
/// only if an allocation failed.
pub fn do_call_from<A: Allowance>(memory: &A, store: &mut Store, call: &Call) -> Reply
    ensures does { DoesInStore store.old call.now result store.new }
    ensures moves { Moves store.old call.now store.new }
    ensures no_memory { result ≡ Reply.Refused Refusal.OutOfMemory → A.is_short memory.now }
{
    match do_given(memory, store, &[], &[], &mut [], call) {
        Replied(reply) => reply,
        Reads(name, at, count) => read(memory, store, name, at, count),
    }
}

/// Copies bytes of a chunk.
fn read<A: Allowance>(memory: &A, store: &Store, name: Name, at: u32, count: u32) -> Reply
    ensures does { DoesInStore store.now (calls.Call.Memory (MemoryCall.Read name at count))
        result store.now }
    ensures no_memory { result ≡ Reply.Refused Refusal.OutOfMemory → A.is_short memory.now }
{
    match store.read(name, at, count) {
        Ok(bytes) => match copied(memory, bytes) {
            Ok(bytes) => Reply::Data(Bytes::of(bytes)),
            Err(_) => Reply::Refused(Refusal::OutOfMemory),
        },
        Err(refusal) => Reply::Refused(refusal),
    }
}

/// Does a call, if it isn't a `read`. It looks up the chunks and databases of the call in the
/// tables `names` and `databases`, and decodes its bytes into `buffer`. The reply is `OutOfMemory`
/// only if an allocation failed.
pub(crate) fn do_given<A: Allowance, C: Given<Name>, D: Given<Db>, B: GivenBytes>(
    memory: &A,
    store: &mut Store,
    names: &[Name],
    databases: &[Db],
    buffer: &mut [u8],
    call: &Call<C, D, B>,
) -> Outcome
    requires room { bytes_given B.room call.now ≤ length buffer.old }
    ensures answers { Answers store.old (call_by (λ chunk. C.meant chunk names.now)
        (λ db. D.meant db databases.now) B.spelled call.now) result store.new }
    ensures moves { Moves store.old (call_by (λ chunk. C.meant chunk names.now)
        (λ db. D.meant db databases.now) B.spelled call.now) store.new }
    ensures no_memory { OnWant result (A.is_short memory.now) }
{
    match call {
        Call::Memory(call) => do_memory_call(store, names, buffer, call),
        Call::Database(call) => Replied(do_database_call(store, names, databases, call)),
        Call::Record(call) => Replied(do_record_call(store, names, databases, call)),
        Call::Resource(call) => Replied(do_resource_call(store, names, databases, call)),
        Call::File(call) => Replied(do_file_call(memory, store, databases, buffer, call)),
    }
}
