//! One call on files.

ghost use Rattle.std.specs.Prelude.{◌≡◌, ◌≤◌, length};
ghost use Rattle.heap_model.specs.FileSteps.{file_call};
ghost use Rattle.heap_model.specs.StoreSteps.{DoesInStore};
ghost use Rattle.heap_model.specs.declared.call.Call as calls;
ghost use Rattle.heap_model.specs.declared.call.FileCall.{FileCall};
ghost use Rattle.heap_model.specs.declared.call.Reply.{Reply};
ghost use Rattle.heap_model.specs.declared.refusal.Refusal.{Refusal};
ghost use Rattle.script_lines.specs.LineCounts.{bytes_read};

use allowance::Allowance;
use heap_model::{Db, FileCall, Reply};
use palm_store::Store;
use pdb_files::{exported, import_from};
use script_calls::{Given, GivenBytes, data, database};

/// Does a call on files, which takes memory. If the allocation fails, the call is refused with
/// `OutOfMemory`. The reply is `OutOfMemory` only if an allocation failed.
pub(crate) fn do_file_call<A: Allowance, D: Given<Db>, B: GivenBytes>(
    memory: &A,
    store: &mut Store,
    databases: &[Db],
    buffer: &mut [u8],
    call: &FileCall<D, B>,
) -> Reply
    requires { bytes_read B.room call.now ≤ length buffer.old }
    ensures does { DoesInStore store.old (calls.Call.File
        (file_call (λ db. D.meant db databases.now) B.spelled call.now)) result store.new }
    ensures no_memory { result ≡ Reply.Refused Refusal.OutOfMemory → A.is_short memory.now }
{
    match call {
        FileCall::Import(file) => import(memory, store, file.decoded(buffer)),
        FileCall::Export(db) => export(memory, store, db.among(databases)),
    }
}

/// Imports a file.
pub(crate) fn import<A: Allowance>(memory: &A, store: &mut Store, file: &[u8]) -> Reply
    ensures does { DoesInStore store.old (calls.Call.File (FileCall.Import file.now))
        result store.new }
    ensures no_memory { result ≡ Reply.Refused Refusal.OutOfMemory → A.is_short memory.now }
{
    database(import_from(memory, store, file))
}

/// Exports the file of a database.
pub(crate) fn export<A: Allowance>(memory: &A, store: &Store, db: Db) -> Reply
    ensures does { DoesInStore store.now (calls.Call.File (FileCall.Export db)) result store.now }
    ensures no_memory { result ≡ Reply.Refused Refusal.OutOfMemory → A.is_short memory.now }
{
    data(exported(memory, store, db))
}
