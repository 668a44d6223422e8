//! Calls that copy bytes of an open store into a buffer, and calls on files of databases (Palm OS
//! File Format Specification). The contract of each function is the step of the abstract store for
//! its call.

ghost use Rattle.std.specs.Prelude.{◌≡◌, ◌≢◌};
ghost use Rattle.allowance.specs.Refusals.{GrowthRefused};
ghost use Rattle.heap_model.specs.Numbers.{number_of};
ghost use Rattle.heap_model.specs.declared.call.Call as calls;
ghost use Rattle.heap_model.specs.declared.call.FileCall.{FileCall};
ghost use Rattle.heap_model.specs.declared.call.MemoryCall.{MemoryCall};
ghost use Rattle.heap_model.specs.declared.call.Reply.{Reply};
ghost use Rattle.heap_model.specs.declared.refusal.Refusal as refusals;
ghost use Rattle.palmheap_c.specs.Buffers.{buffer};
ghost use Rattle.palmheap_c.specs.Calls.{DoesInC, DoesData, as_name, as_db};

use crate::buffers::put_coded;
use crate::calls::refused;
use crate::kept::Kept;
use heap_model::{Db, Name};
use pdb_files::{exported, import};
use std::alloc::Global;

/// Copies `count` bytes of a chunk, from the offset `at` in the chunk, into a buffer. Sets `len` to
/// their number, also if the buffer is too short for them.
///
/// # Errors
/// The refusals 1, 27, 9, in this order.
#[unsafe(no_mangle)]
pub extern "C" fn palmheap_read(
    store: &mut Kept,
    name: u32,
    at: u32,
    count: u32,
    bytes: &mut [u8],
    len: &mut usize,
) -> u32
    ensures does { DoesData store.old.store (calls.Call.Memory (MemoryCall.Read (as_name name) at count))
        (buffer bytes.old len.old) (buffer bytes.new len.new) result store.new.store }
    ensures same { store.new.store ≡ store.old.store }
{
    match store.as_mut().read(Name(name), at, count) {
        Ok(found) => put_coded(found, bytes, len),
        Err(refusal) => refused(refusal),
    }
}

/// Makes the database of a file, after all others. Sets `db` to the database.
///
/// # Errors
/// The refusals 25, 21, 17, 26, 8, in this order.
#[unsafe(no_mangle)]
pub extern "C" fn palmheap_import(alloc: Global, store: &mut Kept, file: &[u8], db: &mut u32) -> u32
    ensures does { DoesInC store.old.store (calls.Call.File (FileCall.Import file.now))
        (Reply.Database (as_db db.new)) result store.new.store }
    ensures left { result ≢ 0 → db.new ≡ db.old }
    ensures short { result ≡ number_of refusals.Refusal.OutOfMemory → GrowthRefused }
{
    match import(alloc, store.as_mut(), file) {
        Ok(answer) => {
            *db = answer.0;
            0
        }
        Err(refusal) => refused(refusal),
    }
}

/// Writes the file of a database into a buffer. Sets `len` to its size in bytes, also if the buffer
/// is too short for it.
///
/// # Errors
/// The refusals 10, 27, 26, in this order.
#[unsafe(no_mangle)]
pub extern "C" fn palmheap_export(
    alloc: Global,
    store: &mut Kept,
    db: u32,
    file: &mut [u8],
    len: &mut usize,
) -> u32
    ensures does { DoesData store.old.store (calls.Call.File (FileCall.Export (as_db db)))
        (buffer file.old len.old) (buffer file.new len.new) result store.new.store }
    ensures short { result ≡ number_of refusals.Refusal.OutOfMemory → GrowthRefused }
    ensures same { store.new.store ≡ store.old.store }
{
    match exported(&alloc, store.as_mut(), Db(db)) {
        Ok(found) => put_coded(found.as_slice(), file, len),
        Err(refusal) => refused(refusal),
    }
}
