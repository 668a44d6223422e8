//! The calls that write the file of a database.

ghost use Rattle.std.specs.Prelude.{◌≡◌, ◌↔◌, ◌<◌, ℕ, None, Err, is_ok, length, IfOk, OnErr, Any};
ghost use Rattle.palm_text.specs.Counted.{Writes};
ghost use Rattle.heap_model.specs.Database.{Database, data_in};
ghost use Rattle.heap_model.specs.Lending.{IsLent};
ghost use Rattle.heap_model.specs.Store.{store_of, content};
ghost use Rattle.heap_model.specs.StoreWords.{In, with_number};
ghost use Rattle.heap_model.specs.Files.{file_of};
ghost use Rattle.heap_model.specs.MemorySteps.{reply_of};
ghost use Rattle.heap_model.specs.StoreSteps.{DoesInStore};
ghost use Rattle.heap_model.specs.declared.call.Call as calls;
ghost use Rattle.heap_model.specs.declared.call.FileCall.{FileCall};
ghost use Rattle.heap_model.specs.declared.call.Reply.{Reply};
ghost use Rattle.palm_store.specs.Databases.{HasDatabase};
ghost use Rattle.pdb_files.specs.FileParts.{content_of, IsExportable};

mod parts;
mod places;

use crate::exporting::parts::put_file;
use crate::exporting::places::file_size;
use allowance::{Allowance, failed, room_for};
use heap_model::{Bytes, Db, Refusal};
use palm_store::Store;
use palm_text::Counted;
use std::alloc::AllocError;
use std::io::Write;
use thiserror::Error;

/// Why no whole file was written.
#[derive(Clone, Copy, Debug, PartialEq, Eq, Error)]
pub enum ExportFault {
    /// The store has no database of this number.
    #[error("NoSuchDatabase")]
    NoSuchDatabase,
    /// A block of the database is lent.
    #[error("Lent")]
    Lent,
    /// A write failed, or took 0 bytes.
    #[error("a write failed")]
    Write,
}

/// Writes the file of a database, PDB or PRC, and returns its length in bytes. It allocates no
/// memory, and flushes nothing.
///
/// # Errors
/// - `NoSuchDatabase`: if the store has no database of this number. Nothing was written.
/// - `Lent`: if a block of the database is lent. Nothing was written.
/// - `Write`: if a write failed, or took 0 bytes. A prefix of the file was written.
pub fn export<W: Write>(store: &Store, db: Db, out: &mut Counted<W>) -> Result<u32, ExportFault>
    ensures unknown { (result ≡ Err ExportFault.NoSuchDatabase)
        ↔ (with_number (store_of store.now.bytes) db.0 ≡ None) }
    ensures lent { (result ≡ Err ExportFault.Lent)
        ↔ In (store_of store.now.bytes) db (λ database. Any (IsLent store.now) (data_in database)) }
    ensures untouched { result ≡ Err ExportFault.NoSuchDatabase → out.new ≡ out.old }
    ensures unwritten { result ≡ Err ExportFault.Lent → out.new ≡ out.old }
    ensures written { (database : Database ℕ) → HasDatabase store.now.bytes db.0 database
        → (Any (IsLent store.now) (data_in database) → ⊥)
        → Writes W.contents out.old out.new
        (file_of (content (store_of store.now.bytes).map database)) (is_ok result) }
    ensures size { IfOk result (λ count.
        (database : Database ℕ) → HasDatabase store.now.bytes db.0 database
        → count ≡ length (file_of (content (store_of store.now.bytes).map database))) }
{
    let Some(bytes) = store.database_bytes(db) else {
        return Err(ExportFault::NoSuchDatabase);
    };
    if store.lends_data(db) {
        return Err(ExportFault::Lent);
    }
    match put_file(store, bytes, out) {
        Ok(()) => Ok(file_size(store, bytes)),
        Err(_) => Err(ExportFault::Write),
    }
}

/// Returns the file of a database as bytes. It allocates memory once.
///
/// # Errors
/// - `NoSuchDatabase`: if the store has no database of this number.
/// - `Lent`: if a block of the database is lent.
/// - `OutOfMemory`: if `memory` refused the allocation or it failed, and only then.
pub fn exported<A: Allowance>(memory: &A, store: &Store, db: Db) -> Result<Bytes, Refusal>
    ensures does { DoesInStore store.now (calls.Call.File (FileCall.Export db))
        (reply_of (λ bytes. Reply.Data bytes) result) store.now }
    ensures no_memory { result ≡ Err Refusal.OutOfMemory → A.is_short memory.now }
{
    let Some(bytes) = store.database_bytes(db) else {
        return Err(Refusal::NoSuchDatabase);
    };
    if store.lends_data(db) {
        return Err(Refusal::Lent);
    }
    match file_bytes(memory, store, bytes) {
        Ok(file) => Ok(file),
        Err(AllocError) => Err(Refusal::OutOfMemory),
    }
}

/// Returns the file of a database, given by its bytes.
fn file_bytes<A: Allowance>(memory: &A, store: &Store, bytes: &[u8]) -> Result<Bytes, AllocError>
    requires { IsExportable store.now bytes.now }
    ensures file { IfOk result (λ file. file ≡ file_of (content_of store.now.bytes bytes.now)) }
    ensures short { OnErr result (A.is_short memory.now) }
{
    let mut out = Counted::new(room_for(memory, file_size(store, bytes) as usize)?);
    match put_file(store, bytes, &mut out) {
        Ok(()) => Ok(Bytes::of(out.into_inner())),
        Err(_) => Err(refused_write(memory, &out)),
    }
}

/// Records that a write into a vector failed. A vector takes each write, unless an allocation
/// fails.
fn refused_write<A: Allowance>(memory: &A, _out: &Counted<Vec<u8>>) -> AllocError
    requires { 0 < _out.now.faults }
    ensures { A.is_short memory.now }
{
    unsafe { failed(memory) }
}
