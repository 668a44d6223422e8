//! The call that imports a database from a file.

ghost use Rattle.std.specs.Prelude.{◌≡◌, ◌<◌, ◌+◌, ◌≢◌, length, Err, IfOk, OnOk, IfErr, OnErr};
ghost use Rattle.heap_model.specs.Store.{Accepted, most_databases, store_of};
ghost use Rattle.heap_model.specs.Refusals.{FirstBrings};
ghost use Rattle.heap_model.specs.Database as databases;
ghost use Rattle.heap_model.specs.DatabaseSteps.{IsTaken};
ghost use Rattle.heap_model.specs.Files.{HasNoFault};
ghost use Rattle.heap_model.specs.StoreSteps.{DoesInStore};
ghost use Rattle.heap_model.specs.declared.call.Call as calls;
ghost use Rattle.heap_model.specs.declared.call.FileCall.{FileCall};
ghost use Rattle.heap_model.specs.declared.call.Reply.{Reply};
ghost use Rattle.palm_store.specs.Replies.{database_or_refused};
ghost use Rattle.pdb_files.specs.Plans.{IsPlan};
ghost use Rattle.pdb_format.specs.OpenFaults.{IsOpenFault};
ghost use Rattle.pdb_files.specs.Imports.{checks_of_new};
ghost use Rattle.allowance.specs.Refusals.{GrowthRefused};

mod filling;
mod plan;

use allowance::{Allowance, filled};
use db_format::{MOST_DATABASES, name_in};
use filling::fill_blocks;
use heap_model::{Db, DbName, Name, Refusal};
use palm_store::Store;
use pdb_format::{Block, OpenFault, PdbFile};
use plan::{Plan, are_short, read_plan};
use std::alloc::{AllocError, Global};

/// Imports a database from a PDB or PRC file, and makes it the last of the store. No record is
/// busy. Its records keep the IDs of the file. A record whose ID is 0, or is that of an earlier
/// record, gets a fresh one.
///
/// # Errors
/// `file_row` (`heap_model`) has their order. If it fails, nothing is left of the database.
/// - `BadFile`: if the file has a fault. The error has the first one.
/// - `AlreadyExists`: if a database of the store has the name.
/// - `TooManyEntries`: if the store has 1,024 databases.
/// - `OutOfMemory`: if an allocation for the lists of blocks and entries failed.
/// - `NotEnoughSpace`: if slots or room can run out for the header, the blocks and the directory,
///   one after the other.
pub fn import(alloc: Global, store: &mut Store, file: &[u8]) -> Result<Db, Refusal>
    ensures does { DoesInStore store.old (calls.Call.File (FileCall.Import file.now))
        (database_or_refused result) store.new }
    ensures untouched { IfErr result (λ refusal.
        refusal ≢ Refusal.NotEnoughSpace → store.new ≡ store.old) }
    ensures no_memory { result ≡ Err Refusal.OutOfMemory → GrowthRefused }
{
    import_from(&alloc, store, file)
}

/// The same as `import`, but each allocation asks `memory` for a grant first. It returns
/// `OutOfMemory` only if an allocation was refused or failed.
pub fn import_from<A: Allowance>(memory: &A, store: &mut Store, file: &[u8]) -> Result<Db, Refusal>
    ensures does { DoesInStore store.old (calls.Call.File (FileCall.Import file.now))
        (database_or_refused result) store.new }
    ensures untouched { IfErr result (λ refusal.
        refusal ≢ Refusal.NotEnoughSpace → store.new ≡ store.old) }
    ensures no_memory { result ≡ Err Refusal.OutOfMemory → A.is_short memory.now }
{
    match PdbFile::open(memory, file) {
        Ok(file) => import_opened(memory, store, &file),
        Err(fault) => Err(refusal_of(store, file, fault)),
    }
}

/// The same as `import_from`, for a file that is opened.
pub fn import_opened<A: Allowance>(
    memory: &A,
    store: &mut Store,
    file: &PdbFile<'_>,
) -> Result<Db, Refusal>
    ensures does { DoesInStore store.old (calls.Call.File (FileCall.Import file.now))
        (database_or_refused result) store.new }
    ensures untouched { IfErr result (λ refusal.
        refusal ≢ Refusal.NotEnoughSpace → store.new ≡ store.old) }
    ensures no_memory { result ≡ Err Refusal.OutOfMemory → A.is_short memory.now }
{
    file.know_file();
    check_new(store, file.name())?;
    let blocks = file.blocks();
    if !are_short(blocks) {
        return Err(Refusal::NotEnoughSpace);
    }
    let Ok(plan) = read_plan(memory, file, blocks) else {
        return Err(Refusal::OutOfMemory);
    };
    let Ok(mut names) = no_names(memory, blocks) else {
        return Err(Refusal::OutOfMemory);
    };
    make(store, file, &plan, &mut names)
}

/// Returns the refusal of a file that wasn't opened.
fn refusal_of(store: &Store, file: &[u8], fault: OpenFault) -> Refusal
    requires { IsOpenFault file.now fault }
    ensures does { DoesInStore store.now (calls.Call.File (FileCall.Import file.now))
        (Reply.Refused result) store.now }
    ensures no_memory { result ≡ Refusal.OutOfMemory → fault ≡ OpenFault.OutOfMemory }
{
    let _ = store.count();
    match fault {
        OpenFault::BadFile(fault) => Refusal::BadFile(fault),
        OpenFault::OutOfMemory => refusal_without_memory(store, file),
    }
}

/// Returns the refusal of a file without fault if memory ran out when it was opened.
fn refusal_without_memory(store: &Store, file: &[u8]) -> Refusal
    requires { HasNoFault file.now }
    ensures { DoesInStore store.now (calls.Call.File (FileCall.Import file.now))
        (Reply.Refused result) store.now }
{
    match check_new(store, name_in(file)) {
        Ok(()) => Refusal::OutOfMemory,
        Err(refusal) => refusal,
    }
}

/// Checks that a database of this name can be added, apart from memory and room.
///
/// # Errors
/// - `AlreadyExists`: if a database of the store has the name.
/// - `TooManyEntries`: if the store has 1,024 databases.
fn check_new(store: &Store, name: &[u8]) -> Result<(), Refusal>
    requires { length name.now < 32 }
    ensures accepted { Accepted store.now.bytes }
    ensures free { OnOk result (IsTaken (store_of store.now.bytes) 0 name.now → ⊥) }
    ensures few { OnOk result (length (store_of store.now.bytes).databases < most_databases) }
    ensures why { IfErr result (FirstBrings (checks_of_new store.now.bytes name.now)) }
    ensures takes_no_memory { IfErr result (λ refusal. refusal ≢ Refusal.OutOfMemory) }
{
    let count = store.count();
    if store.find(&DbName::of(name)).is_ok() {
        return Err(Refusal::AlreadyExists);
    }
    if count >= MOST_DATABASES {
        return Err(Refusal::TooManyEntries);
    }
    Ok(())
}

/// Makes the planned database of a file, and fills its blocks. It writes the names of the blocks to
/// `names`.
///
/// # Errors
/// - `NotEnoughSpace`: if slots or room ran out.
fn make(
    store: &mut Store,
    file: &PdbFile<'_>,
    plan: &Plan,
    names: &mut [Name],
) -> Result<Db, Refusal>
    requires accepted { Accepted store.old.bytes }
    requires free { IsTaken (store_of store.old.bytes) 0 (databases.name_in file.now) → ⊥ }
    requires few { length (store_of store.old.bytes).databases < most_databases }
    requires plan { IsPlan file.now plan.now }
    requires names { length names.old ≡ 2 + length plan.now.entries.items }
    ensures does { DoesInStore store.old (calls.Call.File (FileCall.Import file.now))
        (database_or_refused result) store.new }
    ensures untouched { IfErr result (λ refusal.
        refusal ≢ Refusal.NotEnoughSpace → store.new ≡ store.old) }
    ensures takes_no_memory { IfErr result (λ refusal. refusal ≢ Refusal.OutOfMemory) }
{
    let blocks = file.blocks();
    let db = store.create_whole(&plan.info, plan.sizes, &plan.entries, names)?;
    fill_blocks(store, file, blocks, names);
    Ok(db)
}

/// Returns a name for each block, all `Name(0)`.
fn no_names<A: Allowance>(memory: &A, blocks: &[Option<Block>]) -> Result<Vec<Name>, AllocError>
    ensures len { IfOk result (λ names. length names.items ≡ length blocks.now) }
    ensures short { OnErr result (A.is_short memory.now) }
{
    filled(memory, Name(0), blocks.len())
}
