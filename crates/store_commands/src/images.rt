//! Images that are opened, and the databases in them.

ghost use Rattle.std.specs.Prelude.{[], ◌≡◌, ◌⊎◌, ◌<◌, Err, IfOk, IfErr, OnOk, OnErr, length, slice_get, Some, is_ok, true, false};
ghost use Rattle.heap_model.specs.Files.{file_of};
ghost use Rattle.heap_model.specs.Store.{Accepted, content, database_under, store_of};
ghost use Rattle.heap_model.specs.Leaving.{database_here};
ghost use Rattle.heap_model.specs.DatabaseSteps as rows;
ghost use Rattle.palm_store.specs.Databases.{HasNumber};
ghost use Rattle.palm_text.specs.Output.{Puts, output};
ghost use Rattle.image_commands.specs.FaultLines.{Says};
ghost use Rattle.image_commands.specs.ImageChecks.{PutsFault};
ghost use Rattle.script_calls.specs.Lines.{refusal_line};

use allowance::Allowance;
use heap_model::{Bytes, Db, DbInfo, Refusal};
use image_commands::say_fault;
use palm_store::{NotAStore, Store, StoreFault};
use palm_text::{Counted, WriteFault};
use pdb_files::exported;
use program_io::command_line::Form;
use program_io::{Status, flushed};
use raw_region::Region;
use script_calls::put_refusal;
use std::alloc::AllocError;
use std::io::Write;

/// The store of an image of which nothing is lent. If the image is refused, prints its first fault
/// in a form.
///
/// # Errors
///
/// `Refused` if the image has a fault; `WriteFault`; `NoMemory`.
pub fn opened<A: Allowance, V: Write>(
    memory: &A,
    region: Region,
    form: Form,
    out: &mut Counted<V>,
) -> Result<Store, Status>
    requires whole { region.lents ≡ [] }
    ensures store { IfOk result (λ store. store ≡ region) }
    ensures accepted { OnOk result (Accepted region.bytes) }
    ensures silent { OnOk result (out.new ≡ out.old) }
    ensures faults { IfErr result (λ status. (status ≡ Status.Refused)
        ⊎ (status ≡ Status.WriteFault) ⊎ (status ≡ Status.NoMemory)) }
    ensures refused { (result ≡ Err Status.Refused) ⊎ (result ≡ Err Status.WriteFault)
        → Accepted region.bytes → ⊥ }
    ensures said { result ≡ Err Status.Refused
        → PutsFault form region.bytes (output V.contents out.old out.new) true }
    ensures write { result ≡ Err Status.WriteFault
        → PutsFault form region.bytes (output V.contents out.old out.new) false }
    ensures no_memory { result ≡ Err Status.NoMemory → out.new ≡ out.old }
    ensures short { result ≡ Err Status.NoMemory → A.is_short memory.now }
{
    match Store::check_from(memory, region) {
        Ok(store) => Ok(store),
        Err(
            NotAStore {
                fault: StoreFault::OutOfMemory,
                ..
            },
        ) => Err(Status::NoMemory),
        Err(error) => Err(say_fault(out, form, error.fault)),
    }
}

/// How many databases a store has.
#[tactic(auto, using(crate::proofs::Lookups::counted))]
pub(crate) fn count_of(store: &Store) -> u32
    ensures { result ≡ length (store_of store.now.bytes).databases }
{
    store.count()
}

/// The database of an index, counted from 0 in the order of the directory.
#[tactic(auto, using(crate::proofs::Lookups::found_nth, crate::proofs::Lookups::nth_there, crate::proofs::Lookups::no_nth))]
pub(crate) fn nth_of(store: &Store, index: u32) -> Db
    requires { index < length (store_of store.now.bytes).databases }
    ensures there { HasNumber store.now.bytes result.0 }
    ensures is { slice_get (store_of store.now.bytes).databases index
        ≡ Some (database_under store.now.bytes result.0) }
{
    match store.nth(index) {
        Ok(db) => db,
        Err(_) => unreachable!(),
    }
}

/// What the header of a database says.
#[tactic(auto, using(crate::proofs::Lookups::info_is, crate::proofs::Lookups::no_info))]
pub(crate) fn info_of(store: &Store, db: Db) -> DbInfo
    requires { HasNumber store.now.bytes db.0 }
    ensures { result ≡ rows.info_of (database_here store.now.bytes db.0) }
{
    match store.database_info(db) {
        Ok(info) => info,
        Err(_) => unreachable!(),
    }
}

/// The file of a database, of a store of which nothing is lent. The only error is that an
/// allocation failed.
#[tactic(auto, using(crate::proofs::Lookups::file_is, crate::proofs::Lookups::no_file))]
pub(crate) fn file_of_database<A: Allowance>(
    memory: &A,
    store: &Store,
    db: Db,
) -> Result<Bytes, AllocError>
    requires whole { store.now.lents ≡ [] }
    requires there { HasNumber store.now.bytes db.0 }
    ensures file { IfOk result (λ file. file
        ≡ file_of (content (store_of store.now.bytes).map (database_here store.now.bytes db.0))) }
    ensures short { OnErr result (A.is_short memory.now) }
{
    match exported(memory, store, db) {
        Ok(file) => Ok(file),
        Err(_refusal) => Err(AllocError),
    }
}

/// Prints the reply line for a refusal. Returns `Refused`, or `WriteFault` if a write or the flush
/// failed.
pub(crate) fn say_refused<V: Write>(refusal: Refusal, out: &mut Counted<V>) -> Status
    ensures { Says (output V.contents out.old out.new) (refusal_line refusal) Status.Refused result }
{
    match put_refused(out, refusal) {
        Ok(()) => Status::Refused,
        Err(_) => Status::WriteFault,
    }
}

/// Writes the reply line for a refusal, and flushes.
#[tactic(auto, using(palm_text::proofs::Parts::then_flush))]
fn put_refused<V: Write>(out: &mut Counted<V>, refusal: Refusal) -> Result<(), WriteFault>
    ensures { Puts V.contents out.old out.new (refusal_line refusal) (is_ok result) }
{
    put_refusal(out, refusal)?;
    flushed(out)
}

/// Writes the whole image of a store of which nothing is lent, and flushes.
#[tactic(auto, using(palm_text::proofs::Parts::then_flush))]
pub fn put_store<W: Write>(image_out: &mut Counted<W>, store: &Store) -> Result<(), WriteFault>
    requires { store.now.lents ≡ [] }
    ensures { Puts W.contents image_out.old image_out.new store.now.bytes (is_ok result) }
{
    match store.write_image(image_out) {
        Ok(()) => flushed(image_out),
        Err(_) => Err(WriteFault),
    }
}
