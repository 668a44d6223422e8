//! Bodies that are lent by a store: what a caller does with one, what is refused meanwhile, and
//! that all other calls go on.

ghost use Rattle.std.specs.Prelude.{[], ◌≡◌, ◌≢◌, IfOk, None};
ghost use Rattle.heap_model.specs.Lending.{KeepsLoan};

use heap_model::{
    Call, DatabaseCall, Db, FileCall, MemoryCall, Name, RecordCall, Refusal, Reply, ResourceCall,
};
use palm_store::{ImageFault, MigrateFault, Store};
use palm_text::Counted;
use std::alloc::Global;
use std::test::*;
use test_beside::{Beside, MIXED, image_of, run_calls, store_of};
use test_support::{ONE_DATABASE, TWO_CHUNKS, bytes_of as listed, equal};

/// The two chunks of an image.
const A: Name = Name(16);

const B: Name = Name(20);

/// Why the bytes of a name can't be taken out. If they can, they are put back.
fn refused(store: &mut Store, name: Name) -> Option<Refusal>
    requires { store.old.lents ≡ [] }
    ensures { store.new.lents ≡ [] }
{
    match store.take_out(name) {
        Ok(loan) => {
            store.put_back(loan);
            None
        }
        Err(refusal) => Some(refusal),
    }
}

/// Why the bytes of a name can't be taken out while others are.
fn refused_meanwhile(store: &mut Store, name: Name) -> Refusal
    requires { store.old.lents ≢ [] }
    ensures { store.new ≡ store.old }
{
    match store.take_out(name) {
        Ok(_) => unreachable!(),
        Err(refusal) => refusal,
    }
}

/// Why the image of a store can't be written.
fn why_not_written(alloc: Global, store: &Store) -> Option<ImageFault> {
    let mut written = Counted::new(Vec::new(alloc));
    store.write_image(&mut written).err()
}

/// Calls that are refused while the first chunk is lent, and those that go on.
fn check_meanwhile(alloc: Global, store: &mut Store) -> Result<(), Fail>
    ensures lent { store.new.lents ≡ store.old.lents }
    ensures loan { KeepsLoan store.old store.new }
{
    equal("lent", store.lent(), Some(A))?;
    equal("loans", store.loans(alloc)?.as_slice(), [A].as_slice())?;
    equal("read", store.read(A, 0, 1).err(), Some(Refusal::Lent))?;
    equal("unlock", store.unlock(A).err(), Some(Refusal::Lent))?;
    equal("resize", store.resize(A, 56).err(), Some(Refusal::Lent))?;
    let fault = why_not_written(alloc, store);
    equal("write_image", fault, Some(ImageFault::Lent))?;
    equal("free", store.free(A).err(), Some(Refusal::ChunkLocked))?;
    let new = MemoryCall::HandleNew { size: 16, owner: 1 };
    let calls = [Call::Memory(new), Call::Memory(MemoryCall::Compact)];
    let replies = run_calls(alloc, store, &calls)?;
    let wanted = [Reply::Named(Name(24)), Reply::Number(32)];
    equal("run_calls", replies.as_slice(), wanted.as_slice())
}

/// What a store says while the bytes of its first chunk are out: the loan's name and length, why a
/// second loan is refused, and whether all calls were answered as they must be. The bytes are
/// written before they are put back.
type Said = ((Name, usize), Refusal, Result<(), Fail>);

fn said_meanwhile(alloc: Global, store: &mut Store) -> Result<Said, Refusal>
    requires { store.old.lents ≡ [] }
    ensures { store.new.lents ≡ [] }
{
    let mut loan = store.take_out(A)?;
    let shape = (loan.name(), loan.len());
    let again = refused_meanwhile(store, A);
    let done = check_meanwhile(alloc, store);
    let text: &[u8] = if loan.len() >= 2 { b"hi" } else { b"" };
    loan.write(0, text);
    store.put_back(loan);
    Ok((shape, again, done))
}

/// The first chunk is taken out, written, and put back. The other one has moved, and has its bytes.
#[test]
fn a_body_is_lent_and_put_back(rt: HostRuntime) -> Result<(), Fail> {
    let alloc = rt.alloc();
    let mut store = store_of(alloc, &listed(alloc, TWO_CHUNKS)?)?;
    store.lock(B)?;
    store.write(B, 0, b"abcdefghijklmnopqrstuvwx")?;
    store.unlock(B)?;
    let refusal = refused(&mut store, A);
    equal("no lock", refusal, Some(Refusal::ChunkNotLocked))?;
    store.lock(A)?;
    let (shape, again, done) = said_meanwhile(alloc, &mut store)?;
    done?;
    equal("loan", shape, (A, 24))?;
    equal("a second loan", again, Refusal::Lent)?;
    equal("lent", store.lent(), None)?;
    equal("a", store.read(A, 0, 2), Ok(b"hi".as_slice()))?;
    let b = b"abcdefghijklmnopqrstuvwx".as_slice();
    equal("b", store.read(B, 0, 24), Ok(b))
}

/// The store comes back where its region is asked for.
fn not_given_back(store: Store) -> Store
    requires { store.lents ≢ [] }
    ensures { result ≡ store }
{
    match store.into_region() {
        Ok(_) => unreachable!(),
        Err(store) => store,
    }
}

/// The store comes back where a chain of tables is asked for.
fn not_migrated(alloc: Global, store: Store) -> (MigrateFault, Store)
    requires { store.lents ≢ [] }
    ensures { result.1 ≡ store }
{
    match store.migrate(alloc) {
        Ok(_) => unreachable!(),
        Err(both) => both,
    }
}

/// While a body is lent, neither the region is given back nor a chain of tables is made. The store
/// comes back, and so do the bytes.
fn refused_whole(alloc: Global, store: Store) -> Result<(MigrateFault, Store), Refusal>
    requires { store.lents ≡ [] }
    ensures { IfOk result (λ back. back.1.lents ≡ []) }
{
    let mut store = store;
    let loan = store.take_out(A)?;
    let store = not_given_back(store);
    let both = not_migrated(alloc, store);
    let (fault, mut store) = both;
    store.put_back(loan);
    Ok((fault, store))
}

#[test]
fn a_store_that_lends_stays_a_store(rt: HostRuntime) -> Result<(), Fail> {
    let alloc = rt.alloc();
    let mut store = store_of(alloc, &listed(alloc, TWO_CHUNKS)?)?;
    let before = image_of(alloc, &store)?;
    store.lock(A)?;
    let (fault, mut store) = refused_whole(alloc, store)?;
    store.unlock(A)?;
    equal("migrate", fault, MigrateFault::Lent)?;
    equal("the image", image_of(alloc, &store)?, before)?;
    match store.migrate(alloc) {
        Ok(_) => Ok(()),
        Err(_) => Err("not migrated")?,
    }
}

/// Calls on a database of the number 20, and why each is refused while the data of its first record
/// is lent, under the name 24. 27 comes after the database and the entry are there, and before
/// room.
fn calls_on_records() -> [(Call, Option<Refusal>); 11] {
    let db = Db(20);
    [
        (resize(Db(99), 0, 4), Some(Refusal::NoSuchDatabase)),
        (resize(db, 2, 4), Some(Refusal::IndexOutOfRange)),
        (resize(db, 0, 4), Some(Refusal::Lent)),
        (resize(db, 0, 8), Some(Refusal::Lent)),
        (resize(db, 0, 9999), Some(Refusal::Lent)),
        (resize(db, 1, 8), None),
        (export(Db(99)), Some(Refusal::NoSuchDatabase)),
        (export(db), Some(Refusal::Lent)),
        (
            Call::Record(RecordCall::Delete(db, 0)),
            Some(Refusal::ChunkLocked),
        ),
        (Call::Record(RecordCall::Archive(db, 1)), None),
        (
            Call::Database(DatabaseCall::Delete(db)),
            Some(Refusal::ChunkLocked),
        ),
    ]
}

pub(crate) fn resize(db: Db, index: u32, size: u32) -> Call {
    Call::Record(RecordCall::Resize { db, index, size })
}

pub(crate) fn export(db: Db) -> Call {
    Call::File(FileCall::Export(db))
}

/// Does a call while the bytes of a name are out.
fn check_lent(
    alloc: Global,
    store: &mut Store,
    beside: &mut Beside,
    name: Name,
    row: (&Call, Option<Refusal>),
) -> Result<(), Fail>
    requires { store.old.lents ≡ [] }
    ensures { store.new.lents ≡ [] }
{
    let (call, refusal) = row;
    let reply = beside.call_lent(alloc, store, &[name], "lent", call)?;
    let why = match reply {
        Reply::Refused(refusal) => Some(refusal),
        _ => None,
    };
    equal(format_args!("{call:?}"), why, refusal)
}

#[test]
fn data_of_a_record_is_lent(rt: HostRuntime) -> Result<(), Fail> {
    let alloc = rt.alloc();
    let image = listed(alloc, ONE_DATABASE)?;
    let mut store = store_of(alloc, &image)?;
    let mut beside = Beside::new(alloc, image)?;
    let lock = Call::Memory(MemoryCall::Lock(Name(24)));
    beside.call_on(alloc, &mut store, "lock", &lock)?;
    for (call, refusal) in &calls_on_records() {
        check_lent(alloc, &mut store, &mut beside, Name(24), (call, *refusal))?;
    }
    Ok(())
}

/// Calls on databases with the resources of the number 24, and why each is refused while the data
/// of its first resource is lent, under the name 60.
fn calls_on_resources() -> [(Call, Option<Refusal>); 5] {
    let db = Db(24);
    [
        (resize_resource(db, 2, 4), Some(Refusal::IndexOutOfRange)),
        (resize_resource(db, 0, 9), Some(Refusal::Lent)),
        (resize_resource(db, 1, 9), None),
        (export(db), Some(Refusal::Lent)),
        (export(Db(36)), None),
    ]
}

fn resize_resource(db: Db, index: u32, size: u32) -> Call {
    Call::Resource(ResourceCall::Resize { db, index, size })
}

#[test]
fn data_of_a_resource_is_lent(rt: HostRuntime) -> Result<(), Fail> {
    let alloc = rt.alloc();
    let image = listed(alloc, MIXED)?;
    let mut store = store_of(alloc, &image)?;
    let mut beside = Beside::new(alloc, image)?;
    let lock = Call::Memory(MemoryCall::Lock(Name(60)));
    beside.call_on(alloc, &mut store, "lock", &lock)?;
    for (call, refusal) in &calls_on_resources() {
        check_lent(alloc, &mut store, &mut beside, Name(60), (call, *refusal))?;
    }
    Ok(())
}
