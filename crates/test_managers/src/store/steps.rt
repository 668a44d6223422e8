//! Calls with the replies that they must have, as rows, which are done on a store and on the plain
//! model next to it.

ghost use Rattle.std.specs.Prelude.{[], ◌≡◌};

use crate::notation::{check_reply, sides_of};
use crate::store::calls::call_of;
use heap_model::{
    Bytes, Call, DatabaseCall, Db, DbName, FileCall, MemoryCall, Name, RecordCall, RecordInfo,
    Reply,
};
use palm_store::Store;
use std::alloc::Global;
use std::test::Fail;
use test_beside::{Beside, store_of};
use test_support::{bytes_of as listed, equal};

pub(crate) enum Step {
    /// A line with a call and its reply.
    Does(&'static str),
    /// A database of this name is made, and the reply.
    Creates(&'static str, &'static str),
    /// The file of a listing is read, and the reply.
    Reads(&'static str, &'static str),
    /// What is written of a database is the file of a listing.
    Writes(Db, &'static str),
    /// A record without a byte is made before the others, and gets this ID.
    Numbers(Db, u32),
    /// The given number of locks is taken off a chunk, which has no more.
    Unlocks(Name, u32),
}

/// What an example is about, the listing of the image that it starts from, and its steps.
pub(crate) type Example = (&'static str, &'static str, &'static [Step]);

/// Does a call, which must return this reply.
fn check(
    alloc: Global,
    about: &str,
    store: &mut Store,
    beside: &mut Beside,
    call: &Call,
    reply: &str,
) -> Result<(), Fail>
    ensures { store.new.lents ≡ store.old.lents }
{
    let said = beside.call_on(alloc, store, about, call)?;
    check_reply(alloc, format_args!("{about}: {call:?}"), &said, reply)
}

/// Does the call of a line.
fn check_line(
    alloc: Global,
    about: &str,
    store: &mut Store,
    beside: &mut Beside,
    line: &str,
) -> Result<(), Fail>
    ensures { store.new.lents ≡ store.old.lents }
{
    let (call, reply) = sides_of(line)?;
    check(alloc, about, store, beside, &call_of(alloc, call)?, reply)
}

fn creation(name: &str) -> Call {
    Call::Database(DatabaseCall::Create {
        name: DbName::of(name.as_bytes()),
        kind: 0,
        creator: 0,
        resources: false,
        date: 0,
    })
}

/// The bytes of a listing.
fn file(alloc: Global, listing: &str) -> Result<Bytes, Fail> {
    Ok(Bytes::of(listed(alloc, listing)?))
}

/// Reads a file, which must return this reply.
fn check_read(
    alloc: Global,
    about: &str,
    store: &mut Store,
    beside: &mut Beside,
    listing: &str,
    reply: &str,
) -> Result<(), Fail>
    ensures { store.new.lents ≡ store.old.lents }
{
    let import = Call::File(FileCall::Import(file(alloc, listing)?));
    check(alloc, about, store, beside, &import, reply)
}

/// What is written of a database must be the file of a listing.
fn check_written(
    alloc: Global,
    about: &str,
    store: &mut Store,
    beside: &mut Beside,
    db: Db,
    listing: &str,
) -> Result<(), Fail>
    ensures { store.new.lents ≡ store.old.lents }
{
    let export = Call::File(FileCall::Export(db));
    let said = beside.call_on(alloc, store, about, &export)?;
    equal(about, said, Reply::Data(file(alloc, listing)?))
}

/// Makes a record without a byte before the others, which must get this ID.
fn check_id(
    alloc: Global,
    about: &str,
    store: &mut Store,
    beside: &mut Beside,
    db: Db,
    id: u32,
) -> Result<(), Fail>
    ensures { store.new.lents ≡ store.old.lents }
{
    let new = Call::Record(RecordCall::New { db, at: 0, size: 0 });
    beside.call_on(alloc, store, about, &new)?;
    let ask = Call::Record(RecordCall::Info(db, 0));
    match beside.call_on(alloc, store, about, &ask)? {
        Reply::Record(RecordInfo { id: found, .. }) => equal(about, found, id),
        _ => Err("no record")?,
    }
}

/// Takes the given number of locks off a chunk, which has no more.
fn unlock(
    alloc: Global,
    about: &str,
    store: &mut Store,
    beside: &mut Beside,
    name: Name,
    count: u32,
) -> Result<(), Fail>
    ensures { store.new.lents ≡ store.old.lents }
{
    let call = Call::Memory(MemoryCall::Unlock(name));
    for left in (0..count).rev() {
        let said = beside.call_on(alloc, store, about, &call)?;
        equal(about, said, Reply::Number(left))?;
    }
    Ok(())
}

fn check_step(
    alloc: Global,
    about: &str,
    store: &mut Store,
    beside: &mut Beside,
    step: &Step,
) -> Result<(), Fail>
    ensures { store.new.lents ≡ store.old.lents }
{
    match step {
        Step::Does(line) => check_line(alloc, about, store, beside, line),
        Step::Creates(name, reply) => check(alloc, about, store, beside, &creation(name), reply),
        Step::Reads(listing, reply) => check_read(alloc, about, store, beside, listing, reply),
        Step::Writes(db, listing) => check_written(alloc, about, store, beside, *db, listing),
        Step::Numbers(db, id) => check_id(alloc, about, store, beside, *db, *id),
        Step::Unlocks(name, count) => unlock(alloc, about, store, beside, *name, *count),
    }
}

/// Does steps, each on a store that is checked anew.
pub(crate) fn check_anew(
    alloc: Global,
    about: &str,
    image: Vec<u8>,
    steps: &[Step],
) -> Result<(), Fail> {
    let mut beside = Beside::new(alloc, image)?;
    for step in steps {
        let mut store = store_of(alloc, &beside.image)?;
        check_step(alloc, about, &mut store, &mut beside, step)?;
    }
    Ok(())
}

/// Does the steps of examples, each from its own image.
pub(crate) fn check_all(rt: &impl AllocGlobal, examples: &[Example]) -> Result<(), Fail> {
    for (about, listing, steps) in examples {
        check_anew(rt.alloc(), about, listed(rt.alloc(), listing)?, steps)?;
    }
    Ok(())
}

/// Does steps on one store from end to end.
pub(crate) fn check_on_one(
    alloc: Global,
    about: &str,
    image: Vec<u8>,
    steps: &[Step],
) -> Result<(), Fail> {
    let mut store = store_of(alloc, &image)?;
    let mut beside = Beside::new(alloc, image)?;
    for step in steps {
        check_step(alloc, about, &mut store, &mut beside, step)?;
    }
    Ok(())
}
