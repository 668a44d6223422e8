//! The calls on records, and some on resources. `records SIZE SLOTS RECORDS CALLS PASSES ROUNDS`
//! makes a store in an image of SIZE bytes with SLOTS slots, and a database of RECORDS records in
//! it. It makes another store with the same number of resources. In each round of a kind CALLS
//! entries are made, moved or removed, or all entries are asked for PASSES times. For each kind of
//! call it prints the calls of a round, and the best and the median processor time of a round in
//! nanoseconds.
//!
//! The last line has the sum of all replies, and the sum of the words of the images at the end.
//! Without words the run prints only this line, for small databases. bench/record_calls.c does the
//! same calls in plain C.

ghost use Rattle.std.specs.Prelude.{[], ◌≡◌, IfOk};

mod load;
mod resources;

use crate::timing::{Sums, Times};
use crate::work::{Field, NONE, Work};
use anyhow::{Result, bail};
use chunk_format::blank;
use heap_model::{Db, DbName};
use load::{Call, Load};
use palm_store::Store;
use raw_region::Region;
use resources::ResourceLoad;
use std::alloc::Global;
use std::io;
use std::rt::CpuClock;

/// The meaning of the words of a run.
pub(crate) const FIELDS: [Field; 6] = [
    Field::Size,
    Field::Slots,
    Field::Records,
    Field::Calls,
    Field::Passes,
    Field::Rounds,
];

/// The work of a run without words.
pub(crate) const LEAST: Work<'static> = Work {
    size: 16384,
    slots: 128,
    records: 100,
    calls: 8,
    passes: 2,
    rounds: 2,
    ..NONE
};

/// The kinds of call, with the names that are printed.
static CALLS: [(&str, Call); 17] = [
    ("new_record_filling", Call::Fill),
    ("new_resource_filling", Call::FillResources),
    ("new_record_at_the_end", Call::NewAtTheEnd),
    ("remove_the_last", Call::RemoveTheLast),
    ("remove_the_first", Call::RemoveTheFirst),
    ("move_to_the_end", Call::MoveToTheEnd),
    ("move_to_the_front", Call::MoveToTheFront),
    ("record_info", Call::Info),
    ("search_by_id", Call::SearchById),
    ("find_by_id_of_the_last", Call::FindTheLast),
    ("num_in_category", Call::CountCategory),
    ("move_category", Call::MoveCategory),
    ("detach_and_attach", Call::DetachAndAttach),
    ("find_resource_of_the_last", Call::FindResource),
    ("find_type_of_the_last", Call::FindType),
    ("remove_the_first_resource", Call::RemoveResource),
    ("delete_category", Call::DeleteCategory),
];

/// The type of the database of records, `DATA`.
const KIND: u32 = 0x4441_5441;

/// The type of the database of resources, `appl`.
const PROGRAM_TYPE: u32 = 0x6170_706C;

/// The creator of the databases, `Test`.
const CREATOR: u32 = 0x5465_7374;

/// Times each kind of call on a new load, and prints the sums.
#[inline(never)]
pub(crate) fn run(rt: &(impl CpuClock + Print + AllocGlobal), work: Work<'_>) -> Result<()> {
    let mut load = blank_load(rt.alloc(), work)?;
    time_each(rt, &mut load, work)?;
    let mut sums = Sums::new();
    load.add_to(&mut sums);
    sums.print(rt)?;
    Ok(())
}

/// Times each kind of call.
fn time_each(
    rt: &(impl CpuClock + Print + AllocGlobal),
    load: &mut Load,
    work: Work<'_>,
) -> io::Result<()> {
    for (name, call) in &CALLS {
        time_calls(rt, load, work, name, *call)?;
    }
    Ok(())
}

/// Makes a load on a database without records and on one without resources, each alone in its
/// image.
fn blank_load(alloc: Global, work: Work<'_>) -> Result<Load> {
    let (store, db) = blank_store(alloc, work, b"Resources", PROGRAM_TYPE, true)?;
    let resources = ResourceLoad::new(store, db);
    let (store, db) = blank_store(alloc, work, b"Records", KIND, false)?;
    Ok(Load::new(store, db, resources))
}

/// Makes a store with one database, which has no entries.
fn blank_store(
    alloc: Global,
    work: Work<'_>,
    name: &[u8],
    kind: u32,
    resources: bool,
) -> Result<(Store, Db)>
    ensures { IfOk result (λ made. made.0.lents ≡ []) }
{
    let mut store = accepted(alloc, blank(alloc, work.size, work.slots)?)?;
    let db = store.create(&DbName::of(name), kind, CREATOR, resources, 0)?;
    Ok((store, db))
}

/// Makes the store of a region.
pub(crate) fn accepted(alloc: Global, region: Region) -> Result<Store>
    requires { region.lents ≡ [] }
    ensures { IfOk result (λ store. store.lents ≡ []) }
{
    match Store::check(alloc, region) {
        Ok(store) => Ok(store),
        Err(error) => bail!("{}", error.fault),
    }
}

/// Returns the region of a store of which nothing is lent.
pub(crate) fn region_of(store: Store) -> Region
    requires { store.lents ≡ [] }
    ensures { result ≡ store }
{
    match store.into_region() {
        Ok(region) => region,
        Err(_) => unreachable!(),
    }
}

/// Does calls of one kind in each round.
fn time_calls(
    rt: &(impl CpuClock + Print + AllocGlobal),
    load: &mut Load,
    work: Work<'_>,
    name: &str,
    call: Call,
) -> io::Result<()> {
    let mut times = Times::new(rt.alloc());
    for _ in 0..call.rounds(work) {
        load.prepare(call);
        time_to_repeat(rt, load, call, work, &mut times)?;
        load.even_out(call, work);
    }
    times.print(rt, work, name, load.calls(call, work))
}

/// Adds the time that calls of one kind take.
fn time_to_repeat(
    rt: &impl CpuClock,
    load: &mut Load,
    call: Call,
    work: Work<'_>,
    times: &mut Times,
) -> io::Result<()> {
    let start = rt.thread_cpu_time()?;
    load.repeat(call, work);
    times.add_since(rt, start)
}
