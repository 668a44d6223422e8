//! Compares the checker of stores with that of heaps. `stores REPEATS` makes images of stores. For
//! each it prints the checker's result, and the best and the median time of REPEATS checks by each
//! checker in microseconds. Without words it prints only the results.

ghost use Rattle.std.specs.Prelude.{[], ◌≡◌};

mod image;

use crate::check::time_heap_check;
use crate::timing::Times;
use crate::work::{Field, NONE, Work};
use anyhow::Result;
use image::{Flaw, Store};
use raw_region::Region;
use std::io;
use std::rt::Clock;
use std::time::Instant;
use store_check::{StoreFault, StoreSummary, check_store};

/// The words of a run: the number of times that each image is checked.
pub(crate) const FIELDS: [Field; 1] = [Field::Rounds];

/// The work of a run without words.
pub(crate) const LEAST: Work<'static> = NONE;

/// The maximum size of an image.
const MOST_CHECKED: u32 = 16_777_208;

/// Returns the images, each with its name. The first two have the maximum number of slots. In the
/// next two all numbers go down with the size.
fn stores() -> [(&'static str, Store); 7] {
    let records = store(MOST_CHECKED, 1, 65_533);
    let shared = store(MOST_CHECKED, 2, 65_532);
    [
        ("records", records),
        ("falling", records.with(Flaw::FallingIds)),
        ("half", store(MOST_CHECKED / 16 * 8, 1, 32_766)),
        ("quarter", store(MOST_CHECKED / 32 * 8, 1, 16_383)),
        ("one_id", records.with(Flaw::OneId)),
        ("names", store(MOST_CHECKED, 1024, 62)),
        ("shared", shared.with(Flaw::SharedData)),
    ]
}

/// Returns a store of `size` bytes with `databases` databases, each with `records` records.
fn store(size: u32, databases: u16, records: u16) -> Store {
    Store {
        size,
        databases,
        records,
        flaw: Flaw::Nothing,
    }
}

/// Checks each of the images, and prints the results and the times of both checkers.
#[inline(never)]
pub(crate) fn run(rt: &(impl Clock + Print + AllocGlobal), work: Work<'_>) -> Result<()> {
    for (name, store) in stores() {
        println!(rt; "image {name}")?;
        time_store(rt, store, work.rounds)?;
    }
    Ok(())
}

/// Makes the image of a store, and checks it `repeats` times.
fn time_store(
    rt: &(impl Clock + Print + AllocGlobal),
    store: Store,
    repeats: u16,
) -> io::Result<()> {
    let region = store.image(rt.alloc())?;
    print_found(rt, check_store(&rt.alloc(), &region))?;
    time_both(rt, &region, repeats)
}

/// Runs both checkers in turns, and prints their times.
fn time_both(
    rt: &(impl Clock + Print + AllocGlobal),
    region: &Region,
    repeats: u16,
) -> io::Result<()>
    requires { region.now.lents ≡ [] }
{
    let (mut heap, mut store) = (Times::new(rt.alloc()), Times::new(rt.alloc()));
    for _ in 0..repeats {
        time_turn(rt, region, &mut heap, &mut store)?;
    }
    heap.print_microseconds(rt, "heap")?;
    store.print_microseconds(rt, "store")
}

/// Adds the time of a check by each. The results are discarded.
fn time_turn(
    rt: &(impl Clock + AllocGlobal),
    region: &Region,
    heap: &mut Times,
    store: &mut Times,
) -> io::Result<()>
    requires { region.now.lents ≡ [] }
{
    time_heap_check(rt, region, heap)?;
    time_store_check(rt, region, store)
}

/// Adds the time of a check of a store. The result is discarded.
fn time_store_check(
    rt: &(impl Clock + AllocGlobal),
    region: &Region,
    times: &mut Times,
) -> io::Result<()>
    requires { region.now.lents ≡ [] }
{
    let start = Instant::now(rt)?;
    let _ = check_store(&rt.alloc(), region);
    times.add(start.elapsed(rt)?)?;
    Ok(())
}

fn print_found(rt: &impl Print, found: Result<StoreSummary, StoreFault>) -> io::Result<()> {
    match found {
        Ok(StoreSummary { heap, databases }) => println!(rt;
            "ok size {} slots {} movable {} free {} databases {databases}",
            heap.size, heap.slots, heap.movable, heap.free,
        ),
        Err(fault) => println!(rt; "bad {fault}"),
    }
}
