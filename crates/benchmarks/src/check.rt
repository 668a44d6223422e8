//! The checker of heaps. `check IMAGE REPEATS` reads an image, and prints the checker's result, and
//! the best and the median time of REPEATS checks in microseconds. Without words the image is a
//! blank one. bench/check_heap.c makes the same checks in plain C.

ghost use Rattle.std.specs.Prelude.{[], ◌≡◌, IfOk, None};

use crate::timing::Times;
use crate::work::{Field, NONE, Work};
use anyhow::Result;
use chunk_format::blank;
use heap_check::{HeapFault, Summary, check_heap};
use raw_region::Region;
use std::fs::Files;
use std::rt::Clock;
use std::time::Instant;
use std::{fs, io};

/// The meaning of the words of a run.
pub(crate) const FIELDS: [Field; 2] = [Field::Image, Field::Rounds];

/// The work of a run without words.
pub(crate) const LEAST: Work<'static> = NONE;

/// Checks the image the given number of times, and prints the result and the times.
#[inline(never)]
pub(crate) fn run(rt: &(impl Clock + Files + Print + AllocGlobal), work: Work<'_>) -> Result<()> {
    let region = region_of(rt, work.image)?;
    print_answer(rt, check_heap(&region))?;
    time_checks(rt, &region, work.rounds)?;
    Ok(())
}

/// Returns the region of an image in a file, or a blank one.
fn region_of(rt: &(impl Files + AllocGlobal), image: Option<&str>) -> Result<Region>
    ensures { IfOk result (λ region. region.lents ≡ []) }
{
    match image {
        Some(image) => read_region(rt, image),
        None => Ok(blank(rt.alloc(), 4096, 64)?),
    }
}

fn read_region(rt: &(impl Files + AllocGlobal), image: &str) -> Result<Region>
    ensures { IfOk result (λ region. region.lents ≡ []) }
{
    let bytes = fs::read(rt, image)?;
    Ok(Region::from_bytes(rt.alloc(), &bytes)?)
}

/// Checks a region the given number of times, and prints the times.
fn time_checks(
    rt: &(impl Clock + Print + AllocGlobal),
    region: &Region,
    repeats: u16,
) -> io::Result<()>
    requires { region.now.lents ≡ [] }
{
    let mut times = Times::new(rt.alloc());
    for _ in 0..repeats {
        time_heap_check(rt, region, &mut times)?;
    }
    times.print_microseconds(rt, "check")
}

/// Adds the time of a check. The result is discarded.
pub(crate) fn time_heap_check(rt: &impl Clock, region: &Region, times: &mut Times) -> io::Result<()>
    requires { region.now.lents ≡ [] }
{
    let start = Instant::now(rt)?;
    let _ = check_heap(region);
    times.add(start.elapsed(rt)?)?;
    Ok(())
}

fn print_answer(rt: &impl Print, answer: Result<Summary, HeapFault>) -> io::Result<()> {
    match answer {
        Ok(found) => println!(rt;
            "ok size {} slots {} movable {} fixed {} free {}",
            found.size, found.slots, found.movable, found.fixed, found.free,
        ),
        Err(fault) => println!(rt; "bad {fault}"),
    }
}
