//! Lists of calls that look random, on a store and on the plain model next to it.

ghost use Rattle.std.specs.Prelude.{[], ◌≡◌};

use heap_model::Call;
use palm_store::Store;
use rand_pcg::Pcg32;
use std::alloc::Global;
use std::test::*;
use test_beside::{Beside, Counts, MIXED, OUTCOMES, blank_image, chained_image, store_of};
use test_support::{ONE_DATABASE, TWO_DATABASES, bytes_of as listed, equal};

/// Does a call on a store and on the model, and counts what it returns. The call's text names it in
/// an error.
fn count_call(
    alloc: Global,
    counts: &mut Counts,
    store: &mut Store,
    beside: &mut Beside,
    called: (&str, &Call),
) -> Result<(), Fail>
    ensures { store.new.lents ≡ store.old.lents }
{
    let (spot, call) = called;
    let reply = beside.call_on(alloc, store, spot, call)?;
    counts.add(call, &reply)
}

/// Goes on with a store that was taken of the image, if `anew`.
fn renew(store: &mut Store, taken: Store, anew: bool)
    requires before { store.old.lents ≡ [] }
    requires whole { taken.lents ≡ [] }
    ensures { store.new.lents ≡ [] }
{
    if anew {
        *store = taken;
    }
}

/// Does a list of calls that a seed gives, each on the image that the one before left, and counts
/// what they return. Each image must be taken as a store; a call is done on that one, if `anew`,
/// and else on one store from end to end. Where a chunk is placed may differ between the two, so
/// each call is held against the model alone.
fn run_list(
    alloc: Global,
    counts: &mut Counts,
    image: Vec<u8>,
    (seed, count): (u64, u32),
    anew: bool,
) -> Result<(), Fail> {
    let mut random = Pcg32::new(seed, 1);
    let mut store = store_of(alloc, &image)?;
    let mut beside = Beside::new(alloc, image)?;
    for number in 0..count {
        let taken = store_of(alloc, &beside.image)?;
        renew(&mut store, taken, anew);
        let call = beside.any_call(&mut random, alloc)?;
        let spot = format!(in alloc; "call {number} of list {seed}")?;
        count_call(
            alloc,
            counts,
            &mut store,
            &mut beside,
            (spot.as_str(), &call),
        )?;
    }
    store_of(alloc, &beside.image)?;
    Ok(())
}

/// The lists of these seeds are done on an image that is taken anew for each call.
fn is_anew(seed: u64) -> bool {
    seed < 33
}

fn run_blank(
    alloc: Global,
    counts: &mut Counts,
    (size, slots): (u32, u16),
    (seed, count): (u64, u32),
) -> Result<(), Fail> {
    let image = blank_image(alloc, size, slots)?;
    run_list(alloc, counts, image, (seed, count), is_anew(seed))
}

/// The same from an image with a chain of tables.
fn run_chained(
    alloc: Global,
    counts: &mut Counts,
    (size, slots): (u32, u16),
    (seed, count): (u64, u32),
) -> Result<(), Fail> {
    let image = chained_image(alloc, size, slots)?;
    run_list(alloc, counts, image, (seed, count), is_anew(seed))
}

fn run_listed(
    alloc: Global,
    counts: &mut Counts,
    listing: &str,
    (seed, count): (u64, u32),
) -> Result<(), Fail> {
    let image = listed(alloc, listing)?;
    run_list(alloc, counts, image, (seed, count), is_anew(seed))
}

/// From blank images, and from images with databases.
#[test]
fn lists_of_calls(rt: HostRuntime) -> Result<(), Fail> {
    let alloc = rt.alloc();
    let mut counts = Counts::new(alloc);
    for seed in 1..49u64 {
        run_blank(alloc, &mut counts, (256, 8), (seed, 150))?;
        run_blank(alloc, &mut counts, (512, 6), (seed, 150))?;
        run_blank(alloc, &mut counts, (4096, 40), (seed, 300))?;
        run_listed(alloc, &mut counts, ONE_DATABASE, (seed, 100))?;
        run_listed(alloc, &mut counts, TWO_DATABASES, (seed, 100))?;
        run_listed(alloc, &mut counts, MIXED, (seed, 300))?;
    }
    for seed in 29..37u64 {
        run_chained(alloc, &mut counts, (256, 1), (seed, 100))?;
    }
    for seed in 32..34u64 {
        run_chained(alloc, &mut counts, (512, 2), (seed, 100))?;
        run_chained(alloc, &mut counts, (4096, 5), (seed, 150))?;
    }
    equal("not met", counts.missing(&OUTCOMES), None)
}
