//! Lists of calls that look random, on a heap and on the plain model next to it.

ghost use Rattle.std.specs.Prelude.{[], ◌≡◌};

use crate::heap::beside::Beside;
use crate::heap::images::{FIVE, LARGE, ODD_IMAGE};
use heap_model::MemoryCall;
use rand_pcg::Pcg32;
use raw_region::Region;
use std::alloc::Global;
use std::test::*;
use test_beside::{chained_image, memory_call};
use test_model::Image;
use test_support::{changed_words, image};

/// The next call of a list, drawn from what the image has.
fn next_call(alloc: Global, beside: &Beside, random: &mut Pcg32) -> Result<MemoryCall, Fail> {
    let image = Image::decode(alloc, beside.image())?;
    Ok(memory_call(random, alloc, &image)?)
}

/// Does the next call of the list of a seed.
fn step(
    alloc: Global,
    beside: &mut Beside,
    random: &mut Pcg32,
    (seed, number): (u64, u32),
) -> Result<(), Fail> {
    let call = next_call(alloc, beside, random)?;
    let spot = format!(in alloc; "call {number} of list {seed}")?;
    beside.call(alloc, spot.as_str(), &call)?;
    Ok(())
}

/// Does a list of calls that a seed gives, each on the image that the one before left: on a heap
/// that is adopted for it, if `anew`, and else on one heap from end to end. Where a chunk is placed
/// may differ between the two, so each call is held against the model alone.
fn run_list(alloc: Global, region: Region, list: (u64, u32), anew: bool) -> Result<(), Fail>
    requires { region.lents ≡ [] }
{
    let (seed, count) = list;
    let mut random = Pcg32::new(seed, 1);
    let mut beside = Beside::new(alloc, region)?;
    for number in 0..count {
        if anew {
            beside.adopt_anew(alloc)?;
        }
        step(alloc, &mut beside, &mut random, (seed, number))?;
    }
    Ok(())
}

/// From a blank image of the given numbers of bytes and slots, a list of the given number of calls
/// is done in both ways.
fn run_blank(
    alloc: Global,
    (size, slots): (u32, u16),
    (seed, count): (u64, u32),
) -> Result<(), Fail> {
    for anew in [false, true] {
        let region = changed_words(alloc, size, slots, &[])?;
        run_list(alloc, region, (seed, count), anew)?;
    }
    Ok(())
}

/// The same from a blank image with a chain of tables.
fn run_chained(
    alloc: Global,
    (size, slots): (u32, u16),
    (seed, count): (u64, u32),
) -> Result<(), Fail> {
    for anew in [false, true] {
        let region = Region::from_bytes(alloc, &chained_image(alloc, size, slots)?)?;
        run_list(alloc, region, (seed, count), anew)?;
    }
    Ok(())
}

/// The same from the image of a listing.
fn run_listed(alloc: Global, listing: &str, (seed, count): (u64, u32)) -> Result<(), Fail> {
    for anew in [false, true] {
        let region = image(alloc, listing, "")?;
        run_list(alloc, region, (seed, count), anew)?;
    }
    Ok(())
}

#[test]
fn lists_from_blank_images(rt: HostRuntime) -> Result<(), Fail> {
    for seed in 1..9u64 {
        run_blank(rt.alloc(), (128, 4), (seed, 300))?;
        run_blank(rt.alloc(), (512, 9), (seed, 300))?;
        run_blank(rt.alloc(), (1024, 20), (seed, 600))?;
    }
    Ok(())
}

#[test]
fn lists_from_images_with_chains(rt: HostRuntime) -> Result<(), Fail> {
    for seed in 41..43u64 {
        run_chained(rt.alloc(), (128, 1), (seed, 100))?;
        run_chained(rt.alloc(), (512, 2), (seed, 200))?;
        run_chained(rt.alloc(), (2048, 1), (seed, 300))?;
    }
    Ok(())
}

#[test]
fn lists_from_images_with_chunks(rt: HostRuntime) -> Result<(), Fail> {
    for seed in 21..29u64 {
        run_listed(rt.alloc(), FIVE, (seed, 300))?;
        run_listed(rt.alloc(), LARGE, (seed, 600))?;
        run_listed(rt.alloc(), ODD_IMAGE, (seed, 300))?;
    }
    Ok(())
}
