//! Lists of calls that look random, from blank images and from images with databases.

use crate::drawn::Drawn;
use rand_pcg::Pcg32;
use std::alloc::Global;
use std::test::*;
use test_beside::{Counts, MIXED, OUTCOMES, blank_image, chained_image};
use test_support::{ONE_DATABASE, TWO_DATABASES, bytes_of, equal};

/// Draws the list that a seed gives, in parts of the given number of calls. After each part the
/// whole list so far is run.
fn check_list(
    alloc: Global,
    counts: &mut Counts,
    start: Vec<u8>,
    seed: u64,
    parts: &[u32],
) -> Result<(), Fail> {
    let mut random = Pcg32::new(seed, 2);
    let mut drawn = Drawn::new(alloc, start)?;
    for length in parts {
        drawn.draw(alloc, &mut random, counts, *length)?;
        drawn.check_run(alloc)?;
    }
    Ok(())
}

/// What a list starts from: a blank image of the given numbers of bytes and slots, with one table
/// or with a chain of them, or a listed one with databases.
enum Start {
    Blank(u32, u16),
    Chained(u32, u16),
    Listed(&'static str),
}

static BLANKS: [Start; 3] = [
    Start::Blank(256, 8),
    Start::Blank(512, 6),
    Start::Blank(4096, 40),
];

static CHAINS: [Start; 2] = [Start::Chained(512, 2), Start::Chained(4096, 5)];

static FILLED: [Start; 3] = [
    Start::Listed(ONE_DATABASE),
    Start::Listed(TWO_DATABASES),
    Start::Listed(MIXED),
];

fn image_of(alloc: Global, start: &Start) -> Result<Vec<u8>, Fail> {
    match start {
        Start::Blank(size, slots) => blank_image(alloc, *size, *slots),
        Start::Chained(size, slots) => chained_image(alloc, *size, *slots),
        Start::Listed(listing) => bytes_of(alloc, listing),
    }
}

/// Draws such a list from each of some images.
fn check_lists(
    alloc: Global,
    counts: &mut Counts,
    starts: &[Start],
    seed: u64,
    parts: &[u32],
) -> Result<(), Fail> {
    for start in starts {
        check_list(alloc, counts, image_of(alloc, start)?, seed, parts)?;
    }
    Ok(())
}

/// Lists of 40 calls, of which each prefix from 30 calls on is run, so that what holds after one
/// call is seen.
static LAST_FRONTS: [u32; 11] = [30, 1, 1, 1, 1, 1, 1, 1, 1, 1, 1];

#[test]
fn fronts_from_blank_images(rt: HostRuntime) -> Result<(), Fail> {
    let mut counts = Counts::new(rt.alloc());
    check_lists(rt.alloc(), &mut counts, &BLANKS, 1, &LAST_FRONTS)
}

#[test]
fn fronts_from_images_with_chains(rt: HostRuntime) -> Result<(), Fail> {
    let mut counts = Counts::new(rt.alloc());
    check_lists(rt.alloc(), &mut counts, &CHAINS, 1, &LAST_FRONTS)
}

#[test]
fn fronts_from_images_with_databases(rt: HostRuntime) -> Result<(), Fail> {
    let mut counts = Counts::new(rt.alloc());
    check_lists(rt.alloc(), &mut counts, &FILLED, 2, &LAST_FRONTS)
}

/// Lists of 3,000 calls, whose fronts of one, ten, a hundred and a thousand calls are run too.
static PARTS: [u32; 5] = [1, 9, 90, 900, 2_000];

/// The list that a seed gives, from each image.
fn check_seed(alloc: Global, counts: &mut Counts, seed: u64) -> Result<(), Fail> {
    check_lists(alloc, counts, &BLANKS, seed, &PARTS)?;
    check_lists(alloc, counts, &FILLED, seed, &PARTS)
}

/// The lists together must have met each call accepted, and refused for each reason.
#[test]
fn lists_of_thousands_of_calls(rt: HostRuntime) -> Result<(), Fail> {
    let mut counts = Counts::new(rt.alloc());
    for seed in 3..33u64 {
        check_seed(rt.alloc(), &mut counts, seed)?;
    }
    for seed in 33..37u64 {
        check_lists(rt.alloc(), &mut counts, &CHAINS, seed, &PARTS)?;
    }
    equal("missing", counts.missing(&OUTCOMES), None)
}
