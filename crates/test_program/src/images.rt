//! Images that come of stores, checked by the check of stores and by the plain model, and calls
//! done on those that are accepted.

use crate::changes::{Parts, change, drawn};
use rand_pcg::Pcg32;
use std::alloc::Global;
use std::test::Fail;
use test_beside::{
    Beside, MIXED, Verdict, agreed_verdict, blank_image, chained_image, image_of, store_of,
};
use test_support::{ONE_DATABASE, TWO_DATABASES, bytes_of};

/// How many images come of each store by changes.
const IMAGES_EACH: u64 = 250;

/// How many calls are done on an image that is accepted.
const CALLS_EACH: u32 = 8;

/// How many calls make a store that is drawn.
const DRAWN_CALLS: u32 = 60;

/// A store to start from: an image with databases, or what a list of calls leaves of a blank one,
/// of either layout.
fn any_store(alloc: Global, seed: u64) -> Result<Vec<u8>, Fail> {
    match seed % 6 {
        0 => bytes_of(alloc, ONE_DATABASE),
        1 => bytes_of(alloc, TWO_DATABASES),
        2 => bytes_of(alloc, MIXED),
        3 => drawn_store(alloc, seed, chained_image(alloc, 1024, 5)?),
        _ => drawn_store(alloc, seed, blank_image(alloc, 1024, 20)?),
    }
}

fn drawn_store(alloc: Global, seed: u64, image: Vec<u8>) -> Result<Vec<u8>, Fail> {
    let mut random = Pcg32::new(seed, 3);
    let spot = format!(in alloc; "calls for store {seed}")?;
    do_calls(alloc, &mut random, image, DRAWN_CALLS, spot.as_str())
}

/// An image with one to three changes.
fn changed(random: &mut Pcg32, image: &Vec<u8>, parts: &Parts) -> Result<Vec<u8>, Fail> {
    let mut bytes = image.clone()?;
    for _ in 0..drawn(random, 3).saturating_add(1) {
        change(random, bytes.as_mut_slice(), parts);
    }
    Ok(bytes)
}

/// Does `calls` calls on an accepted image, on the store and on the plain model of it, and returns
/// the image that they leave.
fn do_calls(
    alloc: Global,
    random: &mut Pcg32,
    image: Vec<u8>,
    calls: u32,
    spot: &str,
) -> Result<Vec<u8>, Fail> {
    let mut store = store_of(alloc, &image)?;
    let mut beside = Beside::new(alloc, image)?;
    for _ in 0..calls {
        let call = beside.any_call(random, alloc)?;
        beside.call_on(alloc, &mut store, spot, &call)?;
    }
    beside.check_meant(alloc, &image_of(alloc, &store)?)?;
    Ok(beside.image)
}

/// How many images were no heap, no store, and accepted.
#[derive(Default, Drop)]
pub(crate) struct Verdicts {
    pub(crate) no_heap: u64,
    pub(crate) no_store: u64,
    pub(crate) accepted: u64,
}

impl Verdicts {
    fn add(&mut self, verdict: Verdict) {
        match verdict {
            Verdict::NoHeap => self.no_heap = self.no_heap.saturating_add(1),
            Verdict::NoStore => self.no_store = self.no_store.saturating_add(1),
            Verdict::Accepted => self.accepted = self.accepted.saturating_add(1),
        }
    }
}

/// Checks images that come of a store, and counts what they are.
fn check_store(alloc: Global, seed: u64, verdicts: &mut Verdicts) -> Result<(), Fail> {
    let image = any_store(alloc, seed)?;
    let parts = Parts::of(alloc, &image)?;
    for number in 0..IMAGES_EACH {
        let mut random = Pcg32::new(seed, number);
        let bytes = changed(&mut random, &image, &parts)?;
        verdicts.add(check_image(alloc, &mut random, bytes, (number, seed))?);
    }
    Ok(())
}

/// Checks an image of a number that comes of a store, and answers what it is.
fn check_image(
    alloc: Global,
    random: &mut Pcg32,
    bytes: Vec<u8>,
    (number, seed): (u64, u64),
) -> Result<Verdict, Fail> {
    let spot = format!(in alloc; "image {number} of store {seed}")?;
    let verdict = agreed_verdict(alloc, spot.as_str(), &bytes)?;
    if verdict == Verdict::Accepted {
        do_calls(alloc, random, bytes, CALLS_EACH, spot.as_str())?;
    }
    Ok(verdict)
}

/// Checks the images of `stores` stores, and counts them by their verdicts.
pub(crate) fn check_stores(alloc: Global, stores: u64) -> Result<Verdicts, Fail> {
    let mut verdicts = Verdicts::default();
    for seed in 0..stores {
        check_store(alloc, seed, &mut verdicts)?;
    }
    Ok(verdicts)
}
