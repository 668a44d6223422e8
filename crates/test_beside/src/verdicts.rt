//! What the check of stores says of an image, and what the plain model says.

use palm_store::{Store, StoreFault};
use raw_region::Region;
use std::alloc::Global;
use std::fmt::Display;
use std::test::Fail;
use test_model::{Image, PlainStore, Unaccepted, Unreadable};
use test_support::equal;

/// What is said of bytes.
#[derive(Clone, Copy, Debug, PartialEq, Eq)]
pub enum Verdict {
    NoHeap,
    NoStore,
    Accepted,
}

/// What the plain model says.
fn verdict_of(alloc: Global, bytes: &[u8]) -> Result<Verdict, Fail> {
    let image = match Image::decode(alloc, bytes) {
        Ok(image) => image,
        Err(Unreadable::Memory) => return Err("no memory")?,
        Err(_) => return Ok(Verdict::NoHeap),
    };
    match PlainStore::of(alloc, &image) {
        Ok(_) => Ok(Verdict::Accepted),
        Err(Unaccepted::Memory) => Err("no memory")?,
        Err(_) => Ok(Verdict::NoStore),
    }
}

/// The same of the check of a store. A refused region comes back as it was.
fn check_verdict(alloc: Global, bytes: &[u8]) -> Result<Verdict, Fail> {
    let refused = match Store::check(alloc, Region::from_bytes(alloc, bytes)?) {
        Ok(_) => return Ok(Verdict::Accepted),
        Err(refused) => refused,
    };
    if refused.region.as_slice() != bytes {
        return Err("another region")?;
    }
    match refused.fault {
        StoreFault::OutOfMemory => Err("no memory")?,
        StoreFault::Heap(_) => Ok(Verdict::NoHeap),
        _ => Ok(Verdict::NoStore),
    }
}

/// What the check of stores says of bytes, which must be what the plain model says.
pub fn agreed_verdict<D: Display + Drop>(
    alloc: Global,
    spot: D,
    bytes: &[u8],
) -> Result<Verdict, Fail> {
    let verdict = verdict_of(alloc, bytes)?;
    equal(spot, check_verdict(alloc, bytes)?, verdict)?;
    Ok(verdict)
}
