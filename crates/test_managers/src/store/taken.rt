//! Which images are taken as stores.

use std::alloc::Global;
use std::test::*;
use test_beside::{MIXED, Verdict, agreed_verdict, store_of};
use test_support::{Finding, bytes_of as listed, check_flipped};

/// An image is taken exactly where the plain model takes it, and returned as it was.
#[derive(Clone, Copy)]
struct Checking;

impl Finding for Checking {
    fn is_right(&self, alloc: Global, image: &[u8]) -> Result<bool, Fail> {
        match agreed_verdict(alloc, "an image with a flipped bit", image)? {
            Verdict::Accepted => match store_of(alloc, image)?.into_region() {
                Ok(region) => Ok(region.as_slice() == image),
                Err(_) => Ok(false),
            },
            _ => Ok(true),
        }
    }
}

#[test]
fn images_with_a_flipped_bit(rt: HostRuntime) -> Result<(), Fail> {
    let image = listed(rt.alloc(), MIXED)?;
    check_flipped(&Checking, rt.alloc(), &image)
}
