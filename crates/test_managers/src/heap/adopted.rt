//! Which images are taken as heaps.

use crate::heap::images::{FIVE, ODD_IMAGE};
use mem_manager::Heap;
use raw_region::Region;
use std::alloc::Global;
use std::test::*;
use test_model::{Image, Unreadable};
use test_support::{BLANK, Finding, bytes_of, check_flipped};

/// Whether the plain model reads an image.
fn is_read(alloc: Global, image: &[u8]) -> Result<bool, Fail> {
    match Image::decode(alloc, image) {
        Ok(_) => Ok(true),
        Err(Unreadable::Memory) => Err("no memory")?,
        Err(_) => Ok(false),
    }
}

/// An image is taken exactly where the plain model reads it, and returned as it was.
#[derive(Clone, Copy)]
struct Adopting;

impl Finding for Adopting {
    fn is_right(&self, alloc: Global, image: &[u8]) -> Result<bool, Fail> {
        let (is_taken, region) = match Heap::adopt(Region::from_bytes(alloc, image)?) {
            Ok(heap) => (true, heap.into_region()),
            Err(refused) => (false, Ok(refused.region)),
        };
        let Ok(region) = region else {
            return Ok(false);
        };
        Ok(is_taken == is_read(alloc, image)? && region.as_slice() == image)
    }
}

static IMAGES: [&str; 3] = [BLANK, FIVE, ODD_IMAGE];

#[test]
fn images_with_a_flipped_bit(rt: HostRuntime) -> Result<(), Fail> {
    for listing in &IMAGES {
        let image = bytes_of(rt.alloc(), listing)?;
        check_flipped(&Adopting, rt.alloc(), &image)?;
    }
    Ok(())
}
