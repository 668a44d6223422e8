//! Images that have one bit other.

use crate::wanted::holds;
use std::alloc::Global;
use std::test::Fail;

/// What a test finds out about an image.
pub trait Finding {
    /// Whether the reply for an image is the right one.
    fn is_right(&self, alloc: Global, image: &[u8]) -> Result<bool, Fail>;
}

/// Fails a test if the reply is wrong for an image that differs from this one in one bit.
pub fn check_flipped<F: Finding>(finding: &F, alloc: Global, image: &[u8]) -> Result<(), Fail> {
    for at in 0..image.len() {
        check_byte(finding, alloc, image, at)?;
    }
    Ok(())
}

/// The same of the bits of one byte.
fn check_byte<F: Finding>(finding: &F, alloc: Global, image: &[u8], at: usize) -> Result<(), Fail> {
    for bit in 0..8u8 {
        let is_right = finding.is_right(alloc, &flipped(alloc, image, at, bit)?)?;
        holds(format_args!("bit {bit} of byte {at}"), is_right)?;
    }
    Ok(())
}

/// An image with one bit other.
fn flipped(alloc: Global, image: &[u8], at: usize, bit: u8) -> Result<Vec<u8>, Fail> {
    let mut flipped = Vec::from_slice(alloc, image)?;
    if let Some(byte) = flipped.get_mut(at) {
        *byte ^= 1u8.wrapping_shl(u32::from(bit));
    }
    Ok(flipped)
}
