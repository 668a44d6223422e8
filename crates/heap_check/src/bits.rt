//! The bits of the check of a chain: one for each word of the image.

ghost use Rattle.std.specs.Prelude.{[], ◌≡◌, ◌≤◌, length, false, None};
ghost use Rattle.heap_model.specs.Slots.{is_chained as model_chained};
ghost use Rattle.bit_sets.specs.Sets.{HasNone};
ghost use Rattle.heap_check.specs.Bits.{AreEnoughBits};

use chunk_format::{FRAME_SIZE, is_chained};
use raw_region::Region;

/// The size in bytes of a set with a bit for each word of the largest image.
pub const BITS_SIZE: usize = 524_288;

/// Returns the size in bytes of the bits that `check_heap_with` needs for an image. It is
/// `BITS_SIZE` for an image with a chain of tables, and 0 for any other.
pub fn bits_needed(region: &Region) -> usize
    requires whole { region.now.lents ≡ [] }
    ensures enough { AreEnoughBits region.now.bytes result }
    ensures none { model_chained region.now.bytes ≡ false → result ≡ 0 }
    ensures most { result ≤ 524288 }
{
    if region.len() >= FRAME_SIZE as usize && is_chained(region) {
        BITS_SIZE
    } else {
        0
    }
}

/// Bits of which none is set.
#[inline]
#[tactic(none)]
pub fn no_bits() -> [u8; BITS_SIZE]
    ensures { HasNone result }
{
    [0; BITS_SIZE]
}
