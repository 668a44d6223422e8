//! Distances from an offset to another, in bytes and in words.

ghost use Rattle.std.specs.Prelude.{◌≡◌, ◌≢◌, ◌<◌, ◌≤◌, ◌+◌, ◌*◌, ◌%◌, ◌^◌};

use chunk_format::SLOT_SIZE;

/// Returns how far an offset is after a place. If it's before the place, the result is greater than
/// the offset: it is as far after the place, less 2^32.
#[inline(always)]
pub(crate) fn distance(place: u32, at: u32) -> u32
    ensures after { place ≤ at → place + result ≡ at }
    ensures before { at < place → at < result }
    ensures wraps { at < place → place + result ≡ at + 2 ^ 32 }
{
    at.wrapping_sub(place)
}

/// Returns how many words a number of bytes is, or at least 2^30 if it isn't a whole number of
/// words. It's a rotation, so that one comparison tests a range of whole words.
#[inline(always)]
pub(crate) fn words(bytes: u32) -> u32
    ensures whole { bytes % 4 ≡ 0 → 4 * result ≡ bytes }
    ensures broken { bytes % 4 ≢ 0 → 2 ^ 30 ≤ result }
{
    bytes / SLOT_SIZE + bytes % SLOT_SIZE * (1 << 30)
}
