//! Slides that are one call of C's `memcpy` or `memmove`.
//!
//! If the two parts of a copy don't overlap, the compiler makes it a call of `memcpy`. If they
//! overlap and it knows the distance, it makes a call of `memmove`. Any other slide becomes a loop,
//! which takes up to twice as long.

ghost use Rattle.std.specs.Prelude.{◌≡◌, ◌+◌, ◌-◌, ◌≤◌, ◌⊎◌, length, slice_range};
ghost use Rattle.heap_model.specs.Bytes.{overwritten};

/// Copies the `n` bytes at `from` to `to`, which is `BY` bytes down or up.
#[tactic(auto, using(crate::proofs::PartLaws::slid_down, crate::proofs::PartLaws::slid_up))]
pub(crate) fn slide_by<const BY: usize>(bytes: &mut [u8], from: usize, to: usize, n: usize)
    requires from { from + n ≤ length bytes.old }
    requires to { to + n ≤ length bytes.old }
    requires distance { (from ≡ to + BY) ⊎ (to ≡ from + BY) }
    ensures { bytes.new ≡ overwritten bytes.old to (slice_range bytes.old from (from + n)) }
{
    if to < from {
        close_gap::<BY>(&mut bytes[to..from + n]);
    } else {
        open_gap::<BY>(&mut bytes[from..to + n]);
    }
}

/// Copies all bytes except the first `BY` down to the start of the slice.
#[inline(never)]
#[tactic(auto, using(crate::proofs::PartLaws::overwritten_by_slide))]
fn close_gap<const BY: usize>(part: &mut [u8])
    requires { BY ≤ length part.old }
    ensures { part.new ≡ overwritten part.old 0 (slice_range part.old BY (length part.old)) }
{
    part.copy_within(BY..part.len(), 0);
}

/// Copies all bytes except the last `BY` up to the end of the slice.
#[inline(never)]
fn open_gap<const BY: usize>(part: &mut [u8])
    requires { BY ≤ length part.old }
    ensures { part.new ≡ overwritten part.old BY (slice_range part.old 0 (length part.old - BY)) }
{
    part.copy_within(0..part.len() - BY, BY);
}

/// Copies the `n` bytes at `from` down to `to`. The two parts must not overlap.
#[inline]
#[tactic(auto, using(crate::proofs::PartLaws::copied_down))]
pub(crate) fn copy_down(bytes: &mut [u8], from: usize, to: usize, n: usize)
    requires within { from + n ≤ length bytes.old }
    requires apart { to + n ≤ from }
    ensures { bytes.new ≡ overwritten bytes.old to (slice_range bytes.old from (from + n)) }
{
    let (front, back) = bytes.split_at_mut(from);
    front[to..to + n].copy_from_slice(&back[..n]);
}
