//! The marks of lent parts: a set of numbers, as bits.

ghost use Rattle.std.specs.Prelude.{◌≡◌, ◌≤◌, ◌<◌, ◌+◌, ◌/◌, ◌↔◌, ℕ, IsTrue, length, max, slice_index, vec_capacity};
ghost use Rattle.bit_sets.specs.Sets.{AddsNumber, IsInSet};

/// Writes zeros to the bytes before `count` that were never written. Their memory is there already,
/// so nothing is allocated.
fn write_zeros(marks: &mut Vec<u8>, count: usize)
    requires { count ≤ vec_capacity marks.old }
    ensures same { (byte : ℕ) → slice_index marks.new.items byte ≡ slice_index marks.old.items byte }
    ensures len { length marks.new.items ≡ max (length marks.old.items) count }
    ensures capacity { vec_capacity marks.old ≤ vec_capacity marks.new }
{
    if marks.len() < count {
        let _ = marks.resize(count, 0);
    }
}

/// Adds a number to the set.
pub(crate) fn add(marks: &mut Vec<u8>, number: u32)
    requires { number / 8 < vec_capacity marks.old }
    ensures adds { AddsNumber marks.old.items marks.new.items number }
    ensures len { length marks.new.items ≡ max (length marks.old.items) (number / 8 + 1) }
    ensures capacity { vec_capacity marks.old ≤ vec_capacity marks.new }
{
    write_zeros(marks, (number / 8) as usize + 1);
    bit_sets::add(marks, number);
}

/// Returns whether a number is in the set. A byte that was never written has no number.
#[inline]
pub(crate) fn has(marks: &[u8], number: u32) -> bool
    ensures { IsTrue result ↔ IsInSet marks.now number }
{
    ((number / 8) as usize) < marks.len() && bit_sets::has(marks, number)
}
