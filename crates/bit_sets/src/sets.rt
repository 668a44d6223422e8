//! Adds numbers to a set, removes them, and looks them up.

ghost use Rattle.std.specs.Prelude.{◌<◌, ◌/◌, ◌*◌, ◌+◌, ◌^◌, ◌≡◌, ◌↔◌, ℕ, length, IsTrue, IfSome, IfNone};
ghost use Rattle.bit_sets.specs.Sets.{IsInSet, AddsNumber, RemovesNumber, KeepsOtherBytes, IsFirstMissing, IsLeastFrom, HasNoneBetween, HasNoneFrom};

/// Reports whether a number is in the set.
#[inline]
pub fn has(set: &[u8], number: u32) -> bool
    requires { number / 8 < length set.now }
    ensures { IsTrue result ↔ IsInSet set.now number }
{
    set[(number / 8) as usize] & (1u8 << (number % 8)) != 0
}

/// Adds a number to the set.
#[inline]
pub fn add(set: &mut [u8], number: u32)
    requires { number / 8 < length set.old }
    ensures adds { AddsNumber set.old set.new number }
    ensures len { length set.new ≡ length set.old }
{
    set[(number / 8) as usize] |= 1u8 << (number % 8);
}

/// Removes a number, which must be in the set.
#[inline]
pub fn remove(set: &mut [u8], number: u32)
    requires room { number / 8 < length set.old }
    requires there { IsInSet set.old number }
    ensures removes { RemovesNumber set.old set.new number }
    ensures len { length set.new ≡ length set.old }
{
    set[(number / 8) as usize] ^= 1u8 << (number % 8);
}

/// Removes a number, and all numbers that have their bits in the same byte.
#[inline]
pub fn remove_byte(set: &mut [u8], number: u32)
    requires { number / 8 < length set.old }
    ensures gone { (other : ℕ) → other / 8 ≡ number / 8 → IsInSet set.new other → ⊥ }
    ensures none_comes { (other : ℕ) → IsInSet set.new other → IsInSet set.old other }
    ensures others { KeepsOtherBytes set.old set.new number }
{
    set[(number / 8) as usize] = 0;
}

/// Returns the least number that isn't in the set. If the set is full, that is the first number it
/// has no room for.
pub fn first_missing(set: &[u8]) -> u32
    requires { length set.now < 2 ^ 28 }
    ensures { IsFirstMissing set.now result }
{
    for index in 0..set.len() {
        if set[index] != 0xFF {
            return index as u32 * 8 + set[index].trailing_ones();
        }
    }
    set.len() as u32 * 8
}

/// Returns the least number of the set that is `from` or greater, if there is one. It passes over a
/// byte without a number at once.
pub fn first_from(set: &[u8], from: u32) -> Option<u32>
    requires { length set.now < 2 ^ 28 }
    ensures first { IfSome result (IsLeastFrom set.now from) }
    ensures none { IfNone result (HasNoneFrom set.now from) }
{
    for index in (from / 8) as usize..set.len() {
        if set[index] != 0 {
            let start = from.max(index as u32 * 8);
            if let Some(number) = first_of_byte(set, start) {
                return Some(number);
            }
        }
    }
    None
}

/// Returns the least number of the set that is `from` or greater and has its bit in the same byte
/// as `from`, if there is one.
fn first_of_byte(set: &[u8], from: u32) -> Option<u32>
    requires few { length set.now < 2 ^ 28 }
    requires inside { from / 8 < length set.now }
    ensures first { IfSome result (IsLeastFrom set.now from) }
    ensures none { IfNone result (HasNoneBetween set.now from (8 * (from / 8) + 8)) }
{
    for number in from..8 * (from / 8) + 8 {
        if has(set, number) {
            return Some(number);
        }
    }
    None
}
