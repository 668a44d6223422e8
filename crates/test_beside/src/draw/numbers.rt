//! Numbers that are drawn.

use rand::RngExt;
use rand_pcg::Pcg32;

/// A number below a bound, and 0 where that is 0.
pub(crate) fn below(random: &mut Pcg32, bound: u32) -> u32 {
    random.random_range(0..bound.max(1))
}

/// The same of smaller numbers.
pub(crate) fn below_u16(random: &mut Pcg32, bound: u16) -> u16 {
    random.random_range(0..bound.max(1))
}

pub(crate) fn below_u8(random: &mut Pcg32, bound: u8) -> u8 {
    random.random_range(0..bound.max(1))
}

pub(crate) fn any_byte(random: &mut Pcg32) -> u8 {
    random.random_range(0u8..=255)
}

/// A date, a type or another word whose values mean nothing here.
pub(crate) fn any_word(random: &mut Pcg32) -> u32 {
    below(random, u32::MAX)
}

pub(crate) fn any_flag(random: &mut Pcg32) -> bool {
    below(random, 2) == 0
}
