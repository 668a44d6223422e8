//! Sets of numbers, as bits in bytes that the caller lends.
//!
//! Each byte has the bits of eight numbers, the least in its lowest bit. So a set of `n` bytes has
//! room for the numbers below `8 * n`. If all bytes are zero, the set is empty.
#![tactic(auto)]

mod sets;

pub use sets::{add, first_from, first_missing, has, remove, remove_byte};
