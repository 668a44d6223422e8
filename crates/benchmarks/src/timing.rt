//! The shared part of the benchmarks: measured times, with the best and the median of them, and
//! sums. By the sums two programs that do the same calls are compared.

mod clock;
mod sums;
mod times;

pub(crate) use sums::{Sum, Sums};
pub(crate) use times::Times;
