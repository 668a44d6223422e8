//! Allocations that ask an `Allowance` for a grant first.
//!
//! The project's libraries allocate by the functions of this crate, except for a region's block. A
//! test can refuse each allocation in turn. Each contract says that a function fails only if its
//! allocation failed or was refused.
#![tactic(auto)]

mod growth;

ghost use Rattle.std.specs.Prelude.{◌≡◌, OnErr};
ghost use Rattle.allowance.specs.Refusals.{GrowthRefused};

pub use growth::{copied, extend, failed, filled, insert, push, room_for, text_of, zeros};
use std::alloc::{AllocError, Global};

/// A failed allocation. Only this crate can make one.
#[derive(Drop)]
pub struct Failure(());

/// A source of memory. Each allocation asks it for a grant first.
pub trait Allowance {
    /// The fact that an allocation failed or was refused. No other step of a program proves it.
    ghost is_short: { Self → Type 0 };

    /// Returns the allocator, for values that take no memory yet.
    fn allocator(&self) -> Global;

    /// Grants the allocator for one allocation.
    ///
    /// # Errors
    /// - `AllocError`: if this allocation is refused.
    fn grant(&self) -> Result<Global, AllocError>
        ensures { OnErr result (is_short self.now) };

    /// Records that a granted allocation failed.
    fn note(&self, failure: Failure)
        ensures { is_short self.now };
}

/// Grants every allocation.
impl Allowance for Global {
    ghost is_short = { λ _. GrowthRefused };

    fn allocator(&self) -> Global {
        *self
    }

    fn grant(&self) -> Result<Global, AllocError> {
        Ok(*self)
    }

    #[tactic(auto, using(crate::specs::Refusals::told_of_failure))]
    fn note(&self, _failure: Failure) {}
}
