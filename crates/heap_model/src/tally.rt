//! A count that only contracts see.

ghost use Rattle.std.specs.Prelude.{◌≡◌, ◌+◌, ℕ};
ghost use Rattle.std.specs.Borrow.{ftrue};

use std::marker::{Model, PhantomData};

/// A count that takes no memory. It starts at 0, and only `add` changes it.
#[derive(Drop)]
pub struct Tally {
    marker: PhantomData<u8>,
    pub ghost total: { ℕ },
}

impl Model for Tally {
    ghost also_owns = { λ _. ftrue };
}

impl Tally {
    /// Makes a count that starts at 0.
    pub fn new() -> Tally
        ensures { result.total ≡ 0 }
    {
        Tally {
            marker: PhantomData,
        }
    }

    /// Adds an amount to the count.
    pub fn add(&mut self, _amount: usize)
        ensures { self.new.total ≡ self.old.total + _amount }
    {}
}
