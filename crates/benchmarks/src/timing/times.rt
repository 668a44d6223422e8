//! Measured times.

ghost use Rattle.std.specs.Prelude.{◌≡◌, ◌≤◌, ◌↔◌, ◌++◌, ◌∷◌, [], All, Contains, IsNone, IfSome, OnOk, OnErr};
ghost use Rattle.std.specs.Duration.{as_nanos};

use std::alloc::{AllocError, Global};
use std::marker::Model;
use std::time::Duration;

/// Times in nanoseconds, in the order in which they were measured. Contracts see them as a list.
#[derive(Drop)]
pub(crate) struct Times {
    nanoseconds: Vec<u128>,
}

impl Model for Times {
    ghost use Rattle.std.specs.Prelude.{ℕ, List};

    ghost Value = { List ℕ };

    ghost view = { λ times. times.nanoseconds.items };
}

impl Times {
    /// Starts with no times.
    pub(crate) fn new(alloc: Global) -> Times
        ensures { result ≡ [] }
    {
        Times {
            nanoseconds: Vec::new(alloc),
        }
    }

    /// Adds a time.
    ///
    /// # Errors
    ///
    /// - `AllocError`: an allocation failed.
    pub(crate) fn add(&mut self, time: Duration) -> Result<(), AllocError>
        ensures added { OnOk result (self.new ≡ self.old ++ as_nanos time ∷ []) }
        ensures err { OnErr result (self.new ≡ self.old) }
    {
        self.nanoseconds.push(time.as_nanos())?;
        Ok(())
    }

    /// Returns the least time, if there is one.
    pub(crate) fn best(&self) -> Option<u128>
        ensures none { IsNone result ↔ (self.now ≡ []) }
        ensures least { IfSome result (λ best. All (λ time. best ≤ time) self.now) }
        ensures measured { IfSome result (Contains self.now) }
    {
        self.nanoseconds.iter().copied().min()
    }

    /// Returns the median of the times, if there is one.
    pub(crate) fn into_median(mut self) -> Option<u128>
        ensures none { IsNone result ↔ (self ≡ []) }
        ensures measured { IfSome result (Contains self) }
    {
        if self.nanoseconds.is_empty() {
            return None;
        }
        self.nanoseconds.sort_unstable();
        Some(self.nanoseconds[self.nanoseconds.len() / 2])
    }
}
