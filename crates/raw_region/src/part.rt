//! A lent part of a region.

ghost use Rattle.std.specs.Prelude.{◌≡◌, ◌+◌, ◌≤◌, length, slice_range};
ghost use Rattle.heap_model.specs.Bytes.{overwritten};

use crate::run::Run;
use crate::words;
use std::marker::Model;

/// Bytes that a region lends. A part can't be dropped: `Region::take_back` takes it.
pub struct Part {
    pub(crate) run: Run,
}

impl Model for Part {
    ghost use Rattle.raw_region.specs.Parts.{PartOut};

    ghost Value = { PartOut };

    ghost view = { λ part. record { bytes = part.run.bytes; start = part.run.ptr } };
}

impl Part {
    /// Returns the number of bytes.
    pub fn len(&self) -> usize
        ensures { result ≡ length self.now.bytes }
    {
        self.run.len()
    }

    /// Returns the `n` bytes at `at`.
    pub fn slice(&self, at: usize, n: usize) -> &[u8]
        requires { at + n ≤ length self.now.bytes }
        ensures { result.now ≡ slice_range self.now.bytes at (at + n) }
    {
        &self.run.as_slice()[at..at + n]
    }

    /// Copies `bytes` into the part, from the offset `at` on.
    pub fn write(&mut self, at: usize, bytes: &[u8])
        requires { at + length bytes.now ≤ length self.old.bytes }
        ensures after { self.new ≡ record self.old { bytes = overwritten self.old.bytes at bytes.now } }
        ensures len { length self.new.bytes ≡ length self.old.bytes }
    {
        words::write(self.run.as_mut_slice(), at, bytes);
    }
}
