//! The bytes of a chunk that are taken out of a heap for a while.

ghost use Rattle.std.specs.Prelude.{◌≡◌, ◌+◌, ◌≤◌, length, slice_range};
ghost use Rattle.heap_model.specs.Bytes.{overwritten};

use heap_model::Name;
use raw_region::Part;
use std::marker::Model;

/// The bytes of a chunk, owned apart from its heap. `Heap::put_back` puts them back. A loan can't
/// be dropped.
pub struct Loan {
    pub(crate) name: Name,
    pub(crate) part: Part,
}

impl Model for Loan {
    ghost use Rattle.mem_manager.specs.Loans.{OnLoan};

    ghost Value = { OnLoan };

    ghost view = { λ loan. record { name = loan.name; part = loan.part } };
}

impl Loan {
    /// Makes a loan of a chunk's name and the lent part.
    pub fn of(name: Name, part: Part) -> Loan
        ensures { result ≡ record { name = name; part = part } }
    {
        Loan { name, part }
    }

    /// Returns the lent part.
    pub fn into_part(self) -> Part
        ensures { result ≡ self.part }
    {
        let Loan { name: _, part } = self;
        part
    }

    /// Returns the name of the chunk.
    pub fn name(&self) -> Name
        ensures { result ≡ self.now.name }
    {
        self.name
    }

    /// Returns the number of bytes.
    pub fn len(&self) -> usize
        ensures { result ≡ length self.now.part.bytes }
    {
        self.part.len()
    }

    /// Returns the `n` bytes at `at`.
    pub fn slice(&self, at: usize, n: usize) -> &[u8]
        requires { at + n ≤ length self.now.part.bytes }
        ensures { result.now ≡ slice_range self.now.part.bytes at (at + n) }
    {
        self.part.slice(at, n)
    }

    /// Copies `bytes` over the bytes of the loan, from `at` on.
    pub fn write(&mut self, at: usize, bytes: &[u8])
        requires { at + length bytes.now ≤ length self.old.part.bytes }
        ensures after { self.new ≡ record self.old {
          part = record self.old.part
              { bytes = overwritten self.old.part.bytes at bytes.now };
        } }
        ensures len { length self.new.part.bytes ≡ length self.old.part.bytes }
    {
        self.part.write(at, bytes);
    }
}
