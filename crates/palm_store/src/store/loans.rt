//! Calls that take the bytes of chunks out of a store, and put them back.

ghost use Rattle.std.specs.Prelude.{[], length, ◌≡◌, ◌≢◌, ◌↔◌, IsTrue, IfSome, OnSome, IfNone, IfOk, OnOk, OnErr, IfErr};
ghost use Rattle.heap_model.specs.Chunk.{managers_owner};
ghost use Rattle.heap_model.specs.Lending.{IsLent};
ghost use Rattle.heap_model.specs.Refusals.{FirstBrings};
ghost use Rattle.heap_model.specs.Store.{owner_under};
ghost use Rattle.allowance.specs.Refusals.{GrowthRefused};
ghost use Rattle.mem_manager.specs.Loans.{also_out_checks, out_checks, IsOutUnder, IsFirstLoan, IsNextLoan, AreLoansAbove};
ghost use Rattle.raw_region.specs.Holes.{AllLieIn};
ghost use Rattle.raw_region.specs.Marks.{NoneBeginsAbove};
ghost use Rattle.palm_store.specs.Loans.{TakesOutOfStore, PutsBackInStore};

use crate::store::Store;
use allowance::{Allowance, push};
use heap_model::{Name, Place, Refusal};
use mem_manager::Loan;
use std::alloc::{AllocError, Global};

impl Store {
    /// Takes the bytes of a locked or fixed chunk out, without a copy or an allocation. The store
    /// has zeros at their place until they are put back. It takes out bytes only if no others are out.
    ///
    /// # Errors
    /// - `InvalidHandle`: if the name is neither a caller's chunk nor data of a database.
    /// - `ChunkNotLocked`: if the chunk is movable and has no lock.
    /// - `Lent`: if a loan is out.
    pub fn take_out(&mut self, name: Name) -> Result<Loan, Refusal>
        ensures taken { IfOk result (λ loan. TakesOutOfStore self.old self.new name loan) }
        ensures alone { OnOk result (self.old.lents ≡ []) }
        ensures refused { OnErr result (self.new ≡ self.old) }
        ensures why { IfErr result (FirstBrings (out_checks self.old name.0)) }
    {
        self.heap.take_out(name)
    }

    /// Takes the bytes of a locked or fixed chunk out, as `take_out` does. Other bytes may be out.
    ///
    /// # Errors
    /// - `InvalidHandle`: if the name is neither a caller's chunk nor data of a database.
    /// - `ChunkNotLocked`: if the chunk is movable and has no lock.
    /// - `Lent`: if the bytes of this chunk are out.
    pub fn take_out_also(&mut self, name: Name) -> Result<Loan, Refusal>
        ensures taken { IfOk result (λ loan. TakesOutOfStore self.old self.new name loan) }
        ensures refused { OnErr result (self.new ≡ self.old) }
        ensures why { IfErr result (FirstBrings (also_out_checks self.old name.0)) }
    {
        self.heap.take_out_also(name)
    }

    /// Puts the bytes of a loan of this store back. Others may be put back before or after it.
    pub fn put_back(&mut self, loan: Loan)
        requires { IsOutUnder self.old loan.name.0 loan.part }
        ensures back { PutsBackInStore self.old self.new loan }
        ensures owned { owner_under self.old.bytes loan.name.0 ≢ managers_owner }
    {
        self.heap.put_back(loan);
    }

    /// Returns the name of the first chunk, in order of places, whose bytes are out, if there is
    /// one.
    pub fn lent(&self) -> Option<Name>
        ensures lent { IfSome result (λ name. IsLent self.now name.0) }
        ensures first { IfSome result (λ name. IsFirstLoan self.now name.0) }
        ensures some { OnSome result (self.now.lents ≢ []) }
        ensures none { IfNone result (self.now.lents ≡ []) }
    {
        self.heap.lent()
    }

    /// Returns the name and the place of the chunk with the least place above `after` whose bytes
    /// are out, if there is one. Above `Place(0)` it is the first of all.
    pub fn loan_above(&self, after: Place) -> Option<(Name, Place)>
        ensures next { IfSome result (λ loan. IsNextLoan self.now after.0 loan.0.0 loan.1.0) }
        ensures none { IfNone result (NoneBeginsAbove after.0 self.now.lents) }
    {
        self.heap.loan_above(after)
    }

    /// Returns the names of all chunks whose bytes are out, in order of their places.
    ///
    /// # Errors
    /// - `AllocError`: if an allocation failed.
    pub fn loans(&self, alloc: Global) -> Result<Vec<Name>, AllocError>
        ensures all { IfOk result (λ names. AreLoansAbove self.now 0 names.items) }
        ensures short { OnErr result GrowthRefused }
    {
        self.loans_from(&alloc)
    }

    /// The same as `loans`, with a grant of `memory` for each allocation.
    pub fn loans_from<A: Allowance>(&self, memory: &A) -> Result<Vec<Name>, AllocError>
        ensures all { IfOk result (λ names. AreLoansAbove self.now 0 names.items) }
        ensures short { OnErr result (A.is_short memory.now) }
    {
        let mut names = Vec::new(memory.allocator());
        let mut place = Place(0);
        while let Some(loan) = self.loan_above(place) {
            push(memory, &mut names, loan.0)?;
            place = loan.1;
        }
        Ok(names)
    }

    /// Returns where the store's bytes begin in the machine's memory. Those of a loan begin at this
    /// pointer plus the place of their chunk. The store still owns all that aren't out.
    pub fn start(&self) -> *mut u8
        ensures { AllLieIn result (length self.now.bytes) self.now.lents }
    {
        self.heap.start()
    }

    /// Returns whether no bytes are out.
    pub fn is_whole(&self) -> bool
        ensures { IsTrue result ↔ (self.now.lents ≡ []) }
    {
        self.heap.is_whole()
    }
}
