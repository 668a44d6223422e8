//! Calls that take bytes of a chunk out of the heap, and put them back.
#![tactic(auto, using(crate::proofs::Places::name_named, laws_heap::proofs::LentBodies::table_within))]

ghost use Rattle.std.specs.Prelude.{◌≡◌, ◌≢◌, ◌↔◌, [], length, IfSome, OnSome, IfNone, IfOk, OnOk, OnErr, IfErr, IsTrue};
ghost use Rattle.heap_model.specs.Chunk.{managers_owner};
ghost use Rattle.heap_model.specs.Lending.{IsLent};
ghost use Rattle.heap_model.specs.Refusals.{FirstBrings};
ghost use Rattle.heap_model.specs.Store.{owner_under};
ghost use Rattle.mem_manager.specs.Loans.{out_checks, also_out_checks, TakesOut, PutsBack, IsOutUnder, IsFirstLoan, IsNextLoan};
ghost use Rattle.raw_region.specs.Holes.{AllLieIn};
ghost use Rattle.raw_region.specs.Marks.{NoneBeginsAbove};

use crate::heap::Heap;
use crate::loan::Loan;
use crate::lookup::{check_locked, find, find_open};
use heap_model::{Name, Place, Refusal};

impl Heap {
    /// Takes the bytes of a locked or fixed chunk out, if no other bytes are out. Zeros replace
    /// them in the heap until they are put back. It allocates no memory and copies no byte.
    ///
    /// # Errors
    ///
    /// - `InvalidHandle`: no chunk has the name, or the manager owns the chunk.
    /// - `ChunkNotLocked`: the chunk has no lock and isn't fixed.
    /// - `Lent`: a loan is out already.
    pub fn take_out(&mut self, name: Name) -> Result<Loan, Refusal>
        ensures taken { IfOk result (λ loan. TakesOut self.old self.new name loan) }
        ensures alone { OnOk result (self.old.lents ≡ []) }
        ensures refused { OnErr result (self.new ≡ self.old) }
        ensures why { IfErr result (λ refusal. FirstBrings (out_checks self.old name.0) refusal) }
    {
        if !self.space.is_whole() {
            let found = find(&self.space, &self.known, name)?;
            check_locked(found)?;
            return Err(Refusal::Lent);
        }
        self.take_out_also(name)
    }

    /// Takes the bytes of a locked or fixed chunk out, as `take_out` does. Other bytes may be out.
    ///
    /// # Errors
    ///
    /// - `InvalidHandle`: no chunk has the name, or the manager owns the chunk.
    /// - `ChunkNotLocked`: the chunk has no lock and isn't fixed.
    /// - `Lent`: the bytes of the chunk are lent.
    #[inline(always)]
    pub fn take_out_also(&mut self, name: Name) -> Result<Loan, Refusal>
        ensures taken { IfOk result (λ loan. TakesOut self.old self.new name loan) }
        ensures refused { OnErr result (self.new ≡ self.old) }
        ensures why { IfErr result (λ refusal. FirstBrings (also_out_checks self.old name.0) refusal) }
    {
        let found = find_open(&self.space, &mut self.known, name)?;
        let part = self.space.lend(found);
        Ok(Loan { name, part })
    }

    /// Puts the bytes of a loan back, in any order.
    pub fn put_back(&mut self, loan: Loan)
        requires { IsOutUnder self.old loan.name.0 loan.part }
        ensures back { PutsBack self.old self.new loan }
        ensures owned { owner_under self.old.bytes loan.name.0 ≢ managers_owner }
    {
        let Loan { name, part } = loan;
        let found = self.space.chunk(name);
        self.space.take_back(found, part);
    }

    /// Returns the name of the first chunk, in order of places, whose bytes are lent, if there is
    /// one.
    pub fn lent(&self) -> Option<Name>
        ensures lent { IfSome result (λ name. IsLent self.now name.0) }
        ensures first { IfSome result (λ name. IsFirstLoan self.now name.0) }
        ensures some { OnSome result (self.now.lents ≢ []) }
        ensures none { IfNone result (self.now.lents ≡ []) }
    {
        match self.space.lent_above(Place(0)) {
            Some(found) => Some(found.name),
            None => None,
        }
    }

    /// Returns the name and the place of the chunk with the least place above `after` whose bytes
    /// are lent, if there is one. Above `Place(0)` it is the first of all. It walks over the marks
    /// of lent bytes, and allocates no memory.
    pub fn loan_above(&self, after: Place) -> Option<(Name, Place)>
        ensures next { IfSome result (λ loan. IsNextLoan self.now after.0 loan.0.0 loan.1.0) }
        ensures none { IfNone result (NoneBeginsAbove after.0 self.now.lents) }
    {
        match self.space.lent_above(after) {
            Some(found) => Some((found.name, found.place)),
            None => None,
        }
    }

    /// Returns where the heap's bytes begin in the machine's memory. Those of a loan begin at this
    /// pointer plus the place of their chunk. The heap still owns all that aren't lent.
    pub fn start(&self) -> *mut u8
        ensures { AllLieIn result (length self.now.bytes) self.now.lents }
    {
        self.space.start()
    }

    /// Returns whether nothing is lent.
    pub fn is_whole(&self) -> bool
        ensures { IsTrue result ↔ (self.now.lents ≡ []) }
    {
        self.space.is_whole()
    }
}
