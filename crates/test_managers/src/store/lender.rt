//! A store and its loans, any number of them, which are put back in any order.

ghost use Rattle.std.specs.Prelude.{[], ◌≡◌, length, IfOk, OnErr};
ghost use Rattle.palm_store.specs.Loans.{TakesOutOfStore};

use heap_model::{Call, Name, Refusal, Reply};
use mem_manager::Loan;
use palm_store::Store;
use std::alloc::Global;
use std::marker::Model;
use test_beside::do_call;

/// A store, and the loans that are out, the newest first. It can't be dropped: `into_store` puts
/// the loans back.
pub(crate) struct Lender {
    store: Store,
    loans: Vec<Loan>,
}

impl Model for Lender {
    ghost use Rattle.heap_model.specs.Memory.{Memory};
    ghost use Rattle.test_managers.specs.Lenders.{AreAllOut};

    ghost Value = { Memory };

    ghost view = { λ lender. lender.store };

    ghost invariant = { λ lender. AreAllOut lender.store lender.loans.items lender.store.lents };
}

impl Lender {
    pub(crate) fn new(alloc: Global, store: Store) -> Lender
        requires { store.lents ≡ [] }
    {
        Lender {
            store,
            loans: Vec::new(alloc),
        }
    }

    /// Does a call.
    pub(crate) fn call(&mut self, alloc: Global, call: &Call) -> Reply {
        do_call(alloc, &mut self.store, call)
    }

    /// Takes the bytes of a name out, by `take_out_also`, if `also`, and else by `take_out`. Returns
    /// why it couldn't.
    pub(crate) fn take_out(&mut self, name: Name, also: bool) -> Option<Refusal> {
        let loan = match taken_out(&mut self.store, name, also) {
            Ok(loan) => loan,
            Err(refusal) => return Some(refusal),
        };
        match self.loans.insert(0, loan) {
            Ok(()) => None,
            Err(refused) => {
                self.store.put_back(refused.value);
                Some(Refusal::OutOfMemory)
            }
        }
    }

    /// Puts the bytes of a loan back, and returns its name. First it writes a text over the first of
    /// them, if they are as many.
    pub(crate) fn put_back(&mut self, index: usize, text: &[u8]) -> Option<Name> {
        if index >= self.loans.len() {
            return None;
        }
        let mut loan = self.loans.remove(index);
        let name = loan.name();
        write_first(&mut loan, text);
        self.store.put_back(loan);
        Some(name)
    }

    /// The store, to ask it.
    pub(crate) fn store(&self) -> &Store {
        &self.store
    }

    /// Puts all loans back as they are, the newest first.
    pub(crate) fn into_store(self) -> Store
        ensures { result.lents ≡ [] }
    {
        let Lender {
            mut store,
            mut loans,
        } = self;
        while !loans.is_empty() {
            store.put_back(loans.remove(0));
        }
        loans.destroy_empty();
        store
    }
}

/// Takes the bytes of a name out, by `take_out_also`, if `also`, and else by `take_out`.
fn taken_out(store: &mut Store, name: Name, also: bool) -> Result<Loan, Refusal>
    ensures taken { IfOk result (λ loan. TakesOutOfStore store.old store.new name loan) }
    ensures refused { OnErr result (store.new ≡ store.old) }
{
    if also {
        store.take_out_also(name)
    } else {
        store.take_out(name)
    }
}

/// Writes a text over the first bytes of a loan, if they are as many.
fn write_first(loan: &mut Loan, text: &[u8])
    ensures name { loan.new.name ≡ loan.old.name }
    ensures start { loan.new.part.start ≡ loan.old.part.start }
    ensures long { length loan.new.part.bytes ≡ length loan.old.part.bytes }
{
    if loan.len() >= text.len() {
        loan.write(0, text);
    }
}
