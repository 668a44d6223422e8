//! Fills three chunks while calls run.

ghost use Rattle.std.specs.Prelude.{◌≡◌, IfOk, IfErr, OnErr, OnOk};
ghost use Rattle.example_loans.specs.Filling.{FillsMeanwhile, HasTextOver, IsWhyNotTaken, IsWhyUnfilled};
ghost use Rattle.example_loans.specs.Filling.{TakesThree, with_text};

use heap_model::{Call, Name, Refusal, Reply};
use mem_manager::Loan;
use palm_script::run_calls;
use palm_store::Store;
use std::alloc::Global;
use thiserror::Error;

/// The names of three chunks.
#[derive(Clone, Copy)]
pub(crate) struct Notes {
    pub(crate) first: Name,
    pub(crate) second: Name,
    pub(crate) third: Name,
}

/// Why the chunks weren't filled.
#[derive(Clone, Copy, Debug, Error)]
pub(crate) enum NotFilled {
    /// The bytes of a chunk couldn't be taken out.
    #[error("{0}")]
    Refused(Refusal),
    /// The allocation for the replies failed.
    #[error("out of memory")]
    OutOfMemory,
}

/// Takes the bytes of three locked chunks out, and writes a text over the first of each. Runs a
/// list of calls, puts the bytes of the second chunk back, and runs the list again. Then it puts
/// the others back. Returns the replies of both runs.
///
/// A loan can't be dropped, so each is put back before each return.
///
/// # Errors
///
/// - `Refused`: the bytes of a chunk can't be taken out. Those taken out before were put back.
/// - `OutOfMemory`: the allocation for the replies of a run failed. Its calls weren't done, but the
///   text was written.
pub(crate) fn fill_meanwhile(
    alloc: Global,
    store: &mut Store,
    notes: Notes,
    text: &[u8],
    calls: &[Call],
) -> Result<(Vec<Reply>, Vec<Reply>), NotFilled>
    ensures filled { IfOk result (λ replies. FillsMeanwhile store.old notes text.now calls.now
        replies.0.items replies.1.items store.new) }
    ensures first { OnOk result (HasTextOver store.old store.new notes.first text.now) }
    ensures third { OnOk result (HasTextOver store.old store.new notes.third text.now) }
    ensures not_filled { IfErr result (IsWhyUnfilled store.old notes) }
    ensures lent { store.new.lents ≡ store.old.lents }
{
    let (mut first, mut second, mut third) = match take_three(store, notes) {
        Ok(loans) => loans,
        Err(refusal) => return Err(NotFilled::Refused(refusal)),
    };
    write_front(&mut first, text);
    write_front(&mut second, text);
    write_front(&mut third, text);
    let before = run_calls(alloc, store, calls);
    store.put_back(second);
    let after = run_calls(alloc, store, calls);
    store.put_back(first);
    store.put_back(third);
    match (before, after) {
        (Ok(before), Ok(after)) => Ok((before, after)),
        _ => Err(NotFilled::OutOfMemory),
    }
}

/// Takes the bytes of three chunks out, or of none.
fn take_three(store: &mut Store, notes: Notes) -> Result<(Loan, Loan, Loan), Refusal>
    ensures taken { IfOk result (λ loans.
        TakesThree store.old store.new notes loans.0 loans.1 loans.2) }
    ensures why { IfErr result (IsWhyNotTaken store.old notes) }
    ensures lent { OnErr result (store.new.lents ≡ store.old.lents) }
{
    let first = match store.take_out_also(notes.first) {
        Ok(loan) => loan,
        Err(refusal) => return Err(refusal),
    };
    let second = match store.take_out_also(notes.second) {
        Ok(loan) => loan,
        Err(refusal) => {
            store.put_back(first);
            return Err(refusal);
        }
    };
    match store.take_out_also(notes.third) {
        Ok(third) => Ok((first, second, third)),
        Err(refusal) => {
            store.put_back(second);
            store.put_back(first);
            Err(refusal)
        }
    }
}

/// Writes a text over the first bytes of a loan. Of a longer text it writes what there is room for.
fn write_front(loan: &mut Loan, text: &[u8])
    ensures { loan.new ≡ with_text loan.old text.now }
{
    let count = loan.len().min(text.len());
    loan.write(0, &text[..count]);
}
