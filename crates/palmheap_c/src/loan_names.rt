//! The names of all chunks whose bytes are taken out.

ghost use Rattle.std.specs.Prelude.{◌≡◌, ◌≤◌, drop, length, take};
ghost use Rattle.palmheap_c.specs.LoanNames.{IsLoansAnswer, numbers_of_names};

use crate::buffers::CALL_NO_ROOM;
use crate::calls::refused;
use crate::kept::Kept;
use heap_model::{Name, Refusal};
use std::alloc::Global;

/// Sets the first of `names` to the chunks whose bytes are taken out, in order of their places. Sets
/// `count` to their number, also if `names` is too short for them.
///
/// # Errors
/// The refusal 26.
#[tactic(auto, using(crate::proofs::LoanNameLaws::are_loans, crate::proofs::LoanNameLaws::has_more))]
#[unsafe(no_mangle)]
pub extern "C" fn palmheap_loans(
    alloc: Global,
    store: &mut Kept,
    names: &mut [u32],
    count: &mut usize,
) -> u32
    ensures loans { IsLoansAnswer store.old.store.memory names.old names.new count.old count.new result }
    ensures same { store.new.store ≡ store.old.store }
{
    let Ok(found) = store.as_mut().loans(alloc) else {
        return refused(Refusal::OutOfMemory);
    };
    *count = found.len();
    if names.len() < found.len() {
        return CALL_NO_ROOM;
    }
    put_names(names, &found);
    0
}

/// Copies names to the start of `to`.
fn put_names(to: &mut [u32], names: &[Name])
    requires { length names.now ≤ length to.old }
    ensures copied { take (length names.now) to.new ≡ numbers_of_names names.now }
    ensures others { drop (length names.now) to.new ≡ drop (length names.now) to.old }
{
    for index in 0..names.len() {
        to[index] = names[index].0;
    }
}
