//! Loans: the bytes of chunks are taken out of an open store, and put back. Until then C may read
//! and write them.

ghost use Rattle.std.specs.Prelude.{[], ◌≡◌, ◌≢◌, false, true, None};
ghost use Rattle.heap_model.specs.Lending.{IsLent};
ghost use Rattle.mem_manager.specs.Loans.{IsNextLoan};
ghost use Rattle.raw_region.specs.Marks.{NoneBeginsAbove};
ghost use Rattle.palmheap_c.specs.Loans.{HoldsLoan, HoldsNoLoan, Keeps, PutsBackInC, RefusesOut, RefusesOutAlso, TakesOutInC};
ghost use Rattle.palmheap_c.specs.Pointers.{HoldsPointers, pinned};

use crate::calls::refused;
use crate::kept::Kept;
use heap_model::{Name, Place};
use mem_manager::Loan;
use raw_region::LentPart;
use std::mem::{ManuallyDrop, replace};

/// A place in C for a loan: the bytes of a chunk and their number, and the chunk's name. It holds a
/// loan, or none. It can't be dropped.
#[repr(C)]
pub struct KeptLoan {
    pub part: LentPart,
    pub name: u32,
}

/// Sets a place to a loan. A loan that was in the place before is not put back.
fn keep(place: &mut KeptLoan, loan: Loan)
    ensures { Keeps place.new loan }
{
    let name = loan.name();
    let kept = KeptLoan {
        part: LentPart::of(loan.into_part()),
        name: name.0,
    };
    let old = replace(place, kept);
    let _not_put_back = unsafe { ManuallyDrop::new_unchecked(old) };
}

/// Takes the bytes of a locked or fixed chunk out of a store, if no others are out. It copies and
/// allocates nothing. Sets `loan` to them. The store has zeros at their place until they are put
/// back. A loan that was in `loan` before is not put back.
///
/// # Errors
/// The refusals 1, 4, 27, in this order.
#[unsafe(no_mangle)]
pub extern "C" fn palmheap_take_out(store: &mut Kept, name: u32, loan: &mut KeptLoan) -> u32
    ensures taken { result ≡ 0 → TakesOutInC store.old.store.memory store.new.store.memory name loan.new }
    ensures alone { result ≡ 0 → store.old.store.memory.lents ≡ [] }
    ensures pointers { store.new.store.pointers ≡ store.old.store.pointers }
    ensures refused { result ≢ 0 → RefusesOut store.old.store.memory name result }
    ensures left { result ≢ 0 → (store.new.store ≡ store.old.store) × (loan.new ≡ loan.old) }
    ensures holds { HoldsPointers store.old.store → HoldsPointers store.new.store }
{
    match store.as_mut().take_out(Name(name)) {
        Ok(taken) => {
            keep(loan, taken);
            0
        }
        Err(refusal) => refused(refusal),
    }
}

/// Takes the bytes of a locked or fixed chunk out of a store, as `palmheap_take_out` does. Those of
/// other chunks may be out.
///
/// # Errors
/// The refusals 1, 4, 27, in this order.
#[unsafe(no_mangle)]
pub extern "C" fn palmheap_take_out_also(store: &mut Kept, name: u32, loan: &mut KeptLoan) -> u32
    ensures taken { result ≡ 0 → TakesOutInC store.old.store.memory store.new.store.memory name loan.new }
    ensures pointers { store.new.store.pointers ≡ store.old.store.pointers }
    ensures refused { result ≢ 0 → RefusesOutAlso store.old.store.memory name result }
    ensures left { result ≢ 0 → (store.new.store ≡ store.old.store) × (loan.new ≡ loan.old) }
    ensures holds { HoldsPointers store.old.store → HoldsPointers store.new.store }
{
    match store.as_mut().take_out_also(Name(name)) {
        Ok(taken) => {
            keep(loan, taken);
            0
        }
        Err(refusal) => refused(refusal),
    }
}

/// Puts the bytes of a loan of this store back. `loan` holds no bytes then.
#[unsafe(no_mangle)]
pub extern "C" fn palmheap_put_back(store: &mut Kept, loan: &mut KeptLoan)
    requires holds { HoldsLoan store.old.store.memory loan.old }
    ensures back { PutsBackInC store.old.store.memory store.new.store.memory loan.old }
    ensures empty { HoldsNoLoan loan.new }
    ensures pointers { store.new.store.pointers ≡ store.old.store.pointers }
    ensures holds { pinned store.old.store.pointers loan.old.name ≡ None
        → HoldsPointers store.old.store → HoldsPointers store.new.store }
{
    let empty = KeptLoan {
        part: LentPart::empty(),
        name: 0,
    };
    let KeptLoan { part, name } = replace(loan, empty);
    let back = Loan::of(Name(name), part.into_part());
    store.as_mut().put_back(back);
}

/// Reports whether the bytes of a chunk are taken out. If so, sets `name` to the chunk. If several
/// are out, it is one of them.
#[unsafe(no_mangle)]
pub extern "C" fn palmheap_lent(store: &mut Kept, name: &mut u32) -> bool
    ensures lent { result ≡ true → IsLent store.old.store.memory name.new }
    ensures none { result ≡ false → store.old.store.memory.lents ≡ [] }
    ensures left { result ≡ false → name.new ≡ name.old }
    ensures same { store.new.store ≡ store.old.store }
{
    match store.as_mut().lent() {
        Some(lent) => {
            *name = lent.0;
            true
        }
        None => false,
    }
}

/// Finds the chunk with the least place above `after` whose bytes are taken out. Sets `name` to the
/// chunk and `place` to its place. Reports whether there is one: if not, sets neither.
#[unsafe(no_mangle)]
pub extern "C" fn palmheap_loan_above(
    store: &mut Kept,
    after: u32,
    name: &mut u32,
    place: &mut u32,
) -> bool
    ensures next { result ≡ true → IsNextLoan store.old.store.memory after name.new place.new }
    ensures none { result ≡ false → NoneBeginsAbove after store.old.store.memory.lents }
    ensures left { result ≡ false → (name.new ≡ name.old) × (place.new ≡ place.old) }
    ensures same { store.new.store ≡ store.old.store }
{
    match store.as_mut().loan_above(Place(after)) {
        Some(loan) => {
            *name = loan.0.0;
            *place = loan.1.0;
            true
        }
        None => false,
    }
}
