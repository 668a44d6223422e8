//! Pointers to the bytes of chunks, as applications of Palm OS have them. A chunk has one pointer,
//! however often it is asked for. While pointers to a chunk are out, it is locked once more, and
//! lent.

ghost use Rattle.std.specs.Prelude.{◌≡◌, ◌≢◌, ◌+◌, IfOk, IfErr, IfSome, IfNone, None};
ghost use Rattle.heap_model.specs.Numbers.{number_of};
ghost use Rattle.heap_model.specs.Refusals.{FirstBrings};
ghost use Rattle.heap_model.specs.declared.call.MemoryCall.{MemoryCall};
ghost use Rattle.heap_model.specs.declared.call.Reply.{Reply};
ghost use Rattle.palm_store.specs.Replies.{DoesMemory};
ghost use Rattle.raw_region.specs.LentParts.{IsFull};
ghost use Rattle.mem_manager.specs.Loans.{IsOutUnder};
ghost use Rattle.palmheap_c.specs.Pointers.{AreAtPlaces, HasBytesOut, HoldsPointers, GivesPointer, LetsGo, LetsLoanGo, LocksFirst, LocksPointer, RefusesFirst, RefusesPointer, CountsPointers, UnlocksPointer, most_times, pinned, pointer_checks, unlock_code};

use crate::buffers::refused_entry;
use crate::calls::refused;
use crate::kept::{Held, Kept};
use heap_model::{Name, Refusal};
use mem_manager::{FIXED_LOCK, Loan, MOST_LOCKS};
use palm_store::Store;
use raw_region::LentPart;
use std::alloc::Global;
use std::mem::ManuallyDrop;

/// The result of `palmheap_unlock_handle` if no pointer to the chunk is out.
const CALL_NO_POINTER: u32 = 102;

/// A chunk to which pointers are out: the loan of its bytes, where these begin, and how often the
/// pointer was given and not unlocked. A loan that is still in it when it is dropped is not put
/// back.
#[derive(Drop)]
pub struct Pinned {
    pub loan: ManuallyDrop<Loan>,
    pub at: *mut u8,
    pub locks: u32,
}

/// Why a pointer was not unlocked.
#[derive(Clone, Copy, Debug, PartialEq, Eq)]
pub enum NotUnlocked {
    /// No pointer to the chunk is out.
    NoPointer,
    /// The bytes were put back, but the lock of the chunk was not taken off.
    LockRefused(Refusal),
}

/// Locks a movable chunk, and lends its bytes, if no pointer to them is out. Sets `bytes` to them,
/// and `count` to their number. They stay there until the chunk was unlocked as often as this
/// function was called, whatever other calls are made. While they are out, the chunk has one lock
/// more.
///
/// # Errors
/// The refusals 1, 6, 5, 27, 26, in this order. 5 also if the pointer is out 4,294,967,295 times.
#[unsafe(no_mangle)]
pub extern "C" fn palmheap_lock_pointer(
    alloc: Global,
    store: &mut Kept,
    name: u32,
    bytes: &mut *mut u8,
    count: &mut usize,
) -> u32
    ensures locks { result ≡ 0
        → LocksPointer store.old.store store.new.store name bytes.new count.new }
    ensures refused { result ≢ 0 → RefusesPointer store.old.store store.new.store name result }
    ensures left { result ≢ 0 → (bytes.new ≡ bytes.old) × (count.new ≡ count.old) }
    ensures holds { HoldsPointers store.old.store → HoldsPointers store.new.store }
{
    match store.held().lock_pointer(alloc, name) {
        Ok(given) => {
            let at = given.0;
            *bytes = at;
            *count = given.1;
            0
        }
        Err(refusal) => refused(refusal),
    }
}

/// Unlocks a pointer to the bytes of a chunk once. The last time it puts the bytes back, and takes
/// off the lock that the chunk had for them.
///
/// # Errors
/// `CALL_NO_POINTER` if no pointer to the chunk is out.
#[unsafe(no_mangle)]
pub extern "C" fn palmheap_unlock_handle(store: &mut Kept, name: u32) -> u32
    requires { HoldsPointers store.old.store }
    ensures unlocks { UnlocksPointer store.old.store store.new.store name result }
    ensures holds { HoldsPointers store.new.store }
{
    match store.held().unlock_pointer(name) {
        Ok(()) => 0,
        Err(NotUnlocked::NoPointer) => CALL_NO_POINTER,
        Err(NotUnlocked::LockRefused(refusal)) => refused(refusal),
    }
}

/// Sets `start` to where the image of the store begins in the machine's memory. A pointer that is out
/// is `start` plus the place of its chunk: so the header's `palmheap_unlock_pointer` finds the chunk.
/// The bytes there belong to the store.
#[unsafe(no_mangle)]
pub extern "C" fn palmheap_start(store: &mut Kept, start: &mut *mut u8)
    ensures pointers { HoldsPointers store.old.store → AreAtPlaces start.new store.old.store }
    ensures same { store.new.store ≡ store.old.store }
{
    let at = store.as_mut().start();
    *start = at;
}

impl Held {
    #[tactic(auto, using(crate::proofs::PointerLaws::again))]
    fn lock_pointer(&mut self, alloc: Global, name: u32) -> Result<(*mut u8, usize), Refusal>
        ensures locks { IfOk result (λ given. LocksPointer self.old self.new name given.0 given.1) }
        ensures refused { IfErr result
            (λ refusal. RefusesPointer self.old self.new name (number_of refusal)) }
    {
        let Some(pinned) = self.pointers.get(&name) else {
            return self.lock_first(alloc, name);
        };
        let given = (pinned.at, pinned.loan.len());
        let Some(more) = one_more(pinned.locks) else {
            return Err(Refusal::LockOverflow);
        };
        self.relock(name, more);
        Ok(given)
    }

    /// Sets how often the pointer to a chunk is out.
    fn relock(&mut self, name: u32, locks: u32)
        ensures { CountsPointers self.old self.new name locks }
    {
        if let Some(pinned) = self.pointers.get_mut(&name) {
            pinned.locks = locks;
        }
    }

    /// Locks a chunk to which no pointer is out, and lends its bytes.
    fn lock_first(&mut self, alloc: Global, name: u32) -> Result<(*mut u8, usize), Refusal>
        requires { pinned self.old.pointers name ≡ None }
        ensures locks { IfOk result (λ given. LocksFirst self.old self.new name given.0 given.1) }
        ensures refused { IfErr result
            (λ refusal. RefusesFirst self.old self.new name (number_of refusal)) }
    {
        if let Some(refusal) = refusal_if_lent(&self.store, Name(name)) {
            return Err(refusal);
        }
        if let Err(refusal) = self.store.lock(Name(name)) {
            return Err(refusal);
        }
        match self.store.take_out_also(Name(name)) {
            Ok(loan) => self.keep_loan(alloc, name, loan),
            Err(refusal) => Err(refusal),
        }
    }

    /// Notes a loan to which a pointer is out. If an allocation fails, it puts the bytes back and
    /// unlocks their chunk.
    fn keep_loan(
        &mut self,
        alloc: Global,
        name: u32,
        loan: Loan,
    ) -> Result<(*mut u8, usize), Refusal>
        requires out { IsOutUnder self.old.memory loan.name.0 loan.part }
        requires none { pinned self.old.pointers name ≡ None }
        ensures keeps { IfOk result (λ given. GivesPointer self.old self.new name loan given.0 given.1) }
        ensures refused { IfErr result (λ refusal. (refusal ≡ Refusal.OutOfMemory)
            × LetsLoanGo self.old self.new name loan) }
    {
        let (loan, at) = with_start(loan);
        let count = loan.len();
        let pinned = Pinned {
            loan: unsafe { ManuallyDrop::new_unchecked(loan) },
            at,
            locks: 1,
        };
        match self.pointers.insert(name, pinned) {
            Ok(_) => Ok((at, count)),
            Err(error) => {
                let (_, pinned) = error.value;
                self.store.put_back(ManuallyDrop::into_inner(pinned.loan));
                let _ = self.store.unlock(Name(name));
                Err(refused_entry(alloc))
            }
        }
    }

    fn unlock_pointer(&mut self, name: u32) -> Result<(), NotUnlocked>
        requires { HoldsPointers self.old }
        ensures { UnlocksPointer self.old self.new name (unlock_code result) }
    {
        let Some(pinned) = self.pointers.get(&name) else {
            return Err(NotUnlocked::NoPointer);
        };
        let locks = pinned.locks;
        if locks > 1 {
            self.relock(name, locks - 1);
            return Ok(());
        }
        self.unlock_last(name)
    }

    /// Puts the bytes of a chunk back, and takes off the lock that it had for them.
    fn unlock_last(&mut self, name: u32) -> Result<(), NotUnlocked>
        requires { HoldsPointers self.old }
        ensures { LetsGo self.old self.new name (unlock_code result) }
    {
        let Some(pinned) = self.pointers.remove(&name) else {
            return Err(NotUnlocked::NoPointer);
        };
        self.store.put_back(ManuallyDrop::into_inner(pinned.loan));
        match self.store.unlock(Name(name)) {
            Ok(_) => Ok(()),
            Err(refusal) => Err(NotUnlocked::LockRefused(refusal)),
        }
    }
}

/// Returns the next number, unless it is the greatest one already.
fn one_more(count: u32) -> Option<u32>
    ensures more { IfSome result (λ more. more ≡ count + 1) }
    ensures most { IfNone result (count ≡ most_times) }
{
    if count == u32::MAX {
        return None;
    }
    Some(count + 1)
}

/// Returns why a chunk whose bytes are out can't be locked for a pointer.
fn refusal_if_lent(store: &Store, name: Name) -> Option<Refusal>
    ensures some { IfSome result (FirstBrings (pointer_checks store.now name.0)) }
    ensures none { IfNone result (HasBytesOut store.now name.0 → ⊥) }
{
    match store.read(name, 0, 0) {
        Ok(_) => None,
        Err(refusal) => match refusal {
            Refusal::Lent => refusal_of_lent(store, name),
            _ => None,
        },
    }
}

/// Returns why a chunk can't be locked for a pointer, if reading it was refused as its bytes are
/// out.
fn refusal_of_lent(store: &Store, name: Name) -> Option<Refusal>
    requires { DoesMemory store.now (MemoryCall.Read name 0 0) (Reply.Refused Refusal.Lent) store.now }
    ensures some { IfSome result (FirstBrings (pointer_checks store.now name.0)) }
    ensures none { result ≢ None }
{
    match store.locks(name) {
        Ok(locks) => {
            if locks == FIXED_LOCK {
                Some(Refusal::ChunkFixed)
            } else if locks == MOST_LOCKS {
                Some(Refusal::LockOverflow)
            } else {
                Some(Refusal::Lent)
            }
        }
        Err(refusal) => Some(refusal),
    }
}

/// Returns a loan as it is, and where its bytes begin.
fn with_start(loan: Loan) -> (Loan, *mut u8)
    ensures same { result.0 ≡ loan }
    ensures start { result.1 ≡ loan.part.start }
{
    let name = loan.name();
    let (part, at) = shown(LentPart::of(loan.into_part()));
    (Loan::of(name, part.into_part()), at)
}

/// Returns a place that holds a part as it is, and its pointer.
fn shown(part: LentPart) -> (LentPart, *mut u8)
    requires full { IsFull part.values }
    ensures { (result.1 ≡ part.bytes) × (result.0.bytes ≡ part.bytes)
        × (result.0.values ≡ part.values) }
{
    let at = part.bytes;
    (part, at)
}
