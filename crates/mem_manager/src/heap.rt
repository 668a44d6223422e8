//! The heap. Its calls are in the modules below: those that ask, that change a chunk in its place,
//! that make and free chunks, that move them, and that take bytes out and put them back. `row` in
//! `heap_model`'s specs (`MemorySteps`) gives the errors of each call for callers in their order.
//! For `take_out` and `take_out_also`, `out_checks` and `also_out_checks` in this crate's specs
//! (`Loans`) give them.

ghost use Rattle.std.specs.Prelude.{[], ◌≡◌, ◌≢◌, IfOk, IfErr, OnOk, OnErr, None};
ghost use Rattle.heap_model.specs.Heap.{HeapAccepted};
ghost use Rattle.heap_check.specs.Faults.{IsFirstHeapFault};

mod asking;
mod changing;
mod found;
mod lending;
mod loans;
mod making;
mod managing;
mod moving;

use crate::known::KnownNames;
pub use changing::MOST_LOCKS;
use heap_check::{HeapFault, check_heap};
use heap_compact::Space;
use heap_model::{Name, Place};
use master_table::TableStart;
use raw_region::Region;
use std::fmt;
use std::marker::Model;
use thiserror::Error;

/// A region that is an accepted heap. Contracts see only the region's value.
///
/// A call for callers refuses what it can't do; `adopt` and `put_back` have preconditions. The
/// calls for the store above return only `NotEnoughSpace`, and `sys_resize` also `Lent` and
/// `ChunkLocked`: everything else is a precondition.
#[derive(Drop)]
pub struct Heap {
    space: Space,
    /// The first `used` slots are in use. The search for an empty slot skips them.
    used: u32,
    /// The table of the slot that was found empty last. The next search begins there. It begins at
    /// the first table if a slot among those before it may be empty.
    start: TableStart,
    /// The slot of a further table that was freed last, or 0. If it is empty, it is given out
    /// first.
    freed: Name,
    /// Names of fixed chunks that were found. They need no second search.
    known: KnownNames,
}

impl Model for Heap {
    ghost use Rattle.heap_model.specs.Memory.{Memory};
    ghost use Rattle.mem_manager.specs.Lookup.{IsManaged};

    ghost Value = { Memory };

    ghost view = { λ heap. heap.space };

    ghost invariant = { λ heap. IsManaged heap.space heap.used heap.start heap.freed.0
        heap.known };
}

/// The place of the body of a chunk that was locked, and its new lock count.
#[derive(Clone, Copy, Debug, PartialEq, Eq)]
pub struct Locked {
    pub place: Place,
    pub count: u8,
}

/// A region that isn't an accepted heap, unchanged, and its first fault.
#[derive(Drop, Error)]
#[error("{fault}")]
pub struct NotAHeap {
    pub fault: HeapFault,
    pub region: Region,
}

impl fmt::Debug for NotAHeap {
    fn fmt<W: fmt::Write>(&self, f: &mut fmt::Formatter<W>) -> fmt::Result {
        f.debug_struct("NotAHeap")
            .field("fault", &self.fault)
            .finish()
    }
}

impl Heap {
    /// Makes a heap of a region that is an accepted heap.
    ///
    /// # Errors
    ///
    /// - `NotAHeap`: the region isn't an accepted heap. It is returned unchanged with its first
    ///   fault.
    pub fn adopt(region: Region) -> Result<Heap, NotAHeap>
        requires { region.lents ≡ [] }
        ensures accepted { OnOk result (HeapAccepted region.bytes) }
        ensures same { IfOk result (λ heap. heap ≡ region) }
        ensures refused { OnErr result (HeapAccepted region.bytes → ⊥) }
        ensures fault { IfErr result (λ error. IsFirstHeapFault region.bytes error.fault) }
        ensures handed_back { IfErr result (λ error. error.region ≡ region) }
    {
        match check_heap(&region) {
            Ok(_) => Ok(Heap {
                space: Space::of_accepted(region),
                used: 0,
                start: TableStart::first(),
                freed: Name(0),
                known: KnownNames::none(),
            }),
            Err(fault) => Err(NotAHeap { fault, region }),
        }
    }

    /// Returns the region. If a part of it is lent, returns the heap as the error instead.
    pub fn into_region(self) -> Result<Region, Heap>
        ensures same { IfOk result (λ region. region ≡ self) }
        ensures accepted { IfOk result (λ region. HeapAccepted region.bytes) }
        ensures whole { OnOk result (self.lents ≡ []) }
        ensures lent { OnErr result (self.lents ≢ []) }
        ensures handed_back { IfErr result (λ heap. heap ≡ self) }
    {
        if !self.space.is_whole() {
            return Err(self);
        }
        let Heap { space, .. } = self;
        Ok(space.into_region())
    }
}
