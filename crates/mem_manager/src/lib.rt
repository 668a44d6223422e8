//! The memory manager: makes chunks, reads and changes them, moves them and frees them, by name.
//!
//! `Heap` owns a region that is an accepted heap. A call for callers does its step of the abstract
//! store (`Does`). Its reply is the right one, and the new image means the store after the step.
//! The new image is still accepted. No live chunk that is locked or fixed has moved. Calls that
//! lend bytes have contracts of their own (`TakesOut`, `PutsBack`). Calls for the store above state
//! what a name's chunk is after the call.
#![tactic(auto)]

mod bounds;
mod counting;
mod heap;
mod known;
mod loan;
mod lookup;

pub use bounds::check_owner;
pub use chunk_format::{DATA_OWNER, FIXED_LOCK, MANAGERS_OWNER};
pub use heap::{Heap, Locked, MOST_LOCKS, NotAHeap};
pub use heap_place::Found;
pub use loan::Loan;
