//! The checker of stores: whether an image is an accepted heap with databases in it, and if not,
//! its first fault.
//!
//! `check_store` checks the heap, and notes the owner of each slot's chunk. Then it tests all
//! databases for each fault, before it tests for the next fault:
//!
//! - It looks up each header that the directory lists once. The pass that tests for bad headers
//!   notes the offset of each, and later passes read the header there.
//! - A mark for each slot, counted up to two, records how often the slot is listed and named. The
//!   mark is found by the offset of the slot, so in an image with a chain of tables each word has
//!   one.
//! - If the IDs of a database don't rise, a set with a bit for each number records which IDs were
//!   met. The set serves the databases in turn, and then the names. Two names are compared only if
//!   their numbers are the same.
//!
//! `specs/Faults.antt` defines each fault and the order of the tests. `heap_model` defines what an
//! accepted image is.
#![tactic(auto)]

mod check;
mod chunks;
mod entries;
mod fault;
mod headers;
mod ids;
mod laws;
mod lookup;
mod marks;
mod names;
mod owners;
mod slots;
mod summary;
mod words;

pub use check::{check_store, check_store_with};
pub use fault::StoreFault;
pub use laws::accepted_without_faults;
pub use summary::StoreSummary;
