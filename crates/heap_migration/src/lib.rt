//! The migration of a heap image to one whose master pointer tables are a chain.
//!
//! A heap of profile PHI1 has one table. A heap of profile PHI2 has a word `next` after the table,
//! so its chunks may begin 8 bytes further on:
//!
//! ```text
//! PHI1  | frame | slots               | chunks       |
//! PHI2  | frame | slots | next | zeros | chunks       |
//! ```
//!
//! `MigratesBytes` of `heap_model` defines which bytes the new image has. The place in a slot in
//! use rises with the chunk. The hOffset of a movable chunk leads back to its slot, so it falls by
//! half of the chunk's rise.
#![tactic(auto)]

mod chunks;
mod head;
mod migration;

pub use migration::{MigrateFault, migrate_from};
