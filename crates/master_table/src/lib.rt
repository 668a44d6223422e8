//! The master pointer tables of a heap image: their slots, as a partial map from slots to places.
//!
//! A slot is a word of a table. Its offset is its name, and is the handle of the chunk whose place
//! it holds. An empty slot holds 0 (Palm OS Programmer's Companion, "Memory Architecture"). The
//! caller must prove that some chunks tile the image, or that the tables lie within the region.
//! `specs/Table.antt` defines which place a slot holds. `KnownTables` remembers further tables, so
//! that a slot of theirs is found without a walk along the chain.
#![tactic(auto)]

mod chain;
mod distances;
mod known;
mod slots;
mod table;

pub use chain::add_table;
pub use known::KnownTables;
pub use slots::{OneTable, Row, TableStart};
pub use table::{
    EmptySlot, clear, first_empty_slot, least_number, resolve, resolve_by_call, resolve_known,
    resolve_near, set, slots_before, slots_free, slots_total, word_of,
};
