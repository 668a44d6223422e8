//! Edits the chunk of one database: changes, inserts, removes and moves its entries, names its info
//! blocks, and raises its modification number.
//!
//! Each function takes a heap, and a database that is open in it (`IsOpenHere`). The rest of the
//! store may be in the middle of a call. The contract names the database that the chunk spells
//! after the call; all other chunks are as they were. The functions don't look at the chunks that
//! entries name.
#![tactic(auto, using(laws_heap::proofs::KeptLoans::keeps_then, crate::proofs::Loans::managers_here, crate::proofs::Loans::spelled_here))]

mod attributes;
mod blocks;
mod bodies;
mod counting;
mod headers;
mod insertion;
mod moving;
mod opened;
mod removal;
mod replacement;
mod writing;

pub use attributes::change_attributes;
pub use blocks::write_block;
pub use counting::count_change;
pub use insertion::insert_entry;
pub use opened::OpenDatabase;
pub use removal::remove_entry;
pub use replacement::{move_entry, write_entry};
