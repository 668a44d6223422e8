//! The unique IDs that the records of a PDB file get when it is read.
//!
//! The first record with an ID keeps it, anywhere in the list. Each other record, and each with the
//! ID 0, gets a fresh ID. That is the first ID after the seed that no record keeps or was given,
//! and the seed moves to it (this project's own rule). So two passes are enough: the first finds
//! the IDs that are kept, and the second gives the fresh ones.
#![tactic(auto)]

mod fresh;
mod give;
mod kept;

pub use give::{GivenIds, give_ids};
