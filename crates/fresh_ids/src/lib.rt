//! The unique ID of a new record.
//!
//! The unique IDs follow the seed of a database in order, and 1 follows the greatest one. A new
//! record gets the first ID that no record of the database has (this project's own rule).
#![tactic(auto)]

mod fresh;
mod stretch;

pub use fresh::free_ids;
pub use stretch::{FreeIds, NO_IDS};
