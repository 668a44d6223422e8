//! The store of a Palm OS device: movable chunks reached through handles, and databases made of
//! them.
//!
//! `Store` owns a region that is an accepted image. The contract of each method that is a call on
//! chunks or databases is the step of the abstract store for that call. The reply is right, and the
//! image afterwards means the store after the call. The image is still accepted. No chunk that is
//! locked or fixed, and still live, has moved.
//!
//! A call on entries is in the crates record_db and resource_db. It first checks that the database
//! exists and has entries of the kind. If it changes the database, it then checks that the database
//! isn't read-only. If it takes an index, it then checks that there is an entry at the index.
//! `open_entries` and `find_entry` make these checks, in the order of the call's row.
#![tactic(auto, using(laws_heap::proofs::KeptLoans::keeps_then, laws_heap::proofs::KeptLoans::keeps_itself))]

mod chunks;
mod databases;
mod entries;
mod locks;
mod lookup;
mod opening;
mod store;

pub use database_edits::OpenDatabase;
pub use databases::BlockSizes;
pub use entries::{EntryInfo, InDatabase};
pub use heap_migration::MigrateFault;
pub use locks::is_locked;
pub use mem_manager::{FIXED_LOCK, Found, Loan, Locked, check_owner};
pub use opening::{Access, EntryKind, count_entries, find_entry, open_database, open_entries};
pub use palm_text::{WriteFault, put_all};
pub use store::{ImageFault, NotAStore, Store};
pub use store_check::{StoreFault, StoreSummary};
