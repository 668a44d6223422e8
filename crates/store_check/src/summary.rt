//! The counts of an accepted store.

use heap_check::Summary;

/// The counts of an accepted store: those of its heap, and the number of its databases.
#[derive(Clone, Copy, Debug, PartialEq, Eq)]
pub struct StoreSummary {
    pub heap: Summary,
    pub databases: u32,
}
