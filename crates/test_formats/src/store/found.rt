//! What the checker finds, as text.

use std::alloc::{AllocError, Global};
use store_check::{StoreFault, StoreSummary};

/// The counts of an accepted store, or the text of its first fault.
pub(crate) fn text_of(
    alloc: Global,
    found: Result<StoreSummary, StoreFault>,
) -> Result<String, AllocError> {
    match found {
        Ok(summary) => counts_of(alloc, summary),
        Err(fault) => format!(in alloc; "{fault}"),
    }
}

fn counts_of(
    alloc: Global,
    StoreSummary { heap, databases }: StoreSummary,
) -> Result<String, AllocError> {
    format!(in alloc;
        "movable {} free {} databases {databases}",
        heap.movable, heap.free
    )
}
