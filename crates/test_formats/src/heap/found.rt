//! What the checker finds, as text.

ghost use Rattle.std.specs.Prelude.{[], ◌≡◌};

use heap_check::{Summary, check_heap};
use raw_region::Region;
use std::alloc::{AllocError, Global};

/// What the checker finds: the counts of an accepted heap, or the text of its first fault.
pub(crate) fn found(alloc: Global, region: &Region) -> Result<String, AllocError>
    requires { region.now.lents ≡ [] }
{
    match check_heap(region) {
        Ok(summary) => counts_of(alloc, summary),
        Err(fault) => format!(in alloc; "{fault}"),
    }
}

fn counts_of(alloc: Global, summary: Summary) -> Result<String, AllocError> {
    format!(in alloc;
        "size {} slots {} movable {} fixed {} free {}",
        summary.size, summary.slots, summary.movable, summary.fixed, summary.free
    )
}
