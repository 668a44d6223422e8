//! The counts of an image, for C.

ghost use Rattle.std.specs.Prelude.{◌≡◌};
ghost use Rattle.palmheap_c.specs.Answers as answers;

use store_check::StoreSummary;

/// The counts of an accepted image: its size in bytes, its slots, its movable chunks, its fixed
/// chunks, the bytes of its free chunks together, and its databases.
#[repr(C)]
#[derive(Clone, Copy, Debug, PartialEq, Eq)]
pub struct Counts {
    pub size: u32,
    pub slots: u32,
    pub movable: u32,
    pub fixed: u32,
    pub free: u32,
    pub databases: u32,
}

pub(crate) fn counts_of(summary: &StoreSummary) -> Counts
    ensures { result ≡ answers.counts_of summary.now }
{
    Counts {
        size: summary.heap.size,
        slots: summary.heap.slots,
        movable: summary.heap.movable,
        fixed: summary.heap.fixed,
        free: summary.heap.free,
        databases: summary.databases,
    }
}
