//! The counts of a heap's chunks, also while bodies are lent.
#![tactic(auto, using(laws_heap::proofs::LentBodies::frame_within, laws_heap::proofs::LentBodies::table_within))]

ghost use Rattle.std.specs.Prelude.{◌≡◌, ◌+◌, ◌<◌, ◌^◌};
ghost use Rattle.heap_check.specs.Summary.{Summarizes};
ghost use Rattle.heap_check.specs.Survey.{movable_by, fixed_by, free_by};
ghost use Rattle.heap_model.specs.Lending.{HoldsHeap};

use chunk_format::{Header, area_start};
use heap_check::Summary;
use master_table::slots_total;
use raw_region::Region;

/// The number of chunks of each kind, and the number of free bytes.
#[derive(Clone, Copy)]
pub(crate) struct Counts {
    movable: u32,
    fixed: u32,
    free: u32,
}

impl Counts {
    /// Returns the counts with one more chunk.
    #[inline]
    fn with(self, header: Header) -> Counts
        requires { self.movable + self.fixed + self.free + free_by header < 2 ^ 25 }
        ensures movable { result.movable ≡ self.movable + movable_by header }
        ensures fixed { result.fixed ≡ self.fixed + fixed_by header }
        ensures free { result.free ≡ self.free + free_by header }
    {
        let Counts {
            movable,
            fixed,
            free,
        } = self;
        match header {
            Header::Free { size } => Counts {
                movable,
                fixed,
                free: free + size,
            },
            Header::Movable { .. } => Counts {
                movable: movable + 1,
                fixed,
                free,
            },
            Header::Fixed { .. } => Counts {
                movable,
                fixed: fixed + 1,
                free,
            },
        }
    }
}

/// Counts the slots and the chunks of a heap, in one walk over the chunks.
pub(crate) fn count_chunks(region: &Region) -> Summary
    requires heap { HoldsHeap region.now }
    ensures { Summarizes region.now.bytes result }
{
    let size = region.len() as u32;
    let mut at = area_start(region);
    let mut counts = Counts {
        movable: 0,
        fixed: 0,
        free: 0,
    };
    while at < size {
        let (header, taken) = Header::at_with_size(region, at);
        counts = counts.with(header);
        at += taken;
    }
    Summary {
        size,
        slots: slots_total(region),
        movable: counts.movable,
        fixed: counts.fixed,
        free: counts.free,
    }
}
