//! The free pieces of an image: each run of neighbouring free chunks is one.
#![tactic(auto, using(laws_heap::proofs::Lending::all_within, laws_heap::proofs::Lending::all_misses))]

ghost use Rattle.std.specs.Prelude.{[], ◌≡◌, ◌≤◌, ◌<◌, ◌+◌, ◌^◌, length, None};
ghost use Rattle.heap_model.specs.Heap.{HeapAccepted};
ghost use Rattle.heap_model.specs.Space.{greatest};
ghost use Rattle.heap_map.specs.Text.{free_pieces};
ghost use Rattle.heap_map.specs.Pieces.{free_by, run_size, pieces_after, with_run};

use chunk_format::{Header, area_start};
use raw_region::Region;

/// The free pieces that a walk has met: the size of the piece that goes on, if there is one, and
/// the number of pieces that have ended. `largest` is the size of the largest piece that has ended.
#[derive(Clone, Copy)]
pub struct Pieces {
    run: Option<u32>,
    pub count: u32,
    pub largest: u32,
}

impl Pieces {
    /// Returns the pieces before the first chunk.
    fn new() -> Pieces
        ensures { result ≡ record { run = None; count = 0; largest = 0 } }
    {
        Pieces {
            run: None,
            count: 0,
            largest: 0,
        }
    }

    /// Ends the piece that goes on, if there is one.
    fn end(&mut self)
        requires { self.old.count < 2 ^ 31 }
        ensures { self.new ≡ with_run self.old.run self.old }
    {
        if let Some(size) = self.run {
            self.run = None;
            self.count += 1;
            self.largest = self.largest.max(size);
        }
    }

    /// Adds the chunk with this header. A free chunk extends the piece, and any other chunk ends
    /// it.
    fn add(&mut self, header: Header)
        requires few { self.old.count < 2 ^ 31 }
        requires fits { run_size self.old.run + free_by header < 2 ^ 32 }
        ensures { self.new ≡ pieces_after header self.old }
    {
        match header {
            Header::Free { size } => self.run = Some(self.run.unwrap_or(0) + size),
            _ => self.end(),
        }
    }
}

/// Returns the free pieces of an accepted heap.
pub fn free_pieces(region: &Region) -> Pieces
    requires whole { region.now.lents ≡ [] }
    requires accepted { HeapAccepted region.now.bytes }
    ensures count { result.count ≡ length (free_pieces region.now.bytes) }
    ensures largest { result.largest ≡ greatest (free_pieces region.now.bytes) }
{
    let mut pieces = Pieces::new();
    let mut at = area_start(region);
    while (at as usize) < region.len() {
        let (header, taken) = Header::at_with_size(region, at);
        pieces.add(header);
        at += taken;
    }
    pieces.end();
    pieces
}
