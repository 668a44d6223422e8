//! The sizes of the free pieces of an image. A piece is a run of neighbouring free chunks.
#![tactic(auto, using(laws_heap::proofs::Lending::all_within, laws_heap::proofs::Lending::all_misses))]

ghost use Rattle.std.specs.Prelude.{◌≡◌, ◌<◌, ◌+◌, ◌^◌, [], IfOk, OnOk, OnErr, None};
ghost use Rattle.heap_model.specs.Heap.{HeapAccepted};
ghost use Rattle.heap_map.specs.Text.{free_pieces};
ghost use Rattle.heap_map.specs.Pieces.{free_by, run_size};
ghost use Rattle.heap_svg.specs.Pieces.{AddsHeader, EndsPiece};

use allowance::{Allowance, push, room_for};
use chunk_format::{Header, area_start};
use raw_region::Region;
use std::alloc::AllocError;

/// The sizes of the pieces that have ended, and the size of the piece that goes on, if there is
/// one.
#[derive(Drop)]
struct PieceSizes {
    met: Vec<u32>,
    run: Option<u32>,
}

impl PieceSizes {
    /// Starts before the first chunk.
    fn new<A: Allowance>(memory: &A) -> Result<PieceSizes, AllocError>
        ensures met { IfOk result (λ pieces. pieces.met.items ≡ []) }
        ensures run { IfOk result (λ pieces. pieces.run ≡ None) }
        ensures short { OnErr result (A.is_short memory.now) }
    {
        Ok(PieceSizes {
            met: room_for(memory, 0)?,
            run: None,
        })
    }

    /// Ends the piece that goes on, if there is one.
    fn end<A: Allowance>(&mut self, memory: &A) -> Result<(), AllocError>
        ensures ended { OnOk result (EndsPiece self.old self.new) }
        ensures short { OnErr result (A.is_short memory.now) }
    {
        if let Some(size) = self.run {
            push(memory, &mut self.met, size)?;
            self.run = None;
        }
        Ok(())
    }

    /// Adds the chunk with this header. A free chunk extends the piece, and any other chunk ends
    /// it.
    fn add<A: Allowance>(&mut self, memory: &A, header: Header) -> Result<(), AllocError>
        requires { run_size self.old.run + free_by header < 2 ^ 32 }
        ensures added { OnOk result (AddsHeader self.old self.new header) }
        ensures short { OnErr result (A.is_short memory.now) }
    {
        match header {
            Header::Free { size } => {
                self.run = Some(self.run.unwrap_or(0) + size);
                Ok(())
            }
            _ => self.end(memory),
        }
    }
}

/// Returns the sizes of the free pieces of an accepted heap, in order.
pub(crate) fn piece_sizes<A: Allowance>(memory: &A, region: &Region) -> Result<Vec<u32>, AllocError>
    requires whole { region.now.lents ≡ [] }
    requires accepted { HeapAccepted region.now.bytes }
    ensures pieces { IfOk result (λ sizes. sizes.items ≡ free_pieces region.now.bytes) }
    ensures short { OnErr result (A.is_short memory.now) }
{
    let mut pieces = PieceSizes::new(memory)?;
    let mut at = area_start(region);
    while (at as usize) < region.len() {
        let (header, taken) = Header::at_with_size(region, at);
        pieces.add(memory, header)?;
        at += taken;
    }
    pieces.end(memory)?;
    Ok(pieces.met)
}
