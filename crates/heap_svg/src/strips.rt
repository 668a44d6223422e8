//! Strips: the bytes that the rectangles of a picture show.
#![tactic(auto, using(laws_heap::proofs::Lending::all_within, laws_heap::proofs::Lending::all_misses))]

ghost use Rattle.std.specs.Prelude.{◌≡◌, ◌≤◌, ◌<◌, ◌+◌, ◌^◌, [], length, false, IfOk, OnOk, OnErr};
ghost use Rattle.heap_model.specs.Store.{Accepted};
ghost use Rattle.store_check.specs.Naming.{AreEnoughMarks};
ghost use Rattle.heap_map.specs.Numbers.{database_number, HasNumbers};
ghost use Rattle.heap_svg.specs.Strips as models;
ghost use Rattle.heap_svg.specs.Strips.{AddsBytes, ShowImage, all_strips, end_of, head_mark};

use allowance::{Allowance, push, room_for};
use chunk_format::{Header, area_start};
use heap_map::mark_of;
use raw_region::Region;
use std::alloc::AllocError;

/// The mark of the bytes before the first chunk: the head with its slots.
pub(crate) const HEAD: u32 = 1029;

/// A range of bytes of one mark. A thin strip has only chunks that are at most a pixel wide.
#[derive(Clone, Copy)]
pub(crate) struct Strip {
    pub(crate) mark: u32,
    pub(crate) at: u32,
    pub(crate) size: u32,
    pub(crate) is_thin: bool,
}

impl Strip {
    /// Returns whether the next chunk, of this mark and size, belongs to the strip.
    fn joins(self, thin: u32, mark: u32, size: u32) -> bool
        ensures { result ≡ models.joins thin self mark size }
    {
        size < thin && self.is_thin && mark == self.mark
    }
}

/// The strips that a walk has met.
#[derive(Drop)]
struct Strips {
    whole: Vec<Strip>,
    last: Strip,
}

impl Strips {
    /// Starts with the head of an image, which ends at `start`.
    fn new<A: Allowance>(memory: &A, start: u32) -> Result<Strips, AllocError>
        ensures whole { IfOk result (λ strips. strips.whole.items ≡ []) }
        ensures last { IfOk result (λ strips. strips.last
            ≡ record { mark = head_mark; at = 0; size = start; is_thin = false }) }
        ensures short { OnErr result (A.is_short memory.now) }
    {
        Ok(Strips {
            whole: room_for(memory, 0)?,
            last: Strip {
                mark: HEAD,
                at: 0,
                size: start,
                is_thin: false,
            },
        })
    }

    /// Adds a chunk. It is thin if it has fewer than `thin` bytes.
    fn add<A: Allowance>(
        &mut self,
        memory: &A,
        thin: u32,
        mark: u32,
        size: u32,
    ) -> Result<(), AllocError>
        requires { end_of self.old + size < 2 ^ 32 }
        ensures added { OnOk result (AddsBytes thin self.old self.new mark size) }
        ensures short { OnErr result (A.is_short memory.now) }
    {
        if self.last.joins(thin, mark, size) {
            self.last.size += size;
            return Ok(());
        }
        push(memory, &mut self.whole, self.last)?;
        self.last = Strip {
            mark,
            at: self.last.at + self.last.size,
            size,
            is_thin: size < thin,
        };
        Ok(())
    }

    /// Returns all strips.
    fn done<A: Allowance>(self, memory: &A) -> Result<Vec<Strip>, AllocError>
        ensures all { IfOk result (λ strips. strips.items ≡ all_strips self) }
        ensures short { OnErr result (A.is_short memory.now) }
    {
        let mut whole = self.whole;
        push(memory, &mut whole, self.last)?;
        Ok(whole)
    }
}

/// Returns the strips of an accepted image. Chunks of fewer than `thin` bytes are thin. `table` has
/// the number of the database that names it, for each word that can be a slot.
pub(crate) fn strips_of<A: Allowance>(
    memory: &A,
    region: &Region,
    table: &[u16],
    thin: u32,
) -> Result<Vec<Strip>, AllocError>
    requires whole { region.now.lents ≡ [] }
    requires accepted { Accepted region.now.bytes }
    requires numbers { HasNumbers (database_number region.now.bytes) table.now }
    requires room { AreEnoughMarks region.now.bytes (length table.now) }
    ensures exact { IfOk result (λ strips. strips.items ≡ models.strips_of region.now.bytes thin) }
    ensures shown { IfOk result (λ strips. ShowImage region.now.bytes strips.items) }
    ensures short { OnErr result (A.is_short memory.now) }
{
    let mut at = area_start(region);
    let mut strips = Strips::new(memory, at)?;
    while (at as usize) < region.len() {
        let (header, taken) = Header::at_with_size(region, at);
        strips.add(memory, thin, mark_of(header, table), taken)?;
        at += taken;
    }
    strips.done(memory)
}
