//! Heaps that are copied for calls that walk through all chunks.

ghost use Rattle.std.specs.Prelude.{[], ◌≡◌, IfOk};

use crate::memory::load::{LOAD_OWNER, Load, region_of};
use crate::work::Work;
use anyhow::{Result, bail};
use chunk_format::blank;
use heap_model::Name;
use mem_manager::Heap;
use raw_region::Region;
use std::alloc::{AllocError, Global};
use std::marker::Model;

/// The sizes of the bodies of the small and the large free chunks of one class. With their headers
/// they have 64 and 120 bytes.
pub(crate) const SMALL_BODY: u32 = 56;

pub(crate) const LARGE_BODY: u32 = 112;

/// The maximum number of large free chunks of one class.
const MOST_LARGE: usize = 32;

/// The first bytes of an image whose tables are a chain.
const CHAINED_MAGIC: [u8; 4] = *b"PHI2";

/// The number of slots of a further table.
pub(crate) const TABLE_SLOTS: u16 = 15;

/// A chunk that was kept, and its number of bytes.
#[derive(Clone, Copy)]
pub(crate) struct Kept {
    pub(crate) name: Name,
    pub(crate) length: u32,
}

/// A heap to be copied, and its chunks in order.
#[derive(Drop)]
pub(crate) struct Original {
    pub(crate) region: Region,
    pub(crate) kept: Vec<Kept>,
    /// The number of large free chunks, if the free chunks are of one class.
    pub(crate) large: usize,
}

impl Original {
    /// Returns a copy of the heap.
    pub(crate) fn copy(&self, alloc: Global) -> Result<Heap>
        requires { self.now.region.lents ≡ [] }
        ensures { IfOk result (λ heap. heap.lents ≡ []) }
    {
        let region = Region::from_bytes(alloc, self.region.as_slice())?;
        adopted(region)
    }
}

/// Makes the heap of a region.
pub(crate) fn adopted(region: Region) -> Result<Heap>
    requires { region.lents ≡ [] }
    ensures { IfOk result (λ heap. heap.lents ≡ []) }
{
    match Heap::adopt(region) {
        Ok(heap) => Ok(heap),
        Err(error) => bail!("{}", error.fault),
    }
}

/// There are no bytes between two tables.
pub(crate) const TABLES_IN_A_ROW: u32 = 0;

/// There are fewer free bytes than this between two tables, and the header of a chunk.
pub(crate) const TABLES_APART: u32 = 1_021;

/// Returns a heap with one slot in its first table and `tables` further tables. If `most_between`
/// isn't 0, a chunk of fewer than `most_between` bytes was made after each further table, and freed
/// at the end.
pub(crate) fn chained_heap(alloc: Global, size: u32, tables: u16, most_between: u32) -> Result<Heap>
    ensures { IfOk result (λ heap. heap.lents ≡ []) }
{
    let mut region = blank(alloc, size, 1)?;
    region.write(0, &CHAINED_MAGIC);
    let mut heap = adopted(region)?;
    let mut between = Vec::new(alloc);
    for table in 0..u32::from(tables) {
        heap.more_slots()?;
        if most_between > 0 {
            between.push(heap.handle_new(table * 7_919 % most_between, LOAD_OWNER)?)?;
        }
    }
    for name in between {
        heap.free(name)?;
    }
    Ok(heap)
}

/// Makes a heap that chunks nearly fill, one under each slot, and frees every second one.
pub(crate) fn full(alloc: Global, blank: Heap, work: Work<'_>) -> Result<Original, AllocError>
    requires { blank.lents ≡ [] }
    ensures { IfOk result (λ full. full.region.lents ≡ []) }
{
    let mut load = Load::new(alloc, blank, most_when_full(work));
    load.make(work.slots)?;
    load.free_every_second();
    let kept = load.kept(alloc)?;
    Ok(Original {
        region: load.into_region(),
        kept,
        large: 0,
    })
}

/// Returns the maximum number of bytes of a chunk for a heap that is nearly full with one chunk
/// under each slot. It is twice the average room of a chunk without its header and what rounding
/// adds.
fn most_when_full(work: Work<'_>) -> u16 {
    let slots = u32::from(work.slots.max(1));
    let area = work.size.saturating_sub(16 + 4 * slots);
    let body = (area / slots).saturating_sub(12);
    body.saturating_mul(2).min(u16::MAX as u32) as u16
}

/// Makes a heap whose free chunks are small, but for a few large ones in the middle. Between two of
/// them is a chunk of no bytes, which is kept, and nothing else is free. Before half of the chunks
/// are freed, there is one under each slot.
pub(crate) fn one_class(alloc: Global, blank: Heap, slots: u16) -> Result<Original, AllocError>
    requires { blank.lents ≡ [] }
    ensures { IfOk result (λ made. made.region.lents ≡ []) }
{
    let pairs = usize::from(slots / 2);
    let mut original = OneClass {
        heap: blank,
        large: MOST_LARGE.min(pairs / 4),
        freed: Vec::new(alloc),
        kept: Vec::new(alloc),
    };
    original.make(pairs)?;
    original.free_each();
    Ok(original.into_original())
}

/// A heap of one class while it is made, and its chunks: those to free, and those of no bytes.
#[derive(Drop)]
struct OneClass {
    heap: Heap,
    large: usize,
    freed: Vec<Name>,
    kept: Vec<Kept>,
}

impl Model for OneClass {
    ghost use Rattle.std.specs.Prelude.{[], ◌≡◌};
    ghost use Rattle.heap_model.specs.Memory.{Memory};

    ghost Value = { Memory };

    ghost view = { λ made. made.heap };

    ghost invariant = { λ made. made.heap.lents ≡ [] };
}

impl OneClass {
    /// Makes `pairs` chunks of each kind.
    fn make(&mut self, pairs: usize) -> Result<(), AllocError> {
        for number in 0..pairs {
            let is_large = number >= pairs / 2 && number - pairs / 2 < self.large;
            let size = if is_large { LARGE_BODY } else { SMALL_BODY };
            if let Ok(name) = self.heap.handle_new(size, LOAD_OWNER) {
                self.freed.push(name)?;
            }
            if let Ok(name) = self.heap.handle_new(0, LOAD_OWNER) {
                self.kept.push(Kept { name, length: 0 })?;
            }
        }
        Ok(())
    }

    /// Takes all free bytes, and then frees the chunks to free.
    fn free_each(&mut self) {
        let rest = self.heap.free_bytes().saturating_sub(8);
        if self.heap.handle_new(rest, LOAD_OWNER).is_err() {
            return;
        }
        for name in &self.freed {
            if self.heap.free(*name).is_err() {
                return;
            }
        }
    }

    fn into_original(self) -> Original
        ensures { result.region.lents ≡ [] }
    {
        Original {
            region: region_of(self.heap),
            kept: self.kept,
            large: self.large,
        }
    }
}
