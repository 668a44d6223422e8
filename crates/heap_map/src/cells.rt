//! The cells of a picture: the first mark of the chunks in each cell, and the cell's free bytes.
#![tactic(auto, using(laws_heap::proofs::Lending::all_within, laws_heap::proofs::Lending::all_misses))]

ghost use Rattle.std.specs.Prelude.{[], ◌≡◌, ◌≤◌, ◌<◌, ◌+◌, ◌*◌, ◌/◌, ◌^◌, ◌⊎◌, min, nat_lt, if◌then◌else◌, ℕ, length, slice_index, IfOk, OnErr};
ghost use Rattle.heap_model.specs.Store.{Accepted};
ghost use Rattle.store_check.specs.Naming.{AreEnoughMarks};
ghost use Rattle.heap_map.specs.Cells.{in_cell, cell_size as model_size, cell_count as model_count, Covers, IsClear, ArePainted, AddsChunk};
ghost use Rattle.heap_map.specs.Cells.{marks as model_marks};
ghost use Rattle.heap_map.specs.Numbers.{database_number, HasNumbers};

use crate::marks::{FREE, cell_byte, mark_of};
use allowance::{Allowance, filled, push, room_for};
use chunk_format::{Header, area_start};
use raw_region::Region;
use std::alloc::AllocError;

/// The greatest number of cells in a picture.
const MOST_CELLS: u32 = 2048;

/// The cells of a picture: their size in bytes, and for each cell its first mark and its number of
/// free bytes.
#[derive(Drop)]
pub(crate) struct Cells {
    pub(crate) size: u32,
    pub(crate) marks: Vec<u32>,
    pub(crate) free: Vec<u32>,
}

/// Lowers the marks of the cells from `first` up to `end` to this one, if it comes before theirs.
fn lower(marks: &mut [u32], first: usize, end: usize, mark: u32)
    requires order { first ≤ end }
    requires within { end ≤ length marks.old }
    ensures inside { (k : ℕ) → first ≤ k → k < end
        → slice_index marks.new k ≡ min mark (slice_index marks.old k) }
    ensures outside { (k : ℕ) → (k < first) ⊎ (end ≤ k)
        → slice_index marks.new k ≡ slice_index marks.old k }
{
    for k in first..end {
        marks[k] = marks[k].min(mark);
    }
}

/// Gives a mark to each cell that has some of these bytes, if the mark comes before the cell's.
fn mark_bytes(marks: &mut [u32], size: u32, from: u32, to: u32, mark: u32)
    requires positive { 0 < size }
    requires some { from < to }
    requires inside { to ≤ size * length marks.old }
    ensures { (k : ℕ) → k < length marks.old → slice_index marks.new k
        ≡ (if nat_lt 0 (in_cell size k from to) then min mark (slice_index marks.old k)
        else slice_index marks.old k) }
{
    lower(
        marks,
        (from / size) as usize,
        ((to - 1) / size) as usize + 1,
        mark,
    );
}

/// Adds to each count the number of these bytes in the cell.
fn count_bytes(counts: &mut [u32], size: u32, from: u32, to: u32)
    requires positive { 0 < size }
    requires some { from < to }
    requires inside { to ≤ size * length counts.old }
    requires small { to + size < 2 ^ 25 }
    requires few { (k : ℕ) → k < length counts.old → slice_index counts.old k < 2 ^ 24 }
    ensures { (k : ℕ) → k < length counts.old → slice_index counts.new k
        ≡ slice_index counts.old k + in_cell size k from to }
{
    let first = from / size;
    let end = (to - 1) / size + 1;
    for k in first..end {
        counts[k as usize] += to.min(size * k + size) - from.max(size * k);
    }
}

impl Cells {
    /// Allocates `count` cells of a size, with nothing in them.
    fn new<A: Allowance>(memory: &A, size: u32, count: usize) -> Result<Cells, AllocError>
        ensures size { IfOk result (λ cells. cells.size ≡ size) }
        ensures clear { IfOk result (λ cells. IsClear count cells) }
        ensures short { OnErr result (A.is_short memory.now) }
    {
        Ok(Cells {
            size,
            marks: filled(memory, FREE, count)?,
            free: filled(memory, 0u32, count)?,
        })
    }

    /// Adds the chunk with this header and this mark. It begins at `at`, counted from the first
    /// chunk, and takes `taken` bytes.
    fn add(&mut self, header: Header, mark: u32, at: u32, taken: u32)
        requires positive { 0 < self.old.size }
        requires some { 0 < taken }
        requires inside { at + taken ≤ self.old.size * length self.old.marks.items }
        requires same { length self.old.free.items ≡ length self.old.marks.items }
        requires small { at + taken + self.old.size < 2 ^ 25 }
        requires few { (k : ℕ) → k < length self.old.free.items
            → slice_index self.old.free.items k < 2 ^ 24 }
        ensures { AddsChunk self.old self.new header mark at taken }
    {
        match header {
            Header::Free { .. } => count_bytes(&mut self.free, self.size, at, at + taken),
            _ => mark_bytes(&mut self.marks, self.size, at, at + taken, mark),
        }
    }
}

/// Fills cells that are clear with the chunks of an accepted image.
fn paint(region: &Region, table: &[u16], cells: &mut Cells)
    requires whole { region.now.lents ≡ [] }
    requires accepted { Accepted region.now.bytes }
    requires numbers { HasNumbers (database_number region.now.bytes) table.now }
    requires room { AreEnoughMarks region.now.bytes (length table.now) }
    requires covers { Covers region.now.bytes cells.old }
    requires clear { IsClear (length cells.old.marks.items) cells.old }
    ensures painted { ArePainted region.now.bytes cells.new }
    ensures size { cells.new.size ≡ cells.old.size }
    ensures count { length cells.new.marks.items ≡ length cells.old.marks.items }
{
    let start = area_start(region);
    let mut at = start;
    while (at as usize) < region.len() {
        let (header, taken) = Header::at_with_size(region, at);
        cells.add(header, mark_of(header, table), at - start, taken);
        at += taken;
    }
}

/// Returns the size of a cell in bytes, for chunks that take `area` bytes. It is the least multiple
/// of 8 with which there are at most 2,048 cells.
fn cell_size(area: u32) -> u32
    requires { area < 2 ^ 24 }
    ensures { result ≡ 8 * ((area + 16383) / 16384) }
{
    8 * ((area + (8 * MOST_CELLS - 1)) / (8 * MOST_CELLS))
}

/// Returns the cells of an accepted image.
pub(crate) fn cells_of<A: Allowance>(
    memory: &A,
    region: &Region,
    table: &[u16],
) -> Result<Cells, AllocError>
    requires whole { region.now.lents ≡ [] }
    requires accepted { Accepted region.now.bytes }
    requires numbers { HasNumbers (database_number region.now.bytes) table.now }
    requires room { AreEnoughMarks region.now.bytes (length table.now) }
    ensures size { IfOk result (λ cells. cells.size ≡ model_size region.now.bytes) }
    ensures count { IfOk result (λ cells. length cells.marks.items ≡ model_count region.now.bytes) }
    ensures painted { IfOk result (ArePainted region.now.bytes) }
    ensures short { OnErr result (A.is_short memory.now) }
{
    let area = region.len() as u32 - area_start(region);
    let size = cell_size(area);
    let mut cells = Cells::new(memory, size, ((area + (size - 1)) / size) as usize)?;
    paint(region, table, &mut cells);
    Ok(cells)
}

/// Returns the marks of all cells of an accepted image, as they are written.
pub(crate) fn marks_of<A: Allowance>(
    memory: &A,
    region: &Region,
    cells: &Cells,
) -> Result<Vec<u8>, AllocError>
    requires whole { region.now.lents ≡ [] }
    requires accepted { Accepted region.now.bytes }
    requires size { cells.now.size ≡ model_size region.now.bytes }
    requires count { length cells.now.marks.items ≡ model_count region.now.bytes }
    requires painted { ArePainted region.now.bytes cells.now }
    ensures marks { IfOk result (λ marks. marks.items ≡ model_marks region.now.bytes) }
    ensures short { OnErr result (A.is_short memory.now) }
{
    let area = region.len() as u32 - area_start(region);
    let firsts = cells.marks.as_slice();
    let free = cells.free.as_slice();
    let mut marks = room_for(memory, firsts.len())?;
    for k in 0..firsts.len() {
        let length = cells.size.min(area - cells.size * k as u32);
        push(memory, &mut marks, cell_byte(firsts[k], free[k], length))?;
    }
    Ok(marks)
}
