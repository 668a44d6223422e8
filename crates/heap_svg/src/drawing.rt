//! The picture of an image as SVG, on a writer.

ghost use Rattle.std.specs.Prelude.{[], ◌≡◌, ◌≢◌, ◌<◌, ◌^◌, Err, IfOk, IfErr, OnOk, OnErr, is_ok, true, false};
ghost use Rattle.heap_model.specs.Store.{Accepted};
ghost use Rattle.palm_text.specs.Counted.{Writes};
ghost use Rattle.store_check.specs.Checks.{SummarizesStore};
ghost use Rattle.heap_map.specs.Pictures.{IsMapFault};
ghost use Rattle.heap_svg.specs.Legend.{sizes_at};
ghost use Rattle.heap_svg.specs.Strips.{strips_of as strips_model, ShowImage};
ghost use Rattle.heap_svg.specs.Rows as rows_of;
ghost use Rattle.heap_svg.specs.Drawing.{WritesDrawing, bottom_text, closing_text, drawing_text, middle_text, notes_text, top_text};
ghost use Rattle.heap_svg.specs.Drawings.{HasDrawing};

use crate::bytes_of_rows::{PITCH, row_count, row_size, thin_below};
use crate::frame::{Bar, put_bar, put_framed, put_free_note, put_open, put_slots};
use crate::legend::{put_databases_note, put_kinds};
use crate::pieces::piece_sizes;
use crate::right::put_rights;
use crate::rooms::{Rooms, find_rooms};
use crate::sizes::put_pieces_by_size;
use crate::strips::{Strip, strips_of};
use allowance::Allowance;
use heap_map::{MapFault, Pieces, check_image, database_numbers, free_pieces};
use palm_text::{Counted, WriteFault, put_all};
use raw_region::Region;
use std::alloc::AllocError;
use std::io::Write;
use store_check::StoreSummary;

/// The parts of a drawing that are found before the first write: the counts of the image, its free
/// pieces, its rooms, the size of a row, the number of rows, and the strips.
#[derive(Drop)]
struct Drawing {
    summary: StoreSummary,
    free: Pieces,
    pieces: Vec<u32>,
    rooms: Rooms,
    line: u32,
    rows: u32,
    strips: Vec<Strip>,
}

/// Returns the strips of an accepted image that is drawn in rows of `line` bytes.
fn strips_in<A: Allowance>(memory: &A, region: &Region, line: u32) -> Result<Vec<Strip>, AllocError>
    requires whole { region.now.lents ≡ [] }
    requires accepted { Accepted region.now.bytes }
    ensures exact { IfOk result (λ strips.
        strips.items ≡ strips_model region.now.bytes (rows_of.thin_below line)) }
    ensures shown { IfOk result (λ strips.
        ShowImage region.now.bytes strips.items) }
    ensures short { OnErr result (A.is_short memory.now) }
{
    let table = database_numbers(memory, region)?;
    strips_of(memory, region, &table, thin_below(line))
}

/// Finds what is drawn of an accepted image.
fn draw<A: Allowance>(
    memory: &A,
    region: &Region,
    summary: StoreSummary,
) -> Result<Drawing, AllocError>
    requires whole { region.now.lents ≡ [] }
    requires accepted { Accepted region.now.bytes }
    requires summary { SummarizesStore region.now.bytes summary }
    ensures drawing { IfOk result (HasDrawing region.now.bytes) }
    ensures short { OnErr result (A.is_short memory.now) }
{
    let line = row_size(summary.heap.size);
    let pieces = piece_sizes(memory, region)?;
    let rooms = find_rooms(memory, region)?;
    let strips = strips_in(memory, region, line)?;
    Ok(Drawing {
        summary,
        free: free_pieces(region),
        pieces,
        rooms,
        line,
        rows: row_count(summary.heap.size, line),
        strips,
    })
}

/// Returns where the free pieces by size begin, in pixels: below the rows and the databases.
#[tactic(auto, unfolding(crate::specs::Legend::sizes_at))]
fn sizes_top(rows: u32, databases: u32) -> u32
    requires rows { rows < 2 ^ 24 }
    requires databases { databases < 2 ^ 16 }
    ensures is { result ≡ sizes_at rows databases }
    ensures small { result < 2 ^ 30 }
{
    22 * ((databases + 1) / 2) + (PITCH * rows + 88 + 44)
}

impl Drawing {
    /// Writes the first lines, the size of the image and its slots.
    #[tactic(auto, using(palm_text::proofs::Parts::then, palm_text::proofs::Parts::stops), unfolding(crate::specs::Drawing::top_text))]
    fn put_top<W: Write>(&self, out: &mut Counted<W>, region: &Region) -> Result<(), WriteFault>
        requires { HasDrawing region.now.bytes self.now }
        ensures { Writes W.contents out.old out.new
            (top_text region.now.bytes self.now.rows) (is_ok result) }
    {
        let heap = self.summary.heap;
        put_open(out, sizes_top(self.rows, self.summary.databases) + 70)?;
        put_slots(out, heap.size, heap.movable, heap.slots)
    }

    /// Writes the free pieces, those that a compact leaves, and the bar.
    #[tactic(auto, using(palm_text::proofs::Parts::then, palm_text::proofs::Parts::stops), unfolding(crate::specs::Drawing::notes_text))]
    fn put_notes<W: Write>(&self, out: &mut Counted<W>, region: &Region) -> Result<(), WriteFault>
        requires { HasDrawing region.now.bytes self.now }
        ensures { Writes W.contents out.old out.new (notes_text region.now.bytes) (is_ok result) }
    {
        let heap = self.summary.heap;
        put_free_note(out, heap.free, self.free, &self.rooms)?;
        put_bar(
            out,
            heap.size,
            Bar {
                free: heap.free,
                largest: self.free.largest,
                most: self.rooms.largest,
            },
        )
    }

    /// Writes the rows, their offsets, and the rooms at the right.
    #[tactic(auto, using(palm_text::proofs::Parts::then, palm_text::proofs::Parts::stops), unfolding(crate::specs::Drawing::middle_text))]
    fn put_middle<W: Write>(&self, out: &mut Counted<W>, region: &Region) -> Result<(), WriteFault>
        requires { HasDrawing region.now.bytes self.now }
        ensures { Writes W.contents out.old out.new
            (middle_text region.now.bytes self.now.line self.now.rows) (is_ok result) }
    {
        put_framed(out, self.line, self.rows, self.strips.as_slice())?;
        put_rights(out, self.line, self.rooms.all.as_slice(), self.rows)
    }

    /// Writes the free pieces by size, and the end of the picture.
    #[tactic(auto, using(palm_text::proofs::Parts::then, palm_text::proofs::Parts::stops), unfolding(crate::specs::Drawing::closing_text))]
    fn put_closing<W: Write>(&self, out: &mut Counted<W>, region: &Region) -> Result<(), WriteFault>
        requires { HasDrawing region.now.bytes self.now }
        ensures { Writes W.contents out.old out.new
            (closing_text region.now.bytes self.now.rows) (is_ok result) }
    {
        put_pieces_by_size(
            out,
            sizes_top(self.rows, self.summary.databases),
            self.pieces.as_slice(),
        )?;
        put_all(out, b"</svg>\n")
    }

    /// Writes everything below the rows: the kinds of chunks, the databases, and the free pieces by
    /// size.
    #[tactic(auto, using(palm_text::proofs::Parts::then, palm_text::proofs::Parts::stops), unfolding(crate::specs::Drawing::bottom_text))]
    fn put_bottom<W: Write>(&self, out: &mut Counted<W>, region: &Region) -> Result<(), WriteFault>
        requires whole { region.now.lents ≡ [] }
        requires drawing { HasDrawing region.now.bytes self.now }
        ensures { Writes W.contents out.old out.new
            (bottom_text region.now.bytes self.now.rows) (is_ok result) }
    {
        put_kinds(out, self.rows)?;
        put_databases_note(out, region, self.rows)?;
        self.put_closing(out, region)
    }

    /// Writes the whole picture.
    #[tactic(auto, using(palm_text::proofs::Parts::then, palm_text::proofs::Parts::stops), unfolding(crate::specs::Drawing::drawing_text))]
    fn put<W: Write>(&self, out: &mut Counted<W>, region: &Region) -> Result<(), WriteFault>
        requires whole { region.now.lents ≡ [] }
        requires drawing { HasDrawing region.now.bytes self.now }
        ensures { Writes W.contents out.old out.new
            (drawing_text region.now.bytes self.now.line self.now.rows) (is_ok result) }
    {
        self.put_top(out, region)?;
        self.put_notes(out, region)?;
        self.put_middle(out, region)?;
        self.put_bottom(out, region)
    }
}

/// Checks an image, and finds what is drawn of it if it is accepted.
fn drawn<A: Allowance>(memory: &A, region: &Region) -> Result<Drawing, MapFault>
    requires whole { region.now.lents ≡ [] }
    ensures accepted { OnOk result (Accepted region.now.bytes) }
    ensures drawing { IfOk result (HasDrawing region.now.bytes) }
    ensures why { IfErr result (IsMapFault region.now.bytes) }
    ensures before { result ≢ Err MapFault.Write }
    ensures short { result ≡ Err MapFault.OutOfMemory → A.is_short memory.now }
{
    let summary = check_image(memory, region)?;
    match draw(memory, region, summary) {
        Ok(drawing) => Ok(drawing),
        Err(_) => Err(MapFault::OutOfMemory),
    }
}

/// Writes the picture of an image as SVG, and flushes nothing. The image stays unchanged.
///
/// # Errors
/// - `BadImage`: the image is not accepted. Nothing was written.
/// - `OutOfMemory`: an allocation failed. Nothing was written.
/// - `Write`: a write failed. A prefix of the picture was written.
#[tactic(auto, using(crate::proofs::DrawingLaws::writes_drawing))]
pub fn put_svg<A: Allowance, W: Write>(
    memory: &A,
    region: &Region,
    out: &mut Counted<W>,
) -> Result<(), MapFault>
    requires whole { region.now.lents ≡ [] }
    ensures accepted { OnOk result (Accepted region.now.bytes) }
    ensures done { OnOk result (WritesDrawing region.now.bytes W.contents out.old out.new true) }
    ensures why { IfErr result (IsMapFault region.now.bytes) }
    ensures untouched { IfErr result (λ fault. fault ≢ MapFault.Write → out.new ≡ out.old) }
    ensures write { result ≡ Err MapFault.Write
        → WritesDrawing region.now.bytes W.contents out.old out.new false }
    ensures short { result ≡ Err MapFault.OutOfMemory → A.is_short memory.now }
{
    let drawing = drawn(memory, region)?;
    match drawing.put(out, region) {
        Ok(()) => Ok(()),
        Err(_) => Err(MapFault::Write),
    }
}
