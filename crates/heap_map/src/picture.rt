//! The picture of an image, on a writer.
#![tactic(auto, using(laws_heap::proofs::Lending::all_within, laws_heap::proofs::Lending::all_misses))]

ghost use Rattle.std.specs.Prelude.{[], ◌≡◌, ◌≢◌, Err, IfOk, IfErr, OnOk, OnErr, is_ok, true, false};
ghost use Rattle.heap_model.specs.Store.{Accepted};
ghost use Rattle.heap_check.specs.Summary as heaps;
ghost use Rattle.store_check.specs.Checks.{SummarizesStore};
ghost use Rattle.palm_text.specs.Counted.{Writes};
ghost use Rattle.heap_map.specs.Pictures as pictures;
ghost use Rattle.heap_map.specs.Pictures.{IsPicture, IsMapFault};
ghost use Rattle.heap_map.specs.Text.{map_text, tail_lines};

use crate::cells::{cells_of, marks_of};
use crate::numbers::database_numbers;
use crate::pieces::free_pieces;
use crate::text::{put_databases, put_free, put_head, put_rows};
use allowance::Allowance;
use chunk_format::area_start;
use heap_check::Summary;
use palm_text::{Counted, WriteFault};
use raw_region::Region;
use std::alloc::AllocError;
use std::io::Write;
use store_check::{StoreFault, StoreSummary, check_store};
use thiserror::Error;

/// The reason why no picture was written, or not all of it.
#[derive(Clone, Copy, Debug, PartialEq, Eq, Error)]
pub enum MapFault {
    /// The image is refused with this first fault.
    #[error("{0}")]
    BadImage(StoreFault),
    /// An allocation failed.
    #[error("OutOfMemory")]
    OutOfMemory,
    /// A write failed, or took 0 bytes.
    #[error("a write failed")]
    Write,
}

/// Turns the fault of the check into that of a picture.
fn map_fault(fault: StoreFault) -> MapFault
    ensures { result ≡ pictures.map_fault fault }
{
    match fault {
        StoreFault::OutOfMemory => MapFault::OutOfMemory,
        _ => MapFault::BadImage(fault),
    }
}

/// Checks an image before it is drawn, and returns its counts.
///
/// # Errors
/// - `BadImage`: the image is not accepted.
/// - `OutOfMemory`: an allocation failed.
pub fn check_image<A: Allowance>(memory: &A, region: &Region) -> Result<StoreSummary, MapFault>
    requires whole { region.now.lents ≡ [] }
    ensures accepted { OnOk result (Accepted region.now.bytes) }
    ensures summary { IfOk result (SummarizesStore region.now.bytes) }
    ensures why { IfErr result (IsMapFault region.now.bytes) }
    ensures before { result ≢ Err MapFault.Write }
    ensures short { result ≡ Err MapFault.OutOfMemory → A.is_short memory.now }
{
    match check_store(memory, region) {
        Ok(summary) => Ok(summary),
        Err(fault) => Err(map_fault(fault)),
    }
}

/// The allocated part of a picture: the marks of all cells, and the size of a cell in bytes.
#[derive(Drop)]
struct Picture {
    size: u32,
    marks: Vec<u8>,
}

/// Draws an accepted image.
fn draw<A: Allowance>(memory: &A, region: &Region) -> Result<Picture, AllocError>
    requires whole { region.now.lents ≡ [] }
    requires accepted { Accepted region.now.bytes }
    ensures picture { IfOk result (IsPicture region.now.bytes) }
    ensures short { OnErr result (A.is_short memory.now) }
{
    let table = database_numbers(memory, region)?;
    let cells = cells_of(memory, region, &table)?;
    Ok(Picture {
        size: cells.size,
        marks: marks_of(memory, region, &cells)?,
    })
}

/// Checks an image, and draws it if it is accepted.
fn checked<A: Allowance>(memory: &A, region: &Region) -> Result<(Summary, Picture), MapFault>
    requires whole { region.now.lents ≡ [] }
    ensures accepted { OnOk result (Accepted region.now.bytes) }
    ensures summary { IfOk result (λ both. heaps.Summarizes region.now.bytes both.0) }
    ensures picture { IfOk result (λ both. IsPicture region.now.bytes both.1) }
    ensures why { IfErr result (IsMapFault region.now.bytes) }
    ensures before { result ≢ Err MapFault.Write }
    ensures short { result ≡ Err MapFault.OutOfMemory → A.is_short memory.now }
{
    let summary = check_image(memory, region)?;
    match draw(memory, region) {
        Ok(picture) => Ok((summary.heap, picture)),
        Err(_) => Err(MapFault::OutOfMemory),
    }
}

/// Writes the lines of the free space and of the databases.
#[tactic(auto, using(palm_text::proofs::Parts::then, palm_text::proofs::Parts::stops), unfolding(crate::specs::Text::tail_lines))]
fn put_tail<W: Write>(
    out: &mut Counted<W>,
    region: &Region,
    summary: &Summary,
) -> Result<(), WriteFault>
    requires whole { region.now.lents ≡ [] }
    requires accepted { Accepted region.now.bytes }
    requires summary { heaps.Summarizes region.now.bytes summary.now }
    ensures { Writes W.contents out.old out.new (tail_lines region.now.bytes) (is_ok result) }
{
    let pieces = free_pieces(region);
    put_free(out, summary.free, pieces.count, pieces.largest)?;
    put_databases(out, region)
}

/// Writes all lines.
#[tactic(auto, using(laws_heap::proofs::Lending::all_within, palm_text::proofs::Parts::then, palm_text::proofs::Parts::stops), unfolding(crate::specs::Text::map_text, crate::specs::Text::map_body))]
fn put_lines<W: Write>(
    out: &mut Counted<W>,
    region: &Region,
    summary: &Summary,
    picture: &Picture,
) -> Result<(), WriteFault>
    requires whole { region.now.lents ≡ [] }
    requires accepted { Accepted region.now.bytes }
    requires summary { heaps.Summarizes region.now.bytes summary.now }
    requires picture { IsPicture region.now.bytes picture.now }
    ensures { Writes W.contents out.old out.new (map_text region.now.bytes) (is_ok result) }
{
    put_head(
        out,
        summary.size,
        summary.slots,
        summary.movable,
        picture.size,
    )?;
    put_rows(out, area_start(region), picture.size, &picture.marks)?;
    put_tail(out, region, summary)
}

/// Writes the picture of an image as text, and flushes nothing. It changes nothing.
///
/// # Errors
/// - `BadImage`: the image is not accepted; nothing was written.
/// - `OutOfMemory`: an allocation failed; nothing was written.
/// - `Write`: a write failed; a prefix of the picture was written.
pub fn put_map<A: Allowance, W: Write>(
    memory: &A,
    region: &Region,
    out: &mut Counted<W>,
) -> Result<(), MapFault>
    requires whole { region.now.lents ≡ [] }
    ensures accepted { OnOk result (Accepted region.now.bytes) }
    ensures done { OnOk result (Writes W.contents out.old out.new (map_text region.now.bytes) true) }
    ensures why { IfErr result (IsMapFault region.now.bytes) }
    ensures untouched { IfErr result (λ fault. fault ≢ MapFault.Write → out.new ≡ out.old) }
    ensures write { result ≡ Err MapFault.Write
        → Writes W.contents out.old out.new (map_text region.now.bytes) false }
    ensures short { result ≡ Err MapFault.OutOfMemory → A.is_short memory.now }
{
    let (summary, picture) = checked(memory, region)?;
    match put_lines(out, region, &summary, &picture) {
        Ok(()) => Ok(()),
        Err(_) => Err(MapFault::Write),
    }
}
