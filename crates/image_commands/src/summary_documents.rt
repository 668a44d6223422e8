//! The document of the counts of an image.

ghost use Rattle.std.specs.Prelude.{is_ok};
ghost use Rattle.palm_text.specs.Counted.{Writes};
ghost use Rattle.palm_text.specs.Output.{Puts, output};
ghost use Rattle.image_commands.specs.FaultLines.{Says};
ghost use Rattle.image_commands.specs.ImageChecks.{heap_json, summary_json};

use heap_check::Summary;
use palm_text::{Counted, WriteFault};
use program_io::{Status, flushed};
use std::io::Write;
use store_check::StoreSummary;
use unicode_text::{JsonPiece, put_json};

/// Writes the document of the counts of a heap, and of its databases.
#[tactic(auto, unfolding(crate::specs::ImageChecks::heap_json))]
fn put_heap<W: Write>(
    out: &mut Counted<W>,
    heap: &Summary,
    databases: u32,
) -> Result<(), WriteFault>
    ensures { Writes W.contents out.old out.new (heap_json heap.now databases) (is_ok result) }
{
    put_json(
        out,
        &[
            JsonPiece::Text(b"{\"size\":"),
            JsonPiece::Number(heap.size),
            JsonPiece::Text(b",\"slots\":"),
            JsonPiece::Number(heap.slots),
            JsonPiece::Text(b",\"movable\":"),
            JsonPiece::Number(heap.movable),
            JsonPiece::Text(b",\"fixed\":"),
            JsonPiece::Number(heap.fixed),
            JsonPiece::Text(b",\"free\":"),
            JsonPiece::Number(heap.free),
            JsonPiece::Text(b",\"databases\":"),
            JsonPiece::Number(databases),
            JsonPiece::Text(b"}\n"),
        ],
    )
}

/// Writes the document of the counts of an image, and flushes `out`.
#[tactic(auto, using(palm_text::proofs::Parts::then_flush))]
fn put_summary<W: Write>(out: &mut Counted<W>, summary: &StoreSummary) -> Result<(), WriteFault>
    ensures { Puts W.contents out.old out.new (summary_json summary.now) (is_ok result) }
{
    put_heap(out, &summary.heap, summary.databases)?;
    flushed(out)
}

/// Prints the document of the counts of an image.
pub(crate) fn say_document<V: Write>(out: &mut Counted<V>, summary: &StoreSummary) -> Status
    ensures { Says (output V.contents out.old out.new)
        (summary_json summary.now) Status.Done result }
{
    match put_summary(out, summary) {
        Ok(()) => Status::Done,
        Err(_) => Status::WriteFault,
    }
}
