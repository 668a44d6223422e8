//! The commands `new` and `check`, over bytes and writers.

ghost use Rattle.std.specs.Prelude.{[], ◌≡◌, ◌≢◌, IfOk, OnErr, is_ok, string_bytes};
ghost use Rattle.image_commands.specs.Commands.{EndsNew};
ghost use Rattle.image_commands.specs.FaultLines.{Says};
ghost use Rattle.image_commands.specs.ImageChecks.{EndsCheck, heap_line, summary_in, summary_lines};
ghost use Rattle.allowance.specs.Refusals.{GrowthRefused};
ghost use Rattle.palm_text.specs.Output.{Puts, output};

use crate::faults::{say_fault, say_no_image};
use crate::summary_documents::say_document;
use allowance::{Allowance, text_of};
use chunk_format::{BlankFault, blank_from};
use heap_check::Summary;
use palm_text::{Counted, WriteFault, put};
use program_io::command_line::Form;
use program_io::{Status, say, say_text};
use raw_region::Region;
use std::alloc::{AllocError, Global};
use std::io::Write;
use store_check::{StoreFault, StoreSummary, check_store};

/// Writes a blank image of this size and slot count to `image_out`, and then `ok` to `out`.
///
/// If no image may have this size and slot count, prints why on `out` and writes no image.
pub fn cmd_new<W: Write, V: Write>(
    alloc: Global,
    size: u32,
    slots: u16,
    image_out: &mut Counted<W>,
    out: &mut Counted<V>,
) -> Status
    ensures ends { EndsNew size slots (output W.contents image_out.old image_out.new)
        (output V.contents out.old out.new) result }
    ensures short { result ≡ Status.NoMemory → GrowthRefused }
{
    cmd_new_from(&alloc, size, slots, image_out, out)
}

/// The same as `cmd_new`. Each allocation asks `memory` for a grant.
pub fn cmd_new_from<A: Allowance, W: Write, V: Write>(
    memory: &A,
    size: u32,
    slots: u16,
    image_out: &mut Counted<W>,
    out: &mut Counted<V>,
) -> Status
    ensures ends { EndsNew size slots (output W.contents image_out.old image_out.new)
        (output V.contents out.old out.new) result }
    ensures short { result ≡ Status.NoMemory → A.is_short memory.now }
{
    let region = match blank_from(memory, size, slots) {
        Ok(region) => region,
        Err(BlankFault::OutOfMemory) => return Status::NoMemory,
        Err(BlankFault::BadSize) => return say_no_image(BlankFault::BadSize, out),
        Err(BlankFault::BadSlotCount) => return say_no_image(BlankFault::BadSlotCount, out),
    };
    match put_image(image_out, &region) {
        Ok(()) => say(b"ok\n", Status::Done, out),
        Err(_) => Status::WriteFault,
    }
}

/// Checks an image, and prints its summary, or `bad` and the first fault.
pub fn cmd_check<V: Write>(alloc: Global, image: &[u8], out: &mut Counted<V>) -> Status
    ensures ends { EndsCheck Form.Text image.now (output V.contents out.old out.new) result }
    ensures short { result ≡ Status.NoMemory → GrowthRefused }
{
    match Region::copied_from(&alloc, image) {
        Ok(region) => check_region_from(&alloc, &region, Form::Text, out),
        Err(_) => Status::NoMemory,
    }
}

/// Checks an image in a region, and prints in a form what is in it or the first fault. It makes no
/// copy of the image. Each allocation asks `memory` for a grant.
#[tactic(auto, using(crate::proofs::Checked::summary_ends, crate::proofs::Checked::fault_ends, crate::proofs::Checked::memory_ends))]
pub fn check_region_from<A: Allowance, V: Write>(
    memory: &A,
    region: &Region,
    form: Form,
    out: &mut Counted<V>,
) -> Status
    requires whole { region.now.lents ≡ [] }
    ensures ends { EndsCheck form region.now.bytes (output V.contents out.old out.new) result }
    ensures short { result ≡ Status.NoMemory → A.is_short memory.now }
{
    match check_store(memory, region) {
        Ok(summary) => say_summary(memory, form, &summary, out),
        Err(fault) if fault == StoreFault::OutOfMemory => Status::NoMemory,
        Err(fault) => say_fault(out, form, fault),
    }
}

/// Prints what is in an accepted image.
fn say_summary<A: Allowance, V: Write>(
    memory: &A,
    form: Form,
    summary: &StoreSummary,
    out: &mut Counted<V>,
) -> Status
    ensures said { result ≢ Status.NoMemory → Says (output V.contents out.old out.new)
        (summary_in form summary.now) Status.Done result }
    ensures no_memory { result ≡ Status.NoMemory → out.new ≡ out.old }
    ensures short { result ≡ Status.NoMemory → A.is_short memory.now }
{
    match form {
        Form::Text => say_text(summary_text(memory, summary), Status::Done, out),
        Form::Json => say_document(out, summary),
    }
}

/// Returns the lines for an accepted image.
fn summary_text<A: Allowance>(memory: &A, summary: &StoreSummary) -> Result<String, AllocError>
    ensures lines { IfOk result (λ lines. string_bytes lines ≡ summary_lines summary.now) }
    ensures short { OnErr result (A.is_short memory.now) }
{
    let line = heap_text(memory, &summary.heap)?;
    let databases = summary.databases;
    text_of(memory, format_args!("{line}databases {databases}\n"))
}

/// Returns the line for an accepted heap.
fn heap_text<A: Allowance>(memory: &A, summary: &Summary) -> Result<String, AllocError>
    ensures line { IfOk result (λ line. string_bytes line ≡ heap_line summary.now) }
    ensures short { OnErr result (A.is_short memory.now) }
{
    let Summary {
        size,
        slots,
        movable,
        fixed,
        free,
    } = *summary;
    text_of(
        memory,
        format_args!("ok size {size} slots {slots} movable {movable} fixed {fixed} free {free}\n"),
    )
}

/// Writes the whole image, and flushes.
fn put_image<W: Write>(image_out: &mut Counted<W>, region: &Region) -> Result<(), WriteFault>
    requires { region.now.lents ≡ [] }
    ensures { Puts W.contents image_out.old image_out.new region.now.bytes (is_ok result) }
{
    put(image_out, region.as_slice())
}
