//! The fault of an image as a line and as a document, and the line for a size and a slot count of
//! which there is no image.

ghost use Rattle.std.specs.Prelude.{is_ok};
ghost use Rattle.palm_text.specs.Counted.{Writes};
ghost use Rattle.palm_text.specs.Output.{Puts, output};
ghost use Rattle.chunk_format.specs.FaultNames.{blank_fault_name};
ghost use Rattle.program_io.specs.BadLines.{bad_line};
ghost use Rattle.image_commands.specs.FaultDocuments.{image_fault_json};
ghost use Rattle.image_commands.specs.ImageChecks.{fault_in_form};
ghost use Rattle.image_commands.specs.FaultLines.{Says, fault_line, formed, formed_fault};

use chunk_format::BlankFault;
use heap_check::Numbers;
use palm_text::{Counted, Piece, WriteFault, put_pieces};
use program_io::command_line::Form;
use program_io::{Status, flushed, say_bad};
use std::io::Write;
use store_check::StoreFault;

/// The texts around the name and the numbers of a fault.
#[derive(Clone, Copy)]
struct FaultForm {
    front: &'static [u8],
    /// The text after the name.
    named: &'static [u8],
    /// The text before the first number.
    first: &'static [u8],
    /// The text between two numbers.
    between: &'static [u8],
    end: &'static [u8],
}

/// Prints the fault of an image in a form: the line or the document. Returns `Refused`, or
/// `WriteFault` if a write or the flush failed.
pub fn say_fault<V: Write>(out: &mut Counted<V>, form: Form, fault: StoreFault) -> Status
    ensures { Says (output V.contents out.old out.new) (fault_in_form form fault) Status.Refused result }
{
    match form {
        Form::Text => say_bad_image(out, fault),
        Form::Json => say_image_fault(out, fault),
    }
}

/// Prints `bad`, the name and the numbers of the fault of an image. Returns `Refused`, or
/// `WriteFault` if a write or the flush failed.
pub fn say_bad_image<V: Write>(out: &mut Counted<V>, fault: StoreFault) -> Status
    ensures { Says (output V.contents out.old out.new) (fault_line fault) Status.Refused result }
{
    let form = FaultForm {
        front: b"bad ",
        named: b"",
        first: b" ",
        between: b" ",
        end: b"\n",
    };
    say_formed(out, form, fault)
}

/// Prints the document for the fault of an image. Returns `Refused`, or `WriteFault` if a write or
/// the flush failed.
pub fn say_image_fault<V: Write>(out: &mut Counted<V>, fault: StoreFault) -> Status
    ensures { Says (output V.contents out.old out.new) (image_fault_json fault) Status.Refused result }
{
    let form = FaultForm {
        front: b"{\"fault\":\"",
        named: b"\",\"numbers\":[",
        first: b"",
        between: b",",
        end: b"]}\n",
    };
    say_formed(out, form, fault)
}

/// Prints the fault of an image with the texts of a form.
fn say_formed<V: Write>(out: &mut Counted<V>, form: FaultForm, fault: StoreFault) -> Status
    ensures { Says (output V.contents out.old out.new)
        (formed_fault form fault) Status.Refused result }
{
    match put_flushed(out, form, fault) {
        Ok(()) => Status::Refused,
        Err(_) => Status::WriteFault,
    }
}

/// Writes the fault of an image in a form, and flushes `out`.
#[tactic(auto, using(palm_text::proofs::Parts::then_flush))]
fn put_flushed<V: Write>(
    out: &mut Counted<V>,
    form: FaultForm,
    fault: StoreFault,
) -> Result<(), WriteFault>
    ensures { Puts V.contents out.old out.new (formed_fault form fault) (is_ok result) }
{
    put_fault(out, form, fault)?;
    flushed(out)
}

/// Writes the fault of an image in a form.
fn put_fault<W: Write>(
    out: &mut Counted<W>,
    form: FaultForm,
    fault: StoreFault,
) -> Result<(), WriteFault>
    ensures { Writes W.contents out.old out.new (formed_fault form fault) (is_ok result) }
{
    put_named(out, form, fault.name().as_bytes(), fault.numbers())
}

/// Writes a fault with this name and these numbers in a form.
fn put_named<W: Write>(
    out: &mut Counted<W>,
    form: FaultForm,
    name: &[u8],
    numbers: Numbers,
) -> Result<(), WriteFault>
    ensures { Writes W.contents out.old out.new (formed form name.now numbers) (is_ok result) }
{
    let front = Piece::Text(form.front);
    let word = Piece::Text(name);
    let named = Piece::Text(form.named);
    let first = Piece::Text(form.first);
    let between = Piece::Text(form.between);
    let end = Piece::Text(form.end);
    match numbers {
        Numbers::Zero => put_pieces(out, &[front, word, named, end]),
        Numbers::One(number) => put_pieces(
            out,
            &[front, word, named, first, Piece::Number(number), end],
        ),
        Numbers::Two(low, high) => put_pieces(
            out,
            &[
                front,
                word,
                named,
                first,
                Piece::Number(low),
                between,
                Piece::Number(high),
                end,
            ],
        ),
    }
}

/// Prints `bad` and the name of the reason why there is no image. Returns `BadWords`, or `WriteFault`
/// if a write or the flush failed.
pub fn say_no_image<V: Write>(reason: BlankFault, out: &mut Counted<V>) -> Status
    ensures { Says (output V.contents out.old out.new)
        (bad_line (blank_fault_name reason)) Status.BadWords result }
{
    say_bad(reason.name(), Status::BadWords, out)
}
