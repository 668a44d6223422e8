//! Reads a script, and runs its lines.

ghost use Rattle.std.specs.Prelude.{◌≡◌, ◌<◌, [], Err, IfOk, IfErr, IfSome, OnOk, Some, length, true, false};
ghost use Rattle.std.specs.Io.KnownBytes.{IsAtEnd};
ghost use Rattle.palm_text.specs.Counted.{Flushes};
ghost use Rattle.palm_text.specs.Output.{output};
ghost use Rattle.script_calls.specs.Lines.{setting};
ghost use Rattle.program_io.specs.Status.{IsOfReading};
ghost use Rattle.palm_script.specs.Loans.{LoanStays};
ghost use Rattle.live_scripts.specs.Live.{ReadStops, RunsText};
ghost use Rattle.live_scripts.specs.Sessions.{IsReadFault};

use crate::ahead::read_ahead;
use crate::fault::LiveFault;
use crate::session::Session;
use allowance::{Allowance, zeros};
use heap_model::Bytes;
use palm_store::Store;
use palm_text::Counted;
use program_io::{InputFault, MOST_INPUT, MOST_READ};
use std::cell::Cell;
use std::io::{Read, Write};

/// What the lines of a script are run with.
#[derive(Clone, Copy)]
pub struct LiveInputs<'a> {
    /// The files that lines import.
    pub files: &'a [Bytes],
    /// Gets the number of each line before its reply line is written. Contracts say nothing of it.
    pub number: &'a Cell<usize>,
}

/// Reads a script from a reader, runs its lines on a store, and prints their reply lines. It runs a
/// line as soon as it has read it, and flushes `out` before it reads on and at the end. `text` gets
/// the script. The result has the files that the lines export, in order.
///
/// # Errors
/// - `Line`: if a line is faulty. It is the first faulty line of the script.
/// - `Input`: if the script can't be read to its end, or is longer than `MOST_INPUT`.
/// - `Memory`: if an allocation failed.
/// - `Write`: if a write or a flush failed.
///
/// After an error, the lines before it were run.
pub fn run_read<A: Allowance, R: Read, W: Write>(
    memory: &A,
    store: &mut Store,
    reader: &mut R,
    inputs: LiveInputs<'_>,
    text: &mut Vec<u8>,
    out: &mut Counted<W>,
) -> Result<Vec<Bytes>, LiveFault>
    requires none { text.old.items ≡ [] }
    ensures ok { IfOk result (λ files. RunsText
        (setting (A.is_short memory.now) inputs.entry.files.now) text.new.items
        store.old store.new (output W.contents out.old out.new) files.items) }
    ensures flushed { OnOk result (out.new.flushed ≡ Some true) }
    ensures text { OnOk result (IfSome (R.remaining reader.old) (λ all. text.new.items ≡ all)) }
    ensures end { OnOk result (IsAtEnd (R.remaining reader.new)) }
    ensures stays { LoanStays store.old store.new }
    ensures fault { IfErr result (ReadStops
        (setting (A.is_short memory.now) inputs.entry.files.now) (R.remaining reader.old)
        store.old store.new (output W.contents out.old out.new)) }
    ensures too_long { result ≡ Err (LiveFault.Input InputFault.TooLong)
        → IfSome (R.remaining reader.old) (λ all. MOST_INPUT < length all) }
{
    let Ok(mut turn) = zeros(memory, MOST_READ) else {
        return Err(LiveFault::Memory);
    };
    let mut session = Session::new(memory.allocator());
    let mut at = 0;
    let mut is_end = false;
    while !is_end {
        is_end = match read_ahead(memory, reader, turn.as_mut_slice(), text) {
            Ok(is_end) => is_end,
            Err(fault) => return Err(read_fault(fault)),
        };
        at += session.run_ended_lines(memory, store, &text[at..], inputs, out)?;
        flush(out)?;
    }
    session.run_last_line(memory, store, &text[at..], inputs, out)?;
    flush(out)?;
    Ok(session.into_files())
}

/// Returns why a run ends, if its script can't be read.
fn read_fault(fault: InputFault) -> LiveFault
    requires { IsOfReading fault }
    ensures { IsReadFault fault result }
{
    match fault {
        InputFault::Memory => LiveFault::Memory,
        InputFault::Open(_)
        | InputFault::Read(_)
        | InputFault::TooLong
        | InputFault::LongerThan(_) => LiveFault::Input(fault),
    }
}

/// Flushes a writer.
fn flush<W: Write>(out: &mut Counted<W>) -> Result<(), LiveFault>
    ensures ok { OnOk result (Flushes W.contents out.old out.new true) }
    ensures fault { IfErr result (λ fault. (fault ≡ LiveFault.Write)
        × Flushes W.contents out.old out.new false) }
{
    out.flush().map_err(|_| LiveFault::Write)
}
