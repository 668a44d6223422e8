//! The command `run`, if its script is run while it is read.

ghost use Rattle.std.specs.Prelude.{◌≡◌, ◌≢◌, ◌<◌, [], Err, IfOk, IfErr, IfSome, length, true};
ghost use Rattle.script_calls.specs.Lines.{setting};
ghost use Rattle.palmheap_program.specs.LiveRuns.{EndsAtLine, EndsEarlyLive, EndsLive, RunsLive, live_text};
ghost use Rattle.palmheap_program.specs.Runs.{run_outputs};
ghost use Rattle.palm_text.specs.Output.{output};

use allowance::Allowance;
use file_commands::say_line_fault;
use heap_model::Bytes;
use live_scripts::{LiveFault, LiveInputs, run_read};
use palm_text::Counted;
use program_io::command_line::Form;
use program_io::{InputFault, MOST_INPUT, Status};
use raw_region::Region;
use script_lines::LineFault;
use std::io::{Read, Write};
use store_commands::{opened, put_store};

/// Why a run that reads its script was not done.
#[derive(Clone, Copy, Debug)]
pub enum LiveEnd {
    /// The run ended with this status.
    Ended(Status),
    /// The script could not be read to its end. No allocation failed.
    Unread(InputFault),
}

/// Reads a script from a reader, and runs its lines on an image in a region, each as soon as it is
/// read. It prints the reply lines to `out`, and then writes the image to `image_out`. `script`
/// gets the text of the script. The result has the files that the script exports.
///
/// If the image is refused, it prints its first fault, and reads nothing. At a faulty line it
/// prints its number and its fault. The replies of the lines before it stay, and no image is
/// written.
pub fn run_live_region_from<A: Allowance, R: Read, W: Write, V: Write>(
    memory: &A,
    region: Region,
    reader: &mut R,
    inputs: LiveInputs<'_>,
    script: &mut Vec<u8>,
    image_out: &mut Counted<W>,
    out: &mut Counted<V>,
) -> Result<Vec<Bytes>, LiveEnd>
    requires whole { region.lents ≡ [] }
    requires none { script.old.items ≡ [] }
    ensures done { IfOk result (λ files. RunsLive
        (setting (A.is_short memory.now) inputs.entry.files.now) region
        (live_text (R.remaining reader.old) script.new.items)
        (run_outputs (output V.contents out.old out.new)
        (output W.contents image_out.old image_out.new)) files.items true) }
    ensures ends { IfErr result (EndsLive
        (setting (A.is_short memory.now) inputs.entry.files.now) region
        (live_text (R.remaining reader.old) script.new.items)
        (run_outputs (output V.contents out.old out.new)
        (output W.contents image_out.old image_out.new))) }
    ensures too_long { result ≡ Err (LiveEnd.Unread InputFault.TooLong)
        → IfSome (R.remaining reader.old) (λ all. MOST_INPUT < length all) }
    ensures good_words { result ≢ Err (LiveEnd.Ended Status.BadWords) }
{
    let mut store = match opened(memory, region, Form::Text, out) {
        Ok(store) => store,
        Err(status) => return Err(LiveEnd::Ended(status)),
    };
    let files = match run_read(memory, &mut store, reader, inputs, script, out) {
        Ok(files) => files,
        Err(fault) => return Err(end_early(memory, fault, out)),
    };
    match put_store(image_out, &store) {
        Ok(()) => Ok(files),
        Err(_) => Err(LiveEnd::Ended(Status::WriteFault)),
    }
}

/// Prints the line for a faulty line, if one ended a run, and returns how the run ended. If an
/// allocation failed, it flushes the replies.
fn end_early<A: Allowance, V: Write>(memory: &A, fault: LiveFault, out: &mut Counted<V>) -> LiveEnd
    ensures ends { EndsEarlyLive (A.is_short memory.now)
        (output V.contents out.old out.new) fault result }
    ensures good_words { result ≢ LiveEnd.Ended Status.BadWords }
{
    match fault {
        LiveFault::Line(fault) => LiveEnd::Ended(end_at_line(memory, fault, out)),
        LiveFault::Input(fault) => LiveEnd::Unread(fault),
        LiveFault::Memory => {
            let _ = out.flush();
            LiveEnd::Ended(Status::NoMemory)
        }
        LiveFault::Write => LiveEnd::Ended(Status::WriteFault),
    }
}

/// Prints the line for a faulty line of a script. If an allocation failed, it flushes the replies.
fn end_at_line<A: Allowance, V: Write>(memory: &A, fault: LineFault, out: &mut Counted<V>) -> Status
    ensures ends { EndsAtLine (A.is_short memory.now)
        (output V.contents out.old out.new) fault result }
    ensures good_words { result ≢ Status.BadWords }
{
    match say_line_fault(memory, fault, out) {
        Status::NoMemory => {
            let _ = out.flush();
            Status::NoMemory
        }
        status => status,
    }
}
