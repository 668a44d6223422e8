//! The command `run`: a script, run on an image.

ghost use Rattle.std.specs.Prelude.{[], ◌≡◌, ◌≢◌, ◌⊎◌, Ok, Err, IfOk, IfErr, OnOk, true, false};
ghost use Rattle.heap_model.specs.Store.{Accepted};
ghost use Rattle.script_lines.specs.Reading.{read_script};
ghost use Rattle.palmheap_program.specs.Runs.{EndsEarly, EndsRun, PrintingFails, PutsRefusal, PutsScriptFault, RunBreaksOffShort};
ghost use Rattle.palmheap_program.specs.Runs.{RunsAndFlushes, RunsAndWrites, RunsScriptShort, run_outputs};
ghost use Rattle.script_calls.specs.Lines.{setting};
ghost use Rattle.allowance.specs.Refusals.{GrowthRefused};
ghost use Rattle.palm_text.specs.Output.{output};

use allowance::Allowance;
use file_commands::say_line_fault;
use heap_model::Bytes;
use palm_script::{RunFault, Script, ScriptFault, run_from};
use palm_store::Store;
use palm_text::Counted;
use program_io::Status;
use program_io::command_line::Form;
use raw_region::Region;
use script_lines::parse_from;
use std::alloc::Global;
use std::io::Write;
use store_commands::{opened, put_store};

/// Runs a script on an image. It prints the reply lines to `out`, and then writes the image to
/// `image_out`. Last it puts the files that the script exports into `files`.
///
/// If the image or the script is refused, it prints the reason. It checks the image before the
/// script. Nothing is run or written then. After a write fails, it writes nothing more.
pub fn cmd_run<W: Write, V: Write>(
    alloc: Global,
    image: &[u8],
    script: &[u8],
    inputs: &[Bytes],
    image_out: &mut Counted<W>,
    files: &mut Vec<Bytes>,
    out: &mut Counted<V>,
) -> Status
    ensures ends { EndsRun image.now script.now inputs.now
        (run_outputs (output V.contents out.old out.new)
        (output W.contents image_out.old image_out.new)) files.new.items result }
    ensures files_kept { result ≢ Status.Done → files.new ≡ files.old }
    ensures short { result ≡ Status.NoMemory → GrowthRefused }
    ensures done_short { result ≡ Status.Done → RunsScriptShort
        (setting GrowthRefused inputs.now) image.now script.now
        (run_outputs (output V.contents out.old out.new)
        (output W.contents image_out.old image_out.new)) files.new.items true }
    ensures write_short { result ≡ Status.WriteFault → RunBreaksOffShort
        (setting GrowthRefused inputs.now) image.now script.now
        (run_outputs (output V.contents out.old out.new)
        (output W.contents image_out.old image_out.new)) }
{
    match Region::copied_from(&alloc, image) {
        Ok(region) => run_region_from(&alloc, region, script, inputs, image_out, files, out),
        Err(_) => Status::NoMemory,
    }
}

/// The same as `cmd_run`, on an image in a region. The region is not copied. Each allocation asks
/// `memory` for a grant.
pub fn run_region_from<A: Allowance, W: Write, V: Write>(
    memory: &A,
    region: Region,
    script: &[u8],
    inputs: &[Bytes],
    image_out: &mut Counted<W>,
    files: &mut Vec<Bytes>,
    out: &mut Counted<V>,
) -> Status
    requires whole { region.lents ≡ [] }
    ensures ends { EndsRun region.bytes script.now inputs.now
        (run_outputs (output V.contents out.old out.new)
        (output W.contents image_out.old image_out.new)) files.new.items result }
    ensures files_kept { result ≢ Status.Done → files.new ≡ files.old }
    ensures short { result ≡ Status.NoMemory → A.is_short memory.now }
    ensures done_short { result ≡ Status.Done → RunsScriptShort
        (setting (A.is_short memory.now) inputs.now) region.bytes script.now
        (run_outputs (output V.contents out.old out.new)
        (output W.contents image_out.old image_out.new)) files.new.items true }
    ensures write_short { result ≡ Status.WriteFault → RunBreaksOffShort
        (setting (A.is_short memory.now) inputs.now) region.bytes script.now
        (run_outputs (output V.contents out.old out.new)
        (output W.contents image_out.old image_out.new)) }
{
    match read(memory, region, script, out) {
        Ok((store, script)) => run_script(memory, store, &script, inputs, image_out, files, out),
        Err(status) => status,
    }
}

/// Returns the store of an image, and the script of a text. It prints why one of them is refused.
/// It checks the image before the script.
fn read<'a, A: Allowance, V: Write>(
    memory: &A,
    region: Region,
    script: &'a [u8],
    out: &mut Counted<V>,
) -> Result<(Store, Script<'a>), Status>
    requires whole { region.lents ≡ [] }
    ensures store { IfOk result (λ read. read.0 ≡ region) }
    ensures accepted { OnOk result (Accepted region.bytes) }
    ensures script { IfOk result (λ read. read_script script.now ≡ Ok read.1) }
    ensures silent { OnOk result (out.new ≡ out.old) }
    ensures faults { IfErr result (λ status. (status ≡ Status.Refused)
        ⊎ (status ≡ Status.WriteFault) ⊎ (status ≡ Status.NoMemory)) }
    ensures refused { result ≡ Err Status.Refused
        → PutsRefusal region.bytes script.now (output V.contents out.old out.new) true }
    ensures write { result ≡ Err Status.WriteFault
        → PutsRefusal region.bytes script.now (output V.contents out.old out.new) false }
    ensures memory { result ≡ Err Status.NoMemory → out.new ≡ out.old }
    ensures short { result ≡ Err Status.NoMemory → A.is_short memory.now }
{
    match opened(memory, region, Form::Text, out) {
        Ok(store) => match parsed(memory, script, out) {
            Ok(script) => Ok((store, script)),
            Err(status) => Err(status),
        },
        Err(status) => Err(status),
    }
}

/// Returns the script of a text. If it is refused, prints why.
fn parsed<'a, A: Allowance, V: Write>(
    memory: &A,
    script: &'a [u8],
    out: &mut Counted<V>,
) -> Result<Script<'a>, Status>
    ensures script { IfOk result (λ lines. read_script script.now ≡ Ok lines) }
    ensures silent { OnOk result (out.new ≡ out.old) }
    ensures faults { IfErr result (λ status. (status ≡ Status.Refused)
        ⊎ (status ≡ Status.WriteFault) ⊎ (status ≡ Status.NoMemory)) }
    ensures refused { result ≡ Err Status.Refused
        → PutsScriptFault script.now (output V.contents out.old out.new) true }
    ensures write { result ≡ Err Status.WriteFault
        → PutsScriptFault script.now (output V.contents out.old out.new) false }
    ensures memory { result ≡ Err Status.NoMemory → out.new ≡ out.old }
    ensures short { result ≡ Err Status.NoMemory → A.is_short memory.now }
{
    match parse_from(memory, script) {
        Ok(script) => Ok(script),
        Err(fault) if fault.fault == ScriptFault::OutOfMemory => Err(Status::NoMemory),
        Err(fault) => Err(say_line_fault(memory, fault, out)),
    }
}

/// Runs a script on a store, prints its reply lines, and then writes the image.
fn run_script<A: Allowance, W: Write, V: Write>(
    memory: &A,
    mut store: Store,
    script: &Script<'_>,
    inputs: &[Bytes],
    image_out: &mut Counted<W>,
    files: &mut Vec<Bytes>,
    out: &mut Counted<V>,
) -> Status
    requires whole { store.lents ≡ [] }
    ensures statuses { (result ≡ Status.Done) ⊎ (result ≡ Status.WriteFault)
        ⊎ (result ≡ Status.NoMemory) }
    ensures done { result ≡ Status.Done → RunsAndWrites
        (setting (Unit {0}) inputs.now) script.now store
        (run_outputs (output V.contents out.old out.new)
        (output W.contents image_out.old image_out.new)) files.new.items true }
    ensures files_kept { result ≢ Status.Done → files.new ≡ files.old }
    ensures write_fault { result ≡ Status.WriteFault → EndsEarly
        (setting (Unit {0}) inputs.now) script.now store
        (run_outputs (output V.contents out.old out.new)
        (output W.contents image_out.old image_out.new)) }
    ensures no_memory { result ≡ Status.NoMemory
        → (image_out.new ≡ image_out.old) × (out.new ≡ out.old) }
    ensures short { result ≡ Status.NoMemory → A.is_short memory.now }
    ensures done_short { result ≡ Status.Done → RunsAndWrites
        (setting (A.is_short memory.now) inputs.now) script.now store
        (run_outputs (output V.contents out.old out.new)
        (output W.contents image_out.old image_out.new)) files.new.items true }
    ensures write_short { result ≡ Status.WriteFault → EndsEarly
        (setting (A.is_short memory.now) inputs.now) script.now store
        (run_outputs (output V.contents out.old out.new)
        (output W.contents image_out.old image_out.new)) }
{
    let exported = match print_replies(memory, &mut store, script, inputs, out) {
        Ok(exported) => exported,
        Err(status) => return status,
    };
    match put_store(image_out, &store) {
        Ok(()) => {
            *files = exported;
            Status::Done
        }
        Err(_) => Status::WriteFault,
    }
}

/// Runs a script, and prints its reply lines.
#[tactic(auto, using(crate::proofs::Printing::flushed, crate::proofs::Printing::flush_fails))]
fn print_replies<A: Allowance, V: Write>(
    memory: &A,
    store: &mut Store,
    script: &Script<'_>,
    inputs: &[Bytes],
    out: &mut Counted<V>,
) -> Result<Vec<Bytes>, Status>
    ensures lent { store.new.lents ≡ store.old.lents }
    ensures ok { IfOk result (λ files. RunsAndFlushes (setting (Unit {0}) inputs.now) script.now
        store.old store.new (output V.contents out.old out.new) files.items) }
    ensures faults { IfErr result (λ status.
        (status ≡ Status.WriteFault) ⊎ (status ≡ Status.NoMemory)) }
    ensures write { result ≡ Err Status.WriteFault → PrintingFails
        (setting (Unit {0}) inputs.now) script.now
        store.old store.new (output V.contents out.old out.new) }
    ensures memory { result ≡ Err Status.NoMemory → out.new ≡ out.old }
    ensures short { result ≡ Err Status.NoMemory → A.is_short memory.now }
    ensures ok_short { IfOk result (λ files. RunsAndFlushes
        (setting (A.is_short memory.now) inputs.now) script.now
        store.old store.new (output V.contents out.old out.new) files.items) }
    ensures write_short { result ≡ Err Status.WriteFault → PrintingFails
        (setting (A.is_short memory.now) inputs.now) script.now
        store.old store.new (output V.contents out.old out.new) }
{
    match run_from(memory, store, script, inputs, out) {
        Ok(files) => match out.flush() {
            Ok(()) => Ok(files),
            Err(_) => Err(Status::WriteFault),
        },
        Err(RunFault::OutOfMemory) => Err(Status::NoMemory),
        Err(RunFault::Write) => Err(Status::WriteFault),
    }
}
