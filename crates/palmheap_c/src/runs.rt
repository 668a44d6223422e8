//! Running a script on an image in the caller's memory.

ghost use Rattle.std.specs.Prelude.{[], ◌≡◌, Ok, IfErr, IfOk, map};
ghost use Rattle.script_lines.specs.Reading.{read_script};
ghost use Rattle.palmheap_c.specs.Opening.{IsOpenStore};
ghost use Rattle.palmheap_c.specs.Runs.{HasResults, IsRunAnswer, IsRunRefusal, Ran, capped as capped_number, of_line as line_answer, written};

use crate::answers::{Answer, NO_FAULT, NO_MEMORY, NO_ROOM};
use crate::buffers::refused_write;
use crate::inputs::{copied_all, joined};
use crate::opening::{BoxedStore, boxed_store, region_of};
use crate::results::{Results, Sizes, have_room};
use heap_model::Bytes;
use palm_script::{LineFault, RunFault, Script, ScriptFault, parse, run};
use palm_text::Counted;
use raw_region::Region;
use std::alloc::Global;

/// Runs a script (docs/USING.md) on an image, in place. `files` are the files that its lines
/// import. Writes the reply lines to `printed`, and the files that lines export to `exported`, one
/// after the other. Writes to `exported_ends` where each of them ends. Sets `sizes` to the sizes of
/// these results. If a buffer is too short for them, only `sizes` is written.
#[unsafe(no_mangle)]
pub extern "C" fn palmheap_run(
    alloc: Global,
    image: &mut [u8],
    script: &[u8],
    files: &[&[u8]],
    printed: &mut [u8],
    exported: &mut [u8],
    exported_ends: &mut [usize],
    sizes: &mut Sizes,
) -> Answer
    ensures { IsRunAnswer script.now (map (λ file. file.now) files.now)
        (written image.old printed.old exported.old exported_ends.old sizes.old)
        (written image.new printed.new exported.new exported_ends.new sizes.new) result }
{
    let (after, results) = match results_of(alloc, image, script, files) {
        Ok(done) => done,
        Err(answer) => return answer,
    };
    *sizes = results.sizes();
    if !have_room(*sizes, printed, exported, exported_ends) {
        return NO_ROOM;
    }
    image.copy_from_slice(after.as_slice());
    results.put(printed, exported, exported_ends);
    NO_FAULT
}

/// Runs a script on a copy of an image. Returns the new image and the other results.
fn results_of(
    alloc: Global,
    image: &[u8],
    script: &[u8],
    files: &[&[u8]],
) -> Result<(Region, Results), Answer>
    ensures ran { IfOk result (λ done.
        HasResults image.now script.now (map (λ file. file.now) files.now)
        done.0.bytes done.1) }
    ensures whole { IfOk result (λ done. done.0.lents ≡ []) }
    ensures refused { IfErr result (IsRunRefusal image.now script.now) }
{
    let Ok(inputs) = copied_all(alloc, files) else {
        return Err(NO_MEMORY);
    };
    let (after, text, files) = match run_on(alloc, image, script, &inputs) {
        Ok(done) => done,
        Err(answer) => return Err(answer),
    };
    match joined(alloc, &files) {
        Ok((files, ends)) => Ok((after, Results { text, files, ends })),
        Err(_) => Err(NO_MEMORY),
    }
}

/// Runs a script on a copy of an image. Runs nothing if the image or the script has a fault.
fn run_on(
    alloc: Global,
    image: &[u8],
    script: &[u8],
    inputs: &[Bytes],
) -> Result<(Region, Vec<u8>, Vec<Bytes>), Answer>
    ensures ran { IfOk result (λ done. Ran image.now script.now inputs.now
        done.0.bytes done.1.items done.2.items) }
    ensures whole { IfOk result (λ done. done.0.lents ≡ []) }
    ensures refused { IfErr result (IsRunRefusal image.now script.now) }
{
    let (mut boxed, script) = match read(alloc, image, script) {
        Ok(read) => read,
        Err(answer) => return Err(answer),
    };
    let mut out = Counted::new(Vec::new(alloc));
    let ran = run(alloc, &mut boxed.held.store, &script, inputs, &mut out);
    let after = region_of(boxed);
    match ran {
        Ok(files) => Ok((after, out.into_inner(), files)),
        Err(RunFault::OutOfMemory) => Err(NO_MEMORY),
        Err(RunFault::Write) => Err(refused_write(alloc, &out)),
    }
}

/// Returns the store of a copy of an image, and the script of a text.
fn read<'a>(
    alloc: Global,
    image: &[u8],
    script: &'a [u8],
) -> Result<(BoxedStore, Script<'a>), Answer>
    ensures store { IfOk result (λ read. IsOpenStore image.now read.0.held.value.memory) }
    ensures script { IfOk result (λ read. read_script script.now ≡ Ok read.1) }
    ensures refused { IfErr result (IsRunRefusal image.now script.now) }
{
    let boxed = match boxed_store(alloc, image) {
        Ok(boxed) => boxed,
        Err(answer) => return Err(answer),
    };
    match parse(alloc, script) {
        Ok(script) => Ok((boxed, script)),
        Err(fault) => {
            let _freed = region_of(boxed);
            Err(of_line(fault))
        }
    }
}

/// Returns the fault of a script: its line, and of a bad word the number of the word. Both are
/// counted from 1. A greater number than 2^32 - 1 becomes 2^32 - 1.
fn of_line(fault: LineFault) -> Answer
    ensures { result ≡ line_answer fault }
{
    let (kind, word) = match fault.fault {
        ScriptFault::UnknownCommand => (70, 0),
        ScriptFault::WrongCount => (71, 0),
        ScriptFault::BadWord(word) => (72, word),
        ScriptFault::OutOfMemory => return NO_MEMORY,
    };
    Answer {
        kind,
        at: capped(fault.line),
        entry: capped(word),
    }
}

/// Returns a number, or the greatest that fits.
fn capped(n: usize) -> u32
    ensures { result ≡ capped_number n }
{
    u32::try_from(n).unwrap_or(u32::MAX)
}
