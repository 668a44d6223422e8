//! The command `run`.

ghost use Rattle.std.specs.Prelude.{◌≡◌, ◌≢◌, ◌⊎◌, [], IfErr, false};

use crate::ending::Ending;
use crate::live_command::{LiveEnd, run_live_region_from};
use crate::run_command::run_region_from;
use command_files::{
    STANDARD_INPUT, STANDARD_OUTPUT, STANDARD_STREAM, buffered_fault, close_output, fail,
    fail_to_read, image_output, read_file_within, read_files, read_image, report_left_files,
    report_line_hint, suggest_checks, suggest_list, write_files,
};
use heap_model::Bytes;
use hints::{line_numbers, missing_files, script_hint};
use live_scripts::LiveInputs;
use palm_text::Counted;
use program_io::command_line::Shown;
use program_io::{MOST_INPUT, Noted, Status, report_outcome};
use raw_region::Region;
use script_calls::{LiveReplies, Replies};
use script_lines::parse_from;
use std::alloc::AllocError;
use std::cell::Cell;
use std::io;
use std::io::{BufWriter, Input};
use std::rt::Files;

/// The paths of a run. The path `-` of an input means standard input.
#[derive(Clone, Copy)]
pub(crate) struct RunPaths<'a> {
    pub(crate) image: &'a str,
    pub(crate) script: &'a str,
    /// The files that lines of the script import, in order.
    pub(crate) files: &'a [&'a str],
    /// The new image. The exported files are next to it.
    pub(crate) out: &'a str,
}

/// Does the command `run`. It reads all input files before it checks the image, except a script on
/// standard input, which it runs while it reads. It writes the exported files last.
///
/// Then it reports on standard error which lines import a file that was not given, which given
/// files look like images, and which exported files are from an earlier run.
pub(crate) fn run_script<R: Files + Input + Print + Eprint + AllocGlobal>(
    rt: &R,
    paths: RunPaths<'_>,
    shown: Shown,
) -> Ending
    ensures good_words { result ≢ Ending.Ended Status.BadWords }
    ensures only_strict { shown.strict ≡ false → result ≢ Ending.LineRefused }
{
    match run_paths(rt, paths, shown.numbers) {
        Ok(any_refused) => {
            if shown.strict && any_refused {
                Ending::LineRefused
            } else {
                Ending::Ended(Status::Done)
            }
        }
        Err(status) => Ending::Ended(status),
    }
}

/// Does the same as `run_script`, and returns whether a line was refused.
fn run_paths<R: Files + Input + Print + Eprint + AllocGlobal>(
    rt: &R,
    paths: RunPaths<'_>,
    has_numbers: bool,
) -> Result<bool, Status>
    ensures { IfErr result (λ status. status ≢ Status.BadWords) }
{
    let (image, is_file) = read_image(rt, paths.image)?;
    if paths.script == STANDARD_STREAM {
        return run_live(rt, paths, image, is_file, has_numbers);
    }
    let script = read_file_within(rt, paths.script, MOST_INPUT)?;
    let inputs = read_files(rt, paths.files)?;
    let numbers = if has_numbers {
        numbers_of(rt, script.as_slice())?
    } else {
        Vec::new(rt.alloc())
    };
    let given = Given {
        script: script.as_slice(),
        files: inputs.as_slice(),
        numbers: numbers.as_slice(),
    };
    let ran = run_to(rt, image, given, paths.out);
    let read = ReadInputs {
        is_file,
        script: script.as_slice(),
        files: inputs.as_slice(),
    };
    end_run(rt, paths, read, ran)
}

/// Runs the script on standard input on an image, while it reads the script.
fn run_live<R: Files + Input + Print + Eprint + AllocGlobal>(
    rt: &R,
    paths: RunPaths<'_>,
    image: Region,
    is_file: bool,
    has_numbers: bool,
) -> Result<bool, Status>
    requires { image.lents ≡ [] }
    ensures { IfErr result (λ status. status ≢ Status.BadWords) }
{
    let inputs = read_files(rt, paths.files)?;
    let mut script = Vec::new(rt.alloc());
    let given = LiveGiven {
        files: inputs.as_slice(),
        has_numbers,
    };
    let ran = run_live_to(rt, image, given, &mut script, paths.out);
    let read = ReadInputs {
        is_file,
        script: script.as_slice(),
        files: inputs.as_slice(),
    };
    end_run(rt, paths, read, ran)
}

/// The inputs of a run: whether the image looks like a PDB or PRC file, the script, and the files.
#[derive(Clone, Copy)]
struct ReadInputs<'a> {
    is_file: bool,
    script: &'a [u8],
    files: &'a [Bytes],
}

/// Ends a run with this result, and returns whether a line was refused. After a run that succeeded
/// it writes the exported files. Then it reports which lines import a file that was not given,
/// which given files look like images, and which exported files are from an earlier run.
fn end_run<R: Files + Eprint + AllocGlobal>(
    rt: &R,
    paths: RunPaths<'_>,
    read: ReadInputs<'_>,
    ran: Result<Replied, Status>,
) -> Result<bool, Status>
    requires { IfErr ran (λ status. status ≢ Status.BadWords) }
    ensures { IfErr result (λ status. status ≢ Status.BadWords) }
{
    let replied = match ran {
        Ok(replied) => replied,
        Err(status) => {
            suggest_list(rt, paths.image, status, read.is_file);
            comment_on_script(rt, paths.script, status, read.script);
            return Err(status);
        }
    };
    let status = write_files(rt, paths.out, replied.files.as_slice());
    if status != Status::Done {
        return Err(status);
    }
    report_missing_files(rt, read.script, read.files.len());
    suggest_checks(rt, paths.files, Status::Done, read.files);
    report_left_files(rt, paths.out, replied.files.len());
    Ok(replied.any_refused)
}

/// Reports on standard error what is wrong with the first faulty line of a script, if a run was
/// refused. If the image was refused, the line is named too.
fn comment_on_script<R: Eprint + AllocGlobal>(rt: &R, path: &str, status: Status, script: &[u8]) {
    if status != Status::Refused {
        return;
    }
    let Err(fault) = parse_from(&rt.alloc(), script) else {
        return;
    };
    if let Some(hint) = script_hint(script, fault) {
        report_line_hint(rt, path, fault.line, hint);
    }
}

/// Returns the numbers of the lines of a script that are run.
fn numbers_of<R: Eprint + AllocGlobal>(rt: &R, script: &[u8]) -> Result<Vec<usize>, Status>
    ensures { IfErr result (λ status. status ≡ Status.NoMemory) }
{
    match line_numbers(&rt.alloc(), script) {
        Ok(numbers) => Ok(numbers),
        Err(_) => Err(fail(rt, Status::NoMemory)),
    }
}

/// Reports on standard error each line of a script that imports a file that was not given. `count`
/// is the number of given files. If an allocation fails, it reports nothing.
fn report_missing_files<R: Eprint + AllocGlobal>(rt: &R, script: &[u8], count: usize) {
    let _ = name_missing_files(rt, script, count);
}

fn name_missing_files<R: Eprint + AllocGlobal>(
    rt: &R,
    script: &[u8],
    count: usize,
) -> Result<(), AllocError> {
    let memory = rt.alloc();
    let Ok(lines) = parse_from(&memory, script) else {
        return Ok(());
    };
    let numbers = line_numbers(&memory, script)?;
    let missing = missing_files(&memory, count, lines.lines(), numbers.as_slice())?;
    for file in &missing {
        let _ = eprintln!(rt; "line {}: there is no FILE {}", file.line, file.file);
    }
    Ok(())
}

/// The bytes of a script and of its files, and the number that each reply gets, if any.
#[derive(Clone, Copy)]
struct Given<'a> {
    script: &'a [u8],
    files: &'a [Bytes],
    numbers: &'a [usize],
}

/// The outcome of a script: the files that it exports, and whether a line was refused.
#[derive(Drop)]
struct Replied {
    files: Vec<Bytes>,
    any_refused: bool,
}

/// Runs a script on an image, and writes the new image. A PDB or PRC file isn't replaced. If it
/// fails, standard error has the reason.
fn run_to<R: Files + Print + Eprint + AllocGlobal>(
    rt: &R,
    image: Region,
    given: Given<'_>,
    path: &str,
) -> Result<Replied, Status>
    requires { image.lents ≡ [] }
    ensures { IfErr result (λ status. (status ≡ Status.Refused)
        ⊎ (status ≡ Status.WriteFault) ⊎ (status ≡ Status.NoMemory)) }
{
    let Ok(out) = BufWriter::new(rt.alloc(), Noted::new(io::writer(rt))) else {
        return Err(fail(rt, Status::NoMemory));
    };
    let mut image_out = image_output(rt, path)?;
    let mut out = Counted::new(Replies::new(out, given.numbers));
    let mut files = Vec::new(rt.alloc());
    let status = run_region_from(
        &rt.alloc(),
        image,
        given.script,
        given.files,
        &mut image_out,
        &mut files,
        &mut out,
    );
    let image_fault = close_output(image_out);
    let replies = out.into_inner();
    let fault = buffered_fault(replies.writer);
    report_outcome(rt, status, &[(path, image_fault), (STANDARD_OUTPUT, fault)]);
    if status == Status::Done {
        Ok(Replied {
            files,
            any_refused: replies.any_refused,
        })
    } else {
        Err(status)
    }
}

/// The files of a script that is run while it is read, and whether its replies get numbers.
#[derive(Clone, Copy)]
struct LiveGiven<'a> {
    files: &'a [Bytes],
    has_numbers: bool,
}

/// Runs the script on standard input on an image, and writes the new image. `script` gets the text
/// of the script. A PDB or PRC file isn't replaced. If it fails, standard error has the reason.
fn run_live_to<R: Files + Input + Print + Eprint + AllocGlobal>(
    rt: &R,
    image: Region,
    given: LiveGiven<'_>,
    script: &mut Vec<u8>,
    path: &str,
) -> Result<Replied, Status>
    requires whole { image.lents ≡ [] }
    requires none { script.old.items ≡ [] }
    ensures { IfErr result (λ status. status ≢ Status.BadWords) }
{
    let Ok(out) = BufWriter::new(rt.alloc(), Noted::new(io::writer(rt))) else {
        return Err(fail(rt, Status::NoMemory));
    };
    let mut image_out = image_output(rt, path)?;
    let number = Cell::new(0usize);
    let mut out = Counted::new(LiveReplies::new(out, given.has_numbers, &number));
    let inputs = LiveInputs {
        files: given.files,
        number: &number,
    };
    let result = run_live_region_from(
        &rt.alloc(),
        image,
        &mut rt.reader(),
        inputs,
        script,
        &mut image_out,
        &mut out,
    );
    let image_fault = close_output(image_out);
    let replies = out.into_inner();
    let fault = buffered_fault(replies.writer);
    match result {
        Ok(files) => Ok(Replied {
            files,
            any_refused: replies.any_refused,
        }),
        Err(LiveEnd::Unread(reason)) => Err(fail_to_read(rt, STANDARD_INPUT, reason)),
        Err(LiveEnd::Ended(status)) => {
            report_outcome(rt, status, &[(path, image_fault), (STANDARD_OUTPUT, fault)]);
            Err(status)
        }
    }
}
