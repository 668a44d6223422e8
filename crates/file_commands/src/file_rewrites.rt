//! The commands `canonical` and `salvage`, over files, and the output of `put`.

ghost use Rattle.std.specs.Prelude.{◌≡◌, ◌≢◌, ◌≤◌, length};
ghost use Rattle.palm_text.specs.Output.{output};
ghost use Rattle.file_commands.specs.NewFiles.{EndsNewFile};

use crate::canonical_command::cmd_canonical_from;
use crate::comments::{DROPPED, comment_on_file, comment_on_salvage, name_dropped};
use crate::keep_command::cmd_keep_from;
use crate::put_command::{NewBlock, cmd_put_from};
use crate::salvage_command::cmd_salvage_from;
use allowance::Allowance;
use canonical_file::{MOST_BYTES, SalvagedIds};
use command_files::{
    OutputKind, STANDARD_ERROR, STANDARD_OUTPUT, STANDARD_STREAM, buffered_fault, output_for,
    read_file_or_input_within, report_outputs,
};
use file_parts::Keep;
use palm_text::Counted;
use program_io::{ErrorOutput, Noted, Status};
use std::alloc::Global;
use std::io;
use std::io::{BufWriter, Input, Write};
use std::rt::Files;

/// The size of the buffer for a new file in bytes.
pub(crate) const BUFFER_SIZE: usize = 65_536;

/// The new file that is written for a file.
#[derive(Clone, Copy)]
pub(crate) enum NewFile<'a> {
    /// Its canonical form.
    Canonical,
    /// Its canonical form, but for the things that are kept.
    Kept(Keep),
    /// The file that is salvaged from it.
    Salvaged(SalvagedIds),
    /// The file with a block replaced.
    Put(NewBlock<'a>),
}

/// Runs `canonical`. The path `-` means standard input. The output path `-` means standard output,
/// and then the reply goes to standard error.
pub fn canonical<R: Files + Input + Print + Eprint + AllocGlobal>(
    rt: &R,
    path: &str,
    out_path: &str,
) -> Status
    ensures { result ≢ Status.BadWords }
{
    rewrite_as(rt, path, NewFile::Canonical, out_path)
}

/// Runs `canonical --keep`. The paths are as for `canonical`.
pub fn canonical_kept<R: Files + Input + Print + Eprint + AllocGlobal>(
    rt: &R,
    keep: Keep,
    path: &str,
    out_path: &str,
) -> Status
    ensures { result ≢ Status.BadWords }
{
    rewrite_as(rt, path, NewFile::Kept(keep), out_path)
}

/// Runs `salvage`, with these IDs. The paths are as for `canonical`.
pub fn salvage<R: Files + Input + Print + Eprint + AllocGlobal>(
    rt: &R,
    path: &str,
    ids: SalvagedIds,
    out_path: &str,
) -> Status
    ensures { result ≢ Status.BadWords }
{
    rewrite_as(rt, path, NewFile::Salvaged(ids), out_path)
}

/// Writes this new file for a file, and reports what the new file lacks.
fn rewrite_as<R: Files + Input + Print + Eprint + AllocGlobal>(
    rt: &R,
    path: &str,
    new: NewFile<'_>,
    out_path: &str,
) -> Status
    ensures { result ≢ Status.BadWords }
{
    let file = match read_file_or_input_within(rt, path, MOST_BYTES) {
        Ok(file) => file,
        Err(status) => return status,
    };
    let status = write_to(rt, file.as_slice(), new, out_path);
    comment_on_rewrite(rt, path, status, file.as_slice(), new);
    status
}

/// Reports the same as `comment_on_file`, and what the new file lacks. For a salvaged file it
/// reports what a transfer may have made of the damaged one.
fn comment_on_rewrite<R: Eprint + AllocGlobal>(
    rt: &R,
    path: &str,
    status: Status,
    file: &[u8],
    new: NewFile<'_>,
) {
    comment_on_file(rt, path, status, &file);
    match new {
        NewFile::Salvaged(_) => comment_on_salvage(rt, path, status, &file),
        NewFile::Kept(keep) if keep.filler => {
            name_dropped(rt, path, status, &file, DROPPED.but_filler())
        }
        _ => name_dropped(rt, path, status, &file, DROPPED),
    }
}

/// Writes a new file for a file to a path. A heap image isn't replaced. The path `-` means standard
/// output, and then the lines go to standard error.
pub(crate) fn write_to<R: Files + Print + Eprint + AllocGlobal>(
    rt: &R,
    file: &[u8],
    new: NewFile<'_>,
    out_path: &str,
) -> Status
    requires { length file.now ≤ MOST_BYTES }
    ensures { result ≢ Status.BadWords }
{
    if out_path == STANDARD_STREAM {
        let mut out = Counted::new(Noted::new(ErrorOutput::new(rt)));
        let (status, fault) = rewrite(rt.alloc(), file, new, io::writer(rt), &mut out);
        return report_outputs(rt, status, (STANDARD_OUTPUT, fault), STANDARD_ERROR, out);
    }
    let mut file_out = match output_for(rt, out_path, OutputKind::Database) {
        Ok(file_out) => file_out,
        Err(status) => return status,
    };
    let mut out = Counted::new(Noted::new(io::writer(rt)));
    let (status, fault) = rewrite(rt.alloc(), file, new, &mut file_out, &mut out);
    file_out.close();
    report_outputs(rt, status, (out_path, fault), STANDARD_OUTPUT, out)
}

/// Writes a new file for a file to `file_out`, and its lines to `out`. A buffer collects the
/// blocks, which may be small. Returns the status, and the first error of `file_out`.
fn rewrite<W: Write + Drop, V: Write>(
    alloc: Global,
    file: &[u8],
    new: NewFile<'_>,
    file_out: W,
    out: &mut Counted<V>,
) -> (Status, Option<io::Error>)
    requires { length file.now ≤ MOST_BYTES }
    ensures { result.0 ≢ Status.BadWords }
{
    let Ok(file_out) = BufWriter::with_capacity(alloc, BUFFER_SIZE, Noted::new(file_out)) else {
        return (Status::NoMemory, None);
    };
    let mut file_out = Counted::new(file_out);
    let status = put_new(&alloc, file, new, &mut file_out, out);
    (status, buffered_fault(file_out.into_inner()))
}

/// Writes a new file for a file to `file_out`, and its lines to `out`, as the command for it does.
/// Each allocation asks `memory` for a grant.
fn put_new<A: Allowance, W: Write, V: Write>(
    memory: &A,
    file: &[u8],
    new: NewFile<'_>,
    file_out: &mut Counted<W>,
    out: &mut Counted<V>,
) -> Status
    requires { length file.now ≤ MOST_BYTES }
    ensures ends { EndsNewFile new.entry file.now (output W.contents file_out.old file_out.new)
        (output V.contents out.old out.new) result }
    ensures good_words { result ≢ Status.BadWords }
    ensures short { result ≡ Status.NoMemory → A.is_short memory.now }
{
    match new {
        NewFile::Canonical => cmd_canonical_from(memory, file, file_out, out),
        NewFile::Kept(keep) => cmd_keep_from(memory, file, keep, file_out, out),
        NewFile::Salvaged(ids) => cmd_salvage_from(memory, file, ids, file_out, out),
        NewFile::Put(block) => cmd_put_from(memory, file, block, file_out, out),
    }
}
