//! What `list`, `list --json` and `canonical --check` print, for a file and for several files.

ghost use Rattle.std.specs.Prelude.{◌≡◌, ◌≢◌, ◌≤◌, length, map, option_map};
ghost use Rattle.pdb_format.specs.Opened.{most_file_bytes};
ghost use Rattle.palm_text.specs.Output.{output};
ghost use Rattle.file_commands.specs.Reports as words;
ghost use Rattle.file_commands.specs.Reports.{EndsNext, EndsReport, EndsReports, MayReport};

use crate::changes_command::cmd_changes_from;
use crate::inputs::Inputs;
use crate::keep_command::cmd_left_from;
use crate::list_command::cmd_list_from;
use allowance::Allowance;
use file_listing::TextRows;
use file_parts::Keep;
use json_documents::JsonRows;
use palm_text::Counted;
use pdb_format::FileBytes;
use program_io::Status;
use std::io::Write;

/// What a command prints for each file.
#[derive(Clone, Copy, Debug, PartialEq, Eq)]
pub enum Report {
    /// The listing, as `list` prints it.
    Listing,
    /// The document, as `list --json` prints it.
    Document,
    /// The line of the changes, as `canonical --check` prints it.
    Changes,
    /// The line of the changes that are left, as `canonical --check --keep` prints it.
    Left(Keep),
}

/// The files of which a command prints reports, in order.
#[derive(Clone, Copy)]
pub struct Asked<'a> {
    pub report: Report,
    pub paths: &'a [&'a str],
    /// Whether the report of a file has the path.
    pub named: bool,
}

/// Prints the report of a file, with the path if there is one. If the file has a fault, the report
/// has only the first fault. Each allocation asks `memory` for a grant.
pub fn cmd_report_from<A: Allowance, B: FileBytes, V: Write>(
    memory: &A,
    report: Report,
    path: Option<&str>,
    file: &B,
    out: &mut Counted<V>,
) -> Status
    requires { length (B.bytes file.now) ≤ most_file_bytes }
    ensures ends { EndsReport report (option_map (λ path. path.now) path.entry) (B.bytes file.now)
        (output V.contents out.old out.new) result }
    ensures short { result ≡ Status.NoMemory → A.is_short memory.now }
{
    match report {
        Report::Listing => cmd_list_from(memory, &TextRows { path }, file, out),
        Report::Document => cmd_list_from(memory, &JsonRows { path }, file, out),
        Report::Changes => cmd_changes_from(memory, path, file, out),
        Report::Left(keep) => cmd_left_from(memory, keep, path, file, out),
    }
}

/// Prints the reports of some files, one after another, and returns the worst status. It reads a
/// file after the report of the one before, and has the bytes of one file at a time. After a write
/// fails, it reads and writes nothing more. Any other failure is that of one file, and the others
/// go on.
pub fn cmd_reports_from<A: Allowance, I: Inputs, V: Write>(
    memory: &A,
    inputs: &I,
    asked: Asked<'_>,
    out: &mut Counted<V>,
) -> Status
    ensures ends { EndsReports
        (MayReport (I.gives inputs.now) (A.is_short memory.now) asked.entry.report asked.entry.named)
        (map (λ path. path.now) asked.entry.paths.now) (output V.contents out.old out.new) result }
    ensures good_words { result ≢ Status.BadWords }
{
    let mut worst = Status::Done;
    for path in asked.paths {
        match report_next(memory, inputs, asked, path, out) {
            Status::WriteFault => return Status::WriteFault,
            status => worst = worst.worse(status),
        }
    }
    worst
}

/// Reads a file, and prints its report.
fn report_next<A: Allowance, I: Inputs, V: Write>(
    memory: &A,
    inputs: &I,
    asked: Asked<'_>,
    path: &str,
    out: &mut Counted<V>,
) -> Status
    ensures ends { EndsNext
        (MayReport (I.gives inputs.now) (A.is_short memory.now) asked.entry.report
        asked.entry.named path.now) (output V.contents out.old out.new) result }
    ensures good_words { result ≢ Status.BadWords }
{
    let file = match inputs.read(path) {
        Ok(file) => file,
        Err(status) => return status,
    };
    let shown = path_if(asked.named, path);
    let status = cmd_report_from(memory, asked.report, shown, &file, out);
    inputs.note(path, status, &file);
    status
}

/// Returns the path that a report has, if it has one.
fn path_if(named: bool, path: &str) -> Option<&str>
    ensures { option_map (λ path. path.now) result ≡ words.path_if named path.now }
{
    if named { Some(path) } else { None }
}
