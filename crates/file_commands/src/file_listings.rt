//! The commands `list`, `list --json` and `canonical --check`, over files.

ghost use Rattle.std.specs.Prelude.{◌≢◌, ⊤};

use crate::comments::{WOULD_BE_DROPPED, comment_on_file, name_dropped};
use crate::inputs::Inputs;
use crate::reports::{Asked, Report, cmd_reports_from};
use crate::starts::{FileRead, read_listed};
use command_files::{STANDARD_OUTPUT, buffered_fault, fail};
use palm_text::Counted;
use program_io::{Noted, Status, report_fault, report_outcome};
use std::io;
use std::io::{BufWriter, Input};
use std::rt::Files;

/// The files of the system. The path `-` means standard input.
#[derive(Drop)]
struct SystemFiles<'a, R> {
    rt: &'a R,
    report: Report,
}

impl<R: Files + Input + Eprint + AllocGlobal> Inputs for SystemFiles<'_, R> {
    ghost gives = { λ _ _ _. ⊤ };

    fn read(&self, path: &str) -> Result<FileRead, Status> {
        read_listed(self.rt, path)
    }

    /// Reports on standard error if there was not enough memory, what the file looks like, what is
    /// wrong with it, and what a rewrite drops.
    fn note(&self, path: &str, status: Status, file: &FileRead) {
        if status == Status::NoMemory {
            report_fault(self.rt, status);
        }
        comment_on_file(self.rt, path, status, file);
        let dropped = match self.report {
            Report::Left(keep) if keep.filler => WOULD_BE_DROPPED.but_filler(),
            _ => WOULD_BE_DROPPED,
        };
        name_dropped(self.rt, path, status, file, dropped);
    }
}

/// Runs `list`, `list --json` or `canonical --check` on some files.
pub fn report_files<R: Files + Input + Print + Eprint + AllocGlobal>(
    rt: &R,
    asked: Asked<'_>,
) -> Status
    ensures { result ≢ Status.BadWords }
{
    let Ok(out) = BufWriter::new(rt.alloc(), Noted::new(io::writer(rt))) else {
        return fail(rt, Status::NoMemory);
    };
    let mut out = Counted::new(out);
    let files = SystemFiles {
        rt,
        report: asked.report,
    };
    let status = cmd_reports_from(&rt.alloc(), &files, asked, &mut out);
    let fault = buffered_fault(out.into_inner());
    if status == Status::WriteFault {
        report_outcome(rt, status, &[(STANDARD_OUTPUT, fault)]);
    }
    status
}
