//! Reports of several files: the reports of all of them, one after another, and the worst status.

ghost use Rattle.std.specs.Prelude.{⊤};

use crate::samples::{MEMO_FILE, changed};
use file_commands::{Asked, FileRead, Inputs, Report, cmd_report_from, cmd_reports_from};
use file_parts::Keep;
use heap_model::Bytes;
use palm_text::Counted;
use program_io::Status;
use std::alloc::Global;
use std::cell::Cell;
use std::io::ErrorKind;
use std::test::*;
use test_support::{Narrow, ORDER_FILE, TINY_FILE, Unflushed, WhenFull, bytes_of, equal, holds};

/// The most bytes that a file may have.
const MOST_SEVERAL: usize = 16_777_216;

/// Files in memory, and the statuses of which a command took note.
#[derive(Drop)]
struct Shelf {
    alloc: Global,
    memo: Vec<u8>,
    tiny: Vec<u8>,
    order: Vec<u8>,
    broken: Vec<u8>,
    noted: Cell<Vec<Status>>,
}

impl Shelf {
    fn new(alloc: Global) -> Result<Shelf, Fail> {
        Ok(Shelf {
            alloc,
            memo: bytes_of(alloc, MEMO_FILE)?,
            tiny: bytes_of(alloc, TINY_FILE)?,
            order: bytes_of(alloc, ORDER_FILE)?,
            broken: changed(alloc, ORDER_FILE, 86, &[0, 0, 0, 0x65])?,
            noted: Cell::new(Vec::new(alloc)),
        })
    }

    /// The bytes of the file at a path, if there is one.
    fn file(&self, path: &str) -> Option<&[u8]> {
        match path {
            "memo" => Some(self.memo.as_slice()),
            "tiny" => Some(self.tiny.as_slice()),
            "order" => Some(self.order.as_slice()),
            "broken" => Some(self.broken.as_slice()),
            _ => None,
        }
    }
}

impl Inputs for Shelf {
    ghost gives = { λ _ _ _. ⊤ };

    fn read(&self, path: &str) -> Result<FileRead, Status> {
        if path == "large" {
            return Err(Status::NoMemory);
        }
        match self.file(path) {
            Some(bytes) if bytes.len() <= MOST_SEVERAL => match Vec::from_slice(self.alloc, bytes) {
                Ok(bytes) => Ok(FileRead::Whole(Bytes::of(bytes))),
                Err(_) => Err(Status::NoMemory),
            },
            _ => Err(Status::ReadFault),
        }
    }

    fn note(&self, _path: &str, status: Status, _file: &FileRead) {
        let mut noted = self.noted.replace(Vec::new(self.alloc));
        let _ = noted.push(status);
        drop(self.noted.replace(noted));
    }
}

const REPORTS: [Report; 4] = [
    Report::Listing,
    Report::Document,
    Report::Changes,
    Report::Left(IDS_AND_ORDER),
];

const IDS_AND_ORDER: Keep = Keep {
    ids: true,
    filler: false,
    order: true,
};

/// The report of one file, with its path.
fn report_of(alloc: Global, shelf: &Shelf, report: Report, path: &str) -> Result<Vec<u8>, Fail> {
    let mut out = Counted::new(Vec::new(alloc));
    if let Some(file) = shelf.file(path) {
        if file.len() > MOST_SEVERAL {
            return Err("a file that is too long")?;
        }
        let _ = cmd_report_from(&alloc, report, Some(path), &file, &mut out);
    }
    Ok(out.into_inner())
}

/// Paths, and the status with which the reports of their files end.
static LISTS: [(&[&str], Status); 9] = [
    (&[], Status::Done),
    (&["memo"], Status::Done),
    (&["memo", "tiny", "memo"], Status::Done),
    (&["broken", "memo"], Status::Refused),
    (&["memo", "broken"], Status::Refused),
    (&["none", "memo", "broken"], Status::ReadFault),
    (&["broken", "memo", "none"], Status::ReadFault),
    (&["large", "none", "order"], Status::NoMemory),
    (&["none", "large", "broken", "order"], Status::NoMemory),
];

#[test]
fn reports_come_one_after_another(rt: HostRuntime) -> Result<(), Fail> {
    for report in &REPORTS {
        for (paths, status) in &LISTS {
            check_list(rt.alloc(), *report, paths, *status)?;
        }
    }
    Ok(())
}

fn check_list(alloc: Global, report: Report, paths: &[&str], wanted: Status) -> Result<(), Fail> {
    let shelf = Shelf::new(alloc)?;
    let mut out = Counted::new(Vec::new(alloc));
    let asked = Asked {
        report,
        paths,
        named: true,
    };
    let status = cmd_reports_from(&alloc, &shelf, asked, &mut out);
    equal(format_args!("{report:?} {paths:?}"), status, wanted)?;
    let mut text = Vec::new(alloc);
    for path in paths {
        text.extend_from_slice(report_of(alloc, &shelf, report, path)?.as_slice())?;
    }
    let is_whole = out.into_inner().as_slice() == text.as_slice();
    holds(format_args!("{report:?} {paths:?}"), is_whole)
}

/// The statuses of a whole file and of a damaged one.
static NOTED: [Status; 2] = [Status::Done, Status::Refused];

/// The source takes note of each file that was read, with the status of its report.
#[test]
fn each_file_is_noted(rt: HostRuntime) -> Result<(), Fail> {
    let shelf = Shelf::new(rt.alloc())?;
    let mut out = Counted::new(Vec::new(rt.alloc()));
    let asked = Asked {
        report: Report::Changes,
        paths: &["memo", "none", "broken"],
        named: false,
    };
    let _ = cmd_reports_from(&rt.alloc(), &shelf, asked, &mut out);
    let noted = shelf.noted.replace(Vec::new(rt.alloc()));
    equal("statuses", noted.as_slice(), NOTED.as_slice())
}

/// What is printed of a file with its path, and without.
static TEXTS: [(Report, &str, Option<&str>, &str); 9] = [
    (Report::Changes, "memo", None, "canonical\n"),
    (
        Report::Changes,
        "memo",
        Some("a.pdb"),
        "==> a.pdb <==\ncanonical\n",
    ),
    (
        Report::Changes,
        "order",
        Some("b c.pdb"),
        "==> b c.pdb <==\nchanges busy ids order\n",
    ),
    (
        Report::Left(IDS_AND_ORDER),
        "order",
        Some("b c.pdb"),
        "==> b c.pdb <==\nchanges busy\n",
    ),
    (Report::Changes, "broken", None, "bad BadOffset 1\nat 86\n"),
    (
        Report::Changes,
        "broken",
        Some("a.pdb"),
        "==> a.pdb <==\nbad BadOffset 1\nat 86\n",
    ),
    (
        Report::Listing,
        "broken",
        Some("a.pdb"),
        "==> a.pdb <==\nbad BadOffset 1\nat 86\n",
    ),
    (
        Report::Document,
        "broken",
        Some("a.pdb"),
        "{\"path\":\"a.pdb\",\"fault\":\"BadOffset\",\"numbers\":[1],\"at\":86}\n",
    ),
    (
        Report::Document,
        "broken",
        Some("\u{e9}\u{1f600}\"\\\n\u{1}\u{7f}"),
        "{\"path\":\"\u{e9}\u{1f600}\\u0022\\u005c\\u000a\\u0001\\u007f\",\"fault\":\"BadOffset\",\
        \"numbers\":[1],\"at\":86}\n",
    ),
];

#[test]
fn paths_come_first(rt: HostRuntime) -> Result<(), Fail> {
    let shelf = Shelf::new(rt.alloc())?;
    for (report, name, path, text) in &TEXTS {
        let Some(file) = shelf.file(name) else {
            return Err("a file that isn't there")?;
        };
        if file.len() > MOST_SEVERAL {
            return Ok(());
        }
        let mut out = Counted::new(Vec::new(rt.alloc()));
        let _ = cmd_report_from(&rt.alloc(), *report, *path, &file, &mut out);
        holds(text, out.into_inner().as_slice() == text.as_bytes())?;
    }
    Ok(())
}

/// After a write fails, no other file is read. A prefix of the reports was written.
#[test]
fn a_full_writer_ends_the_reports(rt: HostRuntime) -> Result<(), Fail> {
    for room in 0..60 {
        check_room(rt.alloc(), room)?;
    }
    Ok(())
}

fn check_room(alloc: Global, room: usize) -> Result<(), Fail> {
    let shelf = Shelf::new(alloc)?;
    let full = "==> broken <==\nbad BadOffset 1\nat 86\n==> memo <==\ncanonical\n";
    let narrow = Narrow::new(alloc, room, 5, WhenFull::Fails(ErrorKind::StorageFull));
    let mut out = Counted::new(narrow);
    let asked = Asked {
        report: Report::Changes,
        paths: &["broken", "memo", "none"],
        named: true,
    };
    let status = cmd_reports_from(&alloc, &shelf, asked, &mut out);
    let narrow = out.into_inner();
    holds(room, full.as_bytes().starts_with(&narrow.taken))?;
    if room < full.len() {
        equal(room, status, Status::WriteFault)?;
        return equal(room, narrow.taken.len(), room);
    }
    equal(room, status, Status::ReadFault)
}

/// A flush that fails ends the reports after the first one.
#[test]
fn a_failed_flush_ends_the_reports(rt: HostRuntime) -> Result<(), Fail> {
    let shelf = Shelf::new(rt.alloc())?;
    let mut out = Counted::new(Unflushed(Vec::new(rt.alloc())));
    let asked = Asked {
        report: Report::Changes,
        paths: &["memo", "memo"],
        named: false,
    };
    let status = cmd_reports_from(&rt.alloc(), &shelf, asked, &mut out);
    equal("status", status, Status::WriteFault)?;
    equal("text", out.into_inner().0.len(), 10)
}
