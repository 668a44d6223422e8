//! What standard error gets where a run broke off.

use program_io::{InputFault, Status, report_input_fault, report_outcome};
use std::alloc::Global;
use std::cell::Cell;
use std::fmt::Display;
use std::io;
use std::io::ErrorKind;
use std::test::Fail;
use test_support::equal;

/// Standard error, as a text.
struct ErrorText {
    alloc: Global,
    text: Cell<String>,
}

impl ErrorText {
    fn new(alloc: Global) -> ErrorText {
        ErrorText {
            alloc,
            text: Cell::new(String::new(alloc)),
        }
    }

    fn into_text(self) -> String {
        let ErrorText { alloc: _, text } = self;
        text.into_inner()
    }
}

impl Eprint for ErrorText {
    fn eprint<D: Display + Drop>(&self, value: D) -> io::Result<()> {
        let mut text = self.text.replace(String::new(self.alloc));
        let written = write!(text, "{value}");
        drop(self.text.replace(text));
        written?;
        Ok(())
    }

    fn eprintln<D: Display + Drop>(&self, value: D) -> io::Result<()> {
        self.eprint(value)?;
        self.eprint("\n")
    }
}

/// What is said of an input file is this.
fn check_input(alloc: Global, fault: InputFault, wanted: &str) -> Result<(), Fail> {
    let said = ErrorText::new(alloc);
    report_input_fault(&said, "a.img", fault);
    let text = said.into_text();
    equal("the input", text.as_str(), wanted)
}

#[test]
fn a_file_that_is_not_read_is_named(rt: HostRuntime) -> Result<(), Fail> {
    let alloc = rt.alloc();
    let denied = InputFault::Open(io::Error::from(ErrorKind::PermissionDenied));
    check_input(alloc, denied, "fault read\na.img: permission denied\n")?;
    check_input(
        alloc,
        InputFault::TooLong,
        "fault read\na.img: longer than 16777216 bytes\n",
    )?;
    check_input(
        alloc,
        InputFault::LongerThan(4_294_967_295),
        "fault read\na.img: longer than 4294967295 bytes\n",
    )?;
    check_input(alloc, InputFault::Memory, "fault memory\n")
}

/// A status, why the image and why the text wasn't written, and what is said.
type Outcome = (Status, Option<ErrorKind>, Option<ErrorKind>, &'static str);

const FULL: Option<ErrorKind> = Some(ErrorKind::StorageFull);

const CLOSED: Option<ErrorKind> = Some(ErrorKind::BrokenPipe);

static OUTCOMES: [Outcome; 9] = [
    (
        Status::WriteFault,
        FULL,
        None,
        "fault write\nb.img: no storage space\n",
    ),
    (Status::WriteFault, CLOSED, None, ""),
    (
        Status::WriteFault,
        None,
        CLOSED,
        "fault write\nstandard output: broken pipe\n",
    ),
    (
        Status::WriteFault,
        FULL,
        CLOSED,
        "fault write\nb.img: no storage space\n",
    ),
    (Status::NoMemory, None, None, "fault memory\n"),
    (Status::NoMemory, FULL, CLOSED, "fault memory\n"),
    (Status::BadWords, None, None, ""),
    (Status::Refused, None, None, ""),
    (Status::Done, None, None, ""),
];

fn check_outcome(alloc: Global, (status, image_fault, fault, wanted): Outcome) -> Result<(), Fail> {
    let said = ErrorText::new(alloc);
    let outputs = [
        ("b.img", image_fault.map(io::Error::from)),
        ("standard output", fault.map(io::Error::from)),
    ];
    report_outcome(&said, status, &outputs);
    let text = said.into_text();
    equal(format_args!("{status:?}"), text.as_str(), wanted)
}

#[test]
fn the_first_output_that_is_not_written_is_named(rt: HostRuntime) -> Result<(), Fail> {
    for outcome in &OUTCOMES {
        check_outcome(rt.alloc(), *outcome)?;
    }
    Ok(())
}
