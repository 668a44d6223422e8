//! The lines on standard error if a run failed: `fault` and a word, and after `fault read` and
//! `fault write` a line with the file and the reason. A pipe that its reader has closed is not
//! reported if it is the main output of a command.

use crate::input::InputFault;
use crate::status::Status;
use std::io;
use std::io::ErrorKind;

/// Prints `fault` and the word of the status, if it has one.
pub fn report_fault<R: Eprint>(rt: &R, status: Status) {
    if let Some(fault) = status.fault() {
        let _ = eprintln!(rt; "fault {fault}");
    }
}

/// Prints the fault of an input file: that it couldn't be read, and why, or that an allocation
/// failed.
pub fn report_input_fault<R: Eprint>(rt: &R, file: &str, fault: InputFault) {
    let status = Status::from(fault);
    report_fault(rt, status);
    if status == Status::ReadFault {
        let _ = eprintln!(rt; "{file}: {fault}");
    }
}

/// Prints that a file couldn't be written, and why.
pub fn report_write_fault<R: Eprint>(rt: &R, file: &str, reason: io::Error) {
    report_fault(rt, Status::WriteFault);
    let _ = eprintln!(rt; "{file}: {reason}");
}

/// Prints why a command failed, if it did. `outputs` has each output with the first error of its
/// writer, the main output first. The first output with an error is named. Prints nothing if that is
/// the main output, a pipe that its reader has closed, as `head` does: its user wants no more of it.
pub fn report_outcome<R: Eprint>(rt: &R, status: Status, outputs: &[(&str, Option<io::Error>)]) {
    if status == Status::WriteFault {
        for (index, (file, fault)) in outputs.iter().enumerate() {
            if let Some(reason) = fault {
                if index > 0 || reason.kind() != ErrorKind::BrokenPipe {
                    report_write_fault(rt, file, *reason);
                }
                return;
            }
        }
    }
    report_fault(rt, status);
}
