//! The faults that prevent a command from starting.

ghost use Rattle.std.specs.Prelude.{◌≡◌, ◌≢◌, codes};
ghost use Rattle.program_io.specs.Status.{status_of};

use program_io::{InputFault, Status, report_fault, report_input_fault};

/// The name of standard input, for reports of failures.
pub const STANDARD_INPUT: &str = "standard input";

/// The name of standard output, for reports of failures.
pub const STANDARD_OUTPUT: &str = "standard output";

/// The name of standard error, for reports of failures.
pub const STANDARD_ERROR: &str = "standard error";

/// The word for standard input, or standard output, in place of a path.
pub const STANDARD_STREAM: &str = "-";

/// Reports on standard error why a command did not start, and returns the status.
pub fn fail<R: Eprint>(rt: &R, status: Status) -> Status
    ensures { result ≡ status }
{
    report_fault(rt, status);
    status
}

/// Reports on standard error why a file can't be read, and returns the status of the fault.
pub fn fail_to_read<R: Eprint>(rt: &R, path: &str, fault: InputFault) -> Status
    ensures { result ≡ status_of fault }
{
    report_input_fault(rt, path, fault);
    Status::from(fault)
}

/// Returns the name of the input at a path, for messages.
pub fn input_name(path: &str) -> &str
    ensures stream { path.now ≡ codes "-" → result.now ≡ codes "standard input" }
    ensures file { path.now ≢ codes "-" → result.now ≡ path.now }
{
    if path == STANDARD_STREAM {
        STANDARD_INPUT
    } else {
        path
    }
}
