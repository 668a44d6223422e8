//! The faults of a script, and their names.

ghost use Rattle.std.specs.Prelude.{◌≡◌};
ghost use Rattle.script_lines.specs.FaultNames.{script_fault_name};

use thiserror::Error;

/// The fault of a line.
#[derive(Clone, Copy, Debug, PartialEq, Eq, Error)]
#[error("{}", self.name())]
pub enum ScriptFault {
    /// The first word is not a command.
    UnknownCommand,
    /// There are more or fewer words than the command takes.
    WrongCount,
    /// The word with this number, counted from 1 with the command, is faulty. It is a quoted word
    /// that isn't closed or is followed directly by another byte, or it isn't of the kind that the
    /// command takes.
    #[error("{} {}", self.name(), .0)]
    BadWord(usize),
    /// An allocation failed.
    OutOfMemory,
}

impl ScriptFault {
    /// Returns the name of the fault.
    pub fn name(self) -> &'static str
        ensures { result.now ≡ script_fault_name self }
    {
        match self {
            ScriptFault::UnknownCommand => "UnknownCommand",
            ScriptFault::WrongCount => "WrongCount",
            ScriptFault::BadWord(_) => "BadWord",
            ScriptFault::OutOfMemory => "OutOfMemory",
        }
    }
}

/// The first faulty line of a script, counted from 1 over all lines, and its fault. If an
/// allocation failed, the line is 0.
#[derive(Clone, Copy, Debug, PartialEq, Eq, Error)]
#[error("line {line} {fault}")]
pub struct LineFault {
    pub line: usize,
    pub fault: ScriptFault,
}
