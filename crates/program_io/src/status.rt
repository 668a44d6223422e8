//! The status of a run of the program.

ghost use Rattle.std.specs.Prelude.{◌≡◌, ◌↔◌, ◌⊎◌, option_map};
ghost use Rattle.program_io.specs.Status as words;
ghost use Rattle.program_io.specs.Status.{fault_word};

use crate::input::InputFault;

/// The status of a run. `code` returns the exit status.
#[derive(Clone, Copy, Debug, PartialEq, Eq)]
pub enum Status {
    /// The request was fulfilled.
    Done,
    /// An input is refused. Standard output has the reason.
    Refused,
    /// The words of the command line are no valid request.
    BadWords,
    /// An input file could not be read, or is too long.
    ReadFault,
    /// A write failed.
    WriteFault,
    /// An allocation failed.
    NoMemory,
}

impl Status {
    /// Returns the exit status of the process.
    pub fn code(self) -> u8
        ensures done { (result ≡ 0) ↔ (self ≡ Status.Done) }
        ensures refused { (result ≡ 1) ↔ (self ≡ Status.Refused) }
        ensures bad_words { (result ≡ 2) ↔ (self ≡ Status.BadWords) }
        ensures fault { (result ≡ 3) ↔ ((self ≡ Status.ReadFault) ⊎ (self ≡ Status.WriteFault)) }
        ensures no_memory { (result ≡ 4) ↔ (self ≡ Status.NoMemory) }
    {
        match self {
            Status::Done => 0,
            Status::Refused => 1,
            Status::BadWords => 2,
            Status::ReadFault | Status::WriteFault => 3,
            Status::NoMemory => 4,
        }
    }

    /// Returns the worse of two statuses. A failed write is the worst, as nothing is written after
    /// it.
    pub fn worse(self, other: Status) -> Status
        ensures { result ≡ words.worse self other }
    {
        if self.severity() < other.severity() {
            other
        } else {
            self
        }
    }

    fn severity(self) -> u8
        ensures { result ≡ words.severity self }
    {
        match self {
            Status::Done => 0,
            Status::Refused => 1,
            Status::BadWords => 2,
            Status::ReadFault => 3,
            Status::NoMemory => 4,
            Status::WriteFault => 5,
        }
    }

    /// Returns the word after `fault` on standard error, if the run failed.
    pub fn fault(self) -> Option<&'static str>
        ensures { option_map (λ word. word.now) result ≡ fault_word self }
    {
        match self {
            Status::Done | Status::Refused | Status::BadWords => None,
            Status::ReadFault => Some("read"),
            Status::WriteFault => Some("write"),
            Status::NoMemory => Some("memory"),
        }
    }
}

impl From<InputFault> for Status {
    ghost use Rattle.program_io.specs.Status.{status_of};

    ghost from_gives = { λ fault status. status ≡ status_of fault };

    fn from(fault: InputFault) -> Status {
        match fault {
            InputFault::Open(_)
            | InputFault::Read(_)
            | InputFault::TooLong
            | InputFault::LongerThan(_) => Status::ReadFault,
            InputFault::Memory => Status::NoMemory,
        }
    }
}
