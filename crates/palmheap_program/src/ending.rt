//! How a run of the program ends.

ghost use Rattle.std.specs.Prelude.{◌≡◌, ◌↔◌};

use program_io::Status;

/// How a run of the program ends. `code` returns the exit status.
#[derive(Clone, Copy, Debug, PartialEq, Eq)]
pub enum Ending {
    /// The run ended with this status.
    Ended(Status),
    /// `run --strict` ran all lines of a script, and one of them was refused.
    LineRefused,
}

impl Ending {
    /// Returns the exit status of the process.
    pub fn code(self) -> u8
        ensures refused { (result ≡ 5) ↔ (self ≡ Ending.LineRefused) }
        ensures done { (result ≡ 0) ↔ (self ≡ Ending.Ended Status.Done) }
    {
        match self {
            Ending::Ended(status) => status.code(),
            Ending::LineRefused => 5,
        }
    }
}
