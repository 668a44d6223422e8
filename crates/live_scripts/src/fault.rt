//! Why a run that reads its script ends early.

use program_io::InputFault;
use script_lines::LineFault;

/// Why a run that reads its script ended early.
#[derive(Clone, Copy, Debug)]
pub enum LiveFault {
    /// The line has a fault. The lines before it were run.
    Line(LineFault),
    /// The script could not be read further, or is too long. No allocation failed.
    Input(InputFault),
    /// An allocation failed.
    Memory,
    /// A write or a flush failed.
    Write,
}
