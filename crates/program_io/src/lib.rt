//! The input and output of the program: the words of its command line, input files, lines on
//! writers that count their faults, output files, and the status of a run.
//!
//! No contract is about files or terminals: each function works over words, readers and writers.
//! Start with `say`, which prints a line, and with `Status`.
//!
//! | module | does |
//! |---|---|
//! | `command_line` | reads the words of the command line |
//! | `command_rows` | the commands and their arguments, with their help |
//! | `requested` | the request of the words that were matched |
//! | `kept_words` | the words of `--keep` |
//! | `help_texts` | the texts of the help |
//! | `input` | reads a file to its end, within a limit |
//! | `reading` | one read, and its failure |
//! | `output` | prints a line and returns the status of the run, or flushes a writer |
//! | `output_file` | a file that replaces another as a whole |
//! | `error_output` | standard error, as a writer |
//! | `noted` | a writer that keeps its first error |
//! | `status` | the status of a run, and its exit status |
//! | `fault_report` | the lines on standard error if a run failed |
#![tactic(auto)]

pub mod command_line;
mod command_rows;
mod error_output;
mod fault_report;
mod help_texts;
mod input;
mod kept_words;
mod noted;
mod output;
mod output_file;
mod reading;
mod requested;
mod status;

pub use error_output::ErrorOutput;
pub use fault_report::{report_fault, report_input_fault, report_outcome, report_write_fault};
pub use input::{
    InputFault, MOST_INPUT, MOST_READ, read_input, read_input_from, read_turn, read_within,
};
pub use kept_words::KeptWords;
pub use noted::Noted;
pub use output::{flushed, say, say_bad, say_text};
pub use output_file::OutputFile;
pub use reading::{ReadFailure, read_once};
pub use status::Status;
