//! The lines of scripts: how a script is read from its text.
//!
//! `parse` returns the script of a text, or its first faulty line. It reports out of memory only if
//! an allocation failed. Each allocation asks an `Allowance` for a grant first.
//!
//! Start with `specs/Reading.antt`: it defines the script of a text, line for line.
//!
//! | file in `specs/` | defines |
//! |---|---|
//! | `Reading` | the script of a text, or its first faulty line |
//! | `Words` | how a line is cut into words |
//! | `Spellings` | how a word of each kind is spelled |
//! | `Kinds` | what the words of a line stand for |
//! | `Numbering` | the number of a label in its table, that of chunks or that of databases |
//! | `FaultNames` | the name of the fault of a line |
//! | `Laws` | what palm_text prints of a text is read back |
//!
//! The crate `script_commands` defines the lines and the commands.
#![tactic(auto)]

mod fault;
mod label;
mod laws;
mod reading;
mod spelling;
mod text;
mod value;

/// The lines, from `script_commands`.
pub mod line {
    pub use script_commands::{
        ChunkLabel, DatabaseLabel, LentBytes, Line, LineCall, Script, label_ends,
    };
}

pub use fault::{LineFault, ScriptFault};
pub use label::LabelTables;
pub use laws::{four_bytes_are_read_back, texts_are_read_back};
pub use line::{ChunkLabel, DatabaseLabel, LentBytes, Line, LineCall, Script, label_ends};
pub use reading::{NO_MEMORY_FAULT, parse, parse_from, read_line};
pub use spelling::{
    four_bytes_of, hex_byte_of, hex_of, hex_short_of, number_of, short_of, text_of,
};
pub use text::{LineCut, WordCut, count_words, cut_ended_line, cut_line, cut_word, is_passed_over};
