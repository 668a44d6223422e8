//! The commands of scripts, and the lines that they make.
//!
//! `specs/Commands.antt` defines the commands, one row each: the word, the kinds of the words after
//! it and the line that they make. `LentBytes` defines which bytes a text lends, and `LineCounts`
//! the counts of lines. `find_command` returns the command of a word, `row_of` its word and kinds,
//! and `make_line` its line. The code has a row for each command, too: `memory_commands` and the
//! macros beside it. `command.rt` says how to read one.
#![tactic(auto)]

mod command;
mod database_command;
mod lent_bytes;
mod line;
mod memory_command;
mod record_command;
mod resource_command;
mod value;

pub use command::{Command, CommandRow, find_command, make_line, row_of};
pub use database_command::DatabaseCommand;
pub use lent_bytes::LentBytes;
pub use line::{ChunkLabel, DatabaseLabel, Line, LineCall, Script, label_ends};
pub use memory_command::MemoryCommand;
pub use record_command::RecordCommand;
pub use resource_command::ResourceCommand;
pub use value::{Kind, Value};
