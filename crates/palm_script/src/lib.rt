//! Scripts of manager calls.
//!
//! `do_call` does one call and returns its reply, and `run_calls` does the calls of a list.
//! `check_and_run` checks an image and runs a list of calls from it. Its contract, which
//! `specs/Headline.antt` defines, is the purpose of the library. `run` does the calls of a script,
//! line by line, and prints a reply line for each; `do_line` is its step. `parse` reads the script.
//! `specs/Lines.antt` of script_calls defines the calls of lines, and what lines bind, print and
//! export.
//!
//! | module | does |
//! |---|---|
//! | `calls` | one call of each kind |
//! | `records` | one call on records |
//! | `resources` | one call on resources |
//! | `files` | one call on files |
//! | `lists` | the calls of a list |
//! | `lines` | one line: its call, what it binds, its reply line |
//! | `runs` | the lines of a script |
#![tactic(auto)]

mod calls;
mod files;
mod lines;
mod lists;
mod records;
mod resources;
mod runs;

pub use calls::{do_call, do_call_from};
pub use lines::do_line;
pub use lists::{
    NotRun, OutOfMemory, check_and_run, check_and_run_from, run_calls, run_calls_from,
};
pub use palm_store::{WriteFault, put_all};
pub use runs::{RunFault, run, run_from};
pub use script_lines::{
    ChunkLabel, DatabaseLabel, LentBytes, Line, LineCall, LineFault, Script, ScriptFault, parse,
};
