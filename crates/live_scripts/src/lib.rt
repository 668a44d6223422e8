//! Scripts that are run line by line, while they are read.
//!
//! `run_read` reads a script from a reader. It runs each line, and flushes the replies before it
//! reads on. So another program can send a line, wait for its reply, and send the next line.
//!
//! `specs/Live.antt` defines what is run and printed: start there.
//!
//! | module | does |
//! |---|---|
//! | `live` | reads a script, and runs its lines |
//! | `session` | what lasts from line to line, and the run of one line |
//! | `tables` | tables of labels, which grow |
//! | `ahead` | reads up to a line feed |
//! | `fault` | why a run ends early |
#![tactic(auto)]

mod ahead;
mod fault;
mod live;
mod session;
mod tables;

pub use fault::LiveFault;
pub use live::{LiveInputs, run_read};
