//! The program `palmheap_images`, as a function over a runtime and the words of the command line.
//! It has the commands of `palmheap` that need neither the managers nor the pictures. So a first
//! call of one of them proves fewer crates.
//!
//! All functions call the system. Start with `run`.
//!
//! | module | does |
//! |---|---|
//! | `words` | reads the words of the command line |
//! | `requests` | fulfils their request, and prints the text for words without a command |
//! | `meanings` | the command `explain` |
#![tactic(auto)]

mod meanings;
mod requests;
mod words;

pub use requests::{answer, fulfil, run};
pub use words::read_words;
