//! The meaning of each fault and each refusal, in the words of docs/FORMAT.md and docs/USING.md.
//!
//! The module `table` has the rows, in sections: start there. `explain_word` writes the rows for a
//! name or a number. The crate `test_meanings` proves that each fault, each change in a rewritten
//! file and each refusal has exactly one row.
//!
//! | module | does |
//! |---|---|
//! | `table` | the rows |
//! | `answers` | writes the rows that a word asks for |
#![tactic(auto)]

mod answers;
mod table;

pub use answers::explain_word;
pub use table::{FileChange, Section, Subject};
