//! The commands `new` and `check`, which work on an image, and the first fault of an image as text:
//! its name, its numbers, the line and the JSON document that are written for it.
//!
//! Each command is a function over bytes and counted writers. Its contract states when each status
//! is returned, what was written by then, and after which bytes a write failed. A form over any
//! `Allowance` reports out of memory only if an allocation failed. Start at `cmd_new`.
//!
//! `check --json` prints the facts that `check` prints as text. `unicode_text` describes what all
//! documents have in common, and `json_documents` has those of files.
//!
//! ```text
//! {"size":128,"slots":4,"movable":0,"fixed":0,"free":96,"databases":0}
//! ```
//!
//! `new` and `check` are the commands over paths: they read and write the files, and
//! report on standard error which file failed and why. Their clauses state only the statuses with
//! which they end.
//!
//! | module | does |
//! |---|---|
//! | `commands` | the commands over bytes; `check` in both forms (`specs/ImageChecks.antt`) |
//! | `images` | the commands over files |
//! | `faults` | the line and the document for a fault |
//! | `summary_documents` | the document of the counts of an image |
#![tactic(auto)]

mod commands;
mod faults;
mod images;
mod summary_documents;

pub use commands::{check_region_from, cmd_check, cmd_new, cmd_new_from};
pub use faults::{say_bad_image, say_fault, say_image_fault, say_no_image};
pub use images::{check, new};
