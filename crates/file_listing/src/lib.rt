//! The listing of a PDB or PRC file: its header, the places of its blocks, its entries, the part of
//! a heap that its database takes, and the changes when the file is rewritten.
//!
//! ```text
//! ok 97
//! name "MemoDB"
//! attributes 0000
//! version 0
//! created 3878595035 2026-11-27 03:30:35
//! modified 0 never
//! backup 0 never
//! number 0
//! type "DATA"
//! creator "memo"
//! seed 00000000
//! app none
//! sort none
//! records 1
//! 0 01 1 88 9
//! needs 168 bytes and 3 slots in a heap
//! canonical
//! ```
//!
//! If AppInfo has the names of categories, there is a line `category 1 "Business"` for each of them
//! before `records`, and the line of a record ends with the name of its category. If the name of the
//! database isn't spelled in quotes, the line `text` before `app` has its characters. If the
//! notation has the path of the file, the line `==> PATH <==` comes first.
//!
//! A listing is a list of rows. `put_listing` walks over the file once and writes each row in a
//! notation: `TextRows` writes these lines, and `json_documents` writes parts of a document. Start
//! with `specs/Listing.antt`, which defines the rows; `specs/Lines.antt` defines the lines.
#![tactic(auto)]

mod categories;
mod damage;
mod facts;
mod laws;
mod lines;
mod listing;
mod moments;
mod needs;
mod rows;
mod walk;

pub use damage::{Damage, damage_of, fault_place};
pub use laws::damages_are_exact;
pub use lines::{TextRows, put_heading};
pub use listing::{ListFault, put_fault, put_listing};
pub use moments::put_moment;
pub use rows::{Epoch, Extent, Moment, Notation, RecordRow, Row};
