//! Text for writers whose faults are counted.
//!
//! A line is an array of `Piece`s, and `put_pieces` writes it. If it succeeds, all of the line was
//! written. If it fails, a prefix was written, and the writer's count of faults rose. `Writes`
//! states this for every function here that writes. `put` also flushes after the text. Nothing
//! allocates. `faulty_pieces` has what follows the name of a fault of a file.
#![tactic(auto)]

mod counted;
mod faulty_parts;
mod has_text;
mod output;
mod pieces;
mod spelled;

pub use counted::Counted;
pub use faulty_parts::faulty_pieces;
pub use has_text::{HasText, put_each};
pub use output::{WriteFault, put, put_all};
pub use pieces::{Piece, four_bytes, put_pieces};
pub use spelled::are_printable;
