//! A picture of a heap: its chunks, free space, locks and databases.
//!
//! The picture as text has rows of 64 marks, one for each cell of equally many bytes:
//!
//! ```text
//! size 65528 slots 700 used 163 cell 32
//!     2816 aaaa*bbb:........Laccaaaaaaaaaaaaaaaaaaaaaaaaaaacbbbbcaaaaaaaaaa
//!     4864 aaaaabbbaddddddddddddddddddddddddddddbbaaaacaaaaaaaaaaaaaaaaaaaa
//! free 29312 in 6 pieces, the largest 9640
//! a "MemoDB" 79 records
//! ```
//!
//! Start with `specs/Text.antt`, which defines the lines. `specs/Marks.antt` defines what each mark
//! means, and `specs/Cells.antt` which mark a cell has.
#![tactic(auto)]

mod cells;
mod marks;
mod numbers;
mod picture;
mod pieces;
mod reading;
mod text;

pub use marks::{FIXED, FREE, LOCKED, MANAGERS, OTHER, letter_of, mark_of};
pub use numbers::database_numbers;
pub use picture::{MapFault, check_image, put_map};
pub use pieces::{Pieces, free_pieces};
pub use reading::{directory_in, header_in};
