//! A picture of a heap as SVG.
//!
//! The picture has rows of equally many bytes, from the first byte of the image on. A rectangle
//! shows the bytes of a chunk in a row. Neighbouring chunks of one kind share a rectangle if each
//! is at most a pixel wide:
//!
//! ```text
//! 65528 bytes, 163 of 700 slots in use
//! free 29312 bytes in 97 pieces, the largest 1488; a compact leaves 6 pieces, the largest 9640
//! [used              |largest|a compact adds |free in other stretches]
//!     0 [head and slots                                              ]  room of stretches
//!  2048 [head      |free|a|a|a|free|*|free|b |free|L|free|a|c|c|free ]  4736 bytes and 1 more
//!  4096 [a                      |free|a|free|c|free|b    |c|a|free|a ]
//! legend: the kinds of chunks, the databases with their entries, free pieces by size
//! ```
//!
//! Start with `specs/Strips.antt`, which says what the rectangles show. `specs/Rows.antt` says how
//! they lie in rows, and `specs/Drawing.antt` has the text of the picture.
#![tactic(auto)]

mod bytes_of_rows;
mod drawing;
mod frame;
mod legend;
mod pieces;
mod rectangles;
mod right;
mod rooms;
mod sizes;
mod strips;

pub use drawing::put_svg;
