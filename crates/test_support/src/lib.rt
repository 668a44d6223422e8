//! What tests share: readers and writers that fail, and allocations that fail; what a test says
//! where a value isn't the one that is wanted; and images and files.
//!
//! Nothing but tests uses this crate.
#![tactic(auto)]

mod fakes;
mod flipped;
mod images;
mod wanted;

pub use fakes::{Narrow, RefusesOne, Source, Unflushed, WhenFull};
pub use flipped::{Finding, check_flipped};
pub use images::{
    BLANK, EMPTY_FILE, EMPTY_WRITTEN, ONE_CHUNK, ONE_DATABASE, ORDER_FILE, ORDER_WRITTEN,
    THREE_CHUNKS, TINY_FILE, TWO_CHUNKS, TWO_DATABASES, WIDE, bytes_of, changed_words, image,
};
pub use wanted::{equal, holds};
