//! The parts of the calls that make, change and delete databases: the directory, the header of a
//! database, its info blocks, and the other chunks that a database names.
//!
//! A call that takes room for several chunks takes it for one after the other. It writes their
//! contents only once it has all of the room. If one chunk is refused, the call frees those that it
//! made.

mod blocks;
mod clearing;
mod completing;
mod creating;
mod deleting;
mod gaining;
mod setting;
mod whole;

pub(crate) use blocks::{block_in, find_writable_block, give_block, take_block};
pub(crate) use clearing::{free_data, has_lent, has_locked};
pub(crate) use completing::{list_whole, write_whole};
pub(crate) use creating::{empty_header, list_new};
pub(crate) use deleting::unlist;
pub(crate) use setting::with_info;
pub use whole::BlockSizes;
