//! Files of which only the first bytes are in memory, and those of AppInfo. Listings need no others.
//!
//! | module | does |
//! |---|---|
//! | `reads_at` | a file that is read at offsets |
//! | `parts` | reads a part of a file, and finds whether a file has a size |
//! | `file_start` | reads the first bytes of a file and of its AppInfo |
//! | `file_read` | a file that was read: all of its bytes, or the first ones |
//! | `input_files` | reads the files that a command lists |
//!
//! No contract relates a file of the system to its bytes. So the clauses on bytes and on failures hold
//! of a source whose bytes and failures contracts know, as `ReadsAt` has them. For a file of the
//! system, `read_listed` states the limit and the faults alone. It only puts together `long_size`,
//! which decides by the size that the system reports, and `read_sized`, which finds whether the file
//! has that size.

mod file_read;
mod file_start;
mod input_files;
mod parts;
mod reads_at;

pub use file_read::FileRead;
pub use file_start::{READ_FIRST, ReadStart, read_start};
pub(crate) use input_files::read_listed;
pub use reads_at::ReadsAt;
