//! The parts of the calls on the entries of databases, for records and resources alike.

mod infos;
mod known;
mod making;
mod reading;
mod shapes;

pub use infos::{EntryInfo, InDatabase};
pub(crate) use known::{KnownIds, NOTHING_KNOWN};
pub(crate) use making::{new_entry, put_in, take_in};
pub(crate) use reading::read_entry;
pub(crate) use shapes::{emptied, entry_with, told, with_slot};
