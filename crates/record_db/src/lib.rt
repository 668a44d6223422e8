//! The calls on the records of databases (Palm OS Programmer's API Reference, "Data Manager").
//!
//! The contract of each function is the step of the abstract store for that call. Each function
//! first checks that the database exists and has records. Functions that change it, except `get`
//! and `release`, then check that it may be written. They also count the call in its modification
//! number. The row of each call in `record_row` (`heap_model`) has the order of its refusals.
#![tactic(auto)]

mod asking;
mod attributes;
mod categories;
mod changing;
mod giving;
mod making;
mod records;
mod search;

pub use asking::{find_by_id, num_records, query, record_info};
pub use categories::{
    delete_category, move_category, next_in_category, num_in_category, position_in_category,
};
pub use changing::{archive, delete, detach, get, move_record, release, remove, set_record_info};
pub use giving::{attach, attach_replacing};
pub use making::{new_record, resize_record};
