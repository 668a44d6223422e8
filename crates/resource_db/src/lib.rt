//! The calls on the resources of databases (Palm OS Programmer's API Reference, "Data Manager").
//!
//! The contract of each function is the step of the abstract store for that call. Each function
//! first checks that the database exists and has resources. Functions that change it then check
//! that it may be written, and count the call in its modification number. Two resources may have
//! the same type and ID. The row of each call in `resource_row` (`heap_model`) has the order of its
//! refusals.
#![tactic(auto)]

mod asking;
mod changing;
mod giving;
mod making;
mod resources;
mod search;

pub use asking::{find_resource, find_type, num_resources, resource_info};
pub use changing::{detach_resource, remove_resource, set_resource_info};
pub use giving::attach_resource;
pub use making::{new_resource, resize_resource};
