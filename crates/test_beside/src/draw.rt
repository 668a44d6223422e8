//! Calls that are drawn, so that calls of every kind come up, accepted and refused for every
//! reason.
//!
//! What a call names is drawn from an image or a store: most often something that is there.

mod database;
mod file;
mod memory;
mod numbers;
mod record;
mod resource;

pub(crate) use database::database_call;
pub(crate) use file::file_call;
pub use memory::memory_call;
pub(crate) use record::record_call;
pub(crate) use resource::resource_call;
