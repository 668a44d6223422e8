//! Files of databases that a store reads and writes, against listings.

mod exporting;
mod importing;
mod stores;
