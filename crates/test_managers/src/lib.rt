//! Tests of the managers: calls on a heap and on a store, each done on a plain model next to it, by
//! hand and in lists that look random; which images are taken; and the files that a store reads and
//! writes.
//!
//! This crate has no code but its tests.
#![tactic(auto)]

#[cfg(test)]
mod files;
#[cfg(test)]
mod heap;
#[cfg(test)]
mod notation;
#[cfg(test)]
mod store;
