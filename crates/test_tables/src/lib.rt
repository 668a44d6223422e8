//! Tests of images with a chain of tables: the checks of heaps and of stores, and calls that make
//! tables.
//!
//! This crate has no code but its tests.
#![tactic(auto)]

#[cfg(test)]
mod against_model;
#[cfg(test)]
mod chains;
#[cfg(test)]
mod images;
#[cfg(test)]
mod large;
#[cfg(test)]
mod more;
#[cfg(test)]
mod stores;
