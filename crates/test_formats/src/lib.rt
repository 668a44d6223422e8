//! Tests of all that reads and writes the format of an image, a store in it, and a file, each crate
//! by itself, and of the definitions of these formats.
//!
//! This crate has no code but its tests.
#![tactic(auto)]

#[cfg(test)]
mod heap;
#[cfg(test)]
mod store;
