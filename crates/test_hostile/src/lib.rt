//! Tests of hostile use: allocations that fail one by one, writers that fail after
//! each byte, bytes of images and of files that are damaged, images and scripts at their limits,
//! and long lists of calls.
//!
//! This crate has no code but its tests.
#![tactic(auto)]

#[cfg(test)]
mod bytes;
#[cfg(test)]
mod commands;
#[cfg(test)]
mod drawn;
#[cfg(test)]
mod files;
#[cfg(test)]
mod fronts;
#[cfg(test)]
mod growths;
#[cfg(test)]
mod limits;
#[cfg(test)]
mod lists;
#[cfg(test)]
mod resources;
#[cfg(test)]
mod stores;
#[cfg(test)]
mod tables;
#[cfg(test)]
mod writes;
