//! The definitions that speak of a chain of tables, tried on images: each holds of some, and not of
//! others.
//!
//! This crate has no code but its tests.
#![tactic(auto)]

#[cfg(test)]
mod added;
#[cfg(test)]
mod laws;
#[cfg(test)]
mod migrated;
#[cfg(test)]
mod refused;
#[cfg(test)]
mod tables;
