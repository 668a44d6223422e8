//! Tests of the words of the command line. This crate has no code but its tests.
#![tactic(auto)]

#[cfg(test)]
mod words;
