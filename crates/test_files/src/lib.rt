//! Tests of the commands on PDB and PRC files, and of the crates from which they are made.
//!
//! This crate has no code but its tests.
#![tactic(auto)]

#[cfg(test)]
mod blocks;
#[cfg(test)]
mod broken;
#[cfg(test)]
mod canonical;
#[cfg(test)]
mod changes;
#[cfg(test)]
mod documents;
#[cfg(test)]
mod exact;
#[cfg(test)]
mod keeps;
#[cfg(test)]
mod listings;
#[cfg(test)]
mod packs;
#[cfg(test)]
mod parts;
#[cfg(test)]
mod puts;
#[cfg(test)]
mod salvage;
#[cfg(test)]
mod samples;
#[cfg(test)]
mod several;
#[cfg(test)]
mod starts;
