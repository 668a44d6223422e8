//! Tests of scripts, of texts and files, and of the program's commands, in a crate of their own: so
//! the proofs of those crates aren't checked a second time for them. It has no code but its tests.
#![tactic(auto)]

#[cfg(test)]
mod broken_documents;
#[cfg(test)]
mod call_lists;
#[cfg(test)]
mod calls;
#[cfg(test)]
mod categories;
#[cfg(test)]
mod commands;
#[cfg(test)]
mod databases;
#[cfg(test)]
mod documents;
#[cfg(test)]
mod files;
#[cfg(test)]
mod files_in_scripts;
#[cfg(test)]
mod flushes;
#[cfg(test)]
mod giving;
#[cfg(test)]
mod grammar;
#[cfg(test)]
mod large;
#[cfg(test)]
mod live;
#[cfg(test)]
mod migration;
#[cfg(test)]
mod moving;
#[cfg(test)]
mod needs;
#[cfg(test)]
mod numbered_replies;
#[cfg(test)]
mod pieces;
#[cfg(test)]
mod reading;
#[cfg(test)]
mod records;
#[cfg(test)]
mod reports;
#[cfg(test)]
mod resources;
#[cfg(test)]
mod runs;
#[cfg(test)]
mod stores;
