//! Tests of what `explain` prints, of the names of faults, and of hints.
//!
//! `rows` proves that the table of `explanations` has a row for each fault and each refusal
//! (`specs/Rows.antt`). So a new fault can't be proved until it has one.
#![tactic(auto)]

#[cfg(test)]
mod faulty_lines;
#[cfg(test)]
mod imports;
#[cfg(test)]
mod line_ends;
#[cfg(test)]
mod lookalikes;
#[cfg(test)]
mod names;
mod rows;
#[cfg(test)]
mod words;
