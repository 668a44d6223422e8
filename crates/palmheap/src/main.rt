//! The program `palmheap`, which makes, checks and changes heap images.
//!
//! The crate `palmheap_program` has its functions.
#![tactic(auto)]

use image_program::read_words;
use palmheap_program::{Ending, run};
use std::process::ExitCode;

fn main(rt: HostRuntime) -> ExitCode {
    let ending = match read_words(&rt) {
        Ok(words) => run(&rt, words.as_slice()),
        Err(status) => Ending::Ended(status),
    };
    ExitCode::from(ending.code())
}
