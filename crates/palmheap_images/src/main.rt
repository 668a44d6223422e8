//! The program `palmheap_images`, which has the commands of `palmheap` that need neither the
//! managers nor the pictures.
//!
//! The crate `image_program` has its functions.
#![tactic(auto)]

use image_program::{read_words, run};
use std::process::ExitCode;

fn main(rt: HostRuntime) -> ExitCode {
    let status = match read_words(&rt) {
        Ok(words) => run(&rt, words.as_slice()),
        Err(status) => status,
    };
    ExitCode::from(status.code())
}
