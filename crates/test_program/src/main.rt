//! Runs of the program `palmheap`, and images that came of stores by changes. The file `stdout` has
//! what must come of all of them.
//!
//! Of a run it has what the run prints, its status and its standard error, and the files that are
//! no more what they were. The runs stand in `CASES`, and the files that each of them finds in
//! `INPUTS`: start there.
//!
//! Of the images, with one to three changes each, it has how many of them are what. The changes are
//! drawn so that they meet what holds an image together. The check of stores says of each what the
//! plain model says, and lists of calls on those that are accepted are answered as by the model.
//!
//! `test_program STORE_COUNT` leaves out the runs, and checks 250 images of each of `STORE_COUNT` stores.
//! Without a word there are 40 stores. Seeds are fixed. So a greater number adds stores to the same
//! ones.
#![tactic(auto)]

mod cases;
mod changes;
mod exports;
mod folder;
mod images;
mod inputs;
mod recorder;
mod runs;

use images::check_stores;
use runs::show_runs;
use std::env;
use std::rt::{Env, Files};
use std::test::Fail;

/// How many stores there are where no word says so.
const STORE_COUNT: u64 = 40;

fn main(rt: HostRuntime) -> Result<(), Fail> {
    let words = env::args(&rt)?.skip(1).collect::<Vec<_>>(rt.alloc())?;
    show(&rt, &words)
}

/// Shows what the words behind the program's name ask for.
fn show<R: Files + Env + Print + AllocGlobal + Clone + Drop>(
    rt: &R,
    words: &[String],
) -> Result<(), Fail> {
    match words {
        [] => {
            show_runs(rt)?;
            show_verdicts(rt, STORE_COUNT)
        }
        [stores] => show_verdicts(rt, stores.parse()?),
        _ => Err(Fail::new("usage: test_program [STORES]")),
    }
}

/// Shows the counts of the images of `stores` stores.
fn show_verdicts<R: Print + AllocGlobal>(rt: &R, stores: u64) -> Result<(), Fail> {
    let counts = check_stores(rt.alloc(), stores)?;
    println!(rt;
        "no heap {} no store {} accepted {}",
        counts.no_heap, counts.no_store, counts.accepted
    )?;
    Ok(())
}
