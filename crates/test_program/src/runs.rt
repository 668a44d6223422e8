//! Runs of the program `palmheap`.

use crate::cases::{CASES, Output};
use crate::exports::show_exports;
use crate::folder::{enter, fill, leave, show_bytes, show_changes};
use crate::recorder::{Kept, Recorder};
use palmheap_program::{Ending, run};
use std::alloc::{AllocError, Global};
use std::rt::{Env, Files};
use std::test::Fail;
use test_support::{ORDER_FILE, bytes_of};

/// Does each run, and shows what comes of it.
pub(crate) fn show_runs<R: Files + Env + Print + AllocGlobal + Clone + Drop>(
    rt: &R,
) -> Result<(), Fail> {
    enter(rt)?;
    for (line, output) in &CASES {
        show(rt, line, *output)?;
    }
    show_exports(rt)?;
    leave(rt)
}

/// Does a run in a folder that is as each finds it, and shows what comes of it.
fn show<R: Files + Print + AllocGlobal + Clone + Drop>(
    rt: &R,
    line: &str,
    output: Output,
) -> Result<(), Fail> {
    fill(rt)?;
    println!(rt; "$ palmheap {line}")?;
    show_answer(rt, line, output)?;
    show_changes(rt)?;
    println!(rt; "")?;
    Ok(())
}

/// Does a run, and shows what it prints, its status and its standard error.
fn show_answer<R: Files + Print + AllocGlobal>(
    rt: &R,
    line: &str,
    output: Output,
) -> Result<(), Fail> {
    let (printed, complained) = (Kept::new(rt.alloc()), Kept::new(rt.alloc()));
    let status = run_recorded(rt, line, output, &printed, &complained)?;
    show_printed(rt, printed.into_bytes().as_slice())?;
    println!(rt; "status {}", status.code())?;
    show_complaint(rt, complained.into_bytes().as_slice())
}

/// Shows what a run prints, in hex if it has a zero or doesn't end a line.
fn show_printed<R: Print + AllocGlobal>(rt: &R, printed: &[u8]) -> Result<(), Fail> {
    if printed.contains(&0) || !(printed.is_empty() || printed.ends_with(b"\n")) {
        return show_bytes(rt, "standard output", printed);
    }
    rt.write_all(printed)?;
    Ok(())
}

/// Does a run that prints a lot, and shows its status and its standard error alone.
pub(crate) fn show_status<R: Files + Print + AllocGlobal>(
    rt: &R,
    line: &str,
    output: Output,
) -> Result<(), Fail> {
    let (printed, complained) = (Kept::new(rt.alloc()), Kept::new(rt.alloc()));
    let status = run_recorded(rt, line, output, &printed, &complained)?;
    println!(rt; "status {}", status.code())?;
    show_complaint(rt, complained.into_bytes().as_slice())
}

fn show_complaint<R: Print>(rt: &R, complained: &[u8]) -> Result<(), Fail> {
    if !complained.is_empty() {
        println!(rt; "standard error:")?;
        rt.write_all(complained)?;
    }
    Ok(())
}

/// Runs the program with these words, and keeps what it prints and what stands on standard error.
fn run_recorded<R: Files + AllocGlobal>(
    rt: &R,
    line: &str,
    output: Output,
    printed: &Kept,
    complained: &Kept,
) -> Result<Ending, Fail> {
    let input = bytes_of(rt.alloc(), ORDER_FILE)?;
    let recorder = Recorder {
        rt,
        input: input.as_slice(),
        output,
        printed,
        complained,
    };
    let words = words_of(rt.alloc(), line)?;
    Ok(run(&recorder, words.as_slice()))
}

/// The words of a command line, behind the program's own name.
fn words_of(alloc: Global, line: &str) -> Result<Vec<String>, AllocError> {
    let mut words = Vec::new(alloc);
    words.push(String::from_str(alloc, "palmheap")?)?;
    for word in line.split_ascii_whitespace() {
        words.push(String::from_str(alloc, word)?)?;
    }
    Ok(words)
}
