//! A run that exports more files than a byte can count.

use crate::cases::Output;
use crate::folder::{fill, show_changes};
use crate::runs::show_status;
use std::alloc::{AllocError, Global};
use std::fs;
use std::rt::Files;
use std::test::Fail;

/// How many files the script exports.
const COUNT: u32 = 300;

/// Where the data begins in a file with one record: after the header, one entry and two zeros.
const DATA: usize = 88;

/// The script of the run.
const EXPORT_SCRIPT: &str = "exports.txt";

/// Does a run that exports `COUNT` files, each with other data, and shows how many of them have the
/// data of their number.
pub(crate) fn show_exports<R: Files + Print + AllocGlobal + Clone + Drop>(
    rt: &R,
) -> Result<(), Fail> {
    fill(rt)?;
    fs::write(rt, EXPORT_SCRIPT, script(rt.alloc())?.as_bytes())?;
    println!(rt; "$ palmheap run room.img {EXPORT_SCRIPT} out.img")?;
    show_status(rt, "run room.img exports.txt out.img", Output::Taken)?;
    show_numbered(rt)?;
    fs::remove_file(rt, EXPORT_SCRIPT)?;
    fs::remove_file(rt, "out.img")?;
    show_changes(rt)?;
    println!(rt; "")?;
    Ok(())
}

/// The data of the file of a number, as text: it has four digits.
fn data_of(alloc: Global, number: u32) -> Result<String, AllocError> {
    format!(in alloc; "{}", number.saturating_add(1_000))
}

/// A script that exports a database of one record, each time with other data.
fn script(alloc: Global) -> Result<String, Fail> {
    let mut text = String::new(alloc);
    writeln!(
        text,
        "create d \"A\" \"DATA\" \"test\" 0 0\nrecnew d 0 5 c\nlock c"
    )?;
    for number in 1..=COUNT {
        let data = data_of(alloc, number)?;
        writeln!(text, "strcopy c 0 \"{data}\"\nexport d")?;
    }
    Ok(text)
}

/// Shows how many of the files have the data of their number, and removes all of them.
fn show_numbered<R: Files + Print + AllocGlobal>(rt: &R) -> Result<(), Fail> {
    let mut right = 0u32;
    for number in 1..=COUNT {
        let path = format!(in rt.alloc(); "out.img.{number}")?;
        let file = fs::read(rt, path.as_str())?;
        let data = data_of(rt.alloc(), number)?;
        let rest = file.as_slice().get(DATA..).unwrap_or(&[]);
        if rest.starts_with(data.as_bytes()) {
            right = right.saturating_add(1);
        }
        fs::remove_file(rt, path.as_str())?;
    }
    println!(rt; "{right} files have the data of their number")?;
    Ok(())
}
