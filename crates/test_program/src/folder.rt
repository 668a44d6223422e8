//! The folder that the runs are done in.

use crate::inputs::{FOLDERS, INPUTS};
use std::rt::{Env, Files};
use std::test::Fail;
use std::{env, fs};

/// The folder's name.
const FOLDER: &str = "runs";

/// The most bytes in a row of what is shown.
const ROW_BYTES: usize = 16;

/// Makes the folder, and goes there. What an earlier run left is removed.
pub(crate) fn enter<R: Files + Env + AllocGlobal>(rt: &R) -> Result<(), Fail> {
    if fs::exists(rt, FOLDER)? {
        fs::remove_dir_all(rt, FOLDER)?;
    }
    fs::create_dir(rt, FOLDER)?;
    Ok(env::set_current_dir(rt, FOLDER)?)
}

/// Goes back, and removes the folder.
pub(crate) fn leave<R: Files + Env + AllocGlobal>(rt: &R) -> Result<(), Fail> {
    env::set_current_dir(rt, "..")?;
    Ok(fs::remove_dir_all(rt, FOLDER)?)
}

/// Writes the files that each run finds.
pub(crate) fn fill<R: Files + AllocGlobal>(rt: &R) -> Result<(), Fail> {
    for folder in &FOLDERS {
        if !fs::exists(rt, *folder)? {
            fs::create_dir(rt, *folder)?;
        }
    }
    for (name, content) in &INPUTS {
        fs::write(rt, *name, content.bytes(rt.alloc())?.as_slice())?;
    }
    Ok(())
}

/// Shows what isn't as `fill` leaves it: the files that are gone, and those that are there.
pub(crate) fn show_changes<R: Files + Print + AllocGlobal + Clone + Drop>(
    rt: &R,
) -> Result<(), Fail> {
    show_gone(rt)?;
    for name in &names(rt, ".")? {
        show_entry(rt, name.as_str())?;
    }
    Ok(())
}

/// Shows a file, or the files of a folder, that isn't as `fill` writes it, and removes it.
fn show_entry<R: Files + Print + AllocGlobal + Clone + Drop>(
    rt: &R,
    name: &str,
) -> Result<(), Fail> {
    if !fs::metadata(rt, name)?.is_dir() {
        return show_file(rt, name);
    }
    if FOLDERS.iter().any(|folder| *folder == name) {
        return Ok(());
    }
    println!(rt; "{name}, a folder:")?;
    for file in &names(rt, name)? {
        show_file(rt, format!(in rt.alloc(); "{name}/{file}")?.as_str())?;
    }
    Ok(fs::remove_dir(rt, name)?)
}

/// Shows which of the files that `fill` writes are gone.
fn show_gone<R: Files + Print>(rt: &R) -> Result<(), Fail> {
    for (name, _) in &INPUTS {
        if !fs::exists(rt, *name)? {
            println!(rt; "{name} is gone")?;
        }
    }
    Ok(())
}

/// The names of all that is in a folder, in order.
fn names<R: Files + AllocGlobal + Clone + Drop>(rt: &R, folder: &str) -> Result<Vec<String>, Fail> {
    let mut names = Vec::new(rt.alloc());
    for entry in fs::read_dir(rt, folder)? {
        names.push(String::from_str(rt.alloc(), entry?.file_name())?)?;
    }
    names.sort()?;
    Ok(names)
}

/// Shows a file that isn't as `fill` writes it, and removes it.
fn show_file<R: Files + Print + AllocGlobal>(rt: &R, name: &str) -> Result<(), Fail> {
    let bytes = fs::read(rt, name)?;
    if !is_as_it_was(rt, name, bytes.as_slice())? {
        show_bytes(rt, name, bytes.as_slice())?;
        fs::remove_file(rt, name)?;
    }
    Ok(())
}

/// Shows what a file holds.
pub(crate) fn show_bytes<R: Print + AllocGlobal>(
    rt: &R,
    name: &str,
    bytes: &[u8],
) -> Result<(), Fail> {
    println!(rt; "{name}, {} bytes:", bytes.len())?;
    show_rows(rt, bytes)
}

/// Whether `fill` writes a file of this name with these bytes.
fn is_as_it_was<R: AllocGlobal>(rt: &R, name: &str, bytes: &[u8]) -> Result<bool, Fail> {
    for (input, content) in &INPUTS {
        if *input == name {
            return Ok(content.bytes(rt.alloc())?.as_slice() == bytes);
        }
    }
    Ok(false)
}

/// Shows bytes in rows, each behind its offset. Rows of zeros are left out.
fn show_rows<R: Print + AllocGlobal>(rt: &R, bytes: &[u8]) -> Result<(), Fail> {
    for at in (0..bytes.len()).step_by(ROW_BYTES) {
        let rest = &bytes[at..];
        let row = &rest[..rest.len().min(ROW_BYTES)];
        if row.iter().any(|&byte| byte != 0) {
            println!(rt; "{at:04x}  {}", hex::encode(rt.alloc(), row)?)?;
        }
    }
    Ok(())
}
