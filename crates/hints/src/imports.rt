//! Lines that import a file that was not given.

ghost use Rattle.std.specs.Prelude.{◌≡◌, ◌++◌, IfOk, OnErr, OnOk};
ghost use Rattle.std.specs.Option.{option_to_list};
ghost use Rattle.hints.specs.Imports as words;

use allowance::{Allowance, push};
use script_lines::Line;
use std::alloc::AllocError;

/// A line of a script that imports a file that was not given: the number of the line, and the
/// number of the file. Both are counted from 1.
#[derive(Clone, Copy, Debug, PartialEq, Eq)]
pub struct MissingFile {
    pub line: usize,
    pub file: u32,
}

/// Returns the lines that import a file that was not given. `count` is the number of given files,
/// and `numbers` has the number of each line.
///
/// # Errors
///
/// - `AllocError`: an allocation failed.
pub fn missing_files<A: Allowance>(
    memory: &A,
    count: usize,
    lines: &[Line<'_>],
    numbers: &[usize],
) -> Result<Vec<MissingFile>, AllocError>
    ensures missing { IfOk result (λ missing. missing.items ≡ words.missing_files count lines.now numbers.now) }
    ensures short { OnErr result (A.is_short memory.now) }
{
    let mut missing = Vec::new(memory.allocator());
    for index in 0..lines.len().min(numbers.len()) {
        add_missing(memory, &mut missing, count, &lines[index], numbers[index])?;
    }
    Ok(missing)
}

/// Appends the line of this number, if it imports a file that was not given.
fn add_missing<A: Allowance>(
    memory: &A,
    missing: &mut Vec<MissingFile>,
    count: usize,
    line: &Line<'_>,
    number: usize,
) -> Result<(), AllocError>
    ensures items { OnOk result (missing.new.items ≡ missing.old.items ++ words.missing_in count line.now number) }
    ensures short { OnErr result (A.is_short memory.now) }
{
    match missing_in(count, line, number) {
        Some(file) => push(memory, missing, file),
        None => Ok(()),
    }
}

/// Returns the line of this number, if it imports a file that was not given.
fn missing_in(count: usize, line: &Line<'_>, number: usize) -> Option<MissingFile>
    ensures { option_to_list result ≡ words.missing_in count line.now number }
{
    match line {
        Line::Import { file, .. } if *file == 0 || *file as usize > count => Some(MissingFile {
            line: number,
            file: *file,
        }),
        _ => None,
    }
}
