//! The numbers of lines.

ghost use Rattle.std.specs.Prelude.{◌≡◌, IfOk, OnErr};
ghost use Rattle.std.specs.Str.Lines.{lines};
ghost use Rattle.hints.specs.Imports as words;

use allowance::{Allowance, push};
use script_lines::{cut_line, is_passed_over};
use std::alloc::AllocError;

/// Returns the number of each line of a script that is run. All lines are counted, from 1.
///
/// # Errors
///
/// - `AllocError`: an allocation failed.
pub fn line_numbers<A: Allowance>(memory: &A, text: &[u8]) -> Result<Vec<usize>, AllocError>
    ensures numbers { IfOk result (λ numbers. numbers.items ≡ words.line_numbers 1 (lines text.now)) }
    ensures short { OnErr result (A.is_short memory.now) }
{
    let mut numbers = Vec::new(memory.allocator());
    let mut rest = text;
    let mut number = 0;
    while !rest.is_empty() {
        let cut = cut_line(rest);
        rest = cut.rest;
        number += 1;
        if !is_passed_over(cut.line) {
            push(memory, &mut numbers, number)?;
        }
    }
    Ok(numbers)
}
