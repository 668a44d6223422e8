//! The lines of a text, with the number of the last one that was read.

ghost use Rattle.std.specs.Prelude.{◌≡◌, ◌+◌, ◌<◌, ◌^◌, length, MatchOption, None, Some};
ghost use Rattle.std.specs.Str.Lines.{lines};
ghost use Rattle.file_parts.specs.Left.{left};
ghost use Rattle.file_parts.specs.Reading.{fault_in, next_of};

use script_lines::{LineFault, ScriptFault, cut_line, is_passed_over};
use std::marker::Model;

/// The lines of a text that are left, and the number of lines that were read. Contracts see these
/// two.
#[derive(Drop)]
pub(crate) struct Lines<'a> {
    rest: &'a [u8],
    number: usize,
}

impl<'a> Model for Lines<'a> {
    ghost use Rattle.std.specs.Prelude.{◌+◌, ◌<◌, ◌^◌, length};
    ghost use Rattle.std.specs.Str.Lines.{lines};
    ghost use Rattle.file_parts.specs.Left.{Left, left};

    ghost Value = { Left };

    ghost view = { λ all. left all.number (lines all.rest.now) };

    ghost invariant = { λ all. all.number + length all.rest.now < 2 ^ 63 };
}

impl<'a> Lines<'a> {
    /// Returns the lines of a text, with none read yet.
    pub(crate) fn of(text: &'a [u8]) -> Lines<'a>
        ensures { result ≡ left 0 (lines text.now) }
    {
        Lines {
            rest: text,
            number: 0,
        }
    }

    /// Reads up to the next line that isn't skipped.
    pub(crate) fn next(&mut self) -> Option<&'a [u8]>
        ensures { MatchOption result
            ((next_of self.old.number self.old.texts ≡ None)
            × (self.new.number ≡ self.old.number + length self.old.texts))
            (λ line. next_of self.old.number self.old.texts ≡ Some (line.now, self.new)) }
    {
        while !self.rest.is_empty() {
            let cut = cut_line(self.rest);
            self.rest = cut.rest;
            self.number += 1;
            if !is_passed_over(cut.line) {
                return Some(cut.line);
            }
        }
        None
    }

    /// Returns the next line that isn't skipped, and the lines after it. It reads nothing.
    pub(crate) fn peeked(&self) -> Option<(&'a [u8], Lines<'a>)>
        ensures { MatchOption result (next_of self.now.number self.now.texts ≡ None)
            (λ both. next_of self.now.number self.now.texts ≡ Some (both.0.now, both.1)) }
    {
        let mut after = Lines {
            rest: self.rest,
            number: self.number,
        };
        match after.next() {
            Some(line) => Some((line, after)),
            None => None,
        }
    }

    /// Returns the number of lines that were read.
    pub(crate) fn line(&self) -> usize
        ensures { result ≡ self.now.number }
    {
        self.number
    }

    /// Returns the fault for the last line that was read.
    pub(crate) fn fault(&self, fault: ScriptFault) -> LineFault
        ensures { result ≡ fault_in self.now.number fault }
    {
        LineFault {
            line: self.number,
            fault,
        }
    }

    /// Returns the fault for a line that is missing after the last one.
    pub(crate) fn missing(&self) -> LineFault
        ensures { result ≡ fault_in (self.now.number + 1) ScriptFault.WrongCount }
    {
        LineFault {
            line: self.number + 1,
            fault: ScriptFault::WrongCount,
        }
    }
}
