//! Scripts, read from their text.

ghost use Rattle.std.specs.Prelude.{◌≡◌, ◌≢◌, ◌<◌, length, Err, IfOk, IfErr};
ghost use Rattle.script_lines.specs.Reading as reading;
ghost use Rattle.script_lines.specs.Reading.{HasLine, line_behind, line_read, read_behind};
ghost use Rattle.script_lines.specs.Reading.{read_script, words_in};
ghost use Rattle.script_lines.specs.Views.{numberings, words_read};
ghost use Rattle.script_lines.specs.Words.{words_of};
ghost use Rattle.allowance.specs.Refusals.{GrowthRefused};

use crate::fault::{LineFault, ScriptFault};
use crate::label::LabelTables;
use crate::text::{WordCut, count_words, cut_line, cut_word, is_passed_over};
use crate::value::Values;
use allowance::Allowance;
use script_commands::{Kind, Line, Script, find_command, make_line, row_of};
use std::alloc::Global;

/// Returns what the words of a text stand for, by kind, or the number of the first word that isn't
/// of its kind. The first word of the text is word 2.
fn read_values<'a, A: Allowance>(
    memory: &A,
    kinds: &[Kind],
    words: &'a [u8],
    labels: &mut LabelTables,
) -> Result<Values<'a>, ScriptFault>
    requires few { length kinds.now < 16 }
    requires whole { words_of words.now ≡ Ok (words_in words.now) }
    ensures ok { IfOk result (λ values. read_behind (numberings labels.old) kinds.now words.now
        ≡ Ok (words_read values labels.new)) }
    ensures err { IfErr result (λ fault. fault ≢ ScriptFault.OutOfMemory
        → read_behind (numberings labels.old) kinds.now words.now ≡ Err fault) }
    ensures no_memory { result ≡ Err ScriptFault.OutOfMemory → A.is_short memory.now }
{
    let mut values = Values::new(memory.allocator());
    let mut rest = words;
    let mut number = 1;
    for kind in kinds {
        let WordCut::Word { word, rest: behind } = cut_word(rest) else {
            return Err(ScriptFault::WrongCount);
        };
        number += 1;
        match values.add(memory, *kind, word, labels) {
            Ok(is_of_kind) => {
                if !is_of_kind {
                    return Err(ScriptFault::BadWord(number));
                }
            }
            Err(_) => return Err(ScriptFault::OutOfMemory),
        }
        rest = behind;
    }
    Ok(values)
}

/// Returns the line of a command's word and the words after it.
fn read_command<'a, A: Allowance>(
    memory: &A,
    word: &[u8],
    words: &'a [u8],
    count: usize,
    labels: &mut LabelTables,
) -> Result<Line<'a>, ScriptFault>
    requires whole { words_of words.now ≡ Ok (words_in words.now) }
    requires count { count ≡ length (words_in words.now) }
    ensures ok { IfOk result (λ line. line_behind (numberings labels.old) word.now words.now
        ≡ Ok (line_read (Some line) (numberings labels.new))) }
    ensures err { IfErr result (λ fault. fault ≢ ScriptFault.OutOfMemory
        → line_behind (numberings labels.old) word.now words.now ≡ Err fault) }
    ensures no_memory { result ≡ Err ScriptFault.OutOfMemory → A.is_short memory.now }
{
    let Some(command) = find_command(word) else {
        return Err(ScriptFault::UnknownCommand);
    };
    let kinds = row_of(command).kinds;
    if kinds.len() != count {
        return Err(ScriptFault::WrongCount);
    }
    match read_values(memory, kinds, words, labels) {
        Ok(Values { values, bytes }) => {
            make_line(command, &values, bytes).ok_or(ScriptFault::WrongCount)
        }
        Err(fault) => Err(fault),
    }
}

/// Reads a line from its text, and numbers its labels among those of the lines before it. Returns
/// `None` if the line is passed over.
///
/// # Errors
/// - `OutOfMemory`: if an allocation failed.
/// - any other fault: if the line has it.
pub fn read_line<'a, A: Allowance>(
    memory: &A,
    text: &'a [u8],
    labels: &mut LabelTables,
) -> Result<Option<Line<'a>>, ScriptFault>
    ensures ok { IfOk result (λ line. reading.read_line (numberings labels.old) text.now
        ≡ Ok (line_read line (numberings labels.new))) }
    ensures err { IfErr result (λ fault. fault ≢ ScriptFault.OutOfMemory
        → reading.read_line (numberings labels.old) text.now ≡ Err fault) }
    ensures no_memory { result ≡ Err ScriptFault.OutOfMemory → A.is_short memory.now }
{
    if is_passed_over(text) {
        return Ok(None);
    }
    let count = match count_words(text) {
        Ok(count) => count,
        Err(number) => return Err(ScriptFault::BadWord(number)),
    };
    let WordCut::Word { word, rest } = cut_word(text) else {
        return Ok(None);
    };
    match read_command(memory, word, rest, count - 1, labels) {
        Ok(line) => Ok(Some(line)),
        Err(fault) => Err(fault),
    }
}

/// The fault of a failed allocation.
pub const NO_MEMORY_FAULT: LineFault = LineFault {
    line: 0,
    fault: ScriptFault::OutOfMemory,
};

/// Reads a script from its text, or returns its first faulty line.
pub fn parse<'a>(alloc: Global, text: &'a [u8]) -> Result<Script<'a>, LineFault>
    ensures ok { IfOk result (λ script. read_script text.now ≡ Ok script) }
    ensures err { IfErr result (λ e. e.fault ≢ ScriptFault.OutOfMemory
        → read_script text.now ≡ Err e) }
    ensures line { IfErr result (λ e. e.fault ≢ ScriptFault.OutOfMemory
        → HasLine text.now e.line) }
    ensures refused { IfErr result (λ e. e.fault ≡ ScriptFault.OutOfMemory → e.line ≡ 0) }
    ensures no_memory { IfErr result (λ e. e.fault ≡ ScriptFault.OutOfMemory → GrowthRefused) }
{
    parse_from(&alloc, text)
}

/// The same as `parse`, with a grant of `memory` for each allocation. It reports out of memory only
/// if an allocation failed.
pub fn parse_from<'a, A: Allowance>(memory: &A, text: &'a [u8]) -> Result<Script<'a>, LineFault>
    ensures ok { IfOk result (λ script. read_script text.now ≡ Ok script) }
    ensures err { IfErr result (λ e. e.fault ≢ ScriptFault.OutOfMemory
        → read_script text.now ≡ Err e) }
    ensures line { IfErr result (λ e. e.fault ≢ ScriptFault.OutOfMemory
        → HasLine text.now e.line) }
    ensures refused { IfErr result (λ e. e.fault ≡ ScriptFault.OutOfMemory → e.line ≡ 0) }
    ensures no_memory { IfErr result (λ e. e.fault ≡ ScriptFault.OutOfMemory
        → A.is_short memory.now) }
{
    let mut script = Script::new(memory.allocator());
    let mut labels = LabelTables::new(memory.allocator());
    let mut rest = text;
    let mut number = 0;
    while !rest.is_empty() {
        let cut = cut_line(rest);
        rest = cut.rest;
        number += 1;
        match read_line(memory, cut.line, &mut labels) {
            Ok(None) => {}
            Ok(Some(line)) => match script.push(memory, line) {
                Ok(()) => {}
                Err(_) => return Err(NO_MEMORY_FAULT),
            },
            Err(ScriptFault::OutOfMemory) => return Err(NO_MEMORY_FAULT),
            Err(fault) => {
                return Err(LineFault {
                    line: number,
                    fault,
                });
            }
        }
    }
    Ok(script)
}
