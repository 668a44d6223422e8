//! The lines that only the text of an exact folder has. They come before the lines of the header.

ghost use Rattle.std.specs.Prelude.{◌≡◌, ◌≢◌, Ok, Err, None, Some, [], IfOk, IfErr, IfSome, MatchOption, length, option_map};
ghost use Rattle.script_lines.specs.Reading.{words_in};
ghost use Rattle.script_lines.specs.Words.{words_of};
ghost use Rattle.file_parts.specs.Reading.{Gives};
ghost use Rattle.file_parts.specs.ExactReading as reading;
ghost use Rattle.file_parts.specs.ExactReading.{spelled_after_name, spelled_rank, head_of};

use crate::header::read_part;
use crate::lines::Lines;
use crate::part_file::PartFile;
use crate::words::{WordsLeft, first_word, words_behind};
use allowance::{Allowance, push};
use db_format::{INFO_BLOCKS, NAME_SIZE};
use script_lines::{LentBytes, LineFault, NO_MEMORY_FAULT, ScriptFault, short_of};

/// A line `order`.
#[derive(Clone, Copy)]
pub(crate) struct OrderLine {
    /// The rank of the block.
    pub(crate) rank: u32,
    /// The number of the line.
    pub(crate) line: usize,
}

/// The bytes after the name in its field.
#[derive(Drop)]
pub(crate) struct AfterName<'a> {
    pub(crate) bytes: LentBytes<'a>,
    /// The number of the line.
    pub(crate) line: usize,
}

/// The values of the lines.
#[derive(Drop)]
pub(crate) struct ExactLines<'a> {
    pub(crate) after_name: Option<AfterName<'a>>,
    pub(crate) filler: Option<PartFile<'a>>,
    pub(crate) order: Vec<OrderLine>,
}

/// Reads the next line if it begins with `word`, and returns its other words. Otherwise it reads
/// nothing.
fn words_if<'a>(lines: &mut Lines<'a>, word: &[u8]) -> Option<WordsLeft<'a>>
    ensures are { MatchOption result
        ((reading.words_if word.now lines.old ≡ None) × (lines.new ≡ lines.old))
        (λ words. reading.words_if word.now lines.old ≡ Some (words_in words.text.now, lines.new)) }
    ensures whole { IfSome result (λ words. words_of words.text.now ≡ Ok (words_in words.text.now)) }
    ensures count { IfSome result (λ words. words.count ≡ length (words_in words.text.now)) }
{
    let (line, after) = lines.peeked()?;
    match words_behind(line, word) {
        Ok(words) => {
            *lines = after;
            Some(words)
        }
        Err(_) => None,
    }
}

/// Reads the next line if it begins with `word`, and returns its other word.
fn word_if<'a>(lines: &mut Lines<'a>, word: &[u8]) -> Result<Option<&'a [u8]>, LineFault>
    ensures ok { IfOk result (λ found. reading.word_if word.now lines.old
        ≡ Ok (option_map (λ text. text.now) found, lines.new)) }
    ensures err { IfErr result (λ fault. (reading.word_if word.now lines.old ≡ Err fault)
        × (fault.fault ≢ ScriptFault.OutOfMemory)) }
{
    let Some(mut words) = words_if(lines, word) else {
        return Ok(None);
    };
    if words.count != 1 {
        return Err(lines.fault(ScriptFault::WrongCount));
    }
    Ok(Some(first_word(&mut words.text)))
}

/// Reads the first line if it is that of an exact folder, and returns whether it is.
pub(crate) fn read_exact_line(lines: &mut Lines<'_>) -> Result<bool, LineFault>
    ensures { Gives (reading.read_exact_line lines.old) result lines.new }
{
    match words_if(lines, b"exact") {
        None => Ok(false),
        Some(words) if words.count == 0 => Ok(true),
        Some(_) => Err(lines.fault(ScriptFault::WrongCount)),
    }
}

/// Returns the bytes that hex digits spell, if the field of a name has more bytes.
fn after_name_of(word: &[u8]) -> Option<LentBytes<'_>>
    ensures { result ≡ spelled_after_name word.now }
{
    let bytes = LentBytes::hex(word)?;
    if bytes.len() < NAME_SIZE {
        Some(bytes)
    } else {
        None
    }
}

/// Reads the line with the bytes after the name, if it is there.
fn read_after_name<'a>(lines: &mut Lines<'a>) -> Result<Option<AfterName<'a>>, LineFault>
    ensures { Gives (reading.read_after_name lines.old) result lines.new }
{
    let Some(word) = word_if(lines, b"namefield")? else {
        return Ok(None);
    };
    match after_name_of(word) {
        Some(bytes) => Ok(Some(AfterName {
            bytes,
            line: lines.line(),
        })),
        None => Err(lines.fault(ScriptFault::BadWord(2))),
    }
}

/// Returns the rank of the block that a word names: `app`, `sort`, or the index of an entry.
fn rank_of(word: &[u8]) -> Option<u32>
    ensures { result ≡ spelled_rank word.now }
{
    if word == b"app".as_slice() {
        return Some(0);
    }
    if word == b"sort".as_slice() {
        return Some(1);
    }
    Some(INFO_BLOCKS as u32 + u32::from(short_of(word)?))
}

/// Reads a line `order`, if it is there.
fn read_order_line(lines: &mut Lines<'_>) -> Result<Option<OrderLine>, LineFault>
    ensures { Gives (reading.read_order_line lines.old) result lines.new }
{
    let Some(word) = word_if(lines, b"order")? else {
        return Ok(None);
    };
    match rank_of(word) {
        Some(rank) => Ok(Some(OrderLine {
            rank,
            line: lines.line(),
        })),
        None => Err(lines.fault(ScriptFault::BadWord(2))),
    }
}

/// Reads the lines `order`.
fn read_order<A: Allowance>(memory: &A, lines: &mut Lines<'_>) -> Result<Vec<OrderLine>, LineFault>
    ensures ok { IfOk result (λ order.
        reading.read_order (length lines.old.texts) [] lines.old ≡ Ok (order.items, lines.new)) }
    ensures err { IfErr result (λ fault. fault.fault ≢ ScriptFault.OutOfMemory
        → reading.read_order (length lines.old.texts) [] lines.old ≡ Err fault) }
    ensures no_memory { IfErr result (λ fault. fault.fault ≡ ScriptFault.OutOfMemory
        → A.is_short memory.now) }
{
    let mut order = Vec::new(memory.allocator());
    loop {
        let line = match read_order_line(lines) {
            Ok(Some(line)) => line,
            Ok(None) => return Ok(order),
            Err(fault) => return Err(fault),
        };
        match push(memory, &mut order, line) {
            Ok(()) => {}
            Err(_) => return Err(NO_MEMORY_FAULT),
        }
    }
}

/// Reads the lines after the first one, up to those of the header.
pub(crate) fn read_exact_lines<'a, A: Allowance>(
    memory: &A,
    lines: &mut Lines<'a>,
) -> Result<ExactLines<'a>, LineFault>
    ensures ok { IfOk result (λ exact.
        reading.read_exact_head lines.old ≡ Ok (head_of exact, lines.new)) }
    ensures err { IfErr result (λ fault. fault.fault ≢ ScriptFault.OutOfMemory
        → reading.read_exact_head lines.old ≡ Err fault) }
    ensures no_memory { IfErr result (λ fault. fault.fault ≡ ScriptFault.OutOfMemory
        → A.is_short memory.now) }
{
    let after_name = match read_after_name(lines) {
        Ok(after_name) => after_name,
        Err(fault) => return Err(fault),
    };
    let filler = match read_part(lines, b"filler") {
        Ok(filler) => filler,
        Err(fault) => return Err(fault),
    };
    match read_order(memory, lines) {
        Ok(order) => Ok(ExactLines {
            after_name,
            filler,
            order,
        }),
        Err(fault) => Err(fault),
    }
}
