//! The words of a line, and the values that they spell.

ghost use Rattle.std.specs.Prelude.{◌≡◌, ◌≢◌, ◌+◌, ◌<◌, ◌^◌, ◌∷◌, List, ℕ, [], length, true, false, Ok, Err, IfOk, IfErr, option_map};
ghost use Rattle.std.specs.List.{list_all};
ghost use Rattle.script_lines.specs.Reading.{words_in};
ghost use Rattle.script_lines.specs.Words.{words_of};
ghost use Rattle.script_lines.specs.Spellings.{number_below};
ghost use Rattle.file_parts.specs.Words as words;
ghost use Rattle.file_parts.specs.Words.{part_name, part_or, spelled_name, spelled_part, words_after};

use crate::part_file::PartFile;
use db_format::{GREATEST_ID, NameField};
use script_lines::{ScriptFault, WordCut, count_words, cut_word, number_of, text_of};

/// The greatest length of a name in bytes.
const MOST_NAME: usize = 31;

/// The words of a text: their number, and the text.
#[derive(Clone, Copy)]
pub(crate) struct WordsLeft<'a> {
    pub(crate) count: usize,
    pub(crate) text: &'a [u8],
}

/// Returns the words after the first one of a line, which has to begin with `word`.
pub(crate) fn words_behind<'a>(line: &'a [u8], word: &[u8]) -> Result<WordsLeft<'a>, ScriptFault>
    ensures ok { IfOk result (λ rest. words_after word.now (words_of line.now) ≡ Ok (words_in rest.text.now)) }
    ensures whole { IfOk result (λ rest. words_of rest.text.now ≡ Ok (words_in rest.text.now)) }
    ensures count { IfOk result (λ rest. rest.count ≡ length (words_in rest.text.now)) }
    ensures err { IfErr result (λ fault. (words_after word.now (words_of line.now) ≡ Err fault)
        × (fault ≢ ScriptFault.OutOfMemory)) }
{
    let count = match count_words(line) {
        Ok(count) => count,
        Err(number) => return Err(ScriptFault::BadWord(number)),
    };
    let WordCut::Word { word: first, rest } = cut_word(line) else {
        return Err(ScriptFault::UnknownCommand);
    };
    if first != word {
        return Err(ScriptFault::UnknownCommand);
    }
    Ok(WordsLeft {
        count: count - 1,
        text: rest,
    })
}

/// Takes the first word of a text that has one.
pub(crate) fn first_word<'a>(text: &mut &'a [u8]) -> &'a [u8]
    requires whole { words_of text.old.now ≡ Ok (words_in text.old.now) }
    requires some { 0 < length (words_in text.old.now) }
    ensures words { words_in text.old.now ≡ result.now ∷ words_in text.new.now }
    ensures whole { words_of text.new.now ≡ Ok (words_in text.new.now) }
{
    match cut_word(text) {
        WordCut::Word { word, rest } => {
            *text = rest;
            word
        }
        WordCut::Absent | WordCut::Broken => unreachable!(),
    }
}

/// Returns whether the name of a part may begin with a byte.
fn begins_name(byte: u8) -> bool
    ensures { result ≡ words.begins_name byte }
{
    byte.is_ascii_alphabetic() || byte.is_ascii_digit() || byte == b'_'
}

/// Returns whether the name of a part may have a byte after the first one.
fn is_name_byte(byte: u8) -> bool
    ensures { result ≡ words.is_name_byte byte }
{
    begins_name(byte) || byte == b'-' || byte == b'.'
}

/// Returns whether the name of a part may have all of these bytes after the first one.
fn are_name_bytes(bytes: &[u8]) -> bool
    ensures { result ≡ list_all words.is_name_byte bytes.now }
{
    for byte in bytes {
        if !is_name_byte(*byte) {
            return false;
        }
    }
    true
}

/// Returns whether these are the bytes of the name of a part.
fn has_name_bytes(word: &[u8]) -> bool
    ensures { result ≡ words.has_name_bytes word.now }
{
    match word.split_first() {
        None => false,
        Some((first, more)) => begins_name(*first) && are_name_bytes(more),
    }
}

/// Returns the name of a part, if the word is one.
fn name_of_part(word: &[u8]) -> Option<PartFile<'_>>
    ensures { result ≡ part_name word.now }
{
    if has_name_bytes(word) && word != b"database".as_slice() {
        Some(PartFile::of(word))
    } else {
        None
    }
}

/// Returns the part that a word names. For the word `none` it returns `Some(None)`.
pub(crate) fn part_of(word: &[u8]) -> Option<Option<PartFile<'_>>>
    ensures { result ≡ spelled_part word.now }
{
    if word == b"none".as_slice() {
        return Some(None);
    }
    Some(Some(name_of_part(word)?))
}

/// The same as `part_of`, but the word `none` is refused unless `may_miss`.
pub(crate) fn part_unless(may_miss: bool, word: &[u8]) -> Option<Option<PartFile<'_>>>
    ensures { result ≡ part_or may_miss word.now }
{
    let part = part_of(word)?;
    let is_good = part.is_some() || may_miss;
    if is_good { Some(part) } else { None }
}

/// Returns the name of a database that a word spells.
pub(crate) fn database_name_of(word: &[u8]) -> Option<NameField>
    ensures { result ≡ spelled_name word.now }
{
    let text = text_of(word)?;
    if text.len() > MOST_NAME {
        return None;
    }
    NameField::of_name(text.decoded(&mut [0; MOST_NAME]))
}

/// Returns the unique ID that a word spells: a number below 2^24.
pub(crate) fn id_of(word: &[u8]) -> Option<u32>
    ensures { result ≡ number_below (2 ^ 24) word.now }
{
    let number = number_of(word)?;
    if number > GREATEST_ID {
        return None;
    }
    Some(number)
}
