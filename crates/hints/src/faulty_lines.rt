//! What is wrong with the faulty line of a script, or of the text that `pack` reads.

ghost use Rattle.std.specs.Prelude.{◌≡◌, ◌∷◌, Ok, length, option_map, slice_get};
ghost use Rattle.script_lines.specs.Reading.{words_in};
ghost use Rattle.script_lines.specs.Words.{words_of};
ghost use Rattle.std.specs.Str.Lines.{lines};
ghost use Rattle.hints.specs.FaultyLines as words;
ghost use Rattle.hints.specs.FaultyLines.{first_wanted_of, hint_of, item_numbered, others_wanted_of};

use script_commands::{Kind, find_command, row_of};
use script_lines::{LineFault, ScriptFault, WordCut, count_words, cut_line, cut_word};

/// What is wrong with a line. Words are bytes of the line.
#[derive(Clone, Copy, Debug, PartialEq, Eq)]
pub enum LineHint<'a> {
    /// The first word is no word that may begin this line.
    Unknown(&'a [u8]),
    /// The line has this number of words after the first one, and its command takes `wanted`.
    Count {
        found: usize,
        wanted: usize,
    },
    /// The quoted word with this number isn't closed, or another byte follows it directly. The
    /// first word of a line has the number 1.
    Broken(usize),
    /// The word isn't what its place takes.
    Wrong {
        word: &'a [u8],
        wanted: &'static str,
    },
}

/// A text that has lines of words.
#[derive(Clone, Copy)]
enum TextKind {
    /// A script.
    Script,
    /// The text that `pack` reads.
    Parts,
}

impl TextKind {
    /// Returns what the words of a line have to be.
    fn words_of(self, line: &[u8]) -> Wanted
        requires whole { words_of line.now ≡ Ok (words_in line.now) }
        ensures first { first_wanted_of result ≡ words.first_wanted_in self }
        ensures texts { others_wanted_of result
            ≡ words.others_wanted_in self (words.first_word_of (words_in line.now)) }
    {
        match self {
            TextKind::Script => command_words(line),
            TextKind::Parts => part_words(line),
        }
    }
}

/// What the words of a line have to be.
#[derive(Clone, Copy)]
enum Wanted {
    /// The words after a command are of these kinds.
    Command(&'static [Kind]),
    /// The text that `pack` reads has these words after the first one.
    Part(&'static [&'static str]),
}

impl Wanted {
    /// Returns the number of words after the first one.
    fn count(self) -> usize
        ensures { result ≡ length (others_wanted_of self) }
    {
        match self {
            Wanted::Command(kinds) => kinds.len(),
            Wanted::Part(texts) => texts.len(),
        }
    }

    /// Returns what the word with this number has to be. The first word has the number 1.
    fn text(self, number: usize) -> Option<&'static str>
        ensures { option_map (λ text. text.now) result
            ≡ item_numbered (first_wanted_of self ∷ others_wanted_of self) number }
    {
        let index = number.checked_sub(1)?;
        match index.checked_sub(1) {
            None => Some(self.first()),
            Some(index) => self.other(index),
        }
    }

    /// Returns what the first word has to be.
    fn first(self) -> &'static str
        ensures { result.now ≡ first_wanted_of self }
    {
        match self {
            Wanted::Command(_) => "a command",
            Wanted::Part(_) => "among the first 65535 entries",
        }
    }

    /// Returns what the word of this index after the first one has to be.
    fn other(self, index: usize) -> Option<&'static str>
        ensures { option_map (λ text. text.now) result ≡ slice_get (others_wanted_of self) index }
    {
        match self {
            Wanted::Command(kinds) => Some(wanted_of(*kinds.get(index)?)),
            Wanted::Part(texts) => texts.get(index).copied(),
        }
    }
}

/// Returns what is wrong with the faulty line of a script. Returns `None` if the script has no such
/// line.
pub fn script_hint(script: &[u8], fault: LineFault) -> Option<LineHint<'_>>
    ensures { option_map hint_of result ≡ words.script_hint script.now fault }
{
    text_hint(TextKind::Script, script, fault)
}

/// Returns what is wrong with the faulty line of the text that `pack` reads. Returns `None` if the
/// text has no such line.
pub fn parts_hint(text: &[u8], fault: LineFault) -> Option<LineHint<'_>>
    ensures { option_map hint_of result ≡ words.parts_hint text.now fault }
{
    text_hint(TextKind::Parts, text, fault)
}

/// Returns what is wrong with the faulty line of a text, if the text has it.
#[tactic(auto, using(crate::proofs::Hints::counted_words_are_whole, crate::proofs::Hints::broken_word_is_counted))]
fn text_hint(kind: TextKind, text: &[u8], fault: LineFault) -> Option<LineHint<'_>>
    ensures { option_map hint_of result
        ≡ words.hint_of_text (words.first_wanted_in kind) (words.others_wanted_in kind)
        text.now fault }
{
    let line = line_at(text, fault.line)?;
    match count_words(line) {
        Ok(count) => hint_by(line, count, kind.words_of(line), fault.fault),
        Err(number) => broken_hint(number, fault.fault),
    }
}

/// Returns what is wrong with a line whose word with this number is broken. Returns `None` if the
/// line has another fault.
fn broken_hint(number: usize, fault: ScriptFault) -> Option<LineHint<'static>>
    ensures { option_map hint_of result ≡ words.hint_of_broken number fault }
{
    match fault {
        ScriptFault::BadWord(faulty) if faulty == number => Some(LineHint::Broken(number)),
        _ => None,
    }
}

/// Returns what is wrong with a line without broken words, which has `count` words.
#[tactic(auto, using(crate::proofs::Hints::begins_with))]
fn hint_by<'a>(
    line: &'a [u8],
    count: usize,
    wanted: Wanted,
    fault: ScriptFault,
) -> Option<LineHint<'a>>
    requires whole { words_of line.now ≡ Ok (words_in line.now) }
    requires count { count ≡ length (words_in line.now) }
    ensures { option_map hint_of result ≡ words.hint_of_words (first_wanted_of wanted) (others_wanted_of wanted) (words_in line.now) fault }
{
    let first = word_at(line, 1)?;
    match fault {
        ScriptFault::UnknownCommand => Some(LineHint::Unknown(first)),
        ScriptFault::WrongCount => Some(LineHint::Count {
            found: count - 1,
            wanted: wanted.count(),
        }),
        ScriptFault::BadWord(number) => {
            let word = word_at(line, number)?;
            let wanted = wanted.text(number)?;
            Some(LineHint::Wrong { word, wanted })
        }
        ScriptFault::OutOfMemory => None,
    }
}

/// Returns the line with this number. The first line has the number 1.
#[tactic(auto, using(crate::proofs::Hints::later, crate::proofs::Hints::at_number, crate::proofs::Hints::at_no_number))]
fn line_at(text: &[u8], number: usize) -> Option<&[u8]>
    ensures { option_map (λ line. line.now) result ≡ item_numbered (lines text.now) number }
{
    let mut rest = text;
    let mut left = number.checked_sub(1)?;
    while !rest.is_empty() {
        let cut = cut_line(rest);
        if left == 0 {
            return Some(cut.line);
        }
        left -= 1;
        rest = cut.rest;
    }
    None
}

/// Returns the word with this number. The first word of a line has the number 1.
#[tactic(auto, using(crate::proofs::Hints::later, crate::proofs::Hints::at_number, crate::proofs::Hints::at_no_number, crate::proofs::Hints::rest_is_whole, crate::proofs::Hints::words_after_cut))]
fn word_at(line: &[u8], number: usize) -> Option<&[u8]>
    requires whole { words_of line.now ≡ Ok (words_in line.now) }
    ensures { option_map (λ word. word.now) result ≡ item_numbered (words_in line.now) number }
{
    let mut rest = line;
    let mut left = number.checked_sub(1)?;
    loop {
        let WordCut::Word { word, rest: behind } = cut_word(rest) else {
            return None;
        };
        if left == 0 {
            return Some(word);
        }
        left -= 1;
        rest = behind;
    }
}

/// Returns the first word of a line without broken words, or no bytes if it has none.
fn first_word(line: &[u8]) -> &[u8]
    requires whole { words_of line.now ≡ Ok (words_in line.now) }
    ensures { result.now ≡ words.first_word_of (words_in line.now) }
{
    match word_at(line, 1) {
        Some(word) => word,
        None => &[],
    }
}

/// Returns what the words of a script's line have to be.
fn command_words(line: &[u8]) -> Wanted
    requires whole { words_of line.now ≡ Ok (words_in line.now) }
    ensures first { first_wanted_of result ≡ words.wanted_command }
    ensures texts { others_wanted_of result ≡ words.wanted_after_command (words.first_word_of (words_in line.now)) }
{
    match find_command(first_word(line)) {
        Some(command) => Wanted::Command(row_of(command).kinds),
        None => Wanted::Command(&[]),
    }
}

/// Returns what the words of a line of the text that `pack` reads have to be.
fn part_words(line: &[u8]) -> Wanted
    requires whole { words_of line.now ≡ Ok (words_in line.now) }
    ensures first { first_wanted_of result ≡ words.wanted_entry }
    ensures texts { others_wanted_of result ≡ words.wanted_after_first (words.first_word_of (words_in line.now)) }
{
    Wanted::Part(words_after(first_word(line)))
}

/// Returns what a word of this kind has to be.
fn wanted_of(kind: Kind) -> &'static str
    ensures { result.now ≡ words.wanted_of_kind kind }
{
    match kind {
        Kind::Chunk | Kind::Database => "a label (a letter, then up to 30 letters, digits or _)",
        Kind::Byte => "a number below 256",
        Kind::Short => SHORT,
        Kind::Number => NUMBER,
        Kind::Flag => "0 or 1",
        Kind::Which => "app or sort",
        Kind::FourBytes => FOUR_BYTES,
        Kind::Bytes => "bytes in hex, two digits a byte, or -",
        Kind::Text => "a text, as \"Memos\" or x:4d656d6f73",
    }
}

const SHORT: &str = "a number below 65536";

const NUMBER: &str = "a number below 4294967296";

const FOUR_BYTES: &str = "a text of four bytes, as \"DATA\"";

const PART_NAME: &str = "the name of a part (letters, digits, _, - and .), or none";

const RECORD_PART: &str =
    "the name of a part (letters, digits, _, - and .); only a deleted record may have none";

const AFTER_NAME: &str =
    "all bytes after the name, up to the 32nd, in hex; the first of two or more is 00";

const BLOCK: &str =
    "a block with a part that no earlier line names: app, sort or the index of an entry";

const RESOURCE_PART: &str =
    "the name of a part (letters, digits, _, - and .), which each resource has";

/// Returns what the words after the first one have to be, in the text that `pack` reads.
fn words_after(first: &[u8]) -> &'static [&'static str]
    ensures { others_wanted_of (Wanted.Part result) ≡ words.wanted_after_first first.now }
{
    if first == b"name".as_slice() {
        &["a text of 1 to 31 bytes, as \"MemoDB\""]
    } else if first == b"attributes".as_slice() {
        &["a hex number below 10000"]
    } else if first == b"version".as_slice() {
        &[SHORT]
    } else if takes_number(first) {
        &[NUMBER]
    } else if takes_four_bytes(first) {
        &[FOUR_BYTES]
    } else if first == b"seed".as_slice() {
        &["a hex number below 100000000"]
    } else if takes_part(first) {
        &[PART_NAME]
    } else if first == b"namefield".as_slice() {
        &[AFTER_NAME]
    } else if first == b"order".as_slice() {
        &[BLOCK]
    } else if first == b"record".as_slice() {
        &[
            "a hex number below 100",
            "a number below 16777216",
            RECORD_PART,
        ]
    } else if first == b"resource".as_slice() {
        &[FOUR_BYTES, SHORT, RESOURCE_PART]
    } else {
        &[]
    }
}

/// Returns whether the word after this first one is a number below 2^32.
fn takes_number(first: &[u8]) -> bool
    ensures { result ≡ words.takes_number first.now }
{
    first == b"created".as_slice()
        || first == b"modified".as_slice()
        || first == b"backup".as_slice()
        || first == b"number".as_slice()
}

/// Returns whether the word after this first one is a text of four bytes, and the only one.
fn takes_four_bytes(first: &[u8]) -> bool
    ensures { result ≡ words.takes_four_bytes first.now }
{
    first == b"type".as_slice() || first == b"creator".as_slice()
}

/// Returns whether the word after this first one is the name of a part, and the only one.
fn takes_part(first: &[u8]) -> bool
    ensures { result ≡ words.takes_part first.now }
{
    first == b"app".as_slice() || first == b"sort".as_slice() || first == b"filler".as_slice()
}
