//! The lines of a text, and the words of a line.

ghost use Rattle.std.specs.Prelude.{◌≡◌, ◌<◌, ◌≤◌, ◌==◌, IfSome, None, length, not};
ghost use Rattle.std.specs.List.{position_or_len};
ghost use Rattle.std.specs.Str.Lines.{strip_carriage_return};
ghost use Rattle.script_lines.specs.Words as words;
ghost use Rattle.script_lines.specs.Words.{words_of, word_count};
ghost use Rattle.script_lines.specs.Cuts as cuts;
ghost use Rattle.script_lines.specs.Cuts.{CutsEndedLine, CutsLine, CutsWord, IsUnended};

/// Reports whether a byte is a space or a tab.
fn is_blank(byte: u8) -> bool
    ensures { result ≡ words.is_blank byte }
{
    byte == b' ' || byte == b'\t'
}

/// Returns the number of bytes before the first line feed, or of all bytes if there is none.
fn line_end(text: &[u8]) -> usize
    ensures value { result ≡ position_or_len (λ b. b == 10) text.now }
    ensures within { result ≤ length text.now }
{
    for (at, byte) in text.iter().enumerate() {
        if *byte == b'\n' {
            return at;
        }
    }
    text.len()
}

/// Returns a line without the carriage return at its end, if it has one.
fn without_return(line: &[u8]) -> &[u8]
    ensures value { result.now ≡ strip_carriage_return line.now }
    ensures within { length result.now ≤ length line.now }
{
    match line.split_last() {
        Some((last, front)) => { if *last == b'\r' { front } else { line } }
        None => line,
    }
}

/// The first line of a text, and the text after it.
#[derive(Clone, Copy)]
pub struct LineCut<'a> {
    pub line: &'a [u8],
    pub rest: &'a [u8],
}

/// Cuts the first line off a text that isn't empty. The line is returned without the line feed that
/// ends it, and without a carriage return before that line feed.
pub fn cut_line(text: &[u8]) -> LineCut<'_>
    requires { 0 < length text.now }
    ensures { CutsLine text.now result }
{
    let (line, rest) = text.split_at(line_end(text));
    match rest.split_first() {
        Some((_, rest)) => LineCut {
            line: without_return(line),
            rest,
        },
        None => LineCut { line, rest },
    }
}

/// Cuts the first line off a text, if a line feed ends it, as `cut_line` does. More text may follow
/// later: it comes after the rest.
pub fn cut_ended_line(text: &[u8]) -> Option<LineCut<'_>>
    ensures line { IfSome result (λ cut. CutsEndedLine text.now cut) }
    ensures none { result ≡ None → IsUnended text.now }
{
    let (line, rest) = text.split_at(line_end(text));
    match rest.split_first() {
        Some((_, rest)) => Some(LineCut {
            line: without_return(line),
            rest,
        }),
        None => None,
    }
}

/// Returns the number of spaces and tabs that a text begins with.
fn blank_end(text: &[u8]) -> usize
    ensures value { result ≡ position_or_len (λ b. not (words.is_blank b)) text.now }
    ensures within { result ≤ length text.now }
{
    for (at, byte) in text.iter().enumerate() {
        if !is_blank(*byte) {
            return at;
        }
    }
    text.len()
}

/// Returns the number of bytes before the first space or tab, or of all bytes if there is none.
fn word_end(text: &[u8]) -> usize
    ensures value { result ≡ position_or_len words.is_blank text.now }
    ensures within { result ≤ length text.now }
{
    for (at, byte) in text.iter().enumerate() {
        if is_blank(*byte) {
            return at;
        }
    }
    text.len()
}

/// Returns the number of bytes before the first quote, or of all bytes if there is none.
fn quote_end(text: &[u8]) -> usize
    ensures value { result ≡ position_or_len (λ b. b == 34) text.now }
    ensures within { result ≤ length text.now }
{
    for (at, byte) in text.iter().enumerate() {
        if *byte == b'"' {
            return at;
        }
    }
    text.len()
}

/// Reports whether a line has no words, or its first word starts with `#`.
pub fn is_passed_over(line: &[u8]) -> bool
    ensures { result ≡ words.is_passed_over line.now }
{
    let (_, words) = line.split_at(blank_end(line));
    match words.split_first() {
        Some((first, _)) => *first == b'#',
        None => true,
    }
}

/// Reports whether a quoted word may end before this text.
fn ends_word(text: &[u8]) -> bool
    ensures { result ≡ cuts.ends_word text.now }
{
    match text.first() {
        Some(byte) => is_blank(*byte),
        None => true,
    }
}

/// The first word of a text, cut off.
#[derive(Clone, Copy)]
pub enum WordCut<'a> {
    /// There is no word.
    Absent,
    /// The word is a quoted word that isn't closed, or isn't followed by a space, a tab or the end.
    Broken,
    /// The word, and the text after it.
    Word { word: &'a [u8], rest: &'a [u8] },
}

/// Cuts the first word off a text.
pub fn cut_word(text: &[u8]) -> WordCut<'_>
    ensures { CutsWord text.now result }
{
    let (_, front) = text.split_at(blank_end(text));
    match front.split_first() {
        None => WordCut::Absent,
        Some((first, inside)) => {
            if *first != b'"' {
                let (word, rest) = front.split_at(word_end(front));
                return WordCut::Word { word, rest };
            }
            let closing = quote_end(inside);
            if closing == inside.len() {
                return WordCut::Broken;
            }
            let (word, rest) = front.split_at(closing + 2);
            if !ends_word(rest) {
                return WordCut::Broken;
            }
            WordCut::Word { word, rest }
        }
    }
}

/// Returns the number of words of a line, or the number of its first broken word, counted from 1.
pub fn count_words(line: &[u8]) -> Result<usize, usize>
    ensures { result ≡ word_count (words_of line.now) }
{
    let mut rest = line;
    let mut count = 0;
    loop {
        match cut_word(rest) {
            WordCut::Absent => return Ok(count),
            WordCut::Broken => return Err(count + 1),
            WordCut::Word { rest: behind, .. } => {
                count += 1;
                rest = behind;
            }
        }
    }
}
