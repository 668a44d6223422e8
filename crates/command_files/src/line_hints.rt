//! What is wrong with a faulty line.

use crate::faults::input_name;
use hints::LineHint;
use std::str;

/// The greatest length in bytes of a word that is printed.
const MOST_PRINTED: usize = 64;

/// Returns a word for a message, or a description if it is long, isn't UTF-8, or has a control
/// character, which a terminal could obey.
fn printed(word: &[u8]) -> &str {
    if word.len() > MOST_PRINTED {
        return "a long word";
    }
    match str::from_utf8(word) {
        Ok(text) if text.chars().any(|character| character.is_control()) => {
            "a word with a control character"
        }
        Ok(text) => text,
        Err(_) => "a word that isn't UTF-8",
    }
}

/// Reports on standard error what is wrong with the line of this number of the input at a path.
pub fn report_line_hint<R: Eprint>(rt: &R, path: &str, line: usize, hint: LineHint<'_>) {
    let name = input_name(path);
    let _ = match hint {
        LineHint::Unknown(word) => {
            eprintln!(rt; "{name}:{line}: {} is unknown here", printed(word))
        }
        LineHint::Count { found, wanted } => {
            eprintln!(rt; "{name}:{line}: {wanted} words after the first are wanted, not {found}")
        }
        LineHint::Broken(number) => {
            eprintln!(rt;
                "{name}:{line}: word {number} has a quote that isn't closed, or no space after it"
            )
        }
        LineHint::Wrong { word, wanted } => {
            eprintln!(rt; "{name}:{line}: {} is not {wanted}", printed(word))
        }
    };
}
