//! How the words of each kind are spelled, and what they stand for.

ghost use Rattle.std.specs.Prelude.{◌≡◌, ◌<◌, ◌≤◌, ◌^◌, false, true, MatchOption};
ghost use Rattle.std.specs.List.{list_all};
ghost use Rattle.script_lines.specs.Spellings as spellings;
ghost use Rattle.script_lines.specs.Spellings.{below, hex_below, number_behind, number_below};
ghost use Rattle.script_lines.specs.Spellings.{is_quoted, spelled_bytes, spelled_text};
ghost use Rattle.script_lines.specs.Spellings.{spelled_flag, spelled_four, spelled_which};

use byteorder::{BigEndian, ByteOrder};
use heap_model::Which;
use palm_text::are_printable;
use script_commands::LentBytes;

/// The length of the longest label.
const MOST_LABEL: usize = 31;

/// Reports whether a word spells a label.
pub(crate) fn is_label(word: &[u8]) -> bool
    ensures { result ≡ spellings.is_label word.now }
{
    match word.split_first() {
        None => false,
        Some((first, more)) => first.is_ascii_alphabetic()
            && more.len() < MOST_LABEL
            && are_label_bytes(more),
    }
}

/// Reports whether a label may contain a byte after its first byte.
fn is_label_byte(byte: u8) -> bool
    ensures { result ≡ spellings.is_label_byte byte }
{
    byte.is_ascii_alphabetic() || byte.is_ascii_digit() || byte == b'_'
}

/// Reports whether a label may contain all of these bytes after its first byte.
fn are_label_bytes(bytes: &[u8]) -> bool
    ensures { result ≡ list_all spellings.is_label_byte bytes.now }
{
    for byte in bytes {
        if !is_label_byte(*byte) {
            return false;
        }
    }
    true
}

/// Returns the value of a digit, or 16 if the byte is no digit.
fn digit_value(byte: u8) -> u64
    ensures { result ≡ spellings.digit_value byte }
{
    match byte {
        b'0'..=b'9' => (byte - b'0') as u64,
        b'a'..=b'f' => (byte - b'a') as u64 + 10,
        b'A'..=b'F' => (byte - b'A') as u64 + 10,
        _ => 16,
    }
}

/// Returns the number that digits of a base spell. Returns `None` if a byte is no digit or the
/// number is not below 2^32.
fn number_in(base: u64, digits: &[u8]) -> Option<u32>
    requires least { 0 < base }
    requires most { base ≤ 16 }
    ensures { result ≡ below (2 ^ 32) (number_behind base 0 digits.now) }
{
    let mut number: u64 = 0;
    for digit in digits {
        let value = digit_value(*digit);
        if number > u32::MAX as u64 {
            return None;
        }
        if value >= base {
            return None;
        }
        number = number * base + value;
    }
    u32::try_from(number).ok()
}

/// Returns the number that a word spells.
pub fn number_of(word: &[u8]) -> Option<u32>
    ensures { result ≡ number_below (2 ^ 32) word.now }
{
    if let Some(digits) = word.strip_prefix(b"0x") {
        if digits.is_empty() || digits.len() > 8 {
            return None;
        }
        return number_in(16, digits);
    }
    if word.is_empty() || word.len() > 10 {
        return None;
    }
    number_in(10, word)
}

/// Returns the number that a word of one to eight hex digits spells.
pub fn hex_of(word: &[u8]) -> Option<u32>
    ensures { result ≡ hex_below (2 ^ 32) word.now }
{
    if word.is_empty() || word.len() > 8 {
        return None;
    }
    number_in(16, word)
}

/// Returns the number below 2^16 that hex digits spell.
pub fn hex_short_of(word: &[u8]) -> Option<u16>
    ensures { result ≡ hex_below (2 ^ 16) word.now }
{
    u16::try_from(hex_of(word)?).ok()
}

/// Returns the number below 2^8 that hex digits spell.
pub fn hex_byte_of(word: &[u8]) -> Option<u8>
    ensures { result ≡ hex_below (2 ^ 8) word.now }
{
    u8::try_from(hex_of(word)?).ok()
}

/// Returns the number below 2^8 that a word spells.
pub(crate) fn byte_of(word: &[u8]) -> Option<u8>
    ensures { result ≡ number_below (2 ^ 8) word.now }
{
    u8::try_from(number_of(word)?).ok()
}

/// Returns the number below 2^16 that a word spells.
pub fn short_of(word: &[u8]) -> Option<u16>
    ensures { result ≡ number_below (2 ^ 16) word.now }
{
    u16::try_from(number_of(word)?).ok()
}

/// Returns the flag that a word spells.
pub(crate) fn flag_of(word: &[u8]) -> Option<bool>
    ensures { result ≡ spelled_flag word.now }
{
    match word {
        b"0" => Some(false),
        b"1" => Some(true),
        _ => None,
    }
}

/// Returns the info block that a word names.
pub(crate) fn which_of(word: &[u8]) -> Option<Which>
    ensures { result ≡ spelled_which word.now }
{
    match word {
        b"app" => Some(Which::App),
        b"sort" => Some(Which::Sort),
        _ => None,
    }
}

/// Returns the bytes that a word spells.
pub(crate) fn bytes_of(word: &[u8]) -> Option<LentBytes<'_>>
    ensures { result ≡ spelled_bytes word.now }
{
    if word == b"-".as_slice() {
        return Some(LentBytes::plain(&[]));
    }
    if word.is_empty() {
        return None;
    }
    LentBytes::hex(word)
}

/// Returns the bytes between the quotes of a word.
fn inside_quotes(word: &[u8]) -> Option<&[u8]>
    ensures { MatchOption result (is_quoted word.now ≡ false)
        (λ inside. (is_quoted word.now ≡ true) × (inside.now ≡ spellings.inside word.now)) }
{
    match word {
        [b'"', inside @ .., b'"'] => Some(inside),
        _ => None,
    }
}

/// Returns the text that a word spells.
pub fn text_of(word: &[u8]) -> Option<LentBytes<'_>>
    ensures { result ≡ spelled_text word.now }
{
    if let Some(digits) = word.strip_prefix(b"x:") {
        return LentBytes::hex(digits);
    }
    let inside = inside_quotes(word)?;
    if !are_printable(inside) {
        return None;
    }
    Some(LentBytes::plain(inside))
}

/// Returns the text that a word spells as a number, if it has four bytes.
pub fn four_bytes_of(word: &[u8]) -> Option<u32>
    ensures { result ≡ spelled_four word.now }
{
    let text = text_of(word)?;
    if text.len() != 4 {
        return None;
    }
    Some(BigEndian::read_u32(text.decoded(&mut [0; 4])))
}
