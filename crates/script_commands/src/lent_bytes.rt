//! Bytes that the text of a script lends.

ghost use Rattle.std.specs.Prelude.{◌≡◌, ◌≤◌, length, take};
ghost use Rattle.std.specs.List.{list_all};
ghost use Rattle.heap_model.specs.DatabaseFields.{name_size};
ghost use Rattle.hex.specs.Hex as hex;
ghost use Rattle.script_commands.specs.LentBytes.{hex_bytes};

use heap_model::DbName;
use std::marker::Model;

/// Bytes that a text lends: its own bytes, or those that its hex digits spell, two for each byte.
/// Contracts see them as a list.
#[derive(Drop, Debug)]
pub struct LentBytes<'a> {
    text: &'a [u8],
    is_hex: bool,
}

impl<'a> Model for LentBytes<'a> {
    ghost use Rattle.std.specs.Prelude.{◌≡◌, ℕ, List, is_some, true};
    ghost use Rattle.script_commands.specs.LentBytes.{bytes_meant, hex_bytes};

    ghost Value = { List ℕ };

    ghost view = { λ lent. bytes_meant lent.is_hex lent.text.now };

    ghost invariant = { λ lent. lent.is_hex ≡ true → is_some (hex_bytes lent.text.now) ≡ true };
}

impl<'a> LentBytes<'a> {
    /// Lends a text's own bytes.
    pub fn plain(text: &'a [u8]) -> LentBytes<'a>
        ensures { result ≡ text.now }
    {
        LentBytes {
            text,
            is_hex: false,
        }
    }

    /// Lends the bytes that hex digits of either case spell. Returns `None` if their number is odd
    /// or a byte is no hex digit.
    pub fn hex(digits: &'a [u8]) -> Option<LentBytes<'a>>
        ensures { result ≡ hex_bytes digits.now }
    {
        if digits.len() % 2 != 0 || !are_hex_digits(digits) {
            return None;
        }
        Some(LentBytes {
            text: digits,
            is_hex: true,
        })
    }

    /// Returns the number of bytes.
    pub fn len(&self) -> usize
        ensures { result ≡ length self.now }
    {
        if self.is_hex {
            self.text.len() / 2
        } else {
            self.text.len()
        }
    }

    /// Returns the bytes in order. Hex digits are decoded into the buffer.
    pub fn decoded<'b>(&'b self, buffer: &'b mut [u8]) -> &'b [u8]
        requires room { length self.now ≤ length buffer.old }
        ensures { result.now ≡ self.now }
    {
        if !self.is_hex {
            return self.text;
        }
        let bytes = &mut buffer[..self.text.len() / 2];
        hex::decode_to_slice(self.text, bytes).unwrap();
        bytes
    }

    /// Returns the database name that the first bytes make.
    pub fn name(&self) -> DbName
        ensures { result ≡ take name_size self.now }
    {
        DbName::of(
            self.front(MOST_NAME_BYTES)
                .decoded(&mut [0; MOST_NAME_BYTES]),
        )
    }

    /// Returns the first bytes, at most `most`.
    fn front(&self, most: usize) -> LentBytes<'a>
        ensures { result ≡ take most self.now }
    {
        let count = most.min(self.len());
        if self.is_hex {
            LentBytes {
                text: &self.text[..2 * count],
                is_hex: true,
            }
        } else {
            LentBytes::plain(&self.text[..count])
        }
    }
}

/// The greatest number of bytes that `name` takes.
const MOST_NAME_BYTES: usize = 32;

/// Reports whether all bytes are hex digits.
fn are_hex_digits(bytes: &[u8]) -> bool
    ensures { result ≡ list_all hex.is_hex_digit bytes.now }
{
    for byte in bytes {
        if !is_hex_digit(*byte) {
            return false;
        }
    }
    true
}

/// Reports whether a byte is a hex digit, of either case.
fn is_hex_digit(byte: u8) -> bool
    ensures { result ≡ hex.is_hex_digit byte }
{
    matches!(byte, b'0'..=b'9' | b'a'..=b'f' | b'A'..=b'F')
}
