//! The characters of bytes.

ghost use Rattle.std.specs.Prelude.{◌≡◌, ◌<◌, ◌^◌, IfSome};
ghost use Rattle.unicode_text.specs.Windows1252 as words;

/// The characters of the bytes 0x80 to 0x9F.
pub(crate) const MIDDLE: [Option<char>; 32] = [
    Some('\u{20AC}'),
    None,
    Some('\u{201A}'),
    Some('\u{0192}'),
    Some('\u{201E}'),
    Some('\u{2026}'),
    Some('\u{2020}'),
    Some('\u{2021}'),
    Some('\u{02C6}'),
    Some('\u{2030}'),
    Some('\u{0160}'),
    Some('\u{2039}'),
    Some('\u{0152}'),
    None,
    Some('\u{017D}'),
    None,
    None,
    Some('\u{2018}'),
    Some('\u{2019}'),
    Some('\u{201C}'),
    Some('\u{201D}'),
    Some('\u{2022}'),
    Some('\u{2013}'),
    Some('\u{2014}'),
    Some('\u{02DC}'),
    Some('\u{2122}'),
    Some('\u{0161}'),
    Some('\u{203A}'),
    Some('\u{0153}'),
    None,
    Some('\u{017E}'),
    Some('\u{0178}'),
];

/// Returns the character of a byte. Five bytes have none.
pub fn character_of(byte: u8) -> Option<char>
    ensures is { result ≡ words.character_of byte }
    ensures short { IfSome result (λ code. code < 2 ^ 16) }
{
    if byte >= 0x80 && byte < 0xA0 {
        MIDDLE[byte as usize - 0x80]
    } else {
        Some(byte as char)
    }
}
