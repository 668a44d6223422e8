//! Keys and values.

ghost use Rattle.std.specs.Prelude.{◌≡◌, ◌++◌, codes, decimal, is_ok};
ghost use Rattle.heap_model.specs.Bytes.{u32_bytes};
ghost use Rattle.palm_text.specs.Counted.{Writes};
ghost use Rattle.unicode_text.specs.Pieces.{json_text};
ghost use Rattle.json_documents.specs.RowTexts.{date_json, extent_json, member, member_with_hex, moment_json, seconds_before, since_json, year_json};

use file_listing::{Epoch, Extent, Moment, put_moment};
use palm_text::{Counted, WriteFault};
use std::io::Write;
use unicode_text::JsonPiece::{FourBytes, FourHex, Hex, Number, String, Text};
use unicode_text::{JsonPiece, put_json};

/// Writes a key and a number.
pub(crate) fn put_number<W: Write>(
    out: &mut Counted<W>,
    key: &[u8],
    number: u32,
) -> Result<(), WriteFault>
    ensures { Writes W.contents out.old out.new (member key.now (decimal number)) (is_ok result) }
{
    put_json(out, &[Text(key), Number(number), Text(b",")])
}

/// Writes the string of some bytes, and that of their hex digits, each after its key.
pub(crate) fn put_bytes<'a, W: Write>(
    out: &mut Counted<W>,
    key: &'a [u8],
    bytes: &'a [u8],
    hex_key: &'a [u8],
) -> Result<(), WriteFault>
    ensures { Writes W.contents out.old out.new (member_with_hex key.now bytes.now hex_key.now)
        (is_ok result) }
{
    put_both(out, key, String(bytes), hex_key, Hex(bytes))
}

/// Writes the strings of the four bytes of a number, as `put_bytes` does.
pub(crate) fn put_four_bytes<'a, W: Write>(
    out: &mut Counted<W>,
    key: &'a [u8],
    number: u32,
    hex_key: &'a [u8],
) -> Result<(), WriteFault>
    ensures { Writes W.contents out.old out.new
        (member_with_hex key.now (u32_bytes number) hex_key.now) (is_ok result) }
{
    put_both(out, key, FourBytes(number), hex_key, FourHex(number))
}

/// Writes two values, each after its key.
fn put_both<'a, W: Write>(
    out: &mut Counted<W>,
    key: &'a [u8],
    value: JsonPiece<'a>,
    hex_key: &'a [u8],
    hex: JsonPiece<'a>,
) -> Result<(), WriteFault>
    ensures { Writes W.contents out.old out.new
        (key.now ++ (json_text value.entry ++ (hex_key.now ++ (json_text hex.entry ++ codes ",")))) (is_ok result) }
{
    put_json(out, &[Text(key), value, Text(hex_key), hex, Text(b",")])
}

/// Writes a number between two keys.
fn put_seconds<'a, W: Write>(
    out: &mut Counted<W>,
    key: &'a [u8],
    seconds: u32,
    utc_key: &'a [u8],
) -> Result<(), WriteFault>
    ensures { Writes W.contents out.old out.new (seconds_before key.now seconds utc_key.now)
        (is_ok result) }
{
    put_json(out, &[Text(key), Number(seconds), Text(utc_key)])
}

/// Returns the value of the year from which a moment counts its seconds.
fn year_text(moment: &Moment) -> &'static [u8]
    ensures { result.now ≡ year_json moment.now }
{
    if moment.seconds == 0 {
        return b"null,";
    }
    match moment.epoch {
        Epoch::Year1904 => b"1904,",
        Epoch::Year1970 => b"1970,",
    }
}

/// Writes the year from which a moment counts its seconds.
fn put_since<W: Write>(
    out: &mut Counted<W>,
    since_key: &[u8],
    moment: &Moment,
) -> Result<(), WriteFault>
    ensures { Writes W.contents out.old out.new (since_json since_key.now moment.now) (is_ok result) }
{
    put_json(out, &[Text(since_key), Text(year_text(moment))])
}

/// Writes the UTC text of a moment, and the year from which its seconds count after its key.
#[tactic(auto, using(palm_text::proofs::Parts::then, palm_text::proofs::Parts::stops), unfolding(crate::specs::RowTexts::date_json))]
fn put_date<W: Write>(
    out: &mut Counted<W>,
    moment: &Moment,
    since_key: &[u8],
) -> Result<(), WriteFault>
    ensures { Writes W.contents out.old out.new (date_json moment.now since_key.now) (is_ok result) }
{
    put_moment(out, moment, b"null", b"\"", b"\"")?;
    put_since(out, since_key, moment)
}

/// The keys of a date: those of its seconds, of its UTC text, and of the year from which the seconds
/// count.
#[derive(Clone, Copy)]
pub(crate) struct DateKeys {
    pub(crate) seconds: &'static [u8],
    pub(crate) utc: &'static [u8],
    pub(crate) since: &'static [u8],
}

/// Writes the seconds of a moment, its UTC text, and the year from which the seconds count, each
/// after its key.
#[tactic(auto, using(palm_text::proofs::Parts::then, palm_text::proofs::Parts::stops), unfolding(crate::specs::RowTexts::moment_json))]
pub(crate) fn put_dated<W: Write>(
    out: &mut Counted<W>,
    keys: DateKeys,
    moment: &Moment,
) -> Result<(), WriteFault>
    ensures { Writes W.contents out.old out.new
        (moment_json keys.seconds.now moment.now keys.utc.now keys.since.now) (is_ok result) }
{
    put_seconds(out, keys.seconds, moment.seconds, keys.utc)?;
    put_date(out, moment, keys.since)
}

/// Writes the extent of an info block after its key.
pub(crate) fn put_extent<W: Write>(
    out: &mut Counted<W>,
    key: &[u8],
    block: Option<Extent>,
) -> Result<(), WriteFault>
    ensures { Writes W.contents out.old out.new (extent_json key.now block) (is_ok result) }
{
    match block {
        None => put_json(out, &[Text(key), Text(b"null,")]),
        Some(block) => put_json(
            out,
            &[
                Text(key),
                Text(b"{\"offset\":"),
                Number(block.offset),
                Text(b",\"length\":"),
                Number(block.size),
                Text(b"},"),
            ],
        ),
    }
}
