//! Moments, as they are printed.

ghost use Rattle.std.specs.Prelude.{◌≡◌, ◌/◌, ◌++◌, is_ok, unsigned_abs};
ghost use Rattle.palm_text.specs.Counted.{Writes};
ghost use Rattle.file_listing.specs.Moments.{IsDay, IsMoment, epoch_of, moment_text, utc_text};

use crate::rows::{Epoch, Moment};
use jiff_core::civil::Date;
use palm_text::{Counted, Piece, WriteFault, put_all, put_pieces};
use std::io::Write;

/// The number of seconds of a day.
const DAY: u32 = 86_400;

/// The highest bit of a date.
const HIGHEST_BIT: u32 = 0x8000_0000;

/// The number of days from -9999-01-01, from which the calendar counts, to 1904-01-01.
const FIRST_DAY_OF_1904: u32 = 4_347_480;

/// The number of days from -9999-01-01 to 1970-01-01.
const FIRST_DAY_OF_1970: u32 = 4_371_587;

/// Returns the epoch of a date of a header. Without its highest bit, a date that counts from 1904
/// would be a day before 1972-01-20, and there was no Palm OS then.
fn epoch_of(seconds: u32) -> Epoch
    ensures { result ≡ epoch_of seconds }
{
    if seconds / HIGHEST_BIT == 0 {
        Epoch::Year1970
    } else {
        Epoch::Year1904
    }
}

/// Returns the date in UTC, `seconds` after the first second of an epoch.
fn date_of(epoch: Epoch, seconds: u32) -> Date
    ensures { IsDay epoch (seconds / 86400) result }
{
    match epoch {
        Epoch::Year1904 => Date::from_days_since_min(seconds / DAY + FIRST_DAY_OF_1904),
        Epoch::Year1970 => Date::from_days_since_min(seconds / DAY + FIRST_DAY_OF_1970),
    }
}

/// Returns the moment of a date of a header.
pub(crate) fn moment_of(seconds: u32) -> Moment
    ensures { IsMoment seconds result }
{
    let epoch = epoch_of(seconds);
    Moment {
        seconds,
        epoch,
        date: date_of(epoch, seconds),
    }
}

/// Returns the absolute value of a date's year.
fn year_of(date: Date) -> u32
    ensures { result ≡ unsigned_abs date.year }
{
    u32::from(date.year.unsigned_abs())
}

/// Writes the date and the time of a moment between two texts.
fn put_utc<'a, W: Write>(
    out: &mut Counted<W>,
    before: &'a [u8],
    moment: &Moment,
    after: &'a [u8],
) -> Result<(), WriteFault>
    ensures { Writes W.contents out.old out.new (before.now ++ utc_text moment.now after.now)
        (is_ok result) }
{
    let year = year_of(moment.date);
    let month = u32::from(moment.date.month);
    let day = u32::from(moment.date.day);
    let time = moment.seconds % DAY;
    put_pieces(
        out,
        &[
            Piece::Text(before),
            Piece::Number(year),
            Piece::Text(b"-"),
            Piece::Number(month / 10),
            Piece::Number(month % 10),
            Piece::Text(b"-"),
            Piece::Number(day / 10),
            Piece::Number(day % 10),
            Piece::Text(b" "),
            Piece::Number(time / 36_000),
            Piece::Number(time / 3600 % 10),
            Piece::Text(b":"),
            Piece::Number(time / 600 % 6),
            Piece::Number(time / 60 % 10),
            Piece::Text(b":"),
            Piece::Number(time / 10 % 6),
            Piece::Number(time % 10),
            Piece::Text(after),
        ],
    )
}

/// Writes the date and the time of a moment in UTC between two texts, or only `none` if there is no
/// such moment.
///
/// # Errors
///
/// - `WriteFault`: if a write failed, or took 0 bytes.
pub fn put_moment<'a, W: Write>(
    out: &mut Counted<W>,
    moment: &Moment,
    none: &'a [u8],
    before: &'a [u8],
    after: &'a [u8],
) -> Result<(), WriteFault>
    ensures { Writes W.contents out.old out.new
        (moment_text moment.now none.now before.now after.now) (is_ok result) }
{
    if moment.seconds == 0 {
        put_all(out, none)
    } else {
        put_utc(out, before, moment, after)
    }
}
