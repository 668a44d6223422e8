//! The lines about the parts of a file that aren't sound.

ghost use Rattle.std.specs.Prelude.{◌≡◌, ◌≤◌, ◌<◌, ◌++◌, length, is_ok};
ghost use Rattle.heap_model.specs.DatabaseFields.{header_size};
ghost use Rattle.palm_text.specs.Counted.{Writes};
ghost use Rattle.palm_text.specs.Pieces.{piece_text};
ghost use Rattle.canonical_file.specs.Salvage as words;
ghost use Rattle.canonical_file.specs.Salvage.{chain_line, cut_line, dropped_entry, lost_entry_lines, lost_entry_line, head_lines, lost_info_line, lost_info_lines, name_line, salvage_lines};

use crate::change_lines::word;
use crate::sound::{is_sound_entry, is_sound_offset, whole_entries};
use db_format::{DbEntry, app_info, entries_end, entry_count, name_in, next_list, sort_info};
use palm_text::{Counted, Piece, WriteFault, put_pieces};
use std::io::Write;

/// Writes a line for each fault of a file, in the order of the faults. For a file without fault it
/// writes nothing.
///
/// # Errors
///
/// - `WriteFault`: if a write failed, or took 0 bytes.
#[tactic(auto, using(palm_text::proofs::Parts::then, palm_text::proofs::Parts::stops), unfolding(crate::specs::Salvage::salvage_lines))]
pub fn put_salvage_lines<W: Write>(out: &mut Counted<W>, file: &[u8]) -> Result<(), WriteFault>
    requires { header_size ≤ length file.now }
    ensures { Writes W.contents out.old out.new (salvage_lines file.now) (is_ok result) }
{
    put_head_lines(out, file)?;
    put_part_lines(out, file)
}

/// Writes the lines about the info blocks and the entries.
#[tactic(auto, using(palm_text::proofs::Parts::then, palm_text::proofs::Parts::stops))]
fn put_part_lines<W: Write>(out: &mut Counted<W>, file: &[u8]) -> Result<(), WriteFault>
    requires { header_size ≤ length file.now }
    ensures { Writes W.contents out.old out.new
        (lost_info_lines file.now ++ lost_entry_lines file.now) (is_ok result) }
{
    put_info_lines(out, file)?;
    put_entry_lines(out, file)
}

/// Writes the lines about the number of entries, a further list, and the name.
#[tactic(auto, using(palm_text::proofs::Parts::then, palm_text::proofs::Parts::stops))]
fn put_head_lines<W: Write>(out: &mut Counted<W>, file: &[u8]) -> Result<(), WriteFault>
    requires { header_size ≤ length file.now }
    ensures { Writes W.contents out.old out.new (head_lines file.now) (is_ok result) }
{
    put_cut_line(out, file)?;
    put_pieces(out, &[chain_piece(file), name_piece(file)])
}

/// Returns the line about a further list of entries, if the header has one.
fn chain_piece(file: &[u8]) -> Piece<'static>
    requires { header_size ≤ length file.now }
    ensures { piece_text result ≡ chain_line file.now }
{
    word(next_list(file) != 0, b"chained list: ignored\n")
}

/// Returns the line about the name, if it is empty.
fn name_piece(file: &[u8]) -> Piece<'static>
    requires { header_size ≤ length file.now }
    ensures { piece_text result ≡ name_line file.now }
{
    word(name_in(file).is_empty(), b"name empty: Recovered\n")
}

/// Writes the line about the number of entries, if the file ends before they do.
fn put_cut_line<W: Write>(out: &mut Counted<W>, file: &[u8]) -> Result<(), WriteFault>
    requires { header_size ≤ length file.now }
    ensures { Writes W.contents out.old out.new (cut_line file.now) (is_ok result) }
{
    if has_all_entries(file) {
        return Ok(());
    }
    put_count_line(out, file)
}

/// Returns whether the file has all of its entries.
fn has_all_entries(file: &[u8]) -> bool
    requires { header_size ≤ length file.now }
    ensures { result ≡ words.has_all_entries file.now }
{
    entries_end(file) <= file.len()
}

/// Writes the line about the number of entries.
fn put_count_line<W: Write>(out: &mut Counted<W>, file: &[u8]) -> Result<(), WriteFault>
    requires { header_size ≤ length file.now }
    ensures { Writes W.contents out.old out.new (words.count_line file.now) (is_ok result) }
{
    put_pieces(
        out,
        &[
            Piece::Text(b"entries "),
            Piece::Number(u32::from(entry_count(file))),
            Piece::Text(b": the file ends in entry "),
            Piece::Number(u32::from(whole_entries(file))),
            Piece::Text(b"\n"),
        ],
    )
}

/// Writes the lines about the info blocks.
#[tactic(auto, using(palm_text::proofs::Parts::then, palm_text::proofs::Parts::stops))]
fn put_info_lines<W: Write>(out: &mut Counted<W>, file: &[u8]) -> Result<(), WriteFault>
    requires { header_size ≤ length file.now }
    ensures { Writes W.contents out.old out.new (lost_info_lines file.now) (is_ok result) }
{
    put_app_line(out, file)?;
    put_sort_line(out, file)
}

/// Writes the line about the AppInfo block, if its offset isn't sound.
fn put_app_line<W: Write>(out: &mut Counted<W>, file: &[u8]) -> Result<(), WriteFault>
    requires { header_size ≤ length file.now }
    ensures { Writes W.contents out.old out.new (words.lost_app_line file.now) (is_ok result) }
{
    put_info_line(out, file, b"app", app_info(file))
}

/// Writes the line about the SortInfo block, if its offset isn't sound.
fn put_sort_line<W: Write>(out: &mut Counted<W>, file: &[u8]) -> Result<(), WriteFault>
    requires { header_size ≤ length file.now }
    ensures { Writes W.contents out.old out.new (words.lost_sort_line file.now) (is_ok result) }
{
    put_info_line(out, file, b"sort", sort_info(file))
}

/// Writes the line about an info block, if its offset isn't sound.
fn put_info_line<W: Write>(
    out: &mut Counted<W>,
    file: &[u8],
    part: &[u8],
    at: u32,
) -> Result<(), WriteFault>
    requires { header_size ≤ length file.now }
    ensures { Writes W.contents out.old out.new (lost_info_line file.now part.now at) (is_ok result) }
{
    if is_none_or_sound(file, at) {
        return Ok(());
    }
    put_dropped(out, file, part, at)
}

/// Writes the line about an info block with an offset that isn't sound.
fn put_dropped<W: Write>(
    out: &mut Counted<W>,
    file: &[u8],
    part: &[u8],
    at: u32,
) -> Result<(), WriteFault>
    ensures { Writes W.contents out.old out.new (part.now ++ words.dropped_at file.now at)
        (is_ok result) }
{
    put_pieces(
        out,
        &[
            Piece::Text(part),
            Piece::Text(b" offset "),
            Piece::Number(at),
            Piece::Text(unsound_words(file, at)),
        ],
    )
}

/// Returns whether there is no info block, or its offset is sound.
fn is_none_or_sound(file: &[u8], at: u32) -> bool
    requires { header_size ≤ length file.now }
    ensures { result ≡ words.is_none_or_sound file.now at }
{
    at == 0 || is_sound_offset(file, at)
}

/// Writes the lines about the entries.
fn put_entry_lines<W: Write>(out: &mut Counted<W>, file: &[u8]) -> Result<(), WriteFault>
    requires { header_size ≤ length file.now }
    ensures { Writes W.contents out.old out.new (lost_entry_lines file.now) (is_ok result) }
{
    for index in 0..whole_entries(file) {
        match put_entry_line(out, file, index) {
            Ok(()) => {}
            Err(fault) => return Err(fault),
        }
    }
    Ok(())
}

/// Writes the line about an entry, if it isn't sound.
fn put_entry_line<W: Write>(out: &mut Counted<W>, file: &[u8], index: u16) -> Result<(), WriteFault>
    requires header { header_size ≤ length file.now }
    requires whole { index < words.whole_entries file.now }
    ensures { Writes W.contents out.old out.new (lost_entry_line file.now index) (is_ok result) }
{
    let entry = DbEntry::read(file, index);
    if is_sound_entry(file, entry) {
        return Ok(());
    }
    put_dropped_entry(out, file, index, entry.slot())
}

/// Writes the line about an entry with an offset that isn't sound.
fn put_dropped_entry<W: Write>(
    out: &mut Counted<W>,
    file: &[u8],
    index: u16,
    at: u32,
) -> Result<(), WriteFault>
    ensures { Writes W.contents out.old out.new (dropped_entry file.now index at) (is_ok result) }
{
    put_pieces(
        out,
        &[
            Piece::Text(b"entry "),
            Piece::Number(u32::from(index)),
            Piece::Text(b" offset "),
            Piece::Number(at),
            Piece::Text(unsound_words(file, at)),
        ],
    )
}

/// Returns the end of a line about an offset that isn't sound.
fn unsound_words(file: &[u8], at: u32) -> &'static [u8]
    ensures { result.now ≡ words.unsound_words file.now at }
{
    if file.len() < at as usize {
        b" beyond the end: dropped\n"
    } else {
        b" within the entries: dropped\n"
    }
}
