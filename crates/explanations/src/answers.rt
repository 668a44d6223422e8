//! The rows of a word.

ghost use Rattle.std.specs.Prelude.{◌≡◌, ◌⊎◌, is_ok};
ghost use Rattle.std.specs.Str.{str_eq_ignore_ascii_case};
ghost use Rattle.palm_text.specs.Counted.{Writes};
ghost use Rattle.palm_text.specs.Output.{Puts};
ghost use Rattle.explanations.specs.Ends.{EndsExplain};
ghost use Rattle.explanations.specs.Explained as words;
ghost use Rattle.explanations.specs.Explained.{all_rows, rows_of_sections};
ghost use Rattle.explanations.specs.Subjects as subjects;

use crate::table::{Explanation, SECTIONS, Section, Subject, rows_of};
use itoa::Buffer;
use palm_text::{Counted, Piece, WriteFault, put_pieces};
use program_io::{Status, flushed};
use std::io::Write;

/// Prints the meaning of a word: a line for each row of the table with this name or number. The
/// case of letters doesn't matter. It returns `BadWords` if there is no row.
pub fn explain_word<V: Write>(word: &[u8], out: &mut Counted<V>) -> Status
    ensures ends { EndsExplain word.now all_rows V.contents out.old out.new result }
    ensures statuses { (result ≡ Status.Done) ⊎ (result ≡ Status.BadWords)
        ⊎ (result ≡ Status.WriteFault) }
{
    explain_by(word, &SECTIONS, out)
}

/// Prints the meaning of a word, as `explain_word` does, by the rows of some sections.
fn explain_by<V: Write>(word: &[u8], sections: &[Section], out: &mut Counted<V>) -> Status
    ensures { EndsExplain word.now (rows_of_sections sections.now) V.contents out.old out.new result }
{
    if !is_among_sections(word, sections) {
        return Status::BadWords;
    }
    match put_flushed(word, sections, out) {
        Ok(()) => Status::Done,
        Err(_) => Status::WriteFault,
    }
}

/// Writes the lines of the rows of a word, and flushes.
#[tactic(auto, using(palm_text::proofs::Parts::then_flush))]
fn put_flushed<V: Write>(
    word: &[u8],
    sections: &[Section],
    out: &mut Counted<V>,
) -> Result<(), WriteFault>
    ensures { Puts V.contents out.old out.new (words.answers word.now (rows_of_sections sections.now)) (is_ok result) }
{
    put_sections(out, word, sections)?;
    flushed(out)
}

/// Writes the lines of the rows of a word, section by section.
fn put_sections<V: Write>(
    out: &mut Counted<V>,
    word: &[u8],
    sections: &[Section],
) -> Result<(), WriteFault>
    ensures { Writes V.contents out.old out.new (words.answers word.now (rows_of_sections sections.now)) (is_ok result) }
{
    for section in sections {
        match put_rows(out, word, rows_of(*section)) {
            Ok(()) => {}
            Err(fault) => return Err(fault),
        }
    }
    Ok(())
}

/// Writes the lines of those rows that have a word as their name or number.
fn put_rows<V: Write>(
    out: &mut Counted<V>,
    word: &[u8],
    rows: &[Explanation],
) -> Result<(), WriteFault>
    ensures { Writes V.contents out.old out.new (words.answers word.now (words.rows_read rows.now)) (is_ok result) }
{
    for row in rows {
        match put_asked(out, word, row) {
            Ok(()) => {}
            Err(fault) => return Err(fault),
        }
    }
    Ok(())
}

/// Writes the line of a row, if a word is its name or number.
#[tactic(auto, using(palm_text::proofs::Parts::nothing))]
fn put_asked<V: Write>(
    out: &mut Counted<V>,
    word: &[u8],
    row: &Explanation,
) -> Result<(), WriteFault>
    ensures { Writes V.contents out.old out.new (words.line_if_asked word.now (words.row_read row.now)) (is_ok result) }
{
    if is_asked(word, row) {
        put_row(out, row)
    } else {
        Ok(())
    }
}

/// Writes the line of a row.
#[tactic(auto, using(palm_text::proofs::Parts::then, palm_text::proofs::Parts::stops))]
fn put_row<V: Write>(out: &mut Counted<V>, row: &Explanation) -> Result<(), WriteFault>
    ensures { Writes V.contents out.old out.new (words.explained_line (words.row_read row.now)) (is_ok result) }
{
    put_number(out, row.0.number())?;
    put_pieces(
        out,
        &[
            Piece::Text(row.0.name().as_bytes()),
            Piece::Text(row.1.0.as_bytes()),
            Piece::Text(topic_text(row.0)),
            Piece::Text(row.1.1.as_bytes()),
            Piece::Text(b".\n"),
        ],
    )
}

/// Writes the number of a refusal and a space.
#[tactic(auto, using(palm_text::proofs::Parts::nothing))]
fn put_number<V: Write>(out: &mut Counted<V>, number: Option<u8>) -> Result<(), WriteFault>
    ensures { Writes V.contents out.old out.new (words.number_text number) (is_ok result) }
{
    match number {
        Some(number) => put_pieces(out, &[Piece::Number(number as u32), Piece::Text(b" ")]),
        None => Ok(()),
    }
}

/// Returns the text after the name, which says what has it.
fn topic_text(subject: Subject) -> &'static [u8]
    ensures { result.now ≡ subjects.topic_text subject }
{
    match subject {
        Subject::Heap(_) => b", a fault of an image: ",
        Subject::Databases(_) => b", a fault of the databases of an image: ",
        Subject::File(_) => b", a fault of a PDB or PRC file: ",
        Subject::Line(_) => b", a fault of a line: ",
        Subject::Blank(_) => b", a fault of 'new' and 'import': ",
        Subject::Output(_) =>
            b", a fault of 'migrate', 'pack', 'put', 'canonical --keep' and 'import': ",
        Subject::EmptyPart => b", a fault of 'put': ",
        Subject::Change(_) => b", a change in a rewritten file: ",
        Subject::Call(_) => b", a refusal: ",
    }
}

/// Returns whether a word is the name or number of a row of some sections.
#[tactic(auto, using(crate::proofs::Rows::among_at))]
fn is_among_sections(word: &[u8], sections: &[Section]) -> bool
    ensures { result ≡ words.is_among word.now (rows_of_sections sections.now) }
{
    for section in sections {
        if is_among(word, rows_of(*section)) {
            return true;
        }
    }
    false
}

/// Returns whether a word is the name or number of one of some rows.
#[tactic(auto, using(crate::proofs::Rows::among_row))]
fn is_among(word: &[u8], rows: &[Explanation]) -> bool
    ensures { result ≡ words.is_among word.now (words.rows_read rows.now) }
{
    for row in rows {
        if is_asked(word, row) {
            return true;
        }
    }
    false
}

/// Returns whether a word is the name or number of a row. The case of letters doesn't matter.
fn is_asked(word: &[u8], row: &Explanation) -> bool
    ensures { result ≡ words.is_asked word.now (words.row_read row.now) }
{
    is_name(row.0.name(), word) || is_number(row.0.number(), word)
}

/// Returns whether a word is a name. The case of letters doesn't matter.
fn is_name(name: &str, word: &[u8]) -> bool
    ensures { result ≡ str_eq_ignore_ascii_case name.now word.now }
{
    name.as_bytes().eq_ignore_ascii_case(word)
}

/// Returns whether a word is the number of a refusal, in decimal.
fn is_number(number: Option<u8>, word: &[u8]) -> bool
    ensures { result ≡ words.is_number number word.now }
{
    match number {
        Some(number) => {
            let mut digits = Buffer::new();
            digits.format(number).as_bytes() == word
        }
        None => false,
    }
}
