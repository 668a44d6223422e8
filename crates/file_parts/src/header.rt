//! The lines of the header.

ghost use Rattle.std.specs.Prelude.{◌≡◌, ◌≢◌, ◌^◌, codes, Ok, Err, IfOk, IfErr};
ghost use Rattle.script_lines.specs.Spellings.{hex_below, number_below, spelled_four};
ghost use Rattle.file_parts.specs.Reading as reading;
ghost use Rattle.file_parts.specs.Reading.{Gives, field, number};
ghost use Rattle.file_parts.specs.Words.{spelled_name, spelled_part};

use crate::lines::Lines;
use crate::part_file::PartFile;
use crate::words::{database_name_of, first_word, part_of, words_behind};
use db_format::NameField;
use script_lines::{
    LineFault, ScriptFault, four_bytes_of, hex_of, hex_short_of, number_of, short_of,
};

/// The name, the attributes and the version of a database.
#[derive(Clone, Copy)]
pub(crate) struct Title {
    pub(crate) name: NameField,
    pub(crate) attributes: u16,
    pub(crate) version: u16,
}

/// The dates at which a database was created, modified and backed up, and its modification number.
#[derive(Clone, Copy)]
pub(crate) struct Counts {
    pub(crate) created: u32,
    pub(crate) modified: u32,
    pub(crate) backup: u32,
    pub(crate) number: u32,
}

/// The type and the creator of a database, and its seed.
#[derive(Clone, Copy)]
pub(crate) struct Kinds {
    pub(crate) kind: u32,
    pub(crate) creator: u32,
    pub(crate) seed: u32,
}

/// The parts of the info blocks.
#[derive(Drop)]
pub(crate) struct Infos<'a> {
    pub(crate) app: Option<PartFile<'a>>,
    pub(crate) sort: Option<PartFile<'a>>,
}

/// The values of the lines of the header.
#[derive(Drop)]
pub(crate) struct Head<'a> {
    pub(crate) title: Title,
    pub(crate) counts: Counts,
    pub(crate) kinds: Kinds,
    pub(crate) infos: Infos<'a>,
}

/// Reads the second and last word of the next line, which has to begin with `word`.
fn read_word<'a>(lines: &mut Lines<'a>, word: &[u8]) -> Result<&'a [u8], LineFault>
    ensures ok { IfOk result (λ value.
        reading.one_word word.now lines.old ≡ Ok (value.now, lines.new)) }
    ensures err { IfErr result (λ fault. (reading.one_word word.now lines.old ≡ Err fault)
        × (fault.fault ≢ ScriptFault.OutOfMemory)) }
{
    let Some(line) = lines.next() else {
        return Err(lines.missing());
    };
    let mut rest = match words_behind(line, word) {
        Ok(rest) => rest,
        Err(fault) => return Err(lines.fault(fault)),
    };
    if rest.count != 1 {
        return Err(lines.fault(ScriptFault::WrongCount));
    }
    Ok(first_word(&mut rest.text))
}

/// Returns a value, or the fault of the second word of the last line if there is no value.
fn good<T: Drop>(lines: &Lines<'_>, value: Option<T>) -> Result<T, LineFault>
    ensures { reading.IsGood lines.now value result }
{
    match value {
        Some(value) => Ok(value),
        None => Err(lines.fault(ScriptFault::BadWord(2))),
    }
}

/// Reads the line of the name.
fn read_name(lines: &mut Lines<'_>) -> Result<NameField, LineFault>
    ensures { Gives (field (codes "name") spelled_name lines.old) result lines.new }
{
    let word = read_word(lines, b"name")?;
    good(lines, database_name_of(word))
}

/// Reads a line with a number of four hex digits.
fn read_hex_short(lines: &mut Lines<'_>, word: &[u8]) -> Result<u16, LineFault>
    ensures { Gives (field word.now (hex_below (2 ^ 16)) lines.old) result lines.new }
{
    let word = read_word(lines, word)?;
    good(lines, hex_short_of(word))
}

/// Reads a line with a number of eight hex digits.
fn read_hex(lines: &mut Lines<'_>, word: &[u8]) -> Result<u32, LineFault>
    ensures { Gives (field word.now (hex_below (2 ^ 32)) lines.old) result lines.new }
{
    let word = read_word(lines, word)?;
    good(lines, hex_of(word))
}

/// Reads a line with a number below 2^16.
fn read_short(lines: &mut Lines<'_>, word: &[u8]) -> Result<u16, LineFault>
    ensures { Gives (field word.now (number_below (2 ^ 16)) lines.old) result lines.new }
{
    let word = read_word(lines, word)?;
    good(lines, short_of(word))
}

/// Reads a line with a number.
fn read_number(lines: &mut Lines<'_>, word: &[u8]) -> Result<u32, LineFault>
    ensures { Gives (field word.now number lines.old) result lines.new }
{
    let word = read_word(lines, word)?;
    good(lines, number_of(word))
}

/// Reads a line with four bytes.
fn read_four(lines: &mut Lines<'_>, word: &[u8]) -> Result<u32, LineFault>
    ensures { Gives (field word.now spelled_four lines.old) result lines.new }
{
    let word = read_word(lines, word)?;
    good(lines, four_bytes_of(word))
}

/// Reads a line with the part of an info block.
pub(crate) fn read_part<'a>(
    lines: &mut Lines<'a>,
    word: &[u8],
) -> Result<Option<PartFile<'a>>, LineFault>
    ensures { Gives (field word.now spelled_part lines.old) result lines.new }
{
    let word = read_word(lines, word)?;
    good(lines, part_of(word))
}

/// Reads the lines of the name, the attributes and the version.
fn read_title(lines: &mut Lines<'_>) -> Result<Title, LineFault>
    ensures { Gives (reading.read_title lines.old) result lines.new }
{
    Ok(Title {
        name: read_name(lines)?,
        attributes: read_hex_short(lines, b"attributes")?,
        version: read_short(lines, b"version")?,
    })
}

/// Reads the lines of the dates and of the modification number.
fn read_counts(lines: &mut Lines<'_>) -> Result<Counts, LineFault>
    ensures { Gives (reading.read_counts lines.old) result lines.new }
{
    Ok(Counts {
        created: read_number(lines, b"created")?,
        modified: read_number(lines, b"modified")?,
        backup: read_number(lines, b"backup")?,
        number: read_number(lines, b"number")?,
    })
}

/// Reads the lines of the type, the creator and the seed.
fn read_kinds(lines: &mut Lines<'_>) -> Result<Kinds, LineFault>
    ensures { Gives (reading.read_kinds lines.old) result lines.new }
{
    Ok(Kinds {
        kind: read_four(lines, b"type")?,
        creator: read_four(lines, b"creator")?,
        seed: read_hex(lines, b"seed")?,
    })
}

/// Reads the lines of the info blocks.
fn read_infos<'a>(lines: &mut Lines<'a>) -> Result<Infos<'a>, LineFault>
    ensures { Gives (reading.read_infos lines.old) result lines.new }
{
    Ok(Infos {
        app: read_part(lines, b"app")?,
        sort: read_part(lines, b"sort")?,
    })
}

/// Reads the lines of the header.
pub(crate) fn read_head<'a>(lines: &mut Lines<'a>) -> Result<Head<'a>, LineFault>
    ensures { Gives (reading.read_head lines.old) result lines.new }
{
    Ok(Head {
        title: read_title(lines)?,
        counts: read_counts(lines)?,
        kinds: read_kinds(lines)?,
        infos: read_infos(lines)?,
    })
}
