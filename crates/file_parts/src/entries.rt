//! The lines of the entries.

ghost use Rattle.std.specs.Prelude.{◌≡◌, ◌≢◌, ◌≤◌, true, false, Ok, Err, [], length, All, IfOk, IfErr, OnOk, List, ℕ, Option};
ghost use Rattle.heap_model.specs.Database.{Entry};
ghost use Rattle.file_parts.specs.Listed.{IsGoodEntry, entries_listed, entry_listed};
ghost use Rattle.file_parts.specs.Reading as reading;
ghost use Rattle.file_parts.specs.Words as words;
ghost use Rattle.script_lines.specs.Reading.{words_in};
ghost use Rattle.script_lines.specs.Words.{words_of};

use crate::lines::Lines;
use crate::part_file::PartFile;
use crate::words::{WordsLeft, first_word, id_of, part_unless, words_behind};
use allowance::{Allowance, push};
use db_format::{DbEntry, RecordAttrs, RecordEntry, ResourceEntry};
use script_lines::{LineFault, NO_MEMORY_FAULT, ScriptFault, four_bytes_of, hex_byte_of, short_of};

/// The greatest number of entries of a database.
pub(crate) const MOST_LISTED_ENTRIES: usize = 65_535;

/// An entry, and the part with its data.
#[derive(Drop)]
pub(crate) struct ListedEntry<'a> {
    pub(crate) entry: DbEntry,
    pub(crate) part: Option<PartFile<'a>>,
}

/// Returns a value, or the fault of the word with this number if there is no value.
fn good_word<T: Drop>(value: Option<T>, number: usize) -> Result<T, ScriptFault>
    ensures { words.IsGoodWord number value result }
{
    match value {
        Some(value) => Ok(value),
        None => Err(ScriptFault::BadWord(number)),
    }
}

/// Returns the record that three words spell.
fn record_of<'a>(
    attributes: &[u8],
    id: &[u8],
    part: &'a [u8],
) -> Result<ListedEntry<'a>, ScriptFault>
    ensures ok { IfOk result (λ entry.
        words.record_of_words attributes.now id.now part.now ≡ Ok (entry_listed entry)) }
    ensures good { IfOk result (λ entry. IsGoodEntry false entry) }
    ensures err { IfErr result (λ fault.
        (words.record_of_words attributes.now id.now part.now ≡ Err fault)
        × (fault ≢ ScriptFault.OutOfMemory)) }
{
    let attributes = RecordAttrs(good_word(hex_byte_of(attributes), 2)?);
    let id = good_word(id_of(id), 3)?;
    let part = good_word(part_unless(attributes.is_deleted(), part), 4)?;
    Ok(ListedEntry {
        entry: DbEntry::Record(RecordEntry {
            attributes,
            id,
            slot: 0,
        }),
        part,
    })
}

/// Returns the resource that three words spell.
fn resource_of<'a>(kind: &[u8], id: &[u8], part: &'a [u8]) -> Result<ListedEntry<'a>, ScriptFault>
    ensures ok { IfOk result (λ entry.
        words.resource_of_words kind.now id.now part.now ≡ Ok (entry_listed entry)) }
    ensures good { IfOk result (λ entry. IsGoodEntry true entry) }
    ensures err { IfErr result (λ fault.
        (words.resource_of_words kind.now id.now part.now ≡ Err fault)
        × (fault ≢ ScriptFault.OutOfMemory)) }
{
    let kind = good_word(four_bytes_of(kind), 2)?;
    let id = good_word(short_of(id), 3)?;
    let part = good_word(part_unless(false, part), 4)?;
    Ok(ListedEntry {
        entry: DbEntry::Resource(ResourceEntry { kind, id, slot: 0 }),
        part,
    })
}

/// Returns the entry that the words after the first one spell.
fn entry_of<'a>(resources: bool, left: WordsLeft<'a>) -> Result<ListedEntry<'a>, ScriptFault>
    requires whole { words_of left.text.now ≡ Ok (words_in left.text.now) }
    requires count { left.count ≡ length (words_in left.text.now) }
    ensures ok { IfOk result (λ entry.
        words.three_words resources (words_in left.entry.text.now) ≡ Ok (entry_listed entry)) }
    ensures good { IfOk result (λ entry. IsGoodEntry resources entry) }
    ensures err { IfErr result (λ fault.
        (words.three_words resources (words_in left.entry.text.now) ≡ Err fault)
        × (fault ≢ ScriptFault.OutOfMemory)) }
{
    if left.count != 3 {
        return Err(ScriptFault::WrongCount);
    }
    let mut text = left.text;
    let first = first_word(&mut text);
    let second = first_word(&mut text);
    let third = first_word(&mut text);
    if resources {
        resource_of(first, second, third)
    } else {
        record_of(first, second, third)
    }
}

/// Returns the entry of a line that isn't skipped, after `count` other entries.
fn read_entry<'a>(
    resources: bool,
    count: usize,
    line: &'a [u8],
) -> Result<ListedEntry<'a>, ScriptFault>
    ensures ok { IfOk result (λ entry. (front : List (Entry (Option (List ℕ)))) → length front ≡ count
        → reading.one_more resources front line.now ≡ Ok (entry_listed entry)) }
    ensures few { OnOk result (count ≢ 65535) }
    ensures good { IfOk result (λ entry. IsGoodEntry resources entry) }
    ensures err { IfErr result (λ fault. (front : List (Entry (Option (List ℕ)))) → length front ≡ count
        → reading.one_more resources front line.now ≡ Err fault) }
    ensures takes_no_memory { IfErr result (λ fault. fault ≢ ScriptFault.OutOfMemory) }
{
    if count == MOST_LISTED_ENTRIES {
        return Err(ScriptFault::BadWord(1));
    }
    let word: &[u8] = if resources { b"resource" } else { b"record" };
    let left = words_behind(line, word)?;
    entry_of(resources, left)
}

/// Reads the lines of the entries, up to the end of the text.
pub(crate) fn read_entries<'a, A: Allowance>(
    memory: &A,
    resources: bool,
    lines: &mut Lines<'a>,
) -> Result<Vec<ListedEntry<'a>>, LineFault>
    ensures ok { IfOk result (λ entries.
        reading.read_entries resources [] lines.old.number lines.old.texts
        ≡ Ok (entries_listed entries.items)) }
    ensures few { IfOk result (λ entries. length entries.items ≤ 65535) }
    ensures good { IfOk result (λ entries. All (IsGoodEntry resources) entries.items) }
    ensures err { IfErr result (λ fault. fault.fault ≢ ScriptFault.OutOfMemory
        → reading.read_entries resources [] lines.old.number lines.old.texts ≡ Err fault) }
    ensures no_memory { IfErr result (λ fault. fault.fault ≡ ScriptFault.OutOfMemory
        → A.is_short memory.now) }
{
    let mut entries = Vec::new(memory.allocator());
    loop {
        let line = match lines.next() {
            Some(line) => line,
            None => return Ok(entries),
        };
        let entry = match read_entry(resources, entries.as_slice().len(), line) {
            Ok(entry) => entry,
            Err(fault) => return Err(lines.fault(fault)),
        };
        match push(memory, &mut entries, entry) {
            Ok(()) => {}
            Err(_) => return Err(NO_MEMORY_FAULT),
        }
    }
}
