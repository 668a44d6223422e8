//! Words, and what `explain` prints of them.

use canonical_file::{Changes, put_changes};
use explanations::explain_word;
use palm_text::Counted;
use program_io::Status;
use std::alloc::Global;
use std::str;
use std::test::*;
use test_support::{Narrow, WhenFull, equal, holds};

/// Checks what a word means, and the status.
pub(crate) fn check(alloc: Global, word: &str, status: Status, lines: &str) -> Result<(), Fail> {
    let mut out = Counted::new(Vec::new(alloc));
    let found = explain_word(word.as_bytes(), &mut out);
    let text = out.into_inner();
    equal(word, found, status)?;
    equal(word, str::from_utf8(&text)?, lines)
}

/// Words, and the lines for them: a fault with a number, the number of a refusal and its name, a
/// name of two faults, the changes, and a name in capitals.
static MEANINGS: [(&str, &str); 12] = [
    (
        "BadChunk",
        "BadChunk o, a fault of an image: the first chunk out of shape is at the offset o.\n",
    ),
    (
        "9",
        "9 OutOfBounds, a refusal: the range ends after the chunk's last byte. For strcopy the zero byte counts.\n",
    ),
    (
        "OutOfBounds",
        "9 OutOfBounds, a refusal: the range ends after the chunk's last byte. For strcopy the zero byte counts.\n",
    ),
    (
        "BadSize",
        "BadSize, a fault of an image: the size field isn't the length, or isn't a multiple of 8 from 64 to 16777208.\n\
        BadSize, a fault of 'new' and 'import': SIZE isn't a multiple of 8 from 64 to 16777208.\n",
    ),
    (
        "BadId",
        "BadId d e, a fault of the databases of an image: the unique ID of the record e of the database d, both from 0, \
        is 0, or that of an earlier record of its database.\n",
    ),
    (
        "EmptyName",
        "EmptyName, a fault of a PDB or PRC file: the first byte is zero.\n",
    ),
    (
        "busy",
        "busy, a change in a rewritten file: a record has the busy bit, 0x20. It is cleared.\n",
    ),
    (
        "filler",
        "filler, a change in a rewritten file: other bytes than two zeros come after the entries, up to the first block or \
        the end of a file without blocks. They become two zeros.\n",
    ),
    (
        "ids",
        "ids, a change in a rewritten file: a record has the ID 0, or an earlier record's. It gets a fresh ID, and the seed \
        moves with it.\n",
    ),
    (
        "name",
        "name, a change in a rewritten file: a byte other than zero comes after the name, in its field of 32 bytes. It \
        becomes zero.\n",
    ),
    (
        "order",
        "order, a change in a rewritten file: two blocks aren't in list order: AppInfo, SortInfo, data. All are put in it.\n",
    ),
    (
        "BADCHUNK",
        "BadChunk o, a fault of an image: the first chunk out of shape is at the offset o.\n",
    ),
];

#[test]
fn words_are_explained(rt: HostRuntime) -> Result<(), Fail> {
    for (word, lines) in &MEANINGS {
        check(rt.alloc(), word, Status::Done, lines)?;
    }
    Ok(())
}

/// Checks that a word is explained as a change.
fn check_change(alloc: Global, word: &str) -> Result<(), Fail> {
    let mut out = Counted::new(Vec::new(alloc));
    equal(word, explain_word(word.as_bytes(), &mut out), Status::Done)?;
    let front = format!(in alloc; "{word}, a change in a rewritten file: ")?;
    let text = out.into_inner();
    holds(word, text.starts_with(front.as_bytes()))
}

/// The words of the line for all changes.
#[test]
fn words_of_changes_are_explained(rt: HostRuntime) -> Result<(), Fail> {
    let all = Changes {
        busy: true,
        filler: true,
        ids: true,
        name: true,
        order: true,
    };
    let mut out = Counted::new(Vec::new(rt.alloc()));
    holds("put_changes", put_changes(&mut out, all).is_ok())?;
    let line = out.into_inner();
    for word in str::from_utf8(&line)?.split_ascii_whitespace() {
        if word != "changes" {
            check_change(rt.alloc(), word)?;
        }
    }
    Ok(())
}

/// The lines of a word are written up to the room of the writer.
fn check_cut(alloc: Global, word: &str, lines: &str, room: usize) -> Result<(), Fail> {
    let narrow = Narrow::new(alloc, room, 9, WhenFull::TakesNothing);
    let mut out = Counted::new(narrow);
    equal(
        word,
        explain_word(word.as_bytes(), &mut out),
        Status::WriteFault,
    )?;
    let narrow = out.into_inner();
    holds(word, narrow.is_cut_at(room))?;
    holds(word, lines.as_bytes().starts_with(&narrow.taken))
}

#[test]
fn meanings_are_cut(rt: HostRuntime) -> Result<(), Fail> {
    let (word, lines) = MEANINGS[3];
    for room in 0..lines.len() {
        check_cut(rt.alloc(), word, lines, room)?;
    }
    Ok(())
}

/// Words that are no name and no number: parts of names, more than a name, and numbers that no
/// refusal has.
static UNKNOWN: [&str; 10] = [
    "",
    "Bad",
    "BadChunks",
    "BadChunk 48",
    "0",
    "28",
    "09",
    "+9",
    "0x9",
    "-",
];

#[test]
fn other_words_are_unknown(rt: HostRuntime) -> Result<(), Fail> {
    for word in &UNKNOWN {
        check(rt.alloc(), word, Status::BadWords, "")?;
    }
    Ok(())
}
