//! The command `export`, but for the folder: the files of databases, with their names.

ghost use Rattle.std.specs.Prelude.{[], ◌≡◌, ◌⊎◌, Err, IfOk, IfErr, OnOk, OnErr, IfSome, IfNone, MatchOption, Some, None, All, map, true, false};
ghost use Rattle.std.specs.List.{AllZip};
ghost use Rattle.unicode_text.specs.Windows1252 as characters;
ghost use Rattle.heap_model.specs.Store.{Accepted, database_under, names_of, store_of};
ghost use Rattle.palm_store.specs.Databases.{HasNumber};
ghost use Rattle.palm_text.specs.Output.{Puts, output};
ghost use Rattle.script_calls.specs.Lines.{refusal_line};
ghost use Rattle.store_commands.specs.Exports as words;
ghost use Rattle.store_commands.specs.Exports.{AreExported, IsFileNamed, IsMissing, IsNamedBy, NotExported, IsNotNamed, file_for};

use crate::file_names::file_name;
use crate::images::{count_of, file_of_database, info_of, nth_of, opened, say_refused};
use allowance::{Allowance, push};
use db_format::DbAttrs;
use heap_model::{Bytes, Db, DbName, Refusal};
use palm_store::Store;
use palm_text::Counted;
use program_io::Status;
use program_io::command_line::Form;
use raw_region::Region;
use std::alloc::AllocError;
use std::io::Write;
use unicode_text::character_of;

/// A file of a database: its name in a folder, in ASCII, and its bytes.
#[derive(Drop)]
pub struct ExportedFile {
    pub name: Bytes,
    pub bytes: Bytes,
}

/// How a command ended, and at which of the words that it was given, if it stopped there.
#[derive(Clone, Copy, Debug, PartialEq, Eq)]
pub struct Ended {
    pub status: Status,
    /// The index of the word, from 0 on.
    pub word: Option<usize>,
}

/// Returns the files of the databases of an image that words name, by their bytes or by their
/// characters in UTF-8, in that order, or of all databases if there is no word. If the image is refused, prints why. If a word names no
/// database, prints the reply line for that.
///
/// # Errors
///
/// `Refused` if the image has a fault, or a word names no database; `WriteFault`; `NoMemory`.
pub fn export_files<A: Allowance, V: Write>(
    memory: &A,
    region: Region,
    words: &[Bytes],
    out: &mut Counted<V>,
) -> Result<Vec<ExportedFile>, Ended>
    requires whole { region.lents ≡ [] }
    ensures accepted { OnOk result (Accepted region.bytes) }
    ensures files { IfOk result (λ files.
        AreExported (store_of region.bytes) words.now files.items) }
    ensures silent { OnOk result (out.new ≡ out.old) }
    ensures not { IfErr result (NotExported region.bytes words.now
        (output V.contents out.old out.new)) }
    ensures short { IfErr result (λ ended.
        ended.status ≡ Status.NoMemory → A.is_short memory.now) }
{
    let store = match opened(memory, region, Form::Text, out) {
        Ok(store) => store,
        Err(status) => return Err(Ended { status, word: None }),
    };
    if words.is_empty() {
        return match all_files(memory, &store) {
            Ok(files) => Ok(files),
            Err(_) => Err(ENDED_WITHOUT_MEMORY),
        };
    }
    match named_files(memory, &store, words) {
        Ok(files) => Ok(files),
        Err(NotNamed::OutOfMemory) => Err(ENDED_WITHOUT_MEMORY),
        Err(NotNamed::Missing(word)) => Err(say_missing(word, out)),
    }
}

/// An allocation failed.
const ENDED_WITHOUT_MEMORY: Ended = Ended {
    status: Status::NoMemory,
    word: None,
};

/// The file of a database. The only error is that an allocation failed.
fn file_of_number<A: Allowance>(
    memory: &A,
    store: &Store,
    db: Db,
) -> Result<ExportedFile, AllocError>
    requires whole { store.now.lents ≡ [] }
    requires there { HasNumber store.now.bytes db.0 }
    ensures file { IfOk result (λ file. file
        ≡ file_for (store_of store.now.bytes) (database_under store.now.bytes db.0)) }
    ensures short { OnErr result (A.is_short memory.now) }
{
    let info = info_of(store, db);
    let resources = DbAttrs(info.attributes).has_resources();
    let name = file_name(memory, info.name.as_slice(), resources)?;
    let bytes = file_of_database(memory, store, db)?;
    Ok(ExportedFile { name, bytes })
}

/// The files of all databases, in their order. The only error is that an allocation failed.
fn all_files<A: Allowance>(memory: &A, store: &Store) -> Result<Vec<ExportedFile>, AllocError>
    requires whole { store.now.lents ≡ [] }
    ensures files { IfOk result (λ files. files.items
        ≡ map (file_for (store_of store.now.bytes)) (store_of store.now.bytes).databases) }
    ensures short { OnErr result (A.is_short memory.now) }
{
    let mut files = Vec::new(memory.allocator());
    for index in 0..count_of(store) {
        let file = file_of_number(memory, store, nth_of(store, index))?;
        push(memory, &mut files, file)?;
    }
    Ok(files)
}

/// Why there are no files for some words.
#[derive(Clone, Copy)]
enum NotNamed {
    /// The word of this index names no database.
    Missing(usize),
    OutOfMemory,
}

/// Returns whether a word spells a name in UTF-8. The bytes of the name are characters in Windows-1252.
fn is_spelled(name: &[u8], word: &[u8]) -> bool
    ensures { result ≡ words.is_spelled name.now word.now }
{
    let mut rest = word;
    for byte in name {
        match after_character(*byte, rest) {
            Some(behind) => rest = behind,
            None => return false,
        }
    }
    rest.is_empty()
}

/// Returns the text after the character of a byte, if the text begins with it.
fn after_character(byte: u8, text: &[u8]) -> Option<&[u8]>
    ensures { MatchOption result
        (words.begins_with_character (characters.character_of byte) text.now ≡ false)
        (λ behind. (words.begins_with_character (characters.character_of byte) text.now ≡ true)
        × (behind.now ≡ words.after_character (characters.character_of byte) text.now)) }
{
    let character = character_of(byte)?;
    let mut buffer = [0; 4];
    text.strip_prefix(character.encode_utf8(&mut buffer).as_bytes())
}

/// Returns the number of the first database whose name a word spells in UTF-8.
#[tactic(auto, using(crate::proofs::Lines::all_more))]
fn spelled_number(store: &Store, word: &[u8]) -> Option<Db>
    ensures there { IfSome result (λ db. HasNumber store.now.bytes db.0) }
    ensures named { IfSome result (λ db.
        words.is_spelled (database_under store.now.bytes db.0).database.header.name word.now ≡ true) }
    ensures none { IfNone result (All (λ other. words.is_spelled other word.now ≡ false)
        (names_of (store_of store.now.bytes).databases)) }
{
    for index in 0..count_of(store) {
        let db = nth_of(store, index);
        if is_spelled(info_of(store, db).name.as_slice(), word) {
            return Some(db);
        }
    }
    None
}

/// The number of the database that a word names.
#[tactic(auto, using(crate::proofs::Lookups::name_there, crate::proofs::Lookups::name_is, crate::proofs::Lookups::name_missing))]
fn number_of(store: &Store, word: &[u8]) -> Option<Db>
    ensures there { IfSome result (λ db. HasNumber store.now.bytes db.0) }
    ensures named { IfSome result (λ db. IsNamedBy (store_of store.now.bytes) word.now
        (database_under store.now.bytes db.0).database.header.name) }
    ensures none { IfNone result (IsMissing (store_of store.now.bytes) word.now) }
{
    match store.find(&DbName::of(word)) {
        Ok(db) => Some(db),
        Err(_) => spelled_number(store, word),
    }
}

/// The files of the databases that words name, in that order.
fn named_files<A: Allowance>(
    memory: &A,
    store: &Store,
    words: &[Bytes],
) -> Result<Vec<ExportedFile>, NotNamed>
    requires whole { store.now.lents ≡ [] }
    ensures files { IfOk result (λ files.
        AllZip (IsFileNamed (store_of store.now.bytes)) words.now files.items) }
    ensures missing { IfErr result (IsNotNamed (store_of store.now.bytes) words.now) }
    ensures short { result ≡ Err NotNamed.OutOfMemory → A.is_short memory.now }
{
    let mut files = Vec::new(memory.allocator());
    for index in 0..words.len() {
        let Some(db) = number_of(store, words[index].as_slice()) else {
            return Err(NotNamed::Missing(index));
        };
        let Ok(file) = file_of_number(memory, store, db) else {
            return Err(NotNamed::OutOfMemory);
        };
        match push(memory, &mut files, file) {
            Ok(()) => {}
            Err(_) => return Err(NotNamed::OutOfMemory),
        }
    }
    Ok(files)
}

/// Prints the reply line for a word that names no database.
fn say_missing<V: Write>(word: usize, out: &mut Counted<V>) -> Ended
    ensures word { result.word ≡ Some word }
    ensures statuses { (result.status ≡ Status.Refused) ⊎ (result.status ≡ Status.WriteFault) }
    ensures said { result.status ≡ Status.Refused
        → Puts V.contents out.old out.new (refusal_line Refusal.NoSuchDatabase) true }
    ensures fault { result.status ≡ Status.WriteFault
        → Puts V.contents out.old out.new (refusal_line Refusal.NoSuchDatabase) false }
{
    Ended {
        status: say_refused(Refusal::NoSuchDatabase, out),
        word: Some(word),
    }
}
