//! The commands `get` and `put`, over files.

ghost use Rattle.std.specs.Prelude.{◌≡◌, ◌≢◌, ◌≤◌, ◌↔◌, length, option_map, None};
ghost use Rattle.file_commands.specs.WantedBlocks.{spelled_block};

use crate::block_words::{WantedBlock, wanted_block};
use crate::comments::comment_on_file;
use crate::file_rewrites::{NewFile, write_to};
use crate::get_command::cmd_get_from;
use crate::put_command::NewBlock;
use crate::wanted::find_block;
use canonical_file::MOST_BYTES;
use command_files::{STANDARD_ERROR, STANDARD_OUTPUT, input_name, read_file_or_input_within};
use heap_model::Refusal;
use palm_text::Counted;
use pdb_format::{MOST_FILE_BYTES, PdbFile};
use program_io::{ErrorOutput, Noted, Status, report_outcome};
use std::io;
use std::io::Input;
use std::rt::Files;

/// Runs `get`. The path `-` means standard input. Standard output has the block, so all lines go to
/// standard error. If the words ask for no block, it reports that there.
pub fn get<R: Files + Input + Print + Eprint + AllocGlobal>(
    rt: &R,
    path: &str,
    word: &str,
    id: Option<&str>,
) -> Status
    ensures { (result ≡ Status.BadWords)
        ↔ (spelled_block word.now (option_map (λ id. id.now) id.entry) ≡ None) }
{
    let Some(wanted) = block_of_words(word, id) else {
        return refuse_words(rt, word, id);
    };
    let file = match read_file_or_input_within(rt, path, MOST_FILE_BYTES) {
        Ok(file) => file,
        Err(status) => return status,
    };
    let status = get_block(rt, file.as_slice(), wanted);
    comment_on_file(rt, path, status, &file.as_slice());
    if status == Status::Refused {
        comment_on_block(rt, path, file.as_slice(), wanted);
    }
    status
}

/// Runs `put`. The path `-` means standard input. The output path `-` means standard output, and then
/// the reply goes to standard error. If the word asks for no block, it reports that there.
pub fn put<R: Files + Input + Print + Eprint + AllocGlobal>(
    rt: &R,
    path: &str,
    word: &str,
    part_path: &str,
    out_path: &str,
) -> Status
    ensures { (result ≡ Status.BadWords) ↔ (spelled_block word.now None ≡ None) }
{
    let Some(wanted) = wanted_block(word.as_bytes(), None) else {
        let _ = eprintln!(rt;
            "error: '{word}' is no block: it is the index of an entry, 'app' or 'sort'"
        );
        return Status::BadWords;
    };
    let file = match read_file_or_input_within(rt, path, MOST_BYTES) {
        Ok(file) => file,
        Err(status) => return status,
    };
    let part = match read_file_or_input_within(rt, part_path, MOST_BYTES) {
        Ok(part) => part,
        Err(status) => return status,
    };
    let bytes = part.as_slice();
    let status = write_to(
        rt,
        file.as_slice(),
        NewFile::Put(NewBlock { wanted, bytes }),
        out_path,
    );
    comment_on_file(rt, path, status, &file.as_slice());
    if status == Status::Refused {
        comment_on_block(rt, path, file.as_slice(), wanted);
    }
    status
}

/// Returns the block that words ask for.
fn block_of_words(word: &str, id: Option<&str>) -> Option<WantedBlock>
    ensures { result ≡ spelled_block word.now (option_map (λ id. id.now) id.entry) }
{
    match id {
        Some(id) => wanted_block(word.as_bytes(), Some(id.as_bytes())),
        None => wanted_block(word.as_bytes(), None),
    }
}

/// Writes a block of a file to standard output, and lines to standard error.
fn get_block<R: Print + Eprint + AllocGlobal>(rt: &R, file: &[u8], wanted: WantedBlock) -> Status
    requires { length file.now ≤ MOST_FILE_BYTES }
    ensures { result ≢ Status.BadWords }
{
    let mut block_out = Counted::new(Noted::new(io::writer(rt)));
    let mut out = Counted::new(Noted::new(ErrorOutput::new(rt)));
    let status = cmd_get_from(&rt.alloc(), file, wanted, &mut block_out, &mut out);
    let (_, block_fault) = block_out.into_inner().into_parts();
    let (_, fault) = out.into_inner().into_parts();
    report_outcome(
        rt,
        status,
        &[(STANDARD_OUTPUT, block_fault), (STANDARD_ERROR, fault)],
    );
    status
}

/// Reports on standard error that words ask for no block.
fn refuse_words<R: Eprint>(rt: &R, word: &str, id: Option<&str>) -> Status
    ensures { result ≡ Status.BadWords }
{
    let (space, id) = match id {
        Some(id) => (" ", id),
        None => ("", ""),
    };
    let _ = eprintln!(rt;
        "error: '{word}{space}{id}' is no block: it is the index of an entry, 'app', 'sort', or the type and the id of a resource"
    );
    Status::BadWords
}

/// Reports on standard error why a file without fault doesn't have a block.
fn comment_on_block<R: Eprint + AllocGlobal>(rt: &R, path: &str, file: &[u8], wanted: WantedBlock) {
    let Ok(file) = PdbFile::open(&rt.alloc(), file) else {
        return;
    };
    let Err(refusal) = find_block(&file, wanted) else {
        return;
    };
    let name = input_name(path);
    let _ = match refusal {
        Refusal::IndexOutOfRange => {
            eprintln!(rt;
                "{name}: it has {} entries, the first is 0",
                file.entry_count()
            )
        }
        Refusal::RecordDeleted => eprintln!(rt; "{name}: the record is deleted, and has no data"),
        Refusal::NoInfoBlock => eprintln!(rt; "{name}: it has no such info block"),
        Refusal::NotResourceDatabase => {
            eprintln!(rt; "{name}: it has records: ask for one by its index")
        }
        _ => eprintln!(rt; "{name}: no resource has this type and this id"),
    };
}
