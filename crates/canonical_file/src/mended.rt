//! The *mended file*: a file without fault that has the sound parts of a damaged file. After its
//! entries it has the bytes of the damaged file, so only its first bytes are made.

ghost use Rattle.std.specs.Prelude.{◌≡◌, ◌≤◌, ◌+◌, ◌++◌, ℕ, List, length, take, drop, vec_len, vec_capacity, IfOk, OnErr};
ghost use Rattle.std.specs.List.{flat_map};
ghost use Rattle.heap_model.specs.Bytes.{AreBytes};
ghost use Rattle.heap_model.specs.DatabaseFields.{header_size};
ghost use Rattle.heap_model.specs.Database.{IsDatabaseName, entry_bytes, name_in};
ghost use Rattle.db_format.specs.Headers.{IsHeaderOf};
ghost use Rattle.pdb_format.specs.FileStarts.{app_start};
ghost use Rattle.canonical_file.specs.Mended as words;
ghost use Rattle.canonical_file.specs.Mended.{StartsMended};
ghost use Rattle.canonical_file.specs.Salvage as salvage;
ghost use Rattle.canonical_file.specs.Salvage.{sound_in};

use crate::blocks::append;
use crate::sound::{is_sound_entry, sound_info, whole_entries};
use allowance::{Allowance, room_for};
use db_format::{DATABASE_HEADER_SIZE, DbEntry, DbHeader, NAME_SIZE, NameField, app_info, name_in};
use pdb_format::{FileStart, MOST_START, part_of};
use std::alloc::AllocError;

/// Returns the first bytes of the mended file, at most `MOST_START`: the header, the sound entries,
/// and the bytes of the file from there on. So each sound offset leads to the same bytes.
///
/// It allocates these bytes.
///
/// # Errors
///
/// - `AllocError`: if an allocation failed.
pub(crate) fn mended_start<A: Allowance>(memory: &A, file: &[u8]) -> Result<Vec<u8>, AllocError>
    requires { header_size ≤ length file.now }
    ensures is { IfOk result (λ start. StartsMended file.now start.items) }
    ensures short { OnErr result (A.is_short memory.now) }
{
    know_bytes(file);
    let size = file.len().min(MOST_START);
    let mut start = room_for(memory, size)?;
    append(&mut start, &sound_header(file).to_bytes());
    append_sound_entries(file, &mut start);
    let at = start.len();
    append(&mut start, &file[at..size]);
    Ok(start)
}

/// Returns the mended file by its first bytes. The others are those of the file.
pub(crate) fn mended_by<'a>(file: &'a [u8], start: &'a [u8]) -> FileStart<'a>
    ghost rest: { List ℕ }
    requires header { header_size ≤ length file.now }
    requires starts { StartsMended file.now start.now }
    requires rest { rest ≡ drop (length start.now) file.now }
    ensures { result ≡ words.mended file.now }
{
    know_bytes(file);
    know_bytes(start);
    FileStart::of(start, mended_app(file, start), file.len())
}

/// Returns the first bytes of the AppInfo of the mended file. They are those of the file at the same
/// offset. Without AppInfo the offset is 0, and they are its first bytes.
fn mended_app<'a>(file: &'a [u8], start: &'a [u8]) -> &'a [u8]
    requires header { header_size ≤ length file.now }
    requires starts { StartsMended file.now start.now }
    ensures { result.now ≡ app_start (words.mended file.now) }
{
    know_bytes(file);
    know_bytes(start);
    let at = app_info(start);
    if at == 0 {
        part_of(start, 0)
    } else {
        part_of(file, at as usize)
    }
}

/// Returns the header of the sound parts, with the number of the sound entries.
fn sound_header(file: &[u8]) -> DbHeader
    requires { header_size ≤ length file.now }
    ensures { IsHeaderOf (sound_in file.now) result }
{
    let mut header = DbHeader::read(&named_header(file));
    header.app_info = sound_info(file, header.app_info);
    header.sort_info = sound_info(file, header.sort_info);
    header.entry_count = count_sound_entries(file);
    header
}

/// Returns the bytes of the header, with a name.
fn named_header(file: &[u8]) -> [u8; DATABASE_HEADER_SIZE]
    requires { header_size ≤ length file.now }
    ensures is { result ≡ words.named_header file.now }
    ensures name { IsDatabaseName (name_in result) }
{
    let mut header = copied_header(file);
    header[..NAME_SIZE].copy_from_slice(&name_field_of(file).to_bytes());
    header
}

/// Returns a copy of the bytes of the header.
fn copied_header(file: &[u8]) -> [u8; DATABASE_HEADER_SIZE]
    requires { header_size ≤ length file.now }
    ensures { result ≡ take header_size file.now }
{
    let mut header = [0; DATABASE_HEADER_SIZE];
    header.copy_from_slice(&file[..DATABASE_HEADER_SIZE]);
    header
}

/// Returns the field of the name of the new database.
fn name_field_of(file: &[u8]) -> NameField
    requires { header_size ≤ length file.now }
    ensures { result ≡ salvage.sound_name (name_in file.now) }
{
    let Some(field) = NameField::of_name(sound_name(file)) else {
        unreachable!()
    };
    field
}

/// Returns the name of the new database.
#[tactic(auto, using(crate::proofs::SoundParts::name_stays, crate::proofs::SoundParts::name_new, crate::proofs::SoundParts::sound_named))]
fn sound_name(file: &[u8]) -> &[u8]
    requires { header_size ≤ length file.now }
    ensures is { result.now ≡ salvage.sound_name (name_in file.now) }
    ensures valid { IsDatabaseName result.now }
{
    let name = name_in(file);
    if name.is_empty() { b"Recovered" } else { name }
}

/// Returns the number of the sound entries.
fn count_sound_entries(file: &[u8]) -> u16
    requires { header_size ≤ length file.now }
    ensures { result ≡ length (sound_in file.now).entries }
{
    let mut count = 0;
    for index in 0..whole_entries(file) {
        if is_sound_entry(file, DbEntry::read(file, index)) {
            count += 1;
        }
    }
    count
}

/// Appends the sound entries to a vector that has room for them.
fn append_sound_entries(file: &[u8], bytes: &mut Vec<u8>)
    requires header { header_size ≤ length file.now }
    requires room { vec_len bytes.old + length (flat_map entry_bytes (sound_in file.now).entries)
        ≤ vec_capacity bytes.old }
    ensures items { bytes.new.items ≡ bytes.old.items
        ++ flat_map entry_bytes (sound_in file.now).entries }
    ensures len { vec_len bytes.new ≡ vec_len bytes.old
        + length (flat_map entry_bytes (sound_in file.now).entries) }
    ensures capacity { vec_capacity bytes.old ≤ vec_capacity bytes.new }
{
    for index in 0..whole_entries(file) {
        let entry = DbEntry::read(file, index);
        if is_sound_entry(file, entry) {
            append(bytes, entry.to_bytes().as_slice());
        }
    }
}

/// Proves that the numbers in a slice are bytes.
pub(crate) fn know_bytes(bytes: &[u8])
    ensures { AreBytes bytes.now }
{
    let _bytes = bytes;
}
