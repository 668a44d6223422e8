//! The bytes between the entries and the first block.

ghost use Rattle.std.specs.Prelude.{◌≡◌, ◌<◌, ◌≤◌, ◌+◌, ◌∷◌, ◌↔◌, ℕ, List, length, filter, min, nat_lt, take, drop, IsTrue};
ghost use Rattle.std.specs.List.{fold};
ghost use Rattle.heap_model.specs.Files as files;
ghost use Rattle.heap_model.specs.Files.{HasNoFault};
ghost use Rattle.pdb_format.specs.Filler as words;

use crate::file_bytes::FileBytes;
use crate::heads::entries_end;
use crate::starts::{offset_of, rank_count};
use db_format::entry_offset;

/// The bytes that are written between the entries and the first block.
pub const FILLER: [u8; 2] = [0, 0];

/// Returns the offset of the first block in a file that is written: after the entries and the
/// filler.
pub fn first_place_after(resources: bool, count: u16) -> u32
    ensures { result ≡ words.first_place_after resources count }
{
    (entry_offset(resources, count) + FILLER.len()) as u32
}

/// Returns the lesser of two offsets. The second one is ignored if it is 0.
fn lesser(first: usize, at: usize) -> usize
    ensures { (rest : List ℕ) → fold min first (filter (nat_lt 0) (at ∷ rest))
        ≡ fold min result (filter (nat_lt 0) rest) }
{
    if at != 0 && at < first { at } else { first }
}

/// Returns the offset of the first block. If there is none, returns the size of the file.
fn first_start<B: FileBytes>(file: &B) -> usize
    requires { HasNoFault (B.bytes file.now) }
    ensures is { result ≡ words.first_start (B.bytes file.now) }
    ensures after { files.entries_end (B.bytes file.now) ≤ result }
    ensures inside { result ≤ length (B.bytes file.now) }
{
    let mut first = file.size();
    for rank in 0..rank_count(file) {
        first = lesser(first, offset_of(file, rank) as usize);
    }
    first
}

/// Returns the number of bytes between the entries and the first block of a file, or up to the end
/// of the file if there is none.
pub fn filler_size<B: FileBytes>(file: &B) -> usize
    requires { HasNoFault (B.bytes file.now) }
    ensures { result ≡ length (words.filler_in (B.bytes file.now)) }
{
    first_start(file) - entries_end(file)
}

/// Returns whether the bytes between the entries and the first block are those of `FILLER`.
pub fn has_filler<B: FileBytes>(file: &B) -> bool
    requires { HasNoFault (B.bytes file.now) }
    ensures { IsTrue result ↔ (words.filler_in (B.bytes file.now) ≡ words.written_filler) }
{
    filler_size(file) == FILLER.len() && after_entries(file) == FILLER.as_slice()
}

/// Returns the two bytes after the entries.
fn after_entries<B: FileBytes>(file: &B) -> &[u8]
    requires whole { files.entries_end (B.bytes file.now) + 2 ≤ length (B.bytes file.now) }
    ensures { result.now ≡ take 2 (drop (files.entries_end (B.bytes file.now)) (B.bytes file.now)) }
{
    let end = entries_end(file);
    let start = file.start();
    &start[end..end + FILLER.len()]
}

/// Returns the bytes between the entries and the first block of a file, or up to the end of the
/// file if there is none. It allocates nothing.
pub(crate) fn filler_of(file: &[u8]) -> &[u8]
    requires { HasNoFault file.now }
    ensures { result.now ≡ words.filler_in file.now }
{
    &file[entries_end(&file)..first_start(&file)]
}
