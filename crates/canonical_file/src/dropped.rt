//! The bytes that a rewrite drops.

ghost use Rattle.std.specs.Prelude.{◌≡◌, count_by, length};
ghost use Rattle.heap_model.specs.Files.{HasNoFault};
ghost use Rattle.canonical_file.specs.Dropped as words;
ghost use Rattle.canonical_file.specs.Dropped.{IsDroppedFiller, after_name};

use db_format::NAME_SIZE;
use pdb_format::{FileBytes, filler_size, has_filler, name_in};

/// Returns how many bytes of no block a rewrite of a file drops: those between the entries and the
/// first block, unless they are exactly two zeros.
pub fn dropped_filler<B: FileBytes>(file: &B) -> usize
    requires { HasNoFault (B.bytes file.now) }
    ensures { IsDroppedFiller (B.bytes file.now) result }
{
    if has_filler(file) {
        0
    } else {
        filler_size(file)
    }
}

/// Returns how many bytes that aren't zero a rewrite of a file drops from the field of the name,
/// after the name.
#[tactic(auto, using(pdb_format::proofs::FileNames::name_short))]
pub fn dropped_name<B: FileBytes>(file: &B) -> usize
    requires { HasNoFault (B.bytes file.now) }
    ensures { result ≡ count_by words.is_set (after_name (B.bytes file.now)) }
{
    let length = name_in(file).len();
    count_set(&file.start()[length..NAME_SIZE])
}

/// Returns how many bytes aren't zero.
#[tactic(auto, using(std::proofs::lemmas::List::Sums::count_by_more_yes, std::proofs::lemmas::List::Sums::count_by_more_no))]
fn count_set(bytes: &[u8]) -> usize
    ensures { result ≡ count_by words.is_set bytes.now }
{
    let mut count = 0;
    for byte in bytes {
        if *byte != 0 {
            count += 1;
        }
    }
    count
}
