//! Salvaging of damaged PDB and PRC files. These functions keep no state between calls.

ghost use Rattle.std.specs.Prelude.{◌≡◌, ◌≤◌, length, count_by, IfOk, IfErr, OnOk};
ghost use Rattle.heap_model.specs.DatabaseFields.{header_size};
ghost use Rattle.canonical_file.specs.Canonical.{most_bytes};
ghost use Rattle.canonical_file.specs.Salvage.{Salvages, salvage_lines};
ghost use Rattle.palmheap_c.specs.Answers.{IsMemoryAnswer};
ghost use Rattle.palmheap_c.specs.Buffers.{buffer};
ghost use Rattle.palmheap_c.specs.Salvaging as words;

use crate::answers::{Answer, NO_MEMORY, TOO_LARGE, of_file};
use crate::buffers::{put_bytes, refused_write};
use canonical_file::{CanonicalFault, MOST_BYTES, SalvagedIds, put_salvage_lines, put_salvaged};
use db_format::DATABASE_HEADER_SIZE;
use heap_model::FileFault;
use palm_text::Counted;
use std::alloc::Global;

/// Writes the file that the command `salvage` writes for a damaged file into a buffer. If
/// `exact_ids` is true, each record has the ID that it has in the damaged file. Sets `count` to the
/// size of the new file in bytes, and `faults` to the number of lines that `palmheap_salvage_lines`
/// writes, both also if the buffer is too short.
#[unsafe(no_mangle)]
pub extern "C" fn palmheap_salvage(
    alloc: Global,
    file: &[u8],
    exact_ids: bool,
    salvaged: &mut [u8],
    count: &mut usize,
    faults: &mut usize,
) -> Answer
    ensures { words.IsSalvageAnswer exact_ids file.now
        (words.salvage_outputs salvaged.old count.old faults.old)
        (words.salvage_outputs salvaged.new count.new faults.new) result }
{
    let bytes = match salvaged_of(alloc, file, rule_of(exact_ids)) {
        Ok(bytes) => bytes,
        Err(answer) => return answer,
    };
    let lines = match lines_of(alloc, file) {
        Ok(lines) => lines,
        Err(answer) => return answer,
    };
    *faults = line_count(&lines);
    put_bytes(&bytes, salvaged, count)
}

/// Writes a line for each fault of a file into a buffer: the lines that the command `salvage` prints
/// after the size of the new file. Sets `count` to their size in bytes, also if the buffer is too
/// short for them.
#[tactic(auto, using(pdb_format::proofs::FaultLaws::truncated_first))]
#[unsafe(no_mangle)]
pub extern "C" fn palmheap_salvage_lines(
    alloc: Global,
    file: &[u8],
    text: &mut [u8],
    count: &mut usize,
) -> Answer
    ensures { words.IsLinesAnswer file.now (buffer text.old count.old) (buffer text.new count.new)
        result }
{
    if file.len() > MOST_BYTES {
        return TOO_LARGE;
    }
    if file.len() < DATABASE_HEADER_SIZE {
        return of_file(FileFault::Truncated);
    }
    match lines_of(alloc, file) {
        Ok(lines) => put_bytes(&lines, text, count),
        Err(answer) => answer,
    }
}

/// Returns the rule for the IDs of the records of a salvaged file.
fn rule_of(exact_ids: bool) -> SalvagedIds
    ensures { result ≡ words.rule_of exact_ids }
{
    if exact_ids {
        SalvagedIds::Exact
    } else {
        SalvagedIds::Distinct
    }
}

/// Returns the file that is salvaged from a file.
fn salvaged_of(alloc: Global, file: &[u8], rule: SalvagedIds) -> Result<Vec<u8>, Answer>
    ensures ok { IfOk result (λ bytes. Salvages rule file.now bytes.items) }
    ensures header { OnOk result (header_size ≤ length file.now) }
    ensures fits { OnOk result (length file.now ≤ most_bytes) }
    ensures err { IfErr result (words.IsSalvageRefusal file.now) }
{
    if file.len() > MOST_BYTES {
        return Err(TOO_LARGE);
    }
    let mut out = Counted::new(Vec::new(alloc));
    match put_salvaged(&alloc, file, rule, &mut out) {
        Ok(_) => Ok(out.into_inner()),
        Err(CanonicalFault::BadFile(fault)) => Err(of_file(fault)),
        Err(CanonicalFault::OutOfMemory) => Err(NO_MEMORY),
        Err(CanonicalFault::Write) => Err(refused_write(alloc, &out)),
    }
}

/// Returns the lines about the faults of a file.
fn lines_of(alloc: Global, file: &[u8]) -> Result<Vec<u8>, Answer>
    requires { header_size ≤ length file.now }
    ensures ok { IfOk result (λ lines. lines.items ≡ salvage_lines file.now) }
    ensures err { IfErr result IsMemoryAnswer }
{
    let mut out = Counted::new(Vec::new(alloc));
    match put_salvage_lines(&mut out, file) {
        Ok(()) => Ok(out.into_inner()),
        Err(_) => Err(refused_write(alloc, &out)),
    }
}

/// Returns the number of lines of a text.
#[tactic(auto, using(std::proofs::lemmas::List::Sums::count_by_more_yes, std::proofs::lemmas::List::Sums::count_by_more_no))]
fn line_count(text: &[u8]) -> usize
    ensures { result ≡ count_by words.is_line_end text.now }
{
    let mut count = 0;
    for byte in text {
        if *byte == b'\n' {
            count += 1;
        }
    }
    count
}
