//! Reading an image into a region, without another copy of it.

ghost use Rattle.std.specs.Prelude.{[], ◌≡◌, ◌≢◌, ◌+◌, ◌≤◌, ◌<◌, Err, IfOk, IfErr, OnOk, OnErr, IfSome, None, Some, length, take};
ghost use Rattle.std.specs.Io.KnownBytes.{IsAtEnd, Keeps, prepend_known};
ghost use Rattle.command_files.specs.Sized.{IsOfSizedReading};

use allowance::{Allowance, zeros};
use program_io::{InputFault, MOST_INPUT, MOST_READ, read_once};
use raw_region::Region;
use std::alloc::AllocError;
use std::fs;
use std::fs::File;
use std::io::Read;
use std::rt::Files;

/// The reason why no region was read.
#[derive(Clone, Copy, Debug)]
pub enum SizedFault {
    /// A read failed, or an allocation did.
    Input(InputFault),
    /// The reader has more or fewer bytes.
    OtherSize,
}

/// Reads a whole file into a region.
///
/// # Errors
///
/// - `Input`: if the file can't be read, or an allocation failed.
/// - `OtherSize`: if there is no file at the path, if it is longer than `MOST_INPUT`, or if its
///   size changed while it was read.
pub(crate) fn read_sized<R: Files + AllocGlobal>(rt: &R, path: &str) -> Result<Region, SizedFault>
    ensures limit { IfOk result (λ region. length region.bytes ≤ MOST_INPUT) }
    ensures whole { IfOk result (λ region. region.lents ≡ []) }
{
    let Some(size) = region_size(size_of(rt, path)) else {
        return Err(SizedFault::OtherSize);
    };
    match File::open(rt, path) {
        Ok(mut file) => read_region_from(&rt.alloc(), &mut file, size),
        Err(error) => Err(SizedFault::Input(InputFault::from(error))),
    }
}

/// Returns the size of a region for a file, by the size that the system reports, if any. Returns
/// `None` if it is above `MOST_INPUT`.
fn region_size(reported: Option<u64>) -> Option<u32>
    ensures is { IfSome result (λ size. (reported ≡ Some size) × (size ≤ MOST_INPUT)) }
    ensures none { result ≡ None → IfSome reported (λ size. MOST_INPUT < size) }
{
    match reported {
        Some(size) if size <= MOST_INPUT as u64 => Some(size as u32),
        _ => None,
    }
}

/// Returns the size of the file at a path in bytes. Returns `None` if there is no file.
pub(crate) fn size_of(rt: &impl Files, path: &str) -> Option<u64> {
    match fs::metadata(rt, path) {
        Ok(found) if found.is_file() => Some(found.len()),
        _ => None,
    }
}

/// Reads a region of `size` bytes, which are all that the reader has. It reads until a read gives
/// no byte, or more than the region has room for.
///
/// # Errors
///
/// - `Input`: if a read or an allocation failed.
/// - `OtherSize`: if the reader has more or fewer bytes.
#[tactic(auto, using(crate::proofs::Filled::all_read, crate::proofs::Filled::too_short, crate::proofs::Filled::too_long))]
pub fn read_region_from<A: Allowance, R: Read>(
    memory: &A,
    reader: &mut R,
    size: u32,
) -> Result<Region, SizedFault>
    ensures bytes { IfOk result (λ region.
        IfSome (R.remaining reader.old) (λ all. region.bytes ≡ all)) }
    ensures len { IfOk result (λ region. length region.bytes ≡ size) }
    ensures whole { IfOk result (λ region. region.lents ≡ []) }
    ensures size { result ≡ Err SizedFault.OtherSize
        → IfSome (R.remaining reader.old) (λ all. length all ≢ size) }
    ensures no_memory { result ≡ Err (SizedFault.Input InputFault.Memory) → A.is_short memory.now }
    ensures of_reading { IfErr result IsOfSizedReading }
{
    let Ok(mut turn) = buffer(memory) else {
        return Err(SizedFault::Input(InputFault::Memory));
    };
    let Ok(mut region) = Region::zeroed_from(memory, size) else {
        return Err(SizedFault::Input(InputFault::Memory));
    };
    let mut at = 0;
    while fill(reader, &mut turn, &mut region, &mut at)? > 0 {}
    if at < region.len() {
        return Err(SizedFault::OtherSize);
    }
    Ok(region)
}

/// Allocates a buffer of `MOST_READ` bytes.
fn buffer<A: Allowance>(memory: &A) -> Result<Vec<u8>, AllocError>
    ensures room { IfOk result (λ buffer. 0 < length buffer.items) }
    ensures short { OnErr result (A.is_short memory.now) }
{
    zeros(memory, MOST_READ)
}

/// Reads once, and writes the new bytes into the region from `at` on. Moves `at` after them, and
/// returns their number.
fn fill<R: Read>(
    reader: &mut R,
    turn: &mut [u8],
    region: &mut Region,
    at: &mut usize,
) -> Result<usize, SizedFault>
    requires room { 0 < length turn.old }
    requires inside { at.old ≤ length region.old.bytes }
    requires whole { region.old.lents ≡ [] }
    ensures count { IfOk result (λ n. at.new ≡ at.old + n) }
    ensures inside { OnOk result (at.new ≤ length region.new.bytes) }
    ensures len { length region.new.bytes ≡ length region.old.bytes }
    ensures whole { region.new.lents ≡ [] }
    ensures kept { OnOk result (Keeps
        (prepend_known (take at.old region.old.bytes) (R.remaining reader.old))
        (prepend_known (take at.new region.new.bytes) (R.remaining reader.new))) }
    ensures end { IfOk result (λ n. n ≡ 0 → IsAtEnd (R.remaining reader.new)) }
    ensures size { result ≡ Err SizedFault.OtherSize
        → IfSome (prepend_known (take at.old region.old.bytes) (R.remaining reader.old))
        (λ all. length region.old.bytes < length all) }
    ensures no_memory { result ≢ Err (SizedFault.Input InputFault.Memory) }
    ensures of_reading { IfErr result IsOfSizedReading }
{
    let n = match read_once(reader, turn) {
        Ok(n) => n,
        Err(failure) => return Err(SizedFault::Input(InputFault::Read(failure))),
    };
    if n > region.len() - *at {
        return Err(SizedFault::OtherSize);
    }
    region.write(*at, &turn[..n]);
    *at += n;
    Ok(n)
}
