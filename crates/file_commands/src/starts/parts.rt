//! Parts of a file that is read at offsets.

ghost use Rattle.std.specs.Prelude.{◌≡◌, ◌≢◌, ◌+◌, ◌-◌, ◌<◌, ◌≤◌, ◌^◌, Ok, Err, true, false, IfOk, IfErr, OnOk, IfSome, length, take};
ghost use Rattle.std.specs.Io.{ReadsAtMost};
ghost use Rattle.file_commands.specs.Starts.{FailsBy, IsPartOfFile};

use crate::starts::reads_at::ReadsAt;
use allowance::{Allowance, zeros};
use command_files::SizedFault;
use program_io::InputFault;

/// Fills a buffer from an offset of a file on, until it is full or a read gives no byte. Returns the
/// number of bytes.
///
/// # Errors
/// - any fault but `Memory`: a read failed.
pub(crate) fn fill_at<F: ReadsAt>(
    file: &mut F,
    buffer: &mut [u8],
    offset: u64,
) -> Result<usize, InputFault>
    requires { offset + length buffer.old < 2 ^ 64 }
    ensures same { F.bytes file.new ≡ F.bytes file.old }
    ensures bound { ReadsAtMost result buffer.new }
    ensures part { IfOk result (λ n.
        IsPartOfFile (F.bytes file.old) offset (length buffer.new) (take n buffer.new)) }
    ensures fails { IfErr result F.fails }
    ensures memory { result ≢ Err InputFault.Memory }
{
    let mut at = 0;
    while fill_more(file, buffer, &mut at, offset)? {}
    Ok(at)
}

/// Reads once, after the first `at` bytes of the buffer, and moves `at` after the new bytes. Returns
/// whether the next read can give more.
#[tactic(auto, using(crate::proofs::Turns::turn_read, crate::proofs::Turns::no_more, crate::proofs::Turns::is_full))]
fn fill_more<F: ReadsAt>(
    file: &mut F,
    buffer: &mut [u8],
    at: &mut usize,
    offset: u64,
) -> Result<bool, InputFault>
    requires room { offset + length buffer.old < 2 ^ 64 }
    requires inside { at.old ≤ length buffer.old }
    requires part { IsPartOfFile (F.bytes file.old) offset at.old (take at.old buffer.old) }
    ensures same { F.bytes file.new ≡ F.bytes file.old }
    ensures len { length buffer.new ≡ length buffer.old }
    ensures inside { OnOk result (at.new ≤ length buffer.new) }
    ensures part { OnOk result (IsPartOfFile (F.bytes file.old) offset at.new (take at.new buffer.new)) }
    ensures more { result ≡ Ok true → at.old < at.new }
    ensures end { result ≡ Ok false
        → IsPartOfFile (F.bytes file.old) offset (length buffer.new) (take at.new buffer.new) }
    ensures fails { IfErr result F.fails }
    ensures memory { result ≢ Err InputFault.Memory }
{
    if *at == buffer.len() {
        return Ok(false);
    }
    let n = file.read_at(&mut buffer[*at..], offset + *at as u64)?;
    *at += n;
    Ok(n > 0)
}

/// Reads `count` bytes from an offset of a file on.
///
/// # Errors
/// - `Input`: a read failed, or an allocation did.
/// - `OtherSize`: the file has fewer bytes.
#[tactic(auto, using(crate::proofs::Turns::filled, crate::proofs::Turns::ends))]
pub(crate) fn read_part<A: Allowance, F: ReadsAt>(
    memory: &A,
    file: &mut F,
    offset: u64,
    count: usize,
) -> Result<Vec<u8>, SizedFault>
    requires { offset + count < 2 ^ 64 }
    ensures same { F.bytes file.new ≡ F.bytes file.old }
    ensures len { IfOk result (λ part. length part.items ≡ count) }
    ensures part { IfOk result (λ part. IsPartOfFile (F.bytes file.old) offset count part.items) }
    ensures size { result ≡ Err SizedFault.OtherSize
        → IfSome (F.bytes file.old) (λ all. length all - offset < count) }
    ensures no_memory { result ≡ Err (SizedFault.Input InputFault.Memory) → A.is_short memory.now }
    ensures fails { IfErr result (FailsBy F.fails) }
{
    let Ok(mut part) = zeros(memory, count) else {
        return Err(SizedFault::Input(InputFault::Memory));
    };
    match fill_at(file, &mut part, offset) {
        Ok(n) if n < count => Err(SizedFault::OtherSize),
        Ok(_) => Ok(part),
        Err(fault) => Err(SizedFault::Input(fault)),
    }
}

/// Finds whether a file has exactly `size` bytes.
///
/// # Errors
/// - `Input`: a read failed.
/// - `OtherSize`: the file has another size.
#[tactic(auto, using(crate::proofs::Turns::one_left, crate::proofs::Turns::not_one_left))]
pub(crate) fn check_size<F: ReadsAt>(file: &mut F, size: usize) -> Result<(), SizedFault>
    requires some { 0 < size }
    requires short { size < 2 ^ 63 }
    ensures same { F.bytes file.new ≡ F.bytes file.old }
    ensures is { OnOk result (IfSome (F.bytes file.old) (λ all. length all ≡ size)) }
    ensures size { result ≡ Err SizedFault.OtherSize
        → IfSome (F.bytes file.old) (λ all. length all ≢ size) }
    ensures memory { result ≢ Err (SizedFault.Input InputFault.Memory) }
    ensures fails { IfErr result (FailsBy F.fails) }
{
    let mut last = [0; 2];
    match fill_at(file, &mut last, size as u64 - 1) {
        Ok(1) => Ok(()),
        Ok(_) => Err(SizedFault::OtherSize),
        Err(fault) => Err(SizedFault::Input(fault)),
    }
}
