//! Reading an input file.

ghost use Rattle.std.specs.Prelude.{[], ◌≡◌, ◌+◌, ◌++◌, ◌≤◌, ◌<◌, IfOk, IfErr, OnOk, OnErr, IfSome, vec_len, length};
ghost use Rattle.std.specs.Io.{StartsWith};
ghost use Rattle.std.specs.Io.KnownBytes.{IsAtEnd, Keeps, prepend_known};
ghost use Rattle.allowance.specs.Refusals.{GrowthRefused};
ghost use Rattle.program_io.specs.Status.{IsOfReading, IsOfReadingWithin};

use crate::reading::{ReadFailure, read_once};
use allowance::{Allowance, room_for, zeros};
use std::alloc::{AllocError, Global};
use std::io;
use std::io::{ErrorKind, Read};
use thiserror::Error;

/// The greatest size of an input file in bytes, unless a reader is given another one.
pub const MOST_INPUT: usize = 16_777_216;

/// The greatest number of bytes that one read asks for.
pub const MOST_READ: usize = 65_536;

/// The reason why a file could not be read.
#[derive(Clone, Copy, Debug, Error)]
pub enum InputFault {
    /// The file couldn't be opened.
    #[error("{0}")]
    Open(io::Error),
    /// A read failed.
    #[error("{0}")]
    Read(ReadFailure),
    /// The file has more than `MOST_INPUT` bytes.
    #[error("longer than {MOST_INPUT} bytes")]
    TooLong,
    /// The file has more bytes than this number, the greatest size that was given.
    #[error("longer than {0} bytes")]
    LongerThan(usize),
    /// An allocation failed.
    #[error("out of memory")]
    Memory,
}

/// Converts the error of a file that couldn't be opened: out of memory, or the error itself.
impl From<io::Error> for InputFault {
    ghost use Rattle.program_io.specs.Status.{FaultOf};

    ghost from_gives = { λ error fault. FaultOf error fault };

    fn from(error: io::Error) -> InputFault {
        match error.kind() {
            ErrorKind::OutOfMemory => InputFault::Memory,
            _ => InputFault::Open(error),
        }
    }
}

/// Reads to the end, at most `MOST_READ` bytes at a time, until a read gives no byte.
///
/// It stops at the read with which the bytes are more than `MOST_INPUT`.
///
/// # Errors
///
/// - `Read`: if a read failed.
/// - `TooLong`: if the reader gives more than `MOST_INPUT` bytes.
/// - `Memory`: if an allocation failed.
pub fn read_input<R: Read>(alloc: Global, reader: &mut R) -> Result<Vec<u8>, InputFault>
    ensures limit { IfOk result (λ bytes. vec_len bytes ≤ MOST_INPUT) }
    ensures bytes { IfOk result (λ bytes.
        IfSome (R.remaining reader.old) (λ all. bytes.items ≡ all)) }
    ensures end { OnOk result (IsAtEnd (R.remaining reader.new)) }
    ensures too_long { result ≡ Err InputFault.TooLong
        → IfSome (R.remaining reader.old) (λ all. MOST_INPUT < length all) }
    ensures no_memory { result ≡ Err InputFault.Memory → GrowthRefused }
    ensures of_reading { IfErr result IsOfReading }
{
    read_input_from(&alloc, reader)
}

/// The same as `read_input`. Each allocation asks `memory` for a grant.
pub fn read_input_from<A: Allowance, R: Read>(
    memory: &A,
    reader: &mut R,
) -> Result<Vec<u8>, InputFault>
    ensures limit { IfOk result (λ bytes. vec_len bytes ≤ MOST_INPUT) }
    ensures bytes { IfOk result (λ bytes.
        IfSome (R.remaining reader.old) (λ all. bytes.items ≡ all)) }
    ensures end { OnOk result (IsAtEnd (R.remaining reader.new)) }
    ensures too_long { result ≡ Err InputFault.TooLong
        → IfSome (R.remaining reader.old) (λ all. MOST_INPUT < length all) }
    ensures no_memory { result ≡ Err InputFault.Memory → A.is_short memory.now }
    ensures of_reading { IfErr result IsOfReading }
{
    match read_within(memory, reader, 0, MOST_INPUT) {
        Ok(bytes) => Ok(bytes),
        Err(fault) => Err(at_most_input(fault)),
    }
}

/// The same as `read_input_from`, with `most` as the greatest size. It first takes memory for `room`
/// bytes: if the size of a file is known, the bytes aren't copied while they grow.
///
/// # Errors
///
/// - `Read`: if a read failed.
/// - `LongerThan`: if the reader gives more than `most` bytes. It has this number.
/// - `Memory`: if an allocation failed.
pub fn read_within<A: Allowance, R: Read>(
    memory: &A,
    reader: &mut R,
    room: usize,
    most: usize,
) -> Result<Vec<u8>, InputFault>
    ensures limit { IfOk result (λ bytes. vec_len bytes ≤ most) }
    ensures bytes { IfOk result (λ bytes.
        IfSome (R.remaining reader.old) (λ all. bytes.items ≡ all)) }
    ensures end { OnOk result (IsAtEnd (R.remaining reader.new)) }
    ensures too_long { result ≡ Err (InputFault.LongerThan most)
        → IfSome (R.remaining reader.old) (λ all. most < length all) }
    ensures no_memory { result ≡ Err InputFault.Memory → A.is_short memory.now }
    ensures of_reading { IfErr result (IsOfReadingWithin most) }
{
    let Ok(mut turn) = buffer(memory, MOST_READ) else {
        return Err(InputFault::Memory);
    };
    let Ok(mut bytes) = with_room(memory, room) else {
        return Err(InputFault::Memory);
    };
    while read_turn_within(memory, reader, &mut turn, &mut bytes, most)? > 0 {}
    Ok(bytes)
}

/// Returns the fault of a reader of at most `MOST_INPUT` bytes.
fn at_most_input(fault: InputFault) -> InputFault
    requires { IsOfReadingWithin MOST_INPUT fault }
    ensures too_long { result ≡ InputFault.TooLong → fault ≡ InputFault.LongerThan MOST_INPUT }
    ensures no_memory { result ≡ InputFault.Memory → fault ≡ InputFault.Memory }
    ensures of_reading { IsOfReading result }
{
    match fault {
        InputFault::LongerThan(_) => InputFault::TooLong,
        _ => fault,
    }
}

/// Returns an empty vector with room for `n` bytes. Nothing is allocated if that is 0.
fn with_room<A: Allowance>(memory: &A, n: usize) -> Result<Vec<u8>, AllocError>
    ensures none { IfOk result (λ bytes. bytes.items ≡ []) }
    ensures len { IfOk result (λ bytes. vec_len bytes ≡ 0) }
    ensures short { OnErr result (A.is_short memory.now) }
{
    if n == 0 {
        return Ok(Vec::new(memory.allocator()));
    }
    room_for(memory, n)
}

/// Allocates a buffer of `n` bytes.
fn buffer<A: Allowance>(memory: &A, n: usize) -> Result<Vec<u8>, AllocError>
    ensures len { IfOk result (λ buffer. length buffer.items ≡ n) }
    ensures short { OnErr result (A.is_short memory.now) }
{
    zeros(memory, n)
}

/// Reads once, and appends the new bytes to `bytes`. Returns their number, which is 0 at the end.
/// One read asks for at most the length of `turn`.
///
/// # Errors
///
/// - `Read`: if the read failed.
/// - `TooLong`: if the bytes are more than `MOST_INPUT`.
/// - `Memory`: if an allocation failed.
pub fn read_turn<A: Allowance, R: Read>(
    memory: &A,
    reader: &mut R,
    turn: &mut [u8],
    bytes: &mut Vec<u8>,
) -> Result<usize, InputFault>
    requires room { 0 < length turn.old }
    requires limit { vec_len bytes.old ≤ MOST_INPUT }
    ensures limit { OnOk result (vec_len bytes.new ≤ MOST_INPUT) }
    ensures count { IfOk result (λ n. vec_len bytes.new ≡ vec_len bytes.old + n) }
    ensures front { OnOk result (StartsWith bytes.new.items bytes.old.items) }
    ensures kept { OnOk result (Keeps
        (prepend_known bytes.old.items (R.remaining reader.old))
        (prepend_known bytes.new.items (R.remaining reader.new))) }
    ensures end { IfOk result (λ n. n ≡ 0 → IsAtEnd (R.remaining reader.new)) }
    ensures too_long { result ≡ Err InputFault.TooLong
        → IfSome (prepend_known bytes.old.items (R.remaining reader.old))
        (λ all. MOST_INPUT < length all) }
    ensures no_memory { result ≡ Err InputFault.Memory → A.is_short memory.now }
    ensures of_reading { IfErr result IsOfReading }
{
    match read_turn_within(memory, reader, turn, bytes, MOST_INPUT) {
        Ok(n) => Ok(n),
        Err(fault) => Err(at_most_input(fault)),
    }
}

/// The same as `read_turn`, with `most` as the greatest number of bytes.
fn read_turn_within<A: Allowance, R: Read>(
    memory: &A,
    reader: &mut R,
    turn: &mut [u8],
    bytes: &mut Vec<u8>,
    most: usize,
) -> Result<usize, InputFault>
    requires room { 0 < length turn.old }
    requires limit { vec_len bytes.old ≤ most }
    ensures limit { OnOk result (vec_len bytes.new ≤ most) }
    ensures count { IfOk result (λ n. vec_len bytes.new ≡ vec_len bytes.old + n) }
    ensures front { OnOk result (StartsWith bytes.new.items bytes.old.items) }
    ensures kept { OnOk result (Keeps
        (prepend_known bytes.old.items (R.remaining reader.old))
        (prepend_known bytes.new.items (R.remaining reader.new))) }
    ensures end { IfOk result (λ n. n ≡ 0 → IsAtEnd (R.remaining reader.new)) }
    ensures too_long { result ≡ Err (InputFault.LongerThan most)
        → IfSome (prepend_known bytes.old.items (R.remaining reader.old))
        (λ all. most < length all) }
    ensures no_memory { result ≡ Err InputFault.Memory → A.is_short memory.now }
    ensures of_reading { IfErr result (IsOfReadingWithin most) }
{
    let n = match read_once(reader, turn) {
        Ok(n) => n,
        Err(failure) => return Err(InputFault::Read(failure)),
    };
    if n > most - bytes.len() {
        return Err(InputFault::LongerThan(most));
    }
    match extend(memory, bytes, &turn[..n]) {
        Ok(()) => Ok(n),
        Err(_) => Err(InputFault::Memory),
    }
}

/// Appends bytes. Nothing is allocated if there are none.
fn extend<A: Allowance>(memory: &A, bytes: &mut Vec<u8>, more: &[u8]) -> Result<(), AllocError>
    ensures items { OnOk result (bytes.new.items ≡ bytes.old.items ++ more.now) }
    ensures short { OnErr result (A.is_short memory.now) }
{
    if more.is_empty() {
        return Ok(());
    }
    allowance::extend(memory, bytes, more)
}
