//! Big-endian numbers in a slice of bytes.

ghost use Rattle.std.specs.Prelude.{◌≡◌, ◌+◌, ◌≤◌, ◌<◌, ◌^◌, ◌++◌, [], ◌∷◌, length, take, slice_index};
ghost use Rattle.heap_model.specs.Bytes.{u16_at, u24_at, u32_at, u16_bytes, u24_bytes, u32_bytes};

use crate::entries::GREATEST_ID;
use byteorder::{BigEndian, ByteOrder};

/// Reads the number in the two bytes at `at`.
#[inline]
#[tactic(auto, using(crate::proofs::WordLaws::u16_at_part))]
pub(crate) fn u16_in(bytes: &[u8], at: usize) -> u16
    requires { at + 2 ≤ length bytes.now }
    ensures { result ≡ u16_at bytes.now at }
{
    BigEndian::read_u16(&bytes[at..at + 2])
}

/// Reads the number in the three bytes at `at`. It also reads the byte before them, since reading
/// one number of four bytes is faster.
#[inline]
#[tactic(auto, using(crate::proofs::WordLaws::u24_of_u32))]
pub(crate) fn u24_in(bytes: &[u8], at: usize) -> u32
    requires front { 1 ≤ at }
    requires inside { at + 3 ≤ length bytes.now }
    ensures is { result ≡ u24_at bytes.now at }
    ensures small { result < 2 ^ 24 }
{
    u32_in(bytes, at - 1) & GREATEST_ID
}

/// Reads the number in the four bytes at `at`.
#[inline]
#[tactic(auto, using(crate::proofs::WordLaws::u32_at_part))]
pub(crate) fn u32_in(bytes: &[u8], at: usize) -> u32
    requires { at + 4 ≤ length bytes.now }
    ensures { result ≡ u32_at bytes.now at }
{
    BigEndian::read_u32(&bytes[at..at + 4])
}

/// Writes a number of two bytes at `at`. The first `at` bytes stay the same.
#[inline]
#[tactic(auto, using(crate::proofs::WordLaws::u16_put))]
pub(crate) fn put_u16(bytes: &mut [u8], at: usize, n: u16)
    requires { at + 2 ≤ length bytes.old }
    ensures front { take (at + 2) bytes.new ≡ take at bytes.old ++ u16_bytes n }
    ensures small { n < 2 ^ 16 }
    ensures len { length bytes.new ≡ length bytes.old }
{
    BigEndian::write_u16(&mut bytes[at..at + 2], n);
}

/// Writes a number of three bytes at `at`. The first `at` bytes stay the same.
#[inline]
#[tactic(auto, using(crate::proofs::WordLaws::u24_put))]
pub(crate) fn put_u24(bytes: &mut [u8], at: usize, n: u32)
    requires room { at + 3 ≤ length bytes.old }
    requires fits { n < 2 ^ 24 }
    ensures front { take (at + 3) bytes.new ≡ take at bytes.old ++ u24_bytes n }
    ensures len { length bytes.new ≡ length bytes.old }
{
    BigEndian::write_u24(&mut bytes[at..at + 3], n);
}

/// Writes a number of four bytes at `at`. The first `at` bytes stay the same.
#[inline]
#[tactic(auto, using(crate::proofs::WordLaws::u32_put))]
pub(crate) fn put_u32(bytes: &mut [u8], at: usize, n: u32)
    requires { at + 4 ≤ length bytes.old }
    ensures front { take (at + 4) bytes.new ≡ take at bytes.old ++ u32_bytes n }
    ensures small { n < 2 ^ 32 }
    ensures len { length bytes.new ≡ length bytes.old }
{
    BigEndian::write_u32(&mut bytes[at..at + 4], n);
}

/// Writes a byte at `at`. The first `at` bytes stay the same.
#[inline]
#[tactic(auto, using(crate::proofs::WordLaws::u8_put))]
pub(crate) fn put_u8(bytes: &mut [u8], at: usize, byte: u8)
    requires { at < length bytes.old }
    ensures front { take (at + 1) bytes.new ≡ take at bytes.old ++ byte ∷ [] }
    ensures len { length bytes.new ≡ length bytes.old }
{
    bytes[at] = byte;
}
