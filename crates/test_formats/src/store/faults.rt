//! What is wrong with files of databases.

use heap_model::{FileFault, Which};
use pdb_format::check_file;
use std::alloc::Global;
use std::test::*;
use test_support::{EMPTY_FILE, ORDER_FILE, TINY_FILE, bytes_of, equal};

/// A listing, where bytes stand in its file instead, and what is wrong with it then.
type Changed = (&'static str, usize, &'static [u8], Result<(), FileFault>);

/// Files with some bytes changed from an offset on, and what is wrong with them.
static CHANGED: [Changed; 22] = [
    (EMPTY_FILE, 0, &[], Ok(())),
    (EMPTY_FILE, 0, &[0], Err(FileFault::EmptyName)),
    (
        EMPTY_FILE,
        52,
        &[0, 0, 0, 0x10],
        Err(FileFault::BadInfo(Which::App)),
    ),
    (EMPTY_FILE, 52, &[0, 0, 0, 0x4E], Ok(())),
    (
        EMPTY_FILE,
        52,
        &[0, 0, 0, 0x4F],
        Err(FileFault::BadInfo(Which::App)),
    ),
    (EMPTY_FILE, 56, &[0, 0, 0, 0x4E], Ok(())),
    (
        EMPTY_FILE,
        56,
        &[0, 0, 0, 0x4F],
        Err(FileFault::BadInfo(Which::Sort)),
    ),
    (
        EMPTY_FILE,
        56,
        &[0xFF, 0xFF, 0xFF, 0xFF],
        Err(FileFault::BadInfo(Which::Sort)),
    ),
    (EMPTY_FILE, 72, &[0, 0, 0, 1], Err(FileFault::ChainedList)),
    (EMPTY_FILE, 76, &[0, 1], Err(FileFault::Truncated)),
    (EMPTY_FILE, 76, &[0xFF, 0xFF], Err(FileFault::Truncated)),
    (ORDER_FILE, 0, &[], Ok(())),
    (ORDER_FILE, 78, &[0, 0, 0, 0], Err(FileFault::BadOffset(0))),
    (ORDER_FILE, 78, &[0, 0, 0, 0, 0x80], Ok(())),
    (
        ORDER_FILE,
        78,
        &[0, 0, 0, 1, 0x80],
        Err(FileFault::BadOffset(0)),
    ),
    (ORDER_FILE, 86, &[0, 0, 0, 0x66], Ok(())),
    (
        ORDER_FILE,
        86,
        &[0, 0, 0, 0x65],
        Err(FileFault::BadOffset(1)),
    ),
    (ORDER_FILE, 94, &[0, 0, 0, 0x70], Ok(())),
    (
        ORDER_FILE,
        94,
        &[0, 0, 0, 0x71],
        Err(FileFault::BadOffset(2)),
    ),
    (TINY_FILE, 0, &[], Ok(())),
    (TINY_FILE, 84, &[0, 0, 0, 0], Err(FileFault::BadOffset(0))),
    (
        TINY_FILE,
        94,
        &[0, 0, 0, 0x6B],
        Err(FileFault::BadOffset(1)),
    ),
];

/// Writes bytes over those of a file from an offset on.
fn put(file: &mut [u8], at: usize, bytes: &[u8]) -> Result<(), Fail> {
    if at > file.len() || bytes.len() > file.len() - at {
        return Err("a change beyond the end")?;
    }
    file[at..at + bytes.len()].copy_from_slice(bytes);
    Ok(())
}

/// Changes a file, and checks what is wrong with it then.
fn check_changed(
    file: &mut [u8],
    at: usize,
    bytes: &[u8],
    fault: Result<(), FileFault>,
) -> Result<(), Fail> {
    put(file, at, bytes)?;
    equal(format_args!("{at}: {bytes:?}"), check_file(file), fault)
}

fn check_row(alloc: Global, (listing, at, bytes, fault): Changed) -> Result<(), Fail> {
    let mut file = bytes_of(alloc, listing)?;
    check_changed(&mut file, at, bytes, fault)
}

#[test]
fn the_first_fault_is_answered(rt: HostRuntime) -> Result<(), Fail> {
    for row in &CHANGED {
        check_row(rt.alloc(), *row)?;
    }
    Ok(())
}

/// Changes that each make a fault which comes before those of the changes above it.
static EARLIER: [(usize, &[u8], FileFault); 6] = [
    (78, &[0, 0, 0, 0], FileFault::BadOffset(0)),
    (56, &[0, 0, 0, 1], FileFault::BadInfo(Which::Sort)),
    (52, &[0, 0, 0, 1], FileFault::BadInfo(Which::App)),
    (0, &[0], FileFault::EmptyName),
    (72, &[1], FileFault::ChainedList),
    (76, &[1], FileFault::Truncated),
];

#[test]
fn an_earlier_fault_is_answered(rt: HostRuntime) -> Result<(), Fail> {
    let mut file = bytes_of(rt.alloc(), ORDER_FILE)?;
    for (at, bytes, fault) in &EARLIER {
        check_changed(&mut file, *at, bytes, Err(*fault))?;
    }
    Ok(())
}

/// The fault of the first `length` bytes of the file of three records.
fn fault_of_length(length: usize) -> Result<(), FileFault> {
    match length {
        0..102 => Err(FileFault::Truncated),
        102..108 => Err(FileFault::BadOffset(0)),
        _ => Ok(()),
    }
}

fn check_shorter(file: &[u8], length: usize) -> Result<(), Fail> {
    let front = file.get(..length).ok_or("the file has 112 bytes")?;
    equal(
        format_args!("{length} bytes"),
        check_file(front),
        fault_of_length(length),
    )
}

#[test]
fn shorter_files_have_faults(rt: HostRuntime) -> Result<(), Fail> {
    let file = bytes_of(rt.alloc(), ORDER_FILE)?;
    for length in 0..113 {
        check_shorter(&file, length)?;
    }
    Ok(())
}

/// Whether a file in which a byte is changed has no fault.
fn is_good_with(file: &mut [u8], at: usize, byte: u8) -> Result<bool, Fail> {
    put(file, at, &[byte])?;
    Ok(check_file(file).is_ok())
}

/// How many of the files with another byte at an offset have no fault.
fn count_good_at(alloc: Global, listing: &str, at: usize) -> Result<u32, Fail> {
    let mut file = bytes_of(alloc, listing)?;
    let mut good = 0u32;
    for byte in 0..=255 {
        if is_good_with(&mut file, at, byte)? {
            good = good.saturating_add(1);
        }
    }
    Ok(good)
}

/// How many of the files with another byte have no fault.
fn check_good(alloc: Global, listing: &str, length: usize, good: u32) -> Result<(), Fail> {
    let mut count = 0u32;
    for at in 0..length {
        count = count.saturating_add(count_good_at(alloc, listing, at)?);
    }
    equal(listing, count, good)
}

/// As many as by a reading of the format that shares nothing with this project.
#[test]
fn every_byte_has_every_value(rt: HostRuntime) -> Result<(), Fail> {
    check_good(rt.alloc(), ORDER_FILE, 112, 21_968)?;
    check_good(rt.alloc(), TINY_FILE, 106, 21_433)
}
