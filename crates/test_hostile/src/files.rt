//! Files of databases: each byte of one is set to each other value, and ends are missing. Each is
//! read into a store as a plain model says, and what that leaves is a store.

use crate::bytes::with_byte;
use heap_model::{Bytes, Call, FileCall, FileFault, Refusal, Reply};
use std::alloc::Global;
use std::test::*;
use test_beside::{Beside, blank_image, store_of};
use test_support::{ORDER_FILE, TINY_FILE, bytes_of, equal};

/// Reads a file into a store of 1,024 bytes without databases, and returns the reply, which must be
/// the plain model's.
fn read(alloc: Global, spot: &str, file: Vec<u8>) -> Result<Reply, Fail> {
    let mut beside = Beside::new(alloc, blank_image(alloc, 1024, 16)?)?;
    let call = Call::File(FileCall::Import(Bytes::of(file)));
    let reply = beside.call(alloc, spot, &call)?;
    store_of(alloc, &beside.image)?;
    Ok(reply)
}

fn check_value(alloc: Global, file: &[u8], at: usize, value: u8) -> Result<(), Fail> {
    let spot = format!(in alloc; "byte {at}: {value}")?;
    read(alloc, spot.as_str(), with_byte(alloc, file, at, value)?)?;
    Ok(())
}

/// Sets a byte of a file to each value.
fn check_byte(alloc: Global, file: &[u8], at: usize) -> Result<(), Fail> {
    for value in 0..=255 {
        check_value(alloc, file, at, value)?;
    }
    Ok(())
}

/// Sets each byte of a file to each value.
fn check_bytes(alloc: Global, listing: &str) -> Result<(), Fail> {
    let file = bytes_of(alloc, listing)?;
    for at in 0..file.len() {
        check_byte(alloc, &file, at)?;
    }
    Ok(())
}

#[test]
fn every_byte_of_a_file_of_records_has_every_value(rt: HostRuntime) -> Result<(), Fail> {
    check_bytes(rt.alloc(), ORDER_FILE)
}

#[test]
fn every_byte_of_a_file_of_resources_has_every_value(rt: HostRuntime) -> Result<(), Fail> {
    check_bytes(rt.alloc(), TINY_FILE)
}

/// The fault of the first `length` bytes of the file of records.
fn fault_of_length(length: usize) -> Option<FileFault> {
    match length {
        0..102 => Some(FileFault::Truncated),
        102..108 => Some(FileFault::BadOffset(0)),
        _ => None,
    }
}

/// The fault for which a file is refused.
fn fault_in(reply: &Reply) -> Option<FileFault> {
    match reply {
        Reply::Refused(Refusal::BadFile(fault)) => Some(*fault),
        _ => None,
    }
}

fn check_shorter(alloc: Global, file: &[u8], length: usize) -> Result<(), Fail> {
    let front = file.get(..length).ok_or("the file has 112 bytes")?;
    let reply = read(alloc, "a shorter file", Vec::from_slice(alloc, front)?)?;
    equal(
        format_args!("{length} bytes"),
        fault_in(&reply),
        fault_of_length(length),
    )
}

#[test]
fn shorter_files_have_faults(rt: HostRuntime) -> Result<(), Fail> {
    let file = bytes_of(rt.alloc(), ORDER_FILE)?;
    for length in 0..112 {
        check_shorter(rt.alloc(), &file, length)?;
    }
    Ok(())
}
