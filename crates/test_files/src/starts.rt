//! Files of which only the first bytes are read: their reports are those of the whole files.

ghost use Rattle.std.specs.Prelude.{None};
ghost use Rattle.file_commands.specs.Starts.{IsOfSeeking};

use crate::samples::{MOST_SAMPLE, NAMED_FILE};
use command_files::SizedFault;
use file_commands::{READ_FIRST, ReadStart, ReadsAt, Report, cmd_report_from, read_start};
use palm_text::Counted;
use pdb_format::{FileBytes, MOST_START};
use program_io::{InputFault, Status};
use std::alloc::Global;
use std::io;
use std::io::ErrorKind;
use std::test::*;
use test_support::{bytes_of, equal, holds};

/// The size of a file of which not all bytes are read.
const FILE_SIZE: usize = READ_FIRST + 500;

/// A file in memory. One read gives at most `most` bytes. After `good` reads, a read fails.
#[derive(Drop)]
struct Turns {
    bytes: Vec<u8>,
    most: usize,
    good: usize,
}

impl ReadsAt for Turns {
    ghost bytes = { λ _. None };

    ghost fails = { IsOfSeeking };

    fn read_at(&mut self, turn: &mut [u8], offset: u64) -> Result<usize, InputFault> {
        if self.good == 0 {
            return Err(InputFault::Open(io::Error::from(ErrorKind::Other)));
        }
        self.good -= 1;
        let Some(rest) = self.bytes.get(offset as usize..) else {
            return Ok(0);
        };
        let count = rest.len().min(turn.len()).min(self.most);
        turn[..count].copy_from_slice(&rest[..count]);
        Ok(count)
    }

    fn know_bytes(&self) {}
}

/// Offsets of AppInfo: among the first bytes, around their end, and around the end of the file.
static PLACES: [usize; 9] = [
    112,
    MOST_START - 276,
    MOST_START - 1,
    MOST_START,
    READ_FIRST,
    FILE_SIZE - 276,
    FILE_SIZE - 100,
    FILE_SIZE,
    FILE_SIZE + 1,
];

/// A file of `FILE_SIZE` bytes with categories, whose AppInfo begins at an offset.
fn long_file(alloc: Global, at: usize) -> Result<Vec<u8>, Fail> {
    let mut file = bytes_of(alloc, NAMED_FILE)?;
    let app = match file.get(112..388) {
        Some(app) => Vec::from_slice(alloc, app)?,
        None => return Err("a file that is too short")?,
    };
    file.resize(FILE_SIZE, 0)?;
    let Ok(place) = u32::try_from(at) else {
        return Err("an offset that is too great")?;
    };
    for (index, byte) in place.to_be_bytes().iter().enumerate() {
        put_at(&mut file, 52 + index, *byte);
    }
    for (index, byte) in app.iter().enumerate() {
        put_at(&mut file, at.saturating_add(index), *byte);
    }
    Ok(file)
}

/// Writes a byte at an offset, if there is one.
fn put_at(file: &mut [u8], at: usize, byte: u8) {
    if let Some(place) = file.get_mut(at) {
        *place = byte;
    }
}

/// What is printed of a file, and the status.
fn report_of<B: FileBytes>(
    alloc: Global,
    report: Report,
    file: &B,
) -> Result<(Status, Vec<u8>), Fail> {
    if file.size() > MOST_SAMPLE {
        return Err("a file that is too long")?;
    }
    let mut out = Counted::new(Vec::new(alloc));
    let status = cmd_report_from(&alloc, report, Some("a.pdb"), file, &mut out);
    Ok((status, out.into_inner()))
}

/// Reads the first bytes of a file, in turns of at most `most` bytes.
fn start_of(alloc: Global, bytes: Vec<u8>, most: usize) -> Result<ReadStart, Fail> {
    let mut file = Turns {
        bytes,
        most,
        good: usize::MAX,
    };
    match read_start(&alloc, &mut file, FILE_SIZE) {
        Ok(start) => Ok(start),
        Err(fault) => Err(Fail::new(format_args!("{fault:?}"))),
    }
}

#[test]
fn starts_have_the_reports_of_whole_files(rt: HostRuntime) -> Result<(), Fail> {
    for at in &PLACES {
        check_start(rt.alloc(), *at, Report::Listing)?;
    }
    check_start(rt.alloc(), MOST_START, Report::Document)?;
    check_start(rt.alloc(), MOST_START, Report::Changes)
}

fn check_start(alloc: Global, at: usize, report: Report) -> Result<(), Fail> {
    let file = long_file(alloc, at)?;
    let (status, text) = report_of(alloc, report, &file.as_slice())?;
    let start = start_of(alloc, file, 100_000)?;
    let (found, printed) = report_of(alloc, report, &start)?;
    equal(at, found, status)?;
    holds(at, printed.as_slice() == text.as_slice())
}

/// Other sizes than that of the file.
static OTHERS: [usize; 4] = [
    READ_FIRST,
    FILE_SIZE - 1,
    FILE_SIZE + 1,
    FILE_SIZE + 1_000_000,
];

#[test]
fn another_size_is_found(rt: HostRuntime) -> Result<(), Fail> {
    for size in &OTHERS {
        let mut file = Turns {
            bytes: long_file(rt.alloc(), 112)?,
            most: MOST_START,
            good: usize::MAX,
        };
        let is_found = match read_start(&rt.alloc(), &mut file, *size) {
            Err(SizedFault::OtherSize) => true,
            _ => false,
        };
        holds(size, is_found)?;
    }
    Ok(())
}

/// A file whose AppInfo is after its first bytes takes five reads: one byte and the end, the first
/// bytes in two turns, and AppInfo. Each of them fails in turn.
#[test]
fn reads_that_fail(rt: HostRuntime) -> Result<(), Fail> {
    for good in 0..6 {
        let mut file = Turns {
            bytes: long_file(rt.alloc(), READ_FIRST)?,
            most: 400_000,
            good,
        };
        let is_read = match read_start(&rt.alloc(), &mut file, FILE_SIZE) {
            Ok(_) => true,
            Err(SizedFault::Input(InputFault::Open(_))) => false,
            Err(fault) => return Err(Fail::new(format_args!("{fault:?}"))),
        };
        equal(good, is_read, good >= 5)?;
    }
    Ok(())
}
