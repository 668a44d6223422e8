//! Reading input: how far, and what a read that fails gives.

use command_files::{SizedFault, read_region_from};
use program_io::{InputFault, MOST_INPUT, read_input, read_input_from, read_within};
use std::alloc::Global;
use std::io::ErrorKind;
use std::test::Fail;
use test_support::{RefusesOne, Source, equal};

/// What came of reading, apart from the system's reason.
#[derive(Clone, Copy, Debug, PartialEq, Eq)]
enum Outcome {
    Bytes(usize),
    ReadFault,
    TooLong,
    LongerThan(usize),
    NoMemory,
}

fn outcome_of(read: Result<Vec<u8>, InputFault>) -> Outcome {
    match read {
        Ok(bytes) => Outcome::Bytes(bytes.len()),
        Err(InputFault::Open(_) | InputFault::Read(_)) => Outcome::ReadFault,
        Err(InputFault::TooLong) => Outcome::TooLong,
        Err(InputFault::LongerThan(most)) => Outcome::LongerThan(most),
        Err(InputFault::Memory) => Outcome::NoMemory,
    }
}

/// What comes of a source, and how often it was read.
fn outcome_at(alloc: Global, mut source: Source) -> (Outcome, usize) {
    let read = read_input(alloc, &mut source);
    (outcome_of(read), source.reads)
}

#[test]
fn reads_what_is_there(rt: HostRuntime) -> Result<(), Fail> {
    let text = "the bytes of a file".as_bytes();
    match read_input(rt.alloc(), &mut "the bytes of a file".as_bytes()) {
        Ok(bytes) => equal("bytes", bytes.as_slice(), text),
        Err(_) => Err("a fault")?,
    }
}

/// How many bytes a source has, how many a read gives, and how many reads there are.
static TO_THE_END: [(usize, usize, usize); 5] = [
    (0, 1, 1),
    (1, 1, 2),
    (5, 2, 4),
    (65_536, 65_536, 2),
    (65_537, 99_999, 3),
];

fn check_to_the_end(alloc: Global, left: usize, step: usize, reads: usize) -> Result<(), Fail> {
    let came = outcome_at(alloc, Source::new(left, step));
    equal(
        format_args!("{step} at a time"),
        came,
        (Outcome::Bytes(left), reads),
    )
}

#[test]
fn reads_to_the_end(rt: HostRuntime) -> Result<(), Fail> {
    for (left, step, reads) in &TO_THE_END {
        check_to_the_end(rt.alloc(), *left, *step, *reads)?;
    }
    Ok(())
}

/// How many bytes a source has, how many a read gives, and the size of the region that is read.
static SIZES: [(usize, usize, u32, bool); 7] = [
    (0, 1, 0, true),
    (0, 1, 1, false),
    (1, 1, 0, false),
    (5, 2, 5, true),
    (5, 2, 4, false),
    (5, 2, 6, false),
    (65_537, 99_999, 65_537, true),
];

fn check_size(alloc: Global, left: usize, step: usize, size: u32, whole: bool) -> Result<(), Fail> {
    let is_read = match read_region_from(&alloc, &mut Source::new(left, step), size) {
        Ok(_) => true,
        Err(SizedFault::OtherSize) => false,
        Err(SizedFault::Input(_)) => Err("a fault")?,
    };
    equal(format_args!("{left} for {size}"), is_read, whole)
}

#[test]
fn reads_a_region_of_just_the_size(rt: HostRuntime) -> Result<(), Fail> {
    for (left, step, size, whole) in &SIZES {
        check_size(rt.alloc(), *left, *step, *size, *whole)?;
    }
    let text = "the bytes of a file".as_bytes();
    match read_region_from(&rt.alloc(), &mut "the bytes of a file".as_bytes(), 19) {
        Ok(region) => equal("bytes", region.as_slice(), text),
        Err(_) => Err("a fault")?,
    }
}

/// A source of 4 bytes, one at a time, of which a read fails so.
fn failing(fails_at: usize, kind: ErrorKind) -> Source {
    Source {
        left: 4,
        step: 1,
        reads: 0,
        fails_at: Some(fails_at),
        kind,
    }
}

/// Nothing is read after a read that fails.
fn check_failing(alloc: Global, kind: ErrorKind) -> Result<(), Fail> {
    for fails_at in 0..5 {
        equal(
            format_args!("{kind:?} at {fails_at}"),
            outcome_at(alloc, failing(fails_at, kind)),
            (Outcome::ReadFault, fails_at + 1),
        )?;
    }
    Ok(())
}

#[test]
fn answers_a_read_that_fails(rt: HostRuntime) -> Result<(), Fail> {
    check_failing(rt.alloc(), ErrorKind::Interrupted)?;
    check_failing(rt.alloc(), ErrorKind::UnexpectedEof)?;
    check_failing(rt.alloc(), ErrorKind::OutOfMemory)
}

/// Checks the outcome of reading 4 bytes, one at a time, if the growth after the first `before` is
/// refused.
fn check_with(alloc: Global, before: u32, wanted: Outcome) -> Result<(), Fail> {
    let memory = RefusesOne::behind(alloc, before);
    let came = outcome_of(read_input_from(&memory, &mut Source::new(4, 1)));
    equal(format_args!("after {before}"), came, wanted)
}

/// A growth for the turn, and one for each read that gives bytes.
#[test]
fn every_growth_may_be_refused(rt: HostRuntime) -> Result<(), Fail> {
    for before in 0..5 {
        check_with(rt.alloc(), before, Outcome::NoMemory)?;
    }
    check_with(rt.alloc(), 5, Outcome::Bytes(4))
}

fn check_limit(alloc: Global, step: usize) -> Result<(), Fail> {
    let (came, _) = outcome_at(alloc, Source::new(MOST_INPUT, step));
    equal(
        format_args!("{step} at a time"),
        came,
        Outcome::Bytes(MOST_INPUT),
    )
}

#[test]
fn takes_as_much_as_the_limit(rt: HostRuntime) -> Result<(), Fail> {
    check_limit(rt.alloc(), 65_536)?;
    check_limit(rt.alloc(), 60_001)
}

/// More bytes than the limit are refused, and no more are read than one more turn has.
fn check_too_long(alloc: Global, left: usize, step: usize, most: usize) -> Result<(), Fail> {
    let (came, reads) = outcome_at(alloc, Source::new(left, step));
    equal(
        format_args!("{left} bytes, {step} at a time"),
        (came, reads <= most),
        (Outcome::TooLong, true),
    )
}

/// How many bytes there are, how many a read gives, and how many reads there may be.
static TOO_LONG: [(usize, usize, usize); 3] = [
    (MOST_INPUT + 1, 65_536, MOST_INPUT / 65_536 + 1),
    (MOST_INPUT + 1, 60_001, MOST_INPUT / 60_001 + 1),
    (usize::MAX, 65_536, MOST_INPUT / 65_536 + 1),
];

#[test]
fn refuses_more_than_the_limit(rt: HostRuntime) -> Result<(), Fail> {
    for (left, step, most) in &TOO_LONG {
        check_too_long(rt.alloc(), *left, *step, *most)?;
    }
    Ok(())
}

/// How many bytes there are, how many a read gives, for how many there is room at first, how many
/// there may be, how many reads there are, and what comes of it.
type Within = (usize, usize, usize, usize, usize, Outcome);

static WITHIN: [Within; 12] = [
    (0, 1, 0, 0, 1, Outcome::Bytes(0)),
    (1, 1, 0, 0, 1, Outcome::LongerThan(0)),
    (5, 5, 0, 5, 2, Outcome::Bytes(5)),
    (5, 2, 5, 5, 4, Outcome::Bytes(5)),
    (5, 2, 3, 5, 4, Outcome::Bytes(5)),
    (5, 2, 9, 5, 4, Outcome::Bytes(5)),
    (6, 5, 5, 5, 2, Outcome::LongerThan(5)),
    (6, 1, 0, 5, 6, Outcome::LongerThan(5)),
    (65_537, 65_536, 65_537, 65_537, 3, Outcome::Bytes(65_537)),
    (
        65_538,
        65_536,
        65_537,
        65_537,
        2,
        Outcome::LongerThan(65_537),
    ),
    (
        17_000_000,
        99_999,
        17_000_000,
        4_294_967_295,
        261,
        Outcome::Bytes(17_000_000),
    ),
    (
        usize::MAX,
        65_536,
        0,
        17_000_000,
        260,
        Outcome::LongerThan(17_000_000),
    ),
];

fn check_within(
    alloc: Global,
    (left, step, room, most, reads, wanted): Within,
) -> Result<(), Fail> {
    let mut source = Source::new(left, step);
    let came = outcome_of(read_within(&alloc, &mut source, room, most));
    equal(
        format_args!("{left} bytes of {most}, {step} at a time"),
        (came, source.reads),
        (wanted, reads),
    )
}

#[test]
fn reads_within_another_limit(rt: HostRuntime) -> Result<(), Fail> {
    for row in &WITHIN {
        check_within(rt.alloc(), *row)?;
    }
    Ok(())
}

/// A growth for the turn, one for the room, and one for each read that gives bytes.
#[test]
fn every_growth_within_a_limit_may_be_refused(rt: HostRuntime) -> Result<(), Fail> {
    for before in 0..7 {
        let memory = RefusesOne::behind(rt.alloc(), before);
        let came = outcome_of(read_within(&memory, &mut Source::new(4, 1), 4, 4));
        let wanted = if before < 6 {
            Outcome::NoMemory
        } else {
            Outcome::Bytes(4)
        };
        equal(format_args!("after {before}"), came, wanted)?;
    }
    Ok(())
}
