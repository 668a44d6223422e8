//! Replies with the numbers of their lines, on writers that take a few bytes at a time, and then
//! none.

use script_calls::Replies;
use std::alloc::Global;
use std::io::{ErrorKind, Write};
use std::test::*;
use std::{io, str};
use test_support::{Narrow, WhenFull, equal, holds};

/// Lines, the numbers of the replies, what is written, and whether a line was refused.
static REPLIES: [(&str, &[usize], &str, bool); 7] = [
    ("", &[1], "", false),
    ("ok\nok 1\n", &[2, 5], "2 ok\n5 ok 1\n", false),
    (
        "ok \"refused\"\nrefused 1 InvalidHandle\nok\n",
        &[1, 10, 4_000_000_000],
        "1 ok \"refused\"\n10 refused 1 InvalidHandle\n4000000000 ok\n",
        true,
    ),
    (
        "line 2 UnknownCommand\n",
        &[1, 3],
        "line 2 UnknownCommand\n",
        false,
    ),
    ("bad BadMagic\n", &[1], "bad BadMagic\n", false),
    ("ok\nok\n", &[7], "7 ok\nok\n", false),
    (
        "refused 26 OutOfMemory\n",
        &[],
        "refused 26 OutOfMemory\n",
        true,
    ),
];

/// Writes lines in pieces of `step` bytes to a writer with room for `room` bytes, which takes
/// `step` at a time.
fn put<'a>(
    alloc: Global,
    lines: &str,
    numbers: &'a [usize],
    room: usize,
    step: usize,
) -> (Replies<'a, Narrow>, io::Result<()>) {
    let narrow = Narrow::new(alloc, room, step, WhenFull::Fails(ErrorKind::StorageFull));
    let mut replies = Replies::new(narrow, numbers);
    for piece in lines.as_bytes().chunks(step.max(1)) {
        if let Err(fault) = replies.write_all(piece) {
            return (replies, Err(fault));
        }
    }
    (replies, Ok(()))
}

#[test]
fn replies_have_their_numbers(rt: HostRuntime) -> Result<(), Fail> {
    for (lines, numbers, wanted, is_refused) in &REPLIES {
        for step in [1, 2, 3, 100] {
            let (replies, written) = put(rt.alloc(), lines, numbers, 1000, step);
            written?;
            equal(*lines, replies.any_refused, *is_refused)?;
            equal(*lines, str::from_utf8(&replies.writer.taken)?, *wanted)?;
        }
    }
    Ok(())
}

#[test]
fn replies_are_cut(rt: HostRuntime) -> Result<(), Fail> {
    for (lines, numbers, wanted, _) in &REPLIES {
        for room in 0..wanted.len() {
            let (replies, written) = put(rt.alloc(), lines, numbers, room, 2);
            let is_cut = replies.writer.is_cut_at(room);
            holds(*lines, written.is_err() && is_cut)?;
            holds(*lines, wanted.as_bytes().starts_with(&replies.writer.taken))?;
        }
    }
    Ok(())
}
