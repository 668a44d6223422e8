//! Each front of a script.

use palm_script::{ScriptFault, parse};
use std::alloc::Global;
use std::test::*;
use test_support::holds;

/// Lines of many commands, with labels, numbers in both spellings, words and texts.
const SCRIPT_TO_CUT: &str =
    "create d \"Notes\" \"DATA\" \"Test\" 0 5\nrecnew d 0 4 r\nrecrelease d 0 0\n\
    recset d 0 0xF3 9\nrecinfo d 0\nrecnew d 0 0 s\nrecset d 0 0 9\nrecfind d 2\nrecfind d 1\n\
    catcount d 3\ncatcount d 16\ncatnext d 0 3\ncatpos d 1 255\nrecget d 0 h\ncatmove d 5 3 1\n\
    recinfo d 1\ncatdelete d 5\nrecinfo d 1\ndbinfo d\n";

/// Whether a prefix of the script is read, by its whole lines and the one that it breaks off.
fn is_read(alloc: Global, front: &[u8]) -> bool {
    let whole = front.iter().filter(|byte| **byte == b'\n').count();
    let is_whole = front.is_empty() || front.ends_with(b"\n");
    let lines = if is_whole {
        whole
    } else {
        whole.saturating_add(1)
    };
    match parse(alloc, front) {
        Ok(script) => script.lines().len() == lines,
        Err(fault) => {
            !is_whole && fault.line == lines && fault.fault != ScriptFault::OutOfMemory
        }
    }
}

fn check_front(alloc: Global, length: usize) -> Result<(), Fail> {
    let front = SCRIPT_TO_CUT.as_bytes().get(..length).ok_or("no front")?;
    holds(format_args!("{length} bytes"), is_read(alloc, front))
}

/// What is before the line that breaks off is read, and that line alone may be bad.
#[test]
fn every_front_of_a_script_is_read(rt: HostRuntime) -> Result<(), Fail> {
    for length in 0..=SCRIPT_TO_CUT.len() {
        check_front(rt.alloc(), length)?;
    }
    Ok(())
}
