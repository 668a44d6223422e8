//! Calls with the replies that they must have, as lines of text: a line has a call and its reply,
//! with `=` between.

use crate::heap::beside::Beside;
use crate::notation::{check_reply, memory_call_of, sides_of};
use std::alloc::Global;
use std::test::*;
use test_support::image;

/// What an example is about, the listing of the image that it starts from, and its lines.
pub(crate) type Example = (&'static str, &'static str, &'static str);

/// Does the call of a line.
fn check_line(alloc: Global, beside: &mut Beside, about: &str, line: &str) -> Result<(), Fail> {
    let spot = format!(in alloc; "{about}: {line}")?;
    check_call(alloc, beside, spot.as_str(), sides_of(line)?)
}

fn check_call(
    alloc: Global,
    beside: &mut Beside,
    spot: &str,
    (call, right): (&str, &str),
) -> Result<(), Fail> {
    let reply = beside.call(alloc, spot, &memory_call_of(alloc, call)?)?;
    check_reply(alloc, spot, &reply, right)
}

/// Does the calls of some lines, one after the other: each on a heap that is adopted for it, if
/// `anew`, and else on one heap, which may have had calls before.
pub(crate) fn check_on(
    alloc: Global,
    beside: &mut Beside,
    (about, lines): (&str, &str),
    anew: bool,
) -> Result<(), Fail> {
    for line in lines.lines() {
        if anew {
            beside.adopt_anew(alloc)?;
        }
        check_line(alloc, beside, about, line.trim())?;
    }
    Ok(())
}

/// Does the calls of examples, each from its own image.
pub(crate) fn check_all(
    rt: &impl AllocGlobal,
    examples: &[Example],
    anew: bool,
) -> Result<(), Fail> {
    for (about, listing, lines) in examples {
        let mut beside = Beside::new(rt.alloc(), image(rt.alloc(), listing, "")?)?;
        check_on(rt.alloc(), &mut beside, (about, lines), anew)?;
    }
    Ok(())
}
