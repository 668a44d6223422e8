//! Files that were transferred as text, and the files that they were before.

use hints::without_returns;
use std::alloc::Global;
use std::test::Fail;
use test_support::{RefusesOne, equal, holds};

/// Files, and what they were before, if each line feed has a carriage return before it.
static CONVERTED: [(&[u8], Option<&[u8]>); 9] = [
    (b"", Some(b"")),
    (b"one", Some(b"one")),
    (b"\r\n", Some(b"\n")),
    (b"one\r\ntwo\r\n", Some(b"one\ntwo\n")),
    (b"\r\r\n\r", Some(b"\r\n\r")),
    (b"\0\r\n\r\n", Some(b"\0\n\n")),
    (b"\n", None),
    (b"one\r\n\ntwo", None),
    (b"one\r\ntwo\n", None),
];

fn check_converted(alloc: Global, file: &[u8], wanted: Option<&[u8]>) -> Result<(), Fail> {
    let memory = RefusesOne::behind(alloc, 4096);
    let original = without_returns(&memory, file)?;
    match (original, wanted) {
        (Some(original), Some(wanted)) => equal(file.len(), original.as_slice(), wanted),
        (None, None) => Ok(()),
        _ => Err(Fail::new(format_args!("{file:?}"))),
    }
}

#[test]
fn returns_before_line_feeds_are_removed(rt: HostRuntime) -> Result<(), Fail> {
    for (file, wanted) in &CONVERTED {
        check_converted(rt.alloc(), file, *wanted)?;
    }
    let memory = RefusesOne::behind(rt.alloc(), 0);
    holds("memory", without_returns(&memory, b"a").is_err())
}
