//! Files that are rewritten.

use crate::samples::{MEMO_FILE, MIXED_FILE, changed, listed, rewritten};
use program_io::Status;
use std::alloc::Global;
use std::test::*;
use test_support::{
    EMPTY_FILE, EMPTY_WRITTEN, ORDER_FILE, ORDER_WRITTEN, TINY_FILE, bytes_of, equal, holds,
};

/// Files, their canonical forms, and the lines that are printed.
static FORMS: [(&str, &str, &[u8]); 4] = [
    (EMPTY_FILE, EMPTY_WRITTEN, b"ok 80\nchanges filler\n"),
    (
        ORDER_FILE,
        ORDER_WRITTEN,
        b"ok 112\nchanges busy ids order\n",
    ),
    (TINY_FILE, TINY_FILE, b"ok 106\ncanonical\n"),
    (MEMO_FILE, MEMO_FILE, b"ok 97\ncanonical\n"),
];

fn check_form(alloc: Global, file: &str, form: &str, line: &[u8]) -> Result<(), Fail> {
    let (status, written, text) = rewritten(alloc, &bytes_of(alloc, file)?)?;
    equal(file, status, Status::Done)?;
    equal(file, written, bytes_of(alloc, form)?)?;
    equal(file, text.as_slice(), line)
}

#[test]
fn canonical_forms_are_written(rt: HostRuntime) -> Result<(), Fail> {
    for (file, form, line) in &FORMS {
        check_form(rt.alloc(), file, form, line)?;
    }
    Ok(())
}

/// A file that changes is listed as canonical once it is rewritten.
#[test]
fn what_is_written_is_canonical(rt: HostRuntime) -> Result<(), Fail> {
    for file in [EMPTY_FILE, ORDER_FILE, MIXED_FILE] {
        let (_, written, _) = rewritten(rt.alloc(), &bytes_of(rt.alloc(), file)?)?;
        let (status, text) = listed(rt.alloc(), &written)?;
        equal(file, status, Status::Done)?;
        holds(file, text.ends_with(b"canonical\n"))?;
    }
    Ok(())
}

#[test]
fn damaged_files_are_not_rewritten(rt: HostRuntime) -> Result<(), Fail> {
    let file = changed(rt.alloc(), ORDER_FILE, 86, &[0, 0, 0, 0x65])?;
    let (status, written, text) = rewritten(rt.alloc(), &file)?;
    equal("status", status, Status::Refused)?;
    equal("file", written.len(), 0)?;
    equal("text", text.as_slice(), b"bad BadOffset 1\nat 86\n")
}
