//! The canonical forms of files.

use crate::store::blocks::BACKWARD;
use allowance::Allowance;
use canonical_file::{CanonicalFault, canonical_bytes};
use heap_model::FileFault;
use pdb_format::{OpenFault, PdbFile};
use std::alloc::Global;
use std::test::*;
use test_support::{
    EMPTY_FILE, EMPTY_WRITTEN, ORDER_FILE, ORDER_WRITTEN, RefusesOne, TINY_FILE, bytes_of, equal,
};

/// A file of two records whose seed is near the greatest ID. It is written as it is.
const IDS_FILE: &str = "496473 00*29 0000 0000 00*24 44415441 54657374 07fffffe 00000000 0002 \
    00000060 00 ffffff 00000060 00 000001 0000";

/// The canonical form of `BACKWARD`.
const BACKWARD_WRITTEN: &str = "4261636b 00*28 \
    0000 0000 00*16 00000060 00000061 44415441 54657374 00000000 00000000 0002 \
    00000063 00 000001 00000065 00 000002 0000 07 0506 0304 0102";

/// Files, and their canonical forms.
static FORMS: [(&str, &str); 5] = [
    (EMPTY_FILE, EMPTY_WRITTEN),
    (ORDER_FILE, ORDER_WRITTEN),
    (IDS_FILE, IDS_FILE),
    (TINY_FILE, TINY_FILE),
    (BACKWARD, BACKWARD_WRITTEN),
];

/// The most bytes that a file may have here.
const MOST_FILE: usize = 16_777_216;

/// Returns the canonical form of a file, or the reason why there is none. A file that is too large
/// has neither.
fn form_of<A: Allowance>(memory: &A, file: &[u8]) -> Option<Result<Vec<u8>, CanonicalFault>> {
    if file.len() > MOST_FILE {
        return None;
    }
    match PdbFile::open(memory, file) {
        Ok(file) => match canonical_bytes(memory, &file) {
            Ok(form) => Some(Ok(form)),
            Err(_) => Some(Err(CanonicalFault::OutOfMemory)),
        },
        Err(OpenFault::BadFile(fault)) => Some(Err(CanonicalFault::BadFile(fault))),
        Err(OpenFault::OutOfMemory) => Some(Err(CanonicalFault::OutOfMemory)),
    }
}

fn check_form(alloc: Global, (file, form): (&str, &str)) -> Result<(), Fail> {
    let bytes = bytes_of(alloc, file)?;
    let wanted = bytes_of(alloc, form)?;
    equal(
        format_args!("{file}"),
        form_of(&alloc, &bytes),
        Some(Ok(wanted)),
    )
}

#[test]
fn files_have_their_canonical_forms(rt: HostRuntime) -> Result<(), Fail> {
    for row in &FORMS {
        check_form(rt.alloc(), *row)?;
        check_form(rt.alloc(), (row.1, row.1))?;
    }
    Ok(())
}

/// Listings of damaged files, and what is wrong with each.
static FAULTS: [(&str, FileFault); 2] = [
    ("456d707479", FileFault::Truncated),
    (
        "00*60 44415441 54657374 00000000 00000000 0000",
        FileFault::EmptyName,
    ),
];

#[test]
fn damaged_files_are_refused(rt: HostRuntime) -> Result<(), Fail> {
    for (file, fault) in &FAULTS {
        let form = form_of(&rt.alloc(), &bytes_of(rt.alloc(), file)?);
        let wanted = Some(Err(CanonicalFault::BadFile(*fault)));
        equal(format_args!("{file}"), form, wanted)?;
    }
    Ok(())
}

/// The number of allocations before the form is there: each of them fails in turn.
#[test]
fn refused_memory_is_told(rt: HostRuntime) -> Result<(), Fail> {
    let file = bytes_of(rt.alloc(), TINY_FILE)?;
    for granted in 0..4 {
        let memory = RefusesOne::behind(rt.alloc(), granted);
        let form = form_of(&memory, &file);
        equal(granted, form, Some(Err(CanonicalFault::OutOfMemory)))?;
    }
    Ok(())
}
