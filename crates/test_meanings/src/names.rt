//! A fault and a refusal are printed by their names, which `explain` knows.

use chunk_format::BlankFault;
use explanations::explain_word;
use heap_check::HeapFault;
use heap_migration::MigrateFault;
use heap_model::{FileFault, Refusal, Which};
use palm_text::Counted;
use program_io::Status;
use script_lines::ScriptFault;
use std::alloc::Global;
use std::fmt::Display;
use std::test::*;
use store_check::StoreFault;
use test_support::equal;

/// Checks the text of a fault, and that `explain` knows its name.
fn check<F: Display + Drop>(
    alloc: Global,
    fault: F,
    name: &str,
    printed: &str,
) -> Result<(), Fail> {
    let text = format!(in alloc; "{fault}")?;
    equal(name, text.as_str(), printed)?;
    let mut out = Counted::new(Vec::new(alloc));
    equal(name, explain_word(name.as_bytes(), &mut out), Status::Done)
}

#[test]
fn faults_are_printed_by_name(rt: HostRuntime) -> Result<(), Fail> {
    let alloc = rt.alloc();
    let heap = HeapFault::BadChunk(8);
    check(alloc, heap, heap.name(), "BadChunk 8")?;
    let store = StoreFault::BadEntry(1, 2);
    check(alloc, store, store.name(), "BadEntry 1 2")?;
    let inner = StoreFault::Heap(HeapFault::BadMagic);
    check(alloc, inner, inner.name(), "BadMagic")?;
    let line = ScriptFault::BadWord(2);
    check(alloc, line, line.name(), "BadWord 2")?;
    let blank = BlankFault::BadSlotCount;
    check(alloc, blank, blank.name(), "BadSlotCount")?;
    let migrate = MigrateFault::TooLarge;
    check(alloc, migrate, migrate.name(), "TooLarge")
}

#[test]
fn refusals_are_printed_by_name(rt: HostRuntime) -> Result<(), Fail> {
    let alloc = rt.alloc();
    let info = FileFault::BadInfo(Which::Sort);
    check(alloc, info, info.name(), "BadInfo sort")?;
    let entry = FileFault::BadOffset(1);
    check(alloc, entry, entry.name(), "BadOffset 1")?;
    let bad = Refusal::BadFile(info);
    check(alloc, bad, bad.name(), "BadFile BadInfo sort")?;
    let lent = Refusal::Lent;
    check(alloc, lent, lent.name(), "Lent")
}
