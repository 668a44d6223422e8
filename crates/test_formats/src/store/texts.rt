//! The text of each fault.

use heap_check::HeapFault;
use std::alloc::Global;
use std::fmt::Display;
use std::test::*;
use store_check::StoreFault;
use test_support::equal;

static OF_HEAPS: [(HeapFault, &str); 11] = [
    (HeapFault::TooShort, "TooShort"),
    (HeapFault::BadMagic, "BadMagic"),
    (HeapFault::BadSize, "BadSize"),
    (HeapFault::BadSlotCount, "BadSlotCount"),
    (HeapFault::BadReserved, "BadReserved"),
    (HeapFault::BadPadding, "BadPadding"),
    (HeapFault::BadChunk(40), "BadChunk 40"),
    (HeapFault::SlotMismatch(16), "SlotMismatch 16"),
    (HeapFault::ChunkWithoutSlot(56), "ChunkWithoutSlot 56"),
    (HeapFault::BadFixedOwner(72), "BadFixedOwner 72"),
    (HeapFault::BadDirectory, "BadDirectory"),
];

/// A fault of a heap is told of a store by the same text.
#[test]
fn faults_of_heaps_have_texts(rt: HostRuntime) -> Result<(), Fail> {
    for (fault, text) in &OF_HEAPS {
        check_text(rt.alloc(), *fault, text)?;
        check_text(rt.alloc(), StoreFault::Heap(*fault), text)?;
    }
    Ok(())
}

fn check_text<T: Display + Drop>(alloc: Global, fault: T, text: &str) -> Result<(), Fail> {
    let said = format!(in alloc; "{fault}")?;
    equal("its text", said.as_str(), text)
}

static OF_STORES: [(StoreFault, &str); 9] = [
    (StoreFault::BadDirectorySlot(3), "BadDirectorySlot 3"),
    (StoreFault::BadHeader(4), "BadHeader 4"),
    (StoreFault::BadEntry(5, 6), "BadEntry 5 6"),
    (StoreFault::SharedChunk(24), "SharedChunk 24"),
    (StoreFault::StrayChunk(28), "StrayChunk 28"),
    (StoreFault::BadId(7, 8), "BadId 7 8"),
    (StoreFault::BadName(9), "BadName 9"),
    (StoreFault::SameName(10), "SameName 10"),
    (StoreFault::OutOfMemory, "OutOfMemory"),
];

#[test]
fn faults_of_stores_have_texts(rt: HostRuntime) -> Result<(), Fail> {
    for (fault, text) in &OF_STORES {
        check_text(rt.alloc(), *fault, text)?;
    }
    Ok(())
}
