//! The results of the functions for files and images: faults as numbers.

ghost use Rattle.std.specs.Prelude.{◌≡◌, ◌≢◌};
ghost use Rattle.palmheap_c.specs.Answers as answers;

use heap_check::HeapFault;
use heap_model::{FileFault, Which};
use store_check::StoreFault;

/// The result of a function: the kind of a fault and the numbers that locate it. The kind is 0 if
/// there is no fault. A number is 0 if the kind doesn't have it.
#[repr(C)]
#[derive(Clone, Copy, Debug, PartialEq, Eq)]
pub struct Answer {
    pub kind: u32,
    pub at: u32,
    pub entry: u32,
}

pub(crate) const NO_FAULT: Answer = Answer {
    kind: 0,
    at: 0,
    entry: 0,
};

/// An allocation failed.
pub(crate) const NO_MEMORY: Answer = Answer {
    kind: 1,
    at: 0,
    entry: 0,
};

/// A buffer of the caller is too short.
pub(crate) const NO_ROOM: Answer = Answer {
    kind: 2,
    at: 0,
    entry: 0,
};

/// A file is longer than 4,294,967,293 bytes.
pub(crate) const TOO_LARGE: Answer = Answer {
    kind: 3,
    at: 0,
    entry: 0,
};

/// No image has this size.
pub(crate) const BAD_SIZE: Answer = Answer {
    kind: 4,
    at: 0,
    entry: 0,
};

/// No image of the size has this number of slots.
pub(crate) const BAD_SLOT_COUNT: Answer = Answer {
    kind: 5,
    at: 0,
    entry: 0,
};

/// No file has the values that are given.
pub(crate) const NO_FILE: Answer = Answer {
    kind: 6,
    at: 0,
    entry: 0,
};

/// An image has one table of slots, and is too large to get a chain of tables.
pub(crate) const TOO_LARGE_TO_MIGRATE: Answer = Answer {
    kind: 104,
    at: 0,
    entry: 0,
};

/// Returns a kind without numbers.
fn plain(kind: u32) -> Answer
    ensures { result ≡ answers.answer kind 0 0 }
{
    Answer {
        kind,
        at: 0,
        entry: 0,
    }
}

/// Returns a kind with one number.
fn numbered(kind: u32, at: u32) -> Answer
    ensures { result ≡ answers.answer kind at 0 }
{
    Answer { kind, at, entry: 0 }
}

/// Returns the fault of a file.
pub(crate) fn of_file(fault: FileFault) -> Answer
    ensures is { result ≡ answers.of_file fault }
    ensures faulty { answers.IsFault result }
{
    match fault {
        FileFault::Truncated => plain(60),
        FileFault::ChainedList => plain(61),
        FileFault::EmptyName => plain(62),
        FileFault::BadInfo(Which::App) => plain(63),
        FileFault::BadInfo(Which::Sort) => plain(64),
        FileFault::BadOffset(index) => numbered(65, index),
    }
}

/// Returns the fault of an image.
pub(crate) fn of_store(fault: StoreFault) -> Answer
    ensures is { result ≡ answers.of_store fault }
    ensures faulty { result ≢ answers.no_fault }
{
    match fault {
        StoreFault::Heap(fault) => of_heap(fault),
        StoreFault::BadDirectorySlot(index) => numbered(40, index),
        StoreFault::BadHeader(db) => numbered(41, db),
        StoreFault::BadEntry(db, entry) => Answer {
            kind: 42,
            at: db,
            entry,
        },
        StoreFault::SharedChunk(slot) => numbered(43, slot),
        StoreFault::StrayChunk(slot) => numbered(44, slot),
        StoreFault::BadId(db, entry) => Answer {
            kind: 45,
            at: db,
            entry,
        },
        StoreFault::BadName(db) => numbered(46, db),
        StoreFault::SameName(db) => numbered(47, db),
        StoreFault::OutOfMemory => NO_MEMORY,
    }
}

/// Returns the fault of an image that is no heap.
fn of_heap(fault: HeapFault) -> Answer
    ensures is { result ≡ answers.of_heap fault }
    ensures faulty { result ≢ answers.no_fault }
{
    match fault {
        HeapFault::TooShort => plain(20),
        HeapFault::BadMagic => plain(21),
        HeapFault::BadSize => plain(22),
        HeapFault::BadSlotCount => plain(23),
        HeapFault::BadReserved => plain(24),
        HeapFault::BadPadding => plain(25),
        HeapFault::BadChunk(at) => numbered(26, at),
        HeapFault::BadTable(index) => numbered(27, index),
        HeapFault::SlotMismatch(slot) => numbered(28, slot),
        HeapFault::ChunkWithoutSlot(at) => numbered(29, at),
        HeapFault::BadFixedOwner(at) => numbered(30, at),
        HeapFault::BadDirectory => plain(31),
    }
}
