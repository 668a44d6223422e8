//! The names of the kinds of faults.

ghost use Rattle.std.specs.Prelude.{◌≡◌, ◌≢◌, IfSome, IsNone};
ghost use Rattle.heap_check.specs.declared.fault.HeapFault as heap_faults;
ghost use Rattle.heap_model.specs.declared.file_fault.FileFault as file_faults;
ghost use Rattle.script_lines.specs.declared.fault.ScriptFault as script_faults;
ghost use Rattle.store_check.specs.declared.fault.StoreFault as store_faults;
ghost use Rattle.palmheap_c.specs.Answers.{of_file, of_heap, of_store};
ghost use Rattle.palmheap_c.specs.Kinds.{IsKindName, IsNoKind, NamesKind, kind_of_script};

use crate::answers::TOO_LARGE_TO_MIGRATE;
use crate::buffers::put_coded;
use heap_check::HeapFault;
use heap_migration::MigrateFault;
use heap_model::{FileFault, Which};
use palm_script::ScriptFault;
use store_check::StoreFault;

/// The result of `palmheap_kind_name` if no fault has the kind.
const CALL_NO_FAULT: u32 = 103;

/// Writes the name of a kind of fault into a buffer. Sets `count` to its size in bytes, also if the
/// buffer is too short for it.
#[unsafe(no_mangle)]
pub extern "C" fn palmheap_kind_name(kind: u32, name: &mut [u8], count: &mut usize) -> u32
    ensures { NamesKind kind name.old name.new count.old count.new result }
{
    match name_of(kind) {
        Some(found) => put_coded(found.as_bytes(), name, count),
        None => CALL_NO_FAULT,
    }
}

/// Returns the name of a kind of fault.
fn name_of(kind: u32) -> Option<&'static str>
    ensures some { IfSome result (λ name. IsKindName kind name.now) }
    ensures none { IsNone result → IsNoKind kind }
{
    if let Some(fault) = store_fault_of(kind) {
        return Some(fault.name());
    }
    if let Some(fault) = file_fault_of(kind) {
        return Some(fault.name());
    }
    if let Some(fault) = script_fault_of(kind) {
        return Some(fault.name());
    }
    if kind == TOO_LARGE_TO_MIGRATE.kind {
        return Some(MigrateFault::TooLarge.name());
    }
    None
}

/// Returns the fault of an image with a kind. Its numbers are 0.
fn store_fault_of(kind: u32) -> Option<StoreFault>
    ensures some { IfSome result (λ fault. kind ≡ (of_store fault).kind) }
    ensures none { IsNone result → (fault : store_faults.StoreFault) → kind ≢ (of_store fault).kind }
{
    if let Some(fault) = heap_fault_of(kind) {
        return Some(StoreFault::Heap(fault));
    }
    let fault = match kind {
        1 => StoreFault::OutOfMemory,
        40 => StoreFault::BadDirectorySlot(0),
        41 => StoreFault::BadHeader(0),
        42 => StoreFault::BadEntry(0, 0),
        43 => StoreFault::SharedChunk(0),
        44 => StoreFault::StrayChunk(0),
        45 => StoreFault::BadId(0, 0),
        46 => StoreFault::BadName(0),
        47 => StoreFault::SameName(0),
        _ => return None,
    };
    Some(fault)
}

/// Returns the fault of an image that is no heap. Its number is 0.
#[tactic(auto, using(crate::proofs::KindLaws::heap_range))]
fn heap_fault_of(kind: u32) -> Option<HeapFault>
    ensures some { IfSome result (λ fault. kind ≡ (of_heap fault).kind) }
    ensures none { IsNone result → (fault : heap_faults.HeapFault) → kind ≢ (of_heap fault).kind }
{
    let fault = match kind {
        20 => HeapFault::TooShort,
        21 => HeapFault::BadMagic,
        22 => HeapFault::BadSize,
        23 => HeapFault::BadSlotCount,
        24 => HeapFault::BadReserved,
        25 => HeapFault::BadPadding,
        26 => HeapFault::BadChunk(0),
        27 => HeapFault::BadTable(0),
        28 => HeapFault::SlotMismatch(0),
        29 => HeapFault::ChunkWithoutSlot(0),
        30 => HeapFault::BadFixedOwner(0),
        31 => HeapFault::BadDirectory,
        _ => return None,
    };
    Some(fault)
}

/// Returns the fault of a file with a kind. Its number is 0.
#[tactic(auto, using(crate::proofs::KindLaws::file_range))]
fn file_fault_of(kind: u32) -> Option<FileFault>
    ensures some { IfSome result (λ fault. kind ≡ (of_file fault).kind) }
    ensures none { IsNone result → (fault : file_faults.FileFault) → kind ≢ (of_file fault).kind }
{
    let fault = match kind {
        60 => FileFault::Truncated,
        61 => FileFault::ChainedList,
        62 => FileFault::EmptyName,
        63 => FileFault::BadInfo(Which::App),
        64 => FileFault::BadInfo(Which::Sort),
        65 => FileFault::BadOffset(0),
        _ => return None,
    };
    Some(fault)
}

/// Returns the fault of a line with a kind. Its number is 0.
#[tactic(auto, using(crate::proofs::KindLaws::script_range))]
fn script_fault_of(kind: u32) -> Option<ScriptFault>
    ensures some { IfSome result (λ fault. kind ≡ kind_of_script fault) }
    ensures none { IsNone result
        → (fault : script_faults.ScriptFault) → kind ≢ kind_of_script fault }
{
    let fault = match kind {
        1 => ScriptFault::OutOfMemory,
        70 => ScriptFault::UnknownCommand,
        71 => ScriptFault::WrongCount,
        72 => ScriptFault::BadWord(0),
        _ => return None,
    };
    Some(fault)
}
