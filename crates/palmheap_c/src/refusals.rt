//! The names of refusals.

ghost use Rattle.std.specs.Prelude.{◌≡◌, ◌≢◌, IfSome, IsNone};
ghost use Rattle.heap_model.specs.Numbers.{number_of};
ghost use Rattle.heap_model.specs.declared.refusal.Refusal as refusals;
ghost use Rattle.palmheap_c.specs.Refusals.{NamesRefusal};

use crate::buffers::put_coded;
use heap_model::{FileFault, Refusal};

/// The result of `palmheap_refusal_name` if no refusal has the number.
const CALL_NO_REFUSAL: u32 = 101;

/// Writes the name of a refusal into a buffer. Sets `count` to its size in bytes, also if the
/// buffer is too short for it.
#[unsafe(no_mangle)]
pub extern "C" fn palmheap_refusal_name(refusal: u32, name: &mut [u8], count: &mut usize) -> u32
    ensures { NamesRefusal refusal name.old name.new count.old count.new result }
{
    match refusal_of(refusal) {
        Some(found) => put_coded(found.name().as_bytes(), name, count),
        None => CALL_NO_REFUSAL,
    }
}

/// Returns the refusal with a number. Of the refusals `BadFile` it returns the first one.
#[tactic(auto, using(crate::proofs::RefusalLaws::is_in_range))]
fn refusal_of(number: u32) -> Option<Refusal>
    ensures some { IfSome result (λ refusal. number ≡ number_of refusal) }
    ensures none { IsNone result → (refusal : refusals.Refusal) → number ≢ number_of refusal }
{
    let refusal = match number {
        1 => Refusal::InvalidHandle,
        2 => Refusal::OwnedByDatabase,
        3 => Refusal::ChunkLocked,
        4 => Refusal::ChunkNotLocked,
        5 => Refusal::LockOverflow,
        6 => Refusal::ChunkFixed,
        7 => Refusal::InvalidOwner,
        8 => Refusal::NotEnoughSpace,
        9 => Refusal::OutOfBounds,
        10 => Refusal::NoSuchDatabase,
        11 => Refusal::NotRecordDatabase,
        12 => Refusal::NotResourceDatabase,
        13 => Refusal::ReadOnly,
        14 => Refusal::IndexOutOfRange,
        15 => Refusal::RecordDeleted,
        16 => Refusal::RecordBusy,
        17 => Refusal::TooManyEntries,
        18 => Refusal::InvalidCategory,
        19 => Refusal::DuplicateId,
        20 => Refusal::UniqueIdNotFound,
        21 => Refusal::AlreadyExists,
        22 => Refusal::InvalidName,
        23 => Refusal::ResourceNotFound,
        24 => Refusal::NoInfoBlock,
        25 => Refusal::BadFile(FileFault::Truncated),
        26 => Refusal::OutOfMemory,
        27 => Refusal::Lent,
        _ => return None,
    };
    Some(refusal)
}
