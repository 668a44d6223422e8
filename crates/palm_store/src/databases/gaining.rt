//! Chunks of zeros for the data of a new database, made one after the other.

ghost use Rattle.std.specs.Prelude.{◌≡◌, ◌+◌, [], ◌∷◌, length, IfOk, IfErr, OnOk, OnErr};
ghost use Rattle.database_edits.specs.Kept.{OnlyWrites, OnlySlides};
ghost use Rattle.heap_model.specs.Heap.{HeapAccepted};
ghost use Rattle.heap_model.specs.Reading.{held};
ghost use Rattle.heap_model.specs.Leaving.{Leaves};
ghost use Rattle.heap_model.specs.StoreWords.{all_gone};
ghost use Rattle.heap_model.specs.FileSteps.{makings};
ghost use Rattle.palm_store.specs.WholeDatabases.{data_sizes, numbers_in, RunsOut, MakesAll, AreOwnChunks};

use crate::chunks::free_chunk_of;
use crate::databases::whole::{BlockSizes, size_at};
use crate::entries::EntryInfo;
use heap_model::{Name, Refusal};
use mem_manager::{DATA_OWNER, Heap};

/// Makes a chunk of zeros for data, of the given size. If no size is given, it makes none and
/// returns `Name(0)`.
///
/// # Errors
/// - `NotEnoughSpace`: if there is no room. Nothing has changed then.
fn make_sized(heap: &mut Heap, size: Option<u32>) -> Result<Name, Refusal>
    requires heap { HeapAccepted heap.old.bytes }
    ensures made { IfOk result (λ name.
        MakesAll heap.old.bytes heap.new.bytes (size ∷ []) (name.0 ∷ [])) }
    ensures no_room { OnErr result
        (RunsOut heap.old.bytes (length (makings (size ∷ []))) (makings (size ∷ []))) }
    ensures refusal { IfErr result (λ refusal. refusal ≡ Refusal.NotEnoughSpace) }
    ensures refused { OnErr result (heap.new ≡ heap.old) }
    ensures kept { OnlySlides heap.old heap.new }
{
    match size {
        Some(size) => heap.sys_new(size, DATA_OWNER),
        None => Ok(Name(0)),
    }
}

/// Frees the chunks of these names, except for `Name(0)`.
pub(crate) fn free_named(heap: &mut Heap, names: &[Name])
    requires heap { HeapAccepted heap.old.bytes }
    requires own { AreOwnChunks heap.old.bytes (numbers_in names.now) }
    ensures leaves { Leaves heap.old.bytes heap.new.bytes
        (all_gone (held heap.old.bytes) (numbers_in names.now)) }
    ensures kept { OnlyWrites heap.old heap.new }
{
    for index in 0..names.len() {
        free_chunk_of(heap, names[index]);
    }
}

/// Makes a chunk of zeros for each info block and the data of each entry, and puts their names into
/// `names`, in that order.
///
/// # Errors
/// - `NotEnoughSpace`: if there is no room. The heap then has the same contents as before.
pub(crate) fn make_data(
    heap: &mut Heap,
    blocks: BlockSizes,
    entries: &[(EntryInfo, Option<u32>)],
    names: &mut [Name],
) -> Result<(), Refusal>
    requires heap { HeapAccepted heap.old.bytes }
    requires names { length names.old ≡ 2 + length entries.now }
    ensures made { OnOk result (MakesAll heap.old.bytes heap.new.bytes
        (data_sizes blocks entries.now) (numbers_in names.new)) }
    ensures names { length names.new ≡ length names.old }
    ensures no_room { OnErr result (RunsOut heap.old.bytes
        (length (makings (data_sizes blocks entries.now)))
        (makings (data_sizes blocks entries.now))) }
    ensures refusal { IfErr result (λ refusal. refusal ≡ Refusal.NotEnoughSpace) }
    ensures refused { OnErr result (Leaves heap.old.bytes heap.new.bytes (held heap.old.bytes)) }
    ensures kept { OnlySlides heap.old heap.new }
{
    for index in 0..names.len() {
        match make_sized(heap, size_at(blocks, entries, index)) {
            Ok(name) => names[index] = name,
            Err(refusal) => {
                free_named(heap, &names[..index]);
                return Err(refusal);
            }
        }
    }
    Ok(())
}
