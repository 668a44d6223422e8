//! The check of a whole image.
#![tactic(auto, using(laws_heap::proofs::Lending::all_within, laws_heap::proofs::Lending::all_misses))]

ghost use Rattle.std.specs.Prelude.{◌≡◌, ◌≤◌, ◌*◌, ◌^◌, ◌⊎◌, [], ◌∷◌, List, length, Err, IfOk, IfErr, OnOk, None};
ghost use Rattle.heap_model.specs.Bytes.{AreBytes};
ghost use Rattle.heap_model.specs.Heap.{HeapAccepted, directory_of};
ghost use Rattle.heap_model.specs.Store.{directory_bytes, listed, most_databases, Accepted};
ghost use Rattle.heap_check.specs.Bits.{AreEnoughBits};
ghost use Rattle.heap_check.specs.Faults.{FirstBrought};
ghost use Rattle.heap_check.specs.Owners.{marks_needed as model_needed, NoneMarked, HasOwners};
ghost use Rattle.store_check.specs.Listing.{IsGoodDirectory, AreListed, NotesListed, HaveHeaders};
ghost use Rattle.store_check.specs.Faults.{store_faults, NoneBrought};
ghost use Rattle.store_check.specs.Naming.{AreNamed, accounted, AreEnoughMarks, AreMarks};
ghost use Rattle.bit_sets.specs.Sets.{HasNone};
ghost use Rattle.store_check.specs.Ids.{HasRoomForAll};
ghost use Rattle.store_check.specs.Names.{name_numbers};
ghost use Rattle.store_check.specs.Checks.{IsFirstOr, IsRefusal, SummarizesStore, IsAnswered, listed_faults, marked_faults, own_faults};

use crate::chunks::{first_twice, first_unmarked};
use crate::entries::find_bad_entry;
use crate::fault::StoreFault;
use crate::headers::find_bad_header;
use crate::ids::{empty_set, find_bad_id, greatest_id};
use crate::lookup::{Body, NO_BODY, directory_in};
use crate::marks::{mark, mark_count, no_marks, word_of_mark};
use crate::names::{NAME_NUMBERS, find_bad_name, find_same_name};
use crate::owners::noted_owners;
use crate::slots::find_bad_slot;
use crate::summary::StoreSummary;
use crate::words::listed_count;
use allowance::Allowance;
use db_format::MOST_DATABASES;
use heap_check::{
    MOST_MARKS, NO_OWNER, bits_needed, check_heap_noting, check_heap_with, marks_needed, no_bits,
};
use raw_region::Region;

/// Checks whether the bytes of a region are an accepted heap with databases, and returns its
/// counts. It changes nothing. It allocates:
///
/// - a byte for each slot; with a chain of tables up to two bytes for each word of the image, at
///   most 8 MiB;
/// - a bit for each number up to the greatest ID, at least 32 KiB and at most 2 MiB.
///
/// With a chain it also keeps a bit for each word of the largest image on the stack, 512 KiB.
///
/// # Errors
/// - `OutOfMemory`: an allocation failed.
/// - Any other fault: the image's first one, in the order of `all_faults`.
pub fn check_store<A: Allowance>(memory: &A, region: &Region) -> Result<StoreSummary, StoreFault>
    requires whole { region.now.lents ≡ [] }
    ensures accepted { OnOk result (Accepted region.now.bytes) }
    ensures summary { IfOk result (SummarizesStore region.now.bytes) }
    ensures fault { IfErr result (IsAnswered region.now.bytes) }
    ensures refused { IfErr result (IsRefusal region.now.bytes) }
    ensures no_memory { result ≡ Err StoreFault.OutOfMemory → A.is_short memory.now }
{
    if bits_needed(region) == 0 {
        return check_store_with(memory, region, &mut []);
    }
    check_with_own_bits(memory, region)
}

/// Does the same with bits on the stack. It is never inlined: an image without a chain would pay
/// for the stack space of the bits.
#[inline(never)]
fn check_with_own_bits<A: Allowance>(
    memory: &A,
    region: &Region,
) -> Result<StoreSummary, StoreFault>
    requires whole { region.now.lents ≡ [] }
    ensures accepted { OnOk result (Accepted region.now.bytes) }
    ensures summary { IfOk result (SummarizesStore region.now.bytes) }
    ensures fault { IfErr result (IsAnswered region.now.bytes) }
    ensures refused { IfErr result (IsRefusal region.now.bytes) }
    ensures no_memory { result ≡ Err StoreFault.OutOfMemory → A.is_short memory.now }
{
    let mut bits = no_bits();
    check_store_with(memory, region, &mut bits)
}

/// Checks a region as `check_store` does, with bits of the caller's. `bits_needed` of heap_check
/// returns how many bytes of them are enough. Afterwards some bits may be set. It keeps 64 KiB of
/// marks and 8 KiB of offsets on the stack.
///
/// # Errors
/// The same as for `check_store`.
pub fn check_store_with<A: Allowance>(
    memory: &A,
    region: &Region,
    bits: &mut [u8],
) -> Result<StoreSummary, StoreFault>
    requires whole { region.now.lents ≡ [] }
    requires enough { AreEnoughBits region.now.bytes (length bits.old) }
    requires none { HasNone bits.old }
    ensures accepted { OnOk result (Accepted region.now.bytes) }
    ensures summary { IfOk result (SummarizesStore region.now.bytes) }
    ensures fault { IfErr result (IsAnswered region.now.bytes) }
    ensures refused { IfErr result (IsRefusal region.now.bytes) }
    ensures no_memory { result ≡ Err StoreFault.OutOfMemory → A.is_short memory.now }
{
    if marks_needed(region) > MOST_MARKS {
        return check_large(memory, region, bits);
    }
    let mut owners = [NO_OWNER; MOST_MARKS];
    check_noting(memory, region, bits, &mut owners)
}

/// Does the same for an image with more words than `MOST_MARKS`. It allocates the marks of owners
/// after its heap was found accepted.
fn check_large<A: Allowance>(
    memory: &A,
    region: &Region,
    bits: &mut [u8],
) -> Result<StoreSummary, StoreFault>
    requires whole { region.now.lents ≡ [] }
    requires enough { AreEnoughBits region.now.bytes (length bits.old) }
    requires none { HasNone bits.old }
    ensures accepted { OnOk result (Accepted region.now.bytes) }
    ensures summary { IfOk result (SummarizesStore region.now.bytes) }
    ensures fault { IfErr result (IsAnswered region.now.bytes) }
    ensures refused { IfErr result (IsRefusal region.now.bytes) }
    ensures no_memory { result ≡ Err StoreFault.OutOfMemory → A.is_short memory.now }
{
    let heap = match check_heap_with(region, bits) {
        Ok(heap) => heap,
        Err(fault) => return Err(StoreFault::Heap(fault)),
    };
    let Ok(owners) = noted_owners(memory, region) else {
        return Err(StoreFault::OutOfMemory);
    };
    let databases = check_databases(memory, region, &owners)?;
    Ok(StoreSummary { heap, databases })
}

/// Does the same, with marks in which the heap's check notes owners.
fn check_noting<A: Allowance>(
    memory: &A,
    region: &Region,
    bits: &mut [u8],
    owners: &mut [u8],
) -> Result<StoreSummary, StoreFault>
    requires whole { region.now.lents ≡ [] }
    requires enough { AreEnoughBits region.now.bytes (length bits.old) }
    requires none { HasNone bits.old }
    requires room { model_needed region.now.bytes ≤ length owners.old }
    requires clear { NoneMarked owners.old }
    ensures accepted { OnOk result (Accepted region.now.bytes) }
    ensures summary { IfOk result (SummarizesStore region.now.bytes) }
    ensures fault { IfErr result (IsAnswered region.now.bytes) }
    ensures refused { IfErr result (IsRefusal region.now.bytes) }
    ensures no_memory { result ≡ Err StoreFault.OutOfMemory → A.is_short memory.now }
{
    let heap = match check_heap_noting(region, bits, owners) {
        Ok(heap) => heap,
        Err(fault) => return Err(StoreFault::Heap(fault)),
    };
    let databases = check_databases(memory, region, owners)?;
    Ok(StoreSummary { heap, databases })
}

/// Tests for the faults of the databases in an accepted heap, and returns the number of databases.
fn check_databases<A: Allowance>(
    memory: &A,
    region: &Region,
    owners: &[u8],
) -> Result<u32, StoreFault>
    requires whole { region.now.lents ≡ [] }
    requires accepted { HeapAccepted region.now.bytes }
    requires owners { HasOwners region.now.bytes owners.now }
    ensures accepted { OnOk result (Accepted region.now.bytes) }
    ensures count { IfOk result (λ count. count ≡ length (listed region.now.bytes)) }
    ensures fault { IfErr result (IsFirstOr (store_faults region.now.bytes)) }
    ensures refused { IfErr result (IsRefusal region.now.bytes) }
    ensures no_memory { result ≡ Err StoreFault.OutOfMemory → A.is_short memory.now }
{
    let mut table = [NO_BODY; MOST_DATABASES as usize];
    know_bytes(region);
    let directory = directory_in(region);
    check_marks(memory, region, directory, owners, &mut table)?;
    let headers = &table[..listed_count(directory)];
    check_ids_and_names(memory, region, headers)?;
    Ok(headers.len() as u32)
}

/// Proves that the numbers in a region are bytes, as those in a slice are.
fn know_bytes(region: &Region)
    requires whole { region.now.lents ≡ [] }
    ensures { AreBytes region.now.bytes }
{
    let _bytes = region.as_slice();
}

/// Tests for the faults that are found by marks, with its own marks.
fn check_marks<A: Allowance>(
    memory: &A,
    region: &Region,
    directory: &[u8],
    owners: &[u8],
    table: &mut [Body],
) -> Result<(), StoreFault>
    requires whole { region.now.lents ≡ [] }
    requires accepted { HeapAccepted region.now.bytes }
    requires owners { HasOwners region.now.bytes owners.now }
    requires table { most_databases ≤ length table.old }
    requires directory { directory.now ≡ directory_bytes region.now.bytes }
    ensures fault { IfErr result (IsFirstOr (marked_faults region.now.bytes)) }
    ensures no_memory { result ≡ Err StoreFault.OutOfMemory → A.is_short memory.now }
    ensures none { OnOk result (NoneBrought (marked_faults region.now.bytes)) }
    ensures listing { OnOk result (IsGoodDirectory region.now.bytes directory.now) }
    ensures headers { OnOk result (HaveHeaders region.now.bytes) }
    ensures noted { OnOk result (NotesListed region.now.bytes table.new) }
{
    let Ok(mut marks) = no_marks(memory, mark_count(region)) else {
        return Err(StoreFault::OutOfMemory);
    };
    check_with_marks(region, directory, owners, &mut marks, table)
}

/// Tests for the faults that are found by these marks, none of which is set yet.
fn check_with_marks(
    region: &Region,
    directory: &[u8],
    owners: &[u8],
    marks: &mut [u8],
    table: &mut [Body],
) -> Result<(), StoreFault>
    requires whole { region.now.lents ≡ [] }
    requires accepted { HeapAccepted region.now.bytes }
    requires owners { HasOwners region.now.bytes owners.now }
    requires room { AreEnoughMarks region.now.bytes (length marks.old) }
    requires table { most_databases ≤ length table.old }
    requires directory { directory.now ≡ directory_bytes region.now.bytes }
    requires clear { AreMarks [] marks.old }
    ensures fault { IfErr result (FirstBrought (marked_faults region.now.bytes)) }
    ensures none { OnOk result (NoneBrought (marked_faults region.now.bytes)) }
    ensures listing { OnOk result (IsGoodDirectory region.now.bytes directory.now) }
    ensures headers { OnOk result (HaveHeaders region.now.bytes) }
    ensures noted { OnOk result (NotesListed region.now.bytes table.new) }
{
    mark(chunk_format::directory(region), marks);
    check_listed(region, directory, owners, marks, table)?;
    if let Some(number) = first_twice(marks) {
        return Err(StoreFault::SharedChunk(word_of_mark(number)));
    }
    match first_unmarked(marks, owners) {
        Some(number) => Err(StoreFault::StrayChunk(word_of_mark(number))),
        None => Ok(()),
    }
}

/// Tests for the faults of the databases that the directory lists. The directory's own slot is
/// marked. If there is no fault, all slots that must be named are marked too, and a prefix of the
/// table has all headers.
fn check_listed(
    region: &Region,
    directory: &[u8],
    owners: &[u8],
    marks: &mut [u8],
    table: &mut [Body],
) -> Result<(), StoreFault>
    requires whole { region.now.lents ≡ [] }
    requires accepted { HeapAccepted region.now.bytes }
    requires owners { HasOwners region.now.bytes owners.now }
    requires room { AreEnoughMarks region.now.bytes (length marks.old) }
    requires table { most_databases ≤ length table.old }
    requires directory { directory.now ≡ directory_bytes region.now.bytes }
    requires marks { AreMarks (directory_of region.now.bytes ∷ []) marks.old }
    ensures fault { IfErr result (FirstBrought (listed_faults region.now.bytes)) }
    ensures none { OnOk result (NoneBrought (listed_faults region.now.bytes)) }
    ensures listing { OnOk result (IsGoodDirectory region.now.bytes directory.now) }
    ensures headers { OnOk result (HaveHeaders region.now.bytes) }
    ensures noted { OnOk result (NotesListed region.now.bytes table.new) }
    ensures named { OnOk result (AreNamed region.now.bytes) }
    ensures marked { OnOk result (AreMarks (accounted region.now.bytes) marks.new) }
{
    if let Some(fault) = find_bad_slot(region, owners, marks) {
        return Err(fault);
    }
    if let Some(fault) = find_bad_header(region, directory, owners, table) {
        return Err(fault);
    }
    let headers = &table[..listed_count(directory)];
    match find_bad_entry(region, headers, owners, marks) {
        Some(fault) => Err(fault),
        None => Ok(()),
    }
}

/// Returns the size in bytes of a set with room for all IDs, and for the numbers of names.
fn set_size(region: &Region, headers: &[Body]) -> usize
    requires whole { region.now.lents ≡ [] }
    requires listed { AreListed region.now.bytes headers.now }
    requires headers { HaveHeaders region.now.bytes }
    ensures ids { HasRoomForAll region.now.bytes result }
    ensures names { name_numbers ≤ 8 * result }
    ensures most { result ≤ 2 ^ 21 }
{
    let greatest = greatest_id(region, headers);
    greatest.max(NAME_NUMBERS) as usize / 8 + 1
}

/// Tests for the faults of IDs and names, with its own set of numbers.
fn check_ids_and_names<A: Allowance>(
    memory: &A,
    region: &Region,
    headers: &[Body],
) -> Result<(), StoreFault>
    requires whole { region.now.lents ≡ [] }
    requires listed { AreListed region.now.bytes headers.now }
    requires headers { HaveHeaders region.now.bytes }
    ensures fault { IfErr result (IsFirstOr (own_faults region.now.bytes)) }
    ensures no_memory { result ≡ Err StoreFault.OutOfMemory → A.is_short memory.now }
    ensures none { OnOk result (NoneBrought (own_faults region.now.bytes)) }
{
    let Ok(mut seen) = empty_set(memory, set_size(region, headers)) else {
        return Err(StoreFault::OutOfMemory);
    };
    check_with_set(region, headers, &mut seen)
}

/// Tests for the faults of IDs and names, with this set of numbers, which is empty.
fn check_with_set(region: &Region, headers: &[Body], seen: &mut [u8]) -> Result<(), StoreFault>
    requires whole { region.now.lents ≡ [] }
    requires listed { AreListed region.now.bytes headers.now }
    requires headers { HaveHeaders region.now.bytes }
    requires ids { HasRoomForAll region.now.bytes (length seen.old) }
    requires names { name_numbers ≤ 8 * length seen.old }
    requires empty { HasNone seen.old }
    ensures fault { IfErr result (FirstBrought (own_faults region.now.bytes)) }
    ensures none { OnOk result (NoneBrought (own_faults region.now.bytes)) }
{
    if let Some(fault) = find_bad_id(region, headers, seen) {
        return Err(fault);
    }
    if let Some(fault) = find_bad_name(region, headers) {
        return Err(fault);
    }
    match find_same_name(region, headers, seen) {
        Some(fault) => Err(fault),
        None => Ok(()),
    }
}
