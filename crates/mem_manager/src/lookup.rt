//! Finds the chunk of a name or of a place, and refuses a chunk that a call can't use.

ghost use Rattle.std.specs.Prelude.{[], ◌≡◌, ◌≢◌, ◌≤◌, ℕ, IsSome, IfSome, IfNone, IfOk, OnOk, IfErr, OnErr, Some, None};
ghost use Rattle.std.specs.Bool.{OnTrue, OnFalse};
ghost use Rattle.heap_model.specs.Chunk.{fixed_lock, data_owner};
ghost use Rattle.heap_model.specs.Lending.{LendsOther};
ghost use Rattle.raw_region.specs.Marks.{BeginsAt};
ghost use Rattle.heap_model.specs.Reading.{held};
ghost use Rattle.heap_model.specs.Maps.{callers_map};
ghost use Rattle.heap_model.specs.MemorySteps.{IsNowhere};
ghost use Rattle.heap_model.specs.Refusals.{FirstBrings};
ghost use Rattle.heap_place.specs.Found.{IsFound, IsOne, NothingAt};
ghost use Rattle.mem_manager.specs.Lookup.{IsThere, IsCallers, IsOpen};
ghost use Rattle.mem_manager.specs.Known.{KnowsHeld};
ghost use Rattle.mem_manager.specs.Loans.{also_out_checks};

use crate::known::KnownNames;
use chunk_format::{DATA_OWNER, FIXED_LOCK, MANAGERS_OWNER};
use heap_compact::Space;
use heap_model::{Name, Place, Refusal};
use heap_place::Found;

/// Finds the chunk of a name, whoever owns it. Only the look-up of a slot of the first table is in
/// line, so that this is small enough to be in line in a loop.
#[inline(always)]
pub(crate) fn named(space: &Space, known: &KnownNames, name: Name) -> Option<Found>
    requires known { KnowsHeld space.now.bytes known.now }
    ensures found { IfSome result (IsFound space.now.bytes name.0) }
    ensures none { IfNone result (held space.now.bytes name.0 ≡ None) }
{
    if let Some(found) = space.in_slot_by_call(name) {
        return Some(found);
    }
    if is_fixed(space, known, name) {
        return Some(space.chunk(name));
    }
    None
}

/// Returns whether a name that isn't a slot's has a chunk. If the name isn't remembered, all chunks
/// are searched.
#[inline(never)]
fn is_fixed(space: &Space, known: &KnownNames, name: Name) -> bool
    requires known { KnowsHeld space.now.bytes known.now }
    ensures there { OnTrue result (IsSome (held space.now.bytes name.0)) }
    ensures none { OnFalse result (held space.now.bytes name.0 ≡ None) }
{
    space.holds();
    if known.has(name) {
        return true;
    }
    match space.find(name) {
        Some(_) => true,
        None => false,
    }
}

/// Finds the chunk of a name. Refuses a chunk of the manager.
#[inline(always)]
pub(crate) fn find(space: &Space, known: &KnownNames, name: Name) -> Result<Found, Refusal>
    requires known { KnowsHeld space.now.bytes known.now }
    ensures found { IfOk result (IsFound space.now.bytes name.0) }
    ensures callers { IfOk result (IsCallers space.now name.0) }
    ensures none { OnErr result (callers_map space.now.bytes name.0 ≡ None) }
    ensures refusal { IfErr result (λ refusal. refusal ≡ Refusal.InvalidHandle) }
{
    space.holds();
    if let Some(found) = space.in_slot(name) {
        return callers(found);
    }
    if is_fixed(space, known, name) {
        return callers(space.chunk(name));
    }
    Err(Refusal::InvalidHandle)
}

/// Finds the chunk of a name, as `find` does. Remembers a name that isn't a slot's: its chunk is
/// fixed.
#[inline(always)]
pub(crate) fn find_again(
    space: &Space,
    known: &mut KnownNames,
    name: Name,
) -> Result<Found, Refusal>
    requires known { KnowsHeld space.now.bytes known.old }
    ensures found { IfOk result (IsFound space.now.bytes name.0) }
    ensures callers { IfOk result (IsCallers space.now name.0) }
    ensures none { OnErr result (callers_map space.now.bytes name.0 ≡ None) }
    ensures refusal { IfErr result (λ refusal. refusal ≡ Refusal.InvalidHandle) }
    ensures remembered { KnowsHeld space.now.bytes known.new }
{
    space.holds();
    if let Some(found) = space.in_slot(name) {
        return callers(found);
    }
    if is_fixed(space, known, name) {
        known.remember(name);
        return callers(space.chunk(name));
    }
    Err(Refusal::InvalidHandle)
}

/// Finds a chunk whose bytes can be written, as `find_again` does. Refuses a chunk that has no lock
/// and isn't fixed, and one whose bytes are lent.
#[inline(always)]
pub(crate) fn find_open(space: &Space, known: &mut KnownNames, name: Name) -> Result<Found, Refusal>
    requires known { KnowsHeld space.now.bytes known.old }
    ensures found { IfOk result (IsFound space.now.bytes name.0) }
    ensures may_write { IfOk result (IsOpen space.now name.0) }
    ensures why { IfErr result (λ refusal. FirstBrings (also_out_checks space.now name.0) refusal) }
    ensures remembered { KnowsHeld space.now.bytes known.new }
{
    space.holds();
    let found = find_again(space, known, name)?;
    check_locked(found)?;
    check_here(space, found)?;
    Ok(found)
}

/// Returns a chunk that was found, or refuses it if the manager owns it.
#[inline(always)]
fn callers(found: Found) -> Result<Found, Refusal>
    ensures is { IfOk result (λ own. own ≡ found) }
    ensures callers { OnOk result (1 ≤ found.owner) }
    ensures managers { OnErr result (found.owner ≡ 0) }
    ensures refusal { IfErr result (λ refusal. refusal ≡ Refusal.InvalidHandle) }
{
    if found.owner == MANAGERS_OWNER {
        return Err(Refusal::InvalidHandle);
    }
    Ok(found)
}

/// Returns the name of the chunk whose body is at a place. Refuses a chunk of the manager.
pub(crate) fn name_at(space: &Space, known: &KnownNames, place: Place) -> Result<Name, Refusal>
    requires known { KnowsHeld space.now.bytes known.now }
    ensures there { IfOk result (λ name. IsThere space.now.bytes place.0 name.0) }
    ensures none { OnErr result (IsNowhere space.now.bytes (callers_map space.now.bytes) place.0) }
    ensures refusal { IfErr result (λ refusal. refusal ≡ Refusal.InvalidHandle) }
{
    space.holds();
    match placed(space, known, place) {
        Some(found) if found.owner != MANAGERS_OWNER => Ok(found.name),
        _ => Err(Refusal::InvalidHandle),
    }
}

/// Finds the chunk whose body is at a place, whoever owns it. The place of a fixed chunk is also
/// its name.
fn placed(space: &Space, known: &KnownNames, place: Place) -> Option<Found>
    requires known { KnowsHeld space.now.bytes known.now }
    ensures found { IfSome result (IsOne space.now.bytes) }
    ensures there { IfSome result (λ found. found.place.0 ≡ place.0) }
    ensures none { IfNone result (NothingAt space.now.bytes place.0) }
{
    if known.has(Name(place.0)) {
        let found = space.chunk(Name(place.0));
        if found.place.0 == place.0 {
            return Some(found);
        }
    }
    space.find_at(place)
}

/// Refuses a chunk of a database.
#[inline]
pub(crate) fn check_callers(found: Found) -> Result<(), Refusal>
    ensures ok { OnOk result (found.owner ≢ data_owner) }
    ensures err { OnErr result (found.owner ≡ data_owner) }
    ensures refusal { IfErr result (λ refusal. refusal ≡ Refusal.OwnedByDatabase) }
{
    if found.owner == DATA_OWNER {
        return Err(Refusal::OwnedByDatabase);
    }
    Ok(())
}

/// Refuses a fixed chunk.
#[inline]
pub(crate) fn check_movable(found: Found) -> Result<(), Refusal>
    ensures ok { OnOk result (found.lock ≢ fixed_lock) }
    ensures err { OnErr result (found.lock ≡ fixed_lock) }
    ensures refusal { IfErr result (λ refusal. refusal ≡ Refusal.ChunkFixed) }
{
    if found.lock == FIXED_LOCK {
        return Err(Refusal::ChunkFixed);
    }
    Ok(())
}

/// Refuses a chunk that has no lock. A fixed chunk counts as locked.
#[inline]
pub(crate) fn check_locked(found: Found) -> Result<(), Refusal>
    ensures ok { OnOk result (found.lock ≢ 0) }
    ensures err { OnErr result (found.lock ≡ 0) }
    ensures refusal { IfErr result (λ refusal. refusal ≡ Refusal.ChunkNotLocked) }
{
    if found.lock == 0 {
        return Err(Refusal::ChunkNotLocked);
    }
    Ok(())
}

/// Refuses a chunk whose bytes are lent. While nothing is lent, this is one comparison, and the code
/// that finds a chunk's mark is elsewhere.
#[inline(always)]
#[tactic(auto, using(crate::proofs::KnownLoans::none_begins))]
pub(crate) fn check_here(space: &Space, found: Found) -> Result<(), Refusal>
    requires found { IsOne space.now.bytes found }
    ensures ok { OnOk result (LendsOther space.now found.place.0) }
    ensures err { OnErr result (BeginsAt found.place.0 space.now.lents) }
    ensures refusal { IfErr result (λ refusal. refusal ≡ Refusal.Lent) }
{
    if space.is_whole() {
        return Ok(());
    }
    check_mark(space, found.place)
}

/// Refuses a place at which a lent body begins. It takes no `Found`, which a caller would write to
/// memory for it.
#[cold]
#[inline(never)]
#[tactic(auto, using(crate::proofs::KnownLoans::none_begins))]
fn check_mark(space: &Space, place: Place) -> Result<(), Refusal>
    ensures ok { OnOk result (LendsOther space.now place.0) }
    ensures err { OnErr result (BeginsAt place.0 space.now.lents) }
    ensures refusal { IfErr result (λ refusal. refusal ≡ Refusal.Lent) }
{
    if space.region().lends_from(place.0) {
        return Err(Refusal::Lent);
    }
    Ok(())
}

/// The same as `check_here`, for reads, which may be many while something is lent: the mark is found
/// in line.
#[inline]
#[tactic(auto, using(crate::proofs::KnownLoans::none_begins))]
pub(crate) fn check_here_in_line(space: &Space, found: Found) -> Result<(), Refusal>
    requires found { IsOne space.now.bytes found }
    ensures ok { OnOk result (LendsOther space.now found.place.0) }
    ensures err { OnErr result (BeginsAt found.place.0 space.now.lents) }
    ensures refusal { IfErr result (λ refusal. refusal ≡ Refusal.Lent) }
{
    if space.lends(found) {
        return Err(Refusal::Lent);
    }
    Ok(())
}
