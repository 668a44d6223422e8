//! Allocations, each of which asks for a grant first.

ghost use Rattle.std.specs.Prelude.{◌≡◌, ◌+◌, ◌++◌, ◌∷◌, [], IfOk, IfSome, OnOk, OnErr, replicate, string_bytes};
ghost use Rattle.std.specs.Prelude.{if◌then◌else◌, vec_len, vec_capacity};
ghost use Rattle.std.specs.BTreeMap.{Updates, IsUnchanged, get, btree_map_len};
ghost use Rattle.std.specs.Option.{is_some};

use crate::{Allowance, Failure};
use std::alloc::{AllocError, Global};
use std::collections::BTreeMap;
use std::fmt::Display;

/// Returns `count` zeros.
pub fn zeros<A: Allowance>(memory: &A, count: usize) -> Result<Vec<u8>, AllocError>
    ensures items { IfOk result (λ zeros. zeros.items ≡ replicate count 0) }
    ensures short { OnErr result (A.is_short memory.now) }
{
    outcome(memory, vec![in memory.grant()?; 0u8; count])
}

/// Returns `count` copies of an item.
pub fn filled<A: Allowance, T: Copy>(
    memory: &A,
    item: T,
    count: usize,
) -> Result<Vec<T>, AllocError>
    ensures items { IfOk result (λ filled. filled.items ≡ replicate count item) }
    ensures len { IfOk result (λ filled. vec_len filled ≡ count) }
    ensures short { OnErr result (A.is_short memory.now) }
{
    let mut filled = Vec::new(memory.grant()?);
    let grown = filled.resize(count, item);
    outcome(memory, grown)?;
    Ok(filled)
}

/// Returns a copy of some bytes.
pub fn copied<A: Allowance>(memory: &A, bytes: &[u8]) -> Result<Vec<u8>, AllocError>
    ensures items { IfOk result (λ copy. copy.items ≡ bytes.now) }
    ensures short { OnErr result (A.is_short memory.now) }
{
    outcome(memory, Vec::from_slice(memory.grant()?, bytes))
}

/// Returns an empty vector with room for `count` items.
pub fn room_for<A: Allowance, T: Drop>(memory: &A, count: usize) -> Result<Vec<T>, AllocError>
    ensures none { IfOk result (λ items. items.items ≡ []) }
    ensures len { IfOk result (λ items. vec_len items ≡ 0) }
    ensures room { IfOk result (λ items. vec_capacity items ≡ count) }
    ensures short { OnErr result (A.is_short memory.now) }
{
    outcome(memory, Vec::with_capacity(memory.grant()?, count))
}

/// Appends an item.
pub fn push<A: Allowance, T: Drop>(
    memory: &A,
    items: &mut Vec<T>,
    item: T,
) -> Result<(), AllocError>
    ensures items { OnOk result (items.new.items ≡ items.old.items ++ (item ∷ [])) }
    ensures same { OnErr result (items.new.items ≡ items.old.items) }
    ensures short { OnErr result (A.is_short memory.now) }
{
    memory.grant()?;
    let grown = match items.push(item) {
        Ok(()) => Ok(()),
        Err(_) => Err(AllocError),
    };
    outcome(memory, grown)
}

/// Appends bytes.
pub fn extend<A: Allowance>(memory: &A, bytes: &mut Vec<u8>, more: &[u8]) -> Result<(), AllocError>
    ensures items { OnOk result (bytes.new.items ≡ bytes.old.items ++ more.now) }
    ensures same { OnErr result (bytes.new.items ≡ bytes.old.items) }
    ensures short { OnErr result (A.is_short memory.now) }
{
    memory.grant()?;
    let grown = bytes.extend_from_slice(more);
    outcome(memory, grown)
}

/// Gives a key of a map its value, and returns the old one.
pub fn insert<A: Allowance, K: Ord + Drop, V: Drop>(
    memory: &A,
    map: &mut BTreeMap<K, V>,
    key: K,
    value: V,
) -> Result<Option<V>, AllocError>
    ensures old { IfOk result (λ old. old ≡ get K.cmp map.old key) }
    ensures updates { OnOk result (Updates K.cmp map.old map.new key (Some value)) }
    ensures len { IfOk result (λ old.
        btree_map_len map.new ≡ btree_map_len map.old + (if is_some old then 0 else 1)) }
    ensures same { OnErr result (IsUnchanged map.old map.new) }
    ensures short { OnErr result (A.is_short memory.now) }
{
    memory.grant()?;
    let grown = match map.insert(key, value) {
        Ok(old) => Ok(old),
        Err(_) => Err(AllocError),
    };
    outcome(memory, grown)
}

/// Returns the text of a value, as `format_args!` prints it.
///
/// # Errors
/// - `AllocError`: if the allocation failed or no grant was given, or if the value's `fmt` failed:
///   std reports both with the same error.
pub fn text_of<A: Allowance, D: Display + Drop>(memory: &A, value: D) -> Result<String, AllocError>
    ensures text { IfOk result (λ text. IfSome (D.output value) (λ bytes. string_bytes text ≡ bytes)) }
    ensures short { OnErr result (A.is_short memory.now) }
{
    outcome(memory, String::format(memory.grant()?, value))
}

/// Records that an allocation failed which no function of this crate made.
///
/// # Safety
/// An allocation must have failed: no contract can express this.
pub unsafe fn failed<A: Allowance>(memory: &A) -> AllocError
    ensures { A.is_short memory.now }
{
    memory.note(Failure(()));
    AllocError
}

/// Records whether a granted allocation succeeded, and returns its result. Callers must pass only
/// the result of that allocation: no contract can express this.
fn outcome<A: Allowance, T: Drop>(
    memory: &A,
    growth: Result<T, AllocError>,
) -> Result<T, AllocError>
    ensures same { result ≡ growth }
    ensures short { OnErr result (A.is_short memory.now) }
{
    if growth.is_err() {
        memory.note(Failure(()));
    }
    growth
}
