//! Checks of arguments: owners, ranges of bytes within a body, and texts that end at a zero byte.

ghost use Rattle.std.specs.Prelude.{◌≡◌, ◌<◌, ◌+◌, ◌==◌, Err, OnOk, OnErr, IfErr, not};
ghost use Rattle.std.specs.List.{take_while};
ghost use Rattle.heap_model.specs.MemorySteps.{IsNoCaller};

use chunk_format::{DATA_OWNER, MANAGERS_OWNER};
use heap_model::Refusal;
use memchr::memchr;

/// Refuses an owner that no caller may give. Callers may give 1 to 14.
///
/// # Errors
///
/// - `InvalidOwner`: the owner isn't one of 1 to 14.
pub fn check_owner(owner: u8) -> Result<(), Refusal>
    ensures ok { OnOk result (IsNoCaller owner → ⊥) }
    ensures err { OnErr result (IsNoCaller owner) }
    ensures refusal { IfErr result (λ refusal. refusal ≡ Refusal.InvalidOwner) }
{
    if owner == MANAGERS_OWNER || owner >= DATA_OWNER {
        return Err(Refusal::InvalidOwner);
    }
    Ok(())
}

/// Refuses a range of `count` bytes from `at` on if it reaches beyond the end of a body of `length`
/// bytes.
pub(crate) fn check_range(at: u32, count: usize, length: u32) -> Result<(), Refusal>
    ensures ok { OnOk result (length < at + count → ⊥) }
    ensures err { OnErr result (length < at + count) }
    ensures refusal { IfErr result (λ refusal. refusal ≡ Refusal.OutOfBounds) }
{
    if count > length as usize || at as usize > length as usize - count {
        return Err(Refusal::OutOfBounds);
    }
    Ok(())
}

/// Refuses, as `check_range` does, a range of `count + 1` bytes.
pub(crate) fn check_ended_range(at: u32, count: usize, length: u32) -> Result<(), Refusal>
    ensures ok { OnOk result (length < at + (count + 1) → ⊥) }
    ensures err { OnErr result (length < at + (count + 1)) }
    ensures refusal { IfErr result (λ refusal. refusal ≡ Refusal.OutOfBounds) }
{
    if count >= length as usize || at as usize > length as usize - count - 1 {
        return Err(Refusal::OutOfBounds);
    }
    Ok(())
}

/// Returns the bytes before the first zero byte, or all bytes if there is none.
pub(crate) fn before_zero(text: &[u8]) -> &[u8]
    ensures { result.now ≡ take_while (λ byte. not (byte == 0)) text.now }
{
    match memchr(0, text) {
        Some(end) => &text[..end],
        None => text,
    }
}
