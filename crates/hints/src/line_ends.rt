//! Files whose line ends a transfer has converted.

ghost use Rattle.std.specs.Prelude.{◌≡◌, ◌<◌, ◌≤◌, ◌∷◌, ◌++◌, IfNone, IfOk, IfSome, OnErr, length};
ghost use Rattle.hints.specs.LineEnds.{IsConverted, with_return, with_returns};

use allowance::{Allowance, push};
use std::alloc::AllocError;

/// Returns the file of which a transfer as text made this one: the transfer puts a carriage return
/// before each line feed. Returns `None` if there is no such file, because a line feed of this one
/// has no carriage return before it.
///
/// # Errors
///
/// - `AllocError`: an allocation failed.
#[tactic(auto, using(crate::proofs::Returns::byte_more, crate::proofs::Returns::all_read))]
pub fn without_returns<A: Allowance>(memory: &A, file: &[u8]) -> Result<Option<Vec<u8>>, AllocError>
    ensures converted { IfOk result (λ found. IfSome found (λ original.
        file.now ≡ with_returns original.items)) }
    ensures none { IfOk result (λ found. IfNone found (IsConverted file.now → ⊥)) }
    ensures short { OnErr result (A.is_short memory.now) }
{
    let mut original = Vec::new(memory.allocator());
    let mut rest = file;
    while !rest.is_empty() {
        let Some((byte, left)) = first_byte(rest) else {
            return Ok(None);
        };
        push(memory, &mut original, byte)?;
        rest = left;
    }
    Ok(Some(original))
}

/// Returns the byte that became the first bytes of a converted file, and the bytes after these.
/// Returns `None` if the file is empty, or begins with a line feed.
fn first_byte(file: &[u8]) -> Option<(u8, &[u8])>
    ensures byte { IfSome result (λ cut. file.now ≡ with_return cut.0 ++ cut.1.now) }
    ensures left { IfSome result (λ cut. IsConverted file.now → IsConverted cut.1.now) }
    ensures none { IfNone result (0 < length file.now → IsConverted file.now → ⊥) }
    ensures shorter { IfSome result (λ cut. length cut.1.now < length file.now) }
{
    let (first, rest) = file.split_first()?;
    match *first {
        b'\n' => None,
        b'\r' => Some(return_or_feed(rest)),
        byte => Some((byte, rest)),
    }
}

/// Returns the byte that became the first bytes of a converted file, if they are a carriage return
/// and maybe the first byte of `rest`. Also returns the bytes after these.
fn return_or_feed(rest: &[u8]) -> (u8, &[u8])
    ensures byte { 13 ∷ rest.now ≡ with_return result.0 ++ result.1.now }
    ensures left { IsConverted (13 ∷ rest.now) → IsConverted result.1.now }
    ensures within { length result.1.now ≤ length rest.now }
{
    match rest.split_first() {
        Some((next, left)) => {
            if *next == b'\n' {
                (b'\n', left)
            } else {
                (b'\r', rest)
            }
        }
        None => (b'\r', rest),
    }
}
