//! Calls and replies as text, a line each: `lock 16 = at 40 locks 1`, `write 16 0: 4142 = done`,
//! `read 16 0 2 = x4142`, `find_resource 16 code 1 = 0`.

use heap_model::{Bytes, MemoryCall, Name, Place, Reply};
use std::alloc::{AllocError, Global};
use std::fmt::Display;
use std::test::Fail;
use test_support::equal;

/// The two sides of a line: a call, and the reply that it must have.
pub(crate) fn sides_of(line: &str) -> Result<(&str, &str), Fail> {
    Ok(line.split_once(" = ").ok_or("no reply")?)
}

/// What a reply must be.
pub(crate) fn check_reply<D: Display + Drop>(
    alloc: Global,
    spot: D,
    reply: &Reply,
    right: &str,
) -> Result<(), Fail> {
    let said = text_of(alloc, reply)?;
    equal(spot, said.as_str(), right)
}

/// The memory manager's call of a text: a word, numbers, and bytes in hex after a colon, if there
/// are some.
pub(crate) fn memory_call_of(alloc: Global, text: &str) -> Result<MemoryCall, Fail> {
    let (front, digits) = text.split_once(": ").unwrap_or((text, ""));
    let bytes = Bytes::of(hex::decode(alloc, digits)?);
    let (word, numbers) = words_of(alloc, front)?;
    Ok(memory_call(word, &numbers, bytes).ok_or("no call")?)
}

/// The word that a text begins with, and the numbers after it.
pub(crate) fn words_of(alloc: Global, text: &str) -> Result<(&str, Vec<u32>), Fail> {
    let mut words = text.split_whitespace();
    let word = words.next().unwrap_or("");
    let mut numbers = Vec::new(alloc);
    for number in words {
        numbers.push(number_of(number)?)?;
    }
    Ok((word, numbers))
}

/// A number in decimal digits, or a type of resources by its letters.
fn number_of(word: &str) -> Result<u32, Fail> {
    if let Ok(number) = word.parse::<u32>() {
        return Ok(number);
    }
    let letters = word.as_bytes().first_chunk().ok_or("no number")?;
    Ok(u32::from_be_bytes(*letters))
}

/// The memory manager's call of a word and the numbers and bytes after it.
fn memory_call(word: &str, numbers: &[u32], bytes: Bytes) -> Option<MemoryCall> {
    match numbers {
        [] => call_alone(word),
        [number] => call_on(word, *number),
        [first, second] => call_with(word, *first, *second, bytes),
        [name, at, count] if word == "read" => Some(MemoryCall::Read {
            name: Name(*name),
            at: *at,
            count: *count,
        }),
        [name, at, count, byte] if word == "set" => Some(MemoryCall::Set {
            name: Name(*name),
            at: *at,
            count: *count,
            byte: as_u8(*byte),
        }),
        _ => None,
    }
}

/// A call without a number.
fn call_alone(word: &str) -> Option<MemoryCall> {
    match word {
        "free_bytes" => Some(MemoryCall::FreeBytes),
        "largest_stretch" => Some(MemoryCall::LargestStretch),
        "compact" => Some(MemoryCall::Compact),
        "more_slots" => Some(MemoryCall::MoreSlots),
        _ => None,
    }
}

/// A call with one number.
fn call_on(word: &str, number: u32) -> Option<MemoryCall> {
    let name = Name(number);
    match word {
        "free" => Some(MemoryCall::Free(name)),
        "lock" => Some(MemoryCall::Lock(name)),
        "unlock" => Some(MemoryCall::Unlock(name)),
        "size" => Some(MemoryCall::Size(name)),
        "owner" => Some(MemoryCall::Owner(name)),
        "locks" => Some(MemoryCall::Locks(name)),
        "recover" => Some(MemoryCall::Recover(Place(number))),
        "free_by_owner" => Some(MemoryCall::FreeByOwner(as_u8(number))),
        _ => None,
    }
}

/// A call with two numbers, and bytes if it takes some.
fn call_with(word: &str, first: u32, second: u32, bytes: Bytes) -> Option<MemoryCall> {
    match word {
        "handle_new" => Some(MemoryCall::HandleNew {
            size: first,
            owner: as_u8(second),
        }),
        "ptr_new" => Some(MemoryCall::PtrNew {
            size: first,
            owner: as_u8(second),
        }),
        "resize" => Some(MemoryCall::Resize {
            name: Name(first),
            size: second,
        }),
        "set_owner" => Some(MemoryCall::SetOwner {
            name: Name(first),
            owner: as_u8(second),
        }),
        "write" => Some(MemoryCall::Write {
            name: Name(first),
            at: second,
            bytes,
        }),
        "str_copy" => Some(MemoryCall::StrCopy {
            name: Name(first),
            at: second,
            text: bytes,
        }),
        _ => None,
    }
}

pub(crate) fn as_u8(number: u32) -> u8 {
    u8::try_from(number).unwrap_or(u8::MAX)
}

/// A reply as text. A heap gives those that are written out here alone; others are as `Debug` has
/// them.
fn text_of(alloc: Global, reply: &Reply) -> Result<String, AllocError> {
    match reply {
        Reply::Refused(refusal) => format!(in alloc; "refused {refusal:?}"),
        Reply::Done => format!(in alloc; "done"),
        Reply::Number(number) => format!(in alloc; "{number}"),
        Reply::Named(Name(name)) => format!(in alloc; "named {name}"),
        Reply::Locked {
            place: Place(place),
            count,
        } => format!(in alloc; "at {place} locks {count}"),
        Reply::Data(bytes) => data_text(alloc, bytes),
        other => format!(in alloc; "{other:?}"),
    }
}

fn data_text(alloc: Global, bytes: &Bytes) -> Result<String, AllocError> {
    let digits = hex::encode(alloc, bytes.as_slice())?;
    format!(in alloc; "x{digits}")
}
