//! Calls of the memory manager.

use crate::draw::numbers::{any_byte, any_word, below, below_u8};
use heap_model::{Bytes, MemoryCall, Name, Place};
use rand::seq::IndexedRandom;
use rand_pcg::Pcg32;
use std::alloc::{AllocError, Global};
use test_model::{Image, Piece};

/// A name: most often that of a chunk in the image, else a slot's, one between slots or in the
/// chunks, or one beyond the image.
pub(crate) fn any_name(random: &mut Pcg32, pieces: &[Piece]) -> Name {
    match below(random, 8) {
        0..=4 => match pieces.choose(random) {
            Some(
                Piece {
                    live: Some(live),
                    ..
                },
            ) => live.name,
            Some(piece) => Name(piece.place.0),
            None => Name(0),
        },
        5 => Name(below(random, 24).wrapping_mul(4).wrapping_add(16)),
        6 => Name(below(random, 1100)),
        _ => Name(any_word(random)),
    }
}

/// A place: most often that of a chunk in the image.
fn any_place(random: &mut Pcg32, pieces: &[Piece]) -> Place {
    match pieces.choose(random) {
        Some(piece) if below(random, 4) > 0 => piece.place,
        _ => Place(below(random, 1100)),
    }
}

/// An owner: that of a caller, of a database or of the manager, or none.
pub(crate) fn any_owner(random: &mut Pcg32) -> u8 {
    below_u8(random, 17)
}

/// An offset within a chunk or a count of bytes, seldom a very large one.
fn any_offset(random: &mut Pcg32) -> u32 {
    match below(random, 32) {
        0 => u32::MAX,
        1..=10 => 0,
        _ => below(random, 40),
    }
}

/// The size of a chunk: often one about as large as the greatest room, seldom one that no heap has.
pub(crate) fn any_size(random: &mut Pcg32, room: u32) -> u32 {
    match below(random, 32) {
        0 => u32::MAX,
        1 => 16_777_200,
        2..=9 => room.saturating_sub(24).saturating_add(below(random, 48)),
        _ => below(random, 71),
    }
}

/// Bytes of which some are zero.
fn any_bytes(random: &mut Pcg32, alloc: Global) -> Result<Bytes, AllocError> {
    let mut bytes = Vec::new(alloc);
    for _ in 0..below(random, 24) {
        bytes.push(any_byte(random).saturating_sub(60))?;
    }
    Ok(Bytes::of(bytes))
}

/// A call of the memory manager. `MoreSlots` is drawn for images with a chain of tables alone.
pub fn memory_call(
    random: &mut Pcg32,
    alloc: Global,
    image: &Image,
) -> Result<MemoryCall, AllocError> {
    if image.is_chained() && below(random, 8) == 0 {
        return Ok(MemoryCall::MoreSlots);
    }
    let name = any_name(random, &image.pieces);
    match below(random, 32) {
        0..=6 => call_on_bytes(random, alloc, name),
        7..=8 => Ok(MemoryCall::Recover(any_place(random, &image.pieces))),
        _ => Ok(call_on_chunk(random, name, image.largest_room())),
    }
}

/// A call that reads or writes bytes of a chunk.
fn call_on_bytes(random: &mut Pcg32, alloc: Global, name: Name) -> Result<MemoryCall, AllocError> {
    let at = any_offset(random);
    let call = match below(random, 7) {
        0..=1 => MemoryCall::Read {
            name,
            at,
            count: any_offset(random),
        },
        2..=3 => MemoryCall::Write {
            name,
            at,
            bytes: any_bytes(random, alloc)?,
        },
        4 => MemoryCall::Set {
            name,
            at,
            count: any_offset(random),
            byte: any_byte(random),
        },
        _ => MemoryCall::StrCopy {
            name,
            at,
            text: any_bytes(random, alloc)?,
        },
    };
    Ok(call)
}

/// A call that makes, resizes or frees chunks, or changes or asks for what stands in a header.
fn call_on_chunk(random: &mut Pcg32, name: Name, room: u32) -> MemoryCall {
    match below(random, 34) {
        0..=5 => MemoryCall::HandleNew {
            size: any_size(random, room),
            owner: any_owner(random),
        },
        6..=7 => MemoryCall::PtrNew {
            size: any_size(random, room),
            owner: any_owner(random),
        },
        8..=10 => MemoryCall::Free(name),
        11..=14 => MemoryCall::Lock(name),
        15..=16 => MemoryCall::Unlock(name),
        17 => MemoryCall::Size(name),
        18 => MemoryCall::Owner(name),
        19 => MemoryCall::Locks(name),
        20 => MemoryCall::SetOwner {
            name,
            owner: any_owner(random),
        },
        21 => MemoryCall::FreeBytes,
        22 => MemoryCall::LargestStretch,
        23 => MemoryCall::Compact,
        24..=31 => MemoryCall::Resize {
            name,
            size: any_size(random, room),
        },
        _ => MemoryCall::FreeByOwner(any_owner(random)),
    }
}
