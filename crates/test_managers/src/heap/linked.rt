//! Free chunks in lists, as far as an image shows them. Of each class they follow one another by
//! their second words, and the last one has 0 there; the heads are not in the image.
//!
//! What is proved is that the lists link free chunks of their class, each once. That none is
//! missing is seen here: while the lists are built, each class has one free chunk that no other of
//! it names, and from that one the links lead to all others and end.

use heap_model::{MemoryCall, Name, Reply};
use std::alloc::{AllocError, Global};
use test_model::Image;

/// How many classes of sizes there are.
const CLASSES: u32 = 21;

/// How many chunks of a list are looked at, at most, for one that a chunk grows over.
const PROBES: u32 = 64;

/// A free chunk: where its header stands, the class of its size, and its second word.
#[derive(Clone, Copy)]
struct FreeChunk {
    at: u32,
    class: u32,
    next: u32,
}

/// Whether the lists are built after a call, by the call and what it left. They are dropped where a
/// resize takes several free chunks, or grows over one of a long list, and where a stretch was
/// packed that isn't all of the heap. Any other call that makes a chunk or a table builds them, and
/// so do a call that frees chunks and compaction.
pub(crate) fn are_built(
    were_built: bool,
    call: &MemoryCall,
    reply: &Reply,
    before: &Image,
    after: &Image,
) -> bool {
    let has_moved = before.moved_bytes(after) > 0;
    match (call, reply) {
        (_, Reply::Refused(_)) => were_built,
        (MemoryCall::HandleNew { .. } | MemoryCall::PtrNew { .. } | MemoryCall::MoreSlots, _) =>
            !has_moved || is_one_stretch(before),
        (MemoryCall::Free(_) | MemoryCall::FreeByOwner(_) | MemoryCall::Compact, _) => true,
        (MemoryCall::Resize { name, .. }, _) if has_moved => {
            match free_where_it_went(before, after, *name) {
                Some(is_one) => were_built && is_one,
                None => is_one_stretch(before),
            }
        }
        (MemoryCall::Resize { name, .. }, _) => were_built && takes_one_at_most(before, *name),
        _ => were_built,
    }
}

/// Whether no chunk stays where it is.
fn is_one_stretch(image: &Image) -> bool {
    for piece in &image.pieces {
        if piece.stays() {
            return false;
        }
    }
    true
}

/// Whether the chunk of a name went to the front of one free chunk that has the room, and not of
/// several. None where there was no room at its place.
fn free_where_it_went(before: &Image, after: &Image, name: Name) -> Option<bool> {
    let went = after.piece(name)?;
    let mut run = 0u32;
    let mut count = 0u32;
    for piece in &before.pieces {
        if count > 0 || piece.place == went.place {
            if piece.live.is_some() {
                return None;
            }
            run = run.saturating_add(piece.size);
            count = count.saturating_add(1);
            if run >= went.size {
                return Some(count == 1);
            }
        }
    }
    None
}

/// Whether at most one free chunk stands directly after that of a name, and few at all.
fn takes_one_at_most(image: &Image, name: Name) -> bool {
    let mut free = 0u32;
    let mut behind = 0u32;
    let mut is_behind = false;
    for piece in &image.pieces {
        match piece.live {
            Some(live) => is_behind = live.name == name,
            None => {
                free = free.saturating_add(1);
                behind = behind.saturating_add(u32::from(is_behind));
            }
        }
    }
    behind <= 1 && free <= PROBES
}

/// The first class whose free chunks aren't all in one list.
pub(crate) fn class_with_a_gap(alloc: Global, image: &Image) -> Result<Option<u32>, AllocError> {
    let chunks = free_chunks(alloc, image)?;
    for class in 0..CLASSES {
        if !are_linked(&chunks, class) {
            return Ok(Some(class));
        }
    }
    Ok(None)
}

fn free_chunks(alloc: Global, image: &Image) -> Result<Vec<FreeChunk>, AllocError> {
    let mut chunks = Vec::new(alloc);
    for piece in &image.pieces {
        if piece.live.is_none() {
            let at = piece.place.0.saturating_sub(8);
            chunks.push(FreeChunk {
                at,
                class: 31u32.saturating_sub((piece.size / 8).leading_zeros()),
                next: word_at(image.bytes, at.saturating_add(4) as usize).unwrap_or(0),
            })?;
        }
    }
    Ok(chunks)
}

/// The word of an image at an offset.
pub(crate) fn word_at(image: &[u8], at: usize) -> Option<u32> {
    let word = image.get(at..)?.first_chunk()?;
    Some(u32::from_be_bytes(*word))
}

/// Whether the free chunks of a class are one list: one that no other names comes first, and from
/// it the links lead to as many as there are, and end.
fn are_linked(chunks: &[FreeChunk], class: u32) -> bool {
    let mut count = 0u32;
    let mut first = 0;
    for chunk in chunks {
        if chunk.class == class {
            count = count.saturating_add(1);
            if !is_named(chunks, *chunk) {
                first = chunk.at;
            }
        }
    }
    let mut at = first;
    for _ in 0..count {
        match next_of(chunks, class, at) {
            Some(next) => at = next,
            None => return false,
        }
    }
    at == 0
}

/// Whether a chunk is the next one of another of its class.
fn is_named(chunks: &[FreeChunk], chunk: FreeChunk) -> bool {
    for other in chunks {
        if other.class == chunk.class && other.next == chunk.at {
            return true;
        }
    }
    false
}

/// What follows the chunk of a class at an offset, if one stands there.
fn next_of(chunks: &[FreeChunk], class: u32, at: u32) -> Option<u32> {
    for chunk in chunks {
        if chunk.class == class && chunk.at == at {
            return Some(chunk.next);
        }
    }
    None
}
