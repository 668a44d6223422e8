//! Room for the parts of a call: chunks that it makes, and one that it has grow, one after the
//! other.

use crate::image::Image;
use crate::memory_calls::need;
use heap_model::{Name, Refusal, Reply};
use std::alloc::{AllocError, Global};

/// A part: the number of bytes that it takes, headers included, and the stretch where a chunk that
/// grows leaves what it took before.
#[derive(Clone, Copy)]
pub(crate) struct Part {
    need: u64,
    leaves: Option<(usize, u64)>,
}

impl Part {
    /// A chunk of the given number of bytes is made.
    pub(crate) fn making(size: usize) -> Part {
        Part {
            need: need(u32::try_from(size).unwrap_or(u32::MAX)),
            leaves: None,
        }
    }

    /// The chunk of a name, which doesn't stay, gets the given number of bytes more.
    pub(crate) fn growth(image: &Image, name: Name, more: u32) -> Part {
        let length = match image.live(name) {
            Some(live) => live.bytes.len(),
            None => 0,
        };
        let size = u32::try_from(length).unwrap_or(0).saturating_add(more);
        Part {
            need: need(size),
            leaves: Some((image.stretch_of(name), image.size_of(name))),
        }
    }
}

/// Whether a reply says that there was no room.
pub(crate) fn lacks_room(reply: &Reply) -> bool {
    matches!(reply, Reply::Refused(Refusal::NotEnoughSpace))
}

/// Refuses parts that may run out of room.
pub(crate) fn check_parts(alloc: Global, image: &Image, parts: &[Part]) -> Result<(), Refusal> {
    match can_run_out(alloc, image, parts) {
        Ok(false) => Ok(()),
        Ok(true) => Err(Refusal::NotEnoughSpace),
        Err(_) => Err(Refusal::OutOfMemory),
    }
}

/// Whether some choice of stretches for the parts, one after the other, leaves a part for which no
/// stretch has room.
fn can_run_out(alloc: Global, image: &Image, parts: &[Part]) -> Result<bool, AllocError> {
    if needed(parts) > u64::from(image.free_bytes()) {
        return Ok(true);
    }
    let mut choices = Vec::new(alloc);
    choices.push(image.rooms(alloc)?)?;
    for part in parts {
        match place(alloc, &choices, part)? {
            Some(next) => choices = next,
            None => return Ok(true),
        }
    }
    Ok(false)
}

/// The bytes that parts take together, beyond those that chunks which grow leave.
fn needed(parts: &[Part]) -> u64 {
    let mut all = 0u64;
    for part in parts {
        all = all.saturating_add(match part.leaves {
            Some((_, size)) => part.need.saturating_sub(size),
            None => part.need,
        });
    }
    all
}

/// The rooms that are left after each choice of a stretch for a part, none where some rooms have no
/// stretch for it.
fn place(
    alloc: Global,
    choices: &[Vec<u64>],
    part: &Part,
) -> Result<Option<Vec<Vec<u64>>>, AllocError> {
    let mut next = Vec::new(alloc);
    for rooms in choices {
        if !place_in(alloc, rooms, part, &mut next)? {
            return Ok(None);
        }
    }
    Ok(Some(next))
}

/// Adds those that are left of some rooms. Answers whether there is a stretch for the part.
fn place_in(
    alloc: Global,
    rooms: &[u64],
    part: &Part,
    choices: &mut Vec<Vec<u64>>,
) -> Result<bool, AllocError> {
    let mut has_room = false;
    for stretch in 0..rooms.len() {
        if let Some(left) = left_behind(alloc, rooms, part, stretch)? {
            if !choices.contains(&left) {
                choices.push(left)?;
            }
            has_room = true;
        }
    }
    Ok(has_room)
}

/// The rooms that are left where a part gets its bytes in one stretch, none where that has too few.
fn left_behind(
    alloc: Global,
    rooms: &[u64],
    part: &Part,
    stretch: usize,
) -> Result<Option<Vec<u64>>, AllocError> {
    let mut left = Vec::from_slice(alloc, rooms)?;
    if let Some((own, size)) = part.leaves
        && let Some(room) = left.get_mut(own)
    {
        *room = room.saturating_add(size);
    }
    match left.get_mut(stretch) {
        Some(room) if *room >= part.need => *room -= part.need,
        _ => return Ok(None),
    }
    Ok(Some(left))
}
