//! Changes of an image, drawn so that they meet what holds it together: headers of chunks, slots,
//! the chain of tables, the directory, the headers of databases and their entries.

use rand::RngExt;
use rand_pcg::Pcg32;
use std::alloc::Global;
use std::test::Fail;
use test_model::{Image, Piece};

/// Where things stand in an image.
#[derive(Drop)]
pub(crate) struct Parts {
    /// The offsets of the slots of all tables.
    slots: Vec<usize>,
    /// The places of the chunks.
    places: Vec<usize>,
    /// The place and the length of each chunk of the manager's: of the directory, of the headers of
    /// databases with their entries, and of tables. The first word `next` is one of them too.
    lists: Vec<(usize, usize)>,
}

impl Parts {
    pub(crate) fn of(alloc: Global, bytes: &[u8]) -> Result<Parts, Fail> {
        let mut parts = Parts {
            slots: Vec::new(alloc),
            places: Vec::new(alloc),
            lists: Vec::new(alloc),
        };
        let count = (word_at(bytes, 8) / 0x1_0000) as usize;
        parts.add_slots(16, count)?;
        if bytes.starts_with(b"PHI2") {
            parts
                .lists
                .push((count.saturating_mul(4).saturating_add(16), 4))?;
        }
        for piece in &Image::decode(alloc, bytes)?.pieces {
            parts.add(piece)?;
        }
        Ok(parts)
    }

    /// Adds a chunk.
    fn add(&mut self, piece: &Piece) -> Result<(), Fail> {
        let place = piece.place.0 as usize;
        self.places.push(place)?;
        if let Some(live) = piece.live
            && live.owner == 0
        {
            self.lists.push((place, live.bytes.len()))?;
            if live.lock == FIXED_FIELD {
                self.add_slots(
                    place.saturating_add(4),
                    (live.bytes.len() / 4).saturating_sub(1),
                )?;
            }
        }
        Ok(())
    }

    /// Adds the slots of a table, by the first of them.
    fn add_slots(&mut self, first: usize, count: usize) -> Result<(), Fail> {
        for index in 0..count {
            self.slots
                .push(index.saturating_mul(4).saturating_add(first))?;
        }
        Ok(())
    }
}

/// The lock of a fixed chunk. One of the manager's is a table.
const FIXED_FIELD: u8 = 15;

fn byte_at(bytes: &[u8], at: usize) -> u8 {
    bytes.get(at).copied().unwrap_or(0)
}

fn word_at(bytes: &[u8], at: usize) -> u32 {
    u32::from_be_bytes([
        byte_at(bytes, at),
        byte_at(bytes, at.saturating_add(1)),
        byte_at(bytes, at.saturating_add(2)),
        byte_at(bytes, at.saturating_add(3)),
    ])
}

fn put_byte(bytes: &mut [u8], at: usize, byte: u8) {
    if let Some(place) = bytes.get_mut(at) {
        *place = byte;
    }
}

fn put_word(bytes: &mut [u8], at: usize, word: u32) {
    for (index, byte) in word.to_be_bytes().iter().enumerate() {
        put_byte(bytes, at.saturating_add(index), *byte);
    }
}

/// A number below a bound, and 0 where that is 0.
pub(crate) fn drawn(random: &mut Pcg32, bound: u32) -> u32 {
    random.random_range(0..bound.max(1))
}

/// The same of an index or an offset.
fn below(random: &mut Pcg32, bound: usize) -> usize {
    drawn(random, u32::MAX) as usize % bound.max(1)
}

/// One of some offsets, and 0 where there is none.
fn one_of(random: &mut Pcg32, offsets: &[usize]) -> usize {
    let index = below(random, offsets.len());
    offsets.get(index).copied().unwrap_or(0)
}

/// An offset in a list: entries begin at even ones.
fn in_list(random: &mut Pcg32, parts: &Parts) -> usize {
    let index = below(random, parts.lists.len());
    let (place, length) = parts.lists.get(index).copied().unwrap_or((0, 0));
    let half = below(random, length / 2);
    place.saturating_add(half.saturating_mul(2))
}

/// The offset of a word that matters.
fn any_spot(random: &mut Pcg32, parts: &Parts) -> usize {
    match drawn(random, 16) {
        0 => below(random, 4).saturating_mul(4),
        1 => one_of(random, &parts.slots),
        2..=5 => {
            let place = one_of(random, &parts.places);
            place.saturating_sub(if below(random, 2) == 0 { 8 } else { 4 })
        }
        _ => in_list(random, parts),
    }
}

/// A word that may stand there as well as `old`.
fn any_word(random: &mut Pcg32, bytes: &[u8], parts: &Parts, old: u32) -> u32 {
    match drawn(random, 10) {
        0 => 0,
        1..=2 => word_at(bytes, one_of(random, &parts.slots)),
        3 => (one_of(random, &parts.slots) % 0x100_0000) as u32,
        4 => (one_of(random, &parts.places) % 0x100_0000) as u32,
        5 => word_at(bytes, any_spot(random, parts)),
        6 => old.wrapping_add(8),
        7 => old.wrapping_sub(8),
        8 => old ^ 1u32.wrapping_shl(drawn(random, 32)),
        _ => drawn(random, u32::MAX),
    }
}

/// Changes a word or a byte of an image.
pub(crate) fn change(random: &mut Pcg32, bytes: &mut [u8], parts: &Parts) {
    let spot = any_spot(random, parts);
    if drawn(random, 2) == 0 {
        let word = any_word(random, bytes, parts, word_at(bytes, spot));
        put_word(bytes, spot, word);
        return;
    }
    let at = spot.saturating_add(below(random, 4));
    let byte = match drawn(random, 4) {
        0 => random.random_range(0u8..=255),
        1 => byte_at(bytes, at).wrapping_add(1),
        _ => byte_at(bytes, at) ^ 1u8.wrapping_shl(drawn(random, 8)),
    };
    put_byte(bytes, at, byte);
}
