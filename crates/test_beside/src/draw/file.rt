//! Calls on files, and the bytes of files for them.

use crate::draw::database::{any_db, any_db_name};
use crate::draw::numbers::{any_byte, any_flag, any_word, below, below_u16};
use heap_model::{Bytes, FileCall};
use rand::RngExt;
use rand::seq::IndexedRandom;
use rand_pcg::Pcg32;
use std::alloc::{AllocError, Global};
use test_model::{Database, Image};

/// IDs of records, few enough that many have the same, and the greatest ones.
const DRAWN_IDS: [u32; 7] = [0, 1, 2, 3, 4, 0xFF_FFFE, 0xFF_FFFF];

/// Seeds: before small IDs, and before the greatest.
const DRAWN_SEEDS: [u32; 6] = [0, 1, 0x0700_0002, 0xFF_FFFD, 0xABFF_FFFE, 0xFFFF_FFFF];

/// A call that imports a file, most often one without fault, or exports a database.
pub(crate) fn file_call(
    random: &mut Pcg32,
    alloc: Global,
    image: &Image,
    databases: &[Database],
) -> Result<FileCall, AllocError> {
    match below(random, 3) {
        0 => Ok(FileCall::Export(any_db(random, image, databases))),
        _ => Ok(FileCall::Import(Bytes::of(any_file(random, alloc)?))),
    }
}

/// A file: sometimes one of which a byte is another, or the end is missing.
fn any_file(random: &mut Pcg32, alloc: Global) -> Result<Vec<u8>, AllocError> {
    let mut file = whole_file(random, alloc)?;
    match below(random, 16) {
        0 => file.truncate(below(random, 150) as usize),
        1..=2 => {
            let at = below(random, 150) as usize;
            if let Some(byte) = file.get_mut(at) {
                *byte = any_byte(random);
            }
        }
        _ => {}
    }
    Ok(file)
}

/// Where blocks may begin: from the end of the entries up to the end of the file.
#[derive(Clone, Copy)]
struct Area {
    from: u32,
    to: u32,
}

impl Area {
    /// An offset: most often one of these, seldom the one before the first, the one after the last,
    /// or 0.
    fn any(self, random: &mut Pcg32) -> u32 {
        match below(random, 48) {
            0 => self.from.saturating_sub(1),
            1 => self.to.saturating_add(1),
            2 => 0,
            3..=8 => self.from,
            _ => random.random_range(self.from..=self.to.max(self.from)),
        }
    }

    /// The same, and as often 0.
    fn any_of_info(self, random: &mut Pcg32) -> u32 {
        if any_flag(random) {
            0
        } else {
            self.any(random)
        }
    }
}

/// The area of a file with the given number of entries: up to 63 bytes.
fn any_area(random: &mut Pcg32, resources: bool, count: u32) -> Area {
    let size = if resources { 10 } else { 8 };
    let from = count.saturating_mul(size).saturating_add(78);
    Area {
        from,
        to: from.saturating_add(below(random, 64)),
    }
}

/// A file of a few records or resources, whose blocks begin anywhere.
fn whole_file(random: &mut Pcg32, alloc: Global) -> Result<Vec<u8>, AllocError> {
    let resources = below(random, 3) == 0;
    let count = below_u16(random, 5);
    let area = any_area(random, resources, u32::from(count));
    let mut file = any_header(random, alloc, resources, area)?;
    file.extend_from_slice(&count.to_be_bytes())?;
    for _ in 0..count {
        if resources {
            put_resource(random, &mut file, area)?;
        } else {
            put_record(random, &mut file, area)?;
        }
    }
    for _ in area.from..area.to {
        file.push(any_byte(random))?;
    }
    Ok(file)
}

/// The header of a file, before the number of entries. After the zero that ends its name anything
/// may stand.
fn any_header(
    random: &mut Pcg32,
    alloc: Global,
    resources: bool,
    area: Area,
) -> Result<Vec<u8>, AllocError> {
    let mut file = Vec::from_slice(alloc, any_db_name(random).as_slice())?;
    if file.len() < 31 && below(random, 4) == 0 {
        file.extend_from_slice(&[0, 65])?;
    }
    file.resize(32, 0)?;
    file.extend_from_slice(&any_attributes(random, resources).to_be_bytes())?;
    file.extend_from_slice(&below_u16(random, u16::MAX).to_be_bytes())?;
    for word in [
        any_word(random),
        any_word(random),
        any_word(random),
        any_word(random),
        area.any_of_info(random),
        area.any_of_info(random),
        any_word(random),
        any_word(random),
        *DRAWN_SEEDS.choose(random).unwrap_or(&0),
        u32::from(below(random, 40) == 0),
    ] {
        file.extend_from_slice(&word.to_be_bytes())?;
    }
    Ok(file)
}

/// The attributes of a database of records or of resources, seldom of one that may only be read.
fn any_attributes(random: &mut Pcg32, resources: bool) -> u16 {
    let read_only = if below(random, 16) == 0 { 2 } else { 0 };
    below_u16(random, 16).wrapping_mul(16) | read_only | u16::from(resources)
}

/// Adds the entry of a record; one that is deleted often has no data.
fn put_record(random: &mut Pcg32, file: &mut Vec<u8>, area: Area) -> Result<(), AllocError> {
    let id = *DRAWN_IDS.choose(random).unwrap_or(&0);
    let attributes = below(random, 128);
    let (start, deleted) = match below(random, 5) {
        0 => (0, 0x80),
        1 => (area.any(random), 0x80),
        _ => (area.any(random), 0),
    };
    file.extend_from_slice(&start.to_be_bytes())?;
    file.extend_from_slice(&((attributes | deleted) << 24 | id).to_be_bytes())
}

/// Adds the entry of a resource.
fn put_resource(random: &mut Pcg32, file: &mut Vec<u8>, area: Area) -> Result<(), AllocError> {
    file.extend_from_slice(b"code")?;
    file.extend_from_slice(&below_u16(random, 4).to_be_bytes())?;
    file.extend_from_slice(&area.any(random).to_be_bytes())
}
