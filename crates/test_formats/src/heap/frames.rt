//! Frames and blank images.
#![tactic(auto, using(laws_heap::proofs::Lending::all_within))]

ghost use Rattle.std.specs.Prelude.{[], ◌≡◌, length, IfOk, None};

use chunk_format::{
    BlankFault, area_start, blank, blank_from, directory, has_magic, head_end, reserved,
    size_field, slot_count,
};
use raw_region::Region;
use std::alloc::Global;
use std::test::*;
use test_support::{BLANK, RefusesOne, bytes_of, equal};

/// 16 bytes of which only the slot count isn't zero.
pub(crate) fn frame_of(alloc: Global, slots: u16) -> Result<Region, Fail>
    ensures len { IfOk result (λ region. length region.bytes ≡ 16) }
    ensures whole { IfOk result (λ region. region.lents ≡ []) }
{
    let mut region = Region::zeroed(alloc, 16)?;
    region.put_u16(8, slots);
    Ok(region)
}

#[test]
fn the_words_of_a_frame_are_read(rt: HostRuntime) -> Result<(), Fail> {
    let bytes = b"PHI1\x01\x02\x03\x04\x05\x06\x07\x08\x09\x0A\x0B\x0C";
    let region = Region::from_bytes(rt.alloc(), bytes)?;
    if region.len() != 16 {
        return Err("no frame")?;
    }
    let found = (has_magic(&region), size_field(&region));
    equal("magic, size", found, (true, 0x0102_0304))?;
    let found = (slot_count(&region), reserved(&region), directory(&region));
    equal(
        "slots, reserved, directory",
        found,
        (0x0506, 0x0708, 0x090A_0B0C),
    )
}

/// How many slots there are, where they end, and where the chunks begin.
static HEADS: [(u16, u32, u32); 5] = [
    (1, 20, 24),
    (2, 24, 24),
    (4, 32, 32),
    (13, 68, 72),
    (65_535, 262_156, 262_160),
];

#[test]
fn chunks_begin_behind_the_padding(rt: HostRuntime) -> Result<(), Fail> {
    for (slots, end, start) in &HEADS {
        check_head(rt.alloc(), *slots, *end, *start)?;
    }
    Ok(())
}

fn check_head(alloc: Global, slots: u16, end: u32, start: u32) -> Result<(), Fail> {
    let region = frame_of(alloc, slots)?;
    equal(
        format_args!("{slots} slots"),
        (has_magic(&region), head_end(&region), area_start(&region)),
        (false, end, start),
    )
}

#[test]
fn a_blank_image_has_one_free_chunk(rt: HostRuntime) -> Result<(), Fail> {
    let region = blank(rt.alloc(), 128, 4)?;
    let listed = bytes_of(rt.alloc(), BLANK)?;
    equal("bytes", region.as_slice(), listed.as_slice())
}

/// The least size and the greatest, each with as many slots as it may have.
static SIZES: [(u32, u16); 2] = [(64, 10), (16_777_208, 65_535)];

#[test]
fn a_blank_image_has_its_size(rt: HostRuntime) -> Result<(), Fail> {
    for (size, slots) in &SIZES {
        let region = blank(rt.alloc(), *size, *slots)?;
        equal("bytes", region.len(), *size as usize)?;
    }
    Ok(())
}

/// A size and a slot count that no image has, and the fault.
static LIMITS: [(u32, u16, BlankFault); 7] = [
    (66, 4, BlankFault::BadSize),
    (56, 1, BlankFault::BadSize),
    (0, 0, BlankFault::BadSize),
    (16_777_216, 1, BlankFault::BadSize),
    (64, 0, BlankFault::BadSlotCount),
    (64, 11, BlankFault::BadSlotCount),
    (64, 13, BlankFault::BadSlotCount),
];

#[test]
fn a_blank_image_has_its_limits(rt: HostRuntime) -> Result<(), Fail> {
    for (size, slots, fault) in &LIMITS {
        let found = fault_of(blank(rt.alloc(), *size, *slots));
        check_fault(found, *size, *slots, *fault)?;
    }
    Ok(())
}

/// Why there is no image, if there is none.
fn fault_of(made: Result<Region, BlankFault>) -> Option<BlankFault>
    requires { IfOk made (λ region. region.lents ≡ []) }
{
    match made {
        Ok(_) => None,
        Err(fault) => Some(fault),
    }
}

fn check_fault(
    found: Option<BlankFault>,
    size: u32,
    slots: u16,
    fault: BlankFault,
) -> Result<(), Fail> {
    equal(
        format_args!("{size} bytes and {slots} slots"),
        found,
        Some(fault),
    )
}

/// A size and a slot count, and the fault where no memory is granted.
static WITHOUT_MEMORY: [(u32, u16, BlankFault); 3] = [
    (66, 4, BlankFault::BadSize),
    (64, 11, BlankFault::BadSlotCount),
    (128, 4, BlankFault::OutOfMemory),
];

fn fault_without(alloc: Global, size: u32, slots: u16) -> Option<BlankFault> {
    let memory = RefusesOne::behind(alloc, 0);
    fault_of(blank_from(&memory, size, slots))
}

#[test]
fn a_blank_image_asks_for_memory_last(rt: HostRuntime) -> Result<(), Fail> {
    for (size, slots, fault) in &WITHOUT_MEMORY {
        let found = fault_without(rt.alloc(), *size, *slots);
        check_fault(found, *size, *slots, *fault)?;
    }
    Ok(())
}

static NAMES: [(BlankFault, &str); 3] = [
    (BlankFault::BadSize, "BadSize"),
    (BlankFault::BadSlotCount, "BadSlotCount"),
    (BlankFault::OutOfMemory, "OutOfMemory"),
];

#[test]
fn faults_have_their_names(rt: HostRuntime) -> Result<(), Fail> {
    for (fault, text) in &NAMES {
        let said = format!(in rt.alloc(); "{fault}")?;
        equal("its name", said.as_str(), *text)?;
    }
    Ok(())
}
