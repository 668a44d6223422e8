//! The faults of the bytes before the chunks, each tested by a function of its own.
#![tactic(auto, using(laws_heap::proofs::Lending::part_within, laws_heap::proofs::Lending::all_within))]

ghost use Rattle.std.specs.Prelude.{[], ◌≡◌, ◌≤◌, ◌+◌, ◌↔◌, length, IsTrue, IfErr, OnOk, None};
ghost use Rattle.heap_model.specs.Memory.{IsWithin};
ghost use Rattle.heap_model.specs.Frame.{HasFrame};
ghost use Rattle.heap_model.specs.Slots.{area_start as model_start};
ghost use Rattle.heap_model.specs.Heap.{IsHead};
ghost use Rattle.heap_check.specs.Faults.{IsTooShort, HasBadMagic, HasBadSize, HasBadSlotCount, HasBadReserved, HasBadPadding, IsFirstHeapFault};

use crate::fault::HeapFault;
use chunk_format::{
    FRAME_SIZE, HEADER_SIZE, area_start, has_magic, head_end, is_image_size, reserved, size_field,
    slot_count,
};
use raw_region::Region;

fn is_too_short(region: &Region) -> bool
    requires { region.now.lents ≡ [] }
    ensures { IsTrue result ↔ IsTooShort region.now.bytes }
{
    let len = region.len();
    len < FRAME_SIZE as usize || has_magic(region) && size_field(region) as usize > len
}

fn has_bad_magic(region: &Region) -> bool
    requires { HasFrame region.now }
    ensures { IsTrue result ↔ HasBadMagic region.now.bytes }
{
    !has_magic(region)
}

fn has_bad_size(region: &Region) -> bool
    requires { HasFrame region.now }
    ensures { IsTrue result ↔ HasBadSize region.now.bytes }
{
    let len = region.len();
    size_field(region) as usize != len || !is_image_size(len)
}

fn has_bad_slot_count(region: &Region) -> bool
    requires { HasFrame region.now }
    ensures { IsTrue result ↔ HasBadSlotCount region.now.bytes }
{
    slot_count(region) == 0 || region.len() < area_start(region) as usize + HEADER_SIZE as usize
}

fn has_bad_reserved(region: &Region) -> bool
    requires { HasFrame region.now }
    ensures { IsTrue result ↔ HasBadReserved region.now.bytes }
{
    reserved(region) != 0
}

fn has_bad_padding(region: &Region) -> bool
    requires { IsWithin region.now 0 (model_start region.now.bytes + HEADER_SIZE) }
    ensures { IsTrue result ↔ HasBadPadding region.now.bytes }
{
    let end = head_end(region);
    end != area_start(region) && region.get_u32(end as usize) != 0
}

/// Tests for the faults of the head, in their order.
pub(crate) fn check_head(region: &Region) -> Result<(), HeapFault>
    requires { region.now.lents ≡ [] }
    ensures right { OnOk result (IsHead region.now.bytes) }
    ensures fault { IfErr result (IsFirstHeapFault region.now.bytes) }
{
    if is_too_short(region) {
        return Err(HeapFault::TooShort);
    }
    if has_bad_magic(region) {
        return Err(HeapFault::BadMagic);
    }
    if has_bad_size(region) {
        return Err(HeapFault::BadSize);
    }
    if has_bad_slot_count(region) {
        return Err(HeapFault::BadSlotCount);
    }
    if has_bad_reserved(region) {
        return Err(HeapFault::BadReserved);
    }
    if has_bad_padding(region) {
        return Err(HeapFault::BadPadding);
    }
    Ok(())
}
