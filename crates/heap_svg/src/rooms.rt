//! The rooms of an image: the free bytes of each stretch. A compact makes one piece of a room.
#![tactic(auto, using(laws_heap::proofs::Lending::all_within, laws_heap::proofs::Lending::all_misses))]

ghost use Rattle.std.specs.Prelude.{◌≡◌, ◌<◌, ◌≤◌, ◌+◌, ◌^◌, ◌++◌, [], length, IfOk, OnOk, OnErr};
ghost use Rattle.heap_model.specs.Heap.{HeapAccepted};
ghost use Rattle.heap_model.specs.Space.{greatest};
ghost use Rattle.heap_map.specs.Pieces.{free_by};
ghost use Rattle.heap_svg.specs.Rooms.{AddsToRooms, compact_pieces, kept, rooms_drawn, sizes, stays_by};

use allowance::{Allowance, push, room_for};
use chunk_format::{Header, area_start};
use raw_region::Region;
use std::alloc::AllocError;

/// A stretch with free bytes: its offset, and the number of its free bytes.
#[derive(Clone, Copy)]
pub(crate) struct Room {
    pub(crate) start: u32,
    pub(crate) size: u32,
}

/// Returns whether the chunk with this header is fixed or has a lock.
fn stays(header: Header) -> bool
    ensures { result ≡ stays_by header }
{
    match header {
        Header::Free { .. } => false,
        Header::Movable { lock, .. } => lock > 0,
        Header::Fixed { .. } => true,
    }
}

/// Returns the number of free bytes of the chunk with this header.
fn free_size(header: Header) -> u32
    ensures { result ≡ free_by header }
{
    match header {
        Header::Free { size } => size,
        _ => 0,
    }
}

/// The rooms that a walk has met, and the stretch that goes on.
#[derive(Drop)]
struct MetRooms {
    met: Vec<Room>,
    last: Room,
}

impl MetRooms {
    /// Starts before the first chunk, which begins at `start`.
    fn new<A: Allowance>(memory: &A, start: u32) -> Result<MetRooms, AllocError>
        ensures met { IfOk result (λ rooms. rooms.met.items ≡ []) }
        ensures last { IfOk result (λ rooms. rooms.last ≡ record { start = start; size = 0 }) }
        ensures short { OnErr result (A.is_short memory.now) }
    {
        Ok(MetRooms {
            met: room_for(memory, 0)?,
            last: Room { start, size: 0 },
        })
    }

    /// Keeps the stretch that goes on, if it has free bytes.
    fn keep<A: Allowance>(&mut self, memory: &A) -> Result<(), AllocError>
        ensures met { OnOk result (self.new.met.items ≡ self.old.met.items ++ kept self.old.last) }
        ensures last { self.new.last ≡ self.old.last }
        ensures short { OnErr result (A.is_short memory.now) }
    {
        if self.last.size == 0 {
            return Ok(());
        }
        push(memory, &mut self.met, self.last)
    }

    /// Adds the chunk with this header, which ends at `end`. A fixed or locked chunk ends the
    /// stretch.
    fn add<A: Allowance>(&mut self, memory: &A, header: Header, end: u32) -> Result<(), AllocError>
        requires { self.old.last.size + free_by header < 2 ^ 32 }
        ensures added { OnOk result (AddsToRooms self.old self.new header end) }
        ensures short { OnErr result (A.is_short memory.now) }
    {
        if stays(header) {
            self.keep(memory)?;
            self.last = Room {
                start: end,
                size: 0,
            };
            return Ok(());
        }
        self.last.size += free_size(header);
        Ok(())
    }
}

/// Returns the rooms of an accepted heap, in order.
fn room_list<A: Allowance>(memory: &A, region: &Region) -> Result<Vec<Room>, AllocError>
    requires whole { region.now.lents ≡ [] }
    requires accepted { HeapAccepted region.now.bytes }
    ensures rooms { IfOk result (λ rooms. rooms.items ≡ rooms_drawn region.now.bytes) }
    ensures short { OnErr result (A.is_short memory.now) }
{
    let mut at = area_start(region);
    let mut rooms = MetRooms::new(memory, at)?;
    while (at as usize) < region.len() {
        let (header, taken) = Header::at_with_size(region, at);
        at += taken;
        rooms.add(memory, header, at)?;
    }
    rooms.keep(memory)?;
    Ok(rooms.met)
}

/// Returns the size of the largest room, or 0 if there is none.
#[tactic(auto, using(crate::proofs::RoomLaws::largest_here))]
fn largest_room(rooms: &[Room]) -> u32
    ensures { result ≡ greatest (sizes rooms.now) }
{
    let mut largest = 0;
    for room in rooms {
        largest = room.size.max(largest);
    }
    largest
}

/// The rooms of an image in order, their number, and the size of the largest one.
#[derive(Drop)]
pub(crate) struct Rooms {
    pub(crate) all: Vec<Room>,
    pub(crate) count: u32,
    pub(crate) largest: u32,
}

/// Finds the rooms of an accepted heap. A compact leaves each as one piece.
pub(crate) fn find_rooms<A: Allowance>(memory: &A, region: &Region) -> Result<Rooms, AllocError>
    requires whole { region.now.lents ≡ [] }
    requires accepted { HeapAccepted region.now.bytes }
    ensures all { IfOk result (λ rooms. rooms.all.items ≡ rooms_drawn region.now.bytes) }
    ensures count { IfOk result (λ rooms. rooms.count ≡ length (compact_pieces region.now.bytes)) }
    ensures largest { IfOk result (λ rooms.
        rooms.largest ≡ greatest (compact_pieces region.now.bytes)) }
    ensures short { OnErr result (A.is_short memory.now) }
{
    let all = room_list(memory, region)?;
    let rooms = all.as_slice();
    let count = rooms.len() as u32;
    let largest = largest_room(rooms);
    Ok(Rooms {
        count,
        largest,
        all,
    })
}
