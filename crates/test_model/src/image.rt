//! An image taken apart, by its bytes alone (docs/FORMAT.md).

use heap_model::{Name, Place};
use std::alloc::{AllocError, Global};

/// Why bytes are no accepted heap, or that an allocation failed.
#[derive(Clone, Copy, Debug)]
pub enum Unreadable {
    Memory,
    /// What stands before the slots, or the padding after them.
    Frame,
    /// The chunk at this offset, or that it isn't tied to its slot.
    Chunk(u32),
    /// The word `next` of this index in the chain, from 0, leads to no further table.
    Table(u32),
    /// The slot at this offset holds no place of a chunk that names it.
    Slot(u32),
    Directory,
}

impl From<AllocError> for Unreadable {
    fn from(_: AllocError) -> Unreadable {
        Unreadable::Memory
    }
}

/// The lock of a fixed chunk. That of a movable one is its lock count.
pub(crate) const LOCK_OF_FIXED: u8 = 15;

/// A live chunk: its name, and what its header and its body have. A further table has the place of
/// its body as its name here, which callers can't use.
#[derive(Clone, Copy)]
pub struct Live<'a> {
    pub name: Name,
    pub lock: u8,
    pub owner: u8,
    pub bytes: &'a [u8],
}

impl Live<'_> {
    /// Whether it is a further table: a fixed chunk of the manager's.
    pub(crate) fn is_table(&self) -> bool {
        self.lock == LOCK_OF_FIXED && self.owner == 0
    }
}

/// A chunk where it stands: the place of its body, what it takes with its header, and what it is
/// where it isn't free.
#[derive(Clone, Copy)]
pub struct Piece<'a> {
    pub place: Place,
    pub size: u32,
    pub live: Option<Live<'a>>,
}

impl<'a> Piece<'a> {
    /// Whether it is a chunk that is locked or fixed.
    pub fn stays(&self) -> bool {
        match self.live {
            Some(live) => live.lock > 0,
            None => false,
        }
    }

    /// The name of a chunk that is live in an image after its own, and not where it was.
    pub(crate) fn moved_name(&self, after: &Image) -> Option<Name> {
        let name = self.live?.name;
        match after.piece(name) {
            Some(now) if now.place != self.place => Some(name),
            _ => None,
        }
    }
}

/// A further table: where its body is, and how many slots it has.
#[derive(Clone, Copy, Debug, PartialEq, Eq)]
pub(crate) struct Table {
    pub place: u32,
    pub count: u32,
}

impl Table {
    /// The offset of the slot of a number: the first is after the word `next`.
    pub(crate) fn slot_at(&self, number: u32) -> u32 {
        self.place
            .saturating_add(4)
            .saturating_add(number.saturating_mul(4))
    }
}

/// A slot: its offset, and the place that it holds, 0 where it is free.
#[derive(Clone, Copy)]
struct Slot {
    at: u32,
    holds: u32,
}

/// The bytes of an accepted heap, and its parts in order.
#[derive(Drop)]
pub struct Image<'a> {
    pub bytes: &'a [u8],
    pub pieces: Vec<Piece<'a>>,
    /// The further tables, along the chain.
    pub(crate) tables: Vec<Table>,
    slots: Vec<Slot>,
}

impl<'a> Image<'a> {
    /// Takes an image apart. Refused where it is no accepted heap.
    pub fn decode(alloc: Global, bytes: &'a [u8]) -> Result<Image<'a>, Unreadable> {
        let Some(slot_count) = framed_slots(bytes) else {
            return Err(Unreadable::Frame);
        };
        let Some(area) = padded_end(bytes, slot_count) else {
            return Err(Unreadable::Frame);
        };
        let pieces = pieces_of(alloc, bytes, area)?;
        let tables = tables_of(alloc, bytes, &pieces, slot_count)?;
        let slots = slots_of(alloc, bytes, slot_count, &tables)?;
        let image = Image {
            bytes,
            pieces,
            tables,
            slots,
        };
        image.check_fixed()?;
        image.check_ties()?;
        Ok(image)
    }

    /// Whether each fixed chunk is a caller's or a table of the chain.
    fn check_fixed(&self) -> Result<(), Unreadable> {
        for piece in &self.pieces {
            if let Some(live) = piece.live
                && live.lock == LOCK_OF_FIXED
                && !self.may_be_fixed(live.owner, piece.place.0)
            {
                return Err(Unreadable::Chunk(piece.place.0.saturating_sub(8)));
            }
        }
        Ok(())
    }

    /// Whether a fixed chunk at a place may have this owner.
    fn may_be_fixed(&self, owner: u8, place: u32) -> bool {
        match owner {
            0 => has_table(&self.tables, place),
            _ => owner < 15,
        }
    }

    /// Whether slots and movable chunks are paired, and the directory word names a chunk of the
    /// manager's, if it isn't 0.
    fn check_ties(&self) -> Result<(), Unreadable> {
        for piece in &self.pieces {
            if !self.is_tied(piece) {
                return Err(Unreadable::Chunk(piece.place.0.saturating_sub(8)));
            }
        }
        for slot in &self.slots {
            if slot.holds != 0 && !self.is_named_at(slot) {
                return Err(Unreadable::Slot(slot.at));
            }
        }
        match self.directory() {
            Some(name) if self.managers_body(name).is_none() => Err(Unreadable::Directory),
            _ => Ok(()),
        }
    }

    /// Whether a chunk that is movable stands under its slot.
    fn is_tied(&self, piece: &Piece) -> bool {
        match piece.live {
            Some(live) if live.lock < LOCK_OF_FIXED => self.held_by(live.name)
                == Some(piece.place.0),
            _ => true,
        }
    }

    /// Whether a slot holds the place of the chunk that it names.
    fn is_named_at(&self, slot: &Slot) -> bool {
        match self.piece(Name(slot.at)) {
            Some(piece) => piece.place.0 == slot.holds,
            None => false,
        }
    }

    /// What the slot of a name holds, none where there is no such slot.
    fn held_by(&self, name: Name) -> Option<u32> {
        for slot in &self.slots {
            if slot.at == name.0 {
                return Some(slot.holds);
            }
        }
        None
    }

    /// The body of a movable chunk of the manager's.
    pub(crate) fn managers_body(&self, name: Name) -> Option<&'a [u8]> {
        match self.live(name) {
            Some(live) if live.owner == 0 && !live.is_table() => Some(live.bytes),
            _ => None,
        }
    }

    /// The chunk of a name, where it stands.
    pub fn piece(&self, name: Name) -> Option<Piece<'a>> {
        for piece in &self.pieces {
            if let Some(live) = piece.live
                && live.name == name
            {
                return Some(*piece);
            }
        }
        None
    }

    /// The chunk of a name.
    pub fn live(&self, name: Name) -> Option<Live<'a>> {
        self.piece(name)?.live
    }

    /// The name of the chunk whose body is at a place.
    pub fn name_at(&self, place: Place) -> Option<Name> {
        for piece in &self.pieces {
            if piece.place == place
                && let Some(live) = piece.live
            {
                return Some(live.name);
            }
        }
        None
    }

    /// Whether the image has a chain of tables.
    pub fn is_chained(&self) -> bool {
        is_chained(self.bytes)
    }

    /// The name of the directory, none where there is none.
    pub fn directory(&self) -> Option<Name> {
        match u32_at(self.bytes, 12) {
            0 => None,
            slot => Some(Name(slot)),
        }
    }

    /// The sizes of the free chunks together.
    pub fn free_bytes(&self) -> u32 {
        let mut all = 0u32;
        for piece in &self.pieces {
            if piece.live.is_none() {
                all = all.saturating_add(piece.size);
            }
        }
        all
    }

    /// The greatest room of a stretch, 0 where there is none: the free bytes between two chunks
    /// that stay.
    pub fn largest_room(&self) -> u32 {
        self.largest_room_without(Name(0))
    }

    /// The same where the size of this name's chunk counts as room, if it is one that doesn't stay.
    pub(crate) fn largest_room_without(&self, name: Name) -> u32 {
        let mut room = 0u32;
        let mut largest = 0u32;
        for piece in &self.pieces {
            room = match piece.live {
                Some(_) if piece.stays() => 0,
                Some(live) if live.name != name => room,
                _ => room.saturating_add(piece.size),
            };
            largest = largest.max(room);
        }
        largest
    }

    /// The rooms of the stretches in order: what is free before each chunk that stays, since the
    /// one before it, and after the last. Between two neighbours that stay there is one of 0.
    pub(crate) fn rooms(&self, alloc: Global) -> Result<Vec<u64>, AllocError> {
        let mut rooms = Vec::new(alloc);
        let mut room = 0u64;
        for piece in &self.pieces {
            if piece.stays() {
                rooms.push(room)?;
                room = 0;
            } else if piece.live.is_none() {
                room = room.saturating_add(u64::from(piece.size));
            }
        }
        rooms.push(room)?;
        Ok(rooms)
    }

    /// The index among these of the stretch that has the chunk of a name.
    pub(crate) fn stretch_of(&self, name: Name) -> usize {
        let mut stretch = 0usize;
        for piece in &self.pieces {
            match piece.live {
                Some(live) if live.name == name => break,
                Some(live) if live.lock > 0 => stretch = stretch.saturating_add(1),
                _ => {}
            }
        }
        stretch
    }

    /// What the chunk of a name takes, 0 where there is none.
    pub(crate) fn size_of(&self, name: Name) -> u64 {
        match self.piece(name) {
            Some(piece) => u64::from(piece.size),
            None => 0,
        }
    }

    /// What the chunk of a name takes with the free chunks directly after it, 0 where there is
    /// none.
    pub(crate) fn size_with_behind(&self, name: Name) -> u64 {
        let mut size = 0u64;
        let mut is_behind = false;
        for piece in &self.pieces {
            is_behind = match piece.live {
                Some(live) => live.name == name,
                None => is_behind,
            };
            if is_behind {
                size = size.saturating_add(u64::from(piece.size));
            }
        }
        size
    }

    /// The sizes together of the live chunks whose place is another in an image after this one.
    pub fn moved_bytes(&self, after: &Image) -> u32 {
        let mut moved = 0u32;
        for piece in &self.pieces {
            if piece.moved_name(after).is_some() {
                moved = moved.saturating_add(piece.size);
            }
        }
        moved
    }

    /// Whether nothing but a chunk that stays is after a free one.
    pub fn is_packed(&self) -> bool {
        let mut is_behind_free = false;
        for piece in &self.pieces {
            if is_behind_free && !piece.stays() {
                return false;
            }
            is_behind_free = piece.live.is_none();
        }
        true
    }

    /// How many slots are free.
    pub fn free_slots(&self) -> usize {
        let mut count = 0usize;
        for slot in &self.slots {
            if slot.holds == 0 {
                count = count.saturating_add(1);
            }
        }
        count
    }

    /// The name of the first free slot.
    pub(crate) fn first_free_slot(&self) -> Option<Name> {
        for slot in &self.slots {
            if slot.holds == 0 {
                return Some(Name(slot.at));
            }
        }
        None
    }

    /// Whether a name is that of a free slot.
    pub(crate) fn is_free_slot(&self, name: Name) -> bool {
        self.held_by(name) == Some(0)
    }

    /// Whether a run of neighbouring free chunks has the given number of bytes, headers included.
    pub(crate) fn has_run(&self, need: u64) -> bool {
        let mut run = 0u64;
        for piece in &self.pieces {
            run = match piece.live {
                Some(_) => 0,
                None => run.saturating_add(u64::from(piece.size)),
            };
            if need <= run {
                return true;
            }
        }
        false
    }
}

/// Whether an image has a chain of tables, by its first word.
fn is_chained(bytes: &[u8]) -> bool {
    bytes.starts_with(b"PHI2")
}

/// The number of slots, where the words before them are right.
fn framed_slots(bytes: &[u8]) -> Option<u16> {
    let size = u32_at(bytes, 4);
    let slot_count = u16_at(bytes, 8);
    let is_framed = (bytes.starts_with(b"PHI1") || is_chained(bytes))
        && size as usize == bytes.len()
        && size % 8 == 0
        && size >= 64
        && size <= 16_777_208
        && slot_count > 0
        && u16_at(bytes, 10) == 0;
    if is_framed { Some(slot_count) } else { None }
}

/// The slots, in order: those of the first table, then along the chain.
fn slots_of(
    alloc: Global,
    bytes: &[u8],
    slot_count: u16,
    tables: &[Table],
) -> Result<Vec<Slot>, AllocError> {
    let mut slots = Vec::new(alloc);
    add_slots(bytes, 16, u32::from(slot_count), &mut slots)?;
    for table in tables {
        add_slots(
            bytes,
            table.place.saturating_add(4),
            table.count,
            &mut slots,
        )?;
    }
    Ok(slots)
}

/// Adds the given number of slots from an offset on.
fn add_slots(
    bytes: &[u8],
    first: u32,
    count: u32,
    slots: &mut Vec<Slot>,
) -> Result<(), AllocError> {
    for number in 0..count {
        let at = first.saturating_add(number.saturating_mul(4));
        let holds = u32_at(bytes, at as usize);
        slots.push(Slot { at, holds })?;
    }
    Ok(())
}

/// The further tables, along the chain: no more than there are chunks. Refused if a word `next`
/// leads to no table, or to one that came earlier.
fn tables_of(
    alloc: Global,
    bytes: &[u8],
    pieces: &[Piece],
    slot_count: u16,
) -> Result<Vec<Table>, Unreadable> {
    let mut tables = Vec::new(alloc);
    let mut at = 16 + 4 * u32::from(slot_count);
    for _ in 0..pieces.len() {
        let next = u32_at(bytes, at as usize);
        if next == 0 || !is_chained(bytes) {
            break;
        }
        let Some(table) = table_at(pieces, next) else {
            return Err(bad_table(&tables));
        };
        if has_table(&tables, next) {
            return Err(bad_table(&tables));
        }
        if tables.push(table).is_err() {
            return Err(Unreadable::Memory);
        }
        at = next;
    }
    Ok(tables)
}

/// That the chain leads to no table after these.
fn bad_table(tables: &[Table]) -> Unreadable {
    Unreadable::Table(u32::try_from(tables.len()).unwrap_or(u32::MAX))
}

/// The table whose body is at a place: a fixed chunk of the manager's that has a word and one slot
/// or more.
fn table_at(pieces: &[Piece], place: u32) -> Option<Table> {
    for piece in pieces {
        if piece.place.0 == place
            && let Some(live) = piece.live
            && live.is_table()
        {
            let words = u32::try_from(live.bytes.len() / 4).unwrap_or(0);
            let is_whole = live.bytes.len() % 4 == 0 && words >= 2;
            return if is_whole {
                Some(Table {
                    place,
                    count: words - 1,
                })
            } else {
                None
            };
        }
    }
    None
}

/// Whether a table at this place is among some.
fn has_table(tables: &[Table], place: u32) -> bool {
    for table in tables {
        if table.place == place {
            return true;
        }
    }
    false
}

/// Where the chunks begin: after the slots, a word `next` if there is a chain, and zeros up to a
/// multiple of 8. At least 8 bytes are there.
fn padded_end(bytes: &[u8], slot_count: u16) -> Option<u32> {
    let next_size = if is_chained(bytes) { 4 } else { 0 };
    let end = 16 + 4 * u32::from(slot_count) + next_size;
    let area = end.next_multiple_of(8);
    let padding = bytes.get(end as usize..area as usize)?;
    let is_padded = are_zeros(padding) && area as usize + 8 <= bytes.len();
    if is_padded { Some(area) } else { None }
}

/// The chunks from an offset on, which take all the bytes up to the end.
fn pieces_of<'a>(alloc: Global, bytes: &'a [u8], area: u32) -> Result<Vec<Piece<'a>>, Unreadable> {
    let mut pieces = Vec::new(alloc);
    let mut at = area;
    for _ in 0..bytes.len() / 8 {
        if at as usize == bytes.len() {
            break;
        }
        let Some(piece) = piece_at(bytes, at) else {
            return Err(Unreadable::Chunk(at));
        };
        if pieces.push(piece).is_err() {
            return Err(Unreadable::Memory);
        }
        at = at.saturating_add(piece.size);
    }
    Ok(pieces)
}

/// The chunk at an offset, none where it is out of shape.
fn piece_at(bytes: &[u8], at: u32) -> Option<Piece<'_>> {
    let start = at as usize;
    let (first, second) = (u32_at(bytes, start), u32_at(bytes, start + 4));
    let size = first & 0xFF_FFFF;
    let body = bytes.get(start + 8..start + size as usize)?;
    if size % 8 != 0 {
        return None;
    }
    let live = if first >> 31 == 1 {
        None
    } else {
        Some(live_of(first, second, body, at)?)
    };
    let place = Place(at.saturating_add(8));
    Some(Piece { place, size, live })
}

/// A chunk that isn't free, by the two words of its header and what follows them.
fn live_of(first: u32, second: u32, body: &[u8], at: u32) -> Option<Live<'_>> {
    let slack = (first >> 24 & 0xF) as usize;
    let lock = (second >> 28 & 0xF) as u8;
    let owner = (second >> 24 & 0xF) as u8;
    let distance = second & 0xFF_FFFF;
    let is_right = match lock {
        0 => true,
        LOCK_OF_FIXED => distance == 0,
        _ => owner > 0,
    };
    if !is_right || first >> 28 != 0 || slack > 7 || slack > body.len() {
        return None;
    }
    let name = if lock == LOCK_OF_FIXED {
        at.saturating_add(8)
    } else {
        slot_at_distance(at, distance)
    };
    Some(Live {
        name: Name(name),
        lock,
        owner,
        bytes: body.get(..body.len() - slack)?,
    })
}

/// The offset of the slot that lies twice this distance from an offset; the distance has 24 bits in
/// two's complement. It is 0, where no slot is, if that is before the image.
fn slot_at_distance(at: u32, distance: u32) -> u32 {
    if distance < 0x80_0000 {
        at.saturating_add(2 * distance)
    } else {
        at.saturating_sub(2 * (0x100_0000 - distance % 0x100_0000))
    }
}

/// The bytes before the first zero byte, all if there is none.
pub(crate) fn up_to_zero(bytes: &[u8]) -> &[u8] {
    for (at, byte) in bytes.iter().enumerate() {
        if *byte == 0 {
            return bytes.get(..at).unwrap_or(bytes);
        }
    }
    bytes
}

pub(crate) fn are_zeros(bytes: &[u8]) -> bool {
    for byte in bytes {
        if *byte != 0 {
            return false;
        }
    }
    true
}

/// The byte at an offset, 0 after the last.
pub(crate) fn byte_at(bytes: &[u8], at: usize) -> u8 {
    match bytes.get(at) {
        Some(byte) => *byte,
        None => 0,
    }
}

/// The number that two bytes spell from an offset on, the first of them the higher.
pub(crate) fn u16_at(bytes: &[u8], at: usize) -> u16 {
    u16::from_be_bytes([byte_at(bytes, at), byte_at(bytes, at.saturating_add(1))])
}

/// The same of four bytes.
pub(crate) fn u32_at(bytes: &[u8], at: usize) -> u32 {
    u32::from_be_bytes([
        byte_at(bytes, at),
        byte_at(bytes, at.saturating_add(1)),
        byte_at(bytes, at.saturating_add(2)),
        byte_at(bytes, at.saturating_add(3)),
    ])
}
