//! The calls of the memory manager, each by the words of docs/USING.md: its refusals in their
//! order, what it does and what it returns.

use crate::heap::{Chunk, PlainHeap};
use crate::image::{Image, LOCK_OF_FIXED, up_to_zero};
use heap_model::{Bytes, MemoryCall, Name, Place, Refusal, Reply};
use std::alloc::Global;

/// The most locks that a chunk can have.
const MOST_LOCKS: u8 = 14;

/// The owner of what a database names.
pub(crate) const DATA_OWNER: u8 = 15;

impl PlainHeap {
    /// Does a call, and returns what the reply to it must be.
    ///
    /// Most of that follows from the chunks. How much room there was and where chunks were stands
    /// in the image before the call, where they are in the one after it, and which of the free
    /// names a new chunk was given in the reply.
    pub fn call(
        &mut self,
        alloc: Global,
        call: &MemoryCall,
        before: &Image,
        after: &Image,
        reply: &Reply,
    ) -> Reply {
        let answer = match call {
            MemoryCall::HandleNew { size, owner } => self.handle_new(
                alloc, *size, *owner, before, reply,
            ),
            MemoryCall::PtrNew { size, owner } => self.ptr_new(alloc, *size, *owner, before, reply),
            MemoryCall::Resize { name, size } => self.resize(*name, *size, before),
            MemoryCall::Free(name) => self.free(*name),
            MemoryCall::Lock(name) => self.lock(*name, after),
            MemoryCall::Unlock(name) => self.unlock(*name),
            MemoryCall::Size(name) => self.size(*name),
            MemoryCall::Owner(name) => self.owner(*name),
            MemoryCall::Locks(name) => self.locks(*name),
            MemoryCall::Read { name, at, count } => self.read(alloc, *name, *at, *count),
            MemoryCall::Write { name, at, bytes } => self.write(*name, *at, bytes.as_slice()),
            MemoryCall::Set {
                name,
                at,
                count,
                byte,
            } => self.set(*name, *at, *count, *byte),
            MemoryCall::StrCopy { name, at, text } => self.str_copy(*name, *at, text.as_slice()),
            MemoryCall::SetOwner { name, owner } => self.set_owner(*name, *owner),
            MemoryCall::Recover(place) => self.recover(*place, before),
            MemoryCall::FreeByOwner(owner) => self.free_by_owner(*owner),
            MemoryCall::FreeBytes => Ok(Reply::Number(before.free_bytes())),
            MemoryCall::LargestStretch => Ok(Reply::Number(before.largest_room())),
            MemoryCall::Compact => Ok(Reply::Number(before.moved_bytes(after))),
            MemoryCall::MoreSlots => more_slots(before),
        };
        answer.unwrap_or_else(Reply::Refused)
    }

    /// A movable chunk of zeros under a free slot.
    fn handle_new(
        &mut self,
        alloc: Global,
        size: u32,
        owner: u8,
        before: &Image,
        reply: &Reply,
    ) -> Result<Reply, Refusal> {
        check_owner(owner)?;
        let Some(first) = before.first_free_slot() else {
            return Err(Refusal::NotEnoughSpace);
        };
        check_room(need(size), before.largest_room())?;
        let name = match reply {
            Reply::Named(name) if before.is_free_slot(*name) => *name,
            _ => first,
        };
        self.make(alloc, name, 0, size, owner)?;
        Ok(Reply::Named(name))
    }

    /// A fixed chunk of zeros, whose name is where it was made.
    fn ptr_new(
        &mut self,
        alloc: Global,
        size: u32,
        owner: u8,
        before: &Image,
        reply: &Reply,
    ) -> Result<Reply, Refusal> {
        check_owner(owner)?;
        check_room(need(size), before.largest_room())?;
        let name = match reply {
            Reply::Named(name) if !self.chunks.contains_key(&name.0) => *name,
            _ => Name(0),
        };
        self.make(alloc, name, LOCK_OF_FIXED, size, owner)?;
        Ok(Reply::Named(name))
    }

    /// A chunk of zeros.
    pub(crate) fn make(
        &mut self,
        alloc: Global,
        name: Name,
        lock: u8,
        size: u32,
        owner: u8,
    ) -> Result<(), Refusal> {
        let Ok(bytes) = vec![in alloc; 0; size as usize] else {
            return Err(Refusal::OutOfMemory);
        };
        self.add(name, Chunk { lock, owner, bytes })
    }

    /// A chunk comes under a name.
    pub(crate) fn add(&mut self, name: Name, chunk: Chunk) -> Result<(), Refusal> {
        match self.chunks.insert(name.0, chunk) {
            Ok(_) => Ok(()),
            Err(_) => Err(Refusal::OutOfMemory),
        }
    }

    fn resize(&mut self, name: Name, size: u32, before: &Image) -> Result<Reply, Refusal> {
        self.check_callers(name)?;
        self.set_length(name, size, before)
    }

    /// Another length: bytes at the end go, or zeros come.
    pub(crate) fn set_length(
        &mut self,
        name: Name,
        size: u32,
        before: &Image,
    ) -> Result<Reply, Refusal> {
        self.check_movable(name)?;
        self.check_there(name)?;
        let chunk = self.chunk_mut(name)?;
        check_length(chunk.lock, name, need(size), before)?;
        match chunk.bytes.resize(size as usize, 0) {
            Ok(()) => Ok(Reply::Done),
            Err(_) => Err(Refusal::OutOfMemory),
        }
    }

    fn free(&mut self, name: Name) -> Result<Reply, Refusal> {
        self.check_callers(name)?;
        if !self.is_locked(name) {
            self.check_there(name)?;
        }
        self.free_all(&[name])?;
        Ok(Reply::Done)
    }

    fn lock(&mut self, name: Name, after: &Image) -> Result<Reply, Refusal> {
        let chunk = self.chunk_mut(name)?;
        match chunk.lock {
            LOCK_OF_FIXED => return Err(Refusal::ChunkFixed),
            MOST_LOCKS => return Err(Refusal::LockOverflow),
            lock => chunk.lock = lock.saturating_add(1),
        }
        let count = chunk.lock;
        let place = match after.piece(name) {
            Some(piece) => piece.place,
            None => Place(0),
        };
        Ok(Reply::Locked { place, count })
    }

    fn unlock(&mut self, name: Name) -> Result<Reply, Refusal> {
        self.check_movable(name)?;
        if self.chunk(name)?.lock == 0 {
            return Err(Refusal::ChunkNotLocked);
        }
        self.check_there(name)?;
        let chunk = self.chunk_mut(name)?;
        chunk.lock = chunk.lock.saturating_sub(1);
        Ok(Reply::Number(u32::from(chunk.lock)))
    }

    fn size(&self, name: Name) -> Result<Reply, Refusal> {
        Ok(number(self.chunk(name)?.bytes.len()))
    }

    fn owner(&self, name: Name) -> Result<Reply, Refusal> {
        Ok(Reply::Number(u32::from(self.chunk(name)?.owner)))
    }

    /// The lock count; that of a fixed chunk is 15.
    fn locks(&self, name: Name) -> Result<Reply, Refusal> {
        Ok(Reply::Number(u32::from(self.chunk(name)?.lock)))
    }

    fn read(&self, alloc: Global, name: Name, at: u32, count: u32) -> Result<Reply, Refusal> {
        let chunk = self.chunk(name)?;
        self.check_there(name)?;
        let end = at as usize + count as usize;
        let Some(part) = chunk.bytes.as_slice().get(at as usize..end) else {
            return Err(Refusal::OutOfBounds);
        };
        match Vec::from_slice(alloc, part) {
            Ok(copy) => Ok(Reply::Data(Bytes::of(copy))),
            Err(_) => Err(Refusal::OutOfMemory),
        }
    }

    fn write(&mut self, name: Name, at: u32, bytes: &[u8]) -> Result<Reply, Refusal> {
        let part = self.part_mut(name, at, bytes.len())?;
        if part.len() == bytes.len() {
            part.copy_from_slice(bytes);
        }
        Ok(Reply::Done)
    }

    fn set(&mut self, name: Name, at: u32, count: u32, byte: u8) -> Result<Reply, Refusal> {
        self.part_mut(name, at, count as usize)?.fill(byte);
        Ok(Reply::Done)
    }

    /// Writes the bytes before the first zero byte, all if there is none, and one zero byte.
    fn str_copy(&mut self, name: Name, at: u32, text: &[u8]) -> Result<Reply, Refusal> {
        let text = up_to_zero(text);
        let length = u32::try_from(text.len()).unwrap_or(u32::MAX);
        self.set(name, at, length.saturating_add(1), 0)?;
        self.write(name, at, text)
    }

    fn set_owner(&mut self, name: Name, owner: u8) -> Result<Reply, Refusal> {
        self.check_callers(name)?;
        check_owner(owner)?;
        self.give(name, owner)?;
        Ok(Reply::Done)
    }

    /// The name of the chunk whose body begins at a place.
    fn recover(&self, place: Place, before: &Image) -> Result<Reply, Refusal> {
        match before.name_at(place) {
            Some(name) if self.chunk(name).is_ok() => Ok(Reply::Named(name)),
            _ => Err(Refusal::InvalidHandle),
        }
    }

    /// Frees all chunks of an owner, locked and fixed ones too. None is freed where one of them is
    /// lent.
    fn free_by_owner(&mut self, owner: u8) -> Result<Reply, Refusal> {
        check_owner(owner)?;
        if self.lends_of(owner) {
            return Err(Refusal::Lent);
        }
        let before = self.chunks.len();
        self.chunks.retain(|_, chunk| chunk.owner != owner);
        Ok(number(before.saturating_sub(self.chunks.len())))
    }

    /// Refuses a name of no chunk, and of a database's.
    pub(crate) fn check_callers(&self, name: Name) -> Result<(), Refusal> {
        if self.chunk(name)?.owner == DATA_OWNER {
            return Err(Refusal::OwnedByDatabase);
        }
        Ok(())
    }

    /// Refuses a fixed chunk.
    fn check_movable(&self, name: Name) -> Result<(), Refusal> {
        if self.chunk(name)?.lock == LOCK_OF_FIXED {
            return Err(Refusal::ChunkFixed);
        }
        Ok(())
    }

    /// The given number of bytes of a chunk from an offset on, to be written over, which a chunk
    /// without a lock doesn't allow. A fixed chunk counts as locked.
    fn part_mut(&mut self, name: Name, at: u32, count: usize) -> Result<&mut [u8], Refusal> {
        if self.chunk(name)?.lock == 0 {
            return Err(Refusal::ChunkNotLocked);
        }
        self.check_there(name)?;
        let end = (at as usize).saturating_add(count);
        match self
            .chunk_mut(name)?
            .bytes
            .as_mut_slice()
            .get_mut(at as usize..end)
        {
            Some(part) => Ok(part),
            None => Err(Refusal::OutOfBounds),
        }
    }
}

/// The length of a table of 15 slots: they and the word `next`, 4 bytes each.
pub(crate) const TABLE_LENGTH: u32 = 64;

/// A table more changes no chunk that has a name. Refused where the image has no chain, or a table
/// has no room.
fn more_slots(before: &Image) -> Result<Reply, Refusal> {
    if !before.is_chained() {
        return Err(Refusal::NotEnoughSpace);
    }
    check_room(need(TABLE_LENGTH), before.largest_room())?;
    Ok(Reply::Done)
}

/// Refuses a length of the given number of bytes with the header, for a chunk that isn't fixed. A
/// locked chunk grows in its place alone, over the free chunks directly after it. One without a
/// lock grows wherever a stretch has room, its own size being room in its own stretch.
fn check_length(lock: u8, name: Name, need: u64, before: &Image) -> Result<(), Refusal> {
    if lock > 0 && need > before.size_with_behind(name) {
        return Err(Refusal::ChunkLocked);
    }
    if lock == 0 && need > before.size_of(name) {
        return check_room(need, before.largest_room_without(name));
    }
    Ok(())
}

/// Refuses an owner that callers may not give: theirs are 1 to 14.
pub(crate) fn check_owner(owner: u8) -> Result<(), Refusal> {
    if owner == 0 || owner > 14 {
        return Err(Refusal::InvalidOwner);
    }
    Ok(())
}

/// Refuses a need of more bytes than the greatest room has.
fn check_room(need: u64, room: u32) -> Result<(), Refusal> {
    if need > u64::from(room) {
        return Err(Refusal::NotEnoughSpace);
    }
    Ok(())
}

/// The size of a chunk with the given number of bytes: 8 for its header, and its bytes rounded up
/// to a multiple of 8.
pub(crate) fn need(size: u32) -> u64 {
    8 + u64::from(size).next_multiple_of(8)
}

pub(crate) fn number(count: usize) -> Reply {
    Reply::Number(u32::try_from(count).unwrap_or(u32::MAX))
}
