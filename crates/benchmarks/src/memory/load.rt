//! A heap under load: its chunks are made, freed and asked for in a fixed order.

ghost use Rattle.std.specs.Prelude.{[], ◌≡◌};

use crate::memory::heaps::Kept;
use crate::memory::lending::{out_among, read_each, read_with_out};
use crate::memory::numbers::Numbers;
use crate::timing::{Sum, Sums};
use heap_model::{Name, Refusal};
use mem_manager::{Heap, Locked};
use raw_region::Region;
use std::alloc::{AllocError, Global};
use std::marker::Model;

/// The owner of all chunks.
pub(crate) const LOAD_OWNER: u8 = 1;

/// The number of bytes that one call reads or writes.
pub(crate) const WIDTH: u32 = 16;

/// A call, or two of them, whose time doesn't depend on the size of the heap.
#[derive(Clone, Copy)]
pub(crate) enum Call {
    LockAndUnlock,
    Size,
    Owner,
    Locks,
    Read,
    Write,
    TakeOutAndPutBack,
    ReadWithOut,
}

/// A heap, the handles of its chunks, and the sum of all replies so far. Between two calls here
/// nothing of the heap is lent.
#[derive(Drop)]
pub(crate) struct Load {
    heap: Heap,
    /// The maximum number of bytes of a new chunk.
    most: u16,
    handles: Vec<Name>,
    /// The handles of the chunks that have 16 bytes.
    wide: Vec<Name>,
    numbers: Numbers,
    replies: Sum,
}

impl Model for Load {
    ghost use Rattle.std.specs.Prelude.{[], ◌≡◌};
    ghost use Rattle.heap_model.specs.Memory.{Memory};

    ghost Value = { Memory };

    ghost view = { λ load. load.heap };

    ghost invariant = { λ load. load.heap.lents ≡ [] };
}

impl Load {
    /// Starts with no chunks. Chunks will have 0 to `most` bytes.
    pub(crate) fn new(alloc: Global, heap: Heap, most: u16) -> Load
        requires { heap.lents ≡ [] }
    {
        Load {
            heap,
            most,
            handles: Vec::new(alloc),
            wide: Vec::new(alloc),
            numbers: Numbers::new(),
            replies: Sum(0),
        }
    }

    /// Makes `count` chunks.
    pub(crate) fn make(&mut self, count: u16) -> Result<(), AllocError> {
        for _ in 0..count {
            let size = self.numbers.below(self.most as usize + 1) as u32;
            match self.heap.handle_new(size, LOAD_OWNER) {
                Ok(name) => {
                    self.replies.add(name.0);
                    self.handles.push(name)?;
                }
                Err(refusal) => self.replies.add_refusal(refusal),
            }
        }
        Ok(())
    }

    /// Frees the chunks of the last `count` handles.
    pub(crate) fn free(&mut self, count: u16) {
        for _ in 0..count {
            if let Some(name) = self.handles.pop() {
                self.replies.add_done(self.heap.free(name));
            }
        }
    }

    /// Frees the chunks of every second handle, the first among them.
    pub(crate) fn free_every_second(&mut self) {
        for name in self.handles.iter().step_by(2) {
            self.replies.add_done(self.heap.free(*name));
        }
    }

    /// Shuffles the last `count` handles.
    pub(crate) fn shuffle(&mut self, count: u16) {
        let from = self.handles.len().saturating_sub(count as usize);
        self.numbers.shuffle(&mut self.handles[from..]);
    }

    /// Finds the handles of the chunks that have 16 bytes.
    pub(crate) fn find_wide(&mut self) -> Result<(), AllocError> {
        for name in &self.handles {
            if matches!(self.heap.size(*name), Ok(WIDTH..)) {
                self.wide.push(*name)?;
            }
        }
        Ok(())
    }

    /// Locks the chunks that have 16 bytes once more, if they are to be written. They stay locked,
    /// so their bytes may be taken out.
    pub(crate) fn prepare(&mut self, call: Call) {
        if let Call::Write = call {
            self.lock_wide();
        }
    }

    fn lock_wide(&mut self) {
        for name in &self.wide {
            match self.heap.lock(*name) {
                Ok(locked) => self.replies.add(locked.place.0),
                Err(refusal) => self.replies.add_refusal(refusal),
            }
        }
    }

    /// Returns the number of calls of a pass of this kind.
    pub(crate) fn calls(&self, call: Call) -> u128 {
        match call {
            Call::LockAndUnlock => 2 * self.handles.len() as u128,
            Call::Size | Call::Owner | Call::Locks => self.handles.len() as u128,
            Call::Read | Call::Write => self.wide.len() as u128,
            Call::TakeOutAndPutBack => 2 * self.wide.len() as u128,
            Call::ReadWithOut => (self.wide.len() - out_among(self.wide.len())) as u128,
        }
    }

    /// Does `passes` times a call at each handle, or at each handle of a chunk that has 16 bytes.
    pub(crate) fn repeat(&mut self, call: Call, passes: u32) {
        for pass in 0..passes {
            match call {
                Call::LockAndUnlock => self.lock_and_unlock(),
                Call::Size => self.ask_sizes(),
                Call::Owner => self.ask_owners(),
                Call::Locks => self.ask_locks(),
                Call::Read => self.read(),
                Call::Write => self.write((pass % 256) as u8),
                Call::TakeOutAndPutBack => self.take_out_and_put_back(),
                // Bodies are taken out once for all passes.
                Call::ReadWithOut => {
                    self.read_with_out(passes);
                    return;
                }
            }
        }
    }

    #[inline(never)]
    fn lock_and_unlock(&mut self) {
        let mut replies = self.replies;
        for name in &self.handles {
            add_locked(&mut replies, self.heap.lock(*name));
            replies.add_byte(self.heap.unlock(*name));
        }
        self.replies = replies;
    }

    #[inline(never)]
    fn ask_sizes(&mut self) {
        let mut replies = self.replies;
        for name in &self.handles {
            replies.add_number(self.heap.size(*name));
        }
        self.replies = replies;
    }

    #[inline(never)]
    fn ask_owners(&mut self) {
        let mut replies = self.replies;
        for name in &self.handles {
            replies.add_byte(self.heap.owner(*name));
        }
        self.replies = replies;
    }

    #[inline(never)]
    fn ask_locks(&mut self) {
        let mut replies = self.replies;
        for name in &self.handles {
            replies.add_byte(self.heap.locks(*name));
        }
        self.replies = replies;
    }

    /// Reads 16 bytes of each chunk, and adds up the first and the last.
    fn read(&mut self) {
        self.replies = read_each(&self.heap, &self.wide, self.replies);
    }

    /// Takes bodies out once, and reads `passes` times 16 bytes of each of the other chunks.
    fn read_with_out(&mut self, passes: u32) {
        let (out, others) = self.wide.split_at(out_among(self.wide.len()));
        read_with_out(&mut self.heap, out, others, passes, &mut self.replies);
    }

    /// Writes a byte over the first 16 bytes of each chunk.
    #[inline(never)]
    fn write(&mut self, byte: u8) {
        let bytes = [byte; WIDTH as usize];
        let mut replies = self.replies;
        for name in &self.wide {
            replies.add_done(self.heap.write(*name, 0, &bytes));
        }
        self.replies = replies;
    }

    /// Takes the bytes of each chunk out and puts them back, and adds up the first and the last.
    #[inline(never)]
    fn take_out_and_put_back(&mut self) {
        let mut replies = self.replies;
        for name in &self.wide {
            match self.heap.take_out(*name) {
                Ok(loan) => {
                    replies.add_ends(loan.slice(0, loan.len()));
                    self.heap.put_back(loan);
                }
                Err(refusal) => replies.add_refusal(refusal),
            }
        }
        self.replies = replies;
    }

    /// Adds the sum of all replies, and the sum of the words of the heap.
    pub(crate) fn add_to(self, sums: &mut Sums) {
        sums.add(self.replies, region_of(self.heap).as_slice());
    }

    /// Returns the chunks of every second handle, from the second on.
    pub(crate) fn kept(&self, alloc: Global) -> Result<Vec<Kept>, AllocError> {
        let mut kept = Vec::new(alloc);
        for name in self.handles.iter().skip(1).step_by(2) {
            if let Ok(length) = self.heap.size(*name) {
                kept.push(Kept {
                    name: *name,
                    length,
                })?;
            }
        }
        Ok(kept)
    }

    pub(crate) fn into_region(self) -> Region
        ensures { result.lents ≡ [] }
    {
        region_of(self.heap)
    }
}

/// Returns the region of a heap of which nothing is lent.
pub(crate) fn region_of(heap: Heap) -> Region
    requires { heap.lents ≡ [] }
    ensures { result ≡ heap }
{
    match heap.into_region() {
        Ok(region) => region,
        Err(_) => unreachable!(),
    }
}

/// Adds the place and the count of a chunk that was locked, or the number of a refusal.
fn add_locked(replies: &mut Sum, locked: Result<Locked, Refusal>) {
    match locked {
        Ok(locked) => replies.add(locked.place.0 ^ locked.count as u32),
        Err(refusal) => replies.add_refusal(refusal),
    }
}
