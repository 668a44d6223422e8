//! Calls by which the store above reads a heap and any of its chunks.
#![tactic(auto, using(laws_heap::proofs::LentBodies::table_within))]

ghost use Rattle.std.specs.Prelude.{[], ◌≡◌, ◌≢◌, ◌↔◌, IsSome, IsTrue, Some, None, IfSome, IfNone};
ghost use Rattle.heap_model.specs.Chunk.{fixed_lock};
ghost use Rattle.heap_model.specs.Lending.{IsLent, LendsOther};
ghost use Rattle.heap_model.specs.Heap.{HeapAccepted};
ghost use Rattle.heap_model.specs.Meaning.{LiveChunk};
ghost use Rattle.heap_model.specs.Reading.{held};
ghost use Rattle.heap_model.specs.Store.{bytes_under, owner_under};
ghost use Rattle.heap_check.specs.Summary.{Summarizes};
ghost use Rattle.heap_place.specs.Found.{IsFound, IsOne};
ghost use Rattle.mem_manager.specs.Lookup.{IsMovable, StandsAs, IsHere};

use crate::counting::count_chunks;
use crate::heap::Heap;
use crate::known::KnownNames;
use crate::lookup::named;
use heap_check::Summary;
use heap_compact::Space;
use heap_model::Name;
use heap_place::Found;
use master_table::TableStart;
use raw_region::Region;

impl Heap {
    /// Makes a heap of a region that is an accepted heap, without a check. It reads only the chain
    /// of tables.
    pub fn of_accepted(region: Region) -> Heap
        requires accepted { HeapAccepted region.bytes }
        requires whole { region.lents ≡ [] }
        ensures same { result ≡ region }
    {
        Heap {
            space: Space::of_accepted(region),
            used: 0,
            start: TableStart::first(),
            freed: Name(0),
            known: KnownNames::none(),
        }
    }

    /// Counts the chunks of each kind, in one walk over the chunks.
    pub fn summary(&self) -> Summary
        ensures { Summarizes self.now.bytes result }
    {
        count_chunks(self.space.region())
    }

    /// Returns the bytes of the image.
    pub fn image(&self) -> &[u8]
        requires { self.now.lents ≡ [] }
        ensures { result.now ≡ self.now.bytes }
    {
        let region = self.space.region();
        region.slice(0, region.len())
    }

    /// Finds any chunk, or returns `None` if the name has none. The chunk of a slot is found in the
    /// same time however large the heap is.
    #[inline(always)]
    pub fn sys_chunk(&self, name: Name) -> Option<Found>
        ensures is { IfSome result (IsFound self.now.bytes name.0) }
        ensures owner { IfSome result (λ found. found.owner ≡ owner_under self.now.bytes name.0) }
        ensures lock { IfSome result (λ found.
            (live : LiveChunk) → held self.now.bytes name.0 ≡ Some live → found.lock ≡ live.lock) }
        ensures stands { IfSome result (λ found.
            found.lock ≢ fixed_lock → StandsAs self.now.bytes name.0 found) }
        ensures unlocked { IfSome result (λ found.
            found.lock ≡ 0 → IsLent self.now name.0 → ⊥) }
        ensures there { IfSome result (λ found. IsSome (held self.now.bytes name.0)) }
        ensures none { IfNone result (held self.now.bytes name.0 ≡ None) }
    {
        named(&self.space, &self.known, name)
    }

    /// Returns the lock count of any chunk. A fixed chunk has 15.
    #[inline(always)]
    pub fn sys_locks(&self, name: Name) -> u8
        requires there { IsSome (held self.now.bytes name.0) }
        ensures is { (live : LiveChunk) → held self.now.bytes name.0 ≡ Some live → result ≡ live.lock }
        ensures unlocked { result ≡ 0 → IsLent self.now name.0 → ⊥ }
    {
        self.space.chunk(name).lock
    }

    /// Returns whether the body of a movable chunk is lent.
    #[inline(always)]
    pub fn sys_lends(&self, name: Name) -> bool
        requires { IsMovable self.now.bytes name.0 }
        ensures { IsTrue result ↔ IsLent self.now name.0 }
    {
        self.space.lends(self.sys_find(name))
    }

    /// Returns the bytes of a movable chunk, as they are in the image.
    #[inline(always)]
    pub fn sys_body(&self, name: Name) -> &[u8]
        requires movable { IsMovable self.now.bytes name.0 }
        requires here { IsHere self.now name.0 }
        ensures { result.now ≡ bytes_under self.now.bytes name.0 }
    {
        self.sys_body_found(name, self.sys_find(name))
    }

    /// Returns the bytes of a chunk that was found.
    #[inline(always)]
    pub(crate) fn body_of(&self, found: Found) -> &[u8]
        requires found { IsOne self.now.bytes found }
        requires other { LendsOther self.now found.place.0 }
        ensures { result.now ≡ bytes_under self.now.bytes found.name.0 }
    {
        let at = found.place.0 as usize;
        self.space.region().slice(at, found.length as usize)
    }
}
