//! A store that a caller in C keeps between calls.

ghost use Rattle.std.specs.Prelude.{[], ◌≡◌, ◌↔◌, true, false, Option, Some, None};
ghost use Rattle.palmheap_c.specs.Opened.{Opened};

use crate::parts::Parts;
use crate::pointers::Pinned;
use palm_store::Store;
use std::alloc::Global;
use std::collections::BTreeMap;
use std::marker::Model;
use std::mem::ManuallyDrop;
use std::ptr;
use std::ptr::NonNull;

/// A store, and the chunks to which pointers are out. It is never dropped in place: `into_store` takes
/// the store out.
#[derive(Drop)]
pub struct Held {
    pub(crate) store: ManuallyDrop<Store>,
    pub(crate) pointers: BTreeMap<u32, Pinned>,
}

impl Model for Held {
    ghost use Rattle.core.specs.Mem.{manually_drop_value};
    ghost use Rattle.palmheap_c.specs.Opened.{Opened};

    ghost Value = { Opened };

    ghost view = { λ held. record {
      memory = manually_drop_value held.store;
      pointers = held.pointers.entries;
    } };
}

impl Held {
    pub(crate) fn of(alloc: Global, store: Store) -> Held
        ensures { result ≡ record { memory = store; pointers = [] } }
    {
        Held {
            store: unsafe { ManuallyDrop::new_unchecked(store) },
            pointers: BTreeMap::new(alloc),
        }
    }

    pub(crate) fn into_store(self) -> Store
        ensures { result ≡ self.memory }
    {
        let Held { store, pointers: _ } = self;
        ManuallyDrop::into_inner(store)
    }

    /// Borrows the store.
    pub(crate) fn as_store(&self) -> &Store
        ensures { result.now ≡ self.now.memory }
    {
        &self.store
    }

    /// Returns whether a chunk of the store is lent.
    pub(crate) fn is_lent(&self) -> bool
        ensures { result ≡ false ↔ (self.now.memory.lents ≡ []) }
    {
        !self.store.is_whole()
    }
}

/// An open store, as C holds it: a pointer to it.
#[repr(C)]
pub struct Kept {
    at: *mut u8,
    ghost store: { Opened },
}

impl Model for Kept {
    ghost use Rattle.palmheap_c.specs.Holding.{owns_store};

    ghost also_owns = { λ kept. owns_store kept.at kept.store };
}

impl Kept {
    ghost use Rattle.std.specs.Borrow.{sem};
    ghost use Rattle.palmheap_c.specs.Keeping.{lends_held, lends_store};

    /// Borrows the store where it is held.
    pub(crate) fn held(&mut self) -> &mut Held
        ensures* writes_back { sem 𝓛 (lends_held self.entry result) }
        ensures value { result.now ≡ self.old.store }
    {
        unsafe { &mut *(self.at as *mut Held) }
    }

    /// Borrows the store for a call.
    pub(crate) fn as_mut(&mut self) -> &mut Store
        ensures* writes_back { sem 𝓛 (lends_store self.entry result) }
        ensures value { result.now ≡ self.old.store.memory }
    {
        &mut self.held().store
    }
}

/// A place in C for a store. It holds an open store, or none: then its pointer is null if
/// `palmheap_open` or `palmheap_close` wrote it. It has the same layout as `Kept`: C can pass a place
/// that holds a store for a `Kept`.
#[repr(C)]
pub struct Slot {
    at: *mut u8,
    ghost store: { Option Opened },
}

impl Model for Slot {
    ghost use Rattle.palmheap_c.specs.Holding.{slot_owns};

    ghost also_owns = { λ slot. slot_owns slot.at slot.store };
}

impl Slot {
    ghost use denote.RawPtr.{InBlock, Testable, null_ptr};
    ghost use Rattle.palmheap_c.specs.Holding.{IsNullIfClosed, HoldsStore, kept_in};

    /// Makes a place that holds no store.
    pub(crate) fn closed() -> Slot
        ensures { (result.store ≡ None) × (result.at ≡ null_ptr) }
    {
        Slot {
            at: ptr::null_mut(),
        }
    }

    /// Makes a place that holds a store.
    pub(crate) fn of(parts: Parts<Held, Global>) -> Slot
        ensures { result.store ≡ Some parts.value }
    {
        let Parts { ptr, alloc: _ } = parts;
        Slot { at: ptr as *mut u8 }
    }

    /// Returns the place as it is, and its pointer.
    fn shown(self) -> (Slot, *mut u8)
        requires { IsNullIfClosed self.store self.at }
        ensures { (result.0 ≡ self) × Testable result.1
            × (HoldsStore self.store → InBlock result.1)
            × ((HoldsStore self.store → ⊥) → result.1 ≡ null_ptr) }
    {
        let at = self.at;
        (self, at)
    }

    /// Returns the place as it is, and whether it holds a store.
    pub(crate) fn with_state(self) -> (Slot, bool)
        requires { IsNullIfClosed self.store self.at }
        ensures same { result.0 ≡ self }
        ensures open { result.1 ≡ true → HoldsStore self.store }
        ensures none { result.1 ≡ false → self.store ≡ None }
    {
        let (slot, at) = self.shown();
        (slot, NonNull::new(at).is_some())
    }

    /// Takes the store out of the place.
    pub(crate) fn into_parts(self, alloc: Global) -> Parts<Held, Global>
        requires { HoldsStore self.store }
        ensures { result.value ≡ kept_in self.store }
    {
        let Slot { at } = self;
        Parts {
            ptr: at as *mut Held,
            alloc,
        }
    }
}
