//! Opening and closing a store that lives between calls, and writing its image.

ghost use Rattle.std.specs.Prelude.{[], ◌≡◌, ◌≢◌, ◌⊎◌, IfOk, IfErr, None};
ghost use Rattle.heap_model.specs.Store.{Accepted};
ghost use Rattle.palmheap_c.specs.Answers.{IsImageFault, IsMemoryAnswer, no_fault};
ghost use Rattle.palmheap_c.specs.Holding.{IsNullIfClosed};
ghost use Rattle.palmheap_c.specs.Opening.{Closes, HoldsImage, IsNewlyOpen, WritesImage};

use crate::answers::{Answer, NO_FAULT};
use crate::buffers::{put_coded, refused_block, refused_write};
use crate::calls::refused;
use crate::images::checked;
use crate::kept::{Held, Kept, Slot};
use crate::parts::Parts;
use heap_model::Refusal;
use palm_store::{ImageFault, Store};
use palm_text::Counted;
use raw_region::Region;
use std::alloc::Global;
use std::mem::{ManuallyDrop, replace};

/// A store in a box. It can't be dropped: the end of a box alone would not free the store's memory.
pub(crate) struct BoxedStore {
    pub(crate) held: Box<Held, Global>,
}

impl BoxedStore {
    /// Takes the box apart, for a place in C.
    fn into_parts(self) -> Parts<Held, Global>
        ensures { result.value ≡ self.held.value }
    {
        let BoxedStore { held } = self;
        Parts::of(held)
    }

    /// Takes the store out of the box.
    fn into_store(self) -> Store
        ensures { result ≡ self.held.value.memory }
    {
        let BoxedStore { held } = self;
        Box::into_inner(held).into_store()
    }
}

/// Opens an image: checks it, and copies it into a store that lives until `palmheap_close`. Sets
/// `store` to it, or to none if it fails. A store that was in `store` before is not closed.
#[unsafe(no_mangle)]
pub extern "C" fn palmheap_open(alloc: Global, image: &[u8], store: &mut Slot) -> Answer
    ensures opened { result ≡ no_fault → HoldsImage image.now store.new.store }
    ensures refused { result ≢ no_fault → IsMemoryAnswer result ⊎ IsImageFault image.now result }
    ensures none { result ≢ no_fault → store.new.store ≡ None }
    ensures null { IsNullIfClosed store.new.store store.new.at }
{
    match boxed_store(alloc, image) {
        Ok(made) => {
            put(store, Slot::of(made.into_parts()));
            NO_FAULT
        }
        Err(answer) => {
            put(store, Slot::closed());
            answer
        }
    }
}

/// Sets a place. A store that was in the place before is not closed.
fn put(place: &mut Slot, slot: Slot)
    ensures { place.new ≡ slot }
{
    let old = replace(place, slot);
    let _not_closed = unsafe { ManuallyDrop::new_unchecked(old) };
}

/// Makes a store of a copy of an image, in a box. No function returns a store by value: it would take
/// 64 KB of stack more.
pub(crate) fn boxed_store(alloc: Global, image: &[u8]) -> Result<BoxedStore, Answer>
    ensures store { IfOk result (λ made. IsNewlyOpen image.now made.held.value) }
    ensures refused { IfErr result (λ answer. IsMemoryAnswer answer ⊎ IsImageFault image.now answer) }
    ensures faulty { IfErr result (λ answer. answer ≢ no_fault) }
{
    match checked(alloc, image) {
        Ok((region, _)) => boxed(alloc, region),
        Err(answer) => Err(answer),
    }
}

/// Makes a store of a checked region, in a box. It is never inlined: the check that its caller makes
/// before has no stack for a store.
#[inline(never)]
fn boxed(alloc: Global, region: Region) -> Result<BoxedStore, Answer>
    requires accepted { Accepted region.bytes }
    requires whole { region.lents ≡ [] }
    ensures held { IfOk result
        (λ made. made.held.value ≡ record { memory = region; pointers = [] }) }
    ensures refused { IfErr result IsMemoryAnswer }
{
    match Box::new(alloc, Held::of(alloc, Store::of_accepted(region))) {
        Ok(held) => Ok(BoxedStore { held }),
        Err(error) => {
            let _unused = error.value.into_store();
            Err(refused_block(alloc))
        }
    }
}

/// Returns the region of a store, of which no chunk may be lent, and frees the store. It is never
/// inlined: its caller has no stack for a store.
#[inline(never)]
pub(crate) fn region_of(boxed: BoxedStore) -> Region
    requires { boxed.held.value.memory.lents ≡ [] }
    ensures same { result ≡ boxed.held.value.memory }
    ensures accepted { Accepted result.bytes }
{
    match boxed.into_store().into_region() {
        Ok(region) => region,
        Err(_lent) => unreachable!(),
    }
}

/// Closes a store and frees its memory. If a chunk is lent, the store stays open. If there is no
/// store, it does nothing.
///
/// # Errors
/// The refusal 27.
#[unsafe(no_mangle)]
pub extern "C" fn palmheap_close(alloc: Global, store: &mut Slot) -> u32
    requires null { IsNullIfClosed store.old.store store.old.at }
    ensures closes { Closes store.old.store store.new.store result }
    ensures null { IsNullIfClosed store.new.store store.new.at }
{
    let (slot, is_open) = replace(store, Slot::closed()).with_state();
    if !is_open {
        let _none = unsafe { ManuallyDrop::new_unchecked(slot) };
        return 0;
    }
    let kept = BoxedStore {
        held: slot.into_parts(alloc).into_box(),
    };
    if kept.held.is_lent() {
        put(store, Slot::of(kept.into_parts()));
        return refused(Refusal::Lent);
    }
    let _closed = kept.into_store();
    0
}

/// Writes the image of a store into a buffer. Sets `count` to its size in bytes, also if the buffer
/// is too short for it.
///
/// # Errors
/// The refusals 27, 26, in this order.
#[unsafe(no_mangle)]
pub extern "C" fn palmheap_write_image(
    alloc: Global,
    store: &mut Kept,
    image: &mut [u8],
    count: &mut usize,
) -> u32
    ensures writes { WritesImage store.old.store.memory image.old image.new count.old count.new result }
    ensures same { store.new.store ≡ store.old.store }
{
    let mut out = Counted::new(Vec::new(alloc));
    match store.as_mut().write_image(&mut out) {
        Ok(()) => put_coded(&out.into_inner(), image, count),
        Err(ImageFault::Lent) => refused(Refusal::Lent),
        Err(ImageFault::Write) => {
            refused_write(alloc, &out);
            refused(Refusal::OutOfMemory)
        }
    }
}
