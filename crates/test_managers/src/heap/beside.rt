//! A call on a heap, and the same on the plain model next to it.

ghost use Rattle.std.specs.Prelude.{[], ◌≡◌, ℕ, IfOk, None};
ghost use Rattle.heap_model.specs.Lending.{IsLent};
ghost use Rattle.heap_model.specs.Space.{place_of};

use crate::heap::calls::do_call;
use crate::heap::linked::{are_built, class_with_a_gap};
use heap_model::{MemoryCall, Name, Place, Reply};
use mem_manager::Heap;
use raw_region::Region;
use std::alloc::{AllocError, Global};
use std::test::*;
use test_beside::body_of;
use test_model::{Image, PlainHeap, broken_rule};
use test_support::equal;

/// A heap of which nothing is lent, with all chunks that it holds, and whether the lists
/// of its free chunks are built.
#[derive(Drop)]
pub(crate) struct Beside {
    heap: Heap,
    chunks: PlainHeap,
    are_built: bool,
    ghost whole: { heap.lents ≡ [] },
}

impl Beside {
    pub(crate) fn new(alloc: Global, region: Region) -> Result<Beside, Fail>
        requires { region.lents ≡ [] }
    {
        let chunks = PlainHeap::of(alloc, &Image::decode(alloc, region.as_slice())?)?;
        Ok(Beside {
            heap: adopt(region)?,
            chunks,
            are_built: false,
        })
    }

    /// The image of the heap.
    pub(crate) fn image(&self) -> &[u8] {
        self.heap.image()
    }

    /// The next call is done on a heap that is adopted anew.
    pub(crate) fn adopt_anew(&mut self, alloc: Global) -> Result<(), Fail> {
        self.heap = adopt(Region::from_bytes(alloc, self.heap.image())?)?;
        self.are_built = false;
        Ok(())
    }

    /// Does a call on both, and checks what came of it. The bytes that are out of the model are out
    /// of the heap during the call. They are put back after it as they were, and must stand where
    /// they stood.
    pub(crate) fn call(
        &mut self,
        alloc: Global,
        spot: &str,
        call: &MemoryCall,
    ) -> Result<Reply, Fail> {
        let before = Vec::from_slice(alloc, self.heap.image())?;
        let names = Vec::from_slice(alloc, self.chunks.lent())?;
        let (reply, lent) = reply_while_lent(alloc, &mut self.heap, &names, call)?;
        self.check(alloc, spot, (call, &reply), &before)?;
        if !names.is_empty() {
            self.check_lent(alloc, spot, &lent, &before)?;
        }
        Ok(reply)
    }

    /// The bytes of some names are out from now on.
    pub(crate) fn take_out(&mut self, names: &[Name]) -> Result<(), Fail> {
        for name in names {
            self.chunks.take_out_also(*name)?;
        }
        Ok(())
    }

    /// The bytes of a name are put back.
    pub(crate) fn put_back(&mut self, name: Name) {
        self.chunks.put_back(name, b"");
    }

    /// The chunks of lent names must have their places and their lengths of an earlier image, and
    /// the heap must have named just these, in order.
    fn check_lent(
        &self,
        alloc: Global,
        spot: &str,
        lent: &[Name],
        before: &[u8],
    ) -> Result<(), Fail> {
        let before = Image::decode(alloc, before)?;
        let after = Image::decode(alloc, self.heap.image())?;
        equal(spot, lent, self.chunks.loans(alloc, &before)?.as_slice())?;
        for name in lent {
            equal(spot, body_of(&after, *name), body_of(&before, *name))?;
        }
        Ok(())
    }

    /// Checks a call that was done on the heap, with the image that was there before.
    fn check(
        &mut self,
        alloc: Global,
        spot: &str,
        (call, reply): (&MemoryCall, &Reply),
        before: &[u8],
    ) -> Result<(), Fail> {
        let before = Image::decode(alloc, before)?;
        let after = Image::decode(alloc, self.heap.image())?;
        self.are_built = are_built(self.are_built, call, reply, &before, &after);
        check_call(
            alloc,
            spot,
            &mut self.chunks,
            (call, reply),
            &before,
            &after,
        )?;
        check_left(alloc, spot, self.are_built, &after)
    }
}

/// Does a call on the model. The replies must be the same, the image must hold just the chunks of
/// the model, and the call must have kept to its rules.
fn check_call(
    alloc: Global,
    spot: &str,
    chunks: &mut PlainHeap,
    (call, reply): (&MemoryCall, &Reply),
    before: &Image,
    after: &Image,
) -> Result<(), Fail> {
    let expected = chunks.call(alloc, call, before, after, reply);
    equal(spot, reply, &expected)?;
    let odd = (
        chunks.difference(after),
        broken_rule(call, reply, before, after),
    );
    equal(spot, odd, (None, None))
}

/// What a call leaves must be an image that can be adopted. While the lists are built, each free
/// chunk must be in the one of its class.
fn check_left(alloc: Global, spot: &str, are_built: bool, image: &Image) -> Result<(), Fail> {
    adopt(Region::from_bytes(alloc, image.bytes)?)?;
    if are_built {
        equal(spot, class_with_a_gap(alloc, image)?, None)?;
    }
    Ok(())
}

/// Does a call on a heap while the bytes under some names are out, and puts them back. Returns the
/// reply, and the names that the heap lent during the call.
fn reply_while_lent(
    alloc: Global,
    heap: &mut Heap,
    names: &[Name],
    call: &MemoryCall,
) -> Result<(Reply, Vec<Name>), Fail>
    ensures lent { heap.new.lents ≡ heap.old.lents }
    ensures places { (name : ℕ) → IsLent heap.old name
        → place_of heap.new.bytes name ≡ place_of heap.old.bytes name }
{
    let Some((name, others)) = names.split_first() else {
        let lent = loans_of(alloc, heap)?;
        return Ok((do_call(alloc, heap, call), lent));
    };
    let loan = heap.take_out_also(*name)?;
    let replied = reply_while_lent(alloc, heap, others, call);
    heap.put_back(loan);
    replied
}

/// The names that a heap lends, in order of their places: up to 100.
fn loans_of(alloc: Global, heap: &Heap) -> Result<Vec<Name>, AllocError> {
    let mut names = Vec::new(alloc);
    let mut place = Place(0);
    for _ in 0..100u32 {
        match heap.loan_above(place) {
            Some((name, next)) => {
                names.push(name)?;
                place = next;
            }
            None => break,
        }
    }
    Ok(names)
}

/// The heap of a region.
pub(crate) fn adopt(region: Region) -> Result<Heap, Fail>
    requires { region.lents ≡ [] }
    ensures { IfOk result (λ heap. heap.lents ≡ []) }
{
    match Heap::adopt(region) {
        Ok(heap) => Ok(heap),
        Err(_) => Err("no heap")?,
    }
}
