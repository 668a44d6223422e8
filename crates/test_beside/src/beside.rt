//! A call on a store, and the same on the plain model next to it.

ghost use Rattle.std.specs.Prelude.{[], ◌≡◌, ℕ, IfOk, None};
ghost use Rattle.heap_model.specs.Lending.{IsLent};
ghost use Rattle.heap_model.specs.Space.{place_of};

use crate::draw::{database_call, file_call, memory_call, record_call, resource_call};
use heap_model::{Call, Name, Place, Reply};
use palm_script::do_call;
use palm_store::Store;
use palm_text::Counted;
use rand::RngExt;
use rand_pcg::Pcg32;
use raw_region::Region;
use std::alloc::Global;
use std::test::Fail;
use test_model::{Difference, Image, PlainStore, broken_store_rule};
use test_support::equal;

/// An image, and the store that it means.
#[derive(Drop)]
pub struct Beside {
    pub image: Vec<u8>,
    pub plain: PlainStore,
}

impl Beside {
    pub fn new(alloc: Global, image: Vec<u8>) -> Result<Beside, Fail> {
        let plain = PlainStore::of(alloc, &Image::decode(alloc, &image)?)?;
        Ok(Beside { image, plain })
    }

    /// A call of any manager, drawn from what is there.
    pub fn any_call(&self, random: &mut Pcg32, alloc: Global) -> Result<Call, Fail> {
        let image = Image::decode(alloc, &self.image)?;
        let databases = self.plain.databases();
        let call = match random.random_range(0u32..14) {
            0..=2 => Call::Memory(memory_call(random, alloc, &image)?),
            3..=5 => Call::Database(database_call(random, &image, databases)),
            6..=9 => Call::Record(record_call(random, &image, databases)),
            10..=12 => Call::Resource(resource_call(random, &image, databases)),
            _ => Call::File(file_call(random, alloc, &image, databases)?),
        };
        Ok(call)
    }

    /// Does a call on both, where the image is checked as a store for it, and checks what came of
    /// it.
    pub fn call(&mut self, alloc: Global, spot: &str, call: &Call) -> Result<Reply, Fail> {
        let mut store = store_of(alloc, &self.image)?;
        self.call_on(alloc, &mut store, spot, call)
    }

    /// The same on a store that has the image, and may have had calls before. The bytes that are
    /// out of the model are out of the store during the call. They are put back after it as they
    /// were, and must stand where they stood.
    pub fn call_on(
        &mut self,
        alloc: Global,
        store: &mut Store,
        spot: &str,
        call: &Call,
    ) -> Result<Reply, Fail>
        ensures { store.new.lents ≡ store.old.lents }
    {
        let names = Vec::from_slice(alloc, self.plain.lent())?;
        let (reply, lent) = reply_while_lent(alloc, store, &names, call)?;
        let after = image_of(alloc, store)?;
        check(
            alloc,
            spot,
            &mut self.plain,
            (call, &reply, &lent),
            &self.image,
            &after,
        )?;
        self.image = after;
        Ok(reply)
    }

    /// The same while the bytes under some names are out of both.
    pub fn call_lent(
        &mut self,
        alloc: Global,
        store: &mut Store,
        names: &[Name],
        spot: &str,
        call: &Call,
    ) -> Result<Reply, Fail>
        ensures { store.new.lents ≡ store.old.lents }
    {
        for name in names {
            self.plain.take_out_also(*name)?;
        }
        let reply = self.call_on(alloc, store, spot, call)?;
        for name in names {
            self.plain.put_back(*name, b"");
        }
        Ok(reply)
    }

    /// An image must be accepted and mean just the model's store.
    pub fn check_meant(&self, alloc: Global, image: &[u8]) -> Result<(), Fail> {
        store_of(alloc, image)?;
        let image = Image::decode(alloc, image)?;
        let difference = difference(alloc, "what is left", &self.plain, &image)?;
        equal("what is left", difference, None)
    }
}

/// Does a call on a store while the bytes under some names are out, and puts them back. Returns the
/// reply, and the names that the store lent during the call.
fn reply_while_lent(
    alloc: Global,
    store: &mut Store,
    names: &[Name],
    call: &Call,
) -> Result<(Reply, Vec<Name>), Fail>
    ensures lent { store.new.lents ≡ store.old.lents }
    ensures places { (name : ℕ) → IsLent store.old name
        → place_of store.new.bytes name ≡ place_of store.old.bytes name }
{
    let Some((name, others)) = names.split_first() else {
        let lent = store.loans(alloc)?;
        return Ok((do_call(alloc, store, call), lent));
    };
    let loan = store.take_out_also(*name)?;
    let replied = reply_while_lent(alloc, store, others, call);
    store.put_back(loan);
    replied
}

/// The bodies of lent names must have the places and the lengths that they had, and the store must
/// have named just these, in order.
fn check_lent(
    alloc: Global,
    spot: &str,
    plain: &PlainStore,
    lent: &[Name],
    (before, after): (&Image, &Image),
) -> Result<(), Fail> {
    equal(spot, lent, plain.loans(alloc, before)?.as_slice())?;
    for name in lent {
        equal(spot, body_of(after, *name), body_of(before, *name))?;
    }
    Ok(())
}

/// Where the body of a name stands, and how long it is.
pub fn body_of(image: &Image, name: Name) -> Option<(Place, usize)> {
    let piece = image.piece(name)?;
    Some((piece.place, piece.live?.bytes.len()))
}

/// Does a call on the model. The replies must be the same, the image must be accepted and mean just
/// the model's store, and the call must have kept to its rules.
fn check(
    alloc: Global,
    spot: &str,
    plain: &mut PlainStore,
    (call, reply, lent): (&Call, &Reply, &[Name]),
    before: &[u8],
    after: &[u8],
) -> Result<(), Fail> {
    let before = Image::decode(alloc, before)?;
    let after = Image::decode(alloc, after)?;
    check_lent(alloc, spot, plain, lent, (&before, &after))?;
    let expected = plain.call(alloc, call, &before, &after, reply);
    equal(format_args!("{spot}: {call:?}"), reply, &expected)?;
    let odd = (
        difference(alloc, spot, plain, &after)?,
        broken_store_rule(call, reply, &before, &after),
    );
    equal(format_args!("{spot}: {call:?}"), odd, (None, None))
}

/// In what the model's store differs from the one that an image means.
fn difference(
    alloc: Global,
    spot: &str,
    plain: &PlainStore,
    image: &Image,
) -> Result<Option<Difference>, Fail> {
    match PlainStore::of(alloc, image) {
        Ok(meant) => Ok(plain.difference(&meant)),
        Err(error) => Err(Fail::new(format_args!("{spot}: {error:?}"))),
    }
}

/// The store of an image.
pub fn store_of(alloc: Global, image: &[u8]) -> Result<Store, Fail>
    ensures { IfOk result (λ made. made.lents ≡ []) }
{
    match Store::check(alloc, Region::from_bytes(alloc, image)?) {
        Ok(store) => Ok(store),
        Err(_) => Err("no store")?,
    }
}

/// The image of a store.
pub fn image_of(alloc: Global, store: &Store) -> Result<Vec<u8>, Fail> {
    let mut written = Counted::new(Vec::new(alloc));
    match store.write_image(&mut written) {
        Ok(()) => Ok(written.into_inner()),
        Err(_) => Err("no image")?,
    }
}
