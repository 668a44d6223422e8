//! A list of calls that is drawn call by call along the plain model, and then run as a whole.

ghost use Rattle.std.specs.Prelude.{[], ◌≡◌, None};

use heap_model::{Call, Name, Place, Reply};
use palm_script::run_calls;
use palm_store::Store;
use rand_pcg::Pcg32;
use std::alloc::{AllocError, Global};
use std::marker::Model;
use std::test::*;
use test_beside::{Beside, Counts, image_of, store_of};
use test_model::Image;
use test_support::equal;

/// The list so far. Its calls were done one by one on a store next to the plain model, since what
/// can be named depends on the calls before. Nothing is lent of the store.
#[derive(Drop)]
pub(crate) struct Drawn {
    /// The image that the list begins with.
    start: Vec<u8>,
    calls: Vec<Call>,
    /// The model's replies.
    replies: Vec<Reply>,
    beside: Beside,
    store: Store,
    /// Chunks that were locked or fixed after each call since the list was run last, and where they
    /// were then.
    staying: Vec<(Name, Place)>,
}

impl Model for Drawn {
    ghost use Rattle.std.specs.Prelude.{[], ◌≡◌};
    ghost use Rattle.heap_model.specs.Memory.{Memory};

    ghost Value = { Memory };

    ghost view = { λ drawn. drawn.store };

    ghost invariant = { λ drawn. drawn.store.lents ≡ [] };
}

impl Drawn {
    /// A list without calls, from an image.
    pub(crate) fn new(alloc: Global, start: Vec<u8>) -> Result<Drawn, Fail> {
        let staying = staying_in(alloc, &Image::decode(alloc, &start)?)?;
        let store = store_of(alloc, &start)?;
        let beside = Beside::new(alloc, start.clone()?)?;
        Ok(Drawn {
            calls: Vec::new(alloc),
            replies: Vec::new(alloc),
            beside,
            store,
            start,
            staying,
        })
    }

    /// Draws the given number of further calls.
    pub(crate) fn draw(
        &mut self,
        alloc: Global,
        random: &mut Pcg32,
        counts: &mut Counts,
        count: u32,
    ) -> Result<(), Fail> {
        for _ in 0..count {
            let call = self.beside.any_call(random, alloc)?;
            self.add(alloc, counts, call)?;
            self.forget_unlocked(alloc)?;
        }
        Ok(())
    }

    /// Does a call, and adds it to the list.
    fn add(&mut self, alloc: Global, counts: &mut Counts, call: Call) -> Result<(), Fail> {
        let reply = self.reply(alloc, &call)?;
        counts.add(&call, &reply)?;
        self.replies.push(reply)?;
        self.calls.push(call)?;
        Ok(())
    }

    /// The reply to a call on the store, which must be the model's.
    fn reply(&mut self, alloc: Global, call: &Call) -> Result<Reply, Fail> {
        let spot = format!(in alloc; "call {}", self.calls.len())?;
        self.beside
            .call_on(alloc, &mut self.store, spot.as_str(), call)
    }

    /// Forgets the chunks that are gone, or may move now.
    fn forget_unlocked(&mut self, alloc: Global) -> Result<(), Fail> {
        let image = Image::decode(alloc, &self.beside.image)?;
        self.staying.retain(|(name, _)| stays(&image, *name));
        Ok(())
    }

    /// Runs the list as a whole, from the image that it begins with. Its replies must be those of
    /// the model, call by call.
    pub(crate) fn check_run(&mut self, alloc: Global) -> Result<(), Fail> {
        let (replies, image) = run_from(alloc, &self.start, &self.calls)?;
        self.check_replies(&replies)?;
        self.check_left(alloc, &image)
    }

    /// What the list leaves must be accepted and mean the model's store, with each chunk that
    /// stayed in its place.
    fn check_left(&mut self, alloc: Global, image: &[u8]) -> Result<(), Fail> {
        self.beside.check_meant(alloc, image)?;
        self.check_places(alloc, &Image::decode(alloc, image)?)
    }

    fn check_replies(&self, replies: &[Reply]) -> Result<(), Fail> {
        equal("replies", replies.len(), self.replies.len())?;
        for (number, (reply, wanted)) in replies.iter().zip(&self.replies).enumerate() {
            equal(
                format_args!("call {number}: {:?}", self.calls.get(number)),
                reply,
                wanted,
            )?;
        }
        Ok(())
    }

    /// Each chunk that stayed must be in its place. From here on those count that are locked or
    /// fixed now.
    fn check_places(&mut self, alloc: Global, image: &Image) -> Result<(), Fail> {
        for (name, place) in &self.staying {
            equal(
                format_args!("{name:?}"),
                place_of(image, *name),
                Some(*place),
            )?;
        }
        self.staying = staying_in(alloc, image)?;
        Ok(())
    }
}

/// The replies to a list of calls on the store of an image, and the image that it leaves.
fn run_from(alloc: Global, image: &[u8], calls: &[Call]) -> Result<(Vec<Reply>, Vec<u8>), Fail> {
    let mut store = store_of(alloc, image)?;
    match run_calls(alloc, &mut store, calls) {
        Ok(replies) => Ok((replies, image_of(alloc, &store)?)),
        Err(_) => Err("no memory")?,
    }
}

/// Whether a chunk is there and may not move.
fn stays(image: &Image, name: Name) -> bool {
    match image.piece(name) {
        Some(piece) => piece.stays(),
        None => false,
    }
}

fn place_of(image: &Image, name: Name) -> Option<Place> {
    match image.piece(name) {
        Some(piece) => Some(piece.place),
        None => None,
    }
}

/// The chunks of an image that are locked or fixed, and their places.
fn staying_in(alloc: Global, image: &Image) -> Result<Vec<(Name, Place)>, AllocError> {
    let mut staying = Vec::new(alloc);
    for piece in &image.pieces {
        if piece.stays()
            && let Some(live) = piece.live
        {
            staying.push((live.name, piece.place))?;
        }
    }
    Ok(staying)
}
