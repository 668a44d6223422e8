//! The walk over the chunks of an image.
#![tactic(auto, using(laws_heap::proofs::Lending::all_misses))]

ghost use Rattle.std.specs.Prelude.{[], ◌≡◌, ◌<◌, ◌^◌, length, None};
ghost use Rattle.heap_model.specs.Reading.{chunks_from};
ghost use Rattle.chunk_format.specs.Header.{headers_of};

use crate::header::{HEADER_SIZE, Header};
use heap_model::Place;
use raw_region::Region;
use std::marker::Model;

/// Iterates over the places and headers of adjacent chunks, in order. It ends at the end of the
/// region, or before the first chunk that is not well-formed.
///
/// Contracts see it as the list of the places and headers that are left.
#[derive(Drop)]
pub struct Walk<'a> {
    region: &'a Region,
    at: u32,
}

impl<'a> Model for Walk<'a> {
    ghost use Rattle.std.specs.Prelude.{[], ◌≡◌, ◌<◌, ◌^◌, List, length, None};
    ghost use Rattle.heap_model.specs.declared.names.Place.{Place};
    ghost use Rattle.heap_model.specs.Reading.{chunks_from};
    ghost use Rattle.chunk_format.specs.declared.header.Header.{Header};
    ghost use Rattle.chunk_format.specs.Header.{headers_of};

    ghost Value = { List (Place × Header) };

    ghost view = { λ walk. headers_of walk.at (chunks_from walk.region.now.bytes walk.at) };

    ghost invariant = { λ walk. (length walk.region.now.bytes < 2 ^ 24)
        × (walk.region.now.lents ≡ []) };
}

impl<'a> Walk<'a> {
    /// Starts a walk at the chunk at `start`, an offset in bytes from the image's start.
    pub fn new(region: &'a Region, start: u32) -> Walk<'a>
        requires small { length region.now.bytes < 2 ^ 24 }
        requires whole { region.now.lents ≡ [] }
        ensures { result ≡ headers_of start (chunks_from region.now.bytes start) }
    {
        Walk { region, at: start }
    }
}

impl<'a> Iterator for Walk<'a> {
    type Item = (Place, Header);

    ghost use Rattle.std.specs.Iterator.{YieldsFirst, item_count};

    ghost remaining = { item_count (λ walk. walk) };

    ghost next_gives = { YieldsFirst (λ walk. walk) };

    fn next(&mut self) -> Option<(Place, Header)> {
        let at = self.at;
        match Header::read_with_size(self.region, at) {
            Some((header, size)) => {
                self.at = at + size;
                Some((Place(at + HEADER_SIZE), header))
            }
            None => None,
        }
    }
}
