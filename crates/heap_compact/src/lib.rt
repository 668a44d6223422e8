//! Owns a heap, changes its chunks, and moves chunks to make room.
//!
//! `Space` owns the region, the lists of its free chunks, and the further tables that are
//! remembered. Every write to a chunk is one of its methods, and its invariant says that the three
//! fit together. `make_room` and `resize_by_moving` choose among its methods. They use a free run
//! that has the room, if there is one. Otherwise they pack the chunks of one stretch; chunks of
//! other stretches keep their places.
//!
//! | module | does |
//! |---|---|
//! | `space` | defines `Space` |
//! | `stretch` | finds stretches, runs of neighbouring chunks without one that stays |
//! | `pack` | packs the chunks of a stretch, or of all stretches |
//! | `lift` | lifts chunks over the free chunk after them |
//! | `open` | opens room after a chunk |
//! | `resize` | gives a chunk another length in its place |
//! | `relocate` | moves a chunk to room elsewhere |
//! | `making` | makes room, by packing one stretch if it has to |
//! | `growing` | gives a chunk another length that doesn't fit its place |
#![tactic(auto)]

mod growing;
mod lift;
mod making;
mod open;
mod pack;
mod relocate;
mod resize;
mod space;
mod stretch;

pub use growing::resize_by_moving;
pub use making::make_room;
pub use space::Space;
pub use stretch::Stretch;
