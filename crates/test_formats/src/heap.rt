//! The format of an image: the definitions, on images; regions, frames, headers and the walk over
//! chunks, slots, what the checker finds in images in hex, and the bytes that are left where chunks
//! are placed, claimed, resized and given back.
//!
//! One of the images is the worked one of docs/FORMAT.md; a case names what it changes in an image.
//! Where words are changed in a blank one, that has 128 bytes with 4 slots: its chunks begin at 32,
//! and a free chunk that fills it has 96 bytes.

mod checks;
mod definitions;
mod found;
mod frames;
mod headers;
mod heaps;
mod moves;
mod placed;
mod regions;
mod resized;
mod slots;
mod steps;
mod stretches;
