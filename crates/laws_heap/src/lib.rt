//! Laws of the definitions in `heap_model`.
//!
//! The functions here have empty bodies: the postcondition of each is a law, proved once. The
//! lemmas that prove them are in `proofs/`. Proofs of other crates cite these lemmas:
//!
//! | file | laws of |
//! |---|---|
//! | `Frames`, `Writes` | the parts in which two lists of bytes agree, and what a write leaves |
//! | `Tests`, `Results` | tests and the facts that they decide; the error of a result, if it is known |
//! | `Chunks` | runs of chunks, which are put together, taken apart and framed |
//! | `Placed` | what holds of every chunk in its place, or of some one |
//! | `Shapes`, `Runs` | chunks that are read and chunks that are spelled, one or all from an offset on |
//! | `Slots`, `Bodies` | slots by their number, and the two halves of the ties |
//! | `FixedNames` | what the name of a fixed chunk is |
//! | `AlikeTables`, `Relinked` | chunks that are the same but for what tables hold, and those that follow from a write of a word `next` |
//! | `ChainReads`, `AddedTables` | the chain that is read, its last word `next`, and a table that is added after it |
//! | `MoreTables`, `CallFrames` | a table that is put into a free chunk and added: what the image holds then; and the frame that each call leaves |
//! | `Migrations` | an image of the one layout that becomes one of the other |
//! | `Accepted`, `Meanings` | the test of an accepted heap, and the map that it holds |
//! | `FoundChunks` | the chunk that a name stands for, among the chunks |
//! | `Lives` | what names stand for, and where, in lists that are put together |
//! | `Layouts` | lists in which free neighbours are made one: what is the same of them |
//! | `SameLayouts` | an image that has become another: what it holds, and where, by the layout alone |
//! | `Replacements` | chunks of a heap replaced by others of their size: it stays accepted |
//! | `Plain` | the same: first words of free chunks, of which no other bits are set |
//! | `FreeChunks`, `AlteredChunks` | the same: free chunks split, joined and claimed, live ones freed and altered |
//! | `Exchanges` | a chunk of a layout exchanged for others: by parts, and what all names stand for |
//! | `ExchangedNames`, `ChangedName` | the same by what is done: what its name stands for afterwards, and what all others do |
//! | `Spots` | room for a chunk, whatever is before it: what fits into it, and what a claim of it does |
//! | `Directory` | the directory word written: all else of the image is as it was |
//! | `OwnedChunks` | all chunks of an owner made free |
//! | `Packings` | what packing leaves: it is packed, and one list alone |
//! | `CarriedBytes` | bytes carried up or down, and what they spelled |
//! | `Slides` | chunks that slide: what names stand for, which stay, and the rooms are as they were |
//! | `StretchNumbers` | the number of the stretch that a chunk is in, in lists of one layout, and after chunks slide |
//! | `SlidImages` | the same of an image; and which of its chunks have moved, and how much |
//! | `FreeCounts`, `Fits` | how much is free, by what is held; whether a number of bytes fits into a run, a stretch or a place |
//! | `Unmoved` | images in which only one chunk has moved, or none |
//! | `Stretches` | one stretch of an image: the one around a chunk, and its room among the others |
//! | `LoweredRoom` | a chunk that is made lowers one room, and no other changes its stretch |
//! | `Resizings`, `Relocation` | a chunk that takes another length, in its place or elsewhere: what its name stands for then |
//! | `Openness` | what contracts over layouts leave open, by bodies that split and join otherwise |
//!
//! `test_formats` tries the definitions on images.
#![tactic(auto)]

mod laws;

pub use laws::{
    acceptance_is_decided, bytes_tell_migration, chunks_are_read, gained_slots_are_free,
    held_tells_free, holds_one_map, layout_tells, need_is_whole, own_room_counts, packed_once,
    packing_is_packed, packing_joins_rooms, packing_moves, sliding_keeps, slots_are_listed,
    slots_are_names, tied_one_to_one, tiled_once, tiles_are_read, zero_names_nothing,
};
