//! Chunks of a heap image: their headers, their sizes, the walk over them, and blank images.
//!
//! The chunks tile the image after the master pointer table. Each chunk is a header of two
//! big-endian words and a body:
//!
//! ```text
//!            31     30..28   27..24    23..0
//! word 1   | free | zero   | sizeAdj | size, header included     |
//!            31..28          27..24    23..0
//! word 2   | lock          | owner   | hOffset, two's complement |
//! body     | length = size - 8 - sizeAdj | sizeAdj bytes of slack |
//! ```
//!
//! Only the free bit and the size of a free chunk are read. Start with `specs/Header.antt`: it
//! relates a header to the chunk that is spelled there.
#![tactic(auto)]

mod frame;
mod header;
mod image;
mod laws;
mod walk;

pub use frame::{
    CHAINED_MAGIC, FRAME_SIZE, MAGIC_AT, NEXT_SIZE, SIZE_AT, SLOT_SIZE, TABLE_LENGTH, area_start,
    directory, first_next, has_magic, head_end, is_chained, is_image_size, put_directory, reserved,
    size_field, slot_count,
};
pub use header::{
    ABOVE_24_BITS, DATA_OWNER, FIXED_LOCK, HEADER_SIZE, Header, LiveFields, MANAGERS_OWNER,
    SECOND_WORD_AT, chunk_size, live_fields, put_lock, put_owner, put_slot, size_of_body,
};
pub use image::{BlankFault, blank, blank_from};
pub use laws::blank_images_are_empty;
pub use walk::Walk;
