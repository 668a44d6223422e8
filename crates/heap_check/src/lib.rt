//! The checker of heap images: whether an image is an accepted heap, and if not, its first fault.
//!
//! `check_heap` takes no memory. In an image without a chain of tables it reads the head, walks
//! over the chunks once and then over the table once. `chained.rt` describes the check of a chain.
//! `check_heap_noting` also notes the owner of each slot's chunk by the slot's word, for a caller
//! that needs the owners later. `specs/Faults.antt` defines each fault and the order of the tests.
//! `heap_model` defines what an accepted heap is.
#![tactic(auto)]

mod bits;
mod chained;
mod check;
mod directory;
mod fault;
mod head;
mod marks;
mod owners;
mod slots;
mod summary;
mod survey;

pub use bits::{BITS_SIZE, bits_needed, no_bits};
pub use check::{check_heap, check_heap_noting, check_heap_with};
pub use fault::{HeapFault, Numbers};
pub use marks::{MOST_MARKS, NO_OWNER, mark_number, marks_needed};
pub use owners::note_owners;
pub use summary::Summary;
