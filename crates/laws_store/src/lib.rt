//! Laws of the definitions of databases and stores in `heap_model`.
//!
//! The functions here have empty bodies: the postcondition of each is a law, proved once. The
//! lemmas that prove them are in `proofs/`. Proofs of other crates cite these lemmas:
//!
//! | file | laws of |
//! |---|---|
//! | `Numbers` | numbers and the bytes that spell them, both ways; lists by index |
//! | `Times` | how often a list has a number, and what follows for its elements; least numbers |
//! | `MovedElements` | an element of a list moved: it is taken out and put in again, and the length and sums stay |
//! | `Fresh`, `RecordIds` | fresh unique IDs: there is one, and one alone; those of records, by the indexes of their entries |
//! | `Names` | names in their fields |
//! | `Spellings` | what spells a database is read as that one |
//! | `Shapes` | bytes in shape spell what is read off them |
//! | `Edits` | entries replaced, put in and taken out, and headers replaced, by their bytes |
//! | `Entries` | entries edited: the database stays sound, and what it names |
//! | `Bodies` | what a heap of bytes holds are bytes |
//! | `Directories` | the slots that a directory lists, and their bytes, both ways |
//! | `NameCounts` | how often databases name something, and have an ID, as sums over databases and entries |
//! | `Owners` | the owners of names: which names are slots, and which chunks are the manager's |
//! | `Counts` | the accepted image, and the same by counts |
//! | `Tests` | the tests of `specs/StoreTests` decide which image is accepted |
//! | `KeptDatabases` | an image whose manager's chunks are as they were |
//! | `MemoryCalls` | the memory manager's calls, which leave the databases |
//! | `LiftedCalls`, `CallSteps` | the memory manager's calls, which are steps of the store; what is left to prove of a step |
//! | `RewrittenDatabases` | an image in which one database was rewritten |
//! | `Found` | databases by their numbers: found, changed and taken out |
//! | `Numbered` | databases of an accepted image by their numbers: what is spelled there |
//! | `Listed` | an image to which a database came, or of which one went |
//! | `ChangeSteps` | images with their databases changed, which mean the store changed |
//! | `Edited` | images in which one database and one chunk were edited: what names stand for, and whose they are |
//! | `EditedStores` | these images, and those in which only one of the two was edited, which mean the store changed |
//! | `MeantStore` | what an accepted image means: one store |
//! | `StoreChunks` | what a store says of the chunks of an image |
//! | `Parts` | room for one part, and the number of the stretch around a chunk |
//! | `NewDatabases` | a slot listed last, and the room and the slots of two chunks that are made |
//! | `DroppedDatabases` | a slot taken out of those that are listed |
#![tactic(auto)]

mod laws;

pub use laws::{
    acceptance_is_counted, bodies_are_bytes, chunks_are_steps, creates_are_steps,
    databases_are_changed, databases_are_found, databases_are_sound, databases_are_stores,
    databases_are_taken_out, directories_are_read, drops_are_steps, edits_are_counted,
    edits_are_sound, edits_are_steps, entries_are_moved, entries_are_written, fresh_ids_exist,
    headers_are_written, made_then_short, makes_are_steps, means_one_store,
    memory_calls_are_store_steps, memory_calls_keep_stores, numbers_are_known, one_part_is_short,
    refusals_are_steps, respells_are_steps, sets_are_steps, shapes_are_spellings,
    spellings_are_read, stores_are_appended, stores_are_decided, stores_are_dropped,
    stores_are_kept, stores_are_rewritten, stores_tell,
};
