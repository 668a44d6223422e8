//! The form of a heap image and its meaning: the definitions that contracts on images and databases
//! cite, and the types that the layers share.
//!
//! The definitions are in `specs/`, in this order:
//!
//! | file | defines |
//! |---|---|
//! | `Memory` | the value of a region in contracts |
//! | `Bytes` | big-endian numbers in a list of bytes, and the bytes after a write |
//! | `Frame` | the numbers of the frame: its offsets, the magic and the limits |
//! | `Chunk` | a chunk, how many bytes it takes (`need`), how it is spelled, and runs of chunks |
//! | `Placed` | predicates of every chunk of a list and its offset, or of some chunk |
//! | `Slots` | the master pointer table of an image: which offsets are those of slots |
//! | `Heap` | the accepted heap: its head, its chunks, the ties between slots and chunks |
//! | `Pairing` | the ties in two halves, as a checker meets them |
//! | `Meaning` | the meaning of an accepted heap: a map from names to (bytes, lock, owner) |
//! | `Reading` | the same by functions that read it from the image |
//! | `Maps` | the changes of a map that calls make |
//! | `Space` | free chunks and free slots: how much there is, and where |
//! | `Placing` | the frame of an image, which calls keep, and a name's chunk among others |
//! | `Layout` | the chunks with each run of free ones as one, and changes of these |
//! | `Packing` | compaction: the chunks after it, how much it moves, and one stretch whose chunks slide |
//! | `Resizing` | the chunks around one that gets another length |
//! | `Lists` | lists by index, how often a number occurs in one, and least numbers |
//! | `DatabaseFields` | the offsets of the fields of a database's header and entries |
//! | `Database` | a database, the bytes that spell it, and the one that is read from bytes |
//! | `UniqueIds` | the unique ID that a new record gets |
//! | `Store` | the databases of an image, the accepted image, and the store that it means |
//! | `Files` | the faults of a file of a database, the database that is read from it, and the file that is written |
//! | `Counts` | an image and its databases, by how often each name is listed and named |
//! | `Rooms` | the rooms that are left for a call of several parts |
//! | `Leaving` | the state after a call that is no step for callers, and a chunk that spells a database |
//! | `Lending` | the lent parts of a heap: bodies of chunks that stay |
//! | `MoreTables` | a further table that is made |
//! | `Migration` | the change of an image from one layout to the other |
//! | `Numbers` | the numbers and the names of refusals |
//! | `Refusals` | checks in order, and the refusal of the first one that applies |
//! | `Steps` | the row of a call and the step that it makes, whatever the call acts on |
//! | `MemorySteps` | the row of each call of the memory manager: its refusals, its reply and its effect |
//! | `StoreWords` | definitions for the rows of calls on a store: its databases by number, and checks that rows share |
//! | `EntrySteps` | entries of a database of a store made, changed and dropped, and the effect of such a call |
//! | `DatabaseSteps` | the row of each call on databases as a whole |
//! | `Categories` | the category of a record, and the effect of calls on a category on a record |
//! | `RecordSteps` | the row of each call on records |
//! | `ResourceSteps` | the row of each call on resources |
//! | `FileSteps` | the row of each call on files, and the room that a whole new database takes |
//! | `StoreSteps` | the row of each call on a store, the memory manager's calls among them, and its step |
//! | `Runs` | a list of calls, done one after the other |
//!
//! Offsets count bytes from the image's start, and numbers are big-endian. The fields of a chunk's
//! header are those of the Palm OS Programmer's Companion ("Memory Architecture"), and those of a
//! database of the File Format Specification. The image around the chunks, in the profiles PHI1 and
//! PHI2, is this project's own (docs/FORMAT.md).
#![tactic(auto)]

mod bytes;
mod call;
mod database;
mod entry;
mod file_fault;
mod names;
mod refusal;
mod tally;

pub use bytes::Bytes;
pub use call::{Call, DatabaseCall, FileCall, MemoryCall, RecordCall, Reply, ResourceCall};
pub use database::{DbInfo, DbName};
pub use entry::{Entry, RecordInfo, ResourceInfo};
pub use file_fault::{FaultyPart, FileFault};
pub use names::{Db, Name, Place, Which};
pub use refusal::Refusal;
pub use tally::Tally;
