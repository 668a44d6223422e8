//! palmheap for callers in C, or in a language that can call C. It is a static library, and
//! `include/palmheap.h` declares its functions.
//!
//! Each function takes its input as a pointer and a length, and writes to memory of the caller. No
//! function has a precondition on the bytes: it reports their first fault. A parameter of the type
//! `Global` has no counterpart in C.
//!
//! | module | does |
//! |---|---|
//! | `files` | checks, lists and rewrites PDB and PRC files |
//! | `file_entries` | reads their headers and entries |
//! | `damages` | finds where a file has its first fault |
//! | `salvaging` | salvages damaged files |
//! | `writing` | puts files together |
//! | `needs` | finds the smallest image for a file |
//! | `documents` | lists files as JSON |
//! | `images` | makes and checks images |
//! | `pictures` | draws images, as text or as SVG |
//! | `database_lists` | lists the databases of images, as text or as JSON |
//! | `chained_images` | makes images with a chain of tables |
//! | `migrating` | gives an image a chain of tables |
//! | `runs` | runs a script on an image |
//! | `opening` | opens a store that lives between calls, closes it, and writes its image |
//! | `memory_calls` | calls on the chunks of an open store |
//! | `database_calls` | calls on its databases |
//! | `record_calls`, `resource_calls` | calls on their entries |
//! | `file_calls` | reads bytes of a chunk, imports and exports files |
//! | `loans` | takes the bytes of a chunk out of an open store, and puts them back |
//! | `pointers` | gives pointers to the bytes of chunks, and unlocks them |
//! | `refusals`, `kinds` | name refusals and kinds of faults |
//! | `explaining` | explains them |
//! | `version` | tells the version |
#![tactic(auto)]

mod answers;
mod blocks;
mod buffers;
mod calls;
mod chained_images;
mod counts;
mod damages;
mod database_calls;
mod database_lists;
mod documents;
mod explaining;
mod file_calls;
mod file_entries;
mod files;
mod images;
mod infos;
mod inputs;
mod kept;
mod kinds;
mod loan_names;
mod loans;
mod memory_calls;
mod migrating;
mod needs;
mod opening;
mod parts;
mod pictures;
mod pointers;
mod record_calls;
mod refusals;
mod resource_calls;
mod results;
mod runs;
mod salvaging;
mod version;
mod writing;

pub use answers::Answer;
pub use blocks::Block;
pub use chained_images::palmheap_new_chained;
pub use counts::Counts;
pub use damages::Damage;
pub use damages::palmheap_pdb_damage;
pub use database_calls::palmheap_DmCreateDatabase;
pub use database_calls::palmheap_DmDatabaseInfo;
pub use database_calls::palmheap_DmDeleteDatabase;
pub use database_calls::palmheap_DmFindDatabase;
pub use database_calls::palmheap_DmGetDatabase;
pub use database_calls::palmheap_DmNumDatabases;
pub use database_calls::palmheap_DmSetDatabaseInfo;
pub use database_calls::palmheap_info_block;
pub use database_calls::palmheap_set_info_block;
pub use database_calls::palmheap_take_info_block;
pub use database_lists::palmheap_databases;
pub use database_lists::palmheap_databases_json;
pub use documents::palmheap_pdb_json;
pub use explaining::palmheap_explain;
pub use file_calls::palmheap_export;
pub use file_calls::palmheap_import;
pub use file_calls::palmheap_read;
pub use file_entries::FileEntry;
pub use file_entries::palmheap_pdb_read;
pub use files::palmheap_canonical;
pub use files::palmheap_pdb_blocks;
pub use files::palmheap_pdb_check;
pub use files::palmheap_pdb_list;
pub use images::palmheap_check;
pub use images::palmheap_new;
pub use infos::DatabaseInfo;
pub use infos::RecordInfo;
pub use infos::ResourceInfo;
pub use kept::Kept;
pub use kept::Slot;
pub use kinds::palmheap_kind_name;
pub use loan_names::palmheap_loans;
pub use loans::palmheap_lent;
pub use loans::palmheap_loan_above;
pub use loans::palmheap_put_back;
pub use loans::palmheap_take_out;
pub use loans::palmheap_take_out_also;
pub use memory_calls::palmheap_DmSet;
pub use memory_calls::palmheap_DmStrCopy;
pub use memory_calls::palmheap_DmWrite;
pub use memory_calls::palmheap_MemChunkFree;
pub use memory_calls::palmheap_MemHandleLock;
pub use memory_calls::palmheap_MemHandleLockCount;
pub use memory_calls::palmheap_MemHandleNew;
pub use memory_calls::palmheap_MemHandleOwner;
pub use memory_calls::palmheap_MemHandleResize;
pub use memory_calls::palmheap_MemHandleSetOwner;
pub use memory_calls::palmheap_MemHandleSize;
pub use memory_calls::palmheap_MemHandleUnlock;
pub use memory_calls::palmheap_MemHeapCompact;
pub use memory_calls::palmheap_MemHeapFreeByOwnerID;
pub use memory_calls::palmheap_MemHeapFreeBytes;
pub use memory_calls::palmheap_MemPtrNew;
pub use memory_calls::palmheap_MemPtrRecoverHandle;
pub use memory_calls::palmheap_largest_stretch;
pub use memory_calls::palmheap_more_slots;
pub use migrating::palmheap_migrate;
pub use needs::Needs;
pub use needs::palmheap_pdb_needs;
pub use opening::palmheap_close;
pub use opening::palmheap_open;
pub use opening::palmheap_write_image;
pub use pictures::palmheap_map;
pub use pictures::palmheap_map_svg;
pub use pointers::NotUnlocked;
pub use pointers::Pinned;
pub use pointers::palmheap_lock_pointer;
pub use pointers::palmheap_start;
pub use pointers::palmheap_unlock_handle;
pub use record_calls::palmheap_DmArchiveRecord;
pub use record_calls::palmheap_DmAttachRecord;
pub use record_calls::palmheap_DmDeleteCategory;
pub use record_calls::palmheap_DmDeleteRecord;
pub use record_calls::palmheap_DmDetachRecord;
pub use record_calls::palmheap_DmFindRecordByID;
pub use record_calls::palmheap_DmGetRecord;
pub use record_calls::palmheap_DmMoveCategory;
pub use record_calls::palmheap_DmMoveRecord;
pub use record_calls::palmheap_DmNewRecord;
pub use record_calls::palmheap_DmNumRecords;
pub use record_calls::palmheap_DmNumRecordsInCategory;
pub use record_calls::palmheap_DmPositionInCategory;
pub use record_calls::palmheap_DmQueryNextInCategory;
pub use record_calls::palmheap_DmQueryRecord;
pub use record_calls::palmheap_DmRecordInfo;
pub use record_calls::palmheap_DmReleaseRecord;
pub use record_calls::palmheap_DmRemoveRecord;
pub use record_calls::palmheap_DmResizeRecord;
pub use record_calls::palmheap_DmSetRecordInfo;
pub use record_calls::palmheap_attach_replacing;
pub use refusals::palmheap_refusal_name;
pub use resource_calls::palmheap_DmAttachResource;
pub use resource_calls::palmheap_DmDetachResource;
pub use resource_calls::palmheap_DmFindResource;
pub use resource_calls::palmheap_DmFindResourceType;
pub use resource_calls::palmheap_DmNewResource;
pub use resource_calls::palmheap_DmNumResources;
pub use resource_calls::palmheap_DmRemoveResource;
pub use resource_calls::palmheap_DmResizeResource;
pub use resource_calls::palmheap_DmResourceInfo;
pub use resource_calls::palmheap_DmSetResourceInfo;
pub use results::Sizes;
pub use runs::palmheap_run;
pub use salvaging::palmheap_salvage;
pub use salvaging::palmheap_salvage_lines;
pub use version::palmheap_version;
pub use writing::palmheap_pdb_write;
