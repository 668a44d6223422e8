//! The commands `list`, `canonical`, `salvage`, `get`, `put`, `unpack` and `pack` on PDB and PRC
//! files.
//!
//! Each is a function over bytes and counted writers, `cmd_list_from` for `list`. Its contract
//! defines what is written, by the status that the command returns. `list` writes rows in a
//! notation of `file_listing` or `json_documents`. The commands need no heap and no image.
//! `say_line_fault` prints the line for a refused script, or for a refused text of a folder.
//!
//! `list`, `list --json` and `canonical --check` take several files. `cmd_report_from` is the step
//! for one of them, and `cmd_reports_from` does it for each file that a source gives
//! (`specs/Reports.antt`).
//!
//! `report_files`, `canonical`, `salvage`, `get`, `put`, `unpack` and `pack` are
//! the commands over files and folders. They call the system, and their clauses state only the statuses
//! with which a command ends. The stored runs of `test_program` show which files are read and
//! written.
//!
//! | module | does |
//! |---|---|
//! | `list_command`, `changes_command` | the commands `list` and `canonical --check`, over bytes |
//! | `reports` | these commands for one file, and for several files of a source |
//! | `inputs` | a source of files |
//! | `starts` | a file of which only the first bytes are in memory |
//! | `canonical_command`, `salvage_command` | the commands `canonical` and `salvage`, over bytes |
//! | `keep_command` | the commands `canonical --keep` and `canonical --check --keep`, over bytes |
//! | `get_command`, `put_command` | the commands `get` and `put`, over bytes |
//! | `block_words`, `wanted` | the words that ask for a block; the block that is asked for |
//! | `parts` | the commands `unpack` and `pack`, over bytes |
//! | `faults`, `line_faults` | writes lines for a faulty or rewritten file, for a faulty line |
//! | `file_listings` | the commands `list`, `list --json` and `canonical --check`, over files |
//! | `file_rewrites` | the commands `canonical` and `salvage`, over files |
//! | `file_blocks` | the commands `get` and `put`, over files |
//! | `folders` | the commands `unpack` and `pack`, over files and folders |
//! | `comments` | reports what a file looks like, what is allowed at its fault, what a rewrite drops |
#![tactic(auto)]

mod block_words;
mod canonical_command;
mod changes_command;
mod comments;
mod faults;
mod file_blocks;
mod file_listings;
mod file_rewrites;
mod folders;
mod get_command;
mod inputs;
mod keep_command;
mod line_faults;
mod list_command;
mod parts;
mod put_command;
mod reports;
mod salvage_command;
mod starts;
mod wanted;

pub use block_words::{WantedBlock, wanted_block};
pub use canonical_command::cmd_canonical_from;
pub use changes_command::cmd_changes_from;
pub use comments::{comment_on_damage, name_each_dropped};
pub use file_blocks::{get, put};
pub use file_listings::report_files;
pub use file_rewrites::{canonical, canonical_kept, salvage};
pub use folders::{pack, path_in, unpack};
pub use get_command::cmd_get_from;
pub use inputs::Inputs;
pub use keep_command::{cmd_keep_from, cmd_left_from};
pub use line_faults::say_line_fault;
pub use list_command::cmd_list_from;
pub use parts::{cmd_pack_from, list_parts, say_count, unpack_file};
pub use put_command::{NewBlock, cmd_put_from};
pub use reports::{Asked, Report, cmd_report_from, cmd_reports_from};
pub use salvage_command::cmd_salvage_from;
pub use starts::{FileRead, READ_FIRST, ReadStart, ReadsAt, read_start};
pub use wanted::find_block;
