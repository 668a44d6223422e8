//! Imports databases from PDB and PRC files into a store, and exports them to files (Palm OS File
//! Format Specification). An import adds the whole database, or none of it.
//!
//! `pdb_format` describes the files. `specs/Plans.antt` defines the plan for a database that is
//! imported, and `specs/FileParts.antt` the parts of a file that is written.
#![tactic(auto)]

mod exporting;
mod importing;

pub use exporting::{ExportFault, export, exported};
pub use importing::{import, import_from, import_opened};
