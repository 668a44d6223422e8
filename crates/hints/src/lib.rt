//! Hints for standard error. They name the lines of a script that import a file that was not given,
//! and say what is wrong with a faulty line. They name files that look like PDB or PRC files, like
//! heap images, or like what a transfer makes of a file.
//!
//! | module | does |
//! |---|---|
//! | `numbers` | finds the numbers of the lines of a script that are run |
//! | `faulty_lines` | finds what is wrong with a faulty line, of a script or of a text for `pack` |
//! | `imports` | finds the lines that import a file that was not given |
//! | `lookalikes` | finds what a file looks like |
//! | `line_ends` | undoes what a transfer as text does to a file |
#![tactic(auto)]

mod faulty_lines;
mod imports;
mod line_ends;
mod lookalikes;
mod numbers;

pub use faulty_lines::{LineHint, parts_hint, script_hint};
pub use imports::{MissingFile, missing_files};
pub use line_ends::without_returns;
pub use lookalikes::{
    DATABASE_HEADER_SIZE, IMAGE_HEADER_SIZE, MAC_HEADER_SIZE, looks_like_database,
    looks_like_image, looks_like_mac, looks_like_page,
};
pub use numbers::line_numbers;
