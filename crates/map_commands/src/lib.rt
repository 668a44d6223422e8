//! The command `map` of the program `palmheap`: the picture of an image, as text or as SVG.
//!
//! `map_region_from` and `draw_region_from` work over images in regions and counted writers. Their
//! contracts state when each status is returned, what was written by then, and after which bytes a
//! write failed. They report out of memory only if an allocation failed. `map` and `draw` use the
//! system, like the functions of `image_commands` over paths.
//!
//! | module | does |
//! |---|---|
//! | `map_command` | the command `map`, over bytes: a picture of an image as text |
//! | `draw_command` | the same, with an output file: a picture of an image as SVG |
//! | `maps` | the command `map`, over files |
#![tactic(auto)]

mod draw_command;
mod map_command;
mod maps;

pub use draw_command::draw_region_from;
pub use map_command::map_region_from;
pub use maps::{draw, map};
