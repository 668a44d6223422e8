//! A store and the plain model next to it, for tests: calls that are done on both, and must have
//! one meaning.
//!
//! A difference comes back as a failure that says which call it was. Nothing but tests uses this
//! crate.
//!
//! | module | does |
//! |---|---|
//! | `beside` | a call on both, and what must hold of it |
//! | `draw` | calls of every kind, drawn from what is there |
//! | `counts` | how often each call was accepted, and refused for which reason |
//! | `outcomes` | what lists of calls must have met |
//! | `images` | images that lists start from |
//! | `verdicts` | what the check of stores says of an image, and what the plain model says |
#![tactic(auto)]

mod beside;
mod counts;
mod draw;
mod images;
mod outcomes;
mod verdicts;

pub use beside::{Beside, body_of, image_of, store_of};
pub use counts::{Counts, Outcome};
pub use draw::memory_call;
pub use images::{MIXED, blank_image, chained_image};
pub use outcomes::OUTCOMES;
pub use palm_script::{do_call, run_calls};
pub use verdicts::{Verdict, agreed_verdict};
