//! The program `palmheap`, as a function over a runtime and the words of the command line, and its
//! command `run`.
//!
//! `cmd_run` works over bytes and counted writers. Its contract defines when it returns each
//! status, what was written by then, and where a write failed. `run_region_from` is its form over a
//! region and any `Allowance`. It reports out of memory only if an allocation failed.
//! `image_program` has the commands of the smaller program, `map_commands` and `store_commands`
//! have the others.
//!
//! The other functions call the system, like the functions of `image_commands` over paths. Start
//! with `run`.
//!
//! | module | does |
//! |---|---|
//! | `run_command` | the command `run`, over bytes: a script, run on an image |
//! | `live_command` | the same for a script that is run while it is read |
//! | `scripts` | the command `run`, over files |
//! | `ending` | how a run of the program ends |
//! | `stores` | the commands `databases`, `export`, `import` and `migrate`, over files and folders |
//! | `requests` | fulfils the request of the words of the command line |
#![tactic(auto)]

mod ending;
mod live_command;
mod requests;
mod run_command;
mod scripts;
mod stores;

pub use ending::Ending;
pub use live_command::{LiveEnd, run_live_region_from};
pub use requests::run;
pub use run_command::{cmd_run, run_region_from};
