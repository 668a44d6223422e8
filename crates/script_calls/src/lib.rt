//! The arguments and the replies of a script's calls, and the calls on chunks and on databases.
//!
//! The arguments of a call are names, numbers and bytes, or labels and bytes of a script's text
//! (`Given`, `GivenBytes`). `do_memory_call` and `do_database_call` do the calls on chunks and on
//! databases. The calls on records, resources and files are in palm_script, which uses this crate.
//! `put_reply` prints a reply line. `specs/Lines.antt` defines the calls of lines, and what lines
//! bind, print and export.
//!
//! `Replies` and `LiveReplies` are writers for the reply lines of a script. They write the number
//! of its line before each reply, and record whether a reply was a refusal. `specs/Replies.antt`
//! defines what is written before a reply.
//!
//! | module | does |
//! |---|---|
//! | `bindings` | looks up what labels and lent bytes stand for |
//! | `calls` | one call on chunks or on databases |
//! | `replies` | makes replies of the results of the managers, and prints reply lines |
//! | `numbered_replies` | a writer of replies with the numbers of their lines |
//! | `live_replies` | the same, if the numbers come one at a time |
#![tactic(auto)]

mod bindings;
mod calls;
mod live_replies;
mod numbered_replies;
mod replies;

pub use bindings::{Given, GivenBytes, bind_line};
pub use calls::{Outcome, do_database_call, do_memory_call};
pub use live_replies::LiveReplies;
pub use numbered_replies::Replies;
pub use replies::{
    Told, data, database, done, info, locked, made, named, number, put_data, put_length,
    put_refusal, put_reply, record, resource, small_number,
};
