//! The notation of a file's listing as a JSON document, which has the facts that `list` prints as
//! text. `image_commands` has the documents of images. `unicode_text` describes what all documents
//! have in common.
//!
//! ```text
//! {"size":97,"name":"MemoDB","name_hex":"4d656d6f4442","attributes":0,"version":0,
//! "created":3878595035,"created_utc":"2026-11-27 03:30:35","created_since":1904,
//! "modified":0,"modified_utc":null,"modified_since":null,
//! "backup":0,"backup_utc":null,"backup_since":null,"number":0,"type":"DATA","type_hex":"44415441",
//! "creator":"memo","creator_hex":"6d656d6f","seed":0,"app":null,"sort":null,
//! "kind":"records","entries":[{"index":0,"attributes":1,"id":1,"offset":88,"length":9}],
//! "needs":{"size":168,"slots":3},"changes":[]}
//! ```
//!
//! If AppInfo has the names of categories, the members `categories` and, of a record, `category` have
//! them. The document has no line breaks inside. If the notation has the path of the file, the member
//! `path` comes first. The rows are those of `file_listing`. Start with
//! `specs/RowTexts.antt`, which defines the text of each row.
//!
//! | module | does |
//! |---|---|
//! | `values` | keys and values |
//! | `categories` | the names of categories |
//! | `entries` | the rows of entries |
//! | `needs` | the part of a heap that the database takes |
//! | `changes` | the words of the changes |
//! | `json_rows` | the notation |
#![tactic(auto)]

mod categories;
mod changes;
mod entries;
mod json_rows;
mod needs;
mod values;

pub use json_rows::JsonRows;
