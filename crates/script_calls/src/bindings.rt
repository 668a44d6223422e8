//! Looks up what the labels of a script, and the bytes that its text lends, stand for.

ghost use Rattle.std.specs.Prelude.{◌≡◌, ◌≤◌, ◌<◌, ℕ, List, length};
ghost use Rattle.script_lines.specs.LineCounts.{chunk_label_end, database_label_end};
ghost use Rattle.script_calls.specs.Lines.{bind, bound_after, number_of_nothing, name_of_nothing, table, tables};
ghost use Rattle.script_calls.specs.Lines as answers;

use heap_model::{Bytes, Db, Name, Reply};
use script_lines::{ChunkLabel, DatabaseLabel, LentBytes, Line};

/// An argument of a call for a chunk or a database: its name or number, or a label that stands for
/// it.
pub trait Given<Named>: Copy {
    ghost meant: { Self → List Named → Named };

    /// Returns what the argument stands for, if the labels stand for the items of `bound`.
    fn among(self, bound: &[Named]) -> Named
        ensures { result ≡ meant self bound.now };
}

impl Given<Name> for Name {
    ghost meant = { λ name names. name };

    fn among(self, _names: &[Name]) -> Name {
        self
    }
}

impl Given<Db> for Db {
    ghost meant = { λ db databases. db };

    fn among(self, _databases: &[Db]) -> Db {
        self
    }
}

/// A label that was never bound stands for the name of nothing.
impl Given<Name> for ChunkLabel {
    ghost meant = { λ label names. table name_of_nothing names label.0 };

    fn among(self, names: &[Name]) -> Name {
        item_or(names, self.0, Name(0))
    }
}

/// A label that was never bound stands for no database.
impl Given<Db> for DatabaseLabel {
    ghost meant = { λ label databases. table number_of_nothing databases label.0 };

    fn among(self, databases: &[Db]) -> Db {
        item_or(databases, self.0, Db(0))
    }
}

/// Returns the item at a place of a table, or `absent` if the table ends before it.
fn item_or<Named: Copy>(bound: &[Named], place: usize, absent: Named) -> Named
    ensures { result ≡ table absent bound.now place }
{
    match bound.get(place) {
        Some(named) => *named,
        None => absent,
    }
}

/// An argument of a call for bytes: the bytes themselves, or those that the text of a script lends,
/// which are decoded first.
pub trait GivenBytes {
    ghost spelled: { Self → List ℕ };

    /// The number of bytes that the buffer must have at least.
    ghost room: { Self → ℕ };

    /// Returns the bytes, decoded into the buffer if they are in hex.
    fn decoded<'a>(&'a self, buffer: &'a mut [u8]) -> &'a [u8]
        requires { room self.now ≤ length buffer.old }
        ensures { result.now ≡ spelled self.now };
}

impl GivenBytes for Bytes {
    ghost spelled = { λ bytes. bytes };

    ghost room = { λ _. 0 };

    fn decoded<'a>(&'a self, _buffer: &'a mut [u8]) -> &'a [u8] {
        self.as_slice()
    }
}

impl<'t> GivenBytes for LentBytes<'t> {
    ghost spelled = { λ bytes. bytes };

    ghost room = { length };

    fn decoded<'a>(&'a self, buffer: &'a mut [u8]) -> &'a [u8] {
        self.decoded(buffer)
    }
}

/// Binds the label of a line to what the reply names. If the reply names nothing of the kind, as a
/// refusal, it binds nothing.
pub fn bind_line(names: &mut [Name], databases: &mut [Db], line: &Line<'_>, reply: &Reply)
    requires chunks { chunk_label_end line.now ≤ length names.old }
    requires databases { database_label_end line.now ≤ length databases.old }
    ensures { tables names.new databases.new
        ≡ bound_after (tables names.old databases.old) line.now reply.now }
{
    match (line, reply) {
        (Line::Bind { .. }, Reply::Refused(_)) => {}
        (Line::Bind { label, name }, _) => bind_chunk(names, *label, Name(*name)),
        (Line::BindChunk(label, _), _) => {
            if let Some(name) = chunk_in(reply) {
                bind_chunk(names, *label, name);
            }
        }
        (Line::BindDatabase(label, _) | Line::Import { label, .. }, _) => {
            if let Some(db) = database_of_reply(reply) {
                bind_database(databases, *label, db);
            }
        }
        (Line::Print(_) | Line::Silent(_) | Line::Export(_), _) => {}
    }
}

/// Returns the chunk that a reply names.
fn chunk_in(reply: &Reply) -> Option<Name>
    ensures { result ≡ answers.chunk_in reply.now }
{
    match reply {
        Reply::Named(name) | Reply::Made { name, .. } => Some(*name),
        Reply::Resource(info) => Some(info.data),
        Reply::Refused(_)
        | Reply::Done
        | Reply::Number(_)
        | Reply::Locked { .. }
        | Reply::Data(_)
        | Reply::Database(_)
        | Reply::Info(_)
        | Reply::Record(_) => None,
    }
}

/// Returns the database that a reply names.
fn database_of_reply(reply: &Reply) -> Option<Db>
    ensures { result ≡ answers.database_of_reply reply.now }
{
    match reply {
        Reply::Database(db) => Some(*db),
        Reply::Refused(_)
        | Reply::Done
        | Reply::Number(_)
        | Reply::Named(_)
        | Reply::Locked { .. }
        | Reply::Data(_)
        | Reply::Info(_)
        | Reply::Made { .. }
        | Reply::Record(_)
        | Reply::Resource(_) => None,
    }
}

fn bind_chunk(names: &mut [Name], label: ChunkLabel, name: Name)
    requires { label.0 < length names.old }
    ensures { table name_of_nothing names.new ≡ bind (table name_of_nothing names.old) label.0 name }
{
    names[label.0] = name;
}

fn bind_database(databases: &mut [Db], label: DatabaseLabel, db: Db)
    requires { label.0 < length databases.old }
    ensures { table number_of_nothing databases.new ≡ bind (table number_of_nothing databases.old) label.0 db }
{
    databases[label.0] = db;
}
