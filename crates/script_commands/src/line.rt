//! A line of a script, and scripts as lists of lines.

ghost use Rattle.std.specs.Prelude.{◌≡◌, ◌≤◌, ◌++◌, ◌∷◌, ◌^◌, [], IfOk, IfSome, OnErr, OnOk, count_by, length};
ghost use Rattle.script_commands.specs.LineCounts.{EachAtMost, bytes_given, greatest_count};
ghost use Rattle.script_commands.specs.LineCounts as counts;

use crate::lent_bytes::LentBytes;
use allowance::Allowance;
use heap_model::{Call, FileCall, MemoryCall};
use std::alloc::{AllocError, Global};
use std::marker::Model;

/// A label of a chunk, by its number. The labels of chunks are numbered from 0, in the order in
/// which they first appear in the script.
#[derive(Clone, Copy, Debug, PartialEq, Eq)]
pub struct ChunkLabel(pub usize);

/// A label of a database, by its number. The labels of databases are numbered separately, in the
/// same way.
#[derive(Clone, Copy, Debug, PartialEq, Eq)]
pub struct DatabaseLabel(pub usize);

/// A call that names chunks and databases by labels, with bytes that the script's text lends.
pub type LineCall<'a> = Call<ChunkLabel, DatabaseLabel, LentBytes<'a>>;

/// A line of a script: one call, and what is done with its reply.
#[derive(Drop)]
pub enum Line<'a> {
    /// Binds the label to a name. The call asks for the size of its chunk, which isn't printed.
    Bind { label: ChunkLabel, name: u32 },
    /// The reply is printed.
    Print(LineCall<'a>),
    /// The values of the reply aren't printed.
    Silent(LineCall<'a>),
    /// The label is bound to the chunk that the reply names.
    BindChunk(ChunkLabel, LineCall<'a>),
    /// The label is bound to the database that the reply names.
    BindDatabase(DatabaseLabel, LineCall<'a>),
    /// Imports the input file with a number, counted from 1, and binds the label to its database.
    Import { label: DatabaseLabel, file: u32 },
    /// Exports the file of a database. Its length is printed.
    Export(DatabaseLabel),
}

impl<'a> Line<'a> {
    /// Returns the number of the chunk label that the line binds, plus 1. Returns 0 if it binds
    /// none.
    fn chunk_label_end(&self) -> Option<usize>
        ensures { IfSome result (λ end. end ≡ counts.chunk_label_end self.now) }
    {
        match self {
            Line::Bind { label, .. } | Line::BindChunk(label, _) => label.0.checked_add(1),
            Line::Print(_)
            | Line::Silent(_)
            | Line::BindDatabase(..)
            | Line::Import { .. }
            | Line::Export(_) => Some(0),
        }
    }

    /// The same for the label of a database.
    fn database_label_end(&self) -> Option<usize>
        ensures { IfSome result (λ end. end ≡ counts.database_label_end self.now) }
    {
        match self {
            Line::BindDatabase(label, _) | Line::Import { label, .. } => label.0.checked_add(1),
            Line::Bind { .. }
            | Line::Print(_)
            | Line::Silent(_)
            | Line::BindChunk(..)
            | Line::Export(_) => Some(0),
        }
    }

    /// Returns the number of bytes that the line's call gives.
    pub fn byte_count(&self) -> usize
        ensures { result ≡ counts.byte_count self.now }
    {
        match self {
            Line::Print(call)
            | Line::Silent(call)
            | Line::BindChunk(_, call)
            | Line::BindDatabase(_, call) => count_bytes(call),
            Line::Bind { .. } | Line::Import { .. } | Line::Export(_) => 0,
        }
    }

    /// Reports whether the line exports a file if it is accepted.
    fn is_export(&self) -> bool
        ensures { result ≡ counts.is_export self.now }
    {
        matches!(self, Line::Export(_))
    }
}

/// The lines of a script, in order, with bytes that its text lends. Contracts see them as a list.
#[derive(Drop)]
pub struct Script<'a> {
    lines: Vec<Line<'a>>,
    chunk_label_count: usize,
    database_label_count: usize,
    most_bytes: usize,
}

impl<'a> Model for Script<'a> {
    ghost use Rattle.std.specs.Prelude.{◌≡◌, List};
    ghost use Rattle.script_commands.specs.declared.line.Line.{Line};
    ghost use Rattle.script_commands.specs.LineCounts.{greatest_count};
    ghost use Rattle.script_commands.specs.LineCounts as counts;

    ghost Value = { List Line };

    ghost view = { λ script. script.lines.items };

    ghost invariant = { λ script.
        (script.chunk_label_count ≡ greatest_count counts.chunk_label_end script.lines.items)
        × (script.database_label_count ≡ greatest_count counts.database_label_end script.lines.items)
        × (script.most_bytes ≡ greatest_count counts.byte_count script.lines.items) };
}

impl<'a> Script<'a> {
    /// Returns a script of no lines.
    pub fn new(alloc: Global) -> Script<'a>
        ensures { result ≡ [] }
    {
        Script {
            lines: Vec::new(alloc),
            chunk_label_count: 0,
            database_label_count: 0,
            most_bytes: 0,
        }
    }

    /// Appends a line.
    ///
    /// # Errors
    /// - `AllocError`: if the allocation failed, or if the line binds the label `usize::MAX`. A
    ///   table of that many labels can't be allocated.
    pub fn push<A: Allowance>(&mut self, memory: &A, line: Line<'a>) -> Result<(), AllocError>
        ensures ok { OnOk result (self.new ≡ self.old ++ (line.entry ∷ [])) }
        ensures same { OnErr result (self.new ≡ self.old) }
        ensures short { OnErr result (A.is_short memory.now) }
    {
        let (chunk_end, database_end) = label_ends(memory, &line)?;
        let byte_count = line.byte_count();
        allowance::push(memory, &mut self.lines, line)?;
        self.chunk_label_count = self.chunk_label_count.max(chunk_end);
        self.database_label_count = self.database_label_count.max(database_end);
        self.most_bytes = self.most_bytes.max(byte_count);
        Ok(())
    }

    /// Returns the lines, in order.
    pub fn lines(&self) -> &[Line<'a>]
        ensures { result.now ≡ self.now }
    {
        &self.lines
    }

    /// Returns the greatest chunk label that a line binds, plus 1. Returns 0 if no line binds one.
    pub fn chunk_label_count(&self) -> usize
        ensures count { result ≡ greatest_count counts.chunk_label_end self.now }
        ensures below { EachAtMost counts.chunk_label_end result self.now }
    {
        self.chunk_label_count
    }

    /// The same for the labels of databases.
    pub fn database_label_count(&self) -> usize
        ensures count { result ≡ greatest_count counts.database_label_end self.now }
        ensures below { EachAtMost counts.database_label_end result self.now }
    {
        self.database_label_count
    }

    /// Returns the greatest number of bytes that a line's call gives.
    pub fn most_bytes(&self) -> usize
        ensures most { result ≡ greatest_count counts.byte_count self.now }
        ensures each { EachAtMost counts.byte_count result self.now }
    {
        self.most_bytes
    }

    /// Returns the number of lines that export a file if they are accepted.
    pub fn export_count(&self) -> usize
        ensures { result ≡ count_by counts.is_export self.now }
    {
        count_exports(&self.lines)
    }
}

/// Returns the number of the chunk label that a line binds, plus 1, and the same for a database
/// label. Each is 0 if the line binds no label of that kind.
///
/// # Errors
/// - `AllocError`: if the line binds the label `usize::MAX`. A table of that many labels can't be
///   allocated.
pub fn label_ends<A: Allowance>(memory: &A, line: &Line<'_>) -> Result<(usize, usize), AllocError>
    ensures chunk { IfOk result (λ ends. ends.0 ≡ counts.chunk_label_end line.now) }
    ensures database { IfOk result (λ ends. ends.1 ≡ counts.database_label_end line.now) }
    ensures short { OnErr result (A.is_short memory.now) }
{
    match (line.chunk_label_end(), line.database_label_end()) {
        (Some(chunk), Some(database)) => Ok((chunk, database)),
        _ => Err(refused_growth(memory, usize::MAX)),
    }
}

/// Asks for more bytes than any memory has, and returns the error of that allocation.
fn refused_growth<A: Allowance>(memory: &A, size: usize) -> AllocError
    requires large { 2 ^ 63 ≤ size }
    ensures short { A.is_short memory.now }
{
    allowance::zeros(memory, size).unwrap_err()
}

fn count_exports(lines: &[Line<'_>]) -> usize
    ensures { result ≡ count_by counts.is_export lines.now }
{
    let mut count = 0;
    for line in lines {
        if line.is_export() {
            count += 1;
        }
    }
    count
}

/// Returns the number of bytes that a call gives.
fn count_bytes(call: &LineCall<'_>) -> usize
    ensures { result ≡ bytes_given length call.now }
{
    match call {
        Call::Memory(call) => count_written(call),
        Call::File(FileCall::Import(file)) => file.len(),
        Call::File(FileCall::Export(_)) | Call::Database(_) | Call::Record(_) | Call::Resource(_) =>
            0,
    }
}

/// Returns the number of bytes that a call of the memory manager gives.
fn count_written(call: &MemoryCall<ChunkLabel, LentBytes<'_>>) -> usize
    ensures { result ≡ counts.bytes_written length call.now }
{
    match call {
        MemoryCall::Write { bytes, .. } => bytes.len(),
        MemoryCall::StrCopy { text, .. } => text.len(),
        _ => 0,
    }
}
