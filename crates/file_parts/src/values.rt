//! Databases and exact files that are listed by values, without a text.

ghost use Rattle.std.specs.Prelude.{◌≡◌, ◌≢◌, ◌↔◌, Err, IfOk, OnErr, OnOk, IsTrue, map};
ghost use Rattle.db_format.specs.Headers.{header_values};
ghost use Rattle.pdb_format.specs.Writable.{IsWritableEntry};
ghost use Rattle.file_parts.specs.Listed.{IsListed, database_listed};
ghost use Rattle.file_parts.specs.ExactListed.{IsListedExact, exact_listed};
ghost use Rattle.file_parts.specs.ExactReading.{head_of};
ghost use Rattle.file_parts.specs.Values as values;

use crate::entries::{ListedEntry, MOST_LISTED_ENTRIES};
use crate::exact_lines::{AfterName, ExactLines, OrderLine};
use crate::exact_listed::{ListedExact, checked};
use crate::header::Infos;
use crate::listed::Listed;
use crate::part_file::PartFile;
use allowance::{Allowance, push};
use db_format::{DbAttrs, DbEntry, DbHeader, GREATEST_ID};
use script_lines::{LentBytes, LineFault, ScriptFault};
use std::alloc::AllocError;

/// The name of each part.
const PART: &[u8] = b"part";

/// The reason why values are refused.
#[derive(Clone, Copy)]
pub enum ValueFault {
    /// No file has these values.
    NoFile,
    /// An allocation failed.
    OutOfMemory,
}

/// Returns a part, if it is there.
fn part_if(is_there: bool) -> Option<PartFile<'static>>
    ensures { result ≡ values.part_if is_there }
{
    if is_there {
        Some(PartFile::of(PART))
    } else {
        None
    }
}

/// Returns a database without entries. It has these info blocks.
pub fn list_header<A: Allowance>(
    memory: &A,
    header: DbHeader,
    app: bool,
    sort: bool,
) -> Listed<'static>
    ensures good { IsListed result }
    ensures database { database_listed result
        ≡ values.without_entries (header_values header) app sort }
{
    let _ = header.name.name();
    Listed {
        header,
        infos: Infos {
            app: part_if(app),
            sort: part_if(sort),
        },
        entries: Vec::new(memory.allocator()),
    }
}

/// Returns whether a file can have an entry.
fn is_writable(resources: bool, entry: DbEntry, has_data: bool) -> bool
    ensures { IsTrue result ↔ IsWritableEntry resources (values.valued entry has_data) }
{
    match entry {
        DbEntry::Record(record) => {
            !resources && record.id <= GREATEST_ID && (has_data || record.attributes.is_deleted())
        }
        DbEntry::Resource(_) => resources && has_data,
    }
}

/// Adds an entry after the others.
///
/// # Errors
///
/// - `NoFile`: if there are 65,535 entries, or the entry is of another kind than the database's
///   attributes say, has too great an ID, or lacks data.
/// - `OutOfMemory`: if an allocation failed.
pub fn list_entry<A: Allowance>(
    memory: &A,
    listed: &mut Listed<'static>,
    entry: DbEntry,
    has_data: bool,
) -> Result<(), ValueFault>
    requires { IsListed listed.old }
    ensures good { IsListed listed.new }
    ensures added { OnOk result (database_listed listed.new
        ≡ values.with_next_entry (database_listed listed.old) entry has_data) }
    ensures bad { result ≡ Err ValueFault.NoFile
        → values.IsNoEntryAfter (database_listed listed.old) entry has_data }
    ensures short { result ≡ Err ValueFault.OutOfMemory → A.is_short memory.now }
{
    let resources = DbAttrs(listed.header.attributes).has_resources();
    if listed.entries.len() == MOST_LISTED_ENTRIES || !is_writable(resources, entry, has_data) {
        return Err(ValueFault::NoFile);
    }
    let added = ListedEntry {
        entry,
        part: part_if(has_data),
    };
    match push(memory, &mut listed.entries, added) {
        Ok(()) => Ok(()),
        Err(_) => Err(ValueFault::OutOfMemory),
    }
}

/// Returns the lines `order` of some ranks, numbered from 0.
#[tactic(auto, using(crate::proofs::ValueLaws::one_ranked))]
fn order_lines<A: Allowance>(memory: &A, ranks: &[u32]) -> Result<Vec<OrderLine>, AllocError>
    ensures ranks { IfOk result (λ lines. map (λ line. line.rank) lines.items ≡ ranks.now) }
    ensures short { OnErr result (A.is_short memory.now) }
{
    let mut lines = Vec::new(memory.allocator());
    for index in 0..ranks.len() {
        let line = OrderLine {
            rank: ranks[index],
            line: index,
        };
        push(memory, &mut lines, line)?;
    }
    Ok(lines)
}

/// Returns the exact file of a database, with the bytes after its name and a filler. Its blocks are
/// in the order of these ranks, and then the others in list order.
///
/// # Errors
///
/// - `NoFile`: if these bytes can't come after the name, or a rank has no block or comes twice.
/// - `OutOfMemory`: if an allocation failed.
pub fn list_exact<'a, A: Allowance>(
    memory: &A,
    listed: Listed<'a>,
    after_name: &'a [u8],
    order: &[u32],
) -> Result<ListedExact<'a>, ValueFault>
    requires { IsListed listed }
    ensures ok { IfOk result (λ exact. exact_listed exact
        ≡ values.valued_text (database_listed listed.entry) after_name.now order.now) }
    ensures good { IfOk result IsListedExact }
    ensures none { result ≡ Err ValueFault.NoFile
        → values.IsNoExactFile (database_listed listed.entry) after_name.now order.now }
    ensures short { result ≡ Err ValueFault.OutOfMemory → A.is_short memory.now }
{
    let Ok(order) = order_lines(memory, order) else {
        return Err(ValueFault::OutOfMemory);
    };
    match checked(memory, lines_of(after_name, order), listed) {
        Ok(exact) => Ok(exact),
        Err(fault) => Err(fault_of(fault)),
    }
}

/// Returns the fault of values whose lines would have this fault.
fn fault_of(fault: LineFault) -> ValueFault
    ensures none { result ≡ ValueFault.NoFile → fault.fault ≢ ScriptFault.OutOfMemory }
    ensures short { result ≡ ValueFault.OutOfMemory → fault.fault ≡ ScriptFault.OutOfMemory }
{
    match fault.fault {
        ScriptFault::OutOfMemory => ValueFault::OutOfMemory,
        _ => ValueFault::NoFile,
    }
}

/// Returns the lines of an exact file.
fn lines_of<'a>(after_name: &'a [u8], order: Vec<OrderLine>) -> ExactLines<'a>
    ensures { head_of result ≡ values.valued_head after_name.now order.items }
{
    ExactLines {
        after_name: Some(AfterName {
            bytes: LentBytes::plain(after_name),
            line: 0,
        }),
        filler: Some(PartFile::of(PART)),
        order,
    }
}
