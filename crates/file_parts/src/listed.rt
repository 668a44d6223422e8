//! The text of a database, once it is read.

ghost use Rattle.std.specs.Prelude.{◌≡◌, ◌≢◌, ◌<◌, ◌+◌, Ok, Err, None, length, map, slice_index_or, IfOk, IfErr};
ghost use Rattle.db_format.specs.Headers as headers;
ghost use Rattle.heap_model.specs.Database.{HeaderFits, IsDatabaseName, data_in, entry_data};
ghost use Rattle.file_parts.specs.Listed.{IsListed, database_listed, entries_listed};
ghost use Rattle.file_parts.specs.Reading.{header_with, read_database, read_database_from};

use crate::entries::{ListedEntry, read_entries};
use crate::header::{Counts, Infos, Kinds, Title, read_head};
use crate::lines::Lines;
use crate::part_file::PartFile;
use allowance::Allowance;
use db_format::{DbAttrs, DbHeader, INFO_BLOCKS};
use script_lines::{LineFault, ScriptFault};

/// A database as it is in its text: with names of parts instead of data.
#[derive(Drop)]
pub struct Listed<'a> {
    pub(crate) header: DbHeader,
    pub(crate) infos: Infos<'a>,
    pub(crate) entries: Vec<ListedEntry<'a>>,
}

/// Returns the header with these values, and with no blocks and no entries yet.
fn header_of(title: Title, counts: Counts, kinds: Kinds) -> DbHeader
    ensures is { headers.header_values result ≡ header_with title counts kinds }
    ensures fits { HeaderFits (headers.header_values result) }
    ensures name { IsDatabaseName result.name }
    ensures attributes { result.attributes ≡ title.attributes }
{
    let _ = title.name.name();
    DbHeader {
        name: title.name,
        attributes: title.attributes,
        version: title.version,
        creation_date: counts.created,
        modification_date: counts.modified,
        backup_date: counts.backup,
        modification_number: counts.number,
        app_info: 0,
        sort_info: 0,
        kind: kinds.kind,
        creator: kinds.creator,
        seed: kinds.seed,
        entry_count: 0,
    }
}

/// Reads the text of a database. It allocates the list of its entries.
///
/// # Errors
///
/// - `OutOfMemory`, with the line 0: if an allocation failed.
/// - any other fault, with the line counted from 1: if that line is the first faulty one (see
///   `read_database`).
#[tactic(auto, using(crate::proofs::ReadTexts::read_from))]
pub fn read_listed<'a, A: Allowance>(memory: &A, text: &'a [u8]) -> Result<Listed<'a>, LineFault>
    ensures ok { IfOk result (λ listed. read_database text.now ≡ Ok (database_listed listed)) }
    ensures good { IfOk result IsListed }
    ensures err { IfErr result (λ fault. fault.fault ≢ ScriptFault.OutOfMemory
        → read_database text.now ≡ Err fault) }
    ensures no_memory { IfErr result (λ fault. fault.fault ≡ ScriptFault.OutOfMemory
        → A.is_short memory.now) }
{
    let mut lines = Lines::of(text);
    read_database(memory, &mut lines)
}

/// Reads the lines of a text that are left: those of the header, and those of the entries.
#[tactic(auto, using(crate::proofs::ReadTexts::head_faulty))]
pub(crate) fn read_database<'a, A: Allowance>(
    memory: &A,
    lines: &mut Lines<'a>,
) -> Result<Listed<'a>, LineFault>
    ensures ok { IfOk result (λ listed. read_database_from lines.old ≡ Ok (database_listed listed)) }
    ensures good { IfOk result IsListed }
    ensures err { IfErr result (λ fault. fault.fault ≢ ScriptFault.OutOfMemory
        → read_database_from lines.old ≡ Err fault) }
    ensures no_memory { IfErr result (λ fault. fault.fault ≡ ScriptFault.OutOfMemory
        → A.is_short memory.now) }
{
    let head = match read_head(lines) {
        Ok(head) => head,
        Err(fault) => return Err(fault),
    };
    let resources = DbAttrs(head.title.attributes).has_resources();
    match read_entries(memory, resources, lines) {
        Ok(entries) => Ok(Listed {
            header: header_of(head.title, head.counts, head.kinds),
            infos: head.infos,
            entries,
        }),
        Err(fault) => Err(fault),
    }
}

impl<'a> Listed<'a> {
    /// Returns the number of ranks: two for the info blocks, and one for each entry.
    pub fn rank_count(&self) -> usize
        requires { IsListed self.now }
        ensures { result ≡ length (data_in (database_listed self.now)) }
    {
        INFO_BLOCKS + self.entries.as_slice().len()
    }

    /// Returns the part of a rank, or `None` if there is no block. The rank is 0 for the AppInfo
    /// block, 1 for the SortInfo block, and 2 more than its index for the data of an entry.
    pub fn part(&self, rank: usize) -> &Option<PartFile<'a>>
        requires { rank < length (data_in (database_listed self.now)) }
        ensures { result.now ≡ slice_index_or (data_in (database_listed self.now)) rank None }
    {
        match rank {
            0 => &self.infos.app,
            1 => &self.infos.sort,
            _ => part_of(self.entries.as_slice(), rank - INFO_BLOCKS),
        }
    }
}

/// Returns the part of an entry.
fn part_of<'a, 'b>(entries: &'b [ListedEntry<'a>], index: usize) -> &'b Option<PartFile<'a>>
    requires { index < length entries.now }
    ensures { result.now ≡ slice_index_or (map entry_data (entries_listed entries.now)) index None }
{
    &entries[index].part
}
