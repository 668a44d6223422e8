//! The text of an exact folder, once it is read.

ghost use Rattle.std.specs.Prelude.{◌≡◌, ◌≢◌, ◌<◌, ◌+◌, ◌++◌, Ok, Err, None, Some, [], IfOk, IfErr, OnOk, OnErr, length, map};
ghost use Rattle.heap_model.specs.Database.{data_in};
ghost use Rattle.file_parts.specs.Listed.{IsListed, database_listed};
ghost use Rattle.file_parts.specs.ExactReading as reading;
ghost use Rattle.file_parts.specs.Reading.{read_database_from};
ghost use Rattle.file_parts.specs.ExactReading.{after_name_fault, exact_with, head_of, order_fault, read_exact_from};
ghost use Rattle.file_parts.specs.ExactTexts.{order_of};
ghost use Rattle.file_parts.specs.ExactListed as exacts;
ghost use Rattle.file_parts.specs.ExactListed.{IsListedExact, AreMarked, exact_listed, free_ranks, part_listed};

use crate::exact_lines::{AfterName, ExactLines, OrderLine, read_exact_lines};
use crate::lines::Lines;
use crate::listed::{Listed, read_database};
use crate::part_file::PartFile;
use allowance::{Allowance, push, zeros};
use db_format::{NAME_SIZE, NameField};
use script_lines::{LentBytes, LineFault, NO_MEMORY_FAULT, ScriptFault};
use std::alloc::AllocError;

/// A file as it is in the text of an exact folder: with names of parts instead of blocks.
#[derive(Drop)]
pub struct ListedExact<'a> {
    pub(crate) lines: ExactLines<'a>,
    pub(crate) listed: Listed<'a>,
    /// The ranks of the blocks in their order.
    pub(crate) ranks: Vec<u32>,
}

/// Reads the text of an exact folder after its first line.
///
/// # Errors
///
/// - `OutOfMemory`, with the line 0: if an allocation failed.
/// - any other fault, with the line counted from 1: if that line is faulty. A line whose fault
///   depends on later lines comes after all lines that are faulty alone.
pub(crate) fn read_listed_exact<'a, A: Allowance>(
    memory: &A,
    lines: &mut Lines<'a>,
) -> Result<ListedExact<'a>, LineFault>
    ensures ok { IfOk result (λ exact. read_exact_from lines.old ≡ Ok (exact_listed exact)) }
    ensures good { IfOk result IsListedExact }
    ensures err { IfErr result (λ fault. fault.fault ≢ ScriptFault.OutOfMemory
        → read_exact_from lines.old ≡ Err fault) }
    ensures no_memory { IfErr result (λ fault. fault.fault ≡ ScriptFault.OutOfMemory
        → A.is_short memory.now) }
{
    match read_exact_lines(memory, lines) {
        Ok(exact) => read_after_lines(memory, exact, lines),
        Err(fault) => Err(fault),
    }
}

/// Reads the lines of the database, after those that only an exact folder has.
fn read_after_lines<'a, A: Allowance>(
    memory: &A,
    exact: ExactLines<'a>,
    lines: &mut Lines<'a>,
) -> Result<ListedExact<'a>, LineFault>
    ensures ok { IfOk result (λ listed.
        exact_with (head_of exact.entry) (read_database_from lines.old) ≡ Ok (exact_listed listed)) }
    ensures good { IfOk result IsListedExact }
    ensures err { IfErr result (λ fault. fault.fault ≢ ScriptFault.OutOfMemory
        → exact_with (head_of exact.entry) (read_database_from lines.old) ≡ Err fault) }
    ensures no_memory { IfErr result (λ fault. fault.fault ≡ ScriptFault.OutOfMemory
        → A.is_short memory.now) }
{
    match read_database(memory, lines) {
        Ok(listed) => checked(memory, exact, listed),
        Err(fault) => Err(fault),
    }
}

/// Checks the lines whose faults depend on the lines of the database.
pub(crate) fn checked<'a, A: Allowance>(
    memory: &A,
    exact: ExactLines<'a>,
    listed: Listed<'a>,
) -> Result<ListedExact<'a>, LineFault>
    requires { IsListed listed }
    ensures ok { IfOk result (λ read.
        exact_with (head_of exact.entry) (Ok (database_listed listed.entry)) ≡ Ok (exact_listed read)) }
    ensures good { IfOk result IsListedExact }
    ensures err { IfErr result (λ fault. fault.fault ≢ ScriptFault.OutOfMemory
        → exact_with (head_of exact.entry) (Ok (database_listed listed.entry)) ≡ Err fault) }
    ensures no_memory { IfErr result (λ fault. fault.fault ≡ ScriptFault.OutOfMemory
        → A.is_short memory.now) }
{
    match check_after_name(&exact.after_name, &listed.header.name) {
        Ok(()) => {}
        Err(fault) => return Err(fault),
    }
    match ranks_of(memory, &listed, exact.order.as_slice()) {
        Ok(ranks) => Ok(ListedExact {
            lines: exact,
            listed,
            ranks,
        }),
        Err(fault) => Err(fault),
    }
}

/// Returns whether these bytes fill the field of a name after it, and begin with a zero if the name
/// would be longer otherwise.
fn is_after_name(name: &NameField, bytes: &[u8]) -> bool
    ensures { result ≡ reading.is_after_name name.now bytes.now }
{
    let size = name.name().len();
    bytes.len() + size == NAME_SIZE && (bytes.len() == 1 || bytes[0] == 0)
}

/// Returns whether these bytes can come after a name in its field.
#[tactic(auto, using(crate::proofs::ExactListings::too_long))]
fn fit_after_name(name: &NameField, bytes: &LentBytes<'_>) -> bool
    ensures { result ≡ reading.is_after_name name.now bytes.now }
{
    if bytes.len() > NAME_SIZE {
        return false;
    }
    let mut buffer = [0; NAME_SIZE];
    is_after_name(name, bytes.decoded(&mut buffer))
}

/// Checks the bytes after a name.
fn check_after_name(after: &Option<AfterName<'_>>, name: &NameField) -> Result<(), LineFault>
    ensures ok { OnOk result (after_name_fault name.now after.now ≡ None) }
    ensures err { IfErr result (λ fault. (after_name_fault name.now after.now ≡ Some fault)
        × (fault.fault ≢ ScriptFault.OutOfMemory)) }
{
    let Some(after) = after else {
        return Ok(());
    };
    if fit_after_name(name, &after.bytes) {
        return Ok(());
    }
    Err(LineFault {
        line: after.line,
        fault: ScriptFault::BadWord(2),
    })
}

/// Returns the ranks of the blocks that are there, in their order: first those of the lines
/// `order`, and then the others in list order.
fn ranks_of<A: Allowance>(
    memory: &A,
    listed: &Listed<'_>,
    order: &[OrderLine],
) -> Result<Vec<u32>, LineFault>
    requires { IsListed listed.now }
    ensures ok { OnOk result (order_fault (data_in (database_listed listed.now)) [] order.now ≡ None) }
    ensures ranks { IfOk result (λ ranks.
        ranks.items ≡ order_of (data_in (database_listed listed.now)) (map (λ line. line.rank) order.now)) }
    ensures err { IfErr result (λ fault. fault.fault ≢ ScriptFault.OutOfMemory
        → order_fault (data_in (database_listed listed.now)) [] order.now ≡ Some fault) }
    ensures no_memory { IfErr result (λ fault. fault.fault ≡ ScriptFault.OutOfMemory
        → A.is_short memory.now) }
{
    let mut ranks = Vec::new(memory.allocator());
    let mut marks = match zeros(memory, listed.rank_count()) {
        Ok(marks) => marks,
        Err(_) => return Err(NO_MEMORY_FAULT),
    };
    match add_named(memory, listed, order, &mut marks, &mut ranks) {
        Ok(()) => {}
        Err(fault) => return Err(fault),
    }
    match add_others(memory, listed, marks.as_slice(), &mut ranks) {
        Ok(()) => Ok(ranks),
        Err(_) => Err(NO_MEMORY_FAULT),
    }
}

/// Returns whether a block is there that has no mark.
fn is_free(listed: &Listed<'_>, marks: &[u8], rank: usize) -> bool
    requires good { IsListed listed.now }
    requires count { length marks.now ≡ length (data_in (database_listed listed.now)) }
    ensures { result ≡ exacts.is_free (data_in (database_listed listed.now)) marks.now rank }
{
    rank < marks.len() && marks[rank] == 0 && listed.part(rank).is_some()
}

/// Adds the ranks of the lines `order`, and marks them.
fn add_named<A: Allowance>(
    memory: &A,
    listed: &Listed<'_>,
    order: &[OrderLine],
    marks: &mut [u8],
    ranks: &mut Vec<u32>,
) -> Result<(), LineFault>
    requires good { IsListed listed.now }
    requires marks { AreMarked (length (data_in (database_listed listed.now))) [] marks.old }
    requires none { ranks.old.items ≡ [] }
    ensures ok { OnOk result (order_fault (data_in (database_listed listed.now)) [] order.now ≡ None) }
    ensures ranks { OnOk result (ranks.new.items ≡ map (λ line. line.rank) order.now) }
    ensures marks { OnOk result
        (AreMarked (length (data_in (database_listed listed.now))) ranks.new.items marks.new) }
    ensures err { IfErr result (λ fault. fault.fault ≢ ScriptFault.OutOfMemory
        → order_fault (data_in (database_listed listed.now)) [] order.now ≡ Some fault) }
    ensures no_memory { IfErr result (λ fault. fault.fault ≡ ScriptFault.OutOfMemory
        → A.is_short memory.now) }
{
    for line in order {
        if !is_free(listed, marks, line.rank as usize) {
            return Err(LineFault {
                line: line.line,
                fault: ScriptFault::BadWord(2),
            });
        }
        marks[line.rank as usize] = 1;
        match push(memory, ranks, line.rank) {
            Ok(()) => {}
            Err(_) => return Err(NO_MEMORY_FAULT),
        }
    }
    Ok(())
}

/// Adds the ranks without a mark of the blocks that are there.
fn add_others<A: Allowance>(
    memory: &A,
    listed: &Listed<'_>,
    marks: &[u8],
    ranks: &mut Vec<u32>,
) -> Result<(), AllocError>
    requires good { IsListed listed.now }
    requires count { length marks.now ≡ length (data_in (database_listed listed.now)) }
    ensures ranks { OnOk result (ranks.new.items ≡ ranks.old.items
        ++ free_ranks (data_in (database_listed listed.now)) marks.now (length marks.now)) }
    ensures short { OnErr result (A.is_short memory.now) }
{
    for rank in 0..marks.len() {
        if is_free(listed, marks, rank) {
            push(memory, ranks, rank as u32)?;
        }
    }
    Ok(())
}

impl<'a> ListedExact<'a> {
    /// Returns the number of parts that may be there: one for each rank, and that of the filler.
    pub fn part_count(&self) -> usize
        requires { IsListedExact self.now }
        ensures { result ≡ length (data_in (database_listed self.now.listed)) + 1 }
    {
        self.listed.rank_count() + 1
    }

    /// Returns the part of a rank, or the part of the filler for the number after the last rank.
    pub fn part(&self, rank: usize) -> &Option<PartFile<'a>>
        requires good { IsListedExact self.now }
        requires inside { rank < length (data_in (database_listed self.now.listed)) + 1 }
        ensures { result.now ≡ part_listed self.now rank }
    {
        if rank < self.listed.rank_count() {
            self.listed.part(rank)
        } else {
            &self.lines.filler
        }
    }
}
