//! What lasts from line to line.

ghost use Rattle.std.specs.Prelude.{◌≡◌, ◌≢◌, ◌⊎◌, ◌≤◌, ◌<◌, ◌+◌, ◌^◌, ◌++◌, [], Err, IfOk, IfErr, OnErr, OnOk};
ghost use Rattle.std.specs.Prelude.{drop, length, take};
ghost use Rattle.std.specs.Option.{option_to_list};
ghost use Rattle.program_io.specs.declared.input.InputFault.TheVariants.{TooLong};
ghost use Rattle.script_lines.specs.LineCounts.{byte_count, chunk_label_end, database_label_end};
ghost use Rattle.script_lines.specs.Numbering.{none_numbered};
ghost use Rattle.script_lines.specs.Views.{numberings};
ghost use Rattle.script_calls.specs.Lines.{labelled, setting, unbound};
ghost use Rattle.script_lines.specs.Cuts.{IsUnended};
ghost use Rattle.palm_script.specs.Loans.{LoanStays};
ghost use Rattle.live_scripts.specs.Sessions.{EndsOn, FailsLine, LineStops, ReadsLine, Replies};
ghost use Rattle.live_scripts.specs.Sessions.{RunsLine, RunsOn, StopsAt, StopsOn, bound_in, live_state};
ghost use Rattle.palm_text.specs.Output.{output};

use crate::fault::LiveFault;
use crate::live::LiveInputs;
use crate::tables::{grow, widen};
use allowance::{Allowance, push};
use heap_model::{Bytes, Db, Name};
use palm_script::{RunFault, do_line};
use palm_store::Store;
use palm_text::Counted;
use script_lines::{
    LabelTables, Line, LineFault, ScriptFault, cut_ended_line, label_ends, read_line,
};
use std::alloc::{AllocError, Global};
use std::io::Write;

/// What lasts from line to line of a script that is run while it is read.
#[derive(Drop)]
pub(crate) struct Session {
    /// The number of lines that were read.
    count: usize,
    /// The labels of these lines.
    labels: LabelTables,
    /// The chunk that each label of a chunk stands for.
    names: Vec<Name>,
    /// The database that each label of a database stands for.
    databases: Vec<Db>,
    /// Room for the bytes that a line gives.
    buffer: Vec<u8>,
    /// The files that the lines export.
    files: Vec<Bytes>,
}

impl Session {
    /// Returns the session before the first line.
    pub(crate) fn new(alloc: Global) -> Session
        ensures count { result.count ≡ 0 }
        ensures labels { numberings result.labels ≡ none_numbered }
        ensures bound { bound_in result ≡ unbound }
        ensures files { result.files.items ≡ [] }
    {
        Session {
            count: 0,
            labels: LabelTables::new(alloc),
            names: Vec::new(alloc),
            databases: Vec::new(alloc),
            buffer: Vec::new(alloc),
            files: Vec::new(alloc),
        }
    }

    /// Returns the files that the lines export.
    pub(crate) fn into_files(self) -> Vec<Bytes>
        ensures { result ≡ self.files }
    {
        self.files
    }

    /// Reads one line from its text, and runs it.
    #[tactic(auto, using(palm_script::proofs::LoanLaws::stays_itself))]
    fn run_text<A: Allowance, W: Write>(
        &mut self,
        memory: &A,
        store: &mut Store,
        text: &[u8],
        inputs: LiveInputs<'_>,
        out: &mut Counted<W>,
    ) -> Result<(), LiveFault>
        requires few { self.old.count < 2 ^ 63 }
        ensures ok { OnOk result (ReadsLine (setting (A.is_short memory.now) inputs.entry.files.now)
            text.now (live_state self.old store.old) (live_state self.new store.new)
            (output W.contents out.old out.new)) }
        ensures count { OnOk result (self.new.count ≡ self.old.count + 1) }
        ensures stays { LoanStays store.old store.new }
        ensures fault { IfErr result (λ fault. LineStops
            (setting (A.is_short memory.now) inputs.entry.files.now) fault text.now
            (live_state self.old store.old) (live_state self.new store.new)
            (output W.contents out.old out.new)) }
        ensures reads_all { result ≢ Err (LiveFault.Input TooLong) }
    {
        self.count += 1;
        let line = match read_line(memory, text, &mut self.labels) {
            Ok(Some(line)) => line,
            Ok(None) => return Ok(()),
            Err(ScriptFault::OutOfMemory) => return Err(LiveFault::Memory),
            Err(fault) => {
                return Err(LiveFault::Line(LineFault {
                    line: self.count,
                    fault,
                }));
            }
        };
        inputs.number.set(self.count);
        match self.run_line(memory, store, &line, inputs.files, out) {
            Ok(()) => Ok(()),
            Err(RunFault::OutOfMemory) => Err(LiveFault::Memory),
            Err(RunFault::Write) => Err(LiveFault::Write),
        }
    }

    /// Runs a line.
    ///
    /// # Errors
    /// - `OutOfMemory`: if an allocation failed. The line was not run, or its file was lost.
    /// - `Write`: if the reply line could not be written.
    #[tactic(auto, using(palm_script::proofs::LoanLaws::stays_itself))]
    fn run_line<A: Allowance, W: Write>(
        &mut self,
        memory: &A,
        store: &mut Store,
        line: &Line<'_>,
        inputs: &[Bytes],
        out: &mut Counted<W>,
    ) -> Result<(), RunFault>
        ensures ok { OnOk result (RunsLine (setting (A.is_short memory.now) inputs.now) line.now
            (labelled store.old (bound_in self.old)) self.old.files.items
            (live_state self.new store.new) (output W.contents out.old out.new)) }
        ensures count { self.new.count ≡ self.old.count }
        ensures labels { self.new.labels ≡ self.old.labels }
        ensures stays { LoanStays store.old store.new }
        ensures write { result ≡ Err RunFault.Write
            → FailsLine (setting (A.is_short memory.now) inputs.now) line.now
            (labelled store.old (bound_in self.old)) store.new (output W.contents out.old out.new) }
        ensures short { result ≡ Err RunFault.OutOfMemory → A.is_short memory.now }
        ensures memory { result ≡ Err RunFault.OutOfMemory
            → ((store.new ≡ store.old) × (out.new ≡ out.old))
            ⊎ Replies (setting (A.is_short memory.now) inputs.now) line.now
            (labelled store.old (bound_in self.old)) store.new (output W.contents out.old out.new) }
    {
        let Ok(()) = self.make_room(memory, line) else {
            return Err(RunFault::OutOfMemory);
        };
        let names = self.names.as_mut_slice();
        let databases = self.databases.as_mut_slice();
        let buffer = self.buffer.as_mut_slice();
        let file = match do_line(memory, store, names, databases, buffer, inputs, line, out) {
            Ok(file) => file,
            Err(_) => return Err(RunFault::Write),
        };
        match add_file(memory, &mut self.files, file) {
            Ok(()) => Ok(()),
            Err(_) => Err(RunFault::OutOfMemory),
        }
    }

    /// Makes room for what a line binds and gives.
    fn make_room<A: Allowance>(&mut self, memory: &A, line: &Line<'_>) -> Result<(), AllocError>
        ensures bound { bound_in self.new ≡ bound_in self.old }
        ensures files { self.new.files ≡ self.old.files }
        ensures count { self.new.count ≡ self.old.count }
        ensures labels { self.new.labels ≡ self.old.labels }
        ensures chunks { OnOk result (chunk_label_end line.now ≤ length self.new.names.items) }
        ensures databases { OnOk result
            (database_label_end line.now ≤ length self.new.databases.items) }
        ensures bytes { OnOk result (byte_count line.now ≤ length self.new.buffer.items) }
        ensures short { OnErr result (A.is_short memory.now) }
    {
        let (chunk_end, database_end) = label_ends(memory, line)?;
        grow(memory, &mut self.names, Name(0), chunk_end)?;
        grow(memory, &mut self.databases, Db(0), database_end)?;
        widen(memory, &mut self.buffer, line.byte_count())
    }

    /// Reads and runs the lines of a text that line feeds end. Returns the number of their bytes.
    pub(crate) fn run_ended_lines<A: Allowance, W: Write>(
        &mut self,
        memory: &A,
        store: &mut Store,
        text: &[u8],
        inputs: LiveInputs<'_>,
        out: &mut Counted<W>,
    ) -> Result<usize, LiveFault>
        requires few { self.old.count + length text.now < 2 ^ 63 }
        ensures within { IfOk result (λ n. n ≤ length text.now) }
        ensures ok { IfOk result (λ n. RunsOn
            (setting (A.is_short memory.now) inputs.entry.files.now) (take n text.now)
            (live_state self.old store.old) (live_state self.new store.new)
            (output W.contents out.old out.new)) }
        ensures last { IfOk result (λ n. IsUnended (drop n text.now)) }
        ensures count { IfOk result (λ n. self.new.count ≤ self.old.count + n) }
        ensures stays { LoanStays store.old store.new }
        ensures fault { IfErr result (λ fault. StopsOn
            (setting (A.is_short memory.now) inputs.entry.files.now) fault text.now
            (live_state self.old store.old) store.new (output W.contents out.old out.new)) }
        ensures reads_all { result ≢ Err (LiveFault.Input TooLong) }
    {
        let mut rest = text;
        while let Some(cut) = cut_ended_line(rest) {
            self.run_text(memory, store, cut.line, inputs, out)?;
            rest = cut.rest;
        }
        Ok(text.len() - rest.len())
    }

    /// Reads and runs the last line of a text, which no line feed ends, if there is one.
    pub(crate) fn run_last_line<A: Allowance, W: Write>(
        &mut self,
        memory: &A,
        store: &mut Store,
        text: &[u8],
        inputs: LiveInputs<'_>,
        out: &mut Counted<W>,
    ) -> Result<(), LiveFault>
        requires few { self.old.count < 2 ^ 63 }
        requires last { IsUnended text.now }
        ensures ok { OnOk result (EndsOn (setting (A.is_short memory.now) inputs.entry.files.now)
            text.now (live_state self.old store.old) (live_state self.new store.new)
            (output W.contents out.old out.new)) }
        ensures stays { LoanStays store.old store.new }
        ensures fault { IfErr result (λ fault. StopsAt
            (setting (A.is_short memory.now) inputs.entry.files.now) fault text.now
            (live_state self.old store.old) store.new (output W.contents out.old out.new)) }
        ensures reads_all { result ≢ Err (LiveFault.Input TooLong) }
    {
        if text.is_empty() {
            return Ok(());
        }
        self.run_text(memory, store, text, inputs, out)
    }
}

/// Appends a file, if there is one.
fn add_file<A: Allowance>(
    memory: &A,
    files: &mut Vec<Bytes>,
    file: Option<Bytes>,
) -> Result<(), AllocError>
    ensures items { OnOk result (files.new.items ≡ files.old.items ++ option_to_list file) }
    ensures short { OnErr result (A.is_short memory.now) }
{
    match file {
        Some(file) => push(memory, files, file),
        None => Ok(()),
    }
}
