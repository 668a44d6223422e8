//! Runs the lines of a script, one after another.

ghost use Rattle.std.specs.Prelude.{◌≡◌, ◌≤◌, ◌+◌, ◌++◌, Err, IfOk, OnErr, length, replicate};
ghost use Rattle.std.specs.Prelude.{vec_capacity, vec_len};
ghost use Rattle.std.specs.Option.{option_to_list};
ghost use Rattle.script_calls.specs.Lines.{BreaksOff, BreaksOffShort, RunsThrough, RunsThroughShort};
ghost use Rattle.script_calls.specs.Lines.{number_of_nothing, name_of_nothing, setting};
ghost use Rattle.palm_text.specs.Output.{output};
ghost use Rattle.allowance.specs.Refusals.{GrowthRefused};
ghost use Rattle.palm_script.specs.Loans.{LoanStays};

use crate::lines::do_line;
use allowance::{Allowance, filled, room_for, zeros};
use heap_model::{Bytes, Db, Name};
use palm_store::Store;
use palm_text::Counted;
use script_lines::Script;
use std::alloc::{AllocError, Global};
use std::io::Write;
use thiserror::Error;

/// Why a run ended early.
#[derive(Clone, Copy, Debug, PartialEq, Eq, Error)]
pub enum RunFault {
    /// An allocation failed, and no line was run.
    #[error("OutOfMemory")]
    OutOfMemory,
    /// A write failed, and no line after that one was run.
    #[error("Write")]
    Write,
}

/// Runs the lines of a script, and prints the reply line of each. A line that is refused doesn't
/// end the run.
///
/// `inputs` are the files that lines import. The result has the files that they export, in order.
/// Once the first line is run, only imports and exports take memory. If that allocation fails, the
/// line is refused.
///
/// # Errors
/// - `OutOfMemory`: if an allocation failed before the first line. Then no line was run.
/// - `Write`: if a write failed or took 0 bytes. Then no line after that one was run.
pub fn run<W: Write>(
    alloc: Global,
    store: &mut Store,
    script: &Script<'_>,
    inputs: &[Bytes],
    out: &mut Counted<W>,
) -> Result<Vec<Bytes>, RunFault>
    ensures ok { IfOk result (λ files. RunsThrough inputs.now script.now
        store.old store.new (output W.contents out.old out.new) files.items) }
    ensures write { result ≡ Err RunFault.Write → BreaksOff inputs.now script.now
        store.old store.new (output W.contents out.old out.new) }
    ensures memory { result ≡ Err RunFault.OutOfMemory
        → (store.new ≡ store.old) × (out.new ≡ out.old) }
    ensures no_memory { result ≡ Err RunFault.OutOfMemory → GrowthRefused }
    ensures stays { LoanStays store.old store.new }
    ensures ok_short { IfOk result (λ files. RunsThroughShort
        (setting GrowthRefused inputs.now) script.now
        store.old store.new (output W.contents out.old out.new) files.items) }
    ensures write_short { result ≡ Err RunFault.Write → BreaksOffShort
        (setting GrowthRefused inputs.now) script.now
        store.old store.new (output W.contents out.old out.new) }
{
    run_from(&alloc, store, script, inputs, out)
}

/// The same as `run`, with a grant of `memory` for each allocation. The run and each line report
/// `OutOfMemory` only if an allocation failed.
pub fn run_from<A: Allowance, W: Write>(
    memory: &A,
    store: &mut Store,
    script: &Script<'_>,
    inputs: &[Bytes],
    out: &mut Counted<W>,
) -> Result<Vec<Bytes>, RunFault>
    ensures ok { IfOk result (λ files. RunsThrough inputs.now script.now
        store.old store.new (output W.contents out.old out.new) files.items) }
    ensures write { result ≡ Err RunFault.Write → BreaksOff inputs.now script.now
        store.old store.new (output W.contents out.old out.new) }
    ensures memory { result ≡ Err RunFault.OutOfMemory
        → (store.new ≡ store.old) × (out.new ≡ out.old) }
    ensures no_memory { result ≡ Err RunFault.OutOfMemory → A.is_short memory.now }
    ensures stays { LoanStays store.old store.new }
    ensures ok_short { IfOk result (λ files. RunsThroughShort
        (setting (A.is_short memory.now) inputs.now) script.now
        store.old store.new (output W.contents out.old out.new) files.items) }
    ensures write_short { result ≡ Err RunFault.Write → BreaksOffShort
        (setting (A.is_short memory.now) inputs.now) script.now
        store.old store.new (output W.contents out.old out.new) }
{
    let Ok(mut names) = unbound_names(memory, script.chunk_label_count()) else {
        return Err(RunFault::OutOfMemory);
    };
    let Ok(mut databases) = unbound_databases(memory, script.database_label_count()) else {
        return Err(RunFault::OutOfMemory);
    };
    let Ok(mut buffer) = zeros(memory, script.most_bytes()) else {
        return Err(RunFault::OutOfMemory);
    };
    let Ok(mut files) = room_for(memory, script.export_count()) else {
        return Err(RunFault::OutOfMemory);
    };
    let names = names.as_mut_slice();
    let databases = databases.as_mut_slice();
    let buffer = buffer.as_mut_slice();
    for line in script.lines() {
        match do_line(memory, store, names, databases, buffer, inputs, line, out) {
            Ok(file) => add_file(&mut files, file),
            Err(_) => return Err(RunFault::Write),
        }
    }
    Ok(files)
}

/// Returns a table of `count` labels of chunks, none of them bound.
fn unbound_names<A: Allowance>(memory: &A, count: usize) -> Result<Vec<Name>, AllocError>
    ensures names { IfOk result (λ names. names.items ≡ replicate count name_of_nothing) }
    ensures short { OnErr result (A.is_short memory.now) }
{
    filled(memory, Name(0), count)
}

/// The same for labels of databases.
fn unbound_databases<A: Allowance>(memory: &A, count: usize) -> Result<Vec<Db>, AllocError>
    ensures databases { IfOk result (λ databases.
        databases.items ≡ replicate count number_of_nothing) }
    ensures short { OnErr result (A.is_short memory.now) }
{
    filled(memory, Db(0), count)
}

/// Appends a file, if there is one.
fn add_file(files: &mut Vec<Bytes>, file: Option<Bytes>)
    requires { vec_len files.old + length (option_to_list file) ≤ vec_capacity files.old }
    ensures items { files.new.items ≡ files.old.items ++ option_to_list file }
    ensures len { vec_len files.new ≡ vec_len files.old + length (option_to_list file) }
    ensures capacity { vec_capacity files.new ≡ vec_capacity files.old }
{
    if let Some(file) = file {
        files.push_reserved(file);
    }
}
