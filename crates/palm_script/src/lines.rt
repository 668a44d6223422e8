//! One line of a script.

ghost use Rattle.std.specs.Prelude.{◌≡◌, ◌≤◌, length};
ghost use Rattle.std.specs.Option.{option_to_list};
ghost use Rattle.script_lines.specs.LineCounts.{byte_count, chunk_label_end, database_label_end};
ghost use Rattle.heap_model.specs.declared.call.Call.TheVariants as calls;
ghost use Rattle.heap_model.specs.declared.call.MemoryCall.{MemoryCall};
ghost use Rattle.script_calls.specs.Lines.{Answers, DoesLine, OnWant, call_of, labelled, setting, tables};
ghost use Rattle.script_calls.specs.Lines as words;
ghost use Rattle.script_calls.specs.Movement.{Moves};
ghost use Rattle.palm_text.specs.Output.{output};

use crate::calls::do_given;
use crate::files::{export, import};
use allowance::Allowance;
use heap_model::{Bytes, Db, Name, Reply};
use palm_store::Store;
use palm_text::{Counted, WriteFault};
use script_calls::{Given, Outcome, bind_line, number, put_data, put_refusal, put_reply};
use script_lines::Line;
use std::io::Write;

/// Does the call of a line, binds its label, prints its reply line and returns the file that it
/// exports. Only an import or an export takes memory. It runs out of memory only if an allocation
/// failed.
pub fn do_line<A: Allowance, W: Write>(
    memory: &A,
    store: &mut Store,
    names: &mut [Name],
    databases: &mut [Db],
    buffer: &mut [u8],
    inputs: &[Bytes],
    line: &Line<'_>,
    out: &mut Counted<W>,
) -> Result<Option<Bytes>, WriteFault>
    requires chunks { chunk_label_end line.now ≤ length names.old }
    requires databases { database_label_end line.now ≤ length databases.old }
    requires bytes { byte_count line.now ≤ length buffer.old }
    ensures { DoesLine (setting (A.is_short memory.now) inputs.now) line.now
        (labelled store.old (tables names.old databases.old))
        (labelled store.new (tables names.new databases.new))
        (output W.contents out.old out.new) result }
{
    match outcome_of(memory, store, names, databases, buffer, inputs, line) {
        Outcome::Replied(reply) => {
            bind_line(names, databases, line, &reply);
            match put_reply(out, line, &reply) {
                Ok(()) => Ok(exported_file(line, reply)),
                Err(fault) => Err(fault),
            }
        }
        Outcome::Reads(name, at, count) => {
            let put = match store.read(name, at, count) {
                Ok(bytes) => put_data(out, line, bytes),
                Err(refusal) => put_refusal(out, refusal),
            };
            match put {
                Ok(()) => Ok(None),
                Err(fault) => Err(fault),
            }
        }
    }
}

/// Returns the file that a line exports, if its reply is one.
fn exported_file(line: &Line<'_>, reply: Reply) -> Option<Bytes>
    ensures { words.exported line.now reply ≡ option_to_list result }
{
    match (line, reply) {
        (Line::Export(_), Reply::Data(file)) => Some(file),
        _ => None,
    }
}

/// Returns the outcome of the call of a line. It is `OutOfMemory` only if an allocation failed.
fn outcome_of<A: Allowance>(
    memory: &A,
    store: &mut Store,
    names: &[Name],
    databases: &[Db],
    buffer: &mut [u8],
    inputs: &[Bytes],
    line: &Line<'_>,
) -> Outcome
    requires { byte_count line.now ≤ length buffer.old }
    ensures answers { Answers store.old (call_of inputs.now (tables names.now databases.now) line.now)
        result store.new }
    ensures moves { Moves store.old (call_of inputs.now (tables names.now databases.now) line.now)
        store.new }
    ensures no_memory { OnWant result (A.is_short memory.now) }
{
    match line {
        Line::Bind { name, .. } => size_of(store, Name(*name)),
        Line::Print(call)
        | Line::Silent(call)
        | Line::BindChunk(_, call)
        | Line::BindDatabase(_, call) => do_given(memory, store, names, databases, buffer, call),
        Line::Import { file, .. } => Outcome::Replied(import(
            memory,
            store,
            input_of(inputs, *file),
        )),
        Line::Export(label) => Outcome::Replied(export(memory, store, label.among(databases))),
    }
}

/// Returns the size of a chunk.
fn size_of(store: &Store, name: Name) -> Outcome
    ensures { Answers store.now (calls.Memory (MemoryCall.Size name)) result store.now }
{
    Outcome::Replied(number(store.size(name)))
}

/// Returns the input file with a number, counted from 1. Returns no bytes if there is none with
/// this number.
fn input_of(inputs: &[Bytes], file: u32) -> &[u8]
    ensures { result.now ≡ words.input_of inputs.now file }
{
    if file == 0 {
        return &[];
    }
    match inputs.get(file as usize - 1) {
        Some(bytes) => bytes.as_slice(),
        None => &[],
    }
}
