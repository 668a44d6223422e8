//! An example of loans, to copy. It takes out the bytes of three chunks and fills them while a list
//! of calls runs on the store. It puts those of the second back, runs the list again, and puts the
//! others back.
//!
//! `fill_meanwhile` in `filling.rt` has a contract of its own: start there.
#![tactic(auto)]

ghost use Rattle.std.specs.Prelude.{[], ◌≡◌, IfOk};

mod filling;

use anyhow::{Result, bail};
use chunk_format::blank;
use filling::{Notes, fill_meanwhile};
use heap_model::{Call, MemoryCall, Name, Reply};
use palm_store::Store;
use std::alloc::Global;
use std::io;

/// The owner of all chunks.
const OWNER: u8 = 1;

/// The number of bytes of each chunk.
const SIZE: u32 = 16;

/// The text that fills the chunks.
const TEXT: &[u8] = b"while calls run";

fn main(rt: HostRuntime) -> Result<()> {
    let alloc = rt.alloc();
    let (mut store, notes) = three_notes(alloc)?;
    let replies = fill_meanwhile(alloc, &mut store, notes, TEXT, &calls_on(notes))?;
    println!(rt; "three chunks out:")?;
    print_replies(&rt, &replies.0)?;
    println!(rt; "two chunks out:")?;
    print_replies(&rt, &replies.1)?;
    println!(rt; "none out:")?;
    print_text(&rt, &store, notes.first)?;
    print_text(&rt, &store, notes.second)?;
    print_text(&rt, &store, notes.third)
}

/// Makes a store with three locked chunks.
fn three_notes(alloc: Global) -> Result<(Store, Notes)>
    ensures { IfOk result (λ made. made.0.lents ≡ []) }
{
    let mut store = blank_store(alloc)?;
    let first = locked_chunk(&mut store)?;
    let second = locked_chunk(&mut store)?;
    let third = locked_chunk(&mut store)?;
    let notes = Notes {
        first,
        second,
        third,
    };
    Ok((store, notes))
}

fn blank_store(alloc: Global) -> Result<Store>
    ensures { IfOk result (λ made. made.lents ≡ []) }
{
    match Store::check(alloc, blank(alloc, 4096, 64)?) {
        Ok(store) => Ok(store),
        Err(error) => bail!("{}", error.fault),
    }
}

fn locked_chunk(store: &mut Store) -> Result<Name>
    ensures { store.new.lents ≡ store.old.lents }
{
    let name = store.handle_new(SIZE, OWNER)?;
    store.lock(name)?;
    Ok(name)
}

/// Returns the calls that run while bytes are out.
fn calls_on(notes: Notes) -> [Call; 4] {
    [
        Call::Memory(read(notes.first)),
        Call::Memory(read(notes.second)),
        Call::Memory(MemoryCall::Unlock(notes.second)),
        Call::Memory(MemoryCall::Compact),
    ]
}

/// Returns the call that reads a whole chunk.
fn read(name: Name) -> MemoryCall {
    MemoryCall::Read {
        name,
        at: 0,
        count: SIZE,
    }
}

fn print_replies(rt: &impl Print, replies: &[Reply]) -> io::Result<()> {
    for reply in replies {
        match reply {
            Reply::Refused(refusal) => println!(rt; "refused: {refusal}")?,
            _ => println!(rt; "ok")?,
        }
    }
    Ok(())
}

/// Prints the first bytes of a chunk as a text.
fn print_text(rt: &impl Print, store: &Store, name: Name) -> Result<()> {
    let bytes = store.read(name, 0, TEXT.len() as u32)?;
    println!(rt; "{}", str::from_utf8(bytes)?)?;
    Ok(())
}
