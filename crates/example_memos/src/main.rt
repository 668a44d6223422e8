//! An example to copy, which uses the crates as libraries. It reads a database of memos from a PDB
//! file into a blank image, adds a memo by a list of calls, and writes the database to a file
//! again.
//!
//! `write_memo` in `memos.rt` has a contract of its own: start there.
#![tactic(auto)]

ghost use Rattle.std.specs.Prelude.{[], ◌≡◌, IfOk};

mod memos;

use anyhow::{Result, bail};
use chunk_format::blank;
use heap_model::{Db, Reply};
use memos::{Memo, write_memo};
use palm_store::Store;
use pdb_files::{exported, import};
use record_db::new_record;
use std::alloc::Global;
use std::io;

/// A PDB file with one memo, `Buy milk`, of category 1. It has a header of 78 bytes, an entry of 8
/// bytes, two zeros, and the text.
const FIRST_MEMO_FILE: &[u8] =
    b"MemoDB\0\0\0\0\0\0\0\0\0\0\0\0\0\0\0\0\0\0\0\0\0\0\0\0\0\0\0\0\0\0\0\0\0\0\0\0\0\0\0\0\0\0\
    \0\0\0\0\0\0\0\0\0\0\0\0DATAmemo\0\0\0\0\0\0\0\0\0\x01\0\0\0\x58\x01\0\0\x01\0\0Buy milk\0";

/// The memo that is added.
const NEW_MEMO: &[u8] = b"Call Anna";

/// An index after all records.
const END: u32 = 0xFFFF;

fn main(rt: HostRuntime) -> Result<()> {
    let alloc = rt.alloc();
    let mut store = blank_store(alloc)?;
    let db = import(alloc, &mut store, FIRST_MEMO_FILE)?;
    print_replies(&rt, &add_memo(alloc, &mut store, db)?)?;
    let file = exported(&alloc, &store, db)?;
    println!(rt; "a file of {} bytes", file.as_slice().len())?;
    Ok(())
}

fn blank_store(alloc: Global) -> Result<Store>
    ensures { IfOk result (λ made. made.lents ≡ []) }
{
    match Store::check(alloc, blank(alloc, 4096, 64)?) {
        Ok(store) => Ok(store),
        Err(error) => bail!("{}", error.fault),
    }
}

/// Adds a memo, and returns the reply to each call that writes its text.
fn add_memo(alloc: Global, store: &mut Store, db: Db) -> Result<Vec<Reply>>
    ensures { store.new.lents ≡ store.old.lents }
{
    let (index, name) = new_record(store, db, END, NEW_MEMO.len() as u32 + 1)?;
    Ok(write_memo(alloc, store, Memo { db, index, name }, NEW_MEMO)?)
}

fn print_replies(rt: &impl Print, replies: &[Reply]) -> io::Result<()> {
    for reply in replies {
        match reply {
            Reply::Refused(refusal) => println!(rt; "refused: {refusal}")?,
            _ => println!(rt; "ok")?,
        }
    }
    Ok(())
}
