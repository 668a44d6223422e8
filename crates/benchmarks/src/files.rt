//! The import and the export of databases. `files SIZE SLOTS RECORDS BYTES ROUNDS` makes files of
//! RECORDS records with BYTES bytes each. In each round of a kind it imports one into an empty
//! image of SIZE bytes with SLOTS slots, and exports the database again. It prints the best and the
//! median processor time of both in nanoseconds.
//!
//! The last line has the sum of the lengths of the exported files, and the sum of the words of
//! images and files. Without words the run prints only this line, for small files. bench/files.c
//! does the same in plain C.

ghost use Rattle.std.specs.Prelude.{[], ◌≡◌, IfOk};

mod shapes;

use crate::records::{accepted, region_of};
use crate::timing::{Sum, Sums, Times};
use crate::work::{Field, NONE, Work};
use anyhow::Result;
use chunk_format::blank;
use heap_model::{Bytes, Db};
use palm_store::Store;
use pdb_files::{exported, import};
use shapes::{SHAPES, Shape, file_of};
use std::alloc::Global;
use std::rt::CpuClock;

/// The meaning of the words of a run.
pub(crate) const FIELDS: [Field; 5] = [
    Field::Size,
    Field::Slots,
    Field::FileRecords,
    Field::Bytes,
    Field::Rounds,
];

/// The work of a run without words.
pub(crate) const LEAST: Work<'static> = Work {
    size: 16384,
    slots: 128,
    file_records: 100,
    bytes: 38,
    rounds: 1,
    ..NONE
};

/// Times each shape of file.
#[inline(never)]
pub(crate) fn run(rt: &(impl CpuClock + Print + AllocGlobal), work: Work<'_>) -> Result<()> {
    let mut sums = Sums::new();
    for (import_name, export_name, shape) in &SHAPES {
        time_shape(rt, work, (import_name, export_name), *shape, &mut sums)?;
    }
    sums.print(rt)?;
    Ok(())
}

/// Imports and exports a file of a shape in each round.
fn time_shape(
    rt: &(impl CpuClock + Print + AllocGlobal),
    work: Work<'_>,
    (import_name, export_name): (&str, &str),
    shape: Shape,
    sums: &mut Sums,
) -> Result<()> {
    let (mut imports, mut exports) = (Times::new(rt.alloc()), Times::new(rt.alloc()));
    time_rounds(rt, work, shape, (&mut imports, &mut exports), sums)?;
    imports.print(rt, work, import_name, 1)?;
    exports.print(rt, work, export_name, 1)?;
    Ok(())
}

fn time_rounds(
    rt: &(impl CpuClock + AllocGlobal),
    work: Work<'_>,
    shape: Shape,
    (imports, exports): (&mut Times, &mut Times),
    sums: &mut Sums,
) -> Result<()> {
    let file = file_of(rt.alloc(), shape, work)?;
    for _ in 0..work.rounds {
        time_round(rt, work, &file, (&mut *imports, &mut *exports), sums)?;
    }
    Ok(())
}

/// Imports a file into a new store, and exports the database again.
fn time_round(
    rt: &(impl CpuClock + AllocGlobal),
    work: Work<'_>,
    file: &[u8],
    (imports, exports): (&mut Times, &mut Times),
    sums: &mut Sums,
) -> Result<()> {
    let mut store = blank_store(rt.alloc(), work)?;
    let db = time_import(rt, &mut store, file, imports)?;
    let out = time_export(rt, &store, db, exports)?;
    sum_up(sums, store, &out);
    Ok(())
}

/// Imports a file, and adds the time that it takes.
fn time_import(
    rt: &(impl CpuClock + AllocGlobal),
    store: &mut Store,
    file: &[u8],
    times: &mut Times,
) -> Result<Db>
    ensures { store.new.lents ≡ store.old.lents }
{
    let start = rt.thread_cpu_time()?;
    let db = import(rt.alloc(), store, file)?;
    times.add_since(rt, start)?;
    Ok(db)
}

/// Exports a database, and adds the time that it takes.
fn time_export(
    rt: &(impl CpuClock + AllocGlobal),
    store: &Store,
    db: Db,
    times: &mut Times,
) -> Result<Bytes> {
    let start = rt.thread_cpu_time()?;
    let out = exported(&rt.alloc(), store, db)?;
    times.add_since(rt, start)?;
    Ok(out)
}

/// Makes a store with nothing in it.
fn blank_store(alloc: Global, work: Work<'_>) -> Result<Store>
    ensures { IfOk result (λ store. store.lents ≡ []) }
{
    let region = blank(alloc, work.size, work.slots)?;
    accepted(alloc, region)
}

/// Adds the length of an exported file, and the words of the image and of the file.
fn sum_up(sums: &mut Sums, store: Store, out: &Bytes)
    requires { store.lents ≡ [] }
{
    let out = out.as_slice();
    let length = Sum(out.len().min(u32::MAX as usize) as u32);
    sums.add(length, region_of(store).as_slice());
    sums.words.add(Sum::of_words(out).0);
}
