//! Times the two checkers, the calls of the memory manager, those on records and resources, and the
//! import and the export of databases:
//!
//! ```text
//! benchmarks check IMAGE REPEATS
//! benchmarks stores REPEATS
//! benchmarks memory SIZE SLOTS PASSES ROUNDS
//! benchmarks tables SIZE SLOTS PASSES ROUNDS
//! benchmarks tables_apart SIZE SLOTS PASSES ROUNDS
//! benchmarks records SIZE SLOTS RECORDS CALLS PASSES ROUNDS
//! benchmarks files SIZE SLOTS RECORDS BYTES ROUNDS
//! ```
//!
//! Each benchmark has a module, whose comment says what it does. Its function `run` isn't inlined,
//! so that each is compiled for itself. With its name alone a benchmark does little and prints no
//! times. Without any word all benchmarks do so, in this order. Wrong words end with status 2. The
//! scripts in bench/ run the benchmarks, and docs/MEASUREMENTS.md has the results.
#![tactic(auto)]

mod check;
mod files;
mod memory;
mod records;
mod stores;
mod timing;
mod work;

use anyhow::Result;
use memory::{TABLES_APART, TABLES_IN_A_ROW};
use std::env;
use std::fs::Files;
use std::process::ExitCode;
use std::rt::{Clock, CpuClock};
use work::{Field, Work};

/// The text that is printed for wrong words.
const USAGE: &str = "usage: benchmarks [check [IMAGE REPEATS] | stores [REPEATS] \
    | memory [SIZE SLOTS PASSES ROUNDS] | tables [SIZE SLOTS PASSES ROUNDS] | tables_apart [SIZE SLOTS PASSES ROUNDS] \
    | records [SIZE SLOTS RECORDS CALLS PASSES ROUNDS] \
    | files [SIZE SLOTS RECORDS BYTES ROUNDS]]";

/// A benchmark.
#[derive(Clone, Copy)]
enum Benchmark {
    Check,
    Stores,
    Memory,
    Tables,
    TablesApart,
    Records,
    Files,
}

/// The benchmarks with their names, the meaning of the words after the name, and the least work.
static BENCHMARKS: [(&str, Benchmark, &[Field], Work<'static>); 7] = [
    ("check", Benchmark::Check, &check::FIELDS, check::LEAST),
    ("stores", Benchmark::Stores, &stores::FIELDS, stores::LEAST),
    ("memory", Benchmark::Memory, &memory::FIELDS, memory::LEAST),
    ("tables", Benchmark::Tables, &memory::FIELDS, memory::LEAST),
    (
        "tables_apart",
        Benchmark::TablesApart,
        &memory::FIELDS,
        memory::LEAST,
    ),
    (
        "records",
        Benchmark::Records,
        &records::FIELDS,
        records::LEAST,
    ),
    ("files", Benchmark::Files, &files::FIELDS, files::LEAST),
];

fn main(rt: HostRuntime) -> Result<ExitCode> {
    let words = env::args(&rt)?.skip(1).collect::<Vec<_>>(rt.alloc())?;
    run_words(&rt, &words)
}

/// Runs what the words after the program's name ask for.
fn run_words(
    rt: &(impl Clock + CpuClock + Files + Print + Eprint + AllocGlobal),
    words: &[String],
) -> Result<ExitCode> {
    if words.is_empty() {
        run_each(rt)?;
        return Ok(ExitCode::SUCCESS);
    }
    let Some((benchmark, work)) = named(words) else {
        eprintln!(rt; "{USAGE}")?;
        return Ok(ExitCode::from(2));
    };
    benchmark.run(rt, work)?;
    Ok(ExitCode::SUCCESS)
}

/// Runs each benchmark with its least work.
fn run_each(rt: &(impl Clock + CpuClock + Files + Print + AllocGlobal)) -> Result<()> {
    for (_, benchmark, _, least) in &BENCHMARKS {
        benchmark.run(rt, *least)?;
    }
    Ok(())
}

/// Returns the benchmark that the words name and its work, or `None` if the words are wrong.
fn named(words: &[String]) -> Option<(Benchmark, Work<'_>)> {
    let (name, words) = words.split_first()?;
    for (known, benchmark, fields, least) in &BENCHMARKS {
        if name.as_str() == *known {
            return Some((*benchmark, least.with_words(fields, words)?));
        }
    }
    None
}

impl Benchmark {
    fn run(
        self,
        rt: &(impl Clock + CpuClock + Files + Print + AllocGlobal),
        work: Work<'_>,
    ) -> Result<()> {
        match self {
            Benchmark::Check => check::run(rt, work),
            Benchmark::Stores => stores::run(rt, work),
            Benchmark::Memory => memory::run(rt, work),
            Benchmark::Tables => memory::run_chained(rt, work, TABLES_IN_A_ROW),
            Benchmark::TablesApart => memory::run_chained(rt, work, TABLES_APART),
            Benchmark::Records => records::run(rt, work),
            Benchmark::Files => files::run(rt, work),
        }
    }
}
