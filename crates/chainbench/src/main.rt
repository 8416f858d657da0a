//! Benchmarks of a store in a folder, and of a chain of three nodes in memory.
#![tactic(auto)]

mod chain;
mod folder;
mod setting;
mod store;

use crate::setting::Setting;
use anyhow::{Result, bail};
use benchmarks::{Benchmark, Measure, TABLE_HEAD, Words, Work, benchmarks_in, read_words};
use std::env;

/// How the program is called.
const USAGE: &str = "usage: chainbench --dir D [--num N] [--value BYTES] [--benchmarks NAMES] \
[--times no]";

/// The seed of the first benchmark. Each later one has the next.
const SEED: u32 = 1001;

/// Runs one benchmark in this folder.
fn measured(
    rt: &HostRuntime,
    folder: &str,
    words: &Words<'_>,
    benchmark: Benchmark,
    work: &mut Work,
) -> Result<Measure> {
    let setting = Setting {
        benchmark,
        operations: benchmark.operations(words.keys),
        puts: benchmark.puts(words.value),
    };
    if benchmark == Benchmark::ChainSubmit {
        return chain::measured(rt, &setting, work);
    }
    folder::measured(rt, folder, &setting, work)
}

/// Runs the benchmarks in turn, and prints the table's lines.
fn run_all(
    rt: &HostRuntime,
    folder: &str,
    words: &Words<'_>,
    benchmarks: &[Benchmark],
    work: &mut Work,
) -> Result<()> {
    let mut seed = SEED;
    for &benchmark in benchmarks {
        work.begin(rt.alloc(), benchmark, seed)?;
        let measure = measured(rt, folder, words, benchmark, work)?;
        rt.println(measure.shown(words.times))?;
        seed = seed.saturating_add(1);
    }
    Ok(())
}

/// Runs what the words ask for, in a folder of their folder.
fn run(rt: &HostRuntime, words: &Words<'_>) -> Result<()> {
    let alloc = rt.alloc();
    let Some(benchmarks) = benchmarks_in(alloc, words.names)? else {
        bail!(USAGE);
    };
    let folder = words.folder;
    let folder = format!(in alloc; "{folder}/chainbench")?;
    let mut work = Work::new(alloc, words.value as usize, words.keys)?;
    rt.println(TABLE_HEAD)?;
    let ran = run_all(rt, folder.as_str(), words, &benchmarks, &mut work);
    work.close();
    ran
}

/// Runs what the program's words ask for.
fn run_words(rt: &HostRuntime) -> Result<()> {
    let words: Vec<String> = env::args(rt)?.collect(rt.alloc())?;
    match read_words(&words) {
        Some(words) => run(rt, &words),
        None => bail!(USAGE),
    }
}

fn main(rt: HostRuntime) -> Result<()> {
    run_words(&rt)
}
