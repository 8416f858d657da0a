// The benchmarks, and their names.
ghost use Rattle.std.specs.Prelude.{◌≡◌, ◌≢◌, ◌==◌, IfOk, List, MatchOption, map};
ghost use Rattle.std.specs.List.{slice_split};
ghost use Rattle.benchmarks.specs.declared.benchmark.Benchmark.{Benchmark};
ghost use Rattle.benchmarks.specs.Benchmarks.{is_fresh, name_of, operations_of, puts_of};

use std::alloc::{AllocError, Global};

/// A benchmark of LevelDB's `db_bench` by its name, or the chain's.
#[derive(Clone, Copy, Debug, PartialEq, Eq)]
pub enum Benchmark {
    FillSeq,
    FillSync,
    FillRandom,
    Overwrite,
    ReadRandom,
    ReadMissing,
    ReadSeq,
    ReadReverse,
    SeekRandom,
    Compact,
    Open,
    ChainSubmit,
}

impl Benchmark {
    /// The benchmark of this name.
    pub fn named(name: &str) -> Option<Benchmark>
        ensures { MatchOption result ((it : Benchmark) → name.now ≢ name_of it)
            (λ it. name.now ≡ name_of it) }
    {
        match name {
            "fillseq" => Some(Benchmark::FillSeq),
            "fillsync" => Some(Benchmark::FillSync),
            "fillrandom" => Some(Benchmark::FillRandom),
            "overwrite" => Some(Benchmark::Overwrite),
            "readrandom" => Some(Benchmark::ReadRandom),
            "readmissing" => Some(Benchmark::ReadMissing),
            "readseq" => Some(Benchmark::ReadSeq),
            "readreverse" => Some(Benchmark::ReadReverse),
            "seekrandom" => Some(Benchmark::SeekRandom),
            "compact" => Some(Benchmark::Compact),
            "open" => Some(Benchmark::Open),
            "chainsubmit" => Some(Benchmark::ChainSubmit),
            _ => None,
        }
    }

    /// The name that is read as this benchmark.
    pub fn name(self) -> &'static str
        ensures { result.now ≡ name_of self }
    {
        match self {
            Benchmark::FillSeq => "fillseq",
            Benchmark::FillSync => "fillsync",
            Benchmark::FillRandom => "fillrandom",
            Benchmark::Overwrite => "overwrite",
            Benchmark::ReadRandom => "readrandom",
            Benchmark::ReadMissing => "readmissing",
            Benchmark::ReadSeq => "readseq",
            Benchmark::ReadReverse => "readreverse",
            Benchmark::SeekRandom => "seekrandom",
            Benchmark::Compact => "compact",
            Benchmark::Open => "open",
            Benchmark::ChainSubmit => "chainsubmit",
        }
    }

    /// Whether it begins with a store without batches.
    pub fn is_fresh(self) -> bool
        ensures { result ≡ is_fresh self }
    {
        match self {
            Benchmark::FillSeq | Benchmark::FillSync | Benchmark::FillRandom => true,
            _ => false,
        }
    }

    /// How many puts a batch has: one in `fillsync` and `chainsubmit`, else 256, or as many values
    /// of this length as have a place.
    pub fn puts(self, length: u64) -> u64
        ensures { result ≡ puts_of self length }
    {
        match self {
            Benchmark::FillSync | Benchmark::ChainSubmit => 1,
            _ => (60_000 / length.saturating_add(32)).clamp(1, 256),
        }
    }

    /// How often its operation is done where a run is of so many: once at least; `compact` until
    /// nothing is due.
    pub fn operations(self, number: u64) -> u64
        ensures { result ≡ operations_of self number }
    {
        match self {
            Benchmark::Compact => u64::MAX,
            Benchmark::FillSync => (number / 1_000).max(1),
            Benchmark::Open => (number / 10_000).max(1),
            Benchmark::ChainSubmit => (number / 10).max(1),
            _ => number.max(1),
        }
    }
}

/// The parts of a text between its commas.
fn parts_of(alloc: Global, text: &str) -> Result<Vec<&str>, AllocError>
    ensures { IfOk result (λ parts.
        map (λ part. part.now) parts.items ≡ slice_split (λ b. b == 44) text.now) }
{
    text.split(',').collect(alloc)
}

/// The benchmarks that a text names, with commas between. `None` where one is none.
pub fn benchmarks_in(alloc: Global, text: &str) -> Result<Option<Vec<Benchmark>>, AllocError>
    ensures { IfOk result (λ found. MatchOption found
        ((list : List Benchmark) → map name_of list ≢ slice_split (λ b. b == 44) text.now)
        (λ list. map name_of list.items ≡ slice_split (λ b. b == 44) text.now)) }
{
    let parts = parts_of(alloc, text)?;
    let mut found = Vec::new(alloc);
    for part in &parts {
        match Benchmark::named(part) {
            Some(it) => found.push(it)?,
            None => return Ok(None),
        }
    }
    Ok(Some(found))
}
