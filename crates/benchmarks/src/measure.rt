// What a benchmark did, and its line of the table.
ghost use Rattle.std.specs.Prelude.{◌≡◌, ◌*◌, ◌/◌, Some, if◌then◌else◌};
ghost use Rattle.benchmarks.specs.Measures.{measure_text, progress_text, without_time};

use crate::Benchmark;
use std::fmt;

/// The table's first line.
pub const TABLE_HEAD: &str =
    "benchmark    operations        rows   micros/op       ops/s      MB/s";

/// What a benchmark did, and how long it took.
#[derive(Clone, Copy, Debug)]
pub struct Measure {
    pub benchmark: Benchmark,
    pub operations: u64,
    /// Rows that were written or found.
    pub rows: u64,
    /// Bytes of their keys and values.
    pub bytes: u64,
    pub nanos: u64,
}

/// So many of these a number of others, or 0 where there are none of the others.
fn ratio(these: u128, others: u128) -> u128
    ensures { result ≡ these / others }
{
    these.checked_div(others).unwrap_or(0)
}

/// How many operations of so many a benchmark has done.
#[derive(Clone, Copy)]
pub struct ProgressLine {
    pub benchmark: Benchmark,
    pub done: u64,
    pub all: u64,
}

impl fmt::Display for ProgressLine {
    ghost output = { λ it. Some (progress_text it) };

    fn fmt<W: fmt::Write>(&self, f: &mut fmt::Formatter<W>) -> fmt::Result {
        let (name, done, all) = (self.benchmark.name(), self.done, self.all);
        write!(f, "{name}: {done} of {all}")
    }
}

impl Measure {
    /// The same, or without its time.
    pub fn shown(mut self, times: bool) -> Measure
        ensures { result ≡ (if times then self else without_time self) }
    {
        if !times {
            self.nanos = 0;
        }
        self
    }

    /// Nanoseconds an operation, or 0 where there was none.
    pub fn nanos_each(&self) -> u64
        ensures { result ≡ self.now.nanos / self.now.operations }
    {
        self.nanos.checked_div(self.operations).unwrap_or(0)
    }

    /// Operations a second, or 0 where no time was measured.
    pub fn rate(&self) -> u128
        ensures { result ≡ self.now.operations * 1000000000 / self.now.nanos }
    {
        ratio(self.operations as u128 * 1_000_000_000, self.nanos as u128)
    }

    /// Tenths of 2^20 bytes a second, or 0 where no time was measured.
    pub fn tenths(&self) -> u128
        ensures { result ≡ self.now.bytes * 10000000000 / (self.now.nanos * 1048576) }
    {
        ratio(
            self.bytes as u128 * 10_000_000_000,
            self.nanos as u128 * 1_048_576,
        )
    }
}

impl fmt::Display for Measure {
    ghost output = { λ it. Some (measure_text it) };

    fn fmt<W: fmt::Write>(&self, f: &mut fmt::Formatter<W>) -> fmt::Result {
        let (name, operations, rows) = (self.benchmark.name(), self.operations, self.rows);
        let (each, rate, tenths) = (self.nanos_each(), self.rate(), self.tenths());
        let (micros, part) = (each / 1_000, each % 1_000);
        let (mega, tenth) = (tenths / 10, tenths % 10);
        write!(f, "{name:<12}{operations:>11}{rows:>12}")?;
        write!(f, "{micros:>8}.{part:03}{rate:>12}{mega:>8}.{tenth}")
    }
}
