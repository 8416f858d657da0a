//! What one benchmark is to do, and the clock.
use anyhow::Result;
use benchmarks::Benchmark;
use std::rt::Clock;

/// What one benchmark is to do.
#[derive(Clone, Copy)]
pub struct Setting {
    pub benchmark: Benchmark,
    pub operations: u64,
    /// Puts of a batch.
    pub puts: u64,
}

/// Nanoseconds of the clock.
pub fn nanos(clock: &HostRuntime) -> Result<u64> {
    let nanos = clock.monotonic()?.as_nanos();
    Ok(u64::try_from(nanos).unwrap_or(u64::MAX))
}
