//! The operations of benchmarks of a store.
use crate::setting::Setting;
use anyhow::Result;
use benchmarks::{Benchmark, Count, Work};
use disk::Disk;
use embedded_store::{EmbeddedStore, Tended};
use std::alloc::Global;

/// The store is tended so often behind a batch, where anything is due.
const TENDS: u64 = 4;

/// Tends the store so often, or until nothing is due.
fn tend<D: Disk + Drop>(
    alloc: Global,
    store: &mut EmbeddedStore<D>,
    most: u64,
    count: &mut Count,
) -> Result<()> {
    for _ in 0..most {
        if store.tend(alloc)? != Tended::Worked {
            count.end();
            break;
        }
        count.add_operations(1);
    }
    Ok(())
}

/// Writes the next batch, and tends the store.
fn write<D: Disk + Drop>(
    alloc: Global,
    store: &mut EmbeddedStore<D>,
    setting: &Setting,
    work: &mut Work,
    count: &mut Count,
) -> Result<()> {
    let puts = setting.puts.min(count.left_of(setting.operations));
    let batch = work.next_batch(alloc, puts)?;
    let written = store.write(&batch);
    count.add_batch(batch);
    written?;
    tend(alloc, store, TENDS, &mut Count::new())
}

/// Reads the value of the next key.
fn read_value<D: Disk + Drop>(
    alloc: Global,
    store: &mut EmbeddedStore<D>,
    work: &mut Work,
    count: &mut Count,
) -> Result<()> {
    let key = work.next_key(alloc)?;
    let read = store.get(alloc, &key, None);
    Ok(count.add_value(key, read)?)
}

/// Reads the next page of the walk.
fn read_page<D: Disk + Drop>(
    alloc: Global,
    store: &mut EmbeddedStore<D>,
    work: &mut Work,
    count: &mut Count,
) -> Result<()> {
    let walk = work.walk(alloc)?;
    let page = store.rows(alloc, walk.range(), None)?;
    Ok(walk.pass(alloc, page, count)?)
}

/// Does the next operation; of writes a batch, of walks a page.
pub fn step<D: Disk + Drop>(
    alloc: Global,
    store: &mut EmbeddedStore<D>,
    setting: &Setting,
    work: &mut Work,
    count: &mut Count,
) -> Result<()> {
    match setting.benchmark {
        Benchmark::ReadRandom | Benchmark::ReadMissing => read_value(alloc, store, work, count),
        Benchmark::ReadSeq | Benchmark::ReadReverse | Benchmark::SeekRandom => {
            read_page(alloc, store, work, count)
        }
        Benchmark::Compact => tend(alloc, store, 1, count),
        _ => write(alloc, store, setting, work, count),
    }
}
