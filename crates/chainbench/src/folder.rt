//! Benchmarks of a store in a folder.
use crate::setting::{Setting, nanos};
use crate::store::step;
use anyhow::Result;
use benchmarks::{Benchmark, Count, Measure, Work};
use dir_disk::DirDisk;
use disk::Disk;
use embedded_store::EmbeddedStore;
use kv_types::Limits;
use std::fs;

/// Does the operations, and says on standard error how many are done.
fn perform<D: Disk + Drop>(
    rt: &HostRuntime,
    store: &mut EmbeddedStore<D>,
    setting: &Setting,
    work: &mut Work,
    count: &mut Count,
) -> Result<()> {
    let all = setting.operations;
    for _ in 0..u64::MAX {
        if count.left_of(all) == 0 {
            break;
        }
        let before = *count;
        step(rt.alloc(), store, setting, work, count)?;
        if count.has_passed_tenth(&before, all) {
            rt.eprintln(count.progress(setting.benchmark, all))?;
        }
    }
    Ok(())
}

/// What the benchmark does at a store that is open.
fn measured_at<D: Disk + Drop>(
    rt: &HostRuntime,
    store: &mut EmbeddedStore<D>,
    setting: &Setting,
    work: &mut Work,
) -> Result<Measure> {
    let mut count = Count::new();
    let start = nanos(rt)?;
    perform(rt, store, setting, work, &mut count)?;
    let taken = nanos(rt)?.saturating_sub(start);
    Ok(count.in_time(setting.benchmark, taken))
}

/// The limits of the store. Under those of `compact` all entries in memory are due to be flushed,
/// and all tables of level 0 to be merged.
fn limits_of(setting: &Setting) -> Limits {
    let usual = Limits::default();
    if setting.benchmark != Benchmark::Compact {
        return usual;
    }
    Limits::new(16, 0, usual.table, usual.level, usual.cache).unwrap_or(usual)
}

/// Removes the files of a store that nobody uses.
fn remove_all(disk: &mut DirDisk<HostRuntime>) -> Result<()> {
    disk.lock()?;
    for file in disk.files()? {
        disk.remove(file)?;
    }
    Ok(())
}

/// Removes the store of this folder, which is made where it is absent.
fn remove_store(rt: &HostRuntime, folder: &str) -> Result<()> {
    fs::create_dir_all(rt, folder)?;
    let mut disk = DirDisk::new(*rt, folder)?;
    let removed = remove_all(&mut disk);
    drop(disk);
    removed
}

/// Opens the store of this folder, does what the benchmark does, and closes it.
fn measured_in(
    rt: &HostRuntime,
    folder: &str,
    setting: &Setting,
    work: &mut Work,
) -> Result<Measure> {
    let mut store = EmbeddedStore::open(rt, folder, &limits_of(setting))?;
    let measured = measured_at(rt, &mut store, setting, work);
    drop(store.into_disk());
    measured
}

/// Opens the store of this folder and closes it, again and again.
fn measured_opens(
    rt: &HostRuntime,
    folder: &str,
    setting: &Setting,
    work: &mut Work,
) -> Result<Measure> {
    let (mut count, mut idle) = (Count::new(), *setting);
    idle.operations = 0;
    let start = nanos(rt)?;
    for _ in 0..setting.operations {
        measured_in(rt, folder, &idle, work)?;
        count.add_operations(1);
    }
    let taken = nanos(rt)?.saturating_sub(start);
    Ok(count.in_time(setting.benchmark, taken))
}

/// What the benchmark does at the store of this folder.
pub fn measured(
    rt: &HostRuntime,
    folder: &str,
    setting: &Setting,
    work: &mut Work,
) -> Result<Measure> {
    if setting.benchmark == Benchmark::Open {
        return measured_opens(rt, folder, setting, work);
    }
    if setting.benchmark.is_fresh() {
        remove_store(rt, folder)?;
    }
    measured_in(rt, folder, setting, work)
}
