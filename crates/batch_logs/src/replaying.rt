// Reading the logs that a version names, and the entries that no table has yet.
ghost use Rattle.std.specs.Prelude.{◌-◌, ◌<◌, ◌≤◌};
ghost use Rattle.kv_types.specs.declared.bounds.TheConstants.{MAX_NUMBER};
ghost use Rattle.batch_logs.specs.Memtables.{IsNumberedTo};
ghost use Rattle.batch_logs.specs.Replaying.{AreOfDifferentFiles, OpensLog, OpensLogs, ReadsLogs};
ghost use Rattle.batch_logs.specs.Replaying.{ReplaysLog, ReplaysRecord};

use crate::batch_logs::{BatchLog, BatchLogs};
use crate::layout::batch_of;
use disk::Disk;
use kv_types::Number;
use kv_types::bounds::MAX_NUMBER;
use kv_types::laws::spellings_differ;
use memtable::Memtable;
use record_log::{Log, OpenedLog, records_are_unique};
use std::alloc::{AllocError, Global};
use store_tables::EngineError;
use version_edits::{LogLine, StoreVersion};

// Adds the batch of a record with this number to a memtable, if no table has it. Says whether the
// record is of such a batch.
fn replay_record(
    alloc: Global,
    bytes: &[u8],
    number: Number,
    flushed: u64,
    memtable: &mut Memtable,
) -> Result<bool, AllocError>
    requires positive { 0 < number }
    requires numbered { IsNumberedTo memtable.old (number - 1) }
    ensures { ReplaysRecord bytes.now number flushed memtable.old memtable.new result }
{
    let Some(batch) = batch_of(alloc, number.get(), bytes)? else {
        return Ok(false);
    };
    if number.get() > flushed && memtable.add(number, &batch).is_err() {
        return Err(AllocError);
    }
    Ok(true)
}

// Adds to a memtable the batches of an opened log, numbered behind this number, that no table has.
// Says whether its records are of such batches.
fn replay(
    alloc: Global,
    opened: &OpenedLog,
    before: u64,
    flushed: u64,
    memtable: &mut Memtable,
) -> Result<bool, AllocError>
    requires numbered { IsNumberedTo memtable.old before }
    requires few { before ≤ MAX_NUMBER }
    ensures { ReplaysLog opened.now before flushed memtable.old memtable.new result }
{
    let count = opened.log.len();
    if count as u64 > MAX_NUMBER - before {
        return Ok(false);
    }
    for index in 0..count {
        let number = Number::new(before + index as u64 + 1).unwrap();
        if !replay_record(alloc, opened.record(index), number, flushed, memtable)? {
            return Ok(false);
        }
    }
    Ok(true)
}

// Opens the log of a file, whose batches are numbered behind this number, and adds to a memtable
// those that no table has.
fn open_log<D: Disk>(
    alloc: Global,
    disk: &mut D,
    file: u64,
    before: u64,
    flushed: u64,
    memtable: &mut Memtable,
) -> Result<BatchLog, EngineError>
    requires numbered { IsNumberedTo memtable.old before }
    requires few { before ≤ MAX_NUMBER }
    ensures { OpensLog D.Disk file before flushed disk.old memtable.old disk.new memtable.new
        result }
{
    let opened = Log::open(alloc, disk, file, 0)?;
    if !replay(alloc, &opened, before, flushed, memtable)? {
        return Err(EngineError::Damaged);
    }
    Ok(BatchLog {
        first: before + 1,
        log: opened.log,
    })
}

// Opens the logs of these lines, whose batches are numbered behind this number, with a memtable of
// the batches that no table has.
fn read_logs<D: Disk>(
    alloc: Global,
    disk: &mut D,
    lines: &[LogLine],
    before: u64,
    flushed: u64,
) -> Result<(Vec<BatchLog>, Memtable), EngineError>
    requires apart { AreOfDifferentFiles lines.now }
    requires few { before ≤ MAX_NUMBER }
    ensures { ReadsLogs D.Disk lines.now before flushed disk.old disk.new result }
{
    // laws: bytes are those of one list of batches at most
    records_are_unique();
    spellings_differ();
    let mut memtable = Memtable::new(alloc);
    let mut logs = Vec::new(alloc);
    let mut count = before;
    for line in lines {
        if line.first != count + 1 {
            return Err(EngineError::Damaged);
        }
        let one = open_log(alloc, disk, line.file, count, flushed, &mut memtable)?;
        count += one.log.len() as u64;
        logs.push(one)?;
    }
    Ok((logs, memtable))
}

/// Opens the logs of a version, in order, and adds to a memtable the batches that no table has.
/// `Damaged` only where the lines name no batches: where a log is absent or no log, holds a batch
/// of another number, or ends elsewhere than the next one begins.
pub fn open_logs<D: Disk>(
    alloc: Global,
    disk: &mut D,
    version: &StoreVersion,
) -> Result<(BatchLogs, Memtable), EngineError>
    ensures { OpensLogs D.Disk version.now.version.logs version.now.version.flushed disk.old
        disk.new result }
{
    // laws: bytes are those of one list of batches at most
    records_are_unique();
    spellings_differ();
    let before = version.logs[0].first - 1;
    let (mut older, memtable) = read_logs(alloc, disk, &version.logs, before, version.flushed)?;
    let Some(newest) = older.pop() else {
        return Err(EngineError::Damaged);
    };
    Ok((BatchLogs::of(older, newest), memtable))
}
