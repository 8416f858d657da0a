//! The logs of a store's batches, in order: the newest takes appends, and a batch is read from the
//! log that has its number.
ghost use Rattle.std.specs.Prelude.{◌≡◌, ◌≢◌, ℕ, ◌+◌, ◌-◌, ◌<◌, ◌≤◌, ◌∷◌, [], List};
ghost use Rattle.std.specs.Prelude.{drop, length};
ghost use Rattle.kv_types.specs.declared.bounds.TheConstants.{MAX_NUMBER};
ghost use Rattle.kv_types.specs.{BatchContent};
ghost use Rattle.disk.specs.{State};
ghost use Rattle.batch_logs.specs.BatchLogs.{AppendsBatch, AreBeside, AreJoined, AreUsable};
ghost use Rattle.batch_logs.specs.BatchLogs.{BeginsLog, HasBatch, IfLogHolds, IfLogsHold};
ghost use Rattle.batch_logs.specs.BatchLogs.{IsLogOf, IsWorking, LogsHold, ReadsBatch};
ghost use Rattle.batch_logs.specs.BatchLogs.{end_of_log, first_number, line_of, lines_of};
ghost use Rattle.batch_logs.specs.BatchLogs.{newest_file, newest_length, next_number};
ghost use Rattle.batch_logs.specs.BatchLogs.{oldest_first};

use crate::layout::{batch_of, spell_record};
use disk::Disk;
use disk::laws::{durable_file_is_left, durable_is_left};
use kv_types::laws::spellings_differ;
use kv_types::{Batch, Number};
use record_log::{Log, gates_are_in_files};
use std::alloc::Global;
use std::mem;
use store_tables::EngineError;

/// A log of batches, and the number of its first one.
#[derive(Drop)]
pub struct BatchLog {
    pub first: u64,
    pub log: Log,
}

/// The logs of a store. Each call that reaches files is lent the disk.
#[derive(Drop)]
pub struct BatchLogs {
    // The logs but the newest, in order.
    older: Vec<BatchLog>,
    newest: BatchLog,
    // Empty, or the record of an append that was refused. The next record takes its memory.
    spelled: Vec<u8>,
}

/// The batch of this number, read from the log that has it.
fn batch_in<D: Disk>(
    alloc: Global,
    disk: &mut D,
    one: &BatchLog,
    number: Number,
) -> Result<Batch, EngineError>
    requires works { IsWorking one.now }
    requires within { HasBatch one.now number }
    ensures { ReadsBatch D.Disk (IfLogHolds D.Disk disk.old one.now) disk.old disk.new number
        result }
{
    spellings_differ(); // law: no two batches have one spelling
    let index = (number.get() - one.first) as usize;
    let record = one.log.record(alloc, disk, index)?;
    batch_of(alloc, number.get(), &record)?.ok_or(EngineError::Damaged)
}

/// The log that has the batch of this number, of joined logs that have it.
fn log_with<'a>(older: &'a [BatchLog], newest: &'a BatchLog, number: u64) -> &'a BatchLog
    requires joined { AreJoined (oldest_first older.now newest.now) older.now newest.now.first }
    requires there { (oldest_first older.now newest.now ≤ number)
        × (number < end_of_log newest.now) }
    ensures { IsLogOf older.now newest.now number result.now }
{
    match older.split_last() {
        Some((last, rest)) if number < newest.first => log_with(rest, last, number),
        _ => newest,
    }
}

impl BatchLogs {
    /// The only log of a store.
    pub fn new(alloc: Global, newest: BatchLog) -> BatchLogs
        ensures lines { lines_of result ≡ line_of newest ∷ [] }
        ensures alone { (result.older.items ≡ []) × (result.newest ≡ newest) }
    {
        BatchLogs {
            older: Vec::new(alloc),
            newest,
            spelled: Vec::new(alloc),
        }
    }

    /// The logs of a store, in order.
    pub(crate) fn of(older: Vec<BatchLog>, newest: BatchLog) -> BatchLogs
        ensures { (result.older.items ≡ older.items) × (result.newest ≡ newest) }
    {
        let spelled = Vec::new(*older.allocator());
        BatchLogs {
            older,
            newest,
            spelled,
        }
    }

    /// The number of the oldest batch, or of the next one.
    pub fn first_number(&self) -> u64
        ensures { result ≡ first_number self.now }
    {
        match self.older.first() {
            Some(one) => one.first,
            None => self.newest.first,
        }
    }

    /// The number of the last batch, or of the one before the first.
    pub fn last_number(&self) -> Number
        requires few { next_number self.now ≤ MAX_NUMBER + 1 }
        ensures { result ≡ next_number self.now - 1 }
    {
        let next = self.newest.first + self.newest.log.len() as u64;
        Number::new(next.saturating_sub(1)).unwrap()
    }

    /// The length of the newest log's file, up to its closed gate.
    pub fn newest_length(&self) -> u64
        ensures { (disk : State) (first : ℕ) (batches : List BatchContent) →
            LogsHold disk self.now first batches → result ≡ newest_length self.now }
    {
        gates_are_in_files(); // law: a log's gate is within its file
        self.newest.log.gate() + 1
    }

    /// Appends the batch with the next number to the newest log. It needs four device calls.
    pub fn append<D: Disk>(
        &mut self,
        disk: &mut D,
        number: Number,
        batch: &Batch,
    ) -> Result<(), EngineError>
        requires usable { AreUsable self.old }
        requires next { number ≡ next_number self.old }
        ensures { AppendsBatch D.Disk self.old batch.now disk.old self.new disk.new result }
    {
        // laws: a crash leaves what is durable, file by file
        durable_is_left();
        durable_file_is_left();
        spell_record(&mut self.spelled, number.get(), batch)?;
        self.newest.log.append(disk, &self.spelled)?;
        // Emptied here, behind the append: the next record would wait for a length that was just
        // written.
        self.spelled.clear();
        Ok(())
    }

    /// The batch of this number, read from its log.
    pub fn batch<D: Disk>(
        &self,
        alloc: Global,
        disk: &mut D,
        number: Number,
    ) -> Result<Batch, EngineError>
        requires usable { AreUsable self.now }
        requires there { (first_number self.now ≤ number) × (number < next_number self.now) }
        ensures { ReadsBatch D.Disk (IfLogsHold D.Disk disk.old self.now) disk.old disk.new number
            result }
    {
        let one = log_with(&self.older, &self.newest, number.get());
        batch_in(alloc, disk, one, number)
    }

    /// Forgets so many of the oldest logs. Their files stay.
    pub fn trim(&mut self, count: usize)
        requires { count ≤ length self.old.older.items }
        ensures older { self.new.older.items ≡ drop count self.old.older.items }
        ensures newest { self.new.newest ≡ self.old.newest }
    {
        drop(self.older.drain(..count));
    }

    /// Begins a log in a new file, which takes the appends from now on. It needs two device calls.
    pub fn begin<D: Disk>(
        &mut self,
        alloc: Global,
        disk: &mut D,
        file: u64,
    ) -> Result<(), EngineError>
        requires usable { AreUsable self.old }
        requires few { next_number self.old ≤ MAX_NUMBER + 1 }
        requires new { AreBeside file self.old.older.items × (newest_file self.old ≢ file) }
        ensures { BeginsLog D.Disk file self.old disk.old self.new disk.new result }
    {
        self.older.reserve(1)?;
        let log = Log::create(alloc, disk, file)?;
        let first = self.newest.first + self.newest.log.len() as u64;
        let last = mem::replace(&mut self.newest, BatchLog { first, log });
        self.older.push_reserved(last);
        Ok(())
    }
}
