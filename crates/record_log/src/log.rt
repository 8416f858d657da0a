// A log of records behind gates, in one file of a disk.
ghost use Rattle.std.specs.Prelude.{◌≡◌, ◌↔◌, ◌⊎◌, ℕ, ◌+◌, ◌<◌, ◌^◌, ◌-◌, min, List, []};
ghost use Rattle.std.specs.Prelude.{◌∷◌, ◌++◌, length, slice_get, slice_index_or, Some, IfOk};
ghost use Rattle.std.specs.Prelude.{IfErr, IsErrOf, IsSomeAnd, OnOk, MatchResult};
ghost use Rattle.disk.specs.declared.DiskError.TheVariants.{Failed};
ghost use Rattle.disk.specs.{seen, AddsNoOutcome, AlwaysLeaves, IsLeftAt, IsSame, IsSameBut};
ghost use Rattle.disk.specs.{IsEnvironmental, IsStill, KeepsDisk, State};
ghost use Rattle.record_log.specs.declared.error.LogError.TheVariants.{Disk, Memory};
ghost use Rattle.record_log.specs.Gate.{IsDurableAs, behind_of, pushed};
ghost use Rattle.record_log.specs.Logs.{LogHolds, HasRecords, IsAt, IsPart, IsRest};
ghost use Rattle.record_log.specs.Logs.{OpenOutcome, Appended, IsExpected};
ghost use Rattle.disk.specs.Calls.{IsRefusalOf};
ghost use Rattle.record_log.specs.Logs.{IsOldOrNewFrom, EndsInRange, begun, file_of, start_of};
ghost use Rattle.record_log.specs.Logs.{IsArgumentError, IsDurableLog};
ghost use Rattle.record_log.specs.Logs.{gate_of, count_of, first_length, HasFailed, HasNoRoom};
ghost use Rattle.record_log.specs.Logs.{HasRead};
ghost use Rattle.disk.specs.{MakesCalls};

use crate::LogError;
use crate::gate::write_gated;
use crate::scan::scan;
use disk::{Disk, DiskError};
use std::alloc::{AllocError, Global};

/// The greatest length of a record in bytes.
pub const MAX_RECORD: usize = 16_777_216;

/// An append-only log of records in a file, from a place of the file on. It keeps the places where
/// records end, and none of their bytes. Each call borrows the disk.
#[derive(Drop)]
pub struct Log {
    file: u64,
    start: u64,
    // The places where the records end, counted from the start.
    ends: Vec<usize>,
    // The place where the last record ends.
    end: usize,
    has_failed: bool,
    // The bytes that the last append wrote behind its gate, whose memory the next one takes.
    behind: Vec<u8>,
}

// Makes these the bytes behind the closed gate of an append: the length, the record, and a closed
// gate.
fn spell_behind(out: &mut Vec<u8>, bytes: &[u8]) -> Result<(), AllocError>
    requires { length bytes.now < 2 ^ 32 }
    ensures { OnOk result (out.new.items ≡ behind_of bytes.now) }
{
    out.clear();
    out.reserve(bytes.len() + 5)?;
    out.extend_from_slice(&(bytes.len() as u32).to_be_bytes())?;
    out.extend_from_slice(bytes)?;
    out.push(0)?;
    Ok(())
}

// The bytes of a file from a place on, of the buffer's length.
fn bytes_at<D: Disk>(
    alloc: Global,
    disk: &mut D,
    file: u64,
    at: u64,
    len: usize,
) -> Result<Vec<u8>, DiskError>
    ensures kept { KeepsDisk D.Disk disk.old disk.new (IsErrOf result DiskError.Failed) ⊥ IsSame }
    ensures read { D.is_honest disk.old →
        MatchResult result (λ bytes. IsPart (D.state disk.old) file at len bytes.items)
        (λ e. IsRefusalOf e (D.state disk.old) file (at + len)) }
    ensures still { IsStill D.Disk disk.old disk.new }
    ensures calls { MakesCalls D.Disk 1 disk.old disk.new result }
{
    let mut bytes = vec![in alloc; 0u8; len]?;
    disk.read(file, at, &mut bytes)?;
    Ok(bytes)
}

// The bytes of a file from a place on, after a sync.
fn synced_from<D: Disk>(
    alloc: Global,
    disk: &mut D,
    file: u64,
    start: u64,
) -> Result<Vec<u8>, DiskError>
    ensures kept { KeepsDisk D.Disk disk.old disk.new (IsErrOf result DiskError.Failed) ⊥
        (AddsNoOutcome file) }
    ensures read { D.is_honest disk.old → MatchResult result
        (λ bytes. IsRest (D.state disk.old) file start (D.state disk.new) bytes.items)
        (λ e. IsRefusalOf e (D.state disk.old) file start) }
    ensures still { IsStill D.Disk disk.old disk.new }
    ensures calls { MakesCalls D.Disk 3 disk.old disk.new result }
{
    disk.sync(file)?;
    let length = disk.length(file)?;
    if length < start {
        return Err(DiskError::Short);
    }
    bytes_at(alloc, disk, file, start, (length - start) as usize)
}

/// A log that was opened, and the bytes of its file from the log's first place on, as they were
/// read. Its records are taken from them without the disk.
#[derive(Drop)]
pub struct OpenedLog {
    pub log: Log,
    pub bytes: Vec<u8>,
}

impl OpenedLog {
    /// The record at an index, from 0.
    pub fn record(&self, index: usize) -> &[u8]
        requires { index < count_of self.now.log }
        ensures { (records : List (List ℕ)) → HasRead self.now records →
            slice_get records index ≡ Some result.now }
    {
        let (begin, len) = self.log.span(index);
        let bytes = self.bytes.as_slice();
        let (_before, rest) = bytes.split_at(begin.min(bytes.len()));
        let (record, _behind) = rest.split_at(len.min(rest.len()));
        record
    }
}

impl Log {
    /// Creates a log without records from the first place of a file on: a closed gate. It needs two
    /// device calls: write and sync. An existing file loses its first byte, and with it the records
    /// from there on. A refusal may leave the file changed.
    pub fn create<D: Disk>(alloc: Global, disk: &mut D, file: u64) -> Result<Log, LogError>
        ensures kept { KeepsDisk D.Disk disk.old disk.new
            (IsErrOf result (Disk Failed)) ⊥ (IsSameBut file) }
        ensures created { D.is_honest disk.old → EndsInRange (seen (D.state disk.old file)) →
            MatchResult result (λ log. LogHolds (D.state disk.new) log [])
            (IsEnvironmental (Disk Failed) Memory) }
        ensures spelled { D.is_honest disk.old → OnOk result
            (IsDurableAs (D.state disk.new) file (begun (seen (D.state disk.old file)))) }
        ensures at { IfOk result (IsAt file 0) }
        ensures empty { MatchResult result (λ log. (gate_of log ≡ 0) × (count_of log ≡ 0))
            (λ e. IsArgumentError e → ⊥) }
        ensures calls { MakesCalls D.Disk 2 disk.old disk.new result }

        // A crash at any moment since the call began leaves each other file as it was.
        ensures any_moment { D.is_honest disk.old → AlwaysLeaves D.Disk disk.old disk.new
            (IsLeftAt (D.state disk.old) file (λ left. Unit {0})) }
    {
        disk.write_at(file, 0, &[0])?;
        disk.sync(file)?;
        Ok(Log {
            file,
            start: 0,
            ends: Vec::new(alloc),
            end: 0,
            has_failed: false,
            behind: Vec::new(alloc),
        })
    }

    /// Opens the log of a file from a place on. The file is synced before it is read, and read
    /// once.
    pub fn open<D: Disk>(
        alloc: Global,
        disk: &mut D,
        file: u64,
        start: u64,
    ) -> Result<OpenedLog, LogError>
        ensures kept { KeepsDisk D.Disk disk.old disk.new (IsErrOf result (Disk Failed)) ⊥
            (AddsNoOutcome file) }
        ensures at { IfOk result (λ opened. IsAt file start opened.log) }
        ensures told { D.is_honest disk.old →
            OpenOutcome (D.state disk.old) file start result (D.state disk.new) }
        ensures opened { (records : List (List ℕ)) → D.is_honest disk.old →
            HasRecords (D.state disk.old) file start records → MatchResult result
            (λ opened. LogHolds (D.state disk.new) opened.log records × HasRead opened records)
            (IsEnvironmental (Disk Failed) Memory) }
        ensures causes { IfErr result (λ e. IsArgumentError e → ⊥) }
        ensures still { IsStill D.Disk disk.old disk.new }
        ensures calls { MakesCalls D.Disk 3 disk.old disk.new result }
    {
        let bytes = synced_from(alloc, disk, file, start)?;
        let Some((ends, end)) = scan(alloc, &bytes)? else {
            return Err(LogError::Disk(DiskError::Short));
        };
        let log = Log {
            file,
            start,
            ends,
            end,
            has_failed: false,
            behind: Vec::new(alloc),
        };
        Ok(OpenedLog { log, bytes })
    }

    /// The log of a file that was written with one record of this length, from a place on. No call
    /// of the disk.
    pub fn of_one(alloc: Global, file: u64, start: u64, len: usize) -> Result<Log, AllocError>
        ensures at { IfOk result (IsAt file start) }
        ensures holds { (disk : State) (one : List ℕ) → length one ≡ len →
            IsDurableLog disk file start (one ∷ []) →
            IfOk result (λ log. LogHolds disk log (one ∷ [])) }
    {
        let end = len.saturating_add(5);
        let mut ends = Vec::new(alloc);
        ends.push(end)?;
        Ok(Log {
            file,
            start,
            ends,
            end,
            has_failed: false,
            behind: Vec::new(alloc),
        })
    }

    /// The number of records; for a failed log, the number before the failure.
    pub fn len(&self) -> usize
        ensures { result ≡ count_of self.now }
    {
        self.ends.len()
    }

    /// The length of the first record in bytes, or 0 where the log has none.
    pub fn first_len(&self) -> usize
        ensures { result ≡ first_length self.now }
    {
        match self.ends.first() {
            Some(end) => end.saturating_sub(5),
            None => 0,
        }
    }

    /// The place of the closed gate, in the file; what stands behind it means nothing. It is at
    /// most 2^64 - 2.
    pub fn gate(&self) -> u64
        ensures below { result + 1 < 2 ^ 64 }
        ensures gate { gate_of self.now + 1 < 2 ^ 64 → result ≡ gate_of self.now }
    {
        self.start.saturating_add(self.end as u64).min(u64::MAX - 1)
    }

    // The place where a record's bytes begin, counted from the start, and their length.
    fn span(&self, index: usize) -> (usize, usize)
        requires { index < length self.now.ends.items }
        ensures begin { result.0 ≡
            min (slice_index_or (0 ∷ self.now.ends.items) index 0 + 5) usize.MAX }
        ensures len { result.1 ≡ slice_index_or self.now.ends.items index 0 - result.0 }
    {
        let before = if index == 0 { 0 } else { self.ends[index - 1] };
        let begin = before.saturating_add(5);
        (begin, self.ends[index].saturating_sub(begin))
    }

    /// Appends a record. It needs four device calls: it writes the record behind the closed gate,
    /// syncs, opens the gate, and syncs.
    pub fn append<D: Disk>(&mut self, disk: &mut D, bytes: &[u8]) -> Result<(), LogError>
        ensures kept { KeepsDisk D.Disk disk.old disk.new (IsErrOf result (Disk Failed))
            (HasNoRoom self.old bytes.now) (IsSameBut (file_of self.old)) }
        ensures told { Appended MAX_RECORD result self.old self.new bytes.now
            (disk.new ≡ disk.old) }
        ensures appended { (records : List (List ℕ)) → D.is_honest disk.old →
            LogHolds (D.state disk.old) self.old records →
            MatchResult result
            (λ _. LogHolds (D.state disk.new) self.new (records ++ bytes.now ∷ [])) IsExpected }
        ensures spelled { (records : List (List ℕ)) → D.is_honest disk.old →
            (held : LogHolds (D.state disk.old) self.old records) →
            OnOk result (IsDurableAs (D.state disk.new) (file_of self.old)
            (pushed held.bytes (gate_of self.old) (behind_of bytes.now))) }

        ensures calls { MakesCalls D.Disk 4 disk.old disk.new result }

        // A crash at any moment since the call began, whatever it answers, leaves the old records,
        // with or without the new one.
        ensures any_moment { (records : List (List ℕ)) → D.is_honest disk.old →
            (held : LogHolds (D.state disk.old) self.old records) → AlwaysLeaves D.Disk disk.old
            disk.new (IsLeftAt (D.state disk.old) (file_of self.old) (λ left. IsSomeAnd left
            (IsOldOrNewFrom held.bytes (start_of self.old) records bytes.now))) }
    {
        if self.has_failed {
            return Err(LogError::Failed);
        }
        if bytes.len() > MAX_RECORD {
            return Err(LogError::TooLong);
        }
        self.has_failed = true;
        spell_behind(&mut self.behind, bytes)?;
        self.ends.reserve(1)?;
        let gate = self.gate();
        write_gated(disk, self.file, gate, gate + 1, &self.behind)?;
        self.end = self.end.saturating_add(5).saturating_add(bytes.len());
        self.ends.push_reserved(self.end);
        self.has_failed = false;
        Ok(())
    }

    /// The record at an index, from 0. It is read from the disk.
    pub fn record<D: Disk>(
        &self,
        alloc: Global,
        disk: &mut D,
        index: usize,
    ) -> Result<Vec<u8>, LogError>
        requires { index < count_of self.now }
        ensures kept { KeepsDisk D.Disk disk.old disk.new (IsErrOf result (Disk Failed)) ⊥ IsSame }
        ensures failed { IsErrOf result LogError.Failed ↔ HasFailed self.now }
        ensures given { (records : List (List ℕ)) → D.is_honest disk.old →
            LogHolds (D.state disk.old) self.now records →
            MatchResult result (λ bytes. slice_get records index ≡ Some bytes.items)
            (λ e. IsEnvironmental (Disk Failed) Memory e ⊎ (e ≡ LogError.Failed)) }
        ensures still { IsStill D.Disk disk.old disk.new }
        ensures calls { MakesCalls D.Disk 1 disk.old disk.new result }
    {
        if self.has_failed {
            return Err(LogError::Failed);
        }
        let (begin, len) = self.span(index);
        let at = self.start.saturating_add(begin as u64);
        Ok(bytes_at(alloc, disk, self.file, at, len)?)
    }
}
