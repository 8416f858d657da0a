//! The writer of a merge's outputs. Entries come in order: those that the merge drops are left out,
//! and the others are written into tables.
ghost use Rattle.std.specs.Prelude.{◌≤◌, ◌<◌, All, IsErrOf};
ghost use Rattle.version_edits.specs.{IsTableLine};

use crate::error::MergeError;
use crate::finishing::finish_output;
use crate::open_output::OpenOutput;
use crate::ranges::any_holds;
use byte_fields::{KeyBuffer, LentKey};
use disk::Disk;
use std::alloc::{AllocError, Global};
use std::mem::replace;
use table_builder::Builder;
use table_format::LentEntry;
use version_edits::{MAX_LINES, MAX_NEXT, TableLine};

/// The writer of a merge's outputs. The entries of the inputs come to it in order.
#[derive(Drop)]
pub struct OutputWriter {
    floor: u64,
    // The bytes of data at which a table is complete.
    target: u64,
    level: u8,
    // The tables that are deeper than the outputs.
    deeper: Vec<TableLine>,
    // The key and the number of the entry that came last.
    has_before: bool,
    key: KeyBuffer,
    number: u64,
    closed: Vec<TableLine>,
    current: Option<OpenOutput>,
    ghost merged: { level ≤ 6 },
    ghost aimed: { 0 < target },
    ghost proper: { All IsTableLine closed.items },
}

impl OutputWriter {
    ghost use Rattle.std.specs.Prelude.{◌≡◌, ◌⊎◌, ◌≤◌, ◌<◌, ◌++◌, ◌∷◌, [], ℕ, IfErr};
    ghost use Rattle.std.specs.Prelude.{IsSome, MatchResult, None, OnOk, Option, Some};
    ghost use Rattle.std.specs.Prelude.{bytes_eq};
    ghost use Rattle.std.specs.Prelude.{IsOkAnd, length};
    ghost use Rattle.disk.specs.{IsEnvironmental, State};
    ghost use Rattle.byte_fields.specs.{lent_key};
    ghost use Rattle.kv_types.specs.{Entry};
    ghost use Rattle.version_edits.specs.declared.line.TheConstants.{MAX_LINES};
    ghost use Rattle.table_format.specs.{CanFollow, IsTableEntry, lent_entry};
    ghost use Rattle.compaction.specs.declared.error.MergeError.TheVariants.{Disk, Memory};
    ghost use Rattle.compaction.specs.Outputs.{AreUnused, HasNoPlace, HoldsNothing, IsAstray};
    ghost use Rattle.compaction.specs.Outputs.{IsOpenFile, IsOutputFile, IsOwnFile, KeepsRules};
    ghost use Rattle.compaction.specs.Outputs.{KnowsBefore, UsesNumbers};
    ghost use Rattle.compaction.specs.Outputs.{PassesTableLimit, PutRefusal, WriterHolds};
    ghost use Rattle.compaction.specs.Outputs.{WriteRefusal, WritesOnly, open_file};
    ghost use Rattle.compaction.specs.Survivors.{is_dropped};
    ghost use Rattle.compaction.specs.WrittenTables.{Written, cut_before, has_new_key, is_cut};
    ghost use Rattle.compaction.specs.WrittenTables.{with_written};
    ghost use Rattle.compaction.specs.WrittenTables.{nothing_written, with_next};

    /// The writer of a merge at this floor into a level, whose tables are complete from so many
    /// bytes of data on. No entry has come.
    pub(crate) fn new(
        alloc: Global,
        floor: u64,
        target: u64,
        level: u8,
        deeper: Vec<TableLine>,
    ) -> OutputWriter
        requires merged { level ≤ 6 }
        requires aimed { 0 < target }
        ensures rules { (result.floor ≡ floor) × (result.target ≡ target) × (result.level ≡ level)
            × (result.deeper ≡ deeper) }
        ensures empty { (disk : State) (next_file : ℕ) →
            WriterHolds disk next_file result nothing_written }
        ensures none { (open_file result ≡ None) × (result.closed.items ≡ []) }
    {
        OutputWriter {
            floor,
            target,
            level,
            deeper,
            has_before: false,
            key: KeyBuffer::new(alloc),
            number: 0,
            closed: Vec::new(alloc),
            current: None,
        }
    }

    // Whether the key is that of the entry that came last, if there is one.
    fn is_same(&self, key: LentKey) -> bool
        ensures { result ≡ bytes_eq self.now.key (lent_key key.entry) }
    {
        self.key.lent().is_same(key)
    }

    // Whether the two rules drop the entry.
    fn drops(&self, entry: LentEntry) -> bool
        ensures { (before : Option Entry) → KnowsBefore self.now before → result
            ≡ is_dropped self.now.floor self.now.deeper.items before (lent_entry entry.entry) }
    {
        if self.has_before && self.is_same(entry.key) && self.number <= self.floor {
            return true;
        }
        entry.value.is_none() && entry.number <= self.floor && !any_holds(entry.key, &self.deeper)
    }

    // Whether the key is another than that of the entry before.
    fn is_new_key(&self, key: LentKey) -> bool
        ensures { (before : Option Entry) (entry : Entry) → KnowsBefore self.now before →
            entry.key ≡ lent_key key.entry → result ≡ has_new_key before entry }
    {
        !self.has_before || !self.is_same(key)
    }

    // Whether the open table is complete before an entry of this key.
    fn is_complete(&self, key: LentKey) -> bool
        ensures { (disk : State) (next_file : ℕ) (it : Written) (entry : Entry) →
            WriterHolds disk next_file self.now it → entry.key ≡ lent_key key.entry →
            result ≡ is_cut self.now.target it.before it.opened entry }
    {
        match &self.current {
            Some(output) => output.builder.data_size() >= self.target && self.is_new_key(key),
            None => false,
        }
    }

    // Remembers the entry as the one that came last.
    fn remember(&mut self, entry: LentEntry) -> Result<(), AllocError>
        ensures rules { KeepsRules self.old self.new }
        ensures outputs { (self.new.closed ≡ self.old.closed)
            × (self.new.current ≡ self.old.current) }
        ensures known { OnOk result (KnowsBefore self.new (Some (lent_entry entry.entry))) }
    {
        self.has_before = false;
        self.key.set(entry.key)?;
        self.number = entry.number;
        self.has_before = true;
        Ok(())
    }

    /// Completes the open table, if there is one.
    pub(crate) fn close<D: Disk>(&mut self, alloc: Global, disk: &mut D) -> Result<(), MergeError>
        ensures writes { (next_file : ℕ) → WritesOnly D.Disk (IsOpenFile self.old) disk.old
            disk.new (IsErrOf result Disk) (HoldsNothing D.Disk disk.old next_file self.old) }
        ensures rules { KeepsRules self.old self.new }
        ensures none { open_file self.new ≡ None }
        ensures outputs { (file : ℕ) → IsOutputFile self.new file → IsOutputFile self.old file }
        ensures closed { (next_file : ℕ) (it : Written) → D.is_honest disk.old →
            WriterHolds (D.state disk.old) next_file self.old it → 0 < length it.opened →
            MatchResult result (λ _. WriterHolds (D.state disk.new) next_file self.new
            (record it { closed = it.closed ++ it.opened ∷ []; opened = [] }))
            (IsEnvironmental Disk Memory) }
        ensures empty { (slots : State) (next_file : ℕ) (it : Written) →
            WriterHolds slots next_file self.old it → it.opened ≡ [] → (disk.new ≡ disk.old)
            × IsOkAnd result (λ _. WriterHolds slots next_file self.new it) }
    {
        let Some(output) = self.current.take() else {
            return Ok(());
        };
        if output.builder.len() == 0 {
            return Ok(());
        }
        let line = finish_output(alloc, disk, self.level, output)?;
        self.closed.push(line)?;
        Ok(())
    }

    // Completes the open table, if it is complete before an entry of this key.
    fn cut<D: Disk>(&mut self, alloc: Global, disk: &mut D, key: LentKey) -> Result<(), MergeError>
        ensures writes { (next_file : ℕ) → WritesOnly D.Disk (IsOpenFile self.old) disk.old
            disk.new (IsErrOf result Disk) (HoldsNothing D.Disk disk.old next_file self.old) }
        ensures rules { KeepsRules self.old self.new }
        ensures open { (file : ℕ) → IsOpenFile self.new file → IsOpenFile self.old file }
        ensures outputs { (file : ℕ) → IsOutputFile self.new file → IsOutputFile self.old file }
        ensures cut { (next_file : ℕ) (it : Written) (entry : Entry) → D.is_honest disk.old →
            WriterHolds (D.state disk.old) next_file self.old it → entry.key ≡ lent_key key.entry →
            MatchResult result (λ _. WriterHolds (D.state disk.new) next_file self.new
            (cut_before self.old.target it entry)) (IsEnvironmental Disk Memory) }
    {
        if self.is_complete(key) {
            self.close(alloc, disk)
        } else {
            Ok(())
        }
    }

    // Begins a table, if none is open. `Full` where there is no place for one more, beside so many
    // of the version.
    fn begin(&mut self, alloc: Global, tables: usize, next_file: &mut u64) -> Result<(), MergeError>
        requires { tables ≤ MAX_LINES }
        ensures rules { KeepsRules self.old self.new }
        ensures some { OnOk result (IsSome (open_file self.new)) }
        ensures numbers { UsesNumbers 1 self.old next_file.old self.new next_file.new }
        ensures begun { (disk : State) (it : Written) → WriterHolds disk next_file.old self.old it →
            AreUnused disk next_file.old →
            OnOk result (WriterHolds disk next_file.new self.new it
            × AreUnused disk next_file.new) }
        ensures full { IfErr result (λ e. (e ≡ MergeError.Full) × (open_file self.old ≡ None)
            × HasNoPlace tables next_file.old (length self.old.closed.items)
            × (self.new ≡ self.old) × (next_file.new ≡ next_file.old)) }
    {
        if self.current.is_some() {
            return Ok(());
        }
        if tables + self.closed.len() >= MAX_LINES || *next_file >= MAX_NEXT {
            return Err(MergeError::Full);
        }
        let file = *next_file;
        let builder = Builder::new(alloc, file);
        self.current = Some(OpenOutput { file, builder });
        *next_file += 1;
        Ok(())
    }

    // Adds an entry to the open table.
    fn add<D: Disk>(
        &mut self,
        alloc: Global,
        disk: &mut D,
        entry: LentEntry,
    ) -> Result<(), MergeError>
        requires { IsTableEntry (lent_entry entry) }
        ensures writes { (next_file : ℕ) → WritesOnly D.Disk (IsOpenFile self.old) disk.old
            disk.new (IsErrOf result Disk) (HoldsNothing D.Disk disk.old next_file self.old) }
        ensures rules { KeepsRules self.old self.new }
        ensures open { (file : ℕ) → IsOpenFile self.new file → IsOpenFile self.old file }
        ensures outputs { (file : ℕ) → IsOutputFile self.new file → IsOutputFile self.old file }
        ensures added { (next_file : ℕ) (it : Written) → D.is_honest disk.old →
            WriterHolds (D.state disk.old) next_file self.old it → IsSome (open_file self.old) →
            CanFollow it.opened (lent_entry entry.entry) → MatchResult result
            (λ _. WriterHolds (D.state disk.new) next_file self.new
            (with_written it (lent_entry entry.entry)))
            (λ e. IsEnvironmental Disk Memory e ⊎ ((e ≡ MergeError.Full)
            × PassesTableLimit it.opened (lent_entry entry.entry))) }
    {
        let Some(output) = self.current.take() else {
            return Err(MergeError::Damaged);
        };
        let OpenOutput { file, mut builder } = output;
        builder.add(alloc, disk, entry)?;
        self.current = Some(OpenOutput { file, builder });
        Ok(())
    }

    // Writes an entry that is not dropped.
    fn write<D: Disk>(
        &mut self,
        alloc: Global,
        disk: &mut D,
        entry: LentEntry,
        tables: usize,
        next_file: &mut u64,
    ) -> Result<(), MergeError>
        requires entry { IsTableEntry (lent_entry entry) }
        requires few { tables ≤ MAX_LINES }
        ensures writes { WritesOnly D.Disk (IsOwnFile self.old next_file.old) disk.old disk.new
            (IsErrOf result Disk) (IsAstray D.Disk disk.old next_file.old self.old) }
        ensures rules { KeepsRules self.old self.new }
        ensures numbers { UsesNumbers 1 self.old next_file.old self.new next_file.new }
        ensures unused { (it : Written) → D.is_honest disk.old →
            WriterHolds (D.state disk.old) next_file.old self.old it →
            AreUnused (D.state disk.old) next_file.old →
            AreUnused (D.state disk.new) next_file.new }
        ensures written { (it : Written) → D.is_honest disk.old →
            WriterHolds (D.state disk.old) next_file.old self.old it →
            AreUnused (D.state disk.old) next_file.old →
            CanFollow it.opened (lent_entry entry.entry) → MatchResult result
            (λ _. WriterHolds (D.state disk.new) next_file.new self.new
            (with_written (cut_before self.old.target it (lent_entry entry.entry))
            (lent_entry entry.entry)))
            (WriteRefusal tables next_file.new (cut_before self.old.target it
            (lent_entry entry.entry)) (lent_entry entry.entry)) }
    {
        self.cut(alloc, disk, entry.key)?;
        self.begin(alloc, tables, next_file)?;
        self.add(alloc, disk, entry)
    }

    /// The next entry is dropped, or written behind those before or into a new table. `Full` where
    /// it has no place, beside so many tables of the version.
    pub(crate) fn put<D: Disk>(
        &mut self,
        alloc: Global,
        disk: &mut D,
        entry: LentEntry,
        tables: usize,
        next_file: &mut u64,
    ) -> Result<(), MergeError>
        requires entry { IsTableEntry (lent_entry entry) }
        requires few { tables ≤ MAX_LINES }
        ensures writes { WritesOnly D.Disk (IsOwnFile self.old next_file.old) disk.old disk.new
            (IsErrOf result Disk) (IsAstray D.Disk disk.old next_file.old self.old) }
        ensures rules { KeepsRules self.old self.new }
        ensures numbers { UsesNumbers 1 self.old next_file.old self.new next_file.new }
        ensures unused { (it : Written) → D.is_honest disk.old →
            WriterHolds (D.state disk.old) next_file.old self.old it →
            AreUnused (D.state disk.old) next_file.old →
            AreUnused (D.state disk.new) next_file.new }
        ensures put { (it : Written) → D.is_honest disk.old →
            WriterHolds (D.state disk.old) next_file.old self.old it →
            AreUnused (D.state disk.old) next_file.old →
            CanFollow it.opened (lent_entry entry.entry) → MatchResult result
            (λ _. WriterHolds (D.state disk.new) next_file.new self.new
            (with_next self.old.floor self.old.deeper.items self.old.target it
            (lent_entry entry.entry)))
            (PutRefusal tables next_file.new self.old it (lent_entry entry.entry)) }
    {
        if self.drops(entry) {
            self.remember(entry)?;
            return Ok(());
        }
        self.write(alloc, disk, entry, tables, next_file)?;
        self.remember(entry)?;
        Ok(())
    }

    /// The lines of the complete tables, which the writer gives up.
    pub(crate) fn drain(&mut self, alloc: Global) -> Vec<TableLine>
        ensures { result ≡ self.old.closed }
    {
        replace(&mut self.closed, Vec::new(alloc))
    }
}
