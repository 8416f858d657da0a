//! Open tables, level by level, and lookups in them.
ghost use Rattle.std.specs.Prelude.{◌≡◌, ◌↔◌, ℕ, List, IfOk, IfErr, IsTrue, MatchResult};
ghost use Rattle.std.specs.Prelude.{◌<◌, IsErrOf, OnErr, OnOk, Some, not, slice_index};
ghost use Rattle.std.specs.List.{prefix_len};
ghost use Rattle.std.specs.Prelude.{Contains, [], ◌∷◌, ◌++◌};
ghost use Rattle.bloom.specs.{hashes_of};
ghost use Rattle.disk.specs.{IsEnvironmental, Slot, State};
ghost use Rattle.kv_types.specs.{Entry, stored_span};
ghost use Rattle.sorted_table.specs.{TableServes, greatest_key, index_lines, last_line_key};
ghost use Rattle.sorted_table.specs.{table_format};
ghost use Rattle.store_model.specs.{AreLeveled, FitsRange, KeyRange, LevelTable, RangeHolds};
ghost use Rattle.store_model.specs.{level_entries};
ghost use Rattle.table_format.specs.{filter_key};
ghost use Rattle.version_edits.specs.Versions.{table_is_before};
ghost use Rattle.compaction.specs.Merges.{AreCursorsOf, AreIntactCursors};
ghost use Rattle.compaction.specs.Plans.{model_plan};
ghost use Rattle.store_tables.specs.declared.error.EngineError.TheVariants.{Damaged, Disk, Memory};
ghost use Rattle.store_tables.specs.LevelTables.{AreServed, EntriesFind, IsServed, LevelsRise};
ghost use Rattle.store_tables.specs.LevelTables.{TablesFind, WasServed, WereServed};
ghost use Rattle.store_tables.specs.LevelTables.{error_of_table, is_flushed, level_count};
ghost use Rattle.store_tables.specs.LevelTables.{line_range};
ghost use Rattle.store_tables.specs.LevelTables.{table_lines, with_flushed, with_flushed_line};
ghost use Rattle.store_tables.specs.MergeTables.{HaveInputs, ReplacesTables};
ghost use Rattle.store_tables.specs.RangeReads.{AreRangeCursors, HasTable, WereServedIn};
ghost use Rattle.store_tables.specs.RangeReads.{meets_span};
ghost use Rattle.store_tables.specs.TableReads.{LacksBlock, OneLacksBlock};
ghost use Rattle.store_tables.specs.TableReads.{OpensTables, ReadsTables, by_all_lines};
ghost use Rattle.store_tables.specs.TableReads.{by_one_line};

use crate::EngineError;
use crate::series::TableSeries;
use bloom::KeyHashes;
use byte_fields::{Format, StoredKey};
use compaction::Plan;
use disk::Disk;
use kv_types::{Number, Range};
use merge_iter::Cursor;
use sorted_table::{FoundVersion, Table, TableCursor, hashes_in};
use std::alloc::{AllocError, Global};
use store_cursors::StoreCursor;
use table_files::CachedDisk;
use table_format::FileError;
use version_edits::{TableLine, TableName, is_removed, table_is_before};

impl From<FileError> for EngineError {
    ghost from_gives = { λ t e. e ≡ error_of_table t };

    fn from(e: FileError) -> EngineError {
        match e {
            FileError::Disk => EngineError::Disk,
            FileError::Damaged => EngineError::Damaged,
            FileError::Memory => EngineError::Memory,
        }
    }
}

// Whether the last line of the table's index has this key, as its last entry has.
fn ends_with(table: &Table, key: &StoredKey) -> bool
    ensures line { IsTrue result ↔ (last_line_key (index_lines table.now) ≡ Some key.now) }
    ensures serves { (file : Slot) (entries : List Entry) → TableServes file table.now entries →
        IsTrue result ↔ (greatest_key entries ≡ Some key.now) }
{
    match table.greatest() {
        Some(greatest) => greatest == key,
        None => false,
    }
}

/// An open table, and its line in the manifest.
#[derive(Drop)]
pub struct OpenTable {
    line: TableLine,
    table: Table,
}

impl OpenTable {
    /// Opens the table that a line names. `Damaged` only where the file does not fit the line:
    /// where it has not the line's length, or no filter, index and footer at its end, or another
    /// greatest key in the index.
    pub fn open<D: Disk>(
        alloc: Global,
        disk: &mut D,
        line: &TableLine,
    ) -> Result<OpenTable, EngineError>
        ensures reads { ReadsTables D.Disk disk.old disk.new result }
        ensures opens { OpensTables by_one_line D.Disk disk.old disk.new line.now result }
    {
        if disk.length(line.file)? != line.length {
            return Err(EngineError::Damaged);
        }
        let table = Table::open(alloc, disk, line.file)?;
        if !ends_with(&table, &line.greatest) {
            return Err(EngineError::Damaged);
        }
        let line = line.clone()?;
        Ok(OpenTable { line, table })
    }

    // Whether the range of the table holds the key.
    fn may_have(&self, key: &StoredKey) -> bool
        ensures { IsTrue result ↔ RangeHolds (line_range self.now.line) key.now }
    {
        key >= &self.line.least && key <= &self.line.greatest
    }

    // Whether the keys of the table meet the range.
    fn meets(&self, range: &Range) -> bool
        ensures { result ≡ meets_span (line_range self.now.line) (stored_span range.now) }
    {
        if &self.line.greatest < range.from().stored() {
            return false;
        }
        self.line.least.lent().cmp(range.end_of_rows()).is_lt()
    }

    // A cursor over the entries of the table.
    fn cursor<D: Disk + Drop>(&self, alloc: Global) -> Result<TableCursor<D>, AllocError>
        ensures { IfOk result (λ cursor. (meant : State) (files : _) (table : LevelTable) →
            ⟦<CachedDisk<D> as Disk>⟧.is_honest files →
            WasServed (⟦<CachedDisk<D> as Disk>⟧.state files) meant self.now table →
            HasTable ⟦<TableCursor<D> as Cursor>⟧ meant files cursor table) }
    {
        self.table.cursor(alloc)
    }

    // The hashes of the key in the filter of the table: these, which are those of format 2, or
    // others, of format 1, for which the key is digested once more.
    fn hashes_for(&self, key: &StoredKey, hashes: KeyHashes) -> KeyHashes
        requires { hashes ≡ hashes_of key.now }
        ensures { result ≡ hashes_of (filter_key (table_format self.now.table) key.now) }
    {
        match self.table.format() {
            Format::One => hashes_in(Format::One, key.lent()),
            Format::Two => hashes,
        }
    }

    // What the table has of the key with these hashes. Where the range of the table does not hold
    // the key, it is not read. `Damaged` only where its file lacks the block of the key.
    fn get<D: Disk + Drop>(
        &self,
        alloc: Global,
        files: &mut CachedDisk<D>,
        key: &StoredKey,
        hashes: KeyHashes,
        at: Number,
    ) -> Result<Option<FoundVersion>, EngineError>
        requires { hashes ≡ hashes_of key.now }
        ensures reads { ReadsTables ⟦<CachedDisk<D> as Disk>⟧ files.old files.new result }
        ensures found { (meant : State) (table : LevelTable) →
            ⟦<CachedDisk<D> as Disk>⟧.is_honest files.old →
            WasServed (⟦<CachedDisk<D> as Disk>⟧.state files.old) meant self.now table →
            FitsRange table →
            IfOk result (EntriesFind at (Contains table.entries) key.now) }
        ensures intact { (table : LevelTable) → ⟦<CachedDisk<D> as Disk>⟧.is_honest files.old →
            IsServed (⟦<CachedDisk<D> as Disk>⟧.state files.old) self.now table →
            IfErr result (IsEnvironmental Disk Memory) }
        ensures damaged { (meant : State) (table : LevelTable) →
            ⟦<CachedDisk<D> as Disk>⟧.is_honest files.old →
            WasServed (⟦<CachedDisk<D> as Disk>⟧.state files.old) meant self.now table →
            IsErrOf result Damaged →
            LacksBlock (⟦<CachedDisk<D> as Disk>⟧.state files.old table.file) table.range key.now
            at }
    {
        if !self.may_have(key) {
            return Ok(None);
        }
        let hashes = self.hashes_for(key, hashes);
        Ok(
            self.table
                .get_hashed(alloc, files, key.lent(), hashes, at.get())?,
        )
    }
}

// The one with the greater number, if there is one: with one table more in a level, the newest.
fn newer_of(best: Option<FoundVersion>, found: Option<FoundVersion>) -> Option<FoundVersion>
    ensures { (at : ℕ) (key : List ℕ) (tables : List LevelTable) (table : LevelTable) →
        EntriesFind at (level_entries tables table.level) key best →
        EntriesFind at (Contains table.entries) key found →
        EntriesFind at (level_entries (tables ++ table ∷ []) table.level) key result }
{
    let Some(best) = best else {
        return found;
    };
    let Some(found) = found else {
        return Some(best);
    };
    if found.number > best.number {
        Some(found)
    } else {
        Some(best)
    }
}

/// The open tables of a store, in order of level, then (level 0) of file, (deeper) of key.
#[derive(Drop)]
pub struct LevelTables {
    tables: Vec<OpenTable>,
}

impl LevelTables {
    /// Opens the tables that these lines name. `Damaged` only where a file does not fit its line.
    pub fn open<D: Disk>(
        alloc: Global,
        disk: &mut D,
        lines: &[TableLine],
    ) -> Result<LevelTables, EngineError>
        ensures reads { ReadsTables D.Disk disk.old disk.new result }
        ensures opens { OpensTables by_all_lines D.Disk disk.old disk.new lines.now result }
    {
        let mut tables = Vec::new(alloc);
        for line in lines {
            tables.push(OpenTable::open(alloc, disk, line)?)?;
        }
        Ok(LevelTables { tables })
    }

    /// The open tables, in order.
    pub fn into_tables(self) -> Vec<OpenTable>
        ensures { result.items ≡ self.tables.items }
    {
        self.tables
    }

    /// The number of open tables of each level.
    pub fn counts(&self) -> [u64; 7]
        ensures { (level : ℕ) → level < 7 →
            slice_index result level ≡ level_count self.now level }
    {
        let mut counts = [0; 7];
        for open in &self.tables {
            let level = open.line.level as usize;
            if level < 7 {
                counts[level] += 1;
            }
        }
        counts
    }

    // How many tables of level 0 there are, where they stand before the others.
    fn flushed(&self) -> usize
        ensures { result ≡ prefix_len is_flushed self.now.tables.items }
    {
        for (place, open) in self.tables.iter().enumerate() {
            if open.line.level != 0 {
                return place;
            }
        }
        self.tables.len()
    }

    /// Adds an open table behind those of level 0. A refusal changes nothing.
    pub fn add(&mut self, opened: OpenTable) -> Result<(), AllocError>
        ensures added { (disk meant : State) (tables : List LevelTable) (table : LevelTable) →
            WereServed disk meant self.old tables → WasServed disk meant opened table →
            MatchResult result (λ _. WereServed disk meant self.new (with_flushed tables table))
            (λ _. WereServed disk meant self.new tables) }
        ensures lines { OnOk result (table_lines self.new
            ≡ with_flushed_line (table_lines self.old) opened.line) }
        ensures unchanged { OnErr result (self.new.tables.items ≡ self.old.tables.items) }
    {
        let place = self.flushed();
        self.tables.insert(place, opened)?;
        Ok(())
    }

    /// The newest version of the key with at most this number, if the tables have one. The levels
    /// are looked up in turn, up to the first that has an entry of the key. `Damaged` only where a
    /// table whose range holds the key lacks the block in which the key would be, and no table of a
    /// lesser level has an entry of the key that the number may see.
    pub fn get<D: Disk + Drop>(
        &self,
        alloc: Global,
        files: &mut CachedDisk<D>,
        key: &StoredKey,
        at: Number,
    ) -> Result<Option<FoundVersion>, EngineError>
        ensures reads { ReadsTables ⟦<CachedDisk<D> as Disk>⟧ files.old files.new result }
        ensures found { (meant : State) (tables : List LevelTable) (flushed : ℕ) →
            ⟦<CachedDisk<D> as Disk>⟧.is_honest files.old →
            WereServed (⟦<CachedDisk<D> as Disk>⟧.state files.old) meant self.now tables →
            AreLeveled flushed tables → LevelsRise tables →
            IfOk result (TablesFind at tables key.now) }
        ensures intact { (tables : List LevelTable) →
            ⟦<CachedDisk<D> as Disk>⟧.is_honest files.old →
            AreServed (⟦<CachedDisk<D> as Disk>⟧.state files.old) self.now tables →
            IfErr result (IsEnvironmental Disk Memory) }
        ensures damaged { (meant : State) (tables : List LevelTable) →
            ⟦<CachedDisk<D> as Disk>⟧.is_honest files.old →
            WereServed (⟦<CachedDisk<D> as Disk>⟧.state files.old) meant self.now tables →
            IsErrOf result Damaged →
            OneLacksBlock (⟦<CachedDisk<D> as Disk>⟧.state files.old) tables key.now at }
    {
        if self.tables.is_empty() {
            return Ok(None); // no filter is asked: the key needs no digest
        }
        let hashes = KeyHashes::of_stored(key.lent());
        let mut level = 0;
        let mut best = None;
        for open in &self.tables {
            if best.is_some() && open.line.level != level {
                return Ok(best);
            }
            level = open.line.level;
            let found = open.get(alloc, files, key, hashes, at)?;
            best = newer_of(best, found);
        }
        Ok(best)
    }

    /// Cursors over the tables whose keys meet the range, in order of the tables, one for as many
    /// of them as come one after another in order of key. No file is read. Together they have each
    /// entry of the tables with the key of a row in the range, whatever the files of the other
    /// tables are.
    pub fn cursors<'a, D: Disk + Drop>(
        &self,
        alloc: Global,
        range: &Range,
    ) -> Result<Vec<StoreCursor<'a, D>>, AllocError>
        ensures { IfOk result (λ cursors. (meant : State) (files : _)
            (tables : List LevelTable) → ⟦<CachedDisk<D> as Disk>⟧.is_honest files →
            WereServedIn (stored_span range.now) (⟦<CachedDisk<D> as Disk>⟧.state files) meant
            self.now tables → AreRangeCursors ⟦<StoreCursor<'a, D> as Cursor>⟧ meant files
            (stored_span range.now) tables cursors.items) }
    {
        let mut series = TableSeries::new(alloc);
        for open in &self.tables {
            if open.meets(range) {
                series.add(alloc, open.cursor(alloc)?, &open.line.least)?;
            }
        }
        series.finish()
    }

    /// Cursors over the inputs of a plan in a version with these tables, which are the open ones,
    /// in their order. No file is read.
    pub fn merge_cursors<D: Disk + Drop>(
        &self,
        alloc: Global,
        plan: Plan,
        lines: &[TableLine],
    ) -> Result<Vec<TableCursor<D>>, AllocError>
        ensures over { IfOk result (λ cursors. (meant : State) (files : _) (range : KeyRange)
            (tables : List LevelTable) → ⟦<CachedDisk<D> as Disk>⟧.is_honest files →
            HaveInputs plan range lines.now self.now tables →
            WereServed (⟦<CachedDisk<D> as Disk>⟧.state files) meant self.now tables → AreCursorsOf
            ⟦<TableCursor<D> as Cursor>⟧ ⟦<CachedDisk<D> as Disk>⟧ meant files cursors.items
            (model_plan plan range tables).inputs) }
        ensures intact { IfOk result (λ cursors. (files : _) (range : KeyRange)
            (tables : List LevelTable) → ⟦<CachedDisk<D> as Disk>⟧.is_honest files →
            HaveInputs plan range lines.now self.now tables →
            AreServed (⟦<CachedDisk<D> as Disk>⟧.state files) self.now tables → AreIntactCursors
            ⟦<TableCursor<D> as Cursor>⟧ ⟦<CachedDisk<D> as Disk>⟧ files cursors.items
            (model_plan plan range tables).inputs) }
    {
        let mut inputs = Vec::new(alloc);
        let Some(range) = plan.range(lines) else {
            return Ok(inputs);
        };
        for open in &self.tables {
            if plan.has_input(range, &open.line) {
                inputs.push(open.table.cursor(alloc)?)?;
            }
        }
        Ok(inputs)
    }

    // How many open tables stand before one that has this line and is to be added.
    fn place_of(&self, line: &TableLine) -> usize
        ensures { result ≡ prefix_len (λ one. not (table_is_before line.now one.line))
            self.now.tables.items }
    {
        for (place, open) in self.tables.iter().enumerate() {
            if table_is_before(line, &open.line) {
                return place;
            }
        }
        self.tables.len()
    }

    /// Replaces open tables as an edit of a version does their lines: those of these names are no
    /// longer open, and the others stand in the places that their lines have there. A refusal
    /// changes nothing.
    pub fn replace(&mut self, gone: &[TableName], opened: Vec<OpenTable>) -> Result<(), AllocError>
        ensures { ReplacesTables self.old self.new gone.now opened.items result }
    {
        self.tables.reserve(opened.len())?;
        self.tables.retain(|open| !is_removed(gone, &open.line));
        for open in opened {
            let place = self.place_of(&open.line);
            self.tables.insert(place, open)?;
        }
        Ok(())
    }
}
