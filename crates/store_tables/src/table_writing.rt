//! Writing a table from the entries of a memtable.
ghost use Rattle.std.specs.Prelude.{◌≡◌, ◌≤◌, List, [], IfErr, IsNone, MatchOption, MatchResult};
ghost use Rattle.std.specs.Prelude.{IfOk, IsErrOf, OnOk};
ghost use Rattle.disk.specs.{IsEnvironmental, WritesInto, seen};
ghost use Rattle.kv_types.specs.declared.bounds.TheConstants.{MAX_NUMBER};
ghost use Rattle.kv_types.specs.{Entry};
ghost use Rattle.merge_iter.specs.{IfOn, IsOn};
ghost use Rattle.memtable.specs.declared.Memtable.{Memtable};
ghost use Rattle.memtable.specs.{HasFailedAdd, TableHolds};
ghost use Rattle.table_format.specs.{CanFollow, IsTableEntry, lent_entry};
ghost use Rattle.table_builder.specs.{Builds, BuildsNothing, HoldsEntries, IsFresh, builder_file};
ghost use Rattle.store_tables.specs.declared.error.EngineError.TheVariants.{Disk, Memory};
ghost use Rattle.store_tables.specs.Errors.{IsEnd};
ghost use Rattle.store_tables.specs.TableWriting.{AddsAll, BuildsAll, HasAddedOne, HasEntry};
ghost use Rattle.store_tables.specs.TableWriting.{HoldsOneMore, IsNewLine, IsTooLarge};
ghost use Rattle.store_tables.specs.TableWriting.{IsWrittenTable, error_of_writing};

use crate::EngineError;
use compaction::finished_line;
use disk::{Disk, DiskError};
use manifest::TableLine;
use memtable::{MemCursor, Memtable};
use merge_iter::Cursor;
use std::alloc::Global;
use table_builder::Builder;
use table_format::{LentEntry, TableError};

// Why a table could not be written. A builder refuses an entry for its order, or has failed
// before, only where the disk did not keep what was written.
fn refusal_of(e: TableError) -> EngineError
    ensures { result ≡ error_of_writing e }
{
    match e {
        TableError::Disk => EngineError::Disk,
        TableError::Memory => EngineError::Memory,
        TableError::Damaged | TableError::Order | TableError::TooLarge | TableError::Failed => {
            EngineError::Damaged
        }
    }
}

// Adds an entry to a table. Says whether there was room for it.
fn add_one<D: Disk>(
    alloc: Global,
    disk: &mut D,
    builder: &mut Builder,
    entry: LentEntry,
) -> Result<bool, EngineError>
    requires { IsTableEntry (lent_entry entry) }
    ensures writes { WritesInto D.Disk (builder_file builder.old) disk.old disk.new
        (IsErrOf result Disk) (BuildsNothing builder.old) }
    ensures file { OnOk result (builder_file builder.new ≡ builder_file builder.old) }
    ensures added { (entries : List Entry) → D.is_honest disk.old →
        Builds (D.state disk.old (builder_file builder.old)) builder.old entries →
        CanFollow entries (lent_entry entry.entry) → MatchResult result
        (HasAddedOne entries (lent_entry entry.entry) (D.state disk.new (builder_file builder.old))
        builder.new) (IsEnvironmental Disk Memory) }
    ensures held { (entries : List Entry) → HoldsEntries builder.old entries →
        CanFollow entries (lent_entry entry.entry) →
        IfOk result (HoldsOneMore entries (lent_entry entry.entry) builder.new) }
    ensures causes { IfErr result IsEnd }
{
    match builder.add(alloc, disk, entry) {
        Ok(()) => Ok(true),
        Err(TableError::TooLarge) => Ok(false),
        Err(e) => Err(refusal_of(e)),
    }
}

// The entry that a cursor stands on.
fn entry_at<'a, 'b>(cursor: &'b MemCursor<'a>) -> LentEntry<'b>
    requires { IsOn (⟦<MemCursor<'a> as Cursor>⟧.position cursor.now) }
    ensures { IfOn (⟦<MemCursor<'a> as Cursor>⟧.position cursor.now)
        (λ entry. lent_entry result ≡ entry) }
{
    LentEntry {
        key: cursor.key(),
        number: cursor.number(),
        value: cursor.value(),
    }
}

// Adds all entries of a cursor to a table that has none. Says whether there was room for them.
fn add_all<'a, D: Disk>(
    alloc: Global,
    disk: &mut D,
    builder: &mut Builder,
    cursor: &mut MemCursor<'a>,
) -> Result<bool, EngineError>
    ensures { AddsAll D.Disk disk.old disk.new builder.old builder.new
        (⟦<MemCursor<'a> as Cursor>⟧.holds tt cursor.old tt) result }
{
    let mut source = ();
    cursor.first(&mut source)?;
    while cursor.valid() {
        if !add_one(alloc, disk, builder, entry_at(cursor))? {
            return Ok(false);
        }
        cursor.next(&mut source)?;
    }
    Ok(true)
}

// Adds all entries of a memtable to a table that has none. Says whether there was room for them.
fn add_memtable<D: Disk>(
    alloc: Global,
    disk: &mut D,
    builder: &mut Builder,
    memtable: &Memtable,
) -> Result<bool, EngineError>
    requires { HasFailedAdd memtable.now → ⊥ }
    ensures { AddsAll D.Disk disk.old disk.new builder.old builder.new
        (TableHolds memtable.now) result }
{
    let mut cursor = memtable.cursor()?;
    add_all(alloc, disk, builder, &mut cursor)
}

// Finishes a table of level 0 in this file, which has all entries of a memtable.
fn finish_table<D: Disk>(
    alloc: Global,
    disk: &mut D,
    file: u64,
    builder: Builder,
) -> Result<TableLine, EngineError>
    requires file { builder_file builder ≡ file }
    requires named { file ≤ MAX_NUMBER }
    ensures writes { WritesInto D.Disk file disk.old disk.new (IsErrOf result Disk)
        (BuildsNothing builder) }
    ensures written { (memtable : Memtable) → HasEntry memtable → D.is_honest disk.old →
        BuildsAll (TableHolds memtable) (D.state disk.old file) builder →
        MatchResult result (IsWrittenTable (D.state disk.new) memtable file)
        (IsEnvironmental Disk Memory) }
    ensures line { IfOk result (IsNewLine file) }
    ensures causes { IfErr result IsEnd }
{
    if builder.len() == 0 {
        return Err(EngineError::Damaged);
    }
    match builder.finish(alloc, disk) {
        Ok(done) => finished_line(0, file, done).ok_or(EngineError::Damaged),
        Err(e) => Err(refusal_of(e)),
    }
}

/// Removes a file, if there is one. It is one device call.
pub fn remove_file<D: Disk>(disk: &mut D, file: u64) -> Result<(), EngineError>
    ensures writes { WritesInto D.Disk file disk.old disk.new (IsErrOf result Disk) ⊥ }
    ensures removed { D.is_honest disk.old →
        MatchResult result (λ _. IsNone (seen (D.state disk.new file)))
        (IsEnvironmental Disk Memory) }
    ensures causes { IfErr result IsEnd }
{
    match disk.remove(file) {
        Ok(()) | Err(DiskError::NoFile) => Ok(()),
        Err(e) => Err(EngineError::from(e)),
    }
}

/// Writes the entries of the memtable as a table of level 0 into a new file, and makes it durable.
/// Where the table would pass the limit of its data there is none, and the file is removed again.
pub fn write_table<D: Disk>(
    alloc: Global,
    disk: &mut D,
    file: u64,
    memtable: &Memtable,
) -> Result<Option<TableLine>, EngineError>
    requires works { HasFailedAdd memtable.now → ⊥ }
    requires some { HasEntry memtable.now }
    requires named { file ≤ MAX_NUMBER }
    ensures writes { WritesInto D.Disk file disk.old disk.new (IsErrOf result Disk)
        (D.is_honest disk.old × IsFresh (D.state disk.old file) [] → ⊥) }
    ensures written { D.is_honest disk.old → IsFresh (D.state disk.old file) [] →
        MatchResult result (λ line. MatchOption line
        (IsTooLarge memtable.now × IsNone (seen (D.state disk.new file)))
        (IsWrittenTable (D.state disk.new) memtable.now file)) (IsEnvironmental Disk Memory) }
    ensures line { MatchResult result
        (λ line. MatchOption line (IsTooLarge memtable.now) (IsNewLine file)) IsEnd }
{
    let mut builder = Builder::new(alloc, file);
    if add_memtable(alloc, disk, &mut builder, memtable)? {
        return Ok(Some(finish_table(alloc, disk, file, builder)?));
    }
    remove_file(disk, file)?;
    Ok(None)
}
