// The walk over the inputs of a merge.
ghost use Rattle.std.specs.Prelude.{◌≡◌, ◌≤◌, ◌⊎◌, ℕ, OnOk};
ghost use Rattle.merge_iter.specs.{AreCursorLaws, IfOn, IsOn};
ghost use Rattle.table_format.specs.{IsTableEntry, lent_entry};
ghost use Rattle.version_edits.specs.declared.line.TheConstants.{MAX_LINES};
ghost use Rattle.compaction.specs.Walks.{AdvancesWalk};

use crate::error::MergeError;
use crate::writer::OutputWriter;
use disk::Disk;
use merge_iter::{Cursor, Merged};
use sorted_table::TableCursor;
use std::alloc::Global;
use table_files::CachedDisk;
use table_format::LentEntry;
use version_edits::MAX_LINES;

// What all cursors of a kind have in common.
// law: of `Cursor`
pub(crate) fn are_lawful<C: Cursor>()
    ensures { AreCursorLaws C.as_is C.is_intact C.holds C.is_sound C.suits C.keeps C.makes C.left
        C.most }
{}

// An entry on which a cursor stands keeps the limits of a table's entry.
// law: of `Cursor`
fn entries_fit<C: Cursor>(cursor: &C)
    ensures { IfOn (C.position cursor.now) IsTableEntry }
{}

// The entry that a cursor stands on.
fn entry_at<C: Cursor>(cursor: &C) -> LentEntry<'_>
    requires { IsOn (C.position cursor.now) }
    ensures is { IfOn (C.position cursor.now) (λ entry. lent_entry result ≡ entry) }
    ensures fits { IsTableEntry (lent_entry result) }
{
    entries_fit(cursor); // law: it keeps the limits of a table's entry
    LentEntry {
        key: cursor.key(),
        number: cursor.number(),
        value: cursor.value(),
    }
}

// The entry of the inputs that the union stands on comes to the writer.
fn write_next<D: Disk + Drop>(
    alloc: Global,
    files: &mut CachedDisk<D>,
    union: &mut Merged<TableCursor<D>>,
    writer: &mut OutputWriter,
    tables: usize,
    next_file: &mut u64,
) -> Result<(), MergeError>
    requires on { IsOn (⟦<Merged<TableCursor<D>> as Cursor>⟧.position union.old) }
    requires few { tables ≤ MAX_LINES }
    ensures { AdvancesWalk ⟦<Merged<TableCursor<D>> as Cursor>⟧ ⟦<CachedDisk<D> as Disk>⟧ tables 1
        files.old next_file.old union.old writer.old files.new next_file.new union.new writer.new
        result }
{
    are_lawful::<Merged<TableCursor<D>>>(); // law: what suits a union leaves it sound
    writer.put(alloc, files, entry_at(union), tables, next_file)?;
    union.next(files)?;
    Ok(())
}

/// The next entries of the inputs come to the writer: so many, or all that are left. The version
/// has so many tables.
pub(crate) fn write_some<D: Disk + Drop>(
    alloc: Global,
    files: &mut CachedDisk<D>,
    union: &mut Merged<TableCursor<D>>,
    writer: &mut OutputWriter,
    count: usize,
    tables: usize,
    next_file: &mut u64,
) -> Result<(), MergeError>
    requires { tables ≤ MAX_LINES }
    ensures { (steps : ℕ) × (steps ≤ count) × AdvancesWalk ⟦<Merged<TableCursor<D>> as Cursor>⟧
        ⟦<CachedDisk<D> as Disk>⟧ tables steps files.old next_file.old union.old writer.old
        files.new next_file.new union.new writer.new result × OnOk result ((steps ≡ count)
        ⊎ (IsOn (⟦<Merged<TableCursor<D>> as Cursor>⟧.position union.new) → ⊥)) }
{
    let mut left = count;
    while left > 0 && union.valid() {
        write_next(alloc, files, union, writer, tables, next_file)?;
        left -= 1;
    }
    Ok(())
}
