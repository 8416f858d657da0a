//! A cursor over the entries of a memtable or of tables.
ghost use Rattle.std.specs.Prelude.{◌≡◌, IfOk, MatchResult};
ghost use Rattle.disk.specs.{State};
ghost use Rattle.memtable.specs.{HasFailedAdd, TableHolds};
ghost use Rattle.merge_iter.specs.{AreSound, EachChild, IsAlike, Off, union_of};
ghost use Rattle.store_cursors.specs.Concatenation.{AreConcatenated};
ghost use Rattle.store_cursors.specs.StoreCursors.{HasEntries};

use crate::concatenated::Concatenated;
use byte_fields::LentKey;
use disk::Disk;
use memtable::{MemCursor, Memtable, MemtableError};
use merge_iter::{Cursor, CursorError};
use sorted_table::{CachedDisk, TableCursor};

/// A cursor over a memtable or over tables. The source of both is the files of the disk: a cursor
/// over a memtable reads nothing of them and leaves them as they are.
///
/// What a step of a walk asks is inlined, since a union asks it several times.
#[derive(Drop)]
pub enum StoreCursor<'a, D> {
    /// Over a memtable.
    Memory(MemCursor<'a>),
    /// Over tables of files, one after another in order of key.
    Tables(Concatenated<TableCursor<D>>),
}

impl<'a, D: Disk + Drop> StoreCursor<'a, D> {
    /// A cursor over all entries of a memtable. It stands on none, and any files serve it.
    pub fn of_memtable(memtable: &'a Memtable) -> Result<StoreCursor<'a, D>, MemtableError>
        ensures off { IfOk result (λ cursor.
            ⟦<StoreCursor<'a, D> as Cursor>⟧.position cursor ≡ Off) }
        ensures serves { IfOk result (λ cursor. (meant : State) (files : _) → HasEntries
            ⟦<StoreCursor<'a, D> as Cursor>⟧ meant files cursor (TableHolds memtable.now)) }
        ensures suits { IfOk result (λ cursor. (a b : _) →
            ⟦<StoreCursor<'a, D> as Cursor>⟧.suits cursor a b) }
        ensures failed { MatchResult result (λ _. HasFailedAdd memtable.now → ⊥)
            (λ e. (e ≡ MemtableError.Failed) × HasFailedAdd memtable.now) }
    {
        Ok(StoreCursor::Memory(memtable.cursor()?))
    }

    /// A cursor over all entries of tables, one after another in order of key, of which these are
    /// cursors. It stands on none.
    pub fn of_tables(tables: Vec<TableCursor<D>>) -> StoreCursor<'a, D>
        ensures off { ⟦<StoreCursor<'a, D> as Cursor>⟧.position result ≡ Off }
        ensures sound { (meant : State) (files : _) →
            AreSound ⟦<TableCursor<D> as Cursor>⟧ meant tables.items files →
            AreConcatenated (λ c. ⟦<TableCursor<D> as Cursor>⟧.holds meant c files)
            tables.items → ⟦<StoreCursor<'a, D> as Cursor>⟧.is_sound meant result files }
        ensures entries { (meant : State) (files : _) →
            IsAlike (⟦<StoreCursor<'a, D> as Cursor>⟧.holds meant result files)
            (union_of ⟦<TableCursor<D> as Cursor>⟧ meant tables.items files) }
        ensures suits { (a b : _) →
            EachChild (λ c. ⟦<TableCursor<D> as Cursor>⟧.suits c a b) tables.items →
            ⟦<StoreCursor<'a, D> as Cursor>⟧.suits result a b }
    {
        StoreCursor::Tables(Concatenated::new(tables))
    }
}

impl<'a, D: Disk + Drop> Cursor for StoreCursor<'a, D> {
    ghost use Rattle.std.specs.Rc.{rc_slice_items};
    ghost use Rattle.memtable.specs.CursorLaws.{cursor_fits, cursor_laws};
    ghost use Rattle.sorted_table.specs.TableCursorLaws.{table_fits, table_laws};
    ghost use Rattle.store_cursors.specs.ConcatenationLaws.{concatenated_fits, concatenated_laws};
    ghost use Rattle.store_cursors.specs.StoreCursors.{StoreCursorHolds, StoreCursorIsSound};
    ghost use Rattle.store_cursors.specs.StoreCursors.{StoreCursorSuits, store_left, store_most};
    ghost use Rattle.store_cursors.specs.StoreCursors.{store_position};
    ghost use Rattle.store_cursors.specs.StoreCursorLaws.{store_fits, store_laws};

    type Source = CachedDisk<D>;

    ghost position = { store_position ⟦<MemCursor<'a> as Cursor>⟧
        ⟦<Concatenated<TableCursor<D>> as Cursor>⟧ };

    ghost Meant = { State };

    ghost as_is = { ⟦<Concatenated<TableCursor<D>> as Cursor>⟧.as_is };

    ghost is_intact = { ⟦<Concatenated<TableCursor<D>> as Cursor>⟧.is_intact };

    ghost holds = { StoreCursorHolds ⟦<MemCursor<'a> as Cursor>⟧
        ⟦<Concatenated<TableCursor<D>> as Cursor>⟧ };

    ghost is_sound = { StoreCursorIsSound ⟦<MemCursor<'a> as Cursor>⟧
        ⟦<Concatenated<TableCursor<D>> as Cursor>⟧ };

    ghost keeps = { ⟦<Concatenated<TableCursor<D>> as Cursor>⟧.keeps };

    ghost suits = { StoreCursorSuits ⟦<MemCursor<'a> as Cursor>⟧
        ⟦<Concatenated<TableCursor<D>> as Cursor>⟧ };

    ghost makes = { ⟦<Concatenated<TableCursor<D>> as Cursor>⟧.makes };

    ghost failures = { ⟦<Concatenated<TableCursor<D>> as Cursor>⟧.failures };

    ghost left = { store_left ⟦<MemCursor<'a> as Cursor>⟧
        ⟦<Concatenated<TableCursor<D>> as Cursor>⟧ };

    ghost most = { store_most ⟦<MemCursor<'a> as Cursor>⟧
        ⟦<Concatenated<TableCursor<D>> as Cursor>⟧ };

    ghost steps_allocate = { ⟦<Concatenated<TableCursor<D>> as Cursor>⟧.steps_allocate };

    ghost seeks_allocate = { ⟦<Concatenated<TableCursor<D>> as Cursor>⟧.seeks_allocate };

    #[inline(always)]
    fn valid(&self) -> bool {
        match self {
            StoreCursor::Memory(cursor) => cursor.valid(),
            StoreCursor::Tables(cursor) => cursor.valid(),
        }
    }

    #[inline(always)]
    fn key(&self) -> LentKey<'_> {
        match self {
            StoreCursor::Memory(cursor) => cursor.key(),
            StoreCursor::Tables(cursor) => cursor.key(),
        }
    }

    #[inline(always)]
    fn number(&self) -> u64 {
        match self {
            StoreCursor::Memory(cursor) => cursor.number(),
            StoreCursor::Tables(cursor) => cursor.number(),
        }
    }

    #[inline(always)]
    fn value(&self) -> Option<&[u8]> {
        match self {
            StoreCursor::Memory(cursor) => cursor.value(),
            StoreCursor::Tables(cursor) => cursor.value(),
        }
    }

    #[inline(always)]
    fn next(&mut self, files: &mut CachedDisk<D>) -> Result<(), CursorError> {
        match self {
            StoreCursor::Memory(cursor) => cursor.next(&mut ()),
            StoreCursor::Tables(cursor) => cursor.next(files),
        }
    }

    #[inline(always)]
    fn prev(&mut self, files: &mut CachedDisk<D>) -> Result<(), CursorError> {
        match self {
            StoreCursor::Memory(cursor) => cursor.prev(&mut ()),
            StoreCursor::Tables(cursor) => cursor.prev(files),
        }
    }

    fn seek(
        &mut self,
        files: &mut CachedDisk<D>,
        key: LentKey<'_>,
        number: u64,
    ) -> Result<(), CursorError> {
        match self {
            StoreCursor::Memory(cursor) => cursor.seek(&mut (), key, number),
            StoreCursor::Tables(cursor) => cursor.seek(files, key, number),
        }
    }

    fn first(&mut self, files: &mut CachedDisk<D>) -> Result<(), CursorError> {
        match self {
            StoreCursor::Memory(cursor) => cursor.first(&mut ()),
            StoreCursor::Tables(cursor) => cursor.first(files),
        }
    }

    fn last(&mut self, files: &mut CachedDisk<D>) -> Result<(), CursorError> {
        match self {
            StoreCursor::Memory(cursor) => cursor.last(&mut ()),
            StoreCursor::Tables(cursor) => cursor.last(files),
        }
    }

    ghost laws = { store_laws ⟦<MemCursor<'a> as Cursor>⟧
        ⟦<Concatenated<TableCursor<D>> as Cursor>⟧ cursor_laws
        (concatenated_laws ⟦<TableCursor<D> as Cursor>⟧.holds
        ⟦<TableCursor<D> as Cursor>⟧.is_sound ⟦<TableCursor<D> as Cursor>⟧.suits
        ⟦<TableCursor<D> as Cursor>⟧.keeps ⟦<TableCursor<D> as Cursor>⟧.most
        ⟦<TableCursor<D> as Cursor>⟧.left ⟦<TableCursor<D> as Cursor>⟧.position
        (table_laws ⟦<CachedDisk<D> as Disk>⟧ (λ c. c.file) (λ c. c.format)
        (λ c. rc_slice_items c.lines) (λ c. c.place) (λ c. c.bounded))
        (λ m. m.children.items) (λ m. m.place)) };

    ghost fits = { store_fits ⟦<MemCursor<'a> as Cursor>⟧
        ⟦<Concatenated<TableCursor<D>> as Cursor>⟧ cursor_fits
        (λ m. concatenated_fits ⟦<TableCursor<D> as Cursor>⟧.position
        (λ c. table_fits c.has_failed c.place) m.children.items m.place) };
}
