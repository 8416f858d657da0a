//! Cursors over tables in order: one for each series of tables, whose keys come one after another.
ghost use Rattle.std.specs.Prelude.{◌≡◌, ◌++◌, List, [], ◌∷◌, IfOk, IsTrue, OnOk};
ghost use Rattle.disk.specs.{State};
ghost use Rattle.merge_iter.specs.{AreSound};
ghost use Rattle.store_cursors.specs.Concatenation.{AreConcatenated};
ghost use Rattle.store_model.specs.{LevelTable};
ghost use Rattle.store_tables.specs.RangeReads.{HasTable};
ghost use Rattle.store_tables.specs.TableSeries.{AllPrecede, AreOver, AreSeries, EndsSeries};

use byte_fields::StoredKey;
use disk::Disk;
use merge_iter::Cursor;
use sorted_table::TableCursor;
use std::alloc::{AllocError, Global};
use std::mem::replace;
use store_cursors::StoreCursor;

// Whether all tables of a series, of which these are cursors, end before the key.
fn end_before<D: Disk + Drop>(series: &Vec<TableCursor<D>>, key: &StoredKey) -> bool
    ensures { (meant : State) (files : _) → IsTrue result →
        AreSound ⟦<TableCursor<D> as Cursor>⟧ meant series.now.items files →
        AreConcatenated (λ c. ⟦<TableCursor<D> as Cursor>⟧.holds meant c files) series.now.items →
        AllPrecede ⟦<TableCursor<D> as Cursor>⟧ meant files series.now.items key.now }
{
    match series.last() {
        Some(last) => last.ends_before(key.lent()),
        None => true,
    }
}

/// Cursors over the tables that were added: of the series that have ended, one over each, and those
/// of the last one.
#[derive(Drop)]
pub(crate) struct TableSeries<'a, D> {
    ended: Vec<StoreCursor<'a, D>>,
    last: Vec<TableCursor<D>>,
}

impl<'a, D: Disk + Drop> TableSeries<'a, D> {
    /// Cursors over no tables.
    pub(crate) fn new(alloc: Global) -> TableSeries<'a, D>
        ensures { (meant : State) (files : _) → AreSeries ⟦<StoreCursor<'a, D> as Cursor>⟧
            ⟦<TableCursor<D> as Cursor>⟧ meant meant files result.ended.items result.last.items [] }
    {
        TableSeries {
            ended: Vec::new(alloc),
            last: Vec::new(alloc),
        }
    }

    // Ends the last series: what is added next begins another.
    fn end_last(&mut self, alloc: Global) -> Result<(), AllocError>
        ensures none { OnOk result (self.new.last.items ≡ []) }
        ensures through { OnOk result ((meant : State) (files : _) (tables : List LevelTable) →
            AreSeries ⟦<StoreCursor<'a, D> as Cursor>⟧ ⟦<TableCursor<D> as Cursor>⟧ meant meant
            files
            self.old.ended.items self.old.last.items tables →
            AreOver ⟦<StoreCursor<'a, D> as Cursor>⟧ meant files self.new.ended.items tables) }
    {
        let last = replace(&mut self.last, Vec::new(alloc));
        self.ended.push(StoreCursor::of_tables(last))?;
        Ok(())
    }

    // Ends the last series, unless it ends before the key.
    fn turn_to(&mut self, alloc: Global, key: &StoredKey) -> Result<(), AllocError>
        ensures { OnOk result ((meant : State) (files : _) (tables : List LevelTable) →
            AreSeries ⟦<StoreCursor<'a, D> as Cursor>⟧ ⟦<TableCursor<D> as Cursor>⟧ meant meant
            files
            self.old.ended.items self.old.last.items tables →
            EndsSeries ⟦<StoreCursor<'a, D> as Cursor>⟧ ⟦<TableCursor<D> as Cursor>⟧ meant meant
            files
            self.new.ended.items self.new.last.items tables key.now) }
    {
        if end_before(&self.last, key) {
            return Ok(());
        }
        self.end_last(alloc)
    }

    /// Adds a table with this least key, by a cursor over it.
    pub(crate) fn add(
        &mut self,
        alloc: Global,
        table: TableCursor<D>,
        least: &StoredKey,
    ) -> Result<(), AllocError>
        ensures { OnOk result ((meant : State) (files : _) (tables : List LevelTable)
            (added : LevelTable) → AreSeries ⟦<StoreCursor<'a, D> as Cursor>⟧
            ⟦<TableCursor<D> as Cursor>⟧ meant meant files self.old.ended.items self.old.last.items
            tables → HasTable ⟦<TableCursor<D> as Cursor>⟧ meant files table added →
            added.range.least ≡ least.now →
            AreSeries ⟦<StoreCursor<'a, D> as Cursor>⟧ ⟦<TableCursor<D> as Cursor>⟧ meant meant
            files
            self.new.ended.items self.new.last.items (tables ++ added ∷ [])) }
    {
        self.turn_to(alloc, least)?;
        self.last.push(table)?;
        Ok(())
    }

    /// One cursor for each series.
    pub(crate) fn finish(self) -> Result<Vec<StoreCursor<'a, D>>, AllocError>
        ensures { IfOk result (λ cursors. (meant : State) (files : _)
            (tables : List LevelTable) → AreSeries ⟦<StoreCursor<'a, D> as Cursor>⟧
            ⟦<TableCursor<D> as Cursor>⟧ meant meant files self.entry.ended.items
            self.entry.last.items tables →
            AreOver ⟦<StoreCursor<'a, D> as Cursor>⟧ meant files cursors.items tables) }
    {
        let TableSeries { mut ended, last } = self;
        if last.is_empty() {
            return Ok(ended);
        }
        ended.push(StoreCursor::of_tables(last))?;
        Ok(ended)
    }
}
