//! A cursor over a table.
ghost use Rattle.std.specs.Prelude.{◌≡◌, ◌≢◌, ◌<◌, None, IfOk, IfSome, Err};
ghost use Rattle.std.specs.Prelude.{◌↔◌, IsSomeAnd, IsTrue, OnOk, false, length};
ghost use Rattle.std.specs.declared.cmp.Ordering.TheVariants.{Less};
ghost use Rattle.std.specs.Option.{ForSome};
ghost use Rattle.std.specs.Rc.{rc_slice_items};
ghost use Rattle.disk.specs.{Slot, State};
ghost use Rattle.byte_fields.specs.{lent_key, stored_cmp};
ghost use Rattle.sorted_table.specs.MovedFiles.{MovesFiles};
ghost use Rattle.table_files.specs.{KeepsFiles};
ghost use Rattle.sorted_table.specs.LineSizes.{IsBounded};
ghost use Rattle.sorted_table.specs.Meant.{AreAsMeant};
ghost use Rattle.sorted_table.specs.Open.{last_line_key};
ghost use Rattle.sorted_table.specs.Searches.{EndsBefore};
ghost use Rattle.sorted_table.specs.TableCursors.{HasEntered, HasLines, HasReached, IsPlaceIn};
ghost use Rattle.sorted_table.specs.TableCursors.{move_error};
ghost use Rattle.sorted_table.specs.TableReads.{EntersBlock, ReadsDisk};

use crate::block_place::BlockPlace;
use crate::line_block::block_of_line;
use crate::lines::line_place;
use byte_fields::{Format, LentKey};
use disk::Disk;
use merge_iter::{Cursor, CursorError, Direction};
use std::alloc::Global;
use std::marker::PhantomData;
use std::rc::RcSlice;
use table_files::CachedDisk;
use table_format::{FileError, IndexLine};

// How a cursor reports an error of a table.
fn cursor_error(e: FileError) -> CursorError
    ensures { result ≡ move_error e }
{
    match e {
        FileError::Disk => CursorError::Disk,
        FileError::Memory => CursorError::Memory,
        FileError::Damaged => CursorError::Damaged,
    }
}

// The first entry of the block of a line.
fn first_of<D: Disk + Drop>(
    alloc: Global,
    files: &mut CachedDisk<D>,
    file: u64,
    format: Format,
    lines: &RcSlice<IndexLine>,
    line: usize,
) -> Result<BlockPlace, FileError>
    requires { line < length (rc_slice_items lines.now) }
    ensures device { ReadsDisk ⟦<CachedDisk<D> as Disk>⟧ files.old files.new result }
    ensures first { IfOk result (λ place. (place.line ≡ line) × (place.at ≡ 0)
        × IsBounded (rc_slice_items lines.now) place) }
    ensures reads { (meant : Slot) → ⟦<CachedDisk<D> as Disk>⟧.is_honest files.old →
        AreAsMeant format (⟦<CachedDisk<D> as Disk>⟧.state files.old file) meant
        (rc_slice_items lines.now) → (table : HasLines format meant (rc_slice_items lines.now)) →
        IfOk result (IsPlaceIn table.represents.blocks) }
    ensures damaged { result ≡ Err FileError.Damaged →
        ⟦<CachedDisk<D> as Disk>⟧.is_honest files.old →
        HasLines format (⟦<CachedDisk<D> as Disk>⟧.state files.old file)
        (rc_slice_items lines.now) → ⊥ }
{
    let block = block_of_line(alloc, files, file, format, lines, line)?;
    BlockPlace::new(line, block).ok_or(FileError::Damaged)
}

/// A cursor over the entries of a table. It shares the lines of the index with its table, and
/// keeps one block.
#[derive(Drop)]
pub struct TableCursor<D> {
    alloc: Global,
    file: u64,
    format: Format,
    lines: RcSlice<IndexLine>,
    place: Option<BlockPlace>,
    has_failed: bool,
    of: PhantomData<D>,
    ghost bounded: { ForSome place (IsBounded (rc_slice_items lines)) },
}

impl<D: Disk + Drop> TableCursor<D> {
    /// A cursor over the table of a file that has this format and these lines. It stands on none.
    pub(crate) fn new(
        alloc: Global,
        file: u64,
        format: Format,
        lines: RcSlice<IndexLine>,
    ) -> TableCursor<D>
        ensures table { (result.file ≡ file) × (result.lines ≡ lines) × (result.format ≡ format) }
        ensures off { (result.place ≡ None) × (result.has_failed ≡ false) }
    {
        TableCursor {
            alloc,
            file,
            format,
            lines,
            place: None,
            has_failed: false,
            of: PhantomData,
        }
    }

    /// Whether the table has entries, and the keys of all of them come before this one, by the
    /// last line of the index. No block is read.
    pub fn ends_before(&self, key: LentKey) -> bool
        ensures line { IsTrue result ↔ IsSomeAnd (last_line_key (rc_slice_items self.now.lines))
            (λ last. stored_cmp last (lent_key key.entry) ≡ Less) }
        ensures serves { (meant : State) (files : _) → IsTrue result →
            ⟦<TableCursor<D> as Cursor>⟧.is_sound meant self.now files → EndsBefore
            (⟦<TableCursor<D> as Cursor>⟧.holds meant self.now files) (lent_key key.entry) }
    {
        match self.lines.last() {
            Some(last) => last.key.lent().cmp(key).is_lt(),
            None => false,
        }
    }

    // Whether the cursor stands in the block of this line.
    fn has_block(&self, line: usize) -> bool
        ensures { IsTrue result → IfSome self.now.place (λ place. place.line ≡ line)
            × (self.now.place ≢ None) }
    {
        match &self.place {
            Some(place) => place.line() == line,
            None => false,
        }
    }

    // Enters the block of a line, if there is such a line, by its first entry in this direction.
    fn enter(
        &mut self,
        files: &mut CachedDisk<D>,
        line: usize,
        way: Direction,
    ) -> Result<(), CursorError>
        ensures table { (self.new.file ≡ self.old.file) × (self.new.lines ≡ self.old.lines)
            × (self.new.format ≡ self.old.format) }
        ensures moved { EntersBlock ⟦<CachedDisk<D> as Disk>⟧ self.old.file
            self.old.format (rc_slice_items self.old.lines) files.old files.new self.new.place
            self.new.has_failed result }
        ensures entered { OnOk result ((self.new.has_failed ≡ false)
            × HasEntered (rc_slice_items self.old.lines) line way self.new.place) }
        ensures reads { (meant : Slot) → ⟦<CachedDisk<D> as Disk>⟧.is_honest files.old →
            AreAsMeant self.old.format (⟦<CachedDisk<D> as Disk>⟧.state files.old self.old.file)
            meant (rc_slice_items self.old.lines) →
            (table : HasLines self.old.format meant (rc_slice_items self.old.lines)) →
            OnOk result (IfSome self.new.place (IsPlaceIn table.represents.blocks)) }
    {
        self.place = None;
        self.has_failed = true;
        if line >= self.lines.len() {
            self.has_failed = false;
            return Ok(());
        }
        match first_of(self.alloc, files, self.file, self.format, &self.lines, line) {
            Ok(place) => {
                self.place = Some(place.at_end(way));
                self.has_failed = false;
                Ok(())
            }
            Err(e) => Err(cursor_error(e)),
        }
    }

    // Enters the block of a line, if there is such a line, unless the cursor stands in it.
    fn reach(&mut self, files: &mut CachedDisk<D>, line: usize) -> Result<(), CursorError>
        ensures table { (self.new.file ≡ self.old.file) × (self.new.lines ≡ self.old.lines)
            × (self.new.format ≡ self.old.format) }
        ensures moved { EntersBlock ⟦<CachedDisk<D> as Disk>⟧ self.old.file
            self.old.format (rc_slice_items self.old.lines) files.old files.new self.new.place
            self.new.has_failed result }
        ensures reached { OnOk result (HasReached (rc_slice_items self.old.lines) line
            self.new.has_failed self.new.place) }
        ensures reads { (meant : Slot) → ⟦<CachedDisk<D> as Disk>⟧.is_honest files.old →
            AreAsMeant self.old.format (⟦<CachedDisk<D> as Disk>⟧.state files.old self.old.file)
            meant (rc_slice_items self.old.lines) →
            (table : HasLines self.old.format meant (rc_slice_items self.old.lines)) →
            IfSome self.old.place (IsPlaceIn table.represents.blocks) →
            OnOk result (IfSome self.new.place (IsPlaceIn table.represents.blocks)) }
    {
        if self.has_block(line) {
            return Ok(());
        }
        self.enter(files, line, Direction::Forward)
    }
}

impl<D: Disk + Drop> Cursor for TableCursor<D> {
    ghost use Rattle.sorted_table.specs.LineSizes.{blocks_size, steps_left};
    ghost use Rattle.sorted_table.specs.TableCursors.{FileHolds, table_position};
    ghost use Rattle.sorted_table.specs.TableCursorLaws.{AreIntactFiles, FileSuits};
    ghost use Rattle.sorted_table.specs.TableCursorLaws.{ServesMeant, table_fits, table_laws};

    type Source = CachedDisk<D>;

    ghost position = { λ c. table_position c.has_failed c.place };

    ghost Meant = { State };

    ghost as_is = { ⟦<CachedDisk<D> as Disk>⟧.state };

    ghost is_intact = { AreIntactFiles ⟦<CachedDisk<D> as Disk>⟧ };

    ghost holds = { λ meant c files. FileHolds (meant c.file) };

    ghost is_sound = { ServesMeant ⟦<CachedDisk<D> as Disk>⟧ (λ c. c.file)
        (λ c. c.format) (λ c. rc_slice_items c.lines) (λ c. c.place) };

    ghost keeps = { KeepsFiles ⟦<CachedDisk<D> as Disk>⟧ };

    ghost suits = { FileSuits ⟦<CachedDisk<D> as Disk>⟧ (λ c. c.file) (λ c. c.format)
        (λ c. rc_slice_items c.lines)
        (λ c. c.place) };

    ghost makes = { MovesFiles ⟦<CachedDisk<D> as Disk>⟧ };

    ghost failures = { ⟦<CachedDisk<D> as Disk>⟧.failures };

    ghost left = { λ c. steps_left (rc_slice_items c.lines) c.place };

    ghost most = { λ c. blocks_size (rc_slice_items c.lines) };

    ghost steps_allocate = { Unit {0} };

    ghost seeks_allocate = { Unit {0} };

    #[inline(always)]
    fn valid(&self) -> bool {
        self.place.is_some()
    }

    #[inline(always)]
    fn key(&self) -> LentKey<'_> {
        match &self.place {
            Some(place) => place.entry().key,
            None => unreachable!(),
        }
    }

    #[inline(always)]
    fn number(&self) -> u64 {
        match &self.place {
            Some(place) => place.entry().number,
            None => unreachable!(),
        }
    }

    #[inline(always)]
    fn value(&self) -> Option<&[u8]> {
        match &self.place {
            Some(place) => place.entry().value,
            None => unreachable!(),
        }
    }

    fn next(&mut self, files: &mut CachedDisk<D>) -> Result<(), CursorError> {
        let Some(place) = &mut self.place else {
            return Err(CursorError::Failed);
        };
        if place.advance() {
            return Ok(());
        }
        let line = place.line() + 1;
        self.enter(files, line, Direction::Forward)
    }

    fn prev(&mut self, files: &mut CachedDisk<D>) -> Result<(), CursorError> {
        let Some(place) = &mut self.place else {
            return Err(CursorError::Failed);
        };
        if place.retreat() {
            return Ok(());
        }
        let line = place.line();
        if line == 0 {
            self.place = None;
            self.has_failed = false;
            return Ok(());
        }
        self.enter(files, line - 1, Direction::Backward)
    }

    fn seek(
        &mut self,
        files: &mut CachedDisk<D>,
        key: LentKey<'_>,
        number: u64,
    ) -> Result<(), CursorError> {
        let line = line_place(&self.lines, key, number);
        self.reach(files, line)?;
        let Some(place) = &mut self.place else {
            return Ok(());
        };
        // The last entry of the block is not before them, since its line is not.
        place.seek(key, number);
        Ok(())
    }

    fn first(&mut self, files: &mut CachedDisk<D>) -> Result<(), CursorError> {
        self.enter(files, 0, Direction::Forward)
    }

    fn last(&mut self, files: &mut CachedDisk<D>) -> Result<(), CursorError> {
        let line = self.lines.len().saturating_sub(1);
        self.enter(files, line, Direction::Backward)
    }

    ghost laws = { table_laws ⟦<CachedDisk<D> as Disk>⟧ (λ c. c.file) (λ c. c.format)
        (λ c. rc_slice_items c.lines)
        (λ c. c.place) (λ c. c.bounded) };

    ghost fits = { λ c. table_fits c.has_failed c.place };
}
