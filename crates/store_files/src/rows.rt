//! Reads of rows, through cursors over memory and tables.
ghost use Rattle.std.specs.Prelude.{◌≡◌, ◌≤◌, List, take, All, IfErr, IfOk, IsErrOf};
ghost use Rattle.kv_types.specs.Pages.{page_of};
ghost use Rattle.kv_types.specs.{BatchContent, map_of, stored_span};
ghost use Rattle.disk.specs.{IsEnvironmental, IsSame, State};
ghost use Rattle.row_pages.specs.{HasRowsOf};
ghost use Rattle.store_tables.specs.declared.error.EngineError.TheVariants.{Damaged, Disk, Memory};
ghost use Rattle.store_tables.specs.LevelTables.{HasMeantBlocks};
ghost use Rattle.store_tables.specs.RangeReads.{AreIntactIn, OneIsDamagedIn};
ghost use Rattle.store_files.specs.OpenFiles.{AreUsableFiles, FilesHold};
ghost use Rattle.store_files.specs.OpenFiles.{IfHeld, IfMeant, batch_count, known_facts};
ghost use Rattle.store_files.specs.OpenFiles.{known_version};
ghost use Rattle.batch_logs.specs.Reads.{OnlyReads};

use crate::{EngineError, StoreFiles};
use disk::Disk;
use kv_types::laws::{pages_agree, rows_are_stored};
use kv_types::{Number, Page, Range};
use merge_iter::Cursor;
use row_pages::read_page;
use std::alloc::{AllocError, Global};
use store_cursors::{StoreCursor, StoreRows, rows_at};
use store_tables::laws::versions_name_own_files;
use table_files::CachedDisk;

impl StoreFiles {
    // The rows of the map of the first `at` batches, of keys in the range: what the memory and the
    // tables whose keys meet the range show at the number.
    fn rows_in<'a, D: Disk + Drop>(
        &'a self,
        alloc: Global,
        at: Number,
        range: &Range,
    ) -> Result<StoreRows<'a, D>, AllocError>
        requires { AreUsableFiles self.now }
        ensures shows { IfOk result (λ rows. (meant : State) (files : _)
            (list : List BatchContent) → ⟦<CachedDisk<D> as Disk>⟧.is_honest files →
            FilesHold meant self.now list →
            All (HasMeantBlocks (⟦<CachedDisk<D> as Disk>⟧.state files) meant)
            self.now.tables.tables.items → (known_facts self.now).floor ≤ at →
            at ≤ batch_count self.now → ⟦<StoreRows<'a, D> as Cursor>⟧.is_sound meant rows files
            × HasRowsOf (map_of (take at list)) range.now
            (⟦<StoreRows<'a, D> as Cursor>⟧.holds meant rows files)) }
        ensures intact { IfOk result (λ rows. (meant : State) (files : _)
            (list : List BatchContent) → ⟦<CachedDisk<D> as Disk>⟧.is_honest files →
            FilesHold meant self.now list →
            AreIntactIn (stored_span range.now) (⟦<CachedDisk<D> as Disk>⟧.state files) meant
            (known_version self.now).version.tables → ⟦<StoreRows<'a, D> as Cursor>⟧.is_sound
            (⟦<CachedDisk<D> as Disk>⟧.state files) rows files) }
    {
        versions_name_own_files(); // law: no two tables have one file
        rows_are_stored(); // law: what batches leave at the keys of rows is what their map has
        let mut cursors = self.tables.cursors(alloc, range)?;
        cursors.push(StoreCursor::of_memtable(&self.memtable).unwrap())?;
        Ok(rows_at(alloc, cursors, at))
    }

    /// The page of a range in the map of the first `at` batches. Its walk passes hidden entries
    /// between its rows, and ends on the next row that is shown, also beyond the range; backward
    /// with a bound it begins with a seek forward. `Damaged` only where a block of a table is
    /// damaged whose keys meet the range.
    pub fn rows<D: Disk + Drop>(
        &self,
        alloc: Global,
        files: &mut CachedDisk<D>,
        at: Number,
        range: &Range,
    ) -> Result<Page, EngineError>
        requires usable { AreUsableFiles self.now }
        ensures reads { OnlyReads ⟦<CachedDisk<D> as Disk>⟧ files.old files.new IsSame result }
        ensures found { IfMeant ⟦<CachedDisk<D> as Disk>⟧ files.old self.now (λ list.
            (known_facts self.now).floor ≤ at → at ≤ batch_count self.now →
            IfOk result (λ page. page ≡ page_of (take at list) range.now)) }
        ensures intact { IfHeld ⟦<CachedDisk<D> as Disk>⟧ files.old self.now (λ list.
            (known_facts self.now).floor ≤ at → at ≤ batch_count self.now →
            IfErr result (IsEnvironmental Disk Memory)) }
        ensures damaged { IfMeant ⟦<CachedDisk<D> as Disk>⟧ files.old self.now (λ _.
            IsErrOf result Damaged →
            OneIsDamagedIn (stored_span range.now) (⟦<CachedDisk<D> as Disk>⟧.state files.old)
            (known_version self.now).version.tables) }
    {
        pages_agree(); // law: a map has one page in a range
        let mut rows = self.rows_in(alloc, at, range)?;
        match read_page(alloc, &mut rows, files, range) {
            Ok(page) => Ok(page),
            Err(e) => Err(EngineError::from(e)),
        }
    }
}
