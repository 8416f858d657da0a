//! Open tables.
ghost use Rattle.std.specs.Prelude.{◌≡◌, ◌↔◌, List, IfOk, IsTrue, MatchResult, Contains};
ghost use Rattle.std.specs.Prelude.{IsErrOf, option_map};
ghost use Rattle.bloom.specs.{CoversHashed, hashes_of};
ghost use Rattle.disk.specs.{IsEnvironmental, IsSame, IsStill, KeepsDisk, Slot, State};
ghost use Rattle.byte_fields.specs.{lent_key};
ghost use Rattle.kv_types.specs.{Entry};
ghost use Rattle.merge_iter.specs.{IsAlike, Off};
ghost use Rattle.disk.specs.{CallsAtMost};
ghost use Rattle.table_format.specs.{filter_key};
ghost use Rattle.table_format.specs.declared.FileError.TheVariants.{Disk, Memory};

use crate::block::find_in;
use crate::found::FoundVersion;
use crate::line_block::block_of_line;
use crate::lines::line_place;
use crate::table_cursor::TableCursor;
use crate::tail::{parts_of, read_tail};
use bloom::laws::filters_cover;
use bloom::{KeyHashes, may_hold_hashed};
use byte_fields::{Format, LentKey, StoredKey};
use disk::Disk;
use merge_iter::Cursor;
use std::alloc::{AllocError, Global};
use std::rc::RcSlice;
use table_files::CachedDisk;
use table_format::{FileError, IndexLine};

/// The hashes of a key in the filters of tables of the format.
pub fn hashes_in(format: Format, key: LentKey) -> KeyHashes
    ensures { result ≡ hashes_of (filter_key format (lent_key key.entry)) }
{
    match format {
        Format::One => KeyHashes::of(key.as_bytes()),
        Format::Two => KeyHashes::of_stored(key),
    }
}

/// An open table. It keeps the lines of the index and the filter, and no block. Cursors share the
/// lines.
#[derive(Drop)]
pub struct Table {
    file: u64,
    format: Format,
    lines: RcSlice<IndexLine>,
    filter: Vec<u8>,
}

impl Table {
    ghost use Rattle.sorted_table.specs.Meant.{AreAsMeant};
    ghost use Rattle.sorted_table.specs.Open.{CanBeOpen, FileRepresents, HasItsLines, IsOpenOn};
    ghost use Rattle.sorted_table.specs.Open.{TableServes, greatest_key, index_lines};
    ghost use Rattle.sorted_table.specs.Open.{HasInFilter, last_line_key, table_file, table_filter};
    ghost use Rattle.sorted_table.specs.Open.{table_format};
    ghost use Rattle.sorted_table.specs.TableReads.{AnswersLookup};

    /// Opens the table of a file. It needs three device calls, reads no block, and takes no more
    /// memory than the file is long.
    pub fn open<D: Disk>(alloc: Global, disk: &mut D, file: u64) -> Result<Table, FileError>
        ensures kept { KeepsDisk D.Disk disk.old disk.new (IsErrOf result Disk) ⊥ IsSame }
        ensures at { IfOk result (λ table. table_file table ≡ file) }
        ensures opened { (entries : List Entry) → D.is_honest disk.old →
            FileRepresents (D.state disk.old file) entries →
            MatchResult result (λ table. TableServes (D.state disk.new file) table entries)
            (IsEnvironmental Disk Memory) }
        ensures checked { D.is_honest disk.old →
            MatchResult result (λ table. IsOpenOn (D.state disk.new file) table
            × HasItsLines (D.state disk.old file) table)
            (λ e. CanBeOpen (D.state disk.old file) → IsEnvironmental Disk Memory e) }
        ensures still { IsStill D.Disk disk.old disk.new }
        ensures calls { CallsAtMost D.Disk 3 disk.old disk.new }
    {
        let (bytes, tail) = read_tail(alloc, disk, file)?;
        let (lines, filter) = parts_of(alloc, &bytes, tail)?;
        Ok(Table {
            file,
            format: tail.format,
            lines,
            filter,
        })
    }

    /// The format of the table.
    pub fn format(&self) -> Format
        ensures { result ≡ table_format self.now }
    {
        self.format
    }

    /// The key of the last line of the index, which is that of the last entry. `None` only where
    /// the index has no line.
    pub fn greatest(&self) -> Option<&StoredKey>
        ensures line { option_map (λ key. key.now) result ≡ last_line_key (index_lines self.now) }
        ensures serves { (file : Slot) (entries : List Entry) → TableServes file self.now entries →
            option_map (λ key. key.now) result ≡ greatest_key entries }
    {
        let line = self.lines.last()?;
        Some(&line.key)
    }

    // Whether the filter denies the key with these hashes.
    fn denies(&self, hashes: KeyHashes) -> bool
        ensures denied { IsTrue result ↔ (CoversHashed (table_filter self.now) hashes → ⊥) }
        ensures covered { (IsTrue result → ⊥) → CoversHashed (table_filter self.now) hashes }
    {
        !may_hold_hashed(&self.filter, hashes)
    }

    /// The newest version of the key with at most this number, if the table has one. It reads one
    /// block at most: none where the filter denies the key, where every block ends before the key
    /// and number, or where the block is in the cache.
    pub fn get<D: Disk + Drop>(
        &self,
        alloc: Global,
        files: &mut CachedDisk<D>,
        key: LentKey,
        at: u64,
    ) -> Result<Option<FoundVersion>, FileError>
        ensures { AnswersLookup ⟦<CachedDisk<D> as Disk>⟧ self.now (lent_key key.entry) at
            (HasInFilter self.now (lent_key key.entry)) files.old files.new result }
    {
        self.get_hashed(alloc, files, key, hashes_in(self.format, key), at)
    }

    /// `get` of the key that has these hashes in the table's format. A lookup in many tables
    /// computes those of format 2 once.
    pub fn get_hashed<D: Disk + Drop>(
        &self,
        alloc: Global,
        files: &mut CachedDisk<D>,
        key: LentKey,
        hashes: KeyHashes,
        at: u64,
    ) -> Result<Option<FoundVersion>, FileError>
        requires { hashes ≡ hashes_of (filter_key (table_format self.now) (lent_key key)) }
        ensures { AnswersLookup ⟦<CachedDisk<D> as Disk>⟧ self.now (lent_key key.entry) at
            (CoversHashed (table_filter self.now) hashes) files.old files.new result }
    {
        if self.denies(hashes) {
            filters_cover(); // law: the filter of some keys covers each of them
            return Ok(None);
        }
        let lines: &[IndexLine] = &self.lines;
        let number = line_place(lines, key, at);
        if number >= lines.len() {
            return Ok(None);
        }
        let block = block_of_line(alloc, files, self.file, self.format, lines, number)?;
        find_in(alloc, &block, key, at)
    }

    /// A cursor over all entries of the table, which stands on none. It shares the lines of the
    /// index, and so it may outlive the table.
    pub fn cursor<D: Disk + Drop>(&self, alloc: Global) -> Result<TableCursor<D>, AllocError>
        ensures off { IfOk result (λ cursor.
            ⟦<TableCursor<D> as Cursor>⟧.position cursor ≡ Off) }
        ensures serves { IfOk result (λ cursor. (meant : State) (files : _) (entries : List Entry) →
            ⟦<CachedDisk<D> as Disk>⟧.is_honest files →
            TableServes (meant (table_file self.now)) self.now entries →
            AreAsMeant (table_format self.now)
            (⟦<CachedDisk<D> as Disk>⟧.state files (table_file self.now))
            (meant (table_file self.now)) (index_lines self.now) →
            ⟦<TableCursor<D> as Cursor>⟧.is_sound meant cursor files
            × IsAlike (⟦<TableCursor<D> as Cursor>⟧.holds meant cursor files) (Contains entries)) }
        ensures suits { IfOk result (λ cursor. (a b : _) → (⟦<CachedDisk<D> as Disk>⟧.is_honest a →
            ⟦<CachedDisk<D> as Disk>⟧.is_honest b ×
            (⟦<CachedDisk<D> as Disk>⟧.state b (table_file self.now)
            ≡ ⟦<CachedDisk<D> as Disk>⟧.state a (table_file self.now))) →
            ⟦<TableCursor<D> as Cursor>⟧.suits cursor a b) }
    {
        Ok(TableCursor::new(alloc, self.file, self.format, self.lines.clone()?))
    }
}
