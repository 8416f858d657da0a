//! The block of a line of an index.
ghost use Rattle.std.specs.Prelude.{◌≡◌, ◌↔◌, ◌<◌, List};
ghost use Rattle.std.specs.Prelude.{Some, IfOk, IsTrue, IsSomeAnd};
ghost use Rattle.std.specs.Prelude.{length, slice_get};
ghost use Rattle.std.specs.Rc.{rc_slice_items};
ghost use Rattle.kv_types.specs.{Entry};
ghost use Rattle.disk.specs.{CallsAtMost};
ghost use Rattle.table_format.specs.{IsBlock, last_entry, lent_entry};
ghost use Rattle.sorted_table.specs.Meant.{AreAtLine, HasEndOf, IsBehindLine, LineBlockAnswer};
ghost use Rattle.sorted_table.specs.TableReads.{ReadsDisk};

use crate::lines::ends_before;
use crate::starts::entry_from;
use byte_fields::Format;
use disk::Disk;
use std::alloc::Global;
use table_files::{CachedDisk, CheckedBlock};
use table_format::{FileError, IndexLine, LentEntry};

// The first and the last entry of a block.
fn ends_of(block: &CheckedBlock) -> Option<(LentEntry<'_>, LentEntry<'_>)>
    ensures { (entries : List Entry) →
        IsBlock block.now.format (rc_slice_items block.now.bytes) entries →
        IsSomeAnd result (λ x. (slice_get entries 0 ≡ Some (lent_entry x.0))
        × (last_entry entries ≡ Some (lent_entry x.1))) }
{
    let first = entry_from(block.format, &block.bytes, *block.starts.first()?)?;
    let last = entry_from(block.format, &block.bytes, *block.starts.last()?)?;
    Some((first, last))
}

// Whether the entry has the line's key and number.
fn has_end_of(line: &IndexLine, entry: LentEntry) -> bool
    ensures { IsTrue result ↔ HasEndOf line.now (lent_entry entry.entry) }
{
    entry.number == line.number && entry.key.is_same(line.key.lent())
}

// Whether the entry comes behind the line before this one.
fn is_behind_line(lines: &[IndexLine], number: usize, entry: LentEntry) -> bool
    ensures { IsTrue result ↔ IsBehindLine lines.now number (lent_entry entry.entry) }
{
    let Some(before) = number.checked_sub(1) else {
        return true;
    };
    match lines.get(before) {
        Some(line) => ends_before(line, entry.key, entry.number),
        None => true,
    }
}

// Whether the entries of a block lie where its line says.
fn is_at_line(lines: &[IndexLine], number: usize, line: &IndexLine, block: &CheckedBlock) -> bool
    ensures { (entries : List Entry) →
        IsBlock block.now.format (rc_slice_items block.now.bytes) entries →
        (IsTrue result ↔ AreAtLine lines.now number line.now entries) }
{
    let Some((first, last)) = ends_of(block) else {
        return false;
    };
    has_end_of(line, last) && is_behind_line(lines, number, first)
}

/// The block of a line, in the format. `Damaged` where the file has none there, or one whose
/// entries do not lie where the line says.
pub fn block_of_line<D: Disk + Drop>(
    alloc: Global,
    files: &mut CachedDisk<D>,
    file: u64,
    format: Format,
    lines: &[IndexLine],
    number: usize,
) -> Result<CheckedBlock, FileError>
    requires { number < length lines.now }
    ensures device { ReadsDisk ⟦<CachedDisk<D> as Disk>⟧ files.old files.new result }
    ensures calls { CallsAtMost ⟦<CachedDisk<D> as Disk>⟧ 1 files.old files.new }
    ensures answers { ⟦<CachedDisk<D> as Disk>⟧.is_honest files.old →
        LineBlockAnswer format lines.now number (⟦<CachedDisk<D> as Disk>⟧.state files.old file)
        result }
    ensures len { IfOk result (λ block. (line : _) → slice_get lines.now number ≡ Some line →
        length (rc_slice_items block.bytes) ≡ line.len) }
    ensures read_in { IfOk result (λ block. block.format ≡ format) }
{
    let line = &lines[number];
    let block = files.block(alloc, file, line.place, line.len as usize, format)?;
    if !is_at_line(lines, number, line, &block) {
        return Err(FileError::Damaged);
    }
    Ok(block)
}
