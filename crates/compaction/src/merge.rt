//! A merge in bounded steps.
ghost use Rattle.std.specs.Prelude.{◌≡◌, ◌≤◌, ◌+◌, All, IfOk, filter, length, nat_lt};
ghost use Rattle.kv_types.specs.declared.bounds.TheConstants.{MAX_NUMBER};
ghost use Rattle.version_edits.specs.declared.line.TheConstants.{MAX_LINES};

use crate::error::MergeError;
use crate::laws::{merge_edits_fit, written_are_merged};
use crate::leftovers::remove_leftovers;
use crate::merge_edit::edit_of;
use crate::plan::Plan;
use crate::walking::{are_lawful, write_some};
use crate::writer::OutputWriter;
use disk::Disk;
use merge_iter::{Cursor, Merged};
use sorted_table::TableCursor;
use std::alloc::{AllocError, Global};
use std::mem::replace;
use table_files::CachedDisk;
use version_edits::{MAX_LINES, StoreVersion, TableLine, TableName, VersionEdit};

/// A merge under way: its inputs are read by cursors, entry by entry, and its outputs are written
/// into files that no version names yet.
#[derive(Drop)]
pub struct Merge<D> {
    union: Merged<TableCursor<D>>,
    writer: OutputWriter,
    gone: Vec<TableName>,
    // The next file as the merge began.
    first: u64,
    has_failed: bool,
    ghost few: { length gone.items ≤ MAX_LINES },
    ghost named: { All (λ one. (one.level ≤ 6) × (one.file ≤ MAX_NUMBER)) gone.items },
}

// The lines of the tables that are deeper than the next level.
fn deeper_lines(
    alloc: Global,
    level: u8,
    tables: &[TableLine],
) -> Result<Vec<TableLine>, AllocError>
    ensures { IfOk result (λ lines. lines.items
        ≡ filter (λ line. nat_lt (level + 1) line.level) tables.now) }
{
    let mut lines = Vec::new(alloc);
    let mut rest = tables;
    while let [line, later @ ..] = rest {
        if line.level as u16 > level as u16 + 1 {
            lines.push(line.clone()?)?;
        }
        rest = later;
    }
    Ok(lines)
}

impl<D: Disk + Drop> Merge<D> {
    ghost use Rattle.std.specs.Prelude.{◌<◌, ◌⊎◌, ℕ, IsErrOf, List, MatchResult, Some};
    ghost use Rattle.std.specs.List.{AllZip};
    ghost use Rattle.disk.specs.{IsEnvironmental};
    ghost use Rattle.store_model.specs.{LevelTable};
    ghost use Rattle.compaction.specs.declared.error.MergeError.TheVariants.{Disk, Memory};
    ghost use Rattle.compaction.specs.Leftovers.{RemovesLeftovers};
    ghost use Rattle.compaction.specs.Merges.{AreCursorsOf, AreIntactCursors, EndsMerge};
    ghost use Rattle.compaction.specs.Merges.{IsIntactMerge, IsJustBegun, IsMergeOutput};
    ghost use Rattle.compaction.specs.Merges.{StepsMerge, begun_number, target_of};
    ghost use Rattle.compaction.specs.Outputs.{AreUnused, WritesOnly};
    ghost use Rattle.compaction.specs.Plans.{IsLineOf, model_plan, range_of};

    /// Begins the merge of a plan in a version, at the floor of the version, with file numbers from
    /// this one on. An output is complete from so many bytes of data on. There is a cursor for each
    /// input, in the order of the version; each reads its first entry.
    pub fn begin(
        alloc: Global,
        files: &mut CachedDisk<D>,
        version: &StoreVersion,
        plan: Plan,
        target: u64,
        next_file: u64,
        cursors: Vec<TableCursor<D>>,
    ) -> Result<Merge<D>, MergeError>
        requires deep { plan.level ≤ 5 }
        requires aimed { 0 < target }
        ensures reads { WritesOnly ⟦<CachedDisk<D> as Disk>⟧ (λ _. ⊥) files.old files.new
            (IsErrOf result Disk) ⊥ }
        ensures first { IfOk result (λ merge. (begun_number merge ≡ next_file)
            × ((file : ℕ) → IsMergeOutput merge file → ⊥)) }
        ensures aims { IfOk result (λ merge. target_of merge ≡ target) }
        ensures begun { (meant : _) (tables : List LevelTable) (range : _) →
            ⟦<CachedDisk<D> as Disk>⟧.is_honest files.old →
            AllZip IsLineOf version.now.version.tables tables →
            range_of plan version.now.version.tables ≡ Some range →
            AreCursorsOf ⟦<TableCursor<D> as Cursor>⟧ ⟦<CachedDisk<D> as Disk>⟧ meant files.old
            cursors.items (model_plan plan range tables).inputs →
            version.now.version.next_file ≤ next_file →
            AreUnused (⟦<CachedDisk<D> as Disk>⟧.state files.old) next_file → MatchResult result
            (λ merge. IsJustBegun ⟦<Merged<TableCursor<D>> as Cursor>⟧ ⟦<CachedDisk<D> as Disk>⟧
            meant files.new next_file merge (model_plan plan range tables) version.now.version.floor
            × (AreIntactCursors ⟦<TableCursor<D> as Cursor>⟧ ⟦<CachedDisk<D> as Disk>⟧ files.old
            cursors.items (model_plan plan range tables).inputs →
            IsIntactMerge ⟦<Merged<TableCursor<D>> as Cursor>⟧ ⟦<CachedDisk<D> as Disk>⟧ files.new
            merge (model_plan plan range tables)))
            (λ e. IsEnvironmental Disk Memory e ⊎ ((e ≡ MergeError.Damaged) × (AreIntactCursors
            ⟦<TableCursor<D> as Cursor>⟧ ⟦<CachedDisk<D> as Disk>⟧ files.old cursors.items
            (model_plan plan range tables).inputs → ⊥))) }
    {
        are_lawful::<Merged<TableCursor<D>>>(); // law: what suits a union leaves it sound
        let Some(range) = plan.range(&version.tables) else {
            return Err(MergeError::Damaged);
        };
        let gone = plan.input_names(alloc, range, &version.tables)?;
        let deeper = deeper_lines(alloc, plan.level, &version.tables)?;
        let writer = OutputWriter::new(alloc, version.floor, target, plan.level + 1, deeper);
        let mut union = Merged::new(cursors);
        union.first(files)?;
        Ok(Merge {
            union,
            writer,
            gone,
            first: next_file,
            has_failed: false,
        })
    }

    /// Merges the next entries of the inputs: so many, or all that are left. Says whether entries
    /// are left. The version has so many tables. After any refusal the merge answers `Failed`.
    pub fn step(
        &mut self,
        alloc: Global,
        files: &mut CachedDisk<D>,
        count: usize,
        tables: usize,
        next_file: &mut u64,
    ) -> Result<bool, MergeError>
        requires { tables ≤ MAX_LINES }
        ensures { StepsMerge ⟦<Merged<TableCursor<D>> as Cursor>⟧ ⟦<CachedDisk<D> as Disk>⟧ tables
            count files.old next_file.old self.old files.new next_file.new self.new result }
    {
        if self.has_failed {
            return Err(MergeError::Failed);
        }
        self.has_failed = true;
        write_some(
            alloc,
            files,
            &mut self.union,
            &mut self.writer,
            count,
            tables,
            next_file,
        )?;
        self.has_failed = false;
        Ok(self.union.valid())
    }

    /// Completes the last output, where no entry is left, and makes the edit of this version.
    /// `Full` where the version would have more tables than it may have.
    pub fn finish(
        &mut self,
        alloc: Global,
        files: &mut CachedDisk<D>,
        version: &StoreVersion,
        next_file: u64,
    ) -> Result<VersionEdit, MergeError>
        ensures { EndsMerge ⟦<Merged<TableCursor<D>> as Cursor>⟧ ⟦<CachedDisk<D> as Disk>⟧
            version.now.version next_file files.old self.old files.new self.new result }
    {
        written_are_merged(); // law: tables with what is written are the outputs of the merge
        merge_edits_fit(); // law: the version may take the edit
        if self.has_failed {
            return Err(MergeError::Failed);
        }
        self.has_failed = true;
        self.writer.close(alloc, files)?;
        let added = self.writer.drain(alloc);
        let gone = replace(&mut self.gone, Vec::new(alloc));
        if version.tables.len() + added.len() > MAX_LINES + gone.len() {
            return Err(MergeError::Full);
        }
        Ok(edit_of(alloc, version, next_file, gone, added)?)
    }

    /// The number of a file from which on it uses numbers.
    pub fn begun(&self) -> u64
        ensures { result ≡ begun_number self.now }
    {
        self.first
    }

    /// Ends the merge without an edit: removes the files that were written since it began, up to
    /// the next one, but for those that the version names.
    pub fn abandon(
        self,
        files: &mut CachedDisk<D>,
        version: &StoreVersion,
        next_file: u64,
    ) -> Result<(), MergeError>
        ensures { RemovesLeftovers ⟦<CachedDisk<D> as Disk>⟧ (begun_number self) next_file
            version.now.version files.old files.new result }
    {
        remove_leftovers(files, version, self.first, next_file)
    }
}
