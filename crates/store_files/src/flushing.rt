// A flush: the entries in memory become a table of level 0, and a new log takes the next batches.
ghost use Rattle.std.specs.Prelude.{◌≡◌, ◌↔◌, ◌≤◌, IfOk, IsErrOf, IsTrue, MatchOption};
ghost use Rattle.std.specs.Prelude.{MatchResult};
ghost use Rattle.disk.specs.{IsSameBut, KeepsDisk};
ghost use Rattle.manifest.specs.{HasFullSlot, IsChange, IsFit};
ghost use Rattle.memtable.specs.{HasFailedAdd};
ghost use Rattle.store_tables.specs.declared.error.EngineError.TheVariants.{Disk};
ghost use Rattle.store_tables.specs.Errors.{IsEnd};
ghost use Rattle.store_files.specs.OpenFiles.{AreUsableFiles, FilesHold};
ghost use Rattle.store_tables.specs.TableWriting.{HasEntry, IsTooLarge, IsNewLine};
ghost use Rattle.store_files.specs.OpenFiles.{WereMeantToHold, known_version};
ghost use Rattle.store_files.specs.StoreFiles.{FilesRepresent, WereMeant, flush_change};
ghost use Rattle.store_files.specs.Plans.{InstallKeepsPlans};
ghost use Rattle.store_files.specs.TendKeeps.{TendKeeps};
ghost use Rattle.store_files.specs.Tending.{HeldAndSpilled, IsFlushedBy, IsNewTable, LacksPlace};
ghost use Rattle.store_files.specs.Tending.{ListIsSpilled, MeantAndSpilled, TendMayFail};

use crate::EngineError;
use crate::store_files::StoreFiles;
use disk::Disk;
use disk::laws::durable_file_is_left;
use kv_types::Number;
use manifest::laws::{
    edits_keep_versions, held_versions_are_left, manifest_has_slots, slots_reach_gates,
};
use manifest::{LogLine, MAX_LINES, MAX_NEXT, StoreVersion, TableLine, VersionEdit};
use memtable::Memtable;
use merge_iter::Cursor;
use std::alloc::{AllocError, Global};
use std::mem;
use store_model::flushes_keep;
use store_tables::{OpenTable, refusal_of_edit, write_table};

/// A new table of level 0: its line, and the open table.
#[derive(Drop)]
pub(crate) struct Flushed {
    pub(crate) line: TableLine,
    pub(crate) table: OpenTable,
}

/// Whether the memtable has entries.
pub(crate) fn has_entries(memtable: &Memtable) -> bool
    requires { HasFailedAdd memtable.now → ⊥ }
    ensures { IsTrue result ↔ HasEntry memtable.now }
{
    let mut cursor = memtable.cursor().unwrap();
    cursor.first(&mut ()).unwrap();
    cursor.valid()
}

/// Whether a flush lacks a place in the version, where this file is the first that is free.
pub(crate) fn lacks_place(version: &StoreVersion, free: u64) -> bool
    ensures { IsTrue result ↔ LacksPlace version.now.version free }
{
    version.tables.len() >= MAX_LINES || version.logs.len() >= MAX_LINES || free > MAX_NEXT - 2
}

// The edit of a flush, where this file is the first that is free and there are so many batches: a
// table more, and a log for the next ones.
fn flush_edit(
    alloc: Global,
    version: &StoreVersion,
    free: u64,
    count: Number,
    line: TableLine,
) -> Result<VersionEdit, AllocError>
    requires place { LacksPlace version.now.version free → ⊥ }
    requires free { version.now.version.next_file ≤ free }
    requires flushed { version.now.version.flushed ≤ count }
    requires next { IsNewLine free line }
    ensures edit { IfOk result (λ edit. edit ≡ flush_change version.now.version free count line) }
    ensures fit { IfOk result (λ edit. IsFit version.now.version edit × IsChange edit) }
{
    let mut logs_added = Vec::new(alloc);
    logs_added.push(LogLine {
        file: free + 1,
        first: count.get() + 1,
    })?;
    let mut tables_added = Vec::new(alloc);
    tables_added.push(line)?;
    Ok(VersionEdit {
        next_file: free + 2,
        floor: version.floor,
        flushed: count.get(),
        epoch: version.epoch,
        config: version.config.clone()?,
        logs_gone: Vec::new(alloc),
        logs_added,
        tables_gone: Vec::new(alloc),
        tables_added,
    })
}

impl StoreFiles {
    /// Writes the entries in memory as a table of level 0 into a free file, and opens it. Where
    /// the table would pass the limit of its data there is none.
    pub(crate) fn spill<D: Disk>(
        &self,
        alloc: Global,
        disk: &mut D,
    ) -> Result<Option<Flushed>, EngineError>
        requires usable { AreUsableFiles self.now }
        requires some { HasEntry self.now.memtable }
        requires place { LacksPlace (known_version self.now).version self.now.free_file → ⊥ }
        ensures kept { KeepsDisk D.Disk disk.old disk.new (IsErrOf result Disk)
            (TendMayFail D.Disk disk.old self.now) (IsSameBut self.now.free_file) }
        ensures spilled { ListIsSpilled FilesHold FilesRepresent D.Disk self.now disk.old disk.new
            result }
        ensures meant { ListIsSpilled WereMeantToHold WereMeant D.Disk self.now disk.old disk.new
            result }
        ensures made { MatchResult result
            (λ made. MatchOption made (IsTooLarge self.now.memtable) (IsNewTable self.now)) IsEnd }
    {
        // laws: what a crash leaves of the files that are named
        held_versions_are_left();
        durable_file_is_left();
        let Some(line) = write_table(alloc, disk, self.free_file, &self.memtable)? else {
            return Ok(None);
        };
        let table = OpenTable::open(alloc, disk, &line)?;
        Ok(Some(Flushed { line, table }))
    }

    /// Names a new table of level 0 in the manifest, with a new log for the next batches. No entry
    /// is in memory then.
    pub(crate) fn install<D: Disk>(
        &mut self,
        alloc: Global,
        disk: &mut D,
        made: Flushed,
    ) -> Result<(), EngineError>
        requires usable { AreUsableFiles self.old }
        requires place { LacksPlace (known_version self.old).version self.old.free_file → ⊥ }
        requires next { IsNewTable self.old made }
        ensures plans { InstallKeepsPlans D.Disk made disk.old disk.new self.old self.new result }
        ensures installs { TendKeeps D.Disk (λ state list. HeldAndSpilled state self.old list made)
            (λ state list. MeantAndSpilled state self.old list made) (HasFullSlot self.old.manifest)
            (λ _. IsFlushedBy made.line self.old self.new) disk.old disk.new self.old self.new
            result }
    {
        // laws: what a crash leaves of the files that are named; that a manifest has the slots,
        // and an edit gives a version; and that a flush keeps the list
        held_versions_are_left();
        durable_file_is_left();
        manifest_has_slots();
        slots_reach_gates();
        edits_keep_versions();
        flushes_keep();
        let count = self.logs.last_number();
        let Flushed { line, table } = made;
        let free = self.free_file;
        let edit = flush_edit(alloc, self.manifest.state(), free, count, line)?;
        self.logs.begin(alloc, disk, free + 1)?;
        if let Err(e) = self.manifest.record(alloc, disk, &edit) {
            return Err(refusal_of_edit(e));
        }
        self.free_file = free + 2;
        self.tables.add(table)?;
        drop(mem::replace(&mut self.memtable, Memtable::new(alloc)));
        Ok(())
    }
}
