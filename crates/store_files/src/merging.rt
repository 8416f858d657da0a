// A merge is installed: its outputs are named in the places of its inputs, which are removed.
ghost use Rattle.std.specs.Prelude.{OnOk};
ghost use Rattle.store_files.specs.Merging.{MayMerge, InstallsMerge, replaced_files};
ghost use Rattle.store_files.specs.Removing.{AreAbsent};

use crate::EngineError;
use crate::removing::remove_files;
use crate::store_files::StoreFiles;
use disk::Disk;
use disk::laws::durable_file_is_left;
use manifest::VersionEdit;
use manifest::laws::{
    edits_keep_versions, held_versions_are_left, manifest_has_slots, slots_reach_gates,
};
use std::alloc::Global;
use store_tables::laws::replaced_tables_are_edited;
use store_tables::{LevelTables, refusal_of_edit};
use version_edits::removed_files;

impl StoreFiles {
    /// Records the edit of a merge: its outputs, which are opened first, stand in the places of its
    /// inputs then, whose files are removed. It needs the reads of an opening for each output, the
    /// four device calls of a record of the manifest, and one call for each input.
    pub fn install_merge<D: Disk>(
        &mut self,
        alloc: Global,
        disk: &mut D,
        edit: &VersionEdit,
    ) -> Result<(), EngineError>
        requires { MayMerge self.old edit.now }
        ensures merges { InstallsMerge D.Disk edit.now disk.old disk.new self.old self.new result }
        ensures gone { D.is_honest disk.old →
            OnOk result (AreAbsent (replaced_files edit.now) (D.state disk.new)) }
    {
        // laws: what a crash leaves of the files that are named; that a manifest has the slots,
        // and an edit gives a version; and which tables the lines after an edit name
        held_versions_are_left();
        durable_file_is_left();
        manifest_has_slots();
        slots_reach_gates();
        edits_keep_versions();
        replaced_tables_are_edited();
        let opened = LevelTables::open(alloc, disk, &edit.tables_added)?;
        let inputs = removed_files(alloc, &edit.tables_gone)?;
        if let Err(e) = self.manifest.record(alloc, disk, edit) {
            return Err(refusal_of_edit(e));
        }
        self.tables
            .replace(&edit.tables_gone, opened.into_tables())?;
        remove_files(disk, &inputs)
    }
}
