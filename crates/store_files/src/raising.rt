// A rise of the floor, which gives up the logs of the batches up to it.
ghost use Rattle.std.specs.Prelude.{◌≡◌, ◌≤◌, IfOk, OnOk};
ghost use Rattle.manifest.specs.{IsChange, IsFit};
ghost use Rattle.store_files.specs.Raising.{MayRise, RaisesFloor, obsolete_files, obsolete_logs};
ghost use Rattle.store_files.specs.Raising.{raise_change};
ghost use Rattle.store_files.specs.Removing.{AreAbsent};

use crate::EngineError;
use crate::removing::remove_files;
use crate::store_files::StoreFiles;
use disk::Disk;
use disk::laws::durable_file_is_left;
use kv_types::Number;
use manifest::laws::{
    edits_keep_versions, held_versions_are_left, manifest_has_slots, slots_reach_gates,
};
use manifest::{LogLine, StoreVersion, VersionEdit};
use std::alloc::{AllocError, Global};
use store_model::raises_keep;
use store_tables::refusal_of_edit;

// The files of the logs whose last batch has at most this number, but for the newest.
fn logs_up_to(alloc: Global, logs: &[LogLine], floor: Number) -> Result<Vec<u64>, AllocError>
    ensures { IfOk result (λ gone. gone.items ≡ obsolete_logs floor logs.now) }
{
    let mut gone = Vec::new(alloc);
    let mut rest = logs;
    while let [line, later @ ..] = rest {
        match later.first() {
            Some(next) if next.first <= floor.get() + 1 => gone.push(line.file)?,
            _ => break,
        }
        rest = later;
    }
    Ok(gone)
}

// The edit that raises the floor and gives up the logs up to it.
fn raise_edit(
    alloc: Global,
    version: &StoreVersion,
    floor: Number,
) -> Result<VersionEdit, AllocError>
    requires { version.now.version.floor ≤ floor }
    ensures edit { IfOk result (λ edit. edit ≡ raise_change version.now.version floor) }
    ensures fit { IfOk result (λ edit. IsFit version.now.version edit × IsChange edit) }
{
    Ok(VersionEdit {
        next_file: version.next_file,
        floor: floor.get(),
        flushed: version.flushed,
        epoch: version.epoch,
        config: version.config.clone()?,
        logs_gone: logs_up_to(alloc, &version.logs, floor)?,
        logs_added: Vec::new(alloc),
        tables_gone: Vec::new(alloc),
        tables_added: Vec::new(alloc),
    })
}

impl StoreFiles {
    /// Raises the floor to this number, and gives up each log whose last batch has at most this
    /// number, but for the newest. It needs the four device calls of a record of the manifest, and
    /// one for each log given up.
    pub fn raise_floor<D: Disk>(
        &mut self,
        alloc: Global,
        disk: &mut D,
        floor: Number,
    ) -> Result<(), EngineError>
        requires { MayRise self.old floor }
        ensures raises { RaisesFloor D.Disk floor disk.old disk.new self.old self.new result }
        ensures gone { D.is_honest disk.old →
            OnOk result (AreAbsent (obsolete_files self.old floor) (D.state disk.new)) }
    {
        // laws: what a crash leaves of the files that are named; that a manifest has the slots,
        // and an edit gives a version; and that a rise of the floor keeps the list
        held_versions_are_left();
        durable_file_is_left();
        manifest_has_slots();
        slots_reach_gates();
        edits_keep_versions();
        raises_keep();
        let edit = raise_edit(alloc, self.manifest.state(), floor)?;
        if let Err(e) = self.manifest.record(alloc, disk, &edit) {
            return Err(refusal_of_edit(e));
        }
        // The logs are removed behind the record: until then a crash may leave the old version.
        self.logs.trim(edit.logs_gone.len());
        remove_files(disk, &edit.logs_gone)
    }
}
