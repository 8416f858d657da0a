// An adoption of a later configuration, which the manifest records.
ghost use Rattle.std.specs.Prelude.{IfErr, IfOk};
ghost use Rattle.disk.specs.{MakesCalls};
ghost use Rattle.store_files.specs.Adopting.{AdoptsConfig, IsConfigEdit, MayAdopt};
ghost use Rattle.store_files.specs.OpenFiles.{HasSameFacts};
ghost use Rattle.store_files.specs.Plans.{KeepsPlans};

use crate::EngineError;
use crate::store_files::StoreFiles;
use configurations::{Config, Epoch};
use disk::Disk;
use disk::laws::durable_file_is_left;
use manifest::VersionEdit;
use manifest::laws::{
    edits_keep_versions, held_versions_are_left, manifest_has_slots, slots_reach_gates,
};
use std::alloc::{AllocError, Global};
use store_tables::refusal_of_edit;

impl StoreFiles {
    // The edit that changes the configuration alone.
    fn config_edit(
        &self,
        alloc: Global,
        epoch: Epoch,
        config: &Config,
    ) -> Result<VersionEdit, AllocError>
        requires { MayAdopt self.now epoch config.now }
        ensures { IfOk result (IsConfigEdit self.now epoch config.now) }
    {
        let _ids = config.ids(); // law: they are 1 to 16 different ones
        let version = self.manifest.state();
        Ok(VersionEdit {
            next_file: version.next_file,
            floor: version.floor,
            flushed: version.flushed,
            epoch: epoch.get(),
            config: config.clone()?,
            logs_gone: Vec::new(alloc),
            logs_added: Vec::new(alloc),
            tables_gone: Vec::new(alloc),
            tables_added: Vec::new(alloc),
        })
    }

    /// Adopts a later configuration: the manifest records its epoch and ids, and nothing else
    /// changes. It needs the four device calls of a record of the manifest.
    pub fn adopt<D: Disk>(
        &mut self,
        alloc: Global,
        disk: &mut D,
        epoch: Epoch,
        config: &Config,
    ) -> Result<(), EngineError>
        requires { MayAdopt self.old epoch config.now }
        ensures adopts { AdoptsConfig D.Disk epoch config.now disk.old disk.new self.old self.new
            result }
        ensures refused { IfErr result (λ _. HasSameFacts self.old self.new) }
        ensures plans { KeepsPlans D.Disk (λ list. list) disk.old disk.new self.old self.new
            result }
        ensures calls { MakesCalls D.Disk 4 disk.old disk.new result }
    {
        // laws: what a crash leaves of the files that are named; that a manifest has the slots,
        // and an edit gives a version
        held_versions_are_left();
        durable_file_is_left();
        manifest_has_slots();
        slots_reach_gates();
        edits_keep_versions();
        let edit = self.config_edit(alloc, epoch, config)?;
        match self.manifest.record(alloc, disk, &edit) {
            Ok(()) => Ok(()),
            Err(e) => Err(refusal_of_edit(e)),
        }
    }
}
