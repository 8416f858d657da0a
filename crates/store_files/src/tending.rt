// A tend of a store's files: a rewrite of the manifest, or a flush.
ghost use Rattle.std.specs.Prelude.{◌≡◌, IfOk};
ghost use Rattle.store_files.specs.OpenFiles.{AreUsableFiles, IfMeant};
ghost use Rattle.store_tables.specs.TableWriting.{HasEntry};
ghost use Rattle.store_files.specs.Plans.{KeepsPlans};
ghost use Rattle.store_files.specs.declared.tended.Tended.TheVariants.{Idle};
ghost use Rattle.store_files.specs.TendKeeps.{FilesAreTended};
ghost use Rattle.store_files.specs.Tending.{IsFlushAnswer, IsRewriteAnswer, IsTend, IsWorkAnswer};
ghost use Rattle.store_files.specs.Tending.{TendMayFail};

use crate::EngineError;
use crate::flushing::{has_entries, lacks_place};
use crate::store_files::StoreFiles;
use crate::tended::Tended;
use disk::Disk;
use disk::laws::durable_file_is_left;
use kv_types::bounds::MAX_NUMBER;
use manifest::laws::{held_versions_are_left, manifest_has_slots};
use std::alloc::Global;
use store_tables::refusal_of_edit;

impl StoreFiles {
    // Rewrites the manifest, which is due.
    fn shorten<D: Disk>(&mut self, alloc: Global, disk: &mut D) -> Result<Tended, EngineError>
        requires { AreUsableFiles self.old }
        ensures plans { KeepsPlans D.Disk (λ list. list) disk.old disk.new self.old self.new
            result }
        ensures tends { FilesAreTended D.Disk ⊥ (IsRewriteAnswer self.old self.new) disk.old
            disk.new self.old self.new result }
    {
        // laws: what a crash leaves of the files that are named, and that a manifest has the slots
        held_versions_are_left();
        durable_file_is_left();
        manifest_has_slots();
        if self.manifest.generation() >= MAX_NUMBER {
            return Ok(Tended::Full);
        }
        match self.manifest.rewrite(alloc, disk) {
            Ok(()) => Ok(Tended::Worked),
            Err(e) => Err(refusal_of_edit(e)),
        }
    }

    // Flushes the entries in memory, which is due.
    fn flush<D: Disk>(&mut self, alloc: Global, disk: &mut D) -> Result<Tended, EngineError>
        requires usable { AreUsableFiles self.old }
        requires some { HasEntry self.old.memtable }
        ensures plans { KeepsPlans D.Disk (λ list. list) disk.old disk.new self.old self.new
            result }
        ensures tends { FilesAreTended D.Disk (TendMayFail D.Disk disk.old self.old)
            (IsFlushAnswer self.old self.new) disk.old disk.new self.old self.new result }
    {
        // laws: what a crash leaves of the files that are named
        held_versions_are_left();
        durable_file_is_left();
        if lacks_place(self.manifest.state(), self.free_file) {
            return Ok(Tended::Full);
        }
        match self.spill(alloc, disk)? {
            Some(made) => {
                self.install(alloc, disk, made)?;
                Ok(Tended::Worked)
            }
            None => Ok(Tended::Full),
        }
    }

    /// Does the first that is due: a rewrite of the manifest, where its slot is longer than twice
    /// its first edit and 65,536 bytes; or a flush, where the newest log is longer than this limit
    /// and entries are in memory. Where neither is, the disk and the files stay as they are.
    pub fn tend<D: Disk>(
        &mut self,
        alloc: Global,
        disk: &mut D,
        limit: u64,
    ) -> Result<Tended, EngineError>
        requires { AreUsableFiles self.old }
        ensures tends { FilesAreTended D.Disk (TendMayFail D.Disk disk.old self.old)
            (IsTend self.old self.new) disk.old disk.new self.old self.new result }
        ensures work { IfMeant D.Disk disk.old self.old (λ list.
            IfOk result (IsWorkAnswer limit self.old self.new)) }
        ensures plans { KeepsPlans D.Disk (λ list. list) disk.old disk.new self.old self.new
            result }
        ensures rests { IfOk result (λ done. done ≡ Idle →
            (disk.new ≡ disk.old) × (self.new ≡ self.old)) }
    {
        // laws: what a crash leaves of the files that are named
        held_versions_are_left();
        durable_file_is_left();
        if self.manifest.has_long_slot() {
            return self.shorten(alloc, disk);
        }
        if self.logs.newest_length() <= limit {
            return Ok(Tended::Idle);
        }
        if !has_entries(&self.memtable) {
            return Ok(Tended::Idle);
        }
        self.flush(alloc, disk)
    }
}
