//! The open files of a store: manifest, logs and tables, and the entries that no table has yet.
ghost use Rattle.std.specs.Prelude.{◌≡◌, ◌+◌, ◌<◌, ◌≤◌, IsErrOf, MatchResult, Some};
ghost use Rattle.kv_types.specs.{place};
ghost use Rattle.disk.specs.{IsEnvironmental, IsSame, IsSameBut, KeepsDisk};
ghost use Rattle.disk.specs.{MakesCalls};
ghost use Rattle.batch_logs.specs.BatchLogs.{HasFullLog, newest_file};
ghost use Rattle.store_files.specs.BesideFiles.{with_free};
ghost use Rattle.store_tables.specs.declared.error.EngineError.TheVariants.{Disk, Memory};
ghost use Rattle.store_tables.specs.Errors.{IsEnd};
ghost use Rattle.store_files.specs.OpenFiles.{AreUsableFiles, FilesHold, batch_count, known_facts};
ghost use Rattle.store_files.specs.OpenFiles.{HasSameFacts, IfMeant, IsNextNumber, ListGrows};
ghost use Rattle.store_files.specs.OpenFiles.{WereMeantToHold, trimmed_count};
ghost use Rattle.batch_logs.specs.Reads.{OnlyReads};
ghost use Rattle.std.specs.Prelude.{◌++◌, ◌∷◌, []};
ghost use Rattle.store_files.specs.Plans.{KeepsPlans};
ghost use Rattle.store_files.specs.StoreFiles.{FilesRepresent, WereMeant};

use crate::EngineError;
use batch_logs::BatchLogs;
use disk::Disk;
use disk::laws::{durable_file_is_left, durable_is_left, reads_are_outcomes};
use kv_types::{Batch, Number};
use manifest::Manifest;
use manifest::laws::held_versions_are_left;
use memtable::Memtable;
use std::alloc::Global;
use store_model::appends_keep;
use store_tables::LevelTables;

/// The open files of a store. Each call that reaches them is lent the disk.
#[derive(Drop)]
pub struct StoreFiles {
    pub manifest: Manifest,
    pub logs: BatchLogs,
    pub tables: LevelTables,
    // The entries of the batches that no table has.
    pub(crate) memtable: Memtable,
    // The first file that is free: no file has this number or a greater one.
    pub(crate) free_file: u64,
}

impl StoreFiles {
    /// The least number that can be read.
    pub fn floor(&self) -> Number
        ensures { result ≡ (known_facts self.now).floor }
    {
        Number::new(self.manifest.state().floor).unwrap()
    }

    /// The first file that is free.
    pub fn free_file(&self) -> u64
        ensures { result ≡ self.now.free_file }
    {
        self.free_file
    }

    /// Tells it that this is the first file that is free.
    pub fn set_free_file(&mut self, free: u64)
        ensures { self.new ≡ with_free self.old free }
    {
        self.free_file = free;
    }

    /// Appends the batch with the next number. It needs four device calls.
    pub fn append<D: Disk>(
        &mut self,
        disk: &mut D,
        number: Number,
        batch: &Batch,
    ) -> Result<(), EngineError>
        requires { IsNextNumber self.old number }
        ensures kept { KeepsDisk D.Disk disk.old disk.new (IsErrOf result Disk)
            (HasFullLog self.old.logs) (IsSameBut (newest_file self.old.logs)) }
        ensures appended { ListGrows FilesHold FilesRepresent D.Disk batch.now disk.old disk.new
            self.old self.new result }
        ensures meant { ListGrows WereMeantToHold WereMeant D.Disk batch.now disk.old disk.new
            self.old self.new result }
        ensures counts { MatchResult result
            (λ _. AreUsableFiles self.new × (batch_count self.new ≡ batch_count self.old + 1))
            (λ e. (batch_count self.new ≡ batch_count self.old) × IsEnd e) }
        ensures facts { HasSameFacts self.old self.new
            × MakesCalls D.Disk 4 disk.old disk.new result }
        ensures plans { KeepsPlans D.Disk (λ list. list ++ batch.now ∷ []) disk.old disk.new
            self.old self.new result }
    {
        // laws: a crash leaves what is durable, and the version of an open manifest
        durable_is_left();
        durable_file_is_left();
        held_versions_are_left();
        reads_are_outcomes(); // law: a crash may leave what is read
        appends_keep(); // law: with one batch more a store represents one more
        let _edits = batch.edits(); // law: these are a batch
        self.memtable.add(number, batch)?;
        self.logs.append(disk, number, batch)
    }

    /// The batch of a number that the logs have, read from its log.
    pub fn batch<D: Disk>(
        &self,
        alloc: Global,
        disk: &mut D,
        number: Number,
    ) -> Result<Batch, EngineError>
        requires usable { AreUsableFiles self.now }
        requires there { (trimmed_count self.now < number) × (number ≤ batch_count self.now) }
        ensures reads { OnlyReads D.Disk disk.old disk.new IsSame result }
        ensures found { IfMeant D.Disk disk.old self.now (λ list.
            MatchResult result (λ batch. place list number ≡ Some batch)
            (IsEnvironmental Disk Memory)) }
    {
        self.logs.batch(alloc, disk, number)
    }
}
