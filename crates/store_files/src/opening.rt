//! Creating and opening the files of a store.
ghost use Rattle.std.specs.Prelude.{◌≡◌, ◌↔◌, ◌-◌, [], IsErrAnd, IsErrOf, IsTrue, List, IfOk};
ghost use Rattle.std.specs.Prelude.{OnOk};
ghost use Rattle.store_tables.specs.declared.error.EngineError.TheVariants.{Disk, Memory};
ghost use Rattle.store_tables.specs.Errors.{IsEnd};
ghost use Rattle.std.specs.Prelude.{MatchResult};
ghost use Rattle.kv_types.specs.{BatchContent};
ghost use Rattle.disk.specs.{IsEnvironmental, IsStill, KeepsDisk, contents};
ghost use Rattle.store_files.specs.Files.{Facts, IsOwned};
ghost use Rattle.store_files.specs.StoreFiles.{StillLeavesOneOf, before_newest};
ghost use Rattle.store_files.specs.StoreFiles.{AreOrderedNumbers, HasFirstFiles};
ghost use Rattle.store_files.specs.OpenFiles.{HasNoFileUnderWay, SparesFound};
ghost use Rattle.store_files.specs.OpenFiles.{AreNewFiles, FilesAreRead, FilesHold, OpensStore};
ghost use Rattle.store_files.specs.OpenFiles.{known_version, WereMeantToHold, WereMeantToRead};
ghost use Rattle.store_files.specs.Openings.{AreParts, HasParts, PartsHold, PartsWereMeant};
ghost use Rattle.store_files.specs.Openings.{IfMeantParts, IfParts, WereParts, kept_files};
ghost use Rattle.batch_logs.specs.Reads.{OnlyReads};
ghost use Rattle.store_files.specs.Settling.{AreSwept, IsReadAlike};
ghost use Rattle.manifest.specs.{ManifestHolds, version_of};

use crate::EngineError;
use crate::settling::{remove_others, sync_tables};
use crate::store_files::StoreFiles;
use batch_logs::{BatchLog, BatchLogs, open_logs};
use configurations::{Config, NodeId};
use disk::Disk;
use kv_types::Number;
use manifest::laws::{held_versions_are_left, version_is_one};
use manifest::{LogLine, Manifest, StoreVersion};
use memtable::Memtable;
use record_log::Log;
use std::alloc::{AllocError, Global};
use store_model::{empty_represents, replays_agree};
use store_tables::LevelTables;
use version_edits::files_of;

// The slots, and the files that a version names.
fn named_files(alloc: Global, version: &StoreVersion) -> Result<Vec<u64>, AllocError>
    ensures { IfOk result (λ files. files.items ≡ kept_files version.now.version) }
{
    let mut files = Vec::new(alloc);
    files.push(1)?;
    files.push(2)?;
    files.extend_from_slice(&files_of(alloc, &version.logs, &version.tables)?)?;
    Ok(files)
}

// How many batches come before the newest log.
fn count_before(logs: &[LogLine]) -> u64
    ensures { result ≡ before_newest logs.now }
{
    match logs.last() {
        Some(line) => line.first.saturating_sub(1),
        None => 0,
    }
}

// Whether the numbers of batches that concern a store are in order.
fn are_ordered(version: &StoreVersion, trimmed: u64, count: Number) -> bool
    ensures { IsTrue result ↔ AreOrderedNumbers version.now.version trimmed count }
{
    let current = count_before(&version.logs);
    let count = count.get();
    if trimmed > version.floor {
        return false;
    }
    if trimmed > current {
        return false;
    }
    if current > version.flushed {
        return false;
    }
    if version.flushed > count {
        return false;
    }
    version.floor <= count
}

/// What the lines of a version name, opened.
#[derive(Drop)]
struct ReadParts {
    logs: BatchLogs,
    tables: LevelTables,
    memtable: Memtable,
}

// Syncs the tables and logs of a version, and opens them. `Damaged` only where the lines name no
// batches or no tables, or their numbers are not in order.
fn read_parts<D: Disk>(
    alloc: Global,
    disk: &mut D,
    version: &StoreVersion,
) -> Result<ReadParts, EngineError>
    ensures reads { OnlyReads D.Disk disk.old disk.new IsOwned result }
    ensures opened { IfParts D.Disk disk.old version.now.version (λ first batches tables.
        MatchResult result (PartsHold (D.state disk.new) version.now.version first batches tables)
        (IsEnvironmental Disk Memory)) }
    ensures meant { IfMeantParts D.Disk disk.old version.now.version
        (λ meant first batches tables. IfOk result
        (PartsWereMeant (D.state disk.new) meant version.now.version first batches tables)) }
    ensures told { D.is_honest disk.old → MatchResult result
        (WereParts (D.state disk.old) (D.state disk.new) version.now.version)
        (λ e. HasParts (contents (D.state disk.old)) version.now.version →
        IsEnvironmental Disk Memory e) }
    ensures usable { IfOk result (AreParts version.now.version) }
{
    sync_tables(disk, &version.tables)?;
    let (logs, memtable) = open_logs(alloc, disk, version)?;
    let tables = LevelTables::open(alloc, disk, &version.tables)?;
    let trimmed = logs.first_number().saturating_sub(1);
    if !are_ordered(version, trimmed, logs.last_number()) {
        return Err(EngineError::Damaged);
    }
    Ok(ReadParts {
        logs,
        tables,
        memtable,
    })
}

// The number that the version of a manifest gives to the next file.
fn next_file_of(manifest: &Manifest) -> u64
    ensures { result ≡ (version_of manifest.now).version.next_file }
{
    manifest.state().next_file
}

// Opens the store that the files represent, and removes none of them.
fn read_files<D: Disk>(alloc: Global, disk: &mut D) -> Result<StoreFiles, EngineError>
    ensures opens { OpensStore D.Disk FilesAreRead WereMeantToRead disk.old disk.new result }
    ensures held { D.is_honest disk.old → IfOk result
        (λ files. ManifestHolds (D.state disk.new) files.manifest (known_version files)) }
    ensures alike { D.is_honest disk.old →
        OnOk result (IsReadAlike (D.state disk.old) (D.state disk.new)) }
    ensures counter { IfOk result HasNoFileUnderWay }
    ensures still { IsStill D.Disk disk.old disk.new }
{
    version_is_one(); // law: files that represent a version are of a store that was created
    held_versions_are_left(); // law: with the same slots a manifest holds the same version
    replays_agree(); // law: a replay has the entries that belong in memory
    let manifest = Manifest::open(alloc, disk)?;
    let parts = read_parts(alloc, disk, manifest.state())?;
    let free_file = next_file_of(&manifest);
    Ok(StoreFiles {
        manifest,
        logs: parts.logs,
        tables: parts.tables,
        memtable: parts.memtable,
        free_file,
    })
}

impl StoreFiles {
    /// Creates the files of a store without batches. All files of the disk are removed first. A
    /// refusal or a crash may leave any files.
    pub fn create<D: Disk>(
        alloc: Global,
        disk: &mut D,
        id: NodeId,
        config: &Config,
    ) -> Result<StoreFiles, EngineError>
        ensures kept { KeepsDisk D.Disk disk.old disk.new (IsErrOf result Disk) ⊥ IsOwned }
        ensures created { D.is_honest disk.old → MatchResult result
            (λ files. FilesHold (D.state disk.new) files []) (IsEnvironmental Disk Memory) }
        ensures begun { MatchResult result (AreNewFiles id config.now) IsEnd }
        ensures counter { IfOk result HasNoFileUnderWay }
        ensures first { D.is_honest disk.old →
            OnOk result (HasFirstFiles (D.state disk.new) id config.now) }
    {
        empty_represents(); // law: a store without batches represents the empty list
        held_versions_are_left(); // law: with the same slots a manifest holds the same version
        remove_others(disk, &[])?;
        let log = Log::create(alloc, disk, 3)?;
        let manifest = Manifest::create(alloc, disk, id, config)?;
        let state = manifest.state();
        let tables = LevelTables::open(alloc, disk, &state.tables)?;
        let memtable = Memtable::new(alloc);
        let logs = BatchLogs::new(alloc, BatchLog { first: 1, log });
        let free_file = next_file_of(&manifest);
        Ok(StoreFiles {
            manifest,
            logs,
            tables,
            memtable,
            free_file,
        })
    }

    /// Opens the store that the files represent. Both slots, the logs and the tables that they name
    /// are synced, the batches that no table has are replayed, and the other files are removed.
    pub fn open<D: Disk>(alloc: Global, disk: &mut D) -> Result<StoreFiles, EngineError>
        ensures opens { OpensStore D.Disk FilesHold WereMeantToHold disk.old disk.new result }
        ensures any_moment { (facts : Facts) (list : List BatchContent) (facts' : Facts)
            (list' : List BatchContent) → D.is_honest disk.old →
            StillLeavesOneOf D.Disk disk.old disk.new facts list facts' list' }
        ensures swept { D.is_honest disk.old → IfOk result (λ files. AreSwept
            (kept_files (known_version files).version) (D.state disk.old) (D.state disk.new)) }
        ensures counter { IfOk result HasNoFileUnderWay }

        // Files that open as no store, or for which it is refused, are left as they were.
        ensures still { SparesFound D.Disk disk.old disk.new
            (IsErrAnd result (λ e. IsEnvironmental Disk Memory e → ⊥)) }
    {
        held_versions_are_left(); // law: a crash leaves the version of an open manifest
        version_is_one(); // law: files represent one version at most
        let files = read_files(alloc, disk)?;
        let kept = named_files(alloc, files.manifest.state())?;
        remove_others(disk, &kept)?;
        Ok(files)
    }
}
