//! Laws of the definitions that contracts use. The functions do nothing: their clauses are the
//! laws.
ghost use Rattle.store_files.specs.Apart.{OpenFilesAreApart};
ghost use Rattle.store_files.specs.BesideFiles.{OtherFilesAreFree};
ghost use Rattle.store_files.specs.FloorExamples.{FloorsPassLogs};
ghost use Rattle.store_files.specs.HeldFiles.{HeldFilesAreLeft};
ghost use Rattle.store_files.specs.Raising.{RaisedFactsRise};
ghost use Rattle.store_files.specs.StoreFiles.{DamagedFilesOpen, FirstFilesRepresent};
ghost use Rattle.store_files.specs.StoreFiles.{FlushesRepresent, LongerLogsRepresent};
ghost use Rattle.store_files.specs.StoreFiles.{StoreFilesAreNamed, StoreFilesAreOne};
ghost use Rattle.store_files.specs.StoreFiles.{StoreFilesShowMaps};
ghost use Rattle.store_files.specs.Upgrades.{FormatsOutlastCrashes, FormatsRepresentAlike};

use disk::laws::{durable_file_is_left, reads_are_outcomes};
use kv_types::laws::spellings_differ;
use manifest::laws::{held_versions_are_left, manifest_has_slots, version_is_one};
use record_log::records_are_unique;
use store_model::{appends_keep, empty_represents, flushes_keep, look_ups_are_maps};

/// What slots, logs and tables represent together depends on the files that they name alone.
// law: of `FilesRepresent`
pub fn store_files_are_named()
    ensures { StoreFilesAreNamed }
{}

/// Files whose slots are of the other format, with the same version, represent the same; so it is
/// with what a crash leaves of them.
// law: of `FilesRepresentIn`
pub fn formats_represent_alike()
    ensures alike { FormatsRepresentAlike }
    ensures outlast { FormatsOutlastCrashes }
{
    version_is_one(); // law: files represent one version at most, in one format
}

/// Files represent one node's facts and one list of batches at most, the trimmed batches apart.
// law: of `FilesRepresent`
pub fn store_files_are_one()
    ensures { StoreFilesAreOne }
{
    version_is_one(); // law: files represent one version at most
    // laws: and each log one list of batches
    records_are_unique();
    spellings_differ();
}

/// What open files hold is what their disk reads as and what each crash leaves, and files that are
/// the same hold the same. So it is with what they were meant to hold.
// law: of `FilesHold` and `WereMeantToHold`
pub fn held_files_are_left()
    ensures { HeldFilesAreLeft }
{
    // laws: what a crash leaves of the files that are named, and what a disk reads
    held_versions_are_left();
    durable_file_is_left();
    reads_are_outcomes();
}

/// What open files hold does not depend on files that their version does not name: with any first
/// free file from which on none exists they hold the same, and what a crash leaves of the named
/// files represents it. So it is with what they were meant to hold.
// law: of `FilesHold` and `WereMeantToHold`
pub fn other_files_are_free()
    ensures { OtherFilesAreFree }
{
    // laws: slots that stay hold the version, and what a crash leaves of the named files
    held_versions_are_left();
    durable_file_is_left();
}

/// Files that were meant to represent a list open as it, where of tables only blocks are damaged.
// law: of `WereMeant`
pub fn damaged_files_open()
    ensures { DamagedFilesOpen }
{
    version_is_one(); // law: files represent a lawful version
}

/// What a lookup in memory and tables finds is what the map of so many first batches has.
// law: of `FilesRepresent`
pub fn store_files_show_maps()
    ensures { StoreFilesShowMaps }
{
    look_ups_are_maps();
}

/// The first version of a node and a log without records represent the empty list.
// law: of `FilesRepresent`
pub fn first_files_represent()
    ensures { FirstFilesRepresent }
{
    empty_represents();
}

/// With the memtable in a table, a new log, and both in the manifest, the files represent the same
/// list.
// law: of `FilesRepresent`
pub fn flushes_represent()
    ensures { FlushesRepresent }
{
    flushes_keep();
}

/// With one more batch in the logs, the files represent the list with that batch.
// law: of `FilesRepresent`
pub fn longer_logs_represent()
    ensures { LongerLogsRepresent }
{
    appends_keep();
}

/// The files of tables are apart from those that an append and a tend change, and no file exists
/// from the first free one on.
// law: of `AreUsableFiles`
pub fn open_files_are_apart()
    ensures { OpenFilesAreApart }
{
    manifest_has_slots(); // law: a manifest has the slots
}

/// Where the floor rises, so do the trimmed batches, and none above the floor is trimmed.
// law: of `facts_with_floor`
pub fn raised_facts_rise()
    ensures { RaisedFactsRise }
{}

/// Which of three logs are obsolete at a floor.
pub fn floor_examples()
    ensures { FloorsPassLogs }
{}
