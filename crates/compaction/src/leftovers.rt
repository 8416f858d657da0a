// Files that a merge leaves where it is abandoned.
ghost use Rattle.std.specs.Prelude.{◌≡◌, IsErrOf, IsNone, MatchResult};
ghost use Rattle.disk.specs.{IsEnvironmental, seen};
ghost use Rattle.compaction.specs.declared.error.MergeError.TheVariants.{Disk, Memory};
ghost use Rattle.compaction.specs.Leftovers.{IsBesideVersion, RemovesLeftovers};
ghost use Rattle.compaction.specs.Outputs.{WritesOnly};

use crate::error::MergeError;
use disk::{Disk, DiskError};
use version_edits::{StoreVersion, names_file, names_log};

// Removes a file, if there is one.
fn remove_file<D: Disk>(disk: &mut D, file: u64) -> Result<(), MergeError>
    ensures writes { WritesOnly D.Disk (λ one. file ≡ one) disk.old disk.new
        (IsErrOf result Disk) ⊥ }
    ensures removed { D.is_honest disk.old →
        MatchResult result (λ _. IsNone (seen (D.state disk.new file)))
        (IsEnvironmental Disk Memory) }
{
    match disk.remove(file) {
        Ok(()) | Err(DiskError::NoFile) => Ok(()),
        Err(DiskError::Failed) => Err(MergeError::Disk),
        Err(DiskError::Short) => Err(MergeError::Damaged),
        Err(DiskError::Memory) => Err(MergeError::Memory),
    }
}

// Removes a file, unless the version names it.
fn remove_unnamed<D: Disk>(
    disk: &mut D,
    version: &StoreVersion,
    file: u64,
) -> Result<(), MergeError>
    ensures writes { WritesOnly D.Disk
        (λ one. (file ≡ one) × IsBesideVersion version.now.version one) disk.old disk.new
        (IsErrOf result Disk) ⊥ }
    ensures removed { D.is_honest disk.old → MatchResult result
        (λ _. IsBesideVersion version.now.version file → IsNone (seen (D.state disk.new file)))
        (IsEnvironmental Disk Memory) }
{
    if names_log(&version.logs, file) {
        return Ok(());
    }
    if names_file(&version.tables, file) {
        return Ok(());
    }
    remove_file(disk, file)
}

/// Removes the files with numbers from the first one up to the next one that the version does not
/// name.
pub(crate) fn remove_leftovers<D: Disk>(
    disk: &mut D,
    version: &StoreVersion,
    first: u64,
    next_file: u64,
) -> Result<(), MergeError>
    ensures { RemovesLeftovers D.Disk first next_file version.now.version disk.old disk.new result }
{
    for file in first..next_file {
        remove_unnamed(disk, version, file)?;
    }
    Ok(())
}
