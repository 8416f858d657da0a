//! What a creation leaves that was cut short.
ghost use Rattle.std.specs.Prelude.{◌↔◌, IsErrOf, IsTrue};
ghost use Rattle.std.specs.List.{All};
ghost use Rattle.disk.specs.{contents};
ghost use Rattle.disk.specs.declared.error.DiskError.TheVariants.{Failed};
ghost use Rattle.manifest.specs.Creations.{FindsWhether, HasNoRecord, HasOnlyCreationFiles};
ghost use Rattle.manifest.specs.Creations.{IsCreationFile, OnlyLooks};

use disk::{Disk, DiskError};

/// The file of a store's first log. The two files before it are the slots of the manifest.
const FIRST_LOG: u64 = 3;

// Whether this is a file that a creation makes.
fn is_creation_file(file: u64) -> bool
    ensures { IsTrue result ↔ IsCreationFile file }
{
    1 <= file && file <= FIRST_LOG
}

// Whether these are files that a creation makes, and no others.
fn are_creation_files(files: &[u64]) -> bool
    ensures { IsTrue result ↔ All IsCreationFile files.now }
{
    files.iter().all(|file| is_creation_file(*file))
}

// Whether the first log has no record, also where it is absent.
fn has_no_record<D: Disk>(disk: &mut D) -> Result<bool, DiskError>
    ensures looks { OnlyLooks D.Disk disk.old disk.new (IsErrOf result Failed) }
    ensures found { D.is_honest disk.old →
        FindsWhether (HasNoRecord (contents (D.state disk.old))) result }
{
    match disk.length(FIRST_LOG) {
        Ok(length) => Ok(length <= 1),
        Err(DiskError::NoFile) => Ok(true),
        Err(DiskError::Failed) => Err(DiskError::Failed),
        // No file is shorter than nothing, so only memory is wanting.
        Err(DiskError::Short) => Err(DiskError::Memory),
        Err(DiskError::Memory) => Err(DiskError::Memory),
    }
}

/// Whether the files of a disk are at most what a creation may have left that was cut short: no
/// table, and no log with a record.
pub fn has_only_creation_files<D: Disk>(disk: &mut D) -> Result<bool, DiskError>
    ensures looks { OnlyLooks D.Disk disk.old disk.new (IsErrOf result Failed) }
    ensures found { D.is_honest disk.old →
        FindsWhether (HasOnlyCreationFiles (contents (D.state disk.old))) result }
{
    let files = disk.files()?;
    if !are_creation_files(&files) {
        return Ok(false);
    }
    has_no_record(disk)
}
