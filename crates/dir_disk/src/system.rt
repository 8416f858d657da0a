// What is asked of the system about a folder.
ghost use Rattle.std.specs.Prelude.{◌≡◌, ◌⊎◌, IfErr, false};
ghost use Rattle.disk.specs.{IsEnvironmental};
ghost use Rattle.disk.specs.declared.DiskError.TheVariants.{Failed, Memory};

use crate::answers::{EntryKind, cause, done, kind_of, opening_of, removal_of};
use crate::names::number_of;
use disk::DiskError;
use std::alloc::Global;
use std::fs::{self, File, OpenOptions};
use std::io::{self, ErrorKind};
use std::rt::Files;

// So often a call that a signal interrupted is made.
const TRIES: usize = 100;

/// What is at this path.
pub fn kind_at<R: Files>(rt: &R, path: &str) -> Result<EntryKind, DiskError>
    ensures { IfErr result (λ e. e ≡ Failed) }
{
    done(kind_of(fs::symlink_metadata(rt, path)))
}

/// Opens the file at this path, which one may ask for who would create it.
pub fn opened<R: Files<File = File>>(
    rt: &R,
    path: &str,
    writes: bool,
    creates: bool,
) -> Result<File, DiskError>
    ensures { IfErr result (λ e. (e ≡ Failed) ⊎ ((e ≡ DiskError.NoFile) × (creates ≡ false))) }
{
    let mut how = OpenOptions::new();
    how.read(true).write(writes);
    opening_of(how.open(rt, path), creates)
}

/// Makes a file at this path, where nothing is, not even a link to nothing.
pub fn created<R: Files<File = File>>(rt: &R, path: &str) -> Result<File, DiskError>
    ensures { IfErr result (λ e. e ≡ Failed) }
{
    let mut how = OpenOptions::new();
    how.read(true).write(true).create_new(true);
    done(how.open(rt, path))
}

/// Asks the system to make the names of the folder at this path durable.
pub fn synced<R: Files<File = File>>(rt: &R, path: &str) -> Result<(), DiskError>
    ensures { IfErr result (λ e. e ≡ Failed) }
{
    let folder = done(File::open(rt, path))?;
    done(folder.sync_all())
}

/// Removes the file at this path.
pub fn removed<R: Files>(rt: &R, path: &str) -> Result<(), DiskError>
    ensures { IfErr result (λ e. (e ≡ Failed) ⊎ (e ≡ DiskError.NoFile)) }
{
    for _ in 0..TRIES {
        match fs::remove_file(rt, path) {
            Err(e) if e.kind() == ErrorKind::Interrupted => {}
            answer => return removal_of(answer),
        }
    }
    Err(DiskError::Failed)
}

// The number of the file that an entry of a folder is, if it is one.
fn file_of<R: Files>(rt: &R, entry: &fs::DirEntry<R>) -> io::Result<Option<u64>> {
    let Some(number) = number_of(entry.file_name()) else {
        return Ok(None);
    };
    match kind_of(fs::symlink_metadata(rt, entry.path()))? {
        EntryKind::File(_) => Ok(Some(number)),
        EntryKind::Other | EntryKind::Absent => Ok(None),
    }
}

// The numbers of the files in this folder, where no call for them was interrupted.
fn listed<R: Files + Alloc<A = Global> + Clone + Drop>(
    rt: &R,
    folder: &str,
) -> io::Result<Vec<u64>> {
    let mut numbers = Vec::new(rt.alloc());
    for entry in fs::read_dir(rt, folder)? {
        match entry {
            Ok(entry) => {
                if let Some(number) = file_of(rt, &entry)? {
                    numbers.push(number)?;
                }
            }
            // A name that is no text is none of a file of the disk.
            Err(e) if e.kind() == ErrorKind::InvalidFilename => {}
            Err(e) => return Err(e),
        }
    }
    Ok(numbers)
}

/// The numbers of the files in this folder.
pub fn numbers_in<R: Files + Alloc<A = Global> + Clone + Drop>(
    rt: &R,
    folder: &str,
) -> Result<Vec<u64>, DiskError>
    ensures { IfErr result (IsEnvironmental Failed Memory) }
{
    for _ in 0..TRIES {
        match listed(rt, folder) {
            Ok(numbers) => return Ok(numbers),
            Err(e) if e.kind() == ErrorKind::Interrupted => {}
            Err(e) => return Err(cause(e)),
        }
    }
    Err(DiskError::Failed)
}
