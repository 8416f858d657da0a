// What the system answered, as an answer of the disk. Nothing here asks it for anything.
ghost use Rattle.std.specs.Prelude.{◌≡◌, IsErrOf, MatchResult, Ok};
ghost use Rattle.dir_disk.specs.Answers.{IsKindAnswer, IsListingFault, IsOpeningAnswer};
ghost use Rattle.dir_disk.specs.Answers.{IsReadingAnswer, IsRemovalAnswer};

use disk::DiskError;
use std::fs::{File, Metadata};
use std::io::{self, ErrorKind};

/// What is at a path.
#[derive(Drop)]
pub enum EntryKind {
    /// A file with so many bytes.
    File(u64),
    /// Something that is no file, as a folder or a pipe.
    Other,
    /// Nothing has this name.
    Absent,
}

/// What is at a path of which the system says this. A symbolic link is no file.
pub fn kind_of(found: io::Result<Metadata>) -> io::Result<EntryKind>
    ensures { IsKindAnswer found result }
{
    match found {
        Ok(metadata) if metadata.is_file() => Ok(EntryKind::File(metadata.len())),
        Ok(_) => Ok(EntryKind::Other),
        Err(e) if e.kind() == ErrorKind::NotFound => Ok(EntryKind::Absent),
        Err(e) => Err(e),
    }
}

/// The file that was opened, which may have gone since it was looked at. To one who would have made
/// it, that is a failure.
pub fn opening_of(opened: io::Result<File>, creates: bool) -> Result<File, DiskError>
    ensures { IsOpeningAnswer creates opened result }
{
    match opened {
        Ok(file) => Ok(file),
        Err(e) if e.kind() == ErrorKind::NotFound && !creates => Err(DiskError::NoFile),
        Err(_) => Err(DiskError::Failed),
    }
}

/// Whether bytes were read.
pub fn reading_of(answer: io::Result<()>) -> Result<(), DiskError>
    ensures { IsReadingAnswer answer result }
{
    match answer {
        Ok(()) => Ok(()),
        Err(e) if e.kind() == ErrorKind::UnexpectedEof => Err(DiskError::Short),
        Err(_) => Err(DiskError::Failed),
    }
}

/// Whether a file was removed.
pub fn removal_of(answer: io::Result<()>) -> Result<(), DiskError>
    ensures { IsRemovalAnswer answer result }
{
    match answer {
        Ok(()) => Ok(()),
        Err(e) if e.kind() == ErrorKind::NotFound => Err(DiskError::NoFile),
        Err(_) => Err(DiskError::Failed),
    }
}

/// Why a folder was not listed.
pub fn cause(e: io::Error) -> DiskError
    ensures { IsListingFault e result }
{
    match e.kind() {
        ErrorKind::OutOfMemory => DiskError::Memory,
        _ => DiskError::Failed,
    }
}

/// What was asked for, where it was done.
pub fn done<T>(called: io::Result<T>) -> Result<T, DiskError>
    ensures { MatchResult called (λ it. result ≡ Ok it) (λ _. IsErrOf result DiskError.Failed) }
{
    match called {
        Ok(it) => Ok(it),
        Err(_) => Err(DiskError::Failed),
    }
}
