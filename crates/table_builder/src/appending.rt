//! Bytes appended to a file of which nothing was synced.
ghost use Rattle.table_builder.specs.Calls.{AppendsBytes};
ghost use Rattle.table_builder.specs.Fresh.{IsFresh, IsSynced};

use disk::Disk;
use table_format::FileError;

/// Appends bytes.
pub fn append<D: Disk>(disk: &mut D, file: u64, at: u64, bytes: &[u8]) -> Result<(), FileError>
    ensures { AppendsBytes D.Disk file at bytes.now IsFresh disk.old disk.new result }
{
    disk.write_at(file, at, bytes)?;
    Ok(())
}

/// Appends the last bytes, and makes the file durable.
pub fn append_last<D: Disk>(disk: &mut D, file: u64, at: u64, bytes: &[u8]) -> Result<(), FileError>
    ensures { AppendsBytes D.Disk file at bytes.now IsSynced disk.old disk.new result }
{
    disk.write_at(file, at, bytes)?;
    disk.sync(file)?;
    Ok(())
}
