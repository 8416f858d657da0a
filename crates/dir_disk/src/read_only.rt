// A disk that is only read.
ghost use Rattle.std.specs.Prelude.{◌≡◌, IsErrOf, length};
ghost use Rattle.disk.specs.{IsSame, KeepsDisk};
ghost use Rattle.disk.specs.Calls.{FilesAnswer, LengthAnswer, ReadAnswer};
ghost use Rattle.dir_disk.specs.Disks.{LooksOnce};

use disk::{Disk, DiskError};

/// A disk of which files are only listed, measured and read. The disk is private to this file, so
/// who has it here has no other call of it.
#[derive(Drop)]
pub struct ReadOnly<D: Disk> {
    disk: D,
}

impl<D: Disk + Drop> ReadOnly<D> {
    pub fn new(disk: D) -> ReadOnly<D>
        ensures { result.disk ≡ disk }
    {
        ReadOnly { disk }
    }

    /// The disk.
    pub fn into_disk(self) -> D
        ensures { result ≡ self.disk }
    {
        self.disk
    }

    pub fn files(&mut self) -> Result<Vec<u64>, DiskError>
        ensures kept { KeepsDisk D.Disk self.old.disk self.new.disk
            (IsErrOf result DiskError.Failed) ⊥ IsSame }
        ensures once { LooksOnce D.Disk self.old.disk self.new.disk }
        ensures files { D.is_honest self.old.disk → FilesAnswer (D.state self.old.disk) result }
    {
        self.disk.files()
    }

    pub fn length(&mut self, file: u64) -> Result<u64, DiskError>
        ensures kept { KeepsDisk D.Disk self.old.disk self.new.disk
            (IsErrOf result DiskError.Failed) ⊥ IsSame }
        ensures once { LooksOnce D.Disk self.old.disk self.new.disk }
        ensures memory { IsErrOf result DiskError.Memory → D.allocates }
        ensures length { D.is_honest self.old.disk →
            LengthAnswer (D.state self.old.disk) file result }
    {
        self.disk.length(file)
    }

    pub fn read(&mut self, file: u64, at: u64, into: &mut [u8]) -> Result<(), DiskError>
        ensures kept { KeepsDisk D.Disk self.old.disk self.new.disk
            (IsErrOf result DiskError.Failed) ⊥ IsSame }
        ensures once { LooksOnce D.Disk self.old.disk self.new.disk }
        ensures memory { IsErrOf result DiskError.Memory → D.allocates }
        ensures read { D.is_honest self.old.disk →
            ReadAnswer (D.state self.old.disk) file at (length into.old) result into.new }
    {
        self.disk.read(file, at, into)
    }
}
