// A folder as a disk. No contract says what the system does with its files, so this disk claims
// neither that it is honest nor that it is reliable.
ghost use Rattle.std.specs.Prelude.{◌≡◌, ◌≤◌, ◌<◌, ◌^◌, ◌-◌, [], None, IfErr, IfOk, IsErrOf, OnOk};
ghost use Rattle.std.specs.Prelude.{◌↔◌, IsErr, IsOk, MatchResult, false, length};
ghost use Rattle.std.specs.Prelude.{string_bytes, true, ℕ};
ghost use Rattle.std.specs.List.Sorted.{IsNonDecreasing};
ghost use Rattle.disk.specs.{Absent, IsEnvironmental};
ghost use Rattle.disk.specs.declared.DiskError.TheVariants.{Failed, Memory};
ghost use Rattle.dir_disk.specs.Answers.{IsReachRefusal};
ghost use Rattle.disk.specs.Calls.{EndsOutOfRange};

use crate::answers::EntryKind;
use crate::failure_count::FailureCount;
use crate::lock::{LockError, locked};
use crate::names::{path_of, path_of_folder};
use crate::new_names::NewNames;
use crate::open_file::OpenFile;
use crate::open_files::OpenFiles;
use crate::system::{created, kind_at, numbers_in, opened, removed, synced};
use disk::{Crash, Disk, DiskError, Fault, Junk, ends_out_of_range};
use std::alloc::{AllocError, Global};
use std::fs::File;
use std::rt::Files;

/// A folder whose files are named by their numbers in decimal. Other names in it are ignored.
#[derive(Drop)]
pub struct DirDisk<R> {
    rt: R,
    folder: String,
    files: OpenFiles,
    new_names: NewNames,
    writes: bool,
    // The system is called no more.
    is_shut: bool,
    lock: Option<File>,
    failures: FailureCount,
}

impl<R: Files<File = File> + Alloc<A = Global> + Clone + Drop> DirDisk<R> {
    ghost use Rattle.dir_disk.specs.Disks.{HasLock, IsFolderAt, IsShut, KeepsUncounted};
    ghost use Rattle.dir_disk.specs.Disks.{disk_folder, is_shut, may_change, open_files};
    ghost use Rattle.dir_disk.specs.Open.{IsLatest, IsNotOpen, IsSameButForNames};

    /// The folder at this path. It need not be there, and is not made. An empty path is that of no
    /// folder: each call of the disk fails.
    pub fn new(rt: R, folder: &str) -> Result<DirDisk<R>, AllocError>
        ensures count { IfOk result (λ disk. ⟦<DirDisk<R> as Disk>⟧.failures disk ≡ 0) }
        ensures folder { IfOk result (IsFolderAt folder.now) }
        ensures writes { IfOk result (λ disk. may_change disk ≡ true) }
        ensures shut { IfOk result (λ disk. IsShut disk ↔ (folder.now ≡ [])) }
        ensures unlocked { IfOk result (λ disk. HasLock disk → ⊥) }
        ensures closed { IfOk result (λ disk. (file : ℕ) → IsNotOpen file (open_files disk)) }
    {
        DirDisk::over(rt, folder, true)
    }

    /// The folder at this path, whose files are opened to be read alone. What would change one
    /// fails, before the system is called.
    pub fn to_read(rt: R, folder: &str) -> Result<DirDisk<R>, AllocError>
        ensures count { IfOk result (λ disk. ⟦<DirDisk<R> as Disk>⟧.failures disk ≡ 0) }
        ensures folder { IfOk result (IsFolderAt folder.now) }
        ensures reads { IfOk result (λ disk. may_change disk ≡ false) }
        ensures shut { IfOk result (λ disk. IsShut disk ↔ (folder.now ≡ [])) }
        ensures unlocked { IfOk result (λ disk. HasLock disk → ⊥) }
        ensures closed { IfOk result (λ disk. (file : ℕ) → IsNotOpen file (open_files disk)) }
    {
        DirDisk::over(rt, folder, false)
    }

    fn over(rt: R, folder: &str, writes: bool) -> Result<DirDisk<R>, AllocError>
        ensures { IfOk result (λ disk. (disk.failures.count ≡ 0) × (disk.writes ≡ writes)
            × (string_bytes disk.folder ≡ folder.now) × (disk.lock ≡ None)
            × (disk.files.files.items ≡ []) × (IsShut disk ↔ (folder.now ≡ []))) }
    {
        let alloc = rt.alloc();
        Ok(DirDisk {
            rt,
            folder: String::from_str(alloc, folder)?,
            files: OpenFiles::new(alloc)?,
            new_names: NewNames::new(alloc),
            writes,
            is_shut: folder.is_empty(),
            lock: None,
            failures: FailureCount::new(),
        })
    }

    /// Locks the folder, which has to be there, against other users that lock it, of this process
    /// and of others. The lock is held as long as this disk is there, and is free at the latest
    /// when the process has ended. It is a lock of the system on the folder itself, so no file is
    /// made for it. It is no call of the device, and is refused where that is called no more.
    pub fn lock(&mut self) -> Result<(), LockError>
        ensures count { ⟦<DirDisk<R> as Disk>⟧.failures self.new ≡
            ⟦<DirDisk<R> as Disk>⟧.failures self.old }
        ensures locked { OnOk result (HasLock self.new) }
        ensures folder { disk_folder self.new ≡ disk_folder self.old }
        ensures writes { may_change self.new ≡ may_change self.old }
        ensures refused { IsErr result → self.new ≡ self.old }
        ensures shut { (is_shut self.new ≡ is_shut self.old)
            × (IsShut self.old → (HasLock self.old → ⊥) → IsErrOf result LockError.Failed) }
        ensures held { HasLock self.old → (self.new ≡ self.old) × IsOk result }
    {
        if self.lock.is_none() {
            if self.is_shut {
                return Err(LockError::Failed);
            }
            let path = path_of_folder(self.rt.alloc(), self.folder.as_str())?;
            self.lock = Some(locked(File::open(&self.rt, path.as_str()))?);
        }
        Ok(())
    }

    // Whether the system is called: not where this disk is shut, nor at the last count.
    fn works(&self) -> Result<(), DiskError>
        ensures { MatchResult result
            (λ _. (self.now.failures.count < 2 ^ 64 - 1) × (IsShut self.now → ⊥))
            (λ e. e ≡ DiskError.Failed) }
    {
        if self.is_shut {
            return Err(DiskError::Failed);
        }
        self.failures.works()
    }

    // Whether a call is made that changes files.
    fn may_write(&self) -> Result<(), DiskError>
        ensures works { MatchResult result
            (λ _. (self.now.failures.count < 2 ^ 64 - 1) × (IsShut self.now → ⊥))
            (λ e. e ≡ DiskError.Failed) }
        ensures reads { self.now.writes ≡ false → IsErrOf result DiskError.Failed }
    {
        if !self.writes {
            return Err(DiskError::Failed);
        }
        self.works()
    }

    // Opens the file with this number. Where it is absent, it is created if that is asked for.
    fn open(&mut self, number: u64, creates: bool) -> Result<OpenFile, DiskError>
        ensures kept { IsSameButForNames self.old self.new }
        ensures number { IfOk result (λ it. it.number ≡ number) }
        ensures refused { IfErr result (IsReachRefusal creates) }
    {
        let path = path_of(self.rt.alloc(), self.folder.as_str(), number)?;
        match kind_at(&self.rt, path.as_str())? {
            EntryKind::File(len) => {
                let file = opened(&self.rt, path.as_str(), self.writes, creates)?;
                Ok(OpenFile::new(number, file, len))
            }
            EntryKind::Absent if creates => {
                self.new_names.note(number)?;
                let file = created(&self.rt, path.as_str())?;
                Ok(OpenFile::new(number, file, 0))
            }
            EntryKind::Absent => Err(DiskError::NoFile),
            EntryKind::Other => Err(DiskError::Failed),
        }
    }

    // Opens the file with this number, unless it is open, and makes it the latest. Where it is
    // absent, it is created if that is asked for.
    fn reach(&mut self, number: u64, creates: bool) -> Result<(), DiskError>
        ensures kept { KeepsUncounted self.old self.new result }
        ensures latest { OnOk result (IsLatest number self.new.files) }
        ensures refused { IfErr result (IsReachRefusal creates) }
    {
        self.works()?;
        if self.files.touch(number)? {
            return Ok(());
        }
        let file = self.open(number, creates)?;
        self.files.keep(file)?;
        Ok(())
    }

    fn list(&self) -> Result<Vec<u64>, DiskError>
        ensures kept { KeepsUncounted self.now self.now result }
        ensures rising { IfOk result (λ numbers. IsNonDecreasing numbers.items) }
        ensures refused { IfErr result (IsEnvironmental Failed Memory) }
    {
        self.works()?;
        let mut numbers = numbers_in(&self.rt, self.folder.as_str())?;
        numbers.sort()?;
        Ok(numbers)
    }

    fn write_in(&mut self, file: u64, at: u64, bytes: &[u8]) -> Result<(), DiskError>
        ensures kept { KeepsUncounted self.old self.new result }
        ensures reads { self.old.writes ≡ false → IsErrOf result DiskError.Failed }
        ensures range { EndsOutOfRange at (length bytes.now) → IsErrOf result DiskError.Failed }
        ensures first { at ≡ 0 → IfErr result (IsEnvironmental Failed Memory) }
    {
        self.may_write()?;
        if ends_out_of_range(at, bytes.len()) {
            return Err(DiskError::Failed);
        }
        self.reach(file, at == 0)?;
        self.files.latest().write(at, bytes)
    }

    fn cut_in(&mut self, file: u64, length: u64) -> Result<(), DiskError>
        ensures kept { KeepsUncounted self.old self.new result }
        ensures reads { self.old.writes ≡ false → IsErrOf result DiskError.Failed }
    {
        self.may_write()?;
        self.reach(file, false)?;
        self.files.latest().cut(length)
    }

    fn remove_in(&mut self, file: u64) -> Result<(), DiskError>
        ensures kept { KeepsUncounted self.old self.new result }
        ensures reads { self.old.writes ≡ false → IsErrOf result DiskError.Failed }
        ensures closed { OnOk result (IsNotOpen file self.new.files) }
        ensures not_short { IsErrOf result DiskError.Short → ⊥ }
    {
        self.may_write()?;
        let path = path_of(self.rt.alloc(), self.folder.as_str(), file)?;
        self.files.close(file);
        removed(&self.rt, path.as_str())
    }

    // The folder itself is synced before a file that this disk has made is synced first, so that
    // the name of a file which was synced stays.
    fn sync_name(&mut self, file: u64) -> Result<(), DiskError>
        ensures kept { IsSameButForNames self.old self.new }
        ensures refused { IfErr result (IsEnvironmental Failed Memory) }
    {
        if self.new_names.has(file) {
            let path = path_of_folder(self.rt.alloc(), self.folder.as_str())?;
            synced(&self.rt, path.as_str())?;
            self.new_names.clear();
        }
        Ok(())
    }

    fn sync_in(&mut self, file: u64) -> Result<(), DiskError>
        ensures kept { KeepsUncounted self.old self.new result }
        ensures not_short { IsErrOf result DiskError.Short → ⊥ }
    {
        self.works()?;
        self.sync_name(file)?;
        self.reach(file, false)?;
        self.files.latest().sync()
    }
}

impl<R: Files<File = File> + Alloc<A = Global> + Clone + Drop> Disk for DirDisk<R> {
    ghost use Rattle.dir_disk.specs.Disks.{IsShut, KeepsFolder, folder_incidents, may_change};
    ghost use Rattle.dir_disk.specs.Disks.{open_files};
    ghost use Rattle.dir_disk.specs.Open.{IsNotOpen};

    ghost is_honest = { λ disk. ⊥ };

    ghost state = { λ disk file. Absent None };

    ghost failures = { λ disk. disk.failures.count };

    ghost is_reliable = { λ disk. ⊥ };

    ghost past = { λ disk. [] };

    ghost incidents = { folder_incidents };

    ghost allocates = { Unit {0} };

    fn files(&mut self) -> Result<Vec<u64>, DiskError>
        ensures kept { KeepsFolder self.old self.new result ⊥ }
        ensures rising { IfOk result (λ numbers. IsNonDecreasing numbers.items) }
        ensures refused { IfErr result (IsEnvironmental Failed Memory) }
    {
        let answer = self.list();
        self.failures.end(answer)
    }

    fn length(&mut self, file: u64) -> Result<u64, DiskError>
        ensures kept { KeepsFolder self.old self.new result ⊥ }
        ensures not_short { IsErrOf result DiskError.Short → ⊥ }
    {
        let answer = match self.reach(file, false) {
            Ok(()) => self.files.latest().length(),
            Err(e) => Err(e),
        };
        self.failures.end(answer)
    }

    fn read(&mut self, file: u64, at: u64, into: &mut [u8]) -> Result<(), DiskError>
        ensures kept { KeepsFolder self.old self.new result ⊥ }
        ensures range { EndsOutOfRange at (length into.old) → IsErr result }
    {
        let answer = match self.reach(file, false) {
            Ok(()) => self.files.latest().read(at, into),
            Err(e) => Err(e),
        };
        self.failures.end(answer)
    }

    fn write_at(&mut self, file: u64, at: u64, bytes: &[u8]) -> Result<(), DiskError>
        ensures kept { KeepsFolder self.old self.new result ⊥ }
        ensures reads { may_change self.old ≡ false → IsErrOf result DiskError.Failed }
        ensures range { EndsOutOfRange at (length bytes.now) → IsErrOf result DiskError.Failed }
        ensures first { at ≡ 0 → IfErr result (IsEnvironmental Failed Memory) }
    {
        let answer = self.write_in(file, at, bytes);
        self.failures.end(answer)
    }

    fn cut(&mut self, file: u64, length: u64) -> Result<(), DiskError>
        ensures kept { KeepsFolder self.old self.new result ⊥ }
        ensures reads { may_change self.old ≡ false → IsErrOf result DiskError.Failed }
    {
        let answer = self.cut_in(file, length);
        self.failures.end(answer)
    }

    fn sync(&mut self, file: u64) -> Result<(), DiskError>
        ensures kept { KeepsFolder self.old self.new result
            (IsErrOf result DiskError.Failed) }
        ensures not_short { IsErrOf result DiskError.Short → ⊥ }
        ensures shut { IsErrOf result DiskError.Failed → IsShut self.new }
    {
        let answer = self.sync_in(file);
        if let Err(DiskError::Failed) = answer {
            self.is_shut = true;
        }
        self.failures.end(answer)
    }

    fn remove(&mut self, file: u64) -> Result<(), DiskError>
        ensures kept { KeepsFolder self.old self.new result ⊥ }
        ensures reads { may_change self.old ≡ false → IsErrOf result DiskError.Failed }
        ensures closed { OnOk result (IsNotOpen file (open_files self.new)) }
        ensures not_short { IsErrOf result DiskError.Short → ⊥ }
    {
        let answer = self.remove_in(file);
        self.failures.end(answer)
    }
}

/// A folder can neither be made to fail nor to crash: these calls leave it as it is.
impl<R: Files<File = File> + Alloc<A = Global> + Clone + Drop> Crash for DirDisk<R> {
    fn arm(&mut self, _fault: &Fault)
        ensures { self.new ≡ self.old }
    {}

    fn has_struck(&self) -> bool
        ensures { result ≡ false }
    {
        false
    }

    fn crash(&mut self, junk: Junk)
        ensures { self.new ≡ self.old }
    {
        drop(junk);
    }
}
