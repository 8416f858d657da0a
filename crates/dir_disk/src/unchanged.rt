// A disk over another one, of which it changes nothing.
ghost use Rattle.std.specs.Prelude.{◌≡◌, ◌⊎◌, ◌≤◌, ◌^◌, ◌-◌, ◌++◌, ◌∷◌, [], Err, None, IsErrOf};
ghost use Rattle.std.specs.Prelude.{MatchResult, false, length, true};
ghost use Rattle.disk.specs.{Absent};
ghost use Rattle.disk.specs.Calls.{FilesAnswer, LengthAnswer, ReadAnswer};

use crate::failure_count::FailureCount;
use crate::read_only::ReadOnly;
use disk::{Disk, DiskError};
use std::alloc::Global;

/// A disk of which no call changes anything. A file that is removed is only left out from then on,
/// and one that is synced only has to be there. What would write or cut fails. What it lists,
/// measures and reads is what an honest disk inside has, without the files that were removed.
#[derive(Drop)]
pub struct Unchanged<D: Disk> {
    inner: ReadOnly<D>,
    removed: Vec<u64>,
    failures: FailureCount,
}

impl<D: Disk + Drop> Unchanged<D> {
    ghost use Rattle.dir_disk.specs.Disks.{FindsFile, IsUncounted, KeepsInner, LooksOnce};
    ghost use Rattle.dir_disk.specs.Disks.{disk_below, files_left_out, is_left_out, shown_state};

    /// A disk over this one, none of whose files is left out.
    pub fn new(alloc: Global, disk: D) -> Unchanged<D>
        ensures inner { disk_below result ≡ disk }
        ensures none { files_left_out result ≡ [] }
        ensures count { ⟦<Unchanged<D> as Disk>⟧.failures result ≡ 0 }
    {
        Unchanged {
            inner: ReadOnly::new(disk),
            removed: Vec::new(alloc),
            failures: FailureCount::new(),
        }
    }

    /// The disk inside.
    pub fn into_disk(self) -> D
        ensures { result ≡ disk_below self }
    {
        self.inner.into_disk()
    }

    // Whether a call is made of the file: it was not removed.
    fn may_look(&self, file: u64) -> Result<(), DiskError>
        ensures last { 2 ^ 64 - 1 ≤ self.now.failures.count → IsErrOf result DiskError.Failed }
        ensures looks { MatchResult result (λ _. is_left_out self.now.removed.items file ≡ false)
            (λ e. ((e ≡ DiskError.Failed) × (2 ^ 64 - 1 ≤ self.now.failures.count))
            ⊎ ((e ≡ DiskError.NoFile) × (is_left_out self.now.removed.items file ≡ true))) }
    {
        self.failures.works()?;
        if self.removed.contains(&file) {
            return Err(DiskError::NoFile);
        }
        Ok(())
    }

    #[tactic(auto, using(crate::proofs::Looks::looks_never))]
    fn numbers(&mut self) -> Result<Vec<u64>, DiskError>
        ensures counts { IsUncounted result self.old.failures.count self.new.failures.count }
        ensures same { KeepsInner D.Disk self.old self.new result }
        ensures once { LooksOnce D.Disk (disk_below self.old) (disk_below self.new) }
        ensures left_out { self.new.removed.items ≡ self.old.removed.items }
        ensures files { D.is_honest self.old.inner.disk → FilesAnswer
            (shown_state self.old.removed.items (D.state self.old.inner.disk)) result }
    {
        self.failures.works()?;
        let mut numbers = self.inner.files()?;
        let removed = &self.removed;
        numbers.retain(|number| !removed.contains(&*number));
        Ok(numbers)
    }

    #[tactic(auto, using(crate::proofs::Looks::looks_never))]
    fn measure(&mut self, file: u64) -> Result<u64, DiskError>
        ensures counts { IsUncounted result self.old.failures.count self.new.failures.count }
        ensures same { KeepsInner D.Disk self.old self.new result }
        ensures once { LooksOnce D.Disk (disk_below self.old) (disk_below self.new) }
        ensures left_out { self.new.removed.items ≡ self.old.removed.items }
        ensures memory { IsErrOf result DiskError.Memory → D.allocates }
        ensures length { D.is_honest self.old.inner.disk → LengthAnswer
            (shown_state self.old.removed.items (D.state self.old.inner.disk)) file result }
    {
        self.may_look(file)?;
        self.inner.length(file)
    }

    #[tactic(auto, using(crate::proofs::Looks::looks_never))]
    fn fill(&mut self, file: u64, at: u64, into: &mut [u8]) -> Result<(), DiskError>
        ensures counts { IsUncounted result self.old.failures.count self.new.failures.count }
        ensures same { KeepsInner D.Disk self.old self.new result }
        ensures once { LooksOnce D.Disk (disk_below self.old) (disk_below self.new) }
        ensures left_out { self.new.removed.items ≡ self.old.removed.items }
        ensures memory { IsErrOf result DiskError.Memory → D.allocates }
        ensures read { D.is_honest self.old.inner.disk → ReadAnswer
            (shown_state self.old.removed.items (D.state self.old.inner.disk)) file at
            (length into.old) result into.new }
    {
        self.may_look(file)?;
        self.inner.read(file, at, into)
    }

    #[tactic(auto, using(crate::proofs::Looks::looks_never))]
    fn look_for(&mut self, file: u64) -> Result<(), DiskError>
        ensures counts { IsUncounted result self.old.failures.count self.new.failures.count }
        ensures same { KeepsInner D.Disk self.old self.new result }
        ensures once { LooksOnce D.Disk (disk_below self.old) (disk_below self.new) }
        ensures left_out { self.new.removed.items ≡ self.old.removed.items }
        ensures memory { IsErrOf result DiskError.Memory → D.allocates }
        ensures found { D.is_honest self.old.inner.disk → FindsFile
            (shown_state self.old.removed.items (D.state self.old.inner.disk)) file result }
    {
        self.may_look(file)?;
        self.inner.length(file)?;
        Ok(())
    }

    fn leave_out(&mut self, file: u64) -> Result<(), DiskError>
        ensures counts { IsUncounted result self.old.failures.count self.new.failures.count }
        ensures same { KeepsInner D.Disk self.old self.new result }
        ensures once { LooksOnce D.Disk (disk_below self.old) (disk_below self.new) }
        ensures left_out { MatchResult result
            (λ _. self.new.removed.items ≡ self.old.removed.items ++ file ∷ [])
            (λ _. self.new.removed.items ≡ self.old.removed.items) }
        ensures found { D.is_honest self.old.inner.disk → FindsFile
            (shown_state self.old.removed.items (D.state self.old.inner.disk)) file result }
    {
        self.look_for(file)?;
        self.removed.push(file)?;
        Ok(())
    }
}

impl<D: Disk + Drop> Disk for Unchanged<D> {
    ghost use Rattle.dir_disk.specs.Disks.{FindsFile, KeepsBelow, LeavesBelow, LooksOnce};
    ghost use Rattle.dir_disk.specs.Disks.{disk_below, files_left_out, shown_state};

    ghost is_honest = { λ disk. ⊥ };

    ghost state = { λ disk file. Absent None };

    ghost failures = { λ disk. disk.failures.count };

    ghost is_reliable = { λ disk. ⊥ };

    ghost past = { λ disk. [] };

    ghost incidents = { λ disk. [] };

    ghost allocates = { Unit {0} };

    fn files(&mut self) -> Result<Vec<u64>, DiskError>
        ensures kept { KeepsBelow D.Disk self.old self.new result }
        ensures once { LooksOnce D.Disk (disk_below self.old) (disk_below self.new) }
        ensures left_out { files_left_out self.new ≡ files_left_out self.old }
        ensures files { D.is_honest (disk_below self.old) → FilesAnswer
            (shown_state (files_left_out self.old) (D.state (disk_below self.old)))
            result }
    {
        let answer = self.numbers();
        self.failures.end(answer)
    }

    fn length(&mut self, file: u64) -> Result<u64, DiskError>
        ensures kept { KeepsBelow D.Disk self.old self.new result }
        ensures once { LooksOnce D.Disk (disk_below self.old) (disk_below self.new) }
        ensures left_out { files_left_out self.new ≡ files_left_out self.old }
        ensures memory { IsErrOf result DiskError.Memory → D.allocates }
        ensures length { D.is_honest (disk_below self.old) → LengthAnswer
            (shown_state (files_left_out self.old) (D.state (disk_below self.old)))
            file result }
    {
        let answer = self.measure(file);
        self.failures.end(answer)
    }

    fn read(&mut self, file: u64, at: u64, into: &mut [u8]) -> Result<(), DiskError>
        ensures kept { KeepsBelow D.Disk self.old self.new result }
        ensures once { LooksOnce D.Disk (disk_below self.old) (disk_below self.new) }
        ensures left_out { files_left_out self.new ≡ files_left_out self.old }
        ensures memory { IsErrOf result DiskError.Memory → D.allocates }
        ensures read { D.is_honest (disk_below self.old) → ReadAnswer
            (shown_state (files_left_out self.old) (D.state (disk_below self.old)))
            file at (length into.old) result into.new }
    {
        let answer = self.fill(file, at, into);
        self.failures.end(answer)
    }

    fn write_at(&mut self, _file: u64, _at: u64, _bytes: &[u8]) -> Result<(), DiskError>
        ensures kept { LeavesBelow self.old self.new result }
        ensures left_out { files_left_out self.new ≡ files_left_out self.old }
        ensures fails { result ≡ Err DiskError.Failed }
    {
        self.failures.end(Err(DiskError::Failed))
    }

    fn cut(&mut self, _file: u64, _length: u64) -> Result<(), DiskError>
        ensures kept { LeavesBelow self.old self.new result }
        ensures left_out { files_left_out self.new ≡ files_left_out self.old }
        ensures fails { result ≡ Err DiskError.Failed }
    {
        let answer = Err(DiskError::Failed);
        self.failures.end(answer)
    }

    fn sync(&mut self, file: u64) -> Result<(), DiskError>
        ensures kept { KeepsBelow D.Disk self.old self.new result }
        ensures once { LooksOnce D.Disk (disk_below self.old) (disk_below self.new) }
        ensures left_out { files_left_out self.new ≡ files_left_out self.old }
        ensures memory { IsErrOf result DiskError.Memory → D.allocates }
        ensures found { D.is_honest (disk_below self.old) → FindsFile
            (shown_state (files_left_out self.old) (D.state (disk_below self.old)))
            file result }
    {
        let answer = self.look_for(file);
        self.failures.end(answer)
    }

    fn remove(&mut self, file: u64) -> Result<(), DiskError>
        ensures kept { KeepsBelow D.Disk self.old self.new result }
        ensures once { LooksOnce D.Disk (disk_below self.old) (disk_below self.new) }
        ensures left_out { MatchResult result
            (λ _. files_left_out self.new ≡ files_left_out self.old ++ file ∷ [])
            (λ _. files_left_out self.new ≡ files_left_out self.old) }
        ensures found { D.is_honest (disk_below self.old) → FindsFile
            (shown_state (files_left_out self.old) (D.state (disk_below self.old)))
            file result }
    {
        let answer = self.leave_out(file);
        self.failures.end(answer)
    }
}
