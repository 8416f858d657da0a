// The interface of a disk, by the behaviour of an honest one. Whether a given disk is honest is an
// assumption of its user.
ghost use Rattle.std.specs.Prelude.{ℕ, List, length, IsErrOf, IsTrue, ◌↔◌};
ghost use Rattle.disk.specs.States.{State, IsSame, IsSameBut};
ghost use Rattle.disk.specs.Calls.{BegunWrite, CallKeeps, EndsOutOfRange};
ghost use Rattle.disk.specs.Calls.{FilesAnswer, LengthAnswer, ReadAnswer};
ghost use Rattle.disk.specs.Faults.{CallPasses, Incidents, fault_of};
ghost use Rattle.disk.specs.Calls.{WriteOutcome, CutOutcome, SyncOutcome, RemoveOutcome};

use crate::DiskError;

/// Whether bytes of this length, from this place on, would end past place 2^63 - 1, the greatest
/// where a file may end.
pub fn ends_out_of_range(at: u64, len: usize) -> bool
    ensures { IsTrue result ↔ EndsOutOfRange at len }
{
    at.saturating_add(len as u64) >= 1 << 63
}

/// A device with numbered files, and the outcomes that a crash may leave of them.
pub trait Disk {
    /// The disk behaves as its contracts say. Without this fact only `kept` and `memory` say
    /// anything.
    ghost is_honest: { Self → Type 0 };

    /// The content that reads return, and the outcomes of a crash at this moment.
    ghost state: { Self → State };

    /// The number of failures of the device so far.
    ghost failures: { Self → ℕ };

    /// A call with valid arguments fails only where an armed fault has struck: the count of
    /// failures is below its last value. A disk of which nothing is known is never reliable.
    ghost is_reliable: { Self → Type 0 };

    /// The states that the disk has had, the latest first: at first, and after each call and crash.
    /// A moment is this list as it was then.
    ghost past: { Self → List State };

    /// The faults that it was armed with and the crashes, the latest first, each with the length
    /// that the past had then.
    ghost incidents: { Self → Incidents };

    /// Whether `length`, `read`, `sync` and `remove` may allocate memory; `files`, `write_at` and
    /// `cut` always may.
    ghost allocates: { Type 0 };

    /// The numbers of the existing files, in ascending order.
    fn files(&mut self) -> Result<Vec<u64>, DiskError>
        ensures kept { CallKeeps is_honest state failures is_reliable past incidents self.old
            self.new result ⊥ IsSame }
        ensures files { is_honest self.old → FilesAnswer (state self.old) result }
        ensures passes { is_honest self.old → CallPasses (past self.old) (past self.new)
            (fault_of (incidents self.old)) (is_reliable self.old) result (state self.old)
            (state self.new)
            (λ _. IsSame (state self.old)) };

    /// The length of the file in bytes.
    fn length(&mut self, file: u64) -> Result<u64, DiskError>
        ensures kept { CallKeeps is_honest state failures is_reliable past incidents self.old
            self.new result ⊥ IsSame }
        ensures memory { IsErrOf result DiskError.Memory → allocates }
        ensures length { is_honest self.old → LengthAnswer (state self.old) file result }
        ensures passes { is_honest self.old → CallPasses (past self.old) (past self.new)
            (fault_of (incidents self.old)) (is_reliable self.old) result (state self.old)
            (state self.new)
            (λ _. IsSame (state self.old)) };

    /// Fills the buffer with the bytes from a place on. After a refusal its content is unspecified.
    fn read(&mut self, file: u64, at: u64, into: &mut [u8]) -> Result<(), DiskError>
        ensures kept { CallKeeps is_honest state failures is_reliable past incidents self.old
            self.new result ⊥ IsSame }
        ensures memory { IsErrOf result DiskError.Memory → allocates }
        ensures reads { is_honest self.old →
            ReadAnswer (state self.old) file at (length into.old) result into.new }
        ensures passes { is_honest self.old → CallPasses (past self.old) (past self.new)
            (fault_of (incidents self.old)) (is_reliable self.old) result (state self.old)
            (state self.new)
            (λ _. IsSame (state self.old)) };

    /// Overwrites bytes from a place on, and extends the file. At place 0 it creates an absent
    /// file. A write that would end past place 2^63 - 1 fails, and leaves a reliable disk as it
    /// was.
    fn write_at(&mut self, file: u64, at: u64, bytes: &[u8]) -> Result<(), DiskError>
        ensures kept { CallKeeps is_honest state failures is_reliable past incidents self.old
            self.new result (EndsOutOfRange at (length bytes.now)) (IsSameBut file) }
        ensures untouched { is_honest self.old → is_reliable self.old →
            EndsOutOfRange at (length bytes.now) → IsSame (state self.old) (state self.new) }
        ensures writes { is_honest self.old →
            WriteOutcome (state self.old) file at bytes.now result (state self.new) }
        ensures passes { is_honest self.old → CallPasses (past self.old) (past self.new)
            (fault_of (incidents self.old)) (is_reliable self.old) result (state self.old)
            (state self.new)
            (BegunWrite (state self.old) file at bytes.now) };

    /// Truncates the file to a length.
    fn cut(&mut self, file: u64, length: u64) -> Result<(), DiskError>
        ensures kept { CallKeeps is_honest state failures is_reliable past incidents self.old
            self.new result ⊥ (IsSameBut file) }
        ensures cuts { is_honest self.old →
            CutOutcome (state self.old) file length result (state self.new) }
        ensures passes { is_honest self.old → CallPasses (past self.old) (past self.new)
            (fault_of (incidents self.old)) (is_reliable self.old) result (state self.old)
            (state self.new)
            (CutOutcome (state self.old) file length) };

    /// Makes the file durable: a crash leaves exactly the bytes that a read returns.
    fn sync(&mut self, file: u64) -> Result<(), DiskError>
        ensures kept { CallKeeps is_honest state failures is_reliable past incidents self.old
            self.new result ⊥ (IsSameBut file) }
        ensures memory { IsErrOf result DiskError.Memory → allocates }
        ensures syncs { is_honest self.old →
            SyncOutcome (state self.old) file result (state self.new) }
        ensures passes { is_honest self.old → CallPasses (past self.old) (past self.new)
            (fault_of (incidents self.old)) (is_reliable self.old) result (state self.old)
            (state self.new)
            (λ _. IsSame (state self.old)) };

    /// Removes the file. Until the next crash, a file that was synced may reappear after a crash.
    fn remove(&mut self, file: u64) -> Result<(), DiskError>
        ensures kept { CallKeeps is_honest state failures is_reliable past incidents self.old
            self.new result ⊥ (IsSameBut file) }
        ensures memory { IsErrOf result DiskError.Memory → allocates }
        ensures removes { is_honest self.old →
            RemoveOutcome (state self.old) file result (state self.new) }
        ensures passes { is_honest self.old → CallPasses (past self.old) (past self.new)
            (fault_of (incidents self.old)) (is_reliable self.old) result (state self.old)
            (state self.new)
            (RemoveOutcome (state self.old) file) };
}
