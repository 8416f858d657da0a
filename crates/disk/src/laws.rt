//! Laws of the disk model, for every disk. Each function does nothing: its contract is the law.
ghost use Rattle.std.specs.Prelude.{◌↔◌, ℕ, List, IsTrue};
ghost use Rattle.disk.specs.declared.pending_write.PendingWrite.{PendingWrite};
ghost use Rattle.disk.specs.States.{State, contents};
ghost use Rattle.disk.specs.States.{IsUnsynced, IsCrashOutcome, DurableFileIsLeft, DurableIsLeft};
ghost use Rattle.disk.specs.Crashes.{CrashedIsDurable, is_unsynced};

/// The content that a disk reads is a possible outcome of a crash now.
pub fn reads_are_outcomes()
    ensures { (disk : State) → IsCrashOutcome disk (contents disk) }
{}

/// A crash leaves durable content exactly.
pub fn durable_is_left()
    ensures { DurableIsLeft }
{}

/// A crash leaves a durable file exactly, whatever it leaves of the others.
pub fn durable_file_is_left()
    ensures { DurableFileIsLeft }
{}

/// Every outcome of a crash is durable.
pub fn crashed_is_durable()
    ensures { CrashedIsDurable }
{}

/// The test of a place succeeds exactly if the place is unsynced.
pub fn unsynced_by_test()
    ensures { (end : ℕ) (touches : List PendingWrite) (place : ℕ)
        → IsTrue (is_unsynced end touches place) ↔ IsUnsynced end touches place }
{}
