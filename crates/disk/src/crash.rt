// Disks that can be made to fail and to crash.
ghost use Rattle.std.specs.Prelude.{◌≡◌, ◌↔◌, ◌∷◌, IsTrue, length};
ghost use Rattle.disk.specs.Calls.{HasStruck};
ghost use Rattle.disk.specs.declared.incident.Incident.TheVariants.{Crashed};
ghost use Rattle.disk.specs.Lent.{IsArmed};
ghost use Rattle.disk.specs.Moments.{AddsMoment, IsLastLeft};
ghost use Rattle.disk.specs.States.{IsCrashOutcome, contents};
ghost use Rattle.disk.specs.Crashes.{CrashOutcome};

use crate::{Disk, Fault, Junk};

/// A disk that can be made to fail and to crash, for tests and simulation.
pub trait Crash: Disk {
    /// Arms the disk with a fault at one of its next calls, or with none. The call that it strikes
    /// fails, and has begun: what it writes or cuts is unsynced, what it syncs is not durable, what
    /// it removes may be back. Every later call fails, and changes nothing, until the disk is armed
    /// again or crashes.
    fn arm(&mut self, fault: &Fault)
        ensures { IsArmed Self.Disk fault.now self.old self.new };

    /// Whether the fault has struck.
    fn has_struck(&self) -> bool
        ensures struck { IsTrue result ↔ HasStruck Self.incidents Self.past self.now }
        // The latest state of its past is the one that it has.
        ensures last { Self.is_honest self.now →
            IsLastLeft (Self.past self.now) (Self.state self.now) };

    /// Crashes and restarts the machine. A fault is forgotten. What the crash left is a moment of
    /// the disk. It allocates no memory.
    fn crash(&mut self, junk: Junk)
        ensures honest { Self.is_honest self.new ↔ Self.is_honest self.old }
        ensures count { Self.failures self.new ≡ Self.failures self.old }
        ensures reliable { Self.is_reliable self.old → Self.is_reliable self.new }
        ensures past { Self.is_honest self.old →
            AddsMoment (Self.past self.old) (Self.past self.new) (Self.state self.new) }
        ensures incidents { Self.is_honest self.old → Self.incidents self.new ≡
            (length (Self.past self.old), Crashed junk) ∷ Self.incidents self.old }
        ensures crashes { Self.is_honest self.old →
            CrashOutcome junk (Self.state self.old) (Self.state self.new) }
        ensures allowed { Self.is_honest self.old →
            IsCrashOutcome (Self.state self.old) (contents (Self.state self.new)) };
}
