// A file written anew, so that at each moment it is closed, or as it was, or whole.
ghost use Rattle.std.specs.Prelude.{ℕ, ◌+◌, ◌<◌, List, length, IfErr, IsErrOf, OnOk};
ghost use Rattle.disk.specs.declared.DiskError.TheVariants.{Failed, Memory};
ghost use Rattle.disk.specs.{IsEnvironmental, IsSameBut, KeepsDisk};
ghost use Rattle.disk.specs.{MakesCalls};
ghost use Rattle.record_log.specs.{IsDurableAs};
ghost use Rattle.manifest.specs.Replace.{HasGate, IfGated, IsClosedFile, LeavesReplaced};
ghost use Rattle.manifest.specs.Replace.{ReplacesFile, closing_calls};

use disk::{Disk, DiskError};
use record_log::write_gated;

/// Closes the gate of a file, if it is open. Before the sync a gate that was closed is left as it
/// is: while unsynced it might become 1.
fn shut<D: Disk>(disk: &mut D, file: u64, is_open: bool) -> Result<(), DiskError>
    ensures kept { KeepsDisk D.Disk disk.old disk.new (IsErrOf result DiskError.Failed)
        ⊥ (IsSameBut file) }
    ensures done { IfGated D.Disk disk.old file is_open (λ was.
        OnOk result (IsClosedFile (D.state disk.new) file)) }
    ensures refused { (was : List ℕ) → D.is_honest disk.old →
        IsDurableAs (D.state disk.old) file was → IfErr result (IsEnvironmental Failed Memory) }
    ensures any_moment { IfGated D.Disk disk.old file is_open (λ was.
        (behind : List ℕ) → LeavesReplaced D.Disk disk.old disk.new file was behind) }
    ensures calls { MakesCalls D.Disk (closing_calls is_open) disk.old disk.new result }
{
    if !is_open {
        return disk.sync(file);
    }
    disk.write_at(file, 0, &[0])?;
    disk.sync(file)
}

/// Writes a file anew behind its closed gate, and opens it.
fn fill<D: Disk>(disk: &mut D, file: u64, behind: &[u8]) -> Result<(), DiskError>
    requires some { 0 < length behind.now }
    ensures { ReplacesFile D.Disk disk.old disk.new file behind.now
        (λ was state. IsClosedFile state file) 5 result }
{
    disk.cut(file, 1)?;
    write_gated(disk, file, 0, 1, behind)
}

/// Makes a file these bytes behind an open gate.
pub fn replace<D: Disk>(
    disk: &mut D,
    file: u64,
    is_open: bool,
    behind: &[u8],
) -> Result<(), DiskError>
    requires some { 0 < length behind.now }
    ensures { ReplacesFile D.Disk disk.old disk.new file behind.now
        (λ was state. IsDurableAs state file was × HasGate is_open was)
        (closing_calls is_open + 5) result }
{
    shut(disk, file, is_open)?;
    fill(disk, file, behind)
}
