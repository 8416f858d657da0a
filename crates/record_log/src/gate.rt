// A write behind a closed gate, which is opened when the bytes are durable.
ghost use Rattle.std.specs.Prelude.{ℕ, ◌+◌, ◌<◌, ◌^◌, List, length, IsErrOf, MatchResult};
ghost use Rattle.disk.specs.{IsEnvironmental};
ghost use Rattle.disk.specs.declared.DiskError.TheVariants.{Failed, Memory};
ghost use Rattle.disk.specs.{AlwaysLeaves, EndsOutOfRange, IsLeftAt, IsSameBut, KeepsDisk};
ghost use Rattle.record_log.specs.Gate.{IsDurableAs, IsGatedWrite, IsPartlyOpened, with_open_gate};
ghost use Rattle.disk.specs.{MakesCalls};

use disk::{Disk, DiskError};

/// Writes bytes of a file from a place on, and opens the file's gate when they are durable. It
/// needs four device calls: write, sync, write of the gate, sync.
pub fn write_gated<D: Disk>(
    disk: &mut D,
    file: u64,
    gate: u64,
    at: u64,
    bytes: &[u8],
) -> Result<(), DiskError>
    requires { gate < at + length bytes.now }
    ensures kept { KeepsDisk D.Disk disk.old disk.new (IsErrOf result DiskError.Failed)
        (EndsOutOfRange at (length bytes.now)) (IsSameBut file) }
    ensures done { (all : List ℕ) → D.is_honest disk.old →
        IsGatedWrite (D.state disk.old file) gate at bytes.now all → MatchResult result
        (λ _. IsDurableAs (D.state disk.new) file (with_open_gate all gate)
        × (at + length bytes.now < 2 ^ 63)) (IsEnvironmental Failed Memory) }
    ensures calls { MakesCalls D.Disk 4 disk.old disk.new result }

    // The outcomes of a crash at any moment since the call began, whatever it answers.
    ensures any_moment { (all : List ℕ) → D.is_honest disk.old →
        IsGatedWrite (D.state disk.old file) gate at bytes.now all →
        AlwaysLeaves D.Disk disk.old disk.new (IsLeftAt (D.state disk.old) file
        (IsPartlyOpened (D.state disk.old file) gate at bytes.now all)) }
{
    disk.write_at(file, at, bytes)?;
    disk.sync(file)?;
    disk.write_at(file, gate, &[1])?;
    disk.sync(file)
}
