// Removals of files that no version names any longer.
ghost use Rattle.std.specs.Prelude.{IfErr, IsErrOf, MatchResult};
ghost use Rattle.disk.specs.{AlwaysLeaves, IsEnvironmental, KeepsDisk};
ghost use Rattle.store_tables.specs.declared.error.EngineError.TheVariants.{Disk, Memory};
ghost use Rattle.store_tables.specs.Errors.{IsEnd};
ghost use Rattle.store_files.specs.Removing.{AreAbsent, AreLeftBeside};
ghost use Rattle.store_files.specs.Tending.{IsSameBeside};

use crate::EngineError;
use disk::Disk;
use store_tables::remove_file;

/// Removes these files, where they are there. It is one device call for each.
pub(crate) fn remove_files<D: Disk>(disk: &mut D, files: &[u64]) -> Result<(), EngineError>
    ensures kept { KeepsDisk D.Disk disk.old disk.new (IsErrOf result Disk) ⊥
        (IsSameBeside files.now) }
    ensures gone { D.is_honest disk.old →
        MatchResult result (λ _. AreAbsent files.now (D.state disk.new))
        (IsEnvironmental Disk Memory) }

    // A crash at any moment since the call began leaves each other file as it might have before.
    ensures any_moment { D.is_honest disk.old → AlwaysLeaves D.Disk disk.old disk.new
        (AreLeftBeside files.now (D.state disk.old)) }
    ensures causes { IfErr result IsEnd }
{
    for file in files {
        remove_file(disk, *file)?;
    }
    Ok(())
}
