// What an opening does to the files of a store: it syncs tables, and removes what nothing names.
ghost use Rattle.std.specs.Prelude.{IfErr, IsErrOf, OnOk, MatchResult};
ghost use Rattle.disk.specs.{AlwaysLeaves, AreLeftOf, IsEnvironmental, KeepsDisk};
ghost use Rattle.store_tables.specs.declared.error.EngineError.TheVariants.{Disk, Memory};
ghost use Rattle.store_tables.specs.Errors.{IsEnd};
ghost use Rattle.batch_logs.specs.Reads.{OnlyReads};
ghost use Rattle.batch_logs.specs.Syncs.{AddsNothing};
ghost use Rattle.store_files.specs.Settling.{AreAlone, AreSynced, AreThere, SparesFiles};

use crate::EngineError;
use disk::Disk;
use manifest::TableLine;

/// Makes the files of these tables durable. `Damaged` only where one is absent.
pub(crate) fn sync_tables<D: Disk>(disk: &mut D, lines: &[TableLine]) -> Result<(), EngineError>
    ensures reads { OnlyReads D.Disk disk.old disk.new AddsNothing result }
    ensures synced { D.is_honest disk.old →
        OnOk result (AreSynced (D.state disk.old) (D.state disk.new) lines.now) }
    ensures there { D.is_honest disk.old → AreThere (D.state disk.old) lines.now →
        IfErr result (IsEnvironmental Disk Memory) }
{
    for line in lines {
        disk.sync(line.file)?;
    }
    Ok(())
}

/// Removes each file but these.
pub(crate) fn remove_others<D: Disk>(disk: &mut D, kept: &[u64]) -> Result<(), EngineError>
    ensures kept { KeepsDisk D.Disk disk.old disk.new (IsErrOf result Disk) ⊥
        (SparesFiles kept.now) }
    ensures alone { D.is_honest disk.old →
        MatchResult result (λ _. AreAlone kept.now (D.state disk.new))
        (IsEnvironmental Disk Memory) }

    // A crash at any moment since the call began leaves these files as it might have before.
    ensures any_moment { D.is_honest disk.old →
        AlwaysLeaves D.Disk disk.old disk.new (AreLeftOf kept.now (D.state disk.old)) }
    ensures causes { IfErr result IsEnd }
{
    for file in disk.files()? {
        if !kept.contains(&file) {
            disk.remove(file)?;
        }
    }
    Ok(())
}
