//! The store of one folder, taken over from format 1 in place.
ghost use Rattle.std.specs.Prelude.{◌≡◌, IfOk, IsErrOf};
ghost use Rattle.disk.specs.{KeepsDisk, contents};
ghost use Rattle.dir_disk.specs.Disks.{IsLockedFolder};
ghost use Rattle.engine.specs.{ExplainsUpgrade, IsFoundAs, IsUpgradeRefusal, SparesOthers};
ghost use Rattle.lab.specs.Stop.TheVariants as stop;
ghost use Rattle.program.specs.declared.folder_failure.UpgradeFailure.TheVariants.{Store};
ghost use Rattle.program.specs.FolderUpgrades.{HasNoUpgrade, UpgradeIsPrinted, UpgradeIsSaid};
ghost use Rattle.program.specs.FolderUpgrades.{upgraded_line};

use crate::folder_failure::UpgradeFailure;
use dir_disk::{DirDisk, LockError};
use disk::{Disk, DiskError};
use engine::{Engine, EngineError, Upgraded};
use std::alloc::Global;
use std::fs::File;
use std::io::Write;
use std::rt::Files;
use store_texts::print;

/// What is said of a store that was upgraded, or was not of format 1.
fn found_line(found: Upgraded) -> &'static str
    ensures { result.now ≡ upgraded_line found }
{
    match found {
        Upgraded::Done => "upgraded\n",
        Upgraded::Already => "already format 2\n",
    }
}

/// Takes the store of a disk over, and writes what it was.
fn upgrade_store<D: Disk + Drop, W: Write>(
    alloc: Global,
    disk: &mut D,
    out: &mut W,
) -> Result<(), UpgradeFailure>
    ensures kept { KeepsDisk D.Disk disk.old disk.new (IsErrOf result (Store stop.Disk)) ⊥
        SparesOthers }
    ensures said { UpgradeIsSaid
        (λ found. D.is_honest disk.old →
        IsFoundAs (contents (D.state disk.old)) (D.state disk.new) found)
        (λ e. IsUpgradeRefusal e
        × (D.is_honest disk.old → ExplainsUpgrade e (contents (D.state disk.old))))
        (W.contents out.old) (W.contents out.new) result }
{
    let found = Engine::upgrade(alloc, disk)?;
    match print(found_line(found).as_bytes(), out) {
        Ok(()) => Ok(()),
        Err(_) => Err(UpgradeFailure::Output),
    }
}

/// The folder as a disk that has its lock.
fn locked_folder<F: Files<File = File> + Alloc<A = Global> + Clone + Drop>(
    rt: &F,
    folder: &str,
) -> Result<DirDisk<F>, LockError>
    ensures { IfOk result (IsLockedFolder folder.now) }
{
    let mut disk = DirDisk::new(rt.clone()?, folder)?;
    disk.lock()?;
    Ok(disk)
}

/// Why a folder whose lock could not be asked for has no store: it is absent, or has no first slot,
/// or the device failed.
fn unlocked_cause<F: Files<File = File> + Alloc<A = Global> + Clone + Drop>(
    rt: &F,
    folder: &str,
) -> EngineError
    ensures { HasNoUpgrade result }
{
    let Ok(own) = rt.clone() else {
        return EngineError::Memory;
    };
    let Ok(mut disk) = DirDisk::to_read(own, folder) else {
        return EngineError::Memory;
    };
    let length = disk.length(1);
    drop(disk);
    match length {
        Err(DiskError::NoFile) => EngineError::NotCreated,
        Err(DiskError::Memory) => EngineError::Memory,
        _ => EngineError::Disk,
    }
}

/// Why the store of a folder whose lock was refused is not taken over.
fn refusal_of<F: Files<File = File> + Alloc<A = Global> + Clone + Drop>(
    rt: &F,
    folder: &str,
    refusal: LockError,
) -> EngineError
    ensures { HasNoUpgrade result }
{
    match refusal {
        LockError::InUse => EngineError::Disk,
        LockError::Failed => unlocked_cause(rt, folder),
        LockError::Memory => EngineError::Memory,
    }
}

/// Takes the store of a folder over, whose lock is held meanwhile, and writes what it was. A folder
/// in use is left as it is.
pub fn upgrade_folder<F: Files<File = File> + Alloc<A = Global> + Clone + Drop, W: Write>(
    rt: &F,
    folder: &str,
    out: &mut W,
) -> Result<(), UpgradeFailure>
    ensures { UpgradeIsPrinted ⟦<DirDisk<F> as Disk>⟧ folder.now (W.contents out.old)
        (W.contents out.new) result }
{
    // An empty path is that of no folder.
    if folder.is_empty() {
        return Err(UpgradeFailure::from(EngineError::NotCreated));
    }
    let mut disk = match locked_folder(rt, folder) {
        Ok(disk) => disk,
        Err(e) => return Err(UpgradeFailure::from(refusal_of(rt, folder, e))),
    };
    let told = upgrade_store(rt.alloc(), &mut disk, out);
    drop(disk);
    told
}
