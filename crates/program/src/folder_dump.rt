//! What the store of one folder has is written out.
ghost use Rattle.std.specs.Prelude.{◌≢◌, [], IfOk, MatchResult, OnOk};
ghost use Rattle.dumps.specs.Dumped.{IsSomeDump};
ghost use Rattle.program.specs.FolderDumps.{DumpHasFailed, IsDumpOfFolder, IsFolderToRead};

use crate::folder_failure::DumpFailure;
use dir_disk::{DirDisk, Unchanged};
use disk::Disk;
use dumps::dump_store;
use lab::Stop;
use std::alloc::{AllocError, Global};
use std::fs::File;
use std::io::Write;
use std::rt::Files;

/// The folder as a disk that is only read.
fn disk_to_read<F: Files<File = File> + Alloc<A = Global> + Clone + Drop>(
    rt: &F,
    folder: &str,
) -> Result<DirDisk<F>, AllocError>
    ensures { IfOk result (IsFolderToRead folder.now) }
{
    DirDisk::to_read(rt.clone()?, folder)
}

/// Writes what the store of a folder has. No file of it is changed, and none is made.
pub fn dump_folder<F: Files<File = File> + Alloc<A = Global> + Clone + Drop, W: Write>(
    rt: &F,
    folder: &str,
    out: &mut W,
) -> Result<(), DumpFailure>
    ensures printed { OnOk result (IsSomeDump (W.contents out.old) (W.contents out.new)) }
    ensures from { MatchResult result
        (λ _. IsDumpOfFolder ⟦<Unchanged<DirDisk<F>> as Disk>⟧ folder.now (W.contents out.old)
        (W.contents out.new))
        (DumpHasFailed ⟦<Unchanged<DirDisk<F>> as Disk>⟧ folder.now (W.contents out.old)
        (W.contents out.new)) }
    ensures path { OnOk result (folder.now ≢ []) }
{
    // An empty path is that of no folder.
    if folder.is_empty() {
        return Err(DumpFailure::Store(Stop::NotCreated));
    }
    let Ok(disk) = disk_to_read(rt, folder) else {
        return Err(DumpFailure::Store(Stop::Memory));
    };
    match dump_store(rt.alloc(), Unchanged::new(rt.alloc(), disk), out) {
        Ok(disk) => {
            drop(disk);
            Ok(())
        }
        Err((e, disk)) => {
            drop(disk);
            Err(DumpFailure::from(e))
        }
    }
}
