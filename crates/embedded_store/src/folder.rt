// The store of a folder. No contract says what a system keeps in a file.
ghost use Rattle.std.specs.Prelude.{◌≡◌, Err, IfErr, IfOk, MatchResult, Ok};
ghost use Rattle.dir_disk.specs.Disks.{IsLockedFolder};
ghost use Rattle.embedded_store.specs.Folders.{IsWorkingFolder};
ghost use Rattle.embedded_store.specs.Openings.{IsOfEnvironment, IsOfFolder};

use crate::{EmbeddedStore, OpenError};
use dir_disk::DirDisk;
use disk::Disk;
use engine::EngineError;
use kv_types::Limits;
use std::alloc::Global;
use std::fs::{self, File};
use std::io::{self, ErrorKind};
use std::rt::Files;

// Why a folder was not made.
fn refusal_of(e: io::Error) -> OpenError
    ensures { IsOfEnvironment result }
{
    match e.kind() {
        ErrorKind::OutOfMemory => OpenError::Store(EngineError::Memory),
        _ => OpenError::Store(EngineError::Disk),
    }
}

// The folder as a disk. It is made where it is absent.
fn made_folder<R: Files<File = File> + Alloc<A = Global> + Clone + Drop>(
    rt: &R,
    path: &str,
) -> Result<DirDisk<R>, OpenError>
    ensures { MatchResult result (IsWorkingFolder path.now) IsOfEnvironment }
{
    fs::create_dir_all(rt, path).map_err(refusal_of)?;
    Ok(DirDisk::new(rt.clone()?, path)?)
}

// The same, and locked.
fn locked_folder<R: Files<File = File> + Alloc<A = Global> + Clone + Drop>(
    rt: &R,
    path: &str,
) -> Result<DirDisk<R>, OpenError>
    ensures folder { IfOk result (IsLockedFolder path.now) }
    ensures refused { IfErr result IsOfFolder }
{
    let mut disk = made_folder(rt, path)?;
    disk.lock()?;
    Ok(disk)
}

// The store, or why there is none, and then the disk is given up.
fn store_or_refusal<D: Disk + Drop>(
    opened: Result<EmbeddedStore<D>, (OpenError, D)>,
) -> Result<EmbeddedStore<D>, OpenError>
    ensures { MatchResult opened (λ store. result ≡ Ok store) (λ refused. result ≡ Err refused.0) }
{
    match opened {
        Ok(store) => Ok(store),
        Err((error, disk)) => {
            drop(disk);
            Err(error)
        }
    }
}

impl<R: Files<File = File> + Alloc<A = Global> + Clone + Drop> EmbeddedStore<DirDisk<R>> {
    ghost use Rattle.std.specs.Prelude.{IfOk, MatchResult};
    ghost use Rattle.embedded_store.specs.Openings.{IsOfOpening};
    ghost use Rattle.embedded_store.specs.Folders.{IsStoreOfFolder};
    ghost use Rattle.embedded_store.specs.Stores.{IsFreshStore};

    /// The store of the folder at this path, which is made where it is absent, and locked until the
    /// store is dropped. It is opened, or created where nothing was created yet, as by `over`.
    pub fn open(rt: &R, path: &str, limits: &Limits) -> Result<EmbeddedStore<DirDisk<R>>, OpenError>
        ensures fresh { MatchResult result (IsFreshStore limits.now) IsOfOpening }
        ensures folder { IfOk result (IsStoreOfFolder path.now) }
    {
        let disk = locked_folder(rt, path)?;
        store_or_refusal(EmbeddedStore::over(rt.alloc(), disk, limits))
    }
}
