// The store of a disk: opened, or created where nothing was created yet.
ghost use Rattle.std.specs.Prelude.{◌≡◌, ◌↔◌, Err, IsFalse, IsTrue, MatchResult};
ghost use Rattle.engine.specs.EngineError.TheVariants.{NotCreated};
ghost use Rattle.embedded_store.specs.declared.error.OpenError.TheVariants.{Store};
ghost use Rattle.disk.specs.{contents};
ghost use Rattle.manifest.specs.{HasOnlyCreationFiles};
ghost use Rattle.embedded_store.specs.Openings.{CreatesStore, IsOfDisk, IsOwnStore, IsStoreOver};
ghost use Rattle.embedded_store.specs.Openings.{LeavesFound, KeepsOpenedDisk, OpensContents};
ghost use Rattle.embedded_store.specs.Stores.{IsFreshStore};

use crate::alone::{alone, is_alone};
use crate::{EmbeddedStore, OpenError};
use disk::Disk;
use disk::laws::reads_are_outcomes;
use engine::{Engine, EngineError};
use kv_types::Limits;
use manifest::has_only_creation_files;
use manifest::laws::version_is_one;
use std::alloc::{AllocError, Global};

// The store over an engine, all of whose batches are committed then.
fn store_over<D: Disk + Drop>(mut engine: Engine<D>) -> EmbeddedStore<D>
    ensures { IsStoreOver engine result }
{
    let all = engine.count();
    engine.set_committed(all);
    EmbeddedStore { engine }
}

// The store of an engine that was opened, if it stands alone.
fn own<D: Disk + Drop>(engine: Engine<D>) -> Result<EmbeddedStore<D>, (OpenError, D)>
    ensures { IsOwnStore engine result }
{
    if is_alone(engine.id(), engine.config()) {
        Ok(store_over(engine))
    } else {
        Err((OpenError::OfChain, engine.into_disk()))
    }
}

// Creates a store without batches on a disk, whose files are all removed first.
fn created<D: Disk + Drop>(
    alloc: Global,
    disk: D,
    limits: &Limits,
) -> Result<EmbeddedStore<D>, (OpenError, D)>
    ensures kept { KeepsOpenedDisk D.Disk disk result }
    ensures created { D.is_honest disk → CreatesStore result }
    ensures fresh { MatchResult result (IsFreshStore limits.now)
        (λ refused. IsOfDisk refused.0) }
{
    let Ok((id, config)) = alone(alloc) else {
        return Err((OpenError::from(AllocError), disk));
    };
    match Engine::create(alloc, disk, id, &config, limits) {
        Ok(engine) => Ok(store_over(engine)),
        Err((e, disk)) => Err((OpenError::from(e), disk)),
    }
}

// Creates the store of a disk on which none was created, if nothing is there but what a creation
// may have left that was cut short.
fn created_if_free<D: Disk + Drop>(
    alloc: Global,
    disk: D,
    limits: &Limits,
    is_free: bool,
) -> Result<EmbeddedStore<D>, (OpenError, D)>
    ensures kept { KeepsOpenedDisk D.Disk disk result }
    ensures created { D.is_honest disk → IsTrue is_free → CreatesStore result }
    ensures refused { IsFalse is_free → result ≡ Err (Store NotCreated, disk) }
    ensures fresh { MatchResult result (IsFreshStore limits.now)
        (λ refused. IsOfDisk refused.0) }
{
    if is_free {
        created(alloc, disk, limits)
    } else {
        Err((OpenError::Store(EngineError::NotCreated), disk))
    }
}

// The store of a disk, opened, or created if the disk is free for one.
fn opened_or_created<D: Disk + Drop>(
    alloc: Global,
    disk: D,
    limits: &Limits,
    is_free: bool,
) -> Result<EmbeddedStore<D>, (OpenError, D)>
    requires { D.is_honest disk →
        IsTrue is_free ↔ HasOnlyCreationFiles (contents (D.state disk)) }
    ensures kept { KeepsOpenedDisk D.Disk disk result }
    ensures opens { D.is_honest disk → OpensContents D.Disk disk (contents (D.state disk)) result }
    ensures still { LeavesFound D.Disk disk result }
    ensures fresh { MatchResult result (IsFreshStore limits.now)
        (λ refused. IsOfDisk refused.0) }
{
    reads_are_outcomes(); // law: a disk as it reads is one of the outcomes
    version_is_one(); // law: files that represent a version are of a store that was created
    match Engine::open(alloc, disk, limits) {
        Ok(engine) => own(engine),
        Err((e, disk)) => match e {
            EngineError::NotCreated => created_if_free(alloc, disk, limits, is_free),
            _ => Err((OpenError::from(e), disk)),
        },
    }
}

impl<D: Disk + Drop> EmbeddedStore<D> {
    /// The store of a disk. Where no slot is open, and there is nothing but what a creation that
    /// was cut short may have left, a store without batches is created; so it is on a disk without
    /// files. A refusal returns the disk.
    pub fn over(
        alloc: Global,
        mut disk: D,
        limits: &Limits,
    ) -> Result<EmbeddedStore<D>, (OpenError, D)>
        ensures kept { KeepsOpenedDisk D.Disk disk result }
        ensures opens { D.is_honest disk →
            OpensContents D.Disk disk (contents (D.state disk)) result }
        ensures still { LeavesFound D.Disk disk result }
        ensures fresh { MatchResult result (IsFreshStore limits.now)
            (λ refused. IsOfDisk refused.0) }
    {
        match has_only_creation_files(&mut disk) {
            Ok(is_free) => opened_or_created(alloc, disk, limits, is_free),
            Err(e) => Err((OpenError::from(e), disk)),
        }
    }
}
