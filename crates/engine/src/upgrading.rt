//! Stores whose slots are of format 1, taken over in format 2.
ghost use Rattle.std.specs.Prelude.{◌≡◌, IsErrOf, IfErr};
ghost use Rattle.store_tables.specs.declared.error.EngineError.TheVariants.{Disk};
ghost use Rattle.engine.specs.Upgrades.{answer_of};

use crate::Engine;
use disk::Disk;
use manifest::laws::version_is_one;
use manifest::{Manifest, ManifestError, Upgrade};
use std::alloc::Global;
use store_files::EngineError;
use store_files::laws::formats_represent_alike;

/// What an upgrade of a store found.
#[derive(Clone, Copy, Debug, PartialEq, Eq)]
pub enum Upgraded {
    /// The slot that counted was of format 1. Now the other one counts, of format 2.
    Done,
    /// The slot that counts is of format 2.
    Already,
}

// What a store answers for its manifest.
fn answer_of(upgrade: Result<Upgrade, ManifestError>) -> Result<Upgraded, EngineError>
    ensures { result ≡ answer_of upgrade }
{
    match upgrade {
        Ok(Upgrade::Done) => Ok(Upgraded::Done),
        Ok(Upgrade::Already) => Ok(Upgraded::Already),
        Ok(Upgrade::Exhausted) => Err(EngineError::Exhausted),
        Err(e) => Err(e.into()),
    }
}

impl<D: Disk + Drop> Engine<D> {
    ghost use Rattle.std.specs.Prelude.{◌≡◌, IsErrOf, IfErr, List, MatchResult};
    ghost use Rattle.kv_types.specs.{BatchContent};
    ghost use Rattle.disk.specs.{AlwaysLeaves, KeepsDisk, contents};
    ghost use Rattle.manifest.specs.{IsLeftOfUpgrade};
    ghost use Rattle.manifest.specs.Holds.{SparesOthers};
    ghost use Rattle.store_files.specs.Files.{Facts};
    ghost use Rattle.engine.specs.Upgrades.{ExplainsUpgrade, IsFoundAs, IsUpgradeRefusal};
    ghost use Rattle.engine.specs.Upgrades.{UpgradesStore};

    /// Takes a store over in place whose slot that counts is of format 1: the other slot is
    /// written, in format 2 and the next generation, with one edit that gives the whole version. No
    /// other file changes. After a refusal it may be called again.
    pub fn upgrade(alloc: Global, disk: &mut D) -> Result<Upgraded, EngineError>
        // A device that works never fails, and only slots change.
        ensures kept { KeepsDisk D.Disk disk.old disk.new (IsErrOf result Disk) ⊥ SparesOthers }
        ensures causes { IfErr result IsUpgradeRefusal }

        // Of any honest disk it tells what its slots were, and a refusal has its reason in them.
        ensures told { D.is_honest disk.old → MatchResult result
            (IsFoundAs (contents (D.state disk.old)) (D.state disk.new))
            (λ e. ExplainsUpgrade e (contents (D.state disk.old))) }

        // A crash at any moment leaves what it might have left before; or the slot that counted, of
        // format 1, as it was, beside one of format 2 that may count already.
        ensures files { D.is_honest disk.old → AlwaysLeaves D.Disk disk.old disk.new
            (IsLeftOfUpgrade (D.state disk.old) (contents (D.state disk.old))) }

        // Facts and list stay, at every moment in one format or the other, and in format 2 behind
        // an answer.
        ensures upgraded { (facts : Facts) (list : List BatchContent) → D.is_honest disk.old →
            UpgradesStore D.Disk disk.old disk.new facts list result }
    {
        // laws: what files represent whose slots are of another format; slots are of one format
        formats_represent_alike();
        version_is_one();
        answer_of(Manifest::upgrade(alloc, disk))
    }
}
