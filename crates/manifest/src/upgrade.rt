// Slots of format 1, taken over in format 2.
ghost use Rattle.std.specs.Prelude.{◌↔◌, ◌≤◌, IsErrOf, IsTrue, IfErr, MatchResult};
ghost use Rattle.kv_types.specs.declared.bounds.TheConstants.{MAX_NUMBER};
ghost use Rattle.disk.specs.{AlwaysLeaves, Contents, IsEnvironmental, KeepsDisk, contents};
ghost use Rattle.version_edits.specs.{NodeVersion};
ghost use Rattle.byte_fields.specs.declared.format.Format.TheVariants.{One};
ghost use Rattle.manifest.specs.declared.error.ManifestError.TheVariants.{Disk, Memory};
ghost use Rattle.manifest.specs.Errors.{IsUpgradeError};
ghost use Rattle.manifest.specs.Holds.{SparesOthers};
ghost use Rattle.manifest.specs.Opening.{AreOpened};
ghost use Rattle.manifest.specs.Slots.{IsSlotFile, ManifestRepresentsInEither};
ghost use Rattle.manifest.specs.Upgrades.{IsLeftOfUpgrade, IsLeftUpgrading, IsUpgradeOf};
ghost use Rattle.manifest.specs.Upgrades.{UpgradeRefusal};

use crate::laws::version_is_one;
use crate::opening::open_either;
use crate::slot_pair::SlotPair;
use crate::{Manifest, ManifestError};
use byte_fields::Format;
use disk::Disk;
use kv_types::bounds::MAX_NUMBER;
use std::alloc::Global;
use version_edits::{StoreVersion, full_edit_bytes};

/// What an upgrade did of the slots.
#[derive(Clone, Copy)]
pub enum Upgrade {
    /// The slot that counts is of format 2 now, by one edit.
    Done,
    /// It was of format 2.
    Already,
    /// It is of format 1, and no generation follows its own.
    Exhausted,
}

// Whether no generation follows that of the slot that counts.
fn is_last(slots: &SlotPair) -> bool
    ensures { IsTrue result ↔ (MAX_NUMBER ≤ slots.now.generation) }
{
    slots.generation() >= MAX_NUMBER
}

// Writes the other slot in format 2, with one edit that gives the version.
fn convert<D: Disk>(
    alloc: Global,
    disk: &mut D,
    mut slots: SlotPair,
    version: &StoreVersion,
) -> Result<Upgrade, ManifestError>
    requires { IsSlotFile slots.slot }
    ensures kept { KeepsDisk D.Disk disk.old disk.new (IsErrOf result Disk) ⊥ SparesOthers }
    ensures causes { IfErr result IsUpgradeError }
    ensures told { (left : Contents) → D.is_honest disk.old →
        AreOpened One left (D.state disk.old) slots version.now →
        MatchResult result (IsUpgradeOf left (D.state disk.new) version.now)
        (IsEnvironmental Disk Memory) }
    ensures any_moment { (left : Contents) → D.is_honest disk.old →
        AreOpened One left (D.state disk.old) slots version.now →
        AlwaysLeaves D.Disk disk.old disk.new
        (IsLeftUpgrading (D.state disk.old) left version.now) }
{
    if is_last(&slots) {
        return Ok(Upgrade::Exhausted);
    }
    let bytes = full_edit_bytes(alloc, version)?;
    slots.rewrite(alloc, disk, &bytes)?;
    Ok(Upgrade::Done)
}

impl Manifest {
    /// Takes slots of format 1 over: writes the one that does not count, in format 2 and the next
    /// generation, with one edit that gives the version whole. Both are synced before the reads.
    pub fn upgrade<D: Disk>(alloc: Global, disk: &mut D) -> Result<Upgrade, ManifestError>
        ensures kept { KeepsDisk D.Disk disk.old disk.new (IsErrOf result Disk) ⊥ SparesOthers }
        ensures causes { IfErr result IsUpgradeError }
        ensures told { D.is_honest disk.old → MatchResult result
            (λ it. (named : NodeVersion)
            × IsUpgradeOf (contents (D.state disk.old)) (D.state disk.new) named it)
            (λ e. UpgradeRefusal e (contents (D.state disk.old))) }
        ensures upgraded { (named : NodeVersion) → D.is_honest disk.old →
            ManifestRepresentsInEither named (contents (D.state disk.old)) → MatchResult result
            (IsUpgradeOf (contents (D.state disk.old)) (D.state disk.new) named)
            (IsEnvironmental Disk Memory) }
        ensures any_moment { D.is_honest disk.old → AlwaysLeaves D.Disk disk.old disk.new
            (IsLeftOfUpgrade (D.state disk.old) (contents (D.state disk.old))) }
    {
        version_is_one(); // law: files represent one version at most, in one format
        let (format, slots, version) = open_either(alloc, disk)?;
        match format {
            Format::One => convert(alloc, disk, slots, &version),
            Format::Two => Ok(Upgrade::Already),
        }
    }
}
