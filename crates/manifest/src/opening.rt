// Opening the slots: which one counts, and the version that its records give.
ghost use Rattle.std.specs.Prelude.{◌≡◌, IfErr, IfOk, MatchResult};
ghost use Rattle.disk.specs.{Contents, IsEnvironmental, IsSameBut, contents, synced};
ghost use Rattle.manifest.specs.declared.error.ManifestError.TheVariants.{Disk, Memory};
ghost use Rattle.manifest.specs.Heads.{SlotCounts};
ghost use Rattle.manifest.specs.Holds.{SparesOthers};
ghost use Rattle.manifest.specs.Errors.{IsUpgradeError};
ghost use Rattle.manifest.specs.Slots.{IsSlotFile, log_start};
ghost use Rattle.manifest.specs.Opening.{AreOpened, OpensSlots, ReadsSlots, SlotsAreKept};
ghost use Rattle.manifest.specs.Upgrades.{UpgradeRefusal};
ghost use Rattle.manifest.specs.Reads.{SlotsAreRead};

use crate::head::{CountingSlot, counting_slot};
use crate::slot_pair::{HEAD_LENGTH, OLD_HEAD_LENGTH, SlotPair};
use crate::{ManifestError, StoreVersion};
use byte_fields::Format;
use configurations::NodeId;
use disk::{Disk, DiskError};
use record_log::Log;
use std::alloc::Global;
use version_edits::replay;

// Syncs a slot, if it is there.
#[tactic(auto, using(crate::proofs::Causes::disk_causes))]
fn sync_slot<D: Disk>(disk: &mut D, file: u64) -> Result<(), ManifestError>
    ensures reads { SlotsAreRead D.Disk disk.old disk.new (IsSameBut file) result }
    ensures synced { D.is_honest disk.old → MatchResult result
        (λ _. D.state disk.new file ≡ synced (D.state disk.old file))
        (IsEnvironmental Disk Memory) }
    ensures causes { IfErr result IsUpgradeError }
{
    match disk.sync(file) {
        Ok(()) | Err(DiskError::NoFile) => Ok(()),
        Err(e) => Err(e.into()),
    }
}

// Syncs both slots. An absent one is left absent.
fn sync_slots<D: Disk>(disk: &mut D) -> Result<(), ManifestError>
    ensures reads { SlotsAreRead D.Disk disk.old disk.new SparesOthers result }
    ensures synced { D.is_honest disk.old → MatchResult result
        (λ _. SlotsAreKept (D.state disk.new) (contents (D.state disk.old)))
        (IsEnvironmental Disk Memory) }
    ensures causes { IfErr result IsUpgradeError }
{
    sync_slot(disk, 1)?;
    sync_slot(disk, 2)
}

// The place where the log of a slot of this format begins.
fn log_start(format: Format) -> u64
    ensures { result ≡ log_start format }
{
    match format {
        Format::One => OLD_HEAD_LENGTH,
        Format::Two => HEAD_LENGTH,
    }
}

// The slots of which this one counts, in its format, and the version that its records give.
fn read_slots<D: Disk>(
    alloc: Global,
    disk: &mut D,
    it: CountingSlot,
) -> Result<(SlotPair, StoreVersion), ManifestError>
    requires { IsSlotFile it.slot }
    ensures reads { SlotsAreRead D.Disk disk.old disk.new SparesOthers result }
    ensures told { (left : Contents) → D.is_honest disk.old →
        SlotsAreKept (D.state disk.old) left → SlotCounts it left →
        ReadsSlots it.head.format left (D.state disk.new) result }
    ensures one { IfOk result (λ x. IsSlotFile x.0.slot) }
    ensures causes { IfErr result IsUpgradeError }
{
    let format = it.head.format;
    let Some(id) = NodeId::new(it.head.id) else {
        return Err(ManifestError::Damaged);
    };
    let _id = id.get();
    let opened = Log::open(alloc, disk, it.slot, log_start(format))?;
    let version = replay(alloc, id, format, &opened)?;
    Ok((SlotPair::opened(it, opened.log), version))
}

// The same where the slot is of format 2.
fn opened_by<D: Disk>(
    alloc: Global,
    disk: &mut D,
    it: CountingSlot,
) -> Result<(SlotPair, StoreVersion), ManifestError>
    requires { IsSlotFile it.slot }
    ensures reads { SlotsAreRead D.Disk disk.old disk.new SparesOthers result }
    ensures told { (left : Contents) → D.is_honest disk.old →
        SlotsAreKept (D.state disk.old) left → SlotCounts it left →
        OpensSlots left (D.state disk.new) result }
{
    let Format::Two = it.head.format else {
        return Err(ManifestError::OldFormat);
    };
    read_slots(alloc, disk, it)
}

/// The slots, and the version that they represent. Both are synced before they are read.
pub fn open_slots<D: Disk>(
    alloc: Global,
    disk: &mut D,
) -> Result<(SlotPair, StoreVersion), ManifestError>
    ensures reads { SlotsAreRead D.Disk disk.old disk.new SparesOthers result }
    ensures told { D.is_honest disk.old →
        OpensSlots (contents (D.state disk.old)) (D.state disk.new) result }
{
    sync_slots(disk)?;
    let it = counting_slot(disk)?;
    opened_by(alloc, disk, it)
}

/// The slots of either format, with the format of the one that counts, and the version that they
/// represent. Both are synced before they are read.
pub fn open_either<D: Disk>(
    alloc: Global,
    disk: &mut D,
) -> Result<(Format, SlotPair, StoreVersion), ManifestError>
    ensures reads { SlotsAreRead D.Disk disk.old disk.new SparesOthers result }
    ensures told { D.is_honest disk.old → MatchResult result
        (λ it. AreOpened it.0 (contents (D.state disk.old)) (D.state disk.new) it.1 it.2)
        (λ e. UpgradeRefusal e (contents (D.state disk.old))) }
    ensures one { IfOk result (λ it. IsSlotFile it.1.slot) }
    ensures causes { IfErr result IsUpgradeError }
{
    sync_slots(disk)?;
    let it = counting_slot(disk)?;
    let (slots, version) = read_slots(alloc, disk, it)?;
    Ok((it.head.format, slots, version))
}
