// The manifest of a store.
ghost use Rattle.std.specs.Prelude.{◌≡◌, ◌↔◌, ◌+◌, ◌<◌, ◌^◌, IfOk, IsErrOf, MatchResult};
ghost use Rattle.std.specs.Prelude.{IsTrue};
ghost use Rattle.kv_types.specs.declared.bounds.TheConstants.{MAX_NUMBER};
ghost use Rattle.disk.specs.{IsEnvironmental, KeepsDisk, State, contents};
ghost use Rattle.manifest.specs.declared.error.ManifestError.TheVariants.{Disk, Memory};
ghost use Rattle.manifest.specs.Changes.{ChangesManifest, IfNoSlots, IsBeforeOrAfter};
ghost use Rattle.manifest.specs.Errors.{IsOfFiles};
ghost use Rattle.manifest.specs.Reads.{SlotsAreRead};
ghost use Rattle.version_edits.specs.{NodeVersion, IsFit, first_version, node_version_after};
ghost use Rattle.version_edits.specs.{IsChange};
ghost use Rattle.manifest.specs.Slots.{ManifestRepresents};
ghost use Rattle.manifest.specs.Holds.{SparesOthers};
ghost use Rattle.manifest.specs.Manifests.{ManifestHolds, ManifestHasFailed, ManifestHasNoRoom};
ghost use Rattle.manifest.specs.Manifests.{HasLongSlot, HasSameSlots, IsNewManifest};
ghost use Rattle.manifest.specs.Manifests.{IsOpenedManifest, IsRewritten};
ghost use Rattle.manifest.specs.Manifests.{ManifestRefusal};
ghost use Rattle.manifest.specs.Manifests.{counting_file, generation_of, slot_length, spare_file};
ghost use Rattle.manifest.specs.Manifests.{rewrite_calls, version_of};
ghost use Rattle.disk.specs.{MakesCalls};

use crate::laws::version_is_one;
use crate::opening::open_slots;
use crate::slot_pair::SlotPair;
use crate::{ManifestError, StoreVersion, VersionEdit};
use configurations::{Config, NodeId};
use disk::Disk;
use std::alloc::Global;
use version_edits::laws::fit_edits_are_short;
use version_edits::{bytes_of, first_version, full_edit_bytes, version_after};

/// The manifest of a store: its two slots, and the version that they represent. Each call borrows
/// the disk.
#[derive(Drop)]
pub struct Manifest {
    slots: SlotPair,
    version: StoreVersion,
    has_failed: bool,
}

impl Manifest {
    /// The version of the store. Of a manifest that has failed, the one before the failure.
    pub fn state(&self) -> &StoreVersion
        ensures { result.now ≡ version_of self.now }
    {
        &self.version
    }

    /// The generation of the slot that counts. Each rewrite makes it one more.
    pub fn generation(&self) -> u64
        ensures { result ≡ generation_of self.now }
    {
        self.slots.generation()
    }

    /// Whether the slot that counts is so long that a rewrite is due: longer, up to its closed
    /// gate, than twice its first edit and 65,536 bytes.
    pub fn has_long_slot(&self) -> bool
        ensures due { (disk : State) (named : NodeVersion) → ManifestHolds disk self.now named →
            IsTrue result ↔ HasLongSlot self.now }

        // It speaks of the slot alone, so a failed manifest tells it too.
        ensures told { slot_length self.now < 2 ^ 64 → IsTrue result ↔ HasLongSlot self.now }
    {
        self.slots.is_long()
    }

    /// Creates the manifest of a new node on a disk without slots. Its log, file 3, was created
    /// before. It needs six device calls; a refusal or a crash may leave any slots.
    pub fn create<D: Disk>(
        alloc: Global,
        disk: &mut D,
        id: NodeId,
        config: &Config,
    ) -> Result<Manifest, ManifestError>
        ensures kept { KeepsDisk D.Disk disk.old disk.new (IsErrOf result Disk) ⊥
            SparesOthers }
        ensures created { IfNoSlots D.Disk disk.old (MatchResult result
            (IsNewManifest (D.state disk.new) id config.now) (IsEnvironmental Disk Memory)) }
        ensures works { MatchResult result
            (λ manifest. (version_of manifest ≡ first_version id config.now)
            × (ManifestHasFailed manifest → ⊥)) IsOfFiles }
        ensures first { IfOk result (λ manifest. generation_of manifest ≡ 1) }
        ensures calls { MakesCalls D.Disk 6 disk.old disk.new result }
    {
        let version = first_version(alloc, id, config)?;
        let bytes = full_edit_bytes(alloc, &version)?;
        let slots = SlotPair::create(alloc, disk, id.get(), &bytes)?;
        Ok(Manifest {
            slots,
            version,
            has_failed: false,
        })
    }

    /// Opens the manifest that the files represent. Both slots are synced before they are read.
    pub fn open<D: Disk>(alloc: Global, disk: &mut D) -> Result<Manifest, ManifestError>
        ensures reads { SlotsAreRead D.Disk disk.old disk.new SparesOthers result }
        ensures told { D.is_honest disk.old → MatchResult result
            (IsOpenedManifest (contents (D.state disk.old)) (D.state disk.new))
            (λ e. ManifestRefusal e (contents (D.state disk.old))) }
        ensures opened { (named : NodeVersion) → D.is_honest disk.old →
            ManifestRepresents named (contents (D.state disk.old)) → MatchResult result
            (λ manifest. ManifestHolds (D.state disk.new) manifest named)
            (IsEnvironmental Disk Memory) }
        ensures works { IfOk result (λ manifest. ManifestHasFailed manifest → ⊥) }
    {
        version_is_one(); // law: files represent one version at most
        let (slots, version) = open_slots(alloc, disk)?;
        Ok(Manifest {
            slots,
            version,
            has_failed: false,
        })
    }

    /// Changes the version by an edit. It needs the four device calls of an append to a log.
    pub fn record<D: Disk>(
        &mut self,
        alloc: Global,
        disk: &mut D,
        edit: &VersionEdit,
    ) -> Result<(), ManifestError>
        requires fit { IsFit (version_of self.old).version edit.now × IsChange edit.now }
        ensures told { MatchResult result
            (λ _. (version_of self.new ≡ node_version_after (version_of self.old) edit.now)
            × (ManifestHasFailed self.new → ⊥))
            (λ _. (version_of self.new ≡ version_of self.old) × ManifestHasFailed self.new) }
        ensures slots { HasSameSlots self.old self.new }
        ensures changes { ChangesManifest D.Disk disk.old disk.new self.old
            (ManifestHasNoRoom self.old edit.now) (counting_file self.old)
            (λ named state. ManifestHolds state self.new (node_version_after named edit.now))
            (IsBeforeOrAfter edit.now) result }
        ensures calls { MakesCalls D.Disk 4 disk.old disk.new result }
    {
        if self.has_failed {
            return Err(ManifestError::Failed);
        }
        fit_edits_are_short(); // law: an edit that may be taken is no longer than a record may be
        self.has_failed = true;
        let bytes = bytes_of(alloc, edit)?;
        let version = version_after(alloc, &self.version, edit)?;
        self.slots.record(disk, &bytes)?;
        self.version = version;
        self.has_failed = false;
        Ok(())
    }

    /// Writes the other slot anew, with one edit that gives the version whole, so that it counts.
    /// It needs six device calls, and one more where that slot's gate is open.
    pub fn rewrite<D: Disk>(&mut self, alloc: Global, disk: &mut D) -> Result<(), ManifestError>
        requires room { generation_of self.old < MAX_NUMBER }
        ensures told { (version_of self.new ≡ version_of self.old) × MatchResult result
            (λ _. (generation_of self.new ≡ generation_of self.old + 1)
            × (HasLongSlot self.new → ⊥) × (ManifestHasFailed self.new → ⊥))
            (λ _. ManifestHasFailed self.new) }
        ensures slots { MatchResult result (λ _. counting_file self.new ≡ spare_file self.old)
            (λ _. HasSameSlots self.old self.new) }
        ensures changes { ChangesManifest D.Disk disk.old disk.new self.old ⊥ (spare_file self.old)
            (λ named state. IsRewritten state self.new named) ManifestRepresents result }
        ensures calls { MakesCalls D.Disk (rewrite_calls self.old) disk.old disk.new result }
    {
        if self.has_failed {
            return Err(ManifestError::Failed);
        }
        self.has_failed = true;
        let bytes = full_edit_bytes(alloc, &self.version)?;
        self.slots.rewrite(alloc, disk, &bytes)?;
        self.has_failed = false;
        Ok(())
    }
}
