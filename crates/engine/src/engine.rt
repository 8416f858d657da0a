//! One node's store.
ghost use Rattle.std.specs.Prelude.{◌≡◌, ℕ, IfOk, IfErr, None, false};
ghost use Rattle.store_tables.specs.declared.error.EngineError.TheVariants.{Disk, Memory};
ghost use Rattle.table_files.specs.{inner_disk};
ghost use Rattle.compaction.specs.{turn_key};
ghost use Rattle.store_files.specs.OpenFiles.{AreCounted, AreUsableFiles, known_facts};
ghost use Rattle.store_files.specs.UsableProps.{props};
ghost use Rattle.engine.specs.Snapshots.{AreReadable};

use crate::snapshots::Snapshots;
use crate::tending::tend_store;
use compaction::laws::merges_outlive_calls;
use compaction::{Merge, Turn};
use configurations::{Config, Epoch, NodeId};
use disk::{Crash, Disk, Fault};
use kv_types::{Batch, Limits, Number};
use std::alloc::Global;
use store_files::laws::{held_files_are_left, open_files_are_apart, raised_facts_rise};
use store_files::{EngineError, StoreFiles, Tended};
use table_files::CachedDisk;

/// A store of batches on a disk, which it owns. The batches are numbered from 1.
///
/// Files represent a list of batches and facts beside it (`FilesRepresent`); an engine holds that
/// list (`EngineHolds`). In memory are the entries of the batches that no table has.
#[derive(Drop)]
pub struct Engine<D: Disk + Drop> {
    pub(crate) files: CachedDisk<D>,
    pub(crate) store: StoreFiles,
    limits: Limits,
    pub(crate) committed: Number,
    pub(crate) snapshots: Snapshots,
    // The merge that is under way, and the keys last taken from each level.
    pub(crate) merge: Option<Merge<D>>,
    pub(crate) turn: Turn,
    pub(crate) has_ended: bool,
    ghost readable: { AreReadable (known_facts store).floor committed snapshots },
    ghost counted: { AreCounted store committed },
    ghost usable: { has_ended ≡ false → AreUsableFiles store } by { Prim.hlevel props },
}

// The disk with its cache of blocks, and the turn of each level; a refusal returns the disk.
fn files_over<D: Disk + Drop>(
    alloc: Global,
    disk: D,
    limits: &Limits,
) -> Result<(CachedDisk<D>, Turn), (EngineError, D)>
    ensures files { IfOk result (λ made. inner_disk made.0 ≡ disk) }
    ensures turns { IfOk result (λ made. (level : ℕ) → turn_key made.1 level ≡ None) }
    ensures refused { IfErr result (λ refused.
        (refused.0 ≡ EngineError.Memory) × (refused.1 ≡ disk)) }
{
    let Ok(turn) = Turn::new(alloc) else {
        return Err((EngineError::Memory, disk));
    };
    match CachedDisk::new(alloc, disk, limits.cache as usize) {
        Ok(files) => Ok((files, turn)),
        Err(refused) => Err((EngineError::Memory, refused.value)),
    }
}

impl<D: Disk + Drop> Engine<D> {
    ghost use Rattle.std.specs.Prelude.{◌≡◌, ◌⊎◌, ℕ, ◌<◌, ◌≤◌, [], ◌∷◌, ◌++◌, List};
    ghost use Rattle.std.specs.Prelude.{IfOk, IfErr, IsErrAnd, MatchResult, slice_index, Some};
    ghost use Rattle.kv_types.specs.declared.bounds.TheConstants.{MAX_NUMBER};
    ghost use Rattle.kv_types.specs.{BatchContent, place};
    ghost use Rattle.disk.specs.{contents, IsEnvironmental, IsSameBut};
    ghost use Rattle.disk.specs.{MakesCalls};
    ghost use Rattle.engine.specs.Calls.{ChangesList, ExplainsRefusal, HasOpened, IsAdrift};
    ghost use Rattle.engine.specs.Calls.{IsAppendRefusal, IsEndOrAfter};
    ghost use Rattle.engine.specs.Calls.{IsJustOpened, IsNewEngine, IsOpened, IsTendOf, TendsAsDue};
    ghost use Rattle.engine.specs.Calls.{KeepsOwnedDisk, OfEachList, OpensEngineFor, ReadsEngine};
    ghost use Rattle.engine.specs.Calls.{MergeStays, StaysAsItWas, disk_after};
    ghost use Rattle.engine.specs.Engines.{AreOrdered, EngineHolds, FactsRise};
    ghost use Rattle.engine.specs.Engines.{RaisesFactsAtMost};
    ghost use Rattle.engine.specs.Engines.{HasNearlyFullLog, IsNearlyFull};
    ghost use Rattle.engine.specs.Engines.{engine_disk, facts_of, IsTendFile};
    ghost use Rattle.engine.specs.Engines.{look_ups, newest_log_file, raised_facts};
    ghost use Rattle.engine.specs.Engines.{table_count, with_one_more, with_committed};
    ghost use Rattle.store_files.specs.Files.{Facts};
    ghost use Rattle.store_files.specs.OpenFiles.{IsOpeningError, SparesFound};
    ghost use Rattle.store_tables.specs.Errors.{IsEnd};
    ghost use Rattle.store_files.specs.StoreFiles.{StillLeavesOneOf};
    ghost use Rattle.store_files.specs.declared.tended.Tended.TheVariants.{Idle};
    ghost use Rattle.compaction.specs.Outputs.{IsSameBeyond};

    /// Creates a store without batches on a disk, whose files are all removed first. A refusal
    /// returns the disk, with any files.
    pub fn create(
        alloc: Global,
        disk: D,
        id: NodeId,
        config: &Config,
        limits: &Limits,
    ) -> Result<Engine<D>, (EngineError, D)>
        ensures kept { KeepsOwnedDisk D.Disk disk result }
        ensures created { D.is_honest disk →
            MatchResult result (λ engine. EngineHolds D.Disk engine [])
            (λ refused. IsEnvironmental Disk Memory refused.0) }
        ensures begun { MatchResult result (IsNewEngine id config.now limits.now)
            (λ refused. IsEnd refused.0) }
    {
        held_files_are_left(); // law: what the disk of open files reads as, and leaves
        let (mut files, turn) = files_over(alloc, disk, limits)?;
        match StoreFiles::create(alloc, &mut files, id, config) {
            Ok(store) => Ok(Engine {
                files,
                store,
                limits: *limits,
                committed: Number::ZERO,
                snapshots: Snapshots::new(alloc),
                merge: None,
                turn,
                has_ended: false,
            }),
            Err(e) => Err((e, files.into_disk())),
        }
    }

    /// Opens the store of a disk: the files that its manifest names are synced, its logs are read,
    /// of which memory gets the entries that no table has, and the other files are removed. A
    /// refusal returns the disk.
    pub fn open(alloc: Global, disk: D, limits: &Limits) -> Result<Engine<D>, (EngineError, D)>
        ensures kept { KeepsOwnedDisk D.Disk disk result }
        ensures opened { (facts : Facts) (list : List BatchContent) → D.is_honest disk →
            OpensEngineFor D.Disk facts list (contents (D.state disk)) result }
        ensures told { D.is_honest disk →
            MatchResult result (IsOpened (contents (D.state disk)))
            (λ refused. ExplainsRefusal refused.0 (contents (D.state disk))) }
        ensures fresh { MatchResult result (IsJustOpened limits.now)
            (λ refused. IsOpeningError refused.0) }

        // Where a crash before it leaves only files of these two stores, so does one at any moment
        // since; also where they were meant to be.
        ensures any_moment { (facts : Facts) (list : List BatchContent) (facts' : Facts)
            (list' : List BatchContent) → D.is_honest disk →
            StillLeavesOneOf D.Disk disk (disk_after result) facts list facts' list' }

        ensures alike { D.is_honest disk → IfOk result (HasOpened D.Disk (D.state disk)) }

        // Files that open as no store, or for which it is refused, are left as they were.
        ensures still { SparesFound D.Disk disk (disk_after result)
            (IsErrAnd result (λ refused. IsEnvironmental Disk Memory refused.0 → ⊥)) }
    {
        held_files_are_left(); // law: what the disk of open files reads as, and leaves
        let (mut files, turn) = files_over(alloc, disk, limits)?;
        match StoreFiles::open(alloc, &mut files) {
            Ok(store) => {
                let committed = store.floor();
                Ok(Engine {
                    files,
                    store,
                    limits: *limits,
                    committed,
                    snapshots: Snapshots::new(alloc),
                    merge: None,
                    turn,
                    has_ended: false,
                })
            }
            Err(e) => Err((e, files.into_disk())),
        }
    }

    /// Appends a batch, and returns its number. It needs four device calls: after them the batch is
    /// durable.
    pub fn append(&mut self, batch: &Batch) -> Result<Number, EngineError>
        ensures changes { ChangesList D.Disk self.old self.new result (HasNearlyFullLog self.old)
            (IsSameBut (newest_log_file self.old)) (facts_of self.old)
            (λ list. list ++ batch.now ∷ []) }
        ensures told { MatchResult result
            (λ n. (look_ups self.new ≡ with_one_more (look_ups self.old))
            × (n ≡ (look_ups self.new).count))
            (λ _. look_ups self.new ≡ look_ups self.old) }
        ensures merging { MergeStays self.old self.new }
        ensures causes { IfErr result (IsAppendRefusal (look_ups self.old).count) }
        ensures met { OfEachList D.Disk self.old (λ list. IfErr result
            (λ e. IsEnvironmental Disk Memory e
            ⊎ ((e ≡ EngineError.Exhausted) × (MAX_NUMBER ≤ (look_ups self.old).count)))) }
        ensures calls { MakesCalls D.Disk 4 (engine_disk self.old) (engine_disk self.new) result }
    {
        held_files_are_left(); // law: what the disk of open files reads as, and leaves
        merges_outlive_calls::<D>(); // law: a merge outlives calls that leave its files
        open_files_are_apart(); // law: which files an append changes
        if self.has_ended {
            return Err(EngineError::Failed);
        }
        let Some(number) = self.count().next() else {
            return Err(EngineError::Exhausted);
        };
        self.has_ended = true;
        self.store.append(&mut self.files, number, batch)?;
        self.has_ended = false;
        Ok(number)
    }

    /// The batch of a number that the logs have, read from the disk.
    pub fn batch(&mut self, alloc: Global, number: Number) -> Result<Batch, EngineError>
        requires { ((look_ups self.old).facts.kept < number)
            × (number ≤ (look_ups self.old).count) }
        ensures reads { ReadsEngine D.Disk self.old self.new result }
        ensures found { OfEachList D.Disk self.old (λ list. MatchResult result
            (λ batch. place list number ≡ Some batch) (IsEnvironmental Disk Memory)) }
        ensures causes { IfErr result IsEndOrAfter }
    {
        held_files_are_left(); // law: what the disk of open files reads as, and leaves
        merges_outlive_calls::<D>(); // law: a merge outlives calls that leave its files
        if self.has_ended {
            return Err(EngineError::Failed);
        }
        let answer = self.store.batch(alloc, &mut self.files, number);
        self.has_ended = answer.is_err();
        answer
    }

    /// Does the first that is due: a rewrite of the manifest, where its slot is longer than twice
    /// its first edit and 65,536 bytes; a flush, where the newest log is longer than the limit and
    /// entries are in memory; or the next part of a merge, at most 256 entries. One that begins
    /// raises the floor to the least number that may still be asked for. `Full` where the first
    /// that is due has no place; a merge is given up then. `Damaged` only where a file of an input
    /// of the merge under way, or else of the one that is due, does not read as it was meant to.
    pub fn tend(&mut self, alloc: Global) -> Result<Tended, EngineError>
        ensures changes { ChangesList D.Disk self.old self.new result
            (IsNearlyFull self.old ⊎ IsAdrift D.Disk self.old)
            (IsSameBeyond (IsTendFile self.old)) (raised_facts self.old) (λ list. list) }
        ensures told { RaisesFactsAtMost self.old self.new }
        ensures raised { OfEachList D.Disk self.old (λ _.
            FactsRise (facts_of self.old) (raised_facts self.old)) }
        ensures work { TendsAsDue D.Disk self.old self.new result }
        ensures did { MatchResult result (IsTendOf self.old self.new) IsEndOrAfter }
        ensures rests { IfOk result (λ done. done ≡ Idle →
            engine_disk self.new ≡ engine_disk self.old) }
    {
        held_files_are_left(); // law: what the disk of open files reads as, and leaves
        raised_facts_rise(); // law: floor and trimmed batches rise
        if self.has_ended {
            return Err(EngineError::Failed);
        }
        let floor = self.snapshots.least(self.committed);
        let answer = tend_store(
            alloc,
            &mut self.files,
            &mut self.store,
            &mut self.merge,
            &mut self.turn,
            &self.limits,
            floor,
        );
        self.has_ended = answer.is_err();
        answer
    }

    /// Tells the engine that the batches up to this number are committed.
    pub fn set_committed(&mut self, number: Number)
        requires { ((look_ups self.old).committed ≤ number)
            × (number ≤ (look_ups self.old).count) }
        ensures told { look_ups self.new ≡ with_committed (look_ups self.old) number }
        ensures disk { engine_disk self.new ≡ engine_disk self.old }
        ensures stays { StaysAsItWas D.Disk self.old self.new }
    {
        self.committed = number;
    }

    /// The node of the store.
    pub fn id(&self) -> NodeId
        ensures { result ≡ (look_ups self.now).facts.id }
    {
        self.store.manifest.state().id
    }

    /// The place of the configuration in the list of configurations.
    pub fn epoch(&self) -> Epoch
        ensures { result ≡ (look_ups self.now).facts.epoch }
    {
        Epoch::new(self.store.manifest.state().epoch).unwrap()
    }

    /// The configuration.
    pub fn config(&self) -> &Config
        ensures { result.now ≡ (look_ups self.now).facts.ids }
    {
        &self.store.manifest.state().config
    }

    /// The number of batches.
    pub fn count(&self) -> Number
        ensures count { result ≡ (look_ups self.now).count }
        ensures ordered { AreOrdered (look_ups self.now) }
    {
        self.store.logs.last_number()
    }

    /// The number of batches that it knows to be committed.
    pub fn committed(&self) -> Number
        ensures { result ≡ (look_ups self.now).committed }
    {
        self.committed
    }

    /// The least number at which the store can be read.
    pub fn floor(&self) -> Number
        ensures { result ≡ (look_ups self.now).facts.floor }
    {
        self.store.floor()
    }

    /// The number of batches trimmed from the front of the logs.
    pub fn kept(&self) -> Number
        ensures { result ≡ (look_ups self.now).facts.kept }
    {
        Number::new(self.store.logs.first_number().saturating_sub(1)).unwrap()
    }

    /// The number of tables of each level.
    pub fn tables(&self) -> [u64; 7]
        ensures { (level : ℕ) → level < 7 → slice_index result level ≡ table_count self.now level }
    {
        self.store.tables.counts()
    }

    /// The disk. What is in memory is freed.
    pub fn into_disk(self) -> D
        ensures { result ≡ engine_disk self }
    {
        drop(self.merge);
        drop(self.store);
        self.files.into_disk()
    }
}

impl<D: Crash + Drop> Engine<D> {
    ghost use Rattle.std.specs.Prelude.{◌≡◌, ◌↔◌, List};
    ghost use Rattle.kv_types.specs.{BatchContent};
    ghost use Rattle.disk.specs.{IsArmed};
    ghost use Rattle.engine.specs.Calls.{StaysAsItWas, TendsAlike};
    ghost use Rattle.engine.specs.Engines.{IsNearlyFull, engine_disk, look_ups};

    /// Arms the disk with a fault at one of its next calls, or with none.
    pub fn arm(&mut self, fault: &Fault)
        ensures armed { IsArmed D.Disk fault.now (engine_disk self.old) (engine_disk self.new) }
        ensures told { look_ups self.new ≡ look_ups self.old }
        ensures full { IsNearlyFull self.new ↔ IsNearlyFull self.old }
        ensures tends { TendsAlike self.old self.new }
        ensures stays { StaysAsItWas D.Disk self.old self.new }
    {
        held_files_are_left(); // law: what the disk of open files reads as, and leaves
        merges_outlive_calls::<D>(); // law: a merge outlives calls that leave its files
        self.files.arm(fault);
    }
}
