// A tend of a store's files: a rewrite of the manifest, a flush, or part of a merge.
ghost use Rattle.std.specs.Prelude.{◌≡◌, ◌≤◌, ◌==◌, ℕ, IfOk, if◌then◌else◌};
ghost use Rattle.std.specs.Option.{option_or};
ghost use Rattle.compaction.specs.{turn_key};
ghost use Rattle.store_files.specs.Raising.{MayRise};
ghost use Rattle.store_files.specs.declared.tended.Tended.TheVariants.{Idle};
ghost use Rattle.engine.specs.Tends.{KeepsTended, MergesByPlan, RefusesTend, TendsByPlan};
ghost use Rattle.engine.specs.Tends.{key_of_plan, tended_store};

use crate::merging::{begin, continue_merge};
use byte_fields::StoredKey;
use compaction::laws::{merges_outlive_calls, merges_stay_beside};
use compaction::{Merge, Plan, Turn, pick};
use disk::Disk;
use kv_types::{Limits, Number};
use std::alloc::{AllocError, Global};
use store_files::laws::{held_files_are_left, open_files_are_apart};
use store_files::{EngineError, StoreFiles, Tended};
use table_files::CachedDisk;
use version_edits::TableLine;

// The greatest key of the one table that the plan takes from its level, if it takes one alone.
fn key_of(plan: Plan, tables: &[TableLine]) -> Result<Option<StoredKey>, AllocError>
    ensures { IfOk result (λ key. key ≡ key_of_plan plan tables.now) }
{
    let Some(file) = plan.file else {
        return Ok(None);
    };
    let mut rest = tables;
    while let [line, later @ ..] = rest {
        if line.level == plan.level && line.file == file {
            return Ok(Some(line.greatest.clone()?));
        }
        rest = later;
    }
    Ok(None)
}

// The turn of a level is over for the table with this greatest key, if there is one.
fn end_turn(turn: &mut Turn, level: u8, key: Option<StoredKey>)
    requires { level ≤ 6 }
    ensures { (other : ℕ) → turn_key turn.new other
        ≡ (if other == level then option_or key (turn_key turn.old other)
        else turn_key turn.old other) }
{
    if let Some(key) = key {
        turn.advance(level, key);
    }
}

// Does the next part of the merge that is under way, or begins the one that is due: then the floor
// rises to this number. Where none is due, it makes no call of the disk.
fn tend_merge<D: Disk + Drop>(
    alloc: Global,
    files: &mut CachedDisk<D>,
    store: &mut StoreFiles,
    merge: &mut Option<Merge<D>>,
    turn: &mut Turn,
    limits: &Limits,
    floor: Number,
) -> Result<Tended, EngineError>
    requires { MayRise store.old floor }
    ensures kept { KeepsTended D.Disk limits.now floor files.old files.new
        (tended_store store.old merge.old turn.old) (tended_store store.new merge.new turn.new)
        result }
    ensures did { IfOk result (MergesByPlan D.Disk limits.now floor files.old files.new
        (tended_store store.old merge.old turn.old) (tended_store store.new merge.new turn.new)) }
    ensures rests { IfOk result (λ done. done ≡ Idle → files.new ≡ files.old) }
{
    held_files_are_left(); // law: what the disk of open files reads as, and leaves
    if let Some(it) = merge.take() {
        return continue_merge(alloc, files, store, it, merge);
    }
    let Some(plan) = pick(store.manifest.state(), limits, turn) else {
        return Ok(Tended::Idle);
    };
    let key = key_of(plan, &store.manifest.state().tables)?;
    let begun = begin(alloc, files, store, plan, floor, limits.table)?;
    drop(merge.replace(begun));
    end_turn(turn, plan.level, key);
    Ok(Tended::Worked)
}

/// Does the first that is due: a rewrite of the manifest, a flush, or the next part of a merge, for
/// which the floor may rise to this number.
pub(crate) fn tend_store<D: Disk + Drop>(
    alloc: Global,
    files: &mut CachedDisk<D>,
    store: &mut StoreFiles,
    merge: &mut Option<Merge<D>>,
    turn: &mut Turn,
    limits: &Limits,
    floor: Number,
) -> Result<Tended, EngineError>
    requires { MayRise store.old floor }
    ensures kept { KeepsTended D.Disk limits.now floor files.old files.new
        (tended_store store.old merge.old turn.old) (tended_store store.new merge.new turn.new)
        result }
    ensures did { IfOk result (TendsByPlan D.Disk limits.now floor files.old files.new
        (tended_store store.old merge.old turn.old) (tended_store store.new merge.new turn.new)) }
    ensures refused { RefusesTend D.Disk limits.now files.old store.old result }
    ensures rests { IfOk result (λ done. done ≡ Idle → files.new ≡ files.old) }
{
    held_files_are_left(); // law: what the disk of open files reads as, and leaves
    merges_outlive_calls::<D>(); // law: a merge outlives calls that leave its files
    open_files_are_apart(); // law: which files a tend of the store changes
    merges_stay_beside::<D>(); // law: a flush names no output of a merge
    let done = store.tend(alloc, files, limits.log)?;
    if done != Tended::Idle {
        return Ok(done);
    }
    tend_merge(alloc, files, store, merge, turn, limits, floor)
}
