// The merges of a store: one begins, goes on by so many entries in a tend, and ends or is given up.
ghost use Rattle.std.specs.Prelude.{◌≡◌, ◌<◌, ◌≤◌, IfErr, IfOk, IfSome, IsErrOf, List, None, OnOk};
ghost use Rattle.std.specs.Prelude.{Option, Some};
ghost use Rattle.store_model.specs.{LevelTable, MergePlan};
ghost use Rattle.table_files.specs.{inner_disk};
ghost use Rattle.compaction.specs.Merges.{HasEntriesLeft, begun_number, target_of};
ghost use Rattle.store_files.specs.BesideFiles.{with_free};
ghost use Rattle.store_files.specs.Merging.{MayMerge};
ghost use Rattle.store_files.specs.OpenFiles.{AreUsableFiles};
ghost use Rattle.store_files.specs.Raising.{MayRise};
ghost use Rattle.compaction.specs.Outputs.{WritesOnly};
ghost use Rattle.store_tables.specs.Errors.{IsEnd};
ghost use Rattle.engine.specs.BeginParts.{BeginsMerge};
ghost use Rattle.engine.specs.LentFiles.{files_ghosts, union_ghosts};
ghost use Rattle.engine.specs.declared.merging.Progress.TheVariants.{Done};
ghost use Rattle.engine.specs.MergeParts.{AdvancesPlanned, HasDamagedInput, HasNoLeftovers};
ghost use Rattle.engine.specs.MergeParts.{IsAdvanced, IsBegunBy};
ghost use Rattle.engine.specs.MergeParts.{IsCheckedEdit, IsEditOf, IsPicked, KeepsAbandoned};
ghost use Rattle.engine.specs.MergeParts.{KeepsBegun, KeepsCompleted, KeepsMerge, MergeHasEnded};
ghost use Rattle.engine.specs.MergeParts.{answer_of_merge, error_of_merge, free_behind};
ghost use Rattle.engine.specs.MergeParts.{merge_after, progress_after};
ghost use Rattle.engine.specs.Tends.{ContinuesAsPlanned};
ghost use Rattle.engine.specs.UnderWay.{IsMergeOf};

use compaction::laws::{merge_edits_keep, picks_are_planned};
use compaction::{Merge, MergeError, Plan};
use disk::Disk;
use kv_types::Number;
use std::alloc::Global;
use store_files::laws::{open_files_are_apart, other_files_are_free};
use store_files::{EngineError, StoreFiles, Tended};
use store_model::plans_fit;
use store_tables::laws::versions_name_own_files;
use table_files::CachedDisk;
use version_edits::{StoreVersion, VersionEdit, is_fit};

// The greatest number of entries that one tend merges.
const STEP_LENGTH: usize = 256;

// How a merge went on.
enum Progress {
    // Entries are left.
    More,
    // None is left.
    Done,
    // The next entry wants a place that there is not.
    Full,
}

// The refusal of a store for that of a merge; one that lacks room is none, and one that has failed
// is never kept.
fn refusal_of(e: MergeError) -> EngineError
    ensures { result ≡ error_of_merge e }
{
    match e {
        MergeError::Disk => EngineError::Disk,
        MergeError::Memory => EngineError::Memory,
        MergeError::Damaged | MergeError::Failed | MergeError::Full => EngineError::Damaged,
    }
}

// The answer of a store for that of a merge.
fn answer_of<T>(answer: Result<T, MergeError>) -> Result<T, EngineError>
    ensures { result ≡ answer_of_merge answer }
{
    match answer {
        Ok(it) => Ok(it),
        Err(e) => Err(refusal_of(e)),
    }
}

// How a merge went on that answers so.
fn progress_of(step: Result<bool, MergeError>) -> Result<Progress, EngineError>
    ensures { result ≡ progress_after step }
{
    match step {
        Ok(true) => Ok(Progress::More),
        Ok(false) => Ok(Progress::Done),
        Err(MergeError::Full) => Ok(Progress::Full),
        Err(e) => Err(refusal_of(e)),
    }
}

// The edit of a merge that ended so, if the version may take it. `None` where the version would
// have too many tables.
fn checked_edit(
    alloc: Global,
    version: &StoreVersion,
    made: Result<VersionEdit, MergeError>,
) -> Result<Option<VersionEdit>, EngineError>
    ensures { IsCheckedEdit version.now.version made result }
{
    match made {
        Ok(edit) => {
            // A disk that lies may show entries of which no edit can be made.
            if is_fit(alloc, version, &edit)? {
                Ok(Some(edit))
            } else {
                Err(EngineError::Damaged)
            }
        }
        Err(MergeError::Full) => Ok(None),
        Err(e) => Err(refusal_of(e)),
    }
}

// Begins the merge of a plan over open files whose floor has risen: the cursors over the inputs
// stand on their first entries.
fn begin_raised<D: Disk + Drop>(
    alloc: Global,
    files: &mut CachedDisk<D>,
    store: &StoreFiles,
    plan: Plan,
    target: u64,
) -> Result<Merge<D>, EngineError>
    requires picked { IsPicked store.now plan }
    requires within { (plan.level ≤ 5) × (0 < target) }
    ensures writes { WritesOnly (files_ghosts D.Disk) (λ _. ⊥) files.old files.new
        (IsErrOf result EngineError.Disk) ⊥ }
    ensures refused { IfErr result IsEnd }
    ensures first { IfOk result (λ merge. begun_number merge ≡ store.now.free_file) }
    ensures aims { IfOk result (λ merge. target_of merge ≡ target) }
    ensures begins { BeginsMerge D.Disk plan files.old files.new store.now result }
{
    // laws: that a picked plan is one of the model, that its merge can end in the store, and that
    // no two tables have one file
    picks_are_planned();
    plans_fit();
    versions_name_own_files();
    let next = store.free_file();
    let version = store.manifest.state();
    let cursors = store.tables.merge_cursors(alloc, plan, &version.tables)?;
    let begun = Merge::begin(alloc, files, version, plan, target, next, cursors);
    answer_of(begun)
}

/// Begins the merge of a plan: the floor rises, and the cursors over the inputs stand on their
/// first entries.
pub(crate) fn begin<D: Disk + Drop>(
    alloc: Global,
    files: &mut CachedDisk<D>,
    store: &mut StoreFiles,
    plan: Plan,
    floor: Number,
    target: u64,
) -> Result<Merge<D>, EngineError>
    requires rises { MayRise store.old floor }
    requires picked { IsPicked store.old plan }
    requires within { (plan.level ≤ 5) × (0 < target) }
    ensures kept { KeepsBegun D.Disk plan floor files.old files.new store.old store.new result }
    ensures did { IfOk result (IsBegunBy D.Disk plan floor files.old files.new store.old
        store.new) }
    ensures aims { IfOk result (λ merge. target_of merge ≡ target) }
{
    open_files_are_apart(); // law: no file exists from the first free one on
    store.raise_floor(alloc, files, floor)?;
    begin_raised(alloc, files, store, plan, target)
}

// Merges the next entries of the inputs.
fn advance<D: Disk + Drop>(
    alloc: Global,
    files: &mut CachedDisk<D>,
    store: &mut StoreFiles,
    merge: &mut Merge<D>,
) -> Result<Progress, EngineError>
    requires { AreUsableFiles store.old }
    ensures kept { KeepsMerge D.Disk (HasDamagedInput D.Disk files.old merge.old)
        (merge_after merge.new) (Some merge.old) files.old files.new store.old store.new result }
    ensures goes_on { IsAdvanced store.old store.new merge.old merge.new }
    ensures advances { AdvancesPlanned D.Disk files.old files.new store.old store.new merge.old
        merge.new result }
    ensures done { IfOk result (λ progress. progress ≡ Done →
        HasEntriesLeft (union_ghosts D.Disk) (files_ghosts D.Disk) merge.new → ⊥) }
{
    // laws: what open files hold does not depend on others, and which these are
    other_files_are_free();
    open_files_are_apart();
    let tables = store.manifest.state().tables.len();
    let mut next = store.free_file();
    let step = merge.step(alloc, files, STEP_LENGTH, tables, &mut next);
    store.set_free_file(next);
    progress_of(step)
}

// Completes the last output of a merge of which no entry is left, and makes the edit. `None` where
// the version would have too many tables.
fn complete<D: Disk + Drop>(
    alloc: Global,
    files: &mut CachedDisk<D>,
    store: &StoreFiles,
    merge: &mut Merge<D>,
) -> Result<Option<VersionEdit>, EngineError>
    requires usable { AreUsableFiles store.now }
    requires done { HasEntriesLeft (union_ghosts D.Disk) (files_ghosts D.Disk) merge.old → ⊥ }
    ensures kept { KeepsCompleted D.Disk files.old files.new store.now merge.old result }
    ensures fit { IfOk result (λ made. IfSome made (λ edit. MayMerge store.now edit
        × (edit.tables_gone ≡ merge.old.gone.items))) }
    ensures first { begun_number merge.new ≡ begun_number merge.old }
    ensures ends { (tables : List LevelTable) (plan : MergePlan) →
        IsMergeOf D.Disk files.old store.now tables merge.old plan →
        IfOk result (IsEditOf store.now plan (target_of merge.old)) }
{
    // laws: what open files hold does not depend on others; and a merge keeps the list
    other_files_are_free();
    open_files_are_apart();
    merge_edits_keep();
    let (version, next) = (store.manifest.state(), store.free_file());
    let made = merge.finish(alloc, files, version, next);
    checked_edit(alloc, version, made)
}

// Gives a merge up: its files are removed, and their numbers are free again.
fn abandon<D: Disk + Drop>(
    files: &mut CachedDisk<D>,
    store: &mut StoreFiles,
    merge: Merge<D>,
) -> Result<(), EngineError>
    requires { AreUsableFiles store.old }
    ensures kept { KeepsAbandoned D.Disk merge files.old files.new store.old store.new result }
    ensures freed { store.new ≡ with_free store.old (free_behind (begun_number merge) store.old) }
    ensures removed { D.is_honest (inner_disk files.old) →
        OnOk result (HasNoLeftovers D.Disk (begun_number merge) store.old files.new) }
{
    // laws: what open files hold does not depend on others, and which these are
    other_files_are_free();
    open_files_are_apart();
    let (begun, free) = (merge.begun(), store.free_file());
    let next = store.manifest.state().next_file;
    let answer = merge.abandon(files, store.manifest.state(), free);
    store.set_free_file(begun.max(next).min(free));
    answer_of(answer)
}

// Ends a merge of which no entry is left: its edit is recorded. Where the version would have too
// many tables, the merge is given up.
fn end<D: Disk + Drop>(
    alloc: Global,
    files: &mut CachedDisk<D>,
    store: &mut StoreFiles,
    mut merge: Merge<D>,
) -> Result<Tended, EngineError>
    requires usable { AreUsableFiles store.old }
    requires done { HasEntriesLeft (union_ghosts D.Disk) (files_ghosts D.Disk) merge → ⊥ }
    ensures kept { KeepsMerge D.Disk ⊥ (λ _. None) (Some merge) files.old files.new store.old
        store.new result }
    ensures did { IfOk result (MergeHasEnded D.Disk files.old files.new store.old store.new merge) }
{
    match complete(alloc, files, store, &mut merge) {
        Ok(Some(edit)) => {
            drop(merge);
            let installed = store.install_merge(alloc, files, &edit);
            installed.and(Ok(Tended::Worked))
        }
        Ok(None) => abandon(files, store, merge).and(Ok(Tended::Full)),
        Err(e) => {
            drop(merge);
            Err(e)
        }
    }
}

/// Does the next part of a merge that is under way. Where it goes on, it is put in its place again,
/// which is empty.
pub(crate) fn continue_merge<D: Disk + Drop>(
    alloc: Global,
    files: &mut CachedDisk<D>,
    store: &mut StoreFiles,
    mut merge: Merge<D>,
    place: &mut Option<Merge<D>>,
) -> Result<Tended, EngineError>
    requires usable { AreUsableFiles store.old }
    requires none { place.old ≡ None }
    ensures kept { KeepsMerge D.Disk (HasDamagedInput D.Disk files.old merge) (λ _. place.new)
        (Some merge) files.old files.new store.old store.new result }
    ensures did { IfOk result (ContinuesAsPlanned D.Disk files.old files.new store.old store.new
        merge place.new) }
{
    match advance(alloc, files, store, &mut merge) {
        Ok(Progress::More) => {
            drop(place.replace(merge));
            Ok(Tended::Worked)
        }
        Ok(Progress::Done) => end(alloc, files, store, merge),
        Ok(Progress::Full) => abandon(files, store, merge).and(Ok(Tended::Full)),
        Err(e) => {
            drop(merge);
            Err(e)
        }
    }
}
