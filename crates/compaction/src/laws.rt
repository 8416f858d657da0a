//! Laws of the definitions that contracts use. The functions do nothing: their clauses are the
//! laws.
ghost use Rattle.compaction.specs.Examples.{InputExamples, PickExamples, SurvivorExamples};
ghost use Rattle.compaction.specs.Merges.{MergeEditsFit, MergeEditsKeep, MergesOutliveCalls};
ghost use Rattle.compaction.specs.Merges.{MergesStayBeside};
ghost use Rattle.compaction.specs.Plans.{PicksArePlanned};
ghost use Rattle.compaction.specs.Survivors.{SurvivorsAreLeft};
ghost use Rattle.compaction.specs.WrittenTables.{WrittenAreMerged, WrittenAreSurvivors};

use crate::walking::are_lawful;
use disk::Disk;
use merge_iter::{Cursor, Merged};
use sorted_table::TableCursor;
use table_files::CachedDisk;

/// Of the sorted union of its inputs a merge leaves exactly the entries that the two rules do not
/// drop.
// law: of `survivors`
pub fn survivors_are_left()
    ensures { SurvivorsAreLeft }
{}

/// The tables that a merge writes have the entries that it leaves, in order.
// law: of `written_of`
pub fn written_are_survivors()
    ensures { WrittenAreSurvivors }
{}

/// Tables that have what a merge writes of the sorted union of its inputs are its outputs: they
/// have the entries of the inputs less exactly those that the two rules drop, and ranges of their
/// own.
// law: of `written_of`
pub fn written_are_merged()
    ensures { WrittenAreMerged }
{
    survivors_are_left(); // law: the survivors are what a merge leaves
    store_model::written_have_ranges(); // law: tables in order of keys have ranges of their own
}

/// A plan that is picked is a plan of the model, over any tables that the lines of the version
/// name.
// law: of `picked`
pub fn picks_are_planned()
    ensures { PicksArePlanned }
{}

/// A merge under way stays so while other calls leave its inputs and its outputs as they were.
// law: of `IsMerging`
pub fn merges_outlive_calls<D: Disk + Drop>()
    ensures { MergesOutliveCalls ⟦<Merged<TableCursor<D>> as Cursor>⟧ ⟦<CachedDisk<D> as Disk>⟧ }
{
    are_lawful::<Merged<TableCursor<D>>>(); // law: what suits a union leaves it sound
}

/// A version that names no output of a merge under way names none after an edit that adds files
/// from the merge's next one on alone.
// law: of `MergeIsBeside`
pub fn merges_stay_beside<D: Disk + Drop>()
    ensures { MergesStayBeside ⟦<Merged<TableCursor<D>> as Cursor>⟧ ⟦<CachedDisk<D> as Disk>⟧ }
{}

/// A version may take the edit of a merge that can end in its store.
// law: of `IsMergeEdit`
pub fn merge_edits_fit()
    ensures { MergeEditsFit }
{
    store_model::merges_keep(); // law: tables may stand together after a merge
}

/// The edit of a merge gives up its inputs and adds its outputs, and keeps the list that the store
/// of the version represents.
// law: of `IsMergeEdit`
pub fn merge_edits_keep()
    ensures { MergeEditsKeep }
{
    store_model::merges_keep(); // law: a merge keeps the list
}

/// Small versions with the merges that are due in them, and entries with those that a merge leaves.
// law: of `picked`, `range_of` and `survivors`
pub fn examples()
    ensures picks { PickExamples }
    ensures inputs { InputExamples }
    ensures survivors { SurvivorExamples }
{}
