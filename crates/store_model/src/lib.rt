//! The store of a node as a pure model: which tables and logs represent a list of batches, and what
//! its steps keep. The functions do nothing; their clauses are theorems.
#![tactic(auto)]

ghost use Rattle.store_model.specs.Claims.{AppendsKeep, EmptyRepresents, FlushesKeep};
ghost use Rattle.store_model.specs.Claims.{FlushesAddLogs, FlushesLeaveMerges, RaisesKeep};
ghost use Rattle.store_model.specs.Claims.{RaisesLeaveMerges, TrimsAreRaises, TrimsLeaveLogs};
ghost use Rattle.store_model.specs.Claims.{AlwaysRepresents, MergesKeep, MergesKeepViews, PlansFit};
ghost use Rattle.store_model.specs.Claims.{LookUpsAreMaps, LookUpsAreShown, OneTableHasKey};
ghost use Rattle.store_model.specs.Claims.{StoreEntriesDiffer};
ghost use Rattle.store_model.specs.Claims.{NextDecides, ReplaysAgree, StoreViewsAreMaps};
ghost use Rattle.store_model.specs.Claims.{WrittenHaveRanges};
ghost use Rattle.store_model.specs.Examples.{MergeExamples, PlanExamples, StoreExamples};
ghost use Rattle.store_model.specs.Examples.{TrimExamples};

/// The view of a store at each number from its floor on is the map of so many first batches, and no
/// two of its entries share key and number.
// law: of `StoreRepresents`
pub fn store_views_are_maps()
    ensures maps { StoreViewsAreMaps }
    ensures differ { StoreEntriesDiffer }
{}

/// What a lookup finds first, in memory and then level by level, is what the map has; and an entry
/// that it finds, other than a deletion, is one of the batches, with the number of its batch. From
/// level 1 on, a table whose range holds a key has all entries of the key in its level.
// law: of `StoreFinds`
pub fn look_ups_are_maps()
    ensures maps { LookUpsAreMaps }
    ensures shown { LookUpsAreShown }
    ensures one { OneTableHasKey }
{}

/// A store without batches represents the empty list.
// law: of `StoreRepresents`
pub fn empty_represents()
    ensures { EmptyRepresents }
{}

/// With a batch more in the newest log, a store represents the list with that batch.
// law: of `StoreRepresents`
pub fn appends_keep()
    ensures { AppendsKeep }
{
    kv_types::laws::views_are_maps();
}

/// A flush keeps the list, and a merge under way can still end. It adds a log.
// law: of `IsFlush`
pub fn flushes_keep()
    ensures list { FlushesKeep }
    ensures merge { FlushesLeaveMerges }
    ensures logs { FlushesAddLogs }
{}

/// A rise of the floor keeps the list, and a merge under way can still end.
// law: of `IsRaise`
pub fn raises_keep()
    ensures list { RaisesKeep }
    ensures merge { RaisesLeaveMerges }
{}

/// Trimming the logs up to the floor, but for the newest, is a rise, and the others are left.
// law: of `trimmed_to`
pub fn trims_are_raises()
    ensures raise { TrimsAreRaises }
    ensures logs { TrimsLeaveLogs }
{}

/// A merge can end in the store that it was planned for.
// law: of `IsPlanned`
pub fn plans_fit()
    ensures { PlansFit }
{}

/// A merge keeps the list, whatever was flushed since it was planned. It keeps the views of tables
/// alone, too.
// law: of `IsMerged`
pub fn merges_keep()
    ensures list { MergesKeep }
    ensures views { MergesKeepViews }
{}

/// After any appends, flushes, merges, rises of the floor and stops, a store represents its list.
// law: of `IsReached`
pub fn always_represents()
    ensures { AlwaysRepresents }
{
    kv_types::laws::views_are_maps();
}

/// The replay of the logs has exactly the entries that belong in memory.
// law: of `replayed_entries`
pub fn replays_agree()
    ensures { ReplaysAgree }
{}

/// Tables that were written in order of keys, with no key in two of them, have ranges of their own.
// law: of `HaveOwnRanges`
pub fn written_have_ranges()
    ensures { WrittenHaveRanges }
{}

/// In order, the entry right before another decides whether a merge drops it as overwritten.
// law: of `IsOverwritten`
pub fn next_decides()
    ensures { NextDecides }
{}

/// A small store, what reads find in it, its merge at two floors, which merges are planned, and
/// logs that are trimmed.
// law: of all definitions
pub fn examples()
    ensures store { StoreExamples }
    ensures merge { MergeExamples }
    ensures plans { PlanExamples }
    ensures trims { TrimExamples }
{
    kv_types::laws::views_are_maps();
}
