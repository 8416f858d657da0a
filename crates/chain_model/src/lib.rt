//! The chain as a pure state machine: theorems about every run, with stops, losses, repetitions and
//! delays.
#![tactic(auto)]

ghost use Rattle.std.specs.Prelude.{List};
ghost use Rattle.kv_types.specs.{Edits};
ghost use Rattle.configurations.specs.{Configurations, Lawful};
ghost use Rattle.chain_model.specs.System.{SystemEvent};
ghost use Rattle.chain_model.specs.Headline.{OneList};
ghost use Rattle.chain_model.specs.Once.{ExactlyOnce};
ghost use Rattle.chain_model.specs.Outcomes.{RunIsOutcomes};
ghost use Rattle.chain_model.specs.Order.{InOrder};
ghost use Rattle.chain_model.specs.Freshness.{ReadsFresh};
ghost use Rattle.chain_model.specs.Retention.{KeepsEnough};
ghost use Rattle.chain_model.specs.Growth.{StepsStayRunning, OnlyGrows};
ghost use Rattle.chain_model.specs.Maps.{CommutesWithMap};
ghost use Rattle.chain_model.specs.WorkedRuns.{WorkedRuns};
ghost use Rattle.chain_model.specs.WorkedSnapshots.{WorkedSnapshots};
ghost use Rattle.chain_model.specs.WorkedDrops.{WorkedDrops};
ghost use Rattle.chain_model.specs.WorkedMarks.{WorkedMarks};

mod drop_reason;
mod refusal;

pub use drop_reason::DropReason;
pub use refusal::Refusal;

/// For every lawful list of configurations and every list of events there is one list of batches.
/// Every read, acknowledgement and refusal agrees with it, and it is a prefix of each last node's
/// list.
pub fn one_history()
    ensures { (cs : Configurations) (events : List (SystemEvent Edits)) → Lawful cs →
        OneList cs events }
{}

/// No two batches of the list of `one_history` bear one mark. Every acknowledgement, first or
/// repeated, names the place of the one batch that bears its mark.
pub fn exactly_once()
    ensures { (cs : Configurations) (events : List (SystemEvent Edits)) → Lawful cs →
        (one : OneList cs events) → ExactlyOnce cs events one.B }
{}

/// Along the chain each later list is a prefix of the earlier ones, and frames are true. The list
/// of an epoch's tail at that epoch is never lost.
pub fn in_order()
    ensures { (cs : Configurations) (events : List (SystemEvent Edits)) → Lawful cs →
        InOrder cs events }
{}

/// A read at the last configuration's tail, once it is at that epoch, sees every batch that was
/// ever acknowledged or read.
pub fn reads_fresh()
    ensures { (cs : Configurations) (events : List (SystemEvent Edits)) → Lawful cs → ReadsFresh cs
        events }
{}

/// No node trims a batch from its logs that another one may still need from it.
pub fn keeps_enough()
    ensures { (cs : Configurations) (events : List (SystemEvent Edits)) → Lawful cs → KeepsEnough cs
        events }
{}

/// Each event has one outcome, and the run sends and replies what these outcomes do.
pub fn run_is_outcomes()
    ensures { (cs : Configurations) (events : List (SystemEvent Edits)) → RunIsOutcomes cs events }
{}

/// A step that answers leaves its node running. The node's list, epoch, floor and kept number stay
/// or grow.
pub fn steps_stay_running()
    ensures { StepsStayRunning Edits }
{}

/// A longer run extends a shorter one: it keeps every batch, epoch, frame and reply.
pub fn only_grows()
    ensures { (cs : Configurations) (events later : List (SystemEvent Edits)) → OnlyGrows cs events
        later }
{}

/// A run does not inspect the contents of batches: it commutes with every map of them, event by
/// event.
pub fn commutes_with_maps<A, B>()
    ensures { (f : A → B) (cs : Configurations) (es : List (SystemEvent A)) → CommutesWithMap f cs
        es }
{}

/// Eighteen small runs show the expected frames, replies and drops, event by event.
pub fn worked_runs()
    ensures { WorkedRuns }
{}

/// Five small runs show the replies to requests for snapshots, event by event.
pub fn worked_snapshots()
    ensures { WorkedSnapshots }
{}

/// Five small runs show which frames and replies a batch has that is submitted again.
pub fn worked_marks()
    ensures { WorkedMarks }
{}

/// The drops and refusals of a new node, each with its reason.
pub fn worked_drops()
    ensures { WorkedDrops }
{}
