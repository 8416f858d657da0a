//! Statements are run in a world: the events of each, one after another.
ghost use Rattle.std.specs.Prelude.{◌≡◌, ℕ, List, [], ◌∷◌, ◌++◌, length, drop};
ghost use Rattle.std.specs.Prelude.{OnErr, OnOk, IfOk, ◌+◌, ◌-◌, if◌then◌else◌, Some, None};
ghost use Rattle.std.specs.Prelude.{replicate};
ghost use Rattle.std.specs.Prelude.{◌≤◌, ◌⊎◌};
ghost use Rattle.std.specs.Prelude.{true};
ghost use Rattle.kv_types.specs.{has};
ghost use Rattle.lab.specs.NodeLists.{at_epoch};
ghost use Rattle.lab.specs.declared.Line.{Line};
ghost use Rattle.lab.specs.{Choice, NamesNode, StepsOnce, configs_of, faultless, frames_in_steps};
ghost use Rattle.lab.specs.{frames_of_step, lines_so_far};
ghost use Rattle.client.specs.ReportedRuns.{ActionAddsLines, ActionIsCut, DeliversLeft};
ghost use Rattle.client.specs.ReportedRuns.{IsReportedIn, RunsAction, StepIsCut, places_between};
ghost use Rattle.client.specs.ScriptRuns.{HasRunTo, HasSettled, HasTurned, IsRising};
ghost use Rattle.client.specs.ScriptRuns.{Stretch, busy, deliveries, followed_by};
ghost use Rattle.client.specs.ScriptRuns.{has_worked};
ghost use Rattle.client.specs.ScriptRuns.{left_after_event, most};
ghost use Rattle.client.specs.ScriptRuns.{one_step};
ghost use Rattle.client.specs.ScriptRuns.{places_after, shown, tending};
ghost use Rattle.scripts.specs.Scripts.{Names};
ghost use Rattle.scripts.specs.declared.setup.Setup.{Setup};
ghost use Rattle.client.specs.declared.statement_result.Note.TheVariants as note;

use crate::statement_result::{Note, StatementResult};
use disk::{Crash, Disk};
use lab::{Carrier, Event, EventKind, LabError, Line, NodeId, Numbers, Tended, World};
use scripts::{Action, Statement};
use std::alloc::{AllocError, Global};
use std::collections::VecDeque;

/// The most frames that one flow delivers, and the most tends of one settle.
const MOST: usize = 10000;

// The places of the frames that were sent between.
fn add_sent(left: &mut VecDeque<u64>, before: u64, now: u64) -> Result<(), AllocError>
    ensures { OnOk result
        (left.new.items ≡ left.old.items ++ places_after before (now - before)) }
{
    for sent in before..now {
        left.push_back(sent + 1)?;
    }
    Ok(())
}

// A frame that an event delivers is no longer left. The places rise, so it is found by halving.
fn remove_delivered(left: &mut VecDeque<u64>, event: &Event)
    ensures { (low high : ℕ) → IsRising low high left.old.items →
        left.new.items ≡ left_after_event event.now.kind left.old.items }
{
    if let Some(place) = event.delivered() {
        if let Ok(index) = left.binary_search(&place) {
            left.remove(index);
        }
    }
}

// Whether these are the lines of a tend that worked.
fn is_work(lines: &[Line]) -> bool
    ensures { result ≡ has_worked lines.now }
{
    match lines {
        [Line::Tended(Tended::Worked)] => true,
        _ => false,
    }
}

// What is said of a flow that left these frames.
fn busy(left: &VecDeque<u64>) -> Note
    ensures { result ≡ busy left.now.items }
{
    if left.is_empty() {
        Note::Nothing
    } else {
        Note::Busy
    }
}

// What is said of a node, which has numbers if it runs.
fn shown(node: NodeId, numbers: Option<Numbers>) -> Note
    ensures { result ≡ shown node numbers }
{
    match numbers {
        None => Note::Down(node),
        Some(numbers) => Note::Running(node, numbers),
    }
}

// What a statement did.
fn result_of(line: u32, events: usize, silent: usize, note: Note) -> StatementResult
    ensures { result ≡ record { line = line; events = events; silent = silent; note = note } }
{
    StatementResult {
        line,
        events,
        silent,
        note,
    }
}

// What a settle did. It prints its last tend, or that there is more to do.
fn settled_result(line: u32, tends: usize, more: bool) -> StatementResult
    ensures { result ≡ record {
      line = line;
      events = tends;
      silent = (if more then tends else tends - 1);
      note = (if more then note.Busy else note.Nothing);
    } }
{
    if more {
        result_of(line, tends, tends, Note::Busy)
    } else {
        result_of(line, tends, tends.saturating_sub(1), Note::Nothing)
    }
}

// An event happens in the world, and the frames that it sends are left to be delivered.
fn step<D: Crash + Drop, C: Carrier + Drop>(
    alloc: Global,
    world: &mut World<D, C>,
    left: &mut VecDeque<u64>,
    event: &Event,
) -> Result<(), LabError>
    ensures ran { (setup : Setup) (past : Stretch) → HasRunTo C.Carrier world.old setup past →
        NamesNode setup.configs event.now.kind →
        OnOk result ((choice : Choice) × (lines : List Line)
        × HasRunTo C.Carrier world.new setup (followed_by past (one_step event.now choice lines))
        × (left.new.items ≡ left.old.items
        ++ places_after (frames_in_steps past.steps) (frames_of_step lines))) }
    ensures steps { OnOk result (StepsOnce C.Carrier event.now world.old world.new) }
    ensures left { OnOk result
        (left.new.items ≡ left.old.items ++ places_between world.old world.new) }
    ensures refused { OnErr result (StepIsCut C.Carrier event.now world.old world.new) }
{
    let before = world.sent();
    world.step(alloc, event)?;
    add_sent(left, before, world.sent())?;
    Ok(())
}

// Something happens, without a fault of the disk.
fn happen<D: Crash + Drop, C: Carrier + Drop>(
    alloc: Global,
    world: &mut World<D, C>,
    left: &mut VecDeque<u64>,
    kind: EventKind,
) -> Result<(), LabError>
    ensures ran { (setup : Setup) (past : Stretch) → HasRunTo C.Carrier world.old setup past →
        NamesNode setup.configs kind → OnOk result ((choice : Choice) × (lines : List Line)
        × HasRunTo C.Carrier world.new setup
        (followed_by past (one_step (faultless kind) choice lines))
        × (left.new.items ≡ left.old.items
        ++ places_after (frames_in_steps past.steps) (frames_of_step lines))) }
    ensures steps { OnOk result (StepsOnce C.Carrier (faultless kind) world.old world.new) }
    ensures left { OnOk result
        (left.new.items ≡ left.old.items ++ places_between world.old world.new) }
    ensures refused { OnErr result (StepIsCut C.Carrier (faultless kind) world.old world.new) }
{
    let event = Event::faultless(alloc, kind)?;
    let done = step(alloc, world, left, &event);
    drop(event);
    done
}

// The frames that are left are delivered, up to the bound. It answers how many.
fn flow<D: Crash + Drop, C: Carrier + Drop>(
    alloc: Global,
    world: &mut World<D, C>,
    left: &mut VecDeque<u64>,
) -> Result<usize, LabError>
    ensures ran { (setup : Setup) (past : Stretch) → HasRunTo C.Carrier world.old setup past →
        IfOk result (λ count. (own : Stretch)
        × HasRunTo C.Carrier world.new setup (followed_by past own)
        × (own.events ≡ deliveries (left.old.items
        ++ places_after (frames_in_steps past.steps) (frames_in_steps own.steps)))
        × (count ≡ length own.steps) × (count ≡ length own.events)
        × (left.new.items ≡ drop most (left.old.items
        ++ places_after (frames_in_steps past.steps) (frames_in_steps own.steps)))) }
    ensures adds { IfOk result (λ count. (count ≤ most)
        × ActionAddsLines Action.Flow count world.old world.new
        × ((left.new.items ≡ []) ⊎ (count ≡ most))) }
    ensures delivers { IfOk result (λ count. (count ≡ 0 → world.new ≡ world.old)
        × DeliversLeft world.old world.new left.old.items left.new.items) }
    ensures runs { IfOk result
        (λ count. RunsAction C.Carrier Action.Flow count world.old world.new) }
    ensures refused { OnErr result
        (ActionIsCut C.Carrier Action.Flow left.old.items world.old world.new) }
{
    let mut count = 0;
    while count < MOST {
        let Some(place) = left.pop_front() else {
            return Ok(count);
        };
        happen(alloc, world, left, EventKind::Deliver { place })?;
        count += 1;
    }
    Ok(count)
}

// Whether the last event was a tend that worked.
fn tend_has_worked<D: Disk + Drop, C: Carrier + Drop>(world: &World<D, C>) -> bool
    ensures { (before : List (List Line)) (last : List Line) →
        lines_so_far world.now ≡ before ++ last ∷ [] → result ≡ has_worked last }
{
    match world.report().last() {
        Some(lines) => is_work(lines.as_slice()),
        None => false,
    }
}

// The node tends until a tend does not work, up to the bound. It answers how often.
fn settle<D: Crash + Drop, C: Carrier + Drop>(
    alloc: Global,
    world: &mut World<D, C>,
    left: &mut VecDeque<u64>,
    node: NodeId,
) -> Result<usize, LabError>
    ensures ran { (setup : Setup) (past : Stretch) → HasRunTo C.Carrier world.old setup past →
        has (at_epoch setup.configs 0) node ≡ true →
        IfOk result (λ count. (own : Stretch)
        × HasRunTo C.Carrier world.new setup (followed_by past own)
        × (own.events ≡ replicate count (tending node)) × (count ≡ length own.steps)
        × HasSettled own.steps
        × (left.new.items ≡ left.old.items
        ++ places_after (frames_in_steps past.steps) (frames_in_steps own.steps))) }
    ensures adds { IfOk result (λ count. (count ≤ most)
        × ActionAddsLines (Action.Settle node) count world.old world.new) }
    ensures tends { IfOk result (λ _. Names (configs_of world.old) (Action.Settle node) →
        (own : List (List Line)) × (lines_so_far world.new ≡ lines_so_far world.old ++ own)
        × HasSettled own) }
    ensures left { IfOk result (λ count. (count ≡ 0 → world.new ≡ world.old)
        × (left.new.items ≡ left.old.items ++ places_between world.old world.new)) }
    ensures runs { IfOk result
        (λ count. RunsAction C.Carrier (Action.Settle node) count world.old world.new) }
    ensures refused { OnErr result
        (ActionIsCut C.Carrier (Action.Settle node) left.old.items world.old world.new) }
{
    let mut count = 0;
    while count < MOST {
        happen(alloc, world, left, EventKind::Tend { node })?;
        count += 1;
        if !tend_has_worked(world) {
            return Ok(count);
        }
    }
    Ok(count)
}

/// Runs a statement in the world, and answers what it did. `left` has the places of the frames that
/// no statement has delivered yet.
pub fn run_statement<D: Crash + Drop, C: Carrier + Drop>(
    alloc: Global,
    world: &mut World<D, C>,
    left: &mut VecDeque<u64>,
    statement: &Statement,
) -> Result<StatementResult, LabError>
    ensures ran { (setup : Setup) (past : Stretch) → HasRunTo C.Carrier world.old setup past →
        Names setup.configs statement.now.action →
        IsRising 0 (frames_in_steps past.steps) left.old.items →
        IfOk result (λ turn. HasTurned C.Carrier setup past statement.now turn world.old world.new
        left.old.items left.new.items) }
    ensures reported { IfOk result (λ turn. IsReportedIn C.Carrier world.old world.new
        statement.now turn left.old.items left.new.items) }
    ensures refused { OnErr result
        (ActionIsCut C.Carrier statement.now.action left.old.items world.old world.new) }
{
    let line = statement.line;
    match &statement.action {
        Action::Event(event) => {
            step(alloc, world, left, event)?;
            remove_delivered(left, event);
            Ok(result_of(line, 1, 0, Note::Nothing))
        }
        Action::Invalid(error) => Ok(result_of(line, 0, 0, Note::Invalid(*error))),
        Action::Flow => {
            let events = flow(alloc, world, left)?;
            Ok(result_of(line, events, 0, busy(left)))
        }
        Action::Settle(node) => {
            let tends = settle(alloc, world, left, *node)?;
            Ok(settled_result(line, tends, tend_has_worked(world)))
        }
        Action::Show(node) => {
            let note = shown(*node, world.numbers(*node));
            Ok(result_of(line, 0, 0, note))
        }
    }
}
