// A world of simulated nodes, stepped event by event.
ghost use Rattle.std.specs.Prelude.{◌≡◌, ◌⊎◌, IfOk, IfSome, IsErr, MatchOption};
ghost use Rattle.std.specs.Prelude.{OnErr, OnOk, false, true};
ghost use Rattle.std.specs.List.{AllZip, remove};
ghost use Rattle.configurations.specs.{Lawful, at_epoch};
ghost use Rattle.kv_types.specs.{has};
ghost use Rattle.lab.specs.SimNodes.{StateHasLimits};
ghost use Rattle.lab.specs.Runs.{AreNumbersOf, IsRunOver};
ghost use Rattle.lab.specs.History.{OneHistory};
ghost use Rattle.lab.specs.Worlds.{AreCreated, HasApplied, HasBegunEvent, HasHistory, HasKept};
ghost use Rattle.lab.specs.Worlds.{HasMoved, HasNoNode, HasRun, HaveLimits, IsCreated, IsIndexOf};
ghost use Rattle.lab.specs.Worlds.{IsDownAmong, IsReportOf, IsRunSoFar, ShowsNumbers};
ghost use Rattle.lab.specs.Worlds.{WorldHasEnded, WorldHasLimits, WorldRun};
ghost use Rattle.lab.specs.Worlds.{direct_carrier, empty_run, frames_in_steps, losses_of};
ghost use Rattle.lab.specs.LinesSoFar.{EndsIfRefused, HasNotBegun, HasPartlyKept};
ghost use Rattle.lab.specs.LinesSoFar.{HasJustBegun, HasRunNothing, StepIsRefused, StepsOnce};
ghost use Rattle.lab.specs.LinesSoFar.{configs_of, events_so_far, lines_so_far, lost_so_far};
ghost use Rattle.lab.specs.LinesSoFar.{nodes_of, sent_so_far};
ghost use Rattle.lab.specs.Transmissions.{carrier_of};

use crate::delivery::{Posted, delivery_of};
use crate::input::StepOutcome;
use crate::leaving::left_of_all;
use crate::node_state::NodeState;
use crate::report::{Line, Lines, Report};
use crate::sim_node::SimNode;
use crate::trace::trace_of;
use crate::{Carrier, Direct, Event, LabError};
use carriers::{Delivery, NodeInput};
use chain_model::{
    exactly_once, in_order, keeps_enough, one_history, reads_fresh, run_is_outcomes,
};
use configurations::{Config, Configs, NodeId};
use disk::{Crash, Disk, Fault, MemDisk};
use kv_types::{Limits, Number};
use link_messages::laws::one_spelling;
use node::{Node, Numbers, Stop};
use std::alloc::{AllocError, Global};

/// The nodes of a chain on disks of one type, what carries between them and their client, every
/// frame that they ever sent, and the trace so far. An event is a step of one of them, or is lost.
#[derive(Drop)]
pub struct World<D: Disk + Drop, C: Carrier + Drop> {
    configs: Configs,
    limits: Limits,
    nodes: Vec<SimNode<D>>,
    carrier: C,
    frames: Vec<Posted>,
    events: Vec<Event>,
    // Whether the request or frame of each event was lost on its way, and its lines.
    lost: Vec<bool>,
    steps: Vec<Lines>,
    // A step was refused.
    ended: bool,
}

// A node that was just created.
fn created_node(
    alloc: Global,
    id: NodeId,
    config: &Config,
    limits: &Limits,
) -> Result<SimNode<MemDisk>, LabError>
    ensures id { IfOk result (λ node. node.id ≡ id) }
    ensures created { IfOk result (IsCreated config.now) }
    ensures limits { IfOk result (λ node. StateHasLimits node.state limits.now) }
{
    let disk = MemDisk::new(alloc);
    match Node::create(alloc, disk, id, config, limits) {
        Ok(mut node) => {
            node.arm(&Fault::None);
            Ok(SimNode::up(id, Box::new(alloc, node)?))
        }
        Err((stop, _disk)) => {
            // A new disk fails at no call that fits, so only memory can be wanting.
            prove!(stop == Stop::Memory);
            Err(LabError::Memory)
        }
    }
}

// All nodes of a configuration, in order.
fn created_nodes(
    alloc: Global,
    config: &Config,
    limits: &Limits,
) -> Result<Vec<SimNode<MemDisk>>, LabError>
    ensures { IfOk result
        (λ nodes. AreCreated config.now config.now limits.now nodes.items) }
{
    let mut nodes = Vec::new(alloc);
    for id in config.ids() {
        nodes.push(created_node(alloc, *id, config, limits)?)?;
    }
    Ok(nodes)
}

// Where the node with this id is.
#[inline(always)]
fn index_of<D: Disk + Drop>(nodes: &[SimNode<D>], id: NodeId) -> Option<usize>
    ensures { MatchOption result (HasNoNode nodes.now id)
        (λ index. IsIndexOf nodes.now index id) }
{
    nodes.iter().position(|node| node.id == id)
}

// Dispatches what an event delivers to the node at this index, with the event's fault: the outcome.
// Where memory is short the node may be lost.
#[inline(always)]
fn deliver<D: Crash + Drop>(
    alloc: Global,
    nodes: &mut Vec<SimNode<D>>,
    event: &Event,
    index: usize,
    delivery: (NodeId, NodeInput),
    limits: &Limits,
) -> Result<StepOutcome, AllocError>
    requires { IsIndexOf nodes.old.items index delivery.0 }
    ensures moved { IfOk result (λ did. HasMoved nodes.old.items delivery.0 delivery.1
        event.now.fault limits.now did nodes.new.items) }
    ensures refused { OnErr result ((nodes.new.items ≡ nodes.old.items)
        ⊎ (nodes.new.items ≡ remove nodes.old.items index)) }
{
    let (id, input) = delivery;
    let fault = match event.fault() {
        Ok(fault) => fault,
        Err(e) => {
            drop(input);
            return Err(e);
        }
    };
    let node = nodes.remove(index);
    let (state, outcome) = node.state.dispatch(alloc, input, fault, limits)?;
    nodes.insert(index, SimNode { id, state })?;
    Ok(outcome)
}

impl World<MemDisk, Direct> {
    /// Creates the nodes of the first configuration, on new disks. Nothing is lost.
    pub fn new(
        alloc: Global,
        configs: &Configs,
        limits: &Limits,
    ) -> Result<World<MemDisk, Direct>, LabError>
        ensures ran { IfOk result
            (λ world. HasRun direct_carrier world (empty_run configs.now)) }
        ensures begun { IfOk result (HasJustBegun configs.now limits.now) }
        ensures goes_on { IfOk result (λ world. WorldHasEnded world → ⊥) }
        ensures limits { IfOk result (λ world. WorldHasLimits world limits.now) }
    {
        World::created(alloc, configs, Direct, limits)
    }
}

impl<C: Carrier + Drop> World<MemDisk, C> {
    /// Creates the nodes of the first configuration, on new disks, with this carrier.
    pub fn created(
        alloc: Global,
        configs: &Configs,
        carrier: C,
        limits: &Limits,
    ) -> Result<World<MemDisk, C>, LabError>
        ensures ran { C.is_faithful carrier →
            IfOk result (λ world. HasRun C.Carrier world (empty_run configs.now)) }
        ensures begun { IfOk result (HasJustBegun configs.now limits.now) }
        ensures carrier { IfOk result (λ world. carrier_of world ≡ carrier) }
        ensures goes_on { IfOk result (λ world. WorldHasEnded world → ⊥) }
        ensures limits { IfOk result (λ world. WorldHasLimits world limits.now) }
    {
        let configs = configs.clone(alloc)?;
        let nodes = created_nodes(alloc, configs.first(), limits)?;
        Ok(World::over(alloc, configs, nodes, carrier, limits))
    }

    /// The report of the run: its lines, and each node at the end.
    pub fn finish(self, alloc: Global) -> Result<Report, LabError>
        ensures kept { IfOk result (λ report. report.steps.items ≡ lines_so_far self) }
        ensures steps { (run : WorldRun) → HasRun C.Carrier self run →
            IfOk result (λ report. report.steps.items ≡ run.steps) }
        ensures run { (run : WorldRun) → HasRun C.Carrier self run →
            IfOk result (IsRunOver C.loses run.configs run.events run.choices) }
        ensures history { (run : WorldRun) → HasRun C.Carrier self run →
            IfOk result (OneHistory run.configs run.events) }
        ensures own { IfOk result
            (λ report. AllZip IsReportOf self.nodes.items report.nodes.items) }
        ensures ended { WorldHasEnded self → IsErr result }
    {
        let World {
            nodes,
            steps,
            configs: _configs,
            limits: _limits,
            carrier: _carrier,
            frames: _frames,
            events: _events,
            lost: _lost,
            ended,
        } = self;
        if ended {
            return Err(LabError::Memory);
        }
        let nodes = left_of_all(alloc, nodes)?;
        // laws: reads at the last tail are fresh, and nothing is given up that may be needed
        reads_fresh();
        keeps_enough();
        // laws: a run of the model has one history with each mark once, and is made of its outcomes
        one_history();
        exactly_once();
        run_is_outcomes();
        // law: the page as a function is the page of a map
        kv_types::laws::pages_agree();
        Ok(Report { steps, nodes })
    }
}

impl<D: Disk + Drop, C: Carrier + Drop> World<D, C> {
    /// A world of just these nodes, which has run no event. If they were just created, the world
    /// has run so (`ran`). Of nodes that were started on what an earlier run left of their disks
    /// nothing of one history is claimed: no event of this run submitted what they hold.
    pub fn over(
        alloc: Global,
        configs: Configs,
        nodes: Vec<SimNode<D>>,
        carrier: C,
        limits: &Limits,
    ) -> World<D, C>
        ensures ran { Lawful configs → C.is_faithful carrier →
            AreCreated (at_epoch configs 0) (at_epoch configs 0) limits.now nodes.items →
            HasRun C.Carrier result (empty_run configs) }
        ensures carrier { carrier_of result ≡ carrier }
        ensures goes_on { WorldHasEnded result → ⊥ }
        ensures limits { HaveLimits nodes.items limits.now → WorldHasLimits result limits.now }
        ensures none { HasRunNothing result }
        ensures nodes { nodes_of result ≡ nodes.items }
        ensures configs { configs_of result ≡ configs }
    {
        World {
            configs,
            limits: *limits,
            nodes,
            carrier,
            frames: Vec::new(alloc),
            events: Vec::new(alloc),
            lost: Vec::new(alloc),
            steps: Vec::new(alloc),
            ended: false,
        }
    }

    // Begins an event, which is in the list before anything is done for it.
    #[inline(always)]
    fn begin(&mut self, event: &Event) -> Result<(), LabError>
        ensures begun { OnOk result (HasBegunEvent self.old self.new event.now) }
        ensures ends { OnErr result (WorldHasEnded self.new) }
        ensures refused { OnErr result (HasNotBegun self.old self.new) }
    {
        self.ended = true;
        self.events.push(event.clone()?)?;
        Ok(())
    }

    // Keeps the lines of the event that was begun, which was lost or not, and goes on.
    #[inline(always)]
    fn keep(&mut self, lost: bool, lines: Lines) -> Result<(), LabError>
        ensures kept { OnOk result (HasKept self.old self.new lost lines) }
        ensures ends { OnErr result (self.new.ended ≡ self.old.ended) }
        ensures refused { OnErr result (HasPartlyKept self.old self.new lines) }
    {
        self.steps.push(lines)?;
        self.lost.push(lost)?;
        self.ended = false;
        Ok(())
    }

    /// How many frames were sent so far.
    pub fn sent(&self) -> u64
        ensures kept { result ≡ sent_so_far self.now }
        ensures run { (run : WorldRun) → HasRun C.Carrier self.now run →
            result ≡ frames_in_steps run.steps }
    {
        self.frames.len() as u64
    }

    /// The numbers of a node as it is now: none of one that is down, or unknown to the world.
    pub fn numbers(&self, id: NodeId) -> Option<Numbers>
        ensures run { (run : WorldRun) → HasRun C.Carrier self.now run →
            has (at_epoch run.configs 0) id ≡ true →
            AreNumbersOf run.configs run.events run.choices id result }
        ensures own { IfSome result (ShowsNumbers (nodes_of self.now) id) }
        ensures none { MatchOption result (IsDownAmong (nodes_of self.now) id) (λ _. Unit {0}) }
    {
        let Some(index) = index_of(&self.nodes, id) else {
            return None;
        };
        match &self.nodes[index].state {
            NodeState::Up(node) => Some(node.numbers()),
            NodeState::Down(_) => None,
        }
    }

    /// The lines of each event so far. The world keeps the disks.
    pub fn report(&self) -> &[Lines]
        ensures kept { result.now ≡ lines_so_far self.now }
        ensures steps { (run : WorldRun) → HasRun C.Carrier self.now run → result.now ≡ run.steps }
        ensures run { (run : WorldRun) → HasRun C.Carrier self.now run →
            IsRunSoFar C.Carrier self.now run }
        ensures history { (run : WorldRun) → HasRun C.Carrier self.now run →
            HasHistory self.now run }
    {
        // laws: reads at the last tail are fresh, nothing that may be needed is given up, a run has
        // one history with each mark once and is made of its outcomes, a page is of a map, a node's
        // disk represents it
        reads_fresh();
        keeps_enough();
        one_history();
        exactly_once();
        run_is_outcomes();
        kv_types::laws::pages_agree();
        node::laws::disks_represent::<D>();
        &self.steps
    }

    /// The events that were begun so far. A step that is refused may have begun one more.
    pub fn events(&self) -> &[Event]
        ensures kept { result.now ≡ events_so_far self.now }
        ensures run { (run : WorldRun) → HasRun C.Carrier self.now run → result.now ≡ run.events }
    {
        &self.events
    }

    /// Of each event whether its request or frame was lost on its way.
    pub fn lost(&self) -> &[bool]
        ensures kept { result.now ≡ lost_so_far self.now }
        ensures run { (run : WorldRun) → HasRun C.Carrier self.now run →
            result.now ≡ losses_of run.choices }
    {
        &self.lost
    }

    /// Lets the world go, without a report. Who calls it need not prove the drop of what it holds.
    pub fn close(self) {
        drop(self);
    }
}

impl<D: Crash + Drop, C: Carrier + Drop> World<D, C> {
    /// Applies an event to the node that it is for, or loses it. One that names a node which the
    /// first configuration lacks does nothing. After an error the world is at its end: every later
    /// step is refused. It has the events, lines and losses that it had, and perhaps the event
    /// behind them, with lines or not; the node that the event is for may be lost.
    pub fn step(&mut self, alloc: Global, event: &Event) -> Result<(), LabError>
        ensures ran { (run : WorldRun) → HasRun C.Carrier self.old run →
            OnOk result (HasApplied C.Carrier self.old self.new run event.now) }
        ensures ends { EndsIfRefused result self.old self.new }
        ensures steps { OnOk result (StepsOnce C.Carrier event.now self.old self.new) }
        ensures refused { OnErr result (StepIsRefused C.Carrier event.now self.old self.new) }
    {
        if self.ended {
            return Err(LabError::Memory);
        }
        if !event.names_node(&self.configs) {
            return Ok(());
        }
        self.begin(event)?;
        // No run that memory holds has more events than there are numbers.
        let Some(request) = Number::new(self.steps.len() as u64 + 1) else {
            return Err(LabError::Memory);
        };
        // laws: in every run of the model frames are in order, and no two have one spelling
        in_order();
        one_spelling();
        let (id, input) = match delivery_of(
            alloc,
            &mut self.carrier,
            &self.configs,
            &self.frames,
            request,
            event,
        )? {
            Delivery::Nothing => return self.keep(false, Lines::one(Line::Nothing)),
            Delivery::Lost => return self.keep(true, Lines::one(Line::Lost)),
            Delivery::To(id, input) => (id, input),
        };
        let Some(at) = index_of(&self.nodes, id) else {
            drop(input);
            return self.keep(false, Lines::one(Line::Nothing));
        };
        let (nodes, limits) = (&mut self.nodes, &self.limits);
        let outcome = deliver(alloc, nodes, event, at, (id, input), limits)?;
        let (carrier, frames) = (&mut self.carrier, &mut self.frames);
        let lines = trace_of(alloc, carrier, frames, id, event.epoch(), outcome)?;
        self.keep(false, lines)
    }
}
