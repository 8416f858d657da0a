// The state of a simulated node, up or down, and how it takes an input.
ghost use Rattle.std.specs.Prelude.{◌≡◌, IfOk};
ghost use Rattle.node.specs.{IsReady, disk_of};
ghost use Rattle.node.specs.Steps.{DiskAlwaysRefines, IfRefines};
ghost use Rattle.lab.specs.Dispatches.{HasDispatched};
ghost use Rattle.lab.specs.SimNodes.{StateIsReady};
ghost use Rattle.lab.specs.Stops.{IsDownAfter, StopsWithDisk};

use crate::input::{StepOutcome, dropped, output_at_rest};
use carriers::NodeInput;
use disk::laws::{crashed_is_durable, durable_is_left};
use disk::{Crash, Disk, Fault, Junk};
use kv_types::Limits;
use node::laws::full_logs_are_long;
use node::{DropReason, Input, Node, Stop};
use std::alloc::{AllocError, Global};

/// A node that is up, or the disk of one that is down, in a box so that no event copies it.
#[derive(Drop)]
pub enum NodeState<D: Disk + Drop> {
    Up(Box<Node<D>>),
    Down(Box<D>),
}

// The disk of a node that stops. It has a function of its own, so that no other event makes room
// for a whole node.
#[inline(never)]
#[cold]
fn disk_in_box<D: Disk + Drop>(boxed: Box<Node<D>>) -> D
    ensures disk { result ≡ disk_of boxed.value }
    ensures rests { IfRefines boxed.value (λ x n. DiskAlwaysRefines (D.state result) x n) }
{
    Box::into_inner(boxed).into_disk()
}

// The state of a node that stopped: its disk crashed with this junk. Refused where memory runs out.
#[inline(never)]
#[cold]
fn crash<D: Crash + Drop>(
    alloc: Global,
    mut disk: D,
    junk: Junk,
) -> Result<NodeState<D>, AllocError>
    ensures { IfOk result (IsDownAfter D.Disk disk junk) }
{
    // laws: what a crash leaves is durable, and a crash leaves it again
    durable_is_left();
    crashed_is_durable();
    disk.crash(junk);
    Ok(NodeState::Down(Box::new(alloc, disk)?))
}

// The state and the outcome of a node that stopped by itself and left this disk. Where the fault
// stopped its machine, the disk crashes with the fault's junk, and no cause is told. Refused where
// memory runs out.
#[inline(never)]
#[cold]
fn stop_by_itself<D: Crash + Drop>(
    alloc: Global,
    disk: D,
    stop: Stop,
    fault: Fault,
) -> Result<(NodeState<D>, StepOutcome), AllocError>
    ensures { IfOk result (λ it. StopsWithDisk D.Disk disk stop fault it.0 it.1) }
{
    let has_struck = disk.has_struck();
    let (junk, cause) = match fault {
        Fault::Stop(_, junk) if has_struck => (junk, None),
        _other => (Junk::Old, Some(stop)),
    };
    let state = crash(alloc, disk, junk)?;
    Ok((state, StepOutcome::Stopped(cause)))
}

// The same of a node that was up.
#[inline(never)]
#[cold]
fn stop_node<D: Crash + Drop>(
    alloc: Global,
    boxed: Box<Node<D>>,
    stop: Stop,
    fault: Fault,
) -> Result<(NodeState<D>, StepOutcome), AllocError>
    ensures { IfOk result
        (λ it. StopsWithDisk D.Disk (disk_of boxed.value) stop fault it.0 it.1) }
{
    stop_by_itself(alloc, disk_in_box(boxed), stop, fault)
}

// A node that was down starts, on a disk with this fault. Refused where memory runs out for it.
#[inline(never)]
#[cold]
fn start<D: Crash + Drop>(
    alloc: Global,
    boxed: Box<D>,
    fault: Fault,
    limits: &Limits,
) -> Result<(NodeState<D>, StepOutcome), AllocError>
    ensures { IfOk result (λ it. HasDispatched D.Disk limits.now fault NodeInput.Start
        (NodeState.Down boxed) it.0 it.1) }
{
    let mut disk = Box::into_inner(boxed);
    disk.arm(&fault);
    match Node::start(alloc, disk, limits) {
        Ok(mut node) => {
            drop(fault);
            node.arm(&Fault::None);
            let (epoch, count, committed) = (node.epoch(), node.count(), node.committed());
            let state = NodeState::Up(Box::new(alloc, node)?);
            let outcome = StepOutcome::Started {
                epoch,
                count,
                committed,
            };
            Ok((state, outcome))
        }
        Err((stop, disk)) => stop_by_itself(alloc, disk, stop, fault),
    }
}

// A node that is up takes a step, on a disk with this fault. Refused where memory runs out for the
// disk of one that stops.
#[inline(always)]
fn step<D: Crash + Drop>(
    alloc: Global,
    mut boxed: Box<Node<D>>,
    input: Input,
    fault: Fault,
) -> Result<(NodeState<D>, StepOutcome), AllocError>
    requires { IsReady boxed.value }
    ensures { (limits : Limits) → IfOk result (λ it. HasDispatched D.Disk limits fault
        (NodeInput.Step input) (NodeState.Up boxed) it.0 it.1) }
{
    full_logs_are_long::<D>(); // law: where a log is nearly full, a file is long
    let node = boxed.as_mut();
    node.arm(&fault);
    match node.step(alloc, input) {
        Ok(output) => {
            drop(fault);
            node.arm(&Fault::None);
            Ok((NodeState::Up(boxed), StepOutcome::Answered(output)))
        }
        Err(stop) => stop_node(alloc, boxed, stop, fault),
    }
}

// A node that is up tends its store, on a disk with this fault. Refused where memory runs out for
// the disk of one that stops.
#[inline(never)]
fn tend<D: Crash + Drop>(
    alloc: Global,
    mut boxed: Box<Node<D>>,
    fault: Fault,
) -> Result<(NodeState<D>, StepOutcome), AllocError>
    requires { IsReady boxed.value }
    ensures { (limits : Limits) → IfOk result (λ it. HasDispatched D.Disk limits fault
        NodeInput.Tend (NodeState.Up boxed) it.0 it.1) }
{
    full_logs_are_long::<D>(); // law: where a log is nearly full, a file is long
    let node = boxed.as_mut();
    node.arm(&fault);
    match node.tend(alloc) {
        Ok(did) => {
            drop(fault);
            node.arm(&Fault::None);
            Ok((NodeState::Up(boxed), StepOutcome::Tended(did)))
        }
        Err(stop) => stop_node(alloc, boxed, stop, fault),
    }
}

// A node that is up drops what is no frame, for this reason.
#[inline(never)]
#[cold]
fn drop_frame<D: Crash + Drop>(
    boxed: Box<Node<D>>,
    why: DropReason,
    fault: Fault,
) -> (NodeState<D>, StepOutcome)
    requires { IsReady boxed.value }
    ensures { (limits : Limits) → HasDispatched D.Disk limits fault (NodeInput.BadFrame why)
        (NodeState.Up boxed) result.0 result.1 }
{
    drop(fault);
    let output = dropped(why);
    (NodeState::Up(boxed), StepOutcome::Answered(output))
}

// A node that is up drops a start.
#[inline(never)]
#[cold]
fn drop_start<D: Crash + Drop>(boxed: Box<Node<D>>, fault: Fault) -> (NodeState<D>, StepOutcome)
    requires { IsReady boxed.value }
    ensures { (limits : Limits) → HasDispatched D.Disk limits fault NodeInput.Start
        (NodeState.Up boxed) result.0 result.1 }
{
    drop(fault);
    let output = dropped(DropReason::Running);
    (NodeState::Up(boxed), StepOutcome::Answered(output))
}

// A node that is up stops, and its disk crashes with this junk. Refused where memory runs out for
// the disk.
#[inline(never)]
#[cold]
fn stop<D: Crash + Drop>(
    alloc: Global,
    boxed: Box<Node<D>>,
    junk: Junk,
    fault: Fault,
) -> Result<(NodeState<D>, StepOutcome), AllocError>
    requires { IsReady boxed.value }
    ensures { (limits : Limits) → IfOk result (λ it. HasDispatched D.Disk limits fault
        (NodeInput.Stop junk) (NodeState.Up boxed) it.0 it.1) }
{
    drop(fault);
    let state = crash(alloc, disk_in_box(boxed), junk)?;
    Ok((state, StepOutcome::Stopped(None)))
}

// A node that is up takes an input. All but a step is rare, so a step has its own way.
#[inline(never)]
#[cold]
fn dispatch_up<D: Crash + Drop>(
    alloc: Global,
    boxed: Box<Node<D>>,
    input: NodeInput,
    fault: Fault,
) -> Result<(NodeState<D>, StepOutcome), AllocError>
    requires { IsReady boxed.value }
    ensures { (limits : Limits) → IfOk result (λ it. HasDispatched D.Disk limits fault input
        (NodeState.Up boxed) it.0 it.1) }
{
    match input {
        NodeInput::Step(input) => step(alloc, boxed, input, fault),
        NodeInput::Tend => tend(alloc, boxed, fault),
        NodeInput::BadFrame(why) => Ok(drop_frame(boxed, why, fault)),
        NodeInput::Start => Ok(drop_start(boxed, fault)),
        NodeInput::Stop(junk) => stop(alloc, boxed, junk, fault),
    }
}

// A node that is down takes an input: it can only be started.
#[inline(never)]
#[cold]
fn dispatch_down<D: Crash + Drop>(
    alloc: Global,
    boxed: Box<D>,
    input: &NodeInput,
    fault: Fault,
    limits: &Limits,
) -> Result<(NodeState<D>, StepOutcome), AllocError>
    ensures { IfOk result (λ it.
        HasDispatched D.Disk limits.now fault input.now (NodeState.Down boxed) it.0 it.1) }
{
    if let NodeInput::Start = input {
        return start(alloc, boxed, fault, limits);
    }
    drop(fault);
    let output = output_at_rest(input);
    Ok((NodeState::Down(boxed), StepOutcome::Answered(output)))
}

impl<D: Crash + Drop> NodeState<D> {
    /// Dispatches an input to the node, whose disk has the fault meanwhile: the state that it
    /// leaves, and the outcome. Refused where memory runs out.
    #[inline(always)]
    pub fn dispatch(
        self,
        alloc: Global,
        input: NodeInput,
        fault: Fault,
        limits: &Limits,
    ) -> Result<(NodeState<D>, StepOutcome), AllocError>
        requires { StateIsReady self }
        ensures { IfOk result
            (λ it. HasDispatched D.Disk limits.now fault input self it.0 it.1) }
    {
        let node = match self {
            NodeState::Up(node) => node,
            NodeState::Down(disk) => return dispatch_down(alloc, disk, &input, fault, limits),
        };
        // What is left of the input lacks its step, so the rare ones are made again.
        let rare = match input {
            NodeInput::Step(input) => return step(alloc, node, input, fault),
            NodeInput::Tend => NodeInput::Tend,
            NodeInput::BadFrame(why) => NodeInput::BadFrame(why),
            NodeInput::Start => NodeInput::Start,
            NodeInput::Stop(junk) => NodeInput::Stop(junk),
        };
        dispatch_up(alloc, node, rare, fault)
    }
}
