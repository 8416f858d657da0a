// Posted frames, and what an event delivers to which node.
ghost use Rattle.std.specs.Prelude.{◌↔◌, [], ℕ, List, IfOk, MatchOption};
ghost use Rattle.configurations.specs.{Configurations};
ghost use Rattle.lab.specs.Deliveries.{Brings, HasNoFrame, IsDeliverable, IsPostedAt};

use crate::{Carrier, Event, EventKind, LabError};
use carriers::{Delivery, NodeInput, send_posted, send_request};
use configurations::{Configs, Epoch, NodeId};
use events::LentKind;
use kv_types::{Batch, Key, Number};
use link_messages::{BoxedRange, Frame};
use node::Input;
use std::alloc::Global;

/// A frame that was sent: its sender, its addressee, and its bytes.
#[derive(Drop)]
pub struct Posted {
    pub from: NodeId,
    pub to: NodeId,
    pub bytes: Vec<u8>,
}

// The frame in this place, from 1.
#[inline(always)]
fn posted_at(posted: &[Posted], place: u64) -> Option<&Posted>
    ensures { MatchOption result (HasNoFrame posted.now place)
        (λ it. IsPostedAt posted.now place it.now) }
{
    if place == 0 {
        return None;
    }
    posted.get((place - 1) as usize)
}

// The delivery of the frame in this place, from 1.
#[inline(always)]
fn delivered<C: Carrier>(
    alloc: Global,
    carrier: &mut C,
    posted: &[Posted],
    place: u64,
) -> Result<Delivery, LabError>
    ensures faithful { C.is_faithful carrier.new ↔ C.is_faithful carrier.old }
    ensures brought { (cs : Configurations) (i : ℕ) → IfOk result
        (Brings C.Carrier carrier.old carrier.new cs posted.now i (EventKind.Deliver place)) }
{
    let Some(posted) = posted_at(posted, place) else {
        return Ok(Delivery::Nothing);
    };
    send_posted(alloc, carrier, posted.from, posted.to, &posted.bytes)
}

// The node that is told of an epoch, and its configuration as an input, where the list has it.
#[inline(never)]
#[cold]
fn noticed(configs: &Configs, node: NodeId, epoch: Epoch) -> Result<Delivery, LabError>
    ensures { (i : ℕ) →
        IfOk result (IsDeliverable configs.now [] i (EventKind.Notice node epoch)) }
{
    let Some(config) = configs.at(epoch) else {
        return Ok(Delivery::Nothing);
    };
    let config = config.clone()?;
    let input = NodeInput::Step(Input::Notice { epoch, config });
    Ok(Delivery::To(node, input))
}

// The delivery of a client's batch, where its request has this number.
#[inline(always)]
fn submitted<C: Carrier>(
    alloc: Global,
    carrier: &mut C,
    request: Number,
    node: NodeId,
    batch: &Batch,
) -> Result<Delivery, LabError>
    ensures faithful { C.is_faithful carrier.new ↔ C.is_faithful carrier.old }
    ensures brought { (cs : Configurations) (posted : List Posted) → IfOk result
        (Brings C.Carrier carrier.old carrier.new cs posted request
        (EventKind.Submit node batch.now)) }
{
    let batch = batch.clone()?;
    send_request(alloc, carrier, node, Frame::Submit { request, batch })
}

// The delivery of a read of a key, where its request has this number.
#[inline(always)]
fn looked_up<C: Carrier>(
    alloc: Global,
    carrier: &mut C,
    request: Number,
    node: NodeId,
    key: &Key,
    at: Option<Number>,
) -> Result<Delivery, LabError>
    ensures faithful { C.is_faithful carrier.new ↔ C.is_faithful carrier.old }
    ensures brought { (cs : Configurations) (posted : List Posted) → IfOk result
        (Brings C.Carrier carrier.old carrier.new cs posted request
        (EventKind.Get node key.now at)) }
{
    let key = key.clone()?;
    send_request(alloc, carrier, node, Frame::Get { request, at, key })
}

// The delivery of an event of this kind, where a request has this number.
#[inline(never)]
fn delivery_of_kind<C: Carrier>(
    alloc: Global,
    carrier: &mut C,
    configs: &Configs,
    posted: &[Posted],
    request: Number,
    kind: &EventKind,
) -> Result<Delivery, LabError>
    ensures faithful { C.is_faithful carrier.new ↔ C.is_faithful carrier.old }
    ensures brought { IfOk result (Brings C.Carrier carrier.old carrier.new configs.now posted.now
        request kind.now) }
{
    match kind {
        EventKind::Submit { node, batch } => submitted(alloc, carrier, request, *node, batch),
        EventKind::Get { node, key, at } => looked_up(alloc, carrier, request, *node, key, *at),
        EventKind::Rows { node, range, at } => {
            let (range, at) = (BoxedRange::new(alloc, range.clone()?)?, *at);
            send_request(alloc, carrier, *node, Frame::Rows { request, at, range })
        }
        EventKind::Open { node, at } => {
            let at = *at;
            send_request(alloc, carrier, *node, Frame::Open { request, at })
        }
        EventKind::Close { node, number } => {
            let number = *number;
            send_request(alloc, carrier, *node, Frame::Close { request, number })
        }
        EventKind::Deliver { place } => delivered(alloc, carrier, posted, *place),
        EventKind::Notice { node, epoch } => noticed(configs, *node, *epoch),
        EventKind::Tick { node } => Ok(Delivery::To(*node, NodeInput::Step(Input::Tick))),
        EventKind::Tend { node } => Ok(Delivery::To(*node, NodeInput::Tend)),
        EventKind::Start { node } => Ok(Delivery::To(*node, NodeInput::Start)),
        EventKind::Stop { node, junk } => Ok(Delivery::To(*node, NodeInput::Stop(junk.clone()?))),
    }
}

/// The delivery of an event, where a request has this number: requests and posted frames are
/// carried, and may be lost.
#[inline(always)]
pub fn delivery_of<C: Carrier>(
    alloc: Global,
    carrier: &mut C,
    configs: &Configs,
    posted: &[Posted],
    request: Number,
    event: &Event,
) -> Result<Delivery, LabError>
    ensures faithful { C.is_faithful carrier.new ↔ C.is_faithful carrier.old }
    ensures brought { IfOk result (Brings C.Carrier carrier.old carrier.new configs.now posted.now
        request event.now.kind) }
{
    match event.kind() {
        LentKind::Deliver(place) => delivered(alloc, carrier, posted, place),
        LentKind::Submit(node, batch) => submitted(alloc, carrier, request, node, batch),
        LentKind::Get(node, key, at) => looked_up(alloc, carrier, request, node, key, at),
        LentKind::Kept(kind) => delivery_of_kind(alloc, carrier, configs, posted, request, kind),
    }
}
