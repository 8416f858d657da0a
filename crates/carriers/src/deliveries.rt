// What arrives of a frame at a node: the inputs of nodes.
ghost use Rattle.std.specs.Prelude.{◌≡◌, ◌↔◌, IfOk};
ghost use Rattle.link_messages.specs.{frame_bytes};
ghost use Rattle.carriers.specs.Carriers.{IsReceived, IsReceivedOf};
ghost use Rattle.carriers.specs.Carrying.{HasCarriedOne};
ghost use Rattle.carriers.specs.Deliveries.{ArrivesAt, input_of, request_input};

use crate::{Carrier, LabError, Peer, Received, send, send_bytes};
use configurations::NodeId;
use disk::Junk;
use link_messages::Frame;
use node::{DropReason, Input};
use std::alloc::Global;

/// What an event delivers to a node.
#[derive(Drop)]
pub enum NodeInput {
    Step(Input),
    /// No frame that its sender may send, and the reason to drop it.
    BadFrame(DropReason),
    /// A turn to work on its files.
    Tend,
    Start,
    /// The machine stops, and its disk crashes.
    Stop(Junk),
}

/// What becomes of an event on its way to its node.
#[derive(Drop)]
pub enum Delivery {
    /// No frame has the place, or no configuration the epoch.
    Nothing,
    Lost,
    To(NodeId, NodeInput),
}

// The input that a frame is to its addressee.
#[inline(always)]
fn input_of(frame: Frame) -> NodeInput
    ensures { result ≡ input_of frame }
{
    match frame {
        Frame::Forward {
            epoch,
            from,
            number,
            batch,
        } => NodeInput::Step(Input::Forward {
            epoch,
            from,
            number,
            batch,
        }),
        Frame::Ack {
            epoch,
            from,
            committed,
            have,
        } => NodeInput::Step(Input::Ack {
            epoch,
            from,
            committed,
            have,
        }),
        _ => NodeInput::BadFrame(DropReason::NotForNodes),
    }
}

// The input that a client's frame is to its node.
#[inline(always)]
fn request_input(frame: Frame) -> NodeInput
    ensures { result ≡ request_input frame }
{
    match frame {
        Frame::Submit { request, batch } => NodeInput::Step(Input::Submit { request, batch }),
        Frame::Get { request, at, key } => NodeInput::Step(Input::Get { request, key, at }),
        Frame::Rows { request, at, range } => NodeInput::Step(Input::Rows { request, range, at }),
        Frame::Open { request, at } => NodeInput::Step(Input::Open { request, at }),
        Frame::Close { request, number } => NodeInput::Step(Input::Close { request, number }),
        _ => NodeInput::BadFrame(DropReason::NotForNodes),
    }
}

// What is delivered where bytes arrived that are no frame.
fn unreadable(node: NodeId) -> Delivery
    ensures { result ≡ Delivery.To node (NodeInput.BadFrame DropReason.Unreadable) }
{
    Delivery::To(node, NodeInput::BadFrame(DropReason::Unreadable))
}

/// Sends the frame of a client's request to its node: what arrives there.
#[inline(always)]
pub fn send_request<C: Carrier>(
    alloc: Global,
    carrier: &mut C,
    node: NodeId,
    frame: Frame,
) -> Result<Delivery, LabError>
    ensures faithful { C.is_faithful carrier.new ↔ C.is_faithful carrier.old }
    ensures arrives { IfOk result (λ it. HasCarriedOne C.Carrier carrier.old carrier.new
        Peer.Client (Peer.Node node) (frame_bytes frame)
        (λ got. ArrivesAt request_input node (IsReceivedOf frame got) it)) }
{
    match send(alloc, carrier, Peer::Client, Peer::Node(node), frame)? {
        Received::Frame(frame) => Ok(Delivery::To(node, request_input(frame))),
        Received::Unreadable => Ok(unreadable(node)),
        Received::Lost => Ok(Delivery::Lost),
    }
}

/// Sends the bytes of a frame from one node to another: what arrives there.
#[inline(always)]
pub fn send_posted<C: Carrier>(
    alloc: Global,
    carrier: &mut C,
    from: NodeId,
    to: NodeId,
    bytes: &[u8],
) -> Result<Delivery, LabError>
    ensures faithful { C.is_faithful carrier.new ↔ C.is_faithful carrier.old }
    ensures arrives { IfOk result (λ it. HasCarriedOne C.Carrier carrier.old carrier.new
        (Peer.Node from) (Peer.Node to) bytes.now
        (λ got. ArrivesAt input_of to (IsReceived got) it)) }
{
    match send_bytes(alloc, carrier, Peer::Node(from), Peer::Node(to), bytes)? {
        Received::Frame(frame) => Ok(Delivery::To(to, input_of(frame))),
        Received::Unreadable => Ok(unreadable(to)),
        Received::Lost => Ok(Delivery::Lost),
    }
}
