// Replies as frames, and what arrives of them at the client.
ghost use Rattle.std.specs.Prelude.{◌≡◌, ◌↔◌, IfOk};
ghost use Rattle.link_messages.specs.{frame_bytes};
ghost use Rattle.carriers.specs.Carrying.{HasCarriedOne};
ghost use Rattle.carriers.specs.Replies.{IsHeard, reply_frame, reply_of};

use crate::{Carrier, LabError, Peer, Received, send};
use configurations::NodeId;
use link_messages::Frame;
use node::Reply;
use std::alloc::Global;

// The frame that spells a reply.
fn reply_frame(reply: Reply) -> Frame
    ensures { result ≡ reply_frame reply }
{
    match reply {
        Reply::Committed { request, number } => Frame::Committed { request, number },
        Reply::Value {
            request,
            number,
            value,
        } => Frame::Value {
            request,
            number,
            value,
        },
        Reply::Rows {
            request,
            number,
            page,
        } => Frame::RowsAre {
            request,
            number,
            page,
        },
        Reply::Opened { request, number } => Frame::Opened { request, number },
        Reply::Closed { request, number } => Frame::Closed { request, number },
        Reply::Refused { request, refusal } => Frame::Refused { request, refusal },
    }
}

// The reply that a frame spells, if it is one.
fn reply_of(frame: Frame) -> Option<Reply>
    ensures { result ≡ reply_of frame }
{
    match frame {
        Frame::Committed { request, number } => Some(Reply::Committed { request, number }),
        Frame::Value {
            request,
            number,
            value,
        } => Some(Reply::Value {
            request,
            number,
            value,
        }),
        Frame::RowsAre {
            request,
            number,
            page,
        } => Some(Reply::Rows {
            request,
            number,
            page,
        }),
        Frame::Opened { request, number } => Some(Reply::Opened { request, number }),
        Frame::Closed { request, number } => Some(Reply::Closed { request, number }),
        Frame::Refused { request, refusal } => Some(Reply::Refused { request, refusal }),
        _ => None,
    }
}

/// Sends a reply of a node to the client: what arrives of it. `None` where it is lost, or what
/// arrives is no reply. A direct carrier needs no frame.
#[inline(always)]
pub fn send_reply<C: Carrier>(
    alloc: Global,
    carrier: &mut C,
    from: NodeId,
    reply: Reply,
) -> Result<Option<Reply>, LabError>
    ensures faithful { C.is_faithful carrier.new ↔ C.is_faithful carrier.old }
    ensures heard { IfOk result (λ it. HasCarriedOne C.Carrier carrier.old carrier.new
        (Peer.Node from) Peer.Client (frame_bytes (reply_frame reply))
        (λ got. IsHeard reply got it)) }
{
    if carrier.is_direct() {
        return Ok(Some(reply));
    }
    match send(
        alloc,
        carrier,
        Peer::Node(from),
        Peer::Client,
        reply_frame(reply),
    )? {
        Received::Frame(frame) => Ok(reply_of(frame)),
        Received::Unreadable | Received::Lost => Ok(None),
    }
}
