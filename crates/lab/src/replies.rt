// The replies of a step, as they are carried to the client.
ghost use Rattle.std.specs.Prelude.{◌≡◌, ◌↔◌, ◌∷◌, ◌++◌, [], OnOk};
ghost use Rattle.carriers.specs.{HasCarried};
ghost use Rattle.lab.specs.Arrivals.{RepliesFollow};

use crate::report::{Line, Lines};
use crate::{Carrier, LabError};
use carriers::{KeptReply, send_reply};
use configurations::NodeId;
use node::{HeldItems, Reply, ShortList, only_item};
use std::alloc::{AllocError, Global};

// Adds the line of a reply that arrived.
#[inline(always)]
fn push_reply(alloc: Global, lines: &mut Lines, reply: Reply) -> Result<(), AllocError>
    ensures { OnOk result (lines.new ≡ lines.old ++ Line.Replied reply ∷ []) }
{
    let reply = KeptReply::new(alloc, reply)?;
    lines.push(alloc, Line::Replied(reply))
}

// Carries a reply of a node to the client. If it arrives, it has a line behind those that there
// are.
#[inline(always)]
fn carry_reply<C: Carrier>(
    alloc: Global,
    carrier: &mut C,
    from: NodeId,
    lines: &mut Lines,
    reply: Reply,
) -> Result<(), LabError>
    ensures faithful { C.is_faithful carrier.new ↔ C.is_faithful carrier.old }
    ensures lines { OnOk result (RepliesFollow (HasCarried C.Carrier carrier.old carrier.new) from
        (reply ∷ []) lines.old lines.new) }
{
    if let Some(reply) = send_reply(alloc, carrier, from, reply)? {
        push_reply(alloc, lines, reply)?;
    }
    Ok(())
}

// Carries many replies of a node to the client, one after another.
#[inline(never)]
#[cold]
fn carry_all<C: Carrier>(
    alloc: Global,
    carrier: &mut C,
    from: NodeId,
    lines: &mut Lines,
    replies: Vec<Reply>,
) -> Result<(), LabError>
    ensures faithful { C.is_faithful carrier.new ↔ C.is_faithful carrier.old }
    ensures lines { OnOk result (RepliesFollow (HasCarried C.Carrier carrier.old carrier.new) from
        replies.items lines.old lines.new) }
{
    for reply in replies {
        carry_reply(alloc, carrier, from, lines, reply)?;
    }
    Ok(())
}

/// Carries the replies of a node to the client, one after another. Each that arrives has a line
/// behind those that there are.
#[inline(always)]
pub fn carry_replies<C: Carrier>(
    alloc: Global,
    carrier: &mut C,
    from: NodeId,
    lines: &mut Lines,
    replies: ShortList<Reply>,
) -> Result<(), LabError>
    ensures faithful { C.is_faithful carrier.new ↔ C.is_faithful carrier.old }
    ensures lines { OnOk result (RepliesFollow (HasCarried C.Carrier carrier.old carrier.new) from
        replies lines.old lines.new) }
{
    match replies.into_held() {
        HeldItems::None => Ok(()),
        HeldItems::One(one) => carry_reply(alloc, carrier, from, lines, only_item(one)),
        HeldItems::Many(replies) => carry_all(alloc, carrier, from, lines, replies),
    }
}
