// The trace of a step: its lines, the frames that it posts, and the replies that it sends.
ghost use Rattle.std.specs.Prelude.{◌≡◌, ◌↔◌, ◌+◌, [], ◌∷◌, ◌++◌, length, IfOk, OnErr, OnOk};
ghost use Rattle.carriers.specs.{HasCarried};
ghost use Rattle.lab.specs.Arrivals.{RepliesFollow};
ghost use Rattle.lab.specs.OutcomeLines.{adopted_lines, lines_before_replies, own_lines};
ghost use Rattle.lab.specs.OutcomeLines.{replies_by, sent_by, sent_line, sent_lines};
ghost use Rattle.lab.specs.Events.{dropped_lines};
ghost use Rattle.lab.specs.Posting.{HasPosted, HasPostedPart};

use crate::delivery::Posted;
use crate::input::StepOutcome;
use crate::replies::carry_replies;
use crate::report::{Line, Lines};
use crate::{Carrier, LabError};
use configurations::{Epoch, NodeId};
use link_messages::{Frame, write};
use node::{DropReason, Output, Sent};
use std::alloc::{AllocError, Global};

// The line of a frame that was sent, by its place. Nodes send only these two kinds.
fn line_of(place: u64, sent: &Sent) -> Line
    ensures { result ≡ sent_line place sent.now }
{
    let to = sent.to;
    match &sent.frame {
        Frame::Forward {
            epoch,
            from,
            number,
            ..
        } => Line::Forwarded {
            place,
            from: *from,
            to,
            epoch: *epoch,
            number: *number,
        },
        Frame::Ack {
            epoch,
            from,
            committed,
            have,
        } => Line::Acknowledged {
            place,
            from: *from,
            to,
            epoch: *epoch,
            committed: *committed,
            have: *have,
        },
        _ => Line::Dropped(DropReason::NotForNodes),
    }
}

// Posts a frame that is sent, in the next place, or nothing.
fn post(
    alloc: Global,
    frames: &mut Vec<Posted>,
    lines: &mut Lines,
    from: NodeId,
    sent: &Sent,
) -> Result<(), AllocError>
    ensures posted { OnOk result
        (HasPosted frames.old.items from (sent.now ∷ []) frames.new.items) }
    ensures lines { OnOk result (lines.new
        ≡ lines.old ++ sent_line (length frames.old.items + 1) sent.now ∷ []) }
    ensures refused { OnErr result (frames.new.items ≡ frames.old.items) }
{
    let bytes = write(alloc, &sent.frame)?;
    let place = frames.len() as u64 + 1;
    lines.push(alloc, line_of(place, sent))?;
    let to = sent.to;
    frames.push(Posted { from, to, bytes })?;
    Ok(())
}

// Posts all frames that are sent, one after another, or the first of them.
fn post_all(
    alloc: Global,
    frames: &mut Vec<Posted>,
    lines: &mut Lines,
    from: NodeId,
    sent: &[Sent],
) -> Result<(), AllocError>
    ensures posted { OnOk result (HasPosted frames.old.items from sent.now frames.new.items) }
    ensures lines { OnOk result (lines.new
        ≡ lines.old ++ sent_lines (length frames.old.items) sent.now) }
    ensures refused { OnErr result
        (HasPostedPart frames.old.items from sent.now frames.new.items) }
{
    for it in sent {
        post(alloc, frames, lines, from, it)?;
    }
    Ok(())
}

// A drop has a line with its reason.
#[inline(always)]
fn trace_drop(
    alloc: Global,
    lines: &mut Lines,
    dropped: Option<DropReason>,
) -> Result<(), AllocError>
    ensures { OnOk result (lines.new ≡ lines.old ++ dropped_lines dropped) }
{
    match dropped {
        Some(why) => lines.push(alloc, Line::Dropped(why)),
        None => Ok(()),
    }
}

// A node that was told of an epoch, and did not drop that, has a line of it.
#[inline(always)]
fn trace_adoption(
    alloc: Global,
    lines: &mut Lines,
    node: NodeId,
    told: Option<Epoch>,
    dropped: Option<DropReason>,
) -> Result<(), AllocError>
    ensures { OnOk result (lines.new
        ≡ lines.old ++ adopted_lines node told dropped) }
{
    match (told, dropped) {
        (Some(epoch), None) => lines.push(alloc, Line::Adopted { node, epoch }),
        _ => Ok(()),
    }
}

// The lines of an output of a node that was told of an epoch or not: the reason of a drop, then an
// adoption, then the frames that were sent, then the replies that arrive.
#[inline(always)]
fn trace_output<C: Carrier>(
    alloc: Global,
    carrier: &mut C,
    frames: &mut Vec<Posted>,
    id: NodeId,
    told: Option<Epoch>,
    output: Output,
) -> Result<Lines, LabError>
    ensures faithful { C.is_faithful carrier.new ↔ C.is_faithful carrier.old }
    ensures posted { OnOk result
        (HasPosted frames.old.items id output.frames frames.new.items) }
    ensures lines { IfOk result (RepliesFollow (HasCarried C.Carrier carrier.old carrier.new) id
        output.replies (lines_before_replies id told (length frames.old.items) output)) }
    ensures refused { OnErr result
        (HasPostedPart frames.old.items id output.frames frames.new.items) }
{
    let mut lines = Lines::new();
    trace_drop(alloc, &mut lines, output.dropped)?;
    trace_adoption(alloc, &mut lines, id, told, output.dropped)?;
    post_all(alloc, frames, &mut lines, id, &output.frames)?;
    carry_replies(alloc, carrier, id, &mut lines, output.replies)?;
    Ok(lines)
}

/// Posts the frames that a node sent, carries its replies to the client, and makes the lines of its
/// outcome, where it was told of an epoch or not. A reply that does not arrive has none. Where this
/// is refused, the first of the frames are posted.
#[inline(always)]
pub fn trace_of<C: Carrier>(
    alloc: Global,
    carrier: &mut C,
    frames: &mut Vec<Posted>,
    id: NodeId,
    told: Option<Epoch>,
    outcome: StepOutcome,
) -> Result<Lines, LabError>
    ensures faithful { C.is_faithful carrier.new ↔ C.is_faithful carrier.old }
    ensures posted { OnOk result
        (HasPosted frames.old.items id (sent_by outcome) frames.new.items) }
    ensures lines { IfOk result (RepliesFollow (HasCarried C.Carrier carrier.old carrier.new) id
        (replies_by outcome) (own_lines id told (length frames.old.items) outcome)) }
    ensures refused { OnErr result
        (HasPostedPart frames.old.items id (sent_by outcome) frames.new.items) }
{
    let line = match outcome {
        StepOutcome::Answered(output) => {
            return trace_output(alloc, carrier, frames, id, told, output);
        }
        StepOutcome::Tended(did) => Line::Tended(did),
        StepOutcome::Started {
            epoch,
            count,
            committed,
        } => Line::Started {
            node: id,
            epoch,
            count,
            committed,
        },
        StepOutcome::Stopped(cause) => Line::Stopped { node: id, cause },
    };
    Ok(Lines::one(line))
}
