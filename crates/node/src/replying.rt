// The output of a step, from a node's numbers and the results of its store.
ghost use Rattle.std.specs.Prelude.{◌≡◌, ℕ, [], ◌∷◌, ◌++◌, List, map, take, Option};
ghost use Rattle.std.specs.Prelude.{IfOk, OnOk, option_to_list, if◌then◌else◌, Some};
ghost use Rattle.kv_types.specs.{Edits, Span, map_of, place};
ghost use Rattle.kv_types.specs.Pages.{page_of};
ghost use Rattle.configurations.specs.{is_tail};
ghost use Rattle.chain_model.specs.{Message, dropped_for, refused, ack, forward};
ghost use Rattle.chain_model.specs.{reply_read, ack_duplicate};
ghost use Rattle.chain_core.specs.{Machine, CoreRefines, AreFrames};
ghost use Rattle.node.specs.Outputs.{OutputHas, OutputRefines, acks_after, committed_reply};

use crate::{Output, Reply};
use chain_core::{CoreState, Done, DropReason, Input, PendingSubmit, Sent, SentFrames, ShortList};
use kv_types::{Batch, Number, Page, Value};
use link_messages::Refusal;
use std::alloc::{AllocError, Global};

#[inline(always)]
pub(crate) fn push_some(
    alloc: Global,
    frames: &mut SentFrames,
    sent: Option<Sent>,
) -> Result<(), AllocError>
    ensures { OnOk result (frames.new ≡ frames.old ++ option_to_list sent) }
{
    if let Some(sent) = sent {
        frames.push(alloc, sent)?;
    }
    Ok(())
}

fn ack_where(core: &CoreState, acks: bool) -> Option<Sent>
    ensures { (n : Machine) → CoreRefines core.now n →
        AreFrames (option_to_list result) (if acks then ack core.now.id n else []) }
{
    if acks { core.ack() } else { None }
}

// The acknowledgements of these requests, whose batches are committed.
#[inline(always)]
fn replies_to(alloc: Global, due: &[PendingSubmit]) -> Result<ShortList<Reply>, AllocError>
    ensures { IfOk result (λ replies. replies ≡ map committed_reply due.now) }
{
    let mut replies = ShortList::new();
    for it in due {
        let reply = Reply::Committed {
            request: it.request,
            number: it.number,
        };
        replies.push(alloc, reply)?;
    }
    Ok(replies)
}

/// The output with this reply alone.
pub(crate) fn replying(reply: Reply) -> Output
    ensures { OutputHas None [] (reply ∷ []) result }
{
    Output {
        dropped: None,
        frames: SentFrames::new(),
        replies: ShortList::one(reply),
    }
}

/// The output of a step: these frames, where `acks` the acknowledgement for the predecessor, and a
/// reply to each request that is due.
#[inline(always)]
pub(crate) fn output_of(
    alloc: Global,
    core: &CoreState,
    sent: SentFrames,
    acks: bool,
    due: &[PendingSubmit],
) -> Result<Output, AllocError>
    ensures { (n : Machine) (frames : List (Message Edits)) → CoreRefines core.now n →
        AreFrames sent frames →
        IfOk result (OutputHas None (frames ++ (if acks then ack core.now.id n else []))
        (map committed_reply due.now)) }
{
    let mut frames = sent;
    push_some(alloc, &mut frames, ack_where(core, acks))?;
    Ok(Output {
        dropped: None,
        frames,
        replies: replies_to(alloc, due)?,
    })
}

/// Whether a node acknowledges to its predecessor: a tail, after a batch of its predecessor.
pub(crate) fn acks_after(core: &CoreState, done: &Done) -> bool
    ensures { result ≡ acks_after done.now (is_tail core.now.ids core.now.id) }
{
    matches!(done, Done::Appended) && core.is_tail()
}

/// The output after an append: the batch is forwarded.
#[inline(always)]
pub(crate) fn output_of_append(
    alloc: Global,
    core: &CoreState,
    batch: Batch,
    acks: bool,
    due: &[PendingSubmit],
) -> Result<Output, AllocError>
    ensures { (n : Machine) → CoreRefines core.now n →
        place n.list core.now.count ≡ Some batch →
        IfOk result (OutputHas None (forward core.now.id n core.now.count
        ++ (if acks then ack core.now.id n else [])) (map committed_reply due.now)) }
{
    let mut sent = SentFrames::new();
    push_some(alloc, &mut sent, core.forward(core.count(), batch))?;
    output_of(alloc, core, sent, acks, due)
}

/// The output after a batch with an unexpected number: the node acknowledges again to its
/// predecessor.
pub(crate) fn ack_duplicate(alloc: Global, core: &CoreState) -> Result<Output, AllocError>
    ensures { (n : Machine) (input : Input) → CoreRefines core.now n →
        IfOk result (OutputRefines input (ack_duplicate core.now.id n)) }
{
    let mut frames = SentFrames::new();
    push_some(alloc, &mut frames, core.ack())?;
    Ok(Output {
        dropped: Some(DropReason::OtherNumber),
        frames,
        replies: ShortList::new(),
    })
}

/// The output of a read: the value of the key at this number.
pub(crate) fn value_output(request: Number, number: Number, value: Option<Value>) -> Output
    ensures { (n : Machine) (key : List ℕ) (asked : Option ℕ) →
        value ≡ map_of (take number n.list) key →
        OutputRefines (Input.Get request key asked) (reply_read n request number) result }
{
    replying(Reply::Value {
        request,
        number,
        value,
    })
}

/// The output of a read: the page of the range at this number.
pub(crate) fn page_output(request: Number, number: Number, page: Page) -> Output
    ensures { (n : Machine) (range : Span) (asked : Option ℕ) →
        page ≡ page_of (take number n.list) range →
        OutputRefines (Input.Rows request range asked) (reply_read n request number) result }
{
    replying(Reply::Rows {
        request,
        number,
        page,
    })
}

pub(crate) fn refuse(request: Number, refusal: Refusal) -> Output
    ensures { (n : Machine) (input : Input) →
        OutputRefines input (refused n request refusal) result }
{
    replying(Reply::Refused { request, refusal })
}

pub(crate) fn output_of_drop(reason: DropReason) -> Output
    ensures { (n : Machine) (input : Input) →
        OutputRefines input (dropped_for n reason) result }
{
    Output {
        dropped: Some(reason),
        frames: SentFrames::new(),
        replies: ShortList::new(),
    }
}
