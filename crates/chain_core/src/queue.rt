// The queue of requests whose batches are not yet committed, in order of number, then of request.
ghost use Rattle.std.specs.Prelude.{◌≡◌, [], IfOk, if◌then◌else◌};
ghost use Rattle.chain_core.specs.Queues.{front, behind, place_behind};
ghost use Rattle.chain_core.specs.States.{asked};
ghost use Rattle.chain_model.specs.Rules.{is_prior};

use crate::{PendingSubmit, ShortList};
use kv_types::Number;
use std::alloc::{AllocError, Global};
use std::collections::VecDeque;

// The requests at the front with numbers up to this one.
#[inline(always)]
pub(crate) fn due_of(
    alloc: Global,
    pending: &VecDeque<PendingSubmit>,
    upto: Number,
) -> Result<ShortList<PendingSubmit>, AllocError>
    ensures { IfOk result (λ due. due ≡ front upto pending.now.items) }
{
    let mut due = ShortList::new();
    let mut count = 0;
    while let Some(it) = pending.get(count) {
        if it.number > upto {
            return Ok(due);
        }
        due.push(alloc, *it)?;
        count += 1;
    }
    Ok(due)
}

// The requests at the front with numbers up to this one, if the node `stays`; else none.
pub(crate) fn due_where(
    alloc: Global,
    pending: &VecDeque<PendingSubmit>,
    upto: Number,
    stays: bool,
) -> Result<ShortList<PendingSubmit>, AllocError>
    ensures { IfOk result (λ due. due ≡ front upto (if stays then pending.now.items else [])) }
{
    if stays {
        due_of(alloc, pending, upto)
    } else {
        Ok(ShortList::new())
    }
}

// Forgets all requests, if `gone`.
pub(crate) fn forget_where(pending: &mut VecDeque<PendingSubmit>, gone: bool)
    ensures { pending.new.items ≡ (if gone then [] else pending.old.items) }
{
    if gone {
        pending.clear();
    }
}

// Forgets the requests at the front with numbers up to this one.
pub(crate) fn forget_due(pending: &mut VecDeque<PendingSubmit>, upto: Number)
    ensures { pending.new.items ≡ behind upto pending.old.items }
{
    while let Some(first) = pending.front() {
        if first.number > upto {
            return;
        }
        pending.pop_front();
    }
}

// Whether a request is prior to another one: it has the lesser number, or the same and no greater
// request.
fn is_prior(a: &PendingSubmit, b: &PendingSubmit) -> bool
    ensures { result ≡ is_prior (asked a.now) (asked b.now) }
{
    if a.number == b.number {
        a.request <= b.request
    } else {
        a.number < b.number
    }
}

// How many requests at the front are prior to this one.
pub(crate) fn place_behind(pending: &VecDeque<PendingSubmit>, it: &PendingSubmit) -> usize
    ensures { result ≡ place_behind it.now pending.now.items }
{
    let mut count = 0;
    while let Some(other) = pending.get(count) {
        if !is_prior(other, it) {
            return count;
        }
        count += 1;
    }
    count
}
