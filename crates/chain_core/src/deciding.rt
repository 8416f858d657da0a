// The rule for each input, by the numbers of the node that receives it.
ghost use Rattle.std.specs.Prelude.{◌≡◌, MatchResult};
ghost use Rattle.kv_types.specs.{mark_of};
ghost use Rattle.chain_core.specs.Decisions.{DecidesFor, FitsFor, IsDecisionOn, IsReadAt};
ghost use Rattle.chain_core.specs.Decisions.{IsRefused};
ghost use Rattle.chain_core.specs.Marks.{request_order};

use crate::{CoreState, Decision, DropReason, Input};
use configurations::{Config, Epoch, NodeId};
use kv_types::bounds::MAX_NUMBER;
use kv_types::{Batch, HeldMark, Key, Number};
use link_messages::{BoxedRange, Refusal};

// What a batch is among those of its client.
#[derive(Clone, Copy)]
pub(crate) enum RequestOrder {
    // it bears no mark, or its request is greater than the client's last one
    Next,
    // its request is the client's last one, that of the batch of this number
    Again(Number),
    // its request is less than the client's last one
    Old,
}

// What the batch is where this mark is held for its client.
fn order_of(batch: &Batch, held: Option<HeldMark>) -> RequestOrder
    ensures { result ≡ request_order (mark_of batch.now) held }
{
    let (Some(mark), Some(held)) = (batch.mark(), held) else {
        return RequestOrder::Next;
    };
    if held.request < mark.request {
        return RequestOrder::Next;
    }
    if held.request == mark.request {
        return RequestOrder::Again(held.number);
    }
    RequestOrder::Old
}

// The rule for a batch, where this mark is held for its client.
fn of_submit(state: &CoreState, request: Number, batch: Batch, held: Option<HeldMark>) -> Decision
    ensures decides { DecidesFor state.now held (Input.Submit request batch) result }
    ensures room { FitsFor state.now held result }
{
    if state.is_removed() {
        let refusal = Refusal::Removed;
        return Decision::Refuse { request, refusal };
    }
    if !state.is_head() {
        let refusal = Refusal::NotHead;
        return Decision::Refuse { request, refusal };
    }
    match order_of(&batch, held) {
        RequestOrder::Old => {
            let refusal = Refusal::OldRequest;
            return Decision::Refuse { request, refusal };
        }
        RequestOrder::Again(number) => return Decision::Repeat { request, number },
        RequestOrder::Next => {}
    }
    if state.count().get() == MAX_NUMBER {
        let refusal = Refusal::Exhausted;
        return Decision::Refuse { request, refusal };
    }
    Decision::Accept { request, batch }
}

// The number that a client asks for, which can be read, or why it is refused.
fn number_read(state: &CoreState, at: Option<Number>) -> Result<Number, Refusal>
    ensures { MatchResult result (IsReadAt state.now at) (IsRefused state.now at) }
{
    let number = at.unwrap_or(state.committed());
    if state.is_removed() {
        return Err(Refusal::Removed);
    }
    if number < state.floor() {
        return Err(Refusal::TooOld);
    }
    if number > state.committed() {
        return Err(Refusal::NotCommitted);
    }
    Ok(number)
}

fn of_get(state: &CoreState, request: Number, key: Key, at: Option<Number>) -> Decision
    ensures { IsDecisionOn state.now (Input.Get request key at) result }
{
    match number_read(state, at) {
        Ok(at) => Decision::Read { request, key, at },
        Err(refusal) => Decision::Refuse { request, refusal },
    }
}

fn of_rows(state: &CoreState, request: Number, range: BoxedRange, at: Option<Number>) -> Decision
    ensures { IsDecisionOn state.now (Input.Rows request range at) result }
{
    match number_read(state, at) {
        Ok(at) => Decision::ReadRows { request, range, at },
        Err(refusal) => Decision::Refuse { request, refusal },
    }
}

fn of_open(state: &CoreState, request: Number, at: Option<Number>) -> Decision
    ensures { IsDecisionOn state.now (Input.Open request at) result }
{
    match number_read(state, at) {
        Ok(number) if state.has_room() => Decision::Open { request, number },
        Ok(_) => Decision::Refuse {
            request,
            refusal: Refusal::TooManySnapshots,
        },
        Err(refusal) => Decision::Refuse { request, refusal },
    }
}

fn of_close(state: &CoreState, request: Number, number: Number) -> Decision
    ensures { IsDecisionOn state.now (Input.Close request number) result }
{
    if state.is_removed() {
        let refusal = Refusal::Removed;
        return Decision::Refuse { request, refusal };
    }
    if !state.is_open(number) {
        let refusal = Refusal::NoSuchSnapshot;
        return Decision::Refuse { request, refusal };
    }
    Decision::Close { request, number }
}

fn of_forward(
    state: &CoreState,
    epoch: Epoch,
    from: NodeId,
    number: Number,
    batch: Batch,
) -> Decision
    ensures { IsDecisionOn state.now (Input.Forward epoch from number batch) result }
{
    if state.is_removed() {
        return Decision::Drop(DropReason::Removed);
    }
    if epoch != state.epoch() {
        return Decision::Drop(DropReason::OtherEpoch);
    }
    if state.predecessor() != Some(from) {
        return Decision::Drop(DropReason::NotPredecessor);
    }
    if number.get() != state.count().get() + 1 {
        return Decision::AckDuplicate;
    }
    Decision::Append { batch }
}

fn of_ack(
    state: &CoreState,
    epoch: Epoch,
    from: NodeId,
    committed: Number,
    have: Number,
) -> Decision
    ensures { IsDecisionOn state.now (Input.Ack epoch from committed have) result }
{
    if state.is_removed() {
        return Decision::Drop(DropReason::Removed);
    }
    if epoch != state.epoch() {
        return Decision::Drop(DropReason::OtherEpoch);
    }
    if state.successor() != Some(from) {
        return Decision::Drop(DropReason::NotSuccessor);
    }
    if committed > have || have > state.count() {
        return Decision::Drop(DropReason::BadAck);
    }
    Decision::OnAck { committed, have }
}

fn of_notice(state: &CoreState, epoch: Epoch, config: Config) -> Decision
    ensures { IsDecisionOn state.now (Input.Notice epoch config) result }
{
    if epoch <= state.epoch() {
        return Decision::Drop(DropReason::OldNotice);
    }
    if !config.leaves_out(state.config()) {
        return Decision::Drop(DropReason::BadNotice);
    }
    Decision::Adopt { epoch, config }
}

fn of_tick(state: &CoreState) -> Decision
    ensures { IsDecisionOn state.now Input.Tick result }
{
    if state.is_removed() {
        return Decision::Drop(DropReason::Removed);
    }
    Decision::Resend
}

/// Decides what a node does with an input. It changes nothing. `held` is the mark that the node's
/// list holds for the client of a marked batch that is submitted.
#[inline(always)]
pub fn decide(state: &CoreState, input: Input, held: Option<HeldMark>) -> Decision
    ensures decides { DecidesFor state.now held input result }
    ensures room { FitsFor state.now held result }
{
    match input {
        Input::Submit { request, batch } => of_submit(state, request, batch, held),
        Input::Get { request, key, at } => of_get(state, request, key, at),
        Input::Rows { request, range, at } => of_rows(state, request, range, at),
        Input::Open { request, at } => of_open(state, request, at),
        Input::Close { request, number } => of_close(state, request, number),
        Input::Forward {
            epoch,
            from,
            number,
            batch,
        } => of_forward(state, epoch, from, number, batch),
        Input::Ack {
            epoch,
            from,
            committed,
            have,
        } => of_ack(state, epoch, from, committed, have),
        Input::Notice { epoch, config } => of_notice(state, epoch, config),
        Input::Tick => of_tick(state),
    }
}
