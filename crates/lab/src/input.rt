// The outcomes of the steps of a simulated node, and what one answers that is down.
ghost use Rattle.chain_core.specs.{Machine};
ghost use Rattle.lab.specs.Outcomes.{IsAnswer, IsAnswerAtRest, IsDrop, IsRefusal, down_answer};

use carriers::NodeInput;
use configurations::Epoch;
use engine::Tended;
use kv_types::Number;
use link_messages::Refusal;
use node::{DropReason, Input, Output, Reply, SentFrames, ShortList, Stop};

/// How a step of a node ended.
#[derive(Drop)]
pub enum StepOutcome {
    Answered(Output),
    Tended(Tended),
    Started {
        epoch: Epoch,
        count: Number,
        committed: Number,
    },
    /// It stopped: by itself for this cause, or the event or its fault stopped it.
    Stopped(Option<Stop>),
}

/// The output of a node that drops its input.
pub fn dropped(why: DropReason) -> Output
    ensures { IsDrop why result }
{
    Output {
        dropped: Some(why),
        frames: SentFrames::new(),
        replies: ShortList::new(),
    }
}

// The output of a node that is down, to a request.
fn refused(request: Number) -> Output
    ensures { IsRefusal request result }
{
    let refusal = Refusal::NotRunning;
    Output {
        dropped: None,
        frames: SentFrames::new(),
        replies: ShortList::one(Reply::Refused { request, refusal }),
    }
}

// The output of a node that is down, to the input of a step: a client is refused, all else is
// dropped.
fn output_down(input: &Input) -> Output
    ensures { (n : Machine) → IsAnswer input.now (down_answer n input.now) result }
{
    match input {
        Input::Submit { request, .. }
        | Input::Get { request, .. }
        | Input::Rows { request, .. }
        | Input::Open { request, .. }
        | Input::Close { request, .. } => refused(*request),
        Input::Forward { .. } | Input::Ack { .. } | Input::Notice { .. } | Input::Tick => {
            dropped(DropReason::NotRunning)
        }
    }
}

/// The output of a node that is down, to what does not start it.
pub fn output_at_rest(input: &NodeInput) -> Output
    ensures { IsAnswerAtRest input.now result }
{
    match input {
        NodeInput::Step(input) => output_down(input),
        _ => dropped(DropReason::NotRunning),
    }
}
