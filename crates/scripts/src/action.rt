//! What a command comes to: an event, or the first error of its keys and range.
ghost use Rattle.std.specs.Prelude.{◌≡◌, None, Some, IfOk, MatchResult};
ghost use Rattle.events.specs.{node_in};
ghost use Rattle.scripts.specs.Actions.{key_error, bound_error, range_error, action_of};
ghost use Rattle.scripts.specs.Reading.{what_of};

use crate::command::Command;
use crate::statement::Action;
use configurations::NodeId;
use disk::Fault;
use events::{Event, EventKind};
use kv_types::{Key, KvError, Range};
use script_words::{Bytes, RawRange};
use std::alloc::{AllocError, Global};

/// The key of these bytes, if it is short enough.
pub fn key_of(bytes: Bytes) -> Result<Key, KvError>
    ensures { MatchResult result (λ key. (key_error bytes ≡ None) × (key ≡ bytes))
        (λ e. key_error bytes ≡ Some e) }
{
    Key::new(bytes.into_vec())
}

fn bound_of(bytes: Option<Bytes>) -> Result<Option<Key>, KvError>
    ensures { MatchResult result (λ to. (bound_error bytes ≡ None) × (to ≡ bytes))
        (λ e. bound_error bytes ≡ Some e) }
{
    match bytes {
        None => Ok(None),
        Some(bytes) => Ok(Some(key_of(bytes)?)),
    }
}

/// The range that two keys and a limit make. The errors of the keys stand before that of the limit.
fn range_of(range: RawRange) -> Result<Range, KvError>
    ensures { MatchResult result (λ made. (range_error range ≡ None) × (made ≡ range))
        (λ e. range_error range ≡ Some e) }
{
    let (from, to, backward, limit) = range.into_parts();
    let from = key_of(from)?;
    let to = bound_of(to)?;
    match u32::try_from(limit) {
        Ok(limit) => Range::new(from, to, backward, limit),
        Err(_) => Err(KvError::BadLimit),
    }
}

/// What comes of a statement that names this node.
pub fn action(
    alloc: Global,
    node: NodeId,
    command: Command,
    fault: Fault,
) -> Result<Action, AllocError>
    requires { node_in (what_of command) ≡ Some node }
    ensures { IfOk result (λ action. action ≡ action_of
        (record { kind = what_of command; fault = fault })) }
{
    let kind = match command {
        Command::Rows(_, range, at) => match range_of(range) {
            Ok(range) => EventKind::Rows { node, range, at },
            Err(e) => return Ok(Action::Invalid(e)),
        },
        Command::Open(_, at) => EventKind::Open { node, at },
        Command::Close(_, number) => EventKind::Close { node, number },
        Command::Tick(_) => EventKind::Tick { node },
        Command::Tend(_) => EventKind::Tend { node },
        Command::Stop(_, junk) => EventKind::Stop { node, junk },
        Command::Start(_) => EventKind::Start { node },
    };
    Ok(Action::Event(Event::new(alloc, kind, fault)?))
}
