//! Gets: the key that their words spell, the node, and the number.
ghost use Rattle.std.specs.Prelude.{◌≡◌, ◌∷◌, map, codes};
ghost use Rattle.scripts.specs.Reading.{Places, ReadsLookup};

use crate::action::key_of;
use crate::statement::{Action, ParserState};
use events::{Event, EventKind};
use kv_types::Number;
use script_words::{Bytes, ScriptError, batch_number, bytes_of, fault_behind, number, split_fault};
use std::alloc::Global;

/// What a get asks for, before anything but its spelling is known.
#[derive(Drop)]
pub struct RawLookup {
    node: u64,
    key: Bytes,
    at: Option<Number>,
}

/// The node, the key and the number that a get names.
fn raw_lookup(alloc: Global, args: &[&[u8]]) -> Result<RawLookup, ScriptError>
    ensures { ReadsLookup (codes "get" ∷ map (λ w. w.now) args.now) result }
{
    let (node, key, at) = match args {
        [node, key] => (node, key, None),
        [node, key, at] => (node, key, Some(at)),
        _ => return Err(ScriptError::WrongNumberOfWords),
    };
    let Some(node) = number(node) else {
        return Err(ScriptError::BadNumber);
    };
    let at = match at {
        None => None,
        Some(at) => match batch_number(at) {
            None => return Err(ScriptError::BadNumber),
            at => at,
        },
    };
    match bytes_of(alloc, key)? {
        None => Err(ScriptError::BadBytes),
        Some(key) => {
            let key = Bytes::new(key);
            Ok(RawLookup { node, key, at })
        }
    }
}

/// What a get comes to, if it may stand here.
pub fn look_up(alloc: Global, before: &ParserState, args: &[&[u8]]) -> Result<Action, ScriptError>
    ensures { Places before.now (codes "get") (map (λ w. w.now) args.now) result }
{
    let (words, behind) = split_fault(args);
    let RawLookup { node, key, at } = raw_lookup(alloc, words)?;
    let fault = fault_behind(alloc, before.faults, b"get", behind)?;
    let node = before.place(node)?;
    match key_of(key) {
        Ok(key) => {
            let kind = EventKind::Get { node, key, at };
            Ok(Action::Event(Event::new(alloc, kind, fault)?))
        }
        Err(e) => Ok(Action::Invalid(e)),
    }
}
