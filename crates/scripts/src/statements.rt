//! The statements that have no reader of their own, read from their words.
ghost use Rattle.std.specs.Prelude.{◌≢◌, ◌∷◌, IfErr, map, codes};
ghost use Rattle.script_words.specs.declared.error.ScriptError.TheVariants.{OutOfMemory};
ghost use Rattle.scripts.specs.Statements.{walk_name};
ghost use Rattle.scripts.specs.Reading.{IsReadAsCommand, ReadsCommand};

use crate::command::Command;
use disk::Junk;
use script_words::{RawRange, ScriptError, batch_number, bounds_of, junk_of, number};
use std::alloc::Global;

fn rows(alloc: Global, backward: bool, args: &[&[u8]]) -> Result<Command, ScriptError>
    ensures { ReadsCommand (walk_name backward ∷ map (λ w. w.now) args.now) result }
{
    let (node, from, to, limit, at) = match args {
        [node, from, to, limit] => (node, from, to, limit, None),
        [node, from, to, limit, at] => (node, from, to, limit, Some(at)),
        _ => return Err(ScriptError::WrongNumberOfWords),
    };
    let (Some(node), Some(limit)) = (number(node), number(limit)) else {
        return Err(ScriptError::BadNumber);
    };
    let at = match at {
        None => None,
        Some(at) => match batch_number(at) {
            None => return Err(ScriptError::BadNumber),
            at => at,
        },
    };
    match bounds_of(alloc, from, to)? {
        None => Err(ScriptError::BadBytes),
        Some((from, to)) => Ok(Command::Rows(node, RawRange::new(from, to, backward, limit), at)),
    }
}

fn open_snapshot(args: &[&[u8]]) -> Result<Command, ScriptError>
    ensures read { ReadsCommand (codes "open" ∷ map (λ w. w.now) args.now) result }
    ensures memory { IfErr result (λ e. e ≢ OutOfMemory) }
{
    let (node, at) = match args {
        [node] => (node, None),
        [node, at] => (node, Some(at)),
        _ => return Err(ScriptError::WrongNumberOfWords),
    };
    let Some(node) = number(node) else {
        return Err(ScriptError::BadNumber);
    };
    match at {
        None => Ok(Command::Open(node, None)),
        Some(at) => match batch_number(at) {
            None => Err(ScriptError::BadNumber),
            at => Ok(Command::Open(node, at)),
        },
    }
}

fn close_snapshot(args: &[&[u8]]) -> Result<Command, ScriptError>
    ensures read { ReadsCommand (codes "close" ∷ map (λ w. w.now) args.now) result }
    ensures memory { IfErr result (λ e. e ≢ OutOfMemory) }
{
    let [node, at] = args else {
        return Err(ScriptError::WrongNumberOfWords);
    };
    let Some(node) = number(node) else {
        return Err(ScriptError::BadNumber);
    };
    match batch_number(at) {
        None => Err(ScriptError::BadNumber),
        Some(at) => Ok(Command::Close(node, at)),
    }
}

fn tick(args: &[&[u8]]) -> Result<Command, ScriptError>
    ensures read { ReadsCommand (codes "tick" ∷ map (λ w. w.now) args.now) result }
    ensures memory { IfErr result (λ e. e ≢ OutOfMemory) }
{
    match args {
        [node] => match number(node) {
            None => Err(ScriptError::BadNumber),
            Some(node) => Ok(Command::Tick(node)),
        },
        _ => Err(ScriptError::WrongNumberOfWords),
    }
}

fn tend(args: &[&[u8]]) -> Result<Command, ScriptError>
    ensures read { ReadsCommand (codes "tend" ∷ map (λ w. w.now) args.now) result }
    ensures memory { IfErr result (λ e. e ≢ OutOfMemory) }
{
    match args {
        [node] => match number(node) {
            None => Err(ScriptError::BadNumber),
            Some(node) => Ok(Command::Tend(node)),
        },
        _ => Err(ScriptError::WrongNumberOfWords),
    }
}

fn start(args: &[&[u8]]) -> Result<Command, ScriptError>
    ensures read { ReadsCommand (codes "start" ∷ map (λ w. w.now) args.now) result }
    ensures memory { IfErr result (λ e. e ≢ OutOfMemory) }
{
    match args {
        [node] => match number(node) {
            None => Err(ScriptError::BadNumber),
            Some(node) => Ok(Command::Start(node)),
        },
        _ => Err(ScriptError::WrongNumberOfWords),
    }
}

fn stop(alloc: Global, args: &[&[u8]]) -> Result<Command, ScriptError>
    ensures { ReadsCommand (codes "stop" ∷ map (λ w. w.now) args.now) result }
{
    let (node, junk) = match args {
        [node] => (node, None),
        [node, junk] => (node, Some(junk)),
        _ => return Err(ScriptError::WrongNumberOfWords),
    };
    let Some(node) = number(node) else {
        return Err(ScriptError::BadNumber);
    };
    let junk = match junk {
        None => Junk::Old,
        Some(junk) => match junk_of(alloc, junk)? {
            None => return Err(ScriptError::BadFault),
            Some(junk) => junk,
        },
    };
    Ok(Command::Stop(node, junk))
}

/// What the words behind the name of any other statement with an event at a node ask for, or their
/// least fault.
pub fn command_of(alloc: Global, name: &[u8], args: &[&[u8]]) -> Result<Command, ScriptError>
    requires { IsReadAsCommand name.now }
    ensures { ReadsCommand (name.now ∷ map (λ w. w.now) args.now) result }
{
    if name == b"rows".as_slice() {
        rows(alloc, false, args)
    } else if name == b"back".as_slice() {
        rows(alloc, true, args)
    } else if name == b"open".as_slice() {
        open_snapshot(args)
    } else if name == b"close".as_slice() {
        close_snapshot(args)
    } else if name == b"stop".as_slice() {
        stop(alloc, args)
    } else if name == b"start".as_slice() {
        start(args)
    } else if name == b"tick".as_slice() {
        tick(args)
    } else if name == b"tend".as_slice() {
        tend(args)
    } else {
        Err(ScriptError::UnknownStatement)
    }
}
