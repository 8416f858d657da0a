//! The reader of scripts: all statements, or the first fault.
ghost use Rattle.std.specs.Prelude.{◌≡◌, ◌≢◌, ◌∷◌, [], map, codes, true, Some, None};
ghost use Rattle.std.specs.Prelude.{IfErr, IfOk, MatchResult, All, List, ℕ};
ghost use Rattle.script_words.specs.declared.error.ScriptError.TheVariants.{BadConfiguration};
ghost use Rattle.script_words.specs.declared.error.ScriptError.TheVariants.{OutOfMemory};
ghost use Rattle.script_words.specs.Limits.{limits_with, SetsLimit};
ghost use Rattle.script_words.specs.Lines.{script_lines};
ghost use Rattle.scripts.specs.Scripts.{is_skipped, IsScript, Names};
ghost use Rattle.scripts.specs.Faults.{limit_fault, limits_after, IsReported, script_fault, start};
ghost use Rattle.scripts.specs.Reading.{IsOfOneNode, PlacesNode, ReadsLine, ReadsWords, Places};
ghost use Rattle.scripts.specs.Reading.{IsReadAsCommand};
ghost use Rattle.scripts.specs.Reading.{ReadsBorne, ReadsNext};

use crate::action::action;
use crate::configuration::config;
use crate::look_up::look_up;
use crate::setup::Setup;
use crate::statement::{Action, LineItem, ParserState, Statement};
use crate::statements::command_of;
use crate::submit::{once, submit};
use configurations::NodeId;
use disk::Fault;
use events::{Event, EventKind};
use kv_types::LimitName;
use script_words::{
    ScriptError, ScriptLimits, ScriptLines, fault_behind, limit_of, number, put_words, split_fault,
};
use std::alloc::Global;

/// The most bytes of a line, without its line feed.
pub const LINE: usize = 262144;

/// The most lines of a script.
pub const LINES: u32 = 100000;

fn skips(line: &[u8]) -> bool
    ensures { result ≡ is_skipped line.now }
{
    matches!(line, [] | [b'#', ..])
}

// The limit that a line sets, and the number that it is to be.
#[inline(never)]
fn limit(before: &ParserState, args: &[&[u8]]) -> Result<(LimitName, u64), ScriptError>
    ensures { MatchResult result
        (λ it. (limit_fault before.now (map (λ w. w.now) args.now) ≡ None)
        × SetsLimit (codes "limit" ∷ map (λ w. w.now) args.now) it.0 it.1
        × (limits_after before.now.limits (map (λ w. w.now) args.now)
        ≡ limits_with before.now.limits it.0 it.1) × (before.now.configs ≡ None))
        (λ e. limit_fault before.now (map (λ w. w.now) args.now) ≡ Some e) }
{
    let (words, behind) = split_fault(args);
    let [name, word] = words else {
        return Err(ScriptError::WrongNumberOfWords);
    };
    let Some(number) = number(word) else {
        return Err(ScriptError::BadNumber);
    };
    if !behind.is_empty() {
        return Err(ScriptError::BadFault);
    }
    if before.configs.is_some() {
        return Err(ScriptError::OutOfPlace);
    }
    match limit_of(name) {
        Some(limit) if limit.allows(number) => Ok((limit, number)),
        _ => Err(ScriptError::BadLimit),
    }
}

// A frame's delivery, if it may stand here.
#[inline(never)]
fn deliver(alloc: Global, before: &ParserState, args: &[&[u8]]) -> Result<Action, ScriptError>
    ensures { Places before.now (codes "deliver") (map (λ w. w.now) args.now) result }
{
    let (words, behind) = split_fault(args);
    let [word] = words else {
        return Err(ScriptError::WrongNumberOfWords);
    };
    let Some(place) = number(word) else {
        return Err(ScriptError::BadNumber);
    };
    let fault = fault_behind(alloc, before.faults, b"deliver", behind)?;
    if before.configs.is_none() {
        return Err(ScriptError::OutOfPlace);
    }
    let kind = EventKind::Deliver { place };
    Ok(Action::Event(Event::new(alloc, kind, fault)?))
}

// A notice, if it may stand here.
#[inline(never)]
fn notice(alloc: Global, before: &ParserState, args: &[&[u8]]) -> Result<Action, ScriptError>
    ensures { Places before.now (codes "notice") (map (λ w. w.now) args.now) result }
{
    let (words, behind) = split_fault(args);
    let [node, epoch] = words else {
        return Err(ScriptError::WrongNumberOfWords);
    };
    let (Some(node), Some(epoch)) = (number(node), number(epoch)) else {
        return Err(ScriptError::BadNumber);
    };
    let fault = fault_behind(alloc, before.faults, b"notice", behind)?;
    let epoch = before.epoch(epoch)?;
    let node = before.place(node)?;
    let kind = EventKind::Notice { node, epoch };
    Ok(Action::Event(Event::new(alloc, kind, fault)?))
}

// A flow, if it may stand here.
fn flow(before: &ParserState, args: &[&[u8]]) -> Result<Action, ScriptError>
    ensures placed { Places before.now (codes "flow") (map (λ w. w.now) args.now) result }
    ensures memory { IfErr result (λ e. e ≢ OutOfMemory) }
{
    let (words, behind) = split_fault(args);
    if !words.is_empty() {
        return Err(ScriptError::WrongNumberOfWords);
    }
    if !behind.is_empty() {
        return Err(ScriptError::BadFault);
    }
    if before.configs.is_none() {
        return Err(ScriptError::OutOfPlace);
    }
    Ok(Action::Flow)
}

// The node of a statement that names one and has no event, if it may stand here.
fn only_node(before: &ParserState, args: &[&[u8]]) -> Result<NodeId, ScriptError>
    ensures placed { (name : List ℕ) → IsOfOneNode name →
        PlacesNode before.now name (map (λ w. w.now) args.now) result }
    ensures memory { IfErr result (λ e. e ≢ OutOfMemory) }
{
    let (words, behind) = split_fault(args);
    let [word] = words else {
        return Err(ScriptError::WrongNumberOfWords);
    };
    let Some(node) = number(word) else {
        return Err(ScriptError::BadNumber);
    };
    if !behind.is_empty() {
        return Err(ScriptError::BadFault);
    }
    before.place(node)
}

fn settle(before: &ParserState, args: &[&[u8]]) -> Result<Action, ScriptError>
    ensures placed { Places before.now (codes "settle") (map (λ w. w.now) args.now) result }
    ensures memory { IfErr result (λ e. e ≢ OutOfMemory) }
{
    match only_node(before, args) {
        Ok(node) => Ok(Action::Settle(node)),
        Err(e) => Err(e),
    }
}

fn show(before: &ParserState, args: &[&[u8]]) -> Result<Action, ScriptError>
    ensures placed { Places before.now (codes "show") (map (λ w. w.now) args.now) result }
    ensures memory { IfErr result (λ e. e ≢ OutOfMemory) }
{
    match only_node(before, args) {
        Ok(node) => Ok(Action::Show(node)),
        Err(e) => Err(e),
    }
}

/// The fault that a statement bears whose own words are good. What a stop leaves is spelled only
/// where faults may be.
fn fault_borne(
    alloc: Global,
    faults: bool,
    name: &[u8],
    words: &[&[u8]],
    behind: &[&[u8]],
) -> Result<Fault, ScriptError>
    ensures { ReadsBorne faults name.now (map (λ w. w.now) words.now)
        (map (λ w. w.now) behind.now) result }
{
    if name == b"stop".as_slice() && words.len() == 2 && !faults {
        return Err(ScriptError::BadFault);
    }
    fault_behind(alloc, faults, name, behind)
}

/// What any other statement with an event at a named node comes to, if it may stand here.
#[inline(never)]
fn placed(
    alloc: Global,
    before: &ParserState,
    name: &[u8],
    args: &[&[u8]],
) -> Result<Action, ScriptError>
    requires { IsReadAsCommand name.now }
    ensures { Places before.now name.now (map (λ w. w.now) args.now) result }
{
    let (words, behind) = split_fault(args);
    let command = command_of(alloc, name, words)?;
    let fault = match fault_borne(alloc, before.faults, name, words, behind) {
        Ok(fault) => fault,
        Err(e) => {
            drop(command);
            return Err(e);
        }
    };
    match before.place(command.node()) {
        Ok(node) => Ok(action(alloc, node, command, fault)?),
        Err(e) => {
            drop(command);
            drop(fault);
            Err(e)
        }
    }
}

/// What a statement comes to, if it may stand here.
fn statement(
    alloc: Global,
    before: &ParserState,
    name: &[u8],
    args: &[&[u8]],
) -> Result<Action, ScriptError>
    ensures { Places before.now name.now (map (λ w. w.now) args.now) result }
{
    if name == b"submit".as_slice() {
        submit(alloc, before, args)
    } else if name == b"once".as_slice() {
        once(alloc, before, args)
    } else if name == b"get".as_slice() {
        look_up(alloc, before, args)
    } else if name == b"deliver".as_slice() {
        deliver(alloc, before, args)
    } else if name == b"notice".as_slice() {
        notice(alloc, before, args)
    } else if name == b"flow".as_slice() {
        flow(before, args)
    } else if name == b"settle".as_slice() {
        settle(before, args)
    } else if name == b"show".as_slice() {
        show(before, args)
    } else {
        placed(alloc, before, name, args)
    }
}

fn item_of_words(
    alloc: Global,
    before: &ParserState,
    words: &[&[u8]],
) -> Result<LineItem, ScriptError>
    ensures { ReadsWords before.now (map (λ w. w.now) words.now) result }
{
    let [name, args @ ..] = words else {
        return Err(ScriptError::UnknownStatement);
    };
    if *name == b"config".as_slice() {
        return Ok(LineItem::Config(config(alloc, before, args)?));
    }
    if *name == b"limit".as_slice() {
        let (limit, number) = limit(before, args)?;
        return Ok(LineItem::Limit(limit, number));
    }
    Ok(LineItem::Asks(statement(alloc, before, name, args)?))
}

/// What a line says, behind what stands before it. Its words are put in place of those that there
/// are.
fn item_of<'a>(
    alloc: Global,
    before: &ParserState,
    line: &'a [u8],
    words: &mut Vec<&'a [u8]>,
) -> Result<LineItem, ScriptError>
    ensures { ReadsLine before.now line.now result }
{
    if line.len() > LINE {
        return Err(ScriptError::LineTooLong);
    }
    if skips(line) {
        return Ok(LineItem::Skipped);
    }
    put_words(line, words)?;
    item_of_words(alloc, before, words)
}

/// A script: what it sets up, and its statements in order.
#[derive(Drop)]
pub struct Script {
    pub setup: Setup,
    pub statements: Vec<Statement>,
}

/// The first faulty line, and its least fault.
#[derive(Clone, Copy)]
pub struct ScriptFault {
    pub line: u32,
    pub error: ScriptError,
}

/// Adds what line `number` says, and its statement.
fn read_line<'a>(
    alloc: Global,
    before: &mut ParserState,
    number: u32,
    line: &'a [u8],
    words: &mut Vec<&'a [u8]>,
    statements: &mut Vec<Statement>,
) -> Result<(), ScriptError>
    ensures { ReadsNext before.old before.new number line.now statements.old.items
        statements.new.items result }
{
    match item_of(alloc, before, line, words) {
        Ok(item) if number <= LINES => Ok(before.add(statements, number, item)?),
        Ok(_) => Err(ScriptError::TooManyLines),
        Err(e) => Err(e),
    }
}

/// The script that a text spells, or the least fault of its first faulty line. Want of memory may
/// be reported in its place, at a line that was begun. Where faults may not be spelled, the words
/// of a fault and those for what a stop leaves are a bad fault.
pub fn read_script(alloc: Global, text: &[u8], faults: bool) -> Result<Script, ScriptFault>
    ensures found { IfOk result (λ script.
        IsScript 1 (script_lines text.now) script.setup script.statements.items) }
    ensures fault { MatchResult result
        (λ _. script_fault (start faults) 1 (script_lines text.now) ≡ None)
        (λ f. IsReported faults (script_lines text.now) f.line f.error) }
    ensures node { IfOk result (λ script.
        All (λ it. Names script.setup.configs it.action) script.statements.items) }
{
    let mut before = ParserState {
        configs: None,
        begun: false,
        limits: ScriptLimits::default(),
        faults,
    };
    let mut statements = Vec::new(alloc);
    let mut words = Vec::new(alloc);
    let mut number = 1u32;
    for line in ScriptLines(text) {
        match read_line(
            alloc,
            &mut before,
            number,
            line,
            &mut words,
            &mut statements,
        ) {
            Ok(()) => number += 1,
            Err(error) => return Err(ScriptFault {
                line: number,
                error,
            }),
        }
    }
    let limits = before.limits;
    let Some(configs) = before.into_configs() else {
        return Err(ScriptFault {
            line: number,
            error: ScriptError::BadConfiguration,
        });
    };
    let setup = Setup {
        configs,
        limits: limits.of_store(),
    };
    Ok(Script { setup, statements })
}
