//! Submits: the batch that their words spell, with the mark that they name, or its first error.
ghost use Rattle.std.specs.Prelude.{◌≡◌, ◌&&◌, ◌∷◌, None, Some, true, false, not, map, codes, List};
ghost use Rattle.std.specs.Prelude.{IfOk, MatchOption, MatchResult, All};
ghost use Rattle.std.specs.Fmt.{decimal};
ghost use Rattle.std.specs.List.{list_any};
ghost use Rattle.events.specs.declared.EventKind.TheVariants.{Submit};
ghost use Rattle.kv_types.specs.{BatchContent, batch_error};
ghost use Rattle.kv_types.specs.declared.Edit.{Edit};
ghost use Rattle.script_words.specs.Edits.{is_edit, edit_of, edit_word, AreBytesIn};
ghost use Rattle.script_words.specs.Words.{is_positive};
ghost use Rattle.scripts.specs.Actions.{action_of, value_error, edit_error};
ghost use Rattle.scripts.specs.Reading.{IsBatchOf, Places, ReadsSubmit};
ghost use Rattle.scripts.specs.Statements.{MarkCanBeSaid};

use crate::action::key_of;
use crate::statement::{Action, ParserState};
use configurations::NodeId;
use disk::Fault;
use events::{Event, EventKind};
use kv_types::{Batch, Edit, KvError, Mark, Value};
use script_words::{
    Bytes, RawEdit, ScriptError, fault_behind, number, positive_number, raw_edit_of, split_fault,
};
use std::alloc::{AllocError, Global};

fn value_of(bytes: Bytes) -> Result<Value, KvError>
    ensures { MatchResult result (λ value. (value_error bytes ≡ None) × (value ≡ bytes))
        (λ e. value_error bytes ≡ Some e) }
{
    Value::new(bytes.into_vec())
}

/// The edit that a change makes. A key's error comes before its value's.
fn edit(change: RawEdit) -> Result<Edit, KvError>
    ensures { MatchResult result
        (λ edit. (edit_error (edit_of change) ≡ None) × (edit ≡ edit_of change))
        (λ e. edit_error (edit_of change) ≡ Some e) }
{
    match change {
        RawEdit::Put(key, value) => {
            let key = key_of(key)?;
            let value = value_of(value)?;
            Ok(Edit::Put(key, value))
        }
        RawEdit::Delete(key) => Ok(Edit::Delete(key_of(key)?)),
    }
}

/// The batch of these edits, with this mark or with none.
fn batch_of(mark: Option<Mark>, edits: Vec<Edit>) -> Result<Batch, KvError>
    ensures { MatchResult result
        (λ batch. (batch_error (record { mark = mark; content = edits.items }) ≡ None)
        × (batch ≡ record { mark = mark; content = edits.items }))
        (λ e. batch_error (record { mark = mark; content = edits.items }) ≡ Some e) }
{
    match mark {
        None => Batch::new(edits),
        Some(mark) => Batch::marked(mark.client, mark.request, edits),
    }
}

/// The batch of the edits that words spell, with this mark or with none, or its first error;
/// nothing where a word spells no edit.
fn spelled_batch(
    alloc: Global,
    mark: Option<Mark>,
    words: &[&[u8]],
) -> Result<Option<Result<Batch, KvError>>, AllocError>
    ensures { IfOk result (λ found. MatchOption found
        (list_any (λ w. not (is_edit w.now)) words.now ≡ true)
        (λ batch. (list_any (λ w. not (is_edit w.now)) words.now ≡ false)
        × ((edits : List Edit) × All AreBytesIn edits
        × (map (λ w. w.now) words.now ≡ map edit_word edits)
        × IsBatchOf (record { mark = mark; content = edits }) batch))) }
{
    // A batch keeps this list: it has no more room than it needs.
    let mut edits = Vec::with_capacity(alloc, words.len())?;
    let mut error = None;
    for word in words {
        let Some(change) = raw_edit_of(alloc, word)? else {
            return Ok(None);
        };
        match edit(change) {
            Ok(edit) => edits.push(edit)?,
            Err(e) => error = error.or(Some(e)),
        }
    }
    match error {
        None => Ok(Some(batch_of(mark, edits))),
        Some(e) => Ok(Some(Err(e))),
    }
}

/// The node that a submit names, and its batch or the first error of that.
fn submission(alloc: Global, args: &[&[u8]]) -> Result<(u64, Result<Batch, KvError>), ScriptError>
    ensures { ReadsSubmit (codes "submit" ∷ map (λ w. w.now) args.now) result }
{
    let [node, edits @ ..] = args else {
        return Err(ScriptError::WrongNumberOfWords);
    };
    let Some(node) = number(node) else {
        return Err(ScriptError::BadNumber);
    };
    match spelled_batch(alloc, None, edits)? {
        None => Err(ScriptError::BadBytes),
        Some(batch) => Ok((node, batch)),
    }
}

/// The mark of the client and the request that two words spell.
fn spelled_mark(client: &[u8], request: &[u8]) -> Option<Mark>
    ensures { MatchOption result ((is_positive client.now && is_positive request.now) ≡ false)
        (λ mark. (is_positive client.now ≡ true) × (is_positive request.now ≡ true)
        × MarkCanBeSaid mark × (client.now ≡ decimal mark.client)
        × (request.now ≡ decimal mark.request)) }
{
    let client = positive_number(client)?;
    let request = positive_number(request)?;
    Some(Mark { client, request })
}

/// The node that a once names, and its batch with its mark, or the first error of that.
fn marked_submission(
    alloc: Global,
    args: &[&[u8]],
) -> Result<(u64, Result<Batch, KvError>), ScriptError>
    ensures { ReadsSubmit (codes "once" ∷ map (λ w. w.now) args.now) result }
{
    let [node, client, request, edits @ ..] = args else {
        return Err(ScriptError::WrongNumberOfWords);
    };
    let (Some(node), Some(mark)) = (number(node), spelled_mark(client, request)) else {
        return Err(ScriptError::BadNumber);
    };
    match spelled_batch(alloc, Some(mark), edits)? {
        None => Err(ScriptError::BadBytes),
        Some(batch) => Ok((node, batch)),
    }
}

/// What a submit of this batch comes to: its event, or the error of the batch.
fn submitted(
    alloc: Global,
    node: NodeId,
    batch: Result<Batch, KvError>,
    fault: Fault,
) -> Result<Action, AllocError>
    ensures { IfOk result (λ action. (asked : BatchContent) → IsBatchOf asked batch
        → action ≡ action_of (record { kind = Submit node asked; fault = fault })) }
{
    match batch {
        Ok(batch) => {
            let kind = EventKind::Submit { node, batch };
            Ok(Action::Event(Event::new(alloc, kind, fault)?))
        }
        Err(e) => Ok(Action::Invalid(e)),
    }
}

/// What a submit comes to, if it may stand here.
pub fn submit(alloc: Global, before: &ParserState, args: &[&[u8]]) -> Result<Action, ScriptError>
    ensures { Places before.now (codes "submit") (map (λ w. w.now) args.now) result }
{
    let (words, behind) = split_fault(args);
    let (node, batch) = submission(alloc, words)?;
    let fault = fault_behind(alloc, before.faults, b"submit", behind)?;
    let node = before.place(node)?;
    Ok(submitted(alloc, node, batch, fault)?)
}

/// What a once comes to, if it may stand here.
pub fn once(alloc: Global, before: &ParserState, args: &[&[u8]]) -> Result<Action, ScriptError>
    ensures { Places before.now (codes "once") (map (λ w. w.now) args.now) result }
{
    let (words, behind) = split_fault(args);
    let (node, batch) = marked_submission(alloc, words)?;
    let fault = fault_behind(alloc, before.faults, b"once", behind)?;
    let node = before.place(node)?;
    Ok(submitted(alloc, node, batch, fault)?)
}
