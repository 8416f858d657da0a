//! The text of what a statement did.
ghost use Rattle.std.specs.Prelude.{◌≡◌, ◌++◌, map, replicate, string_bytes, OnOk};
ghost use Rattle.std.specs.List.{flat_map};
ghost use Rattle.client.specs.Text.{line_of_request, reply_place, line_output};
ghost use Rattle.client.specs.Text.{step_text, note_text, result_text, request_of};
ghost use Rattle.client.specs.Text.{line_text, numbered_line, rows_of_line};
ghost use Rattle.client.specs.Text.{rows_of_reply};
ghost use Rattle.store_texts.specs.Texts.{printed_row};

use super::line::{LineText, StoppedText};
use super::names::error_name;
use crate::statement_result::{Note, StatementResult};
use kv_types::Row;
use lab::{KeptReply, Line, Lines, Reply, ReplyForm};
use std::alloc::AllocError;
use store_texts::{NumbersText, RowText};

/// Adds the places of a statement's events, which stand at its line.
pub fn add_event_lines(places: &mut Vec<u32>, line: u32, count: usize) -> Result<(), AllocError>
    ensures { OnOk result (places.new.items ≡ places.old.items ++ replicate count line) }
{
    for _ in 0..count {
        places.push(line)?;
    }
    Ok(())
}

fn request_in(reply: &Reply) -> u64
    ensures { result ≡ request_of reply.now }
{
    match reply {
        Reply::Committed { request, .. } => request.get(),
        Reply::Value { request, .. } => request.get(),
        Reply::Rows { request, .. } => request.get(),
        Reply::Opened { request, .. } => request.get(),
        Reply::Closed { request, .. } => request.get(),
        Reply::Refused { request, .. } => request.get(),
    }
}

/// The request that the reply of a line answers.
fn request(reply: &KeptReply) -> u64
    ensures { result ≡ request_of reply.now }
{
    match reply.form() {
        ReplyForm::Committed { request, .. } => request.get(),
        ReplyForm::Other(reply) => request_in(reply.as_ref()),
    }
}

/// The line of a request, which has the number of its event, from 1.
fn line_of(places: &[u32], here: u32, request: u64) -> u32
    ensures { result ≡ line_of_request places.now here request }
{
    let place = request.saturating_sub(1);
    match places.get(place as usize) {
        Some(line) => *line,
        None => here,
    }
}

/// Where a line of the report is told: a reply at its request, all else here.
fn place_of(places: &[u32], here: u32, line: &Line) -> u32
    ensures { result ≡ reply_place places.now here line.now }
{
    match line {
        Line::Replied(reply) => line_of(places, here, request(reply)),
        _ => here,
    }
}

// The rows of a reply, if it has a page.
fn rows_in(reply: &KeptReply) -> &[Row]
    ensures { result.now ≡ rows_of_reply reply.now }
{
    let ReplyForm::Other(reply) = reply.form() else {
        return &[];
    };
    match reply.as_ref() {
        Reply::Rows { page, .. } => page.rows(),
        _ => &[],
    }
}

/// The rows of an answer, which stand before its own line.
fn rows_of(line: &Line) -> &[Row]
    ensures { result.now ≡ rows_of_line line.now }
{
    match line {
        Line::Replied(reply) => rows_in(reply),
        _ => &[],
    }
}

fn print_rows(number: u32, rows: &[Row], text: &mut String) -> Result<(), AllocError>
    ensures { OnOk result (string_bytes text.new ≡ string_bytes text.old
        ++ flat_map (numbered_line number) (map printed_row rows.now)) }
{
    for row in rows {
        let row = RowText(row);
        writeln!(text, "{number}: {row}")?;
    }
    Ok(())
}

// The line without its rows.
fn print_text(number: u32, line: &Line, text: &mut String) -> Result<(), AllocError>
    ensures { OnOk result (string_bytes text.new ≡ string_bytes text.old
        ++ numbered_line number (line_text line.now)) }
{
    let line = LineText(line);
    writeln!(text, "{number}: {line}")
}

fn print_line(places: &[u32], here: u32, line: &Line, text: &mut String) -> Result<(), AllocError>
    ensures { OnOk result (string_bytes text.new ≡ string_bytes text.old
        ++ line_output places.now here line.now) }
{
    let number = place_of(places, here, line);
    print_rows(number, rows_of(line), text)?;
    print_text(number, line, text)?;
    Ok(())
}

fn print_step(places: &[u32], here: u32, step: &[Line], text: &mut String) -> Result<(), AllocError>
    ensures { OnOk result (string_bytes text.new ≡ string_bytes text.old
        ++ step_text places.now here step.now) }
{
    for line in step {
        print_line(places, here, line, text)?;
    }
    Ok(())
}

fn print_steps(
    places: &[u32],
    here: u32,
    steps: &[Lines],
    text: &mut String,
) -> Result<(), AllocError>
    ensures { OnOk result (string_bytes text.new ≡ string_bytes text.old
        ++ flat_map (step_text places.now here) steps.now) }
{
    for step in steps {
        print_step(places, here, step.as_slice(), text)?;
    }
    Ok(())
}

fn print_note(here: u32, note: &Note, text: &mut String) -> Result<(), AllocError>
    ensures { OnOk result (string_bytes text.new ≡ string_bytes text.old
        ++ note_text here note.now) }
{
    match *note {
        Note::Nothing => Ok(()),
        Note::Invalid(error) => {
            let error = error_name(error);
            writeln!(text, "{here}: invalid {error}")
        }
        Note::Busy => writeln!(text, "{here}: busy"),
        Note::Running(node, ref numbers) => {
            let numbers = NumbersText(node, numbers);
            writeln!(text, "{here}: {numbers}")
        }
        Note::Down(node) => {
            let stopped = StoppedText(node, None);
            writeln!(text, "{here}: {stopped}")
        }
    }
}

/// Prints what a statement did: the lines of its steps, but of the silent first ones, and what is
/// said of it besides. `places` are the lines of the events so far.
pub fn print_result(
    places: &[u32],
    turn: &StatementResult,
    steps: &[Lines],
    text: &mut String,
) -> Result<(), AllocError>
    ensures { OnOk result (string_bytes text.new ≡ string_bytes text.old
        ++ result_text places.now turn.now steps.now) }
{
    let (own, _behind) = steps.split_at(turn.events.min(steps.len()));
    let (_silent, printed) = own.split_at(turn.silent.min(own.len()));
    print_steps(places, turn.line, printed, text)?;
    print_note(turn.line, &turn.note, text)
}
