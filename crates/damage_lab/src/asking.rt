// What a store answers: its numbers, all rows at each number, both ways, some keys, and each batch.
use crate::shown::{put_batch, put_bytes, put_numbers, put_page};
use disk::MemDisk;
use engine::{Engine, EngineError};
use kv_types::{Batch, Key, KvError, Limits, Number, Page, Range, Value};
use std::alloc::{AllocError, Global};

// The keys that are looked up.
static KEYS: [&str; 5] = ["a", "b", "c", "d", "e"];

// What is asked of a store.
#[derive(Clone, Copy)]
enum Question {
    // Its numbers.
    Numbers,
    // All rows at a number, backward or forward.
    Rows(Number, bool),
    // The value of a key at a number: of the keys that are looked up, that of this index.
    Get(Number, usize),
    // The batch of a number.
    Batch(Number),
}

// The key of an index.
fn name_of(index: usize) -> &'static str {
    KEYS.get(index).copied().unwrap_or("")
}

fn range(alloc: Global, backward: bool) -> Result<Range, KvError> {
    Range::new(Key::new(Vec::new(alloc))?, None, backward, 1024)
}

fn key_of(alloc: Global, name: &str) -> Result<Key, KvError> {
    Key::new(name.as_bytes().to_vec(alloc)?)
}

// Puts what is asked: a word, a number, and a key if there is one.
fn put_head(
    text: &mut String,
    word: &str,
    number: Number,
    key: Option<&str>,
) -> Result<(), AllocError> {
    write!(text, " / {word} {}", number.get())?;
    if let Some(key) = key {
        write!(text, " {key}")?;
    }
    text.push_str(":")
}

// Puts why something was refused.
fn put_refusal(text: &mut String, refusal: EngineError) -> Result<(), AllocError> {
    write!(text, " {refusal}")
}

// Puts the rows of a page, or why it was refused.
fn put_rows(
    alloc: Global,
    text: &mut String,
    answer: &Result<Page, EngineError>,
) -> Result<(), AllocError> {
    match answer {
        Ok(page) => put_page(alloc, text, page),
        Err(refusal) => put_refusal(text, *refusal),
    }
}

// Puts a value, nothing where there is none, or why it was refused.
fn put_value(
    alloc: Global,
    text: &mut String,
    answer: &Result<Option<Value>, EngineError>,
) -> Result<(), AllocError> {
    match answer {
        Ok(Some(value)) => {
            text.push_str(" =")?;
            put_bytes(alloc, text, value.as_bytes())
        }
        Ok(None) => Ok(()),
        Err(refusal) => put_refusal(text, *refusal),
    }
}

// Puts a batch, or why it was refused.
fn put_edits(
    alloc: Global,
    text: &mut String,
    answer: &Result<Batch, EngineError>,
) -> Result<(), AllocError> {
    match answer {
        Ok(batch) => put_batch(alloc, text, batch),
        Err(refusal) => put_refusal(text, *refusal),
    }
}

fn ask_rows(
    alloc: Global,
    text: &mut String,
    engine: &mut Engine<MemDisk>,
    at: Number,
    backward: bool,
) -> Result<(), KvError> {
    let way = if backward { "back" } else { "rows" };
    put_head(text, way, at, None)?;
    let range = range(alloc, backward)?;
    let answer = engine.rows(alloc, at, &range);
    let put = put_rows(alloc, text, &answer);
    drop(answer);
    drop(range);
    Ok(put?)
}

fn ask_value(
    alloc: Global,
    text: &mut String,
    engine: &mut Engine<MemDisk>,
    at: Number,
    name: &str,
) -> Result<(), KvError> {
    put_head(text, "get", at, Some(name))?;
    let key = key_of(alloc, name)?;
    let answer = engine.get(alloc, at, &key);
    let put = put_value(alloc, text, &answer);
    drop(answer);
    drop(key);
    Ok(put?)
}

fn ask_batch(
    alloc: Global,
    text: &mut String,
    engine: &mut Engine<MemDisk>,
    number: Number,
) -> Result<(), KvError> {
    if number <= engine.kept() || engine.count() < number {
        return Ok(());
    }
    put_head(text, "batch", number, None)?;
    let answer = engine.batch(alloc, number);
    let put = put_edits(alloc, text, &answer);
    drop(answer);
    Ok(put?)
}

// Puts what an open store answers to a question. All of its batches are committed.
fn ask(
    alloc: Global,
    text: &mut String,
    engine: &mut Engine<MemDisk>,
    question: Question,
) -> Result<(), KvError> {
    let count = engine.count();
    engine.set_committed(count);
    match question {
        Question::Numbers => Ok(put_numbers(text, engine)?),
        Question::Rows(at, backward) => ask_rows(alloc, text, engine, at, backward),
        Question::Get(at, index) => ask_value(alloc, text, engine, at, name_of(index)),
        Question::Batch(number) => ask_batch(alloc, text, engine, number),
    }
}

// The least number at which a store answers something, and the greatest.
fn bounds_of(engine: &Engine<MemDisk>) -> (u64, u64) {
    let least = engine.kept().get().min(engine.floor().get());
    (least, engine.count().get())
}

// Puts the answer of the disk's store to a question, behind an opening of its own: a refusal ends a
// store. Returns from which number on it answers, and up to which. Where it is not opened it puts
// why.
fn put_answer(
    alloc: Global,
    text: &mut String,
    disk: &MemDisk,
    question: Question,
) -> Result<Option<(u64, u64)>, KvError> {
    match Engine::open(alloc, disk.clone()?, &Limits::default()) {
        Ok(mut engine) => {
            let bounds = bounds_of(&engine);
            let put = ask(alloc, text, &mut engine, question);
            drop(engine.into_disk());
            put?;
            Ok(Some(bounds))
        }
        Err((refusal, left)) => {
            drop(left);
            write!(text, "{refusal}")?;
            Ok(None)
        }
    }
}

// The question of an index, of those at a number.
fn question_at(at: Number, index: usize) -> Question {
    match index {
        0 => Question::Rows(at, false),
        1 => Question::Rows(at, true),
        2..=6 => Question::Get(at, index - 2),
        _ => Question::Batch(at),
    }
}

// Puts the answers at a number.
fn put_answers_at(
    alloc: Global,
    text: &mut String,
    disk: &MemDisk,
    at: Number,
) -> Result<(), KvError> {
    for index in 0..8 {
        put_answer(alloc, text, disk, question_at(at, index))?;
    }
    Ok(())
}

/// Puts what the store of a disk answers, or why it is not opened.
pub fn put_answers(alloc: Global, text: &mut String, disk: &MemDisk) -> Result<(), KvError> {
    let Some((least, greatest)) = put_answer(alloc, text, disk, Question::Numbers)? else {
        return Ok(());
    };
    for above in 0..greatest.saturating_sub(least).saturating_add(1) {
        if let Some(at) = Number::new(least.saturating_add(above)) {
            put_answers_at(alloc, text, disk, at)?;
        }
    }
    Ok(())
}
