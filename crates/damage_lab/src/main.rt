//! What is read of streams of frames and of the files of a store, which may be damaged, and what is
//! printed of scripts over carriers that lose or alter.
#![tactic(auto)]

mod asking;
mod files;
mod runs;
mod shown;
mod streams;

use anyhow::{Result, bail};
use runs::{alter, carry_once, lose};
use std::alloc::Global;
use std::env;

// Puts what is answered to a line of the input.
fn put_answer(alloc: Global, text: &mut String, line: &str) -> Result<()> {
    let mut words = line.split(' ');
    match words.next() {
        Some("stream") => streams::put_answer(alloc, text, words),
        Some("files") => files::put_answer(alloc, text, words),
        _ => bail!("a line is of no known kind"),
    }
}

/// What is answered to a line of the input.
fn answer_to(alloc: Global, line: &str) -> Result<String> {
    let mut text = String::new(alloc);
    put_answer(alloc, &mut text, line)?;
    Ok(text)
}

// Answers each line of the standard input.
fn read(rt: &HostRuntime) -> Result<()> {
    for line in rt.lines(rt.alloc()) {
        let answer = answer_to(rt.alloc(), line?.as_str())?;
        println!(rt; "{answer}")?;
    }
    Ok(())
}

// The program's words.
fn words(rt: &HostRuntime) -> Result<Vec<String>> {
    let mut words = Vec::new(rt.alloc());
    for word in env::args(rt)?.skip(1) {
        words.push(word)?;
    }
    Ok(words)
}

fn main(rt: HostRuntime) -> Result<()> {
    let words = words(&rt)?;
    let Some((mode, rest)) = words.split_first() else {
        bail!("no mode");
    };
    match mode.as_str() {
        "read" => read(&rt),
        "lose" => lose(&rt, rest),
        "alter" => alter(&rt, rest),
        "carry-once" => carry_once(&rt),
        _ => bail!("an unknown mode"),
    }
}
