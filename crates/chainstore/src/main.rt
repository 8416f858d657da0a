//! The program: its words and streams go to `serve`, whose status it ends with. Where the words
//! can't be had, it ends as for want of memory, or with the usage.
#![tactic(auto)]

use program::{Failure, refuse, report, serve};
use std::env;
use std::io::{self, ErrorKind};
use std::process::ExitCode;

/// Serves the program's words, and answers the exit status.
fn serve_words(rt: &HostRuntime) -> io::Result<u8> {
    let mut words = Vec::new(rt.alloc());
    for word in env::args(rt)? {
        words.push(word)?;
    }
    let mut texts: Vec<&str> = Vec::new(rt.alloc());
    for word in &words {
        texts.push(word.as_str())?;
    }
    let (mut input, mut out, mut err) = (rt.stdin(), rt.stdout(), rt.stderr());
    Ok(serve(rt, &texts, &mut input, &mut out, &mut err))
}

fn main(rt: HostRuntime) -> ExitCode {
    let status = match serve_words(&rt) {
        Ok(status) => status,
        Err(e) if e.kind() == ErrorKind::OutOfMemory => report(&mut rt.stderr(), Failure::Memory),
        // A word is no text.
        Err(_) => refuse(&mut rt.stderr()),
    };
    ExitCode::from(status)
}
