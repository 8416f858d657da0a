// The inputs of a node: frames in hexadecimal, and ticks.
use anyhow::{Context, Result};
use link_messages::{Frame, read};
use node::Input;
use std::alloc::Global;

// The input that a frame is, unless it is a reply.
fn input_of(frame: Frame) -> Option<Input> {
    match frame {
        Frame::Forward {
            epoch,
            from,
            number,
            batch,
        } => Some(Input::Forward {
            epoch,
            from,
            number,
            batch,
        }),
        Frame::Ack {
            epoch,
            from,
            committed,
            have,
        } => Some(Input::Ack {
            epoch,
            from,
            committed,
            have,
        }),
        Frame::Notice { epoch, config } => Some(Input::Notice { epoch, config }),
        Frame::Submit { request, batch } => Some(Input::Submit { request, batch }),
        Frame::Get { request, at, key } => Some(Input::Get { request, key, at }),
        Frame::Rows { request, at, range } => Some(Input::Rows { request, range, at }),
        Frame::Open { request, at } => Some(Input::Open { request, at }),
        Frame::Close { request, number } => Some(Input::Close { request, number }),
        _ => None,
    }
}

/// The input that a word spells: a frame, or a tick.
pub fn input_in(alloc: Global, word: &str) -> Result<Input> {
    if word == "tick" {
        return Ok(Input::Tick);
    }
    let bytes = hex::decode(alloc, word.as_bytes())?;
    let found = read(alloc, &bytes);
    drop(bytes);
    let (frame, _length) = found?.context("no frame")?;
    input_of(frame).context("a reply")
}
