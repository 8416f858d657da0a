//! The numbers of the kinds of frames, of the faults and of the refusals, which no stream shows.
use crate::cases::{has_memory, holds_at, is_so};
use link_messages::{Frame, FrameError, Refusal, read};
use std::alloc::Global;
use std::process::Abort;

/// The smallest frame of each kind, by docs/FORMATS.md.
static FRAMES: [&'static [u8]; 14] = [
    &[
        0, 0, 0, 20, 1, 0, 0, 0, 0, 0, 1, 0, 0, 0, 0, 0, 0, 0, 1, 0, 1, 2, 0, 0,
    ],
    &[
        0, 0, 0, 23, 2, 0, 0, 0, 0, 0, 1, 0, 0, 0, 0, 0, 0, 0, 1, 0, 0, 0, 0, 0, 0, 0, 1,
    ],
    &[0, 0, 0, 8, 3, 0, 0, 0, 0, 1, 255, 255],
    &[0, 0, 0, 14, 4, 0, 0, 0, 0, 0, 0, 0, 1, 0, 1, 2, 0, 0],
    &[0, 0, 0, 12, 5, 0, 0, 0, 0, 0, 0, 0, 1, 0, 0, 0],
    &[
        0, 0, 0, 18, 6, 0, 0, 0, 0, 0, 0, 0, 1, 0, 0, 0, 0, 0, 0, 0, 0, 1,
    ],
    &[0, 0, 0, 10, 7, 0, 0, 0, 0, 0, 0, 0, 1, 0],
    &[
        0, 0, 0, 17, 8, 0, 0, 0, 0, 0, 0, 0, 1, 0, 0, 0, 0, 0, 0, 0, 1,
    ],
    &[
        0, 0, 0, 17, 9, 0, 0, 0, 0, 0, 0, 0, 1, 0, 0, 0, 0, 0, 0, 0, 1,
    ],
    &[
        0, 0, 0, 18, 10, 0, 0, 0, 0, 0, 0, 0, 1, 0, 0, 0, 0, 0, 0, 0, 1, 0,
    ],
    &[
        0, 0, 0, 20, 11, 0, 0, 0, 0, 0, 0, 0, 1, 0, 0, 0, 0, 0, 0, 0, 1, 0, 0, 0,
    ],
    &[
        0, 0, 0, 17, 12, 0, 0, 0, 0, 0, 0, 0, 1, 0, 0, 0, 0, 0, 0, 0, 1,
    ],
    &[0, 0, 0, 10, 13, 0, 0, 0, 0, 0, 0, 0, 1, 1],
    &[
        0, 0, 0, 17, 14, 0, 0, 0, 0, 0, 0, 0, 1, 0, 0, 0, 0, 0, 0, 0, 1,
    ],
];

fn kind_of(frame: &Frame) -> usize {
    match frame {
        Frame::Forward { .. } => 1,
        Frame::Ack { .. } => 2,
        Frame::Notice { .. } => 3,
        Frame::Submit { .. } => 4,
        Frame::Get { .. } => 5,
        Frame::Rows { .. } => 6,
        Frame::Open { .. } => 7,
        Frame::Close { .. } => 8,
        Frame::Committed { .. } => 9,
        Frame::Value { .. } => 10,
        Frame::RowsAre { .. } => 11,
        Frame::Opened { .. } => 12,
        Frame::Refused { .. } => 13,
        Frame::Closed { .. } => 14,
    }
}

/// The kind of the frame that these bytes are, or 0.
fn kind_read(rt: &impl Abort, alloc: Global, bytes: &[u8]) -> usize {
    match read(alloc, bytes) {
        Ok(Some((frame, _length))) => {
            let kind = kind_of(&frame);
            drop(frame);
            kind
        }
        Ok(None) => 0,
        Err(e) => {
            has_memory(rt, e == FrameError::Memory);
            0
        }
    }
}

#[test]
fn kinds_have_their_numbers(rt: HostRuntime) {
    for (index, bytes) in FRAMES.iter().enumerate() {
        let kind = kind_read(&rt, rt.alloc(), *bytes);
        holds_at(&rt, index, kind == index.saturating_add(1));
    }
}

/// The numbers of the faults.
static FAULT_NUMBERS: [u8; 5] = [
    FrameError::TooLong as u8,
    FrameError::BadKind as u8,
    FrameError::BadField as u8,
    FrameError::Trailing as u8,
    FrameError::Memory as u8,
];

/// The numbers of the refusals.
static REFUSAL_NUMBERS: [u8; 9] = [
    Refusal::NotRunning as u8,
    Refusal::NotHead as u8,
    Refusal::TooOld as u8,
    Refusal::NotCommitted as u8,
    Refusal::NoSuchSnapshot as u8,
    Refusal::TooManySnapshots as u8,
    Refusal::Removed as u8,
    Refusal::Exhausted as u8,
    Refusal::OldRequest as u8,
];

#[test]
fn faults_and_refusals_have_their_numbers(rt: HostRuntime) {
    let are_so = FAULT_NUMBERS == [1, 2, 3, 4, 5];
    is_so(&rt, are_so, "other numbers of faults");
    let are_so = REFUSAL_NUMBERS == [1, 2, 3, 4, 5, 6, 7, 8, 9];
    is_so(&rt, are_so, "other numbers of refusals");
}
