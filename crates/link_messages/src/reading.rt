// Each kind of frame, read from its bytes.
ghost use Rattle.link_messages.specs.Reading.{ReadsField, ReadsKind, IsOr, refusal_at};
ghost use Rattle.link_messages.specs.Reading.{forward_at, ack_at, notice_at, submit_at, get_at};
ghost use Rattle.link_messages.specs.Reading.{rows_frame_at, open_at, close_at, committed_at};
ghost use Rattle.link_messages.specs.Reading.{value_at, rows_are_at, opened_at, refused_at};
ghost use Rattle.link_messages.specs.Reading.{closed_at, reader_of, content_at};

use crate::fields::{
    at_of, batch_of, boxed_range_of, config_of, epoch_of, found_of, id_of, key_of, number_of,
    place_of,
};
use crate::numbers::u8_of;
use crate::rows::page_of;
use crate::{Frame, FrameError, Refusal};
use std::alloc::Global;

#[tactic(auto, unfolding(crate::specs::Reading::refusal_at))]
fn refusal_of(bytes: &mut &[u8]) -> Result<Refusal, FrameError>
    ensures { ReadsField result bytes.new.now (refusal_at bytes.old.now) }
{
    match u8_of(bytes)? {
        1 => Ok(Refusal::NotRunning),
        2 => Ok(Refusal::NotHead),
        3 => Ok(Refusal::TooOld),
        4 => Ok(Refusal::NotCommitted),
        5 => Ok(Refusal::NoSuchSnapshot),
        6 => Ok(Refusal::TooManySnapshots),
        7 => Ok(Refusal::Removed),
        8 => Ok(Refusal::Exhausted),
        9 => Ok(Refusal::OldRequest),
        _ => Err(FrameError::BadField),
    }
}

#[tactic(auto, unfolding(crate::specs::Reading::forward_at))]
fn forward_of(alloc: Global, bytes: &mut &[u8]) -> Result<Frame, FrameError>
    ensures { ReadsField result bytes.new.now (forward_at bytes.old.now) }
{
    Ok(Frame::Forward {
        epoch: epoch_of(bytes)?,
        from: id_of(bytes)?,
        number: place_of(bytes)?,
        batch: batch_of(alloc, bytes)?,
    })
}

#[tactic(auto, unfolding(crate::specs::Reading::ack_at))]
fn ack_of(bytes: &mut &[u8]) -> Result<Frame, FrameError>
    ensures { ReadsField result bytes.new.now (ack_at bytes.old.now) }
{
    Ok(Frame::Ack {
        epoch: epoch_of(bytes)?,
        from: id_of(bytes)?,
        committed: number_of(bytes)?,
        have: number_of(bytes)?,
    })
}

#[tactic(auto, unfolding(crate::specs::Reading::notice_at))]
fn notice_of(alloc: Global, bytes: &mut &[u8]) -> Result<Frame, FrameError>
    ensures { ReadsField result bytes.new.now (notice_at bytes.old.now) }
{
    Ok(Frame::Notice {
        epoch: epoch_of(bytes)?,
        config: config_of(alloc, bytes)?,
    })
}

#[tactic(auto, unfolding(crate::specs::Reading::submit_at))]
fn submit_of(alloc: Global, bytes: &mut &[u8]) -> Result<Frame, FrameError>
    ensures { ReadsField result bytes.new.now (submit_at bytes.old.now) }
{
    Ok(Frame::Submit {
        request: number_of(bytes)?,
        batch: batch_of(alloc, bytes)?,
    })
}

#[tactic(auto, unfolding(crate::specs::Reading::get_at))]
fn get_of(alloc: Global, bytes: &mut &[u8]) -> Result<Frame, FrameError>
    ensures { ReadsField result bytes.new.now (get_at bytes.old.now) }
{
    Ok(Frame::Get {
        request: number_of(bytes)?,
        at: at_of(bytes)?,
        key: key_of(alloc, bytes)?,
    })
}

#[tactic(auto, unfolding(crate::specs::Reading::rows_frame_at))]
fn rows_of(alloc: Global, bytes: &mut &[u8]) -> Result<Frame, FrameError>
    ensures { ReadsField result bytes.new.now (rows_frame_at bytes.old.now) }
{
    Ok(Frame::Rows {
        request: number_of(bytes)?,
        at: at_of(bytes)?,
        range: boxed_range_of(alloc, bytes)?,
    })
}

#[tactic(auto, unfolding(crate::specs::Reading::open_at))]
fn open_of(bytes: &mut &[u8]) -> Result<Frame, FrameError>
    ensures { ReadsField result bytes.new.now (open_at bytes.old.now) }
{
    Ok(Frame::Open {
        request: number_of(bytes)?,
        at: at_of(bytes)?,
    })
}

#[tactic(auto, unfolding(crate::specs::Reading::close_at))]
fn close_of(bytes: &mut &[u8]) -> Result<Frame, FrameError>
    ensures { ReadsField result bytes.new.now (close_at bytes.old.now) }
{
    Ok(Frame::Close {
        request: number_of(bytes)?,
        number: number_of(bytes)?,
    })
}

#[tactic(auto, unfolding(crate::specs::Reading::committed_at))]
fn committed_of(bytes: &mut &[u8]) -> Result<Frame, FrameError>
    ensures { ReadsField result bytes.new.now (committed_at bytes.old.now) }
{
    Ok(Frame::Committed {
        request: number_of(bytes)?,
        number: number_of(bytes)?,
    })
}

#[tactic(auto, unfolding(crate::specs::Reading::value_at))]
fn value_of(alloc: Global, bytes: &mut &[u8]) -> Result<Frame, FrameError>
    ensures { ReadsField result bytes.new.now (value_at bytes.old.now) }
{
    Ok(Frame::Value {
        request: number_of(bytes)?,
        number: number_of(bytes)?,
        value: found_of(alloc, bytes)?,
    })
}

#[tactic(auto, unfolding(crate::specs::Reading::rows_are_at))]
fn rows_are_of(alloc: Global, bytes: &mut &[u8]) -> Result<Frame, FrameError>
    ensures { ReadsField result bytes.new.now (rows_are_at bytes.old.now) }
{
    Ok(Frame::RowsAre {
        request: number_of(bytes)?,
        number: number_of(bytes)?,
        page: page_of(alloc, bytes)?,
    })
}

#[tactic(auto, unfolding(crate::specs::Reading::opened_at))]
fn opened_of(bytes: &mut &[u8]) -> Result<Frame, FrameError>
    ensures { ReadsField result bytes.new.now (opened_at bytes.old.now) }
{
    Ok(Frame::Opened {
        request: number_of(bytes)?,
        number: number_of(bytes)?,
    })
}

#[tactic(auto, unfolding(crate::specs::Reading::refused_at))]
fn refused_of(bytes: &mut &[u8]) -> Result<Frame, FrameError>
    ensures { ReadsField result bytes.new.now (refused_at bytes.old.now) }
{
    Ok(Frame::Refused {
        request: number_of(bytes)?,
        refusal: refusal_of(bytes)?,
    })
}

#[tactic(auto, unfolding(crate::specs::Reading::closed_at))]
fn closed_of(bytes: &mut &[u8]) -> Result<Frame, FrameError>
    ensures { ReadsField result bytes.new.now (closed_at bytes.old.now) }
{
    Ok(Frame::Closed {
        request: number_of(bytes)?,
        number: number_of(bytes)?,
    })
}

// Reads the fields of a frame of this kind.
fn frame_of(alloc: Global, kind: u8, bytes: &mut &[u8]) -> Result<Frame, FrameError>
    ensures { ReadsKind result bytes.new.now (reader_of kind) bytes.old.now }
{
    match kind {
        1 => forward_of(alloc, bytes),
        2 => ack_of(bytes),
        3 => notice_of(alloc, bytes),
        4 => submit_of(alloc, bytes),
        5 => get_of(alloc, bytes),
        6 => rows_of(alloc, bytes),
        7 => open_of(bytes),
        8 => close_of(bytes),
        9 => committed_of(bytes),
        10 => value_of(alloc, bytes),
        11 => rows_are_of(alloc, bytes),
        12 => opened_of(bytes),
        13 => refused_of(bytes),
        14 => closed_of(bytes),
        _ => Err(FrameError::BadKind),
    }
}

/// The frame whose content is all of these bytes.
#[tactic(auto, unfolding(crate::specs::Reading::content_at))]
pub fn content_of(alloc: Global, content: &[u8]) -> Result<Frame, FrameError>
    ensures { IsOr result (content_at content.now) }
{
    let [kind, fields @ ..] = content else {
        return Err(FrameError::BadField);
    };
    let mut rest = fields;
    let frame = frame_of(alloc, *kind, &mut rest)?;
    if !rest.is_empty() {
        drop(frame);
        return Err(FrameError::Trailing);
    }
    Ok(frame)
}
