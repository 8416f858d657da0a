// Frames that are sent by a carrier, and what arrives of them.
ghost use Rattle.std.specs.Prelude.{◌≡◌, ◌≢◌, ◌↔◌, IfOk, MatchResult};
ghost use Rattle.link_messages.specs.{frame_bytes};
ghost use Rattle.carriers.specs.Carriers.{IsReadFrom, IsReceived, IsReceivedOf};
ghost use Rattle.carriers.specs.Carrying.{HasCarriedOne};

use crate::{Carried, Carrier, LabError, Peer};
use link_messages::laws::one_answer;
use link_messages::{Frame, FrameError, read, write};
use std::alloc::Global;

/// What arrived of a frame.
#[derive(Drop)]
pub enum Received {
    Frame(Frame),
    /// Bytes that are not exactly one frame.
    Unreadable,
    Lost,
}

// Bytes with this error are no frame, but where there was no memory to read them.
fn unread(e: FrameError) -> Result<Received, LabError>
    ensures { MatchResult result (λ it. (it ≡ Received.Unreadable) × (e ≢ FrameError.Memory))
        (λ _. e ≡ FrameError.Memory) }
{
    match e {
        FrameError::Memory => Err(LabError::Memory),
        FrameError::TooLong | FrameError::BadKind | FrameError::BadField | FrameError::Trailing =>
            Ok(Received::Unreadable),
    }
}

// What the bytes are: a frame, if they are exactly one.
fn read_frame(alloc: Global, bytes: &[u8]) -> Result<Received, LabError>
    ensures { IfOk result (IsReadFrom bytes.now) }
{
    one_answer(); // law: the same bytes have one answer
    let (frame, len) = match read(alloc, bytes) {
        Ok(Some(found)) => found,
        Ok(None) => return Ok(Received::Unreadable),
        Err(e) => return unread(e),
    };
    if len < bytes.len() {
        return Ok(Received::Unreadable);
    }
    Ok(Received::Frame(frame))
}

/// Sends the bytes of a frame: what arrives of it. What arrives is read.
#[inline(always)]
pub fn send_bytes<C: Carrier>(
    alloc: Global,
    carrier: &mut C,
    from: Peer,
    to: Peer,
    bytes: &[u8],
) -> Result<Received, LabError>
    ensures faithful { C.is_faithful carrier.new ↔ C.is_faithful carrier.old }
    ensures received { IfOk result (λ it. HasCarriedOne C.Carrier carrier.old carrier.new from to
        bytes.now (λ got. IsReceived got it)) }
{
    match carrier.carry(alloc, from, to, bytes)? {
        Carried::Lost => Ok(Received::Lost),
        Carried::Same => read_frame(alloc, bytes),
        Carried::Bytes(got) => read_frame(alloc, &got),
    }
}

/// Sends a frame: what arrives of it. Bytes that arrive as they were sent are not read again, and a
/// direct carrier needs none.
#[inline(always)]
pub fn send<C: Carrier>(
    alloc: Global,
    carrier: &mut C,
    from: Peer,
    to: Peer,
    frame: Frame,
) -> Result<Received, LabError>
    ensures faithful { C.is_faithful carrier.new ↔ C.is_faithful carrier.old }
    ensures received { IfOk result (λ it. HasCarriedOne C.Carrier carrier.old carrier.new from to
        (frame_bytes frame) (λ got. IsReceivedOf frame got it)) }
{
    if carrier.is_direct() {
        return Ok(Received::Frame(frame));
    }
    let bytes = write(alloc, &frame)?;
    let got = match carrier.carry(alloc, from, to, &bytes)? {
        Carried::Lost => return Ok(Received::Lost),
        Carried::Same => return Ok(Received::Frame(frame)),
        Carried::Bytes(got) => got,
    };
    if got.as_slice() == bytes.as_slice() {
        return Ok(Received::Frame(frame));
    }
    read_frame(alloc, &got)
}
