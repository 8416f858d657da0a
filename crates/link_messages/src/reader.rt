// The reader of a stream of frames, fed in pieces of any length.
ghost use Rattle.std.specs.Prelude.{◌≡◌, ◌≤◌, ◌++◌, [], length, OnOk, OnErr, IfOk, IfSome};
ghost use Rattle.link_messages.specs.Reading.{frame_found, bytes_left};
ghost use Rattle.link_messages.specs.Stream.{NextOutcome};

use crate::reading::content_of;
use crate::{Frame, FrameError, MAX_FRAME};
use byteorder::{BigEndian, ByteOrder};
use bytes::BytesMut;
use configurations::laws::test_decides_config;
use std::alloc::{AllocError, Global};
use std::marker::Model;

/// A reader that accepts bytes in any pieces, and returns the frames that they spell.
#[derive(Drop)]
pub struct FrameReader {
    buffer: BytesMut,
}

impl Model for FrameReader {
    ghost use Rattle.std.specs.Prelude.{List, ℕ};

    ghost Value = { List ℕ };

    ghost view = { λ reader. reader.buffer.items };
}

/// The frame at the front of the bytes, and how many bytes spell it. `None` while it is incomplete
/// and has no fault yet.
pub fn read(alloc: Global, bytes: &[u8]) -> Result<Option<(Frame, usize)>, FrameError>
    ensures answer { NextOutcome (frame_found result) bytes.now (bytes_left result bytes.now) }
    ensures len { IfOk result (λ front. IfSome front (λ x. x.1 ≤ length bytes.now)) }
{
    test_decides_config(); // law: the test succeeds exactly for the configurations
    if bytes.len() < 4 {
        return Ok(None);
    }
    let (field, rest) = bytes.split_at(4);
    let len = BigEndian::read_u32(field) as usize;
    if len > MAX_FRAME {
        return Err(FrameError::TooLong);
    }
    if len == 0 {
        return Err(FrameError::BadField);
    }
    if rest.len() < len {
        return Ok(None);
    }
    let frame = content_of(alloc, &rest[..len])?;
    Ok(Some((frame, 4 + len)))
}

impl FrameReader {
    /// A reader that holds no bytes.
    pub fn new(alloc: Global) -> FrameReader
        ensures { result ≡ [] }
    {
        FrameReader {
            buffer: BytesMut::new(alloc),
        }
    }

    /// Accepts the next piece of the stream.
    pub fn feed(&mut self, piece: &[u8]) -> Result<(), AllocError>
        ensures ok { OnOk result (self.new ≡ self.old ++ piece.now) }
        ensures err { OnErr result (self.new ≡ self.old) }
    {
        self.buffer.extend_from_slice(piece)
    }

    /// The next frame, or `None` if its bytes are incomplete and have no error so far.
    pub fn next(&mut self) -> Result<Option<Frame>, FrameError>
        ensures { NextOutcome result self.old self.new }
    {
        let alloc = *self.buffer.allocator();
        match read(alloc, self.buffer.as_slice())? {
            Some((frame, len)) => {
                self.buffer.advance(len);
                Ok(Some(frame))
            }
            None => Ok(None),
        }
    }
}
