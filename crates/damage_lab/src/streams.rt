// A stream of frames, read in one piece and in many.
use anyhow::{Context, Result, bail};
use link_messages::{Frame, FrameError, FrameReader, read, write};
use std::alloc::{AllocError, Global};
use std::str::Split;

// What was read of a stream: its frames, the bytes that they spell, and the fault behind them.
#[derive(Clone, Copy)]
struct StreamAnswer {
    frames: u64,
    bytes: usize,
    fault: Option<FrameError>,
}

const NOTHING: StreamAnswer = StreamAnswer {
    frames: 0,
    bytes: 0,
    fault: None,
};

impl StreamAnswer {
    // One frame more, by its spelling, which has to be what stands next in the stream.
    fn add(&mut self, stream: &[u8], spelled: &[u8]) -> Result<()> {
        let end = self.bytes.saturating_add(spelled.len());
        let next = stream.get(self.bytes..end).context("a frame too many")?;
        if spelled != next {
            bail!("a frame of other bytes");
        }
        self.frames = self.frames.saturating_add(1);
        self.bytes = end;
        Ok(())
    }

    // Whether a fault of the stream that was read stays, with what was read next.
    fn stays(&self, next: &Result<Option<Vec<u8>>, FrameError>) -> bool {
        match (self.fault, next) {
            (None | Some(FrameError::Memory), _) => true,
            (Some(fault), Err(again)) => fault == *again,
            (Some(_), Ok(_)) => false,
        }
    }

    // What was read next: a frame, by its spelling, an incomplete one, or a fault. Whether it was a
    // frame.
    fn note(&mut self, stream: &[u8], next: Result<Option<Vec<u8>>, FrameError>) -> Result<bool> {
        if !self.stays(&next) {
            bail!("a fault that did not stay");
        }
        match next {
            Ok(Some(spelled)) => {
                let added = self.add(stream, &spelled);
                drop(spelled);
                added?;
                Ok(true)
            }
            Ok(None) => Ok(false),
            Err(fault) => {
                self.fault = Some(fault);
                Ok(false)
            }
        }
    }

    // How many frames and bytes, and the fault.
    fn put(&self, text: &mut String) -> Result<(), AllocError> {
        write!(text, "{} {} ", self.frames, self.bytes)?;
        text.push_str(match self.fault {
            None => "none",
            Some(FrameError::TooLong) => "TooLong",
            Some(FrameError::BadKind) => "BadKind",
            Some(FrameError::BadField) => "BadField",
            Some(FrameError::Trailing) => "Trailing",
            Some(FrameError::Memory) => "Memory",
        })
    }
}

// The spelling of a frame, if there is one.
fn spelled(alloc: Global, frame: Option<Frame>) -> Result<Option<Vec<u8>>, FrameError> {
    let Some(frame) = frame else {
        return Ok(None);
    };
    let bytes = write(alloc, &frame);
    drop(frame);
    Ok(Some(bytes?))
}

// The spelling of the first frame of these bytes, if they begin with one.
fn first(alloc: Global, bytes: &[u8]) -> Result<Option<Vec<u8>>, FrameError> {
    match read(alloc, bytes)? {
        Some((frame, _length)) => spelled(alloc, Some(frame)),
        None => Ok(None),
    }
}

// The spelling of the reader's next frame, if it has one.
fn next_of(alloc: Global, reader: &mut FrameReader) -> Result<Option<Vec<u8>>, FrameError> {
    spelled(alloc, reader.next()?)
}

// What is read of a stream that is there at once.
fn at_once(alloc: Global, stream: &[u8]) -> Result<StreamAnswer> {
    let mut found = NOTHING;
    for _ in 0..stream.len().saturating_add(1) {
        let rest = stream.get(found.bytes..).unwrap_or_default();
        if !found.note(stream, first(alloc, rest))? {
            break;
        }
    }
    Ok(found)
}

// Reads the frames that the reader has with a piece more, up to the first that is incomplete or
// faulty.
fn read_piece(
    alloc: Global,
    reader: &mut FrameReader,
    piece: &[u8],
    stream: &[u8],
    found: &mut StreamAnswer,
) -> Result<()> {
    reader.feed(piece)?;
    for _ in 0..stream.len().saturating_add(1) {
        if !found.note(stream, next_of(alloc, reader))? {
            break;
        }
    }
    Ok(())
}

// What a reader reads of a stream that comes in pieces of these sizes, and last what is left.
fn read_pieces(
    alloc: Global,
    reader: &mut FrameReader,
    stream: &[u8],
    sizes: &[usize],
) -> Result<StreamAnswer> {
    let (mut found, mut rest) = (NOTHING, stream);
    for size in sizes {
        let (piece, behind) = rest.split_at((*size).min(rest.len()));
        rest = behind;
        read_piece(alloc, reader, piece, stream, &mut found)?;
    }
    read_piece(alloc, reader, rest, stream, &mut found)?;
    Ok(found)
}

// What is read of a stream in pieces. A fault has to stay.
fn in_pieces(alloc: Global, stream: &[u8], sizes: &[usize]) -> Result<StreamAnswer> {
    let mut reader = FrameReader::new(alloc);
    let found = read_pieces(alloc, &mut reader, stream, sizes);
    drop(reader);
    found
}

// The sizes that words spell.
fn sizes_of(alloc: Global, words: Split<'_, char>) -> Result<Vec<usize>> {
    let mut sizes = Vec::new(alloc);
    for word in words {
        sizes.push(word.parse::<usize>()?)?;
    }
    Ok(sizes)
}

// Puts what is read of the stream at once, and what in pieces of these sizes.
fn put_both(alloc: Global, text: &mut String, stream: &[u8], sizes: &[usize]) -> Result<()> {
    at_once(alloc, stream)?.put(text)?;
    text.push_str(" / ")?;
    in_pieces(alloc, stream, sizes)?.put(text)?;
    Ok(())
}

/// Of the stream that the first word spells in hexadecimal, puts what is read at once, and what in
/// pieces of the sizes that the other words are.
pub fn put_answer(alloc: Global, text: &mut String, mut words: Split<'_, char>) -> Result<()> {
    let stream = words.next().context("no stream")?;
    let sizes = sizes_of(alloc, words)?;
    let stream = hex::decode(alloc, stream.as_bytes())?;
    put_both(alloc, text, &stream, &sizes)
}
