// A reader that fails, never ends or is slow, and a writer that is full, is slow, or keeps what it
// gets until it is flushed. Each is one type, since the program is linked once for each type.
ghost use Rattle.std.specs.Prelude.{◌≤◌, IfOk, length};

use std::alloc::Global;
use std::io::{self, ErrorKind, Read, Write};

/// What a reader does behind its bytes, or with them.
#[derive(Drop)]
pub enum Source<'a> {
    /// Gives these bytes.
    Sound(&'a [u8]),
    /// Gives these bytes, and then fails in this way.
    Broken(&'a [u8], ErrorKind),
    /// Gives this byte for ever, and counts how many it gave.
    Endless(u8, usize),
    /// Gives one byte at each second call, and is interrupted at the others: also at the next one
    /// unless it is ready.
    Slow(&'a [u8], bool),
}

impl Read for Source<'_> {
    fn read(&mut self, buf: &mut [u8]) -> io::Result<usize> {
        match self {
            Source::Sound(bytes) => bytes.read(buf),
            Source::Broken(bytes, kind) => {
                if bytes.is_empty() {
                    return Err(io::Error::from(*kind));
                }
                bytes.read(buf)
            }
            Source::Endless(byte, given) => {
                buf.fill(*byte);
                *given = given.saturating_add(buf.len());
                Ok(buf.len())
            }
            Source::Slow(bytes, is_ready) => {
                *is_ready = !*is_ready;
                if *is_ready {
                    return Err(io::Error::from(ErrorKind::Interrupted));
                }
                let count = buf.len().min(1);
                bytes.read(&mut buf[..count])
            }
        }
    }
}

/// How a writer takes bytes.
#[derive(Clone, Copy)]
pub enum Way {
    /// All of them.
    All,
    /// So many more, and then it fails.
    Room(usize),
    /// All, but only so many more of them when it is flushed, which then fails.
    AtFlush(usize),
    /// One byte at each second call, and it is interrupted at the others: also at the next one
    /// unless it is ready.
    Slow(bool),
}

/// A writer. It has what it took, what it keeps for a flush, and how much it had taken at each.
#[derive(Drop)]
pub struct Output {
    pub taken: Vec<u8>,
    pub flushes: Vec<usize>,
    kept: Vec<u8>,
    way: Way,
}

impl Output {
    pub fn new(alloc: Global, way: Way) -> Output {
        let (taken, kept) = (Vec::new(alloc), Vec::new(alloc));
        let flushes = Vec::new(alloc);
        Output {
            taken,
            flushes,
            kept,
            way,
        }
    }

    // Takes the first bytes, as many as there is room for.
    fn take(&mut self, buf: &[u8], room: usize) -> io::Result<usize>
        ensures { IfOk result (λ count. count ≤ length buf.now) }
    {
        let count = buf.len().min(room);
        self.taken.extend_from_slice(&buf[..count])?;
        Ok(count)
    }
}

impl Write for Output {
    fn write(&mut self, buf: &[u8]) -> io::Result<usize> {
        match self.way {
            Way::All => self.take(buf, buf.len()),
            Way::Room(0) => Err(io::Error::from(ErrorKind::StorageFull)),
            Way::Room(room) => {
                self.way = Way::Room(room.saturating_sub(buf.len()));
                self.take(buf, room)
            }
            Way::AtFlush(_) => {
                self.kept.extend_from_slice(buf)?;
                Ok(buf.len())
            }
            Way::Slow(is_ready) => {
                self.way = Way::Slow(!is_ready);
                if !is_ready {
                    return Err(io::Error::from(ErrorKind::Interrupted));
                }
                self.take(buf, 1)
            }
        }
    }

    fn flush(&mut self) -> io::Result<()> {
        if let Way::AtFlush(room) = self.way {
            let count = self.kept.len().min(room);
            self.taken.extend_from_slice(&self.kept[..count])?;
            if count < self.kept.len() {
                return Err(io::Error::from(ErrorKind::StorageFull));
            }
            self.way = Way::AtFlush(room.saturating_sub(count));
            self.kept.clear();
        }
        self.flushes.push(self.taken.len())?;
        Ok(())
    }
}
