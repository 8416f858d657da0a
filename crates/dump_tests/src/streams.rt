// A writer that may be full, and has how much it had taken at each flush.
use std::alloc::Global;
use std::io::{self, ErrorKind, Write};

/// How a writer takes bytes.
#[derive(Clone, Copy)]
pub enum Way {
    /// All of them.
    All,
    /// So many more, and then it fails.
    Room(usize),
}

/// A writer.
#[derive(Drop)]
pub struct Output {
    pub taken: Vec<u8>,
    pub flushes: Vec<usize>,
    way: Way,
}

impl Output {
    pub fn new(alloc: Global, way: Way) -> Output {
        let (taken, flushes) = (Vec::new(alloc), Vec::new(alloc));
        Output {
            taken,
            flushes,
            way,
        }
    }
}

impl Write for Output {
    fn write(&mut self, buf: &[u8]) -> io::Result<usize> {
        let mut count = buf.len();
        if let Way::Room(room) = self.way {
            if room == 0 {
                return Err(io::Error::from(ErrorKind::StorageFull));
            }
            count = count.min(room);
            self.way = Way::Room(room.saturating_sub(count));
        }
        self.taken.extend_from_slice(&buf[..count])?;
        Ok(count)
    }

    fn flush(&mut self) -> io::Result<()> {
        self.flushes.push(self.taken.len())?;
        Ok(())
    }
}
