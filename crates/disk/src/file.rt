// A file of a disk in memory that has been synced at least once.
ghost use Rattle.std.specs.Prelude.{◌≡◌, ◌≤◌, ◌+◌, [], ◌∷◌, ◌++◌, length, take, OnOk, OnErr, IfOk};
ghost use Rattle.disk.specs.States.{overwritten};
ghost use Rattle.disk.specs.Crashes.{torn};

use crate::PendingWrite;
use crate::buffer::{Covered, clone_all, covered_by, overwrite, uncover};
use crate::tear::tear;
use std::alloc::{AllocError, Global};
use std::marker::Model;

// The file's bytes are the first `len` of the buffer, which only a sync shortens. Bytes that a
// write overwrites are saved, so that the synced content can be restored without a copy.
#[derive(Drop)]
pub struct MemFile {
    buffer: Vec<u8>,
    len: usize,
    synced_len: usize,
    covered: Vec<Covered>,
    touches: Vec<PendingWrite>,
}

impl Model for MemFile {
    ghost use Rattle.disk.specs.Content.{Content};

    ghost Value = { Content };

    ghost use Rattle.disk.specs.File.{content_of, IsBuffer};

    ghost view = { content_of };

    ghost invariant = { IsBuffer };
}

impl MemFile {
    /// A file that was synced with these bytes.
    pub fn new(alloc: Global, bytes: Vec<u8>) -> MemFile
        ensures { result ≡ record { bytes = bytes.items; kept = bytes.items; touches = [] } }
    {
        let len = bytes.len();
        MemFile {
            buffer: bytes,
            len,
            synced_len: len,
            covered: Vec::new(alloc),
            touches: Vec::new(alloc),
        }
    }

    pub fn clone(&self, alloc: Global) -> Result<MemFile, AllocError>
        ensures { IfOk result (λ file. file ≡ self.now) }
    {
        Ok(MemFile {
            buffer: self.buffer.clone()?,
            len: self.len,
            synced_len: self.synced_len,
            covered: clone_all(alloc, &self.covered)?,
            touches: self.touches.clone()?,
        })
    }

    pub fn bytes(&self) -> &[u8]
        ensures { result.now ≡ self.now.bytes }
    {
        &self.buffer[..self.len]
    }

    /// Overwrites bytes from a place on, and extends the file where they end past its end.
    pub fn write(&mut self, alloc: Global, at: usize, bytes: &[u8]) -> Result<(), AllocError>
        requires { at ≤ length self.old.bytes }
        ensures ok { OnOk result (self.new ≡ record {
          bytes = overwritten self.old.bytes at bytes.now;
          kept = self.old.kept;
          touches = self.old.touches ++ PendingWrite.Wrote at (length bytes.now) ∷ [];
        }) }
        ensures err { OnErr result (self.new ≡ self.old) }
    {
        self.covered.reserve(1)?;
        self.touches.reserve(1)?;
        let covered = covered_by(alloc, &self.buffer, at, bytes.len())?;
        overwrite(&mut self.buffer, at, bytes)?;
        self.covered.push_reserved(covered);
        self.touches.push_reserved(PendingWrite::Wrote {
            at: at as u64,
            len: bytes.len() as u64,
        });
        self.len = self.len.max(at + bytes.len());
        Ok(())
    }

    /// Truncates the file. The buffer stays, since a crash may restore the bytes behind the cut.
    pub fn cut(&mut self, len: usize) -> Result<(), AllocError>
        requires { len ≤ length self.old.bytes }
        ensures ok { OnOk result (self.new ≡ record {
          bytes = take len self.old.bytes;
          kept = self.old.kept;
          touches = self.old.touches ++ PendingWrite.Cut len ∷ [];
        }) }
        ensures err { OnErr result (self.new ≡ self.old) }
    {
        self.touches.push(PendingWrite::Cut { len: len as u64 })?;
        self.len = len;
        Ok(())
    }

    /// Makes the written bytes the synced content. Nothing is copied.
    pub fn sync(&mut self)
        ensures { self.new ≡
            record { bytes = self.old.bytes; kept = self.old.bytes; touches = [] } }
    {
        self.buffer.truncate(self.len);
        self.synced_len = self.len;
        self.covered.clear();
        self.touches.clear();
    }

    /// The synced content.
    pub fn into_kept(self) -> Vec<u8>
        ensures { result.items ≡ self.kept }
    {
        let MemFile {
            mut buffer,
            len: _,
            synced_len,
            mut covered,
            touches: _touches,
        } = self;
        uncover(&mut buffer, &mut covered);
        buffer.truncate(synced_len);
        buffer
    }

    /// The written content.
    pub fn into_bytes(self) -> Vec<u8>
        ensures { result.items ≡ self.bytes }
    {
        let MemFile {
            mut buffer,
            len,
            synced_len: _,
            covered: _covered,
            touches: _touches,
        } = self;
        buffer.truncate(len);
        buffer
    }

    /// The written content, with junk in the unsynced places.
    pub fn into_torn(self, junk: &[u8]) -> Vec<u8>
        ensures { result.items ≡ torn (length self.kept) self.touches junk.now self.bytes }
    {
        let MemFile {
            mut buffer,
            len,
            synced_len,
            covered: _covered,
            touches,
        } = self;
        buffer.truncate(len);
        tear(buffer.as_mut_slice(), synced_len, &touches, junk);
        buffer
    }
}
