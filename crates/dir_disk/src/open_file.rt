// One file that is open. No call here makes more than two system calls, as long as the system
// reads and writes at once what it is asked for.
ghost use Rattle.std.specs.Prelude.{◌≡◌, ◌+◌, ◌<◌, ◌≤◌, ◌^◌, IfErr, IfSome, IsErrOf, Ok, max};
ghost use Rattle.std.specs.Prelude.{IsSomeAnd, MatchResult, None, OnOk, Some, length};
ghost use Rattle.disk.specs.Calls.{EndsOutOfRange};

use crate::answers::{done, reading_of};
use disk::{DiskError, ends_out_of_range};
use std::fs::File;
use std::os::unix::fs::FileExt;

/// A file that is open, and its length where that is known: this disk alone writes to it.
#[derive(Drop)]
pub struct OpenFile {
    number: u64,
    file: File,
    len: Option<u64>,
}

impl OpenFile {
    pub fn new(number: u64, file: File, len: u64) -> OpenFile
        ensures { (result.number ≡ number) × (result.len ≡ Some len) }
    {
        OpenFile {
            number,
            file,
            len: Some(len),
        }
    }

    pub fn number(&self) -> u64
        ensures { result ≡ self.now.number }
    {
        self.number
    }

    /// How long the file is, as the system says now.
    pub fn length(&mut self) -> Result<u64, DiskError>
        ensures same { self.new.number ≡ self.old.number }
        ensures known { MatchResult result (λ len. self.new.len ≡ Some len)
            (λ e. (e ≡ DiskError.Failed) × (self.new.len ≡ self.old.len)) }
    {
        match self.file.metadata() {
            Ok(metadata) => {
                self.len = Some(metadata.len());
                Ok(metadata.len())
            }
            Err(_) => Err(DiskError::Failed),
        }
    }

    // The length that is known, or else what the system says.
    fn known_length(&mut self) -> Result<u64, DiskError>
        ensures same { self.new.number ≡ self.old.number }
        ensures known { MatchResult result (λ len. self.new.len ≡ Some len)
            (λ e. (e ≡ DiskError.Failed) × (self.new.len ≡ None)) }
        ensures kept { IfSome self.old.len (λ len. result ≡ Ok len) }
    {
        match self.len {
            Some(len) => Ok(len),
            None => self.length(),
        }
    }

    /// Fills the buffer with the bytes from a place on.
    pub fn read(&mut self, at: u64, into: &mut [u8]) -> Result<(), DiskError>
        ensures same { self.new.number ≡ self.old.number }
        ensures short { EndsOutOfRange at (length into.old) → IsErrOf result DiskError.Short }
    {
        if ends_out_of_range(at, into.len()) {
            return Err(DiskError::Short);
        }
        if into.is_empty() && at > self.length()? {
            return Err(DiskError::Short);
        }
        reading_of(self.file.read_exact_at(into, at))
    }

    /// Writes bytes from a place on, which is not behind the end.
    pub fn write(&mut self, at: u64, bytes: &[u8]) -> Result<(), DiskError>
        ensures same { self.new.number ≡ self.old.number }
        ensures known { at + length bytes.now < 2 ^ 64 →
            OnOk result (IsSomeAnd self.new.len (λ len. at + length bytes.now ≤ len)) }
        ensures short { IsErrOf result DiskError.Short → IsSomeAnd self.new.len (λ len. len < at) }
        ensures behind { IfSome self.old.len (λ len. len < at → IsErrOf result DiskError.Short) }
        ensures first { at ≡ 0 → IfErr result (λ e. e ≡ DiskError.Failed) }
        ensures exact { at + length bytes.now < 2 ^ 64 → OnOk result (IfSome self.old.len
            (λ len. self.new.len ≡ Some (max len (at + length bytes.now)))) }
        ensures failed { IsErrOf result DiskError.Failed → self.new.len ≡ None }
    {
        let len = self.known_length()?;
        if at > len {
            return Err(DiskError::Short);
        }
        // A write that fails may have written a part.
        self.len = None;
        done(self.file.write_all_at(bytes, at))?;
        self.len = Some(len.max(at.saturating_add(bytes.len() as u64)));
        Ok(())
    }

    /// Cuts the file to a length, which is not behind the end.
    pub fn cut(&mut self, length: u64) -> Result<(), DiskError>
        ensures same { self.new.number ≡ self.old.number }
        ensures known { OnOk result (self.new.len ≡ Some length) }
        ensures short { IsErrOf result DiskError.Short →
            IsSomeAnd self.new.len (λ len. len < length) }
        ensures behind { IfSome self.old.len
            (λ len. len < length → IsErrOf result DiskError.Short) }
        ensures failed { IsErrOf result DiskError.Failed → self.new.len ≡ None }
    {
        if length > self.known_length()? {
            return Err(DiskError::Short);
        }
        self.len = None;
        done(self.file.set_len(length))?;
        self.len = Some(length);
        Ok(())
    }

    /// Asks the system to make the bytes durable, and the length with them.
    pub fn sync(&self) -> Result<(), DiskError>
        ensures { IfErr result (λ e. e ≡ DiskError.Failed) }
    {
        done(self.file.sync_data())
    }
}
