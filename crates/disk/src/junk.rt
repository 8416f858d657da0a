// The choice among the allowed outcomes of a crash.
ghost use Rattle.std.specs.Prelude.{◌≡◌, IfOk};

use std::alloc::AllocError;
use std::marker::Model;

/// The bytes that a crash writes to the unsynced places, in order and repeated.
#[derive(Debug, Drop)]
pub struct JunkBytes {
    bytes: Vec<u8>,
}

impl Model for JunkBytes {
    ghost use Rattle.std.specs.Prelude.{ℕ, List};

    ghost Value = { List ℕ };

    ghost view = { λ junk. junk.bytes.items };
}

impl JunkBytes {
    /// The junk of these bytes.
    pub fn new(bytes: Vec<u8>) -> JunkBytes
        ensures { result ≡ bytes.items }
    {
        JunkBytes { bytes }
    }

    /// The bytes, in order.
    pub fn as_slice(&self) -> &[u8]
        ensures { result.now ≡ self.now }
    {
        &self.bytes
    }

    pub fn clone(&self) -> Result<JunkBytes, AllocError>
        ensures { IfOk result (λ junk. junk ≡ self.now) }
    {
        Ok(JunkBytes {
            bytes: self.bytes.clone()?,
        })
    }
}

/// The choice among the allowed outcomes of a crash.
#[derive(Debug, Drop)]
pub enum Junk {
    /// Each file has its synced content, and removed files reappear.
    Old,
    /// Each file has its written content, and removed files are gone.
    New,
    /// Each file has its written content, with these bytes in its unsynced places.
    Bytes(JunkBytes),
}

impl Junk {
    pub fn clone(&self) -> Result<Junk, AllocError>
        ensures { IfOk result (λ junk. junk ≡ self.now) }
    {
        match self {
            Junk::Old => Ok(Junk::Old),
            Junk::New => Ok(Junk::New),
            Junk::Bytes(bytes) => Ok(Junk::Bytes(bytes.clone()?)),
        }
    }
}
