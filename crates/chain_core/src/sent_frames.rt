//! The frames that a step sends.
ghost use Rattle.std.specs.Prelude.{◌≡◌, [], ◌∷◌, ◌++◌, OnErr, OnOk};
ghost use Rattle.chain_core.specs.SentFrames.{frames_held};

use crate::Sent;
use std::alloc::{AllocError, Global};
use std::marker::Model;
use std::ops::DerefSlice;

/// The frames that a step sends, in order. No frames take no memory, and little room in what holds
/// them: most steps of a chain of one node send none.
#[derive(Drop)]
pub struct SentFrames {
    held: Option<Vec<Sent>>,
}

impl Model for SentFrames {
    ghost use Rattle.std.specs.Prelude.{List};
    ghost use Rattle.chain_core.specs.declared.sending.Sent.{Sent};
    ghost use Rattle.chain_core.specs.SentFrames.{frames_held};

    ghost Value = { List Sent };

    ghost view = { λ frames. frames_held frames.held };
}

impl SentFrames {
    /// No frames.
    pub fn new() -> SentFrames
        ensures { result ≡ [] }
    {
        SentFrames { held: None }
    }

    /// Adds a frame behind the others. A refusal changes nothing.
    pub fn push(&mut self, alloc: Global, sent: Sent) -> Result<(), AllocError>
        ensures pushed { OnOk result (self.new ≡ self.old ++ sent ∷ []) }
        ensures refused { OnErr result (self.new ≡ self.old) }
    {
        match &mut self.held {
            Some(frames) => frames.push(sent)?,
            None => {
                let mut frames = Vec::with_capacity(alloc, 1)?;
                frames.push(sent)?;
                self.held = Some(frames);
            }
        }
        Ok(())
    }

    /// The frames, in order.
    pub fn as_slice(&self) -> &[Sent]
        ensures { result.now ≡ self.now }
    {
        match &self.held {
            None => &[],
            Some(frames) => frames.as_slice(),
        }
    }
}

impl DerefSlice for SentFrames {
    type Elem = Sent;

    ghost deref_gives = { λ frames items. items ≡ frames };

    fn deref(&self) -> &[Sent] {
        self.as_slice()
    }
}
