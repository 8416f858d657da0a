// The slot of a disk in memory under one file number.
ghost use Rattle.std.specs.Prelude.{◌≡◌, ◌≤◌, length, None, option_map};
ghost use Rattle.std.specs.Prelude.{OnOk, OnErr, IfOk, IsSomeAnd};
ghost use Rattle.disk.specs.States.{Fresh, seen, written, cut_to, synced, removed};
ghost use Rattle.disk.specs.Calls.{CanBegin};
ghost use Rattle.disk.specs.Crashes.{crash_outcome, crashed};
ghost use Rattle.disk.specs.Held.{slot_of};

use crate::buffer::overwrite;
use crate::file::MemFile;
use crate::tear::tear;
use crate::{Junk, PendingWrite};
use std::alloc::{AllocError, Global};
use std::marker::Model;
use std::mem;

#[derive(Drop)]
pub struct MemSlot {
    held: Held,
}

#[derive(Drop)]
pub enum Held {
    Absent(Option<Vec<u8>>),
    Fresh(Vec<u8>, Option<Vec<u8>>),
    Kept(MemFile),
}

impl Model for MemSlot {
    ghost use Rattle.disk.specs.States.{Slot};

    ghost Value = { Slot };

    ghost use Rattle.disk.specs.Held.{slot_of};

    ghost view = { λ a. slot_of a.held };
}

impl MemSlot {
    pub fn bytes(&self) -> Option<&[u8]>
        ensures { option_map (λ b. b.now) result ≡ seen self.now }
    {
        match &self.held {
            Held::Absent(_) => None,
            Held::Fresh(bytes, _) => Some(bytes),
            Held::Kept(file) => Some(file.bytes()),
        }
    }

    /// A file that has not been synced, under a number without an earlier file.
    pub fn fresh(bytes: Vec<u8>) -> MemSlot
        ensures { result ≡ Fresh bytes.items None }
    {
        MemSlot {
            held: Held::Fresh(bytes, None),
        }
    }

    pub fn clone(&self, alloc: Global) -> Result<MemSlot, AllocError>
        ensures { IfOk result (λ slot. slot ≡ self.now) }
    {
        let held = match &self.held {
            Held::Absent(back) => Held::Absent(clone_back(back)?),
            Held::Fresh(bytes, back) => Held::Fresh(bytes.clone()?, clone_back(back)?),
            Held::Kept(file) => Held::Kept(file.clone(alloc)?),
        };
        Ok(MemSlot { held })
    }

    pub fn write(&mut self, alloc: Global, at: usize, bytes: &[u8]) -> Result<(), AllocError>
        requires { CanBegin (seen self.old) at }
        ensures ok { OnOk result (self.new ≡ written at bytes.now self.old) }
        ensures err { OnErr result (self.new ≡ self.old) }
    {
        match &mut self.held {
            Held::Absent(back) => {
                let made = Vec::from_slice(alloc, bytes)?;
                let back = back.take();
                self.held = Held::Fresh(made, back);
                Ok(())
            }
            Held::Fresh(old, _) => overwrite(old, at, bytes),
            Held::Kept(file) => file.write(alloc, at, bytes),
        }
    }

    pub fn cut(&mut self, len: usize) -> Result<(), AllocError>
        requires { IsSomeAnd (seen self.old) (λ bytes. len ≤ length bytes) }
        ensures ok { OnOk result (self.new ≡ cut_to len self.old) }
        ensures err { OnErr result (self.new ≡ self.old) }
    {
        match &mut self.held {
            Held::Absent(_) => Ok(()),
            Held::Fresh(old, _) => {
                old.truncate(len);
                Ok(())
            }
            Held::Kept(file) => file.cut(len),
        }
    }

    pub fn sync(&mut self, alloc: Global)
        ensures { self.new ≡ synced self.old }
    {
        if let Held::Kept(file) = &mut self.held {
            file.sync();
            return;
        }
        let old = mem::replace(&mut self.held, Held::Absent(None));
        self.held = match old {
            Held::Fresh(bytes, _back) => Held::Kept(MemFile::new(alloc, bytes)),
            other => other,
        };
    }

    pub fn remove(&mut self)
        ensures { self.new ≡ removed self.old }
    {
        let old = mem::replace(&mut self.held, Held::Absent(None));
        self.held = match old {
            Held::Absent(back) => Held::Absent(back),
            Held::Fresh(_bytes, back) => Held::Absent(back),
            Held::Kept(file) => Held::Absent(Some(file.into_kept())),
        };
    }

    /// Replaces the slot by the crash outcome of this junk.
    pub fn crash(&mut self, alloc: Global, junk: &Junk)
        ensures { self.new ≡ crashed junk.now self.old }
    {
        let old = mem::replace(&mut self.held, Held::Absent(None));
        let left = match junk {
            Junk::Old => left_old(old),
            Junk::New => left_new(old),
            Junk::Bytes(bytes) => left_torn(old, bytes.as_slice()),
        };
        self.held = match left {
            None => Held::Absent(None),
            Some(bytes) => Held::Kept(MemFile::new(alloc, bytes)),
        };
    }
}

fn clone_back(back: &Option<Vec<u8>>) -> Result<Option<Vec<u8>>, AllocError>
    ensures { IfOk result (λ copy.
        option_map (λ b. b.items) copy ≡ option_map (λ b. b.items) back.now) }
{
    match back {
        None => Ok(None),
        Some(bytes) => Ok(Some(bytes.clone()?)),
    }
}

// The content of the last sync.
fn left_old(held: Held) -> Option<Vec<u8>>
    ensures { option_map (λ bytes. bytes.items) result ≡ crash_outcome Junk.Old (slot_of held) }
{
    match held {
        Held::Absent(back) => back,
        Held::Fresh(_bytes, back) => back,
        Held::Kept(file) => Some(file.into_kept()),
    }
}

// The written content.
fn left_new(held: Held) -> Option<Vec<u8>>
    ensures { option_map (λ bytes. bytes.items) result ≡ crash_outcome Junk.New (slot_of held) }
{
    match held {
        Held::Absent(_back) => None,
        Held::Fresh(bytes, _back) => Some(bytes),
        Held::Kept(file) => Some(file.into_bytes()),
    }
}

// The written content, with junk in the unsynced places.
fn left_torn(held: Held, junk: &[u8]) -> Option<Vec<u8>>
    ensures { option_map (λ bytes. bytes.items) result ≡
        crash_outcome (Junk.Bytes junk.now) (slot_of held) }
{
    match held {
        Held::Absent(_back) => None,
        Held::Fresh(mut bytes, _back) => {
            tear(
                bytes.as_mut_slice(),
                0,
                &[PendingWrite::Cut { len: 0 }],
                junk,
            );
            Some(bytes)
        }
        Held::Kept(file) => Some(file.into_torn(junk)),
    }
}
