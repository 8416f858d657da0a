// The two slots of a store, as files of records.
ghost use Rattle.std.specs.Prelude.{◌≡◌, ◌↔◌, IsErrOf, ℕ, ◌+◌, ◌<◌, ◌≤◌, ◌^◌, List, [], ◌∷◌};
ghost use Rattle.std.specs.Prelude.{◌++◌, IsTrue, length};
ghost use Rattle.std.specs.Prelude.{IfOk, IfErr, OnOk, MatchResult};
ghost use Rattle.std.specs.Int.{w16, w32, w64, to_be_bytes};
ghost use Rattle.kv_types.specs.declared.bounds.TheConstants.{MAX_NUMBER};
ghost use Rattle.disk.specs.declared.DiskError.TheVariants.{Failed};
ghost use Rattle.disk.specs.{IsEnvironmental, IsSameBut, KeepsDisk, State};
ghost use Rattle.record_log.specs.declared.LogError.TheVariants.{Disk, Memory};
ghost use Rattle.record_log.specs.declared.log.TheConstants.{MAX_RECORD};
ghost use Rattle.disk.specs.{MakesCalls};
ghost use Rattle.record_log.specs.{HasNoRoom, IsArgumentError};
ghost use Rattle.byte_fields.specs.declared.format.Format.{Format};
ghost use Rattle.byte_fields.specs.declared.format.Format.TheVariants.{Two};
ghost use Rattle.record_log.specs.{IsExpected, file_of, gate_of};
ghost use Rattle.manifest.specs.Changes.{ChangesSlots, IfNoSlots, IfSlotsHold, RewritesSlots};
ghost use Rattle.manifest.specs.Slots.{other_slot};
ghost use Rattle.manifest.specs.Holds.{AreNewSlots, IsLongLog, SlotsHold, SparesOthers};
ghost use Rattle.manifest.specs.Holds.{closed_slot};
ghost use Rattle.manifest.specs.Opening.{slots_of};
ghost use Rattle.manifest.specs.Replace.{closing_calls};

use crate::head::CountingSlot;
use crate::replace::replace;
use byte_fields::{put_u32, put_u64};
use disk::Disk;
use record_log::{Log, LogError, first_lengths_are, gates_are_in_files, write_gated};
use std::alloc::{AllocError, Global};

/// The two slots of a store: one counts, and its log has records.
#[derive(Drop)]
pub struct SlotPair {
    slot: u64,
    generation: u64,
    id: u16,
    // The other slot's gate is open.
    other_is_open: bool,
    log: Log,
}

/// The place where a slot's log begins.
pub const HEAD_LENGTH: u64 = 13;

/// The place where it began in format 1.
pub const OLD_HEAD_LENGTH: u64 = 11;

/// How much longer than twice its first record a slot is before a rewrite is due, in bytes.
pub const REWRITE_SLACK: u64 = 65_536;

// What stands where format 1 has the node's id, which is never 0.
const NO_OLD_ID: u16 = 0;

// A closed gate, the generation, 0 in the place of format 1's id, and the node's id.
fn put_head(out: &mut Vec<u8>, generation: u64, id: u16) -> Result<(), AllocError>
    ensures { OnOk result (out.new.items ≡ out.old.items ++ 0 ∷ to_be_bytes w64 generation
        ++ to_be_bytes w16 0 ++ to_be_bytes w16 id) }
{
    out.push(0)?;
    put_u64(out, generation)?;
    out.extend_from_slice(&NO_OLD_ID.to_be_bytes())?;
    out.extend_from_slice(&id.to_be_bytes())
}

// A record behind an open gate, and a closed gate.
fn put_record(out: &mut Vec<u8>, one: &[u8]) -> Result<(), AllocError>
    requires { length one.now < 2 ^ 32 }
    ensures { OnOk result (out.new.items ≡
        out.old.items ++ 1 ∷ to_be_bytes w32 (length one.now) ++ one.now ++ 0 ∷ []) }
{
    out.push(1)?;
    put_u32(out, one.len() as u32)?;
    out.extend_from_slice(one)?;
    out.push(0)?;
    Ok(())
}

// The bytes of a slot with one record, whose gate is closed.
fn bytes_of_slot(alloc: Global, generation: u64, id: u16, one: &[u8]) -> Result<Vec<u8>, AllocError>
    requires { length one.now < 2 ^ 32 }
    ensures { IfOk result (λ v. v.items ≡ closed_slot generation id one.now) }
{
    let mut out = Vec::with_capacity(alloc, one.len() + 19)?;
    put_head(&mut out, generation, id)?;
    put_record(&mut out, one)?;
    Ok(out)
}

impl SlotPair {
    /// The slots of a new store: the first counts, with one record. Six device calls.
    pub fn create<D: Disk>(
        alloc: Global,
        disk: &mut D,
        id: u16,
        one: &[u8],
    ) -> Result<SlotPair, LogError>
        requires short { length one.now ≤ MAX_RECORD }
        ensures kept { KeepsDisk D.Disk disk.old disk.new
            (IsErrOf result (Disk Failed)) ⊥ SparesOthers }
        ensures created { IfNoSlots D.Disk disk.old (MatchResult result
            (AreNewSlots (D.state disk.new) id one.now) (IsEnvironmental (Disk Failed) Memory)) }
        ensures first { IfOk result (λ slots. slots.generation ≡ 1) }
        ensures causes { IfErr result (λ e. IsArgumentError e → ⊥) }
        ensures calls { MakesCalls D.Disk 6 disk.old disk.new result }
    {
        let closed = bytes_of_slot(alloc, 1, id, one)?;
        let log = Log::of_one(alloc, 1, HEAD_LENGTH, one.len())?;
        Log::create(alloc, disk, 2)?;
        write_gated(disk, 1, 0, 0, &closed)?;
        Ok(SlotPair {
            slot: 1,
            generation: 1,
            id,
            other_is_open: false,
            log,
        })
    }

    /// The slots of which this one counts, with its log.
    pub fn opened(it: CountingSlot, log: Log) -> SlotPair
        ensures { result ≡ slots_of it log }
    {
        SlotPair {
            slot: it.slot,
            generation: it.head.generation,
            id: it.head.id,
            other_is_open: it.other_is_open,
            log,
        }
    }

    /// The generation of the slot that counts.
    pub fn generation(&self) -> u64
        ensures { result ≡ self.now.generation }
    {
        self.generation
    }

    /// Whether the slot that counts is longer, up to its closed gate, than twice its first record
    /// and 65,536 bytes.
    pub fn is_long(&self) -> bool
        ensures due { (disk : State) (id : ℕ) (records : List (List ℕ)) →
            SlotsHold disk self.now id records → IsTrue result ↔ IsLongLog self.now.log }
        ensures told { gate_of self.now.log + 1 < 2 ^ 64 → IsTrue result ↔ IsLongLog self.now.log }
    {
        gates_are_in_files(); // law: a log's gate is within its file
        let first = self.log.first_len() as u64;
        self.log.gate() + 1 > first.saturating_mul(2).saturating_add(REWRITE_SLACK)
    }

    /// Adds a record to the slot that counts. Four device calls.
    pub fn record<D: Disk>(&mut self, disk: &mut D, one: &[u8]) -> Result<(), LogError>
        ensures kept { KeepsDisk D.Disk disk.old disk.new (IsErrOf result (Disk Failed))
            (HasNoRoom self.old.log one.now) (IsSameBut (file_of self.old.log)) }
        ensures changes { ChangesSlots D.Disk disk.old disk.new self.old self.new Two
            (λ records. records ++ one.now ∷ []) IsExpected result }
        ensures met { IfSlotsHold D.Disk disk.old self.old (λ id records.
            length one.now ≤ MAX_RECORD → IfErr result (IsEnvironmental (Disk Failed) Memory)) }
        ensures stays { (self.new.slot ≡ self.old.slot)
            × (self.new.generation ≡ self.old.generation)
            × (file_of self.new.log ≡ file_of self.old.log) }
        ensures calls { MakesCalls D.Disk 4 disk.old disk.new result }
    {
        self.log.append(disk, one)
    }

    /// Writes the other slot with one record, in format 2 and the next generation, so that it
    /// counts. The one that counted may be of either format.
    pub fn rewrite<D: Disk>(
        &mut self,
        alloc: Global,
        disk: &mut D,
        one: &[u8],
    ) -> Result<(), LogError>
        requires short { length one.now ≤ MAX_RECORD }
        requires room { self.old.generation < MAX_NUMBER }
        ensures kept { KeepsDisk D.Disk disk.old disk.new (IsErrOf result (Disk Failed)) ⊥
            (IsSameBut (other_slot self.old.slot)) }
        ensures changes { (format : Format) → ChangesSlots D.Disk disk.old disk.new self.old
            self.new format (λ records. one.now ∷ []) (IsEnvironmental (Disk Failed) Memory)
            result }
        ensures written { (format : Format) → RewritesSlots D.Disk disk.old disk.new self.old
            format one.now result }
        ensures next { MatchResult result (λ _. (file_of self.new.log ≡ other_slot self.old.slot)
            × (self.new.generation ≡ self.old.generation + 1) × (IsLongLog self.new.log → ⊥))
            (λ e. (self.new ≡ self.old) × (IsArgumentError e → ⊥)) }
        ensures calls { MakesCalls D.Disk (closing_calls self.old.other_is_open + 5) disk.old
            disk.new result }
    {
        // laws: how long the new slot's log is
        first_lengths_are();
        gates_are_in_files();
        let generation = self.generation + 1;
        let other = 3u64.saturating_sub(self.slot);
        let closed = bytes_of_slot(alloc, generation, self.id, one)?;
        let log = Log::of_one(alloc, other, HEAD_LENGTH, one.len())?;
        let (_gate, behind) = closed.split_at(1);
        replace(disk, other, self.other_is_open, behind)?;
        self.slot = other;
        self.generation = generation;
        self.other_is_open = true;
        self.log = log;
        Ok(())
    }
}
