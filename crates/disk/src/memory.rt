// A disk in memory.
ghost use Rattle.std.specs.Prelude.{◌≡◌, ◌≢◌, ℕ, ◌+◌, ◌-◌, ◌^◌, ◌<◌, length};
ghost use Rattle.std.specs.Prelude.{IfOk, OnOk, OnErr, Err, Some, None, [], ◌∷◌};
ghost use Rattle.std.specs.BTreeMap.{insert_entry};
ghost use Rattle.std.specs.Ordering.{nat_cmp};
ghost use Rattle.disk.specs.States.{Absent, ChangesSlot, IsSame, seen};
ghost use Rattle.disk.specs.Calls.{CutOutcome, LengthAnswer, ListsFiles};
ghost use Rattle.disk.specs.Calls.{ReadAnswer, RemoveOutcome, SyncOutcome, WriteOutcome};
ghost use Rattle.disk.specs.Faults.{WasMade};
ghost use Rattle.disk.specs.Crashes.{CrashOutcome};
ghost use Rattle.disk.specs.Memory.{state_of, past_states, IsReliable};

use crate::device::Device;
use crate::slot::MemSlot;
use crate::{Crash, Disk, DiskError, Fault, Junk, ends_out_of_range};
use std::alloc::{AllocError, Global};
use std::collections::BTreeMap;
use std::marker::Model;

/// A disk in memory, which can be crashed. It is always honest.
#[derive(Drop)]
pub struct MemDisk {
    alloc: Global,
    slots: BTreeMap<u64, MemSlot>,
    device: Device,
}

impl Model for MemDisk {
    ghost use Rattle.disk.specs.Memory.{Slots, IsMemory};

    ghost Value = { Slots };

    ghost view = { λ disk. record {
      slots = disk.slots.entries;
      failures = disk.device.failures;
      past = disk.device.past;
      incidents = disk.device.incidents;
    } };

    ghost invariant = { λ disk. IsMemory (record {
      slots = disk.slots.entries;
      failures = disk.device.failures;
      past = disk.device.past;
      incidents = disk.device.incidents;
    }) };
}

impl MemDisk {
    /// A disk without files.
    pub fn new(alloc: Global) -> MemDisk
        ensures empty { (file : ℕ) → state_of result.slots file ≡ Absent None }
        ensures count { result.failures ≡ 0 }
        ensures reliable { IsReliable result }
        ensures past { result.past ≡ result.slots ∷ [] }
        ensures incidents { result.incidents ≡ [] }
    {
        let slots = BTreeMap::new(alloc);
        let device = Device::new(&slots);
        MemDisk {
            alloc,
            slots,
            device,
        }
    }

    /// A disk with the same slots, the same count of failures and the same fault.
    pub fn clone(&self) -> Result<MemDisk, AllocError>
        ensures same { IfOk result (λ disk.
            IsSame (state_of self.now.slots) (state_of disk.slots)) }
        ensures count { IfOk result (λ disk. disk.failures ≡ self.now.failures) }
        ensures fault { IfOk result (λ disk.
            (disk.past ≡ self.now.past) × (disk.incidents ≡ self.now.incidents)) }
    {
        Ok(MemDisk {
            alloc: self.alloc,
            slots: clone_slots(self.alloc, &self.slots)?,
            device: self.device.clone(),
        })
    }
}

fn clone_slots(
    alloc: Global,
    slots: &BTreeMap<u64, MemSlot>,
) -> Result<BTreeMap<u64, MemSlot>, AllocError>
    ensures { IfOk result (λ copy. copy.entries ≡ slots.now.entries) }
{
    let mut copy = BTreeMap::new(alloc);
    for (number, slot) in slots {
        put(&mut copy, *number, slot.clone(alloc)?)?;
    }
    Ok(copy)
}

fn put(slots: &mut BTreeMap<u64, MemSlot>, number: u64, slot: MemSlot) -> Result<(), AllocError>
    ensures ok { OnOk result
        (slots.new.entries ≡ insert_entry nat_cmp slots.old.entries number slot) }
    ensures changes { OnOk result
        (ChangesSlot (state_of slots.old.entries) (state_of slots.new.entries) number slot) }
    ensures err { OnErr result (slots.new.entries ≡ slots.old.entries) }
{
    slots.insert(number, slot)?;
    Ok(())
}

fn bytes_of(slots: &BTreeMap<u64, MemSlot>, file: u64) -> Result<&[u8], DiskError>
    ensures ok { IfOk result (λ bytes. seen (state_of slots.now.entries file) ≡ Some bytes.now) }
    ensures none { OnErr result (seen (state_of slots.now.entries file) ≡ None) }
    ensures err { OnErr result (result ≡ Err DiskError.NoFile) }
{
    match slots.get(&file) {
        None => Err(DiskError::NoFile),
        Some(slot) => slot.bytes().ok_or(DiskError::NoFile),
    }
}

fn length_in(slots: &BTreeMap<u64, MemSlot>, file: u64) -> Result<u64, DiskError>
    ensures length { LengthAnswer (state_of slots.now.entries) file result }
    ensures made { WasMade result }
{
    Ok(bytes_of(slots, file)?.len() as u64)
}

fn numbers(alloc: Global, slots: &BTreeMap<u64, MemSlot>) -> Result<Vec<u64>, DiskError>
    ensures lists { IfOk result (λ numbers. ListsFiles (state_of slots.now.entries) numbers.items) }
    ensures err { OnErr result (result ≡ Err DiskError.Memory) }
{
    let mut numbers = Vec::new(alloc);
    for (number, slot) in slots {
        if slot.bytes().is_some() {
            numbers.push(*number)?;
        }
    }
    Ok(numbers)
}

fn write_in(
    alloc: Global,
    slots: &mut BTreeMap<u64, MemSlot>,
    file: u64,
    at: u64,
    bytes: &[u8],
) -> Result<(), DiskError>
    requires { at + length bytes.now < 2 ^ 63 }
    ensures writes { WriteOutcome (state_of slots.old.entries) file at bytes.now result
        (state_of slots.new.entries) }
    ensures other { result ≢ Err DiskError.Failed }
{
    let Some(slot) = slots.get_mut(&file) else {
        if at > 0 {
            return Err(DiskError::NoFile);
        }
        put(slots, file, MemSlot::fresh(Vec::from_slice(alloc, bytes)?))?;
        return Ok(());
    };
    let len = match slot.bytes() {
        None if at > 0 => return Err(DiskError::NoFile),
        None => 0,
        Some(old) => old.len() as u64,
    };
    if at > len {
        return Err(DiskError::Short);
    }
    slot.write(alloc, at as usize, bytes)?;
    Ok(())
}

fn cut_in(slots: &mut BTreeMap<u64, MemSlot>, file: u64, len: u64) -> Result<(), DiskError>
    ensures cuts { CutOutcome (state_of slots.old.entries) file len result
        (state_of slots.new.entries) }
    ensures other { result ≢ Err DiskError.Failed }
{
    let slot = slots.get_mut(&file).ok_or(DiskError::NoFile)?;
    let old = slot.bytes().ok_or(DiskError::NoFile)?;
    if len > old.len() as u64 {
        return Err(DiskError::Short);
    }
    slot.cut(len as usize)?;
    Ok(())
}

fn sync_in(alloc: Global, slots: &mut BTreeMap<u64, MemSlot>, file: u64) -> Result<(), DiskError>
    ensures syncs { SyncOutcome (state_of slots.old.entries) file result
        (state_of slots.new.entries) }
    ensures err { OnErr result (result ≡ Err DiskError.NoFile) }
{
    let slot = slots.get_mut(&file).ok_or(DiskError::NoFile)?;
    if slot.bytes().is_none() {
        return Err(DiskError::NoFile);
    }
    slot.sync(alloc);
    Ok(())
}

fn remove_in(slots: &mut BTreeMap<u64, MemSlot>, file: u64) -> Result<(), DiskError>
    ensures removes { RemoveOutcome (state_of slots.old.entries) file result
        (state_of slots.new.entries) }
    ensures err { OnErr result (result ≡ Err DiskError.NoFile) }
{
    let slot = slots.get_mut(&file).ok_or(DiskError::NoFile)?;
    if slot.bytes().is_none() {
        return Err(DiskError::NoFile);
    }
    slot.remove();
    Ok(())
}

fn read_in(
    slots: &BTreeMap<u64, MemSlot>,
    file: u64,
    at: u64,
    into: &mut [u8],
) -> Result<(), DiskError>
    ensures reads { ReadAnswer (state_of slots.now.entries) file at (length into.old) result
        into.new }
    ensures made { WasMade result }
{
    let bytes = bytes_of(slots, file)?;
    if at > bytes.len() as u64 {
        return Err(DiskError::Short);
    }
    let rest = &bytes[at as usize..];
    if rest.len() < into.len() {
        return Err(DiskError::Short);
    }
    into.copy_from_slice(&rest[..into.len()]);
    Ok(())
}

impl Disk for MemDisk {
    ghost is_honest = { λ disk. Unit {0} };

    ghost state = { λ disk. state_of disk.slots };

    ghost failures = { λ disk. disk.failures };

    ghost is_reliable = { IsReliable };

    ghost past = { past_states };

    ghost incidents = { λ disk. disk.incidents };

    ghost allocates = { ⊥ };

    fn files(&mut self) -> Result<Vec<u64>, DiskError> {
        if !self.device.works() {
            return self.device.fail(&self.slots);
        }
        let answer = numbers(self.alloc, &self.slots);
        self.device.end(&self.slots, answer)
    }

    fn length(&mut self, file: u64) -> Result<u64, DiskError> {
        if !self.device.works() {
            return self.device.fail(&self.slots);
        }
        let answer = length_in(&self.slots, file);
        self.device.end(&self.slots, answer)
    }

    fn read(&mut self, file: u64, at: u64, into: &mut [u8]) -> Result<(), DiskError> {
        if !self.device.works() {
            return self.device.fail(&self.slots);
        }
        let answer = read_in(&self.slots, file, at, into);
        self.device.end(&self.slots, answer)
    }

    fn write_at(&mut self, file: u64, at: u64, bytes: &[u8]) -> Result<(), DiskError> {
        if ends_out_of_range(at, bytes.len()) {
            return self.device.fail(&self.slots);
        }
        if !self.device.works() {
            return self.device.fail(&self.slots);
        }
        let answer = write_in(self.alloc, &mut self.slots, file, at, bytes);
        self.device.end(&self.slots, answer)
    }

    fn cut(&mut self, file: u64, length: u64) -> Result<(), DiskError> {
        if !self.device.works() {
            return self.device.fail(&self.slots);
        }
        let answer = cut_in(&mut self.slots, file, length);
        self.device.end(&self.slots, answer)
    }

    fn sync(&mut self, file: u64) -> Result<(), DiskError> {
        if !self.device.works() {
            return self.device.fail(&self.slots);
        }
        // A sync that was begun has made nothing durable.
        if self.device.strikes_next() {
            return self.device.fail(&self.slots);
        }
        let answer = sync_in(self.alloc, &mut self.slots, file);
        self.device.end(&self.slots, answer)
    }

    fn remove(&mut self, file: u64) -> Result<(), DiskError> {
        if !self.device.works() {
            return self.device.fail(&self.slots);
        }
        let answer = remove_in(&mut self.slots, file);
        self.device.end(&self.slots, answer)
    }
}

fn crash_in(alloc: Global, slots: &mut BTreeMap<u64, MemSlot>, junk: &Junk)
    ensures { CrashOutcome junk.now (state_of slots.old.entries) (state_of slots.new.entries) }
{
    slots.retain(|_file, slot| {
        slot.crash(alloc, junk);
        true
    });
    // Drops the slots without a file.
    slots.retain(|_file, slot| slot.bytes().is_some());
}

impl Crash for MemDisk {
    fn arm(&mut self, fault: &Fault) {
        self.device.arm(fault);
    }

    fn has_struck(&self) -> bool {
        self.device.has_struck()
    }

    fn crash(&mut self, junk: Junk) {
        crash_in(self.alloc, &mut self.slots, &junk);
        self.device.crash(&self.slots, junk);
    }
}
