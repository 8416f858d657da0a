// The bytes of a manifest's slots, and faults.
ghost use Rattle.std.specs.Prelude.{IfOk};
ghost use Rattle.version_edits.specs.Edits.{IsChange};
ghost use Rattle.version_edits.specs.Versions.{IsFit};

use crate::acts::{Choice, arm, mend};
use crate::cases::{has_memory, holds_at, is_so};
use crate::items::{config_of, copy_of, filled, is_same, origin};
use disk::{Disk, Fault, MemDisk};
use kv_types::bounds::MAX_NUMBER;
use manifest::{Manifest, ManifestError, StoreVersion, VersionEdit};
use std::alloc::{AllocError, Global};
use std::process::Abort;

/// The slot of node 1 alone after its creation: a head of generation 1, a record, a closed gate.
/// The record is the next file 4, floor, flushed and epoch 0, the ids, and log 3 from batch 1.
pub const SLOT: &[u8] = &[
    1, 0, 0, 0, 0, 0, 0, 0, 1, 0, 0, 0, 1, 1, 0, 0, 0, 55, //
    0, 0, 0, 0, 0, 0, 0, 4, 0, 0, 0, 0, 0, 0, 0, 0, 0, 0, 0, 0, 0, 0, 0, 0, 0, 0, 0, 0, 1, 0, 1, //
    0, 0, 0, 1, 0, 0, 0, 0, 0, 0, 0, 3, 0, 0, 0, 0, 0, 0, 0, 1, 0, 0, 0, 0, 0,
];

/// The slot with this byte at this place.
pub fn slot_with(rt: &impl Abort, alloc: Global, at: usize, byte: u8) -> Vec<u8> {
    let mut bytes = copy_of(rt, alloc, SLOT);
    *bytes.get_mut(at).expect(rt, "a place") = byte;
    bytes
}

// The slot with this generation.
fn slot_of(rt: &impl Abort, alloc: Global, generation: u8) -> Vec<u8> {
    slot_with(rt, alloc, 8, generation)
}

/// Writes a file, and syncs it.
pub fn put_file(rt: &impl Abort, disk: &mut MemDisk, file: u64, bytes: &[u8]) {
    disk.write_at(file, 0, bytes).expect(rt, "a write");
    disk.sync(file).expect(rt, "a sync");
}

/// A disk with these two slots.
pub fn disk_of(rt: &impl Abort, alloc: Global, first: &[u8], second: &[u8]) -> MemDisk {
    let mut disk = MemDisk::new(alloc);
    put_file(rt, &mut disk, 1, first);
    put_file(rt, &mut disk, 2, second);
    disk
}

/// Whether the file has these bytes.
pub fn has_bytes(
    rt: &impl Abort,
    alloc: Global,
    disk: &mut MemDisk,
    file: u64,
    want: &[u8],
) -> bool {
    let mut bytes = filled(rt, alloc, 0, want.len());
    disk.read(file, 0, &mut bytes).expect(rt, "a read");
    disk.length(file) == Ok(want.len() as u64) && is_same(&bytes, want)
}

// The calls of a manifest, without their contracts. Want of memory ends the test.
fn try_open(rt: &impl Abort, alloc: Global, disk: &mut MemDisk) -> Result<Manifest, ManifestError> {
    let opened = Manifest::open(alloc, disk);
    has_memory(rt, is_memory(&opened));
    opened
}

fn is_memory(opened: &Result<Manifest, ManifestError>) -> bool {
    matches!(opened, Err(ManifestError::Memory))
}

fn open(rt: &impl Abort, alloc: Global, disk: &mut MemDisk) -> Manifest {
    try_open(rt, alloc, disk).expect(rt, "a manifest")
}

/// A new manifest of node 1 alone.
pub fn create<D: Disk>(rt: &impl Abort, alloc: Global, disk: &mut D) -> Manifest {
    let (_epoch, id) = origin(rt, 0, 1);
    let config = config_of(rt, alloc, &[1]);
    Manifest::create(alloc, disk, id, &config).expect(rt, "a manifest")
}

/// The refusal of a rewrite, if it is refused.
pub fn refusal<D: Disk>(
    rt: &impl Abort,
    alloc: Global,
    disk: &mut D,
    manifest: &mut Manifest,
) -> Option<ManifestError> {
    if MAX_NUMBER <= manifest.generation() {
        return None;
    }
    let refused = manifest.rewrite(alloc, disk).err();
    has_memory(rt, refused == Some(ManifestError::Memory));
    refused
}

// The edit that raises the floor to 7, and changes nothing else.
fn raised(alloc: Global, version: &StoreVersion) -> Result<VersionEdit, AllocError>
    ensures { IfOk result (λ edit. IsFit version.now.version edit × IsChange edit) }
{
    Ok(VersionEdit {
        next_file: version.next_file,
        floor: version.floor.max(7),
        flushed: version.flushed,
        epoch: version.epoch,
        config: version.config.clone()?,
        logs_gone: Vec::new(alloc),
        logs_added: Vec::new(alloc),
        tables_gone: Vec::new(alloc),
        tables_added: Vec::new(alloc),
    })
}

/// The refusal of a record that raises the floor, if it is refused.
pub fn refusal_of_record<D: Disk>(
    rt: &impl Abort,
    alloc: Global,
    disk: &mut D,
    manifest: &mut Manifest,
) -> Option<ManifestError> {
    let edit = raised(alloc, manifest.state()).expect(rt, "memory");
    let refused = manifest.record(alloc, disk, &edit).err();
    drop(edit);
    has_memory(rt, refused == Some(ManifestError::Memory));
    refused
}

/// The generation of the slots that are opened.
pub fn answer(rt: &impl Abort, alloc: Global, disk: &mut MemDisk) -> Result<u64, ManifestError> {
    let manifest = try_open(rt, alloc, disk)?;
    Ok(manifest.generation())
}

// What is opened, by its numbers: of the node, the next file, the floor, the flushed batches, and
// how many logs and tables there are.
fn numbers(rt: &impl Abort, alloc: Global, disk: &mut MemDisk) -> [u64; 6] {
    let manifest = open(rt, alloc, disk);
    let state = manifest.state();
    let (logs, tables) = (state.logs.len() as u64, state.tables.len() as u64);
    let id = u64::from(state.id.get());
    [
        id,
        state.next_file,
        state.floor,
        state.flushed,
        logs,
        tables,
    ]
}

const NEW: [u64; 6] = [1, 4, 0, 0, 1, 0];

const RAISED: [u64; 6] = [1, 4, 7, 0, 1, 0];

// Whether the slots are these, and a new version is opened.
fn has_slots(
    rt: &impl Abort,
    alloc: Global,
    disk: &mut MemDisk,
    first: &[u8],
    second: &[u8],
) -> bool {
    has_bytes(rt, alloc, disk, 1, first)
        && has_bytes(rt, alloc, disk, 2, second)
        && numbers(rt, alloc, disk) == NEW
}

// The first rewrite is of a slot with a closed gate, and the later ones of one with an open gate.
#[test]
fn slots_byte_by_byte(rt: HostRuntime) {
    let alloc = rt.alloc();
    let mut disk = MemDisk::new(alloc);
    let mut manifest = create(&rt, alloc, &mut disk);
    is_so(&rt, has_slots(&rt, alloc, &mut disk, SLOT, &[0]), "created");
    let second = slot_of(&rt, alloc, 2);
    is_so(
        &rt,
        refusal(&rt, alloc, &mut disk, &mut manifest).is_none(),
        "the first",
    );
    is_so(
        &rt,
        has_slots(&rt, alloc, &mut disk, SLOT, &second),
        "rewritten",
    );
    let third = slot_of(&rt, alloc, 3);
    is_so(
        &rt,
        refusal(&rt, alloc, &mut disk, &mut manifest).is_none(),
        "the second",
    );
    is_so(
        &rt,
        has_slots(&rt, alloc, &mut disk, &third, &second),
        "rewritten again",
    );
}

#[test]
fn what_was_recorded_is_opened(rt: HostRuntime) {
    let alloc = rt.alloc();
    let mut disk = MemDisk::new(alloc);
    let mut manifest = create(&rt, alloc, &mut disk);
    let refused = refusal_of_record(&rt, alloc, &mut disk, &mut manifest);
    let is_opened = refused.is_none() && numbers(&rt, alloc, &mut disk) == RAISED;
    is_so(&rt, is_opened, "recorded");
    let refused = refusal(&rt, alloc, &mut disk, &mut manifest);
    let is_opened = refused.is_none() && numbers(&rt, alloc, &mut disk) == RAISED;
    is_so(&rt, is_opened, "rewritten");
}

// What becomes of a disk whose call was struck, and whether the new version is opened where the
// call was the write of the gate or the sync behind it.
static CHOICES: [(Option<Choice>, bool); 5] = [
    (None, true),
    (Some(Choice::Old), false),
    (Some(Choice::New), true),
    (Some(Choice::Bytes(&[0])), false),
    (Some(Choice::Bytes(&[1])), true),
];

// Slots that are both open, of which the second counts.
fn both_open(rt: &impl Abort, alloc: Global) -> MemDisk {
    let (first, second) = (slot_of(rt, alloc, 1), slot_of(rt, alloc, 2));
    disk_of(rt, alloc, &first, &second)
}

// Whether a rewrite with this call struck is refused and fails from then on, and the version is
// opened again, of the slot with this generation.
fn is_left_by_rewrite(
    rt: &impl Abort,
    alloc: Global,
    call: u64,
    choice: Option<Choice>,
    generation: u64,
) -> bool {
    let mut disk = both_open(rt, alloc);
    let mut manifest = open(rt, alloc, &mut disk);
    arm(&mut disk, Fault::Fail(call));
    let is_refused = refusal(rt, alloc, &mut disk, &mut manifest) == Some(ManifestError::Disk);
    let stays = refusal(rt, alloc, &mut disk, &mut manifest) == Some(ManifestError::Failed);
    mend(rt, alloc, &mut disk, choice);
    let opened = answer(rt, alloc, &mut disk);
    is_refused && stays && opened == Ok(generation) && numbers(rt, alloc, &mut disk) == NEW
}

// A rewrite over an open gate makes seven calls. Until the sixth the new slot stands behind a
// closed gate.
#[test]
fn rewrites_that_stop(rt: HostRuntime) {
    for call in 1..8 {
        for (choice, gated) in &CHOICES {
            let generation = if call >= 6 && *gated { 3 } else { 2 };
            let is_left = is_left_by_rewrite(&rt, rt.alloc(), call, *choice, generation);
            holds_at(&rt, call as usize, is_left);
        }
    }
}

// Whether a record with this call struck is refused and fails from then on, and the version of
// these numbers is opened again.
fn is_left_by_record(
    rt: &impl Abort,
    alloc: Global,
    call: u64,
    choice: Option<Choice>,
    want: &[u64; 6],
) -> bool {
    let mut disk = both_open(rt, alloc);
    let mut manifest = open(rt, alloc, &mut disk);
    arm(&mut disk, Fault::Fail(call));
    let refused = refusal_of_record(rt, alloc, &mut disk, &mut manifest);
    let later = refusal_of_record(rt, alloc, &mut disk, &mut manifest);
    mend(rt, alloc, &mut disk, choice);
    let opened = numbers(rt, alloc, &mut disk);
    refused == Some(ManifestError::Disk) && later == Some(ManifestError::Failed) && opened == *want
}

// A record makes four calls. Until the third it stands behind a closed gate.
#[test]
fn records_that_stop(rt: HostRuntime) {
    for call in 1..5 {
        for (choice, gated) in &CHOICES {
            let want = if call >= 3 && *gated { &RAISED } else { &NEW };
            let is_left = is_left_by_record(&rt, rt.alloc(), call, *choice, want);
            holds_at(&rt, call as usize, is_left);
        }
    }
}

// Whether an opening with this call struck is refused, and the next one is not.
fn is_left_by_opening(rt: &impl Abort, alloc: Global, call: u64, choice: Option<Choice>) -> bool {
    let mut disk = both_open(rt, alloc);
    arm(&mut disk, Fault::Fail(call));
    let is_refused = answer(rt, alloc, &mut disk) == Err(ManifestError::Disk);
    mend(rt, alloc, &mut disk, choice);
    is_refused && answer(rt, alloc, &mut disk) == Ok(2)
}

// An opening makes two syncs and two reads of heads; it syncs the slot that counts, and reads it.
#[test]
fn openings_that_stop(rt: HostRuntime) {
    for call in 1..8 {
        for (choice, _) in &CHOICES {
            let is_left = is_left_by_opening(&rt, rt.alloc(), call, *choice);
            holds_at(&rt, call as usize, is_left);
        }
    }
}
