// The device calls of a log, of a manifest, of a creation and of an adoption, in their order.
ghost use Rattle.std.specs.Prelude.{None};
ghost use Rattle.disk.specs.{Absent, IsReliable, past_states};

use crate::adoptions::disk_of_adoption;
use crate::cases::{holds_at, is_so};
use crate::items::{config_of, origin};
use crate::manifests;
use disk::{Disk, DiskError, MemDisk};
use engine::Engine;
use kv_types::Limits;
use record_log::Log;
use std::alloc::Global;
use std::process::Abort;

// A call: to which file, of a write its place and its first byte, and of a cut the length.
#[derive(Clone, Copy, PartialEq)]
enum Called {
    Write(u64, u64, u8),
    Cut(u64, u64),
    Sync(u64),
    Read,
    Other,
}

// A disk in memory that records its first calls. It promises nothing.
#[derive(Drop)]
struct NotingDisk {
    disk: MemDisk,
    calls: [Called; 16],
    count: usize,
}

impl NotingDisk {
    fn new(alloc: Global) -> NotingDisk {
        NotingDisk {
            disk: MemDisk::new(alloc),
            calls: [Called::Other; 16],
            count: 0,
        }
    }

    // Whether these are the calls since the last question.
    fn made(&mut self, want: &[Called]) -> bool {
        self.recorded() == want
    }

    // The calls since the last question.
    fn recorded(&mut self) -> &[Called] {
        let count = self.count.min(16);
        self.count = 0;
        &self.calls[..count]
    }
}

fn note(calls: &mut [Called; 16], count: &mut usize, call: Called) {
    if *count < 16 {
        calls[*count] = call;
    }
    *count = count.saturating_add(1);
}

impl Disk for NotingDisk {
    ghost is_honest = { λ disk. ⊥ };

    ghost state = { λ disk file. Absent None };

    ghost failures = { λ disk. disk.disk.failures };

    ghost is_reliable = { λ disk. IsReliable disk.disk };

    ghost past = { λ disk. past_states disk.disk };

    ghost incidents = { λ disk. disk.disk.incidents };

    ghost allocates = { ⊥ };

    fn files(&mut self) -> Result<Vec<u64>, DiskError> {
        note(&mut self.calls, &mut self.count, Called::Other);
        self.disk.files()
    }

    fn length(&mut self, file: u64) -> Result<u64, DiskError> {
        note(&mut self.calls, &mut self.count, Called::Other);
        self.disk.length(file)
    }

    fn read(&mut self, file: u64, at: u64, into: &mut [u8]) -> Result<(), DiskError> {
        note(&mut self.calls, &mut self.count, Called::Read);
        self.disk.read(file, at, into)
    }

    fn write_at(&mut self, file: u64, at: u64, bytes: &[u8]) -> Result<(), DiskError> {
        let first = bytes.first().copied().unwrap_or(0);
        note(
            &mut self.calls,
            &mut self.count,
            Called::Write(file, at, first),
        );
        self.disk.write_at(file, at, bytes)
    }

    fn cut(&mut self, file: u64, length: u64) -> Result<(), DiskError> {
        note(&mut self.calls, &mut self.count, Called::Cut(file, length));
        self.disk.cut(file, length)
    }

    fn sync(&mut self, file: u64) -> Result<(), DiskError> {
        note(&mut self.calls, &mut self.count, Called::Sync(file));
        self.disk.sync(file)
    }

    fn remove(&mut self, file: u64) -> Result<(), DiskError> {
        note(&mut self.calls, &mut self.count, Called::Other);
        self.disk.remove(file)
    }
}

// The calls of a log, without their contracts.
fn create(rt: &impl Abort, alloc: Global, disk: &mut NotingDisk) -> Log {
    Log::create(alloc, disk, 3).expect(rt, "a log")
}

fn append(rt: &impl Abort, disk: &mut NotingDisk, log: &mut Log, bytes: &[u8]) {
    log.append(disk, bytes).expect(rt, "an append");
}

fn open(rt: &impl Abort, alloc: Global, disk: &mut NotingDisk) {
    Log::open(alloc, disk, 3, 0).expect(rt, "a log");
}

// Whether the calls of an append at this gate are these: what is behind the gate, and then the
// gate.
fn appends_so(rt: &impl Abort, disk: &mut NotingDisk, log: &mut Log, bytes: &[u8]) -> bool {
    let gate = log.gate();
    append(rt, disk, log, bytes);
    disk.made(&[
        Called::Write(3, gate.saturating_add(1), 0),
        Called::Sync(3),
        Called::Write(3, gate, 1),
        Called::Sync(3),
    ])
}

// Whether a log is created and grows by these calls.
fn writes_so(rt: &impl Abort, alloc: Global, disk: &mut NotingDisk) -> bool {
    let mut log = create(rt, alloc, disk);
    let is_created_so = disk.made(&[Called::Write(3, 0, 0), Called::Sync(3)]);
    let is_first = appends_so(rt, disk, &mut log, b"one");
    appends_so(rt, disk, &mut log, b"") && is_first && is_created_so
}

// Whether the call only reads.
fn reads(call: &Called) -> bool {
    matches!(call, Called::Read | Called::Other)
}

// Whether the first call is a sync, and the others only read.
fn syncs_and_reads(calls: &[Called]) -> bool {
    match calls {
        [Called::Sync(3), behind @ ..] => behind.iter().all(reads),
        _ => false,
    }
}

#[test]
fn a_log_makes_its_calls_in_their_order(rt: HostRuntime) {
    let mut disk = NotingDisk::new(rt.alloc());
    let writes_so = writes_so(&rt, rt.alloc(), &mut disk);
    is_so(&rt, writes_so, "the calls of writes");
    open(&rt, rt.alloc(), &mut disk);
    let syncs_and_reads = syncs_and_reads(disk.recorded());
    is_so(&rt, syncs_and_reads, "the calls of an opening");
}

// The slots of a new manifest: a closed gate in file 2, and in file 1 the slot behind a closed
// gate, which is opened when the slot is durable.
const CREATION: &[Called] = &[
    Called::Write(2, 0, 0),
    Called::Sync(2),
    Called::Write(1, 0, 0),
    Called::Sync(1),
    Called::Write(1, 0, 1),
    Called::Sync(1),
];

// The files of a new store: none is there, then its log, and then its slots.
const STORE: &[Called] = &[
    Called::Other,
    Called::Write(3, 0, 0),
    Called::Sync(3),
    Called::Write(2, 0, 0),
    Called::Sync(2),
    Called::Write(1, 0, 0),
    Called::Sync(1),
    Called::Write(1, 0, 1),
    Called::Sync(1),
];

// An edit behind the closed gate of the 74 bytes of a new slot, and then the gate.
const RECORD: &[Called] = &[
    Called::Write(1, 74, 0),
    Called::Sync(1),
    Called::Write(1, 73, 1),
    Called::Sync(1),
];

// The other slot anew, whose gate is closed.
const FIRST_REWRITE: &[Called] = &[
    Called::Sync(2),
    Called::Cut(2, 1),
    Called::Write(2, 1, 0),
    Called::Sync(2),
    Called::Write(2, 0, 1),
    Called::Sync(2),
];

// The other slot anew, whose gate is open, and is closed first.
const SECOND_REWRITE: &[Called] = &[
    Called::Write(1, 0, 0),
    Called::Sync(1),
    Called::Cut(1, 1),
    Called::Write(1, 1, 0),
    Called::Sync(1),
    Called::Write(1, 0, 1),
    Called::Sync(1),
];

// Whether a manifest that is created, changed and rewritten twice makes these calls.
fn manifest_calls_so(rt: &impl Abort, alloc: Global, disk: &mut NotingDisk) -> [bool; 4] {
    let mut manifest = manifests::create(rt, alloc, disk);
    let is_created_so = disk.made(CREATION);
    let refused = manifests::refusal_of_record(rt, alloc, disk, &mut manifest);
    let is_changed_so = disk.made(RECORD) && refused.is_none();
    let refused = manifests::refusal(rt, alloc, disk, &mut manifest);
    let is_rewritten_so = disk.made(FIRST_REWRITE) && refused.is_none();
    let refused = manifests::refusal(rt, alloc, disk, &mut manifest);
    let is_again_so = disk.made(SECOND_REWRITE) && refused.is_none();
    [is_created_so, is_changed_so, is_rewritten_so, is_again_so]
}

#[test]
fn a_manifest_makes_its_calls_in_their_order(rt: HostRuntime) {
    let mut disk = NotingDisk::new(rt.alloc());
    let calls_so = manifest_calls_so(&rt, rt.alloc(), &mut disk);
    for (index, is_so) in calls_so.iter().enumerate() {
        holds_at(&rt, index, *is_so);
    }
}

// The edit of an adoption behind the closed gate of the 76 bytes of a slot with two ids, and then
// the gate.
const ADOPTION: &[Called] = &[
    Called::Write(1, 76, 0),
    Called::Sync(1),
    Called::Write(1, 75, 1),
    Called::Sync(1),
];

// The disk of a new store of node 1 alone.
fn disk_of_store(rt: &impl Abort, alloc: Global) -> NotingDisk {
    let (_epoch, id) = origin(rt, 0, 1);
    let config = config_of(rt, alloc, &[1]);
    let disk = NotingDisk::new(alloc);
    let created = Engine::create(alloc, disk, id, &config, &Limits::default());
    created.ok().expect(rt, "an engine").into_disk()
}

#[test]
fn a_creation_makes_its_calls_in_their_order(rt: HostRuntime) {
    let mut disk = disk_of_store(&rt, rt.alloc());
    let calls_so = disk.made(STORE);
    is_so(&rt, calls_so, "the calls of a creation");
}

#[test]
fn an_adoption_makes_its_calls_in_their_order(rt: HostRuntime) {
    let mut disk = disk_of_adoption(&rt, rt.alloc(), NotingDisk::new(rt.alloc()));
    let calls = disk.recorded().get(STORE.len()..);
    is_so(&rt, calls == Some(ADOPTION), "the calls of an adoption");
}
