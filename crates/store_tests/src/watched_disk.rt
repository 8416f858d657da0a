// A disk in memory that counts the calls for each file, and reads one place as damaged.

ghost use Rattle.std.specs.Prelude.{None};
ghost use Rattle.disk.specs.{Absent, IsReliable, past_states};

use disk::{Disk, DiskError, MemDisk};

/// A file and a place in it, whose byte reads with another lowest bit.
#[derive(Clone, Copy)]
pub struct Spot {
    pub file: u64,
    pub place: u64,
}

/// The disk. It promises nothing.
#[derive(Drop)]
pub struct WatchedDisk {
    disk: MemDisk,
    /// How many calls each of the first files had.
    pub calls: [u64; 16],
    pub damage: Option<Spot>,
}

impl WatchedDisk {
    /// This disk, without damage.
    pub fn new(disk: MemDisk) -> WatchedDisk {
        WatchedDisk {
            disk,
            calls: [0; 16],
            damage: None,
        }
    }
}

fn count(calls: &mut [u64; 16], file: u64) {
    if file < 16 {
        let count = &mut calls[file as usize];
        *count = count.saturating_add(1);
    }
}

// Damages the bytes that were read from a place of a file on.
fn damage(spot: Option<Spot>, file: u64, at: u64, bytes: &mut [u8]) {
    let Some(spot) = spot else {
        return;
    };
    if spot.file != file {
        return;
    }
    if let Some(byte) = bytes.get_mut(spot.place.wrapping_sub(at) as usize) {
        *byte ^= 1;
    }
}

impl Disk for WatchedDisk {
    ghost is_honest = { λ disk. ⊥ };

    ghost state = { λ disk file. Absent None };

    ghost failures = { λ disk. disk.disk.failures };

    ghost is_reliable = { λ disk. IsReliable disk.disk };

    ghost past = { λ disk. past_states disk.disk };

    ghost incidents = { λ disk. disk.disk.incidents };

    ghost allocates = { ⊥ };

    fn files(&mut self) -> Result<Vec<u64>, DiskError> {
        self.disk.files()
    }

    fn length(&mut self, file: u64) -> Result<u64, DiskError> {
        count(&mut self.calls, file);
        self.disk.length(file)
    }

    fn read(&mut self, file: u64, at: u64, into: &mut [u8]) -> Result<(), DiskError> {
        count(&mut self.calls, file);
        self.disk.read(file, at, into)?;
        damage(self.damage, file, at, into);
        Ok(())
    }

    fn write_at(&mut self, file: u64, at: u64, bytes: &[u8]) -> Result<(), DiskError> {
        count(&mut self.calls, file);
        self.disk.write_at(file, at, bytes)
    }

    fn cut(&mut self, file: u64, length: u64) -> Result<(), DiskError> {
        count(&mut self.calls, file);
        self.disk.cut(file, length)
    }

    fn sync(&mut self, file: u64) -> Result<(), DiskError> {
        count(&mut self.calls, file);
        self.disk.sync(file)
    }

    fn remove(&mut self, file: u64) -> Result<(), DiskError> {
        count(&mut self.calls, file);
        self.disk.remove(file)
    }
}
