//! A disk with a cache of its blocks.
ghost use Rattle.std.specs.Prelude.{◌≡◌, ◌<◌, ◌≤◌, IfErr, IfOk, IsErrOf, length};
ghost use Rattle.std.specs.Rc.{rc_slice_items};
ghost use Rattle.disk.specs.{IsSame, IsStill, KeepsDisk};
ghost use Rattle.table_format.specs.declared.FileError.TheVariants.{Disk};
ghost use Rattle.table_files.specs.BlockReads.{AreBlocksAt, BlockAnswer};
ghost use Rattle.disk.specs.{CallsAtMost};

use crate::block::CheckedBlock;
use crate::cache::BlockCache;
use crate::read::read_block;
use byte_fields::Format;
use disk::{Crash, Disk, DiskError, Fault, Junk};
use std::alloc::{AllocFailed, Global};
use std::num::NonZeroUsize;
use table_format::FileError;

/// The most blocks that a cache keeps.
pub const MAX_BLOCKS: usize = 65_536;

/// A disk, and blocks that were read of it. As a disk it is the one inside.
///
/// Each block that is kept is one that its file has, and was checked when it was read. A call that
/// may change what a read of a file returns first forgets the blocks of that file.
#[derive(Drop)]
pub struct CachedDisk<D: Disk> {
    disk: D,
    cache: BlockCache,
    ghost checked: { D.is_honest disk → AreBlocksAt (D.state disk) cache },
}

impl<D: Disk + Drop> CachedDisk<D> {
    ghost use Rattle.table_files.specs.Disks.{inner_disk};

    /// The disk, with a cache for at most so many blocks. A refusal for want of memory returns the
    /// disk.
    pub fn new(alloc: Global, disk: D, capacity: usize) -> Result<CachedDisk<D>, AllocFailed<D>>
        requires some { 0 < capacity }
        requires few { capacity ≤ MAX_BLOCKS }
        ensures disk { IfOk result (λ files. inner_disk files ≡ disk) }
        ensures refused { IfErr result (λ e. e.value ≡ disk) }
    {
        match BlockCache::new(alloc, NonZeroUsize::new(capacity).unwrap()) {
            Ok(cache) => Ok(CachedDisk { disk, cache }),
            Err(_) => Err(AllocFailed { value: disk }),
        }
    }

    /// The disk. The blocks are freed.
    pub fn into_disk(self) -> D
        ensures { result ≡ inner_disk self }
    {
        self.disk
    }

    /// The disk.
    pub fn disk(&self) -> &D
        ensures { result.now ≡ inner_disk self.now }
    {
        &self.disk
    }

    /// The block of the format that a file has from a place on, of this length in bytes. `Damaged`
    /// where the file has no such block there, `Disk` where the device failed, `Memory` where there
    /// is none for the block.
    ///
    /// It needs one device call, and none where the block is kept. A block that was read is checked
    /// and kept; where there is no memory for that, it is not kept.
    pub fn block(
        &mut self,
        alloc: Global,
        file: u64,
        place: u64,
        len: usize,
        format: Format,
    ) -> Result<CheckedBlock, FileError>
        ensures kept { KeepsDisk ⟦<CachedDisk<D> as Disk>⟧ self.old self.new (IsErrOf result Disk) ⊥
            IsSame }
        ensures answers { ⟦<CachedDisk<D> as Disk>⟧.is_honest self.old →
            BlockAnswer (⟦<CachedDisk<D> as Disk>⟧.state self.old) file place len format result }
        ensures len { IfOk result (λ block. (length (rc_slice_items block.bytes) ≡ len)
            × (block.format ≡ format)) }
        ensures still { IsStill ⟦<CachedDisk<D> as Disk>⟧ self.old self.new }
        ensures calls { CallsAtMost ⟦<CachedDisk<D> as Disk>⟧ 1 self.old self.new }
    {
        if let Some(block) = self.cache.get(file, place, format)? {
            if block.bytes.len() == len {
                return Ok(block);
            }
        }
        let block = read_block(alloc, &mut self.disk, file, place, len, format)?;
        self.cache.keep(file, place, &block);
        Ok(block)
    }
}

impl<D: Disk + Drop> Disk for CachedDisk<D> {
    ghost is_honest = { λ files. D.is_honest files.disk };

    ghost state = { λ files. D.state files.disk };

    ghost failures = { λ files. D.failures files.disk };

    ghost is_reliable = { λ files. D.is_reliable files.disk };

    ghost past = { λ files. D.past files.disk };

    ghost incidents = { λ files. D.incidents files.disk };

    ghost allocates = { D.allocates };

    fn files(&mut self) -> Result<Vec<u64>, DiskError> {
        self.disk.files()
    }

    fn length(&mut self, file: u64) -> Result<u64, DiskError> {
        self.disk.length(file)
    }

    fn read(&mut self, file: u64, at: u64, into: &mut [u8]) -> Result<(), DiskError> {
        self.disk.read(file, at, into)
    }

    fn write_at(&mut self, file: u64, at: u64, bytes: &[u8]) -> Result<(), DiskError> {
        self.cache.forget(file);
        self.disk.write_at(file, at, bytes)
    }

    fn cut(&mut self, file: u64, length: u64) -> Result<(), DiskError> {
        self.cache.forget(file);
        self.disk.cut(file, length)
    }

    // A read may differ after a sync that failed.
    fn sync(&mut self, file: u64) -> Result<(), DiskError> {
        self.cache.forget(file);
        self.disk.sync(file)
    }

    fn remove(&mut self, file: u64) -> Result<(), DiskError> {
        self.cache.forget(file);
        self.disk.remove(file)
    }
}

impl<D: Crash + Drop> Crash for CachedDisk<D> {
    fn arm(&mut self, fault: &Fault) {
        self.disk.arm(fault);
    }

    fn has_struck(&self) -> bool {
        self.disk.has_struck()
    }

    fn crash(&mut self, junk: Junk) {
        self.cache.clear();
        self.disk.crash(junk);
    }
}
