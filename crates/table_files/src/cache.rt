//! The cache of blocks.
ghost use Rattle.std.specs.Prelude.{◌≡◌, ◌⊎◌, ℕ, List, IfOk, IfSome};
ghost use Rattle.std.specs.Ordering.{nat_cmp};
ghost use Rattle.std.specs.BTreeMap.{get};
ghost use Rattle.std.specs.Rc.{rc_slice_items};
ghost use Rattle.table_files.specs.Kept.{NumbersDiffer, NumbersAreBelow};

use crate::block::CheckedBlock;
use byte_fields::Format;
use lru::LruCache;
use std::alloc::{AllocError, Global};
use std::collections::BTreeMap;
use std::num::NonZeroUsize;

/// The blocks of files that were used last.
///
/// Each file has a number of its own in the cache. To forget a file is to forget that number: no
/// block is found under it any more, and newer ones push out those that are left.
#[derive(Drop)]
pub struct BlockCache {
    // The numbers of files, by their numbers on the disk.
    numbers: BTreeMap<u64, u64>,
    // By the number here and the place in the file.
    blocks: LruCache<(u64, u64), CheckedBlock>,
    // The first number that no file has had.
    next: u64,
    ghost apart: { NumbersDiffer numbers },
    ghost used: { NumbersAreBelow numbers blocks.entries next },
}

impl BlockCache {
    ghost use Rattle.table_files.specs.Caches.{CacheHolds, AddsNoBlock};
    ghost use Rattle.byte_fields.specs.declared.format.Format.{Format};

    /// A cache without blocks, for at most so many.
    pub fn new(alloc: Global, capacity: NonZeroUsize) -> Result<BlockCache, AllocError>
        ensures { IfOk result (λ cache. (file place : ℕ) (format : Format) (bytes : List ℕ) →
            CacheHolds cache file place format bytes → ⊥) }
    {
        Ok(BlockCache {
            numbers: BTreeMap::new(alloc),
            blocks: LruCache::sparse(alloc, capacity)?,
            next: 0,
        })
    }

    /// The block of the format that is kept for a place of the file.
    pub fn get(
        &mut self,
        file: u64,
        place: u64,
        format: Format,
    ) -> Result<Option<CheckedBlock>, AllocError>
        ensures found { IfOk result (λ found. IfSome found (λ block.
            CacheHolds self.old file place format (rc_slice_items block.bytes))) }
        ensures format { IfOk result (λ found. IfSome found (λ block. block.format ≡ format)) }
        ensures keeps { AddsNoBlock self.old self.new }
    {
        let Some(number) = self.numbers.get(&file) else {
            return Ok(None);
        };
        let key = (*number, place);
        let Some(block) = self.blocks.peek(&key) else {
            return Ok(None);
        };
        if !block.format.is_same(format) {
            return Ok(None);
        }
        let found = block.clone()?;
        self.blocks.promote(&key);
        Ok(Some(found))
    }

    // The number of the file, and a new one if it has none.
    fn number_of(&mut self, file: u64) -> Option<u64>
        ensures number { IfSome result (λ number. get nat_cmp self.new.numbers file ≡ Some number) }
        ensures keeps { AddsNoBlock self.old self.new }
    {
        if let Some(number) = self.numbers.get(&file) {
            return Some(*number);
        }
        let number = self.next;
        let next = number.checked_add(1)?;
        let Ok(_) = self.numbers.insert(file, number) else {
            return None;
        };
        self.next = next;
        Some(number)
    }

    /// Keeps a block for a place of the file, where there is memory for it.
    pub fn keep(&mut self, file: u64, place: u64, block: &CheckedBlock)
        ensures { (f p : ℕ) (format : Format) (bytes : List ℕ) →
            CacheHolds self.new f p format bytes → CacheHolds self.old f p format bytes
            ⊎ ((f ≡ file) × (p ≡ place) × (format ≡ block.now.format)
            × (bytes ≡ rc_slice_items block.now.bytes)) }
    {
        let Some(number) = self.number_of(file) else {
            return;
        };
        if let Ok(copy) = block.clone() {
            let _ = self.blocks.put((number, place), copy);
        }
    }

    /// Forgets all blocks.
    pub fn clear(&mut self)
        ensures { (file place : ℕ) (format : Format) (bytes : List ℕ) →
            CacheHolds self.new file place format bytes → ⊥ }
    {
        self.numbers.clear();
    }

    /// Forgets the blocks of the file.
    pub fn forget(&mut self, file: u64)
        ensures gone { (place : ℕ) (format : Format) (bytes : List ℕ) →
            CacheHolds self.new file place format bytes → ⊥ }
        ensures keeps { AddsNoBlock self.old self.new }
    {
        self.numbers.remove(&file);
    }
}
