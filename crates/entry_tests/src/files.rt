//! Files with a cache of their blocks: each file answers its own block, and a kept block needs no
//! call of the device.
ghost use Rattle.std.specs.Prelude.{◌≤◌, length};

use crate::cases::is_so;
use crate::counts::is_count;
use crate::items::{copy_of, is_same};
use crate::open_tables::{with_cache, write};
use byte_fields::{Format, LentKey, Space};
use disk::{Crash, Disk, Fault, MemDisk};
use sorted_table::CachedDisk;
use std::alloc::Global;
use std::process::Abort;
use table_format::{FileError, LentEntry, put_entry, seal};

/// The length of a block whose one entry has a key and a value of one byte.
const BLOCK: usize = 28;

/// The block whose one entry has this byte as its key and these as its value, at number 1.
fn block_with(rt: &impl Abort, alloc: Global, byte: u8, value: &[u8]) -> Vec<u8>
    requires { length value.now ≤ 16_384 }
{
    let mut block = copy_of(rt, alloc, &[0, 0, 0, 1]);
    let key = [byte];
    let entry = LentEntry {
        key: LentKey::new(Space::Rows, &key),
        number: 1,
        value: Some(value),
    };
    put_entry(&mut block, entry).expect(rt, "memory");
    seal(&mut block).expect(rt, "memory");
    block
}

/// The block whose one entry has this byte as key and value, at number 1.
fn block_of(rt: &impl Abort, alloc: Global, byte: u8) -> Vec<u8> {
    block_with(rt, alloc, byte, &[byte])
}

/// Writes that block at a place of the file.
fn put_block<D: Disk>(
    rt: &impl Abort,
    alloc: Global,
    disk: &mut D,
    (file, place): (u64, u64),
    byte: u8,
) {
    write(rt, disk, file, place, &block_of(rt, alloc, byte));
}

/// Files 1 and 2, whose first blocks have the keys `a` and `b`, with a cache of so many blocks.
fn two_files(rt: &impl Abort, alloc: Global, blocks: usize) -> CachedDisk<MemDisk> {
    let mut disk = MemDisk::new(alloc);
    put_block(rt, alloc, &mut disk, (1, 0), b'a');
    put_block(rt, alloc, &mut disk, (2, 0), b'b');
    with_cache(rt, alloc, disk, blocks)
}

/// Whether the first block of the file is that of the byte.
fn has_block(
    rt: &impl Abort,
    alloc: Global,
    files: &mut CachedDisk<MemDisk>,
    file: u64,
    byte: u8,
) -> bool {
    let block = files
        .block(alloc, file, 0, BLOCK, Format::Two)
        .expect(rt, "a block");
    is_same(&block.bytes, &block_of(rt, alloc, byte))
}

/// How many of ten reads in turn answer the file's own block.
fn own_blocks(rt: &impl Abort, alloc: Global, blocks: usize) -> usize {
    let mut files = two_files(rt, alloc, blocks);
    let mut own = 0usize;
    for _ in 0..5 {
        own = own.wrapping_add(has_block(rt, alloc, &mut files, 1, b'a') as usize);
        own = own.wrapping_add(has_block(rt, alloc, &mut files, 2, b'b') as usize);
    }
    own
}

/// Whether a kept block of format 2 is refused to a reader of format 1, and answered behind it.
fn is_of_its_format(rt: &impl Abort, alloc: Global) -> bool {
    let mut files = two_files(rt, alloc, 2);
    has_block(rt, alloc, &mut files, 1, b'a');
    let other = files.block(alloc, 1, 0, BLOCK, Format::One).err();
    other == Some(FileError::Damaged) && has_block(rt, alloc, &mut files, 1, b'a')
}

#[test]
fn a_block_is_kept_in_its_format(rt: HostRuntime) {
    is_so(&rt, is_of_its_format(&rt, rt.alloc()), "another format");
}

#[test]
fn each_file_answers_its_own_block(rt: HostRuntime) {
    is_count(&rt, own_blocks(&rt, rt.alloc(), 1), 10);
    is_count(&rt, own_blocks(&rt, rt.alloc(), 2), 10);
}

/// The refusal of a read of the file's first block.
fn refusal_of(alloc: Global, files: &mut CachedDisk<MemDisk>, file: u64) -> Option<FileError> {
    files.block(alloc, file, 0, BLOCK, Format::Two).err()
}

/// Reads both blocks, lets every call of the device fail from then on, and says whether each is
/// read again.
fn reads_without_device(rt: &impl Abort, alloc: Global, blocks: usize) -> (bool, bool) {
    let mut files = two_files(rt, alloc, blocks);
    has_block(rt, alloc, &mut files, 1, b'a');
    has_block(rt, alloc, &mut files, 2, b'b');
    files.arm(&Fault::Fail(1));
    let second = refusal_of(alloc, &mut files, 2).is_none();
    (refusal_of(alloc, &mut files, 1).is_none(), second)
}

#[test]
fn a_kept_block_needs_no_device_call(rt: HostRuntime) {
    let one = reads_without_device(&rt, rt.alloc(), 1);
    is_so(&rt, one == (false, true), "a cache of one block");
    let two = reads_without_device(&rt, rt.alloc(), 2);
    is_so(&rt, two == (true, true), "a cache of two");
}

#[test]
fn a_file_that_is_written_is_read_anew(rt: HostRuntime) {
    let alloc = rt.alloc();
    let mut files = two_files(&rt, alloc, 2);
    is_so(&rt, has_block(&rt, alloc, &mut files, 1, b'a'), "before");
    put_block(&rt, alloc, &mut files, (1, 0), b'b');
    is_so(&rt, has_block(&rt, alloc, &mut files, 1, b'b'), "behind it");
}

/// Whether a read of the first block of file 1 says that it is damaged.
fn is_damaged(alloc: Global, files: &mut CachedDisk<MemDisk>) -> bool {
    refusal_of(alloc, files, 1) == Some(FileError::Damaged)
}

// It is damaged twice; then not when it is put right; then again when its file is removed.
#[test]
fn a_changed_byte_is_damage(rt: HostRuntime) {
    let alloc = rt.alloc();
    let mut files = two_files(&rt, alloc, 2);
    write(&rt, &mut files, 1, 4, &[9]);
    is_so(&rt, is_damaged(alloc, &mut files), "a changed byte");
    is_so(&rt, is_damaged(alloc, &mut files), "again");
    put_block(&rt, alloc, &mut files, (1, 0), b'a');
    is_so(&rt, refusal_of(alloc, &mut files, 1).is_none(), "put right");
    files.remove(1).expect(&rt, "a removal");
    is_so(&rt, is_damaged(alloc, &mut files), "no file");
}

// ---- three blocks of one file

/// The length of a block whose one entry has a key of one byte and a value of 5,000.
const LONG: usize = 5_027;

/// The places and lengths of the blocks, and their keys: the second one is long.
static BLOCKS: [(u64, usize, u8); 3] = [(0, BLOCK, b'a'), (28, LONG, b'b'), (5_055, BLOCK, b'c')];

/// File 1 with these blocks, and a cache of three.
fn three_blocks(rt: &impl Abort, alloc: Global) -> CachedDisk<MemDisk> {
    let mut disk = MemDisk::new(alloc);
    put_block(rt, alloc, &mut disk, (1, 0), b'a');
    let long = block_with(rt, alloc, b'b', &[7; 5_000]);
    write(rt, &mut disk, 1, 28, &long);
    put_block(rt, alloc, &mut disk, (1, 5_055), b'c');
    with_cache(rt, alloc, disk, 3)
}

/// How many of the blocks a read answers, each with its key, which stands at place 7.
fn answered(alloc: Global, files: &mut CachedDisk<MemDisk>) -> usize {
    let mut count = 0usize;
    for (place, len, key) in &BLOCKS {
        if let Ok(block) = files.block(alloc, 1, *place, *len, Format::Two) {
            count = count.wrapping_add((block.bytes.get(7) == Some(key)) as usize);
        }
    }
    count
}

#[test]
fn three_blocks_of_a_file_are_kept(rt: HostRuntime) {
    let alloc = rt.alloc();
    let mut files = three_blocks(&rt, alloc);
    is_count(&rt, answered(alloc, &mut files), 3);
    files.arm(&Fault::Fail(1));
    is_count(&rt, answered(alloc, &mut files), 3);
}
