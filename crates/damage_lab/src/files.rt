// The files of a store as words, and a disk that has them.
use crate::asking::put_answers;
use anyhow::{Context, Result};
use disk::{Disk, DiskError, MemDisk};
use std::alloc::Global;
use std::str::Split;

// Writes a file, whose bytes are durable then.
fn put_file(disk: &mut MemDisk, file: u64, bytes: &[u8]) -> Result<(), DiskError> {
    disk.write_at(file, 0, bytes)?;
    disk.sync(file)
}

// Writes the file of a word.
fn put_word(alloc: Global, disk: &mut MemDisk, word: &str) -> Result<()> {
    let (file, bytes) = word.split_once('=').context("no file")?;
    let file = file.parse::<u64>()?;
    let bytes = hex::decode(alloc, bytes.as_bytes())?;
    let put = put_file(disk, file, &bytes);
    drop(bytes);
    Ok(put?)
}

// Writes the files that the words are, each with its bytes.
fn put_words(alloc: Global, disk: &mut MemDisk, words: Split<'_, char>) -> Result<()> {
    for word in words {
        put_word(alloc, disk, word)?;
    }
    Ok(())
}

// Puts what the store answers whose files these words are, on a disk without files.
fn put_over(
    alloc: Global,
    text: &mut String,
    disk: &mut MemDisk,
    words: Split<'_, char>,
) -> Result<()> {
    put_words(alloc, disk, words)?;
    put_answers(alloc, text, disk)?;
    Ok(())
}

/// Puts what the store answers whose files these words are.
pub fn put_answer(alloc: Global, text: &mut String, words: Split<'_, char>) -> Result<()> {
    let mut disk = MemDisk::new(alloc);
    let put = put_over(alloc, text, &mut disk, words);
    drop(disk);
    put
}
