// The files of a disk: written, as words say them, and put as lines.
use anyhow::{Context, Result};
use disk::{Disk, DiskError, MemDisk};
use std::alloc::{AllocError, Global};
use std::str::Split;

// Writes a file, whose bytes are durable then.
fn write_file(disk: &mut MemDisk, file: u64, bytes: &[u8]) -> Result<(), DiskError> {
    disk.write_at(file, 0, bytes)?;
    disk.sync(file)
}

// Writes the file of a word.
fn write_word(alloc: Global, disk: &mut MemDisk, word: &str) -> Result<()> {
    let (file, bytes) = word.split_once('=').context("no file")?;
    let file = file.parse::<u64>()?;
    let bytes = hex::decode(alloc, bytes.as_bytes())?;
    let written = write_file(disk, file, &bytes);
    drop(bytes);
    Ok(written?)
}

/// Writes the files that the words are, each with its bytes.
pub fn write_words(alloc: Global, disk: &mut MemDisk, words: Split<'_, char>) -> Result<()> {
    for word in words {
        write_word(alloc, disk, word)?;
    }
    Ok(())
}

// Puts bytes in hexadecimal.
fn put_bytes(alloc: Global, text: &mut String, bytes: &[u8]) -> Result<(), AllocError> {
    let spelled = hex::encode(alloc, bytes)?;
    let put = text.push_str(spelled.as_str());
    drop(spelled);
    put
}

// Puts a file: its number, and its bytes.
fn put_file(
    alloc: Global,
    text: &mut String,
    line: u64,
    disk: &mut MemDisk,
    file: u64,
) -> Result<()> {
    let length = disk.length(file)?;
    let mut bytes = vec![in alloc; 0u8; length as usize]?;
    disk.read(file, 0, &mut bytes)?;
    write!(text, "{line}: file {file} ")?;
    put_bytes(alloc, text, &bytes)?;
    text.push_str("\n")?;
    Ok(())
}

/// Puts the files of a disk, each with its bytes.
pub fn put_files(alloc: Global, text: &mut String, line: u64, disk: &mut MemDisk) -> Result<()> {
    for file in &disk.files()? {
        put_file(alloc, text, line, disk, *file)?;
    }
    Ok(())
}
