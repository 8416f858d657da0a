// Numbers, rows and batches of a store, as text. Keys and values are in hexadecimal.
use disk::MemDisk;
use engine::Engine;
use kv_types::{Batch, Edit, Page};
use std::alloc::{AllocError, Global};

// Puts words, each with a number behind it.
fn put_named(text: &mut String, words: &[(&str, u64)]) -> Result<(), AllocError> {
    for (word, number) in words {
        write!(text, "{word} {number} ")?;
    }
    Ok(())
}

/// Puts the numbers of a store, and how many tables each level has.
pub fn put_numbers(text: &mut String, engine: &Engine<MemDisk>) -> Result<(), AllocError> {
    let words = [
        ("node", u64::from(engine.id().get())),
        ("epoch", u64::from(engine.epoch().get())),
        ("count", engine.count().get()),
        ("floor", engine.floor().get()),
        ("kept", engine.kept().get()),
    ];
    put_named(text, &words[..])?;
    text.push_str("tables")?;
    for tables in &engine.tables() {
        write!(text, " {tables}")?;
    }
    Ok(())
}

/// Puts bytes.
pub fn put_bytes(alloc: Global, text: &mut String, bytes: &[u8]) -> Result<(), AllocError> {
    let spelled = hex::encode(alloc, bytes)?;
    let put = text.push_str(spelled.as_str());
    drop(spelled);
    put
}

/// Puts a key and a value.
pub fn put_row(
    alloc: Global,
    text: &mut String,
    key: &[u8],
    value: &[u8],
) -> Result<(), AllocError> {
    text.push_str(" ")?;
    put_bytes(alloc, text, key)?;
    text.push_str("=")?;
    put_bytes(alloc, text, value)
}

/// Puts the rows of a page.
pub fn put_page(alloc: Global, text: &mut String, page: &Page) -> Result<(), AllocError> {
    for row in page.rows() {
        put_row(alloc, text, row.key(), row.value())?;
    }
    Ok(())
}

fn put_edit(alloc: Global, text: &mut String, edit: &Edit) -> Result<(), AllocError> {
    match edit {
        Edit::Put(key, value) => put_row(alloc, text, key.as_bytes(), value.as_bytes()),
        Edit::Delete(key) => {
            text.push_str(" -")?;
            put_bytes(alloc, text, key.as_bytes())
        }
    }
}

/// Puts the edits of a batch.
pub fn put_batch(alloc: Global, text: &mut String, batch: &Batch) -> Result<(), AllocError> {
    for edit in batch.edits() {
        put_edit(alloc, text, edit)?;
    }
    Ok(())
}
