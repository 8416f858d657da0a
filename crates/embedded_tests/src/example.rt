//! The example of the README: a store in a folder, with puts, a get, a snapshot, a walk and a tend;
//! and that a folder has one user at a time.
use crate::cases::{done, is_so};
use crate::items::{batch_of, is_same, key_of};
use crate::scratch_folders::{empty_folder, remove_folder};
use disk::Disk;
use embedded_store::{EmbeddedStore, EngineError, OpenError};
use kv_types::{Batch, Key, Limits, Number, Row, Value};
use std::alloc::Global;
use std::process::Abort;

// README begins
/// The snapshot's first hundred rows, in the order of their keys.
fn walk<D: Disk + Drop>(
    alloc: Global,
    store: &mut EmbeddedStore<D>,
    snapshot: Number,
) -> Result<Vec<Row>, EngineError> {
    let mut rows = Vec::new(alloc);
    let mut cursor = store.cursor(alloc, Some(snapshot));
    cursor.first(alloc, store)?;
    for _ in 0..100u64 {
        let Some(row) = cursor.row() else {
            break;
        };
        rows.push(row.clone()?)?;
        cursor.next(alloc, store)?;
    }
    Ok(rows)
}

/// Writes two batches; answers what the key has now, and all that was there between the two.
fn write_and_read<D: Disk + Drop>(
    alloc: Global,
    store: &mut EmbeddedStore<D>,
    batches: (&Batch, &Batch),
    key: &Key,
) -> Result<(Option<Value>, Vec<Row>), EngineError> {
    store.write(batches.0)?;
    let snapshot = store.snapshot()?;
    store.write(batches.1)?;
    store.tend(alloc)?;
    let before = walk(alloc, store, snapshot)?;
    store.release(snapshot)?;
    let now = store.get(alloc, key, None)?;
    Ok((now, before))
}

/// The same in a folder, whose store is opened, or created where there is none.
fn in_folder(
    rt: &HostRuntime,
    folder: &str,
    batches: (&Batch, &Batch),
    key: &Key,
) -> Result<(Option<Value>, Vec<Row>), OpenError> {
    let mut store = EmbeddedStore::open(rt, folder, &Limits::default())?;
    let found = write_and_read(rt.alloc(), &mut store, batches, key);
    store.close();
    Ok(found?)
}
// README ends

// Whether it is one row with this value.
fn is_one(rows: &[Row], want: &[u8]) -> bool {
    match rows {
        [row] => is_same(row.value(), want),
        _ => false,
    }
}

// Whether the newest value is this.
fn is_newest(value: &Option<Value>, want: &[u8]) -> bool {
    match value {
        Some(value) => is_same(value.as_bytes(), want),
        None => false,
    }
}

fn run_example(rt: &impl Abort, host: &HostRuntime, folder: &str) {
    let alloc = host.alloc();
    let key = key_of(rt, alloc, b"name");
    let first = batch_of(rt, alloc, &[(b"name", Some(b"Ada"))]);
    let second = batch_of(rt, alloc, &[(b"name", Some(b"Grace"))]);
    let found = in_folder(host, folder, (&first, &second), &key);
    drop(key);
    drop(first);
    drop(second);
    let (now, before) = done(rt, found);
    let (is_new, is_old) = (is_newest(&now, b"Grace"), is_one(&before, b"Ada"));
    drop(now);
    drop(before);
    is_so(rt, is_new, "the newest value");
    is_so(rt, is_old, "the rows of the snapshot");
}

#[test]
fn what_was_there_before_is_read(rt: HostRuntime) {
    let folder = empty_folder(&rt, &rt, "embedded_example");
    run_example(&rt, &rt, folder.as_str());
    remove_folder(&rt, &rt, folder.as_str());
}

// Whether the folder can be opened.
fn refusal(host: &HostRuntime, folder: &str) -> Option<OpenError> {
    match EmbeddedStore::open(host, folder, &Limits::default()) {
        Ok(store) => {
            store.close();
            None
        }
        Err(e) => Some(e),
    }
}

#[test]
fn a_folder_has_one_user(rt: HostRuntime) {
    let folder = empty_folder(&rt, &rt, "embedded_lock");
    let path = folder.as_str();
    let store = done(&rt, EmbeddedStore::open(&rt, path, &Limits::default()));
    let is_new = store.count() == Number::ZERO;
    let second = refusal(&rt, path);
    store.close();
    is_so(&rt, is_new, "no batches");
    is_so(&rt, second == Some(OpenError::InUse), "it is in use");
    is_so(&rt, refusal(&rt, path).is_none(), "it is free again");
    remove_folder(&rt, &rt, path);
}
