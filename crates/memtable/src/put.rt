//! Adding the entries of a batch to the versions of keys.

ghost use Rattle.std.specs.Prelude.{◌≡◌, IfOk, OnOk, if◌then◌else◌, Some};
ghost use Rattle.std.specs.Str.{bytes_eq};
ghost use Rattle.byte_fields.specs.{StoredKey as Stored};
ghost use Rattle.kv_types.specs.Entries.{mark_edits, row_edit};
ghost use Rattle.kv_types.specs.Maps.{value_put};
ghost use Rattle.memtable.specs.Versions.{lacks, with_version};
ghost use Rattle.memtable.specs.Maps.{Adds, IsAbove, edits_put, versions_at};
ghost use Rattle.memtable.specs.Sizes.{edit_size, edits_size, capped_sum};

use crate::bounds::{ENTRY_BYTES, MARK_BYTES};
use crate::version::{Version, Versions};
use byte_fields::StoredKey;
use kv_types::{Edit, Mark, Value};
use std::alloc::{AllocError, Global};
use std::collections::BTreeMap;
use std::collections::btree_map::Entry;

/// A copy of the value that an edit leaves.
fn value_of(edit: &Edit) -> Result<Option<Value>, AllocError>
    ensures { IfOk result (λ value. value ≡ value_put edit.now) }
{
    match edit.value() {
        Some(value) => Ok(Some(value.clone()?)),
        None => Ok(None),
    }
}

/// The bytes that the entry of a row's edit takes.
fn size_of(edit: &Edit) -> u64
    ensures { result ≡ edit_size (row_edit edit.now) }
{
    let key = edit.key().as_bytes().len() as u64;
    match edit.value() {
        Some(value) => key + value.as_bytes().len() as u64 + ENTRY_BYTES,
        None => key + ENTRY_BYTES,
    }
}

/// Adds a version of a key, unless the newest one of the key has its number. Says whether it did.
fn put(
    alloc: Global,
    map: &mut BTreeMap<StoredKey, Versions>,
    key: StoredKey,
    version: Version,
) -> Result<bool, AllocError>
    ensures puts { OnOk result ((q : Stored) → versions_at map.new q ≡ (if bytes_eq key q
        then with_version (versions_at map.old q) version else versions_at map.old q)) }
    ensures is_added { IfOk result (λ added.
        added ≡ lacks (versions_at map.old key) version.number) }
{
    match map.entry(key)? {
        Entry::Occupied(entry) => entry.into_mut().push(version),
        Entry::Vacant(entry) => {
            entry.insert(Versions::new(alloc, version));
            Ok(true)
        }
    }
}

/// Adds the request of a mark at the key of its client, at this number. Returns the sum of bytes
/// with what was added.
fn put_mark(
    alloc: Global,
    map: &mut BTreeMap<StoredKey, Versions>,
    number: u64,
    mark: Mark,
    bytes: u64,
) -> Result<u64, AllocError>
    requires { IsAbove number map.old }
    ensures puts { OnOk result (Adds number (mark_edits (Some mark)) map.old map.new) }
    ensures bytes { IfOk result (λ sum.
        sum ≡ capped_sum bytes (edits_size (mark_edits (Some mark)))) }
{
    let key = StoredKey::of_client(alloc, mark.client)?;
    let value = Some(mark.to_value(alloc)?);
    put(alloc, map, key, Version { number, value })?;
    Ok(bytes.saturating_add(MARK_BYTES))
}

/// Adds what a mark and each edit leave at their keys, at this number. The last edit of a key wins:
/// they are put from the last on, and an earlier one of the same key is left out. Returns the sum
/// of bytes with what was added.
pub(crate) fn put_all(
    alloc: Global,
    map: &mut BTreeMap<StoredKey, Versions>,
    number: u64,
    edits: &[Edit],
    mark: Option<Mark>,
    bytes: u64,
) -> Result<u64, AllocError>
    requires { IsAbove number map.old }
    ensures puts { OnOk result (Adds number (edits_put edits.now mark) map.old map.new) }
    ensures bytes { IfOk result (λ sum.
        sum ≡ capped_sum bytes (edits_size (edits_put edits.now mark))) }
{
    let mut bytes = match mark {
        Some(mark) => put_mark(alloc, map, number, mark, bytes)?,
        None => bytes,
    };
    for i in (0..edits.len()).rev() {
        let edit = &edits[i];
        let value = value_of(edit)?;
        let key = edit.key().stored().clone()?;
        if put(alloc, map, key, Version { number, value })? {
            bytes = bytes.saturating_add(size_of(edit));
        }
    }
    Ok(bytes)
}
