//! Look-ups of a stored key, in memory and then in the tables: of the value of a row, and of the
//! last mark of a client.
ghost use Rattle.std.specs.Prelude.{◌≡◌, ◌<◌, ◌≤◌, IfErr, IfOk, IfSome, IsErrOf, IsSomeAnd, length};
ghost use Rattle.std.specs.Prelude.{take};
ghost use Rattle.std.specs.Option.{option_flatten, option_map};
ghost use Rattle.disk.specs.{IsEnvironmental, IsSame};
ghost use Rattle.kv_types.specs.declared.bounds.TheConstants.{MAX_VALUE};
ghost use Rattle.byte_fields.specs.{mark_key, row_key};
ghost use Rattle.kv_types.specs.{held_as, map_of, mark_held};
ghost use Rattle.memtable.specs.{HasFailedAdd, TableHolds};
ghost use Rattle.batch_logs.specs.Reads.{OnlyReads};
ghost use Rattle.store_tables.specs.declared.error.EngineError.TheVariants.{Damaged, Disk, Memory};
ghost use Rattle.store_tables.specs.LevelTables.{found_value};
ghost use Rattle.store_tables.specs.TableReads.{NeedsNoDisk, OneNamedLacksBlock};
ghost use Rattle.store_files.specs.OpenFiles.{AreUsableFiles, IfHeld, IfMeant, MemoryLacks};
ghost use Rattle.store_files.specs.OpenFiles.{batch_count, known_facts, known_version};
ghost use Rattle.store_files.specs.ShownValues.{EntriesShow, IsMarkEntry, IsShownIn, mark_in};
ghost use Rattle.store_files.specs.ShownValues.{shown_of};

use crate::{EngineError, StoreFiles};
use byte_fields::StoredKey;
use disk::Disk;
use kv_types::laws::{held_is_last, rows_are_stored, views_are_marks};
use kv_types::{HeldMark, Key, Number, Value};
use memtable::{Found, Memtable};
use sorted_table::FoundVersion;
use std::alloc::{AllocError, Global};
use store_model::look_ups_are_maps;
use store_tables::laws::{levels_rise, table_look_ups_are_maps};
use table_files::CachedDisk;

/// What the view at a number shows at a key: the value, and the number of the entry that puts it.
#[derive(Drop)]
pub struct ShownValue {
    pub number: u64,
    pub value: Value,
}

// What memory has of the key: an entry that puts a value, a deletion, or nothing.
fn in_memory(
    memtable: &Memtable,
    at: Number,
    key: &StoredKey,
) -> Result<Option<Option<ShownValue>>, AllocError>
    requires { HasFailedAdd memtable.now → ⊥ }
    ensures { IfOk result (EntriesShow at (TableHolds memtable.now) key.now) }
{
    match memtable.get(key, at).unwrap() {
        Found::Value(value, number) => {
            let value = value.clone()?;
            Ok(Some(Some(ShownValue { number, value })))
        }
        Found::Deleted => Ok(Some(None)),
        Found::None => Ok(None),
    }
}

// What a version that was found shows; a deletion shows nothing.
fn shown_by(found: Option<FoundVersion>) -> Result<Option<ShownValue>, EngineError>
    ensures shown { IfOk result (λ shown. shown ≡ shown_of found) }
    ensures damaged { IfErr result (λ e. (e ≡ EngineError.Damaged)
        × IsSomeAnd (option_flatten (found_value found)) (λ bytes. MAX_VALUE < length bytes)) }
{
    let Some(FoundVersion { number, value }) = found else {
        return Ok(None);
    };
    let Some(bytes) = value else {
        return Ok(None);
    };
    match Value::new(bytes) {
        Ok(value) => Ok(Some(ShownValue { number, value })),
        Err(_) => Err(EngineError::Damaged),
    }
}

// The value without the number.
fn value_in(shown: Option<ShownValue>) -> Option<Value>
    ensures { result ≡ option_map (λ it. it.value) shown }
{
    match shown {
        Some(shown) => Some(shown.value),
        None => None,
    }
}

// What stands at the key of a client as its mark: the request is the value, in eight bytes, and the
// number the entry's, which is at most this. Anything else is damage.
fn mark_of(shown: Option<ShownValue>, at: Number) -> Result<Option<HeldMark>, EngineError>
    ensures held { IfOk result (λ held. mark_in shown ≡ held_as held) }
    ensures within { IfOk result (λ held. IfSome held (λ it. it.number ≤ at)) }
    ensures damaged { IfErr result (λ e. (e ≡ EngineError.Damaged)
        × (IfSome shown (IsMarkEntry at) → ⊥)) }
{
    let Some(shown) = shown else {
        return Ok(None);
    };
    let [a, b, c, d, e, f, g, h] = shown.value.as_bytes() else {
        return Err(EngineError::Damaged);
    };
    let request = u64::from_be_bytes([*a, *b, *c, *d, *e, *f, *g, *h]);
    match Number::new(shown.number) {
        Some(number) if number <= at => Ok(Some(HeldMark { request, number })),
        _ => Err(EngineError::Damaged),
    }
}

impl StoreFiles {
    // What the view of the first `at` batches shows at a key.
    fn find<D: Disk + Drop>(
        &self,
        alloc: Global,
        files: &mut CachedDisk<D>,
        at: Number,
        key: &StoredKey,
    ) -> Result<Option<ShownValue>, EngineError>
        requires usable { AreUsableFiles self.now }
        ensures reads { OnlyReads ⟦<CachedDisk<D> as Disk>⟧ files.old files.new IsSame result }
        ensures found { IfMeant ⟦<CachedDisk<D> as Disk>⟧ files.old self.now (λ list.
            (known_facts self.now).floor ≤ at → at ≤ batch_count self.now →
            IfOk result (IsShownIn list at key.now)) }
        ensures intact { IfHeld ⟦<CachedDisk<D> as Disk>⟧ files.old self.now (λ list.
            IfErr result (IsEnvironmental Disk Memory)) }
        ensures damaged { IfMeant ⟦<CachedDisk<D> as Disk>⟧ files.old self.now (λ _.
            IsErrOf result Damaged →
            OneNamedLacksBlock (⟦<CachedDisk<D> as Disk>⟧.state files.old)
            (known_version self.now).version.tables key.now at) }
        ensures memory { (MemoryLacks self.now at key.now → ⊥) →
            NeedsNoDisk files.old files.new result }
    {
        levels_rise(); // law: tables stand in order of level
        // laws: what memory or else the tables have of a key is what the batches have
        look_ups_are_maps();
        table_look_ups_are_maps();
        if let Some(shown) = in_memory(&self.memtable, at, key)? {
            return Ok(shown);
        }
        shown_by(self.tables.get(alloc, files, key, at)?)
    }

    /// The value of a key in the map of the first `at` batches: looked up in memory, and then in
    /// the tables. Where memory has an entry of the key that the number may see, the disk is not
    /// asked. `Damaged` only where a table whose range holds the key lacks the block in which the
    /// key would be, and no table of a lesser level has an entry of the key that the number may
    /// see.
    pub fn get<D: Disk + Drop>(
        &self,
        alloc: Global,
        files: &mut CachedDisk<D>,
        at: Number,
        key: &Key,
    ) -> Result<Option<Value>, EngineError>
        requires usable { AreUsableFiles self.now }
        ensures reads { OnlyReads ⟦<CachedDisk<D> as Disk>⟧ files.old files.new IsSame result }
        ensures found { IfMeant ⟦<CachedDisk<D> as Disk>⟧ files.old self.now (λ list.
            (known_facts self.now).floor ≤ at → at ≤ batch_count self.now →
            IfOk result (λ value. value ≡ map_of (take at list) key.now)) }
        ensures intact { IfHeld ⟦<CachedDisk<D> as Disk>⟧ files.old self.now (λ list.
            IfErr result (IsEnvironmental Disk Memory)) }
        ensures damaged { IfMeant ⟦<CachedDisk<D> as Disk>⟧ files.old self.now (λ _.
            IsErrOf result Damaged →
            OneNamedLacksBlock (⟦<CachedDisk<D> as Disk>⟧.state files.old)
            (known_version self.now).version.tables (row_key key.now) at) }
        ensures memory { (MemoryLacks self.now at (row_key key.now) → ⊥) →
            NeedsNoDisk files.old files.new result }
    {
        rows_are_stored(); // law: what batches leave at the key of a row is what their map has
        let stored = key.stored();
        Ok(value_in(self.find(alloc, files, at, stored)?))
    }

    /// The last mark of a client in the list: looked up in memory, and then in the tables. Where
    /// memory has an entry of the client, the disk is not asked. `Damaged` only where a table whose
    /// range holds the key of the client lacks the block in which it would be, and no table of a
    /// lesser level has an entry of it.
    pub fn mark<D: Disk + Drop>(
        &self,
        alloc: Global,
        files: &mut CachedDisk<D>,
        client: u64,
    ) -> Result<Option<HeldMark>, EngineError>
        requires usable { AreUsableFiles self.now }
        ensures reads { OnlyReads ⟦<CachedDisk<D> as Disk>⟧ files.old files.new IsSame result }
        ensures found { IfMeant ⟦<CachedDisk<D> as Disk>⟧ files.old self.now (λ list.
            IfOk result (λ held. mark_held list client ≡ held_as held)) }
        ensures intact { IfHeld ⟦<CachedDisk<D> as Disk>⟧ files.old self.now (λ list.
            IfErr result (IsEnvironmental Disk Memory)) }
        ensures damaged { IfMeant ⟦<CachedDisk<D> as Disk>⟧ files.old self.now (λ _.
            IsErrOf result Damaged →
            OneNamedLacksBlock (⟦<CachedDisk<D> as Disk>⟧.state files.old)
            (known_version self.now).version.tables (mark_key client) (batch_count self.now)) }
        ensures memory { IfMeant ⟦<CachedDisk<D> as Disk>⟧ files.old self.now (λ _.
            (MemoryLacks self.now (batch_count self.now) (mark_key client) → ⊥) →
            NeedsNoDisk files.old files.new result) }
        ensures within { IfOk result (λ held. IfSome held (λ it.
            it.number ≤ batch_count self.now)) }
    {
        // laws: the entry that is shown at the key of a client is that of its last mark
        views_are_marks();
        held_is_last();
        let at = self.logs.last_number();
        let key = StoredKey::of_client(alloc, client)?;
        mark_of(self.find(alloc, files, at, &key)?, at)
    }
}
