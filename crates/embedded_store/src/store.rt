//! A map and its history on a disk.
ghost use Rattle.std.specs.Prelude.{◌≡◌};
ghost use Rattle.engine.specs.{look_ups};

use crate::RowCursor;
use disk::Disk;
use engine::{Engine, EngineError, Tended};
use kv_types::{Batch, Key, Number, Page, Range, Value};
use std::alloc::Global;

/// A store that stands alone: a list of batches on a disk, which it owns, and the maps of its
/// beginnings. Every batch is committed as soon as it is durable.
///
/// A call that is refused for `Disk`, `Damaged` or `Memory` ends the store: each later one that
/// reads or changes it is refused for `Failed`, and an opening tells what there is. But a cursor
/// still steps among rows at hand, and one that wants memory before it reads ends nothing.
#[derive(Drop)]
pub struct EmbeddedStore<D: Disk + Drop> {
    pub(crate) engine: Engine<D>,
    ghost committed: { (look_ups engine).committed ≡ (look_ups engine).count },
}

impl<D: Disk + Drop> EmbeddedStore<D> {
    ghost use Rattle.std.specs.Prelude.{◌≡◌, ◌⊎◌, ◌≤◌, List, None, length};
    ghost use Rattle.std.specs.Prelude.{IfErr, IfOk, IsErrOf, MatchResult};
    ghost use Rattle.byte_fields.specs.{row_key};
    ghost use Rattle.kv_types.specs.declared.bounds.TheConstants.{MAX_NUMBER};
    ghost use Rattle.kv_types.specs.{BatchContent, map_of};
    ghost use Rattle.kv_types.specs.Pages.{page_of};
    ghost use Rattle.disk.specs.{IsEnvironmental};
    ghost use Rattle.engine.specs.{AreOrdered, ChangesList, ChangesSnapshots, IsAdrift};
    ghost use Rattle.engine.specs.{IsAppendRefusal, IsEndOrAfter};
    ghost use Rattle.engine.specs.{IsCloseAnswer, IsNearlyFull, IsReadableAnswer, IsTendFile};
    ghost use Rattle.engine.specs.{IsTendOf, RaisesFactsAtMost, ReadsEngine, raised_facts};
    ghost use Rattle.disk.specs.{MakesCalls};
    ghost use Rattle.engine.specs.{MemoryHas, NeedsNoDisk, OneNamedLacksBlock};
    ghost use Rattle.engine.specs.{engine_version};
    ghost use Rattle.engine.specs.{look_ups, with_opened, with_closed};
    ghost use Rattle.engine.specs.Calls.{TendsAsDue};
    ghost use Rattle.compaction.specs.Outputs.{IsSameBeyond};
    ghost use Rattle.engine.specs.EngineError.TheVariants.{Damaged, Disk, Exhausted, Memory};
    ghost use Rattle.engine.specs.Tended.TheVariants.{Idle};
    ghost use Rattle.embedded_store.specs.Cursors.{CursorIsOf, cursor_number, cursor_row};
    ghost use Rattle.embedded_store.specs.Stores.{HoldsBatches, IsReadRefusal, IsSnapshotRefusal};
    ghost use Rattle.embedded_store.specs.Stores.{MeetsDamageIn, ShowsBatches, WritesBatch};
    ghost use Rattle.embedded_store.specs.Stores.{first_batches, read_number, store_disk};
    ghost use Rattle.embedded_store.specs.Stores.{store_engine, whether, with_one_written};

    // The number that is read.
    fn number_of(&self, at: Option<Number>) -> Number
        ensures number { result ≡ read_number (look_ups (store_engine self.now)) at }
        ensures ordered { AreOrdered (look_ups (store_engine self.now)) }
    {
        let newest = self.engine.count();
        match at {
            Some(at) => at,
            None => newest,
        }
    }

    /// Writes a batch: all of its edits or, where it is refused, none or all. Behind `Ok` it is
    /// durable. Answers its number.
    pub fn write(&mut self, batch: &Batch) -> Result<Number, EngineError>
        ensures changes { WritesBatch D.Disk self.old self.new batch.now result }
        ensures told { MatchResult result
            (λ n. (n ≡ (look_ups (store_engine self.new)).count)
            × (look_ups (store_engine self.new)
            ≡ with_one_written (look_ups (store_engine self.old))))
            (λ _. look_ups (store_engine self.new) ≡ look_ups (store_engine self.old)) }
        ensures refused { (list : List BatchContent) → ShowsBatches D.Disk self.old list →
            IfErr result (λ e. IsEnvironmental Disk Memory e
            ⊎ ((e ≡ Exhausted) × (MAX_NUMBER ≤ length list))) }
        ensures causes { IfErr result (IsAppendRefusal (look_ups (store_engine self.old)).count) }
        ensures calls { MakesCalls D.Disk 4 (store_disk self.old) (store_disk self.new) result }
    {
        let number = self.engine.append(batch)?;
        let _ = self.engine.count(); // law: the numbers are in order
        self.engine.set_committed(number);
        Ok(number)
    }

    /// The value of a key at a number, or at the newest one. Where memory has an entry of the key
    /// that the number may see, the disk is not asked. `Damaged` only where a table whose range
    /// holds the key lacks the block in which the key would be, and no table of a lesser level has
    /// an entry of the key that the number may see.
    pub fn get(
        &mut self,
        alloc: Global,
        key: &Key,
        at: Option<Number>,
    ) -> Result<Option<Value>, EngineError>
        ensures reads { ReadsEngine D.Disk (store_engine self.old) (store_engine self.new) result }
        ensures found { (list : List BatchContent) → ShowsBatches D.Disk self.old list →
            IfOk result (λ value. value ≡ map_of (first_batches at list) key.now) }
        ensures readable { IsReadableAnswer (look_ups (store_engine self.old))
            (read_number (look_ups (store_engine self.old)) at) result }
        ensures refused { (list : List BatchContent) → HoldsBatches D.Disk self.old list →
            IfErr result (IsReadRefusal (look_ups (store_engine self.old)) at) }
        ensures damaged { (list : List BatchContent) → ShowsBatches D.Disk self.old list →
            IsErrOf result Damaged → OneNamedLacksBlock (D.state (store_disk self.old))
            (engine_version (store_engine self.old)).version.tables (row_key key.now)
            (read_number (look_ups (store_engine self.old)) at) }
        ensures memory { (list : List BatchContent) → ShowsBatches D.Disk self.old list →
            MemoryHas list (engine_version (store_engine self.old)).version.flushed
            (read_number (look_ups (store_engine self.old)) at) (row_key key.now) →
            NeedsNoDisk (store_disk self.old) (store_disk self.new) result }
    {
        let at = self.number_of(at);
        self.engine.get(alloc, at, key)
    }

    /// The rows of a range at a number, or at the newest one: the longest beginning of its walk
    /// that keeps both limits, and whether more are left. `Damaged` only where a block of a table
    /// is damaged whose keys meet the range.
    pub fn rows(
        &mut self,
        alloc: Global,
        range: &Range,
        at: Option<Number>,
    ) -> Result<Page, EngineError>
        ensures reads { ReadsEngine D.Disk (store_engine self.old) (store_engine self.new) result }
        ensures found { (list : List BatchContent) → ShowsBatches D.Disk self.old list →
            IfOk result (λ page. page ≡ page_of (first_batches at list) range.now) }
        ensures readable { IsReadableAnswer (look_ups (store_engine self.old))
            (read_number (look_ups (store_engine self.old)) at) result }
        ensures refused { (list : List BatchContent) → HoldsBatches D.Disk self.old list →
            IfErr result (IsReadRefusal (look_ups (store_engine self.old)) at) }
        ensures damaged { MeetsDamageIn D.Disk self.old range.now result }
    {
        let at = self.number_of(at);
        self.engine.rows(alloc, at, range)
    }

    /// A cursor over the map at a number, or at the newest one, on no row. Its moves are refused
    /// where the number cannot be read; that of an open snapshot can.
    pub fn cursor(&self, alloc: Global, at: Option<Number>) -> RowCursor
        ensures number { cursor_number result
            ≡ read_number (look_ups (store_engine self.now)) at }
        ensures none { cursor_row result ≡ None }
        ensures fresh { (list : List BatchContent) → CursorIsOf list result }
    {
        RowCursor::new(alloc, self.number_of(at))
    }

    /// Opens a snapshot at the newest number, and answers the number. Until it is released, it can
    /// be read. One number may have several.
    pub fn snapshot(&mut self) -> Result<Number, EngineError>
        ensures changes { ChangesSnapshots D.Disk (store_engine self.old) (store_engine self.new)
            (λ told. with_opened told told.count) (whether result) }
        ensures number { IfOk result (λ n. n ≡ (look_ups (store_engine self.old)).count) }
        ensures refused { IfErr result (IsSnapshotRefusal (look_ups (store_engine self.old))) }
    {
        let newest = self.engine.count();
        self.engine.open_snapshot(newest)?;
        Ok(newest)
    }

    /// Releases a snapshot of this number. It takes no memory.
    pub fn release(&mut self, number: Number) -> Result<(), EngineError>
        ensures changes { ChangesSnapshots D.Disk (store_engine self.old) (store_engine self.new)
            (λ told. with_closed told number) result }
        ensures closed { IsCloseAnswer (look_ups (store_engine self.old)) number result }
    {
        self.engine.close_snapshot(number)
    }

    /// Does the first that is due: a rewrite of the manifest, a flush, or the next part of a merge.
    /// No answer changes, but for numbers below the floor, that rises where a merge begins.
    pub fn tend(&mut self, alloc: Global) -> Result<Tended, EngineError>
        ensures changes { ChangesList D.Disk (store_engine self.old) (store_engine self.new) result
            (IsNearlyFull (store_engine self.old) ⊎ IsAdrift D.Disk (store_engine self.old))
            (IsSameBeyond (IsTendFile (store_engine self.old)))
            (raised_facts (store_engine self.old)) (λ list. list) }
        ensures told { RaisesFactsAtMost (store_engine self.old) (store_engine self.new) }
        ensures work { TendsAsDue D.Disk (store_engine self.old) (store_engine self.new) result }
        ensures did { MatchResult result
            (IsTendOf (store_engine self.old) (store_engine self.new)) IsEndOrAfter }
        ensures rests { IfOk result (λ done. done ≡ Idle →
            store_disk self.new ≡ store_disk self.old) }
    {
        self.engine.tend(alloc)
    }

    /// The number of batches, which is that of the newest one.
    pub fn count(&self) -> Number
        ensures count { result ≡ (look_ups (store_engine self.now)).count }
        ensures ordered { AreOrdered (look_ups (store_engine self.now)) }
    {
        self.engine.count()
    }

    /// The least number that can be read.
    pub fn floor(&self) -> Number
        ensures { result ≡ (look_ups (store_engine self.now)).facts.floor }
    {
        self.engine.floor()
    }

    /// Gives the store up: what is in memory is freed, and so is a folder's lock.
    pub fn close(self) {
        drop(self.into_disk());
    }

    /// The disk. What is in memory is freed.
    pub fn into_disk(self) -> D
        ensures { result ≡ store_disk self }
    {
        self.engine.into_disk()
    }
}
