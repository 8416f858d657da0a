//! Writes of batches that a client may repeat blindly, by their marks.
ghost use Rattle.std.specs.Prelude.{◌≤◌, List, IfErr, IfSome, IsErrOf, IsSomeAnd, MatchResult};
ghost use Rattle.std.specs.Prelude.{Some};
ghost use Rattle.kv_types.specs.{BatchContent, mark_of};
ghost use Rattle.disk.specs.{IsEnvironmental};
ghost use Rattle.engine.specs.{NeedsNoDisk, ReadsEngine, look_ups};
ghost use Rattle.engine.specs.EngineError.TheVariants.{Damaged, Disk, Memory};
ghost use Rattle.embedded_store.specs.Once.{AnswersOnce, CountsOnce, FindsRecency, IsLookRefusal};
ghost use Rattle.embedded_store.specs.Once.{IsOnceRefusal, LacksLastMark, MakesCallsFor};
ghost use Rattle.embedded_store.specs.Once.{MemoryHasMark, ReadsUnlessNew, WritesOnce, ending};
ghost use Rattle.embedded_store.specs.Once.{recency, recency_by};
ghost use Rattle.embedded_store.specs.Stores.{HoldsBatches, ShowsBatches, store_disk, store_engine};

use crate::{EmbeddedStore, OnceError};
use disk::Disk;
use kv_types::{Batch, Mark, Number};
use std::alloc::Global;

impl<D: Disk + Drop> EmbeddedStore<D> {
    // The number of the batch that bears this mark, where it is the last mark of its client;
    // `OldRequest` where that is of a greater request.
    fn number_held(&mut self, alloc: Global, mark: Mark) -> Result<Option<Number>, OnceError>
        ensures reads { ReadsEngine D.Disk (store_engine self.old) (store_engine self.new)
            (ending result) }
        ensures told { MatchResult result (λ held. IfSome held (λ number.
            number ≤ (look_ups (store_engine self.old)).count)) IsLookRefusal }
        ensures found { (list : List BatchContent) → ShowsBatches D.Disk self.old list →
            FindsRecency (recency_by (Some mark) list) result }
        ensures refused { (list : List BatchContent) → HoldsBatches D.Disk self.old list →
            IfErr (ending result) (IsEnvironmental Disk Memory) }
        ensures damaged { (list : List BatchContent) → ShowsBatches D.Disk self.old list →
            IsErrOf (ending result) Damaged → LacksLastMark D.Disk self.old mark }
        ensures memory { (list : List BatchContent) → ShowsBatches D.Disk self.old list →
            MemoryHasMark D.Disk self.old list mark →
            NeedsNoDisk (store_disk self.old) (store_disk self.new) (ending result) }
    {
        match self.engine.mark(alloc, mark.client)? {
            Some(held) if held.request == mark.request => Ok(Some(held.number)),
            Some(held) if held.request > mark.request => Err(OnceError::OldRequest),
            _ => Ok(None),
        }
    }

    /// Writes a batch as `write` does, unless its mark is the last one of its client in the list.
    /// Then nothing is written, and the answer is the number of the batch that bears it: so a
    /// client may repeat its last request blindly. `OldRequest` where the last one is of a greater
    /// request. A batch without a mark is always written. Where memory has a mark of the client, no
    /// table is asked for it.
    pub fn write_once(&mut self, alloc: Global, batch: &Batch) -> Result<Number, OnceError>
        ensures changes { WritesOnce D.Disk self.old self.new batch.now result }
        ensures told { CountsOnce (look_ups (store_engine self.old))
            (look_ups (store_engine self.new)) result }
        ensures answers { (list : List BatchContent) → ShowsBatches D.Disk self.old list →
            AnswersOnce batch.now list result
            × ReadsUnlessNew D.Disk self.old self.new (recency batch.now list) result }
        ensures refused { (list : List BatchContent) → HoldsBatches D.Disk self.old list →
            IfErr (ending result) (IsEnvironmental Disk Memory) }
        ensures damaged { (list : List BatchContent) → ShowsBatches D.Disk self.old list →
            IsErrOf (ending result) Damaged →
            IsSomeAnd (mark_of batch.now) (LacksLastMark D.Disk self.old) }
        ensures memory { (list : List BatchContent) → ShowsBatches D.Disk self.old list →
            IfSome (mark_of batch.now) (MemoryHasMark D.Disk self.old list) →
            MakesCallsFor D.Disk self.old (recency batch.now list) self.new result }
        ensures causes { IfErr result (IsOnceRefusal (look_ups (store_engine self.old)).count) }
    {
        if let Some(mark) = batch.mark() {
            if let Some(number) = self.number_held(alloc, mark)? {
                return Ok(number);
            }
        }
        self.write(batch).map_err(OnceError::Store)
    }
}
