//! Reads of an engine, and the snapshots that keep numbers readable.
ghost use Rattle.std.specs.Prelude.{◌≡◌, IfOk, MatchResult};
ghost use Rattle.store_tables.specs.Errors.{IsEnd};
ghost use Rattle.store_files.specs.OpenFiles.{AreUsableFiles};

use crate::Engine;
use compaction::laws::merges_outlive_calls;
use disk::Disk;
use kv_types::{Key, Number, Page, Range, Value};
use std::alloc::Global;
use store_files::EngineError;
use store_files::laws::held_files_are_left;

impl<D: Disk + Drop> Engine<D> {
    ghost use Rattle.std.specs.Prelude.{◌≡◌, ◌↔◌, List, take};
    ghost use Rattle.std.specs.Prelude.{IfOk, IsErrOf, MatchResult};
    ghost use Rattle.byte_fields.specs.{row_key};
    ghost use Rattle.kv_types.specs.{BatchContent, map_of, stored_span};
    ghost use Rattle.kv_types.specs.Pages.{page_of};
    ghost use Rattle.engine.specs.Calls.{ChangesSnapshots, IsCloseAnswer, IsNoDamage};
    ghost use Rattle.engine.specs.Calls.{IsOpenAnswer, IsReadableAnswer, MemoryHas, OfEachList};
    ghost use Rattle.engine.specs.Calls.{ReadsEngine};
    ghost use Rattle.engine.specs.Engines.{EngineReads, HasEnded};
    ghost use Rattle.engine.specs.Engines.{engine_disk, engine_version};
    ghost use Rattle.engine.specs.Engines.{look_ups, with_closed, with_opened};
    ghost use Rattle.store_tables.specs.RangeReads.{OneIsDamagedIn};
    ghost use Rattle.store_tables.specs.TableReads.{NeedsNoDisk, OneNamedLacksBlock};

    // Whether a read at the number may be answered.
    fn may_read(&self, at: Number) -> Result<(), EngineError>
        ensures readable { IsReadableAnswer (look_ups self.now) at result }
        ensures closed { IsErrOf result EngineError.Failed ↔ HasEnded self.now }
        ensures lives { MatchResult result (λ _. AreUsableFiles self.now.store)
            (λ e. IsEnd e → ⊥) }
    {
        if self.has_ended {
            return Err(EngineError::Failed);
        }
        if at < self.floor() {
            return Err(EngineError::TooOld);
        }
        if at > self.committed {
            return Err(EngineError::NotCommitted);
        }
        Ok(())
    }

    /// The value of a key in the map of the first `at` batches. Where memory has an entry of the
    /// key that the number may see, the disk is not asked. `Damaged` only where a table whose range
    /// holds the key lacks the block in which the key would be, and no table of a lesser level has
    /// an entry of the key that the number may see.
    pub fn get(
        &mut self,
        alloc: Global,
        at: Number,
        key: &Key,
    ) -> Result<Option<Value>, EngineError>
        ensures reads { ReadsEngine D.Disk self.old self.new result }
        ensures readable { IsReadableAnswer (look_ups self.old) at result }

        // A damaged block of a table is never passed over, and refused only where it is the one in
        // which the key would be.
        ensures found { OfEachList D.Disk self.old (λ list.
            IfOk result (λ value. value ≡ map_of (take at list) key.now)) }
        ensures intact { (list : List BatchContent) → EngineReads D.Disk self.old list →
            IsNoDamage result }
        ensures damaged { OfEachList D.Disk self.old (λ _.
            IsErrOf result EngineError.Damaged →
            OneNamedLacksBlock (D.state (engine_disk self.old))
            (engine_version self.old).version.tables (row_key key.now) at) }
        ensures memory { OfEachList D.Disk self.old (λ list.
            MemoryHas list (engine_version self.old).version.flushed at (row_key key.now) →
            NeedsNoDisk (engine_disk self.old) (engine_disk self.new) result) }
    {
        held_files_are_left(); // law: what the disk of open files reads as, and leaves
        merges_outlive_calls::<D>(); // law: a merge outlives calls that leave its files
        self.may_read(at)?;
        let answer = self.store.get(alloc, &mut self.files, at, key);
        self.has_ended = answer.is_err();
        answer
    }

    /// The rows of a range in the map of the first `at` batches: the longest beginning of its walk
    /// that keeps both limits, and whether more are left. `Damaged` only where a block of a table
    /// is damaged whose keys meet the range.
    pub fn rows(&mut self, alloc: Global, at: Number, range: &Range) -> Result<Page, EngineError>
        ensures reads { ReadsEngine D.Disk self.old self.new result }
        ensures readable { IsReadableAnswer (look_ups self.old) at result }

        // A damaged block of a table is never passed over, and refused only where one of a table
        // that meets the range is.
        ensures found { OfEachList D.Disk self.old (λ list.
            IfOk result (λ page. page ≡ page_of (take at list) range.now)) }
        ensures intact { (list : List BatchContent) → EngineReads D.Disk self.old list →
            IsNoDamage result }
        ensures damaged { OfEachList D.Disk self.old (λ _.
            IsErrOf result EngineError.Damaged →
            OneIsDamagedIn (stored_span range.now) (D.state (engine_disk self.old))
            (engine_version self.old).version.tables) }
    {
        held_files_are_left(); // law: what the disk of open files reads as, and leaves
        merges_outlive_calls::<D>(); // law: a merge outlives calls that leave its files
        self.may_read(at)?;
        let answer = self.store.rows(alloc, &mut self.files, at, range);
        self.has_ended = answer.is_err();
        answer
    }

    /// Opens a snapshot at a number that can be read. While it is open, the number stays readable.
    pub fn open_snapshot(&mut self, at: Number) -> Result<(), EngineError>
        ensures changes { ChangesSnapshots D.Disk self.old self.new
            (λ told. with_opened told at) result }
        ensures opened { IsOpenAnswer (look_ups self.old) at result }
    {
        held_files_are_left(); // law: what the disk of open files reads as, and leaves
        merges_outlive_calls::<D>(); // law: a merge outlives calls that leave its files
        self.may_read(at)?;
        if self.snapshots.is_full() {
            return Err(EngineError::TooManySnapshots);
        }
        match self.snapshots.add(at) {
            Ok(()) => Ok(()),
            Err(_) => {
                self.has_ended = true;
                Err(EngineError::Memory)
            }
        }
    }

    /// Closes the snapshot of this number that was opened last. It takes no memory.
    pub fn close_snapshot(&mut self, number: Number) -> Result<(), EngineError>
        ensures changes { ChangesSnapshots D.Disk self.old self.new
            (λ told. with_closed told number) result }
        ensures closed { IsCloseAnswer (look_ups self.old) number result }
    {
        held_files_are_left(); // law: what the disk of open files reads as, and leaves
        merges_outlive_calls::<D>(); // law: a merge outlives calls that leave its files
        if self.has_ended {
            return Err(EngineError::Failed);
        }
        if !self.snapshots.contains(number) {
            return Err(EngineError::NoSuchSnapshot);
        }
        self.snapshots.remove(number);
        Ok(())
    }
}
