//! The last mark of a client.
ghost use Rattle.std.specs.Prelude.{◌≡◌, ◌≤◌, ◌↔◌, List, IfOk, IfSome, IsErrOf, MatchResult};
ghost use Rattle.byte_fields.specs.{mark_key};
ghost use Rattle.kv_types.specs.{BatchContent, held_as, mark_held};
ghost use Rattle.store_tables.specs.TableReads.{NeedsNoDisk, OneNamedLacksBlock};
ghost use Rattle.engine.specs.Calls.{IsEndOrAfter, IsNoDamage, MemoryHas, OfEachList, ReadsEngine};
ghost use Rattle.engine.specs.Engines.{EngineReads, IsNearlyFull, engine_disk, engine_version};
ghost use Rattle.engine.specs.Engines.{look_ups};

use crate::Engine;
use compaction::laws::merges_outlive_calls;
use disk::Disk;
use kv_types::HeldMark;
use std::alloc::Global;
use store_files::EngineError;
use store_files::laws::held_files_are_left;

impl<D: Disk + Drop> Engine<D> {
    /// The last mark of a client in the list: the request of the last batch that bears one of its
    /// marks, and that batch's number. Where memory has an entry of the client, the disk is not
    /// asked. `Damaged` only where a table whose range holds the key of the client lacks the block
    /// in which it would be, and no table of a lesser level has an entry of it.
    pub fn mark(&mut self, alloc: Global, client: u64) -> Result<Option<HeldMark>, EngineError>
        ensures reads { ReadsEngine D.Disk self.old self.new result }
        ensures full { IsNearlyFull self.new ↔ IsNearlyFull self.old }
        ensures told { MatchResult result (λ held. IfSome held (λ it.
            it.number ≤ (look_ups self.old).count)) IsEndOrAfter }

        // A damaged block of a table is never passed over, and refused only where it is the one in
        // which the key of the client would be.
        ensures found { OfEachList D.Disk self.old (λ list.
            IfOk result (λ held. mark_held list client ≡ held_as held)) }
        ensures intact { (list : List BatchContent) → EngineReads D.Disk self.old list →
            IsNoDamage result }
        ensures damaged { OfEachList D.Disk self.old (λ _.
            IsErrOf result EngineError.Damaged →
            OneNamedLacksBlock (D.state (engine_disk self.old))
            (engine_version self.old).version.tables (mark_key client)
            (look_ups self.old).count) }
        ensures memory { OfEachList D.Disk self.old (λ list.
            MemoryHas list (engine_version self.old).version.flushed (look_ups self.old).count
            (mark_key client) →
            NeedsNoDisk (engine_disk self.old) (engine_disk self.new) result) }
    {
        held_files_are_left(); // law: what the disk of open files reads as, and leaves
        merges_outlive_calls::<D>(); // law: a merge outlives calls that leave its files
        if self.has_ended {
            return Err(EngineError::Failed);
        }
        let answer = self.store.mark(alloc, &mut self.files, client);
        self.has_ended = answer.is_err();
        answer
    }
}
