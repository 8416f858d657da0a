//! An adoption of a later configuration.
ghost use Rattle.std.specs.Prelude.{IfErr};
ghost use Rattle.store_tables.specs.declared.error.EngineError.TheVariants.{Disk, Memory};

use crate::Engine;
use compaction::laws::merges_outlive_calls;
use configurations::{Config, Epoch};
use disk::Disk;
use std::alloc::Global;
use store_files::EngineError;
use store_files::laws::{held_files_are_left, open_files_are_apart};

impl<D: Disk + Drop> Engine<D> {
    ghost use Rattle.std.specs.Prelude.{◌≡◌, IfErr, MatchResult};
    ghost use Rattle.disk.specs.{IsEnvironmental, IsSameBut, MakesCalls};
    ghost use Rattle.engine.specs.Calls.{ChangesList, IsEndOrAfter, MergeStays, OfEachList};
    ghost use Rattle.engine.specs.Engines.{HasNearlyFullSlot, counting_slot_file, facts_of};
    ghost use Rattle.engine.specs.Engines.{engine_disk, look_ups, with_facts};
    ghost use Rattle.store_files.specs.Adopting.{IsLaterConfig, facts_with_config};

    /// Adopts a later configuration, of this place in the list of configurations. It needs four
    /// device calls: after them both are durable.
    pub fn adopt(&mut self, alloc: Global, epoch: Epoch, config: &Config) -> Result<(), EngineError>
        requires { IsLaterConfig (facts_of self.old) epoch config.now }
        ensures changes { ChangesList D.Disk self.old self.new result (HasNearlyFullSlot self.old)
            (IsSameBut (counting_slot_file self.old))
            (facts_with_config (facts_of self.old) epoch config.now) (λ list. list) }
        ensures told { MatchResult result
            (λ _. look_ups self.new ≡ with_facts (look_ups self.old)
            (facts_with_config (facts_of self.old) epoch config.now))
            (λ _. look_ups self.new ≡ look_ups self.old) }
        ensures merging { MergeStays self.old self.new }
        ensures causes { IfErr result IsEndOrAfter }
        ensures met { OfEachList D.Disk self.old (λ list.
            IfErr result (IsEnvironmental Disk Memory)) }
        ensures calls { MakesCalls D.Disk 4 (engine_disk self.old) (engine_disk self.new) result }
    {
        held_files_are_left(); // law: what the disk of open files reads as, and leaves
        merges_outlive_calls::<D>(); // law: a merge outlives calls that leave its files
        open_files_are_apart(); // law: which files an adoption changes
        if self.has_ended {
            return Err(EngineError::Failed);
        }
        self.has_ended = true;
        self.store.adopt(alloc, &mut self.files, epoch, config)?;
        self.has_ended = false;
        Ok(())
    }
}
