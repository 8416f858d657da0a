//! Laws of the definitions that contracts use. The functions do nothing: their clauses are the
//! laws.
ghost use Rattle.std.specs.Prelude.{List};
ghost use Rattle.kv_types.specs.{BatchContent};
ghost use Rattle.engine.specs.declared.engine.Engine.{Engine};
ghost use Rattle.engine.specs.Engines.{EngineReads, HasLongFile, IsNearlyFull, engine_disk};

use disk::Disk;
use manifest::laws::slots_reach_gates;
use record_log::gates_are_in_files;

/// Where an engine's log or its manifest is nearly full, its disk has a file nearly as long as a
/// file can be.
pub fn full_logs_are_long<D: Disk + Drop>()
    ensures { (engine : Engine D D.Disk) (list : List BatchContent) →
        EngineReads D.Disk engine list → IsNearlyFull engine →
        HasLongFile (D.state (engine_disk engine)) }
{
    gates_are_in_files(); // law: a log's gate is within its file
    slots_reach_gates(); // law: so is that of the manifest's counting slot
}
