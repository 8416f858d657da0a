// A whole run: a list of events, from created nodes to a report.
ghost use Rattle.std.specs.Prelude.{IfOk, List};
ghost use Rattle.lab.specs.Events.{NamesNodes};
ghost use Rattle.lab.specs.Runs.{IsRun};
ghost use Rattle.lab.specs.SimNodes.{Choice};
ghost use Rattle.lab.specs.History.{OneHistory};
ghost use Rattle.lab.specs.Worlds.{AreReportsAfter};

use crate::{Event, LabError, Report, World};
use configurations::Configs;
use kv_types::Limits;
use std::alloc::Global;

/// Creates the nodes of the first configuration on disks in memory, and applies all events in turn.
/// The report shows what no client can know too: how each step went, and every disk.
pub fn run(
    alloc: Global,
    configs: &Configs,
    events: &[Event],
    limits: &Limits,
) -> Result<Report, LabError>
    requires named { NamesNodes configs.now events.now }
    ensures run { IfOk result (λ report. (choices : List Choice)
        × IsRun configs.now events.now choices report
        × AreReportsAfter configs.now limits.now events.now choices report.nodes.items) }
    ensures history { IfOk result (OneHistory configs.now events.now) }
{
    let mut world = World::new(alloc, configs, limits)?;
    for event in events {
        world.step(alloc, event)?;
    }
    world.finish(alloc)
}
