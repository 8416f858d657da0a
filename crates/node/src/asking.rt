// What a node asks its store before it decides on an input.
ghost use Rattle.std.specs.Prelude.{◌≡◌, ◌≤◌, ◌↔◌, IfErr, IfOk, IfSome, List, MatchResult, None};
ghost use Rattle.disk.specs.{IsEnvironmental};
ghost use Rattle.kv_types.specs.{BatchContent};
ghost use Rattle.chain_core.specs.{IsHeldFor, client_of};
ghost use Rattle.engine.specs.{EngineHolds, HasEnded, IsNearlyFull, look_ups};
ghost use Rattle.node.specs.declared.stop.Stop.TheVariants.{Disk, Memory};
ghost use Rattle.node.specs.Outputs.{IsOnlyRead};
ghost use Rattle.node.specs.Stops.{EndsCreated};

use crate::Stop;
use chain_core::Input;
use disk::Disk;
use engine::Engine;
use kv_types::HeldMark;
use std::alloc::Global;

/// The mark that the store holds for the client of a marked batch that is submitted. For any other
/// input the store is not asked.
pub(crate) fn held_for<D: Disk + Drop>(
    alloc: Global,
    engine: &mut Engine<D>,
    input: &Input,
) -> Result<Option<HeldMark>, Stop>
    requires { HasEnded engine.old → ⊥ }
    ensures read { IsOnlyRead D.Disk engine.old engine.new result }
    ensures full { IsNearlyFull engine.new ↔ IsNearlyFull engine.old }
    ensures within { IfOk result (λ held. IfSome held (λ it.
        it.number ≤ (look_ups engine.old).count)) }
    ensures held { (list : List BatchContent) → EngineHolds D.Disk engine.old list →
        MatchResult result (λ held. EngineHolds D.Disk engine.new list
        × IsHeldFor input.now list held) (IsEnvironmental Disk Memory) }
    ensures causes { IfErr result EndsCreated }
    ensures unasked { client_of input.now ≡ None → engine.new ≡ engine.old }
{
    let Some(client) = input.client() else {
        return Ok(None);
    };
    Ok(engine.mark(alloc, client)?)
}
