// How a node begins: it is created, or it starts with the store of its disk.
ghost use Rattle.std.specs.Prelude.{◌≡◌, ℕ, IfOk, IfErr, IsErrAnd};
ghost use Rattle.disk.specs.{contents, IsEnvironmental};
ghost use Rattle.chain_model.specs.{created, started};
ghost use Rattle.chain_core.specs.{Machine};
ghost use Rattle.engine.specs.{IsJustOpened, IsNewEngine, SparesFound, engine_disk, look_ups};
ghost use Rattle.node.specs.declared.stop.Stop.TheVariants.{Disk, Memory};
ghost use Rattle.node.specs.Outputs.{AlwaysRefines};
ghost use Rattle.node.specs.Starts.{BeginsAs, HasBegunWith, CoreStartsFrom, ExplainsStart};
ghost use Rattle.node.specs.Starts.{KeepsReceived, RunsOpened, disk_behind};
ghost use Rattle.node.specs.Steps.{DiskRefines, DiskRefinesOneOf, IsReady, engine_of};
ghost use Rattle.node.specs.Stops.{EndsCreated};

use crate::{Node, Stop};
use chain_core::{CoreState, PersistentState};
use configurations::{Config, NodeId};
use disk::Disk;
use engine::Engine;
use kv_types::Limits;
use std::alloc::Global;

// The state of a node that starts with an engine, whose configuration this is.
fn core_of<D: Disk + Drop>(alloc: Global, engine: &Engine<D>, config: Config) -> CoreState
    ensures { CoreStartsFrom (look_ups engine.now) config result }
{
    CoreState::started(
        alloc,
        PersistentState {
            id: engine.id(),
            epoch: engine.epoch(),
            config,
            count: engine.count(),
            floor: engine.floor(),
            kept: engine.kept(),
        },
    )
}

// The node of an engine that was opened. A refusal for want of memory returns the disk.
fn run_opened<D: Disk + Drop>(alloc: Global, mut engine: Engine<D>) -> Result<Node<D>, (Stop, D)>
    requires { IsJustOpened (look_ups engine).limits engine }
    ensures disk { disk_behind result ≡ engine_disk engine }
    ensures opened { IfOk result (RunsOpened D.Disk engine) }
    ensures memory { IfErr result (λ refused. refused.0 ≡ Stop.Memory) }
{
    let Ok(config) = engine.config().clone() else {
        return Err((Stop::Memory, engine.into_disk()));
    };
    let core = core_of(alloc, &engine, config);
    engine.set_committed(core.committed());
    Ok(Node { engine, core })
}

impl<D: Disk + Drop> Node<D> {
    /// Creates a node's store on a disk, whose files are all removed first, and runs the node. A
    /// refusal returns the disk, with any files.
    pub fn create(
        alloc: Global,
        disk: D,
        id: NodeId,
        config: &Config,
        limits: &Limits,
    ) -> Result<Node<D>, (Stop, D)>
        ensures kept { KeepsReceived disk result }
        ensures created { D.is_honest disk → BeginsAs id (created config.now) result }
        ensures begun { IfOk result (λ node. IsNewEngine id config.now limits.now
            (engine_of node)) }
        ensures works { IfOk result IsReady }
        ensures begins { IfOk result (HasBegunWith limits.now) }
        ensures causes { IfErr result (λ refused. EndsCreated refused.0) }
    {
        let Ok(known) = config.clone() else {
            return Err((Stop::Memory, disk));
        };
        match Engine::create(alloc, disk, id, config, limits) {
            Ok(engine) => Ok(Node {
                engine,
                core: CoreState::created(alloc, id, known),
            }),
            Err((e, disk)) => Err((Stop::from(e), disk)),
        }
    }

    /// Runs the node of the disk. A refusal returns the disk.
    pub fn start(alloc: Global, disk: D, limits: &Limits) -> Result<Node<D>, (Stop, D)>
        ensures kept { KeepsReceived disk result }
        ensures started { (x : ℕ) (n : Machine) → D.is_honest disk →
            DiskRefines (contents (D.state disk)) x n → BeginsAs x (started x n) result }
        ensures told { D.is_honest disk → ExplainsStart (contents (D.state disk)) result }
        ensures works { IfOk result IsReady }
        ensures begins { IfOk result (HasBegunWith limits.now) }

        // Where a crash before it leaves only disks of these two machines, so does one at any
        // moment since.
        ensures any_moment { (x : ℕ) (n m : Machine) → D.is_honest disk →
            DiskRefinesOneOf (D.state disk) x n m →
            AlwaysRefines D.Disk disk (disk_behind result) x n m }

        // Files that open as no store, or for which it is refused, are left as they were.
        ensures still { SparesFound D.Disk disk (disk_behind result)
            (IsErrAnd result (λ refused. IsEnvironmental Disk Memory refused.0 → ⊥)) }
    {
        match Engine::open(alloc, disk, limits) {
            Ok(engine) => run_opened(alloc, engine),
            Err((e, disk)) => Err((Stop::from(e), disk)),
        }
    }
}
