// A running node: its store, and the rules of a step over it.
ghost use Rattle.std.specs.Prelude.{◌≡◌, ◌⊎◌, ◌↔◌, IsErrOf, ℕ, length, slice_index};
ghost use Rattle.std.specs.Prelude.{◌<◌, IfOk, OnOk};
ghost use Rattle.disk.specs.{IsArmed, KeepsDisk};
ghost use Rattle.chain_core.specs.{Machine, answer_to};
ghost use Rattle.engine.specs.{IsAdrift, IsNearlyFull, IsOwned, TendsAlike};
ghost use Rattle.engine.specs.{table_count};
ghost use Rattle.engine.specs.Tended.TheVariants.{Idle};
ghost use Rattle.node.specs.declared.stop.Stop.TheVariants.{Disk};
ghost use Rattle.node.specs.Steps.{DiskAlwaysRefines, IfRefines, IsReady, NodeRefines};
ghost use Rattle.node.specs.Steps.{AreOwnNumbers, NumbersRefine, disk_of, engine_of};
ghost use Rattle.node.specs.Steps.{node_core, node_limits};
ghost use Rattle.node.specs.Outputs.{KeepsNode, StepEnds};
ghost use Rattle.node.specs.Tends.{TendRefines, TendsOwnStore};

use crate::asking::held_for;
use crate::{Numbers, Output, Stop};
use chain_core::{CoreState, Input, decide};
use configurations::{Config, Epoch, NodeId};
use disk::{Crash, Disk, Fault};
use engine::{Engine, Tended};
use kv_types::Number;
use std::alloc::Global;

/// A running node of a chain, with its store.
#[derive(Drop)]
pub struct Node<D: Disk + Drop> {
    pub(crate) engine: Engine<D>,
    pub(crate) core: CoreState,
}

impl<D: Disk + Drop> Node<D> {
    /// Handles an input completely. A batch is durable before it is forwarded or acknowledged, and
    /// a configuration before the node acts in it.
    /// After a `Stop` the node has ended, and only its disk remains of use.
    #[inline(always)]
    pub fn step(&mut self, alloc: Global, input: Input) -> Result<Output, Stop>
        requires { IsReady self.old }
        ensures kept { KeepsNode D.Disk self.old self.new result }
        ensures ends { (x : ℕ) (n : Machine) →
            StepEnds D.Disk self.old self.new result x n input (answer_to x n input) }
    {
        let held = held_for(alloc, &mut self.engine, &input)?;
        let decision = decide(&self.core, input, held);
        self.perform(alloc, decision)
    }

    /// Does the first that is due in its store. Where that begins a merge, the floor rises to the
    /// least number that may still be asked for. After a `Stop` the node has ended.
    pub fn tend(&mut self, alloc: Global) -> Result<Tended, Stop>
        requires { IsReady self.old }
        ensures kept { KeepsDisk D.Disk (disk_of self.old) (disk_of self.new) (IsErrOf result Disk)
            (IsNearlyFull (engine_of self.old) ⊎ IsAdrift D.Disk (engine_of self.old)) IsOwned }
        ensures works { OnOk result (IsReady self.new) }
        ensures limits { node_limits self.new ≡ node_limits self.old }
        ensures did { TendsOwnStore self.old self.new result }
        ensures rests { IfOk result (λ done. done ≡ Idle → disk_of self.new ≡ disk_of self.old) }
        ensures ends { IfRefines self.old (λ x n.
            TendRefines D.Disk self.old self.new x n result) }
    {
        let tended = self.engine.tend(alloc)?;
        // laws: the numbers of the state are in order, and those of the engine
        let _ = self.core.committed();
        let _ = self.engine.count();
        self.core.raise(self.engine.floor(), self.engine.kept());
        Ok(tended)
    }

    /// Its id.
    pub fn id(&self) -> NodeId
        ensures own { result ≡ (node_core self.now).id }
        ensures refines { IfRefines self.now (λ x n. result ≡ x) }
    {
        self.core.id()
    }

    /// The place of its configuration in the configuration service's list.
    pub fn epoch(&self) -> Epoch
        ensures own { result ≡ (node_core self.now).epoch }
        ensures refines { IfRefines self.now (λ x n. result ≡ n.epoch) }
    {
        self.core.epoch()
    }

    /// Its configuration.
    pub fn config(&self) -> &Config
        ensures own { result.now ≡ (node_core self.now).ids }
        ensures refines { IfRefines self.now (λ x n. result.now ≡ n.ids) }
    {
        self.core.config()
    }

    /// The number of batches of the node.
    pub fn count(&self) -> Number
        ensures own { result ≡ (node_core self.now).count }
        ensures refines { IfRefines self.now (λ x n. result ≡ length n.list) }
    {
        self.core.count()
    }

    /// The number of batches that it knows to be committed.
    pub fn committed(&self) -> Number
        ensures own { result ≡ (node_core self.now).committed }
        ensures refines { IfRefines self.now (λ x n. result ≡ n.committed) }
    {
        self.core.committed()
    }

    /// The least number at which it can be read.
    pub fn floor(&self) -> Number
        ensures own { result ≡ (node_core self.now).floor }
        ensures refines { IfRefines self.now (λ x n. result ≡ n.floor) }
    {
        self.core.floor()
    }

    /// The number of batches trimmed from the front of its logs: those from `kept + 1` on can still
    /// be sent again.
    pub fn kept(&self) -> Number
        ensures own { result ≡ (node_core self.now).kept }
        ensures refines { IfRefines self.now (λ x n. result ≡ n.kept) }
    {
        self.core.kept()
    }

    /// The number of tables of each level.
    pub fn tables(&self) -> [u64; 7]
        ensures { (level : ℕ) → level < 7 →
            slice_index result level ≡ table_count (engine_of self.now) level }
    {
        self.engine.tables()
    }

    /// Its numbers, as one value.
    pub fn numbers(&self) -> Numbers
        ensures own { AreOwnNumbers (node_core self.now) result }
        ensures refines { IfRefines self.now (λ x n. NumbersRefine n result) }
        ensures tables { (level : ℕ) → level < 7 →
            slice_index result.tables level ≡ table_count (engine_of self.now) level }
    {
        Numbers {
            epoch: self.epoch(),
            count: self.count(),
            committed: self.committed(),
            floor: self.floor(),
            kept: self.kept(),
            tables: self.tables(),
        }
    }

    /// Ends the node, and returns its disk.
    pub fn into_disk(self) -> D
        ensures disk { result ≡ disk_of self }
        ensures rests { IfRefines self (λ x n. DiskAlwaysRefines (D.state result) x n) }
    {
        let Node {
            engine,
            core: _core,
        } = self;
        engine.into_disk()
    }
}

impl<D: Crash + Drop> Node<D> {
    /// Arms its disk with a fault at one of its next calls, or with none.
    pub fn arm(&mut self, fault: &Fault)
        ensures armed { IsArmed D.Disk fault.now (disk_of self.old) (disk_of self.new) }
        ensures refines { IfRefines self.old (NodeRefines D.is_honest D.state self.new) }
        ensures ready { IsReady self.old → IsReady self.new }
        ensures limits { node_limits self.new ≡ node_limits self.old }
        ensures full { IsNearlyFull (engine_of self.new) ↔ IsNearlyFull (engine_of self.old) }
        ensures tends { TendsAlike (engine_of self.old) (engine_of self.new) }
    {
        self.engine.arm(fault);
    }
}
