// The execution of a decision: what a node does by each rule of a step.
ghost use Rattle.std.specs.Prelude.{◌≡◌, ◌<◌, ◌≤◌, IfErr, IsTrue, MatchResult};
ghost use Rattle.disk.specs.{IsEnvironmental};
ghost use Rattle.kv_types.specs.declared.bounds.TheConstants.{MAX_NUMBER};
ghost use Rattle.chain_model.specs.{forwards};
ghost use Rattle.kv_types.specs.Snapshots.{is_open};
ghost use Rattle.chain_core.specs.{AreFrames, CoreRefines, DecisionFits, HasRoomAt, IsAdoptable};
ghost use Rattle.chain_core.specs.{IsReport, Machine, done_of};
ghost use Rattle.engine.specs.{EngineHolds};
ghost use Rattle.node.specs.declared.stop.Stop.TheVariants.{Disk, Memory};
ghost use Rattle.node.specs.Outputs.{ExecutesDecision, FollowsRule, HasAppended, IsOnlyRead};
ghost use Rattle.node.specs.Steps.{AreInStep, IsReady, disk_of};
ghost use Rattle.node.specs.Stops.{EndsCreated};

use crate::replying::{
    ack_duplicate, acks_after, output_of, output_of_append, output_of_drop, page_output, push_some,
    refuse, replying, value_output,
};
use crate::{Node, Output, Reply, Stop};
use chain_core::laws::{one_by_one, stands_last, steps_leave};
use chain_core::{CoreState, Decision, Done, SentFrames};
use configurations::{Config, Epoch};
use disk::Disk;
use engine::Engine;
use kv_types::{Batch, Key, Number};
use link_messages::BoxedRange;
use std::alloc::Global;

// The batches that a tick sends again, for the successor.
fn resent<D: Disk + Drop>(
    alloc: Global,
    core: &CoreState,
    engine: &mut Engine<D>,
) -> Result<SentFrames, Stop>
    requires { AreInStep core.now engine.old }
    ensures read { IsOnlyRead D.Disk engine.old engine.new result }
    ensures sent { (n : Machine) → CoreRefines core.now n →
        EngineHolds D.Disk engine.old n.list →
        MatchResult result (λ sent. EngineHolds D.Disk engine.new n.list
        × AreFrames sent (forwards core.now.id n n.successor_has 16))
        (IsEnvironmental Disk Memory) }
    ensures causes { IfErr result EndsCreated }
{
    one_by_one(); // law: frames are sent one by one
    let numbers = core.resends();
    let mut sent = SentFrames::new();
    for number in numbers.start..numbers.end {
        let number = Number::new(number).unwrap();
        let batch = engine.batch(alloc, number)?;
        push_some(alloc, &mut sent, core.forward(number, batch))?;
    }
    Ok(sent)
}

impl<D: Disk + Drop> Node<D> {
    // Appends a batch to the store, and then to the node's state. It is durable before it is
    // forwarded, and a tail acknowledges a batch of its predecessor.
    #[inline(always)]
    fn append(&mut self, alloc: Global, batch: Batch, done: Done) -> Result<Output, Stop>
        requires may { IsReady self.old }
        requires room { self.old.core.count < MAX_NUMBER }
        requires done { HasAppended done }
        ensures { FollowsRule D.Disk self.old self.new (λ n input. Unit {0})
            (λ x n. done_of x n batch done) result }
    {
        // laws: what a step leaves of the machine, and the place of an appended batch
        steps_leave();
        stands_last();
        let acks = acks_after(&self.core, &done);
        self.engine.append(&batch)?;
        let due = self.core.after(alloc, done)?;
        self.engine.set_committed(self.core.committed());
        output_of_append(alloc, &self.core, batch, acks, &due).map_err(Stop::from)
    }

    // Answers a request that submits again the batch of a number, where it is committed, and else
    // lets it wait.
    #[inline(never)]
    fn repeat(&mut self, alloc: Global, request: Number, number: Number) -> Result<Output, Stop>
        requires may { IsReady self.old }
        requires there { number ≤ self.old.core.count }
        ensures disk { disk_of self.new ≡ disk_of self.old }
        ensures followed { ExecutesDecision D.Disk self.old self.new
            (Decision.Repeat request number) result }
    {
        steps_leave(); // law: what a step leaves of the machine
        let due = self.core.after(alloc, Done::Repeated { request, number })?;
        output_of(alloc, &self.core, SentFrames::new(), false, &due).map_err(Stop::from)
    }

    // Applies the successor's report, and reports to the predecessor if more is committed.
    #[inline(always)]
    fn on_ack(&mut self, alloc: Global, committed: Number, have: Number) -> Result<Output, Stop>
        requires may { IsReady self.old }
        requires there { IsReport self.old.core committed have }
        ensures disk { disk_of self.new ≡ disk_of self.old }
        ensures followed { ExecutesDecision D.Disk self.old self.new
            (Decision.OnAck committed have) result }
    {
        steps_leave(); // law: what a step leaves of the machine
        let grows = committed > self.core.committed();
        let due = self.core.after(alloc, Done::Acked { committed, have })?;
        self.engine.set_committed(self.core.committed());
        output_of(alloc, &self.core, SentFrames::new(), grows, &due).map_err(Stop::from)
    }

    // Adopts a configuration, and acknowledges to the predecessor in it. The store has recorded it
    // before the node acts in it.
    #[inline(never)]
    fn adopt(&mut self, alloc: Global, epoch: Epoch, config: Config) -> Result<Output, Stop>
        requires may { IsReady self.old }
        requires adoptable { IsAdoptable self.old.core epoch config }
        ensures { ExecutesDecision D.Disk self.old self.new (Decision.Adopt epoch config) result }
    {
        steps_leave(); // law: what a step leaves of the machine
        self.engine.adopt(alloc, epoch, &config)?;
        let due = self.core.after(alloc, Done::Adopted { epoch, config })?;
        self.engine.set_committed(self.core.committed());
        output_of(alloc, &self.core, SentFrames::new(), true, &due).map_err(Stop::from)
    }

    // Sends again the batches that the successor may lack, and acknowledges again.
    #[inline(never)]
    fn resend(&mut self, alloc: Global) -> Result<Output, Stop>
        requires { IsReady self.old }
        ensures { ExecutesDecision D.Disk self.old self.new Decision.Resend result }
    {
        let sent = resent(alloc, &self.core, &mut self.engine)?;
        output_of(alloc, &self.core, sent, true, &[]).map_err(Stop::from)
    }

    // Answers the client with the value of the key at a number.
    #[inline(always)]
    fn read(&mut self, alloc: Global, request: Number, key: Key, at: Number) -> Result<Output, Stop>
        requires { IsReady self.old }
        ensures { ExecutesDecision D.Disk self.old self.new (Decision.Read request key at) result }
    {
        let value = self.engine.get(alloc, at, &key)?;
        Ok(value_output(request, at, value))
    }

    // Answers the client with the page of a range at a number.
    #[inline(never)]
    fn read_rows(
        &mut self,
        alloc: Global,
        request: Number,
        range: BoxedRange,
        at: Number,
    ) -> Result<Output, Stop>
        requires { IsReady self.old }
        ensures { ExecutesDecision D.Disk self.old self.new
            (Decision.ReadRows request range at) result }
    {
        let page = self.engine.rows(alloc, at, range.as_range())?;
        Ok(page_output(request, at, page))
    }

    // Opens one more snapshot at a number, in the store and in the node's state.
    #[inline(never)]
    fn open(&mut self, alloc: Global, request: Number, number: Number) -> Result<Output, Stop>
        requires may { IsReady self.old }
        requires room { HasRoomAt self.old.core number }
        ensures { ExecutesDecision D.Disk self.old self.new (Decision.Open request number) result }
    {
        steps_leave(); // law: what a step leaves of the machine
        self.engine.open_snapshot(number)?;
        self.core.after(alloc, Done::Opened { request, number })?;
        Ok(replying(Reply::Opened { request, number }))
    }

    // Closes one snapshot at a number, in the store and in the node's state.
    #[inline(never)]
    fn close(&mut self, alloc: Global, request: Number, number: Number) -> Result<Output, Stop>
        requires may { IsReady self.old }
        requires open { IsTrue (is_open number self.old.core.snapshots) }
        ensures { ExecutesDecision D.Disk self.old self.new
            (Decision.Close request number) result }
    {
        steps_leave(); // law: what a step leaves of the machine
        self.engine.close_snapshot(number)?;
        self.core.after(alloc, Done::Closed { request, number })?;
        Ok(replying(Reply::Closed { request, number }))
    }

    // Executes a decision.
    #[inline(always)]
    pub(crate) fn perform(&mut self, alloc: Global, decision: Decision) -> Result<Output, Stop>
        requires may { IsReady self.old }
        requires room { DecisionFits self.old.core decision }
        ensures { ExecutesDecision D.Disk self.old self.new decision result }
    {
        match decision {
            Decision::Accept { request, batch } => {
                self.append(alloc, batch, Done::Accepted { request })
            }
            Decision::Repeat { request, number } => self.repeat(alloc, request, number),
            Decision::Append { batch } => self.append(alloc, batch, Done::Appended),
            Decision::AckDuplicate => ack_duplicate(alloc, &self.core).map_err(Stop::from),
            Decision::OnAck { committed, have } => self.on_ack(alloc, committed, have),
            Decision::Adopt { epoch, config } => self.adopt(alloc, epoch, config),
            Decision::Read { request, key, at } => self.read(alloc, request, key, at),
            Decision::ReadRows { request, range, at } => self.read_rows(alloc, request, range, at),
            Decision::Open { request, number } => self.open(alloc, request, number),
            Decision::Close { request, number } => self.close(alloc, request, number),
            Decision::Resend => self.resend(alloc),
            Decision::Refuse { request, refusal } => Ok(refuse(request, refusal)),
            Decision::Drop(reason) => Ok(output_of_drop(reason)),
        }
    }
}
