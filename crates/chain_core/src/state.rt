// The state of a node besides its batches, and the change of it by each step.
ghost use Rattle.std.specs.Prelude.{◌≡◌, ◌==◌, ◌<◌, ◌≤◌, ◌∷◌, suc, length, max, not, true};
ghost use Rattle.std.specs.Prelude.{if◌then◌else◌, IsTrue, OnErr, OnOk};
ghost use Rattle.kv_types.specs.declared.bounds.TheConstants.{MAX_NUMBER};
ghost use Rattle.kv_types.specs.{BatchContent, has};
ghost use Rattle.configurations.specs.{is_head, is_tail, predecessor, successor};
ghost use Rattle.chain_model.specs.{created};
ghost use Rattle.chain_model.specs.{started, append};
ghost use Rattle.kv_types.specs.Snapshots.{is_open, least, without};
ghost use Rattle.chain_model.specs.Rules.{tend};
ghost use Rattle.chain_core.specs.States.{Machine, CoreRefines, PersistentRefines};
ghost use Rattle.chain_core.specs.States.{IsAtStart, HasOrderedNumbers, IsStartOf};
ghost use Rattle.chain_core.specs.Decisions.{CoreApplies, DoneFits, HasRoomAt, IsReport};
ghost use Rattle.chain_core.specs.Decisions.{IsRiseOf};

use crate::places::{greater, is_head, is_tail, place_of};
use crate::queue::{due_of, due_where, forget_due, forget_where, place_behind};
use crate::{CoreError, Done, PendingSubmit, PersistentState, ShortList};
use configurations::{Config, Epoch, NodeId};
use kv_types::Number;
use std::alloc::Global;
use std::collections::VecDeque;
use std::marker::Model;

/// The greatest number of open snapshots of a node.
const MAX_SNAPSHOTS: usize = 64;

/// The state of a node besides its batches: its numbers, its configuration, and its pending
/// requests.
#[derive(Drop)]
pub struct CoreState {
    id: NodeId,
    epoch: Epoch,
    config: Config,
    count: Number,
    committed: Number,
    floor: Number,
    kept: Number,
    successor_has: Number,
    snapshots: VecDeque<Number>,
    pending: VecDeque<PendingSubmit>,
}

impl Model for CoreState {
    ghost use Rattle.chain_core.specs.States.{Core, HasOrderedNumbers};

    ghost Value = { Core };

    ghost use Rattle.chain_core.specs.CoreState.{core_value};

    ghost view = { core_value };

    ghost invariant = { λ state. HasOrderedNumbers (core_value state) };
}

impl CoreState {
    /// A node at its creation, with configuration 0.
    pub fn created(alloc: Global, id: NodeId, config: Config) -> CoreState
        ensures id { result.id ≡ id }
        ensures begins { IsAtStart result }
        ensures is { CoreRefines result (created config) }
    {
        CoreState {
            id,
            epoch: Epoch::FIRST,
            config,
            count: Number::ZERO,
            committed: Number::ZERO,
            floor: Number::ZERO,
            kept: Number::ZERO,
            successor_has: Number::ZERO,
            snapshots: VecDeque::new(alloc),
            pending: VecDeque::new(alloc),
        }
    }

    /// Starts a node from its persistent state.
    pub fn started(alloc: Global, rest: PersistentState) -> CoreState
        ensures id { result.id ≡ rest.id }
        ensures exact { IsStartOf rest result }
        ensures is { (n : Machine) → PersistentRefines rest n → CoreRefines result
            (started rest.id n) }
    {
        let committed = if is_tail(&rest.config, rest.id) {
            rest.count
        } else {
            rest.floor
        };
        CoreState {
            id: rest.id,
            epoch: rest.epoch,
            config: rest.config,
            count: rest.count,
            committed,
            floor: rest.floor,
            kept: rest.kept,
            successor_has: committed,
            snapshots: VecDeque::new(alloc),
            pending: VecDeque::new(alloc),
        }
    }

    /// The id of the node.
    pub fn id(&self) -> NodeId
        ensures { result ≡ self.now.id }
    {
        self.id
    }

    /// The place of its configuration in the configuration service's list.
    pub fn epoch(&self) -> Epoch
        ensures { result ≡ self.now.epoch }
    {
        self.epoch
    }

    /// Its configuration.
    pub fn config(&self) -> &Config
        ensures { result.now ≡ self.now.ids }
    {
        &self.config
    }

    /// The number of batches of the node.
    pub fn count(&self) -> Number
        ensures { result ≡ self.now.count }
    {
        self.count
    }

    /// The number of batches that it knows to be committed.
    pub fn committed(&self) -> Number
        ensures same { result ≡ self.now.committed }
        ensures ordered { HasOrderedNumbers self.now }
    {
        self.committed
    }

    /// The least number at which it can be read.
    pub fn floor(&self) -> Number
        ensures { result ≡ self.now.floor }
    {
        self.floor
    }

    /// The number of batches trimmed from the front of its logs: those from `kept + 1` on can still
    /// be sent again.
    pub fn kept(&self) -> Number
        ensures { result ≡ self.now.kept }
    {
        self.kept
    }

    /// The number of batches that it knows its successor to have.
    pub fn successor_has(&self) -> Number
        ensures { result ≡ self.now.successor_has }
    {
        self.successor_has
    }

    /// The node before it in its configuration.
    pub fn predecessor(&self) -> Option<NodeId>
        ensures { result ≡ predecessor self.now.ids self.now.id }
    {
        self.config.before(self.id)
    }

    /// The node after it in its configuration.
    pub fn successor(&self) -> Option<NodeId>
        ensures { result ≡ successor self.now.ids self.now.id }
    {
        self.config.after(self.id)
    }

    // The committed number of a node with this many batches: at a tail, all of them.
    fn committed_with(&self, number: Number) -> Number
        ensures { result ≡ (if is_tail self.now.ids self.now.id then number
            else self.now.committed) }
    {
        if is_tail(&self.config, self.id) {
            number
        } else {
            self.committed
        }
    }

    // Whether its configuration lacks it.
    pub(crate) fn is_removed(&self) -> bool
        ensures { result ≡ not (has self.now.ids self.now.id) }
    {
        !self.config.has(self.id)
    }

    pub(crate) fn is_head(&self) -> bool
        ensures { result ≡ is_head self.now.ids self.now.id }
    {
        is_head(&self.config, self.id)
    }

    // Whether one more snapshot may be open.
    pub(crate) fn has_room(&self) -> bool
        ensures same { result ≡ not (length self.now.snapshots == 64) }
        ensures room { IsTrue result → length self.now.snapshots < 64 }
    {
        self.snapshots.len() != MAX_SNAPSHOTS
    }

    // Whether a snapshot is open at this number.
    pub(crate) fn is_open(&self, number: Number) -> bool
        ensures { result ≡ is_open number self.now.snapshots }
    {
        place_of(&self.snapshots, number).is_some()
    }

    /// Whether it is the last node of its configuration.
    pub fn is_tail(&self) -> bool
        ensures { result ≡ is_tail self.now.ids self.now.id }
    {
        is_tail(&self.config, self.id)
    }

    // Adds the batch of a client's request, which is pending at the head. A tail commits it.
    #[inline(always)]
    fn add_submit(
        &mut self,
        alloc: Global,
        request: Number,
    ) -> Result<ShortList<PendingSubmit>, CoreError>
        requires { self.old.count < MAX_NUMBER }
        ensures { CoreApplies self.old self.new (Done.Accepted request) result }
    {
        let number = self.count.next().unwrap();
        let committed = self.committed_with(number);
        self.pending.push_back(PendingSubmit { number, request })?;
        let due = match due_of(alloc, &self.pending, committed) {
            Ok(due) => due,
            Err(e) => {
                self.pending.pop_back();
                return Err(CoreError::from(e));
            }
        };
        self.count = number;
        self.committed = committed;
        forget_due(&mut self.pending, committed);
        Ok(due)
    }

    // A request submits again the batch of a number: its acknowledgement is due, or pends in its
    // place.
    fn repeat(
        &mut self,
        alloc: Global,
        request: Number,
        number: Number,
    ) -> Result<ShortList<PendingSubmit>, CoreError>
        requires { number ≤ self.old.count }
        ensures { CoreApplies self.old self.new (Done.Repeated request number) result }
    {
        let asked = PendingSubmit { number, request };
        if number <= self.committed {
            return Ok(ShortList::one(asked));
        }
        let place = place_behind(&self.pending, &asked);
        self.pending.insert(place, asked)?;
        Ok(ShortList::new())
    }

    // Adds a batch of the predecessor. A tail commits it.
    fn add_batch(&mut self)
        requires { self.old.count < MAX_NUMBER }
        ensures after { (n : Machine) (batch : BatchContent) → CoreRefines self.old n →
            CoreRefines self.new (append self.old.id n (suc (length n.list)) batch).node }
        ensures rises { self.old.committed ≤ self.new.committed }
        ensures same { self.new.id ≡ self.old.id }
    {
        let number = self.count.next().unwrap();
        self.committed = self.committed_with(number);
        self.count = number;
    }

    // Applies the report of the successor.
    fn apply_ack(
        &mut self,
        alloc: Global,
        committed: Number,
        have: Number,
    ) -> Result<ShortList<PendingSubmit>, CoreError>
        requires { IsReport self.old committed have }
        ensures { CoreApplies self.old self.new (Done.Acked committed have) result }
    {
        let committed = greater(self.committed, committed);
        let due = due_of(alloc, &self.pending, committed)?;
        self.committed = committed;
        self.successor_has = greater(self.successor_has, have);
        forget_due(&mut self.pending, committed);
        Ok(due)
    }

    // The committed number under a configuration: at its tail, that of all batches.
    fn committed_under(&self, config: &Config) -> Number
        ensures { result ≡ (if is_tail config.now self.now.id then self.now.count
            else self.now.committed) }
    {
        if is_tail(config, self.id) {
            self.count
        } else {
            self.committed
        }
    }

    // Adopts the configuration of an epoch. A tail commits all its batches, and a removed node
    // forgets its pending requests. The successor is known to have what is committed.
    fn adopt(
        &mut self,
        alloc: Global,
        epoch: Epoch,
        config: Config,
    ) -> Result<ShortList<PendingSubmit>, CoreError>
        ensures { CoreApplies self.old self.new (Done.Adopted epoch config) result }
    {
        let committed = self.committed_under(&config);
        let stays = config.has(self.id);
        let due = due_where(alloc, &self.pending, committed, stays)?;
        forget_where(&mut self.pending, !stays);
        self.epoch = epoch;
        self.config = config;
        self.committed = committed;
        self.successor_has = committed;
        forget_due(&mut self.pending, committed);
        Ok(due)
    }

    // Opens one more snapshot.
    fn open_snapshot(&mut self, number: Number) -> Result<(), CoreError>
        requires { HasRoomAt self.old number }
        ensures opened { OnOk result
            (self.new ≡ record self.old { snapshots = number ∷ self.old.snapshots }) }
        ensures memory { OnErr result (self.new ≡ self.old) }
    {
        self.snapshots.push_front(number)?;
        Ok(())
    }

    // Closes the newest of the snapshots at this number.
    fn close_snapshot(&mut self, number: Number)
        ensures { self.new ≡ record self.old { snapshots = without number self.old.snapshots } }
    {
        if let Some(place) = place_of(&self.snapshots, number) {
            self.snapshots.remove(place);
        }
    }

    /// Takes over the floor and the kept number that the store tells after a tend. Where the floor
    /// is the least number that may still be asked for, that is a tend which raised it.
    pub fn raise(&mut self, floor: Number, kept: Number)
        requires { IsRiseOf self.old floor kept }
        ensures raised { self.new ≡ record self.old { floor = floor; kept = kept } }
        ensures tends { (n : Machine) → CoreRefines self.old n →
            floor ≡ least n.committed n.snapshots → n.kept ≤ kept →
            CoreRefines self.new (tend n true kept).node }
    {
        self.floor = floor;
        self.kept = kept;
    }

    /// Applies the store's part of a step to the state. Returns the requests whose batches are now
    /// committed, in order of number, then of request.
    #[inline(always)]
    pub fn after(
        &mut self,
        alloc: Global,
        done: Done,
    ) -> Result<ShortList<PendingSubmit>, CoreError>
        requires { DoneFits self.old done }
        ensures { CoreApplies self.old self.new done result }
    {
        match done {
            Done::Accepted { request } => self.add_submit(alloc, request),
            Done::Repeated { request, number } => self.repeat(alloc, request, number),
            Done::Appended => {
                self.add_batch();
                Ok(ShortList::new())
            }
            Done::Acked { committed, have } => self.apply_ack(alloc, committed, have),
            Done::Adopted { epoch, config } => self.adopt(alloc, epoch, config),
            Done::Opened { number, .. } => {
                self.open_snapshot(number)?;
                Ok(ShortList::new())
            }
            Done::Closed { number, .. } => {
                self.close_snapshot(number);
                Ok(ShortList::new())
            }
        }
    }
}
