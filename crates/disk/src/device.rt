// The device behind a disk in memory: how often it failed, and the fault that it is armed with.
ghost use Rattle.std.specs.Prelude.{◌≡◌, ◌↔◌, ◌-◌, ◌^◌, ◌<◌, [], ◌∷◌, length, IsTrue};
ghost use Rattle.disk.specs.Faults.{HasStruckBy, fault_of, struck_call};
ghost use Rattle.disk.specs.Devices.{AnswerEnds, DeviceFails, IsNext};

use crate::history::History;
use crate::slot::MemSlot;
use crate::{DiskError, Fault, Incident, Junk};
use std::collections::BTreeMap;
use std::marker::Model;

/// An incident, and the past that the device had when it came.
#[derive(Drop)]
pub struct DatedIncident {
    at: History<BTreeMap<u64, MemSlot>>,
    incident: Incident,
}

#[derive(Drop)]
pub struct Device {
    failures: u64,
    // How many calls are left to the fault that it is armed with, with the call that this strikes.
    fault: Option<u64>,
    // The slots at first and after each call and crash so far.
    history: History<BTreeMap<u64, MemSlot>>,
    occurred: History<DatedIncident>,
}

impl Model for Device {
    ghost use Rattle.std.specs.Prelude.{◌≡◌, length, map};
    ghost use Rattle.disk.specs.Devices.{DeviceState, calls_left};
    ghost use Rattle.disk.specs.Faults.{fault_of};

    ghost Value = { DeviceState };

    ghost view = { λ device. record {
      failures = device.failures;
      past = map (λ it. it.entries) device.history.past;
      incidents = map (λ it. (length it.at.past, it.incident)) device.occurred.past;
    } };

    // The fault is the one that its incidents tell.
    ghost invariant = { λ device. device.fault ≡ calls_left
        (fault_of (map (λ it. (length it.at.past, it.incident)) device.occurred.past))
        (length device.history.past) };
}

impl Device {
    /// A device that has these slots.
    pub fn new(slots: &BTreeMap<u64, MemSlot>) -> Device
        ensures failures { result.failures ≡ 0 }
        ensures past { result.past ≡ slots.now.entries ∷ [] }
        ensures incidents { result.incidents ≡ [] }
    {
        Device {
            failures: 0,
            fault: None,
            history: History::new().with(slots),
            occurred: History::new(),
        }
    }

    /// A device with the same failures, the same fault and the same past.
    pub fn clone(&self) -> Device
        ensures { result ≡ self.now }
    {
        Device {
            failures: self.failures,
            fault: self.fault,
            history: self.history.copy(),
            occurred: self.occurred.copy(),
        }
    }

    /// Arms it with a fault, or with none.
    pub fn arm(&mut self, fault: &Fault)
        ensures failures { self.new.failures ≡ self.old.failures }
        ensures past { self.new.past ≡ self.old.past }
        ensures incidents { self.new.incidents ≡
            (length self.old.past, Incident.Armed (struck_call fault.now)) ∷ self.old.incidents }
    {
        let call = match fault {
            Fault::None | Fault::Fail(0) | Fault::Stop(0, _) => None,
            Fault::Fail(call) | Fault::Stop(call, _) => Some(*call),
        };
        let incident = Incident::Armed(call);
        self.occurred = self.occurred.with(&DatedIncident {
            at: self.history.copy(),
            incident,
        });
        self.fault = call;
    }

    /// Whether the fault has struck.
    pub fn has_struck(&self) -> bool
        ensures { IsTrue result ↔ HasStruckBy (fault_of self.now.incidents) (length self.now.past) }
    {
        match self.fault {
            None => false,
            Some(left) => left == 0,
        }
    }

    /// Whether the fault strikes the next call.
    pub fn strikes_next(&self) -> bool
        ensures { IsTrue result ↔ IsNext self.now }
    {
        match self.fault {
            None => false,
            Some(left) => left == 1,
        }
    }

    /// Whether the next call is made at all: the fault has not struck, and the count of failures is
    /// below its last value.
    pub fn works(&self) -> bool
        ensures { IsTrue result ↔ ((self.now.failures < 2 ^ 64 - 1)
            × (HasStruckBy (fault_of self.now.incidents) (length self.now.past) → ⊥)) }
    {
        self.failures < u64::MAX && !self.has_struck()
    }

    // Counts a call, or a crash, which left these slots.
    fn count(&mut self, slots: &BTreeMap<u64, MemSlot>)
        ensures failures { self.new.failures ≡ self.old.failures }
        ensures past { self.new.past ≡ slots.now.entries ∷ self.old.past }
        ensures incidents { self.new.incidents ≡ self.old.incidents }
    {
        self.history = self.history.with(slots);
        self.fault = match self.fault {
            None => None,
            Some(left) => Some(left.saturating_sub(1)),
        };
    }

    /// A crash with this junk leaves these slots, and no fault.
    pub fn crash(&mut self, slots: &BTreeMap<u64, MemSlot>, junk: Junk)
        ensures failures { self.new.failures ≡ self.old.failures }
        ensures past { self.new.past ≡ slots.now.entries ∷ self.old.past }
        ensures incidents { self.new.incidents ≡
            (length self.old.past, Incident.Crashed junk) ∷ self.old.incidents }
    {
        let incident = Incident::Crashed(junk);
        self.occurred = self.occurred.with(&DatedIncident {
            at: self.history.copy(),
            incident,
        });
        self.fault = None;
        self.count(slots);
    }

    /// A call fails. At its last value the count of failures stays.
    pub fn fail<T>(&mut self, slots: &BTreeMap<u64, MemSlot>) -> Result<T, DiskError>
        ensures { DeviceFails slots.now.entries self.old self.new result }
    {
        self.count(slots);
        self.failures = self.failures.saturating_add(1);
        Err(DiskError::Failed)
    }

    /// A call ends that has this answer, unless the fault strikes it.
    pub fn end<T: Drop>(
        &mut self,
        slots: &BTreeMap<u64, MemSlot>,
        answer: Result<T, DiskError>,
    ) -> Result<T, DiskError>
        ensures { AnswerEnds slots.now.entries self.old self.new answer result }
    {
        match answer {
            Err(DiskError::Memory) => Err(DiskError::Memory),
            Err(DiskError::Failed) => self.fail(slots),
            _ if self.strikes_next() => self.fail(slots),
            answer => {
                self.count(slots);
                answer
            }
        }
    }
}
