// Events whose clones share their memory.
ghost use Rattle.std.specs.Prelude.{◌≡◌, ◌↔◌, IfOk, IsTrue};
ghost use Rattle.events.specs.Events.{NamesNode, NamesNodes, delivered_place, epoch_in};
ghost use Rattle.events.specs.Events.{faultless, node_in};
ghost use Rattle.events.specs.SharedEvents.{shared_kind};

use crate::content::EventContent;
use crate::kind::EventKind;
use crate::lent::LentKind;
use configurations::{Configs, Epoch, NodeId};
use disk::Fault;
use kv_types::{Batch, Key, Number};
use std::alloc::{AllocError, Global};
use std::marker::Model;
use std::rc::Rc;

/// A key, and the number that it is read at, or else the committed number.
#[derive(Drop)]
pub struct Lookup {
    pub key: Key,
    pub at: Option<Number>,
}

/// How an event is kept. Those without a fault that are most frequent take the least memory.
#[derive(Drop)]
pub enum EventForm {
    Deliver(u64),
    Submit(NodeId, Batch),
    Get(NodeId, Rc<Lookup>),
    Faultless(Rc<EventKind>),
    Faulty(Rc<EventContent>),
}

/// One step of one node, whose clones share its memory. Contracts see it as its content. A request
/// has the number of its event's place, from 1.
#[derive(Drop)]
pub struct Event {
    form: EventForm,
}

impl Model for Event {
    ghost use Rattle.events.specs.declared.content.EventContent.{EventContent};
    ghost use Rattle.events.specs.SharedEvents.{shared_event};

    ghost Value = { EventContent };

    ghost view = { λ it. shared_event it.form };
}

impl Event {
    /// The event of this kind that no fault strikes.
    #[inline(always)]
    pub fn faultless(alloc: Global, kind: EventKind) -> Result<Event, AllocError>
        ensures { IfOk result (λ event. event ≡ faultless kind) }
    {
        let form = match kind {
            EventKind::Deliver { place } => EventForm::Deliver(place),
            EventKind::Submit { node, batch } => EventForm::Submit(node, batch),
            EventKind::Get { node, key, at } => {
                EventForm::Get(node, Rc::new(alloc, Lookup { key, at })?)
            }
            kind => EventForm::Faultless(Rc::new(alloc, kind)?),
        };
        Ok(Event { form })
    }

    /// The event of this kind and fault.
    #[inline(always)]
    pub fn new(alloc: Global, kind: EventKind, fault: Fault) -> Result<Event, AllocError>
        ensures { IfOk result (λ event. event ≡ record { kind = kind; fault = fault }) }
    {
        match fault {
            Fault::None => Event::faultless(alloc, kind),
            fault => {
                let event = Rc::new(alloc, EventContent { kind, fault })?;
                let form = EventForm::Faulty(event);
                Ok(Event { form })
            }
        }
    }

    /// The same event. Refused where no more owners can be counted, or for want of memory where its
    /// batch is copied.
    pub fn clone(&self) -> Result<Event, AllocError>
        ensures { IfOk result (λ event. event ≡ self.now) }
    {
        let form = match &self.form {
            EventForm::Deliver(place) => EventForm::Deliver(*place),
            EventForm::Submit(node, batch) => EventForm::Submit(*node, batch.clone()?),
            EventForm::Get(node, lookup) => EventForm::Get(*node, lookup.clone()?),
            EventForm::Faultless(kind) => EventForm::Faultless(kind.clone()?),
            EventForm::Faulty(event) => EventForm::Faulty(event.clone()?),
        };
        Ok(Event { form })
    }

    /// The kind. A delivery, a submit and a get without a fault are lent in their parts; every
    /// other kind, and that of an event with a fault, as a whole.
    #[inline(always)]
    pub fn kind(&self) -> LentKind<'_>
        ensures { shared_kind result ≡ self.now.kind }
    {
        match &self.form {
            EventForm::Deliver(place) => LentKind::Deliver(*place),
            EventForm::Submit(node, batch) => LentKind::Submit(*node, batch),
            EventForm::Get(node, lookup) => {
                let Lookup { key, at } = lookup.as_ref();
                LentKind::Get(*node, key, *at)
            }
            EventForm::Faultless(kind) => LentKind::Kept(kind.as_ref()),
            EventForm::Faulty(event) => LentKind::Kept(&event.as_ref().kind),
        }
    }

    /// The fault, with memory of its own.
    #[inline(always)]
    pub fn fault(&self) -> Result<Fault, AllocError>
        ensures { IfOk result (λ fault. fault ≡ self.now.fault) }
    {
        match &self.form {
            EventForm::Faulty(event) => event.as_ref().fault.clone(),
            _ => Ok(Fault::None),
        }
    }

    /// The node that the event names; a frame goes to its addressee.
    #[inline(always)]
    fn node(&self) -> Option<NodeId>
        ensures { result ≡ node_in self.now.kind }
    {
        match self.kind() {
            LentKind::Deliver(_) => None,
            LentKind::Submit(node, _) | LentKind::Get(node, _, _) => Some(node),
            LentKind::Kept(kind) => kind.node(),
        }
    }

    /// Whether the event names a node of the first configuration, if it names one.
    #[inline(always)]
    pub fn names_node(&self, configs: &Configs) -> bool
        ensures { IsTrue result ↔ NamesNode configs.now self.now.kind }
    {
        match self.node() {
            Some(node) => configs.first().has(node),
            None => true,
        }
    }

    /// The epoch of a notice.
    #[inline(always)]
    pub fn epoch(&self) -> Option<Epoch>
        ensures { result ≡ epoch_in self.now.kind }
    {
        match self.kind() {
            LentKind::Kept(kind) => kind.epoch(),
            _ => None,
        }
    }

    /// The place of the frame that it delivers.
    #[inline(always)]
    pub fn delivered(&self) -> Option<u64>
        ensures { result ≡ delivered_place self.now.kind }
    {
        match self.kind() {
            LentKind::Deliver(place) => Some(place),
            LentKind::Kept(EventKind::Deliver { place }) => Some(*place),
            _ => None,
        }
    }
}

/// Whether each event that names a node names one of the first configuration, as `run` of lab
/// requires.
pub fn names_nodes(configs: &Configs, events: &[Event]) -> bool
    ensures { IsTrue result ↔ NamesNodes configs.now events.now }
{
    events.iter().all(|event| event.names_node(configs))
}
