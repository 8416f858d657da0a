// A world on its way: how many events it has had, and how many frames it has sent.
use crate::cases::{holds_at, is_so};
use crate::items::{config_of, id_of, small_batch};
use configurations::{Configs, Epoch};
use disk::MemDisk;
use kv_types::Limits;
use lab::{Direct, Event, EventKind, Line, World, names_nodes};
use std::alloc::Global;
use std::process::Abort;

#[derive(Clone, Copy)]
enum Step {
    // Node 1 gets a batch.
    Submit,
    Tick(u16),
    Deliver(u64),
    // Node 1 hears of an epoch.
    Notice(u32),
}

fn event_of(rt: &impl Abort, alloc: Global, step: Step) -> Event {
    let first = id_of(rt, 1);
    let kind = match step {
        Step::Submit => EventKind::Submit {
            node: first,
            batch: small_batch(rt, alloc),
        },
        Step::Tick(node) => EventKind::Tick {
            node: id_of(rt, node),
        },
        Step::Deliver(place) => EventKind::Deliver { place },
        Step::Notice(epoch) => EventKind::Notice {
            node: first,
            epoch: Epoch::new(epoch).expect(rt, "an epoch"),
        },
    };
    Event::faultless(alloc, kind).expect(rt, "memory")
}

/// The list of one configuration, of nodes 1, 2 and 3.
pub fn three_nodes(rt: &impl Abort, alloc: Global) -> Configs {
    let mut configs = Vec::new(alloc);
    configs
        .push(config_of(rt, alloc, &[1, 2, 3]))
        .expect(rt, "memory");
    Configs::new(configs).expect(rt, "configurations")
}

// Whether the last event had no effect.
fn has_done_nothing(world: &World<MemDisk, Direct>) -> bool {
    let Some(lines) = world.report().last() else {
        return false;
    };
    matches!(lines.as_slice().first(), Some(Line::Nothing))
}

// Steps, the number of events and of frames behind each, and whether it had no effect. One that
// names an unknown node is no event; one that delivers no frame, or is of no configuration, is one.
static WAY: [(Step, usize, u64, bool); 7] = [
    (Step::Submit, 1, 1, false),
    (Step::Tick(4), 1, 1, false),
    (Step::Deliver(1), 2, 2, false),
    (Step::Deliver(9), 3, 2, true),
    (Step::Deliver(u64::MAX), 4, 2, true),
    (Step::Notice(1), 5, 2, true),
    (Step::Tick(1), 6, 3, false),
];

#[test]
fn a_world_has_its_events_and_frames(rt: HostRuntime) {
    let (rt, alloc) = (&rt, rt.alloc());
    let made = World::new(alloc, &three_nodes(rt, alloc), &Limits::default());
    let mut world = made.expect(rt, "a world");
    is_so(rt, world.events().is_empty() && world.sent() == 0, "new");
    for (index, (step, events, sent, is_nothing)) in WAY.iter().enumerate() {
        let event = event_of(rt, alloc, *step);
        world.step(alloc, &event).expect(rt, "a step");
        drop(event);
        let found = (world.events().len(), world.sent(), has_done_nothing(&world));
        holds_at(rt, index, found == (*events, *sent, *is_nothing));
    }
    let report = world.finish(alloc).expect(rt, "a report");
    is_so(rt, report.steps.len() == 6, "the events of its report");
}

#[test]
fn an_unknown_node(rt: HostRuntime) {
    let (rt, alloc) = (&rt, rt.alloc());
    let configs = three_nodes(rt, alloc);
    for (node, is_known) in [(1, true), (3, true), (4, false)] {
        let mut events = Vec::new(alloc);
        events
            .push(event_of(rt, alloc, Step::Tick(node)))
            .expect(rt, "memory");
        let found = names_nodes(&configs, &events);
        drop(events);
        is_so(
            rt,
            found == is_known,
            "the nodes of the first configuration",
        );
    }
}
