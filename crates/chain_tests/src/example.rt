//! The example of the README: a chain of three nodes, a batch, its frames, a read.
use crate::cases::is_so;
use crate::worlds::three_nodes;
use configurations::Configs;
use kv_types::{Batch, Edit, Key, KvError, Limits, Value};
use lab::{Direct, Event, EventKind, LabError, Line, MemDisk, Reply, ReplyForm, Report, World};
use std::alloc::Global;
use std::process::Abort;
use std::test::Fail;

fn name(alloc: Global) -> Result<Key, KvError> {
    Key::new(b"name".to_vec(alloc)?)
}

// A batch that puts `Ada` to the key `name`.
fn put_name(alloc: Global) -> Result<Batch, KvError> {
    let value = Value::new(b"Ada".to_vec(alloc)?)?;
    Batch::new(vec![in alloc; Edit::Put(name(alloc)?, value)]?)
}

// Applies an event in which no call of a disk fails.
fn step(
    alloc: Global,
    world: &mut World<MemDisk, Direct>,
    kind: EventKind,
) -> Result<(), LabError> {
    let event = Event::faultless(alloc, kind)?;
    let stepped = world.step(alloc, &event);
    drop(event);
    stepped
}

// README begins
/// The head accepts the batch, and the frames of all three nodes are delivered: two carry it to the
/// tail, and two bring back that it is committed. Then the tail is asked for the key.
fn write_and_read(alloc: Global, chain: &Configs, batch: Batch, key: Key) -> Result<Report, Fail> {
    let (head, tail) = (chain.first().head(), chain.first().tail());
    let mut world = World::new(alloc, chain, &Limits::default())?;
    step(alloc, &mut world, EventKind::Submit { node: head, batch })?;
    for place in 1..=4 {
        step(alloc, &mut world, EventKind::Deliver { place })?;
    }
    let (node, at) = (tail, None);
    step(alloc, &mut world, EventKind::Get { node, key, at })?;
    Ok(world.finish(alloc)?)
}
// README ends

// The value and the number of the reply to the last event.
fn value_read(report: &Report) -> Option<(&[u8], u64)> {
    let Line::Replied(reply) = report.steps.last()?.as_slice().last()? else {
        return None;
    };
    let ReplyForm::Other(reply) = reply.form() else {
        return None;
    };
    match reply.as_ref() {
        Reply::Value { number, value, .. } => Some((value.as_ref()?.as_bytes(), number.get())),
        _ => None,
    }
}

// The third node commits the batch, since it is the tail, and has the value.
fn shows_it(rt: &impl Abort, alloc: Global) -> Result<(), Fail> {
    let chain = three_nodes(rt, alloc);
    let report = write_and_read(alloc, &chain, put_name(alloc)?, name(alloc)?)?;
    let is_read = value_read(&report) == Some((b"Ada".as_slice(), 1));
    is_so(
        rt,
        is_read && report.steps.len() == 6,
        "a value at the tail",
    );
    Ok(())
}

#[test]
fn the_tail_reads_what_the_head_accepted(rt: HostRuntime) -> Result<(), Fail> {
    shows_it(&rt, rt.alloc())
}
