//! Batches are submitted to a chain of three nodes on disks in memory.
use crate::setting::{Setting, nanos};
use anyhow::Result;
use benchmarks::{Count, Measure, Work};
use lab::{Config, Configs, Direct, Event, EventKind, Limits, MemDisk, NodeId, World};
use std::alloc::Global;

/// Frames of a batch: a Forward down each of two links, and an Ack back.
const FRAMES: u64 = 4;

type Chain = World<MemDisk, Direct>;

fn chain_of_three(alloc: Global) -> Result<Configs> {
    let ids = vec![in alloc; 1, 2, 3]?;
    let config = Config::new(alloc, ids)?;
    let mut configs = Vec::with_capacity(alloc, 1)?;
    let _ = configs.push(config);
    Ok(Configs::new(configs)?)
}

fn step(alloc: Global, world: &mut Chain, kind: EventKind) -> Result<()> {
    let event = Event::faultless(alloc, kind)?;
    let stepped = world.step(alloc, &event);
    drop(event);
    Ok(stepped?)
}

/// Submits a batch of one put to the head, and delivers each frame that is sent of it.
fn commit(
    alloc: Global,
    world: &mut Chain,
    head: NodeId,
    work: &mut Work,
    count: &mut Count,
) -> Result<()> {
    let before = world.sent();
    let batch = work.next_batch(alloc, 1)?;
    count.add_batch(batch.clone()?);
    step(alloc, world, EventKind::Submit { node: head, batch })?;
    for frame in 0..FRAMES {
        let place = before.saturating_add(frame).saturating_add(1);
        step(alloc, world, EventKind::Deliver { place })?;
    }
    Ok(())
}

fn measured_in(
    rt: &HostRuntime,
    world: &mut Chain,
    head: NodeId,
    setting: &Setting,
    work: &mut Work,
) -> Result<Measure> {
    let mut count = Count::new();
    let start = nanos(rt)?;
    for _ in 0..setting.operations {
        commit(rt.alloc(), world, head, work, &mut count)?;
    }
    let taken = nanos(rt)?.saturating_sub(start);
    Ok(count.in_time(setting.benchmark, taken))
}

fn measured_of(
    rt: &HostRuntime,
    configs: &Configs,
    setting: &Setting,
    work: &mut Work,
) -> Result<Measure> {
    let head = configs.first().head();
    let mut world = World::new(rt.alloc(), configs, &Limits::default())?;
    let measured = measured_in(rt, &mut world, head, setting, work);
    world.close();
    measured
}

/// Submits batches of one put, each acknowledged before the next.
pub fn measured(rt: &HostRuntime, setting: &Setting, work: &mut Work) -> Result<Measure> {
    let configs = chain_of_three(rt.alloc())?;
    let measured = measured_of(rt, &configs, setting, work);
    drop(configs);
    measured
}
