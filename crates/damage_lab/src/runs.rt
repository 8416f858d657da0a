// Scripts, run over carriers that lose or alter what they are to carry.
use anyhow::{Context, Result, bail};
use client::run_script;
use lab::{Carrier, World};
use scripts::{Script, read_script};
use std::alloc::Global;
use std::io::Read;
use test_carriers::{Alteration, Altering, Losing, OnlyOnce};

// The script on standard input.
fn script_of(rt: &HostRuntime) -> Result<Script> {
    let mut text = Vec::new(rt.alloc());
    rt.stdin().read_to_end(&mut text)?;
    match read_script(rt.alloc(), &text, true) {
        Ok(script) => Ok(script),
        Err(fault) => bail!("script: a fault in line {}", fault.line),
    }
}

// Runs the script on standard input over a carrier.
fn run_over<C: Carrier + Drop>(rt: &HostRuntime, carrier: C) -> Result<()> {
    let script = script_of(rt)?;
    let setup = &script.setup;
    let mut world = World::created(rt.alloc(), &setup.configs, carrier, &setup.limits)?;
    let ran = run_script(rt.alloc(), &script, &mut world, &mut rt.stdout());
    world.close();
    ran?;
    Ok(())
}

fn turns_of(alloc: Global, words: &[String]) -> Result<Vec<u64>> {
    let mut turns = Vec::new(alloc);
    for word in words {
        turns.push(word.parse::<u64>()?)?;
    }
    Ok(turns)
}

// The alteration of a word TURN:PLACE=BYTE.
fn alteration_of(word: &str) -> Result<Alteration> {
    let (turn, rest) = word.split_once(':').context("no turn")?;
    let (place, byte) = rest.split_once('=').context("no byte")?;
    Ok(Alteration {
        turn: turn.parse::<u64>()?,
        place: place.parse::<usize>()?,
        byte: byte.parse::<u8>()?,
    })
}

fn alterations_of(alloc: Global, words: &[String]) -> Result<Vec<Alteration>> {
    let mut alterations = Vec::new(alloc);
    for word in words {
        alterations.push(alteration_of(word.as_str())?)?;
    }
    Ok(alterations)
}

/// Runs the script on standard input over a carrier that loses the turns that the words are.
pub fn lose(rt: &HostRuntime, words: &[String]) -> Result<()> {
    run_over(rt, Losing::new(turns_of(rt.alloc(), words)?))
}

/// Runs it over a carrier that alters the bytes that the words name.
pub fn alter(rt: &HostRuntime, words: &[String]) -> Result<()> {
    run_over(rt, Altering::new(alterations_of(rt.alloc(), words)?))
}

/// Runs it over a carrier that carries nothing twice.
pub fn carry_once(rt: &HostRuntime) -> Result<()> {
    run_over(rt, OnlyOnce::new(rt.alloc()))
}
