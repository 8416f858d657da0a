//! What one node by itself does with any inputs, as the lines of the standard input say them.
#![tactic(auto)]

mod files;
mod inputs;
mod lines;
mod nodes;

use anyhow::Result;
use nodes::put_all;
use std::io::Read;

/// Does what the lines of the standard input say to a node and its disk, and prints what it does.
fn main(rt: HostRuntime) -> Result<()> {
    let mut input = Vec::new(rt.alloc());
    rt.stdin().read_to_end(&mut input)?;
    let mut text = String::new(rt.alloc());
    put_all(rt.alloc(), &mut text, str::from_utf8(&input)?)?;
    print!(rt; "{text}")?;
    Ok(())
}
