// One node by itself on a disk in memory: what it does with each line of the input.
ghost use Rattle.std.specs.Prelude.{IfOk, OnOk};
ghost use Rattle.node.specs.{IsReady};

use crate::files::{put_files, write_words};
use crate::inputs::input_in;
use crate::lines::{put_node, put_output};
use anyhow::{Context, Result, bail};
use configurations::{Config, NodeId};
use disk::{Crash, Junk, JunkBytes, MemDisk};
use kv_types::Limits;
use node::{Node, Stop};
use std::alloc::{AllocError, Global};
use std::str::Split;

// The lines that are left, and the number of the last that was taken.
#[derive(Drop)]
struct Lines<'a> {
    left: Split<'a, char>,
    number: u64,
}

impl<'a> Lines<'a> {
    fn next(&mut self) -> Option<&'a str> {
        self.number = self.number.saturating_add(1);
        self.left.next()
    }
}

// Puts what a node does with an input.
fn put_step(
    alloc: Global,
    text: &mut String,
    line: u64,
    node: &mut Node<MemDisk>,
    word: &str,
) -> Result<()>
    requires { IsReady node.old }
    ensures { OnOk result (IsReady node.new) }
{
    let input = input_in(alloc, word)?;
    let output = node.step(alloc, input)?;
    let put = put_output(text, line, &output);
    drop(output);
    Ok(put?)
}

// Puts the numbers of a node, and what it does with each line up to one that stops it.
fn run_lines(
    alloc: Global,
    text: &mut String,
    lines: &mut Lines<'_>,
    node: &mut Node<MemDisk>,
) -> Result<()>
    requires { IsReady node.old }
{
    put_node(text, lines.number, node)?;
    for _ in 0..u64::MAX {
        match lines.next() {
            None | Some("stop") => return Ok(()),
            Some("") => {}
            Some("show") => put_node(text, lines.number, node)?,
            Some(word) => put_step(alloc, text, lines.number, node, word)?,
        }
    }
    Ok(())
}

// Puts why a node ends, by its number and its text.
fn put_cause(text: &mut String, line: u64, cause: Stop) -> Result<(), AllocError> {
    writeln!(text, "{line}: {} {cause}", cause as u8)
}

// Puts each cause for which a node may end.
fn put_causes(text: &mut String, line: u64) -> Result<(), AllocError> {
    let causes = [
        Stop::Disk,
        Stop::Damaged,
        Stop::Memory,
        Stop::NotCreated,
        Stop::OldFormat,
    ];
    for cause in causes {
        put_cause(text, line, cause)?;
    }
    Ok(())
}

// Puts the numbers of a node that begins, and then what it does until it stops; or why there is
// none. The disk is left.
fn run(
    alloc: Global,
    text: &mut String,
    lines: &mut Lines<'_>,
    begun: Result<Node<MemDisk>, (Stop, MemDisk)>,
) -> Result<MemDisk>
    requires { IfOk begun IsReady }
{
    match begun {
        Ok(mut node) => {
            let ran = run_lines(alloc, text, lines, &mut node);
            let disk = node.into_disk();
            ran?;
            Ok(disk)
        }
        Err((stop, disk)) => {
            put_cause(text, lines.number, stop)?;
            Ok(disk)
        }
    }
}

// The configuration of the nodes that the words name.
fn config_of(alloc: Global, words: Split<'_, char>) -> Result<Config> {
    let mut ids = Vec::new(alloc);
    for word in words {
        ids.push(word.parse::<u16>()?)?;
    }
    Ok(Config::new(alloc, ids)?)
}

// The same of a node that is created on a disk without files.
fn create(
    alloc: Global,
    text: &mut String,
    lines: &mut Lines<'_>,
    mut words: Split<'_, char>,
) -> Result<MemDisk> {
    let id = words.next().unwrap_or("").parse::<u16>()?;
    let id = NodeId::new(id).context("no node")?;
    let config = config_of(alloc, words)?;
    let begun = Node::create(alloc, MemDisk::new(alloc), id, &config, &Limits::default());
    drop(config);
    run(alloc, text, lines, begun)
}

// Crashes a disk. Its unsynced places get the bytes that a word spells.
fn crash(alloc: Global, disk: &mut MemDisk, mut words: Split<'_, char>) -> Result<()> {
    let bytes = hex::decode(alloc, words.next().unwrap_or("").as_bytes())?;
    disk.crash(Junk::Bytes(JunkBytes::new(bytes)));
    Ok(())
}

// Does to the disk what a line says that begins no node.
fn act_at_rest(
    alloc: Global,
    text: &mut String,
    line: u64,
    disk: &mut MemDisk,
    kind: &str,
    words: Split<'_, char>,
) -> Result<()> {
    match kind {
        "" => Ok(()),
        "causes" => Ok(put_causes(text, line)?),
        "crash" => crash(alloc, disk, words),
        "disk" => put_files(alloc, text, line, disk),
        "files" => write_words(alloc, disk, words),
        _ => bail!("a line of no known kind, where no node runs"),
    }
}

// Does what a line says while no node runs, which may begin one.
fn follow(
    alloc: Global,
    text: &mut String,
    lines: &mut Lines<'_>,
    mut disk: MemDisk,
    mut words: Split<'_, char>,
) -> Result<MemDisk> {
    match words.next().unwrap_or("") {
        "create" => create(alloc, text, lines, words),
        "start" => {
            let begun = Node::start(alloc, disk, &Limits::default());
            run(alloc, text, lines, begun)
        }
        kind => {
            act_at_rest(alloc, text, lines.number, &mut disk, kind, words)?;
            Ok(disk)
        }
    }
}

/// Puts what is done with each line.
pub fn put_all(alloc: Global, text: &mut String, input: &str) -> Result<()> {
    let mut lines = Lines {
        left: input.split('\n'),
        number: 0,
    };
    let mut disk = MemDisk::new(alloc);
    for _ in 0..u64::MAX {
        let Some(line) = lines.next() else {
            break;
        };
        disk = follow(alloc, text, &mut lines, disk, line.split(' '))?;
    }
    drop(disk);
    Ok(())
}
