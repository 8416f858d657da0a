//! The words of a statement whose form is right.
ghost use Rattle.std.specs.Prelude.{◌≡◌, Some};
ghost use Rattle.events.specs.{node_in};
ghost use Rattle.scripts.specs.Reading.{what_of};

use disk::Junk;
use kv_types::Number;
use script_words::RawRange;

/// What a statement asks for that has no reader of its own, before anything but its spelling is
/// known: pages, snapshots, a tick, a tend, a stop and a start.
#[derive(Drop)]
pub enum Command {
    Rows(u64, RawRange, Option<Number>),
    Open(u64, Option<Number>),
    Close(u64, Number),
    Tick(u64),
    Tend(u64),
    Stop(u64, Junk),
    Start(u64),
}

impl Command {
    /// The node that it names.
    pub fn node(&self) -> u64
        ensures { node_in (what_of self.now) ≡ Some result }
    {
        match self {
            Command::Rows(node, _, _) => *node,
            Command::Open(node, _) => *node,
            Command::Close(node, _) => *node,
            Command::Tick(node) => *node,
            Command::Tend(node) => *node,
            Command::Stop(node, _) => *node,
            Command::Start(node) => *node,
        }
    }
}
