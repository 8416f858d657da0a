//! What a statement did: how many events it had, and what is said of it besides.
use kv_types::KvError;
use lab::{NodeId, Numbers};

/// What is said of a statement besides the lines of its events.
#[derive(Drop)]
pub enum Note {
    Nothing,
    /// A key, value or batch that there can't be: the statement has no event.
    Invalid(KvError),
    /// The flow stopped at its bound, with frames left; or the settle did, with work left.
    Busy,
    /// The numbers of a node that runs.
    Running(NodeId, Numbers),
    /// A node that is down, or unknown to the world.
    Down(NodeId),
}

/// What a statement did: the line where it stands, how many events it had, for how many of the
/// first of them nothing is printed, and what is said besides.
#[derive(Drop)]
pub struct StatementResult {
    pub line: u32,
    pub events: usize,
    pub silent: usize,
    pub note: Note,
}
