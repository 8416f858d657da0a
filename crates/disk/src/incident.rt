// What is noted of a disk beside its states.
use crate::Junk;

/// What came: the disk was armed, or it crashed.
#[derive(Debug, Drop)]
pub enum Incident {
    /// It was armed with a fault at this one of its next calls, or with none.
    Armed(Option<u64>),
    /// It crashed with this junk.
    Crashed(Junk),
}
