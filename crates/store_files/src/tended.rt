// The answer of a tend.

/// What a tend did.
#[derive(Clone, Copy, Debug, PartialEq, Eq)]
pub enum Tended {
    /// Nothing was due.
    Idle,
    /// A rewrite of the manifest, a flush, or in a tend of an engine part of a merge.
    Worked,
    /// What is due has no place: it would need a table, a log or a number more than there may be,
    /// or a table with more data than one may have. Nothing changed, but that an engine gives a
    /// merge up.
    Full,
}
