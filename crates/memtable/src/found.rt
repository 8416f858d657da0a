//! What a lookup finds.

use kv_types::Value;

/// What a key has at a number.
#[derive(Clone, Copy)]
pub enum Found<'a> {
    /// The value that the newest entry puts, and the entry's number.
    Value(&'a Value, u64),
    /// The newest entry is a deletion.
    Deleted,
    /// The key has no entry with at most that number.
    None,
}
