//! What the bytes of a memtable count.

/// What an entry counts beside the bytes of its key and its value.
pub const ENTRY_BYTES: u64 = 64;

/// What the entry of a mark counts: a client and a request in eight bytes each, and the rest.
pub const MARK_BYTES: u64 = 16 + ENTRY_BYTES;
