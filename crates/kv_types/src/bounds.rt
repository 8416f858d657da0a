//! The bounds of values, batches, pages and numbers.

/// The greatest length of a value, in bytes.
pub const MAX_VALUE: usize = 16384;

/// The greatest number of edits in a batch.
pub const MAX_EDITS: usize = 256;

/// The greatest length of a batch's spelling, in bytes.
pub const MAX_BATCH: usize = 65536;

/// The greatest number of rows that a range may ask for.
pub const MAX_ROWS: u32 = 1024;

/// The greatest size of a page, in bytes.
pub const MAX_PAGE: usize = 98304;

/// The bytes that a row counts in a page besides its key and value.
pub const ROW_OVERHEAD: usize = 4;

/// The greatest number of blocks of tables that a store keeps in memory.
pub const MAX_CACHE: u64 = 65536;

/// The greatest number of a batch, a request or a file: 2^63 - 1.
pub const MAX_NUMBER: u64 = 9223372036854775807;
