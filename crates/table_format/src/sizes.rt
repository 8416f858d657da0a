//! The sizes of a table's parts, in bytes.

/// A builder closes a block when its bytes without the digest have reached this many.
pub const BLOCK_SIZE: usize = 4096;

/// The greatest number of bytes that the blocks of a table may have together.
pub const MAX_DATA: u64 = 8_589_934_592;

/// The bytes of a footer with its digest.
pub const FOOTER_SIZE: usize = 52;
