//! Sorted tables: opened, looked up and walked through, one block at a time.
#![tactic(auto)]

mod block;
mod block_place;
mod entry_place;
mod found;
pub mod laws;
mod line_block;
mod lines;
mod starts;
mod table;
mod table_cursor;
mod tail;

pub use found::FoundVersion;
pub use table::{Table, hashes_in};
pub use table_builder::{Builder, Finished};
pub use table_cursor::TableCursor;
pub use table_files::{CachedDisk, MAX_BLOCKS};
pub use table_format::{FileError, LentEntry, TableError};
