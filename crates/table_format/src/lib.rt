//! The format of a table file: entries in blocks, a filter, an index and a footer, each with a
//! digest, written and read part by part.
#![tactic(auto)]

mod block;
mod entry;
mod error;
mod filter;
mod footer;
mod format;
mod index;
pub mod laws;
mod line;
mod part;
pub mod sizes;
mod writing;

pub use block::entries_of;
pub use entry::{LentEntry, entry_of};
pub use error::{FileError, TableError};
pub use filter::{filter_of, filter_part_of};
pub use footer::{Footer, footer_of, footer_part_of};
pub use index::lines_of;
pub use line::IndexLine;
pub use part::{seal, unsealed};
pub use writing::{entry_len, put_entry, put_line};
