//! The entries of the newest batches, in memory.
#![tactic(auto)]

mod bounds;
mod cursor;
mod error;
mod found;
pub mod laws;
mod memtable;
mod place;
mod put;
mod version;

pub use bounds::ENTRY_BYTES;
pub use cursor::MemCursor;
pub use error::MemtableError;
pub use found::Found;
pub use memtable::Memtable;
