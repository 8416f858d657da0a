//! What a node's store has is written out: its numbers, and each row of the map at its count.
#![tactic(auto)]

mod dump_error;
mod row_walk;
mod store_dump;

pub use dump_error::DumpError;
pub use store_dump::dump_store;
