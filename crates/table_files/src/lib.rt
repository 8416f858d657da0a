//! A disk and the blocks that were read of it, in one value.
#![tactic(auto)]

mod block;
mod cache;
mod cached_disk;
pub mod laws;
mod read;

pub use block::CheckedBlock;
pub use cached_disk::{CachedDisk, MAX_BLOCKS};
