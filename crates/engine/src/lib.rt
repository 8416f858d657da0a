//! One node's store: a list of batches on a disk, and reads of the maps of its beginnings.
#![tactic(auto)]

mod adopting;
mod engine;
pub mod laws;
mod marking;
mod merging;
mod reading;
mod snapshots;
mod tending;
mod upgrading;

pub use engine::Engine;
pub use snapshots::MAX_SNAPSHOTS;
pub use store_files::{EngineError, Tended};
pub use upgrading::Upgraded;
