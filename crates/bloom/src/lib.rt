//! Bloom filters over keys, without false negatives.
#![tactic(auto)]

mod bits;
mod filter;
mod hashes;
pub mod laws;

pub use filter::{build, build_hashed, may_hold, may_hold_hashed};
pub use hashes::KeyHashes;
