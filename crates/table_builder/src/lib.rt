//! Building a table file, block by block, from entries in rising order.
#![tactic(auto)]

mod appending;
mod builder;
mod keys;
mod part;
mod tail;

pub use builder::{Builder, Finished};
