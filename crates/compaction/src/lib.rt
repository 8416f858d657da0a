//! Merges of tables: which one is due, and a merge in bounded steps.
#![tactic(auto)]

mod error;
mod finishing;
mod inputs;
pub mod laws;
mod leftovers;
mod merge;
mod merge_edit;
mod open_output;
mod picking;
mod plan;
mod ranges;
mod turn;
mod walking;
mod writer;

pub use error::MergeError;
pub use finishing::finished_line;
pub use inputs::LentRange;
pub use merge::Merge;
pub use picking::pick;
pub use plan::Plan;
pub use turn::Turn;
