//! The nodes of a chain in folders: created or started, each behind the lock of its folder.
#![tactic(auto)]

mod fault;
mod finding;
mod folders;
mod search;

pub use fault::{EndedSearch, FolderError, FolderFault};
pub use finding::node_over;
pub use folders::nodes_in;
pub use search::{NodeDisks, nodes_over};
