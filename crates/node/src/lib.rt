//! One node of a chain: a store on a disk, and the rules of a step over it.
#![tactic(auto)]

mod asking;
pub mod laws;
mod node;
mod numbers;
mod output;
mod performing;
mod replying;
mod starting;
mod stop;

pub use chain_core::{DropReason, HeldItems, Input, Sent, SentFrames, ShortList, only_item};
pub use engine::Tended;
pub use node::Node;
pub use numbers::Numbers;
pub use output::{Output, Reply};
pub use stop::Stop;
