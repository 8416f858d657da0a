//! Runs of a chain, simulated: every event, every line, what was lost, and every disk at the end.
#![tactic(auto)]

mod delivery;
mod input;
pub mod laws;
mod leaving;
mod node_state;
mod replies;
mod report;
mod runs;
mod sim_node;
mod trace;
mod world;

// The types that events, lines and reports have, so that a caller need not name their crates.
pub use carriers::{Carried, Carrier, Direct, KeptReply, LabError, Peer, ReplyForm};
pub use configurations::{Config, ConfigError, Configs, Epoch, NodeId};
pub use disk::{Fault, Junk, JunkBytes, MemDisk};
pub use engine::Tended;
pub use events::{Event, EventContent, EventKind, names_nodes};
pub use kv_types::{Batch, Key, Limits, Number, Page, Range, Row, Value};
pub use link_messages::Refusal;
pub use node::{DropReason, Numbers, Reply, Stop};
pub use report::{Line, Lines, NodeReport, Report};
pub use runs::run;
pub use sim_node::SimNode;
pub use world::World;
