//! The events of a run: what happens to a node, and a fault of its disk meanwhile.
#![tactic(auto)]

mod content;
mod event;
mod kind;
mod lent;

pub use content::EventContent;
pub use event::{Event, names_nodes};
pub use kind::EventKind;
pub use lent::LentKind;
