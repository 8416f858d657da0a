//! The rules of a step of a node: the decision on an input, and the state after it.
#![tactic(auto)]

mod deciding;
mod decision;
mod done;
mod error;
mod input;
pub mod laws;
mod pending_submit;
mod persistent_state;
mod places;
mod queue;
mod sending;
mod sent_frames;
mod short_list;
mod state;

pub use chain_model::DropReason;
pub use deciding::decide;
pub use decision::Decision;
pub use done::Done;
pub use error::CoreError;
pub use input::Input;
pub use pending_submit::PendingSubmit;
pub use persistent_state::PersistentState;
pub use sending::Sent;
pub use sent_frames::SentFrames;
pub use short_list::{HeldItems, ShortList, only_item};
pub use state::CoreState;
