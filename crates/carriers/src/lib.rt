//! What carries the frames of a chain: bytes that arrive or are lost, and what arrives of a frame.
#![tactic(auto)]

mod carrier;
mod deliveries;
mod direct;
mod error;
mod kept_reply;
pub mod laws;
mod replies;
mod sending;

pub use carrier::{Carried, Carrier, Peer};
pub use deliveries::{Delivery, NodeInput, send_posted, send_request};
pub use direct::Direct;
pub use error::LabError;
pub use kept_reply::{KeptReply, ReplyForm};
pub use replies::send_reply;
pub use sending::{Received, send, send_bytes};
