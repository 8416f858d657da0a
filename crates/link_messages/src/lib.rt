//! The frames between nodes and clients, and the one spelling of each frame.
#![tactic(auto)]

mod boxed_range;
mod error;
mod fields;
mod frame;
pub mod laws;
mod numbers;
mod reader;
mod reading;
mod rows;
mod writing;

pub use boxed_range::BoxedRange;
pub use chain_model::Refusal;
pub use error::FrameError;
pub use frame::{Frame, MAX_FRAME};
pub use reader::{FrameReader, read};
pub use writing::write;
