//! The logs of a store: which batches their files have, appended, read and opened again. Each call
//! that reaches files is lent the disk.
#![tactic(auto)]

mod batch_logs;
pub mod laws;
mod layout;
mod replaying;

pub use batch_logs::{BatchLog, BatchLogs};
pub use replaying::open_logs;
