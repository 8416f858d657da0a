//! An append-only log of records in a file: `append` adds one, and a crash in it leaves the list
//! with or without the new record.
#![tactic(auto)]

mod error;
mod gate;
mod laws;
mod log;
mod scan;

pub use error::LogError;
pub use gate::write_gated;
pub use laws::{first_lengths_are, gates_are_in_files, record_bound_is, records_are_unique};
pub use log::{Log, OpenedLog};
