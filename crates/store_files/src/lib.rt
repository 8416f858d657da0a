//! The open files of a store: manifest, logs of batches and tables, each call lent the disk.
#![tactic(auto)]

mod adopting;
mod finding;
mod flushing;
pub mod laws;
mod merging;
mod opening;
mod raising;
mod removing;
mod rows;
mod settling;
mod store_files;
mod tended;
mod tending;

pub use batch_logs::BatchLogs;
pub use store_files::StoreFiles;
pub use store_tables::{EngineError, LevelTables};
pub use tended::Tended;
