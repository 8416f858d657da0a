//! The tables of a store, level by level: opened, looked up, and written from memory. Each call
//! that reaches their files is lent the disk.
#![tactic(auto)]

mod error;
pub mod laws;
mod levels;
mod series;
mod table_writing;

pub use error::{EngineError, refusal_of_edit};
pub use levels::{LevelTables, OpenTable};
pub use table_writing::{remove_file, write_table};
