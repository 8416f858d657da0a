//! A store for those who embed it: a map and its history, on a folder or on any disk.
#![tactic(auto)]

mod alone;
mod cursor;
mod error;
mod folder;
pub mod laws;
mod opening;
mod retrying;
mod store;

pub use cursor::RowCursor;
pub use engine::{EngineError, MAX_SNAPSHOTS, Tended};
pub use error::{OnceError, OpenError};
pub use store::EmbeddedStore;
