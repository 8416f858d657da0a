//! The list of a store's files: two slots represent one version of it, which logs and tables it
//! has. At every moment of a change they represent the old version or the new one.
#![tactic(auto)]

mod creations;
mod error;
mod head;
pub mod laws;
mod manifest;
mod opening;
mod replace;
mod slot_pair;
mod upgrade;

pub use creations::has_only_creation_files;
pub use error::ManifestError;
pub use manifest::Manifest;
pub use upgrade::Upgrade;
pub use version_edits::{
    LogLine, MAX_LINES, MAX_NEXT, StoreVersion, TableLine, TableName, VersionEdit,
};
