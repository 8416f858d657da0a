//! What a version of a store is, which edits it may take, and the one spelling of an edit. Nothing
//! here calls a disk.
#![tactic(auto)]

mod changed;
mod edit;
mod error;
mod fits;
pub mod laws;
mod line;
mod next;
mod reading;
mod replaying;
mod spelling;
mod version;

pub use changed::{is_removed, table_is_before, version_after};
pub use edit::VersionEdit;
pub use error::EditError;
pub use fits::{files_of, names_file, names_log, removed_files};
pub use line::{LogLine, MAX_LINES, MAX_NEXT, TableLine, TableName};
pub use next::is_fit;
pub use replaying::replay;
pub use spelling::{bytes_of, full_edit_bytes};
pub use version::{StoreVersion, first_version};
