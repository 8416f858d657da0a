//! A folder as a disk, and a disk that no call changes.
#![tactic(auto)]

mod answers;
mod failure_count;
mod folder;
mod lock;
mod names;
mod new_names;
mod open_file;
mod open_files;
mod read_only;
mod system;
mod unchanged;

pub use folder::DirDisk;
pub use lock::LockError;
pub use unchanged::Unchanged;
