//! The interface of a disk with its crash outcomes, and a disk in memory.
#![tactic(auto)]

mod buffer;
mod crash;
mod device;
mod disk;
mod error;
mod fault;
mod file;
mod history;
mod incident;
mod junk;
pub mod laws;
mod memory;
mod pending_write;
mod slot;
mod tear;

pub use crash::Crash;
pub use disk::{Disk, ends_out_of_range};
pub use error::DiskError;
pub use fault::Fault;
pub use incident::Incident;
pub use junk::{Junk, JunkBytes};
pub use memory::MemDisk;
pub use pending_write::PendingWrite;
