//! The words of scripts: what the words of one line spell, each with one spelling.
#![tactic(auto)]

mod bytes;
mod edit;
mod error;
mod fault;
mod junk;
mod limits;
mod lines;
mod plain;
mod range;
mod word;

pub use bytes::Bytes;
pub use edit::{RawEdit, raw_edit_of};
pub use error::ScriptError;
pub use fault::{fault_behind, split_fault};
pub use junk::junk_of;
pub use limits::{ScriptLimits, limit_of};
pub use lines::{ScriptLines, ended_line, put_words};
pub use plain::{is_itself, split_plain};
pub use range::{RawRange, bounds_of};
pub use word::{batch_number, bytes_of, number, positive_number};
