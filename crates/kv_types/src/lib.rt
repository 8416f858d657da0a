//! Keys, values, edits and batches, and the one spelling of a batch.
#![tactic(auto)]

mod batch;
pub mod bounds;
mod edit;
mod error;
mod key;
pub mod laws;
mod limit_name;
mod limits;
mod map;
mod mark;
mod number;
mod page;
mod range;
mod reading;
mod row;
mod shared;
mod value;
mod writing;

pub use batch::Batch;
pub use edit::Edit;
pub use error::KvError;
pub use key::Key;
pub use limit_name::LimitName;
pub use limits::Limits;
pub use map::value_at;
pub use mark::{HeldMark, Mark};
pub use number::Number;
pub use page::Page;
pub use range::Range;
pub use row::Row;
pub use value::Value;
