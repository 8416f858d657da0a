//! Cursors over sorted entries: those of a list in memory, the union of several cursors, and the
//! entries that the view at a number shows.
#![tactic(auto)]

mod at_number;
mod child;
mod children;
mod cursor;
mod direction;
mod error;
mod kept;
mod list;
mod merged;
mod mode;
mod ordering;
mod owned_entry;
mod place;
mod shown;
mod turns;

pub use at_number::AtNumber;
pub use child::step;
pub use cursor::Cursor;
pub use direction::Direction;
pub use error::CursorError;
pub use list::ListCursor;
pub use merged::Merged;
pub use ordering::order;
pub use owned_entry::OwnedEntry;
