//! One kind of cursor for a store, over a memtable or over tables of files, and the rows that
//! several of them show at a number.
#![tactic(auto)]

mod child_place;
mod concatenated;
mod in_turn;
mod rows;
mod start;
mod store_cursor;

pub use concatenated::Concatenated;
pub use in_turn::Ends;
pub use rows::{StoreRows, rows_at};
pub use store_cursor::StoreCursor;
