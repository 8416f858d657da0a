//! The text of byte strings, of rows and of a store's numbers, and how a text goes out.
#![tactic(auto)]

mod numbers;
mod row;
mod spelled;
mod writing;

pub use numbers::{NumbersText, StoreText};
pub use row::RowText;
pub use spelled::Spelled;
pub use writing::print;
