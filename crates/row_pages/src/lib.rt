//! Pages of rows, read through a cursor: it meets the entries of the page and at most two more.
#![tactic(auto)]

mod page_rows;
mod reading;
mod walking;

pub use reading::read_page;
