//! The text of how many rows an answer has.
ghost use Rattle.std.specs.Prelude.{◌≡◌, Some};
ghost use Rattle.client.specs.Text.{more_text, rows_text};

use kv_types::{Number, Page};
use std::fmt;

// What is said where rows were left.
fn more_name(more: bool) -> &'static str
    ensures { result.now ≡ more_text more }
{
    if more { " more" } else { "" }
}

/// How many rows an answer has, and at which number.
#[derive(Clone, Copy)]
pub struct RowsText<'a>(pub Number, pub &'a Page);

impl fmt::Display for RowsText<'_> {
    ghost output = { λ it. Some (rows_text it.0 it.1.now) };

    fn fmt<W: fmt::Write>(&self, f: &mut fmt::Formatter<W>) -> fmt::Result {
        let (number, count) = (self.0.get(), self.1.rows().len());
        let more = more_name(self.1.has_more());
        write!(f, "rows {count} at {number}{more}")
    }
}
