//! The text of a row.
ghost use Rattle.std.specs.Prelude.{Some};
ghost use Rattle.store_texts.specs.Texts.{printed_row};

use crate::spelled::Spelled;
use kv_types::Row;
use std::fmt;

/// A row, as it is printed.
#[derive(Clone, Copy)]
pub struct RowText<'a>(pub &'a Row);

impl fmt::Display for RowText<'_> {
    ghost output = { λ it. Some (printed_row it.0.now) };

    fn fmt<W: fmt::Write>(&self, f: &mut fmt::Formatter<W>) -> fmt::Result {
        let key = Spelled(self.0.key());
        let value = Spelled(self.0.value());
        write!(f, "row {key}={value}")
    }
}
