// Pages: the rows that answer a range, within the limits of an answer.
ghost use Rattle.std.specs.Prelude.{◌≡◌};

use crate::Row;
use std::marker::Model;

/// Rows in the order of their walk, and whether the range has more behind them.
#[derive(Debug, Drop)]
pub struct Page {
    rows: Vec<Row>,
    more: bool,
}

impl Model for Page {
    ghost use Rattle.kv_types.specs.Spans.{Rows};

    ghost Value = { Rows };

    ghost view = { λ page. record { rows = page.rows.items; more = page.more } };
}

impl Page {
    /// The page of these rows. `more` says whether the range has more behind them.
    pub fn new(rows: Vec<Row>, more: bool) -> Page
        ensures { result ≡ record { rows = rows.items; more = more } }
    {
        Page { rows, more }
    }

    /// The rows, in the order of the walk.
    pub fn rows(&self) -> &[Row]
        ensures { result.now ≡ self.now.rows }
    {
        &self.rows
    }

    /// Whether the range has more rows behind these.
    pub fn has_more(&self) -> bool
        ensures { result ≡ self.now.more }
    {
        self.more
    }
}
