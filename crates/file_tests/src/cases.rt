//! Rows of a table, each tried by itself, and what ends a test.

use std::alloc::Global;
use std::process::Abort;

/// A row of a table: what is done, and its outcome.
pub trait Case {
    /// Whether that is its outcome. Want of memory ends the test.
    fn holds(&self, rt: &impl Abort, alloc: Global) -> bool;
}

/// Tries each row. The failure names the first that does not hold, by its place from 0.
pub fn all_hold<C: Case>(rt: &impl Abort, alloc: Global, rows: &[C]) {
    for (index, row) in rows.iter().enumerate() {
        holds_at(rt, index, row.holds(rt, alloc));
    }
}

/// Fails the test unless this holds at the index, as a row does.
pub fn holds_at(rt: &impl Abort, index: usize, holds: bool) {
    assert!(rt; holds, "{index} does not hold");
}

/// Fails the test unless this is so.
pub fn is_so(rt: &impl Abort, holds: bool, what: &str) {
    assert!(rt; holds, "{what}");
}
