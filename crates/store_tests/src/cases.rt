//! What ends a test.

use std::process::Abort;

/// Fails the test unless this holds at the index, as a row does.
pub fn holds_at(rt: &impl Abort, index: usize, holds: bool) {
    assert!(rt; holds, "{index} does not hold");
}

/// Fails the test unless this is so.
pub fn is_so(rt: &impl Abort, holds: bool, what: &str) {
    assert!(rt; holds, "{what}");
}

/// Ends the test where memory is missing.
pub fn has_memory(rt: &impl Abort, is_missing: bool) {
    is_so(rt, !is_missing, "memory");
}
