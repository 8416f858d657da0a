//! Counts that a test asserts.

use std::process::Abort;

/// Fails the test where the count is another one.
pub fn is_count(rt: &impl Abort, found: usize, want: usize) {
    assert!(rt; found == want, "{found}");
}
