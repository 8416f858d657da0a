//! What ends a test, and comparisons.

use std::process::Abort;

/// Fails the test unless this is so.
pub fn is_so(rt: &impl Abort, holds: bool, what: &str) {
    assert!(rt; holds, "{what}");
}

/// Whether these are the same bytes. A comparison is dear to prove, so it stands here alone.
pub fn is_same(found: &[u8], want: &[u8]) -> bool {
    found == want
}
