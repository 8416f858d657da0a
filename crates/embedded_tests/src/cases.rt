//! Rows of a table, each tried by itself, and what ends a test.

use embedded_store::EngineError;
use std::process::Abort;

/// Fails the test unless this holds at the index, as a row does.
pub fn holds_at(rt: &impl Abort, index: usize, holds: bool) {
    assert!(rt; holds, "{index} does not hold");
}

/// Fails the test unless this is so.
pub fn is_so(rt: &impl Abort, holds: bool, what: &str) {
    assert!(rt; holds, "{what}");
}

/// What a call answered that was not refused. A text of the caller, or a drop of the answer, would
/// be proved at each call, so it asks for neither.
pub fn done<T, E: Drop>(rt: &impl Abort, answer: Result<T, E>) -> T {
    answer.ok().expect(rt, "a call that is not refused")
}

/// Whether a call answered this error. A comparison stands here alone, as in `is_same`.
pub fn fails<T: Drop>(answer: Result<T, EngineError>, want: EngineError) -> bool {
    answer.err() == Some(want)
}
