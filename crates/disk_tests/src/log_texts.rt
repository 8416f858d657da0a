// The texts of a log's refusals.
use crate::cases::{Case, all_hold};
use crate::items::is_same;
use disk::DiskError;
use record_log::LogError;
use std::alloc::Global;
use std::process::Abort;

// A refusal, and its text.
struct Text(LogError, &'static str);

impl Case for Text {
    fn holds(&self, rt: &impl Abort, alloc: Global) -> bool {
        let text = format!(in alloc; "{}", self.0).expect(rt, "memory");
        is_same(text.as_bytes(), self.1.as_bytes())
    }
}

static TEXTS: [Text; 4] = [
    Text(LogError::Disk(DiskError::Failed), "disk: the device failed"),
    Text(
        LogError::TooLong,
        "a record is longer than 16,777,216 bytes",
    ),
    Text(LogError::Memory, "out of memory"),
    Text(LogError::Failed, "the log has to be opened again"),
];

#[test]
fn texts_of_refusals(rt: HostRuntime) {
    all_hold(&rt, rt.alloc(), &TEXTS);
}
