// How often the device of a disk has failed.
ghost use Rattle.std.specs.Prelude.{◌≡◌, ◌<◌, ◌≤◌, ◌^◌, ◌-◌, IsErrOf, MatchResult};
ghost use Rattle.disk.specs.{RisesByOne};

use disk::DiskError;

/// The count of the failures of a device. At its last value each call fails.
#[derive(Drop)]
pub struct FailureCount {
    count: u64,
}

impl FailureCount {
    pub fn new() -> FailureCount
        ensures { result.count ≡ 0 }
    {
        FailureCount { count: 0 }
    }

    /// Whether a call is made at all: the count is below its last value.
    pub fn works(&self) -> Result<(), DiskError>
        ensures { MatchResult result (λ _. self.now.count < 2 ^ 64 - 1)
            (λ e. (e ≡ DiskError.Failed) × (2 ^ 64 - 1 ≤ self.now.count)) }
    {
        if self.count == u64::MAX {
            return Err(DiskError::Failed);
        }
        Ok(())
    }

    /// Counts a call if this answer of it reports a failure.
    pub fn end<T>(&mut self, answer: Result<T, DiskError>) -> Result<T, DiskError>
        ensures same { result ≡ answer }
        ensures failed { IsErrOf answer DiskError.Failed →
            RisesByOne self.old.count self.new.count }
        ensures count { (IsErrOf answer DiskError.Failed → ⊥) →
            self.new.count ≡ self.old.count }
    {
        if let Err(DiskError::Failed) = answer {
            self.count = self.count.saturating_add(1);
        }
        answer
    }
}
