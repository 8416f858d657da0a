//! The limits by name, and the range of each.
ghost use Rattle.std.specs.Prelude.{◌≡◌};
ghost use Rattle.kv_types.specs.Limits.{is_allowed};

use crate::bounds::MAX_CACHE;

/// The name of a limit.
#[derive(Clone, Copy)]
pub enum LimitName {
    /// Bytes of a log.
    Log,
    /// Tables of level 0.
    L0,
    /// Bytes of a table's data.
    Table,
    /// Bytes of level 1; each deeper level has ten times the limit of the one above it.
    Level,
    /// Blocks of tables that a store keeps in memory.
    Cache,
}

impl LimitName {
    /// Whether the limit may be this number.
    pub fn allows(self, number: u64) -> bool
        ensures { result ≡ is_allowed self number }
    {
        match self {
            LimitName::Log => (16..=1 << 30).contains(&number),
            LimitName::L0 => number <= 64,
            LimitName::Table => (64..=1 << 30).contains(&number),
            LimitName::Level => (64..=1 << 40).contains(&number),
            LimitName::Cache => (1..=MAX_CACHE).contains(&number),
        }
    }
}
